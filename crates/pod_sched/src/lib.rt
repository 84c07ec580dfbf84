//! The scheduler of a pod: it knows threads, and chooses who runs. That is the first of the greatest priority in the
//! run queue, which has the threads that nobody has suspended and that wait for nothing.
//!
//! The contract of each call is one equation between lists: the known threads, and the run queue
//! (`specs/Schedule.antt`). It says for a scheduler by itself what the machine of `lwp_types` does to a pod's threads
//! and run queue; what both speak of, the choice among them, is cited from there, and `laws` says that the scheduler
//! refines the machine. Only `new`, `reserve` and what copies the run queue or the timers take memory, and no other
//! call goes over the threads, the run queue or the timers: the module `buckets` keeps the run queue, with a list of
//! each priority, and `timers` the clock. The crate stands on `lists` and on `lwp_types`.
#![tactic(auto)]

mod bucket;
mod buckets;
mod filing;
pub mod laws;
mod rows;
mod sched;
mod timers;
mod turns;

pub use bucket::Bucket;
pub use buckets::{Buckets, Looks, Steps, first_of_last};
pub use rows::Known;
pub use sched::Sched;
pub use timers::Timers;
