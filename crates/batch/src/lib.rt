//! Many inputs in one text, and a job that is done for each of them by several threads of the system.
//!
//! A text is cut into parts, each after a line `script N` that says how many bytes it has: `split` finds where they
//! lie, or which is the first bad one (`parts_of` in `specs/Parts.antt`). `run_parts` does a `Job` for each part, by as
//! many threads as it is told. Its contract is the result of one thread: the answers are what the job means for the
//! parts, in the order of the parts, for every number of threads and every schedule.
//!
//! Each thread takes the next part that nobody has begun, so that a long part delays no other. An answer goes with its
//! part's number, so nothing rests on who came first. The crate stands on `lwp_types`, for the error of running out of
//! memory.
#![tactic(auto)]

mod gathering;
mod job;
mod lines;
mod part;
mod run;
mod working;

pub use job::Job;
pub use part::{BatchErr, INPUT_MAX, PART_MAX, PARTS_MAX, Part, split};
pub use run::{THREADS_MAX, run_parts};
