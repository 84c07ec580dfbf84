//! Which conditions there are, each of one monitor, and who waits on them: of those, a notify wakes the first of the greatest
//! priority.
//!
//! The contract of each call is one equation between lists: the live conditions, and the waits in the order of their arrival
//! (`specs/ConditionTable.antt`). It says for the conditions by themselves what the machine of `lwp_types` does to a pod's.
//! A wait keeps its thread's priority, which the machine looks up, and the depth at which the thread left its monitor. Waits
//! stand in a `WaitingList`. The crate stands on `lwp_types` and `lists`.
#![tactic(auto)]

mod conds;
mod laws;
mod rows;
mod waits;

pub use conds::Conds;
pub use laws::{every_broadcast, every_change, every_question, every_rank};
pub use waits::WaitRec;
