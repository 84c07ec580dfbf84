//! Snapshots: a pod, and a session that it is part of, as plain values.
//!
//! A `StateCopy` has the lists and the numbers of a pod, each as the machine's state has it: `state_in`
//! (`specs/Copies.antt`) is the state that it equals. A `PodCopy` also has the events that the pod keeps for itself,
//! and a `Snapshot` also what a session knows of each thread, how many calls were made and how many lines of each
//! client were taken. Parts, pods and runs make them and are not changed by that; here is only what they are made of.
//! The crate stands on the words of threads alone.
#![tactic(auto)]

mod pod;
mod session;

pub use pod::{PodCopy, StateCopy, ThreadCopy};
pub use session::{Snapshot, ThreadNote};
