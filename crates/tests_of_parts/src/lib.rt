//! The tests of the parts of a pod, and of the lists that the scheduler stands on.
//!
//! A test calls public functions as a caller would, and looks at what no clause says. A crate with tests of its own is
//! proved once more with them, so those of several crates stand here, in a crate that has no other code, and each of
//! those is proved once.
#![tactic(auto)]

#[cfg(test)]
mod births;
#[cfg(test)]
mod copies;
#[cfg(test)]
mod event_agents;
#[cfg(test)]
mod id_lists;
#[cfg(test)]
mod letters;
#[cfg(test)]
mod linked_lists;
#[cfg(test)]
mod locks;
#[cfg(test)]
mod priorities;
#[cfg(test)]
mod scheduler;
#[cfg(test)]
mod stacks;
#[cfg(test)]
mod waiting;
#[cfg(test)]
mod waits;
