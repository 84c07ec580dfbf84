//! The tests of a death in full, of the calls of a pod, with events of its own and without, and of the lines of its steps. Whole runs
//! are those of scripts, in the corpus.
//!
//! A test calls public functions as a caller would, and looks at what no clause says. A crate with tests of its own is
//! proved once more with them, so those of several crates stand here, in a crate that has no other code, and each of
//! those is proved once.
#![tactic(auto)]

#[cfg(test)]
mod calls;
#[cfg(test)]
mod copies;
#[cfg(test)]
mod deaths;
#[cfg(test)]
mod events;
#[cfg(test)]
mod runs;
