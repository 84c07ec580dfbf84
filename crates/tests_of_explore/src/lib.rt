//! The tests of what is told of all sessions of a script: kinds of ends, their numbers and names, and the words of `lwpexplore`.
//!
//! A crate with tests of its own is proved once more with them, so those of `lwp_explore` stand here, in a crate that has no other code.
#![tactic(auto)]

#[cfg(test)]
mod answers;
