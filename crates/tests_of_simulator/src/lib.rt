//! The tests of the simulator: a small queue whose customers were worked out by hand, and texts that are kept or refused.
//!
//! A test calls public functions as a caller would. They stand in a crate that has no other code, since a crate with tests is proved once
//! more with them.
#![tactic(auto)]

#[cfg(test)]
mod halls;
#[cfg(test)]
mod texts;
