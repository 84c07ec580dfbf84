//! The tests of the program's calls: plans, runs, what is made, reports on many scripts, verdicts on recorded traces, and what is
//! said of an end.
//!
//! A test calls public functions as a caller would, and looks at what no clause says. A crate with tests of its own is proved once
//! more with them, so those of `lwp_serve` stand here, in a crate that has no other code.
#![tactic(auto)]

#[cfg(test)]
mod beside;
#[cfg(test)]
mod checked;
#[cfg(test)]
mod looks;
#[cfg(test)]
mod many;
#[cfg(test)]
mod replayed;
#[cfg(test)]
mod sessions;
