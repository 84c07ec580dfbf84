//! The tests of the words of the machine, of scripts and traces as bytes, and of the line server's table.
//!
//! A test calls public functions as a caller would, and looks at what no clause says. A crate with tests of its own is proved once
//! more with them, so those of several crates stand here, in a crate that has no code besides, and each of those is proved once.
#![tactic(auto)]

#[cfg(test)]
mod counts;
#[cfg(test)]
mod made_scripts;
#[cfg(test)]
mod names;
#[cfg(test)]
mod scripts;
#[cfg(test)]
mod servers;
#[cfg(test)]
mod spoken;
#[cfg(test)]
mod traces;
#[cfg(test)]
mod words;
