//! The tests of ports and lanes, and of many inputs at once, with threads of the system.
//!
//! A test calls public functions as a caller would, and looks at what no clause says. A crate with tests of its own is
//! proved once more with them, so those of several crates stand here, in a crate that has no other code, and each of
//! those is proved once.
#![tactic(auto)]

#[cfg(test)]
mod bells;
#[cfg(test)]
mod one_client;
#[cfg(test)]
mod parts;
#[cfg(test)]
mod ports;
#[cfg(test)]
mod three_clients;
#[cfg(test)]
mod workers;
