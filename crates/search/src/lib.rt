//! A breadth-first search over a machine that a trait gives: which cores it reaches, each once, with its first path.
//!
//! A *core* is all of a machine that counts for how it goes on. What a machine can do is a record of its `Moves`
//! (`specs/Moves.antt`): the first core, where the steps from each core lead, the bytes that encode a core, and its
//! kind, and which steps are looked for. What was found is a list of rows, and `cores_of` says which cores these are (`specs/Found.antt`). Paths have
//! an order, the shorter first and then by their steps (`specs/Paths.antt`), and the cores are found in the order of
//! their first paths. The definitions speak of paths alone, and never of the search.
//!
//! The crate `keys` has bytes as keys for values. This one stands on nothing but std.
#![tactic(auto)]

mod breadth;
mod found;
mod laws;
mod machine;
mod memory;
mod seen;
#[cfg(test)]
mod tests;
mod verdicts;

pub use breadth::{Limits, explore};
pub use found::{Found, Place, Row, path_to};
pub use laws::holds_of_all;
pub use machine::{Machine, go};
pub use memory::NoMemory;
pub use verdicts::{Verdict, judge};
