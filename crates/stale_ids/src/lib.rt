//! Values under the numbers of their births: who lives, since when, and how many were ever born.
//!
//! The contract of each call is one equation on the list of the living, the oldest first, and the count of births
//! (`specs/Register.antt`). A birth gets the count before it, so no number comes twice, and an old one never finds the
//! value that took its place in memory. The values are kept in the kit's `slab`, and found by an index from numbers to
//! their keys there. A registry whose values can be copied (`Again`) can be copied itself. It stands on `slab` and the
//! standard library alone: that memory was refused is a type of its own.
#![tactic(auto)]

mod again;
mod index;
mod no_memory;
mod registry;

pub use again::Again;
pub use no_memory::NoMemory;
pub use registry::Registry;
