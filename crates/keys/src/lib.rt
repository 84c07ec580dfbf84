//! Keys: bytes that stand for values, so that equal bytes mean equal values.
//!
//! A value is first a list of numbers (`specs/Numbers.antt`), and the numbers are then bytes (`specs/Spelling.antt`): small numbers take
//! one byte, and any other a byte for each 7 bits. `IsCode` is the one law of each type: numbers that begin with those of one value begin
//! with those of no other, so values may be written one after another. It is stronger than equal numbers, equal values. The laws of lists,
//! options, pairs and records from those of their parts are in `specs/NumberLaws.antt`; that bytes tell apart what numbers do is
//! `spelt_is_code` in `specs/SpellingLaws.antt`. No law asks that a number be small.
//!
//! A `Key` is written number by number, and seen as the list of them. A type that a key can have writes itself (`Keyed`). The crate
//! stands on nothing but std.
#![tactic(auto)]

mod key;
mod keyed;
mod laws;
#[cfg(test)]
mod tests;

pub use key::Key;
pub use keyed::Keyed;
pub use laws::{bytes_have_the_law, bytes_of_numbers, numbers_have_the_law, turned_numbers_differ};
