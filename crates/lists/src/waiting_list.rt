//! Threads that wait in the order of their arrival, each for one thing, and the first of the greatest priority among those
//! that wait for the same.
//!
//! The contract of each call is one equation on the list of those that wait (`specs/WaitingList/Line.antt`). Only `reserve`,
//! `tids` and `rows` take memory. What they wait for is a number, of a monitor or of a condition.

mod filing;
mod keys;
mod line;
mod pieces;
mod rows;

pub use line::WaitingList;
pub use rows::Waiting;
