//! Lists that the parts of a pod are made of: each finds, adds and takes out without going over the others.
//!
//! - `Chains`: several lists through one set of keys, linked both ways, so that a key joins and leaves a list in constant time. A
//!   key is a number, and stands in one list at most, once (`specs/ChainLists.antt`).
//! - `Index`: a number for each of some threads, found at one look (`specs/ThreadIndex.antt`).
//! - `WaitingList`: threads in the order of their arrival, each waiting for one thing, and the first of the greatest priority among
//!   those that wait for the same (`specs/WaitingList/Line.antt`).
//! - `TextList`: texts in one piece of memory, seen as the list of their bytes (`specs/Texts.antt`).
//! - Event marks: a word with a bit for each of 64 events; the first marked event below 32 is found at one look
//!   (`specs/EventMarks.antt`).
//! - `living`: a copy of what places have, of which some are empty (`specs/Living.antt`).
//!
//! The contract of each call is one equation on these lists. `again` gives a copy that goes its own way. Memory is taken by `new`,
//! `again`, `reserve`, `with_cells`, and by the pushes of a `TextList`, and by nothing else. The crate stands on `lwp_types`.
#![tactic(auto)]

mod chain_links;
mod chains;
mod copies;
mod event_marks;
mod places;
mod text_list;
mod thread_index;
mod waiting_list;

pub use chains::Chains;
pub use copies::{cloned, cloned_exactly, cloned_queue};
pub use event_marks::{first_marked, is_marked, no_marks, with_mark};
pub use places::living;
pub use text_list::{Span, TextList};
pub use thread_index::Index;
pub use waiting_list::{Waiting, WaitingList};
