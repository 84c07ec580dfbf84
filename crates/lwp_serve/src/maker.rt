//! Scripts that are made from a number, to try a pod with much to do.
//!
//! A script that is made has a store, a session for each client, and many commands that the clients post, by turns. Its text is
//! a function of a seed, of how many clients there are and of how many lines each posts (`made_script` in `specs/Maker/Made.antt`), and
//! it always spells a script. Here too are the words that ask for one, and the five lines that sum up its session.

mod draws;
mod laws;
mod order;
mod script;
mod summary;
mod write;

pub use laws::made_spells;
pub use order::{Order, order_at};
pub use script::make_script;
pub use summary::{Summary, summary_lines};
