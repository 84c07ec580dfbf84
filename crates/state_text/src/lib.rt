//! The text of a session's state: who lives and how each stands, who holds what, who waits for whom, and how the session is over.
//!
//! `cycles_of` gives the deadlocks of a pod as lists. `state_text` writes a snapshot as lines, with the procedures' names and with how many lines each client posts.
//! `specs/Text.antt` gives the text of each line, and `specs/Waiting.antt` whom a thread waits for and which threads
//! are in a deadlock, a cycle of threads that wait for each other: nobody in a cycle goes on before somebody outside it
//! steps in. What belongs to a thread, a monitor or a condition is found by halving, and whom a thread waits for is
//! followed once, so the cost is that of the lines but for a logarithm.
//!
//! The crate stands on the words of `lwp_types`, on `snapshots`, and on `trace_text` and `pod_events` for what traces and pods write and
//! take.
#![tactic(auto)]

mod clients;
mod cycles;
mod entries;
mod keys;
mod laws;
mod parts;
mod tables;
mod text;
mod threads;
mod turns;
mod waiting;
mod words;

pub use clients::ClientLines;
pub use cycles::cycles_of;
pub use laws::{cycles_are_blocked, worked_rows};
pub use text::state_text;
