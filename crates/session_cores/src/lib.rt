//! The core of a session as a key: bytes of all that counts for how the session goes on.
//!
//! A `Core` (`specs/Core.antt`) is the pod with its own events, the bodies of the live threads with the answers that they are polled with
//! next, what the names mean, and how many lines of each client were taken. How many calls were made, when lines were taken and what was
//! written is no part of it. Its bytes are those of its numbers (`specs/Words.antt`, `specs/States.antt`, `specs/CoreCode.antt`), and
//! two cores with the same bytes are one (`every_core`). `put_core` writes the bytes of a run's core.
//!
//! The crate stands on the runs of `pod_runner`, the plain values of `snapshots` and the keys of `keys`, for every kind of body that
//! writes itself.
#![tactic(auto)]

mod cores;
mod laws;
mod part;
mod rows;
mod states;
mod words;
mod worked;

pub use cores::put_core;
pub use laws::every_core;
pub use worked::{bytes_of_a_letter, bytes_of_a_session};
