//! A queue as threads of a pod: customers come at random, wait where there is room, and are served by one of several servers.
//!
//! `Actor` is a thread's body, whichever it is: what it calls next is exactly what `specs/` computes (`actor_next`). The desk keeps the
//! customers who wait, and counts (`specs/Tally.antt`); it waits for a letter of a server, until the next customer comes at most. A
//! server sleeps as long as a service takes, and then tells the desk. Times are ticks, drawn by generators that a seed begins
//! (`specs/Chance.antt`): so the seed determines all. `Hall` is the program, the procedures that threads are created with (`cast`).
//!
//! It stands on `lwp_types` for calls and answers, on the kit's `rand_pcg` and `rand_core` for random words, and on its `itoa` for digits.
#![tactic(auto)]

mod actor;
mod chance;
mod desk;
mod hall;
mod laws;
mod stamp;
mod tally;
mod threads;
mod words;

pub use actor::Actor;
pub use chance::Chance;
pub use desk::Desk;
pub use hall::Hall;
pub use laws::every_desk;
pub use tally::{BARS, Tally};
pub use threads::{DESK, Host, Server};
pub use words::{put, put_count, put_number};
