//! A script as a program: its threads, and the lines of its clients.
//!
//! - `ScriptBody`: a thread that runs a procedure of statements. It takes the answer to its last call, goes on to the next
//!   statement that makes a call, and makes it. What it calls, where it then stands, and what the names mean are exactly what
//!   `specs/ScriptBody.antt` computes, for every script, every state and every answer.
//! - `ThreadBody`: any thread of a script, one of these or one of the two that are built in (`specs/Bodies.antt`). `ScriptProgram`
//!   gives them by number, first the procedures of statements and then those that are built in, with their names; so a script is
//!   a program that `pod_runner` runs.
//!   Bodies and programs can be had again, so a run of a script can. Bodies write themselves into keys, without the script that
//!   they run (`specs/BodyKeys.antt`).
//! - `ScriptGate`: the lines of a script's clients, all in place before a run, with no copy of any of them. Of each event it has the
//!   places of that event's posts in the script, in order, and how many of them were taken; a line is made of its post when it is
//!   taken. `stock` makes the gate of a script of which nothing was taken (`specs/Stocked.antt`).
//!
//! What holds of the lines of every script that is read, how many clients there are and how their lines are numbered, is a law
//! (`specs/Posted.antt`). The crate stands on `lwp_types` (calls, answers, names), `script_text` (statements), `line_server` (the
//! built-in threads), `event_gate` (gates) and `keys`.
#![tactic(auto)]

mod body;
mod calls;
mod frame;
mod gate;
mod laws;
mod names;
mod numbers;
mod program;
mod thread_body;
mod walk;

pub use body::ScriptBody;
pub use gate::{ScriptGate, stock};
pub use laws::every_body;
pub use program::ScriptProgram;
pub use thread_body::ThreadBody;
