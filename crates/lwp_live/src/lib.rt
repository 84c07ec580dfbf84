//! What a script is that is run while the lines of its clients come in: definitions and laws, and the parts of a program that is to
//! come.
//!
//! What a line of the input is, a post of a client or why it is none, and what is said of it then, are definitions over the bytes
//! (`specs/Input.antt`). A script with the lines that were posted after its own is the *recorded* script (`specs/Recorded.antt`). The
//! answers are the accepted replies to agents, each with the client whose line the agent holds (`specs/Answers.antt`). Laws
//! (`specs/Laws.antt`) say that these are what is replied to the agents of each event, that what was told stays, that a recorded
//! script posts the script's lines and then those that came, that it has the script's sessions, and that the script's text with a line
//! for each post of an input spells it.
//!
//! What is there: `command_of` reads the words of the program; `client_of` and `rest_of` part a line of the input; `Desk` judges the
//! lines of an input, and counts those of each client; `Notes` knows the clients of agents, and what a call tells them; `go_beside`
//! and `go_after` are the pod's side of a run that is fed, which takes lines, makes calls and writes the answers, while the reader
//! posts and after it has ended; `keep` puts bytes where they stay; `complaint`, `post_line` and `fault_text` are the texts; `Perhaps`
//! is a sink that may not be there; `Hall` is an input that another thread fills, and that can be left while its thread still waits
//! for more. What isn't there: the thread that reads an input and posts its lines, what opens the inlets and starts it, and the
//! program. Of these the crate has definitions of what they are to do (`specs/Reader.antt`, `specs/Outside.antt`,
//! `specs/Feeding.antt`, `specs/Ending.antt`, `specs/Live.antt`) and the types that these speak of, and no code.
//!
//! The crate stands on the rounds of `pod_runner`, the inlets of `event_gate`, the sessions of `script_session`, the replies of
//! `lwp_serve`, the clients' ends of `script_run`, on `script_text`, `trace_text` and `streams`, and on the kit's `boxcar`.
#![tactic(auto)]

mod arrival;
mod arrivals;
mod beside;
mod command;
mod complaints;
mod desk;
mod hall;
mod laws;
mod notes;
mod outside;
mod perhaps;
mod program;
mod reader;
pub mod rows;
mod stop;
mod store;
mod texts;

pub use arrival::{Arrival, Fault, client_of, rest_of};
pub use arrivals::{Arrivals, HangUp};
pub use beside::{go_after, go_beside};
pub use command::{Command, command_of};
pub use complaints::complaint;
pub use desk::{Desk, post_line};
pub use hall::{Guest, Hall, fill};
pub use laws::{
    answers_are_replies, answers_grow, recorded_posts, recorded_sessions, recorded_spelt,
};
pub use notes::{AgentOf, Notes, Reply};
pub use outside::{Ends, Reading};
pub use perhaps::Perhaps;
pub use program::Fed;
pub use reader::{Owes, Reader, ReaderEnd, Supply};
pub use stop::Stop;
pub use store::{Store, keep};
pub use texts::fault_text;
