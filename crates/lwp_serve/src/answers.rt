//! What one client of a script is told, apart from all others.
//!
//! `answers_main` reads a script and plays its session as `plan` does, and in place of the trace it writes the replies to the agents
//! of one client's event: of each reply that was accepted, in order, its text on a line of its own. Its contract says: where the
//! source held a script, the sink is told exactly these lines of that script's session (`specs/Answers/Replies.antt`); the session's
//! end, its calls and its takes are those of a plan; or the end names what was in the way, and what was written is then the first part
//! of these lines (`specs/Answers/Answers.antt`). No trace is kept.

mod answering;
mod event_agents;
mod notes;
mod silent;

pub use answering::answers_main;
pub use silent::Silent;
