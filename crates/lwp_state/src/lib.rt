//! The state of a session as a text: at the end of a plan, or at a line of a recorded trace.
//!
//! `top` takes the words of the program, a source and a sink (`TopSays` in `specs/Words.antt`). Where the words are `plan`, a script is
//! read and run with all lines of its clients in place, and the text of the state that it comes to is written, by `state_after_plan`
//! (`specs/Plan.antt`). Where they are `replay`, a script and a recorded trace are read. If one of the lines that are asked for is no
//! line of a trace, what `lwpserve` says of that is written; else the text of the state after the last step whose lines all are
//! among them, by `state_in_replay` (`specs/Replay.antt`). The trace itself is written by neither.
//!
//! How far a session has come by a line is a definition over its moments (`specs/Along.antt`): a second run of the script, over a sink
//! that counts lines, finds the moment, and a third run makes the steps up to there. The crate stands on the sessions of
//! `script_session` and `lwp_serve`, the verdicts of `replay`, the snapshots of `pod_runner` and the text of `state_text`.
#![tactic(auto)]

mod along;
mod clients;
mod command;
mod line_sink;
mod planning;
mod replaying;
mod showing;
mod texts;

pub use command::top;
pub use planning::state_after_plan;
pub use replaying::state_in_replay;
pub use texts::fault_text;
