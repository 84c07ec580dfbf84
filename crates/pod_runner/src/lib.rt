//! Sessions: what bodies and a pod with its own events do together, step by step.
//!
//! A `Run` is seen as what it plays, the lines that it has taken and how many calls it has made. Its contract is that it plays the
//! session of the definition (`specs/Session.antt`, `specs/Play.antt`): each `turn` is one more call and each `offer` one more take,
//! whose lines are written before it returns. `run` takes lines from a gate, each as soon as it can be delivered, and goes on until
//! the session has ended (`specs/Eager.antt`, `specs/Over.antt`).
//!
//! `run_live` does so while other threads post lines: between two calls it looks at its inlets, each of which has the lines of one
//! event. What comes when is left to the threads that post; so the contract is over the lines that were taken (`specs/Live.antt`). The
//! run plays the session of these takes, and the sink is told its lines. What it took is what the inlets gave, each the lines of its
//! own event in order, but for one line that may be lost where the pod is out of memory. An inlet was looked at as often, at least, as
//! calls were made before which a line of its event could be taken; that a look comes right before its call, no clause says. It is
//! stuck only where no line will come that can be delivered, and quiet only where some client may post still.
//!
//! A `TimedRun` is a run in virtual time: after each call its clock ticks as long as nobody may run and a timer is pending. It keeps
//! neither takes nor lines, so nothing of it grows with its length; what it comes to is read off its bodies. Its sessions are sessions
//! like any other, with those ticks as takes (`specs/Virtual.antt`, `every_timed_session`).
//!
//! `Run::again` gives an equal run in memory of its own: either then goes on by itself, which a search over all sessions needs. Texts are
//! lent, so both share them.
//! `Run::pod`, `rows` and `names` tell how a session stands, part by part, for a key of it.
//!
//! The crate stands on the pod of `lwp_calls`, the events of `pod_events`, the gates and inlets of `event_gate` and the lines of
//! `trace_text`, for every kind of body, program, gate, inlet and sink.
#![tactic(auto)]

mod calls;
mod drive;
mod inlets;
mod laws;
mod live;
mod live_rounds;
mod parts;
mod phase;
mod playing;
mod row_list;
mod rows;
mod session;
mod snapshot;
mod stands;
mod take_list;
mod virtual_time;

pub use drive::{go_round, run};
pub use inlets::{all_told, serve_all};
pub use laws::{every_session, every_session_moves};
pub use live::Live;
pub use live_rounds::run_live;
pub use phase::{Phase, RunErr};
pub use playing::Run;
pub use session::{Made, Row, Took};
pub use take_list::TakeList;
pub use virtual_time::{TimedRun, every_timed_session, run_in_virtual_time};
