//! Whole sessions as C programs ask for them: bytes in, bytes and a record of numbers out.
//!
//! `plan` runs a script with all lines of its clients in place. Its outcome holds the length of the trace, as many of its first bytes
//! as are asked for, and how the session ended; of bytes that are no script, why they are refused (`specs/Planned.antt`). In the place of
//! the trace `answers` has what one client is told (`specs/Answered.antt`). `replay` says whether recorded bytes are a trace of a script, or
//! from which line on they differ (`specs/Replayed.antt`). `explore` goes through all sessions of a script (`specs/Explored.antt`). `advise`
//! says what is wrong in a script (`specs/Advised.antt`).
//!
//! What a run writes goes to a `FrontSink`, which keeps the first bytes alone and counts all. The crate stands on the words of
//! `lwp_serve`, of which it uses those that start no thread, on `lwp_explore` and on `script_advice`.
#![tactic(auto)]

mod advised;
mod answered;
mod explored;
mod front_sink;
mod outcome;
mod planned;
mod replayed;
mod slice_source;

pub use advised::{Advice, advise};
pub use answered::answers;
pub use explored::explore;
pub use front_sink::FrontSink;
pub use outcome::{Outcome, SessionRecord};
pub use planned::plan;
pub use replayed::replay;
pub use slice_source::SliceSource;
