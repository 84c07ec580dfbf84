//! A session of a script, whatever it is run for: how it begins and ends.
//!
//! `read_whole` reads a source to its end, through one buffer, and gives the script that its bytes spell, or how the session ends
//! without one (`IsRead` and `IsNotRead` in `specs/Said.antt`). `start` makes of a script a run before its first call. A
//! `Session` is what is told of a run after it: its end, with the exit status, the lines that were taken, and how many calls were
//! made; `fault_text` is what is said of an end on standard error.
//!
//! `specs/SoFar.antt` has what a script's session is, and `specs/Said.antt` what each end says of the source, whatever is said of
//! the script. The source is read by the loop of `streams`. The crate stands on that, on the reader of `script_text`, the program of
//! `script_body` and the runs of `pod_runner`.
#![tactic(auto)]

mod opening;
mod session;
mod source;
mod texts;

pub use opening::{read_whole, session_of, start};
pub use session::{Session, SessionEnd, Taken, TakenLines, end_of, status_of};
pub use source::SCRIPT_MAX;
pub use texts::{fault_text, reason_text};
