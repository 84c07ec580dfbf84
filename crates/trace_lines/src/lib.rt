//! The lines of a trace, read back.
//!
//! `entry_of` takes a line to what a picture of the trace needs of it: who called what, who was answered, what an exit procedure
//! did, who died, which line was taken and which further agents it went to, when the clock has ticked, or how it ended.
//! `specs/Entries.antt` has the definitions. The line is read no further than that, so anything may follow the words that are needed; a
//! line of which they can't be read is no line of a trace. `called_again` and its neighbours say that whatever `trace_text` prints is
//! read back.
//!
//! The crate stands on `lwp_types`, on `script_lines` for the words of calls, and its laws on `trace_text`.
#![tactic(auto)]

mod entry;
mod laws;
mod reading;
mod words;

pub use entry::{Entry, Gain, NOBODY, Verb};
pub use laws::{
    also_again, answered_again, called_again, closed_again, delivered_again, died_again,
    exited_again, only_also, ticked_again,
};
pub use reading::entry_of;
pub use words::{reach, rest, skip, whole_number, word};
