//! A line of a script.
//!
//! A line is a phrase: a row of the table, and what is in the row's slots. Its text is a function of the phrase
//! (`phrase_text`), and `phrase_at` finds the phrase of a text. That it finds one exactly where a phrase has that text, and that
//! phrase, is a law (`said_is_spelt`). The two kinds of lines of which a script has most are told without a phrase (`said_at`,
//! `posted_at`). In what order lines may stand, and what they say together, is no matter of this crate.
//!
//! The crate stands on the words of `lwp_types`, and on `trace_text` for what scripts and traces write alike.
#![tactic(auto)]

mod laws;
mod phrase;
mod spoken;
mod table;
mod words;

pub use laws::said_is_spelt;
pub use phrase::{Phrase, blank, phrase_at};
pub use spoken::{posted_at, said_at};
pub use table::{Kind, Op, Role, Test, Whom};
pub use words::{is_name, is_printable, number_at, reach};
