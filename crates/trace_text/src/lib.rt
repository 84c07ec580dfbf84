//! Traces as bytes.
//!
//! A trace has a line for each effect of each step, and says after them how the session ended. `specs/Lines.antt` gives the text
//! of each: of a call, an answer, a delivery, a death, an end. The lines of a step are held by `StepLines`: a row of bytes with room for
//! one line more, into which words, numbers, texts and names are put one after the other. So a step asks for no memory where the row
//! has room, and only an answer that lists numbers may ask for more within its line. Numbers of up to six digits, which are nearly
//! all, are put by two digits at a time, and longer ones by the kit's `itoa`.
//!
//! The crate stands on the words of `lwp_types` and the texts of `lists`. What scripts and traces write alike, such as flags and
//! patterns, is here too.
#![tactic(auto)]

mod answers;
mod calls;
mod ends;
mod lines;
mod room;
mod rows;
mod step_lines;
mod words;

pub use ends::{Halt, end_lines};
pub use lines::trace_line;
pub use step_lines::StepLines;
pub use words::{
    add_exit, add_flags, add_mode, add_number, add_pattern, add_spaced, add_spaced_text, add_text,
    func_word,
};
