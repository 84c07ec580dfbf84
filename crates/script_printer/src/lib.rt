//! A script written back as bytes.
//!
//! `printed script` is the text of a script, line by line, and `print_script` writes it. Where some text spells the script, the
//! printed one does too, so what is printed is read as it was; that is a law (`printed_is_spelt`).
//!
//! A line that is printed is a phrase, made of what its slots hold (`specs/Building.antt`), and `add_line` puts the phrase's text
//! after the bytes so far. What a phrase and its text are is a matter of `script_lines`.
//!
//! `copy` reads the script that a source holds and writes it so printed; `lwpcheck --print` is made of it. What is printed is read as the
//! same script, so printed once more it is the same bytes. A `CopyFailure` is why a script isn't printed, and displays as the program
//! says it.
//!
//! The crate stands on the scripts of `script_text` and on its grammar, on the lists of texts of `lists`, on the lines of `script_lines`,
//! on `trace_text` for texts and numbers, and on `streams`, by which a source is read to its end and bytes are written to their last.
#![tactic(auto)]

mod copying;
mod failure;
mod laws;
mod line_text;
mod lines;
mod printing;

pub use copying::{asks_for_print, copy};
pub use failure::{CopyFailure, status_of};
pub use laws::printed_is_spelt;
pub use printing::print_script;
