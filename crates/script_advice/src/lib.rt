//! What is wrong in a script, told so that it can be mended.
//!
//! `check` reads a text and writes what is told of it. Where the text spells no script, its first bad line is told, with the reader's
//! number and reason, and after it each line that is bad by itself: the line, its first wrong word, what is wrong with that, what may
//! stand there, and a known word that it nearly is. An undeclared procedure is told once, and so is a carriage return that ends lines
//! (`told`); what the lines above the first bad one declare says which part of a rule it breaks (`above`). Where the text spells a script,
//! lines are told that are allowed and hardly meant. No more than a thousand lines are told. `check_named` writes a line for each, which
//! begins with the name of a file. `no_errors_where_spelt`, `first_error_is_the_readers` and `errors_are_told` are laws: errors are
//! told exactly where `script_text` refuses a text, and the first of them is its own.
//!
//! What is wrong in a line by itself is a matter of `faults`, with `slots`, `forms`, `near` and `what_texts`. A line that isn't the text
//! of a phrase has a first word that may not stand where it does, or ends too early. `fault_of` finds it, going over the slots of the
//! line's row as the reader of lines does, and it finds one exactly where the reader takes the line for none (`faults_are_unsaid`, a
//! law). `add_form` writes what may be in a line of a kind, and `nearest_op` finds the kind whose key is nearly what is there.
//!
//! The crate stands on `script_text`, whose verdict this is, on `script_lines`, whose table of lines is the only one, on the buffers of
//! `trace_text`, and reads and writes by `streams`.
#![tactic(auto)]

mod above;
mod advice;
mod ahead;
mod checking;
mod doubts;
mod errors;
mod faults;
mod forms;
mod habits;
mod known;
mod laws;
mod lines;
mod near;
mod near_names;
mod remarks;
mod sets;
mod slots;
mod texts;
mod told;
mod way;
mod what_texts;

pub use advice::{Grade, add_report};
pub use checking::{CheckEnd, check, check_named, fault_text, status_of};
pub use laws::{
    errors_are_told, faults_are_unsaid, first_error_is_the_readers, front_is_enough,
    no_errors_where_spelt,
};
pub use texts::Format;
