//! What a program says of itself, where its one word is `--help` or `--version`, whether it has the stack that it needs, and how
//! long its work takes.
//!
//! `question_of` tells whether the words of a program ask for that (`specs/Questions.antt`), and `print_answer` answers on standard
//! output; no contract can say what that takes. The version of the repository is here and nowhere else. `is_stack_too_small` asks
//! the system; no contract can say what that answers. `tell_time_while` does some work, and meanwhile tells a terminal how long it
//! takes; what the work comes to is what it returns. `suggest_check` names the program that says more of a script that is refused, at a
//! terminal alone. The crate builds on no other.
#![tactic(auto)]

mod hint;
mod question;
mod stack;
mod waiting;

pub use hint::suggest_check;
pub use question::{Question, VERSION, print_answer, question_of};
pub use stack::is_stack_too_small;
pub use waiting::tell_time_while;
