// What a program is asked of itself, and its answer.
ghost use Rattle.std.specs.Prelude.{◌≡◌, map, string_bytes};
ghost use Rattle.about.specs.Questions.{by_word, question_of};

use std::io;

/// The version of this repository, and of all its programs.
pub const VERSION: &str = "1.0";

/// What a program is asked of itself.
#[derive(Clone, Copy, Debug, PartialEq, Eq)]
pub enum Question {
    /// How it is used.
    Help,
    /// Its name and its version.
    Version,
}

// What one word asks.
fn by_word(word: &[u8]) -> Option<Question>
    ensures { result ≡ by_word word.now }
{
    if word == b"--help".as_slice() {
        Some(Question::Help)
    } else if word == b"--version".as_slice() {
        Some(Question::Version)
    } else {
        None
    }
}

/// What these words, the program's name not among them, ask of the program itself. With a second word they ask nothing.
pub fn question_of(words: &Vec<String>) -> Option<Question>
    ensures { result ≡ question_of (map string_bytes words.now.items) }
{
    match words.as_slice() {
        [word] => by_word(word.as_bytes()),
        _ => None,
    }
}

/// Prints the help as it is, or a line with the program's name and the version. An error of standard output is handed on.
pub fn print_answer(
    rt: &HostRuntime,
    question: Question,
    program: &str,
    help: &str,
) -> io::Result<()> {
    match question {
        Question::Help => print!(rt; "{help}"),
        Question::Version => println!(rt; "{program} {VERSION}"),
    }
}
