//! What a program reads: standard input, or a file that its last word names.
//!
//! `take_file` takes the name of a file from the end of a program's words, where one stands there (`specs/Files.antt`); the program
//! then treats the words that are left as ever. A `FileSource` is a source over that file. It opens the file when it is first read, so a
//! program whose words are no command opens none, and it keeps why the file couldn't be opened. As the sources of `streams` it
//! tells no bytes and counts the reads that failed; what a file holds no contract can say.
//!
//! The crate stands on `lwp_types`, whose source this is, and on `streams`.
#![tactic(auto)]

mod file_source;
mod words;

pub use file_source::FileSource;
pub use words::take_file;
