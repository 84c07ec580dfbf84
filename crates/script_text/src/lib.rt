//! Scripts as bytes.
//!
//! A script is read line by line, in whatever pieces its bytes come. What a line says is a matter of `script_lines`;
//! `Spells text script` says which texts are which scripts, and `verdict text` gives the script of a text, or its first bad line
//! with the first reason that fits. The reader answers the verdict, so it reads a script exactly where one is spelt. A text
//! spells one script at most, and a pod can be made for each.
//!
//! Names are numbered by a `WordIndex`, which finds a word in the order of the words and not by a hash, so nobody can choose words
//! that are slow to find.
//!
//! The crate stands on the words of `lwp_types`, on `lists` for texts in order, on `script_lines` for single lines, and on the
//! search for a byte of `memchr`. `script_printer` writes a script back.
#![tactic(auto)]

mod counts;
mod draft;
mod laws;
mod lines;
mod names;
mod packed_words;
mod pieces;
mod reader;
mod reading;
mod reason;
mod script;
mod stage;
mod word_digits;
mod word_index;

pub use laws::{first_bad_is_blamed, one_script, spelt_is_verdict};
pub use names::NameList;
pub use pieces::ScriptReader;
pub use reading::read_script;
pub use reason::{ReadErr, Reason};
pub use script::{ExitStmt, Names, Native, NativeKind, Post, Proc, Script, Stmt, Who};
pub use script_lines::{Test, number_at};
pub use word_index::WordIndex;
