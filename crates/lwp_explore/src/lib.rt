//! All sessions of a script: which there are, and how they end.
//!
//! A session is a machine whose cores (`session_cores`) are all that counts for how it goes on: `specs/Cores.antt` says where the
//! steps from a core lead, `specs/Sessions.antt` which sessions a script has, and `specs/CoreLaws.antt` that each of them has a
//! core to which steps lead. `specs/Kinds.antt` has the kinds of ends, `specs/Ends.antt` what is said of them, and `specs/Searching.antt`
//! a program's sessions as a machine that `search` goes through. `specs/Endings.antt` and `specs/Rounds.antt` say what the cores that
//! were found tell of all sessions: each ends, or calls alone go on for ever.
//!
//! `machine` is a session that goes from core to core, by the lines of each client in `posts`, and `along` takes it along a path.
//! `searching` goes through the cores: `quiet` lists the kinds of those that were found, by `cycles` and `listing`, and `ends` says what
//! they come to; `lines` looks for a line, among those that `step_sink` and `tails` have, and `seeking` says where it is; `tracing` has the
//! lines along a path. `words`, `texts` and `kind_text` are what is read and said, and `command` does what the words of `lwpexplore` ask
//! for: `specs/Top.antt` says what that comes to.
#![tactic(auto)]

mod along;
mod command;
mod cycles;
mod ending;
mod ends;
mod kind_text;
mod kinds;
mod laws;
mod lines;
mod listing;
mod machine;
mod posts;
mod quiet;
mod searching;
mod seeking;
mod step_sink;
mod tails;
mod texts;
mod tracing;
mod words;
mod worked;

pub use command::{explore_main, explored};
pub use cycles::in_cycles;
pub use ending::Ending;
pub use kind_text::{add_kind, is_well};
pub use kinds::{End, Kind, kind_of, number_of};
pub use laws::{
    every_call, every_core_session, every_round, every_session_core, every_session_ends,
    every_session_path, every_take,
};
pub use lines::has_line;
pub use listing::{Listed, list_kinds};
pub use posts::ClientPosts;
pub use quiet::{kinds_of, quiet_nexts};
pub use texts::{fault_text, status_of};
pub use words::{Command, command_of};
pub use worked::{
    kinds_that_are_well, leaps_of_places, lines_of_texts, names_of_kinds, numbers_of_kinds,
    statuses, words_of_commands,
};
