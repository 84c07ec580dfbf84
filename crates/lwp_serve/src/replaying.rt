//! Is a recorded trace a trace of that script?
//!
//! `replay_main` reads an input: a line that says how many bytes the script has, the script, and after it what was recorded
//! (`specs/Replaying/Input.antt`). It writes that the recorded bytes are a trace of that script, and of how many lines; or which line is
//! the first that differs, which one was to come there, and which was recorded (`specs/Replaying/Texts.antt`). Its contract says: the
//! session ends as the same exactly by what the crate `replay` says of such a trace, or as one that differs, by what it says of such a
//! line; the lines that it tells as taken, and its calls, are those of the verdict; or its end names what was in the way, and nothing
//! was written then, or where a write failed the first part of the output (`specs/Replaying/Replay.antt`). The recorded bytes are read
//! once and not copied.

mod checked;
mod input;
mod told;

pub use checked::replay_main;
pub use input::{Input, REPLAY_MAX, read_input};
pub use told::{Told, told_by};
