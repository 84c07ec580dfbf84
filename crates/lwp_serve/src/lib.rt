//! The program: what its words ask for, what its input spells, and what it writes.
//!
//! `top` takes the words, a source and a sink (`TopSays` in `specs/Words.antt`). Where the words are `plan`, a script is read and
//! run with all lines of its clients in place, by `plan_main`; where they are `run`, it is run while threads of the system post
//! these lines, by `run_main`; where they are `make`, nothing is read: a script is made, run in the same way as by `plan`, and
//! summed up, by `make_main`; where they are `batch`, many scripts are read and run so, and a line of each is written, by
//! `batch_main`; where they are `answers`, a script is run as by `plan`, and what one client is told is written, by `answers_main`;
//! where they are `replay`, a script and a recorded trace are read, and whether this is a trace of that script is written, by
//! `replay_main`. Other words are no command, and nothing is read or written then.
//!
//! Each word has a module of its own: `plan` (with `make`, whose scripts are those of `maker`), `answers`, `batches` and `replaying`;
//! `run` has the crate `script_run`. The crate hands on what else a program needs. It stands on the sessions and ends of
//! `script_session`, on `script_run`, `replay` and `batch`, on the scripts of `script_text` and `script_body`, the runs of
//! `pod_runner` and the streams of `streams`.
#![tactic(auto)]

mod answers;
mod batches;
mod command;
mod maker;
mod plan;
mod replaying;

pub use answers::{Silent, answers_main};
pub use batches::batch_main;
pub use command::top;
pub use maker::{Order, Summary, made_spells, make_script, order_at, summary_lines};
pub use plan::{is_over, make_main, plan_main, play_script};
pub use replaying::{Input, REPLAY_MAX, Told, read_input, replay_main, told_by};
pub use script_body::{ScriptProgram, ThreadBody};
pub use script_run::{LiveSession, no_gates, run_main};
pub use script_session::{SCRIPT_MAX, Session, SessionEnd, Taken, TakenLines, fault_text};
pub use streams::{StdSink, StdSource};
