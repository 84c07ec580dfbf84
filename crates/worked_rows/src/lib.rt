//! Worked rows: short scripts, and for each what the definitions make of it, computed and compared with what was worked out by
//! hand: the whole trace, the end, the number of calls, and the lines taken.
//!
//! The functions have no code, and their clauses are the rows. Every call and every refusal of it stands in a row, each of the
//! eight exit calls with its results, each step of a death, both ends of every range of numbers, and the line server at work.
//! The crate stands on the definitions of the crates below it, and on none of their code.
#![tactic(auto)]

pub mod agent_rows;
pub mod answer_rows;
pub mod condition_rows;
pub mod deaths;
pub mod ends;
pub mod exception_rows;
pub mod exits;
pub mod last_rites;
pub mod limits;
pub mod line_rows;
pub mod message_rows;
pub mod monitor_rows;
pub mod next_calls;
pub mod played;
pub mod scripts;
pub mod servers;
pub mod shared_events;
pub mod sleepers;
pub mod threads;
pub mod time;
pub mod traps;
