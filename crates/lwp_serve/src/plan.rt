//! A script is run with all lines of its clients in place.
//!
//! `plan_main` reads a script and plays its session. Its contract says: where the source held a script, the sink is told exactly
//! the trace of that script's session, which the machine of `lwp_types` defines (`specs/Plan/Planned.antt`); or the session's end names
//! what was in the way, and what was written is then the first part of that trace. The lines that the session says were taken are,
//! of each client, its first lines in order, and the trace counts the rest (`specs/Plan/Plan.antt`). `make_main` makes its script
//! instead, from a seed, and the sink is told five lines that sum the session up (`specs/Plan/Make.antt`).

mod lines;
mod make;
mod session;

pub use make::{is_over, make_main};
pub use session::{plan_main, play_script};
