//! A script is run while threads of the system post the lines of its clients.
//!
//! `run_main` reads a script, starts a thread for each client, and plays the session; all threads have ended when it returns. The
//! system decides when a line has come, so the session says which lines were taken, and when. Its contract is over these
//! (`specs/Live.antt`): each call and each take was due, the lines taken are, of each client, its first in order, and the sink is
//! told exactly the trace of these takes and calls. Where the session is stuck, no line that is left could be taken, those never
//! posted among them. A session that has come to its own end has all lines of the script posted, and hands on that they are
//! (`LiveSession`).
//!
//! `Outside` is the outside of a pod that runs: one thread for each client, which posts its lines, and one inlet for each event that
//! has a client. The inlet is a lane where the event has exactly one client, and else a port. Anyone who runs the pod takes from the
//! inlets in any order; what ties them to the threads is then kept (`specs/Ties.antt`). `Outside::close` joins the threads and takes
//! in their passes, and from then on it is known of each client that the lines taken are the first of those it posted, in order, and
//! which are left (`specs/Served.antt`). Where a thread can't be started, its client's lines are posted before `Outside::start`
//! returns. A thread runs a `Job`, of which its start and its end know nothing but what may come of it. `open_all` opens the inlets
//! alone, by how many lines each client may post, and starts no thread; each client's end is then an `AnyPoster`.
//!
//! The crate stands on the readings and ends of `script_session`, the live runs of `pod_runner`, and on the ports of `event_gate` and
//! the lanes of `lanes`.
#![tactic(auto)]

mod beside;
mod clients;
mod gates;
mod inlet;
mod job;
mod laws;
mod live;
mod opening;
mod outside;
mod poster;

pub use gates::no_gates;
pub use inlet::AnyInlet;
pub use job::{Job, join, start};
pub use laws::{closed_are_served, draws_keep_ties};
pub use live::{LiveSession, run_main};
pub use opening::{Opened, Seat, open_all};
pub use outside::{AllPosted, Outside};
pub use poster::{AnyEnd, AnyPass, AnyPoster};
