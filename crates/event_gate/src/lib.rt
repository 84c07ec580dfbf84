//! Where lines of the outside wait until a pod takes them: lists that are filled beforehand, and ports, to which outside
//! threads post while the pod runs.
//!
//! A gate is two lists of each event, the lines taken and the lines left (`specs/Shelves.antt`). A take gives the first line
//! left of its event, so of each client the lines taken and then those left are what it posts (`specs/History.antt`). A `Rack`
//! is the two lists of each event, of lines or of whatever else a gate makes its lines of.
//!
//! A port is one queue and the two kinds of ends that it has. Each client has a `Poster`, and the runner has the one `Taker`.
//! What holds at each step of any of them is the rule of the port (`specs/Port.antt`): what was pushed is what was popped and
//! then what the queue holds, and each client's part of it is what its poster knows that it has posted. So for every schedule,
//! once a poster's pass is taken in, its lines taken and then its lines queued are what it posted, in order (`TakesIn`).
//!
//! With the queue goes a gauge (`specs/Gauge.antt`), a word that counts tickets. A post draws one before its push, and
//! its line brings it along; a post that is refused gives it back, and the taker takes it in with the line. A take
//! answers `None` only where the queue was found empty and then all tickets were the taker's own (`FindsNothing`): so
//! no line was queued at that step, and no post was under way. What makes this more than a number that the taker keeps is the
//! stamp of each post, the number of finds when it was announced: no step of any kind can count a find while somebody
//! else has a ticket, and keep the rule (`every_true_find`). The crate stands on the words of `lwp_types`, on the event marks
//! of `lists`, on the kit's `crossbeam_queue` for the queue and on its `atomic_table` for the gauge.
#![tactic(auto)]

mod again;
mod bell;
mod book;
mod gate;
mod gauge;
mod gauge_rule;
mod inlet;
mod laws;
mod list_gate;
mod marks;
mod open;
mod port;
mod poster;
mod posts;
mod rack;
mod rule;
mod rung;
mod sent;
mod shelf;
mod taker;
mod view;

pub use again::Again;
pub use bell::Bell;
pub use gate::Gate;
pub use inlet::Inlet;
pub use laws::{every_client_history, every_find, every_gate_history, every_true_find};
pub use list_gate::ListGate;
pub use open::open_port;
pub use poster::{PostPass, PostRefused, Poster};
pub use posts::{NoGate, PostEnd, PostGate, post_all};
pub use rack::Rack;
pub use taker::Taker;
pub use view::{Told, View};
