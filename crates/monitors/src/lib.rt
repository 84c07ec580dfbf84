//! Who holds which monitor, how deeply, and who waits to enter: of those, the first of the greatest priority is next.
//!
//! The contract of each call is one equation between lists: the live monitors, the held locks in the order of their
//! acquisition, the requests in the order of their arrival (`specs/MonitorTable.antt`). It says for the monitors by
//! themselves what the machine of `lwp_types` does to a pod's; the operations on locks are cited from there. A request
//! keeps its thread's priority, which the machine looks up. Requests stand in a `WaitingList` of `lists`, and locks are
//! found by its `Index`.
#![tactic(auto)]

mod laws;
mod live;
mod locks;
mod monitors;
mod requests;
mod slots;

pub use laws::{every_change, every_question, every_rank};
pub use monitors::Monitors;
pub use requests::EntryRequest;
