//! The two procedures that are built in: a session, which serves the client of one event, and a store, which sessions ask.
//!
//! A session carries its client's commands to the store and the replies back. The store keeps one table for each thread that
//! sends to it. What either calls next is exactly what `specs/Sessions.antt` and `specs/Stores.antt` compute, for every state
//! and every answer. A store tells a sender what its own texts are told on its own table, whatever others send
//! (`senders_are_apart`), so what a client is answered is a function of its lines alone (`line_answers` in `specs/Tables.antt`).
//!
//! Tables stand in std's ordered map, and the keys of a table, 100 at most, in their order in a vector: anyone who chooses the
//! keys can't make a look-up cost more than a walk down a balanced tree and a search by halves. Both procedures write
//! themselves into keys (`specs/Keys.antt`). The crate stands on `lwp_types` and `keys`.
#![tactic(auto)]

mod calls;
mod command;
mod entries;
mod entry;
mod kept;
mod laws;
mod session;
mod store;
mod table;
mod words;

pub use laws::senders_are_apart;
pub use session::SessionBody;
pub use store::StoreBody;
