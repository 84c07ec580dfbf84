//! The agents of a pod: each turns an event of the outside into a message to the thread that owns it.
//!
//! Any number of agents may be for one event. An agent holds a message from its delivery to the reply, and meanwhile the event
//! can't be delivered to any of them. The contract of each call is one equation between lists of agents (`specs/Roster.antt`),
//! in the words of the machine of `lwp_types`: what it does to a pod's agents, a roster does to its own. An index finds the
//! agents of an event and of an owner by halving, and a board counts those of each event, so no call looks at all agents
//! but `list` and `rows`, which copy them. Only these two and `reserve` take memory. The crate stands on `lwp_types` and on the event
//! marks of `lists`.
#![tactic(auto)]

mod agents;
mod board;
mod index;
mod rows;

pub use agents::Agents;
