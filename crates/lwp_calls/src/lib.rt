//! The pod: its parts, and one call at a time by the thread whose turn it is.
//!
//! A `Pod` is seen as the machine's state (`lwp_types/specs/State.antt`). `Pod::call` takes it from one state to the next exactly
//! as the machine's step does, and gives the step's effects in their order, but for the call itself, which comes first; a call
//! that is refused memory leaves the pod as it was. `Pod::deliver` does the same for an event of the outside, or a tick of the
//! clock. It stands on the parts of `death_cleanup`, which carries out deaths and exit procedures, and on the laws of `pod_laws`.
//! Each family of calls has its module, and so have the clock and deliveries to agents; `asks` is what they all ask of the parts, and `pod` makes them.
#![tactic(auto)]

mod agent_calls;
mod asks;
mod condition_calls;
mod deliveries;
mod exception_calls;
mod machine;
mod message_calls;
mod monitor_calls;
mod pod;
mod pod_calls;
mod thread_calls;
mod time_calls;
mod turn_calls;

pub use pod::Pod;
