//! A pod as a C program holds it: in a handle of two words, with calls and effects as records of numbers.
//!
//! A `PodHandle` of zeros is empty; `fill` puts a pod into it, and `take` takes it out. The pod in it lies on the heap, and the handle
//! owns that memory (`specs/Handle.antt`). `HeldPod` is a pod with what its last call or delivery did, the names of its procedures, and
//! the lines of the trace of that step (`specs/Held.antt`). `call_of` reads the call that a `CallRecord` and a text mean, and
//! `set_effect` puts what C is told of an effect into a record; `effect_text` and `put_ids` give its text and its numbers: all parts of
//! each effect that there is (`specs/Calls.antt`, `specs/Records.antt`, `specs/Effects.antt`). `follow` goes along a recorded trace as
//! far as it has the lines of a step (`specs/Follow.antt`).
//!
//! The pod also knows how many calls were made and which procedure each live thread began in (`specs/Origins.antt`). Room for the entry of
//! a thread is made before its create, and the dead are dropped once there are more entries than two for each thread that may live: so the
//! memory doesn't grow with births. `state_text` writes the state of the pod as text (`specs/Standing.antt`).
//!
//! The crate stands on the pods of `lwp_calls` with the events of `pod_events`, on the lines of `trace_text`, and on `snapshots` and
//! `state_text`.
#![tactic(auto)]

mod calls;
mod effects;
mod following;
mod handle;
mod held_pod;
mod origins;
mod records;
mod standing;

pub use calls::{CallRecord, call_of};
pub use effects::{EffectRecord, NO_EFFECT, effect_text, put_bytes, put_ids, put_text, set_effect};
pub use following::{Followed, Place, follow};
pub use handle::PodHandle;
pub use held_pod::{HeldPod, Last};
pub use origins::{Began, Origins};
pub use records::{call_record, call_text, exit_record, exit_text};
