//! What a pod holds, in parts; what exit procedures do to it; and the death of a thread, after which nothing waits for it.
//!
//! `Parts` are seen as the machine's state by `state_of` (`specs/View.antt`). A function here says one thing of them:
//! `CameTo` (`specs/Comes.antt`), that the parts are in the state, and have told the effects, of the machine's
//! definition of that name in `lwp_types`. `InStep` (`specs/Ties.antt`) is the invariant between the parts, which holds
//! after every change; `LawfulParts` are also a lawful state. What is lawful after a call isn't said again: that the
//! state is follows from the definition alone, by the laws of `pod_laws`.
//!
//! | function | definition |
//! |---|---|
//! | `die` | `death` |
//! | `exit_call` | `run_exit`, by the calls `monitor_exit`, `monitor_break`, `notify`, `broadcast`, `reply`, `resume`, `set_exit` |
//! | `leave_frames` | `unwind` down to the first frames |
//! | `end_agent`, `release` | `end_agent`, `release` |
//! | `wake_done`, `wake_lettered`, `wake_replied` | `unblock`, with the answer of that kind |
//!
//! `copy_of` gives the state as a plain value, and `Parts::again` equal parts that go on by themselves; both change nothing.
//!
//! A thread that waits for another by name is noted in `Named`, in the order of those that are waited for, and a death
//! goes over those alone that wait for it. Room for that is made with each thread, and there is always enough.
//!
//! But for `copy_of`, `again`, `Named::new` and `Named::reserve` nothing here takes memory, and so nothing else runs out of it. A dying
//! thread has left the scheduler: `Parts` keep who that is, and the priority that it had. It stands on the crates of the single parts,
//! on `pod_laws`, on `lists` and on `snapshots`.
#![tactic(auto)]

mod condition_wakes;
mod copies;
mod death;
mod exits;
mod frames;
mod monitor_releases;
mod named;
mod parts;
mod rows;
mod waiters;

pub use condition_wakes::{broadcast, cond_send, is_last, notify};
pub use copies::copy_of;
pub use death::die;
pub use exits::{exit_call, reply, resume, set_exit};
pub use frames::leave_frames;
pub use lwp_types::Block;
pub use monitor_releases::{monitor_break, monitor_exit, release};
pub use named::{Named, note};
pub use parts::{
    Parts, is_agent, is_id, is_thread, set_block, wake_done, wake_lettered, wake_replied,
};
pub use rows::{Awaited, Kind, NamedWait, ThreadRec};
pub use waiters::{end_agent, nth_of};
