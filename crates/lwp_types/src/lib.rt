//! The words of a pod of threads: what a thread may ask and how it is answered, what a thread's code is, where bytes come
//! from and go to; and the machine itself, as definitions over plain lists.
//!
//! The contract of everything above is written in these definitions (`specs/`): the state, the thread that is chosen, one
//! step for each call, deaths, the clock, agents, and what holds of every state. They compute. The crate stands on nothing but std.
#![tactic(auto)]

mod again;
mod body;
mod call;
mod effects;
mod env;
mod family;
mod ids;
mod memory;
mod rows;
mod sequence;
mod stream;
mod text;
mod words;

pub use again::Again;
pub use body::{Body, Polled, Program};
pub use call::{
    Answer, Call, Effect, ExitCall, Flags, Func, IdKind, Line, LwpErr, Mode, Pattern, PodEnd,
    PodParams,
};
pub use effects::{Effects, PLACES};
pub use env::Env;
pub use family::{
    AgentCall, ConditionCall, ExceptionCall, Family, MessageCall, MonitorCall, PodCall, ThreadCall,
    TurnCall,
};
pub use ids::{Cid, Mid, NULL_CID, NULL_MID, NULL_TID, NoMemory, Tid, likely_place};
pub use memory::{MemSink, MemSource};
pub use rows::{
    AgentRow, Block, CondRow, ExitMark, Found, Letter, Lock, Mark, Request, TimerRow, WaitRow,
};
pub use sequence::{IdList, Sequence};
pub use stream::{Failed, Sink, Source};
pub use text::{TEXT_MAX, Text, is_text};
