// A session as a plain value.
use crate::PodCopy;
use lwp_types::{Answer, Call, Sequence, Tid};

/// What a session, and not its pod, knows of a live thread: the procedure that it began in, the answer that it is
/// polled with next, and the call that it gave last, if it gave one.
#[derive(Drop)]
pub struct ThreadNote<'s> {
    pub tid: Tid,
    pub proc: u32,
    pub answer: Answer<'s>,
    pub last: Option<Call<'s>>,
}

/// How a session stands, but for the bodies of its threads and their names.
#[derive(Drop)]
pub struct Snapshot<'s> {
    pub pod: PodCopy<'s>,
    /// In birth order.
    pub threads: Sequence<ThreadNote<'s>>,
    /// How many calls were made.
    pub calls: u64,
    /// How many lines of each client were taken, by client.
    pub taken: Sequence<u64>,
}
