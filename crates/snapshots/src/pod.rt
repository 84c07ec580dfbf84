// A pod as a plain value.
use lwp_types::{
    AgentRow, Block, CondRow, Flags, IdList, Letter, Lock, Mark, Request, Sequence, Tid, TimerRow,
    WaitRow,
};

/// A live thread. Its marks stand from the bottom of its stack to the top.
#[derive(Drop)]
pub struct ThreadCopy<'s> {
    pub number: Tid,
    pub priority: u32,
    pub flags: Flags,
    pub suspended: bool,
    pub block: Block,
    pub marks: Sequence<Mark<'s>>,
}

/// All that the machine's state has.
#[derive(Drop)]
pub struct StateCopy<'s> {
    /// In birth order.
    pub threads: Sequence<ThreadCopy<'s>>,
    /// The run queue: those that may run, in the order in which they would.
    pub order: IdList,
    /// In FIFO order.
    pub timers: Sequence<TimerRow>,
    /// In the order of their sending.
    pub letters: Sequence<Letter<'s>>,
    /// The live monitors, in birth order.
    pub monitors: IdList,
    /// In the order in which they were acquired.
    pub locks: Sequence<Lock>,
    /// In FIFO order.
    pub requests: Sequence<Request>,
    /// In birth order.
    pub conditions: Sequence<CondRow>,
    /// In FIFO order.
    pub waits: Sequence<WaitRow>,
    /// In birth order.
    pub agents: Sequence<AgentRow>,
    /// How often the clock has ticked.
    pub now: u64,
    pub maxpri: u32,
    /// The exit status.
    pub status: u32,
    pub ended: bool,
    /// How many threads and agents were ever born.
    pub births: u64,
    pub monitor_births: u64,
    pub condition_births: u64,
    /// What none of the three counts may pass.
    pub limit: u64,
    /// How many procedures there are.
    pub procs: u32,
    pub next_registration: u64,
    pub next_pattern: u32,
}

/// A pod with the events that it keeps for itself.
#[derive(Drop)]
pub struct PodCopy<'s> {
    pub state: StateCopy<'s>,
    /// Of each event, whether it is trapped.
    pub trapped: [bool; 32],
    /// The event whose trap is raised at the next call.
    pub pending: Option<u8>,
    /// The dead that are to be reported, in the order of their deaths.
    pub reports: IdList,
}
