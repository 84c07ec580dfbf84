// What a line of a trace tells.

/// The number that nobody has.
pub const NOBODY: u64 = u64::MAX;

/// What is called, as far as it shows in a picture.
#[derive(Clone, Copy)]
pub enum Verb {
    Create,
    Destroy,
    Suspend,
    Resume,
    Join,
    Sleep,
    Send,
    Receive,
    Enter,
    CondEnter,
    MonExit,
    MonBreak,
    Wait,
    Agent,
    OnExit,
    Say,
    /// Any other call.
    Other,
}

/// What a call is answered, as far as it shows in a picture.
#[derive(Clone, Copy)]
pub enum Gain {
    Value(u64),
    /// A new thread or agent.
    Thread(u64),
    /// A letter, and who has sent it.
    Letter(u64),
    Reply,
    /// An exception was caught.
    Caught,
    Refused,
    /// Any other answer.
    Other,
}

/// What a line tells. Who is named nowhere is `NOBODY`.
#[derive(Clone, Copy)]
pub enum Entry {
    /// A thread calls. The target is the thread, the monitor, the condition or the event that it names; a new thread may begin
    /// suspended.
    Called {
        tid: u64,
        verb: Verb,
        target: u64,
        suspended: bool,
    },
    Answered {
        tid: u64,
        gain: Gain,
    },
    /// An exit procedure has run, and was refused or not.
    Exited {
        reg: u64,
        verb: Verb,
        target: u64,
        refused: bool,
    },
    Died {
        tid: u64,
    },
    /// A client's line was taken.
    Event {
        event: u64,
        client: u64,
        seq: u64,
    },
    /// A later agent of the event has a letter with the same text.
    Also {
        agent: u64,
    },
    /// The clock has ticked; a client's line was taken for it.
    Tick {
        now: u64,
        client: u64,
        seq: u64,
    },
    /// A trap is raised in a thread.
    Trapped {
        tid: u64,
        event: u64,
    },
    /// An agent hears of a death.
    Rites {
        agent: u64,
        dead: u64,
    },
    /// A line after the last step.
    Closing,
}
