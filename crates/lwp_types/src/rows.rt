// What the pod's lists are lists of.
ghost use Rattle.std.specs.Prelude.{◌≡◌};

use crate::{Cid, ExitCall, Func, Mid, Pattern, Text, Tid};

/// What a thread waits for.
#[derive(Clone, Copy)]
pub enum Block {
    Not,
    Joining(Tid),
    Sending,
    Receiving(Option<Tid>),
    Entering(Mid),
    Waiting(Cid),
    Sleeping,
}

/// An entry of a thread's stack: the start of a procedure, or what it set since.
#[derive(Drop)]
pub enum Mark<'s> {
    Frame,
    Handler {
        pattern: Pattern,
        func: Func,
        arg: u32,
    },
    Exit {
        reg: u64,
        call: ExitCall<'s>,
    },
}

impl<'s> Mark<'s> {
    /// A copy of it.
    pub fn again(&self) -> Mark<'s>
        ensures { result ≡ self.now }
    {
        match self {
            Mark::Frame => Mark::Frame,
            Mark::Handler { pattern, func, arg } => Mark::Handler {
                pattern: *pattern,
                func: *func,
                arg: *arg,
            },
            Mark::Exit { reg, call } => Mark::Exit {
                reg: *reg,
                call: call.again(),
            },
        }
    }
}

/// An exit procedure that has left its stack and is to run. `reg` is the number that its registration was answered.
#[derive(Drop)]
pub struct ExitMark<'s> {
    pub reg: u64,
    pub call: ExitCall<'s>,
}

/// A handler that was found: how many frames there are up to its own, and how many handlers of that frame lie below it.
#[derive(Clone, Copy)]
pub struct Found {
    pub depth: u32,
    pub mark: u32,
    pub func: Func,
    pub arg: u32,
}

/// A thread that waits for so long, and the tick at which it is to wait no longer.
#[derive(Clone, Copy)]
pub struct TimerRow {
    pub tid: Tid,
    pub due: u64,
}

/// A message on its way; `room` is how long a reply its sender takes, in bytes.
#[derive(Drop)]
pub struct Letter<'s> {
    pub from: Tid,
    pub to: Tid,
    pub text: Text<'s>,
    pub room: u8,
    pub received: bool,
}

impl<'s> Letter<'s> {
    /// A copy of it.
    pub fn again(&self) -> Letter<'s>
        ensures { result ≡ self.now }
    {
        Letter {
            from: self.from,
            to: self.to,
            text: self.text.again(),
            room: self.room,
            received: self.received,
        }
    }
}

/// A held monitor; `depth` is how often its owner has entered it.
#[derive(Clone, Copy)]
pub struct Lock {
    pub mon: Mid,
    pub owner: Tid,
    pub depth: u32,
}

/// A thread that waits to enter a monitor, and the depth at which it will hold it.
#[derive(Clone, Copy)]
pub struct Request {
    pub mon: Mid,
    pub tid: Tid,
    pub depth: u32,
}

/// A live condition and its monitor.
#[derive(Clone, Copy)]
pub struct CondRow {
    pub number: Cid,
    pub mon: Mid,
}

/// A thread that waits on a condition, and the depth that it gave up.
#[derive(Clone, Copy)]
pub struct WaitRow {
    pub cond: Cid,
    pub tid: Tid,
    pub depth: u32,
}

/// A live agent, its event and its owner, and whether it holds a message that isn't replied to.
#[derive(Clone, Copy)]
pub struct AgentRow {
    pub number: Tid,
    pub event: u8,
    pub owner: Tid,
    pub holding: bool,
}
