// What a thread may ask of the pod, how it is answered, and what a step does.
ghost use Rattle.std.specs.Prelude.{◌≡◌, IfOk};
ghost use Rattle.lwp_types.specs.Case.{answer_by};

use crate::rows::Letter;
use crate::{Cid, IdList, Mid, NoMemory, Text, Tid};

/// Why a call is refused. `NoError` is the number 0 and is never answered.
#[derive(Clone, Copy, Debug, PartialEq, Eq)]
pub enum LwpErr {
    NoError,
    NonExist,
    Timeout,
    InUse,
    InvalidArg,
    NoRoom,
    NotOwned,
    IllPrio,
    NoWait,
}

/// How a thread is created: it waits to be resumed; its death isn't reported; the pod may end while it still waits.
#[derive(Clone, Copy)]
pub struct Flags {
    pub suspended: bool,
    pub nolastrites: bool,
    pub server: bool,
}

/// Whether a receive waits for a letter, and for how many ticks of the clock at most.
#[derive(Clone, Copy)]
pub enum Mode {
    Poll,
    Block,
    Until { ticks: u32 },
}

/// What a handler catches: every exception, or those of one number from 1 to 2,147,483,647.
#[derive(Clone, Copy)]
pub enum Pattern {
    All,
    Num(u32),
}

/// What a handler answers to a notification: nothing but to catch it, its argument, or that plus the pattern.
#[derive(Clone, Copy)]
pub enum Func {
    Nothing,
    Give,
    Sum,
}

/// What the numbers of a list are.
#[derive(Clone, Copy)]
pub enum IdKind {
    Thread,
    Monitor,
    Cond,
}

/// The answer to a call.
#[derive(Drop)]
pub enum Answer<'s> {
    Value(i64),
    Thread(Tid),
    Monitor(Mid),
    Cond(Cid),
    Letter { from: Tid, text: Text<'s>, room: u8 },
    Reply(Text<'s>),
    Bound { func: Func, arg: u32 },
    Caught { depth: u32, mark: u32, pattern: u32 },
    Ids { kind: IdKind, list: IdList },
    Refused(LwpErr),
}

impl<'s> Answer<'s> {
    /// The answer to a call that was carried out, with a number, or refused.
    pub fn of(done: Result<i64, LwpErr>) -> Answer<'s>
        ensures { result ≡ answer_by done }
    {
        match done {
            Ok(value) => Answer::Value(value),
            Err(error) => Answer::Refused(error),
        }
    }

    /// An equal answer. A list of numbers has memory of its own.
    pub fn again(&self) -> Result<Answer<'s>, NoMemory>
        ensures { IfOk result (λ copy. copy ≡ self.now) }
    {
        Ok(match self {
            Answer::Value(value) => Answer::Value(*value),
            Answer::Thread(tid) => Answer::Thread(*tid),
            Answer::Monitor(mon) => Answer::Monitor(*mon),
            Answer::Cond(cond) => Answer::Cond(*cond),
            Answer::Letter { from, text, room } => Answer::Letter {
                from: *from,
                text: text.again(),
                room: *room,
            },
            Answer::Reply(text) => Answer::Reply(text.again()),
            Answer::Bound { func, arg } => Answer::Bound {
                func: *func,
                arg: *arg,
            },
            Answer::Caught {
                depth,
                mark,
                pattern,
            } => Answer::Caught {
                depth: *depth,
                mark: *mark,
                pattern: *pattern,
            },
            Answer::Ids { kind, list } => Answer::Ids {
                kind: *kind,
                list: list.again()?,
            },
            Answer::Refused(error) => Answer::Refused(*error),
        })
    }

    /// A letter, as the thread that receives it is answered.
    pub fn letter(letter: &Letter<'s>) -> Answer<'s>
        ensures { result ≡ Answer.Letter letter.now.from letter.now.text letter.now.room }
    {
        Answer::Letter {
            from: letter.from,
            text: letter.text.again(),
            room: letter.room,
        }
    }
}

/// A call that an exit procedure makes: one of the eight that neither block, raise nor kill.
#[derive(Drop)]
pub enum ExitCall<'s> {
    MonExit { mon: Mid },
    MonBreak { mon: Mid },
    Notify { cond: Cid },
    Broadcast { cond: Cid },
    Reply { to: Tid, text: Text<'s> },
    Resume { tid: Tid },
    SetExit { code: u32 },
    Note { text: Text<'s> },
}

impl<'s> ExitCall<'s> {
    /// A copy of it.
    pub fn again(&self) -> ExitCall<'s>
        ensures { result ≡ self.now }
    {
        match self {
            ExitCall::MonExit { mon } => ExitCall::MonExit { mon: *mon },
            ExitCall::MonBreak { mon } => ExitCall::MonBreak { mon: *mon },
            ExitCall::Notify { cond } => ExitCall::Notify { cond: *cond },
            ExitCall::Broadcast { cond } => ExitCall::Broadcast { cond: *cond },
            ExitCall::Reply { to, text } => ExitCall::Reply {
                to: *to,
                text: text.again(),
            },
            ExitCall::Resume { tid } => ExitCall::Resume { tid: *tid },
            ExitCall::SetExit { code } => ExitCall::SetExit { code: *code },
            ExitCall::Note { text } => ExitCall::Note { text: text.again() },
        }
    }
}

/// A call that a thread makes. Priorities, procedures, patterns and events may be any number: the pod refuses what doesn't fit.
#[derive(Drop)]
pub enum Call<'s> {
    Create {
        proc: u32,
        prio: u32,
        flags: Flags,
    },
    Destroy {
        tid: Tid,
    },
    Ping {
        tid: Tid,
    },
    Yield {
        to: Tid,
    },
    Resched {
        prio: u32,
    },
    SetPri {
        tid: Tid,
        prio: u32,
    },
    Suspend {
        tid: Tid,
    },
    Resume {
        tid: Tid,
    },
    Join {
        tid: Tid,
    },
    Sleep {
        ticks: u32,
    },
    Me,
    SetMaxPri {
        prio: u32,
    },
    SetExit {
        code: u32,
    },
    GetExit,
    PodExit {
        code: u32,
    },
    Threads,
    Send {
        to: Tid,
        room: u8,
        text: Text<'s>,
    },
    Recv {
        from: Option<Tid>,
        mode: Mode,
    },
    Reply {
        to: Tid,
        text: Text<'s>,
    },
    Senders,
    Receivers,
    MonCreate,
    MonDestroy {
        mon: Mid,
    },
    Enter {
        mon: Mid,
    },
    CondEnter {
        mon: Mid,
    },
    MonExit {
        mon: Mid,
    },
    MonBreak {
        mon: Mid,
    },
    Monitors,
    MonWaiters {
        mon: Mid,
    },
    CvCreate {
        mon: Mid,
    },
    CvDestroy {
        cond: Cid,
    },
    Wait {
        cond: Cid,
    },
    Notify {
        cond: Cid,
    },
    Broadcast {
        cond: Cid,
    },
    CvSend {
        cond: Cid,
        tid: Tid,
    },
    Conds,
    CvWaiters {
        cond: Cid,
    },
    CallProc {
        proc: u32,
    },
    Return,
    Handle {
        pattern: Pattern,
        func: Func,
        arg: u32,
    },
    Unhandle,
    OnExit {
        call: ExitCall<'s>,
    },
    Raise {
        pattern: u32,
    },
    ExcNotify {
        pattern: u32,
    },
    Bound {
        pattern: u32,
    },
    UniqPatt,
    Agent {
        event: u32,
    },
    Agents,
    Trap {
        event: u32,
    },
    Say {
        text: Text<'s>,
    },
}

/// One thing that a step did.
#[derive(Drop)]
pub enum Effect<'s> {
    Called {
        tid: Tid,
        call: Call<'s>,
    },
    Answered {
        tid: Tid,
        answer: Answer<'s>,
    },
    Exited {
        tid: Tid,
        reg: u64,
        call: ExitCall<'s>,
        answer: Answer<'s>,
    },
    Died {
        tid: Tid,
    },
    Delivered {
        agent: Tid,
        event: u8,
    },
    Ticked {
        now: u64,
    },
    Ended {
        status: u8,
    },
    Trapped {
        tid: Tid,
        event: u8,
    },
    Rites {
        agent: Tid,
        dead: Tid,
    },
}

impl<'s> Effect<'s> {
    /// An equal effect. A list of numbers has memory of its own.
    pub fn again(&self) -> Result<Effect<'s>, NoMemory>
        ensures { IfOk result (λ copy. copy ≡ self.now) }
    {
        Ok(match self {
            Effect::Called { tid, call } => Effect::Called {
                tid: *tid,
                call: call.again(),
            },
            Effect::Answered { tid, answer } => Effect::Answered {
                tid: *tid,
                answer: answer.again()?,
            },
            Effect::Exited {
                tid,
                reg,
                call,
                answer,
            } => Effect::Exited {
                tid: *tid,
                reg: *reg,
                call: call.again(),
                answer: answer.again()?,
            },
            Effect::Died { tid } => Effect::Died { tid: *tid },
            Effect::Delivered { agent, event } => Effect::Delivered {
                agent: *agent,
                event: *event,
            },
            Effect::Ticked { now } => Effect::Ticked { now: *now },
            Effect::Ended { status } => Effect::Ended { status: *status },
            Effect::Trapped { tid, event } => Effect::Trapped {
                tid: *tid,
                event: *event,
            },
            Effect::Rites { agent, dead } => Effect::Rites {
                agent: *agent,
                dead: *dead,
            },
        })
    }
}

/// Why it is nobody's turn: the pod has ended, with a status; or nobody may run as it stands.
#[derive(Clone, Copy, Debug, PartialEq, Eq)]
pub enum PodEnd {
    Ended(u8),
    Idle,
}

/// What a pod is made with: the greatest priority (1 to 255), the limit on births of each kind (1 to 4,294,967,295), and
/// the number of procedures (at least 1).
#[derive(Clone, Copy)]
pub struct PodParams {
    pub maxpri: u32,
    pub births: u64,
    pub procs: u32,
}

/// A line that a client posts; `seq` counts the client's lines from 0.
#[derive(Drop)]
pub struct Line<'s> {
    pub client: u8,
    pub seq: u32,
    pub text: Text<'s>,
}

impl<'s> Line<'s> {
    /// A copy of it.
    pub fn again(&self) -> Line<'s>
        ensures { result ≡ self.now }
    {
        Line {
            client: self.client,
            seq: self.seq,
            text: self.text.again(),
        }
    }
}
