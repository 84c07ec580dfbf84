// A script as a program sees it. A name or a text is its place in the list of its kind.
use crate::names::NameList;
use lists::TextList;
use lwp_types::{Flags, Func, Mode, Pattern, Sequence};
use script_lines::Test;

/// Whom a statement speaks of: a name, the thread itself, thread 0, the sender of the letter received last, nobody.
#[derive(Clone, Copy)]
pub enum Who {
    Named(u32),
    Me,
    First,
    Sender,
    Nobody,
}

/// What an exit procedure is to do.
#[derive(Clone, Copy)]
pub enum ExitStmt {
    MonExit { mon: u32 },
    MonBreak { mon: u32 },
    Notify { cond: u32 },
    Broadcast { cond: u32 },
    Reply { to: Who, text: u32 },
    Resume { who: Who },
    SetExit { code: u32 },
    Note { text: u32 },
}

/// A statement of a procedure.
#[derive(Clone, Copy)]
pub enum Stmt {
    Create {
        name: u32,
        proc: u32,
        prio: u32,
        flags: Flags,
    },
    Destroy {
        who: Who,
    },
    Ping {
        who: Who,
    },
    Yield {
        to: Who,
    },
    Suspend {
        who: Who,
    },
    Resume {
        who: Who,
    },
    Join {
        who: Who,
    },
    Sleep {
        ticks: u32,
    },
    Resched {
        prio: u32,
    },
    SetPri {
        who: Who,
        prio: u32,
    },
    SetMaxPri {
        prio: u32,
    },
    Me,
    SetExit {
        code: u32,
    },
    GetExit,
    PodExit {
        code: u32,
    },
    Threads,
    Send {
        to: Who,
        room: u8,
        text: u32,
    },
    Recv {
        from: Option<Who>,
        mode: Mode,
    },
    Reply {
        to: Who,
        text: u32,
    },
    Senders,
    Receivers,
    MonCreate {
        mon: u32,
    },
    CvCreate {
        cond: u32,
        mon: u32,
    },
    MonDestroy {
        mon: u32,
    },
    Enter {
        mon: u32,
    },
    CondEnter {
        mon: u32,
    },
    MonExit {
        mon: u32,
    },
    MonBreak {
        mon: u32,
    },
    MonWaiters {
        mon: u32,
    },
    Monitors,
    CvDestroy {
        cond: u32,
    },
    Wait {
        cond: u32,
    },
    Notify {
        cond: u32,
    },
    Broadcast {
        cond: u32,
    },
    CvSend {
        cond: u32,
        who: Who,
    },
    CvWaiters {
        cond: u32,
    },
    Conds,
    CallProc {
        proc: u32,
    },
    Return,
    Handle {
        pattern: Pattern,
        func: Func,
        arg: u32,
    },
    Unhandle,
    Raise {
        pattern: u32,
    },
    ExcNotify {
        pattern: u32,
    },
    Bound {
        pattern: u32,
    },
    UniqPatt,
    OnExit {
        exit: ExitStmt,
    },
    Agent {
        name: u32,
        event: u32,
    },
    Agents,
    Trap {
        event: u32,
    },
    Say {
        text: u32,
    },
    Skip {
        test: Test,
    },
    Again,
}

/// What a built-in procedure is: the store, or a session that serves event `event` from the store named `store`.
#[derive(Clone, Copy)]
pub enum NativeKind {
    Store,
    Session { event: u8, store: u32 },
}

/// A built-in procedure.
#[derive(Clone, Copy)]
pub struct Native {
    pub name: u32,
    pub kind: NativeKind,
}

/// A procedure of statements.
#[derive(Drop)]
pub struct Proc {
    pub name: u32,
    pub stmts: Sequence<Stmt>,
}

/// The names of each kind, in the order in which they first appear.
#[derive(Drop)]
pub struct Names {
    pub procs: NameList,
    pub threads: NameList,
    pub mons: NameList,
    pub conds: NameList,
}

/// A line that a client posts; `seq` counts the client's lines from 0.
#[derive(Clone, Copy)]
pub struct Post {
    pub client: u8,
    pub seq: u32,
    pub text: u32,
}

/// A script: what its pod is made with, the event of each client, its procedures, the lines that its clients post, in the order
/// of the text, and the texts of statements and lines, in that order too.
pub struct Script {
    pub maxpri: u32,
    pub births: u64,
    pub clients: Sequence<u8>,
    pub natives: Sequence<Native>,
    pub procs: Sequence<Proc>,
    pub posts: Sequence<Post>,
    pub names: Names,
    pub texts: TextList,
}

// PROVER: written by hand, so that a function that drops a script calls this instead of repeating its proof.
impl Drop for Script {
    fn drop(self) {
        let Script {
            maxpri: _,
            births: _,
            clients: _,
            natives: _,
            procs: _,
            posts: _,
            names: _,
            texts: _,
        } = self;
    }
}
