// Calls as C writes them.
ghost use Rattle.std.specs.Prelude.{◌≡◌};
ghost use Rattle.c_pods.specs.Calls.{call_of, exit_call, func_of, lock_call, mode_of, pattern_of, plain_call, stack_call};

use lwp_types::{Call, Cid, ExitCall, Flags, Func, Mid, Mode, Pattern, Text, Tid};

/// A call, by its kind. What isn't named for its kind is not read, and is 0 where the library writes one.
#[repr(C)]
#[derive(Clone, Copy, Drop)]
pub struct CallRecord {
    pub kind: u32,
    /// A procedure, ticks, a code, a pattern or an event.
    pub number: u32,
    /// The argument of a handler.
    pub arg: u32,
    pub prio: u32,
    /// The kind of the call that an exit procedure makes.
    pub exit: u32,
    /// The thread, monitor or condition that the call is on.
    pub target: u64,
    /// The thread that a condition's signal is sent to.
    pub other: u64,
    /// 0 to 240 bytes of a reply.
    pub room: u8,
    /// How a receive waits: 0 not at all, 1 for good, 2 for `number` ticks.
    pub mode: u8,
    /// What a handler gives: 0 nothing, 1 its argument, 2 the sum.
    pub func: u8,
    /// A receive takes letters of anybody; a handler catches all patterns.
    pub any: bool,
    pub suspended: bool,
    pub nolastrites: bool,
    pub server: bool,
}

/// No call, with nothing in it.
pub const NO_CALL: CallRecord = CallRecord {
    kind: 4_294_967_295,
    number: 0,
    arg: 0,
    prio: 0,
    exit: 0,
    target: 0,
    other: 0,
    room: 0,
    mode: 0,
    func: 0,
    any: false,
    suspended: false,
    nolastrites: false,
    server: false,
};

fn tid(number: u64) -> Tid
    ensures { result ≡ number }
{
    Tid { number }
}

fn mid(number: u64) -> Mid
    ensures { result ≡ number }
{
    Mid { number }
}

fn cid(number: u64) -> Cid
    ensures { result ≡ number }
{
    Cid { number }
}

fn func_of(func: u8) -> Option<Func>
    ensures { result ≡ func_of func }
{
    match func {
        0 => Some(Func::Nothing),
        1 => Some(Func::Give),
        2 => Some(Func::Sum),
        _ => None,
    }
}

fn mode_of(mode: u8, ticks: u32) -> Option<Mode>
    ensures { result ≡ mode_of mode ticks }
{
    match mode {
        0 => Some(Mode::Poll),
        1 => Some(Mode::Block),
        2 => Some(Mode::Until { ticks }),
        _ => None,
    }
}

fn pattern_of(any: bool, number: u32) -> Pattern
    ensures { result ≡ pattern_of any number }
{
    if any {
        Pattern::All
    } else {
        Pattern::Num(number)
    }
}

// Calls on threads and on the pod, and of letters.
fn plain_call(call: &CallRecord, text: Text<'static>) -> Option<Call<'static>>
    ensures { result ≡ plain_call call.now text.entry }
{
    let CallRecord {
        kind,
        number,
        prio,
        target,
        room,
        ..
    } = *call;
    match kind {
        0 => Some(Call::Create {
            proc: number,
            prio,
            flags: Flags {
                suspended: call.suspended,
                nolastrites: call.nolastrites,
                server: call.server,
            },
        }),
        1 => Some(Call::Destroy { tid: tid(target) }),
        2 => Some(Call::Ping { tid: tid(target) }),
        3 => Some(Call::Yield { to: tid(target) }),
        4 => Some(Call::Resched { prio }),
        5 => Some(Call::SetPri {
            tid: tid(target),
            prio,
        }),
        6 => Some(Call::Suspend { tid: tid(target) }),
        7 => Some(Call::Resume { tid: tid(target) }),
        8 => Some(Call::Join { tid: tid(target) }),
        9 => Some(Call::Sleep { ticks: number }),
        10 => Some(Call::Me),
        11 => Some(Call::SetMaxPri { prio }),
        12 => Some(Call::SetExit { code: number }),
        13 => Some(Call::GetExit),
        14 => Some(Call::PodExit { code: number }),
        15 => Some(Call::Threads),
        16 => Some(Call::Say { text }),
        17 => Some(Call::Send {
            to: tid(target),
            room,
            text,
        }),
        18 => Some(Call::Recv {
            from: if call.any { None } else { Some(tid(target)) },
            mode: mode_of(call.mode, number)?,
        }),
        19 => Some(Call::Reply {
            to: tid(target),
            text,
        }),
        20 => Some(Call::Senders),
        21 => Some(Call::Receivers),
        22 => Some(Call::Agent { event: number }),
        23 => Some(Call::Agents),
        24 => Some(Call::Trap { event: number }),
        _ => None,
    }
}

// Calls on monitors and conditions.
fn lock_call(call: &CallRecord) -> Option<Call<'static>>
    ensures { result ≡ lock_call call.now.kind call.now.target call.now.other }
{
    let target = call.target;
    match call.kind {
        32 => Some(Call::MonCreate),
        33 => Some(Call::MonDestroy { mon: mid(target) }),
        34 => Some(Call::Enter { mon: mid(target) }),
        35 => Some(Call::CondEnter { mon: mid(target) }),
        36 => Some(Call::MonExit { mon: mid(target) }),
        37 => Some(Call::MonBreak { mon: mid(target) }),
        38 => Some(Call::Monitors),
        39 => Some(Call::MonWaiters { mon: mid(target) }),
        40 => Some(Call::CvCreate { mon: mid(target) }),
        41 => Some(Call::CvDestroy { cond: cid(target) }),
        42 => Some(Call::Wait { cond: cid(target) }),
        43 => Some(Call::Notify { cond: cid(target) }),
        44 => Some(Call::Broadcast { cond: cid(target) }),
        45 => Some(Call::CvSend {
            cond: cid(target),
            tid: tid(call.other),
        }),
        46 => Some(Call::Conds),
        47 => Some(Call::CvWaiters { cond: cid(target) }),
        _ => None,
    }
}

// The call that an exit procedure makes.
fn exit_call(call: &CallRecord, text: Text<'static>) -> Option<ExitCall<'static>>
    ensures { result ≡ exit_call call.now text.entry }
{
    let target = call.target;
    match call.exit {
        36 => Some(ExitCall::MonExit { mon: mid(target) }),
        37 => Some(ExitCall::MonBreak { mon: mid(target) }),
        43 => Some(ExitCall::Notify { cond: cid(target) }),
        44 => Some(ExitCall::Broadcast { cond: cid(target) }),
        19 => Some(ExitCall::Reply {
            to: tid(target),
            text,
        }),
        7 => Some(ExitCall::Resume { tid: tid(target) }),
        12 => Some(ExitCall::SetExit { code: call.number }),
        16 => Some(ExitCall::Note { text }),
        _ => None,
    }
}

// Calls on the caller's stack.
fn stack_call(call: &CallRecord, text: Text<'static>) -> Option<Call<'static>>
    ensures { result ≡ stack_call call.now text.entry }
{
    match call.kind {
        48 => Some(Call::CallProc { proc: call.number }),
        49 => Some(Call::Return),
        50 => Some(Call::Handle {
            pattern: pattern_of(call.any, call.number),
            func: func_of(call.func)?,
            arg: call.arg,
        }),
        51 => Some(Call::Unhandle),
        52 => Some(Call::OnExit {
            call: exit_call(call, text)?,
        }),
        53 => Some(Call::Raise {
            pattern: call.number,
        }),
        54 => Some(Call::ExcNotify {
            pattern: call.number,
        }),
        55 => Some(Call::Bound {
            pattern: call.number,
        }),
        56 => Some(Call::UniqPatt),
        _ => None,
    }
}

/// The call that a record and a text mean, if they mean one.
#[tactic(auto, unfolding(crate::specs::Calls::call_of))]
pub fn call_of(call: &CallRecord, text: Text<'static>) -> Option<Call<'static>>
    ensures { result ≡ call_of call.now text.entry }
{
    if call.kind < 32 {
        plain_call(call, text)
    } else if call.kind < 48 {
        lock_call(call)
    } else {
        stack_call(call, text)
    }
}
