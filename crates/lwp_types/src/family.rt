// The calls, sorted by what they concern: from a call to its family, and from the family back to the call.
ghost use Rattle.std.specs.Prelude.{◌≡◌};
ghost use Rattle.lwp_types.specs.Families.{agent_call, call_of, condition_call, exception_call, message_call, monitor_call, pod_call, thread_call, turn_call};

use crate::{Call, Cid, ExitCall, Flags, Func, Mid, Mode, Pattern, Text, Tid};

/// A call by which threads come and go, or wait for another or for the clock.
#[derive(Clone, Copy)]
pub enum ThreadCall {
    Create(u32, u32, Flags),
    Destroy(Tid),
    Ping(Tid),
    Join(Tid),
    Sleep(u32),
    Threads,
}

/// A call that moves threads in the run queue.
#[derive(Clone, Copy)]
pub enum TurnCall {
    Yield(Tid),
    Resched(u32),
    SetPri(Tid, u32),
    Suspend(Tid),
    Resume(Tid),
}

/// A call on the pod itself: its own numbers, its end, a line of the trace.
#[derive(Clone, Copy)]
pub enum PodCall<'c, 's> {
    Me,
    SetMaxPri(u32),
    SetExit(u32),
    GetExit,
    PodExit(u32),
    Say(&'c Text<'s>),
}

/// A call on messages.
#[derive(Clone, Copy)]
pub enum MessageCall<'c, 's> {
    Send(Tid, u8, &'c Text<'s>),
    Recv(Option<Tid>, Mode),
    Reply(Tid, &'c Text<'s>),
    Senders,
    Receivers,
}

/// A call on monitors.
#[derive(Clone, Copy)]
pub enum MonitorCall {
    Create,
    Destroy(Mid),
    Enter(Mid),
    CondEnter(Mid),
    Exit(Mid),
    Break(Mid),
    List,
    Waiters(Mid),
}

/// A call on conditions.
#[derive(Clone, Copy)]
pub enum ConditionCall {
    Create(Mid),
    Destroy(Cid),
    Wait(Cid),
    Notify(Cid),
    Broadcast(Cid),
    Send(Cid, Tid),
    List,
    Waiters(Cid),
}

/// A call on the caller's stack: procedures, handlers, exit procedures.
#[derive(Clone, Copy)]
pub enum ExceptionCall<'c, 's> {
    CallProc(u32),
    Return,
    Handle(Pattern, Func, u32),
    Unhandle,
    OnExit(&'c ExitCall<'s>),
    Raise(u32),
    ExcNotify(u32),
    Bound(u32),
    UniqPatt,
}

/// A call on agents.
#[derive(Clone, Copy)]
pub enum AgentCall {
    Create(u32),
    List,
    Trap(u32),
}

/// A call, by its family. Each crate that tells calls apart has one module a family.
#[derive(Clone, Copy)]
pub enum Family<'c, 's> {
    Threads(ThreadCall),
    Turns(TurnCall),
    Pod(PodCall<'c, 's>),
    Messages(MessageCall<'c, 's>),
    Monitors(MonitorCall),
    Conditions(ConditionCall),
    Exceptions(ExceptionCall<'c, 's>),
    Agents(AgentCall),
}

impl<'s> Call<'s> {
    /// The family that the call belongs to, with what the call holds. One row for each call.
    #[inline(always)]
    pub fn family(&self) -> Family<'_, 's>
        ensures { call_of result ≡ self.now }
    {
        match self {
            Call::Create { proc, prio, flags } => Family::Threads(ThreadCall::Create(
                *proc, *prio, *flags,
            )),
            Call::Destroy { tid } => Family::Threads(ThreadCall::Destroy(*tid)),
            Call::Ping { tid } => Family::Threads(ThreadCall::Ping(*tid)),
            Call::Join { tid } => Family::Threads(ThreadCall::Join(*tid)),
            Call::Sleep { ticks } => Family::Threads(ThreadCall::Sleep(*ticks)),
            Call::Threads => Family::Threads(ThreadCall::Threads),
            Call::Yield { to } => Family::Turns(TurnCall::Yield(*to)),
            Call::Resched { prio } => Family::Turns(TurnCall::Resched(*prio)),
            Call::SetPri { tid, prio } => Family::Turns(TurnCall::SetPri(*tid, *prio)),
            Call::Suspend { tid } => Family::Turns(TurnCall::Suspend(*tid)),
            Call::Resume { tid } => Family::Turns(TurnCall::Resume(*tid)),
            Call::Me => Family::Pod(PodCall::Me),
            Call::SetMaxPri { prio } => Family::Pod(PodCall::SetMaxPri(*prio)),
            Call::SetExit { code } => Family::Pod(PodCall::SetExit(*code)),
            Call::GetExit => Family::Pod(PodCall::GetExit),
            Call::PodExit { code } => Family::Pod(PodCall::PodExit(*code)),
            Call::Say { text } => Family::Pod(PodCall::Say(text)),
            Call::Send { to, room, text } => Family::Messages(MessageCall::Send(*to, *room, text)),
            Call::Recv { from, mode } => Family::Messages(MessageCall::Recv(*from, *mode)),
            Call::Reply { to, text } => Family::Messages(MessageCall::Reply(*to, text)),
            Call::Senders => Family::Messages(MessageCall::Senders),
            Call::Receivers => Family::Messages(MessageCall::Receivers),
            Call::MonCreate => Family::Monitors(MonitorCall::Create),
            Call::MonDestroy { mon } => Family::Monitors(MonitorCall::Destroy(*mon)),
            Call::Enter { mon } => Family::Monitors(MonitorCall::Enter(*mon)),
            Call::CondEnter { mon } => Family::Monitors(MonitorCall::CondEnter(*mon)),
            Call::MonExit { mon } => Family::Monitors(MonitorCall::Exit(*mon)),
            Call::MonBreak { mon } => Family::Monitors(MonitorCall::Break(*mon)),
            Call::Monitors => Family::Monitors(MonitorCall::List),
            Call::MonWaiters { mon } => Family::Monitors(MonitorCall::Waiters(*mon)),
            Call::CvCreate { mon } => Family::Conditions(ConditionCall::Create(*mon)),
            Call::CvDestroy { cond } => Family::Conditions(ConditionCall::Destroy(*cond)),
            Call::Wait { cond } => Family::Conditions(ConditionCall::Wait(*cond)),
            Call::Notify { cond } => Family::Conditions(ConditionCall::Notify(*cond)),
            Call::Broadcast { cond } => Family::Conditions(ConditionCall::Broadcast(*cond)),
            Call::CvSend { cond, tid } => Family::Conditions(ConditionCall::Send(*cond, *tid)),
            Call::Conds => Family::Conditions(ConditionCall::List),
            Call::CvWaiters { cond } => Family::Conditions(ConditionCall::Waiters(*cond)),
            Call::CallProc { proc } => Family::Exceptions(ExceptionCall::CallProc(*proc)),
            Call::Return => Family::Exceptions(ExceptionCall::Return),
            Call::Handle { pattern, func, arg } => Family::Exceptions(ExceptionCall::Handle(
                *pattern, *func, *arg,
            )),
            Call::Unhandle => Family::Exceptions(ExceptionCall::Unhandle),
            Call::OnExit { call } => Family::Exceptions(ExceptionCall::OnExit(call)),
            Call::Raise { pattern } => Family::Exceptions(ExceptionCall::Raise(*pattern)),
            Call::ExcNotify { pattern } => Family::Exceptions(ExceptionCall::ExcNotify(*pattern)),
            Call::Bound { pattern } => Family::Exceptions(ExceptionCall::Bound(*pattern)),
            Call::UniqPatt => Family::Exceptions(ExceptionCall::UniqPatt),
            Call::Agent { event } => Family::Agents(AgentCall::Create(*event)),
            Call::Agents => Family::Agents(AgentCall::List),
            Call::Trap { event } => Family::Agents(AgentCall::Trap(*event)),
        }
    }

    /// A copy of it.
    pub fn again(&self) -> Call<'s>
        ensures { result ≡ self.now }
    {
        match self.family() {
            Family::Threads(call) => thread(call),
            Family::Turns(call) => turn(call),
            Family::Pod(call) => pod(&call),
            Family::Messages(call) => message(&call),
            Family::Monitors(call) => monitor(call),
            Family::Conditions(call) => condition(call),
            Family::Exceptions(call) => exception(&call),
            Family::Agents(call) => agent(call),
        }
    }
}

// A call by which threads come and go.
fn thread<'s>(call: ThreadCall) -> Call<'s>
    ensures { result ≡ thread_call call }
{
    match call {
        ThreadCall::Create(proc, prio, flags) => Call::Create { proc, prio, flags },
        ThreadCall::Destroy(tid) => Call::Destroy { tid },
        ThreadCall::Ping(tid) => Call::Ping { tid },
        ThreadCall::Join(tid) => Call::Join { tid },
        ThreadCall::Sleep(ticks) => Call::Sleep { ticks },
        ThreadCall::Threads => Call::Threads,
    }
}

// A call that moves threads in the run queue.
fn turn<'s>(call: TurnCall) -> Call<'s>
    ensures { result ≡ turn_call call }
{
    match call {
        TurnCall::Yield(to) => Call::Yield { to },
        TurnCall::Resched(prio) => Call::Resched { prio },
        TurnCall::SetPri(tid, prio) => Call::SetPri { tid, prio },
        TurnCall::Suspend(tid) => Call::Suspend { tid },
        TurnCall::Resume(tid) => Call::Resume { tid },
    }
}

// A call on the pod itself: its own numbers, its end, a line of the trace.
fn pod<'s>(call: &PodCall<'_, 's>) -> Call<'s>
    ensures { result ≡ pod_call call.now }
{
    match call {
        PodCall::Me => Call::Me,
        PodCall::SetMaxPri(prio) => Call::SetMaxPri { prio: *prio },
        PodCall::SetExit(code) => Call::SetExit { code: *code },
        PodCall::GetExit => Call::GetExit,
        PodCall::PodExit(code) => Call::PodExit { code: *code },
        PodCall::Say(text) => Call::Say { text: text.again() },
    }
}

// A call on messages.
fn message<'s>(call: &MessageCall<'_, 's>) -> Call<'s>
    ensures { result ≡ message_call call.now }
{
    match call {
        MessageCall::Send(to, room, text) => Call::Send {
            to: *to,
            room: *room,
            text: text.again(),
        },
        MessageCall::Recv(from, mode) => Call::Recv {
            from: *from,
            mode: *mode,
        },
        MessageCall::Reply(to, text) => Call::Reply {
            to: *to,
            text: text.again(),
        },
        MessageCall::Senders => Call::Senders,
        MessageCall::Receivers => Call::Receivers,
    }
}

// A call on monitors.
fn monitor<'s>(call: MonitorCall) -> Call<'s>
    ensures { result ≡ monitor_call call }
{
    match call {
        MonitorCall::Create => Call::MonCreate,
        MonitorCall::Destroy(mon) => Call::MonDestroy { mon },
        MonitorCall::Enter(mon) => Call::Enter { mon },
        MonitorCall::CondEnter(mon) => Call::CondEnter { mon },
        MonitorCall::Exit(mon) => Call::MonExit { mon },
        MonitorCall::Break(mon) => Call::MonBreak { mon },
        MonitorCall::List => Call::Monitors,
        MonitorCall::Waiters(mon) => Call::MonWaiters { mon },
    }
}

// A call on conditions.
fn condition<'s>(call: ConditionCall) -> Call<'s>
    ensures { result ≡ condition_call call }
{
    match call {
        ConditionCall::Create(mon) => Call::CvCreate { mon },
        ConditionCall::Destroy(cond) => Call::CvDestroy { cond },
        ConditionCall::Wait(cond) => Call::Wait { cond },
        ConditionCall::Notify(cond) => Call::Notify { cond },
        ConditionCall::Broadcast(cond) => Call::Broadcast { cond },
        ConditionCall::Send(cond, tid) => Call::CvSend { cond, tid },
        ConditionCall::List => Call::Conds,
        ConditionCall::Waiters(cond) => Call::CvWaiters { cond },
    }
}

// A call on the caller's stack.
fn exception<'s>(call: &ExceptionCall<'_, 's>) -> Call<'s>
    ensures { result ≡ exception_call call.now }
{
    match call {
        ExceptionCall::CallProc(proc) => Call::CallProc { proc: *proc },
        ExceptionCall::Return => Call::Return,
        ExceptionCall::Handle(pattern, func, arg) => Call::Handle {
            pattern: *pattern,
            func: *func,
            arg: *arg,
        },
        ExceptionCall::Unhandle => Call::Unhandle,
        ExceptionCall::OnExit(exit) => Call::OnExit { call: exit.again() },
        ExceptionCall::Raise(pattern) => Call::Raise { pattern: *pattern },
        ExceptionCall::ExcNotify(pattern) => Call::ExcNotify { pattern: *pattern },
        ExceptionCall::Bound(pattern) => Call::Bound { pattern: *pattern },
        ExceptionCall::UniqPatt => Call::UniqPatt,
    }
}

// A call on agents.
fn agent<'s>(call: AgentCall) -> Call<'s>
    ensures { result ≡ agent_call call }
{
    match call {
        AgentCall::Create(event) => Call::Agent { event },
        AgentCall::List => Call::Agents,
        AgentCall::Trap(event) => Call::Trap { event },
    }
}
