// Calls as C reads them.
ghost use Rattle.std.specs.Prelude.{◌≡◌};
ghost use Rattle.c_pods.specs.Records.{call_record, call_text, exit_on, exit_record, exit_text, func_number, of_kind, of_number, of_prio, on_target};
ghost use Rattle.lwp_types.specs.Families.{agent_call, condition_call, exception_call, message_call, monitor_call, pod_call, thread_call, turn_call};
ghost use Rattle.lwp_types.specs.declared.call.Call.TheVariants as call;

use crate::calls::{CallRecord, NO_CALL};
use lwp_types::{
    AgentCall, Call, ConditionCall, ExceptionCall, ExitCall, Family, Func, MessageCall, Mode,
    MonitorCall, Pattern, PodCall, Text, ThreadCall, Tid, TurnCall,
};

/// The number of a handler's function.
pub fn func_number(func: Func) -> u8
    ensures { result ≡ func_number func }
{
    match func {
        Func::Nothing => 0,
        Func::Give => 1,
        Func::Sum => 2,
    }
}

fn of_kind(kind: u32) -> CallRecord
    ensures { result ≡ of_kind kind }
{
    CallRecord { kind, ..NO_CALL }
}

fn on_target(kind: u32, target: u64) -> CallRecord
    ensures { result ≡ on_target kind target }
{
    CallRecord {
        kind,
        target,
        ..NO_CALL
    }
}

fn of_number(kind: u32, number: u32) -> CallRecord
    ensures { result ≡ of_number kind number }
{
    CallRecord {
        kind,
        number,
        ..NO_CALL
    }
}

fn of_prio(kind: u32, prio: u32) -> CallRecord
    ensures { result ≡ of_prio kind prio }
{
    CallRecord {
        kind,
        prio,
        ..NO_CALL
    }
}

fn thread_record(call: ThreadCall) -> CallRecord
    ensures { result ≡ call_record (thread_call call) }
{
    match call {
        ThreadCall::Create(proc, prio, flags) => CallRecord {
            kind: 0,
            number: proc,
            prio,
            suspended: flags.suspended,
            nolastrites: flags.nolastrites,
            server: flags.server,
            ..NO_CALL
        },
        ThreadCall::Destroy(tid) => on_target(1, tid.number),
        ThreadCall::Ping(tid) => on_target(2, tid.number),
        ThreadCall::Join(tid) => on_target(8, tid.number),
        ThreadCall::Sleep(ticks) => of_number(9, ticks),
        ThreadCall::Threads => of_kind(15),
    }
}

fn turn_record(call: TurnCall) -> CallRecord
    ensures { result ≡ call_record (turn_call call) }
{
    match call {
        TurnCall::Yield(to) => on_target(3, to.number),
        TurnCall::Resched(prio) => of_prio(4, prio),
        TurnCall::SetPri(tid, prio) => CallRecord {
            kind: 5,
            target: tid.number,
            prio,
            ..NO_CALL
        },
        TurnCall::Suspend(tid) => on_target(6, tid.number),
        TurnCall::Resume(tid) => on_target(7, tid.number),
    }
}

fn pod_record(call: &PodCall<'_, '_>) -> CallRecord
    ensures { result ≡ call_record (pod_call call.now) }
{
    match call {
        PodCall::Me => of_kind(10),
        PodCall::SetMaxPri(prio) => of_prio(11, *prio),
        PodCall::SetExit(code) => of_number(12, *code),
        PodCall::GetExit => of_kind(13),
        PodCall::PodExit(code) => of_number(14, *code),
        PodCall::Say(_) => of_kind(16),
    }
}

// A receive, from that thread or from anybody.
fn receive_record(from: Option<Tid>, mode: Mode) -> CallRecord
    ensures { result ≡ call_record (call.Recv from mode) }
{
    let base = match from {
        Some(tid) => on_target(18, tid.number),
        None => CallRecord {
            kind: 18,
            any: true,
            ..NO_CALL
        },
    };
    match mode {
        Mode::Poll => base,
        Mode::Block => CallRecord { mode: 1, ..base },
        Mode::Until { ticks } => CallRecord {
            mode: 2,
            number: ticks,
            ..base
        },
    }
}

fn message_record(call: &MessageCall<'_, '_>) -> CallRecord
    ensures { result ≡ call_record (message_call call.now) }
{
    match call {
        MessageCall::Send(to, room, _) => CallRecord {
            kind: 17,
            target: to.number,
            room: *room,
            ..NO_CALL
        },
        MessageCall::Recv(from, mode) => receive_record(*from, *mode),
        MessageCall::Reply(to, _) => on_target(19, to.number),
        MessageCall::Senders => of_kind(20),
        MessageCall::Receivers => of_kind(21),
    }
}

fn monitor_record(call: MonitorCall) -> CallRecord
    ensures { result ≡ call_record (monitor_call call) }
{
    match call {
        MonitorCall::Create => of_kind(32),
        MonitorCall::Destroy(mon) => on_target(33, mon.number),
        MonitorCall::Enter(mon) => on_target(34, mon.number),
        MonitorCall::CondEnter(mon) => on_target(35, mon.number),
        MonitorCall::Exit(mon) => on_target(36, mon.number),
        MonitorCall::Break(mon) => on_target(37, mon.number),
        MonitorCall::List => of_kind(38),
        MonitorCall::Waiters(mon) => on_target(39, mon.number),
    }
}

fn condition_record(call: ConditionCall) -> CallRecord
    ensures { result ≡ call_record (condition_call call) }
{
    match call {
        ConditionCall::Create(mon) => on_target(40, mon.number),
        ConditionCall::Destroy(cond) => on_target(41, cond.number),
        ConditionCall::Wait(cond) => on_target(42, cond.number),
        ConditionCall::Notify(cond) => on_target(43, cond.number),
        ConditionCall::Broadcast(cond) => on_target(44, cond.number),
        ConditionCall::Send(cond, tid) => CallRecord {
            kind: 45,
            target: cond.number,
            other: tid.number,
            ..NO_CALL
        },
        ConditionCall::List => of_kind(46),
        ConditionCall::Waiters(cond) => on_target(47, cond.number),
    }
}

// A handler of one pattern, or of all.
fn handler_record(pattern: Pattern, func: Func, arg: u32) -> CallRecord
    ensures { result ≡ call_record (call.Handle pattern func arg) }
{
    let base = CallRecord {
        kind: 50,
        func: func_number(func),
        arg,
        ..NO_CALL
    };
    match pattern {
        Pattern::All => CallRecord { any: true, ..base },
        Pattern::Num(number) => CallRecord { number, ..base },
    }
}

fn exit_on(exit: u32, target: u64) -> CallRecord
    ensures { result ≡ exit_on exit target }
{
    CallRecord {
        kind: 52,
        exit,
        target,
        ..NO_CALL
    }
}

/// The record of an exit procedure: that of the call which sets it.
pub fn exit_record(call: &ExitCall<'_>) -> CallRecord
    ensures { result ≡ exit_record call.now }
{
    match call {
        ExitCall::MonExit { mon } => exit_on(36, mon.number),
        ExitCall::MonBreak { mon } => exit_on(37, mon.number),
        ExitCall::Notify { cond } => exit_on(43, cond.number),
        ExitCall::Broadcast { cond } => exit_on(44, cond.number),
        ExitCall::Reply { to, .. } => exit_on(19, to.number),
        ExitCall::Resume { tid } => exit_on(7, tid.number),
        ExitCall::SetExit { code } => CallRecord {
            number: *code,
            ..exit_on(12, 0)
        },
        ExitCall::Note { .. } => exit_on(16, 0),
    }
}

fn exception_record(call: &ExceptionCall<'_, '_>) -> CallRecord
    ensures { result ≡ call_record (exception_call call.now) }
{
    match call {
        ExceptionCall::CallProc(proc) => of_number(48, *proc),
        ExceptionCall::Return => of_kind(49),
        ExceptionCall::Handle(pattern, func, arg) => handler_record(*pattern, *func, *arg),
        ExceptionCall::Unhandle => of_kind(51),
        ExceptionCall::OnExit(exit) => exit_record(exit),
        ExceptionCall::Raise(pattern) => of_number(53, *pattern),
        ExceptionCall::ExcNotify(pattern) => of_number(54, *pattern),
        ExceptionCall::Bound(pattern) => of_number(55, *pattern),
        ExceptionCall::UniqPatt => of_kind(56),
    }
}

fn agent_record(call: AgentCall) -> CallRecord
    ensures { result ≡ call_record (agent_call call) }
{
    match call {
        AgentCall::Create(event) => of_number(22, event),
        AgentCall::List => of_kind(23),
        AgentCall::Trap(event) => of_number(24, event),
    }
}

/// The record of a call.
pub fn call_record(call: &Call<'_>) -> CallRecord
    ensures { result ≡ call_record call.now }
{
    match call.family() {
        Family::Threads(call) => thread_record(call),
        Family::Turns(call) => turn_record(call),
        Family::Pod(call) => pod_record(&call),
        Family::Messages(call) => message_record(&call),
        Family::Monitors(call) => monitor_record(call),
        Family::Conditions(call) => condition_record(call),
        Family::Exceptions(call) => exception_record(&call),
        Family::Agents(call) => agent_record(call),
    }
}

/// The text of an exit procedure's call; the empty one, where it has none.
pub fn exit_text(call: &ExitCall<'static>) -> Text<'static>
    ensures { result ≡ exit_text call.now }
{
    match call {
        ExitCall::Reply { text, .. } | ExitCall::Note { text } => text.again(),
        _ => Text::empty(),
    }
}

/// The text of a call; the empty one, where it has none.
pub fn call_text(call: &Call<'static>) -> Text<'static>
    ensures { result ≡ call_text call.now }
{
    match call {
        Call::Say { text } | Call::Send { text, .. } | Call::Reply { text, .. } => text.again(),
        Call::OnExit { call } => exit_text(call),
        _ => Text::empty(),
    }
}
