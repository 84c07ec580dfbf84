// What threads call, and what exit procedures do.
ghost use Rattle.std.specs.Prelude.{◌≡◌, ◌≤◌, ◌+◌, ◌++◌, ◌∷◌, [], Some, None, length, take};
ghost use Rattle.std.specs.Fmt.{decimal};
ghost use Rattle.lwp_types.specs.Families.{agent_call, condition_call, exception_call, message_call, monitor_call, pod_call, thread_call, turn_call};
ghost use Rattle.trace_text.specs.Lines.{with_space, exit_text, call_text, id_text, who_text};

use crate::rows::{
    put_flags, put_func, put_id, put_mode, put_number, put_pattern, put_proc, put_source,
    put_spaced, put_who, put_word,
};
use lists::TextList;
use lwp_types::{
    AgentCall, Call, ConditionCall, ExceptionCall, ExitCall, Family, Flags, Func, MessageCall,
    Mode, MonitorCall, Pattern, PodCall, Text, ThreadCall, Tid, TurnCall,
};

// A word and a thread.
#[inline(always)]
fn put_word_who(row: &mut [u8], at: usize, word: &[u8], me: Option<Tid>, tid: Tid) -> usize
    requires { at + (length word.now + 21) ≤ length row.old }
    ensures len { length row.new ≡ length row.old }
    ensures end { result ≤ at + (length word.now + 21) }
    ensures text { take result row.new ≡ take at row.old ++ (word.now ++ who_text me tid) }
{
    let next = put_word(row, at, word);
    put_who(row, next, me, tid)
}

// A word and a number of a kind.
#[inline(always)]
pub(crate) fn put_word_id(row: &mut [u8], at: usize, word: &[u8], letter: u8, n: u64) -> usize
    requires { at + (length word.now + 21) ≤ length row.old }
    ensures len { length row.new ≡ length row.old }
    ensures end { result ≤ at + (length word.now + 21) }
    ensures text { take result row.new ≡ take at row.old ++ (word.now ++ id_text (letter ∷ []) n) }
{
    let next = put_word(row, at, word);
    put_id(row, next, letter, n)
}

// A word and a number.
#[inline(always)]
pub(crate) fn put_word_number(row: &mut [u8], at: usize, word: &[u8], n: u32) -> usize
    requires { at + (length word.now + 20) ≤ length row.old }
    ensures len { length row.new ≡ length row.old }
    ensures end { result ≤ at + (length word.now + 20) }
    ensures text { take result row.new ≡ take at row.old ++ (word.now ++ decimal n) }
{
    let next = put_word(row, at, word);
    put_number(row, next, u64::from(n))
}

// A word and a text.
#[inline(always)]
pub(crate) fn put_word_text(row: &mut [u8], at: usize, word: &[u8], text: &Text) -> usize
    requires { at + (length word.now + 241) ≤ length row.old }
    ensures len { length row.new ≡ length row.old }
    ensures end { result ≤ at + (length word.now + 241) }
    ensures text { take result row.new ≡ take at row.old ++ (word.now ++ with_space text.now) }
{
    let next = put_word(row, at, word);
    put_spaced(row, next, text)
}

// A word, a thread and a text.
#[inline(always)]
fn put_word_who_text(
    row: &mut [u8],
    at: usize,
    word: &[u8],
    me: Option<Tid>,
    tid: Tid,
    text: &Text,
) -> usize
    requires { at + (length word.now + 262) ≤ length row.old }
    ensures len { length row.new ≡ length row.old }
    ensures end { result ≤ at + (length word.now + 262) }
    ensures text { take result row.new
        ≡ take at row.old ++ (word.now ++ (who_text me tid ++ with_space text.now)) }
{
    let next = put_word_who(row, at, word, me, tid);
    put_spaced(row, next, text)
}

// What an exit procedure does, in what `me` calls.
pub(crate) fn put_exit(row: &mut [u8], at: usize, me: Option<Tid>, call: &ExitCall) -> usize
    requires { at + 270 ≤ length row.old }
    ensures len { length row.new ≡ length row.old }
    ensures end { result ≤ at + 270 }
    ensures text { take result row.new ≡ take at row.old ++ exit_text me call.now }
{
    match call {
        ExitCall::MonExit { mon } => put_word_id(row, at, b"monexit ", b'm', mon.number),
        ExitCall::MonBreak { mon } => put_word_id(row, at, b"monbreak ", b'm', mon.number),
        ExitCall::Notify { cond } => put_word_id(row, at, b"notify ", b'c', cond.number),
        ExitCall::Broadcast { cond } => put_word_id(row, at, b"broadcast ", b'c', cond.number),
        ExitCall::Reply { to, text } => put_word_who_text(row, at, b"reply ", me, *to, text),
        ExitCall::Resume { tid } => put_word_who(row, at, b"resume ", me, *tid),
        ExitCall::SetExit { code } => put_word_number(row, at, b"setexit ", *code),
        ExitCall::Note { text } => put_word_text(row, at, b"note", text),
    }
}

#[inline(always)]
fn put_set_priority(row: &mut [u8], at: usize, me: Option<Tid>, tid: Tid, prio: u32) -> usize
    requires { at + 60 ≤ length row.old }
    ensures len { length row.new ≡ length row.old }
    ensures end { result ≤ at + 60 }
    ensures text { take result row.new ≡ take at row.old ++ call_text [] me (Call.SetPri tid prio) }
{
    let next = put_word_who(row, at, b"setpri ", me, tid);
    put_word_number(row, next, b" ", prio)
}

#[inline(always)]
fn put_receive(row: &mut [u8], at: usize, me: Option<Tid>, from: Option<Tid>, mode: Mode) -> usize
    requires { at + 60 ≤ length row.old }
    ensures len { length row.new ≡ length row.old }
    ensures end { result ≤ at + 60 }
    ensures text { take result row.new ≡ take at row.old ++ call_text [] me (Call.Recv from mode) }
{
    let whom = put_word(row, at, b"recv ");
    let next = put_source(row, whom, me, from);
    let how = put_word(row, next, b" ");
    put_mode(row, how, mode)
}

#[inline(always)]
fn put_cond_send(row: &mut [u8], at: usize, me: Option<Tid>, cond: u64, tid: Tid) -> usize
    requires { at + 60 ≤ length row.old }
    ensures len { length row.new ≡ length row.old }
    ensures end { result ≤ at + 60 }
    ensures text { take result row.new ≡ take at row.old ++ call_text [] me (Call.CvSend cond tid) }
{
    let next = put_word_id(row, at, b"cvsend ", b'c', cond);
    put_word_who(row, next, b" ", me, tid)
}

#[inline(always)]
fn put_turn(row: &mut [u8], at: usize, me: Option<Tid>, call: TurnCall) -> usize
    requires { at + 60 ≤ length row.old }
    ensures len { length row.new ≡ length row.old }
    ensures end { result ≤ at + 60 }
    ensures text { take result row.new ≡ take at row.old ++ call_text [] me (turn_call call) }
{
    match call {
        TurnCall::Yield(tid) => put_word_who(row, at, b"yield ", me, tid),
        TurnCall::Resched(prio) => put_word_number(row, at, b"resched ", prio),
        TurnCall::SetPri(tid, prio) => put_set_priority(row, at, me, tid, prio),
        TurnCall::Suspend(tid) => put_word_who(row, at, b"suspend ", me, tid),
        TurnCall::Resume(tid) => put_word_who(row, at, b"resume ", me, tid),
    }
}

#[inline(always)]
fn put_lock(row: &mut [u8], at: usize, call: MonitorCall) -> usize
    requires { at + 60 ≤ length row.old }
    ensures len { length row.new ≡ length row.old }
    ensures end { result ≤ at + 60 }
    ensures text { take result row.new ≡ take at row.old ++ call_text [] None (monitor_call call) }
{
    match call {
        MonitorCall::Create => put_word(row, at, b"moncreate"),
        MonitorCall::Destroy(mon) => put_word_id(row, at, b"mondestroy ", b'm', mon.number),
        MonitorCall::Enter(mon) => put_word_id(row, at, b"enter ", b'm', mon.number),
        MonitorCall::CondEnter(mon) => put_word_id(row, at, b"condenter ", b'm', mon.number),
        MonitorCall::Exit(mon) => put_word_id(row, at, b"monexit ", b'm', mon.number),
        MonitorCall::Break(mon) => put_word_id(row, at, b"monbreak ", b'm', mon.number),
        MonitorCall::List => put_word(row, at, b"monitors"),
        MonitorCall::Waiters(mon) => put_word_id(row, at, b"monwaiters ", b'm', mon.number),
    }
}

#[inline(always)]
fn put_wait(row: &mut [u8], at: usize, me: Option<Tid>, call: ConditionCall) -> usize
    requires { at + 60 ≤ length row.old }
    ensures len { length row.new ≡ length row.old }
    ensures end { result ≤ at + 60 }
    ensures text { take result row.new ≡ take at row.old ++ call_text [] me (condition_call call) }
{
    match call {
        ConditionCall::Create(mon) => put_word_id(row, at, b"cvcreate ", b'm', mon.number),
        ConditionCall::Destroy(cond) => put_word_id(row, at, b"cvdestroy ", b'c', cond.number),
        ConditionCall::Wait(cond) => put_word_id(row, at, b"wait ", b'c', cond.number),
        ConditionCall::Notify(cond) => put_word_id(row, at, b"notify ", b'c', cond.number),
        ConditionCall::Broadcast(cond) => put_word_id(row, at, b"broadcast ", b'c', cond.number),
        ConditionCall::Send(cond, tid) => put_cond_send(row, at, me, cond.number, tid),
        ConditionCall::List => put_word(row, at, b"conditions"),
        ConditionCall::Waiters(cond) => put_word_id(row, at, b"cvwaiters ", b'c', cond.number),
    }
}

#[inline(always)]
fn put_agent_call(row: &mut [u8], at: usize, call: AgentCall) -> usize
    requires { at + 60 ≤ length row.old }
    ensures len { length row.new ≡ length row.old }
    ensures end { result ≤ at + 60 }
    ensures text { take result row.new ≡ take at row.old ++ call_text [] None (agent_call call) }
{
    match call {
        AgentCall::Create(event) => put_word_number(row, at, b"agent ", event),
        AgentCall::List => put_word(row, at, b"agents"),
        AgentCall::Trap(event) => put_word_number(row, at, b"trap ", event),
    }
}

// The lines with a name or a text stand apart, so that the others save and restore fewer registers.
#[inline(never)]
fn put_create(
    row: &mut [u8],
    at: usize,
    procs: &TextList,
    number: u32,
    prio: u32,
    flags: Flags,
) -> usize
    requires { at + 300 ≤ length row.old }
    ensures len { length row.new ≡ length row.old }
    ensures end { result ≤ at + 300 }
    ensures text { take result row.new
        ≡ take at row.old ++ call_text procs.now None (Call.Create number prio flags) }
{
    let word = put_word(row, at, b"create ");
    let name = put_proc(row, word, procs, number);
    let next = put_word_number(row, name, b" ", prio);
    let word = put_word(row, next, b" ");
    put_flags(row, word, flags)
}

#[inline(never)]
fn put_send(row: &mut [u8], at: usize, me: Option<Tid>, to: Tid, room: u8, text: &Text) -> usize
    requires { at + 300 ≤ length row.old }
    ensures len { length row.new ≡ length row.old }
    ensures end { result ≤ at + 300 }
    ensures text { take result row.new
        ≡ take at row.old ++ call_text [] me (Call.Send to room text.now) }
{
    let next = put_word_who(row, at, b"send ", me, to);
    let next = put_word_number(row, next, b" ", u32::from(room));
    put_spaced(row, next, text)
}

#[inline(never)]
fn put_reply(row: &mut [u8], at: usize, me: Option<Tid>, to: Tid, text: &Text) -> usize
    requires { at + 300 ≤ length row.old }
    ensures len { length row.new ≡ length row.old }
    ensures end { result ≤ at + 300 }
    ensures text { take result row.new
        ≡ take at row.old ++ call_text [] me (Call.Reply to text.now) }
{
    put_word_who_text(row, at, b"reply ", me, to, text)
}

#[inline(never)]
fn put_say(row: &mut [u8], at: usize, text: &Text) -> usize
    requires { at + 300 ≤ length row.old }
    ensures len { length row.new ≡ length row.old }
    ensures end { result ≤ at + 300 }
    ensures text { take result row.new ≡ take at row.old ++ call_text [] None (Call.Say text.now) }
{
    put_word_text(row, at, b"say", text)
}

fn put_handle(row: &mut [u8], at: usize, pattern: Pattern, func: Func, arg: u32) -> usize
    requires { at + 300 ≤ length row.old }
    ensures len { length row.new ≡ length row.old }
    ensures end { result ≤ at + 300 }
    ensures text { take result row.new
        ≡ take at row.old ++ call_text [] None (Call.Handle pattern func arg) }
{
    let word = put_word(row, at, b"handle ");
    let next = put_pattern(row, word, pattern);
    let word = put_word(row, next, b" ");
    let next = put_func(row, word, func);
    put_word_number(row, next, b" ", arg)
}

#[inline(never)]
fn put_call_procedure(row: &mut [u8], at: usize, procs: &TextList, number: u32) -> usize
    requires { at + 300 ≤ length row.old }
    ensures len { length row.new ≡ length row.old }
    ensures end { result ≤ at + 300 }
    ensures text { take result row.new
        ≡ take at row.old ++ call_text procs.now None (Call.CallProc number) }
{
    let word = put_word(row, at, b"call ");
    put_proc(row, word, procs, number)
}

#[inline(never)]
fn put_on_exit(row: &mut [u8], at: usize, me: Option<Tid>, call: &ExitCall) -> usize
    requires { at + 300 ≤ length row.old }
    ensures len { length row.new ≡ length row.old }
    ensures end { result ≤ at + 300 }
    ensures text { take result row.new ≡ take at row.old ++ call_text [] me (Call.OnExit call.now) }
{
    let word = put_word(row, at, b"onexit ");
    put_exit(row, word, me, call)
}

#[inline(always)]
fn put_thread_call(
    row: &mut [u8],
    at: usize,
    procs: &TextList,
    me: Option<Tid>,
    call: ThreadCall,
) -> usize
    requires { at + 300 ≤ length row.old }
    ensures len { length row.new ≡ length row.old }
    ensures end { result ≤ at + 300 }
    ensures text { take result row.new
        ≡ take at row.old ++ call_text procs.now me (thread_call call) }
{
    match call {
        ThreadCall::Create(number, prio, flags) => put_create(row, at, procs, number, prio, flags),
        ThreadCall::Destroy(tid) => put_word_who(row, at, b"destroy ", me, tid),
        ThreadCall::Ping(tid) => put_word_who(row, at, b"ping ", me, tid),
        ThreadCall::Join(tid) => put_word_who(row, at, b"join ", me, tid),
        ThreadCall::Sleep(ticks) => put_word_number(row, at, b"sleep ", ticks),
        ThreadCall::Threads => put_word(row, at, b"threads"),
    }
}

#[inline(always)]
fn put_pod_call(row: &mut [u8], at: usize, call: &PodCall) -> usize
    requires { at + 300 ≤ length row.old }
    ensures len { length row.new ≡ length row.old }
    ensures end { result ≤ at + 300 }
    ensures text { take result row.new ≡ take at row.old ++ call_text [] None (pod_call call.now) }
{
    match call {
        PodCall::Me => put_word(row, at, b"self"),
        PodCall::SetMaxPri(prio) => put_word_number(row, at, b"setmaxpri ", *prio),
        PodCall::SetExit(code) => put_word_number(row, at, b"setexit ", *code),
        PodCall::GetExit => put_word(row, at, b"getexit"),
        PodCall::PodExit(code) => put_word_number(row, at, b"podexit ", *code),
        PodCall::Say(text) => put_say(row, at, text),
    }
}

#[inline(always)]
fn put_message_call(row: &mut [u8], at: usize, me: Option<Tid>, call: &MessageCall) -> usize
    requires { at + 300 ≤ length row.old }
    ensures len { length row.new ≡ length row.old }
    ensures end { result ≤ at + 300 }
    ensures text { take result row.new
        ≡ take at row.old ++ call_text [] me (message_call call.now) }
{
    match call {
        MessageCall::Send(to, room, text) => put_send(row, at, me, *to, *room, text),
        MessageCall::Recv(from, mode) => put_receive(row, at, me, *from, *mode),
        MessageCall::Reply(to, text) => put_reply(row, at, me, *to, text),
        MessageCall::Senders => put_word(row, at, b"senders"),
        MessageCall::Receivers => put_word(row, at, b"receivers"),
    }
}

#[inline(always)]
fn put_exception_call(
    row: &mut [u8],
    at: usize,
    procs: &TextList,
    me: Option<Tid>,
    call: &ExceptionCall,
) -> usize
    requires { at + 300 ≤ length row.old }
    ensures len { length row.new ≡ length row.old }
    ensures end { result ≤ at + 300 }
    ensures text { take result row.new
        ≡ take at row.old ++ call_text procs.now me (exception_call call.now) }
{
    match call {
        ExceptionCall::CallProc(number) => put_call_procedure(row, at, procs, *number),
        ExceptionCall::Return => put_word(row, at, b"return"),
        ExceptionCall::Handle(pattern, func, arg) => put_handle(row, at, *pattern, *func, *arg),
        ExceptionCall::Unhandle => put_word(row, at, b"unhandle"),
        ExceptionCall::OnExit(call) => put_on_exit(row, at, me, call),
        ExceptionCall::Raise(pattern) => put_word_number(row, at, b"raise ", *pattern),
        ExceptionCall::ExcNotify(pattern) => put_word_number(row, at, b"excnotify ", *pattern),
        ExceptionCall::Bound(pattern) => put_word_number(row, at, b"bound ", *pattern),
        ExceptionCall::UniqPatt => put_word(row, at, b"uniqpatt"),
    }
}

// A call, in what thread `me` calls.
pub(crate) fn put_call(row: &mut [u8], at: usize, procs: &TextList, me: Tid, call: &Call) -> usize
    requires { at + 300 ≤ length row.old }
    ensures len { length row.new ≡ length row.old }
    ensures end { result ≤ at + 300 }
    ensures text { take result row.new ≡ take at row.old ++ call_text procs.now (Some me) call.now }
{
    let caller = Some(me);
    match call.family() {
        Family::Threads(call) => put_thread_call(row, at, procs, caller, call),
        Family::Turns(call) => put_turn(row, at, caller, call),
        Family::Pod(call) => put_pod_call(row, at, &call),
        Family::Messages(call) => put_message_call(row, at, caller, &call),
        Family::Monitors(call) => put_lock(row, at, call),
        Family::Conditions(call) => put_wait(row, at, caller, call),
        Family::Exceptions(call) => put_exception_call(row, at, procs, caller, &call),
        Family::Agents(call) => put_agent_call(row, at, call),
    }
}
