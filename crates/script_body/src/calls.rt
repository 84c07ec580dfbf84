// What the statements of a script call. A call is set where the last one lay.
ghost use Rattle.std.specs.Prelude.{◌≡◌, ◌<◌, ◌^◌, length, option_map};
ghost use Rattle.lwp_types.specs.declared.call.Call.TheVariants as call_kind;
ghost use Rattle.script_text.specs.Script.{proc_number, proc_places};
ghost use Rattle.script_body.specs.Calls.{who_id, exit_call_of, plain_call, lock_call, thread_call, call_of};

use crate::numbers::proc_number;
use lists::TextList;
use lwp_types::{Call, Env, ExitCall, Flags, NULL_TID, Tid};
use script_text::{ExitStmt, Script, Stmt, Who};

/// Makes it a return.
pub fn set_return(call: &mut Call)
    ensures { call.new ≡ call_kind.Return }
{
    *call = Call::Return;
}

#[inline(always)]
fn who_id(sender: Tid, env: &Env, who: Who) -> Tid
    ensures { result ≡ who_id sender env.now who }
{
    match who {
        Who::Named(i) => env.thread(i),
        Who::Me => env.me(),
        Who::First => Tid { number: 0 },
        Who::Sender => sender,
        Who::Nobody => NULL_TID,
    }
}

// What an exit procedure is to do.
fn exit_call_of<'s>(texts: &'s TextList, sender: Tid, env: &Env, exit: &ExitStmt) -> ExitCall<'s>
    ensures { result ≡ exit_call_of texts.now sender env.now exit.now }
{
    match exit {
        ExitStmt::Note { text } => ExitCall::Note {
            text: texts.get(*text as usize),
        },
        ExitStmt::Reply { to, text } => ExitCall::Reply {
            to: who_id(sender, env, *to),
            text: texts.get(*text as usize),
        },
        ExitStmt::MonExit { mon } => ExitCall::MonExit { mon: env.mon(*mon) },
        ExitStmt::MonBreak { mon } => ExitCall::MonBreak { mon: env.mon(*mon) },
        ExitStmt::Notify { cond } => ExitCall::Notify {
            cond: env.cond(*cond),
        },
        ExitStmt::Broadcast { cond } => ExitCall::Broadcast {
            cond: env.cond(*cond),
        },
        ExitStmt::Resume { who } => ExitCall::Resume {
            tid: who_id(sender, env, *who),
        },
        ExitStmt::SetExit { code } => ExitCall::SetExit { code: *code },
    }
}

// The call that sets an exit procedure; a function of its own, since what is to be done is made in a place of its own first.
#[inline(never)]
fn set_exit_call<'s>(
    texts: &'s TextList,
    sender: Tid,
    env: &Env,
    exit: &ExitStmt,
    call: &mut Call<'s>,
)
    ensures { call.new ≡ call_kind.OnExit (exit_call_of texts.now sender env.now exit.now) }
{
    *call = Call::OnExit {
        call: exit_call_of(texts, sender, env, exit),
    };
}

// A statement that names nothing.
#[inline(always)]
fn set_plain_call<'s>(texts: &'s TextList, stmt: &Stmt, call: &mut Call<'s>)
    ensures { call.new ≡ plain_call texts.now stmt.now }
{
    match stmt {
        Stmt::Resched { prio } => *call = Call::Resched { prio: *prio },
        Stmt::Sleep { ticks } => *call = Call::Sleep { ticks: *ticks },
        Stmt::SetMaxPri { prio } => *call = Call::SetMaxPri { prio: *prio },
        Stmt::Me => *call = Call::Me,
        Stmt::SetExit { code } => *call = Call::SetExit { code: *code },
        Stmt::GetExit => *call = Call::GetExit,
        Stmt::PodExit { code } => *call = Call::PodExit { code: *code },
        Stmt::Threads => *call = Call::Threads,
        Stmt::Senders => *call = Call::Senders,
        Stmt::Receivers => *call = Call::Receivers,
        Stmt::MonCreate { .. } => *call = Call::MonCreate,
        Stmt::Monitors => *call = Call::Monitors,
        Stmt::Conds => *call = Call::Conds,
        Stmt::Handle { pattern, func, arg } => *call = Call::Handle {
            pattern: *pattern,
            func: *func,
            arg: *arg,
        },
        Stmt::Unhandle => *call = Call::Unhandle,
        Stmt::Raise { pattern } => *call = Call::Raise { pattern: *pattern },
        Stmt::ExcNotify { pattern } => *call = Call::ExcNotify { pattern: *pattern },
        Stmt::Bound { pattern } => *call = Call::Bound { pattern: *pattern },
        Stmt::UniqPatt => *call = Call::UniqPatt,
        Stmt::Agent { event, .. } => *call = Call::Agent { event: *event },
        Stmt::Agents => *call = Call::Agents,
        Stmt::Trap { event } => *call = Call::Trap { event: *event },
        Stmt::Say { text } => *call = Call::Say {
            text: texts.get(*text as usize),
        },
        // A return; and what makes no call, for which nobody asks.
        _ => *call = Call::Return,
    }
}

// A statement that names monitors or conditions, or nothing.
#[inline(always)]
fn set_lock_call<'s>(texts: &'s TextList, sender: Tid, env: &Env, stmt: &Stmt, call: &mut Call<'s>)
    ensures { call.new ≡ lock_call texts.now sender env.now stmt.now }
{
    match stmt {
        Stmt::CvCreate { mon, .. } => *call = Call::CvCreate { mon: env.mon(*mon) },
        Stmt::MonDestroy { mon } => *call = Call::MonDestroy { mon: env.mon(*mon) },
        Stmt::Enter { mon } => *call = Call::Enter { mon: env.mon(*mon) },
        Stmt::CondEnter { mon } => *call = Call::CondEnter { mon: env.mon(*mon) },
        Stmt::MonExit { mon } => *call = Call::MonExit { mon: env.mon(*mon) },
        Stmt::MonBreak { mon } => *call = Call::MonBreak { mon: env.mon(*mon) },
        Stmt::MonWaiters { mon } => *call = Call::MonWaiters { mon: env.mon(*mon) },
        Stmt::CvDestroy { cond } => *call = Call::CvDestroy {
            cond: env.cond(*cond),
        },
        Stmt::Wait { cond } => *call = Call::Wait {
            cond: env.cond(*cond),
        },
        Stmt::Notify { cond } => *call = Call::Notify {
            cond: env.cond(*cond),
        },
        Stmt::Broadcast { cond } => *call = Call::Broadcast {
            cond: env.cond(*cond),
        },
        Stmt::CvSend { cond, who } => *call = Call::CvSend {
            cond: env.cond(*cond),
            tid: who_id(sender, env, *who),
        },
        Stmt::CvWaiters { cond } => *call = Call::CvWaiters {
            cond: env.cond(*cond),
        },
        _ => set_plain_call(texts, stmt, call),
    }
}

#[inline(always)]
fn source_of(sender: Tid, env: &Env, from: &Option<Who>) -> Option<Tid>
    ensures { result ≡ option_map (who_id sender env.now) from.now }
{
    match from {
        Some(who) => Some(who_id(sender, env, *who)),
        None => None,
    }
}

// A statement that names threads, or anything but procedures. Each arm looks up whom its word means: a closure for that would be a
// function that is called.
#[inline(always)]
fn set_thread_call<'s>(
    texts: &'s TextList,
    sender: Tid,
    env: &Env,
    stmt: &Stmt,
    call: &mut Call<'s>,
)
    ensures { call.new ≡ thread_call texts.now sender env.now stmt.now }
{
    match stmt {
        Stmt::Destroy { who } => *call = Call::Destroy {
            tid: who_id(sender, env, *who),
        },
        Stmt::Ping { who } => *call = Call::Ping {
            tid: who_id(sender, env, *who),
        },
        Stmt::Yield { to } => *call = Call::Yield {
            to: who_id(sender, env, *to),
        },
        Stmt::Suspend { who } => *call = Call::Suspend {
            tid: who_id(sender, env, *who),
        },
        Stmt::Resume { who } => *call = Call::Resume {
            tid: who_id(sender, env, *who),
        },
        Stmt::Join { who } => *call = Call::Join {
            tid: who_id(sender, env, *who),
        },
        Stmt::SetPri { who, prio } => *call = Call::SetPri {
            tid: who_id(sender, env, *who),
            prio: *prio,
        },
        Stmt::Send { to, room, text } => *call = Call::Send {
            to: who_id(sender, env, *to),
            room: *room,
            text: texts.get(*text as usize),
        },
        Stmt::Recv { from, mode } => *call = Call::Recv {
            from: source_of(sender, env, from),
            mode: *mode,
        },
        Stmt::Reply { to, text } => *call = Call::Reply {
            to: who_id(sender, env, *to),
            text: texts.get(*text as usize),
        },
        Stmt::OnExit { exit } => set_exit_call(texts, sender, env, exit, call),
        _ => set_lock_call(texts, sender, env, stmt, call),
    }
}

// The calls that name a procedure are set by functions of their own, since they look for its number: what most statements call is
// set without a loop and without a call.
#[inline(never)]
fn set_create(script: &Script, proc: u32, prio: u32, flags: &Flags, call: &mut Call)
    requires { length (proc_places script.now) < 2 ^ 32 }
    ensures { call.new ≡ call_kind.Create (proc_number script.now proc) prio flags.now }
{
    *call = Call::Create {
        proc: proc_number(script, proc),
        prio,
        flags: *flags,
    };
}

#[inline(never)]
fn set_call_proc(script: &Script, proc: u32, call: &mut Call)
    requires { length (proc_places script.now) < 2 ^ 32 }
    ensures { call.new ≡ call_kind.CallProc (proc_number script.now proc) }
{
    *call = Call::CallProc {
        proc: proc_number(script, proc),
    };
}

/// Sets the call of a statement, in a thread whose last letter came from `sender`, whatever was there.
#[inline(always)]
pub fn set_call<'s>(script: &'s Script, sender: Tid, env: &Env, stmt: &Stmt, call: &mut Call<'s>)
    requires { length (proc_places script.now) < 2 ^ 32 }
    ensures { call.new ≡ call_of script.now sender env.now stmt.now }
{
    match stmt {
        Stmt::Create {
            proc,
            prio,
            flags,
            ..
        } => set_create(script, *proc, *prio, flags, call),
        Stmt::CallProc { proc } => set_call_proc(script, *proc, call),
        _ => set_thread_call(&script.texts, sender, env, stmt, call),
    }
}
