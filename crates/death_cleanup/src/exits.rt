// What an exit procedure does.
ghost use Rattle.std.specs.Prelude.{◌≡◌, ◌<◌, ◌≤◌, ◌+◌, ◌++◌, ◌∷◌, [], length};
ghost use Rattle.lwp_types.specs.Case.{answer_by};
ghost use Rattle.lwp_types.specs.Effects.{effect_places};
ghost use Rattle.lwp_types.specs.Exits.{exit_case, run_exit};
ghost use Rattle.lwp_types.specs.Messages.{reply};
ghost use Rattle.lwp_types.specs.State.{is_id, is_thread};
ghost use Rattle.lwp_types.specs.Threads.{resume, set_exit};
ghost use Rattle.death_cleanup.specs.Comes.{Answers, CameTo};
ghost use Rattle.death_cleanup.specs.Ties.{InStep, LawfulParts};
ghost use Rattle.death_cleanup.specs.View.{state_of};

use crate::condition_wakes::{broadcast, notify};
use crate::monitor_releases::{monitor_break, monitor_exit};
use crate::parts::{Parts, is_agent, is_thread, wake_replied};
use lwp_types::{Answer, Effect, Effects, ExitCall, ExitMark, LwpErr, Text, Tid};

/// The exit status is set; it is at most 99.
pub fn set_exit(parts: &mut Parts, code: u32) -> Result<i64, LwpErr>
    requires step { InStep parts.old }
    ensures answers { Answers parts.old parts.new [] [] (set_exit (state_of parts.old) code)
        (answer_by result) }
{
    if code > 99 {
        return Err(LwpErr::InvalidArg);
    }
    parts.exit = code;
    Ok(0)
}

/// A suspended thread may run again, unless it waits. A dying one isn't suspended, and nothing happens.
pub fn resume(parts: &mut Parts, tid: Tid) -> Result<i64, LwpErr>
    requires step { InStep parts.old }
    ensures answers { Answers parts.old parts.new [] [] (resume (state_of parts.old) tid)
        (answer_by result) }
{
    if !is_thread(parts, tid) {
        return Err(LwpErr::NonExist);
    }
    if !parts.sched.knows(tid) {
        return Ok(0);
    }
    parts.sched.resume(tid);
    Ok(0)
}

// Whether it is a live thread or agent, where it is known whether it is a thread: so it is looked for among the threads once.
fn lives(parts: &Parts, is_one: bool, tid: Tid) -> bool
    requires { is_one ≡ is_thread (state_of parts.now) tid }
    ensures { result ≡ is_id (state_of parts.now) tid }
{
    is_one || is_agent(&parts.agents, tid)
}

/// The letter that the thread has received from the other is done with. A thread that sent it goes on with the text; an agent
/// can take the next event.
#[inline(always)]
pub fn reply<'s>(
    parts: &mut Parts<'s>,
    tid: Tid,
    to: Tid,
    text: &Text<'s>,
    effects: &mut Effects<'s>,
) -> Result<i64, LwpErr>
    requires lawful { LawfulParts parts.old }
    requires room { length effects.old < effect_places }
    ensures answers { Answers parts.old parts.new effects.old effects.new
        (reply (state_of parts.old) tid to text.now) (answer_by result) }
{
    let is_one = is_thread(parts, to);
    if !lives(parts, is_one, to) {
        return Err(LwpErr::NonExist);
    }
    let len = text.len();
    if let Err(err) = parts.mail.reply(tid, to, len) {
        return Err(err);
    }
    if is_one {
        wake_replied(parts, to, text, effects);
        return Ok(0);
    }
    parts.agents.release(to);
    Ok(0)
}

// The call of an exit procedure is made.
fn perform<'s>(
    parts: &mut Parts<'s>,
    tid: Tid,
    call: &ExitCall<'s>,
    effects: &mut Effects<'s>,
) -> Result<i64, LwpErr>
    requires lawful { LawfulParts parts.old }
    requires room { length effects.old < effect_places }
    ensures answers { Answers parts.old parts.new effects.old effects.new
        (exit_case (state_of parts.old) tid call.now) (answer_by result) }
{
    match call {
        ExitCall::MonExit { mon } => monitor_exit(parts, tid, *mon, effects),
        ExitCall::MonBreak { mon } => monitor_break(parts, *mon, effects),
        ExitCall::Notify { cond } => notify(parts, tid, *cond),
        ExitCall::Broadcast { cond } => broadcast(parts, tid, *cond),
        ExitCall::Reply { to, text } => reply(parts, tid, *to, text, effects),
        ExitCall::Resume { tid } => resume(parts, *tid),
        ExitCall::SetExit { code } => set_exit(parts, *code),
        ExitCall::Note { text: _ } => Ok(0),
    }
}

// The result of an exit procedure is told.
fn tell_exit<'s>(
    tid: Tid,
    mark: &ExitMark<'s>,
    done: Result<i64, LwpErr>,
    effects: &mut Effects<'s>,
)
    requires { length effects.old < effect_places }
    ensures { effects.new
        ≡ effects.old ++ Effect.Exited tid mark.now.reg mark.now.call (answer_by done) ∷ [] }
{
    effects.push(Effect::Exited {
        tid,
        reg: mark.reg,
        call: mark.call.again(),
        answer: Answer::of(done),
    });
}

/// An exit procedure of the thread is carried out, and its result told after what it did to others.
pub fn exit_call<'s>(
    parts: &mut Parts<'s>,
    tid: Tid,
    mark: &ExitMark<'s>,
    effects: &mut Effects<'s>,
)
    requires lawful { LawfulParts parts.old }
    requires room { length effects.old + 2 ≤ effect_places }
    ensures came { CameTo parts.old parts.new effects.old effects.new
        (run_exit tid mark.now (state_of parts.old)) }
    ensures lawful { LawfulParts parts.new }
    ensures most { length effects.new ≤ length effects.old + 2 }
{
    let done = perform(parts, tid, &mark.call, effects);
    tell_exit(tid, mark, done, effects);
}
