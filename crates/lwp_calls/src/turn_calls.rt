// Calls that move threads in the run queue.
ghost use Rattle.std.specs.Prelude.{◌≡◌, ◌≤◌, length, IsTrue, [], None};
ghost use Rattle.death_cleanup.specs.Comes.{Answers};
ghost use Rattle.death_cleanup.specs.Ties.{InStep};
ghost use Rattle.death_cleanup.specs.View.{state_of};
ghost use Rattle.lwp_types.specs.Case.{answer_by};
ghost use Rattle.lwp_types.specs.Choice.{is_eligible_in};
ghost use Rattle.lwp_types.specs.Effects.{most_of_a_call};
ghost use Rattle.lwp_types.specs.Families.{turn_call};
ghost use Rattle.lwp_types.specs.Step.{case_of};
ghost use Rattle.lwp_calls.specs.Comes.{Told};
ghost use Rattle.lwp_types.specs.Threads.{resched, set_priority, suspend, yield_to};

use crate::asks::{may_run, prio_of};
use death_cleanup::{Parts, is_thread, resume};
use lwp_types::{Effects, LwpErr, Tid, TurnCall};

/// A call of this family.
#[inline(always)]
pub fn carry_out<'s>(parts: &mut Parts<'s>, tid: Tid, call: TurnCall, effects: &mut Effects<'s>)
    requires step { InStep parts.old }
    requires alone { parts.old.dying ≡ None }
    requires may_run { IsTrue (is_eligible_in (state_of parts.old) tid) }
    requires room { effects.old ≡ [] }
    ensures told { Told parts.old parts.new effects.old effects.new tid
        (case_of (state_of parts.old) tid (turn_call call)) }
    ensures most { length effects.new ≤ most_of_a_call }
{
    let done = match call {
        TurnCall::Yield(to) => yield_to(parts, tid, to),
        TurnCall::Resched(prio) => resched(parts, tid, prio),
        TurnCall::SetPri(other, prio) => set_priority(parts, other, prio),
        TurnCall::Suspend(other) => suspend(parts, other),
        TurnCall::Resume(other) => resume(parts, other),
    };
    effects.done(tid, done);
}

// Another goes ahead of the caller, or all others of its priority do.
fn yield_to(parts: &mut Parts, caller: Tid, to: Tid) -> Result<i64, LwpErr>
    requires step { InStep parts.old }
    requires alone { parts.old.dying ≡ None }
    requires may_run { IsTrue (is_eligible_in (state_of parts.old) caller) }
    ensures { Answers parts.old parts.new [] [] (yield_to (state_of parts.old) caller to)
        (answer_by result) }
{
    if to == caller {
        // Who makes a call lives, may run, and has the priority that it has.
        parts.sched.yield_to(caller, caller);
        return Ok(0);
    }
    yield_to_other(parts, caller, to)
}

// The yield, where another is named.
fn yield_to_other(parts: &mut Parts, caller: Tid, to: Tid) -> Result<i64, LwpErr>
    requires step { InStep parts.old }
    requires alone { parts.old.dying ≡ None }
    requires may_run { IsTrue (is_eligible_in (state_of parts.old) caller) }
    ensures { Answers parts.old parts.new [] [] (yield_to (state_of parts.old) caller to)
        (answer_by result) }
{
    if !is_thread(parts, to) {
        return Err(LwpErr::NonExist);
    }
    if prio_of(parts, to) != prio_of(parts, caller) {
        return Err(LwpErr::IllPrio);
    }
    if !may_run(parts, to) {
        return Err(LwpErr::InvalidArg);
    }
    parts.sched.yield_to(caller, to);
    Ok(0)
}

// The first of a priority goes last.
fn resched(parts: &mut Parts, caller: Tid, prio: u32) -> Result<i64, LwpErr>
    requires step { InStep parts.old }
    requires alone { parts.old.dying ≡ None }
    requires may_run { IsTrue (is_eligible_in (state_of parts.old) caller) }
    ensures { Answers parts.old parts.new [] [] (resched (state_of parts.old) caller prio)
        (answer_by result) }
{
    if prio == 0 || prio > parts.sched.maxpri() {
        return Err(LwpErr::IllPrio);
    }
    if prio > prio_of(parts, caller) {
        return Err(LwpErr::InvalidArg);
    }
    parts.sched.resched(prio);
    Ok(0)
}

// A thread has another priority, also in what it waits for.
fn set_priority(parts: &mut Parts, tid: Tid, prio: u32) -> Result<i64, LwpErr>
    requires step { InStep parts.old }
    requires alone { parts.old.dying ≡ None }
    ensures { Answers parts.old parts.new [] [] (set_priority (state_of parts.old) tid prio)
        (answer_by result) }
{
    if !is_thread(parts, tid) {
        return Err(LwpErr::NonExist);
    }
    if prio == 0 || prio > parts.sched.maxpri() {
        return Err(LwpErr::IllPrio);
    }
    let before = parts.sched.set_prio(tid, prio);
    parts.mons.requeue(tid, prio);
    parts.conds.requeue(tid, prio);
    Ok(i64::from(before))
}

// A thread may not run until it is resumed.
fn suspend(parts: &mut Parts, tid: Tid) -> Result<i64, LwpErr>
    requires step { InStep parts.old }
    requires alone { parts.old.dying ≡ None }
    ensures { Answers parts.old parts.new [] [] (suspend (state_of parts.old) tid)
        (answer_by result) }
{
    if !is_thread(parts, tid) {
        return Err(LwpErr::NonExist);
    }
    parts.sched.suspend(tid);
    Ok(0)
}
