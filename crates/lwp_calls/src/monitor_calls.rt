// Calls on monitors.
ghost use Rattle.std.specs.Prelude.{◌≡◌, ◌≤◌, [], ◌∷◌, false, Some, None, IsErr, IsTrue, OnErr, OnOk, length, option_map};
ghost use Rattle.death_cleanup.specs.Comes.{Answers};
ghost use Rattle.death_cleanup.specs.Ties.{InStep, LawfulParts};
ghost use Rattle.death_cleanup.specs.View.{state_of};
ghost use Rattle.lwp_types.specs.Case.{answer_by, list_case, unless};
ghost use Rattle.lwp_types.specs.Choice.{is_eligible_in};
ghost use Rattle.lwp_types.specs.Effects.{most_of_a_call};
ghost use Rattle.lwp_types.specs.Families.{monitor_call};
ghost use Rattle.lwp_types.specs.Monitors.{cond_enter, enter, enter_case, is_deepest, is_owned_by_other, monitor_create, monitor_destroy, monitor_waiters};
ghost use Rattle.lwp_types.specs.State.{member};
ghost use Rattle.lwp_types.specs.Step.{case_of};
ghost use Rattle.lwp_types.specs.declared.call.IdKind.TheVariants as kind;
ghost use Rattle.lwp_calls.specs.Asks.{asks_memory};
ghost use Rattle.lwp_calls.specs.Comes.{ComesTo, IsAsBefore, Told};

use crate::asks::{block, prio_of, tell_ids};
use death_cleanup::{Parts, monitor_break, monitor_exit};
use lwp_types::{Answer, Block, Effects, IdKind, LwpErr, Mid, MonitorCall, NoMemory, Tid};

// How often a thread may have entered a monitor.
const MOST_DEPTH: u32 = 65_535;

/// A call of this family.
#[inline(always)]
pub fn carry_out<'s>(
    parts: &mut Parts<'s>,
    tid: Tid,
    call: MonitorCall,
    effects: &mut Effects<'s>,
) -> Result<(), NoMemory>
    requires lawful { LawfulParts parts.old }
    requires alone { parts.old.dying ≡ None }
    requires may_run { IsTrue (is_eligible_in (state_of parts.old) tid) }
    requires room { effects.old ≡ [] }
    ensures ok { OnOk result
        (Told parts.old parts.new effects.old effects.new tid
        (case_of (state_of parts.old) tid (monitor_call call))) }
    ensures most { length effects.new ≤ most_of_a_call }
    ensures err { OnErr result (IsAsBefore parts.old parts.new) }
    ensures memory { IsErr result → IsTrue (asks_memory (monitor_call call)) }
{
    let own = match call {
        MonitorCall::Create => return create(parts, tid, effects),
        MonitorCall::Destroy(mon) => Some(destroy(parts, mon)),
        MonitorCall::Enter(mon) => enter(parts, tid, mon),
        MonitorCall::CondEnter(mon) => Some(cond_enter(parts, tid, mon)),
        MonitorCall::Exit(mon) => Some(monitor_exit(parts, tid, mon, effects)),
        MonitorCall::Break(mon) => Some(monitor_break(parts, mon, effects)),
        MonitorCall::List => return list(parts, tid, effects),
        MonitorCall::Waiters(mon) => return waiters(parts, tid, mon, effects),
    };
    effects.done_now(tid, own);
    Ok(())
}

// A monitor that nobody holds.
fn create<'s>(parts: &mut Parts<'s>, tid: Tid, effects: &mut Effects<'s>) -> Result<(), NoMemory>
    requires step { InStep parts.old }
    requires alone { parts.old.dying ≡ None }
    requires room { effects.old ≡ [] }
    ensures ok { OnOk result
        (Told parts.old parts.new effects.old effects.new tid (monitor_create (state_of parts.old))) }
    ensures most { length effects.new ≤ 1 }
    ensures err { OnErr result (IsAsBefore parts.old parts.new) }
{
    let Some(mon) = parts.mons.create()? else {
        effects.done(tid, Err(LwpErr::NoRoom));
        return Ok(());
    };
    effects.answered(tid, Answer::Monitor(mon));
    Ok(())
}

// A monitor that nobody uses is gone, and its conditions with it.
fn destroy(parts: &mut Parts, mon: Mid) -> Result<i64, LwpErr>
    requires lawful { LawfulParts parts.old }
    requires alone { parts.old.dying ≡ None }
    ensures { Answers parts.old parts.new [] [] (monitor_destroy (state_of parts.old) mon)
        (answer_by result) }
{
    if !parts.mons.is_live(mon) {
        return Err(LwpErr::NonExist);
    }
    if parts.mons.owner(mon).is_some() {
        return Err(LwpErr::InUse);
    }
    if parts.conds.waited_of(mon) {
        return Err(LwpErr::InUse);
    }
    parts.mons.destroy(mon);
    parts.conds.destroy_of(mon);
    Ok(0)
}

// Whether another than the thread holds the monitor.
fn is_others(parts: &Parts, tid: Tid, mon: Mid) -> bool
    requires { IsTrue (member mon (state_of parts.now).monitors) }
    ensures { result ≡ is_owned_by_other (state_of parts.now).locks tid mon }
{
    match parts.mons.owner(mon) {
        Some(owner) => owner != tid,
        None => false,
    }
}

// The thread enters a monitor that it needn't wait for, unless it is in as deep as can be.
fn go_in(parts: &mut Parts, tid: Tid, mon: Mid) -> Result<i64, LwpErr>
    requires step { InStep parts.old }
    requires alone { parts.old.dying ≡ None }
    requires lives { IsTrue (member mon (state_of parts.old).monitors) }
    requires open { is_owned_by_other (state_of parts.old).locks tid mon ≡ false }
    ensures { Answers parts.old parts.new [] []
        (unless (state_of parts.old) (is_deepest (state_of parts.old) tid mon ∷ [])
        (enter_case (state_of parts.old) tid mon))
        (answer_by result) }
{
    if parts.mons.depth(mon) >= MOST_DEPTH {
        return Err(LwpErr::NoRoom);
    }
    Ok(i64::from(parts.mons.enter(mon, tid)))
}

// The caller enters the monitor, or waits for it after all others.
fn enter(parts: &mut Parts, caller: Tid, mon: Mid) -> Option<Result<i64, LwpErr>>
    requires lawful { LawfulParts parts.old }
    requires alone { parts.old.dying ≡ None }
    requires may_run { IsTrue (is_eligible_in (state_of parts.old) caller) }
    ensures { ComesTo parts.old parts.new [] [] (enter (state_of parts.old) caller mon)
        (option_map answer_by result) }
{
    if !parts.mons.is_live(mon) {
        return Some(Err(LwpErr::NonExist));
    }
    if !is_others(parts, caller, mon) {
        return Some(go_in(parts, caller, mon));
    }
    let prio = prio_of(parts, caller);
    parts.mons.request(mon, caller, prio, 1);
    block(parts, caller, Block::Entering(mon));
    None
}

// The caller enters the monitor, and is refused where it would have to wait.
fn cond_enter(parts: &mut Parts, caller: Tid, mon: Mid) -> Result<i64, LwpErr>
    requires step { InStep parts.old }
    requires alone { parts.old.dying ≡ None }
    ensures { Answers parts.old parts.new [] [] (cond_enter (state_of parts.old) caller mon)
        (answer_by result) }
{
    if !parts.mons.is_live(mon) {
        return Err(LwpErr::NonExist);
    }
    if is_others(parts, caller, mon) {
        return Err(LwpErr::InUse);
    }
    go_in(parts, caller, mon)
}

// The live monitors.
fn list<'s>(parts: &Parts<'s>, tid: Tid, effects: &mut Effects<'s>) -> Result<(), NoMemory>
    requires step { InStep parts.now }
    requires room { effects.old ≡ [] }
    ensures ok { OnOk result
        (Told parts.now parts.now effects.old effects.new tid
        (list_case (state_of parts.now) kind.Monitor (state_of parts.now).monitors)) }
    ensures most { length effects.new ≤ 1 }
{
    let list = parts.mons.list()?;
    tell_ids(tid, IdKind::Monitor, list, effects);
    Ok(())
}

// Who waits to enter the monitor.
fn waiters<'s>(
    parts: &Parts<'s>,
    tid: Tid,
    mon: Mid,
    effects: &mut Effects<'s>,
) -> Result<(), NoMemory>
    requires step { InStep parts.now }
    requires room { effects.old ≡ [] }
    ensures ok { OnOk result
        (Told parts.now parts.now effects.old effects.new tid
        (monitor_waiters (state_of parts.now) mon)) }
    ensures most { length effects.new ≤ 1 }
{
    if !parts.mons.is_live(mon) {
        effects.done(tid, Err(LwpErr::NonExist));
        return Ok(());
    }
    let list = parts.mons.waiters(mon)?;
    tell_ids(tid, IdKind::Thread, list, effects);
    Ok(())
}
