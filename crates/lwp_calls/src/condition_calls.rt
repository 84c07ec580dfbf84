// Calls on conditions.
ghost use Rattle.std.specs.Prelude.{◌≡◌, ◌≤◌, Some, None, IsErr, IsTrue, OnErr, OnOk, length, option_map, []};
ghost use Rattle.death_cleanup.specs.Comes.{Answers};
ghost use Rattle.death_cleanup.specs.Ties.{InStep, LawfulParts};
ghost use Rattle.death_cleanup.specs.View.{state_of};
ghost use Rattle.lwp_types.specs.Case.{answer_by, list_case};
ghost use Rattle.lwp_types.specs.Choice.{is_eligible_in};
ghost use Rattle.lwp_types.specs.Effects.{most_of_a_call};
ghost use Rattle.lwp_types.specs.Families.{condition_call};
ghost use Rattle.lwp_types.specs.Step.{case_of};
ghost use Rattle.lwp_types.specs.Conditions.{condition_create, condition_destroy, condition_numbers, condition_waiters, wait};
ghost use Rattle.lwp_types.specs.declared.call.IdKind.TheVariants as kind;
ghost use Rattle.lwp_calls.specs.Asks.{asks_memory};
ghost use Rattle.lwp_calls.specs.Comes.{ComesTo, IsAsBefore, Told};

use crate::asks::{block, prio_of, tell_ids};
use conditions::WaitRec;
use death_cleanup::{Parts, broadcast, cond_send, is_last, notify, release};
use lwp_types::{Answer, Block, Cid, ConditionCall, Effects, IdKind, LwpErr, Mid, NoMemory, Tid};

/// A call of this family.
#[inline(always)]
pub fn carry_out<'s>(
    parts: &mut Parts<'s>,
    tid: Tid,
    call: ConditionCall,
    effects: &mut Effects<'s>,
) -> Result<(), NoMemory>
    requires lawful { LawfulParts parts.old }
    requires alone { parts.old.dying ≡ None }
    requires may_run { IsTrue (is_eligible_in (state_of parts.old) tid) }
    requires room { effects.old ≡ [] }
    ensures ok { OnOk result
        (Told parts.old parts.new effects.old effects.new tid
        (case_of (state_of parts.old) tid (condition_call call))) }
    ensures most { length effects.new ≤ most_of_a_call }
    ensures err { OnErr result (IsAsBefore parts.old parts.new) }
    ensures memory { IsErr result → IsTrue (asks_memory (condition_call call)) }
{
    let own = match call {
        ConditionCall::Create(mon) => return create(parts, tid, mon, effects),
        ConditionCall::Destroy(cond) => Some(destroy(parts, cond)),
        ConditionCall::Wait(cond) => wait(parts, tid, cond, effects),
        ConditionCall::Notify(cond) => Some(notify(parts, tid, cond)),
        ConditionCall::Broadcast(cond) => Some(broadcast(parts, tid, cond)),
        ConditionCall::Send(cond, to) => Some(cond_send(parts, tid, cond, to)),
        ConditionCall::List => return list(parts, tid, effects),
        ConditionCall::Waiters(cond) => return waiters(parts, tid, cond, effects),
    };
    effects.done_now(tid, own);
    Ok(())
}

// A condition of the monitor.
fn create<'s>(
    parts: &mut Parts<'s>,
    tid: Tid,
    mon: Mid,
    effects: &mut Effects<'s>,
) -> Result<(), NoMemory>
    requires step { InStep parts.old }
    requires alone { parts.old.dying ≡ None }
    requires room { effects.old ≡ [] }
    ensures ok { OnOk result
        (Told parts.old parts.new effects.old effects.new tid
        (condition_create (state_of parts.old) mon)) }
    ensures most { length effects.new ≤ 1 }
    ensures err { OnErr result (IsAsBefore parts.old parts.new) }
{
    if !parts.mons.is_live(mon) {
        effects.done(tid, Err(LwpErr::NonExist));
        return Ok(());
    }
    let Some(cond) = parts.conds.create(mon)? else {
        effects.done(tid, Err(LwpErr::NoRoom));
        return Ok(());
    };
    effects.answered(tid, Answer::Cond(cond));
    Ok(())
}

// A condition that nobody waits on is gone.
fn destroy(parts: &mut Parts, cond: Cid) -> Result<i64, LwpErr>
    requires step { InStep parts.old }
    requires alone { parts.old.dying ≡ None }
    ensures { Answers parts.old parts.new [] [] (condition_destroy (state_of parts.old) cond)
        (answer_by result) }
{
    if parts.conds.monitor_of(cond).is_none() {
        return Err(LwpErr::NonExist);
    }
    if parts.conds.waited(cond) {
        return Err(LwpErr::InUse);
    }
    parts.conds.destroy(cond);
    Ok(0)
}

// The caller waits on the condition, and gives its monitor up however deep it is in.
fn wait<'s>(
    parts: &mut Parts<'s>,
    caller: Tid,
    cond: Cid,
    effects: &mut Effects<'s>,
) -> Option<Result<i64, LwpErr>>
    requires lawful { LawfulParts parts.old }
    requires alone { parts.old.dying ≡ None }
    requires may_run { IsTrue (is_eligible_in (state_of parts.old) caller) }
    requires room { effects.old ≡ [] }
    ensures comes { ComesTo parts.old parts.new effects.old effects.new
        (wait (state_of parts.old) caller cond) (option_map answer_by result) }
    ensures most { length effects.new ≤ 1 }
{
    let Some(mon) = parts.conds.monitor_of(cond) else {
        return Some(Err(LwpErr::NonExist));
    };
    if !is_last(&parts.mons, caller, mon) {
        return Some(Err(LwpErr::NotOwned));
    }
    let depth = parts.mons.depth(mon);
    let prio = prio_of(parts, caller);
    release(parts, mon, effects);
    parts.conds.wait(WaitRec {
        cond,
        tid: caller,
        prio,
        depth,
    });
    block(parts, caller, Block::Waiting(cond));
    None
}

// The live conditions.
fn list<'s>(parts: &Parts<'s>, tid: Tid, effects: &mut Effects<'s>) -> Result<(), NoMemory>
    requires step { InStep parts.now }
    requires room { effects.old ≡ [] }
    ensures ok { OnOk result
        (Told parts.now parts.now effects.old effects.new tid
        (list_case (state_of parts.now) kind.Cond
        (condition_numbers (state_of parts.now).conditions))) }
    ensures most { length effects.new ≤ 1 }
{
    let list = parts.conds.list()?;
    tell_ids(tid, IdKind::Cond, list, effects);
    Ok(())
}

// Who waits on the condition.
fn waiters<'s>(
    parts: &Parts<'s>,
    tid: Tid,
    cond: Cid,
    effects: &mut Effects<'s>,
) -> Result<(), NoMemory>
    requires step { InStep parts.now }
    requires room { effects.old ≡ [] }
    ensures ok { OnOk result
        (Told parts.now parts.now effects.old effects.new tid
        (condition_waiters (state_of parts.now) cond)) }
    ensures most { length effects.new ≤ 1 }
{
    if parts.conds.monitor_of(cond).is_none() {
        effects.done(tid, Err(LwpErr::NonExist));
        return Ok(());
    }
    let list = parts.conds.waiters(cond)?;
    tell_ids(tid, IdKind::Thread, list, effects);
    Ok(())
}
