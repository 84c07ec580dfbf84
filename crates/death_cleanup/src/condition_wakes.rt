// How those that wait on a condition are woken: they wait to enter its monitor again.
ghost use Rattle.std.specs.Prelude.{◌≡◌, ◌==◌, []};
ghost use Rattle.lwp_types.specs.Case.{answer_by};
ghost use Rattle.lwp_types.specs.MonitorRelease.{last_lock};
ghost use Rattle.lwp_types.specs.State.{passes};
ghost use Rattle.lwp_types.specs.Conditions.{broadcast, cond_send, notify};
ghost use Rattle.death_cleanup.specs.Comes.{Answers};
ghost use Rattle.death_cleanup.specs.Moves.{MayAsk, after_ask};
ghost use Rattle.death_cleanup.specs.Ties.{LawfulParts};
ghost use Rattle.death_cleanup.specs.View.{state_of};

use crate::parts::{Parts, is_thread, set_block};
use conditions::WaitRec;
use lwp_types::{Block, Cid, LwpErr, Mid, Tid};
use monitors::Monitors;

/// Whether of the monitors that the thread holds it acquired this one last.
pub fn is_last(mons: &Monitors, tid: Tid, mon: Mid) -> bool
    ensures { result ≡ passes (λ lock. mon == lock.mon) (last_lock mons.now.locks tid) }
{
    match mons.last_held(tid) {
        Some(last) => mon == last,
        None => false,
    }
}

// A thread that waited on a condition of the monitor waits to enter it again, after all others.
fn ask_again(parts: &mut Parts, mon: Mid, wait: WaitRec)
    requires { MayAsk parts.old.mons mon wait }
    ensures { parts.new ≡ after_ask parts.old mon wait }
{
    parts.mons.request(mon, wait.tid, wait.prio, wait.depth);
    set_block(&mut parts.ids, wait.tid, Block::Entering(mon));
}

/// Of those that wait on the condition the first of the greatest priority is woken, if anybody waits.
pub fn notify(parts: &mut Parts, tid: Tid, cond: Cid) -> Result<i64, LwpErr>
    requires lawful { LawfulParts parts.old }
    ensures answers { Answers parts.old parts.new [] [] (notify (state_of parts.old) tid cond)
        (answer_by result) }
{
    let Some(mon) = parts.conds.monitor_of(cond) else {
        return Err(LwpErr::NonExist);
    };
    if !is_last(&parts.mons, tid, mon) {
        return Err(LwpErr::NotOwned);
    }
    let Some(wait) = parts.conds.notify(cond) else {
        return Ok(0);
    };
    ask_again(parts, mon, wait);
    Ok(0)
}

/// All that wait on the condition are woken, in the order of their arrival.
pub fn broadcast(parts: &mut Parts, tid: Tid, cond: Cid) -> Result<i64, LwpErr>
    requires lawful { LawfulParts parts.old }
    ensures answers { Answers parts.old parts.new [] [] (broadcast (state_of parts.old) tid cond)
        (answer_by result) }
{
    let Some(mon) = parts.conds.monitor_of(cond) else {
        return Err(LwpErr::NonExist);
    };
    if !is_last(&parts.mons, tid, mon) {
        return Err(LwpErr::NotOwned);
    }
    while let Some(wait) = parts.conds.broadcast(cond) {
        ask_again(parts, mon, wait);
    }
    Ok(0)
}

/// This thread is woken, if it waits on the condition.
pub fn cond_send(parts: &mut Parts, tid: Tid, cond: Cid, to: Tid) -> Result<i64, LwpErr>
    requires lawful { LawfulParts parts.old }
    ensures answers { Answers parts.old parts.new [] [] (cond_send (state_of parts.old) tid cond to)
        (answer_by result) }
{
    let Some(mon) = parts.conds.monitor_of(cond) else {
        return Err(LwpErr::NonExist);
    };
    if !is_last(&parts.mons, tid, mon) {
        return Err(LwpErr::NotOwned);
    }
    if !is_thread(parts, to) {
        return Err(LwpErr::NonExist);
    }
    let Some(wait) = parts.conds.send_to(cond, to) else {
        return Err(LwpErr::NoWait);
    };
    ask_again(parts, mon, wait);
    Ok(0)
}
