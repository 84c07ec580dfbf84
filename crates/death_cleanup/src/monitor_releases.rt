// How a monitor becomes free.
ghost use Rattle.std.specs.Prelude.{◌≡◌, ◌<◌, false, is_none, length, IfSome, IsTrue};
ghost use Rattle.lwp_types.specs.Case.{answer_by};
ghost use Rattle.lwp_types.specs.Effects.{effect_places};
ghost use Rattle.lwp_types.specs.Monitors.{is_owner, monitor_break, monitor_exit};
ghost use Rattle.lwp_types.specs.MonitorRelease.{lock_of, release};
ghost use Rattle.lwp_types.specs.State.{is_blocked_in};
ghost use Rattle.monitors.specs.Machine.{with_owner};
ghost use Rattle.monitors.specs.MonitorTable.{is_live};
ghost use Rattle.death_cleanup.specs.Comes.{Answers, CameTo};
ghost use Rattle.death_cleanup.specs.Ties.{InStep, LawfulParts};
ghost use Rattle.death_cleanup.specs.View.{state_of};

use crate::parts::{Parts, wake_done};
use lwp_types::{Effects, LwpErr, Mid, Tid};
use monitors::Monitors;

// Whether the thread holds the monitor.
fn holds(mons: &Monitors, tid: Tid, mon: Mid) -> bool
    requires { IsTrue (is_live mons.now mon) }
    ensures { result ≡ is_owner mons.now.locks tid mon }
{
    match mons.owner(mon) {
        Some(owner) => owner == tid,
        None => false,
    }
}

// The thread that holds a monitor from now on, if any, goes on.
fn go_on<'s>(parts: &mut Parts<'s>, next: Option<Tid>, effects: &mut Effects<'s>)
    requires step { InStep parts.old }
    requires waits { IfSome next (λ u. IsTrue (is_blocked_in (state_of parts.old) u)) }
    requires room { length effects.old < effect_places }
    ensures came { CameTo parts.old parts.new effects.old effects.new
        (with_owner next (state_of parts.old)) }
{
    let Some(tid) = next else {
        return;
    };
    wake_done(parts, tid, Ok(0), effects);
}

/// The monitor loses its owner, and the thread that enters next goes on.
pub fn release<'s>(parts: &mut Parts<'s>, mon: Mid, effects: &mut Effects<'s>)
    requires lawful { LawfulParts parts.old }
    requires held { is_none (lock_of parts.old.mons.locks mon) ≡ false }
    requires room { length effects.old < effect_places }
    ensures came { CameTo parts.old parts.new effects.old effects.new
        (release mon (state_of parts.old)) }
{
    let next = parts.mons.break_lock(mon);
    go_on(parts, next, effects);
}

/// The thread leaves the monitor once, and the last time gives it up.
pub fn monitor_exit<'s>(
    parts: &mut Parts<'s>,
    tid: Tid,
    mon: Mid,
    effects: &mut Effects<'s>,
) -> Result<i64, LwpErr>
    requires lawful { LawfulParts parts.old }
    requires room { length effects.old < effect_places }
    ensures answers { Answers parts.old parts.new effects.old effects.new
        (monitor_exit (state_of parts.old) tid mon) (answer_by result) }
{
    if !parts.mons.is_live(mon) {
        return Err(LwpErr::NonExist);
    }
    if !holds(&parts.mons, tid, mon) {
        return Err(LwpErr::InvalidArg);
    }
    let next = parts.mons.exit(mon, tid);
    go_on(parts, next, effects);
    Ok(0)
}

/// The monitor loses its owner, at any depth.
pub fn monitor_break<'s>(
    parts: &mut Parts<'s>,
    mon: Mid,
    effects: &mut Effects<'s>,
) -> Result<i64, LwpErr>
    requires lawful { LawfulParts parts.old }
    requires room { length effects.old < effect_places }
    ensures answers { Answers parts.old parts.new effects.old effects.new
        (monitor_break (state_of parts.old) mon) (answer_by result) }
{
    if !parts.mons.is_live(mon) {
        return Err(LwpErr::NonExist);
    }
    if parts.mons.owner(mon).is_none() {
        return Err(LwpErr::NotOwned);
    }
    release(parts, mon, effects);
    Ok(0)
}
