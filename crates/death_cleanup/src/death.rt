// The death of a thread.
ghost use Rattle.std.specs.Prelude.{None, IsTrue, ◌≡◌, ◌<◌, ◌≤◌, ◌+◌, ◌++◌, ◌∷◌, [], Some, length};
ghost use Rattle.lwp_types.specs.Death.{bury, death, withdraw};
ghost use Rattle.lwp_types.specs.Effects.{effect_places, most_of_a_death};
ghost use Rattle.lwp_types.specs.State.{is_thread};
ghost use Rattle.death_cleanup.specs.Comes.{CameTo};
ghost use Rattle.death_cleanup.specs.Ties.{InStep, LawfulParts};
ghost use Rattle.death_cleanup.specs.View.{state_of};
ghost use Rattle.pod_laws.proofs.DeathEnds.{Forgotten};

use crate::frames::run_all_exits;
use crate::parts::{Parts, set_block};
use crate::rows::Awaited;
use crate::waiters::{dismiss, end_agents, refuse_senders, release_all};
use lwp_types::{Block, Effect, Effects, Tid};

// The thread begins to die: it is out of all that it waited in, and out of the scheduler. One that comes to its own end waits for
// nothing, so nothing is looked through for it.
fn withdraw(parts: &mut Parts, tid: Tid)
    requires lawful { LawfulParts parts.old }
    requires alone { parts.old.dying ≡ None }
    requires lives { IsTrue (is_thread (state_of parts.old) tid) }
    ensures after { state_of parts.new ≡ (withdraw tid (state_of parts.old)).after }
    ensures step { InStep parts.new }
    ensures dying { parts.new.dying ≡ Some tid }
{
    let waits = parts.sched.blocked(tid);
    parts.last_prio = parts.sched.prio_of(tid);
    parts.dying = Some(tid);
    parts.sched.leave(tid);
    set_block(&mut parts.ids, tid, Block::Not);
    if waits {
        parts.conds.forget(tid);
        parts.mons.forget(tid);
        parts.mail.forget(tid);
    }
}

// A death is told.
fn tell_death(tid: Tid, effects: &mut Effects)
    requires { length effects.old < effect_places }
    ensures { effects.new ≡ effects.old ++ Effect.Died tid ∷ [] }
{
    effects.push(Effect::Died { tid });
}

// The dying thread is gone.
fn bury<'s>(parts: &mut Parts<'s>, tid: Tid, effects: &mut Effects<'s>)
    requires forgotten { Forgotten (state_of parts.old) tid }
    requires step { InStep parts.old }
    requires dying { parts.old.dying ≡ Some tid }
    requires room { length effects.old < effect_places }
    ensures after { state_of parts.new ≡ (bury tid (state_of parts.old)).after }
    ensures effects { effects.new ≡ effects.old ++ (bury tid (state_of parts.old)).effects }
    ensures step { InStep parts.new }
    ensures alone { parts.new.dying ≡ None }
{
    parts.ids.remove(tid.number);
    parts.dying = None;
    tell_death(tid, effects);
}

/// A thread dies. Its exit procedures run, its monitors go to the threads that are next, its agents end, and all that
/// wait for it go on.
pub fn die<'s>(parts: &mut Parts<'s>, tid: Tid, effects: &mut Effects<'s>)
    requires lawful { LawfulParts parts.old }
    requires alone { parts.old.dying ≡ None }
    requires lives { IsTrue (is_thread (state_of parts.old) tid) }
    requires room { length effects.old + most_of_a_death ≤ effect_places }
    ensures came { CameTo parts.old parts.new effects.old effects.new
        (death tid (state_of parts.old)) }
    ensures lawful { LawfulParts parts.new }
    ensures most { length effects.new ≤ length effects.old + most_of_a_death }
{
    withdraw(parts, tid);
    run_all_exits(parts, tid, effects);
    release_all(parts, tid, effects);
    end_agents(parts, tid, effects);
    refuse_senders(parts, tid, effects);
    let at = parts.named.start_of(tid);
    dismiss(parts, Awaited::Letter, tid, at, effects);
    dismiss(parts, Awaited::Death, tid, at, effects);
    bury(parts, tid, effects);
}
