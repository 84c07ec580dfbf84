// The threads that wait for a thread or an agent that ends go on.
ghost use Rattle.std.specs.Prelude.{◌≡◌, ◌<◌, ◌+◌, Some, IsTrue, false, length};
ghost use Rattle.std.specs.List.{slice_get};
ghost use Rattle.lwp_types.specs.Agents.{end_agent};
ghost use Rattle.lwp_types.specs.Death.{end_agents, refuse_senders, release_all};
ghost use Rattle.lwp_types.specs.State.{is_agent, is_thread};
ghost use Rattle.death_cleanup.specs.Comes.{CameTo, HasRoom};
ghost use Rattle.death_cleanup.specs.Moves.{agent_over};
ghost use Rattle.death_cleanup.specs.Named.{IsGap, run_number};
ghost use Rattle.death_cleanup.specs.Ties.{HasLawfulThreads, InStep, LawfulParts};
ghost use Rattle.death_cleanup.specs.View.{state_of};
ghost use Rattle.death_cleanup.specs.Waits.{after_dismiss};
ghost use Rattle.pod_laws.proofs.DeathLoops.{Lonely, Unowning};

use crate::monitor_releases::release;
use crate::parts::{Parts, wake_done};
use crate::rows::{Awaited, Kind};
use lwp_types::{Effects, LwpErr, Tid};
use stale_ids::Registry;

/// The `i`-th of the living, counted from the oldest.
pub fn nth_of<'r, 's>(ids: &'r Registry<Kind<'s>>, i: usize) -> (Tid, &'r Kind<'s>)
    requires { i < length ids.now.live }
    ensures { slice_get ids.now.live i ≡ Some (result.0, result.1.now) }
{
    let number = ids.nth(i);
    let kind = ids.get(number).unwrap();
    (Tid { number }, kind)
}

/// The threads that wait for this of the thread or agent go on, in the order of birth. Their waits are noted from this
/// place on, and those that stand next begin there in the end. It is compiled into the death, where mostly nobody
/// waits.
#[inline(always)]
pub fn dismiss<'s>(
    parts: &mut Parts<'s>,
    what: Awaited,
    tid: Tid,
    at: usize,
    effects: &mut Effects<'s>,
)
    requires threads { HasLawfulThreads (state_of parts.old) }
    requires step { InStep parts.old }
    requires start { IsGap (run_number what tid) 0 parts.old.named.waits at }
    requires room { HasRoom effects.old (after_dismiss what tid (state_of parts.old)) 0 }
    ensures came { CameTo parts.old parts.new effects.old effects.new
        (after_dismiss what tid (state_of parts.old)) }
    ensures next { IsGap (run_number what tid + 1) 0 parts.new.named.waits at }
{
    while let Some(other) = parts.named.first_from(&parts.ids, what, tid, at) {
        wake_done(parts, other, what.answer(), effects);
    }
}

/// The thread leaves all its monitors, the last acquired first, and the threads that enter them next go on.
pub fn release_all<'s>(parts: &mut Parts<'s>, tid: Tid, effects: &mut Effects<'s>)
    requires lawful { LawfulParts parts.old }
    requires dying { parts.old.dying ≡ Some tid }
    requires room { HasRoom effects.old (release_all tid (state_of parts.old)) 1 }
    ensures came { CameTo parts.old parts.new effects.old effects.new
        (release_all tid (state_of parts.old)) }
{
    while let Some(mon) = parts.mons.last_held(tid) {
        release(parts, mon, effects);
    }
}

/// The senders of letters to the thread have them back and go on, in the order of sending.
pub fn refuse_senders<'s>(parts: &mut Parts<'s>, tid: Tid, effects: &mut Effects<'s>)
    requires lonely { Lonely tid (state_of parts.old) }
    requires step { InStep parts.old }
    requires room { HasRoom effects.old (refuse_senders tid (state_of parts.old)) 0 }
    ensures came { CameTo parts.old parts.new effects.old effects.new
        (refuse_senders tid (state_of parts.old)) }
{
    while let Some(sender) = parts.mail.pop_to(tid) {
        wake_done(parts, sender, Err(LwpErr::NonExist), effects);
    }
}

// An agent that is listed no more: the threads that wait for it by name go on, and its letter and its number go.
fn clear_agent<'s>(parts: &mut Parts<'s>, agent: Tid, effects: &mut Effects<'s>)
    requires threads { HasLawfulThreads (state_of parts.old) }
    requires step { InStep parts.old }
    requires no_thread { is_thread (state_of parts.old) agent ≡ false }
    requires room { HasRoom effects.old (agent_over agent (state_of parts.old)) 0 }
    ensures came { CameTo parts.old parts.new effects.old effects.new
        (agent_over agent (state_of parts.old)) }
{
    let at = parts.named.start_of(agent);
    dismiss(parts, Awaited::Letter, agent, at, effects);
    parts.mail.forget(agent);
    parts.ids.remove(agent.number);
}

/// An agent ends: the threads that wait for it by name go on, and its letter goes, received or not.
pub fn end_agent<'s>(parts: &mut Parts<'s>, agent: Tid, effects: &mut Effects<'s>)
    requires lawful { LawfulParts parts.old }
    requires lives { IsTrue (is_agent (state_of parts.old) agent) }
    requires room { HasRoom effects.old (end_agent agent (state_of parts.old)) 0 }
    ensures came { CameTo parts.old parts.new effects.old effects.new
        (end_agent agent (state_of parts.old)) }
{
    parts.agents.destroy(agent);
    clear_agent(parts, agent, effects);
}

/// The agents of the thread end, in the order of birth.
pub fn end_agents<'s>(parts: &mut Parts<'s>, tid: Tid, effects: &mut Effects<'s>)
    requires unowning { Unowning tid (state_of parts.old) }
    requires step { InStep parts.old }
    requires room { HasRoom effects.old (end_agents tid (state_of parts.old)) 0 }
    ensures came { CameTo parts.old parts.new effects.old effects.new
        (end_agents tid (state_of parts.old)) }
{
    while let Some(agent) = parts.agents.forget_owner(tid) {
        clear_agent(parts, agent, effects);
    }
}
