// What several calls ask of the parts and tell their caller, and how one begins to wait.
ghost use Rattle.std.specs.Prelude.{◌≡◌, ◌<◌, ◌≤◌, ◌+◌, ◌++◌, ◌∷◌, false, length, IfOk, IsTrue, Some, None, []};
ghost use Rattle.std.specs.List.{list_all};
ghost use Rattle.death_cleanup.specs.Comes.{CameTo};
ghost use Rattle.death_cleanup.specs.Ties.{InStep, LawfulParts};
ghost use Rattle.death_cleanup.specs.View.{state_of};
ghost use Rattle.lwp_types.specs.Choice.{is_eligible_in};
ghost use Rattle.lwp_types.specs.Effects.{effect_places};
ghost use Rattle.lwp_types.specs.Messages.{receivers_of};
ghost use Rattle.lwp_types.specs.State.{is_not_blocked, is_thread, numbers, priority_in, still};
ghost use Rattle.lwp_types.specs.Unblock.{after_block, after_block_for};
ghost use Rattle.lwp_types.specs.declared.call.Answer.TheVariants as answer;
ghost use Rattle.lwp_types.specs.declared.call.Effect.TheVariants as effect;
ghost use Rattle.lwp_calls.specs.Asks.{serves};
ghost use Rattle.pod_events.specs.Events.{has_agent};
ghost use Rattle.pod_events.specs.Rites.{flags_of};

use death_cleanup::{Awaited, Kind, Parts, note, nth_of, set_block};
use lwp_types::{Answer, Block, Effects, Flags, IdKind, IdList, NoMemory, Tid};
use stale_ids::Registry;
use std::alloc::Global;

/// Tells a caller a list.
pub fn tell_ids(tid: Tid, kind: IdKind, list: IdList, effects: &mut Effects)
    requires { length effects.old < effect_places }
    ensures { effects.new ≡ effects.old ++ effect.Answered tid (answer.Ids kind list) ∷ [] }
{
    effects.answered(tid, Answer::Ids { kind, list });
}

/// The priority of a thread.
pub fn prio_of(parts: &Parts, tid: Tid) -> u32
    requires step { InStep parts.now }
    requires alone { parts.now.dying ≡ None }
    requires lives { IsTrue (is_thread (state_of parts.now) tid) }
    ensures { result ≡ priority_in (state_of parts.now) tid }
{
    parts.sched.prio_of(tid)
}

/// Whether the thread may run.
pub fn may_run(parts: &Parts, tid: Tid) -> bool
    requires step { InStep parts.now }
    requires alone { parts.now.dying ≡ None }
    ensures { result ≡ is_eligible_in (state_of parts.now) tid }
{
    parts.sched.eligible(tid)
}

/// A thread that may run waits for something.
#[inline(always)]
pub fn block(parts: &mut Parts, tid: Tid, why: Block)
    requires step { InStep parts.old }
    requires alone { parts.old.dying ≡ None }
    requires may_run { IsTrue (is_eligible_in (state_of parts.old) tid) }
    requires waits { is_not_blocked why ≡ false }
    ensures { CameTo parts.old parts.new [] [] (still (after_block (state_of parts.old) tid why)) }
{
    note(&mut parts.named, &parts.ids, tid, &why);
    parts.sched.block(tid);
    set_block(&mut parts.ids, tid, why);
}

/// A thread that may run waits for something, and for no more than so many ticks.
pub fn block_for(parts: &mut Parts, tid: Tid, why: Block, ticks: u32)
    requires lawful { LawfulParts parts.old }
    requires alone { parts.old.dying ≡ None }
    requires may_run { IsTrue (is_eligible_in (state_of parts.old) tid) }
    requires waits { is_not_blocked why ≡ false }
    requires some { 1 ≤ ticks }
    ensures { CameTo parts.old parts.new [] []
        (still (after_block_for (state_of parts.old) tid why ticks)) }
{
    block(parts, tid, why);
    let due = parts.sched.now() + u64::from(ticks);
    parts.sched.set_timer(tid, due);
}

/// The live threads, in the order of birth.
pub fn threads(parts: &Parts, alloc: Global) -> Result<IdList, NoMemory>
    ensures { IfOk result (λ ids. ids ≡ numbers (state_of parts.now).threads) }
{
    let mut list = IdList::new(alloc);
    for i in 0..parts.ids.len() {
        let (tid, kind) = nth_of(&parts.ids, i);
        match kind {
            Kind::Thread(_) => list.push(tid.number)?,
            Kind::Agent => {}
        }
    }
    Ok(list)
}

/// The threads that wait for a letter of this one by name, in the order of birth.
pub fn receivers(parts: &Parts, alloc: Global, from: Tid) -> Result<IdList, NoMemory>
    ensures { IfOk result (λ ids. ids ≡ receivers_of (state_of parts.now) from) }
{
    let mut list = IdList::new(alloc);
    for i in 0..parts.ids.len() {
        let (tid, kind) = nth_of(&parts.ids, i);
        if kind.waits_for(Awaited::Letter, from) {
            list.push(tid.number)?;
        }
    }
    Ok(list)
}

/// How the thread was made, if it lives.
pub fn flags_of(parts: &Parts, tid: Tid) -> Option<Flags>
    ensures { result ≡ flags_of (state_of parts.now) tid }
{
    match parts.ids.get(tid.number) {
        Some(Kind::Thread(rec)) => Some(rec.flags),
        Some(Kind::Agent) => None,
        None => None,
    }
}

/// Whether the event has an agent.
pub fn has_agent(parts: &Parts, event: u8) -> bool
    ensures { result ≡ has_agent (state_of parts.now) event }
{
    // Most pods have no agents.
    if parts.agents.len() == 0 {
        return false;
    }
    match parts.agents.nth_of(event, 0) {
        Some(_) => true,
        None => false,
    }
}

/// How many threads there are.
pub fn thread_count(parts: &Parts) -> usize
    requires lawful { LawfulParts parts.now }
    requires alone { parts.now.dying ≡ None }
    ensures value { result ≡ length (state_of parts.now).threads }
    ensures known { result ≡ length parts.now.sched.threads }
{
    parts.sched.len()
}

/// How many live once one more does.
pub fn next_count(ids: &Registry<Kind>) -> usize
    requires { ids.now.births < ids.now.limit }
    ensures { result ≡ length ids.now.live + 1 }
{
    // PROVER: these calls show that each that lives was born, and that the limit is a number of 64 bits.
    let (_births, _limit) = (ids.births(), ids.limit());
    ids.len() + 1
}

// Whether the pod may end while it lives: an agent, or a thread that is a server.
fn serves(kind: &Kind) -> bool
    ensures { result ≡ serves kind.now }
{
    match kind {
        Kind::Thread(rec) => rec.flags.server,
        Kind::Agent => true,
    }
}

/// Whether all threads are servers.
pub fn all_serve(parts: &Parts) -> bool
    ensures { result ≡ list_all (λ row. row.flags.server) (state_of parts.now).threads }
{
    for i in 0..parts.ids.len() {
        let (_, kind) = nth_of(&parts.ids, i);
        if !serves(kind) {
            return false;
        }
    }
    true
}
