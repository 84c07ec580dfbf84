// A pod, and its calls.
ghost use Rattle.std.specs.Prelude.{◌≡◌, ◌≤◌, ◌<◌, ◌^◌, ◌+◌, ◌++◌, ◌∷◌, [], length, IfOk, OnOk, OnErr, IsErr, IsSome, IfNone, IfSome, IsTrue, None, Some};
ghost use Rattle.std.specs.Slice.Scan.{HoldsNowhere, IsFirstPlace};
ghost use Rattle.death_cleanup.specs.Comes.{CameTo};
ghost use Rattle.exc_stack.specs.Stack.{one_frame};
ghost use Rattle.death_cleanup.specs.Ties.{InStep, LawfulParts};
ghost use Rattle.death_cleanup.specs.View.{state_of};
ghost use Rattle.lwp_types.specs.Agents.{deliver, is_event_armed};
ghost use Rattle.lwp_types.specs.Choice.{is_eligible_in};
ghost use Rattle.pod_sched.specs.Schedule.{choice, prio_in};
ghost use Rattle.lwp_types.specs.Effects.{effect_places, most_of_a_call, most_of_a_delivery, most_of_a_step};
ghost use Rattle.lwp_types.specs.First.{FindsBest};
ghost use Rattle.lwp_types.specs.Lawful.{Lawful};
ghost use Rattle.lwp_types.specs.State.{is_id, opening};
ghost use Rattle.lwp_types.specs.Step.{case_of, step, end_effects, ends};
ghost use Rattle.pod_events.specs.Events.{has_agent};
ghost use Rattle.pod_events.specs.Machine.{asks_memory, call_effects, current_of, ending_of};
ghost use Rattle.pod_events.specs.Rites.{flags_of};
ghost use Rattle.pod_events.specs.Ticks.{after_ticks, next_due};
ghost use Rattle.snapshots.specs.Copies.{state_in};
ghost use Rattle.lwp_calls.specs.Comes.{IsAsBefore, Told};
ghost use Rattle.lwp_calls.specs.Opening.{no_thread};
ghost use Rattle.lwp_calls.specs.Pod.{ForgetsTheDead, RunsExitsOnce, is_refusal};

use crate::asks::{all_serve, flags_of, has_agent, thread_count};
use crate::deliveries::deliver_to_agents;
use crate::time_calls::{CLOCK, may_tick, tick};
use crate::{
    agent_calls, condition_calls, exception_calls, message_calls, monitor_calls, pod_calls,
    thread_calls, turn_calls,
};
use agents::Agents;
use conditions::Conds;
use death_cleanup::{Kind, Named, Parts, ThreadRec, copy_of, is_id};
use exc_stack::ExcStack;
use lwp_types::{
    Block, Call, Effect, Effects, Family, Flags, NoMemory, PodEnd, PodParams, Text, Tid,
};
use monitors::Monitors;
use pod_sched::Sched;
use rendezvous::Mail;
use snapshots::StateCopy;
use stale_ids::Registry;
use std::alloc::Global;
use std::marker::Model;

// The first event that an agent can have.
const FIRST_EVENT: u8 = 1;

/// The threads of a pod, and all that they have.
pub struct Pod<'s> {
    parts: Parts<'s>,
    alloc: Global,
    // Who is next by the scheduler, which is asked once a step.
    next: Option<Tid>,
}

// PROVER: written by hand, so that a function that drops one calls this instead of repeating its proof.
impl<'s> Drop for Pod<'s> {
    fn drop(self) {
        let Pod {
            parts: _,
            alloc: _,
            next: _,
        } = self;
    }
}

impl<'s> Model for Pod<'s> {
    ghost use Rattle.death_cleanup.specs.Ties.{InStep};
    ghost use Rattle.death_cleanup.specs.View.{state_of};
    ghost use Rattle.lwp_types.specs.Lawful.{Lawful};
    ghost use Rattle.lwp_types.specs.State.{State};
    ghost use Rattle.pod_sched.specs.Schedule.{choice};
    ghost use Rattle.std.specs.Prelude.{None, ◌≡◌};

    ghost Value = { State };

    ghost view = { λ p. state_of p.parts };

    ghost invariant = { λ p. Lawful (state_of p.parts) None
        × InStep p.parts
        × (p.parts.dying ≡ None)
        × (p.next ≡ choice p.parts.sched) };
}

// What a thread has that begins.
fn beginner<'s>(alloc: Global, flags: Flags) -> Result<ThreadRec<'s>, NoMemory>
    ensures { IfOk result
        (λ rec. rec ≡ record { flags = flags; block = Block.Not; stack = one_frame }) }
{
    let stack = ExcStack::new(alloc)?;
    Ok(ThreadRec {
        flags,
        block: Block::Not,
        stack,
    })
}

// The parts of a pod with nobody in it.
fn no_thread<'s>(alloc: Global, params: PodParams) -> Result<Parts<'s>, NoMemory>
    requires least { 1 ≤ params.maxpri }
    requires most { params.maxpri ≤ 255 }
    ensures { IfOk result (λ parts. parts ≡ no_thread params) }
{
    let sched = Sched::new(alloc, params.maxpri)?;
    let named = Named::new(alloc)?;
    Ok(Parts {
        ids: Registry::new(alloc, params.births),
        sched,
        mail: Mail::new(alloc),
        mons: Monitors::new(alloc, params.births),
        conds: Conds::new(alloc, params.births),
        agents: Agents::new(alloc),
        exit: 0,
        ended: false,
        procs: params.procs,
        registration: 0,
        pattern: 1_073_741_824,
        dying: None,
        last_prio: 0,
        named,
    })
}

// The first thread begins, in a pod with nobody in it.
fn first_thread(parts: &mut Parts, alloc: Global, params: PodParams) -> Result<(), NoMemory>
    requires least { 1 ≤ params.maxpri }
    requires births { 1 ≤ params.births }
    requires empty { parts.old ≡ no_thread params }
    ensures state { OnOk result (state_of parts.new ≡ opening params) }
    ensures step { OnOk result (InStep parts.new) }
    ensures alone { OnOk result (parts.new.dying ≡ None) }
{
    let Ok(()) = parts.ids.reserve(1) else {
        return Err(NoMemory);
    };
    parts.sched.reserve(1)?;
    parts.mail.reserve(1)?;
    parts.mons.reserve(1)?;
    parts.conds.reserve(1)?;
    let flags = Flags {
        suspended: false,
        nolastrites: false,
        server: false,
    };
    let first = beginner(alloc, flags)?;
    parts.sched.admit(Tid { number: 0 }, params.maxpri, false);
    let _ = parts.ids.insert(Kind::Thread(first));
    Ok(())
}

// The parts of a pod as it is made.
fn first_parts<'s>(alloc: Global, params: PodParams) -> Result<Parts<'s>, NoMemory>
    requires least { 1 ≤ params.maxpri }
    requires most { params.maxpri ≤ 255 }
    requires births { 1 ≤ params.births }
    ensures state { IfOk result (λ parts. state_of parts ≡ opening params) }
    ensures step { IfOk result (λ parts. InStep parts) }
    ensures alone { IfOk result (λ parts. parts.dying ≡ None) }
{
    let mut parts = no_thread(alloc, params)?;
    first_thread(&mut parts, alloc, params)?;
    Ok(parts)
}

impl<'s> Pod<'s> {
    /// The first thread alone, with the greatest priority and no flags.
    pub fn new(alloc: Global, params: PodParams) -> Result<Pod<'s>, NoMemory>
        requires least { 1 ≤ params.maxpri }
        requires most { params.maxpri ≤ 255 }
        requires births { 1 ≤ params.births }
        requires few_births { params.births < 2 ^ 32 }
        requires procs { 1 ≤ params.procs }
        ensures { IfOk result (λ pod. pod ≡ opening params) }
    {
        let parts = first_parts(alloc, params)?;
        let next = parts.sched.current();
        Ok(Pod { parts, alloc, next })
    }

    /// The thread whose turn it is. It stays in its place while it makes its call.
    pub fn current(&self) -> Option<Tid>
        ensures value { result ≡ current_of self.now }
        ensures may_run { IfSome result (λ t. IsTrue (is_eligible_in self.now t)) }
        ensures lawful { Lawful self.now None }
    {
        if self.parts.ended {
            return None;
        }
        self.next
    }

    /// Why it is nobody's turn, if so.
    pub fn ending(&self) -> Option<PodEnd>
        ensures { result ≡ ending_of self.now }
    {
        if self.parts.ended {
            return Some(PodEnd::Ended(self.parts.exit as u8));
        }
        match self.next {
            None => Some(PodEnd::Idle),
            Some(_) => None,
        }
    }

    /// Whether a thread or an agent lives under the number.
    pub fn is_live(&self, tid: Tid) -> bool
        ensures { result ≡ is_id self.now tid }
    {
        is_id(&self.parts, tid)
    }

    /// How often the clock has ticked.
    pub fn now(&self) -> u64
        ensures { result ≡ self.entry.now.now }
    {
        self.parts.sched.now()
    }

    /// The tick at which the first timer falls due, or the greatest u64 where there is no timer. One look.
    pub fn next_due(&self) -> u64
        ensures { result ≡ next_due self.now }
    {
        self.parts.sched.next_due()
    }

    /// The clock ticks so many times, none of which makes a timer due: what so many deliveries to it come to, in one step.
    pub fn pass(&mut self, ticks: u64)
        requires quiet { self.old.now + ticks < next_due self.old }
        requires room { self.old.now + ticks ≤ 4294967295 }
        ensures { self.new ≡ after_ticks ticks self.old }
    {
        self.parts.sched.pass(ticks);
    }

    /// Whether an event can be delivered: the clock can tick, or the event has an agent and none of its agents holds a message; and
    /// the pod goes on.
    pub fn armed(&self, event: u8) -> bool
        ensures { result ≡ is_event_armed self.now event }
    {
        if self.parts.ended {
            return false;
        }
        if event == CLOCK {
            return may_tick(&self.parts);
        }
        self.parts.agents.armed(event)
    }

    /// How a live thread was created.
    pub fn flags(&self, tid: Tid) -> Option<Flags>
        ensures { result ≡ flags_of self.now tid }
    {
        flags_of(&self.parts, tid)
    }

    /// Whether the event has a live agent.
    pub fn has_agent(&self, event: u8) -> bool
        ensures { result ≡ has_agent self.now event }
    {
        has_agent(&self.parts, event)
    }

    /// How many threads live.
    pub fn threads(&self) -> usize
        ensures value { result ≡ length self.now.threads }
        ensures most { result ≤ 1024 }
    {
        thread_count(&self.parts)
    }

    /// The state as a plain value. NoMemory where there is none for it.
    pub fn copy(&self) -> Result<StateCopy<'s>, NoMemory>
        ensures { IfOk result (λ copy. state_in copy ≡ self.now) }
    {
        copy_of(&self.parts)
    }

    /// An equal pod, in memory of its own.
    pub fn again(&self) -> Result<Pod<'s>, NoMemory>
        ensures { IfOk result (λ copy. copy ≡ self.now) }
    {
        Ok(Pod {
            parts: self.parts.again()?,
            alloc: self.alloc,
            next: self.next,
        })
    }

    /// The first event from `from` on that can be delivered, if there is one below 32.
    pub fn next_armed(&self, from: u8) -> Option<u8>
        ensures none { IfNone result (HoldsNowhere (is_event_armed self.now) from 32) }
        ensures below { IfSome result (λ event. event < 32) }
        ensures first { IfSome result
            (λ event. IsFirstPlace (is_event_armed self.now) from 32 event) }
    {
        if self.parts.ended {
            return None;
        }
        if from > CLOCK {
            return self.parts.agents.next_armed(from);
        }
        if may_tick(&self.parts) {
            return Some(CLOCK);
        }
        self.parts.agents.next_armed(FIRST_EVENT)
    }

    /// One call of the thread whose turn it is. `effects` is emptied first, and then has what the step did, without the
    /// call itself, in order.
    pub fn call(&mut self, call: &Call<'s>, effects: &mut Effects<'s>) -> Result<(), NoMemory>
        requires { IsSome (current_of self.old) }
        ensures after { OnOk result (self.new ≡ (step self.old call.now).after) }
        ensures effects { OnOk result
            (call_effects (current_of self.old) call.now ++ effects.new
            ≡ (step self.old call.now).effects) }
        ensures err { OnErr result (self.new ≡ self.old) }
        ensures err_effects { OnErr result (effects.new ≡ []) }
        ensures most { length effects.new ≤ most_of_a_step }
        ensures memory { IsErr result → IsTrue (asks_memory call.now) }
        ensures lawful { Lawful self.new None }
        ensures refused { OnOk result (IsTrue (is_refusal self.old call.now) → self.new ≡ self.old) }
        ensures dead { OnOk result (ForgetsTheDead self.new effects.new) }
        ensures exits { OnOk result (RunsExitsOnce self.old call.now self.new effects.new) }
    {
        effects.clear();
        let tid = self.current().unwrap();
        match carry_out(&mut self.parts, self.alloc, tid, call, effects) {
            Ok(()) => {
                self.next = finish(&mut self.parts, effects);
                Ok(())
            }
            Err(no_memory) => {
                effects.clear();
                Err(no_memory)
            }
        }
    }

    /// An event's text becomes a letter of each of its agents to the agent's owner; the clock ticks, and tells nobody the text.
    /// `effects` is emptied first, and then has what that did, in order.
    pub fn deliver(&mut self, event: u8, text: Text<'s>, effects: &mut Effects<'s>)
        requires { IsTrue (is_event_armed self.old event) }
        ensures after { self.new ≡ (deliver self.old event text.entry).after }
        ensures effects { effects.new ≡ (deliver self.old event text.entry).effects }
        ensures few { 1 ≤ event → length effects.new ≤ most_of_a_delivery }
        ensures lawful { Lawful self.new None }
    {
        effects.clear();
        deliver(&mut self.parts, event, text, effects);
        self.next = self.parts.sched.current();
    }
}

// An event's text becomes a letter of each of its agents, or the clock ticks, in the parts.
fn deliver<'s>(parts: &mut Parts<'s>, event: u8, text: Text<'s>, effects: &mut Effects<'s>)
    requires lawful { LawfulParts parts.old }
    requires alone { parts.old.dying ≡ None }
    requires armed { IsTrue (is_event_armed (state_of parts.old) event) }
    requires room { effects.old ≡ [] }
    ensures { CameTo parts.old parts.new effects.old effects.new
        (deliver (state_of parts.old) event text.entry) }
{
    if event == CLOCK {
        tick(parts, effects);
    } else {
        deliver_to_agents(parts, event, &text, effects);
    }
}

// What the call comes to, before the end of the pod is tested. The caller's answer, if it has one now, is told last. It is compiled
// into the call, and each family into it: to enter and to leave two functions more cost up to 47 instructions of a turn.
#[inline(always)]
fn carry_out<'s>(
    parts: &mut Parts<'s>,
    alloc: Global,
    tid: Tid,
    call: &Call<'s>,
    effects: &mut Effects<'s>,
) -> Result<(), NoMemory>
    requires lawful { LawfulParts parts.old }
    requires alone { parts.old.dying ≡ None }
    requires may_run { IsTrue (is_eligible_in (state_of parts.old) tid) }
    requires room { effects.old ≡ [] }
    ensures ok { OnOk result
        (Told parts.old parts.new effects.old effects.new tid
        (case_of (state_of parts.old) tid call.now)) }
    ensures most { length effects.new ≤ most_of_a_call }
    ensures err { OnErr result (IsAsBefore parts.old parts.new) }
    ensures memory { IsErr result → IsTrue (asks_memory call.now) }
{
    match call.family() {
        Family::Threads(thread) => thread_calls::carry_out(parts, alloc, tid, thread, effects),
        Family::Turns(turn) => {
            turn_calls::carry_out(parts, tid, turn, effects);
            Ok(())
        }
        Family::Pod(pod) => {
            pod_calls::carry_out(parts, tid, &pod, effects);
            Ok(())
        }
        Family::Messages(message) => message_calls::carry_out(parts, alloc, tid, &message, effects),
        Family::Monitors(monitor) => monitor_calls::carry_out(parts, tid, monitor, effects),
        Family::Conditions(condition) => condition_calls::carry_out(parts, tid, condition, effects),
        Family::Exceptions(exception) => exception_calls::carry_out(
            parts, tid, &exception, effects,
        ),
        Family::Agents(agent) => agent_calls::carry_out(parts, tid, agent, effects),
    }
}

// Whether the pod has ended, or ends now: nobody is left to run, and all who live serve.
fn has_ended(parts: &Parts, next: &Option<Tid>) -> bool
    requires { FindsBest (prio_in parts.now.sched.threads) parts.now.sched.order next.now }
    ensures { result ≡ ends (state_of parts.now) }
{
    parts.ended || (next.is_none() && all_serve(parts))
}

// The pod ends, if nobody is left to run and nobody is worth waiting for. The answer is who is next by the scheduler.
fn finish<'s>(parts: &mut Parts<'s>, effects: &mut Effects<'s>) -> Option<Tid>
    requires step { InStep parts.old }
    requires alone { parts.old.dying ≡ None }
    requires room { length effects.old < effect_places }
    requires status { parts.old.exit ≤ 99 }
    ensures after { state_of parts.new
        ≡ record (state_of parts.old) { ended = ends (state_of parts.old) } }
    ensures effects { effects.new ≡ effects.old ++ end_effects (state_of parts.old) }
    ensures most { length effects.new ≤ length effects.old + 1 }
    ensures step { InStep parts.new }
    ensures still_alone { parts.new.dying ≡ None }
    ensures next { result ≡ choice parts.new.sched }
{
    let next = parts.sched.current();
    parts.ended = has_ended(parts, &next);
    if parts.ended {
        tell_end(parts.exit as u8, effects);
    }
    next
}

// The pod ends.
fn tell_end(status: u8, effects: &mut Effects)
    requires { length effects.old < effect_places }
    ensures { effects.new ≡ effects.old ++ Effect.Ended status ∷ [] }
{
    effects.push(Effect::Ended { status });
}
