// What a run moves: the pod with its own events, each live thread's body, and the names.
ghost use Rattle.std.specs.Prelude.{false, ◌≡◌, ◌++◌, ◌<◌, ◌≤◌, ◌^◌, IfNone, IfOk, IfSome, OnOk, IsSome, IsTrue, None, Some, [], slice_get, length, ℕ};
ghost use Rattle.std.specs.Slice.Scan.{HoldsNowhere, IsFirstPlace};
ghost use Rattle.lwp_types.specs.State.{opening};
ghost use Rattle.pod_events.specs.Events.{is_takeable, quiet_events};
ghost use Rattle.pod_events.specs.Machine.{current_of};
ghost use Rattle.pod_events.specs.Step.{event_step, leads};
ghost use Rattle.pod_events.specs.Ticks.{next_due};
ghost use Rattle.pod_events.specs.Traps.{lead};
ghost use Rattle.trace_text.specs.Lines.{step_lines};
ghost use Rattle.pod_runner.specs.Calls.{caller_of, call_of_effects};
ghost use Rattle.pod_runner.specs.Phase.{phase_of};
ghost use Rattle.pod_runner.specs.Polls.{place_of};
ghost use Rattle.pod_runner.specs.Session.{move, rows_of_new, take_move};

use crate::calls::made_among;
use crate::row_list::RowList;
use crate::rows::{proc_of, settle};
use crate::{Made, Phase, Took};
use lists::TextList;
use lwp_calls::Pod;
use lwp_types::{
    Again, Body, Call, Effects, Env, NoMemory, PodEnd, PodParams, Polled, Program, Text, Tid,
};
use pod_events::{Driven, EventPod};
use std::alloc::Global;
use trace_text::StepLines;

// A call before which a trap is raised, and `out` has the lines of what that did: the effects tell the call themselves, if it was
// made. It stands apart from the way of most calls.
#[inline(never)]
fn call_after_trap<'s, M: Driven<'s>>(
    pod: &mut EventPod<'s, M>,
    call: &Call<'s>,
    effects: &mut Effects<'s>,
    names: &TextList,
    out: &mut StepLines,
) -> Result<(), NoMemory>
    requires { IsSome (current_of pod.old.state) }
    ensures after { OnOk result (pod.new ≡ (event_step pod.old call.now).after) }
    ensures effects { OnOk result
        (leads pod.old call.now ++ effects.new ≡ (event_step pod.old call.now).effects) }
    ensures lines { OnOk result (out.new ≡ step_lines names.now None effects.new) }
{
    pod.call(call, effects)?;
    out.set_step(effects, None, names)
}

// A call, and `out` has the lines of what that did. Answers whose call stands before the effects.
#[inline(always)]
fn carry_out<'s, M: Driven<'s>>(
    tid: Tid,
    pod: &mut EventPod<'s, M>,
    call: &Call<'s>,
    effects: &mut Effects<'s>,
    names: &TextList,
    out: &mut StepLines,
) -> Result<Option<Tid>, NoMemory>
    requires { IsSome (current_of pod.old.state) }
    ensures after { OnOk result (pod.new ≡ (event_step pod.old call.now).after) }
    ensures effects { OnOk result
        (leads pod.old call.now ++ effects.new ≡ (event_step pod.old call.now).effects) }
    ensures lines { OnOk result
        (out.new
        ≡ step_lines names.now None (lead pod.old.pending tid call.now ++ effects.new)) }
    ensures caller { IfOk result (λ caller. caller ≡ caller_of pod.old.pending tid) }
{
    match pod.pending() {
        None => {
            pod.call(call, effects)?;
            out.set_call(tid, call, effects, names)?;
            Ok(Some(tid))
        }
        Some(_) => {
            call_after_trap(pod, call, effects, names, out)?;
            Ok(None)
        }
    }
}

/// A pod with its threads' bodies.
pub(crate) struct RunParts<'s, B> {
    pub(crate) pod: EventPod<'s, Pod<'s>>,
    pub(crate) rows: RowList<'s, B>,
    pub(crate) env: Env,
    pub(crate) effects: Effects<'s>,
    // Who made the call of the last step, where the effects of that step begin with it. They don't have it then: the rows have it.
    pub(crate) caller: Option<Tid>,
}

// PROVER: written by hand, so that a function that drops one calls this instead of repeating its proof.
impl<'s, B: Drop> Drop for RunParts<'s, B> {
    fn drop(self) {
        let RunParts {
            pod: _,
            rows: _,
            env: _,
            effects: _,
            caller: _,
        } = self;
    }
}

impl<'s, B: Polled<'s>> RunParts<'s, B> {
    ghost use Rattle.pod_runner.specs.RunParts.{live_of, last_step_effects, Moves};

    /// The first thread, before its first call.
    pub(crate) fn new<P: Program<B>>(
        alloc: Global,
        params: PodParams,
        program: &P,
        env: Env,
    ) -> Result<RunParts<'s, B>, NoMemory>
        requires least { 1 ≤ params.maxpri }
        requires most { params.maxpri ≤ 255 }
        requires births { 1 ≤ params.births }
        requires few_births { params.births < 2 ^ 32 }
        requires procs { 1 ≤ params.procs }
        ensures live { IfOk result
            (λ parts.
            live_of parts
            ≡ record {
              pod = quiet_events (opening params);
              rows = rows_of_new 0 0
                  (slice_get (P.bodies program.now) 0);
              names = env;
            }) }
        ensures effects { IfOk result (λ parts. last_step_effects parts ≡ []) }
    {
        let mut rows = RowList::new(alloc);
        rows.open(program, 0, Tid { number: 0 })?;
        let effects = Effects::new(alloc)?;
        let pod = EventPod::new(alloc, Pod::new(alloc, params)?)?;
        Ok(RunParts {
            pod,
            rows,
            env,
            effects,
            caller: None,
        })
    }

    /// Where a run of so many calls, out of so many, stands.
    pub(crate) fn phase(&self, turns: u64, calls: u64) -> Phase
        ensures { result ≡ phase_of self.now.pod.state turns calls }
    {
        match self.pod.ending() {
            Some(PodEnd::Ended(status)) => Phase::Ended(status),
            Some(PodEnd::Idle) => Phase::Idle,
            None => {
                if calls < turns {
                    Phase::Turn
                } else {
                    Phase::Spent
                }
            }
        }
    }

    /// The call of the last step, if it has one.
    pub(crate) fn made(&self) -> Option<Made<'s>>
        ensures { result ≡ call_of_effects (last_step_effects self.now) }
    {
        made_among(self.caller, self.rows.call(), &self.effects)
    }

    /// Whether a line of the event can be taken.
    pub(crate) fn wants(&self, event: u8) -> bool
        ensures { result ≡ is_takeable self.now.pod event }
    {
        self.pod.armed(event)
    }

    /// The first event from `from` on of which a line can be taken, if there is one below 32.
    pub(crate) fn next_wanted(&self, from: u8) -> Option<u8>
        ensures none { IfNone result (HoldsNowhere (is_takeable self.now.pod) from 32) }
        ensures below { IfSome result (λ event. event < 32) }
        ensures first { IfSome result
            (λ event. IsFirstPlace (is_takeable self.now.pod) from 32 event) }
    {
        self.pod.next_armed(from)
    }

    /// Takes a line. `out` then has the lines of what that did, and nothing else.
    pub(crate) fn deliver<P: Program<B>>(
        &mut self,
        program: &P,
        names: &TextList,
        took: &Took<'s>,
        out: &mut StepLines,
    ) -> Result<(), NoMemory>
        requires { IsTrue (is_takeable self.old.pod took.now.event) }
        ensures { OnOk result
            (Moves names.now (Some took.now.line)
            (take_move (P.bodies program.now) took.now (live_of self.old)) (live_of self.new)
            (last_step_effects self.new) out.new) }
    {
        self.caller = None;
        self.pod
            .deliver(took.event, took.line.text.again(), &mut self.effects);
        out.set_step(&self.effects, Some(&took.line), names)?;
        settle(&mut self.rows, program, None, &self.effects)
    }

    /// Polls the body of the thread whose turn it is, and makes its call. `out` then has the lines of what that did, and nothing
    /// else.
    #[inline(always)]
    pub(crate) fn turn<P: Program<B>>(
        &mut self,
        program: &P,
        names: &TextList,
        out: &mut StepLines,
    ) -> Result<(), NoMemory>
        requires current { IsSome (current_of self.old.pod.state) }
        ensures { OnOk result
            (Moves names.now None (move B.next (P.bodies program.now) (live_of self.old))
            (live_of self.new) (last_step_effects self.new) out.new) }
    {
        let tid = self.pod.current().unwrap();
        let i = self.rows.place(tid);
        if i < self.rows.len() {
            self.make_call(program, names, tid, i, out)
        } else {
            self.caller = None;
            self.effects.clear();
            out.clear();
            Ok(())
        }
    }

    #[inline(always)]
    fn make_call<P: Program<B>>(
        &mut self,
        program: &P,
        names: &TextList,
        tid: Tid,
        i: usize,
        out: &mut StepLines,
    ) -> Result<(), NoMemory>
        requires current { current_of self.old.pod.state ≡ Some tid }
        requires place { i ≡ place_of tid self.old.rows.rows }
        requires within { i < length self.old.rows.rows }
        ensures { OnOk result
            (Moves names.now None (move B.next (P.bodies program.now) (live_of self.old))
            (live_of self.new) (last_step_effects self.new) out.new) }
    {
        self.env.set_me(tid);
        self.rows.poll_at(i, &mut self.env)?;
        let call = self.rows.call_at(i);
        let caller = carry_out(tid, &mut self.pod, call, &mut self.effects, names, out)?;
        self.caller = caller;
        let born = proc_of(call);
        settle(&mut self.rows, program, born, &self.effects)
    }
}

// The clock stops after so many ticks.
const LAST_TICK: u64 = 4_294_967_295;

impl<'s, B: Polled<'s>> RunParts<'s, B> {
    ghost use Rattle.pod_runner.specs.RunParts.{live_of};
    ghost use Rattle.pod_runner.specs.Virtual.{caught_up, is_tick_due, jumped, ticked};

    /// Polls the body of the thread whose turn it is, and makes its call. Of that no lines are made.
    #[inline(always)]
    pub(crate) fn turn_untold<P: Program<B>>(&mut self, program: &P) -> Result<(), NoMemory>
        requires current { IsSome (current_of self.old.pod.state) }
        ensures { OnOk result
            (live_of self.new ≡ (move B.next (P.bodies program.now) (live_of self.old)).live) }
    {
        let tid = self.pod.current().unwrap();
        let i = self.rows.place(tid);
        if i < self.rows.len() {
            self.make_call_untold(program, tid, i)
        } else {
            Ok(())
        }
    }

    #[inline(always)]
    fn make_call_untold<P: Program<B>>(
        &mut self,
        program: &P,
        tid: Tid,
        i: usize,
    ) -> Result<(), NoMemory>
        requires current { current_of self.old.pod.state ≡ Some tid }
        requires place { i ≡ place_of tid self.old.rows.rows }
        requires within { i < length self.old.rows.rows }
        ensures { OnOk result
            (live_of self.new ≡ (move B.next (P.bodies program.now) (live_of self.old)).live) }
    {
        self.env.set_me(tid);
        self.rows.poll_at(i, &mut self.env)?;
        let call = self.rows.call_at(i);
        self.pod.call(call, &mut self.effects)?;
        let born = proc_of(call);
        settle(&mut self.rows, program, born, &self.effects)
    }

    /// Whether nobody may run, the clock can tick, and a timer falls due before the clock stops.
    #[inline(always)]
    pub(crate) fn is_tick_due(&self) -> bool
        ensures { result ≡ is_tick_due (live_of self.now) }
    {
        match self.pod.current() {
            Some(_) => false,
            None => self.pod.armed(0) && self.pod.next_due() <= LAST_TICK,
        }
    }

    // The clock ticks once, and whose timers are due go on.
    fn tick<P: Program<B>>(&mut self, program: &P) -> Result<(), NoMemory>
        requires { IsTrue (is_takeable self.old.pod 0) }
        ensures { OnOk result
            ((calls : ℕ) → live_of self.new ≡ ticked (P.bodies program.now) calls (live_of self.old)) }
    {
        self.pod.deliver(0, Text::empty(), &mut self.effects);
        settle(&mut self.rows, program, None, &self.effects)
    }

    // The clock ticks up to right before the first timer falls due.
    #[inline(always)]
    fn jump(&mut self)
        requires { IsTrue (is_tick_due (live_of self.old)) }
        ensures live { live_of self.new ≡ jumped (live_of self.old) }
        ensures early { self.old.pod.state.now < next_due self.old.pod.state }
    {
        // PROVER: this call shows that the pod's state is lawful, so that each timer is still to fall due.
        let _turn = self.pod.current();
        let ticks = self.pod.next_due() - self.pod.now() - 1;
        self.pod.pass(ticks);
    }

    /// The clock ticks as long as nobody may run and a timer is pending.
    #[inline(always)]
    pub(crate) fn catch_up<P: Program<B>>(&mut self, program: &P) -> Result<(), NoMemory>
        ensures live { OnOk result
            ((calls : ℕ) →
            live_of self.new ≡ caught_up (P.bodies program.now) calls (live_of self.old)) }
        ensures still { OnOk result (is_tick_due (live_of self.new) ≡ false) }
    {
        while self.is_tick_due() {
            self.jump();
            self.tick(program)?;
        }
        Ok(())
    }
}

impl<'s, B: Body + Again> RunParts<'s, B> {
    ghost use Rattle.pod_runner.specs.RunParts.{live_of, last_step_effects};

    /// Parts that stand alike, in memory of their own.
    pub(crate) fn again(&self) -> Result<RunParts<'s, B>, NoMemory>
        ensures live { IfOk result (λ copy. live_of copy ≡ live_of self.now) }
        ensures effects { IfOk result (λ copy. last_step_effects copy ≡ last_step_effects self.now) }
    {
        Ok(RunParts {
            pod: self.pod.again()?,
            rows: self.rows.again()?,
            env: self.env.again()?,
            effects: self.effects.again()?,
            caller: self.caller,
        })
    }
}
