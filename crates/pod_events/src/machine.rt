// A machine of threads that knows no events of its own.
ghost use Rattle.std.specs.Prelude.{◌≡◌, ◌≤◌, ◌+◌, ◌++◌, [], ◌<◌, length, None, IfNone, IfOk, IfSome, OnOk, OnErr, IsErr, IsSome, IsTrue};
ghost use Rattle.std.specs.Slice.Scan.{HoldsNowhere, IsFirstPlace};
ghost use Rattle.lwp_types.specs.Agents.{deliver, is_event_armed};
ghost use Rattle.lwp_types.specs.Choice.{is_eligible_in};
ghost use Rattle.lwp_types.specs.Effects.{most_of_a_delivery, most_of_a_step};
ghost use Rattle.lwp_types.specs.Lawful.{Lawful};
ghost use Rattle.lwp_types.specs.State.{State, is_id};
ghost use Rattle.lwp_types.specs.Step.{step};
ghost use Rattle.pod_events.specs.Events.{has_agent};
ghost use Rattle.pod_events.specs.Machine.{asks_memory, call_effects, current_of, ending_of};
ghost use Rattle.pod_events.specs.Rites.{flags_of};
ghost use Rattle.pod_events.specs.Ticks.{after_ticks, next_due};
ghost use Rattle.pod_events.specs.Traps.{trap_of};
ghost use Rattle.snapshots.specs.Copies.{state_in};

use lwp_types::{Call, Effects, Flags, NoMemory, PodEnd, Text, Tid};
use snapshots::StateCopy;

/// The threads of a pod, seen as the machine's state, which is lawful at every moment.
pub trait Machine: Drop {
    ghost state: { Self → State };

    /// The thread whose turn it is.
    fn current(&self) -> Option<Tid>
        ensures value { result ≡ current_of (state self.now) }
        ensures may_run { IfSome result (λ t. IsTrue (is_eligible_in (state self.now) t)) }
        ensures lawful { Lawful (state self.now) None };

    /// Why it is nobody's turn, if so.
    fn ending(&self) -> Option<PodEnd>
        ensures { result ≡ ending_of (state self.now) };

    /// Whether a thread or an agent lives under the number.
    fn is_live(&self, tid: Tid) -> bool
        ensures { result ≡ is_id (state self.now) tid };

    /// Whether an event can be delivered to its agents.
    fn armed(&self, event: u8) -> bool
        ensures { result ≡ is_event_armed (state self.now) event };

    /// The first event from `from` on that can be delivered, if there is one below 32.
    fn next_armed(&self, from: u8) -> Option<u8>
        ensures none { IfNone result (HoldsNowhere (is_event_armed (state self.now)) from 32) }
        ensures below { IfSome result (λ event. event < 32) }
        ensures first { IfSome result (λ event. IsFirstPlace (is_event_armed (state self.now)) from 32 event) };

    /// How a live thread was created.
    fn flags(&self, tid: Tid) -> Option<Flags>
        ensures { result ≡ flags_of (state self.now) tid };

    /// Whether the event has a live agent.
    fn has_agent(&self, event: u8) -> bool
        ensures { result ≡ has_agent (state self.now) event };

    /// How many threads live.
    fn threads(&self) -> usize
        ensures value { result ≡ length (state self.now).threads }
        ensures most { result ≤ 1024 };
}

// PROVER: apart from `Machine`, which has no lifetime, so that what only looks at a machine names none.
/// A machine that takes calls and events, whose texts are lent for `'s`.
pub trait Driven<'s>: Machine {
    /// One call, that isn't Trap, of the thread whose turn it is. `effects` is emptied first, and then has what the
    /// step did, without the call itself.
    fn call(&mut self, call: &Call<'s>, effects: &mut Effects<'s>) -> Result<(), NoMemory>
        requires turn { IsSome (current_of (Self.state self.old)) }
        requires no_trap { trap_of call.now ≡ None }
        ensures after { OnOk result
            (Self.state self.new ≡ (step (Self.state self.old) call.now).after) }
        ensures effects { OnOk result
            (call_effects (current_of (Self.state self.old)) call.now ++ effects.new
            ≡ (step (Self.state self.old) call.now).effects) }
        ensures most { length effects.new ≤ most_of_a_step }
        ensures err { OnErr result (Self.state self.new ≡ Self.state self.old) }
        ensures err_effects { OnErr result (effects.new ≡ []) }
        ensures memory { IsErr result → IsTrue (asks_memory call.now) }
        ensures lawful { Lawful (Self.state self.new) None };

    /// An event's text becomes a letter of each of its agents; the clock ticks. `effects` is emptied first, and then has what that did.
    fn deliver(&mut self, event: u8, text: Text<'s>, effects: &mut Effects<'s>)
        requires { IsTrue (is_event_armed (Self.state self.old) event) }
        ensures after { Self.state self.new ≡ (deliver (Self.state self.old) event text.entry).after }
        ensures effects { effects.new ≡ (deliver (Self.state self.old) event text.entry).effects }
        ensures most { 1 ≤ event → length effects.new ≤ most_of_a_delivery }
        ensures lawful { Lawful (Self.state self.new) None };
}

/// A machine whose state can be had as a plain value.
pub trait Copied<'s>: Machine {
    /// The state. NoMemory where there is none for it.
    fn copy(&self) -> Result<StateCopy<'s>, NoMemory>
        ensures { IfOk result (λ copy. state_in copy ≡ Self.state self.now) };
}

/// A machine that tells when its next timer falls due, and whose clock can be moved up to there in one step.
pub trait Timed: Machine {
    /// How often the clock has ticked.
    fn now(&self) -> u64
        ensures { result ≡ (Self.state self.now).now };

    /// The tick at which the first timer falls due, or the greatest u64 where there is no timer.
    fn next_due(&self) -> u64
        ensures { result ≡ next_due (Self.state self.now) };

    /// The clock ticks so many times, none of which makes a timer due.
    fn pass(&mut self, ticks: u64)
        requires quiet { (Self.state self.old).now + ticks < next_due (Self.state self.old) }
        requires room { (Self.state self.old).now + ticks ≤ 4294967295 }
        ensures { Self.state self.new ≡ after_ticks ticks (Self.state self.old) };
}
