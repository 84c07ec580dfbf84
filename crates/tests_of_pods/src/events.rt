// Pods with events of their own, where memory is given: a trap whose handler gives a value, and the death that is reported.
use lwp_calls::Pod;
use lwp_types::{Answer, Call, Effect, Effects, Flags, Func, Mode, Pattern, PodParams, Text, Tid};
use pod_events::EventPod;
use std::alloc::Global;

const PARAMS: PodParams = PodParams {
    maxpri: 1,
    births: 4,
    procs: 2,
};

const AGENT: Tid = Tid { number: 1 };

const WORKER: Tid = Tid { number: 2 };

// How many effects the call of the thread whose turn it is has; none if it is nobody's turn, or memory is refused.
fn makes<'s>(pod: &mut EventPod<'s, Pod<'s>>, effects: &mut Effects<'s>, call: &Call<'s>) -> usize {
    if pod.current().is_none() || pod.call(call, effects).is_err() {
        return 0;
    }
    effects.len()
}

// The effect at this place, if there is one.
fn effect_at<'e, 's>(effects: &'e Effects<'s>, i: usize) -> Option<&'e Effect<'s>> {
    if i < effects.len() {
        Some(effects.get(i))
    } else {
        None
    }
}

// The event is taken, which is told by one effect, and its trap is to be raised.
fn takes_a_trap<'s>(pod: &mut EventPod<'s, Pod<'s>>, effects: &mut Effects<'s>, event: u8) -> bool {
    if pod.next_armed(1) != Some(event) || !pod.armed(event) {
        return false;
    }
    pod.deliver(event, Text::empty(), effects);
    effects.len() == 1 && pod.pending() == Some(event) && !pod.armed(event)
}

// A trap with a handler that gives a value: the trap is told, the call, and what the call comes to.
fn is_trapped<'s>(pod: &mut EventPod<'s, Pod<'s>>, effects: &mut Effects<'s>) -> bool {
    let handle = Call::Handle {
        pattern: Pattern::Num(5),
        func: Func::Give,
        arg: 7,
    };
    makes(pod, effects, &handle) == 1
        && makes(pod, effects, &Call::Trap { event: 5 }) == 1
        && takes_a_trap(pod, effects, 5)
        && makes(pod, effects, &Call::Me) == 3
        && matches!(
            effect_at(effects, 0),
            Some(Effect::Trapped { event: 5, .. })
        )
        && pod.pending().is_none()
}

// The first thread has an agent for reports, and lets another run, which dies: that is told, and reported to the agent.
fn reports_a_death<'s>(pod: &mut EventPod<'s, Pod<'s>>, effects: &mut Effects<'s>) -> bool {
    let create = Call::Create {
        proc: 1,
        prio: 1,
        flags: Flags {
            suspended: false,
            nolastrites: false,
            server: false,
        },
    };
    let yield_self = Call::Yield {
        to: Tid { number: 0 },
    };
    makes(pod, effects, &Call::Agent { event: 32 }) == 1
        && makes(pod, effects, &create) == 1
        && makes(pod, effects, &yield_self) == 1
        && makes(pod, effects, &Call::Return) == 2
        && matches!(effect_at(effects, 1), Some(Effect::Rites { .. }))
        && !pod.is_live(WORKER)
}

// What the owner of the agent receives.
fn is_told<'s>(pod: &mut EventPod<'s, Pod<'s>>, effects: &mut Effects<'s>) -> bool {
    let (from, mode) = (Some(AGENT), Mode::Poll);
    if makes(pod, effects, &Call::Recv { from, mode }) != 1 {
        return false;
    }
    match effect_at(effects, 0) {
        Some(Effect::Answered { answer, .. }) => match answer {
            Answer::Letter { text, .. } => text.equals(b"t2"),
            _ => false,
        },
        _ => false,
    }
}

fn does_all<'s>(pod: &mut EventPod<'s, Pod<'s>>, effects: &mut Effects<'s>) -> bool {
    is_trapped(pod, effects)
        && reports_a_death(pod, effects)
        && is_told(pod, effects)
        && pod.ending().is_none()
}

fn is_done(alloc: Global) -> bool {
    let Ok(mut effects) = Effects::new(alloc) else {
        return false;
    };
    let Ok(pod) = Pod::new(alloc, PARAMS) else {
        return false;
    };
    let Ok(mut pod) = EventPod::new(alloc, pod) else {
        return false;
    };
    does_all(&mut pod, &mut effects)
}

#[test]
fn a_pod_raises_a_trap_and_reports_a_death(rt: HostRuntime) {
    assert!(rt; is_done(rt.alloc()));
}
