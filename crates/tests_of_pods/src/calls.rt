// Pods where memory is given. What each call comes to is said by the clauses; whole scripts stand in the corpus.
use lwp_calls::Pod;
use lwp_types::{
    Answer, Call, Cid, Effect, Effects, ExitCall, Flags, Func, Mid, Mode, Pattern, PodEnd,
    PodParams, Text, Tid,
};
use std::alloc::Global;

const PARAMS: PodParams = PodParams {
    maxpri: 2,
    births: 4,
    procs: 2,
};

// The fifteen calls that may ask for memory, each where nothing else refuses it.
const ASKING: [Call<'static>; 15] = [
    Call::MonCreate,
    Call::Monitors,
    Call::MonWaiters {
        mon: Mid { number: 0 },
    },
    Call::CvCreate {
        mon: Mid { number: 0 },
    },
    Call::Conds,
    Call::CvWaiters {
        cond: Cid { number: 0 },
    },
    Call::Create {
        proc: 1,
        prio: 1,
        flags: Flags {
            suspended: false,
            nolastrites: false,
            server: false,
        },
    },
    Call::Threads,
    Call::Senders,
    Call::Receivers,
    Call::CallProc { proc: 1 },
    Call::Handle {
        pattern: Pattern::All,
        func: Func::Sum,
        arg: 5,
    },
    Call::OnExit {
        call: ExitCall::SetExit { code: 7 },
    },
    Call::Agent { event: 5 },
    Call::Agents,
];

// How many other effects the call of the thread whose turn it is has; None if it is nobody's turn, or memory is
// refused.
fn makes<'s>(pod: &mut Pod<'s>, effects: &mut Effects<'s>, call: &Call<'s>) -> Option<usize> {
    if pod.current().is_none() || pod.call(call, effects).is_err() {
        return None;
    }
    Some(effects.len())
}

// How many effects the event has; none if it isn't armed.
fn delivers<'s>(pod: &mut Pod<'s>, effects: &mut Effects<'s>, event: u8) -> usize {
    if !pod.armed(event) {
        return 0;
    }
    pod.deliver(event, Text::empty(), effects);
    effects.len()
}

// Whether the last effect is an answer, and no refusal.
fn is_answered(effects: &Effects) -> bool {
    if effects.len() == 0 {
        return false;
    }
    match effects.get(effects.len() - 1) {
        Effect::Answered { answer, .. } => !matches!(answer, Answer::Refused(_)),
        _ => false,
    }
}

// Whether calls that ask for memory are given it. Then the first thread lives, another, and the first one's agent.
fn gives_memory<'s>(pod: &mut Pod<'s>, effects: &mut Effects<'s>) -> bool {
    for call in &ASKING {
        if makes(pod, effects, call) != Some(1) || !is_answered(effects) {
            return false;
        }
    }
    pod.is_live(Tid { number: 2 }) && !pod.is_live(Tid { number: 3 })
}

// The first thread waits for its agent, and the other dies: it is nobody's turn.
fn waits<'s>(pod: &mut Pod<'s>, effects: &mut Effects<'s>, agent: Tid) -> bool {
    let (from, mode) = (Some(agent), Mode::Block);
    makes(pod, effects, &Call::Recv { from, mode }) == Some(0)
        && makes(pod, effects, &Call::Return) == Some(1)
        && pod.ending() == Some(PodEnd::Idle)
}

// The event's letter is received; until the reply the agent takes no other.
fn takes_an_event<'s>(pod: &mut Pod<'s>, effects: &mut Effects<'s>, agent: Tid) -> bool {
    let (to, text) = (agent, Text::empty());
    delivers(pod, effects, 5) == 2
        && is_answered(effects)
        && delivers(pod, effects, 5) == 0
        && makes(pod, effects, &Call::Reply { to, text }) == Some(1)
        && pod.armed(5)
}

// The thread sleeps until the clock, which is event 0, has ticked twice.
fn sleeps<'s>(pod: &mut Pod<'s>, effects: &mut Effects<'s>) -> bool {
    makes(pod, effects, &Call::Sleep { ticks: 2 }) == Some(0)
        && delivers(pod, effects, 0) == 1
        && pod.ending() == Some(PodEnd::Idle)
        && delivers(pod, effects, 0) == 2
        && is_answered(effects)
        && pod.now() == 2
        && pod.ending().is_none()
}

fn ends<'s>(pod: &mut Pod<'s>, effects: &mut Effects<'s>) -> bool {
    makes(pod, effects, &Call::PodExit { code: 98 }) == Some(1)
        && pod.ending() == Some(PodEnd::Ended(98))
        && pod.current().is_none()
}

fn does_all<'s>(pod: &mut Pod<'s>, effects: &mut Effects<'s>) -> bool {
    let agent = Tid { number: 2 };
    gives_memory(pod, effects)
        && waits(pod, effects, agent)
        && takes_an_event(pod, effects, agent)
        && sleeps(pod, effects)
        && ends(pod, effects)
}

// A function that owns a pod is dear to prove, by each of its steps, so this one has no more than it needs.
fn is_done(alloc: Global) -> bool {
    let Ok(mut effects) = Effects::new(alloc) else {
        return false;
    };
    let Ok(mut pod) = Pod::new(alloc, PARAMS) else {
        return false;
    };
    does_all(&mut pod, &mut effects)
}

#[test]
fn a_pod_makes_its_calls_and_takes_an_event(rt: HostRuntime) {
    assert!(rt; is_done(rt.alloc()));
}

const CROWDED: PodParams = PodParams {
    maxpri: 1,
    births: 258,
    procs: 1,
};

// The agent of an event is made, for the thread whose turn it is.
fn makes_agent<'s>(pod: &mut Pod<'s>, effects: &mut Effects<'s>) -> bool {
    makes(pod, effects, &Call::Agent { event: 7 }) == Some(1) && is_answered(effects)
}

// As many agents as may live are made, all of one event. Each of them has a letter of one line, and the event waits then.
fn reaches_all<'s>(pod: &mut Pod<'s>, effects: &mut Effects<'s>) -> bool {
    for _ in 0..256 {
        if !makes_agent(pod, effects) {
            return false;
        }
    }
    !makes_agent(pod, effects) && delivers(pod, effects, 7) == 256 && !pod.armed(7)
}

fn is_crowded(alloc: Global) -> bool {
    let Ok(mut effects) = Effects::new(alloc) else {
        return false;
    };
    let Ok(mut pod) = Pod::new(alloc, CROWDED) else {
        return false;
    };
    reaches_all(&mut pod, &mut effects)
}

#[test]
fn a_line_reaches_as_many_agents_as_may_live(rt: HostRuntime) {
    assert!(rt; is_crowded(rt.alloc()));
}
