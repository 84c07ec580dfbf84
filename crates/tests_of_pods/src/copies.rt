// A pod with an entry in each of its lists, and the copy of it. What the copy has to have is worked out by hand from the calls.
use lwp_calls::Pod;
use lwp_types::{
    AgentRow, Block, Call, Cid, CondRow, Effects, ExitCall, Flags, Func, IdList, Letter, Lock,
    Mark, Mid, Mode, Pattern, PodParams, Request, Text, Tid, TimerRow, WaitRow,
};
use pod_events::EventPod;
use snapshots::{PodCopy, StateCopy, ThreadCopy};
use std::alloc::Global;

const PARAMS: PodParams = PodParams {
    maxpri: 2,
    births: 20,
    procs: 2,
};

const MON: Mid = Mid { number: 0 };

const COND: Cid = Cid { number: 0 };

const FIRST: Tid = Tid { number: 0 };

const SENDER: Tid = Tid { number: 4 };

// The first thread's own calls, until it lets the others run. Threads 1 and 2 are agents.
const OPENING: [Call<'static>; 9] = [
    Call::MonCreate,
    Call::CvCreate { mon: MON },
    Call::Handle {
        pattern: Pattern::All,
        func: Func::Sum,
        arg: 5,
    },
    Call::OnExit {
        call: ExitCall::SetExit { code: 7 },
    },
    Call::UniqPatt,
    Call::Agent { event: 5 },
    Call::Agent { event: 32 },
    Call::Trap { event: 7 },
    Call::SetExit { code: 3 },
];

// The threads from 3 to 10: the priority of each, and whether it begins suspended.
const BORN: [(u32, bool); 8] = [
    (2, false),
    (2, false),
    (2, false),
    (2, false),
    (2, true),
    (2, true),
    (1, true),
    (1, false),
];

// Thread 3 waits on the condition, and thread 4 enters the monitor twice.
const HELD: [Call<'static>; 5] = [
    Call::Yield { to: FIRST },
    Call::Enter { mon: MON },
    Call::Wait { cond: COND },
    Call::Enter { mon: MON },
    Call::Enter { mon: MON },
];

// Threads 5 and 6 wait as well. The first receives the letter, and lets two others die, of which only the one is reported at once.
const LATER: [Call<'static>; 5] = [
    Call::Enter { mon: MON },
    Call::Sleep { ticks: 3 },
    Call::Recv {
        from: Some(SENDER),
        mode: Mode::Poll,
    },
    Call::Destroy {
        tid: Tid { number: 7 },
    },
    Call::Destroy {
        tid: Tid { number: 8 },
    },
];

fn makes<'s>(pod: &mut EventPod<'s, Pod<'s>>, effects: &mut Effects<'s>, call: &Call<'s>) -> bool {
    pod.current().is_some() && pod.call(call, effects).is_ok()
}

fn makes_all<'s>(
    pod: &mut EventPod<'s, Pod<'s>>,
    effects: &mut Effects<'s>,
    calls: &[Call<'s>],
) -> bool {
    for call in calls {
        if !makes(pod, effects, call) {
            return false;
        }
    }
    true
}

fn bears_all<'s>(pod: &mut EventPod<'s, Pod<'s>>, effects: &mut Effects<'s>) -> bool {
    for (prio, suspended) in &BORN {
        let flags = Flags {
            suspended: *suspended,
            nolastrites: false,
            server: false,
        };
        let create = Call::Create {
            proc: 1,
            prio: *prio,
            flags,
        };
        if !makes(pod, effects, &create) {
            return false;
        }
    }
    true
}

// Thread 4 waits for a reply.
fn sends<'s>(pod: &mut EventPod<'s, Pod<'s>>, effects: &mut Effects<'s>) -> bool {
    let (to, room, text) = (FIRST, 8, Text::empty());
    makes(pod, effects, &Call::Send { to, room, text })
}

// The clock ticks, an agent has a letter, and a trap is to be raised.
fn takes_all<'s>(pod: &mut EventPod<'s, Pod<'s>>, effects: &mut Effects<'s>) -> bool {
    for event in [0, 5, 7] {
        if !pod.armed(event) {
            return false;
        }
        pod.deliver(event, Text::empty(), effects);
    }
    true
}

fn has_ids(list: &IdList, wanted: &[u64]) -> bool {
    if list.len() != wanted.len() {
        return false;
    }
    for i in 0..wanted.len() {
        if list.get(i) != wanted[i] {
            return false;
        }
    }
    true
}

// The number and the priority of a thread, whether it is suspended, and how many marks it has.
fn is_thread(copy: &ThreadCopy, number: u64, priority: u32, suspended: bool, marks: usize) -> bool {
    copy.number.number == number
        && copy.priority == priority
        && copy.suspended == suspended
        && copy.flags.suspended == suspended
        && copy.marks.len() == marks
}

fn has_threads(threads: &[ThreadCopy]) -> bool {
    match threads {
        [t0, t3, t4, t5, t6, t9, t10] => {
            is_thread(t0, 0, 2, false, 3)
                && is_thread(t3, 3, 2, false, 1)
                && is_thread(t4, 4, 2, false, 1)
                && is_thread(t5, 5, 2, false, 1)
                && is_thread(t6, 6, 2, false, 1)
                && is_thread(t9, 9, 1, true, 1)
                && is_thread(t10, 10, 1, false, 1)
        }
        _ => false,
    }
}

fn has_blocks(threads: &[ThreadCopy]) -> bool {
    match threads {
        [t0, t3, t4, t5, t6, _, t10] => {
            matches!(t0.block, Block::Not)
                && matches!(t3.block, Block::Waiting(cond) if cond == COND)
                && matches!(t4.block, Block::Sending)
                && matches!(t5.block, Block::Entering(mon) if mon == MON)
                && matches!(t6.block, Block::Sleeping)
                && matches!(t10.block, Block::Not)
        }
        _ => false,
    }
}

fn has_marks(threads: &[ThreadCopy]) -> bool {
    match threads {
        [first, ..] => matches!(
            first.marks.as_slice(),
            [
                Mark::Frame,
                Mark::Handler { arg: 5, .. },
                Mark::Exit {
                    reg: 0,
                    call: ExitCall::SetExit { code: 7 }
                }
            ]
        ),
        _ => false,
    }
}

fn has_timers(timers: &[TimerRow]) -> bool {
    matches!(timers, [row] if row.tid.number == 6 && row.due == 3)
}

fn is_letter(letter: &Letter, from: u64, text: &[u8], room: u8, received: bool) -> bool {
    letter.from.number == from
        && letter.to == FIRST
        && letter.text.equals(text)
        && letter.room == room
        && letter.received == received
}

fn has_letters(letters: &[Letter]) -> bool {
    match letters {
        [sent, report, event] => {
            is_letter(sent, 4, b"", 8, true)
                && is_letter(report, 2, b"t7", 240, false)
                && is_letter(event, 1, b"", 240, false)
        }
        _ => false,
    }
}

fn has_monitors(locks: &[Lock], requests: &[Request]) -> bool {
    matches!(locks, [lock] if lock.mon == MON && lock.owner == SENDER && lock.depth == 2)
        && matches!(requests, [row] if row.mon == MON && row.tid.number == 5 && row.depth == 1)
}

fn has_conditions(conditions: &[CondRow], waits: &[WaitRow]) -> bool {
    matches!(conditions, [row] if row.number == COND && row.mon == MON)
        && matches!(waits, [row] if row.cond == COND && row.tid.number == 3 && row.depth == 1)
}

fn is_agent(row: &AgentRow, number: u64, event: u8) -> bool {
    row.number.number == number && row.event == event && row.owner == FIRST && row.holding
}

fn has_agents(agents: &[AgentRow]) -> bool {
    matches!(agents, [one, other] if is_agent(one, 1, 5) && is_agent(other, 2, 32))
}

fn has_lists(state: &StateCopy) -> bool {
    let threads = state.threads.as_slice();
    has_threads(threads)
        && has_blocks(threads)
        && has_marks(threads)
        && has_ids(&state.order, &[10, 0])
        && has_timers(state.timers.as_slice())
        && has_letters(state.letters.as_slice())
        && has_ids(&state.monitors, &[0])
        && has_monitors(state.locks.as_slice(), state.requests.as_slice())
        && has_conditions(state.conditions.as_slice(), state.waits.as_slice())
        && has_agents(state.agents.as_slice())
}

fn has_numbers(state: &StateCopy) -> bool {
    (state.now, state.maxpri, state.status, state.ended) == (1, 2, 3, false)
        && (state.births, state.monitor_births, state.condition_births) == (11, 1, 1)
        && (state.limit, state.procs) == (20, 2)
        && (state.next_registration, state.next_pattern) == (1, 1_073_741_825)
}

// Event 7 alone is trapped.
fn has_events(copy: &PodCopy) -> bool {
    for event in 0..32 {
        if copy.trapped[event] != (event == 7) {
            return false;
        }
    }
    copy.pending == Some(7) && has_ids(&copy.reports, &[8])
}

fn is_copied<'s>(pod: &EventPod<'s, Pod<'s>>) -> bool {
    match pod.copy() {
        Ok(copy) => has_lists(&copy.state) && has_numbers(&copy.state) && has_events(&copy),
        Err(_) => false,
    }
}

fn does_all<'s>(pod: &mut EventPod<'s, Pod<'s>>, effects: &mut Effects<'s>) -> bool {
    makes_all(pod, effects, &OPENING)
        && bears_all(pod, effects)
        && makes_all(pod, effects, &HELD)
        && sends(pod, effects)
        && makes_all(pod, effects, &LATER)
        && takes_all(pod, effects)
        && is_copied(pod)
}

fn is_done(alloc: Global) -> bool {
    let Ok(mut effects) = Effects::new(alloc) else {
        return false;
    };
    let Ok(pod) = Pod::new(alloc, PARAMS) else {
        return false;
    };
    let Ok(mut pod) = EventPod::new(alloc, pod) else {
        return false;
    };
    does_all(&mut pod, &mut effects)
}

#[test]
fn a_copy_has_what_the_calls_left(rt: HostRuntime) {
    assert!(rt; is_done(rt.alloc()));
}
