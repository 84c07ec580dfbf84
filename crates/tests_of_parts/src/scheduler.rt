ghost use Rattle.std.specs.Prelude.{◌≡◌, ◌+◌, ◌<◌, ◌≤◌};
ghost use Rattle.pod_sched.specs.Schedule.{choice, empty_schedule};

use crate::copies::is_copy;
use crate::id_lists::holds;
use lwp_types::Tid;
use pod_sched::{Sched, Steps};
use std::alloc::Global;
use std::marker::Brand;
use std::sync::ledger::{Blank, Ledger};
use std::test::Fail;

const A: Tid = Tid { number: 0 };

const B: Tid = Tid { number: 1 };

// It shares a cell of the index with A.
const FAR: Tid = Tid { number: 4096 };

// A call by its letter, the thread, a priority where the call has one, and who runs next.
type Step = (u8, Tid, u32, Option<Tid>);

// Admits one thread more, of three at most.
fn admits(sched: &mut Sched, tid: Tid, prio: u32, suspended: bool) -> bool {
    if sched.reserve(3).is_err() || sched.len() >= 3 {
        return false;
    }
    if sched.knows(tid) || prio == 0 || prio > sched.maxpri() {
        return false;
    }
    sched.admit(tid, prio, suspended);
    sched.knows(tid) && sched.eligible(tid) == !suspended
}

// Gives a known thread a priority.
fn ranks(sched: &mut Sched, tid: Tid, prio: u32) -> bool {
    if !sched.knows(tid) || prio == 0 || prio > sched.maxpri() {
        return false;
    }
    let before = sched.prio_of(tid);
    sched.set_prio(tid, prio) == before
}

// One thread lets another of its priority run right before it, or goes last where the two are one.
fn yields(sched: &mut Sched, from: Tid, to: Tid) -> bool {
    if !sched.knows(from) || !sched.knows(to) || sched.prio_of(from) != sched.prio_of(to) {
        return false;
    }
    let may = sched.eligible(from) && sched.eligible(to);
    if may {
        sched.yield_to(from, to);
    }
    may
}

// What is done to one known thread: `l` leave, `b` block, `u` unblock, `s` suspend, `r` resume.
fn changes(sched: &mut Sched, letter: u8, tid: Tid) -> bool {
    if !sched.knows(tid) {
        return false;
    }
    match letter {
        b'l' => sched.leave(tid),
        b'b' => sched.block(tid),
        b'u' if sched.blocked(tid) => sched.unblock(tid),
        b's' => sched.suspend(tid),
        b'r' => sched.resume(tid),
        _ => return false,
    }
    sched.knows(tid) == (letter != b'l')
}

// And `+` admit, `-` admit suspended, `y` yield to itself, `p` set the priority, `q` let the first of a priority go last, `m` raise
// the greatest priority.
fn does(sched: &mut Sched, step: &Step) -> bool {
    let (letter, tid, prio, next) = *step;
    let done = match letter {
        b'+' | b'-' => admits(sched, tid, prio, letter == b'-'),
        b'p' => ranks(sched, tid, prio),
        b'y' => yields(sched, tid, tid),
        b'q' => {
            sched.resched(prio);
            true
        }
        b'm' if sched.maxpri() <= prio && prio <= 255 => {
            sched.set_maxpri(prio);
            true
        }
        _ => changes(sched, letter, tid),
    };
    done && sched.current() == next
}

const STEPS: [Step; 19] = [
    (b'+', A, 3, Some(A)),
    (b'-', B, 5, Some(A)),
    (b'r', B, 0, Some(B)),
    (b'b', B, 0, Some(A)),
    (b's', B, 0, Some(A)),
    (b'u', B, 0, Some(A)),
    (b'p', B, 3, Some(A)),
    // It was away, so it comes after A.
    (b'r', B, 0, Some(A)),
    (b'p', A, 3, Some(A)),
    (b'y', A, 0, Some(B)),
    (b'q', A, 3, Some(A)),
    (b'q', A, 4, Some(A)),
    (b'm', A, 255, Some(A)),
    (b'+', FAR, 255, Some(FAR)),
    (b'p', A, 255, Some(FAR)),
    (b'b', FAR, 0, Some(A)),
    (b'l', FAR, 0, Some(A)),
    (b'l', A, 0, Some(B)),
    (b'l', B, 0, None),
];

fn does_all(sched: &mut Sched) -> bool {
    for step in &STEPS {
        if !does(sched, step) {
            return false;
        }
    }
    true
}

// Of three threads of one priority.
fn yields_in_turn(sched: &mut Sched) -> bool {
    for tid in [A, B, FAR] {
        if !admits(sched, tid, 3, false) {
            return false;
        }
    }
    yields(sched, A, FAR)
        && sched.current() == Some(FAR)
        && yields(sched, FAR, FAR)
        && sched.current() == Some(A)
}

// A function that owns a scheduler is dear to prove, by each of its steps, so this one has no more than it needs.
fn is_done(alloc: Global) -> bool {
    let Ok(mut sched) = Sched::new(alloc, 5) else {
        return false;
    };
    does_all(&mut sched) && yields_in_turn(&mut sched)
}

#[test]
fn the_first_of_the_greatest_priority_runs(rt: HostRuntime) {
    assert!(rt; is_done(rt.alloc()));
}

// Of three threads one sleeps, and the others are in the order.
fn is_copied(sched: &mut Sched) -> bool
    requires { sched.old ≡ empty_schedule 5 }
{
    let Ok(()) = sched.reserve(3) else {
        return false;
    };
    sched.admit(B, 3, false);
    sched.admit(A, 4, false);
    sched.admit(FAR, 5, false);
    sched.block(FAR);
    sched.set_timer(FAR, 7);
    let row = sched.known_of(FAR);
    holds(sched.order(), &[1, 0])
        && is_copy(sched.timers(), &[[4096, 7, 0, 0]])
        && row.is_some_and(|row| row.blocked && row.prio == 5)
        && sched.known_of(Tid { number: 9 }).is_none()
}

fn is_copied_anew(alloc: Global) -> bool {
    let Ok(mut sched) = Sched::new(alloc, 5) else {
        return false;
    };
    is_copied(&mut sched)
}

#[test]
fn a_copy_has_the_order_and_the_timers(rt: HostRuntime) {
    assert!(rt; is_copied_anew(rt.alloc()));
}

// The choice, with a count of its looks: of one priority it takes one, of two at most two, and of any at most five.
fn counted<L: Ledger>(sched: &Sched, steps: &mut Steps<L>) -> Option<Tid>
    ensures value { result ≡ choice sched.now }
    ensures of_one { sched.now.maxpri ≡ 1 → steps.new ≤ steps.old + 1 }
    ensures of_two { sched.now.maxpri ≡ 2 → steps.new ≤ steps.old + 2 }
    ensures of_any { steps.new ≤ steps.old + 5 }
{
    sched.current_counted(steps)
}

// Raises the greatest priority, and gives it to a thread, which runs next.
fn leads<L: Ledger>(sched: &mut Sched, tid: Tid, prio: u32, steps: &mut Steps<L>) -> bool {
    if prio < sched.maxpri() || prio > 255 {
        return false;
    }
    sched.set_maxpri(prio);
    ranks(sched, tid, prio) && counted(sched, steps) == Some(tid)
}

// Two threads in turn have the greatest priority, which at first is 1.
fn leads_in_turn<L: Ledger>(sched: &mut Sched, blank: Blank) -> bool
    requires name { blank.name ≡ L.name }
    requires parts { blank.parts ≡ L.parts }
    requires some { 0 < blank.parts }
{
    let mut steps = Steps::<L>::new(blank);
    if counted(sched, &mut steps).is_some() {
        return false;
    }
    if !admits(sched, A, 1, false) || !admits(sched, B, 1, false) {
        return false;
    }
    for (prio, tid) in [(1, A), (2, B), (63, A), (64, B), (128, A), (255, B)] {
        if !leads(sched, tid, prio, &mut steps) {
            return false;
        }
    }
    true
}

// A look at the bucket of each of three priorities, of which two have a thread.
fn finds_fronts<L: Ledger>(sched: &Sched, blank: Blank) -> bool
    requires name { blank.name ≡ L.name }
    requires parts { blank.parts ≡ L.parts }
    requires some { 0 < blank.parts }
{
    let mut steps = Steps::<L>::new(blank);
    let (second, none, greatest) = (sched.bucket(128), sched.bucket(7), sched.bucket(255));
    (second.prio(), second.first(&mut steps)) == (128, Some(A))
        && (none.prio(), none.first(&mut steps)) == (7, None)
        && (greatest.prio(), greatest.first(&mut steps)) == (255, Some(B))
}

#[test]
fn a_counted_choice_is_the_choice(rt: HostRuntime) -> Result<(), Fail> {
    let mut sched = Sched::new(rt.alloc(), 1).map_err(|_| "no memory")?;
    assert!(rt; leads_in_turn::<Brand>(&mut sched, Blank::new(1)));
    assert!(rt; finds_fronts::<Brand>(&sched, Blank::new(1)));
    Ok(())
}
