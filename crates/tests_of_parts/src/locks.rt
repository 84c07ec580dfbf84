ghost use Rattle.std.specs.Prelude.{◌≡◌};
ghost use Rattle.monitors.specs.MonitorTable.{empty_table};

use crate::copies::is_copy;
use crate::id_lists::holds;
use lwp_types::{Mid, Tid};
use monitors::Monitors;
use std::alloc::Global;

const A: Tid = Tid { number: 1 };

const B: Tid = Tid { number: 2 };

const C: Tid = Tid { number: 3 };

const FIRST: Mid = Mid { number: 0 };

const SECOND: Mid = Mid { number: 1 };

fn is_copied(mons: &Monitors) -> bool {
    is_copy(mons.locks(), &[[0, 1, 1, 0]])
        && is_copy(mons.requests(), &[[0, 2, 1, 0], [0, 3, 3, 0]])
        && mons.births() == 1
}

// The greatest priority enters next, and at the depth that it asks for.
fn enters(mons: &mut Monitors) -> bool
    requires { mons.old ≡ empty_table 10 }
{
    let Ok(()) = mons.reserve(2) else {
        return false;
    };
    let Ok(Some(mon)) = mons.create() else {
        return false;
    };
    mons.enter(mon, A);
    mons.request(mon, B, 1, 1);
    mons.request(mon, C, 1, 3);
    mons.requeue(C, 2);
    let waiting = holds(mons.waiters(mon), &[2, 3]) && is_copied(mons);
    let next = mons.exit(mon, A);
    let depth = mons.depth(mon);
    let owner = mons.owner(mon);
    mons.forget(B);
    waiting && next == Some(C) && depth == 3 && owner == Some(C) && mons.break_lock(mon).is_none()
}

// The last acquired goes first, and a destroyed one isn't live.
fn releases(mons: &mut Monitors) -> bool
    requires { mons.old ≡ empty_table 10 }
{
    let Ok(Some(_)) = mons.create() else {
        return false;
    };
    let Ok(Some(_)) = mons.create() else {
        return false;
    };
    mons.enter(SECOND, A);
    mons.enter(FIRST, A);
    let last = mons.last_held(A);
    let next = mons.break_lock(FIRST);
    let listed = holds(mons.list(), &[0, 1]);
    mons.destroy(FIRST);
    let left = mons.last_held(A);
    let after = mons.break_lock(SECOND);
    listed
        && (last, left) == (Some(FIRST), Some(SECOND))
        && next.is_none()
        && after.is_none()
        && !mons.is_live(FIRST)
        && mons.last_held(A).is_none()
}

// A monitor that is given up goes to the thread that waits, at that one's depth, and the last acquired is released first.
fn passes_on(mons: &mut Monitors) -> bool
    requires { mons.old ≡ empty_table 10 }
{
    let Ok(()) = mons.reserve(2) else {
        return false;
    };
    let Ok(Some(_)) = mons.create() else {
        return false;
    };
    let Ok(Some(_)) = mons.create() else {
        return false;
    };
    mons.enter(FIRST, A);
    mons.enter(FIRST, A);
    mons.request(FIRST, B, 1, 3);
    let given_up = mons.give_up(FIRST, A);
    let next = mons.grant(FIRST);
    let depth = mons.depth(FIRST);
    mons.enter(SECOND, B);
    mons.request(SECOND, C, 1, 1);
    let last = mons.release_last(B);
    let before = mons.release_last(B);
    (given_up, depth) == (2, 3)
        && next == Some(B)
        && last == Some((SECOND, Some(C)))
        && before == Some((FIRST, None))
        && mons.release_last(B).is_none()
}

fn is_done(alloc: Global) -> bool {
    let mut mons = Monitors::new(alloc, 10);
    if !enters(&mut mons) {
        return false;
    }
    mons = Monitors::new(alloc, 10);
    if !releases(&mut mons) {
        return false;
    }
    mons = Monitors::new(alloc, 10);
    passes_on(&mut mons)
}

#[test]
fn the_greatest_priority_enters_next_and_the_last_acquired_goes_first(rt: HostRuntime) {
    assert!(rt; is_done(rt.alloc()));
}
