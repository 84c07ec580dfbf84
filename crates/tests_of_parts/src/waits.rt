ghost use Rattle.std.specs.Prelude.{◌≡◌};
ghost use Rattle.conditions.specs.ConditionTable.{empty_table};

use crate::copies::is_copy;
use crate::id_lists::holds;
use conditions::{Conds, WaitRec};
use lwp_types::{Cid, Mid, Tid};

const MON: Mid = Mid { number: 7 };

const A: Tid = Tid { number: 1 };

const B: Tid = Tid { number: 2 };

const C: Tid = Tid { number: 3 };

const FIRST: Cid = Cid { number: 0 };

const SECOND: Cid = Cid { number: 1 };

fn wait_on(cond: Cid, tid: Tid) -> WaitRec
    ensures { result ≡ record { cond = cond; tid = tid; prio = 1; depth = 2 } }
{
    WaitRec {
        cond,
        tid,
        prio: 1,
        depth: 2,
    }
}

fn is_of(wait: Option<WaitRec>, tid: Tid) -> bool {
    matches!(wait, Some(wait) if wait.tid == tid)
}

const WAITS: [[u64; 4]; 3] = [[0, 1, 2, 0], [0, 2, 2, 0], [0, 3, 2, 0]];

fn is_copied(conds: &Conds) -> bool {
    is_copy(conds.conditions(), &[[0, 7, 0, 0], [1, 7, 0, 0]])
        && is_copy(conds.waits(), &WAITS)
        && conds.births() == 2
}

fn knows(conds: &Conds) -> bool {
    conds.waited(FIRST)
        && conds.waited_of(MON)
        && holds(conds.waiters(FIRST), &[1, 2, 3])
        && holds(conds.list(), &[0, 1])
}

// The greatest priority is notified; then one thread is woken, and the last of all.
fn wakes(conds: &mut Conds) -> bool {
    let woken = is_of(conds.notify(FIRST), B)
        && is_of(conds.send_to(FIRST, C), C)
        && conds.send_to(FIRST, C).is_none();
    conds.forget(B);
    woken && is_of(conds.broadcast(FIRST), A) && conds.broadcast(FIRST).is_none()
}

// A condition ends, and the monitor takes the other with it.
fn ends(conds: &mut Conds) -> bool {
    if conds.monitor_of(SECOND) != Some(MON) || conds.waited(SECOND) {
        return false;
    }
    conds.destroy(SECOND);
    if conds.waited_of(MON) {
        return false;
    }
    conds.destroy_of(MON);
    conds.monitor_of(FIRST).is_none()
}

// Two conditions are born, and three threads wait on the first.
fn does_all(conds: &mut Conds) -> bool
    requires { conds.old ≡ empty_table 10 }
{
    let Ok(()) = conds.reserve(4) else {
        return false;
    };
    let Ok(Some(_)) = conds.create(MON) else {
        return false;
    };
    let Ok(Some(second)) = conds.create(MON) else {
        return false;
    };
    conds.wait(wait_on(FIRST, A));
    conds.wait(wait_on(FIRST, B));
    conds.wait(wait_on(FIRST, C));
    conds.requeue(B, 3);
    second == SECOND && knows(conds) && is_copied(conds) && wakes(conds) && ends(conds)
}

#[test]
fn the_greatest_priority_is_notified(rt: HostRuntime) {
    let mut conds = Conds::new(rt.alloc(), 10);
    assert!(rt; does_all(&mut conds));
}
