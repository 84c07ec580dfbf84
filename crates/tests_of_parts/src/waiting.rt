ghost use Rattle.std.specs.Prelude.{◌≡◌};
ghost use Rattle.lists.specs.WaitingList.Line.{empty_line};

use crate::copies::is_copy;
use crate::id_lists::holds;
use lists::{Waiting, WaitingList};
use lwp_types::Tid;

const A: Tid = Tid { number: 1 };

const B: Tid = Tid { number: 2 };

const C: Tid = Tid { number: 3 };

const D: Tid = Tid { number: 4 };

fn waiting(what: u64, tid: Tid, prio: u32) -> Waiting
    ensures { result ≡ record { what = what; tid = tid; prio = prio; depth = 1 } }
{
    Waiting {
        what,
        tid,
        prio,
        depth: 1,
    }
}

// Whose waits are found first and best for a thing, 0 where there is none.
fn found(line: &WaitingList, what: u64) -> (u64, u64) {
    (number(line.first(what)), number(line.best(what)))
}

fn number(next: Option<Waiting>) -> u64 {
    match next {
        Some(next) => next.tid.number,
        None => 0,
    }
}

const ROWS: [[u64; 4]; 4] = [[7, 1, 3, 1], [8, 2, 9, 1], [7, 3, 5, 1], [7, 4, 5, 1]];

fn knows(line: &WaitingList) -> bool {
    holds(line.tids(7), &[1, 3, 4])
        && line.has(8)
        && line.found(7, D).is_some()
        && line.found(8, D).is_none()
        && is_copy(line.rows(), &ROWS)
}

// The first of the greatest priority is best.
fn does_all(line: &mut WaitingList) -> bool
    requires { line.old ≡ empty_line }
{
    let Ok(()) = line.reserve(4) else {
        return false;
    };
    line.join(waiting(7, A, 3));
    line.join(waiting(8, B, 9));
    line.join(waiting(7, C, 5));
    line.join(waiting(7, D, 5));
    let before = found(line, 7);
    let known = knows(line);
    line.set_prio(A, 5);
    let raised = found(line, 7);
    line.leave(A);
    line.set_prio(C, 4);
    line.leave(B);
    known
        && (before, raised, found(line, 7)) == ((1, 3), (1, 1), (3, 4))
        && found(line, 8) == (0, 0)
        && !line.has(8)
}

#[test]
fn the_first_of_the_greatest_priority_is_best(rt: HostRuntime) {
    let mut line = WaitingList::new(rt.alloc());
    assert!(rt; does_all(&mut line));
}
