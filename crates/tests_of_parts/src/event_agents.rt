ghost use Rattle.std.specs.Prelude.{◌≡◌};
ghost use Rattle.agents.specs.Roster.{no_agents};

use crate::copies::is_copy;
use crate::id_lists::holds;
use agents::Agents;
use lwp_types::Tid;

const OWNER: Tid = Tid { number: 0 };

const OTHER: Tid = Tid { number: 1 };

const A: Tid = Tid { number: 2 };

const B: Tid = Tid { number: 4 };

const C: Tid = Tid { number: 7 };

const D: Tid = Tid { number: 9 };

fn are_known(agents: &Agents) -> bool {
    holds(agents.list(), &[2, 4, 7, 9])
        && agents.len() == 4
        && agents.nth_of(32, 0) == Some(B)
        && agents.nth_of(9, 0) == Some(A)
        && agents.nth_of(9, 1) == Some(D)
        && agents.nth_of(9, 2).is_none()
        && agents.nth_of(5, 0).is_none()
        && agents.owner_of(B) == Some(OTHER)
        && agents.owner_of(OWNER).is_none()
}

fn are_armed(agents: &Agents, want: [bool; 3]) -> bool {
    [agents.armed(9), agents.armed(32), agents.armed(6)] == want
}

const ROWS: [[u64; 4]; 4] = [[2, 9, 0, 0], [4, 32, 1, 1], [7, 6, 0, 0], [9, 9, 1, 1]];

// An agent holds a message until the reply, and its event can't be delivered meanwhile; agents end one by one, or with their
// owner.
fn does_all(agents: &mut Agents) -> bool
    requires { agents.old ≡ no_agents }
{
    let Ok(()) = agents.reserve(4) else {
        return false;
    };
    agents.create(A, 9, OWNER);
    agents.create(B, 32, OTHER);
    agents.create(C, 6, OWNER);
    agents.create(D, 9, OTHER);
    agents.hold(B);
    agents.hold(D);
    let held = are_armed(agents, [false, false, true])
        && agents.next_armed(7).is_none()
        && is_copy(agents.rows(), &ROWS);
    agents.release(B);
    agents.release(D);
    let known = are_known(agents) && are_armed(agents, [true; 3]);
    agents.destroy(B);
    held && known
        && agents.next_armed(7) == Some(9)
        && agents.next_armed(10).is_none()
        && agents.forget_owner(OTHER) == Some(D)
        && agents.forget_owner(OTHER).is_none()
        && agents.forget_owner(OWNER) == Some(A)
        && agents.forget_owner(OWNER) == Some(C)
        && agents.forget_owner(OWNER).is_none()
}

#[test]
fn an_agent_holds_a_message_until_the_reply(rt: HostRuntime) {
    let mut agents = Agents::new(rt.alloc());
    assert!(rt; does_all(&mut agents));
}
