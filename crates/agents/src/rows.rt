// The rows of the agents: which one is meant, and what becomes of it.
ghost use Rattle.std.specs.Prelude.{◌≡◌, IfNone, IfOk, IfSome, IsTrue, None, vec_capacity};
ghost use Rattle.lwp_types.specs.Agents.{without_agent};
ghost use Rattle.lwp_types.specs.Messages.{with_holding};
ghost use Rattle.lwp_types.specs.State.{agent_numbers, agent_of, rises};
ghost use Rattle.agents.specs.Kept.{IsAgentAt};

use lwp_types::{AgentRow, IdList, NoMemory, Sequence, Tid, likely_place};
use std::alloc::Global;

// The number of a thread or an agent.
pub fn number_of(tid: Tid) -> u64
    ensures { result ≡ tid }
{
    tid.number
}

// Where the agent most likely stands.
fn guessed(rows: &[AgentRow], agent: Tid) -> usize {
    match rows.first() {
        Some(oldest) => likely_place(agent.number, oldest.number.number, rows.len()),
        None => 0,
    }
}

// Whether the agent stands there.
fn is_at(rows: &[AgentRow], agent: Tid, at: usize) -> bool
    ensures { IsTrue result → IsAgentAt agent rows.now at }
{
    match rows.get(at) {
        Some(row) => row.number == agent,
        None => false,
    }
}

// Where the agent of this number stands, found by halving.
fn searched(rows: &[AgentRow], number: u64) -> Option<usize>
    requires { IsTrue (rises (agent_numbers rows.now)) }
    ensures absent { IfNone result (agent_of rows.now number ≡ None) }
    ensures found { IfSome result (IsAgentAt number rows.now) }
{
    rows.binary_search_by_key(&number, |row| row.number.number)
        .ok()
}

// Where the agent stands.
fn place_of(rows: &[AgentRow], agent: Tid) -> Option<usize>
    requires { IsTrue (rises (agent_numbers rows.now)) }
    ensures absent { IfNone result (agent_of rows.now agent ≡ None) }
    ensures found { IfSome result (IsAgentAt agent rows.now) }
{
    let likely = guessed(rows, agent);
    if is_at(rows, agent, likely) {
        return Some(likely);
    }
    searched(rows, agent.number)
}

// The agent of this number.
pub fn row_of(rows: &[AgentRow], agent: Tid) -> Option<AgentRow>
    requires { IsTrue (rises (agent_numbers rows.now)) }
    ensures { result ≡ agent_of rows.now agent }
{
    match place_of(rows, agent) {
        Some(at) => Some(rows[at]),
        None => None,
    }
}

// Says of the agent whether it holds a message. The answer is the agent as it was.
pub fn set_holding(rows: &mut Vec<AgentRow>, agent: Tid, holding: bool) -> Option<AgentRow>
    requires { IsTrue (rises (agent_numbers rows.old.items)) }
    ensures value { result ≡ agent_of rows.old.items agent }
    ensures items { rows.new.items ≡ with_holding agent holding rows.old.items }
    ensures capacity { vec_capacity rows.new ≡ vec_capacity rows.old }
{
    let at = place_of(rows, agent)?;
    let row = rows[at];
    rows[at].holding = holding;
    Some(row)
}

// Takes the agent out. Those after it move up in one piece.
pub fn take_out(rows: &mut Vec<AgentRow>, agent: Tid) -> Option<AgentRow>
    requires { IsTrue (rises (agent_numbers rows.old.items)) }
    ensures value { result ≡ agent_of rows.old.items agent }
    ensures items { rows.new.items ≡ without_agent agent rows.old.items }
    ensures capacity { vec_capacity rows.new ≡ vec_capacity rows.old }
{
    let at = place_of(rows, agent)?;
    Some(rows.remove(at))
}

// The numbers of the agents.
pub fn numbers(alloc: Global, rows: &[AgentRow]) -> Result<IdList, NoMemory>
    ensures { IfOk result (λ ids. ids ≡ agent_numbers rows.now) }
{
    let mut ids = IdList::new(alloc);
    for row in rows {
        ids.push(row.number.number)?;
    }
    Ok(ids)
}

// A copy of the rows.
pub fn copied(alloc: Global, rows: &[AgentRow]) -> Result<Sequence<AgentRow>, NoMemory>
    ensures { IfOk result (λ copies. copies ≡ rows.now) }
{
    let mut copies = Sequence::new(alloc);
    for row in rows {
        copies.push(*row)?;
    }
    Ok(copies)
}
