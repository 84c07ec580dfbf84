// Whose turn it is, and which events can be taken.
ghost use Rattle.std.specs.Prelude.{◌≡◌, IfOk, List, Some, is_some, map};
ghost use Rattle.std.specs.List.{filter};
ghost use Rattle.lwp_types.specs.Agents.{is_armed, is_event_armed};
ghost use Rattle.lwp_types.specs.Choice.{better_by, choice};
ghost use Rattle.lwp_types.specs.State.{priority_in};
ghost use Rattle.lwp_types.specs.declared.rows.AgentRow.{AgentRow};
ghost use Rattle.pod_events.specs.Events.{is_takeable, is_trapped};
ghost use Rattle.pod_events.specs.Machine.{current_of};
ghost use Rattle.snapshots.specs.Copies.{state_in};
ghost use Rattle.state_text.specs.Tables.{AreEventKeys, AreTables};
ghost use Rattle.pod_events.specs.Copies.{events_in};
ghost use Rattle.state_text.specs.Text.{is_wanted};

use crate::clients::{ClientLines, taken_of};
use crate::keys::Keys;
use crate::tables::Tables;
use lwp_types::{AgentRow, NoMemory, Sequence, Tid};
use snapshots::PodCopy;
use std::alloc::Global;

fn priority_in(pod: &PodCopy, tables: &Tables, tid: Tid) -> u32
    requires { AreTables pod.now.state tables.now }
    ensures { result ≡ priority_in (state_in pod.now.state) tid }
{
    match tables.threads.next(tid.number, 0) {
        Some(place) => pod.state.threads.as_slice()[place].priority,
        None => 0,
    }
}

// Of two, the later only by a greater priority.
fn better(pod: &PodCopy, tables: &Tables, best: Option<Tid>, tid: Tid) -> Tid
    requires { AreTables pod.now.state tables.now }
    ensures { Some result ≡ better_by (priority_in (state_in pod.now.state)) best tid }
{
    match best {
        Some(other) if priority_in(pod, tables, tid) <= priority_in(pod, tables, other) => other,
        _ => tid,
    }
}

/// Who has the greatest priority in the run queue, and stands there first.
pub(crate) fn choice(pod: &PodCopy, tables: &Tables) -> Option<Tid>
    requires { AreTables pod.now.state tables.now }
    ensures { result ≡ choice (state_in pod.now.state) }
{
    let mut best = None;
    for i in 0..pod.state.order.len() {
        let tid = Tid {
            number: pod.state.order.get(i),
        };
        best = Some(better(pod, tables, best, tid));
    }
    best
}

/// Whose turn it is: nobody's in a pod that has ended.
pub(crate) fn current_of(pod: &PodCopy, tables: &Tables) -> Option<Tid>
    requires { AreTables pod.now.state tables.now }
    ensures { result ≡ current_of (state_in pod.now.state) }
{
    if pod.state.ended {
        return None;
    }
    choice(pod, tables)
}

/// The events of agents.
#[derive(Drop)]
pub(crate) struct EventKeys {
    /// Of all.
    all: Keys,
    /// Of those that hold a message.
    holding: Keys,
}

fn event_keys(alloc: Global, agents: &[AgentRow]) -> Result<Keys, NoMemory>
    ensures { IfOk result (λ keys. keys ≡ map (λ row. row.event) agents.now) }
{
    let keys = agents
        .iter()
        .map(|row| u64::from(row.event))
        .collect(alloc)?;
    Keys::of(alloc, keys)
}

// The agents that hold a message.
fn holders(alloc: Global, agents: &[AgentRow]) -> Result<Vec<AgentRow>, NoMemory>
    ensures { IfOk result (λ rows. rows.items ≡ filter (λ row. row.holding) agents.now) }
{
    let rows = agents
        .iter()
        .copied()
        .filter(|row| row.holding)
        .collect(alloc)?;
    Ok(rows)
}

// The events of the agents that hold a message.
fn holding_keys(alloc: Global, agents: &[AgentRow]) -> Result<Keys, NoMemory>
    ensures { IfOk result (λ keys. keys ≡ map (λ row. row.event) (filter (λ row. row.holding) agents.now)) }
{
    let rows = holders(alloc, agents)?;
    event_keys(alloc, &rows)
}

impl EventKeys {
    pub(crate) fn of(alloc: Global, agents: &[AgentRow]) -> Result<EventKeys, NoMemory>
        ensures { IfOk result (AreEventKeys agents.now) }
    {
        Ok(EventKeys {
            all: event_keys(alloc, agents)?,
            holding: holding_keys(alloc, agents)?,
        })
    }

    // Whether an event has an agent, and none of its agents holds a message.
    fn is_armed(&self, event: u8) -> bool
        ensures { (agents : List AgentRow) → AreEventKeys agents self.now → result ≡ is_armed agents event }
    {
        let event = u64::from(event);
        let Some(_) = self.all.next(event, 0) else {
            return false;
        };
        match self.holding.next(event, 0) {
            Some(_) => false,
            None => true,
        }
    }
}

// Whether an event can be delivered.
fn is_event_armed(pod: &PodCopy, events: &EventKeys, event: u8) -> bool
    requires { AreEventKeys pod.now.state.agents events.now }
    ensures { result ≡ is_event_armed (state_in pod.now.state) event }
{
    if pod.state.ended {
        return false;
    }
    if event == 0 {
        return pod.state.now < 4_294_967_295;
    }
    events.is_armed(event)
}

// Whether an event is trapped, by the flags of all events.
fn is_trapped(trapped: &[bool], event: u8) -> bool
    ensures { result ≡ is_trapped trapped.now event }
{
    trapped.get(event as usize).copied().unwrap_or(false)
}

// Whether a line of the event can be taken; `turn` is whether it is somebody's turn.
fn is_takeable(pod: &PodCopy, events: &EventKeys, turn: bool, event: u8) -> bool
    requires events { AreEventKeys pod.now.state.agents events.now }
    requires turn { turn ≡ is_some (current_of (state_in pod.now.state)) }
    ensures { result ≡ is_takeable (events_in pod.now) event }
{
    if is_trapped(&pod.trapped, event) {
        return pod.pending.is_none() && turn;
    }
    event < 32 && is_event_armed(pod, events, event)
}

/// Whether some client has a line left that can be taken; `turn` is whether it is somebody's turn.
pub(crate) fn is_wanted(
    pod: &PodCopy,
    events: &EventKeys,
    turn: bool,
    taken: &Sequence<u64>,
    clients: &[ClientLines],
) -> bool
    requires events { AreEventKeys pod.now.state.agents events.now }
    requires turn { turn ≡ is_some (current_of (state_in pod.now.state)) }
    ensures { result ≡ is_wanted (events_in pod.now) taken.now 0 clients.now }
{
    for i in 0..clients.len() {
        let client = clients[i];
        if taken_of(taken, i) < client.posts && is_takeable(pod, events, turn, client.event) {
            return true;
        }
    }
    false
}
