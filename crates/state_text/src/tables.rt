// The keys of all lists of a state.
ghost use Rattle.std.specs.Prelude.{◌≡◌, IfOk, map};
ghost use Rattle.state_text.specs.Tables.{AreTables};

use crate::keys::Keys;
use lwp_types::{AgentRow, Letter, Lock, NoMemory, Request, TimerRow, WaitRow};
use snapshots::{PodCopy, ThreadCopy};
use std::alloc::Global;

/// The keys of a state's lists.
#[derive(Drop)]
pub(crate) struct Tables {
    /// The threads' numbers.
    pub(crate) threads: Keys,
    /// Whose timers they are.
    pub(crate) timers: Keys,
    /// Who owns the locks.
    pub(crate) owners: Keys,
    /// Of which monitors they are.
    pub(crate) locked: Keys,
    /// To whom the letters are.
    pub(crate) receivers: Keys,
    /// Who sent them.
    pub(crate) senders: Keys,
    /// Whose agents they are.
    pub(crate) agents: Keys,
    /// For which monitors the requests are.
    pub(crate) requests: Keys,
    /// On which conditions the waits are.
    pub(crate) waits: Keys,
}

fn thread_keys(alloc: Global, rows: &[ThreadCopy]) -> Result<Keys, NoMemory>
    ensures { IfOk result (λ keys. keys ≡ map (λ row. row.number) rows.now) }
{
    let keys = rows.iter().map(|row| row.number.number).collect(alloc)?;
    Keys::of(alloc, keys)
}

fn timer_keys(alloc: Global, rows: &[TimerRow]) -> Result<Keys, NoMemory>
    ensures { IfOk result (λ keys. keys ≡ map (λ row. row.tid) rows.now) }
{
    let keys = rows.iter().map(|row| row.tid.number).collect(alloc)?;
    Keys::of(alloc, keys)
}

fn owner_keys(alloc: Global, rows: &[Lock]) -> Result<Keys, NoMemory>
    ensures { IfOk result (λ keys. keys ≡ map (λ row. row.owner) rows.now) }
{
    let keys = rows.iter().map(|row| row.owner.number).collect(alloc)?;
    Keys::of(alloc, keys)
}

fn lock_keys(alloc: Global, rows: &[Lock]) -> Result<Keys, NoMemory>
    ensures { IfOk result (λ keys. keys ≡ map (λ row. row.mon) rows.now) }
{
    let keys = rows.iter().map(|row| row.mon.number).collect(alloc)?;
    Keys::of(alloc, keys)
}

fn receiver_keys(alloc: Global, rows: &[Letter]) -> Result<Keys, NoMemory>
    ensures { IfOk result (λ keys. keys ≡ map (λ row. row.to) rows.now) }
{
    let keys = rows.iter().map(|row| row.to.number).collect(alloc)?;
    Keys::of(alloc, keys)
}

fn sender_keys(alloc: Global, rows: &[Letter]) -> Result<Keys, NoMemory>
    ensures { IfOk result (λ keys. keys ≡ map (λ row. row.from) rows.now) }
{
    let keys = rows.iter().map(|row| row.from.number).collect(alloc)?;
    Keys::of(alloc, keys)
}

fn agent_keys(alloc: Global, rows: &[AgentRow]) -> Result<Keys, NoMemory>
    ensures { IfOk result (λ keys. keys ≡ map (λ row. row.owner) rows.now) }
{
    let keys = rows.iter().map(|row| row.owner.number).collect(alloc)?;
    Keys::of(alloc, keys)
}

fn request_keys(alloc: Global, rows: &[Request]) -> Result<Keys, NoMemory>
    ensures { IfOk result (λ keys. keys ≡ map (λ row. row.mon) rows.now) }
{
    let keys = rows.iter().map(|row| row.mon.number).collect(alloc)?;
    Keys::of(alloc, keys)
}

fn wait_keys(alloc: Global, rows: &[WaitRow]) -> Result<Keys, NoMemory>
    ensures { IfOk result (λ keys. keys ≡ map (λ row. row.cond) rows.now) }
{
    let keys = rows.iter().map(|row| row.cond.number).collect(alloc)?;
    Keys::of(alloc, keys)
}

impl Tables {
    pub(crate) fn of(alloc: Global, pod: &PodCopy) -> Result<Tables, NoMemory>
        ensures { IfOk result (AreTables pod.now.state) }
    {
        let state = &pod.state;
        Ok(Tables {
            threads: thread_keys(alloc, state.threads.as_slice())?,
            timers: timer_keys(alloc, state.timers.as_slice())?,
            owners: owner_keys(alloc, state.locks.as_slice())?,
            locked: lock_keys(alloc, state.locks.as_slice())?,
            receivers: receiver_keys(alloc, state.letters.as_slice())?,
            senders: sender_keys(alloc, state.letters.as_slice())?,
            agents: agent_keys(alloc, state.agents.as_slice())?,
            requests: request_keys(alloc, state.requests.as_slice())?,
            waits: wait_keys(alloc, state.waits.as_slice())?,
        })
    }
}
