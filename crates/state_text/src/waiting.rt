// Whom a thread waits for.
ghost use Rattle.std.specs.Prelude.{◌≡◌};
ghost use Rattle.lwp_types.specs.MonitorRelease.{lock_of};
ghost use Rattle.snapshots.specs.Copies.{row_in, state_in};
ghost use Rattle.state_text.specs.Keys.{IsNext};
ghost use Rattle.state_text.specs.Tables.{AreTables};
ghost use Rattle.state_text.specs.Text.{timer_of};
ghost use Rattle.state_text.specs.Waiting.{awaited, next_of, receiver_of, owner_of, named_thread};

use crate::tables::Tables;
use lwp_types::{Block, Lock, Mid, Tid, TimerRow};
use snapshots::{PodCopy, ThreadCopy};

/// The lock of a monitor, if anybody holds it.
pub(crate) fn lock_of(pod: &PodCopy, tables: &Tables, mon: Mid) -> Option<Lock>
    requires { AreTables pod.now.state tables.now }
    ensures { result ≡ lock_of pod.now.state.locks mon }
{
    let place = tables.locked.next(mon.number, 0)?;
    Some(pod.state.locks.as_slice()[place])
}

/// A thread's timer, if it has one.
pub(crate) fn timer_of(pod: &PodCopy, tables: &Tables, tid: Tid) -> Option<TimerRow>
    requires { AreTables pod.now.state tables.now }
    ensures { result ≡ timer_of pod.now.state.timers tid }
{
    let place = tables.timers.next(tid.number, 0)?;
    Some(pod.state.timers.as_slice()[place])
}

/// To whom a thread's letter goes.
pub(crate) fn receiver_of(pod: &PodCopy, tables: &Tables, tid: Tid) -> Option<Tid>
    requires { AreTables pod.now.state tables.now }
    ensures { result ≡ receiver_of pod.now.state.letters tid }
{
    let place = tables.senders.next(tid.number, 0)?;
    Some(pod.state.letters.as_slice()[place].to)
}

fn owner_of(pod: &PodCopy, tables: &Tables, mon: Mid) -> Option<Tid>
    requires { AreTables pod.now.state tables.now }
    ensures { result ≡ owner_of pod.now.state.locks mon }
{
    let lock = lock_of(pod, tables, mon)?;
    Some(lock.owner)
}

fn named_thread(pod: &PodCopy, tables: &Tables, from: Option<Tid>) -> Option<Tid>
    requires { AreTables pod.now.state tables.now }
    ensures { result ≡ named_thread (state_in pod.now.state) from }
{
    let tid = from?;
    tables.threads.next(tid.number, 0)?;
    Some(tid)
}

/// The one thread that this one waits for, if there is one.
pub(crate) fn awaited(pod: &PodCopy, tables: &Tables, row: &ThreadCopy) -> Option<Tid>
    requires { AreTables pod.now.state tables.now }
    ensures { result ≡ awaited (state_in pod.now.state) (row_in row.now) }
{
    match row.block {
        Block::Joining(tid) => Some(tid),
        Block::Sending => receiver_of(pod, tables, row.number),
        Block::Receiving(from) => named_thread(pod, tables, from),
        Block::Entering(mon) => owner_of(pod, tables, mon),
        Block::Not | Block::Waiting(_) | Block::Sleeping => None,
    }
}

/// The one thread that the thread of this number waits for, if there is one.
pub(crate) fn next_of(pod: &PodCopy, tables: &Tables, tid: Tid) -> Option<Tid>
    requires { AreTables pod.now.state tables.now }
    ensures { result ≡ next_of (state_in pod.now.state) tid }
{
    let place = tables.threads.next(tid.number, 0)?;
    awaited(pod, tables, &pod.state.threads.as_slice()[place])
}
