// A pod, written into a key.
ghost use Rattle.std.specs.Prelude.{◌≡◌, ◌++◌, OnOk, map};
ghost use Rattle.keys.specs.Numbers.{alone, list_numbers, option_numbers};
ghost use Rattle.pod_events.specs.Copies.{events_in};
ghost use Rattle.session_cores.specs.States.{clock_numbers, count_numbers, people_numbers, thread_numbers, pod_numbers, state_numbers, things_numbers};
ghost use Rattle.snapshots.specs.Copies.{row_in, state_in};

use crate::part::{put_ids, put_list};
use crate::words::bit;
use keys::Key;
use snapshots::{PodCopy, StateCopy, ThreadCopy};
use std::alloc::AllocError;

// The live threads.
fn put_threads(key: &mut Key, threads: &[ThreadCopy]) -> Result<(), AllocError>
    ensures { OnOk result (key.new ≡ key.old ++ list_numbers thread_numbers (map row_in threads.now)) }
{
    put_list(key, threads)?;
    Ok(())
}

// The threads, who of them waits for how long, and the messages.
fn put_people(key: &mut Key, state: &StateCopy) -> Result<(), AllocError>
    ensures { OnOk result (key.new ≡ key.old ++ people_numbers (state_in state.entry.now)) }
{
    put_threads(key, state.threads.as_slice())?;
    put_ids(key, &state.order)?;
    put_list(key, state.timers.as_slice())?;
    put_list(key, state.letters.as_slice())
}

// The monitors, conditions and agents.
fn put_things(key: &mut Key, state: &StateCopy) -> Result<(), AllocError>
    ensures { OnOk result (key.new ≡ key.old ++ things_numbers (state_in state.entry.now)) }
{
    put_ids(key, &state.monitors)?;
    put_list(key, state.locks.as_slice())?;
    put_list(key, state.requests.as_slice())?;
    put_list(key, state.conditions.as_slice())?;
    put_list(key, state.waits.as_slice())?;
    put_list(key, state.agents.as_slice())
}

// The clock, the greatest priority, the exit status, and whether the pod has ended.
fn put_clock(key: &mut Key, state: &StateCopy) -> Result<(), AllocError>
    ensures { OnOk result (key.new ≡ key.old ++ clock_numbers (state_in state.entry.now)) }
{
    key.put_all(&[
        state.now,
        state.maxpri as u64,
        state.status as u64,
        bit(state.ended),
    ])
}

// How many were born, what bounds that, how many procedures there are, and the next numbers that are given.
fn put_counts(key: &mut Key, state: &StateCopy) -> Result<(), AllocError>
    ensures { OnOk result (key.new ≡ key.old ++ count_numbers (state_in state.entry.now)) }
{
    key.put_all(&[
        state.births,
        state.monitor_births,
        state.condition_births,
        state.limit,
        state.procs as u64,
        state.next_registration,
        state.next_pattern as u64,
    ])
}

// The state of a machine.
fn put_state(key: &mut Key, state: &StateCopy) -> Result<(), AllocError>
    ensures { OnOk result (key.new ≡ key.old ++ state_numbers (state_in state.entry.now)) }
{
    put_people(key, state)?;
    put_things(key, state)?;
    put_clock(key, state)?;
    put_counts(key, state)
}

fn put_pending(key: &mut Key, pending: Option<u8>) -> Result<(), AllocError>
    ensures { OnOk result (key.new ≡ key.old ++ option_numbers alone pending) }
{
    match pending {
        None => key.put(0),
        Some(event) => key.put_all(&[1, event as u64]),
    }
}

/// A pod with the events that it keeps for itself.
pub(crate) fn put_pod(key: &mut Key, pod: &PodCopy) -> Result<(), AllocError>
    ensures { OnOk result (key.new ≡ key.old ++ pod_numbers (events_in pod.now)) }
{
    put_state(key, &pod.state)?;
    put_list(key, &pod.trapped)?;
    put_pending(key, pod.pending)?;
    put_ids(key, &pod.reports)
}
