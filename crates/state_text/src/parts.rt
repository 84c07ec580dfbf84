// The lines of monitors, conditions and events.
ghost use Rattle.std.specs.Prelude.{◌≡◌, ◌++◌, ◌∷◌, OnOk};
ghost use Rattle.std.specs.Fmt.{decimal};
ghost use Rattle.std.specs.List.{flat_map};
ghost use Rattle.snapshots.specs.Copies.{state_in};
ghost use Rattle.state_text.specs.Tables.{AreTables};
ghost use Rattle.state_text.specs.Text.{condition_lines, held_text, monitor_lines, pending_line, trapped_words};
ghost use Rattle.trace_text.specs.Lines.{letter_if};

use crate::entries::add_entries;
use crate::tables::Tables;
use crate::waiting::lock_of;
use crate::words::{add_depth, add_id, add_word_id, add_word_number};
use lwp_types::{CondRow, Lock, Mid, NoMemory};
use snapshots::PodCopy;
use trace_text::add_text;

fn add_held(out: &mut Vec<u8>, lock: Option<Lock>) -> Result<(), NoMemory>
    ensures { OnOk result (out.new.items ≡ out.old.items ++ held_text lock) }
{
    let Some(lock) = lock else {
        return add_text(out, b" free\n");
    };
    add_word_id(out, b" held ", b"t", lock.owner.number)?;
    add_depth(out, lock.depth)
}

fn add_monitor(out: &mut Vec<u8>, pod: &PodCopy, tables: &Tables, mon: Mid) -> Result<(), NoMemory>
    requires { AreTables pod.now.state tables.now }
    ensures { OnOk result (out.new.items ≡ out.old.items ++ monitor_lines (state_in pod.now.state) mon) }
{
    add_id(out, b"m", mon.number)?;
    add_held(out, lock_of(pod, tables, mon))?;
    add_entries(
        out,
        pod.state.requests.as_slice(),
        &tables.requests,
        mon.number,
    )
}

/// Each monitor, and who waits to enter it.
pub(crate) fn add_monitors(
    out: &mut Vec<u8>,
    pod: &PodCopy,
    tables: &Tables,
) -> Result<(), NoMemory>
    requires { AreTables pod.now.state tables.now }
    ensures { OnOk result
        (out.new.items ≡ out.old.items ++ flat_map (monitor_lines (state_in pod.now.state)) pod.now.state.monitors) }
{
    for i in 0..pod.state.monitors.len() {
        let mon = Mid {
            number: pod.state.monitors.get(i),
        };
        add_monitor(out, pod, tables, mon)?;
    }
    Ok(())
}

fn add_condition(
    out: &mut Vec<u8>,
    pod: &PodCopy,
    tables: &Tables,
    row: &CondRow,
) -> Result<(), NoMemory>
    requires { AreTables pod.now.state tables.now }
    ensures { OnOk result (out.new.items ≡ out.old.items ++ condition_lines (state_in pod.now.state) row.now) }
{
    add_id(out, b"c", row.number.number)?;
    add_word_id(out, b" of ", b"m", row.mon.number)?;
    add_text(out, b"\n")?;
    add_entries(
        out,
        pod.state.waits.as_slice(),
        &tables.waits,
        row.number.number,
    )
}

/// Each condition, and who waits on it.
pub(crate) fn add_conditions(
    out: &mut Vec<u8>,
    pod: &PodCopy,
    tables: &Tables,
) -> Result<(), NoMemory>
    requires { AreTables pod.now.state tables.now }
    ensures { OnOk result
        (out.new.items ≡ out.old.items ++ flat_map (condition_lines (state_in pod.now.state)) pod.now.state.conditions) }
{
    for row in pod.state.conditions.as_slice() {
        add_condition(out, pod, tables, row)?;
    }
    Ok(())
}

fn add_event(out: &mut Vec<u8>, there: bool, event: u64) -> Result<(), NoMemory>
    ensures { OnOk result (out.new.items ≡ out.old.items ++ letter_if there (32 ∷ decimal event)) }
{
    if there {
        add_word_number(out, b" ", event)?;
    }
    Ok(())
}

/// The trapped events, each with a space before it.
pub(crate) fn add_trapped(out: &mut Vec<u8>, trapped: &[bool]) -> Result<(), NoMemory>
    ensures { OnOk result (out.new.items ≡ out.old.items ++ trapped_words 0 trapped.now) }
{
    for event in 0..trapped.len() {
        add_event(out, trapped[event], event as u64)?;
    }
    Ok(())
}

/// The trap that is raised at the next call.
pub(crate) fn add_pending(out: &mut Vec<u8>, pending: Option<u8>) -> Result<(), NoMemory>
    ensures { OnOk result (out.new.items ≡ out.old.items ++ pending_line pending) }
{
    match pending {
        Some(event) => {
            add_word_number(out, b"pending ", u64::from(event))?;
            add_text(out, b"\n")
        }
        None => Ok(()),
    }
}
