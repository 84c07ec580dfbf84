// The cores from which a call is the only step, and which of them calls lead back to.
ghost use Rattle.lwp_explore.specs.Cycles.{AreCycles, AreWithin};
ghost use Rattle.lwp_explore.specs.Listing.{listing};
ghost use Rattle.lwp_explore.specs.Quiet.{is_calm, is_quiet, kind_at, kinds_at, next_if, quiet_next, quiet_nexts};
ghost use Rattle.std.specs.Prelude.{◌≡◌, Bool, IfOk, List};

use crate::cycles::in_cycles;
use crate::listing::{Listed, list_kinds};
use lwp_types::NoMemory;
use search::Row;
use std::alloc::Global;

fn is_calm(kind: Option<u32>) -> bool
    ensures { result ≡ is_calm kind }
{
    match kind {
        Some(number) => number / 2 == 1,
        None => false,
    }
}

// Whether a call is the only step from the core of this number.
fn is_quiet(rows: &[Row], number: usize) -> bool
    ensures { result ≡ is_quiet rows.now number }
{
    match rows.get(number) {
        Some(row) => is_calm(row.kind),
        None => false,
    }
}

fn next_if(rows: &[Row], last: Option<usize>) -> Option<usize>
    ensures { result ≡ next_if rows.now last }
{
    match last {
        Some(next) if is_quiet(rows, next) => Some(next),
        _ => None,
    }
}

// Where the call leads from such a core.
fn quiet_next(rows: &[Row], lasts: &[Option<usize>], number: usize) -> Option<usize>
    ensures { result ≡ quiet_next rows.now lasts.now number }
{
    if !is_quiet(rows, number) {
        return None;
    }
    match lasts.get(number) {
        Some(last) => next_if(rows, *last),
        None => None,
    }
}

/// Of each core where a call is the only step, where it leads, if a call is the only step there too. `lasts` says where the last step
/// leads from each core.
pub fn quiet_nexts(
    alloc: Global,
    rows: &[Row],
    lasts: &[Option<usize>],
) -> Result<Vec<Option<usize>>, NoMemory>
    ensures { IfOk result (λ nexts. nexts.items ≡ quiet_nexts rows.now lasts.now) }
{
    let mut nexts = Vec::new(alloc);
    for number in 0..rows.len() {
        nexts.push(quiet_next(rows, lasts, number))?;
    }
    Ok(nexts)
}

fn kind_at(rows: &[Row], rounds: &[bool], number: usize) -> Option<u32>
    ensures { result ≡ kind_at rows.now rounds.now number }
{
    if is_quiet(rows, number) {
        match rounds.get(number) {
            Some(true) => {}
            _ => return None,
        }
    }
    match rows.get(number) {
        Some(row) => row.kind,
        None => None,
    }
}

// The number of each core's kind, if it has one.
fn kinds_at(alloc: Global, rows: &[Row], rounds: &[bool]) -> Result<Vec<Option<u32>>, NoMemory>
    ensures { IfOk result (λ kinds. kinds.items ≡ kinds_at rows.now rounds.now) }
{
    let mut kinds = Vec::new(alloc);
    for number in 0..rows.len() {
        kinds.push(kind_at(rows, rounds, number))?;
    }
    Ok(kinds)
}

/// The kinds of ends, in the order in which their first cores were found. `nexts` are those of `quiet_nexts`.
pub fn kinds_of(
    alloc: Global,
    rows: &[Row],
    nexts: &[Option<usize>],
) -> Result<Vec<Listed>, NoMemory>
    requires { AreWithin nexts.now }
    ensures { IfOk result (λ listed. (rounds : List Bool) × AreCycles nexts.now rounds × (listed.items ≡ listing (kinds_at rows.now rounds))) }
{
    let rounds = in_cycles(alloc, nexts)?;
    let kinds = kinds_at(alloc, rows, &rounds)?;
    list_kinds(alloc, &kinds)
}
