// The live conditions, in birth order.
ghost use Rattle.std.specs.Prelude.{◌≡◌, count_by, IfNone, IfOk, IfSome};
ghost use Rattle.conditions.specs.Kept.{AreRising, IsAt};
ghost use Rattle.lwp_types.specs.Monitors.{without_conditions_of};
ghost use Rattle.lwp_types.specs.Conditions.{condition_numbers, condition_of, is_condition, without_condition};

use lwp_types::{Cid, CondRow, IdList, Mid, NoMemory, Sequence};
use std::alloc::Global;

// Where the condition stands. Numbers are given in birth order, so they rise.
#[inline(never)]
fn place_by_halves(rows: &[CondRow], cond: Cid) -> Option<usize>
    requires { AreRising rows.now }
    ensures none { IfNone result (count_by (is_condition cond) rows.now ≡ 0) }
    ensures some { IfSome result (IsAt cond rows.now) }
{
    let at = rows.partition_point(|row| row.number.number < cond.number);
    match rows.get(at) {
        Some(row) if row.number == cond => Some(at),
        _ => None,
    }
}

// Where the condition stands. Most ask for the last.
#[inline(always)]
fn place_of(rows: &[CondRow], cond: Cid) -> Option<usize>
    requires { AreRising rows.now }
    ensures none { IfNone result (count_by (is_condition cond) rows.now ≡ 0) }
    ensures some { IfSome result (IsAt cond rows.now) }
{
    match rows.last() {
        Some(last) if last.number == cond => Some(rows.len() - 1),
        _ => place_by_halves(rows, cond),
    }
}

// The row of the condition, if it is live.
pub fn row_of(rows: &[CondRow], cond: Cid) -> Option<CondRow>
    requires { AreRising rows.now }
    ensures { result ≡ condition_of rows.now cond }
{
    let at = place_of(rows, cond)?;
    Some(rows[at])
}

// Takes the condition out.
pub fn take_out(rows: &mut Vec<CondRow>, cond: Cid)
    requires { AreRising rows.old.items }
    ensures { rows.new.items ≡ without_condition cond rows.old.items }
{
    if let Some(at) = place_of(rows, cond) {
        rows.remove(at);
    }
}

// Takes all conditions of the monitor out. It goes over all: with the conditions listed by monitors too, one of an early
// monitor would move those of later ones.
pub fn take_out_of(rows: &mut Vec<CondRow>, mon: Mid)
    ensures { rows.new.items ≡ without_conditions_of mon rows.old.items }
{
    rows.retain(|row| row.mon != mon);
}

// Lists them.
pub fn list(alloc: Global, rows: &[CondRow]) -> Result<IdList, NoMemory>
    ensures { IfOk result (λ ids. ids ≡ condition_numbers rows.now) }
{
    let mut ids = IdList::new(alloc);
    for row in rows {
        ids.push(row.number.number)?;
    }
    Ok(ids)
}

// A copy of the rows.
pub fn copied(alloc: Global, rows: &[CondRow]) -> Result<Sequence<CondRow>, NoMemory>
    ensures { IfOk result (λ copies. copies ≡ rows.now) }
{
    let mut copies = Sequence::new(alloc);
    for row in rows {
        copies.push(*row)?;
    }
    Ok(copies)
}
