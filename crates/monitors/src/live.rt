// The numbers of the live monitors, in birth order.
ghost use Rattle.std.specs.Prelude.{◌≡◌, IfNone, IfOk, IfSome};
ghost use Rattle.lwp_types.specs.State.{member, times_in, without};
ghost use Rattle.monitors.specs.Kept.{AreRising, IsAt};

use lwp_types::{IdList, Mid, NoMemory};
use std::alloc::Global;

// Where the monitor stands. Numbers are given in birth order, so they rise.
#[inline(never)]
fn place_by_halves(live: &[Mid], mon: Mid) -> Option<usize>
    requires { AreRising live.now }
    ensures none { IfNone result (times_in live.now mon ≡ 0) }
    ensures some { IfSome result (IsAt mon live.now) }
{
    let at = live.partition_point(|other| other.number < mon.number);
    match live.get(at) {
        Some(other) if *other == mon => Some(at),
        _ => None,
    }
}

// Where the monitor stands. Most ask for the last.
#[inline(always)]
fn place_of(live: &[Mid], mon: Mid) -> Option<usize>
    requires { AreRising live.now }
    ensures none { IfNone result (times_in live.now mon ≡ 0) }
    ensures some { IfSome result (IsAt mon live.now) }
{
    match live.last() {
        Some(last) if *last == mon => Some(live.len() - 1),
        _ => place_by_halves(live, mon),
    }
}

// Whether the monitor is one of them.
pub fn has(live: &[Mid], mon: Mid) -> bool
    requires { AreRising live.now }
    ensures { result ≡ member mon live.now }
{
    place_of(live, mon).is_some()
}

// Takes the monitor out.
pub fn take_out(live: &mut Vec<Mid>, mon: Mid)
    requires { AreRising live.old.items }
    ensures { live.new.items ≡ without mon live.old.items }
{
    if let Some(at) = place_of(live, mon) {
        live.remove(at);
    }
}

// Lists them.
pub fn list(alloc: Global, live: &[Mid]) -> Result<IdList, NoMemory>
    ensures { IfOk result (λ ids. ids ≡ live.now) }
{
    let mut ids = IdList::new(alloc);
    for mon in live {
        ids.push(mon.number)?;
    }
    Ok(ids)
}
