// Cycles among places, each of which leads to one place at most.
ghost use Rattle.lwp_explore.specs.Cycles.{AreCycles, AreMarked, AreWithin, LeadsFar, jump};
ghost use Rattle.std.specs.Prelude.{◌≡◌, IfOk, length, map, option_and_then};

use lwp_types::NoMemory;
use std::alloc::Global;

// Where each place leads over twice as many.
fn twice(alloc: Global, jumps: &[Option<usize>]) -> Result<Vec<Option<usize>>, NoMemory>
    requires { AreWithin jumps.now }
    ensures { IfOk result (λ more. more.items ≡ map (option_and_then (jump jumps.now)) jumps.now) }
{
    let mut more = Vec::new(alloc);
    for place in 0..jumps.len() {
        let next = match jumps[place] {
            Some(next) => jumps[next],
            None => None,
        };
        more.push(next)?;
    }
    Ok(more)
}

// Where each leads over more of them than there are.
fn far_jumps(alloc: Global, nexts: &[Option<usize>]) -> Result<Vec<Option<usize>>, NoMemory>
    requires { AreWithin nexts.now }
    ensures { IfOk result (λ jumps. LeadsFar nexts.now jumps.items) }
{
    let half = nexts.len() / 2;
    let mut far = 1;
    let mut jumps = Vec::new(alloc);
    jumps.extend_from_slice(nexts)?;
    while far <= half {
        jumps = twice(alloc, &jumps)?;
        far += far;
    }
    twice(alloc, &jumps)
}

// The places to which some lead.
fn ends_of(alloc: Global, jumps: &[Option<usize>]) -> Result<Vec<bool>, NoMemory>
    requires { AreWithin jumps.now }
    ensures { IfOk result (λ marks. AreMarked jumps.now (length jumps.now) marks.items) }
{
    let mut marks = Vec::from_elem(alloc, false, jumps.len())?;
    for place in 0..jumps.len() {
        if let Some(end) = jumps[place] {
            marks[end] = true;
        }
    }
    Ok(marks)
}

/// Of each place whether it is in a cycle: to these, and to no others, some place leads over more than there are. A place is looked at as
/// often as their number can be halved.
pub fn in_cycles(alloc: Global, nexts: &[Option<usize>]) -> Result<Vec<bool>, NoMemory>
    requires { AreWithin nexts.now }
    ensures { IfOk result (λ marks. AreCycles nexts.now marks.items) }
{
    let jumps = far_jumps(alloc, nexts)?;
    ends_of(alloc, &jumps)
}
