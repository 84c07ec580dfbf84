// What is told of a session.
ghost use Rattle.std.specs.Prelude.{◌≡◌, IfOk};
ghost use Rattle.lwp_serve.specs.Maker.Summary.{summary_text};

use crate::maker::write::{add_number, add_text};
use lwp_types::NoMemory;
use std::alloc::Global;

/// A session of a script that was made: the script's length in bytes, how many calls were made, how many posts were taken and how
/// many are left, the trace's length in bytes, and the status.
#[derive(Clone, Copy)]
pub struct Summary {
    pub script: u64,
    pub calls: u64,
    pub taken: u64,
    pub left: u64,
    pub trace: u64,
    pub status: u8,
}

/// The five lines that sum up a session.
#[tactic(auto, unfolding(crate::specs::Maker::Summary::summary_text))]
pub fn summary_lines(alloc: Global, summary: &Summary) -> Result<Vec<u8>, NoMemory>
    ensures { IfOk result (λ text. text.items ≡ summary_text summary.now) }
{
    let mut out = Vec::new(alloc);
    add_number(&mut out, b"script ", summary.script)?;
    add_number(&mut out, b"\ncalls ", summary.calls)?;
    add_number(&mut out, b"\ntaken ", summary.taken)?;
    add_number(&mut out, b" left ", summary.left)?;
    add_number(&mut out, b"\ntrace ", summary.trace)?;
    add_number(&mut out, b"\nstatus ", u64::from(summary.status))?;
    add_text(&mut out, b"\n")?;
    Ok(out)
}
