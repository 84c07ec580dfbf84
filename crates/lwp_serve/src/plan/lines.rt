// The lines of a script's clients that are left after a run.
ghost use Rattle.pod_runner.specs.Trace.{left_counts_from};
ghost use Rattle.std.specs.Prelude.{◌≡◌, ◌≤◌, IfOk, length};

use event_gate::Gate;
use lwp_types::NoMemory;
use std::alloc::Global;

/// How many lines of each client a gate has left.
pub fn counts_left<'s, G: Gate<'s>>(
    alloc: Global,
    clients: &[u8],
    gate: &G,
) -> Result<Vec<u32>, NoMemory>
    requires { length clients.now ≤ 256 }
    ensures { IfOk result (λ counts. counts.items ≡ left_counts_from 0 clients.now (G.stock gate.now)) }
{
    let mut counts = Vec::new(alloc);
    for client in 0..clients.len() {
        counts.push(gate.left(client as u8))?;
    }
    Ok(counts)
}
