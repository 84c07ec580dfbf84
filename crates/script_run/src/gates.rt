// What a run's clients ask before each post, where nobody wants to be asked.
ghost use Rattle.std.specs.Prelude.{IfOk, length, ◌≡◌};

use event_gate::NoGate;
use lwp_types::NoMemory;
use std::alloc::Global;

/// A gate that does nothing for each of the sixteen clients that a script may have.
pub fn no_gates(alloc: Global) -> Result<Vec<NoGate>, NoMemory>
    ensures { IfOk result (λ gates. length gates.items ≡ 16) }
{
    let gates = [
        NoGate, NoGate, NoGate, NoGate, NoGate, NoGate, NoGate, NoGate, NoGate, NoGate, NoGate,
        NoGate, NoGate, NoGate, NoGate, NoGate,
    ];
    Ok(Vec::from_array(alloc, gates)?)
}
