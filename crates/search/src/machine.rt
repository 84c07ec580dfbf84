// What is searched.
ghost use Rattle.std.specs.Prelude.{◌≡◌, ◌<◌, Some, IfOk, IsSome, OnOk, length, slice_get};
ghost use Rattle.search.specs.Moves.{Moves, IsPath, KeysDiffer, walk};

use crate::NoMemory;

/// A machine that goes from core to core by steps. `moves` says where its steps lead, and `core` where it stands.
///
/// Two machines with one core and the same `moves` go on alike, whatever else their fields hold. A machine that answered `NoMemory`
/// stands anywhere, and is of no more use. The law `keys_differ` speaks of the cores alone that steps lead to; `holds_of_reached`
/// (`specs/Reach.antt`) is for bounds that only these keep.
pub trait Machine: Drop {
    ghost Core: { Type 0 };

    ghost moves: { Self → Moves Core };

    ghost core: { Self → Core };

    /// A machine of its own that stands where this one does.
    fn again(&self) -> Result<Self, NoMemory>
        ensures same { IfOk result (λ copy. moves copy ≡ moves self.now) }
        ensures there { IfOk result (λ copy. core copy ≡ core self.now) };

    /// How many steps lead on from where it stands.
    fn steps(&self) -> Result<u32, NoMemory>
        ensures { IfOk result (λ n. n ≡ length ((moves self.now).after (core self.now))) };

    /// Goes one of these steps, by its number from 0. Answers whether it is a step that is looked for.
    fn step(&mut self, number: u32) -> Result<bool, NoMemory>
        requires { number < length ((moves self.old).after (core self.old)) }
        ensures same { OnOk result (moves self.new ≡ moves self.old) }
        ensures there { OnOk result (slice_get ((moves self.old).after (core self.old)) number ≡ Some (core self.new)) }
        ensures marked { IfOk result (λ marked. marked ≡ (moves self.old).marks (core self.old) number) };

    /// Writes the bytes that encode the core, in place of what the buffer held.
    fn key(&self, key: &mut Vec<u8>) -> Result<(), NoMemory>
        ensures { OnOk result (key.new.items ≡ (moves self.now).key (core self.now)) };

    /// The kind of the core, if it is one to be told of: an end, or a fault.
    fn kind(&self) -> Result<Option<u32>, NoMemory>
        ensures { IfOk result (λ kind. kind ≡ (moves self.now).kind (core self.now)) };

    ghost keys_differ: { (machine : Self) → KeysDiffer (moves machine) };
}

/// A copy of a machine that stands at its first core, gone along a path. It takes one step for each of the path's.
pub fn go<M: Machine>(machine: &M, path: &[u32]) -> Result<M, NoMemory>
    requires begins { M.core machine.now ≡ (M.moves machine.now).first }
    requires leads { IsSome (walk (M.moves machine.now).after (M.moves machine.now).first path.now) }
    ensures same { IfOk result (λ gone. M.moves gone ≡ M.moves machine.now) }
    ensures there { IfOk result (λ gone. IsPath (M.moves machine.now) path.now (M.core gone)) }
{
    let mut gone = machine.again()?;
    for step in path {
        gone.step(*step)?;
    }
    Ok(gone)
}
