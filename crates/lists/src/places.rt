// What places have, of which some are empty.
ghost use Rattle.std.specs.Prelude.{◌≡◌, IfOk};
ghost use Rattle.lists.specs.Living.{living};

use lwp_types::{NoMemory, Sequence};
use std::alloc::Global;

/// A copy of what the places have, from the first on.
pub fn living<T: Copy>(alloc: Global, places: &[Option<T>]) -> Result<Sequence<T>, NoMemory>
    ensures { IfOk result (λ copies. copies ≡ living places.now) }
{
    let mut copies = Sequence::new(alloc);
    for place in places {
        if let Some(value) = place {
            copies.push(*value)?;
        }
    }
    Ok(copies)
}
