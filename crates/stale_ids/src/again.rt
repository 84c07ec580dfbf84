// What the registry asks of values that are to be copied with it.
ghost use Rattle.std.specs.Prelude.{◌≡◌, IfOk};

use crate::no_memory::NoMemory;

/// A value that can be copied.
pub trait Again: Drop {
    /// An equal value, in memory of its own.
    fn again(&self) -> Result<Self, NoMemory>
        ensures { IfOk result (λ copy. copy ≡ self.now) };
}
