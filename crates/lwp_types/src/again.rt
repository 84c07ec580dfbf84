// What can be copied.
ghost use Rattle.std.specs.Prelude.{◌≡◌, IfOk};

use crate::NoMemory;

/// A value that can be copied, such as a body, a program or a machine: the copy then goes on by itself.
pub trait Again: Drop {
    /// An equal value, in memory of its own.
    fn again(&self) -> Result<Self, NoMemory>
        ensures { IfOk result (λ copy. copy ≡ self.now) };
}
