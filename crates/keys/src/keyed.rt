// What a key can be made of.
ghost use Rattle.std.specs.Prelude.{◌≡◌, ◌++◌, List, OnOk, ℕ};
ghost use Rattle.keys.specs.Numbers.{IsCode};

use crate::Key;
use std::alloc::AllocError;

/// A value that writes itself into a key as its numbers. They may leave out what is the same in all values that one key tells apart,
/// a program say: that is their `Home`.
pub trait Keyed: Drop {
    ghost Home: { Type 0 };

    ghost is_of: { Home → Self → Type 0 };

    ghost numbers: { Self → List ℕ };

    /// Writes the numbers. Where memory is refused, some may stand there.
    fn put(&self, key: &mut Key) -> Result<(), AllocError>
        ensures { OnOk result (key.new ≡ key.old ++ numbers self.now) };

    ghost told_apart: { (home : Home) → IsCode (is_of home) numbers };
}
