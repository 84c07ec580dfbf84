// Values that can be copied, though they may not be `Copy`.
ghost use Rattle.std.specs.Prelude.{◌≡◌};

use lwp_types::Line;

/// A value that can be copied, though it may not be `Copy`.
pub trait Again {
    /// A copy of it.
    fn again(&self) -> Self
        ensures { result ≡ self.now };
}

impl Again for u32 {
    fn again(&self) -> u32 {
        *self
    }
}

impl<'s> Again for Line<'s> {
    fn again(&self) -> Line<'s> {
        self.again()
    }
}
