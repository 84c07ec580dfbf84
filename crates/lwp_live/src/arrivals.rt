// Where the bytes of an input come from while the pod runs.
ghost use Rattle.std.specs.Prelude.{◌≡◌, ◌++◌, List, ℕ, IfNone, IfSome};

use std::sync::Wait;

/// Bytes that come in pieces while the pod runs.
pub trait Arrivals: Drop {
    /// The bytes that it has given, in order.
    ghost given: { Self → List ℕ };

    /// Waits for the next bytes, and gives them. `None` where no more will come.
    fn next<R: Wait>(&mut self, rt: &R) -> Option<Vec<u8>>
        ensures some { IfSome result (λ bytes. given self.new ≡ given self.old ++ bytes.items) }
        ensures none { IfNone result (given self.new ≡ given self.old) };
}

/// What is called when the pod has come to its end, so that anyone who waits for more of the input goes on without it.
pub trait HangUp {
    fn hang_up<R: Wait>(&self, rt: &R);
}
