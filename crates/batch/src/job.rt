// What is done for each part.
ghost use Rattle.std.specs.Prelude.{◌≡◌, IfOk, List, ℕ};

use lwp_types::NoMemory;
use std::alloc::Global;

/// What is done for each part, by several threads at once. What it means is a function of the input.
pub trait Job: Sync {
    ghost means: { Self → List ℕ → List ℕ };

    /// The answer to an input.
    fn answer(&self, alloc: Global, input: &[u8]) -> Result<Vec<u8>, NoMemory>
        ensures { IfOk result (λ answer. answer.items ≡ means self.now input.now) };
}
