// What a thread runs.
ghost use Rattle.std.specs.Prelude.{◌≡◌, ◌<◌, ℕ, List, length, slice_get, Some, IfOk, IsTrue, OnOk};
ghost use Rattle.lwp_types.specs.Names.{Names, KeepsLengths};
ghost use Rattle.lwp_types.specs.TextFields.{is_text};
ghost use Rattle.lwp_types.specs.declared.call.Call.{Call};
ghost use Rattle.lwp_types.specs.declared.call.Answer.{Answer};

use crate::{Answer, Call, Env, NoMemory};

/// A thread's code as a state machine. What it means is a function: from what it holds, the names and the answer to its last
/// call to its next call, what it holds then, and the names then. The first answer is `Value(0)`.
pub trait Body: Drop {
    ghost next: { Self → Names → Answer → Call × Self × Names };
}

// PROVER: apart from `Body`, which has no lifetime, so that a law over every body names none.
/// A body that does what it means, with texts that are lent for `'s`.
pub trait Polled<'s>: Body {
    /// Sets the next call, whatever stood there. After `NoMemory` the body isn't polled again.
    fn poll(&mut self, env: &mut Env, got: &Answer<'s>, call: &mut Call<'s>) -> Result<(), NoMemory>
        ensures { OnOk result (Self.next self.old env.old got.now ≡ (call.new, self.new, env.new)) };

    ghost keeps_lengths: { (body : Self) (names : Names) (got : Answer)
        → KeepsLengths names (Self.next body names got).2 };
}

/// The procedures that threads are created with: their names, and the bodies that they begin as.
pub trait Program<B: Body>: Drop {
    ghost bodies: { Self → List B };

    ghost proc_names: { Self → List (List ℕ) };

    /// How many procedures there are.
    fn procs(&self) -> u32
        ensures { result ≡ length (bodies self.now) };

    /// The bytes of the name of a procedure.
    fn proc_name(&self, proc: u32) -> &[u8]
        requires { proc < length (bodies self.now) }
        ensures same { slice_get (proc_names self.now) proc ≡ Some result.now }
        ensures is_text { IsTrue (is_text result.now) };

    /// A body at the start of a procedure.
    fn body_of(&self, proc: u32) -> Result<B, NoMemory>
        requires { proc < length (bodies self.now) }
        ensures { IfOk result (λ body. slice_get (bodies self.now) proc ≡ Some body) };

    ghost as_many: { (program : Self) → length (proc_names program) ≡ length (bodies program) };
}
