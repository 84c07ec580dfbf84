// Bytes that are remembered in proofs alone.
ghost use Rattle.std.specs.Prelude.{◌≡◌, ℕ, List, [], ◌++◌};
ghost use base.Fml.{ftrue};

use std::marker::Model;

/// Bytes, one after the other. They take no memory, and no code can read them.
#[derive(Drop)]
pub struct GhostBytes {
    pub ghost bytes: { List ℕ },
}

impl Model for GhostBytes {
    ghost also_owns = { λ _. ftrue };
}

/// Bytes that come next.
#[derive(Clone, Copy)]
pub struct More<'a> {
    pub bytes: &'a [u8],
}

impl GhostBytes {
    /// None.
    pub fn new() -> GhostBytes
        ensures { result.bytes ≡ [] }
    {
        GhostBytes {}
    }

    /// These and some more.
    pub fn then(&self, _more: &More<'_>) -> GhostBytes
        ensures { result.bytes ≡ self.now.bytes ++ _more.now.bytes.now }
    {
        GhostBytes {}
    }
}
