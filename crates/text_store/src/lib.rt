//! Texts that are computed while a pod runs.
//!
//! A text is lent, and its bytes have to outlive the session; a body can't lend its own, since whoever polls it has borrowed it for that one
//! call. A `TextStore` is made before the session and lent to the bodies. What a body has put together in a buffer of its own is copied
//! there, and stays in its place until the store goes. So a store grows with each text, and is for what is said rarely, such as results:
//! for a number there is `Text::thread`, which takes no memory.
//!
//! It stands on `lwp_types` for texts, and on the kit's `bumpalo`, which lends out memory through a `&`.
#![tactic(auto)]

ghost use Rattle.std.specs.Prelude.{IfOk, IfSome, IsSome, IsTrue, ◌↔◌, ◌≡◌};
ghost use Rattle.lwp_types.specs.TextFields.{is_text};

use bumpalo::Bump;
use lwp_types::{NoMemory, Text, is_text};
use std::alloc::Global;

/// The bytes of texts, each in a place where it stays.
#[derive(Drop)]
pub struct TextStore {
    bytes: Bump,
}

impl TextStore {
    /// A store without a text. It takes no memory yet.
    pub fn new(alloc: Global) -> TextStore {
        TextStore {
            bytes: Bump::new(alloc),
        }
    }

    /// The text of these bytes, which are copied and kept for as long as the store is lent. None, and nothing is kept, where they are more
    /// than a text may have, or one isn't printable.
    pub fn keep(&self, bytes: &[u8]) -> Result<Option<Text<'_>>, NoMemory>
        ensures fits { IfOk result (λ kept. IsSome kept ↔ IsTrue (is_text bytes.now)) }
        ensures same { IfOk result (λ kept. IfSome kept (λ text. text ≡ bytes.now)) }
    {
        if !is_text(bytes) {
            return Ok(None);
        }
        match self.bytes.try_alloc_slice_copy(bytes) {
            Ok(kept) => Ok(Some(Text::lent(kept))),
            Err(_) => Err(NoMemory),
        }
    }
}
