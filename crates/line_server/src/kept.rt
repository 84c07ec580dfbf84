// What a table keeps for a key.
ghost use Rattle.line_server.specs.Tables.{value_reply};
ghost use Rattle.lwp_types.specs.TextFields.{is_printable};
ghost use Rattle.std.specs.Prelude.{◌≡◌, ◌≤◌, length, IsTrue};

use lwp_types::Text;
use std::marker::Model;

/// A value, where the line has it that put it, seen as what a get of it is told.
#[derive(Drop)]
pub struct Kept<'s> {
    value: &'s [u8],
}

impl<'s> Model for Kept<'s> {
    ghost use Rattle.std.specs.Prelude.{ℕ, List, IsTrue};
    ghost use Rattle.line_server.specs.Tables.{value_reply};
    ghost use Rattle.lwp_types.specs.TextFields.{is_text};

    ghost Value = { List ℕ };

    ghost view = { λ k. value_reply k.value.now };

    ghost invariant = { λ k. IsTrue (is_text (value_reply k.value.now)) };
}

impl<'s> Kept<'s> {
    /// Keeps this value.
    pub fn new(value: &'s [u8]) -> Kept<'s>
        requires short { length value.now ≤ 237 }
        requires printable { IsTrue (is_printable value.now) }
        ensures { result ≡ value_reply value.now }
    {
        Kept { value }
    }

    /// An equal value. Its bytes are shared.
    pub fn again(&self) -> Kept<'s>
        ensures { result ≡ self.now }
    {
        Kept { value: self.value }
    }

    /// What a get is told.
    pub fn text(&self) -> Text<'s>
        ensures { result ≡ self.now }
    {
        if self.value.is_empty() {
            Text::lent(b"is")
        } else {
            Text::is(self.value)
        }
    }
}
