// A key of a table, and what the table keeps for it.
ghost use Rattle.line_server.specs.Keys.{entry_numbers};
ghost use Rattle.line_server.specs.Tables.{key_cmp, value_reply};
ghost use Rattle.lwp_types.specs.TextFields.{is_printable};
ghost use Rattle.std.specs.Prelude.{◌≡◌, ◌++◌, ◌≤◌, length, IsTrue, OnOk};

use crate::kept::Kept;
use keys::Key;
use lwp_types::Text;
use std::alloc::AllocError;
use std::cmp::Ordering;
use std::marker::Model;

/// A key, where the line has it that put it first, and what is kept for it.
#[derive(Drop)]
pub struct Entry<'s> {
    key: &'s [u8],
    kept: Kept<'s>,
}

impl<'s> Model for Entry<'s> {
    ghost use Rattle.std.specs.Prelude.{ℕ, List};

    ghost Value = { List ℕ × List ℕ };

    ghost view = { λ e. (e.key.now, e.kept) };
}

impl<'s> Entry<'s> {
    /// A key with this value.
    pub fn new(key: &'s [u8], value: &'s [u8]) -> Entry<'s>
        requires short { length value.now ≤ 237 }
        requires printable { IsTrue (is_printable value.now) }
        ensures { result ≡ (key.now, value_reply value.now) }
    {
        Entry {
            key,
            kept: Kept::new(value),
        }
    }

    /// An equal entry. Its bytes are shared.
    pub fn again(&self) -> Entry<'s>
        ensures { result ≡ self.now }
    {
        Entry {
            key: self.key,
            kept: self.kept.again(),
        }
    }

    /// How the key stands to these bytes.
    #[inline(always)]
    pub fn order(&self, key: &[u8]) -> Ordering
        ensures { result ≡ key_cmp self.now.0 key.now }
    {
        self.key.cmp(key)
    }

    /// What a get of the key is told.
    pub fn text(&self) -> Text<'s>
        ensures { result ≡ self.now.1 }
    {
        self.kept.text()
    }

    /// Writes the key, and what a get of it is told, each after its length.
    pub fn put_numbers(&self, key: &mut Key) -> Result<(), AllocError>
        ensures { OnOk result (key.new ≡ key.old ++ entry_numbers self.now) }
    {
        key.put(self.key.len() as u64)?;
        key.put_each(self.key)?;
        let text = self.kept.text();
        key.put(text.len() as u64)?;
        let (lead, rest) = text.parts();
        key.put_each(lead)?;
        key.put_each(rest)
    }
}
