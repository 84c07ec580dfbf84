// A short printable text, which is lent.
ghost use Rattle.std.specs.Prelude.{◌≡◌, ◌≤◌, ◌↔◌, ◌+◌, ◌++◌, ◌⊎◌, [], codes, length, take, IsTrue, IsSome, IfSome, IfNone};
ghost use Rattle.std.specs.Str.{bytes_eq};
ghost use Rattle.lwp_types.specs.TextFields.{is_printable, is_text};

use crate::words::{Digits, Words};
use std::marker::Model;

/// The greatest length of a text, in bytes.
pub const TEXT_MAX: usize = 240;

// A view, since a value with room for the bytes is cleared and moved whole wherever it goes; and not counted, since to clone a
// counted pointer may be refused memory, which a reply, a delivery and a death never are.
/// At most 240 bytes, each from a space to `~`, seen as the list of them. They are lent for `'s`, but for a short lead: so a text is as
/// small as a few numbers, and a letter never takes memory.
#[derive(Drop)]
pub struct Text<'s> {
    words: Words<'s>,
}

impl<'s> Model for Text<'s> {
    ghost use Rattle.std.specs.Prelude.{ℕ, List, IsTrue};
    ghost use Rattle.lwp_types.specs.TextFields.{is_text, words_bytes, AreFew};

    ghost Value = { List ℕ };

    ghost view = { λ t. words_bytes t.words };

    ghost invariant = { λ t. AreFew t.words × IsTrue (is_text (words_bytes t.words)) };
}

fn is_printable(bytes: &[u8]) -> bool
    ensures { result ≡ is_printable bytes.now }
{
    bytes.iter().all(|b| 32 <= *b && *b <= 126)
}

/// Whether these bytes are a text: at most 240, each from a space to `~`.
pub fn is_text(bytes: &[u8]) -> bool
    ensures { result ≡ is_text bytes.now }
{
    bytes.len() <= TEXT_MAX && is_printable(bytes)
}

fn cells_of(bytes: &[u8]) -> [u8; 20]
    requires { length bytes.now ≤ 20 }
    ensures { take (length bytes.now) result ≡ bytes.now }
{
    let mut cells = [0u8; 20];
    cells[..bytes.len()].copy_from_slice(bytes);
    cells
}

// Bytes, from `at` on. Answers where they end.
fn put_bytes(row: &mut [u8], at: usize, bytes: &[u8]) -> usize
    requires { at + length bytes.now ≤ length row.old }
    ensures len { length row.new ≡ length row.old }
    ensures end { result ≡ at + length bytes.now }
    ensures bytes { take result row.new ≡ take at row.old ++ bytes.now }
{
    let end = at + bytes.len();
    row[at..end].copy_from_slice(bytes);
    end
}

impl<'s> Text<'s> {
    /// No bytes.
    pub fn empty() -> Text<'s>
        ensures { result ≡ [] }
    {
        Text {
            words: Words::Lent(&[]),
        }
    }

    /// A text of these bytes, unless they are more than 240 or one isn't printable.
    pub fn new(bytes: &'s [u8]) -> Option<Text<'s>>
        ensures fits { IsSome result ↔ IsTrue (is_text bytes.now) }
        ensures same { IfSome result (λ t. t ≡ bytes.now) }
    {
        if !is_text(bytes) {
            return None;
        }
        Some(Text::lent(bytes))
    }

    /// The text of these bytes.
    pub fn lent(bytes: &'s [u8]) -> Text<'s>
        requires { IsTrue (is_text bytes.now) }
        ensures { result ≡ bytes.now }
    {
        Text {
            words: Words::Lent(bytes),
        }
    }

    /// The text that tells this value: `is`, and the value.
    pub fn is(value: &'s [u8]) -> Text<'s>
        requires { IsTrue (is_text (codes "is " ++ value.now)) }
        ensures { result ≡ codes "is " ++ value.now }
    {
        Text {
            words: Words::Is(value),
        }
    }

    /// The text that names a thread: `t`, and the digits of its number.
    pub fn thread(digits: &[u8]) -> Text<'s>
        requires few { length digits.now ≤ 20 }
        requires is_text { IsTrue (is_text (codes "t" ++ digits.now)) }
        ensures { result ≡ codes "t" ++ digits.now }
    {
        Text {
            words: Words::Thread(Digits {
                len: digits.len() as u8,
                bytes: cells_of(digits),
            }),
        }
    }

    /// A copy of it. Bytes that are lent are not copied.
    pub fn again(&self) -> Text<'s>
        ensures { result ≡ self.now }
    {
        Text { words: self.words }
    }

    /// How many bytes it has.
    pub fn len(&self) -> usize
        ensures { result ≡ length self.now }
    {
        let (lead, rest) = self.parts();
        lead.len() + rest.len()
    }

    /// The bytes, in two parts.
    pub fn parts(&self) -> (&'static [u8], &[u8])
        ensures same { result.0.now ++ result.1.now ≡ self.now }
        ensures is_text { IsTrue (is_text self.now) }
    {
        match &self.words {
            Words::Lent(bytes) => (&[], *bytes),
            Words::Is(value) => (b"is ", *value),
            Words::Thread(digits) => (b"t", &digits.bytes[..digits.len as usize]),
        }
    }

    /// The bytes, if they are lent in one piece. Else they begin as a value does that is told, or as the name of a thread.
    pub fn plain(&self) -> Option<&'s [u8]>
        ensures same { IfSome result (λ bytes. bytes.now ≡ self.now) }
        ensures none { IfNone result
            ((take 3 self.now ≡ codes "is ") ⊎ (take 1 self.now ≡ codes "t")) }
        ensures is_text { IsTrue (is_text self.now) }
    {
        match self.words {
            Words::Lent(bytes) => Some(bytes),
            Words::Is(_) => None,
            Words::Thread(_) => None,
        }
    }

    /// The bytes, in one piece. A text that tells a value or names a thread lies in two parts, and has no room of its own to put them
    /// together: that is done in `room`, over whatever was there. Any other text is lent as it is.
    pub fn bytes<'b>(&'b self, room: &'b mut [u8; TEXT_MAX]) -> &'b [u8]
        ensures same { result.now ≡ self.now }
        ensures is_text { IsTrue (is_text self.now) }
    {
        let (lead, rest) = self.parts();
        if lead.is_empty() {
            return rest;
        }
        let next = put_bytes(room, 0, lead);
        let end = put_bytes(room, next, rest);
        &room[..end]
    }

    /// Whether these are its bytes.
    pub fn equals(&self, bytes: &[u8]) -> bool
        ensures { result ≡ bytes_eq self.now bytes.now }
    {
        let (lead, rest) = self.parts();
        match bytes.strip_prefix(lead) {
            Some(tail) => tail == rest,
            None => false,
        }
    }
}
