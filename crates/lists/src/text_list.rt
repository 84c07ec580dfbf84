// Texts, one after the other.
ghost use Rattle.std.specs.Prelude.{◌≡◌, ◌≤◌, ◌+◌, length};
ghost use Rattle.lists.specs.Texts.{text_in};

use crate::copies::cloned;
use lwp_types::{NoMemory, Text};
use std::alloc::Global;
use std::marker::Model;

/// Where a text lies.
#[derive(Clone, Copy)]
pub struct Span {
    pub start: u32,
    pub len: u32,
}

/// Texts in order, seen as their list. They lie in one piece of memory.
#[derive(Drop)]
pub struct TextList {
    bytes: Vec<u8>,
    spans: Vec<Span>,
}

impl Model for TextList {
    ghost use Rattle.std.specs.Prelude.{ℕ, List, length, IsTrue};
    ghost use Rattle.std.specs.List.{AllByRecursion};
    ghost use Rattle.lwp_types.specs.TextFields.{is_text};
    ghost use Rattle.lists.specs.Texts.{texts_in, AreWithin};

    ghost Value = { List (List ℕ) };

    ghost view = { λ t. texts_in t.bytes.items t.spans.items };

    ghost invariant = { λ t. AreWithin (length t.bytes.items) t.spans.items
        × AllByRecursion (λ x. IsTrue (is_text x)) (texts_in t.bytes.items t.spans.items) };
}

fn text_in(bytes: &[u8], span: Span) -> &[u8]
    requires { span.start + span.len ≤ length bytes.now }
    ensures { result.now ≡ text_in bytes.now span }
{
    let start = span.start as usize;
    &bytes[start..start + span.len as usize]
}

impl TextList {
    ghost use Rattle.std.specs.Prelude.{◌≡◌, [], ◌∷◌, ◌++◌, length, IfOk, IsTrue, OnErr, OnOk};
    ghost use Rattle.lwp_types.specs.TextFields.{is_text};
    ghost use Rattle.lists.specs.Texts.{text_at};

    /// No texts.
    pub fn new(alloc: Global) -> TextList
        ensures { result ≡ [] }
    {
        TextList {
            bytes: Vec::new(alloc),
            spans: Vec::new(alloc),
        }
    }

    /// Equal texts, in memory of their own.
    pub fn again(&self) -> Result<TextList, NoMemory>
        ensures { IfOk result (λ copy. copy ≡ self.now) }
    {
        Ok(TextList {
            bytes: cloned(&self.bytes)?,
            spans: cloned(&self.spans)?,
        })
    }

    /// How many texts there are.
    pub fn len(&self) -> usize
        ensures { result ≡ length self.now }
    {
        self.spans.len()
    }

    /// The bytes of the text at place `i`, counted from 0; none past the last.
    pub fn bytes(&self, i: usize) -> &[u8]
        ensures same { result.now ≡ text_at self.now i }
        ensures is_text { IsTrue (is_text result.now) }
    {
        match self.spans.get(i) {
            Some(span) => text_in(&self.bytes, *span),
            None => &[],
        }
    }

    /// The text at place `i`, counted from 0; the empty one past the last.
    pub fn get(&self, i: usize) -> Text<'_>
        ensures { result ≡ text_at self.now i }
    {
        Text::lent(self.bytes(i))
    }

    /// One text more, at the end.
    pub fn push(&mut self, text: &[u8]) -> Result<(), NoMemory>
        requires { IsTrue (is_text text.now) }
        ensures ok { OnOk result (self.new ≡ self.old ++ text.now ∷ []) }
        ensures err { OnErr result (self.new ≡ self.old) }
    {
        let start = self.bytes.len();
        if start > 0xffff_ffff {
            return Err(NoMemory);
        }
        let len = text.len() as u32;
        self.bytes.extend_from_slice(text)?;
        self.spans.push(Span {
            start: start as u32,
            len,
        })?;
        Ok(())
    }

    /// One text more, at the end, in whatever parts it lies.
    pub fn push_text(&mut self, text: &Text) -> Result<(), NoMemory>
        ensures ok { OnOk result (self.new ≡ self.old ++ text.now ∷ []) }
        ensures err { OnErr result (self.new ≡ self.old) }
    {
        let start = self.bytes.len();
        if start > 0xffff_ffff {
            return Err(NoMemory);
        }
        let (lead, rest) = text.parts();
        let len = (lead.len() + rest.len()) as u32;
        self.bytes.extend_from_slice(lead)?;
        self.bytes.extend_from_slice(rest)?;
        self.spans.push(Span {
            start: start as u32,
            len,
        })?;
        Ok(())
    }
}
