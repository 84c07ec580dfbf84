// Names and their numbers.
ghost use Rattle.std.specs.Prelude.{◌≡◌, ◌≤◌, IfOk, OnErr};

use crate::WordIndex;
use lists::TextList;
use lwp_types::{NoMemory, is_text};
use std::alloc::Global;
use std::marker::Model;

/// Names in the order in which they first appear, seen as their list. They lie in one piece of memory, each at its own length. A
/// name is found in the order of names, and not by a hash.
pub struct NameList {
    names: TextList,
    // The number of each.
    index: WordIndex,
}

impl Model for NameList {
    ghost use Rattle.std.specs.Prelude.{ℕ, List};
    ghost use Rattle.script_text.specs.Parts.{IsIndexed};

    ghost Value = { List (List ℕ) };

    ghost view = { λ l. l.names };

    ghost invariant = { λ l. IsIndexed l.names l.index };
}

// PROVER: written by hand, so that a function that drops a list calls this instead of repeating its proof.
impl Drop for NameList {
    fn drop(self) {
        let NameList { names: _, index: _ } = self;
    }
}

// A place as a number.
fn counted(place: usize) -> Result<u32, NoMemory>
    ensures value { IfOk result (λ n. n ≡ place) }
    ensures err { OnErr result (4294967296 ≤ place) }
{
    if place > 0xffff_ffff {
        return Err(NoMemory);
    }
    Ok(place as u32)
}

impl NameList {
    ghost use Rattle.std.specs.Prelude.{◌≡◌, ◌<◌, ◌≤◌, [], IfOk, IsTrue, OnOk, OnErr, length, false};
    ghost use Rattle.lwp_types.specs.TextFields.{is_text};
    ghost use Rattle.script_text.specs.Meaning.{contains_name, enter, place, place_of};
    ghost use Rattle.lists.specs.Texts.{text_at};

    /// No names.
    pub fn new(alloc: Global) -> NameList
        ensures { result ≡ [] }
    {
        NameList {
            names: TextList::new(alloc),
            index: WordIndex::new(alloc),
        }
    }

    /// How many names there are.
    pub fn len(&self) -> usize
        ensures { result ≡ length self.now }
    {
        self.names.len()
    }

    /// The bytes of the name at place `i`, counted from 0; none after the last.
    pub fn bytes(&self, i: usize) -> &[u8]
        ensures same { result.now ≡ text_at self.now i }
        ensures is_text { IsTrue (is_text result.now) }
    {
        self.names.bytes(i)
    }

    /// Whether the name is one of these.
    pub fn contains(&self, name: &[u8]) -> bool
        ensures { result ≡ contains_name self.now name.now }
    {
        self.index.get(name).is_some()
    }

    // Puts a word at the end that isn't empty and is none of these, if it is a text, and gives the number that it would have there.
    fn add(&mut self, name: &[u8]) -> Result<u32, NoMemory>
        requires some { 0 < length name.now }
        requires new { contains_name self.old name.now ≡ false }
        ensures names { OnOk result (self.new ≡ enter self.old name.now) }
        ensures number { IfOk result (λ n. n ≡ length self.old) }
    {
        let number = counted(self.names.len())?;
        if !is_text(name) {
            return Ok(number);
        }
        self.index.put(name, number)?;
        let Ok(()) = self.names.push(name) else {
            self.index.take(name);
            return Err(NoMemory);
        };
        Ok(number)
    }

    // Puts a word at the end that isn't empty, if it is new, and gives its number.
    #[inline(never)]
    fn note(&mut self, name: &[u8]) -> Result<u32, NoMemory>
        requires { 0 < length name.now }
        ensures names { OnOk result (self.new ≡ enter self.old name.now) }
        ensures number { IfOk result (λ n. n ≡ place (enter self.old name.now) name.now) }
    {
        match self.index.get(name) {
            Some(number) => Ok(number),
            None => self.add(name),
        }
    }

    /// Puts the name at the end, if it is new, and is a text that isn't empty, and gives its number.
    #[inline(always)]
    pub fn numbered(&mut self, name: &[u8]) -> Result<u32, NoMemory>
        ensures names { OnOk result (self.new ≡ enter self.old name.now) }
        ensures number { IfOk result (λ n. n ≡ place_of (enter self.old name.now) name.now) }
    {
        match name {
            [] => Ok(0),
            [_, ..] => self.note(name),
        }
    }

    /// Puts the name at the end, if it is new, and is a text that isn't empty.
    #[inline]
    pub fn enter(&mut self, name: &[u8]) -> Result<(), NoMemory>
        ensures { OnOk result (self.new ≡ enter self.old name.now) }
    {
        self.numbered(name)?;
        Ok(())
    }
}
