// Numbers under words.
ghost use Rattle.std.specs.Prelude.{◌≡◌, None, OnErr, OnOk, Some};
ghost use Rattle.script_text.specs.WordIndex.{Puts, bare, number_of};

use crate::packed_words::packed;
use crate::word_digits::Digits;
use lwp_types::NoMemory;
use std::alloc::Global;
use std::collections::BTreeMap;
use std::marker::Model;

// The greatest number that is small.
const SHORT: u128 = 0xffff_ffff_ffff_ffff;

/// Words with a number each, which `number_of` finds.
pub struct WordIndex {
    alloc: Global,
    // By the number that the word's bytes are the digits of, if it is so small.
    short: BTreeMap<Digits, u32>,
    // By the others of these numbers, which take longer to compare.
    wide: BTreeMap<u128, u32>,
    // The words that have no number.
    long: BTreeMap<Vec<u8>, u32>,
}

// PROVER: written by hand, so that a function that drops an index calls this instead of repeating its proof.
impl Drop for WordIndex {
    fn drop(self) {
        let WordIndex {
            alloc: _,
            short: _,
            wide: _,
            long: _,
        } = self;
    }
}

impl Model for WordIndex {
    ghost use Rattle.script_text.specs.WordIndex.{Numbered, entries_by_key};

    ghost Value = { Numbered };

    ghost view = { λ i. record {
      short = i.short.entries;
      wide = i.wide.entries;
      long = entries_by_key i.long.entries;
    } };
}

impl WordIndex {
    /// No words, and no memory.
    pub fn new(alloc: Global) -> WordIndex
        ensures { result ≡ bare }
    {
        WordIndex {
            alloc,
            short: BTreeMap::new(alloc),
            wide: BTreeMap::new(alloc),
            long: BTreeMap::new(alloc),
        }
    }

    /// The word's number, if it has one.
    pub fn get(&self, word: &[u8]) -> Option<u32>
        ensures { result ≡ number_of self.now word.now }
    {
        let found = match packed(word) {
            Some(digits) if digits <= SHORT => self.short.get(&Digits::new(digits as u64)),
            Some(digits) => self.wide.get(&digits),
            None => self.long.get(word),
        };
        found.copied()
    }

    /// The word has this number from now on.
    pub fn put(&mut self, word: &[u8], number: u32) -> Result<(), NoMemory>
        ensures ok { OnOk result (Puts self.old self.new word.now (Some number)) }
        ensures err { OnErr result (self.new ≡ self.old) }
    {
        match packed(word) {
            Some(digits) if digits <= SHORT => {
                self.short.insert(Digits::new(digits as u64), number)?;
            }
            Some(digits) => {
                self.wide.insert(digits, number)?;
            }
            None => {
                let mut bytes = Vec::new(self.alloc);
                bytes.extend_from_slice(word)?;
                self.long.insert(bytes, number)?;
            }
        }
        Ok(())
    }

    /// The word has no number any more.
    pub fn take(&mut self, word: &[u8])
        ensures { Puts self.old self.new word.now None }
    {
        match packed(word) {
            Some(digits) if digits <= SHORT => {
                self.short.remove(&Digits::new(digits as u64));
            }
            Some(digits) => {
                self.wide.remove(&digits);
            }
            None => {
                self.long.remove(word);
            }
        }
    }
}
