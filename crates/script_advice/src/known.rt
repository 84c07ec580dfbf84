// The procedures that a text declares.
ghost use Rattle.std.specs.Prelude.{◌≡◌};
ghost use Rattle.script_text.specs.Declaring.{native_on, only_name, proc_on, spaced_word};

use crate::lines::first_line;
use crate::told::without_return;
use lwp_types::NoMemory;
use script_lines::{Phrase, is_name, reach};
use script_text::NameList;
use std::alloc::Global;
use std::marker::Model;

/// The procedures that lines declare, wherever they stand: those of statements, and the built-in ones.
pub struct Known {
    pub procs: NameList,
    pub natives: NameList,
}

impl Model for Known {
    ghost use Rattle.script_text.specs.declared.reader.Declared.{Declared};

    ghost Value = { Declared };

    ghost view = { λ k. record { procs = k.procs; natives = k.natives } };
}

// PROVER: written by hand, so that a function that drops these calls this instead of repeating its proof.
impl Drop for Known {
    fn drop(self) {
        let Known {
            procs: _,
            natives: _,
        } = self;
    }
}

// The word if it is a name, and else the empty one.
fn only_name(word: &[u8]) -> &[u8]
    ensures { result.now ≡ only_name word.now }
{
    if is_name(word) { word } else { &[] }
}

/// The procedure of statements that a line declares, or the empty word.
pub fn proc_on(line: &[u8]) -> &[u8]
    ensures { result.now ≡ proc_on line.now }
{
    match line {
        [b'p', b'r', b'o', b'c', b' ', name @ ..] => only_name(name),
        _ => &[],
    }
}

// The first word, if a space follows it.
fn spaced_word(words: &[u8]) -> &[u8]
    ensures { result.now ≡ spaced_word words.now }
{
    let (word, rest) = words.split_at(reach(b' ', words));
    if rest.is_empty() { &[] } else { word }
}

/// The built-in procedure that a line declares, or the empty word.
pub fn native_on(line: &[u8]) -> &[u8]
    ensures { result.now ≡ native_on line.now }
{
    match line {
        [b'n', b'a', b't', b'i', b'v', b'e', b' ', words @ ..] => only_name(spaced_word(words)),
        _ => &[],
    }
}

impl Known {
    ghost use Rattle.std.specs.Prelude.{◌≡◌, OnOk, IfOk};
    ghost use Rattle.script_text.specs.Grammar.{has, is_declared, nothing};
    ghost use Rattle.script_advice.specs.Errors.{declared_after, declared_by};

    fn new(alloc: Global) -> Known
        ensures { result ≡ nothing }
    {
        Known {
            procs: NameList::new(alloc),
            natives: NameList::new(alloc),
        }
    }

    // Notes what a line declares, whether or not a carriage return ends it.
    fn note(&mut self, line: &[u8]) -> Result<(), NoMemory>
        ensures { OnOk result (self.new ≡ declared_after self.old line.now) }
    {
        let line = without_return(line);
        self.procs.enter(proc_on(line))?;
        self.natives.enter(native_on(line))
    }

    /// What the lines of a text declare.
    pub fn by(alloc: Global, text: &[u8]) -> Result<Known, NoMemory>
        ensures { IfOk result (λ known. known ≡ declared_by text.now) }
    {
        let mut known = Known::new(alloc);
        let mut rest = text;
        while let Some((line, after)) = first_line(rest) {
            known.note(line)?;
            rest = after;
        }
        known.note(rest)?;
        Ok(known)
    }

    // Whether the procedure is declared, as one of statements or, if that will do, as any.
    fn has(&self, any: bool, name: &[u8]) -> bool
        ensures { result ≡ has self.now any name.now }
    {
        self.procs.contains(name) || (any && self.natives.contains(name))
    }

    /// Whether the procedure is declared that a line starts, if it starts one.
    pub fn allows(&self, phrase: &Phrase<'_>) -> bool
        ensures { result ≡ is_declared self.now phrase.now }
    {
        if phrase.op.starts() {
            self.has(phrase.op.starts_any(), phrase.procedure)
        } else {
            true
        }
    }
}
