// A script that comes in pieces.
ghost use Rattle.std.specs.Prelude.{◌≡◌, ◌++◌, ℕ, List, [], OnOk, OnErr, IfOk, IsErr, Err};
ghost use Rattle.script_text.specs.Grammar.{Spells};
ghost use Rattle.script_text.specs.Limits.{IsWithinLimits};
ghost use Rattle.script_text.specs.Pieces.{HasFailed, StandsAfter};
ghost use Rattle.script_text.specs.Spelling.{verdict, Gives, IsReadAs};
ghost use Rattle.script_text.specs.declared.reason.ReadErr.TheVariants as read_err;

use crate::Script;
use crate::lines::Lines;
use crate::reason::{ReadErr, Reason};
use lwp_types::NoMemory;
use std::alloc::Global;
use std::marker::Model;

/// The most bytes that a script has.
const MOST: usize = 16_777_216;

/// Reads a script in pieces, whatever they are. It is seen as its state: what it has of the text so far, or no more than that the
/// text is too long, or that memory was refused.
pub struct ScriptReader {
    lines: Lines,
    // How long the text is, unless it is too long.
    total: usize,
    is_large: bool,
    failed: bool,
}

// PROVER: written by hand, so that a function that drops a reader calls this instead of repeating its proof.
impl Drop for ScriptReader {
    fn drop(self) {
        let ScriptReader {
            lines: _,
            total: _,
            is_large: _,
            failed: _,
        } = self;
    }
}

impl Model for ScriptReader {
    ghost use Rattle.script_text.specs.Pieces.{Standing, standing};

    ghost Value = { Standing };

    ghost view = { λ r. standing r.failed r.is_large (record {
      total = r.total;
      lines = r.lines.reader;
      tail = r.lines.tail.items;
    }) };
}

impl ScriptReader {
    /// Nothing read.
    #[tactic(auto, unfolding(crate::specs::Kept::kept_bytes))]
    pub fn new(alloc: Global) -> ScriptReader
        ensures { StandsAfter result [] }
    {
        ScriptReader {
            lines: Lines::new(alloc),
            total: 0,
            is_large: false,
            failed: false,
        }
    }

    /// The text so far grows by the piece. After `NoMemory` every later `feed` and `finish` answers `NoMemory`.
    pub fn feed(&mut self, piece: &[u8]) -> Result<(), NoMemory>
        ensures ok { OnOk result
            ((text : List ℕ) → StandsAfter self.old text → StandsAfter self.new (text ++ piece.now)) }
        ensures err { OnErr result (HasFailed self.new) }
        ensures failed { HasFailed self.old → IsErr result }
    {
        if self.failed {
            return Err(NoMemory);
        }
        if self.is_large || piece.len() > MOST.saturating_sub(self.total) {
            self.is_large = true;
            return Ok(());
        }
        self.failed = true;
        self.lines.feed(piece)?;
        self.total += piece.len();
        self.failed = false;
        Ok(())
    }

    /// The script that the text so far spells, if it spells one, and else its first bad line.
    pub fn finish(self) -> Result<Script, ReadErr>
        // The first line that is bad, and the first reason that fits.
        ensures exact { (text : List ℕ) → StandsAfter self text → Gives (verdict text) result }
        // A script is read only where the text spells it.
        ensures spelt { (text : List ℕ) → StandsAfter self text → IfOk result (λ s. Spells text s) }
        // A script that is spelt is read, and no other.
        ensures only { (text : List ℕ) → StandsAfter self text → (s : Script) → Spells text s →
            IsReadAs s result }
        // A pod can be made for each script that is read.
        ensures within { (text : List ℕ) → StandsAfter self text → IfOk result IsWithinLimits }
        ensures failed { HasFailed self → result ≡ Err read_err.NoMemory }
    {
        let ScriptReader {
            lines,
            total: _,
            is_large,
            failed,
        } = self;
        if failed {
            return Err(ReadErr::NoMemory);
        }
        if is_large {
            return Err(ReadErr::Bad {
                line: 0,
                reason: Reason::TooLarge,
            });
        }
        lines.finish()
    }
}
