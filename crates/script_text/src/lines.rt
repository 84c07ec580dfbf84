// The lines of a text that comes in pieces.
ghost use Rattle.std.specs.Prelude.{◌≡◌, ◌<◌, ◌+◌, ◌∷◌, ◌++◌, ◌&&◌, [], fold, length, IfSome, IfNone, OnOk};
ghost use Rattle.lwp_types.specs.TextFields.{is_printable};
ghost use Rattle.script_text.specs.Kept.{kept_bytes};
ghost use Rattle.script_text.specs.Pieces.{IsTail};
ghost use Rattle.script_text.specs.Spelling.{Gives, line_cut};
ghost use Rattle.script_text.specs.Track.{start, step, answer_at};

use crate::Script;
use crate::reader::Reader;
use crate::reason::ReadErr;
use lwp_types::NoMemory;
use memchr::memchr;
use script_lines::is_printable;
use std::alloc::Global;

// How many bytes are kept of a line that hasn't ended. No good line has as many, so what a longer line says, and which
// procedure it declares, is settled by these.
const KEPT: usize = 1024;

/// What is known of the lines that have ended, and what is kept of the bytes after the last newline.
pub struct Lines {
    pub alloc: Global,
    pub reader: Reader,
    pub tail: Vec<u8>,
}

// PROVER: written by hand, so that a function that drops these calls this instead of repeating its proof.
impl Drop for Lines {
    fn drop(self) {
        let Lines {
            alloc: _,
            reader: _,
            tail: _,
        } = self;
    }
}

// The first line and the bytes after its end.
fn first_line(text: &[u8]) -> Option<(&[u8], &[u8])>
    ensures some { IfSome result
        (λ x. line_cut text.now ≡ (x.0.now ∷ (line_cut x.1.now).0, (line_cut x.1.now).1)) }
    ensures shorter { IfSome result (λ x. length x.0.now + (length x.1.now + 1) ≡ length text.now) }
    ensures none { IfNone result (line_cut text.now ≡ ([], text.now)) }
{
    match memchr(b'\n', text) {
        None => None,
        Some(end) => Some((&text[..end], &text[end + 1..])),
    }
}

fn are_printable(front: &[u8], back: &[u8]) -> bool
    ensures { result ≡ (is_printable front.now && is_printable back.now) }
{
    is_printable(front) && is_printable(back)
}

// One more part of a line: what is kept of the line.
fn keep(tail: &mut Vec<u8>, part: &[u8]) -> Result<(), NoMemory>
    ensures { OnOk result (tail.new.items ≡ kept_bytes (tail.old.items ++ part.now)) }
{
    let room = KEPT.saturating_sub(tail.len()).min(part.len());
    let (near, far) = part.split_at(room);
    tail.extend_from_slice(near)?;
    let end = tail.len().min(KEPT);
    let is_clear = are_printable(&tail[end..], far);
    tail.truncate(end);
    if !is_clear {
        tail.push(0)?;
    }
    Ok(())
}

impl Lines {
    /// Nothing read.
    pub fn new(alloc: Global) -> Lines
        ensures reader { result.reader ≡ start }
        ensures tail { result.tail.items ≡ [] }
    {
        Lines {
            alloc,
            reader: Reader::new(alloc),
            tail: Vec::new(alloc),
        }
    }

    // One more line, which has ended; what is kept after the last newline is its first part.
    fn line(&mut self, line: &[u8]) -> Result<(), NoMemory>
        ensures reader { OnOk result
            (self.new.reader ≡ step self.old.reader (self.old.tail.items ++ line.now)) }
        ensures tail { OnOk result (self.new.tail.items ≡ []) }
    {
        if self.tail.is_empty() {
            return self.reader.line(self.alloc, line);
        }
        keep(&mut self.tail, line)?;
        self.reader.line(self.alloc, &self.tail)?;
        self.tail.clear();
        Ok(())
    }

    /// The lines of a piece, and what is kept of the bytes after the last of them.
    pub fn feed(&mut self, piece: &[u8]) -> Result<(), NoMemory>
        ensures reader { OnOk result
            (IsTail self.old.tail.items →
            self.new.reader
            ≡ fold step self.old.reader (line_cut (self.old.tail.items ++ piece.now)).0) }
        ensures tail { OnOk result
            (IsTail self.old.tail.items →
            self.new.tail.items ≡ kept_bytes (line_cut (self.old.tail.items ++ piece.now)).1) }
    {
        let mut rest = piece;
        while let Some((line, after)) = first_line(rest) {
            self.line(line)?;
            rest = after;
        }
        keep(&mut self.tail, rest)?;
        Ok(())
    }

    /// What the lines and the tail answer.
    pub fn finish(self) -> Result<Script, ReadErr>
        ensures { Gives (answer_at self.reader self.tail.items) result }
    {
        let Lines {
            alloc: _,
            reader,
            tail,
        } = self;
        reader.finish(&tail)
    }
}
