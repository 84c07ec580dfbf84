// The input of a replay is read, and its script found in it.
ghost use Rattle.batch.specs.Parts.{LiesIn, line_length};
ghost use Rattle.lwp_serve.specs.Replaying.Found.{IsInput, IsNoInput};
ghost use Rattle.lwp_serve.specs.Replaying.Input.{length_told, script_after_line, script_in, size_by};
ghost use Rattle.std.specs.Prelude.{IfErr, IfOk, IfSome, OnOk, length, ◌≡◌, ◌≤◌};
ghost use Rattle.streams.specs.Limited.{IsReadUp};
ghost use Rattle.streams.specs.Streams.{sides};

use batch::Part;
use lwp_types::Source;
use script_lines::number_at;
use script_session::{SCRIPT_MAX, SessionEnd};
use std::alloc::Global;
use streams::{ReadFailure, read_up_to};

/// The most bytes that an input has.
pub const REPLAY_MAX: usize = 268_435_456;

/// What was read, and where the script lies in it.
#[derive(Drop)]
pub struct Input {
    pub text: Vec<u8>,
    pub part: Part,
}

// How many bytes come before the first newline; all, where there is none.
fn line_length(text: &[u8]) -> usize
    ensures value { result ≡ line_length text.now }
    ensures within { result ≤ length text.now }
{
    for (i, byte) in text.iter().enumerate() {
        if *byte == b'\n' {
            return i;
        }
    }
    text.len()
}

// How many bytes a script has, by a number that was written, if one was.
fn size_by(number: Option<u32>) -> Option<usize>
    ensures { result ≡ size_by number }
{
    let size = number? as usize;
    if size > SCRIPT_MAX {
        return None;
    }
    Some(size)
}

// How many bytes a line says that the script after it has.
fn length_told(line: &[u8]) -> Option<usize>
    ensures value { result ≡ length_told line.now }
    ensures most { IfSome result (λ size. size ≤ 16777216) }
{
    match line {
        [b'r', b'e', b'p', b'l', b'a', b'y', b' ', word @ ..] => size_by(number_at(word)),
        _ => None,
    }
}

// Where the script lies, if the first line says so, ends, and has so many bytes after it.
fn script_after_line(text: &[u8]) -> Option<Part>
    ensures value { result ≡ script_after_line text.now }
    ensures lies { IfSome result (LiesIn text.now) }
{
    let line = line_length(text);
    let size = length_told(&text[..line])?;
    if text.len() - line <= size {
        return None;
    }
    let from = line + 1;
    Some(Part {
        from,
        to: from + size,
    })
}

// Where the script of an input lies.
fn script_in(text: &[u8]) -> Option<Part>
    ensures value { result ≡ script_in text.now }
    ensures lies { IfSome result (LiesIn text.now) }
{
    if text.len() > REPLAY_MAX {
        return None;
    }
    script_after_line(text)
}

/// The input that a source holds, which is read to its end or one byte past what an input may have.
pub fn read_input<S: Source>(alloc: Global, source: &mut S) -> Result<Input, SessionEnd>
    ensures input { IfOk result (λ input. IsInput (S.left source.old) input.text.items input.part) }
    ensures within { IfOk result (λ input. LiesIn input.text.items input.part) }
    ensures up { OnOk result (IsReadUp 268435457 (S.left source.old) (S.left source.new)) }
    ensures same { OnOk result (S.faults source.new ≡ S.faults source.old) }
    ensures none { IfErr result (λ e. IsNoInput (sides S.left S.faults source.old source.new) e) }
{
    let text = match read_up_to(alloc, REPLAY_MAX + 1, source) {
        Ok(text) => text,
        Err(ReadFailure::Fault) => return Err(SessionEnd::ReadFault),
        Err(ReadFailure::NoMemory) => return Err(SessionEnd::NoMemory),
    };
    match script_in(&text) {
        Some(part) => Ok(Input { text, part }),
        None => Err(SessionEnd::Input { part: 0 }),
    }
}
