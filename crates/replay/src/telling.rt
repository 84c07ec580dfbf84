// What a recorded line tells of takes.
ghost use Rattle.replay.specs.Recorded.{Agree};
ghost use Rattle.replay.specs.Verdict.{take_text, tells_take};
ghost use Rattle.trace_text.specs.Lines.{ended_line, posted_text};
ghost use Rattle.std.specs.Fmt.{decimal};
ghost use Rattle.std.specs.Prelude.{IfOk, OnOk, [], true, ◌+◌, ◌++◌, ◌∷◌, ◌↔◌, ◌≡◌, ◌≤◌};

use crate::compared::{begins_with, common_lines};
use lwp_types::{Line, NoMemory};
use std::alloc::Global;
use trace_text::{add_number, add_spaced_text, add_text};

// Who posted a line, which of that client's it is, its text, and a newline.
fn add_posted(out: &mut Vec<u8>, line: &Line) -> Result<(), NoMemory>
    ensures { OnOk result (out.new.items ≡ out.old.items ++ (posted_text line.now ++ 10 ∷ [])) }
{
    add_text(out, b" client ")?;
    add_number(out, u64::from(line.client))?;
    add_text(out, b" seq ")?;
    add_number(out, u64::from(line.seq))?;
    add_spaced_text(out, &line.text)?;
    add_text(out, b"\n")
}

// A word and a number.
fn add_numbered(out: &mut Vec<u8>, word: &[u8], number: u64) -> Result<(), NoMemory>
    ensures { OnOk result (out.new.items ≡ out.old.items ++ (word.now ++ decimal number)) }
{
    add_text(out, word)?;
    add_number(out, number)
}

// The line of a take of this line, with its newline, where the clock has ticked so often. It has room from the start.
pub(crate) fn take_line(
    alloc: Global,
    ticks: u64,
    event: u8,
    line: &Line,
) -> Result<Vec<u8>, NoMemory>
    requires { ticks ≤ 4294967295 }
    ensures { IfOk result (λ out. out.items ≡ ended_line (take_text ticks event line.now)) }
{
    let mut out = Vec::new(alloc);
    out.reserve(300)?;
    if event == 0 {
        add_numbered(&mut out, b"tick ", ticks + 1)?;
    } else {
        add_numbered(&mut out, b"event ", u64::from(event))?;
    }
    add_posted(&mut out, line)?;
    Ok(out)
}

// Whether the second byte leaves it open: where a thread speaks, a digit stands there.
fn may_tell(rest: &[u8]) -> bool
    ensures { tells_take rest.now ≡ true → result ≡ true }
{
    match rest.get(1) {
        Some(byte) => *byte == b'v' || *byte == b'i',
        None => false,
    }
}

// Whether this tells of a take.
#[inline(always)]
pub(crate) fn tells_take(rest: &[u8]) -> bool
    ensures { result ≡ tells_take rest.now }
{
    may_tell(rest) && (rest.starts_with(b"event ") || rest.starts_with(b"tick "))
}

// Whether the recorded lines begin with that of the take of this line.
pub(crate) fn tells_of(
    alloc: Global,
    ticks: u64,
    rest: &[u8],
    event: u8,
    line: &Line,
) -> Result<bool, NoMemory>
    requires { ticks ≤ 4294967295 }
    ensures { IfOk result
        (λ told. told ≡ true ↔ Agree 1 rest.now (ended_line (take_text ticks event line.now))) }
{
    let wanted = take_line(alloc, ticks, event, line)?;
    Ok(begins_with(rest, &wanted) || common_lines(&wanted, rest).lines != 0)
}

// The client that the line of a take names, after its third word. It is a guess, by which that client's line is looked at first.
// Where it is wrong, all are looked at.
pub(crate) fn named_client(rest: &[u8]) -> usize
    ensures { result ≤ 9999 }
{
    let mut i = 0;
    let mut spaces: usize = 0;
    while i < rest.len() && spaces < 3 {
        if rest[i] == b' ' {
            spaces += 1;
        }
        i += 1;
    }
    let mut client: usize = 0;
    while i < rest.len() && rest[i].is_ascii_digit() && client < 256 {
        client = client * 10 + usize::from(rest[i] - b'0');
        i += 1;
    }
    client
}
