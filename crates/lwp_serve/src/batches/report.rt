// What is said of each part, and the report of them all.
ghost use Rattle.std.specs.Prelude.{◌≡◌, ◌++◌, IfOk, OnOk, codes, decimal, map, vec_items};
ghost use Rattle.lwp_serve.specs.Batches.Report.{bad_text, counts_text, lines_from};

use lwp_types::NoMemory;
use script_session::reason_text;
use script_text::Reason;
use std::alloc::Global;

/// The numbers of a session: the status of its end, how many calls were made, how many lines were taken and how many are left, and
/// how many bytes its trace has.
#[derive(Clone, Copy)]
pub(crate) struct Counts {
    pub(crate) status: u8,
    pub(crate) calls: u64,
    pub(crate) taken: u64,
    pub(crate) left: u64,
    pub(crate) trace: u64,
}

fn add_text(out: &mut Vec<u8>, text: &[u8]) -> Result<(), NoMemory>
    ensures { OnOk result (out.new.items ≡ out.old.items ++ text.now) }
{
    out.extend_from_slice(text)?;
    Ok(())
}

// A text, and a number after it.
fn add_number(alloc: Global, out: &mut Vec<u8>, text: &[u8], number: u64) -> Result<(), NoMemory>
    ensures { OnOk result (out.new.items ≡ out.old.items ++ (text.now ++ decimal number)) }
{
    add_text(out, text)?;
    add_text(out, number.to_string(alloc)?.as_bytes())
}

/// What is said of a session by its numbers.
#[tactic(auto, unfolding(crate::specs::Batches::Report::counts_text))]
pub(crate) fn counts_text(alloc: Global, counts: &Counts) -> Result<Vec<u8>, NoMemory>
    ensures { IfOk result (λ out. out.items ≡ counts_text counts.now) }
{
    let mut out = Vec::new(alloc);
    add_number(alloc, &mut out, b"status ", u64::from(counts.status))?;
    add_number(alloc, &mut out, b" calls ", counts.calls)?;
    add_number(alloc, &mut out, b" taken ", counts.taken)?;
    add_number(alloc, &mut out, b" left ", counts.left)?;
    add_number(alloc, &mut out, b" trace ", counts.trace)?;
    Ok(out)
}

/// What is said of bytes that are no script.
#[tactic(auto, unfolding(crate::specs::Batches::Report::bad_text))]
pub(crate) fn bad_text(alloc: Global, line: u32, reason: Reason) -> Result<Vec<u8>, NoMemory>
    ensures { IfOk result (λ out. out.items ≡ bad_text line reason) }
{
    let mut out = Vec::new(alloc);
    add_number(alloc, &mut out, b"status 103 line ", u64::from(line))?;
    add_text(&mut out, b" ")?;
    add_text(&mut out, reason_text(reason))?;
    Ok(out)
}

// The line of the part of this number.
fn add_line(alloc: Global, out: &mut Vec<u8>, number: u64, said: &[u8]) -> Result<(), NoMemory>
    ensures { OnOk result
        (out.new.items
        ≡ out.old.items ++ (decimal number ++ (codes " " ++ (said.now ++ codes "\n")))) }
{
    add_text(out, number.to_string(alloc)?.as_bytes())?;
    add_text(out, b" ")?;
    add_text(out, said)?;
    add_text(out, b"\n")
}

/// The lines of parts, by what is said of each.
pub(crate) fn lines_of(alloc: Global, said: &[Vec<u8>]) -> Result<Vec<u8>, NoMemory>
    ensures { IfOk result (λ out. out.items ≡ lines_from 0 (map vec_items said.now)) }
{
    let mut out = Vec::new(alloc);
    for number in 0..said.len() {
        add_line(alloc, &mut out, number as u64, &said[number])?;
    }
    Ok(out)
}
