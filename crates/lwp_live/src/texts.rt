// What the program says on standard error.
ghost use Rattle.lwp_live.specs.Texts.{fault_text};
ghost use Rattle.script_session.specs.declared.session.SessionEnd.TheVariants as end;
ghost use Rattle.std.specs.Prelude.{◌≡◌, ◌++◌, IfOk, OnOk};

use lwp_types::NoMemory;
use script_session::{SessionEnd, reason_text};
use script_text::Reason;
use std::alloc::Global;

fn add(out: &mut Vec<u8>, text: &[u8]) -> Result<(), NoMemory>
    ensures { OnOk result (out.new.items ≡ out.old.items ++ text.now) }
{
    out.extend_from_slice(text)?;
    Ok(())
}

// The line that is bad, and why.
fn script_text(alloc: Global, line: u32, reason: Reason) -> Result<Vec<u8>, NoMemory>
    ensures { IfOk result (λ out. out.items ≡ fault_text (end.Script line reason)) }
{
    let mut out = Vec::new(alloc);
    add(&mut out, b"lwplive: script line ")?;
    add(&mut out, line.to_string(alloc)?.as_bytes())?;
    add(&mut out, b": ")?;
    add(&mut out, reason_text(reason))?;
    add(&mut out, b"\n")?;
    Ok(out)
}

// The part of an input that is bad.
fn input_text(alloc: Global, part: u32) -> Result<Vec<u8>, NoMemory>
    ensures { IfOk result (λ out. out.items ≡ fault_text (end.Input part)) }
{
    let mut out = Vec::new(alloc);
    add(&mut out, b"lwplive: input part ")?;
    add(&mut out, part.to_string(alloc)?.as_bytes())?;
    add(&mut out, b"\n")?;
    Ok(out)
}

/// What is said of how a session ended; no bytes, where the pod has ended or no more calls are made.
pub fn fault_text(alloc: Global, end: &SessionEnd) -> Result<Vec<u8>, NoMemory>
    ensures { IfOk result (λ out. out.items ≡ fault_text end.now) }
{
    let mut out = Vec::new(alloc);
    match *end {
        SessionEnd::Usage => add(
            &mut out,
            b"lwplive: usage: SCRIPT [CALLS] [--record BASE]\n",
        )?,
        SessionEnd::ReadFault => add(&mut out, b"lwplive: read fault\n")?,
        SessionEnd::WriteFault => add(&mut out, b"lwplive: write fault\n")?,
        SessionEnd::Script { line, reason } => return script_text(alloc, line, reason),
        SessionEnd::Input { part } => return input_text(alloc, part),
        SessionEnd::NoMemory => add(&mut out, b"lwplive: no memory\n")?,
        SessionEnd::Ended(_)
        | SessionEnd::Stuck
        | SessionEnd::Spent
        | SessionEnd::Reported
        | SessionEnd::Same
        | SessionEnd::Differs { .. } => {}
    }
    Ok(out)
}
