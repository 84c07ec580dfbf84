// What the program says on standard error.
ghost use Rattle.std.specs.Prelude.{◌≡◌, ◌++◌, IfOk, OnOk};
ghost use Rattle.script_session.specs.Texts.{fault_text, reason_text};
ghost use Rattle.script_session.specs.declared.session.SessionEnd.TheVariants as end;

use crate::session::SessionEnd;
use lwp_types::NoMemory;
use script_text::Reason;
use std::alloc::Global;

/// The name of a reason.
pub fn reason_text(reason: Reason) -> &'static [u8]
    ensures { result.now ≡ reason_text reason }
{
    match reason {
        Reason::TooLarge => b"TooLarge",
        Reason::Unended => b"Unended",
        Reason::Bytes => b"Bytes",
        Reason::Header => b"Header",
        Reason::Pod => b"Pod",
        Reason::Limit => b"Limit",
        Reason::Client => b"Client",
        Reason::Native => b"Native",
        Reason::Proc => b"Proc",
        Reason::Post => b"Post",
        Reason::Again => b"Again",
        Reason::Statement => b"Statement",
        Reason::Missing => b"Missing",
    }
}

fn add(out: &mut Vec<u8>, text: &[u8]) -> Result<(), NoMemory>
    ensures { OnOk result (out.new.items ≡ out.old.items ++ text.now) }
{
    out.extend_from_slice(text)?;
    Ok(())
}

// The line that is bad, and why.
fn script_text(alloc: Global, line: u32, reason: Reason) -> Result<Vec<u8>, NoMemory>
    ensures { IfOk result (λ out. out.items ≡ fault_text (end.Script line reason)) }
{
    let mut out = Vec::new(alloc);
    add(&mut out, b"lwpserve: script line ")?;
    add(&mut out, line.to_string(alloc)?.as_bytes())?;
    add(&mut out, b": ")?;
    add(&mut out, reason_text(reason))?;
    add(&mut out, b"\n")?;
    Ok(out)
}

// The part that is bad.
fn input_text(alloc: Global, part: u32) -> Result<Vec<u8>, NoMemory>
    ensures { IfOk result (λ out. out.items ≡ fault_text (end.Input part)) }
{
    let mut out = Vec::new(alloc);
    add(&mut out, b"lwpserve: input part ")?;
    add(&mut out, part.to_string(alloc)?.as_bytes())?;
    add(&mut out, b"\n")?;
    Ok(out)
}

/// What is said of how a session ended; no bytes, where nothing is.
pub fn fault_text(alloc: Global, end: &SessionEnd) -> Result<Vec<u8>, NoMemory>
    ensures { IfOk result (λ out. out.items ≡ fault_text end.now) }
{
    let mut out = Vec::new(alloc);
    match *end {
        SessionEnd::Ended(_)
        | SessionEnd::Stuck
        | SessionEnd::Spent
        | SessionEnd::Reported
        | SessionEnd::Same
        | SessionEnd::Differs { .. } => {}
        SessionEnd::Usage => add(
            &mut out,
            b"lwpserve: usage: run [TURNS] | plan [TURNS] | make SEED THREADS LINES\n",
        )?,
        SessionEnd::ReadFault => add(&mut out, b"lwpserve: read fault\n")?,
        SessionEnd::WriteFault => add(&mut out, b"lwpserve: write fault\n")?,
        SessionEnd::Script { line, reason } => return script_text(alloc, line, reason),
        SessionEnd::Input { part } => return input_text(alloc, part),
        SessionEnd::NoMemory => add(&mut out, b"lwpserve: no memory\n")?,
    }
    Ok(out)
}
