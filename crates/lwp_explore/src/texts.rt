// What the program says on standard error, and the status that it ends with.
ghost use Rattle.lwp_explore.specs.Texts.{end_text, fault_text, status_of};
ghost use Rattle.script_session.specs.declared.session.SessionEnd.TheVariants as end;
ghost use Rattle.std.specs.Prelude.{◌≡◌, ◌++◌, IfOk, OnOk};

use crate::ending::Ending;
use lwp_types::NoMemory;
use script_session::{SessionEnd, reason_text, status_of as status_of_end};
use script_text::Reason;
use std::alloc::Global;

fn add(out: &mut Vec<u8>, text: &[u8]) -> Result<(), NoMemory>
    ensures { OnOk result (out.new.items ≡ out.old.items ++ text.now) }
{
    out.extend_from_slice(text)?;
    Ok(())
}

/// The exit status.
pub fn status_of(ending: Ending) -> u8
    ensures { result ≡ status_of ending }
{
    match ending {
        Ending::Well => 0,
        Ending::Told => 109,
        Ending::Cut => 110,
        Ending::Missing => 111,
        Ending::Other(end) => status_of_end(end),
    }
}

// The line that is bad, and why.
fn script_text(alloc: Global, line: u32, reason: Reason) -> Result<Vec<u8>, NoMemory>
    ensures { IfOk result (λ out. out.items ≡ end_text (end.Script line reason)) }
{
    let mut out = Vec::new(alloc);
    add(&mut out, b"lwpexplore: script line ")?;
    add(&mut out, line.to_string(alloc)?.as_bytes())?;
    add(&mut out, b": ")?;
    add(&mut out, reason_text(reason))?;
    add(&mut out, b"\n")?;
    Ok(out)
}

// What is said of an end that no search came to.
fn end_text(alloc: Global, end: SessionEnd) -> Result<Vec<u8>, NoMemory>
    ensures { IfOk result (λ out. out.items ≡ end_text end) }
{
    let mut out = Vec::new(alloc);
    match end {
        SessionEnd::Usage => add(
            &mut out,
            b"lwpexplore: usage: ends [CORES] | trace K [CORES] | line LINE [CORES]\n",
        )?,
        SessionEnd::ReadFault => add(&mut out, b"lwpexplore: read fault\n")?,
        SessionEnd::WriteFault => add(&mut out, b"lwpexplore: write fault\n")?,
        SessionEnd::Script { line, reason } => return script_text(alloc, line, reason),
        SessionEnd::NoMemory => add(&mut out, b"lwpexplore: no memory\n")?,
        SessionEnd::Input { .. }
        | SessionEnd::Ended(_)
        | SessionEnd::Stuck
        | SessionEnd::Spent
        | SessionEnd::Reported
        | SessionEnd::Same
        | SessionEnd::Differs { .. } => {}
    }
    Ok(out)
}

/// What is said on standard error; no bytes, where nothing is.
pub fn fault_text(alloc: Global, ending: Ending) -> Result<Vec<u8>, NoMemory>
    ensures { IfOk result (λ out. out.items ≡ fault_text ending) }
{
    match ending {
        Ending::Other(end) => end_text(alloc, end),
        Ending::Well | Ending::Told | Ending::Cut | Ending::Missing => Ok(Vec::new(alloc)),
    }
}
