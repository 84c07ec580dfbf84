// All sessions of a script, over bytes.
ghost use Rattle.loqzemar.specs.Explored.{TellsExplore, is_core_limit, is_kind_number};
ghost use Rattle.loqzemar.specs.Sessions.{is_told};
ghost use Rattle.lwp_explore.specs.Words.{MayBe};
ghost use Rattle.lwp_explore.specs.declared.words.Command.TheVariants as command;
ghost use Rattle.script_text.specs.Spelling.{verdict};
ghost use Rattle.std.specs.Prelude.{◌≡◌, ◌≢◌, ◌&&◌, ◌≤◌, [], IfSome, false, is_some, true};

use crate::sessions::tell;
use crate::status::{BAD_NUMBER, NO_MEMORY};
use c_sessions::{SessionRecord, explore};
use lwp_explore::Command;
use std::alloc::Global;

// So many cores, if so many may be kept.
fn core_limit(cores: u64) -> Option<u32>
    ensures value { is_some result ≡ is_core_limit cores }
    ensures same { IfSome result (λ limit. limit ≡ cores) }
    ensures within { IfSome result (λ limit. (1 ≤ limit) × (limit ≤ 1000000)) }
{
    if cores < 1 || 1_000_000 < cores {
        return None;
    }
    Some(cores as u32)
}

// The number of a kind, if one may have it.
fn kind_number(kind: u64) -> Option<u32>
    ensures value { is_some result ≡ is_kind_number kind }
    ensures same { IfSome result (λ number. number ≡ kind) }
    ensures within { IfSome result (λ number. 1 ≤ number) }
{
    if kind < 1 || 4_294_967_295 < kind {
        return None;
    }
    Some(kind as u32)
}

// Goes through all sessions of a script, and tells what is asked for.
fn explore_and_tell(
    alloc: Global,
    script: &[u8],
    asked: Command,
    line: &[u8],
    out: &mut [u8],
    len: &mut usize,
    session: &mut SessionRecord,
) -> u32
    requires { MayBe asked }
    ensures limit { result ≢ 8 }
    ensures told { is_told result ≡ true
        → TellsExplore (verdict script.now) asked line.now out.old out.new len.new session.new result }
    ensures same { is_told result ≡ false
        → (out.new ≡ out.old) × (len.new ≡ len.old) × (session.new ≡ session.old) }
{
    match explore(alloc, script, asked, line, out.len()) {
        Ok(told) => tell(&told, out, len, session),
        Err(_) => NO_MEMORY,
    }
}

/// Goes through all sessions of a script, with at most so many cores kept, from 1 to 1,000,000: how many cores and steps there are, and
/// each kind of end, with its cores and the way to the first of them. The status of the record is that of `lwpexplore ends`.
#[unsafe(no_mangle)]
pub extern "C" fn loq_explore_ends(
    alloc: Global,
    script: &[u8],
    cores: u64,
    out: &mut [u8],
    len: &mut usize,
    session: &mut SessionRecord,
) -> u32
    ensures range { is_core_limit cores ≡ false → result ≡ 8 }
    ensures limit { is_core_limit cores ≡ true → result ≢ 8 }
    ensures told { is_told result ≡ true
        → TellsExplore (verdict script.now) (command.Ends cores) [] out.old out.new len.new session.new result }
    ensures same { is_told result ≡ false
        → (out.new ≡ out.old) × (len.new ≡ len.old) × (session.new ≡ session.old) }
{
    let Some(cores) = core_limit(cores) else {
        return BAD_NUMBER;
    };
    let asked = Command::Ends { cores };
    explore_and_tell(alloc, script, asked, &[], out, len, session)
}

/// Goes through all sessions of a script in the same way, and tells the trace of the way to the first core of a kind, by its number from
/// 1 to 4,294,967,295.
#[unsafe(no_mangle)]
pub extern "C" fn loq_explore_trace(
    alloc: Global,
    script: &[u8],
    kind: u64,
    cores: u64,
    out: &mut [u8],
    len: &mut usize,
    session: &mut SessionRecord,
) -> u32
    ensures range { (is_kind_number kind && is_core_limit cores) ≡ false → result ≡ 8 }
    ensures limit { (is_kind_number kind && is_core_limit cores) ≡ true → result ≢ 8 }
    ensures told { is_told result ≡ true
        → TellsExplore (verdict script.now) (command.Trace kind cores) [] out.old out.new len.new session.new result }
    ensures same { is_told result ≡ false
        → (out.new ≡ out.old) × (len.new ≡ len.old) × (session.new ≡ session.old) }
{
    let (Some(kind), Some(cores)) = (kind_number(kind), core_limit(cores)) else {
        return BAD_NUMBER;
    };
    let asked = Command::Trace { kind, cores };
    explore_and_tell(alloc, script, asked, &[], out, len, session)
}

/// Goes through the sessions of a script as far as the first step that writes a line, and tells how long the way there is, or that no
/// session writes it.
#[unsafe(no_mangle)]
pub extern "C" fn loq_explore_line(
    alloc: Global,
    script: &[u8],
    line: &[u8],
    cores: u64,
    out: &mut [u8],
    len: &mut usize,
    session: &mut SessionRecord,
) -> u32
    ensures range { is_core_limit cores ≡ false → result ≡ 8 }
    ensures limit { is_core_limit cores ≡ true → result ≢ 8 }
    ensures told { is_told result ≡ true
        → TellsExplore (verdict script.now) (command.Line cores) line.now out.old out.new len.new session.new result }
    ensures same { is_told result ≡ false
        → (out.new ≡ out.old) × (len.new ≡ len.old) × (session.new ≡ session.old) }
{
    let Some(cores) = core_limit(cores) else {
        return BAD_NUMBER;
    };
    let asked = Command::Line { cores };
    explore_and_tell(alloc, script, asked, line, out, len, session)
}
