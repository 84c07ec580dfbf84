// A script and recorded bytes are put before a replay, and what is to be written of its verdict is worked out.
ghost use Rattle.batch.specs.Parts.{LiesIn};
ghost use Rattle.lwp_serve.specs.Replaying.Found.{IsNotTold, IsTold, IsToldOf};
ghost use Rattle.lwp_serve.specs.Replaying.Texts.{differs_text, end_of, got_word, line_text, same_text, text_of};
ghost use Rattle.script_body.specs.Posted.{IsPosted};
ghost use Rattle.script_session.specs.SoFar.{opening_names};
ghost use Rattle.script_text.specs.Limits.{IsWithinLimits};
ghost use Rattle.std.specs.Prelude.{IfErr, IfOk, OnOk, codes, decimal, option_map, ◌++◌, ◌≡◌};

use batch::Part;
use lwp_types::{Env, NoMemory};
use pod_runner::TakeList;
use replay::{Verdict, replay};
use script_body::ScriptProgram;
use script_session::SessionEnd;
use script_text::{ReadErr, Script, read_script};
use std::alloc::Global;

/// What is told of a replay: how its session ends, the takes and calls of the verdict, and what is to be written.
#[derive(Drop)]
pub struct Told {
    pub end: SessionEnd,
    pub taken: TakeList,
    pub turns: u64,
    pub text: Vec<u8>,
}

fn add_text(out: &mut Vec<u8>, text: &[u8]) -> Result<(), NoMemory>
    ensures { OnOk result (out.new.items ≡ out.old.items ++ text.now) }
{
    out.extend_from_slice(text)?;
    Ok(())
}

// A word, and a number after it, on a line of their own.
fn add_number(alloc: Global, out: &mut Vec<u8>, word: &[u8], number: u64) -> Result<(), NoMemory>
    ensures { OnOk result
        (out.new.items ≡ out.old.items ++ (word.now ++ (decimal number ++ codes "\n"))) }
{
    add_text(out, word)?;
    add_text(out, number.to_string(alloc)?.as_bytes())?;
    add_text(out, b"\n")
}

// A word, and a line after it, if there is one.
fn add_line(out: &mut Vec<u8>, word: &[u8], line: &Option<Vec<u8>>) -> Result<(), NoMemory>
    ensures { OnOk result
        (out.new.items ≡ out.old.items ++ line_text word.now (option_map (λ v. v.items) line.now)) }
{
    add_text(out, word)?;
    if let Some(line) = line {
        add_text(out, b" ")?;
        add_text(out, line)?;
    }
    add_text(out, b"\n")
}

fn got_word(ended: bool) -> &'static [u8]
    ensures { result.now ≡ got_word ended }
{
    if ended { b"got" } else { b"cut" }
}

// What is written of a trace.
#[tactic(auto, unfolding(crate::specs::Replaying::Texts::same_text))]
fn same_text(alloc: Global, lines: u64) -> Result<Vec<u8>, NoMemory>
    ensures { IfOk result (λ out. out.items ≡ same_text lines) }
{
    let mut out = Vec::new(alloc);
    add_number(alloc, &mut out, b"same ", lines)?;
    Ok(out)
}

// What is written of bytes that are none.
#[tactic(auto, unfolding(crate::specs::Replaying::Texts::differs_text))]
fn differs_text(
    alloc: Global,
    line: u64,
    want: &Option<Vec<u8>>,
    got: &Option<Vec<u8>>,
    ended: bool,
) -> Result<Vec<u8>, NoMemory>
    ensures { IfOk result
        (λ out.
        out.items
        ≡ differs_text line (option_map (λ v. v.items) want.now)
        (option_map (λ v. v.items) got.now) ended) }
{
    let mut out = Vec::new(alloc);
    add_number(alloc, &mut out, b"differs ", line)?;
    add_line(&mut out, b"want", want)?;
    add_line(&mut out, got_word(ended), got)?;
    Ok(out)
}

// What is written of a verdict.
fn text_of(alloc: Global, verdict: &Verdict) -> Result<Vec<u8>, NoMemory>
    ensures { IfOk result (λ out. out.items ≡ text_of verdict.now) }
{
    match verdict {
        Verdict::Same { lines } => same_text(alloc, *lines),
        Verdict::Differs {
            line,
            want,
            got,
            ended,
        } => differs_text(alloc, *line, want, got, *ended),
    }
}

// How a session with this verdict ends.
fn end_of(verdict: &Verdict) -> SessionEnd
    ensures { result ≡ end_of verdict.now }
{
    match verdict {
        Verdict::Same { .. } => SessionEnd::Same,
        Verdict::Differs { line, .. } => SessionEnd::Differs { line: *line },
    }
}

// A script's names, which mean nothing yet.
fn names_for(alloc: Global, script: &Script) -> Result<Env, NoMemory>
    requires { IsWithinLimits script.now }
    ensures { IfOk result (λ env. env ≡ opening_names script.now) }
{
    let threads = script.names.threads.len() as u32;
    let mons = script.names.mons.len() as u32;
    let conds = script.names.conds.len() as u32;
    Env::new(alloc, threads, mons, conds)
}

/// What is told of a script and recorded bytes.
pub fn told_by(
    alloc: Global,
    turns: u64,
    script: &Script,
    recorded: &[u8],
) -> Result<Told, NoMemory>
    requires within { IsWithinLimits script.now }
    requires posted { IsPosted script.now }
    ensures { IfOk result
        (λ told. IsTold turns script.now recorded.now told.end told.text.items told.taken told.turns) }
{
    let env = names_for(alloc, script)?;
    let program = ScriptProgram::new(alloc, script);
    let replayed = replay(alloc, script, program, env, turns, recorded)?;
    let text = text_of(alloc, &replayed.verdict)?;
    Ok(Told {
        end: end_of(&replayed.verdict),
        taken: replayed.taken,
        turns: replayed.turns,
        text,
    })
}

/// What is told of the script and the recorded bytes of a text, or how the session ends without a verdict.
pub(crate) fn told_of(
    alloc: Global,
    turns: u64,
    text: &[u8],
    part: Part,
) -> Result<Told, SessionEnd>
    requires { LiesIn text.now part }
    ensures told { IfOk result
        (λ told. IsToldOf turns text.now part told.end told.text.items told.taken told.turns) }
    ensures none { IfErr result (λ e. IsNotTold text.now part e) }
{
    let script = match read_script(alloc, &text[part.from..part.to]) {
        Ok(script) => script,
        Err(ReadErr::NoMemory) => return Err(SessionEnd::NoMemory),
        Err(ReadErr::Bad { line, reason }) => return Err(SessionEnd::Script { line, reason }),
    };
    match told_by(alloc, turns, &script, &text[part.to..]) {
        Ok(told) => Ok(told),
        Err(NoMemory) => Err(SessionEnd::NoMemory),
    }
}
