// What the program does, by its words.
ghost use Rattle.lwp_explore.specs.Ends.{EndsSay};
ghost use Rattle.lwp_explore.specs.LineSaid.{LineSays};
ghost use Rattle.lwp_explore.specs.Sessions.{world_of};
ghost use Rattle.lwp_explore.specs.Top.{Says, TopSays, second_word};
ghost use Rattle.lwp_explore.specs.TraceSaid.{TraceSays};
ghost use Rattle.lwp_explore.specs.Words.{MayBe, command_of};
ghost use Rattle.script_body.specs.Posted.{IsPosted};
ghost use Rattle.script_text.specs.Limits.{IsWithinLimits};
ghost use Rattle.script_text.specs.Script.{proc_names};
ghost use Rattle.std.specs.Prelude.{◌≡◌, ◌≤◌, IfOk, map, string_bytes};
ghost use Rattle.streams.specs.Streams.{sides};
ghost use Rattle.lwp_explore.specs.Written.{ScriptSays, WriteSays};

use crate::ending::Ending;
use crate::ends::ends_text;
use crate::posts::ClientPosts;
use crate::searching::machine_of;
use crate::seeking::line_text;
use crate::tracing::trace_text;
use crate::words::{Command, command_of};
use lwp_types::{NoMemory, Sink, Source};
use script_session::{SessionEnd, read_whole};
use script_text::Script;
use std::alloc::Global;
use streams::write_all;

// The line that is looked for.
fn second_word(words: &Vec<String>) -> &[u8]
    ensures { result.now ≡ second_word (map string_bytes words.now.items) }
{
    match words.as_slice() {
        [_, word, ..] => word.as_bytes(),
        _ => b"".as_slice(),
    }
}

// How the sessions of a script end, and what that comes to.
fn ends_of_script<'s>(
    alloc: Global,
    script: &'s Script,
    posts: &ClientPosts<'s>,
    cores: u32,
) -> Result<(Vec<u8>, Ending), NoMemory>
    requires within { IsWithinLimits script.now }
    requires posted { IsPosted script.now }
    requires same { posts.now ≡ script.now }
    requires some { 1 ≤ cores }
    requires few { cores ≤ 1000000 }
    ensures { IfOk result (λ told. EndsSay (world_of script.now) cores told.0.items told.1) }
{
    let machine = machine_of(alloc, script, posts, None)?;
    ends_text(alloc, &machine, cores as usize)
}

// The trace of the way to the first core of a kind, and what that comes to.
fn trace_of_script<'s>(
    alloc: Global,
    script: &'s Script,
    posts: &ClientPosts<'s>,
    kind: u32,
    cores: u32,
) -> Result<(Vec<u8>, Ending), NoMemory>
    requires within { IsWithinLimits script.now }
    requires posted { IsPosted script.now }
    requires same { posts.now ≡ script.now }
    requires kind { 1 ≤ kind }
    requires some { 1 ≤ cores }
    requires few { cores ≤ 1000000 }
    ensures { IfOk result (λ told. TraceSays (world_of script.now) (proc_names script.now) cores kind told.0.items told.1) }
{
    let machine = machine_of(alloc, script, posts, None)?;
    trace_text(alloc, &machine, kind, cores as usize)
}

// How long the way is to a line, and what that comes to.
fn line_of_script<'s>(
    alloc: Global,
    script: &'s Script,
    posts: &ClientPosts<'s>,
    line: &[u8],
    cores: u32,
) -> Result<(Vec<u8>, Ending), NoMemory>
    requires within { IsWithinLimits script.now }
    requires posted { IsPosted script.now }
    requires same { posts.now ≡ script.now }
    requires some { 1 ≤ cores }
    requires few { cores ≤ 1000000 }
    ensures { IfOk result (λ told. LineSays (world_of script.now) (proc_names script.now) line.now cores told.0.items told.1) }
{
    let machine = machine_of(alloc, script, posts, Some(line))?;
    line_text(alloc, &machine, cores as usize)
}

// What is asked for, and what that comes to, by the posts of each client.
fn explored_with<'s>(
    alloc: Global,
    script: &'s Script,
    posts: &ClientPosts<'s>,
    command: Command,
    line: &[u8],
) -> Result<(Vec<u8>, Ending), NoMemory>
    requires within { IsWithinLimits script.now }
    requires posted { IsPosted script.now }
    requires same { posts.now ≡ script.now }
    requires may_be { MayBe command }
    ensures { IfOk result (λ told. Says command line.now script.now told.0.items told.1) }
{
    match command {
        Command::Ends { cores } => ends_of_script(alloc, script, posts, cores),
        Command::Trace { kind, cores } => trace_of_script(alloc, script, posts, kind, cores),
        Command::Line { cores } => line_of_script(alloc, script, posts, line, cores),
    }
}

/// Goes through all sessions of a script: what is asked for, and what that comes to. The line is the one that is looked for, if one is.
pub fn explored(
    alloc: Global,
    script: &Script,
    command: Command,
    line: &[u8],
) -> Result<(Vec<u8>, Ending), NoMemory>
    requires within { IsWithinLimits script.now }
    requires posted { IsPosted script.now }
    requires may_be { MayBe command }
    ensures { IfOk result (λ told. Says command line.now script.now told.0.items told.1) }
{
    let posts = ClientPosts::new(alloc, script)?;
    explored_with(alloc, script, &posts, command, line)
}

// Writes a text, with which it ends so.
fn write_text<K: Sink>(text: &[u8], ending: Ending, sink: &mut K) -> Ending
    ensures { WriteSays text.now ending (sides K.written K.faults sink.old sink.new) result }
{
    match write_all(sink, text) {
        Ok(()) => ending,
        Err(_) => Ending::Other(SessionEnd::WriteFault),
    }
}

// Does what is asked for with a script.
fn explore_script<K: Sink>(
    alloc: Global,
    script: &Script,
    command: Command,
    line: &[u8],
    sink: &mut K,
) -> Ending
    requires within { IsWithinLimits script.now }
    requires posted { IsPosted script.now }
    requires may_be { MayBe command }
    ensures { ScriptSays command line.now script.now (sides K.written K.faults sink.old sink.new) result }
{
    match explored(alloc, script, command, line) {
        Ok((text, ending)) => write_text(&text, ending, sink),
        Err(NoMemory) => Ending::Other(SessionEnd::NoMemory),
    }
}

/// Does what the program's words ask for. A script is read to its end, all of its sessions are gone through, and only then something is
/// written. Words that are no command read and write nothing.
pub fn explore_main<S: Source, K: Sink>(
    alloc: Global,
    words: &Vec<String>,
    source: &mut S,
    sink: &mut K,
) -> Ending
    ensures { TopSays (command_of (map string_bytes words.now.items)) (map string_bytes words.now.items)
        (sides S.left S.faults source.old source.new)
        (sides K.written K.faults sink.old sink.new) result }
{
    let Some(command) = command_of(words) else {
        return Ending::Other(SessionEnd::Usage);
    };
    match read_whole(alloc, source) {
        Ok(script) => explore_script(alloc, &script, command, second_word(words), sink),
        Err(end) => Ending::Other(end),
    }
}
