// What the program does, by its words.
ghost use Rattle.lwp_serve.specs.Words.{is_plan, is_replay};
ghost use Rattle.lwp_state.specs.Words.{MayBe, TopSays, command_of, plan_by, replay_by};
ghost use Rattle.script_lines.specs.Words.{number_at};
ghost use Rattle.std.specs.Prelude.{◌≡◌, IfSome, map, string_bytes};
ghost use Rattle.streams.specs.Streams.{sides};

use crate::planning::state_after_plan;
use crate::replaying::state_in_replay;
use lwp_types::{Sink, Source};
use script_lines::number_at;
use script_session::{Session, SessionEnd};
use std::alloc::Global;

// How many calls a plan makes, where nobody says so.
const CALLS_UNSAID: u64 = 100_000;

// The most calls that a plan may make.
const MOST_CALLS: u32 = 1_000_000;

/// What is asked for: the state after so many calls of a plan, or after the steps of the first so many lines of a trace, or of all.
#[derive(Clone, Copy)]
pub enum Command {
    Plan(u64),
    Replay(Option<u32>),
}

fn is_plan(word: &[u8]) -> bool
    ensures { result ≡ is_plan word.now }
{
    word == b"plan".as_slice()
}

fn is_replay(word: &[u8]) -> bool
    ensures { result ≡ is_replay word.now }
{
    word == b"replay".as_slice()
}

// The calls of a plan, where a word says how many.
fn plan_at(word: &[u8]) -> Option<Command>
    ensures value { result ≡ plan_by (number_at word.now) }
    ensures may_be { IfSome result MayBe }
{
    let calls = number_at(word)?;
    if calls > MOST_CALLS {
        return None;
    }
    Some(Command::Plan(u64::from(calls)))
}

// The lines of a replay, where a word says how many.
fn replay_at(word: &[u8]) -> Option<Command>
    ensures value { result ≡ replay_by (number_at word.now) }
    ensures may_be { IfSome result MayBe }
{
    let line = number_at(word)?;
    Some(Command::Replay(Some(line)))
}

// The command of these words, if they are one.
fn command_of(words: &Vec<String>) -> Option<Command>
    ensures value { result ≡ command_of (map string_bytes words.now.items) }
    ensures may_be { IfSome result MayBe }
{
    match words.as_slice() {
        [word] if is_plan(word.as_bytes()) => Some(Command::Plan(CALLS_UNSAID)),
        [word] if is_replay(word.as_bytes()) => Some(Command::Replay(None)),
        [word, calls] if is_plan(word.as_bytes()) => plan_at(calls.as_bytes()),
        [word, line] if is_replay(word.as_bytes()) => replay_at(line.as_bytes()),
        _ => None,
    }
}

/// The state text that the program's words ask for, which stand after its name. They are `plan`, after which perhaps stands how many
/// calls are allowed, 0 to 1,000,000, or 100,000 without it; or `replay`, after which perhaps stands how many of the recorded lines
/// count. Other words are no command: nothing is read or written then.
pub fn top<S: Source, K: Sink>(
    alloc: Global,
    words: &Vec<String>,
    source: &mut S,
    sink: &mut K,
) -> Session
    ensures { TopSays (command_of (map string_bytes words.now.items))
        (sides S.left S.faults source.old source.new)
        (sides K.written K.faults sink.old sink.new) result }
{
    match command_of(words) {
        Some(Command::Plan(calls)) => state_after_plan(alloc, calls, source, sink),
        Some(Command::Replay(line)) => state_in_replay(alloc, line, source, sink),
        None => Session::unread(alloc, SessionEnd::Usage),
    }
}
