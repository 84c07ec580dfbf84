// What the program does, by its words.
ghost use Rattle.std.specs.Prelude.{◌≡◌, ◌≤◌, IfSome, length, map, string_bytes};
ghost use Rattle.lwp_serve.specs.Words.{MayBe, TopSays, answers_by, batch_by, client_of, command_by, command_of, is_answers, is_batch, is_make, is_plan, is_replay, is_run, threads_of, turns_of};
ghost use Rattle.streams.specs.Streams.{sides};

use crate::answers::answers_main;
use crate::batches::batch_main;
use crate::maker::{Order, order_at};
use crate::plan::{make_main, plan_main};
use crate::replaying::replay_main;
use event_gate::PostGate;
use lwp_types::{Sink, Source};
use script_run::run_main;
use script_session::{Session, SessionEnd};
use script_text::number_at;
use std::alloc::Global;
use std::sync::Wait;
use std::thread::Threads;

// How many calls are allowed, where nobody says so.
const TURNS_UNSAID: u64 = 100_000;

// The most calls that may be allowed.
const MOST_TURNS: u64 = 1_000_000;

// The most threads that plan many scripts.
const MOST_THREADS: u32 = 16;

// The last client that a script may have.
const LAST_CLIENT: u32 = 15;

/// What is asked for: a run or a plan or a replay with so many calls allowed, or a script that is to be made, or a report on many
/// scripts, by so many threads and with so many calls allowed of each, or what this client is told, with so many calls allowed.
#[derive(Clone, Copy)]
pub enum Command {
    Run(u64),
    Plan(u64),
    Replay(u64),
    Make(Order),
    Batch(u32, u64),
    Answers(u8, u64),
}

fn is_run(word: &[u8]) -> bool
    ensures { result ≡ is_run word.now }
{
    word == b"run".as_slice()
}

fn is_plan(word: &[u8]) -> bool
    ensures { result ≡ is_plan word.now }
{
    word == b"plan".as_slice()
}

fn is_replay(word: &[u8]) -> bool
    ensures { result ≡ is_replay word.now }
{
    word == b"replay".as_slice()
}

fn is_make(word: &[u8]) -> bool
    ensures { result ≡ is_make word.now }
{
    word == b"make".as_slice()
}

fn is_batch(word: &[u8]) -> bool
    ensures { result ≡ is_batch word.now }
{
    word == b"batch".as_slice()
}

fn is_answers(word: &[u8]) -> bool
    ensures { result ≡ is_answers word.now }
{
    word == b"answers".as_slice()
}

// The calls allowed, where a word says so.
fn turns_of(word: &[u8]) -> Option<u64>
    ensures value { result ≡ turns_of word.now }
    ensures least { IfSome result (λ turns. 1 ≤ turns) }
    ensures most { IfSome result (λ turns. turns ≤ 1000000) }
{
    let turns = u64::from(number_at(word)?);
    if turns == 0 || turns > MOST_TURNS {
        return None;
    }
    Some(turns)
}

// How many threads there are, where a word says so.
fn threads_of(word: &[u8]) -> Option<u32>
    ensures value { result ≡ threads_of word.now }
    ensures least { IfSome result (λ threads. 1 ≤ threads) }
    ensures most { IfSome result (λ threads. threads ≤ 16) }
{
    let threads = number_at(word)?;
    if threads == 0 || threads > MOST_THREADS {
        return None;
    }
    Some(threads)
}

// The command of a number of threads and of a number of calls, if there are both.
fn batch_by(threads: Option<u32>, turns: Option<u64>) -> Option<Command>
    ensures { result ≡ batch_by threads turns }
{
    match (threads, turns) {
        (Some(threads), Some(turns)) => Some(Command::Batch(threads, turns)),
        _ => None,
    }
}

// The client that a word names.
fn client_of(word: &[u8]) -> Option<u8>
    ensures value { result ≡ client_of word.now }
    ensures most { IfSome result (λ client. client ≤ 15) }
{
    let client = number_at(word)?;
    if client > LAST_CLIENT {
        return None;
    }
    Some(client as u8)
}

// The command of a client and of a number of calls, if there are both.
fn answers_by(client: Option<u8>, turns: Option<u64>) -> Option<Command>
    ensures { result ≡ answers_by client turns }
{
    match (client, turns) {
        (Some(client), Some(turns)) => Some(Command::Answers(client, turns)),
        _ => None,
    }
}

// The command of a word and of a number of calls.
fn command_by(word: &[u8], turns: u64) -> Option<Command>
    ensures { result ≡ command_by word.now turns }
{
    if is_run(word) {
        Some(Command::Run(turns))
    } else if is_plan(word) {
        Some(Command::Plan(turns))
    } else if is_replay(word) {
        Some(Command::Replay(turns))
    } else {
        None
    }
}

// The command of these words, if they are one.
fn command_of(words: &Vec<String>) -> Option<Command>
    ensures value { result ≡ command_of (map string_bytes words.now.items) }
    ensures may_be { IfSome result MayBe }
{
    match words.as_slice() {
        [word] => command_by(word.as_bytes(), TURNS_UNSAID),
        [word, threads] if is_batch(word.as_bytes()) => {
            batch_by(threads_of(threads.as_bytes()), Some(TURNS_UNSAID))
        }
        [word, client] if is_answers(word.as_bytes()) => {
            answers_by(client_of(client.as_bytes()), Some(TURNS_UNSAID))
        }
        [word, turns] => command_by(word.as_bytes(), turns_of(turns.as_bytes())?),
        [word, threads, turns] if is_batch(word.as_bytes()) => {
            batch_by(threads_of(threads.as_bytes()), turns_of(turns.as_bytes()))
        }
        [word, client, turns] if is_answers(word.as_bytes()) => {
            answers_by(client_of(client.as_bytes()), turns_of(turns.as_bytes()))
        }
        [word, seed, threads, lines] if is_make(word.as_bytes()) => {
            let order = order_at(seed.as_bytes(), threads.as_bytes(), lines.as_bytes())?;
            Some(Command::Make(order))
        }
        _ => None,
    }
}

/// A session by the program's words, which follow its name. The command is `run`, `plan` or `replay`, which allows 100,000
/// calls, or one of these and TURNS, which allows as many as this number says, 1 to 1,000,000; or it is `make SEED THREADS LINES`,
/// which reads nothing, makes the script of these three numbers and sums up its session; or it is `batch THREADS` or `batch THREADS
/// TURNS`, which reads many scripts and reports on them, by 1 to 16 threads; or it is `answers CLIENT` or `answers CLIENT TURNS`,
/// which does as a plan and writes what that client is told, in place of the trace. A replay reads a script and a recorded trace, and
/// writes whether this is a trace of that script. Other words are no command: nothing is read or written then. The gates are for the
/// clients of a run.
pub fn top<S: Source, K: Sink, G: PostGate + Send, R: Threads + Wait + Sync>(
    rt: &R,
    alloc: Global,
    words: &Vec<String>,
    source: &mut S,
    sink: &mut K,
    gates: Vec<G>,
) -> Session
    requires { 16 ≤ length gates.items }
    ensures { TopSays (command_of (map string_bytes words.now.items))
        (sides S.left S.faults source.old source.new)
        (sides K.written K.faults sink.old sink.new) result }
{
    match command_of(words) {
        Some(Command::Run(turns)) => {
            let live = run_main(rt, alloc, turns, source, sink, gates);
            live.session
        }
        Some(Command::Plan(turns)) => plan_main(alloc, turns, source, sink),
        Some(Command::Replay(turns)) => replay_main(alloc, turns, source, sink),
        Some(Command::Make(order)) => {
            make_main(alloc, order.seed, order.threads, order.lines, sink)
        }
        Some(Command::Batch(threads, turns)) => {
            batch_main(rt, alloc, threads, turns, source, sink)
        }
        Some(Command::Answers(client, turns)) => answers_main(alloc, client, turns, source, sink),
        None => Session::unread(alloc, SessionEnd::Usage),
    }
}
