// A script is read, and run while threads post the lines of its clients.
ghost use Rattle.script_run.specs.Inlets.{fresh};
ghost use Rattle.script_run.specs.Ties.{IsTied, all_texts, events_of, intakes};
ghost use Rattle.script_run.specs.Clients.{texts_from};
ghost use Rattle.script_run.specs.Live.{IsAllPosted, IsLive, IsLiveBroken, LivePosts, IsLivePlayed, IsLiveStopped, IsLived, PostsSay};
ghost use Rattle.script_session.specs.SoFar.{opening_run};
ghost use Rattle.script_body.specs.Posted.{IsPosted};
ghost use Rattle.lwp_types.specs.Streams.{Rose};
ghost use Rattle.script_text.specs.Limits.{IsWithinLimits};
ghost use Rattle.script_text.specs.Script.{lines_posted};
ghost use Rattle.std.specs.Prelude.{All, IfOk, IsErrOf, None, OnOk, length, map, ◌≡◌, ◌≤◌};
ghost use denote.Param.Send.{IsSync};
ghost use Rattle.streams.specs.Streams.{sides};

use crate::beside::{WholeRun, go_to_end};
use crate::clients::{client_texts, counts_after};
use crate::{AllPosted, Outside};
use event_gate::{Bell, PostGate};
use lwp_types::{Sink, Source, Text};
use pod_runner::{Run, RunErr};
use script_body::{ScriptProgram, ThreadBody};
use script_session::{Session, SessionEnd, end_of, read_whole, session_of, start};
use script_text::Script;
use std::alloc::Global;
use std::sync::Wait;
use std::thread::{self, Scope, Threads};
use streams::write_all;
use trace_text::end_lines;

/// A session of a script whose lines are posted by threads, and if it has come to its own end, be it ended, stuck or spent, that these
/// have posted all of them.
#[derive(Drop)]
pub struct LiveSession {
    pub session: Session,
    pub posted: Option<AllPosted>,
}

impl LiveSession {
    // A session that hasn't come to its own end.
    fn cut_off(session: Session) -> LiveSession
        ensures { result ≡ record { session = session; posted = None } }
    {
        LiveSession {
            session,
            posted: None,
        }
    }
}

// A run goes on to its end while threads post, and then what follows its lines is written. No thread posts any more then.
fn run_out<'s, K: Sink, R: Threads + Wait>(
    rt: &R,
    alloc: Global,
    turns: u64,
    script: &Script,
    texts: &[Vec<Text<'s>>],
    played: &mut Run<'s, ThreadBody<'s>, ScriptProgram<'s>>,
    outside: &mut Outside<'s>,
    bell: &Bell,
    sink: &mut K,
) -> Result<WholeRun, RunErr>
    requires posted { IsPosted script.now }
    requires opening { played.old ≡ opening_run script.now turns }
    requires tied { IsTied outside.old }
    requires events { events_of outside.old ≡ script.now.clients }
    requires texts { map (λ v. v.items) texts.now
        ≡ texts_from 0 script.now.clients (lines_posted script.now) }
    requires all_texts { all_texts outside.old ≡ map (λ v. v.items) texts.now }
    requires new { All (λ t. t ≡ fresh t.place t.event t.noted) (intakes outside.old) }
    ensures whole { IfOk result
        (λ run.
        IsLived turns script.now (K.written sink.old) (K.written sink.new) played.new.takes
        played.new.calls run.halt) }
    ensures posted { IfOk result (λ run. IsAllPosted script.now run.posted) }
    ensures stopped { IsErrOf result RunErr.NoMemory →
        IsLiveStopped turns script.now (K.written sink.old) (K.written sink.new) played.new.takes
        played.new.calls }
    ensures broken { IsErrOf result RunErr.WriteFault →
        IsLiveBroken turns script.now (K.written sink.old) (K.written sink.new) played.new.takes
        played.new.calls }
    ensures faults { OnOk result (K.faults sink.new ≡ K.faults sink.old) }
    ensures cause { IsErrOf result RunErr.WriteFault → Rose (K.faults sink.old) (K.faults sink.new) }
    ensures memory { IsErrOf result RunErr.NoMemory → K.faults sink.new ≡ K.faults sink.old }
{
    let clients = script.clients.len() as u32;
    let whole = go_to_end(rt, played, outside, bell, clients, sink)?;
    let left = counts_after(alloc, texts, played)?;
    let tail = end_lines(alloc, &whole.halt, turns, &left)?;
    match write_all(sink, &tail) {
        Ok(()) => Ok(whole),
        Err(_) => Err(RunErr::WriteFault),
    }
}

// The session of a script whose clients' threads are started in this scope.
fn play_while_posting<'s, E, K: Sink, G: PostGate + Send + 's, R: Threads + Wait + Sync>(
    scope: &Scope<'s, E>,
    rt: &'s R,
    alloc: Global,
    turns: u64,
    script: &'s Script,
    texts: &'s [Vec<Text<'s>>],
    mut played: Run<'s, ThreadBody<'s>, ScriptProgram<'s>>,
    gates: Vec<G>,
    bell: &'s Bell,
    sink: &mut K,
) -> LiveSession
    requires posted { IsPosted script.now }
    requires opening { played ≡ opening_run script.now turns }
    requires texts { map (λ v. v.items) texts.now
        ≡ texts_from 0 script.now.clients (lines_posted script.now) }
    requires gates { 16 ≤ length gates.items }
    ensures played { IsLivePlayed turns script.now (sides K.written K.faults sink.old sink.new)
        result.session }
    ensures posted { PostsSay script.now result.posted result.session.end }
{
    let clients = script.clients.as_slice();
    let Ok(mut outside) = Outside::start(scope, rt, alloc, clients, texts, gates, bell) else {
        return LiveSession::cut_off(Session::unread(alloc, SessionEnd::NoMemory));
    };
    match run_out(
        rt,
        alloc,
        turns,
        script,
        texts,
        &mut played,
        &mut outside,
        bell,
        sink,
    ) {
        Ok(WholeRun { halt, posted }) => LiveSession {
            session: session_of(end_of(halt), played),
            posted,
        },
        Err(RunErr::WriteFault) => {
            LiveSession::cut_off(session_of(SessionEnd::WriteFault, played))
        }
        Err(RunErr::NoMemory) => LiveSession::cut_off(session_of(SessionEnd::NoMemory, played)),
    }
}

// Plays the session from its start, and hands the sink back, so that the scope can tell what was written.
fn play_within<'s, 'k, E, K: Sink, G: PostGate + Send + 's, R: Threads + Wait + Sync>(
    scope: &Scope<'s, E>,
    rt: &'s R,
    alloc: Global,
    turns: u64,
    script: &'s Script,
    texts: &'s [Vec<Text<'s>>],
    gates: Vec<G>,
    bell: &'s Bell,
    sink: &'k mut K,
) -> (LiveSession, &'k mut K)
    requires within { IsWithinLimits script.now }
    requires posted { IsPosted script.now }
    requires texts { map (λ v. v.items) texts.now
        ≡ texts_from 0 script.now.clients (lines_posted script.now) }
    requires gates { 16 ≤ length gates.items }
    ensures played { IsLivePlayed turns script.now
        (sides K.written K.faults sink.entry.now result.1.now) result.0.session }
    ensures posted { PostsSay script.now result.0.posted result.0.session.end }
    ensures handed { result.1.ghost_name ≡ sink.entry.ghost_name }
{
    let Ok(played) = start(alloc, script, turns) else {
        let unread = Session::unread(alloc, SessionEnd::NoMemory);
        return (LiveSession::cut_off(unread), sink);
    };
    let session = play_while_posting(
        scope, rt, alloc, turns, script, texts, played, gates, bell, sink,
    );
    (session, sink)
}

// The session of a script, with so many turns allowed, while threads post the lines of its clients. Client c has gate c.
fn play_live<K: Sink, G: PostGate + Send, R: Threads + Wait + Sync>(
    rt: &R,
    alloc: Global,
    turns: u64,
    script: &Script,
    gates: Vec<G>,
    sink: &mut K,
) -> LiveSession
    requires within { IsWithinLimits script.now }
    requires posted { IsPosted script.now }
    requires gates { 16 ≤ length gates.items }
    ensures played { IsLivePlayed turns script.now (sides K.written K.faults sink.old sink.new)
        result.session }
    ensures posted { PostsSay script.now result.posted result.session.end }
{
    let Ok(texts) = client_texts(alloc, script) else {
        return LiveSession::cut_off(Session::unread(alloc, SessionEnd::NoMemory));
    };
    let bell = Bell::new();
    let (texts, bell) = (texts.as_slice(), &bell);
    let (session, _sink) = thread::scope(
        thread::scope_env(),
        rt,
        move |scope| -> (LiveSession, &mut K)
            requires sync { IsSync R.row }
            requires within { IsWithinLimits script.now }
            requires posted { IsPosted script.now }
            requires texts { map (λ v. v.items) texts.now
                ≡ texts_from 0 script.now.clients (lines_posted script.now) }
            requires gates { 16 ≤ length gates.items }
            ensures played { IsLivePlayed turns script.entry.now
                (sides K.written K.faults sink.entry.now result.1.now) result.0.session }
            ensures posted { PostsSay script.entry.now result.0.posted result.0.session.end }
            ensures handed { result.1.ghost_name ≡ sink.entry.ghost_name }
        { play_within(scope, rt, alloc, turns, script, texts, gates, bell, sink) },
    );
    session
}

/// Reads a script to its end and runs it, with so many turns allowed, while a thread for each client posts that client's lines.
/// Client c asks gate c before each of its posts. All threads have ended when it returns. A refused post counts as out of memory,
/// so where the session has come to its own end, all lines of the script were posted.
pub fn run_main<S: Source, K: Sink, G: PostGate + Send, R: Threads + Wait + Sync>(
    rt: &R,
    alloc: Global,
    turns: u64,
    source: &mut S,
    sink: &mut K,
    gates: Vec<G>,
) -> LiveSession
    requires least { 1 ≤ turns }
    requires most { turns ≤ 1000000 }
    requires gates { 16 ≤ length gates.items }
    ensures session { IsLive turns (sides S.left S.faults source.old source.new)
        (sides K.written K.faults sink.old sink.new) result.session }
    ensures posted { LivePosts turns (sides S.left S.faults source.old source.new)
        (sides K.written K.faults sink.old sink.new) result }
{
    match read_whole(alloc, source) {
        Ok(script) => play_live(rt, alloc, turns, &script, gates, sink),
        Err(end) => LiveSession::cut_off(Session::unread(alloc, end)),
    }
}
