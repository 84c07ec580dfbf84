// What a run has taken, and when, is all that its threads add to the script: played once more by those takes alone, each at its
// turn, the script tells the same.
ghost use Rattle.std.specs.Prelude.{◌≡◌, ◌≤◌, false, IfOk, OnOk};
ghost use Rattle.script_text.specs.Limits.{IsWithinLimits};

use crossbeam_utils::atomic::AtomicCell;
use event_gate::PostGate;
use lwp_serve::{ScriptProgram, Session, Taken, ThreadBody, run_main};
use lwp_types::{Env, Line, MemSink, MemSource, NoMemory, PodParams};
use pod_runner::{Phase, Run, RunErr};
use script_text::{Script, read_script};
use std::alloc::Global;
use std::sync::Wait;
use std::test::Fail;
use std::thread::Threads;

/// A run of a script, before its first call.
pub fn start<'s>(
    alloc: Global,
    script: &'s Script,
    turns: u64,
) -> Result<Run<'s, ThreadBody<'s>, ScriptProgram<'s>>, NoMemory>
    requires { IsWithinLimits script.now }
    ensures { IfOk result (λ run. run.failed ≡ false) }
{
    let params = PodParams {
        maxpri: script.maxpri,
        births: script.births,
        procs: (script.procs.len() + script.natives.len()) as u32,
    };
    let threads = script.names.threads.len() as u32;
    let mons = script.names.mons.len() as u32;
    let conds = script.names.conds.len() as u32;
    let env = Env::new(alloc, threads, mons, conds)?;
    Run::new(alloc, params, ScriptProgram::new(alloc, script), env, turns)
}

// A call more, if one is due.
fn step<'s>(
    run: &mut Run<'s, ThreadBody<'s>, ScriptProgram<'s>>,
    sink: &mut MemSink,
) -> Result<(), RunErr>
    requires { run.old.failed ≡ false }
    ensures { OnOk result (run.new.failed ≡ false) }
{
    match run.phase() {
        Phase::Turn => run.turn(sink),
        _ => Ok(()),
    }
}

// Calls, until so many were made in all.
fn step_to<'s>(
    run: &mut Run<'s, ThreadBody<'s>, ScriptProgram<'s>>,
    calls: u64,
    sink: &mut MemSink,
) -> Result<(), RunErr>
    requires { run.old.failed ≡ false }
    ensures { OnOk result (run.new.failed ≡ false) }
{
    for _ in run.calls()..calls {
        step(run, sink)?;
    }
    Ok(())
}

// A line is taken at its turn, if it can be delivered there.
fn take<'s>(
    run: &mut Run<'s, ThreadBody<'s>, ScriptProgram<'s>>,
    taken: &Taken<'s>,
    sink: &mut MemSink,
) -> Result<(), RunErr>
    requires { run.old.failed ≡ false }
    ensures { OnOk result (run.new.failed ≡ false) }
{
    step_to(run, taken.turn, sink)?;
    if !run.wants(taken.event) {
        return Ok(());
    }
    let line = Line {
        client: taken.client,
        seq: taken.seq,
        text: taken.text.again(),
    };
    run.offer(taken.event, line, sink)
}

// All lines are taken at their turns, and calls made between and after them.
fn replay<'s>(
    run: &mut Run<'s, ThreadBody<'s>, ScriptProgram<'s>>,
    session: &'s Session,
    sink: &mut MemSink,
) -> Result<(), RunErr>
    requires { run.old.failed ≡ false }
{
    for i in 0..session.taken.len() {
        take(run, &session.taken.get(i), sink)?;
    }
    step_to(run, session.turns, sink)
}

// A script is played by the takes of a session.
fn play_takes<'s>(
    alloc: Global,
    script: &'s Script,
    turns: u64,
    session: &'s Session,
    sink: &mut MemSink,
) -> Result<(), RunErr>
    requires { IsWithinLimits script.now }
{
    let mut run = start(alloc, script, turns)?;
    replay(&mut run, session, sink)
}

// Plays the script that these bytes spell by the takes of a session. Answers whether there is one, and it could be played.
fn play_text(
    alloc: Global,
    bytes: &[u8],
    turns: u64,
    session: &Session,
    sink: &mut MemSink,
) -> bool {
    match read_script(alloc, bytes) {
        Ok(script) => play_takes(alloc, &script, turns, session, sink).is_ok(),
        Err(_) => false,
    }
}

// Before some lines it does nothing for a while.
#[derive(Clone, Copy)]
struct Pauses<'f> {
    never: &'f AtomicCell<bool>,
    round: u32,
}

impl PostGate for Pauses<'_> {
    ghost asked = { λ gate client seq. gate };

    fn before(&mut self, client: u8, seq: u32) {
        let place = seq.wrapping_add(u32::from(client)).wrapping_add(self.round);
        for _ in 0..(place % 5).wrapping_mul(2_000) {
            if self.never.load() {
                return;
            }
        }
    }
}

// A script is run by threads that pause.
fn run_paused<R: Threads + Wait + Sync>(
    rt: &R,
    alloc: Global,
    script: &[u8],
    turns: u64,
    round: u32,
    sink: &mut MemSink,
) -> Result<Session, NoMemory>
    requires least { 1 ≤ turns }
    requires most { turns ≤ 1000000 }
{
    let never = AtomicCell::new(false);
    let gate = Pauses {
        never: &never,
        round,
    };
    let gates = vec![in alloc; gate; 16]?;
    let mut source = MemSource::new(script.to_vec(alloc)?, Vec::new(alloc));
    let live = run_main(rt, alloc, turns, &mut source, sink, gates);
    Ok(live.session)
}

// Whether a run of a script tells what its takes alone tell, and then this.
fn is_replayed<R: Threads + Wait + Sync>(
    rt: &R,
    alloc: Global,
    script: &[u8],
    turns: u64,
    round: u32,
    tail: &[u8],
) -> Result<bool, NoMemory>
    requires least { 1 ≤ turns }
    requires most { turns ≤ 1000000 }
{
    let mut told = MemSink::new(alloc, 65_536, 4_096, Vec::new(alloc))?;
    let mut again = MemSink::new(alloc, 65_536, 4_096, Vec::new(alloc))?;
    let session = run_paused(rt, alloc, script, turns, round, &mut told)?;
    Ok(
        play_text(alloc, script, turns, &session, &mut again)
            && told.bytes().strip_prefix(again.bytes()) == Some(tail),
    )
}

// Main serves three clients of two events, while another thread makes over a hundred calls.
const SERVED: &[u8] =
    b"lwp 1\npod 1\nclient 0 5\nclient 1 5\nclient 2 6\nproc main\ncreate w long 1 -\nagent g 5\nagent h 6\n\
call serve\ncall serve\ncall serve\ncall serve\ncall serve\ncall serve\n\
proc serve\nrecv any wait\nreply sender ok\n\
proc long\ncall more\ncall more\ncall more\ncall more\n\
proc more\ncall some\ncall some\ncall some\ncall some\n\
proc some\nyield self\nself\nyield self\nself\nyield self\nself\n\
post 0 a\npost 1 b\npost 2 c\npost 0 d\npost 1 e\npost 2 f\n";

// Three sessions of a store.
const SESSIONS: &[u8] = b"lwp 1\npod 2\nclient 0 1\nclient 1 2\nclient 2 3\n\
native db store\nnative s0 session 1 db\nnative s1 session 2 db\nnative s2 session 3 db\n\
proc main\ncreate db db 2 v\ncreate a s0 1 -\ncreate b s1 1 -\ncreate c s2 1 -\njoin a\njoin b\njoin c\n\
post 0 put k v\npost 1 put k w\npost 2 put k x\npost 0 get k\npost 1 get k\npost 2 get k\n\
post 0 del k\npost 1 del k\npost 2 del k\npost 0 quit\npost 1 quit\npost 2 quit\n";

// Nobody receives the last line of client 1.
const STUCK: &[u8] = b"lwp 1\npod 1\nclient 0 5\nclient 1 6\nproc main\nagent g 5\nagent h 6\n\
recv g wait\nreply g ok\nrecv h wait\nself\nyield self\nrecv g wait\nreply g ok\nrecv g wait\n\
post 0 a\npost 0 b\npost 1 c\npost 1 d\n";

#[test]
fn takes_alone_tell_what_a_run_told(rt: HostRuntime) -> Result<(), Fail> {
    let alloc = rt.alloc();
    for (script, turns, tail) in [
        (SERVED, 100_000, b"".as_slice()),
        (SESSIONS, 100_000, b""),
        (STUCK, 100_000, b"stuck\nleft client 1 1\n"),
    ] {
        for round in 0..34 {
            assert!(rt;
                is_replayed(&rt, alloc, script, turns, round, tail)?,
                "round {round}"
            );
        }
    }
    Ok(())
}
