//! A bounded buffer with producers and a consumer: an example of threads of one's own, run to their end.
//!
//! A buffer keeps at most one item. Two producers send it items, and wait for the reply while there is no room; a consumer asks
//! for items, and waits while there is none. To wait is to be replied to later: nobody is ever told to try again.
//!
//! `Actor` is a thread's body, whichever it is: what it calls next is exactly what `specs/` computes (`actor_next`). `Market` is the
//! program, the procedures that threads are created with (`cast`). The trace that is written is that of the session of these
//! definitions, for `run` says so of any bodies. The crate stands on `lwp_types` for calls and answers, on `pod_runner`, which runs the
//! threads, and on `event_gate` for lines from the outside, of which there are none here.
#![tactic(auto)]

mod actor;
mod buffer;
mod clients;
mod market;

ghost use Rattle.std.specs.Prelude.{IfOk, false, ◌≡◌};

use crate::actor::Actor;
use crate::market::Market;
use event_gate::ListGate;
use lwp_types::{Env, MemSink, NoMemory, PodParams};
use pod_runner::{Run, RunErr, run};
use std::alloc::Global;
use std::io::Write;
use std::process::ExitCode;

// How many bytes a trace may have here, and how many calls there may be.
const ROOM: usize = 4_096;

const TURNS: u64 = 1_000;

fn main(rt: HostRuntime) -> ExitCode {
    let alloc = rt.alloc();
    let Ok(mut sink) = MemSink::new(alloc, ROOM, ROOM, Vec::new(alloc)) else {
        return ExitCode::FAILURE;
    };
    if trace(alloc, &mut sink).is_err() {
        return ExitCode::FAILURE;
    }
    match rt.stdout().write_all(sink.bytes()) {
        Ok(()) => ExitCode::SUCCESS,
        Err(_) => ExitCode::FAILURE,
    }
}

// The session before its first call.
fn opened<'s>(alloc: Global) -> Result<Run<'s, Actor<'s>, Market>, NoMemory>
    ensures sound { IfOk result (λ played. played.failed ≡ false) }
{
    let params = PodParams {
        maxpri: 1,
        births: 10,
        procs: 4,
    };
    let env = Env::new(alloc, 0, 0, 0)?;
    Run::new(alloc, params, Market::new(alloc), env, TURNS)
}

// The session is played to its end. No line comes from the outside.
fn play<'s>(
    alloc: Global,
    played: &mut Run<'s, Actor<'s>, Market>,
    sink: &mut MemSink,
) -> Result<(), RunErr>
    requires sound { played.old.failed ≡ false }
{
    // PROVER: a local, since the check of borrows doesn't cover an empty list that is lent in the call itself.
    let posts = [];
    let mut gate = ListGate::new(alloc, &[], &posts)?;
    run(played, &mut gate, sink)?;
    Ok(())
}

// The trace of the session goes to the sink.
fn trace(alloc: Global, sink: &mut MemSink) -> Result<(), RunErr> {
    match opened(alloc) {
        Ok(mut played) => play(alloc, &mut played, sink),
        Err(_) => Err(RunErr::NoMemory),
    }
}
