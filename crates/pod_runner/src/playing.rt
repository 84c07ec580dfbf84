// A run: what it plays, how far it is, and its parts as they stand.
ghost use Rattle.std.specs.Prelude.{◌≡◌, ◌≤◌, ◌<◌, ◌^◌, [], false, length, IfNone, IfOk, IfSome, IsTrue, slice_index_or};
ghost use Rattle.std.specs.Slice.Scan.{HoldsNowhere, IsFirstPlace};
ghost use Rattle.pod_events.specs.Events.{is_takeable};
ghost use Rattle.pod_runner.specs.Calls.{last_call};
ghost use Rattle.pod_runner.specs.Due.{IsDefined};
ghost use Rattle.pod_runner.specs.Run.{setting_of, session_of, phase_now, trace_of, names_like, after_step, with_call, with_took, Tells};
ghost use Rattle.pod_runner.specs.Telling.{Told};
ghost use Rattle.pod_runner.specs.declared.phase.Phase.TheVariants as phase;
ghost use Rattle.streams.specs.Streams.{sides};

use crate::parts::RunParts;
use crate::{Made, Phase, RunErr, TakeList, Took};
use lists::TextList;
use lwp_types::{Again, Body, Env, Line, NoMemory, PodParams, Polled, Program, Sink};
use std::alloc::Global;
use std::marker::Model;
use streams::write_all;
use trace_text::StepLines;

/// A run of a program, seen as what it plays and how far it is; its session is the definition's.
pub struct Run<'s, B: Body, P: Program<B>> {
    pub(crate) parts: RunParts<'s, B>,
    program: P,
    // The procedures' names, by number.
    procs: TextList,
    params: PodParams,
    threads: usize,
    mons: usize,
    conds: usize,
    turns: u64,
    pub(crate) calls: u64,
    pub(crate) takes: TakeList,
    failed: bool,
    // The lines of the last step, in memory that the next step's are put into.
    out: StepLines,
}

// PROVER: written by hand, so that a function that drops one calls this instead of repeating its proof.
impl<'s, B: Body, P: Program<B>> Drop for Run<'s, B, P> {
    fn drop(self) {
        let Run {
            parts: _,
            program: _,
            procs: _,
            params: _,
            threads: _,
            mons: _,
            conds: _,
            turns: _,
            calls: _,
            takes: _,
            failed: _,
            out: _,
        } = self;
    }
}

impl<'s, B: Body, P: Program<B>> Model for Run<'s, B, P> {
    ghost use Rattle.std.specs.Prelude.{◌≡◌, false};
    ghost use Rattle.lwp_types.specs.Names.{null_names};
    ghost use Rattle.pod_runner.specs.Run.{Played};
    ghost use Rattle.pod_runner.specs.RunParts.{live_of, last_step_effects};
    ghost use Rattle.pod_runner.specs.Keeps.{Keeps};

    ghost Value = { Played P };

    ghost view = { λ r. record {
      program = r.program;
      params = r.params;
      names = null_names r.threads r.mons r.conds;
      turns = r.turns;
      calls = r.calls;
      takes = r.takes;
      failed = r.failed;
    } };

    ghost invariant = { λ r. Keeps (record {
      next = B.next;
      bodies = P.bodies r.program;
      params = r.params;
      names = null_names r.threads r.mons r.conds;
    }) (P.proc_names r.program) r.procs (live_of r.parts) (last_step_effects r.parts)
        r.takes r.calls r.turns r.failed };
}

// The names of a program's procedures, by number.
fn names_of<B: Body, P: Program<B>>(alloc: Global, program: &P) -> Result<TextList, NoMemory>
    ensures { IfOk result (λ names. names ≡ P.proc_names program.now) }
{
    let mut names = TextList::new(alloc);
    for proc in 0..program.procs() {
        names.push(program.proc_name(proc))?;
    }
    Ok(names)
}

// A step's lines are written, and a run whose lines all were goes on.
#[inline(always)]
fn tell<K: Sink>(out: &StepLines, failed: &mut bool, sink: &mut K) -> Result<(), RunErr>
    ensures { Told (sides K.written K.faults sink.old sink.new) out.now failed.old failed.new result }
{
    match write_all(sink, out.bytes()) {
        Ok(()) => {
            *failed = false;
            Ok(())
        }
        Err(_) => Err(RunErr::WriteFault),
    }
}

impl<'s, B: Polled<'s>, P: Program<B>> Run<'s, B, P> {
    /// A run before its first call, of at most so many calls.
    pub fn new(
        alloc: Global,
        params: PodParams,
        program: P,
        env: Env,
        turns: u64,
    ) -> Result<Run<'s, B, P>, NoMemory>
        requires least { 1 ≤ params.maxpri }
        requires most { params.maxpri ≤ 255 }
        requires births { 1 ≤ params.births }
        requires few_births { params.births < 2 ^ 32 }
        requires procs { 1 ≤ params.procs }
        requires names { env ≡ names_like env }
        ensures { IfOk result
            (λ run.
            run
            ≡ record {
              program = program;
              params = params;
              names = env;
              turns = turns;
              calls = 0;
              takes = [];
              failed = false;
            }) }
    {
        let threads = env.thread_count();
        let mons = env.mon_count();
        let conds = env.cond_count();
        let procs = names_of(alloc, &program)?;
        let parts = RunParts::new(alloc, params, &program, env)?;
        Ok(Run {
            parts,
            program,
            procs,
            params,
            threads,
            mons,
            conds,
            turns,
            calls: 0,
            takes: TakeList::new(alloc),
            failed: false,
            out: StepLines::new(alloc),
        })
    }

    /// How many calls were made.
    pub fn calls(&self) -> u64
        ensures { result ≡ self.now.calls }
    {
        self.calls
    }

    /// How many lines were taken.
    pub fn takes(&self) -> usize
        ensures { result ≡ length self.now.takes }
    {
        self.takes.len()
    }

    /// The take at place `i`, counted from 0.
    pub fn take_at(&self, i: usize) -> Took<'_>
        requires { i < length self.now.takes }
        ensures { result ≡ slice_index_or self.now.takes i result }
    {
        self.takes.get(i)
    }

    /// The lines that were taken, the oldest first.
    pub fn into_takes(self) -> TakeList
        ensures { result ≡ self.entry.takes }
    {
        let Run {
            parts: _,
            program: _,
            procs: _,
            params: _,
            threads: _,
            mons: _,
            conds: _,
            turns: _,
            calls: _,
            takes,
            failed: _,
            out: _,
        } = self;
        takes
    }

    /// The call of the last step: None where there was no step yet, or the last one made no call.
    pub fn made(&self) -> Option<Made<'s>>
        requires { self.now.failed ≡ false }
        ensures { result ≡ last_call (session_of B.next P.bodies self.now).steps }
    {
        self.parts.made()
    }

    /// Where the run stands.
    pub fn phase(&self) -> Phase
        requires { self.now.failed ≡ false }
        ensures phase { result ≡ phase_now B.next P.bodies self.now }
        ensures made { IsDefined (setting_of B.next P.bodies self.now) self.now.takes self.now.calls }
        ensures room { self.now.calls ≤ self.now.turns }
    {
        self.parts.phase(self.turns, self.calls)
    }

    /// Whether a line of the event can be delivered.
    pub fn wants(&self, event: u8) -> bool
        requires { self.now.failed ≡ false }
        ensures armed { result ≡ is_takeable (session_of B.next P.bodies self.now).live.pod event }
        ensures made { IsDefined (setting_of B.next P.bodies self.now) self.now.takes self.now.calls }
        ensures room { self.now.calls ≤ self.now.turns }
    {
        self.parts.wants(event)
    }

    /// The first event from `from` on of which a line can be delivered, if there is one below 32.
    pub fn next_wanted(&self, from: u8) -> Option<u8>
        requires { self.now.failed ≡ false }
        ensures none { IfNone result
            (HoldsNowhere (is_takeable (session_of B.next P.bodies self.now).live.pod) from 32) }
        ensures below { IfSome result (λ event. event < 32) }
        ensures first { IfSome result
            (λ event.
            IsFirstPlace (is_takeable (session_of B.next P.bodies self.now).live.pod) from 32
            event) }
        ensures made { IsDefined (setting_of B.next P.bodies self.now) self.now.takes self.now.calls }
        ensures room { self.now.calls ≤ self.now.turns }
    {
        self.parts.next_wanted(from)
    }

    /// Delivers a line of the event, and writes its lines. After an error the run has failed: a take whose lines could
    /// not all be written counts, one that ran out of memory doesn't, and none of its lines is written.
    pub fn offer<K: Sink>(&mut self, event: u8, line: Line<'s>, sink: &mut K) -> Result<(), RunErr>
        requires sound { self.old.failed ≡ false }
        requires wants { IsTrue (is_takeable (session_of B.next P.bodies self.old).live.pod event) }
        ensures after { self.new ≡ after_step self.old (with_took self.old event line.entry) result }
        ensures told { Tells (sides K.written K.faults sink.old sink.new)
            (trace_of B.next P.bodies P.proc_names self.old)
            (trace_of B.next P.bodies P.proc_names self.old)
            (trace_of B.next P.bodies P.proc_names self.new) result }
        ensures made { IsDefined (setting_of B.next P.bodies self.new) self.new.takes self.new.calls }
        ensures room { self.new.calls ≤ self.new.turns }
    {
        self.failed = true;
        let took = Took {
            turn: self.calls,
            line,
            event,
        };
        self.parts
            .deliver(&self.program, &self.procs, &took, &mut self.out)?;
        self.takes.push(&took)?;
        tell(&self.out, &mut self.failed, sink)
    }

    /// One call, and its lines. After an error the run has failed: a call whose lines could not all be written counts,
    /// a call that ran out of memory doesn't, and none of its lines is written.
    pub fn turn<K: Sink>(&mut self, sink: &mut K) -> Result<(), RunErr>
        requires sound { self.old.failed ≡ false }
        requires due { phase_now B.next P.bodies self.old ≡ phase.Turn }
        ensures after { self.new ≡ after_step self.old (with_call self.old) result }
        ensures told { Tells (sides K.written K.faults sink.old sink.new)
            (trace_of B.next P.bodies P.proc_names self.old)
            (trace_of B.next P.bodies P.proc_names self.old)
            (trace_of B.next P.bodies P.proc_names self.new) result }
        ensures made { IsDefined (setting_of B.next P.bodies self.new) self.new.takes self.new.calls }
        ensures room { self.new.calls ≤ self.new.turns }
    {
        self.failed = true;
        self.parts.turn(&self.program, &self.procs, &mut self.out)?;
        self.calls += 1;
        tell(&self.out, &mut self.failed, sink)
    }
}

impl<'s, B: Body + Again, P: Program<B> + Again> Run<'s, B, P> {
    /// An equal run, in memory of its own, which goes on by itself. Each step of either is told its own sink.
    pub fn again(&self) -> Result<Run<'s, B, P>, NoMemory>
        ensures { IfOk result (λ copy. copy ≡ self.now) }
    {
        Ok(Run {
            parts: self.parts.again()?,
            program: self.program.again()?,
            procs: self.procs.again()?,
            params: self.params,
            threads: self.threads,
            mons: self.mons,
            conds: self.conds,
            turns: self.turns,
            calls: self.calls,
            takes: self.takes.again()?,
            failed: self.failed,
            out: StepLines::new(self.parts.rows.allocator()),
        })
    }
}
