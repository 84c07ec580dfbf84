// A run in virtual time: its clock ticks when nobody may run and a timer is pending.
ghost use Rattle.std.specs.Prelude.{◌≡◌, ◌≤◌, ◌<◌, ◌^◌, false, true, IfOk, OnErr, OnOk, Some, None, IfNone, IfSome};
ghost use Rattle.pod_runner.specs.Phase.{phase_of_halt};
ghost use Rattle.pod_runner.specs.Run.{names_like};
ghost use Rattle.pod_runner.specs.Virtual.{IsLater, TimedSessionsAreSessions, TurnsCame, body_of, broken, is_tick_due, live_now, phase_now, setting_of, with_call};
ghost use Rattle.pod_runner.specs.declared.phase.Phase.TheVariants as phase;

use crate::Phase;
use crate::parts::RunParts;
use lwp_types::{Body, Env, NoMemory, PodParams, Polled, Program, Tid};
use std::alloc::Global;
use std::marker::Model;
use trace_text::Halt;

/// A run of a program in virtual time, seen as what it plays and how many calls it has made. It keeps neither lines nor takes, so it
/// takes no more memory the longer it runs. Its session is that of `live_after`, which is a session like any other.
pub struct TimedRun<'s, B: Body, P: Program<B>> {
    parts: RunParts<'s, B>,
    program: P,
    params: PodParams,
    threads: usize,
    mons: usize,
    conds: usize,
    turns: u64,
    calls: u64,
    failed: bool,
}

// PROVER: written by hand, so that a function that drops one calls this instead of repeating its proof.
impl<'s, B: Body, P: Program<B>> Drop for TimedRun<'s, B, P> {
    fn drop(self) {
        let TimedRun {
            parts: _,
            program: _,
            params: _,
            threads: _,
            mons: _,
            conds: _,
            turns: _,
            calls: _,
            failed: _,
        } = self;
    }
}

impl<'s, B: Body, P: Program<B>> Model for TimedRun<'s, B, P> {
    ghost use Rattle.lwp_types.specs.Names.{null_names};
    ghost use Rattle.pod_runner.specs.KeepsTime.{KeepsTime};
    ghost use Rattle.pod_runner.specs.RunParts.{live_of};
    ghost use Rattle.pod_runner.specs.Virtual.{Timed};

    ghost Value = { Timed P };

    ghost view = { λ r. record {
      program = r.program;
      params = r.params;
      names = null_names r.threads r.mons r.conds;
      turns = r.turns;
      calls = r.calls;
      failed = r.failed;
    } };

    ghost invariant = { λ r. KeepsTime (record {
      next = B.next;
      bodies = P.bodies r.program;
      params = r.params;
      names = null_names r.threads r.mons r.conds;
    }) (live_of r.parts) r.calls r.turns r.failed };
}

impl<'s, B: Polled<'s>, P: Program<B>> TimedRun<'s, B, P> {
    /// A run before its first call, of at most so many calls.
    pub fn new(
        alloc: Global,
        params: PodParams,
        program: P,
        env: Env,
        turns: u64,
    ) -> Result<TimedRun<'s, B, P>, NoMemory>
        requires least { 1 ≤ params.maxpri }
        requires most { params.maxpri ≤ 255 }
        requires births { 1 ≤ params.births }
        requires few_births { params.births < 2 ^ 32 }
        requires procs { 1 ≤ params.procs }
        requires names { env ≡ names_like env }
        ensures { IfOk result
            (λ run.
            run
            ≡ record {
              program = program;
              params = params;
              names = env;
              turns = turns;
              calls = 0;
              failed = false;
            }) }
    {
        let threads = env.thread_count();
        let mons = env.mon_count();
        let conds = env.cond_count();
        let parts = RunParts::new(alloc, params, &program, env)?;
        Ok(TimedRun {
            parts,
            program,
            params,
            threads,
            mons,
            conds,
            turns,
            calls: 0,
            failed: false,
        })
    }

    /// How many calls were made.
    pub fn calls(&self) -> u64
        ensures { result ≡ self.now.calls }
    {
        self.calls
    }

    /// How often the clock has ticked.
    pub fn ticks(&self) -> u64
        requires { self.now.failed ≡ false }
        ensures { result ≡ (live_now B.next P.bodies self.now).pod.state.now }
    {
        self.parts.pod.now()
    }

    /// The body of a thread as it stands now, if the thread lives.
    pub fn body(&self, tid: Tid) -> Option<&B>
        requires { self.now.failed ≡ false }
        ensures none { IfNone result (body_of tid (live_now B.next P.bodies self.now) ≡ None) }
        ensures some { IfSome result
            (λ body. body_of tid (live_now B.next P.bodies self.now) ≡ Some body.now) }
    {
        let rows = self.parts.rows.as_slice();
        let i = self.parts.rows.place(tid);
        if i < rows.len() {
            Some(&rows[i].body)
        } else {
            None
        }
    }

    /// Where the run stands. Where nobody may run, no tick will change that.
    pub fn phase(&self) -> Phase
        requires { self.now.failed ≡ false }
        ensures phase { result ≡ phase_now B.next P.bodies self.now }
        ensures still { is_tick_due (live_now B.next P.bodies self.now) ≡ false }
        ensures came { TurnsCame (setting_of B.next P.bodies self.now) self.now.calls }
        ensures room { self.now.calls ≤ self.now.turns }
    {
        self.parts.phase(self.turns, self.calls)
    }

    /// One call, and then the ticks that are due. After an error the run has failed.
    #[inline(always)]
    pub fn turn(&mut self) -> Result<(), NoMemory>
        requires sound { self.old.failed ≡ false }
        requires due { phase_now B.next P.bodies self.old ≡ phase.Turn }
        ensures ok { OnOk result (self.new ≡ with_call self.old) }
        ensures err { OnErr result (self.new ≡ broken self.old) }
    {
        self.failed = true;
        self.parts.turn_untold(&self.program)?;
        self.parts.catch_up(&self.program)?;
        self.calls += 1;
        self.failed = false;
        Ok(())
    }
}

/// Makes calls until the pod has ended, nobody may run and no timer is pending, or all calls that are allowed were made. After an
/// error the run has failed, and its calls are those made until then.
pub fn run_in_virtual_time<'s, B: Polled<'s>, P: Program<B>>(
    run: &mut TimedRun<'s, B, P>,
) -> Result<Halt, NoMemory>
    requires sound { run.old.failed ≡ false }
    ensures same { IsLater run.old run.new }
    ensures ends { IfOk result (λ halt. phase_now B.next P.bodies run.new ≡ phase_of_halt halt) }
    ensures still { OnOk result (is_tick_due (live_now B.next P.bodies run.new) ≡ false) }
    ensures came { TurnsCame (setting_of B.next P.bodies run.new) run.new.calls }
    ensures sound { OnOk result (run.new.failed ≡ false) }
    ensures fails { OnErr result (run.new.failed ≡ true) }
{
    loop {
        match run.phase() {
            Phase::Ended(status) => return Ok(Halt::Ended(status)),
            Phase::Spent => return Ok(Halt::Spent),
            Phase::Idle => return Ok(Halt::Stuck),
            Phase::Turn => run.turn()?,
        }
    }
}

/// A session in virtual time is a session like any other, whose takes are its ticks.
pub fn every_timed_session<B: Body>()
    ensures { TimedSessionsAreSessions B }
{}
