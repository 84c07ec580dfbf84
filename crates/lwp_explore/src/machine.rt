// A session of a script, as a machine to be searched.
ghost use Rattle.lwp_explore.specs.Along.{IsCounted};
ghost use Rattle.lwp_explore.specs.Cores.{after, steps_at, takes_at};
ghost use Rattle.lwp_explore.specs.Kinds.{halt_of, has_left, lines_left};
ghost use Rattle.lwp_explore.specs.Lines.{has_line};
ghost use Rattle.lwp_explore.specs.Searching.{core_number, writes};
ghost use Rattle.lwp_explore.specs.Sessions.{world_of};
ghost use Rattle.lwp_explore.specs.Standing.{IsCalled, IsFurther, IsGone, IsTakeOf, IsTaken, core_now, has_left_of, is_takeable_of, trace_now};
ghost use Rattle.lwp_explore.specs.Ways.{tail_of};
ghost use Rattle.pod_runner.specs.Run.{Tells};
ghost use Rattle.pod_runner.specs.Snapshots.{IsSnapshot};
ghost use Rattle.script_body.specs.BodyKeys.{body_numbers};
ghost use Rattle.script_body.specs.Posted.{IsPosted};
ghost use Rattle.script_session.specs.SoFar.{opening_run, session_at};
ghost use Rattle.script_text.specs.Limits.{IsWithinLimits};
ghost use Rattle.script_text.specs.Script.{proc_names};
ghost use Rattle.session_cores.specs.CoreCode.{core_key};
ghost use Rattle.std.specs.Prelude.{◌≡◌, ◌+◌, ◌++◌, ◌<◌, ◌≤◌, IfNone, IfOk, IfSome, OnOk, Some, false, length, option_map, slice_get, true};
ghost use Rattle.streams.specs.Streams.{sides};

use crate::kinds::{End, Kind, number_of};
use crate::lines::has_line;
use crate::posts::ClientPosts;
use crate::step_sink::{StepSink, Told};
use crate::tails::tail_of;
use lists::cloned;
use lwp_types::{NoMemory, Sink};
use pod_runner::{Phase, Run, RunErr};
use script_body::{ScriptProgram, ThreadBody};
use search::{Machine, NoMemory as Refused};
use session_cores::put_core;
use snapshots::Snapshot;
use std::alloc::Global;
use std::marker::Model;
use std::mem::replace;
use streams::CountSink;
use trace_text::Halt;

/// A run of a script.
pub type ScriptRun<'s> = Run<'s, ThreadBody<'s>, ScriptProgram<'s>>;

/// A session, how many lines of each client it has taken, and the line that is looked for, if one is.
#[derive(Drop)]
pub struct ScriptMachine<'s, 'p> {
    alloc: Global,
    // In a box, so that a machine is moved at little cost.
    run: Box<ScriptRun<'s>>,
    posts: &'p ClientPosts<'s>,
    taken: Vec<u64>,
    sought: Option<&'p [u8]>,
    // What its steps have told, as long as each of them looked for a line.
    told: Option<Told>,
    has_failed: bool,
}

impl<'s, 'p> Model for ScriptMachine<'s, 'p> {
    ghost use Rattle.lwp_explore.specs.Standing.{HasTold, IsStanding, Standing};
    ghost use Rattle.std.specs.Prelude.{option_map};

    ghost Value = { Standing };

    ghost view = { λ m. record {
      script = m.posts.now;
      run = m.run.value;
      sought = option_map (λ line. line.now) m.sought;
      failed = m.has_failed;
    } };

    ghost invariant = { λ m. IsStanding m.posts.now m.run.value m.taken.items m.has_failed
        × HasTold m.posts.now m.run.value m.told m.has_failed };
}

fn refused(_: RunErr) -> Refused {
    Refused
}

impl<'s, 'p> ScriptMachine<'s, 'p> {
    /// A session before its first step, of at most so many calls as its run may make.
    pub fn new(
        alloc: Global,
        run: ScriptRun<'s>,
        posts: &'p ClientPosts<'s>,
        sought: Option<&'p [u8]>,
    ) -> Result<ScriptMachine<'s, 'p>, NoMemory>
        requires within { IsWithinLimits posts.now }
        requires posted { IsPosted posts.now }
        requires opens { run ≡ opening_run posts.now run.turns }
        ensures { IfOk result
            (λ machine.
            machine
            ≡ record { script = posts.now; run = run.entry; sought = option_map (λ line. line.now) sought.entry; failed = false }) }
    {
        let taken = Vec::from_elem(alloc, 0, posts.clients())?;
        Ok(ScriptMachine {
            alloc,
            run: Box::new(alloc, run)?,
            posts,
            taken,
            sought,
            told: Some(Told::nothing()),
            has_failed: false,
        })
    }

    /// How many calls were made.
    pub fn calls(&self) -> u64
        ensures { result ≡ self.now.run.calls }
    {
        self.run.calls()
    }

    /// How many lines were taken.
    pub fn takes(&self) -> usize
        ensures { result ≡ length self.now.run.takes }
    {
        self.run.takes()
    }

    /// The session as a plain value. It is refused where there is no memory for it.
    pub fn snapshot(&self) -> Result<Snapshot<'s>, NoMemory>
        requires { self.now.failed ≡ false }
        ensures { IfOk result
            (λ snap.
            IsSnapshot (length self.now.script.clients) self.now.run.takes self.now.run.calls
            (session_at self.now.script self.now.run.takes self.now.run.calls).live snap) }
    {
        self.run.snapshot(self.posts.clients())
    }

    // Whether a client has a line left.
    fn has_left(&self, client: usize) -> bool
        requires sound { self.now.failed ≡ false }
        requires client { client < length self.now.script.clients }
        ensures { result ≡ has_left_of self.now client }
    {
        self.taken[client] < u64::from(self.posts.count(client))
    }

    // Whether the next line of a client can be taken.
    fn is_takeable(&self, client: usize) -> bool
        requires sound { self.now.failed ≡ false }
        requires client { client < length self.now.script.clients }
        ensures { result ≡ is_takeable_of self.now client }
    {
        self.has_left(client) && self.run.wants(self.posts.event(client))
    }

    // How many clients have a line that can be taken.
    fn takeable(&self) -> u32
        requires { self.now.failed ≡ false }
        ensures all { result ≡ length (takes_at (world_of self.now.script) (core_now self.now)) }
        ensures few { result ≤ 16 }
    {
        let mut count = 0;
        for client in 0..self.posts.clients() {
            if self.is_takeable(client) {
                count += 1;
            }
        }
        count
    }

    // Whether some client has a line left.
    fn is_left(&self) -> bool
        requires { self.now.failed ≡ false }
        ensures { result ≡ has_left (world_of self.now.script) (core_now self.now) }
    {
        for client in 0..self.posts.clients() {
            if self.has_left(client) {
                return true;
            }
        }
        false
    }

    // The client whose line this step takes; none for a call.
    fn client_at(&self, number: u32) -> Option<usize>
        requires { self.now.failed ≡ false }
        ensures take { IfSome result (λ client. IsTakeOf self.now number client) }
        ensures call { IfNone result (length (takes_at (world_of self.now.script) (core_now self.now)) ≤ number) }
    {
        let mut before = 0;
        for client in 0..self.posts.clients() {
            if self.is_takeable(client) {
                if before == number {
                    return Some(client);
                }
                before += 1;
            }
        }
        None
    }

    /// Of each client, how many lines are left. It is refused where there is no memory for them.
    pub fn lines_left(&self) -> Result<Vec<u32>, NoMemory>
        requires { self.now.failed ≡ false }
        ensures { IfOk result (λ left. left.items ≡ lines_left (world_of self.now.script) (core_now self.now)) }
    {
        let mut left = Vec::new(self.alloc);
        for client in 0..self.posts.clients() {
            left.push(self.posts.count(client) - self.taken[client] as u32)?;
        }
        Ok(left)
    }

    /// How the session is over, if it is.
    pub fn halt(&self) -> Option<Halt>
        requires { self.now.failed ≡ false }
        ensures { result ≡ halt_of (world_of self.now.script) (core_now self.now) }
    {
        match self.run.phase() {
            Phase::Ended(status) => Some(Halt::Ended(status)),
            Phase::Idle => {
                if self.takeable() == 0 {
                    Some(Halt::Stuck)
                } else {
                    None
                }
            }
            Phase::Turn => None,
            Phase::Spent => None,
        }
    }

    // Takes the next line of a client.
    fn take<K: Sink>(&mut self, client: usize, sink: &mut K) -> Result<(), RunErr>
        requires sound { self.old.failed ≡ false }
        requires client { client < length self.old.script.clients }
        requires may { is_takeable_of self.old client ≡ true }
        ensures further { IsFurther self.old self.new }
        ensures sound { OnOk result (self.new.failed ≡ false) }
        ensures there { OnOk result (IsTaken self.old client self.new) }
        ensures longer { OnOk result (length self.new.run.takes ≡ length self.old.run.takes + 1) }
        ensures calls { OnOk result (self.new.run.calls ≡ self.old.run.calls) }
        ensures told { Tells (sides K.written K.faults sink.old sink.new)
            (trace_now self.old) (trace_now self.old) (trace_now self.new) result }
    {
        self.has_failed = true;
        self.told = None;
        let line = self.posts.line(client, self.taken[client] as u32);
        self.taken[client] += 1;
        match self.run.offer(self.posts.event(client), line, sink) {
            Ok(()) => {
                self.has_failed = false;
                Ok(())
            }
            Err(e) => Err(e),
        }
    }

    // Makes the call, unless the run has made all that it may.
    fn call<K: Sink>(&mut self, sink: &mut K) -> Result<(), RunErr>
        requires sound { self.old.failed ≡ false }
        ensures further { IsFurther self.old self.new }
        ensures sound { OnOk result (self.new.failed ≡ false) }
        ensures there { OnOk result (IsCalled self.old self.new) }
        ensures longer { OnOk result (self.new.run.calls ≡ self.old.run.calls + 1) }
        ensures takes { OnOk result (self.new.run.takes ≡ self.old.run.takes) }
        ensures told { Tells (sides K.written K.faults sink.old sink.new)
            (trace_now self.old) (trace_now self.old) (trace_now self.new) result }
    {
        match self.run.phase() {
            Phase::Turn => {}
            _ => return Err(RunErr::NoMemory),
        }
        self.has_failed = true;
        self.told = None;
        match self.run.turn(sink) {
            Ok(()) => {
                self.has_failed = false;
                Ok(())
            }
            Err(e) => Err(e),
        }
    }

    /// Goes one step, and writes its lines. After an error the machine has failed, or all calls that the run may make were made.
    pub fn go<K: Sink>(&mut self, number: u32, sink: &mut K) -> Result<(), RunErr>
        requires sound { self.old.failed ≡ false }
        requires step { number < length (steps_at (world_of self.old.script) (core_now self.old)) }
        ensures further { IsFurther self.old self.new }
        ensures sound { OnOk result (self.new.failed ≡ false) }
        ensures there { OnOk result
            (slice_get (after (world_of self.old.script) (core_now self.old)) number
            ≡ Some (core_now self.new)) }
        ensures step { OnOk result (IsGone self.old number self.new) }
        ensures longer { OnOk result
            (self.new.run.calls + length self.new.run.takes
            ≡ self.old.run.calls + length self.old.run.takes + 1) }
        ensures counted { OnOk result (IsCounted self.old number self.new) }
        ensures told { Tells (sides K.written K.faults sink.old sink.new)
            (trace_now self.old) (trace_now self.old) (trace_now self.new) result }
    {
        match self.client_at(number) {
            Some(client) => self.take(client, sink),
            None => self.call(sink),
        }
    }

    // Whether one of these lines of the last step, or of those after it, is the one that is looked for.
    fn has_told(&self, lines: Vec<u8>, sought: &[u8]) -> Result<bool, NoMemory>
        requires { self.now.failed ≡ false }
        ensures { IfOk result
            (λ found.
            found
            ≡ has_line (lines.items ++ tail_of (world_of self.now.script) (core_now self.now)) sought.now) }
    {
        let mut text = lines;
        if let Some(halt) = self.halt() {
            text.extend_from_slice(&tail_of(self.alloc, self, &halt)?)?;
        }
        Ok(has_line(&text, sought))
    }

    // Goes one step. Answers whether one of its lines, or of those after the last step, is the one that is looked for.
    fn go_and_look(&mut self, number: u32, sought: &[u8]) -> Result<bool, RunErr>
        requires sound { self.old.failed ≡ false }
        requires step { number < length (steps_at (world_of self.old.script) (core_now self.old)) }
        ensures further { IsFurther self.old self.new }
        ensures sound { OnOk result (self.new.failed ≡ false) }
        ensures there { OnOk result
            (slice_get (after (world_of self.old.script) (core_now self.old)) number
            ≡ Some (core_now self.new)) }
        ensures marked { IfOk result
            (λ found.
            found
            ≡ writes (world_of self.old.script) (proc_names self.old.script) sought.now (core_now self.old) number) }
    {
        let Some(before) = replace(&mut self.told, None) else {
            return Err(RunErr::NoMemory);
        };
        let mut sink = StepSink::new(self.alloc, &before);
        self.go(number, &mut sink)?;
        let Some((told, lines)) = sink.after(&before) else {
            return Err(RunErr::NoMemory);
        };
        let found = self.has_told(lines, sought)?;
        self.told = Some(told);
        Ok(found)
    }

    /// Another machine that stands at the same place.
    pub fn copy(&self) -> Result<ScriptMachine<'s, 'p>, NoMemory>
        ensures { IfOk result (λ copy. copy ≡ self.now) }
    {
        Ok(ScriptMachine {
            alloc: self.alloc,
            run: Box::new(self.alloc, self.run.again()?)?,
            posts: self.posts,
            taken: cloned(&self.taken)?,
            sought: self.sought,
            told: match &self.told {
                Some(told) => Some(told.again()),
                None => None,
            },
            has_failed: self.has_failed,
        })
    }

    fn put_key(&self, key: &mut Vec<u8>) -> Result<(), NoMemory>
        requires { self.now.failed ≡ false }
        ensures { OnOk result (key.new.items ≡ core_key body_numbers (core_now self.now)) }
    {
        put_core(&self.run, &self.taken, key)
    }

    fn kind_now(&self) -> Option<u32>
        requires { self.now.failed ≡ false }
        ensures { result ≡ core_number (world_of self.now.script) (core_now self.now) }
    {
        let left = self.is_left();
        match self.halt() {
            Some(Halt::Ended(status)) => Some(number_of(Kind {
                end: End::Ended(u32::from(status)),
                left,
            })),
            Some(Halt::Stuck) => Some(number_of(Kind {
                end: End::Stuck,
                left,
            })),
            Some(Halt::Spent) => None,
            None => {
                let takes = self.takeable();
                if takes == 0 {
                    Some(number_of(Kind {
                        end: End::Endless,
                        left,
                    }))
                } else {
                    None
                }
            }
        }
    }
}

impl<'s, 'p> Machine for ScriptMachine<'s, 'p> {
    ghost use Rattle.lwp_explore.specs.KeyLaws.{script_keys_differ};
    ghost use Rattle.lwp_explore.specs.Searching.{script_moves};
    ghost use Rattle.lwp_explore.specs.Standing.{core_now};
    ghost use Rattle.script_body.specs.declared.thread_body.ThreadBody.{ThreadBody};
    ghost use Rattle.session_cores.specs.Core.{Core as AnyCore};

    ghost Core = { AnyCore ThreadBody };

    ghost moves = { λ m. script_moves m.script m.sought };

    ghost core = { core_now };

    ghost keys_differ = { λ m. script_keys_differ m.script m.sought };

    fn again(&self) -> Result<ScriptMachine<'s, 'p>, Refused> {
        match self.copy() {
            Ok(copy) => Ok(copy),
            Err(_) => Err(Refused),
        }
    }

    fn steps(&self) -> Result<u32, Refused> {
        if self.has_failed {
            return Err(Refused);
        }
        let takes = self.takeable();
        match self.run.phase() {
            Phase::Turn => Ok(takes + 1),
            Phase::Spent => Err(Refused),
            Phase::Ended(_) => Ok(takes),
            Phase::Idle => Ok(takes),
        }
    }

    fn step(&mut self, number: u32) -> Result<bool, Refused> {
        if self.has_failed {
            return Err(Refused);
        }
        let done = match self.sought {
            Some(sought) => self.go_and_look(number, sought),
            None => match self.go(number, &mut CountSink::new()) {
                Ok(()) => Ok(false),
                Err(e) => Err(e),
            },
        };
        match done {
            Ok(marked) => Ok(marked),
            Err(e) => Err(refused(e)),
        }
    }

    fn key(&self, key: &mut Vec<u8>) -> Result<(), Refused> {
        if self.has_failed {
            return Err(Refused);
        }
        match self.put_key(key) {
            Ok(()) => Ok(()),
            Err(_) => Err(Refused),
        }
    }

    fn kind(&self) -> Result<Option<u32>, Refused> {
        if self.has_failed {
            return Err(Refused);
        }
        Ok(self.kind_now())
    }
}
