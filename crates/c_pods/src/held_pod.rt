// A pod, and what its last call or delivery did.
ghost use Rattle.std.specs.Prelude.{◌≡◌, ◌≤◌, ◌<◌, ◌^◌, ◌++◌, ◌∷◌, [], IfOk, IsErr, IsTrue, OnOk, OnErr, Some, false, option_copied, slice_get};
ghost use Rattle.lwp_types.specs.State.{opening};
ghost use Rattle.lwp_types.specs.TextFields.{is_text};
ghost use Rattle.c_pods.specs.Follow.{counted};
ghost use Rattle.c_pods.specs.Held.{Tells, last_called, last_lines};
ghost use Rattle.c_pods.specs.Origins.{entries_after, first_entries, proc_of};
ghost use Rattle.c_pods.specs.declared.held_pod.Last.TheVariants as last;
ghost use Rattle.pod_events.specs.Events.{is_takeable, quiet_events, take_event};
ghost use Rattle.pod_events.specs.Machine.{asks_memory, current_of};
ghost use Rattle.pod_events.specs.Step.{event_step};

use crate::origins::{Origins, proc_of};
use lists::TextList;
use lwp_calls::Pod;
use lwp_types::{Call, Effect, Effects, Line, NoMemory, PodParams, Tid};
use pod_events::EventPod;
use std::alloc::Global;
use trace_text::StepLines;

/// What was done last.
#[derive(Drop)]
pub enum Last {
    Nothing,
    Called { tid: Tid, call: Call<'static> },
    /// A call that a trap was raised before.
    Trapped,
    Took(Line<'static>),
}

/// A pod, what its last call or delivery did, and what is written of that.
#[derive(Drop)]
pub struct HeldPod {
    pub pod: EventPod<'static, Pod<'static>>,
    pub effects: Effects<'static>,
    /// The procedures' names, as far as they were told.
    pub names: TextList,
    pub last: Last,
    /// The lines that were asked for last.
    pub lines: StepLines,
    /// The procedures that the threads began in.
    pub origins: Origins,
    /// How many calls were made.
    pub calls: u64,
}

// One more call, as far as they can be counted.
fn counted(calls: u64) -> u64
    ensures { result ≡ counted calls }
{
    if calls == u64::MAX { calls } else { calls + 1 }
}

impl HeldPod {
    /// A pod before its first call, with nothing done and no names.
    pub fn new(alloc: Global, params: PodParams) -> Result<HeldPod, NoMemory>
        requires least { 1 ≤ params.maxpri }
        requires most { params.maxpri ≤ 255 }
        requires births { 1 ≤ params.births }
        requires few_births { params.births < 2 ^ 32 }
        requires procs { 1 ≤ params.procs }
        ensures pod { IfOk result (λ held. held.pod ≡ quiet_events (opening params)) }
        ensures effects { IfOk result (λ held. held.effects ≡ []) }
        ensures names { IfOk result (λ held. held.names ≡ []) }
        ensures last { IfOk result (λ held. held.last ≡ last.Nothing) }
        ensures began { IfOk result (λ held. held.origins.entries ≡ first_entries) }
        ensures calls { IfOk result (λ held. held.calls ≡ 0) }
    {
        let pod = Pod::new(alloc, params)?;
        let pod = EventPod::new(alloc, pod)?;
        let effects = Effects::new(alloc)?;
        Ok(HeldPod {
            pod,
            effects,
            names: TextList::new(alloc),
            last: Last::Nothing,
            lines: StepLines::new(alloc),
            origins: Origins::new(alloc)?,
            calls: 0,
        })
    }

    // Nothing was done last.
    fn forget_step(&mut self)
        ensures { self.new ≡ record self.old { effects = []; last = last.Nothing } }
    {
        self.effects.clear();
        self.last = Last::Nothing;
    }

    // Makes the call, and doesn't count it.
    #[inline(always)]
    #[tactic(auto, unfolding(crate::specs::Held::Tells))]
    fn make(&mut self, tid: Tid, call: Call<'static>) -> Result<(), NoMemory>
        requires turn { current_of self.old.pod.state ≡ Some tid }
        ensures after { OnOk result (self.new.pod ≡ (event_step self.old.pod call.entry).after) }
        ensures effects { OnOk result (Tells self.old.pod call.entry self.new.effects) }
        ensures last { OnOk result (self.new.last ≡ last_called self.old.pod call.entry) }
        ensures err { OnErr result (self.new.pod ≡ self.old.pod) }
        ensures err_effects { OnErr result (self.new.effects ≡ []) }
        ensures err_last { OnErr result (self.new.last ≡ last.Nothing) }
        ensures memory { IsErr result → IsTrue (asks_memory call.entry) }
        ensures names { self.new.names ≡ self.old.names }
        ensures began { self.new.origins ≡ self.old.origins }
        ensures calls { self.new.calls ≡ self.old.calls }
    {
        let pending = self.pod.pending();
        let done = self.pod.call(&call, &mut self.effects);
        self.last = match done {
            Err(_) => Last::Nothing,
            Ok(()) => match pending {
                Some(_) => Last::Trapped,
                None => Last::Called { tid, call },
            },
        };
        done
    }

    // A create of this procedure. It stands apart from the calls that bear nobody.
    #[inline(never)]
    fn create(&mut self, tid: Tid, call: Call<'static>, proc: u32) -> Result<(), NoMemory>
        requires turn { current_of self.old.pod.state ≡ Some tid }
        requires create { proc_of call ≡ Some proc }
        ensures after { OnOk result (self.new.pod ≡ (event_step self.old.pod call.entry).after) }
        ensures effects { OnOk result (Tells self.old.pod call.entry self.new.effects) }
        ensures last { OnOk result (self.new.last ≡ last_called self.old.pod call.entry) }
        ensures err { OnErr result (self.new.pod ≡ self.old.pod) }
        ensures err_effects { OnErr result (self.new.effects ≡ []) }
        ensures err_last { OnErr result (self.new.last ≡ last.Nothing) }
        ensures names { self.new.names ≡ self.old.names }
        ensures began { OnOk result
            (self.new.origins.entries ≡ entries_after call.entry self.new.effects self.new.pod.state self.old.origins.entries) }
        ensures calls { OnOk result (self.new.calls ≡ counted self.old.calls) }
        ensures err_began { OnErr result (self.new.origins.entries ≡ self.old.origins.entries) }
        ensures err_calls { OnErr result (self.new.calls ≡ self.old.calls) }
    {
        // The room for its entry first: a create that was carried out isn't answered with no memory.
        if let Err(no_memory) = self.origins.make_room() {
            self.forget_step();
            return Err(no_memory);
        }
        self.make(tid, call)?;
        self.calls = counted(self.calls);
        self.origins.add(proc, &self.effects, &self.pod);
        Ok(())
    }

    /// The call of the thread whose turn it is.
    pub fn call(&mut self, tid: Tid, call: Call<'static>) -> Result<(), NoMemory>
        requires turn { current_of self.old.pod.state ≡ Some tid }
        ensures after { OnOk result (self.new.pod ≡ (event_step self.old.pod call.entry).after) }
        ensures effects { OnOk result (Tells self.old.pod call.entry self.new.effects) }
        ensures last { OnOk result (self.new.last ≡ last_called self.old.pod call.entry) }
        ensures err { OnErr result (self.new.pod ≡ self.old.pod) }
        ensures err_effects { OnErr result (self.new.effects ≡ []) }
        ensures err_last { OnErr result (self.new.last ≡ last.Nothing) }
        ensures memory { IsErr result → IsTrue (asks_memory call.entry) }
        ensures names { self.new.names ≡ self.old.names }
        ensures began { OnOk result
            (self.new.origins.entries ≡ entries_after call.entry self.new.effects self.new.pod.state self.old.origins.entries) }
        ensures calls { OnOk result (self.new.calls ≡ counted self.old.calls) }
        ensures err_began { OnErr result (self.new.origins.entries ≡ self.old.origins.entries) }
        ensures err_calls { OnErr result (self.new.calls ≡ self.old.calls) }
    {
        if let Some(proc) = proc_of(&call) {
            return self.create(tid, call, proc);
        }
        self.make(tid, call)?;
        self.calls = counted(self.calls);
        Ok(())
    }

    /// Takes a line, if it can be taken.
    pub fn deliver(&mut self, event: u8, line: Line<'static>) -> bool
        ensures taken { result ≡ is_takeable self.old.pod event }
        ensures after { IsTrue result → self.new.pod ≡ (take_event self.old.pod event line.entry.text).after }
        ensures effects { IsTrue result → self.new.effects ≡ (take_event self.old.pod event line.entry.text).effects }
        ensures last { IsTrue result → self.new.last ≡ last.Took line.entry }
        ensures names { self.new.names ≡ self.old.names }
        ensures began { self.new.origins ≡ self.old.origins }
        ensures calls { self.new.calls ≡ self.old.calls }
        ensures same { result ≡ false → self.new ≡ self.old }
    {
        if !self.pod.armed(event) {
            return false;
        }
        self.pod
            .deliver(event, line.text.again(), &mut self.effects);
        self.last = Last::Took(line);
        true
    }

    /// The effect at a place, counted from 0, if there is one.
    pub fn effect_at(&self, at: usize) -> Option<&Effect<'static>>
        ensures { option_copied result ≡ slice_get self.now.effects at }
    {
        if at < self.effects.len() {
            Some(self.effects.get(at))
        } else {
            None
        }
    }

    /// Names the next procedure.
    pub fn name(&mut self, name: &[u8]) -> Result<(), NoMemory>
        requires { IsTrue (is_text name.now) }
        ensures ok { OnOk result (self.new ≡ record self.old { names = self.old.names ++ name.now ∷ [] }) }
        ensures err { OnErr result (self.new ≡ self.old) }
    {
        self.names.push(name)
    }

    /// Writes the lines of the trace of what was done last.
    pub fn write_lines(&mut self) -> Result<(), NoMemory>
        ensures lines { OnOk result (self.new.lines ≡ last_lines self.old.last self.old.effects self.old.names) }
        ensures same { self.new ≡ record self.old { lines = self.new.lines } }
    {
        match &self.last {
            Last::Nothing => {
                self.lines.clear();
                Ok(())
            }
            Last::Called { tid, call } => {
                self.lines.set_call(*tid, call, &self.effects, &self.names)
            }
            Last::Trapped => self.lines.set_step(&self.effects, None, &self.names),
            Last::Took(line) => self.lines.set_step(&self.effects, Some(line), &self.names),
        }
    }
}
