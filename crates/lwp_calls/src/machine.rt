// A pod as a machine, around which events of the pod's own may lie.
use crate::Pod;
use lwp_types::{Again, Call, Effects, Flags, NoMemory, PodEnd, Text, Tid};
use pod_events::{Copied, Driven, Machine, Timed};
use snapshots::StateCopy;

impl<'s> Machine for Pod<'s> {
    ghost use Rattle.lwp_types.specs.State.{State};

    ghost state = { λ (s : State). s };

    fn current(&self) -> Option<Tid> {
        Pod::current(self)
    }

    fn ending(&self) -> Option<PodEnd> {
        Pod::ending(self)
    }

    fn is_live(&self, tid: Tid) -> bool {
        Pod::is_live(self, tid)
    }

    fn armed(&self, event: u8) -> bool {
        Pod::armed(self, event)
    }

    fn next_armed(&self, from: u8) -> Option<u8> {
        Pod::next_armed(self, from)
    }

    fn flags(&self, tid: Tid) -> Option<Flags> {
        Pod::flags(self, tid)
    }

    fn has_agent(&self, event: u8) -> bool {
        Pod::has_agent(self, event)
    }

    fn threads(&self) -> usize {
        Pod::threads(self)
    }
}

impl<'s> Driven<'s> for Pod<'s> {
    #[inline(always)]
    fn call(&mut self, call: &Call<'s>, effects: &mut Effects<'s>) -> Result<(), NoMemory> {
        Pod::call(self, call, effects)
    }

    #[inline(always)]
    fn deliver(&mut self, event: u8, text: Text<'s>, effects: &mut Effects<'s>) {
        Pod::deliver(self, event, text, effects)
    }
}

impl<'s> Timed for Pod<'s> {
    fn now(&self) -> u64 {
        Pod::now(self)
    }

    fn next_due(&self) -> u64 {
        Pod::next_due(self)
    }

    fn pass(&mut self, ticks: u64) {
        Pod::pass(self, ticks);
    }
}

impl<'s> Copied<'s> for Pod<'s> {
    fn copy(&self) -> Result<StateCopy<'s>, NoMemory> {
        Pod::copy(self)
    }
}

impl<'s> Again for Pod<'s> {
    fn again(&self) -> Result<Pod<'s>, NoMemory> {
        Pod::again(self)
    }
}
