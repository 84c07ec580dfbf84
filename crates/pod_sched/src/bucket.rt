// A bucket: the threads of one priority, as the choice sees them.
ghost use Rattle.std.specs.Prelude.{◌≡◌, ◌+◌};

use crate::buckets::Steps;
use lwp_types::Tid;
use std::marker::Model;
use std::sync::ledger::Ledger;

/// The threads of one priority that may run, as the choice sees them: the priority, and the first of them, if there is one.
/// Only a scheduler makes it.
#[derive(Drop)]
pub struct Bucket {
    prio: u32,
    first: Option<Tid>,
}

impl Model for Bucket {
    ghost use Rattle.pod_sched.specs.Schedule.{Front};

    ghost Value = { Front };

    ghost view = { λ b. record { prio = b.prio; first = b.first } };
}

impl Bucket {
    /// Of which priority it is.
    pub fn prio(&self) -> u32
        ensures { result ≡ self.now.prio }
    {
        self.prio
    }

    /// One look: the first thread of that priority, and None exactly where it has none.
    pub fn first<L: Ledger>(&self, steps: &mut Steps<L>) -> Option<Tid>
        ensures value { result ≡ self.now.first }
        ensures cost { steps.new ≡ steps.old + 1 }
    {
        steps.tick();
        self.first
    }
}

// The bucket of this priority, whose first thread is this one.
pub fn with_first(prio: u32, first: Option<Tid>) -> Bucket
    ensures prio { result.prio ≡ prio }
    ensures first { result.first ≡ first }
{
    Bucket { prio, first }
}
