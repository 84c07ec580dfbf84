// How a pod stands, as a text.
ghost use Rattle.c_pods.specs.Standing.{copy_of, note_of, snapshot_of, text_of_state};
ghost use Rattle.std.specs.Prelude.{◌≡◌, IfOk, map};

use crate::held_pod::HeldPod;
use crate::origins::Began;
use lwp_calls::Pod;
use lwp_types::{Answer, NoMemory, Sequence};
use pod_events::EventPod;
use snapshots::{PodCopy, Snapshot, ThreadNote};
use state_text::state_text;
use std::alloc::Global;

fn note_of(began: &Began) -> ThreadNote<'static>
    ensures { result ≡ note_of began.now }
{
    ThreadNote {
        tid: began.tid,
        proc: began.proc,
        answer: Answer::Value(0),
        last: None,
    }
}

fn notes_of(alloc: Global, entries: &[Began]) -> Result<Sequence<ThreadNote<'static>>, NoMemory>
    ensures { IfOk result (λ notes. notes ≡ map note_of entries.now) }
{
    let mut notes = Sequence::new(alloc);
    for began in entries {
        notes.push(note_of(began))?;
    }
    Ok(notes)
}

#[tactic(auto, using(crate::proofs::CopiesAgain::copy_is))]
fn copy_of(pod: &EventPod<'static, Pod<'static>>) -> Result<PodCopy<'static>, NoMemory>
    ensures { IfOk result (λ copy. copy ≡ copy_of pod.now) }
{
    pod.copy()
}

impl HeldPod {
    fn snapshot(&self, alloc: Global) -> Result<Snapshot<'static>, NoMemory>
        ensures { IfOk result (λ snap. snap ≡ snapshot_of self.now) }
    {
        Ok(Snapshot {
            pod: copy_of(&self.pod)?,
            threads: notes_of(alloc, self.origins.as_slice())?,
            calls: self.calls,
            taken: Sequence::new(alloc),
        })
    }

    /// The text of the pod's state, with the procedures' names as far as they were told, and no clients.
    #[tactic(auto, unfolding(crate::specs::Standing::text_of_state))]
    pub fn state_text(&self, alloc: Global) -> Result<Vec<u8>, NoMemory>
        ensures { IfOk result (λ text. text.items ≡ text_of_state self.now) }
    {
        let snap = self.snapshot(alloc)?;
        state_text(alloc, &snap, &self.names, &[], true)
    }
}
