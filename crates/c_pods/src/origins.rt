// Which procedure each thread began in.
ghost use Rattle.c_pods.specs.Origins.{born, first_entries, living, proc_of, thread_in, thread_made, first_made};
ghost use Rattle.lwp_types.specs.State.{is_id};
ghost use Rattle.pod_events.specs.Machine.{asks_memory};
ghost use Rattle.std.specs.List.{filter};
ghost use Rattle.std.specs.Prelude.{◌≡◌, ◌++◌, ◌<◌, IfOk, IsSome, IsTrue, OnOk, length};

use lwp_calls::Pod;
use lwp_types::{Answer, Call, Effect, Effects, NoMemory, Tid};
use pod_events::EventPod;
use std::alloc::Global;
use std::marker::Model;

/// A thread, and the procedure that it began in.
#[derive(Clone, Copy)]
pub struct Began {
    pub tid: Tid,
    pub proc: u32,
}

/// Of each thread that lives the procedure that it began in, the oldest first. Entries of the dead go when there are too many.
#[derive(Drop)]
pub struct Origins {
    entries: Vec<Began>,
}

impl Model for Origins {
    ghost use Rattle.c_pods.specs.Origins.{Known};
    ghost use Rattle.lwp_types.specs.State.{is_id};
    ghost use Rattle.std.specs.List.{filter};
    ghost use Rattle.std.specs.Prelude.{vec_capacity};

    ghost Value = { Known };

    ghost view = { λ o. record { entries = o.entries.items; places = vec_capacity o.entries } };
}

// So many entries stay without a look at who lives. It is twice what a pod may have of live threads, so that at least half of the
// entries go where any do.
const MOST_ENTRIES: usize = 2048;

/// The procedure of a create.
#[inline(always)]
pub(crate) fn proc_of(call: &Call<'static>) -> Option<u32>
    ensures value { result ≡ proc_of call.now }
    ensures memory { IsSome result → IsTrue (asks_memory call.now) }
{
    match call {
        Call::Create { proc, .. } => Some(*proc),
        _ => None,
    }
}

// The thread that an answer names.
fn thread_in(answer: &Answer<'static>) -> Option<Tid>
    ensures { result ≡ thread_in answer.now }
{
    match answer {
        Answer::Thread(tid) => Some(*tid),
        _ => None,
    }
}

// The thread that an effect of a create says was made.
fn thread_made(effect: &Effect<'static>) -> Option<Tid>
    ensures { result ≡ thread_made effect.now }
{
    match effect {
        Effect::Answered { answer, .. } => thread_in(answer),
        _ => None,
    }
}

// The first that these effects say was made.
fn first_made(effects: &Effects<'static>) -> Option<Tid>
    ensures { result ≡ first_made effects.now }
{
    for i in 0..effects.len() {
        if let Some(tid) = thread_made(effects.get(i)) {
            return Some(tid);
        }
    }
    None
}

// The entries of those that live.
fn keep_living(entries: &mut Vec<Began>, pod: &EventPod<'static, Pod<'static>>)
    ensures { entries.new.items ≡ filter (λ began. is_id pod.now.state began.tid) entries.old.items }
{
    entries.retain(|began| pod.is_live(began.tid));
}

impl Origins {
    /// The first thread, in the first procedure.
    pub(crate) fn new(alloc: Global) -> Result<Origins, NoMemory>
        ensures { IfOk result (λ origins. origins.entries ≡ first_entries) }
    {
        let mut entries = Vec::new(alloc);
        let tid = Tid { number: 0 };
        entries.push(Began { tid, proc: 0 })?;
        Ok(Origins { entries })
    }

    /// All entries.
    pub(crate) fn as_slice(&self) -> &[Began]
        ensures { result.now ≡ self.now.entries }
    {
        self.entries.as_slice()
    }

    /// Room for one entry more.
    pub(crate) fn make_room(&mut self) -> Result<(), NoMemory>
        ensures same { self.new.entries ≡ self.old.entries }
        ensures room { OnOk result (length self.new.entries < self.new.places) }
    {
        self.entries.reserve(1)?;
        Ok(())
    }

    // Where there are too many entries, those of the dead go.
    fn forget_dead(&mut self, pod: &EventPod<'static, Pod<'static>>)
        ensures { self.new.entries ≡ living pod.now.state self.old.entries }
    {
        if self.entries.len() > MOST_ENTRIES {
            keep_living(&mut self.entries, pod);
        }
    }

    /// Adds the thread that a create of this procedure made, if these effects say so.
    pub(crate) fn add(
        &mut self,
        proc: u32,
        effects: &Effects<'static>,
        pod: &EventPod<'static, Pod<'static>>,
    )
        requires { length self.old.entries < self.old.places }
        ensures { self.new.entries ≡ living pod.now.state (self.old.entries ++ born proc (first_made effects.now)) }
    {
        if let Some(tid) = first_made(effects) {
            self.entries.push_reserved(Began { tid, proc });
        }
        self.forget_dead(pod);
    }
}
