// The inlets of a pod and the threads that post to them.
ghost use Rattle.script_run.specs.Ends.{IsEnd, IsReady, posting_of};
ghost use Rattle.script_run.specs.Served.{lines_in_all};
ghost use Rattle.script_run.specs.Ties.{IsWork};
ghost use Rattle.std.specs.Prelude.{All, IfOk, length, map, ◌≡◌, ◌≤◌};

use crate::inlet::AnyInlet;
use crate::job::{Job, join, start};
use crate::opening::{Opened, Seat, open_all};
use crate::poster::{AnyEnd, AnyPoster, post_any};
use event_gate::{Bell, PostGate};
use lwp_types::{NoMemory, Text};
use std::alloc::Global;
use std::marker::Model;
use std::snapshot::Snapshot;
use std::sync::Wait;
use std::thread::{Promise, PromisedHandle, Scope, Threads};

/// What a client's thread does: it posts the client's texts.
#[derive(Drop)]
pub(crate) struct Posts<'s, G> {
    poster: AnyPoster<'s>,
    gate: G,
    texts: &'s Vec<Text<'s>>,
    bell: &'s Bell,
}

impl<'s, G: PostGate + Send> Job for Posts<'s, G> {
    type End = AnyEnd<'s>;

    ghost ready = { λ j. IsReady (posting_of j.poster).place (posting_of j.poster).client j.texts.now.items
        (posting_of j.poster) };

    ghost ends = { λ j e. IsEnd (posting_of j.poster).place (posting_of j.poster).client j.texts.now.items e };

    fn run<R: Wait>(self, rt: &R) -> AnyEnd<'s> {
        let Posts {
            poster,
            mut gate,
            texts,
            bell,
        } = self;
        post_any(rt, poster, &mut gate, texts.as_slice(), bell)
    }
}

/// What a client's thread will bring back.
#[derive(Drop)]
pub(crate) struct Owes<'s> {
    pub(crate) poster: Snapshot<AnyPoster<'s>>,
    pub(crate) texts: Snapshot<Vec<Text<'s>>>,
}

impl<'s> Promise<AnyEnd<'s>> for Owes<'s> {
    ghost kept_by = { λ p e. IsEnd (posting_of p.poster.value).place (posting_of p.poster.value).client
        p.texts.value.items e };
}

/// What a client's thread does there, or did here, where none could be started.
#[derive(Drop)]
pub(crate) enum Work<'s> {
    There(PromisedHandle<AnyEnd<'s>, Owes<'s>>),
    Here(AnyEnd<'s>),
}

impl<'s> Work<'s> {
    ghost use Rattle.std.specs.Prelude.{List, ℕ};

    // What came of it, once its thread has ended.
    fn end<R: Threads>(self, rt: &R) -> AnyEnd<'s>
        ensures { (place : List ℕ) (client : ℕ) (texts : List (List ℕ)) →
            IsWork place client texts self.entry → IsEnd place client texts result }
    {
        match self {
            Work::There(handle) => join(rt, handle),
            Work::Here(end) => end,
        }
    }
}

/// A client whose pass is still out.
#[derive(Drop)]
pub(crate) struct Client<'s> {
    /// The place of its inlet.
    pub(crate) inlet: usize,
    pub(crate) work: Work<'s>,
}

// Starts a thread that posts. Where none can be started, the lines are posted here and now.
fn start_posts<'s, E, G: PostGate + Send + 's, R: Threads + Wait + Sync>(
    scope: &Scope<'s, E>,
    rt: &'s R,
    posts: Posts<'s, G>,
) -> Work<'s>
    requires { IsReady (posting_of posts.poster).place (posting_of posts.poster).client
        posts.texts.now.items (posting_of posts.poster) }
    ensures { IsWork (posting_of posts.entry.poster).place (posting_of posts.entry.poster).client
        posts.entry.texts.now.items result }
{
    let promise = Owes {
        poster: Snapshot::of(&posts.poster),
        texts: Snapshot::of(posts.texts),
    };
    match start(scope, rt, promise, posts) {
        Ok(handle) => Work::There(handle),
        Err(end) => Work::Here(end),
    }
}

// Starts the thread of a client.
fn start_client<'s, E, G: PostGate + Send + 's, R: Threads + Wait + Sync>(
    scope: &Scope<'s, E>,
    rt: &'s R,
    seat: Seat<'s>,
    gate: G,
    texts: &'s Vec<Text<'s>>,
    bell: &'s Bell,
) -> Client<'s>
    requires { IsReady (posting_of seat.poster).place (posting_of seat.poster).client
        texts.now.items (posting_of seat.poster) }
    ensures inlet { result.inlet ≡ seat.entry.inlet }
    ensures work { IsWork (posting_of seat.entry.poster).place (posting_of seat.entry.poster).client
        texts.now.items result.work }
{
    let Seat { inlet, poster } = seat;
    let posts = Posts {
        poster,
        gate,
        texts,
        bell,
    };
    Client {
        inlet,
        work: start_posts(scope, rt, posts),
    }
}

/// That all clients have posted all their lines, and how many these are. Contracts see the number. Nobody but `Outside::close` makes
/// one, so anyone who has one has been told so.
#[derive(Drop)]
pub struct AllPosted {
    lines: u32,
}

impl Model for AllPosted {
    ghost use Rattle.std.specs.Prelude.{ℕ};

    ghost Value = { ℕ };

    ghost view = { λ p. p.lines };
}

impl AllPosted {
    /// How many lines were posted.
    pub fn lines(&self) -> u32
        ensures { result ≡ self.now }
    {
        self.lines
    }
}

// How many texts all clients have.
fn lines_in_all(texts: &[Vec<Text>]) -> u32
    requires clients { length (map (λ v. v.items) texts.now) ≤ 16 }
    requires few { All (λ ts. length ts ≤ 20000) (map (λ v. v.items) texts.now) }
    ensures { result ≡ lines_in_all (map (λ v. v.items) texts.now) }
{
    let mut lines = 0;
    for of_client in texts {
        lines += of_client.len() as u32;
    }
    lines
}

// How many texts each client has.
fn rooms_of(alloc: Global, texts: &[Vec<Text>]) -> Result<Vec<u32>, NoMemory>
    requires few { All (λ ts. length ts.items ≤ 20000) texts.now }
    ensures { IfOk result (λ rooms. rooms.items ≡ map (λ v. length v.items) texts.now) }
{
    let mut rooms = Vec::new(alloc);
    for client in 0..texts.len() {
        rooms.push(texts[client].len() as u32)?;
    }
    Ok(rooms)
}

/// The inlets of a pod, and the threads that post to them.
pub struct Outside<'s> {
    /// One of each event that has a client, by rising event.
    pub inlets: Vec<AnyInlet<'s>>,
    // The event and the texts of each client.
    pub(crate) events: &'s [u8],
    pub(crate) texts: &'s [Vec<Text<'s>>],
    // The first clients. The passes of the others have been taken in.
    pub(crate) out: Vec<Client<'s>>,
    // Whether those have posted all their lines.
    pub(crate) all: bool,
}

// PROVER: written by hand, so that a function that drops one calls this instead of repeating its proof.
impl<'s> Drop for Outside<'s> {
    fn drop(self) {
        let Outside {
            inlets: _,
            events: _,
            texts: _,
            out: _,
            all: _,
        } = self;
    }
}

impl<'s> Outside<'s> {
    ghost use Rattle.event_gate.specs.Inlet.{EachInlet};
    ghost use Rattle.script_run.specs.Inlets.{fresh};
    ghost use Rattle.script_run.specs.Served.{AreServed, Hears, lines_in_all};
    ghost use Rattle.script_run.specs.Ties.{AreTied, IsClosed, IsSameOutside, IsTied, all_texts, events_of, intakes};
    ghost use Rattle.std.specs.Prelude.{All, IfOk, IfSome, [], is_some, length, map, ◌++◌, ◌∷◌, ◌≤◌};

    /// Opens an inlet for each event that has a client, and starts a thread for each client, which posts its texts. The rings and
    /// the leaving of each are heard at the bell. Client c has gate c.
    pub fn start<E, G: PostGate + Send + 's, R: Threads + Wait + Sync>(
        scope: &Scope<'s, E>,
        rt: &'s R,
        alloc: Global,
        events: &'s [u8],
        texts: &'s [Vec<Text<'s>>],
        gates: Vec<G>,
        bell: &'s Bell,
    ) -> Result<Outside<'s>, NoMemory>
        requires clients { length events.now ≤ 16 }
        requires events { All (λ e. e ≤ 31) events.now }
        requires texts { length texts.now ≡ length events.now }
        requires few { All (λ ts. length ts.items ≤ 20000) texts.now }
        requires gates { length events.now ≤ length gates.items }
        ensures tied { IfOk result IsTied }
        ensures events { IfOk result (λ o. events_of o ≡ events.now) }
        ensures texts { IfOk result (λ o. all_texts o ≡ map (λ v. v.items) texts.now) }
        ensures fresh { IfOk result (λ o. All (λ t. t ≡ fresh t.place t.event t.noted) (intakes o)) }
    {
        let rooms = rooms_of(alloc, texts)?;
        let Opened { inlets, seats } = open_all(rt, alloc, events, &rooms)?;
        let mut out = Vec::with_capacity(alloc, events.len())?;
        let mut gates = gates.into_iter();
        for seat in seats {
            let Some(seat) = seat else { unreachable!() };
            let Some(gate) = gates.next() else {
                unreachable!()
            };
            let texts = &texts[out.len()];
            out.push_reserved(start_client(scope, rt, seat, gate, texts, bell));
        }
        Ok(Outside {
            inlets,
            events,
            texts,
            out,
            all: true,
        })
    }

    /// Joins each thread that is still out, and takes in its pass. Answers that all clients have posted all their lines, exactly
    /// where they have. It may be called again, after more lines were taken.
    pub fn close<R: Threads>(&mut self, rt: &R) -> Option<AllPosted>
        requires { IsTied self.old }
        ensures tied { IsTied self.new }
        ensures same { IsSameOutside self.old self.new }
        ensures inlets { EachInlet Hears (intakes self.old) (intakes self.new) }
        ensures closed { IsClosed self.new }
        ensures served { AreServed (events_of self.new) (all_texts self.new) (is_some result)
            (intakes self.new) }
        ensures lines { IfSome result (λ lines. lines ≡ lines_in_all (all_texts self.new)) }
    {
        self.join_all(rt);
        if !self.all {
            return None;
        }
        Some(AllPosted {
            lines: lines_in_all(self.texts),
        })
    }

    // Joins each thread that is still out, and takes in its pass.
    fn join_all<R: Threads>(&mut self, rt: &R)
        requires { IsTied self.old }
        ensures tied { IsTied self.new }
        ensures same { IsSameOutside self.old self.new }
        ensures inlets { EachInlet Hears (intakes self.old) (intakes self.new) }
        ensures closed { IsClosed self.new }
        ensures served { AreServed (events_of self.new) (all_texts self.new) self.new.all
            (intakes self.new) }
    {
        while let Some(client) = self.out.pop() {
            self.take_back(rt, client);
        }
    }

    // Takes in the pass of the client after all that are out, when its thread has ended.
    fn take_back<R: Threads>(&mut self, rt: &R, client: Client<'s>)
        requires { AreTied (events_of self.old) (all_texts self.old) self.old.all
            (self.old.out.items ++ client ∷ []) (intakes self.old) }
        ensures tied { IsTied self.new }
        ensures same { IsSameOutside self.old self.new }
        ensures out { self.new.out.items ≡ self.old.out.items }
        ensures inlets { EachInlet Hears (intakes self.old) (intakes self.new) }
    {
        let Client { inlet, work } = client;
        let AnyEnd { pass, all } = work.end(rt);
        self.inlets[inlet].take_in(pass);
        self.all &= all;
    }
}
