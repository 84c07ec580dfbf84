// The thread that reads an input and posts its lines. What it is to do, `specs/Reader.antt` says.
use crate::arrival::Arrival;
use crate::arrivals::Arrivals;
use crate::desk::Desk;
use crate::stop::Stop;
use crate::store::Store;
use event_gate::Bell;
use lwp_types::Sink;
use script_run::AnyPoster;
use std::alloc::Global;
use std::snapshot::Snapshot;
use std::thread::Promise;

/// What a run is fed by: an input, whose lines are posted; a sink that takes each post as a line of a script, before it is posted; and
/// one that takes what is said of lines that are no posts.
#[derive(Drop)]
pub struct Supply<I: Arrivals, P: Sink + Send + Drop, C: Sink + Send + Drop> {
    pub input: I,
    pub posts: P,
    pub said: C,
}

/// What the reader's thread does: it posts the lines of an input.
#[derive(Drop)]
pub struct Reader<'s, I: Arrivals, P: Sink + Send + Drop, C: Sink + Send + Drop> {
    pub alloc: Global,
    /// One of each client, in order.
    pub posters: Vec<AnyPoster<'s>>,
    pub desk: Desk,
    /// What is posted first.
    pub first: &'s [Arrival<'s>],
    pub store: &'s Store,
    pub bell: &'s Bell,
    /// What came of a line that has no end yet.
    pub begun: Vec<u8>,
    pub supply: Supply<I, P, C>,
}

/// What the reader brings back: the clients' ends, in order; whether it has posted all, or else why not; and its supply.
#[derive(Drop)]
pub struct ReaderEnd<'s, I: Arrivals, P: Sink + Send + Drop, C: Sink + Send + Drop> {
    pub posters: Vec<AnyPoster<'s>>,
    pub done: Result<(), Stop>,
    pub supply: Supply<I, P, C>,
}

/// What the reader's thread will bring back.
#[derive(Drop)]
pub struct Owes<'s, I: Arrivals, P: Sink + Send + Drop, C: Sink + Send + Drop> {
    pub reader: Snapshot<Reader<'s, I, P, C>>,
}

impl<'s, I: Arrivals, P: Sink + Send + Drop, C: Sink + Send + Drop> Promise<ReaderEnd<'s, I, P, C>>
    for Owes<'s, I, P, C> {
    ghost use Rattle.lwp_live.specs.Reader.{HasServed};

    ghost kept_by = { λ p e. HasServed I.given P.written P.faults C.written C.faults p.reader.value e };
}
