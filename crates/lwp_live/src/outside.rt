// The inlets of a pod, and the reader that posts to them. What they are to be, `specs/Outside.antt` and `specs/Reader.antt` say.
use crate::arrivals::Arrivals;
use crate::reader::{Owes, ReaderEnd};
use lwp_types::Sink;
use script_run::{AnyInlet, AnyPoster};
use std::thread::PromisedHandle;

/// The ends of the inlets: those that the run takes from, those that the clients post to, and of each client the place of its inlet.
#[derive(Drop)]
pub struct Ends<'s> {
    pub inlets: Vec<AnyInlet<'s>>,
    pub posters: Vec<AnyPoster<'s>>,
    pub places: Vec<usize>,
}

/// The reader at its work: in a thread of its own, or done here, where none could be started.
#[derive(Drop)]
pub enum Reading<'s, I: Arrivals, P: Sink + Send + Drop, C: Sink + Send + Drop> {
    There(PromisedHandle<ReaderEnd<'s, I, P, C>, Owes<'s, I, P, C>>),
    Here(ReaderEnd<'s, I, P, C>),
}
