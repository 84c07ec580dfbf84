// What a program makes of its words and its input, over streams in memory of which none fails.
use lwp_types::{MemSink, MemSource, NoMemory};
use std::alloc::Global;

// What is written has room for so many bytes, of which the sink takes at most so many at once.
const ROOM: usize = 4_194_304;

const PER_CALL: usize = 1000;

/// The status that a program ends with, and its text: what it writes, followed by what it says on standard error.
#[derive(Drop)]
pub struct Outcome {
    pub status: u8,
    pub text: Vec<u8>,
}

/// The streams of a program.
#[derive(Drop)]
pub struct Streams {
    pub source: MemSource,
    pub sink: MemSink,
}

impl Streams {
    /// Streams of which the source gives these bytes.
    pub fn new(alloc: Global, given: Vec<u8>) -> Result<Streams, NoMemory> {
        Ok(Streams {
            source: MemSource::new(given, Vec::new(alloc)),
            sink: MemSink::new(alloc, ROOM, PER_CALL, Vec::new(alloc))?,
        })
    }

    /// The outcome of a program that has written to the sink, ended with this status and said this on standard error.
    pub fn outcome(&self, alloc: Global, status: u8, said: &[u8]) -> Result<Outcome, NoMemory> {
        let mut text = self.sink.bytes().to_vec(alloc)?;
        text.extend_from_slice(said)?;
        Ok(Outcome { status, text })
    }
}
