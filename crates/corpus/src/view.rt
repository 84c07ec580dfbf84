// What `lwpview` makes of its words and a trace.
use crate::outcome::{Outcome, Streams};
use lwp_types::NoMemory;
use std::alloc::Global;
use trace_page::{fault_text, status_of, view};

// So many times the long trace says the same.
const ROUNDS: u32 = 6_000;

/// The page of a trace, or what is said in its place.
pub fn viewed(alloc: Global, words: &Vec<String>, trace: Vec<u8>) -> Result<Outcome, NoMemory> {
    let mut streams = Streams::new(alloc, trace)?;
    let end = view(alloc, words, &mut streams.source, &mut streams.sink);
    let said = fault_text(alloc, end)?;
    streams.outcome(alloc, status_of(end), said.as_slice())
}

/// The page of a trace that has more calls than are drawn.
pub fn long_trace(alloc: Global) -> Result<Outcome, NoMemory> {
    let mut trace = Vec::new(alloc);
    for _ in 0..ROUNDS {
        trace.extend_from_slice(b"t0: yield self\nt0 = 0\n")?;
    }
    trace.extend_from_slice(b"t0: return\nt0 dies\npod ends 0\n")?;
    viewed(alloc, &Vec::new(alloc), trace)
}
