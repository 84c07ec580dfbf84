// What `lwpstate` makes of its words and a script or a trace.
use crate::outcome::{Outcome, Streams};
use lwp_state::{fault_text, top};
use lwp_types::NoMemory;
use std::alloc::Global;

/// The state that is asked for, or what is said in its place.
pub fn stated(alloc: Global, words: &Vec<String>, given: Vec<u8>) -> Result<Outcome, NoMemory> {
    let mut streams = Streams::new(alloc, given)?;
    let session = top(alloc, words, &mut streams.source, &mut streams.sink);
    let said = fault_text(alloc, &session.end)?;
    streams.outcome(alloc, session.status, said.as_slice())
}
