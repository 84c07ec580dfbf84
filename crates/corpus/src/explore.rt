// What `lwpexplore` makes of its words and a script.
use crate::outcome::{Outcome, Streams};
use lwp_explore::{explore_main, fault_text, status_of};
use lwp_types::NoMemory;
use std::alloc::Global;

/// What is found in all sessions of a script, or what is said in its place.
pub fn explored(alloc: Global, words: &Vec<String>, script: Vec<u8>) -> Result<Outcome, NoMemory> {
    let mut streams = Streams::new(alloc, script)?;
    let ending = explore_main(alloc, words, &mut streams.source, &mut streams.sink);
    let said = fault_text(alloc, ending)?;
    streams.outcome(alloc, status_of(ending), said.as_slice())
}
