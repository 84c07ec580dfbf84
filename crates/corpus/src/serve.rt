// What `lwpserve` makes of its words and its input.
use crate::damage::{Damage, damaged};
use crate::long::repeated;
use crate::outcome::{Outcome, Streams};
use crate::row::Row;
use lwp_serve::{fault_text, no_gates, top};
use lwp_types::NoMemory;
use std::alloc::Global;
use std::sync::Wait;
use std::thread::Threads;

/// What comes of a row's script, be it damaged, repeated or as it is.
pub fn served<R: Threads + Wait + Sync>(
    alloc: Global,
    rt: &R,
    row: &Row<'_>,
    script: Vec<u8>,
) -> Result<Outcome, NoMemory> {
    if row.wanted.ends_with(".damages") {
        damaged_sessions(rt, alloc, &row.words, script.as_slice())
    } else if row.given.ends_with(".times") {
        session(rt, alloc, &row.words, repeated(alloc, script.as_slice())?)
    } else {
        session(rt, alloc, &row.words, script)
    }
}

// The session of these words.
fn session<R: Threads + Wait + Sync>(
    rt: &R,
    alloc: Global,
    words: &Vec<String>,
    script: Vec<u8>,
) -> Result<Outcome, NoMemory> {
    let mut streams = Streams::new(alloc, script)?;
    let gates = no_gates(alloc)?;
    let session = top(
        rt,
        alloc,
        words,
        &mut streams.source,
        &mut streams.sink,
        gates,
    );
    let said = fault_text(alloc, &session.end)?;
    streams.outcome(alloc, session.status, said.as_slice())
}

// Runs the script so damaged, and adds what came of it.
fn add_damaged<R: Threads + Wait + Sync>(
    rt: &R,
    alloc: Global,
    words: &Vec<String>,
    script: &[u8],
    damage: Damage,
    all: &mut Outcome,
) -> Result<(), NoMemory> {
    let one = session(rt, alloc, words, damaged(alloc, script, damage)?)?;
    let status = one.status;
    let head = format!(in alloc; "{damage}: {status}\n")?;
    all.status = all.status.max(status);
    all.text.extend_from_slice(head.as_bytes())?;
    all.text.extend_from_slice(one.text.as_slice())?;
    Ok(())
}

// The sessions of a script cut at each length and with each byte zeroed, one after the other, each headed by its damage and
// its status; the status is the greatest of theirs.
fn damaged_sessions<R: Threads + Wait + Sync>(
    rt: &R,
    alloc: Global,
    words: &Vec<String>,
    script: &[u8],
) -> Result<Outcome, NoMemory> {
    let mut all = Outcome {
        status: 0,
        text: Vec::new(alloc),
    };
    for count in 0..=script.len() {
        add_damaged(rt, alloc, words, script, Damage::Cut(count), &mut all)?;
    }
    for count in 0..script.len() {
        add_damaged(rt, alloc, words, script, Damage::Zero(count), &mut all)?;
    }
    Ok(all)
}
