// What `lwpcheck` makes of its words and a script.
use crate::outcome::{Outcome, Streams};
use lwp_types::NoMemory;
use script_advice::{check, fault_text, status_of};
use script_printer::{asks_for_print, copy};
use std::alloc::Global;

// A script may have so many bytes.
const SCRIPT_MAX: u32 = 16_777_216;

const BAD_LINES: u32 = 5_000;

/// What is wrong with a script or, where the words ask for it, the script as it is printed.
pub fn checked(alloc: Global, words: &Vec<String>, script: Vec<u8>) -> Result<Outcome, NoMemory> {
    if asks_for_print(words) {
        printed(alloc, script)
    } else {
        advised(alloc, words, script)
    }
}

// What is told of a script.
fn advised(alloc: Global, words: &Vec<String>, script: Vec<u8>) -> Result<Outcome, NoMemory> {
    let mut streams = Streams::new(alloc, script)?;
    let end = check(alloc, words, &mut streams.source, &mut streams.sink);
    streams.outcome(alloc, status_of(end), fault_text(end))
}

// The script as it is printed, or why it isn't.
fn printed(alloc: Global, script: Vec<u8>) -> Result<Outcome, NoMemory> {
    let mut streams = Streams::new(alloc, script)?;
    match copy(alloc, &mut streams.source, &mut streams.sink) {
        Ok(()) => streams.outcome(alloc, 0, &[]),
        Err(failure) => {
            let said = format!(in alloc; "lwpcheck: {failure}\n")?;
            let status = script_printer::status_of(failure);
            streams.outcome(alloc, status, said.as_bytes())
        }
    }
}

/// What is told of a script with more bad lines than are told.
pub fn many_lines(alloc: Global) -> Result<Outcome, NoMemory> {
    let mut script = Vec::new(alloc);
    script.extend_from_slice(b"lwp 1\npod 5\nproc main\n")?;
    for _ in 0..BAD_LINES {
        script.extend_from_slice(b"sey hello\n")?;
    }
    checked(alloc, &Vec::new(alloc), script)
}

/// What is told of a script that is a byte too long.
pub fn too_large(alloc: Global) -> Result<Outcome, NoMemory> {
    let mut script = Vec::new(alloc);
    for _ in 0..SCRIPT_MAX {
        script.push(b'x')?;
    }
    script.push(b'\n')?;
    checked(alloc, &Vec::new(alloc), script)
}
