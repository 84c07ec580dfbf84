//! A queue is simulated, and what became of its customers is written.
//!
//!     queue [SEED CUSTOMERS GAP SERVICE SERVERS ROOM [svg]]
//!
//! So many customers come to so many servers; a gap between two of them and a service take so many ticks on average, up to 65,535, and
//! at most `ROOM` customers wait. Without words it is 1 10000 1000 800 1 10000. The seed determines every byte. With `svg` the histogram
//! of waits is written as a picture. The status is 2 where the words are wrong, and 3 where not all are served: without a
//! server, or if the clock stops first, after 4,294,967,295 ticks.
//!
//! The threads are those of `queue_model`, run in virtual time by `pod_runner`: what is written is a function of the session of their
//! definitions (`specs/`).
#![tactic(auto)]

mod report;
mod simulation;

use crate::simulation::{Unfinished, simulated, tell};
use queue_model::Hall;
use std::alloc::Global;
use std::env;
use std::io::Write;
use std::process::ExitCode;
use text_store::TextStore;

// What the program is asked for.
#[derive(Drop)]
struct Asked {
    seed: u64,
    customers: u64,
    gap: u16,
    service: u16,
    servers: u16,
    room: usize,
    draws: bool,
}

fn number(word: Option<&String>, default: u64) -> Option<u64> {
    match word {
        Some(word) => word.parse::<u64>().ok(),
        None => Some(default),
    }
}

fn read_words(words: &Vec<String>) -> Option<Asked> {
    Some(Asked {
        seed: number(words.get(0), 1)?,
        customers: number(words.get(1), 10_000)?,
        gap: u16::try_from(number(words.get(2), 1_000)?).ok()?,
        service: u16::try_from(number(words.get(3), 800)?).ok()?,
        servers: u16::try_from(number(words.get(4), 1)?).ok()?,
        room: usize::try_from(number(words.get(5), 10_000)?).ok()?,
        draws: words.len() > 6,
    })
}

// The simulation, and its results.
fn simulate(
    alloc: Global,
    store: &TextStore,
    asked: &Asked,
    out: &mut Vec<u8>,
) -> Result<(), Unfinished> {
    let hall = Hall {
        alloc,
        store,
        seed: asked.seed,
        customers: asked.customers,
        gap: asked.gap,
        service: asked.service,
        servers: asked.servers,
        room: asked.room,
    };
    let run = simulated(alloc, hall)?;
    tell(out, &run, asked.servers, asked.draws)?;
    Ok(())
}

fn main(rt: HostRuntime) -> ExitCode {
    let alloc = rt.alloc();
    let Ok(words) = words(&rt) else {
        return ExitCode::from(2);
    };
    let Some(asked) = read_words(&words) else {
        return ExitCode::from(2);
    };
    let store = TextStore::new(alloc);
    let mut out = Vec::new(alloc);
    match simulate(alloc, &store, &asked, &mut out) {
        Ok(()) => (),
        Err(Unfinished::NoMemory) => return ExitCode::FAILURE,
        Err(Unfinished::Unserved) => return ExitCode::from(3),
    }
    match rt.stdout().write_all(&out) {
        Ok(()) => ExitCode::SUCCESS,
        Err(_) => ExitCode::FAILURE,
    }
}

// The program's arguments, without its name.
fn words(rt: &HostRuntime) -> std::io::Result<Vec<String>> {
    let words = env::args(rt)?.skip(1).collect(rt.alloc())?;
    Ok(words)
}
