ghost use Rattle.std.specs.Prelude.{IfOk, ◌≡◌, ◌≤◌};

use batch::{Job, run_parts, split};
use crossbeam_utils::atomic::AtomicCell;
use lwp_types::NoMemory;
use std::alloc::Global;
use std::sync::atomic::{AtomicU64, Ordering};
use std::test::*;
use std::thread::{self, Threads};

// Answers each input with its bytes. The answer to `0` waits until `1` was begun, for so many looks.
#[derive(Drop)]
struct Meeting<'a> {
    begun: &'a AtomicCell<bool>,
    gave_up: &'a AtomicCell<bool>,
    looks: u32,
}

impl Meeting<'_> {
    fn wait(&self) {
        for _ in 0..self.looks {
            if self.begun.load() {
                return;
            }
            thread::yield_now();
        }
        self.gave_up.store(true);
    }
}

fn copy_of(alloc: Global, input: &[u8]) -> Result<Vec<u8>, NoMemory>
    ensures { IfOk result (λ answer. answer.items ≡ input.now) }
{
    let mut answer = Vec::with_capacity(alloc, input.len())?;
    answer.extend_from_slice(input)?;
    Ok(answer)
}

impl Job for Meeting<'_> {
    ghost means = { λ _ input. input };

    fn answer(&self, alloc: Global, input: &[u8]) -> Result<Vec<u8>, NoMemory> {
        match input {
            b"0" => self.wait(),
            b"1" => self.begun.store(true),
            _ => {}
        }
        copy_of(alloc, input)
    }
}

// Whether the answer to `0` gave up; or no answer, where the answers aren't the bytes that are wanted.
fn met<R: Threads + Sync>(
    rt: &R,
    alloc: Global,
    threads: u32,
    looks: u32,
    text: &[u8],
    wanted: &[&[u8]],
) -> Option<bool>
    requires { (1 ≤ threads) × (threads ≤ 16) }
{
    let (begun, gave_up) = (AtomicCell::new(false), AtomicCell::new(false));
    let job = Meeting {
        begun: &begun,
        gave_up: &gave_up,
        looks,
    };
    let Ok(parts) = split(alloc, text) else {
        return None;
    };
    let Ok(answers) = run_parts(rt, alloc, threads, &job, text, &parts) else {
        return None;
    };
    if are(&answers, wanted) {
        Some(gave_up.load())
    } else {
        None
    }
}

fn are(answers: &[Vec<u8>], wanted: &[&[u8]]) -> bool {
    if answers.len() != wanted.len() {
        return false;
    }
    for (answer, bytes) in answers.iter().zip(wanted) {
        if answer.as_slice() != *bytes {
            return false;
        }
    }
    true
}

#[test]
fn two_parts_are_under_way_at_once(rt: HostRuntime) {
    let text = b"script 1\n0script 1\n1";
    let wanted: [&[u8]; 2] = [b"0", b"1"];
    let gave_up = met(&rt, rt.alloc(), 2, 10_000_000, text, &wanted);
    assert!(rt; gave_up == Some(false));
}

#[test]
fn one_thread_does_one_part_behind_the_other(rt: HostRuntime) {
    let text = b"script 1\n0script 1\n1";
    let wanted: [&[u8]; 2] = [b"0", b"1"];
    let gave_up = met(&rt, rt.alloc(), 1, 10, text, &wanted);
    assert!(rt; gave_up == Some(true));
}

const FIVE: &[u8] = b"script 2\nabscript 0\nscript 1\ncscript 3\ndefscript 1\n\n";

const FIVE_ANSWERS: [&[u8]; 5] = [b"ab", b"", b"c", b"def", b"\n"];

#[test]
fn the_answers_are_the_same_by_any_number_of_threads(rt: HostRuntime) {
    for threads in [1, 2, 4, 16] {
        let gave_up = met(&rt, rt.alloc(), threads, 0, FIVE, &FIVE_ANSWERS);
        assert!(rt; gave_up == Some(false));
    }
}

// Answers each input with its bytes, and counts how often it is asked.
#[derive(Drop)]
struct Counting<'a> {
    asked: &'a AtomicU64,
}

impl Job for Counting<'_> {
    ghost means = { λ _ input. input };

    fn answer(&self, alloc: Global, input: &[u8]) -> Result<Vec<u8>, NoMemory> {
        self.asked.fetch_add(1, Ordering::SeqCst);
        copy_of(alloc, input)
    }
}

// How often it is asked by so many threads, if memory doesn't run out.
fn times_asked<R: Threads + Sync>(rt: &R, alloc: Global, threads: u32, text: &[u8]) -> Option<u64>
    requires { (1 ≤ threads) × (threads ≤ 16) }
{
    let asked = AtomicU64::new(0);
    let job = Counting { asked: &asked };
    let Ok(parts) = split(alloc, text) else {
        return None;
    };
    let Ok(_) = run_parts(rt, alloc, threads, &job, text, &parts) else {
        return None;
    };
    Some(asked.load(Ordering::SeqCst))
}

#[test]
fn each_part_is_answered_once(rt: HostRuntime) {
    for threads in [1, 2, 4, 16] {
        assert!(rt; times_asked(&rt, rt.alloc(), threads, FIVE) == Some(5));
    }
}
