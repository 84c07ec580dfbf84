// How long work takes, told while it lasts.
ghost use Rattle.std.specs.Prelude.{◌≡◌};

use std::io::{IsTerminal, Write};
use std::sync::Wait;
use std::sync::atomic::{AtomicBool, Ordering};
use std::thread::{self, Parker, Threads};
use std::time::{Duration, Instant};

// Takes the cursor to the first column, and clears the line.
const CLEARED: &[u8] = b"\r\x1b[K";

// Whether some work is over, and what wakes the thread that tells how long it takes.
#[derive(Drop)]
struct Work {
    over: AtomicBool,
    bell: Parker,
}

impl Work {
    fn new() -> Work {
        Work {
            over: AtomicBool::new(false),
            bell: Parker::new(),
        }
    }

    fn end(&self) {
        self.over.store(true, Ordering::SeqCst);
        self.bell.unpark();
    }

    // Waits for a second, or until the work is over, and answers whether it goes on.
    fn goes_on<R: Wait>(&self, threads: &R) -> bool {
        self.bell.park_timeout(threads, Duration::from_secs(1));
        !self.over.load(Ordering::SeqCst)
    }
}

// Tells each second how long this work has taken so far, until it is over; then clears what was told.
fn tell_time<R: Wait>(rt: &HostRuntime, threads: &R, program: &str, work: &Work) {
    let Ok(began) = Instant::now(rt) else {
        return;
    };
    let mut told = 0;
    for _ in 0..u32::MAX {
        if !work.goes_on(threads) {
            break;
        }
        let Ok(taken) = began.elapsed(rt) else {
            break;
        };
        if told < taken.as_secs() {
            told = taken.as_secs();
            let _ = rt.stderr().write_all(CLEARED);
            let _ = eprint!(rt; "{program}: at work for {told} s");
        }
    }
    if 0 < told {
        let _ = rt.stderr().write_all(CLEARED);
    }
}

/// Does the work in this thread. Meanwhile standard error is told once a second how long it has taken, if that is a terminal and
/// `is_long` says that the work may take long; it is told nothing else, and what it was told is cleared at the end.
pub fn tell_time_while<T, F: FnOnce() -> T, R: Threads + Wait + Sync>(
    rt: &HostRuntime,
    threads: &R,
    program: &str,
    is_long: bool,
    work: F,
) -> T
    requires { F.pre work }
    ensures { F.post work result }
{
    if !is_long || !rt.stderr().is_terminal() {
        return work();
    }
    let whole = Work::new();
    let whole = &whole;
    let (_, result) = thread::join(
        threads,
        move || tell_time(rt, threads, program, whole),
        move || -> T
            requires { F.pre work }
            ensures { F.post work result }
        {
            let result = work();
            whole.end();
            result
        },
    );
    result
}
