use crossbeam_utils::atomic::AtomicCell;
use event_gate::Bell;
use std::sync::Wait;
use std::test::*;
use std::thread::{self, Threads};

// What another thread does: it lets others go on for a while, says that it is about to ring, and rings.
fn ring_late<R: Wait>(rt: &R, about: &AtomicCell<bool>, bell: &Bell) {
    for _ in 0..1000 {
        thread::yield_now();
    }
    about.store(true);
    bell.ring(rt);
}

// Parks while another thread is to ring. The answer is whether that one was about to when the park was over, so that the
// park has waited for it.
fn waits<R: Threads + Wait + Sync>(rt: &R, bell: &Bell) -> bool {
    let about = AtomicCell::new(false);
    let about = &about;
    thread::scope(thread::scope_env(), rt, |scope| -> bool {
        if scope.spawn(move || ring_late(rt, about, bell)).is_err() {
            ring_late(rt, about, bell);
        }
        bell.park(rt);
        about.load()
    })
}

#[test]
fn a_park_spends_the_rings_before_it(rt: HostRuntime) {
    let bell = Bell::new();
    assert!(rt; bell.gone(&rt) == 0);
    bell.ring(&rt);
    bell.ring(&rt);
    bell.park(&rt);
    assert!(rt; waits(&rt, &bell) && bell.gone(&rt) == 0);
}

#[test]
fn a_leaving_counts_once_and_rings(rt: HostRuntime) {
    let bell = Bell::new();
    bell.leave(&rt);
    assert!(rt; bell.gone(&rt) == 1);
    bell.park(&rt);
    bell.leave(&rt);
    bell.park(&rt);
    assert!(rt; waits(&rt, &bell) && bell.gone(&rt) == 2);
}
