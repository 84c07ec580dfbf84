// A queue of three customers. The gaps that seed 1 draws with a mean of 10 ticks are 1, 54 and 1, the services with a mean of 8 ticks
// 22, 8 and 2. So customers come at 1, 55 and 56; services last from 1 to 23, from 55 to 63 and from 63 to 65; the third one waits for 7.
use lwp_types::{Env, NoMemory, PodParams};
use pod_runner::{TimedRun, run_in_virtual_time};
use queue_model::{Actor, DESK, Hall, Tally};
use std::alloc::Global;
use text_store::TextStore;

const PARAMS: PodParams = PodParams {
    maxpri: 1,
    births: 3,
    procs: 3,
};

fn hall<'s>(alloc: Global, store: &'s TextStore) -> Hall<'s> {
    Hall {
        alloc,
        store,
        seed: 1,
        customers: 3,
        gap: 10,
        service: 8,
        servers: 1,
        room: 5,
    }
}

// Each bar is two ticks wide.
fn is_as_by_hand(tally: &Tally) -> bool {
    let [none, _, _, seven, ..] = &tally.bars;
    tally.came == 3
        && tally.lost == 0
        && tally.begun == 3
        && tally.waited == 7
        && tally.begins == 1 + 55 + 63
        && tally.ends == 23 + 63 + 65
        && *none == 2
        && *seven == 1
}

fn is_played(alloc: Global, store: &TextStore) -> Result<bool, NoMemory> {
    let env = Env::new(alloc, 0, 0, 0)?;
    let mut run = TimedRun::new(alloc, PARAMS, hall(alloc, store), env, 100)?;
    run_in_virtual_time(&mut run)?;
    let fits = match run.body(DESK) {
        Some(Actor::Keeping(desk)) => is_as_by_hand(desk.tally()),
        _ => false,
    };
    Ok(fits && run.ticks() == 65)
}

#[test]
fn three_customers_are_served_as_by_hand(rt: HostRuntime) {
    let store = TextStore::new(rt.alloc());
    assert!(rt; is_played(rt.alloc(), &store).unwrap_or(false));
}
