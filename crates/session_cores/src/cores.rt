// The core of a run, written as a key.
ghost use Rattle.std.specs.Prelude.{◌≡◌, ◌++◌, ◌∷◌, ◌<◌, [], OnOk, false, map};
ghost use Rattle.keys.specs.Numbers.{counted, list_numbers};
ghost use Rattle.pod_events.specs.Copies.{events_in};
ghost use Rattle.pod_runner.specs.Run.{session_of};
ghost use Rattle.session_cores.specs.Core.{core_of, mind_of};
ghost use Rattle.session_cores.specs.CoreCode.{core_key, core_numbers, mind_numbers, names_numbers};
ghost use Rattle.session_cores.specs.States.{pod_numbers};

use crate::states::put_pod;
use crate::words::put_answer;
use keys::{Key, Keyed};
use lwp_types::{Env, NoMemory, Polled, Program};
use pod_runner::{Row, Run};
use snapshots::PodCopy;
use std::alloc::AllocError;
use std::mem::replace;

// A count of names, unless they are more than an `Env` can number.
fn put_count(key: &mut Key, count: usize) -> Result<(), AllocError>
    ensures within { OnOk result (count < 4294967296) }
    ensures put { OnOk result (key.new ≡ key.old ++ count ∷ []) }
{
    if count > u32::MAX as usize {
        return Err(AllocError);
    }
    key.put(count as u64)
}

fn put_thread_names(key: &mut Key, env: &Env) -> Result<(), AllocError>
    ensures { OnOk result (key.new ≡ key.old ++ counted env.now.threads) }
{
    put_count(key, env.thread_count())?;
    for i in 0..env.thread_count() {
        key.put(env.thread(i as u32).number)?;
    }
    Ok(())
}

fn put_monitor_names(key: &mut Key, env: &Env) -> Result<(), AllocError>
    ensures { OnOk result (key.new ≡ key.old ++ counted env.now.monitors) }
{
    put_count(key, env.mon_count())?;
    for i in 0..env.mon_count() {
        key.put(env.mon(i as u32).number)?;
    }
    Ok(())
}

fn put_condition_names(key: &mut Key, env: &Env) -> Result<(), AllocError>
    ensures { OnOk result (key.new ≡ key.old ++ counted env.now.conditions) }
{
    put_count(key, env.cond_count())?;
    for i in 0..env.cond_count() {
        key.put(env.cond(i as u32).number)?;
    }
    Ok(())
}

// What the names mean.
fn put_names(key: &mut Key, env: &Env) -> Result<(), AllocError>
    ensures { OnOk result (key.new ≡ key.old ++ names_numbers env.now) }
{
    put_thread_names(key, env)?;
    put_monitor_names(key, env)?;
    put_condition_names(key, env)
}

// The live threads, each with its body and the answer that the body is polled with next.
fn put_minds<'s, B: Keyed>(key: &mut Key, rows: &[Row<'s, B>]) -> Result<(), AllocError>
    ensures { OnOk result
        (key.new ≡ key.old ++ list_numbers (mind_numbers B.numbers) (map mind_of rows.now)) }
{
    key.put(rows.len() as u64)?;
    for row in rows {
        key.put(row.tid.number)?;
        row.body.put(key)?;
        put_answer(key, &row.answer)?;
    }
    Ok(())
}

// A core, of its parts.
fn put_parts<'s, B: Keyed>(
    key: &mut Key,
    pod: &PodCopy,
    rows: &[Row<'s, B>],
    names: &Env,
    taken: &[u64],
) -> Result<(), AllocError>
    ensures { OnOk result
        (key.new
        ≡ key.old
        ++ (pod_numbers (events_in pod.now)
        ++ list_numbers (mind_numbers B.numbers) (map mind_of rows.now)
        ++ names_numbers names.now
        ++ counted taken.now)) }
{
    put_pod(key, pod)?;
    put_minds(key, rows)?;
    put_names(key, names)?;
    key.put(taken.len() as u64)?;
    key.put_all(taken)?;
    Ok(())
}

// The core of a run.
fn put_run<'s, B: Polled<'s> + Keyed, P: Program<B>>(
    run: &Run<'s, B, P>,
    taken: &[u64],
    key: &mut Key,
) -> Result<(), NoMemory>
    requires { run.now.failed ≡ false }
    ensures { OnOk result
        (key.new
        ≡ key.old
        ++ core_numbers B.numbers (core_of (session_of B.next P.bodies run.now).live taken.now)) }
{
    let pod = run.pod()?;
    put_parts(key, &pod, run.rows(), run.names(), taken)?;
    Ok(())
}

/// Writes the bytes of a run's core, in place of what was there, where so many lines of each client were taken. Where memory is refused,
/// no bytes are left.
pub fn put_core<'s, B: Polled<'s> + Keyed, P: Program<B>>(
    run: &Run<'s, B, P>,
    taken: &[u64],
    key: &mut Vec<u8>,
) -> Result<(), NoMemory>
    requires { run.now.failed ≡ false }
    ensures { OnOk result
        (key.new.items
        ≡ core_key B.numbers (core_of (session_of B.next P.bodies run.now).live taken.now)) }
{
    let fresh = Vec::new(*key.allocator());
    let mut written = Key::over(replace(key, fresh));
    put_run(run, taken, &mut written)?;
    *key = written.into_bytes();
    Ok(())
}
