// The parts as plain values.
ghost use Rattle.std.specs.Prelude.{◌≡◌, IfOk, map};
ghost use Rattle.death_cleanup.specs.View.{known_of, row_of, state_of};
ghost use Rattle.snapshots.specs.Copies.{row_in, state_in};

use crate::parts::Parts;
use crate::rows::{Kind, ThreadRec};
use crate::waiters::nth_of;
use lwp_types::{NoMemory, Sequence, Tid};
use pod_sched::Known;
use snapshots::{StateCopy, ThreadCopy};

// What the scheduler knows of a thread, or knew of the dying one.
fn known_of(parts: &Parts, tid: Tid) -> Known
    ensures { result ≡ known_of parts.now.last_prio parts.now.sched.threads tid }
{
    match parts.sched.known_of(tid) {
        Some(known) => known,
        None => Known {
            tid,
            prio: parts.last_prio,
            suspended: false,
            blocked: false,
        },
    }
}

// One thread.
fn thread_copy<'s>(
    parts: &Parts<'s>,
    tid: Tid,
    rec: &ThreadRec<'s>,
) -> Result<ThreadCopy<'s>, NoMemory>
    ensures { IfOk result (λ copy. row_in copy
        ≡ row_of (known_of parts.now.last_prio parts.now.sched.threads tid) tid rec.now) }
{
    let known = known_of(parts, tid);
    let marks = rec.stack.copy()?;
    Ok(ThreadCopy {
        number: tid,
        priority: known.prio,
        flags: rec.flags,
        suspended: known.suspended,
        block: rec.block,
        marks,
    })
}

// The live threads, in the order of birth.
fn threads<'s>(parts: &Parts<'s>) -> Result<Sequence<ThreadCopy<'s>>, NoMemory>
    ensures { IfOk result (λ copies. map row_in copies ≡ (state_of parts.now).threads) }
{
    let mut copies = Sequence::new(parts.named.allocator());
    for i in 0..parts.ids.len() {
        let (tid, kind) = nth_of(&parts.ids, i);
        match kind {
            Kind::Thread(rec) => copies.push(thread_copy(parts, tid, rec)?)?,
            Kind::Agent => {}
        }
    }
    Ok(copies)
}

/// The state that the parts are, as a plain value. NoMemory where there is none for it. It goes over each list once, and looks each
/// thread up by its number.
pub fn copy_of<'s>(parts: &Parts<'s>) -> Result<StateCopy<'s>, NoMemory>
    ensures { IfOk result (λ copy. state_in copy ≡ state_of parts.now) }
{
    Ok(StateCopy {
        threads: threads(parts)?,
        order: parts.sched.order()?,
        timers: parts.sched.timers()?,
        letters: parts.mail.letters()?,
        monitors: parts.mons.list()?,
        locks: parts.mons.locks()?,
        requests: parts.mons.requests()?,
        conditions: parts.conds.conditions()?,
        waits: parts.conds.waits()?,
        agents: parts.agents.rows()?,
        now: parts.sched.now(),
        maxpri: parts.sched.maxpri(),
        status: parts.exit,
        ended: parts.ended,
        births: parts.ids.births(),
        monitor_births: parts.mons.births(),
        condition_births: parts.conds.births(),
        limit: parts.ids.limit(),
        procs: parts.procs,
        next_registration: parts.registration,
        next_pattern: parts.pattern,
    })
}
