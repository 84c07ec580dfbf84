// The clock: it ticks, and the threads whose timers fall due go on.
ghost use Rattle.std.specs.Prelude.{◌≡◌, ◌<◌, ◌++◌, ◌∷◌, [], IsTrue, None, length};
ghost use Rattle.death_cleanup.specs.Comes.{CameTo};
ghost use Rattle.death_cleanup.specs.Ties.{InStep, LawfulParts};
ghost use Rattle.death_cleanup.specs.View.{state_of};
ghost use Rattle.lwp_types.specs.Effects.{effect_places};
ghost use Rattle.lwp_types.specs.State.{is_blocked_in};
ghost use Rattle.lwp_types.specs.Time.{is_asleep_in, is_sleeping, may_tick, tick, time_out};

use death_cleanup::{Kind, Parts, wake_done};
use lwp_types::{Block, Effect, Effects, LwpErr, Tid};

/// The event that is the clock's.
pub const CLOCK: u8 = 0;

// How often a clock can tick.
const MOST_TICKS: u64 = 4_294_967_295;

/// Whether the clock can tick.
pub fn may_tick(parts: &Parts) -> bool
    ensures { result ≡ may_tick (state_of parts.now) }
{
    parts.sched.now() < MOST_TICKS
}

// Whether who waits so waits for nothing but the clock.
fn is_sleeping(why: Block) -> bool
    ensures { result ≡ is_sleeping why }
{
    matches!(why, Block::Sleeping)
}

// Whether the thread sleeps.
fn is_asleep(parts: &Parts, tid: Tid) -> bool
    ensures { result ≡ is_asleep_in (state_of parts.now) tid }
{
    match parts.ids.get(tid.number) {
        Some(Kind::Thread(rec)) => is_sleeping(rec.block),
        Some(Kind::Agent) => false,
        None => false,
    }
}

// A thread's timer falls due. Who sleeps goes on, and who waits for a letter learns that none has come in time.
fn time_out<'s>(parts: &mut Parts<'s>, tid: Tid, effects: &mut Effects<'s>)
    requires step { InStep parts.old }
    requires waits { IsTrue (is_blocked_in (state_of parts.old) tid) }
    requires room { length effects.old < effect_places }
    ensures { CameTo parts.old parts.new effects.old effects.new (time_out tid (state_of parts.old)) }
{
    let done = if is_asleep(parts, tid) {
        Ok(0)
    } else {
        Err(LwpErr::Timeout)
    };
    wake_done(parts, tid, done, effects);
}

// A tick is told.
fn tell_tick(now: u64, effects: &mut Effects)
    requires { length effects.old < effect_places }
    ensures { effects.new ≡ effects.old ++ Effect.Ticked now ∷ [] }
{
    effects.push(Effect::Ticked { now });
}

/// The clock ticks, and the threads whose timers are due then go on, in the order in which the timers were set.
pub fn tick<'s>(parts: &mut Parts<'s>, effects: &mut Effects<'s>)
    requires lawful { LawfulParts parts.old }
    requires alone { parts.old.dying ≡ None }
    requires may_tick { IsTrue (may_tick (state_of parts.old)) }
    requires room { effects.old ≡ [] }
    ensures { CameTo parts.old parts.new effects.old effects.new (tick (state_of parts.old)) }
{
    parts.sched.tick();
    tell_tick(parts.sched.now(), effects);
    while let Some(tid) = parts.sched.pop_due() {
        time_out(parts, tid, effects);
    }
}
