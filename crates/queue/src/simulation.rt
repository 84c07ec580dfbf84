// A hall's session, and what is written of it.
ghost use Rattle.std.specs.Prelude.{IfOk, OnOk, false, true, ◌++◌, ◌≡◌};
ghost use Rattle.pod_runner.specs.Virtual.{IsLater, TurnsCame, phase_now, setting_of};
ghost use Rattle.queue.specs.Simulation.{has_ended, opening_run, params_of, told, told_of};
ghost use Rattle.queue_model.specs.Actors.{actor_next, cast};

use crate::report::{put_picture, put_text};
use lwp_types::{Env, NoMemory, PodParams};
use pod_runner::{Phase, TimedRun, run_in_virtual_time};
use queue_model::{Actor, DESK, Hall};
use std::alloc::Global;

// More calls than any session makes until the clock stops.
const TURNS: u64 = 4_611_686_018_427_387_904;

/// Why a session wasn't played to its end.
#[derive(Drop)]
pub enum Unfinished {
    NoMemory,
    /// There is no server, or the clock stops first, after 4,294,967,295 ticks.
    Unserved,
}

impl From<NoMemory> for Unfinished {
    ghost use Rattle.std.specs.Prelude.{◌≡◌};
    ghost use Rattle.queue.specs.declared.simulation.Unfinished.TheVariants.{NoMemory as Memory};

    ghost from_gives = { λ _ e. e ≡ Memory };

    fn from(_: NoMemory) -> Self {
        Unfinished::NoMemory
    }
}

fn params_of(hall: &Hall) -> PodParams
    ensures { result ≡ params_of hall.now }
{
    PodParams {
        maxpri: 1,
        births: 100_000,
        procs: 2 + u32::from(hall.servers),
    }
}

fn opened<'s>(alloc: Global, hall: Hall<'s>) -> Result<TimedRun<'s, Actor<'s>, Hall<'s>>, NoMemory>
    ensures { IfOk result (λ run. run ≡ opening_run hall.entry) }
{
    let env = Env::new(alloc, 0, 0, 0)?;
    let params = params_of(&hall);
    TimedRun::new(alloc, params, hall, env, TURNS)
}

/// The session of a hall in virtual time, played until its pod has ended.
pub fn simulated<'s>(
    alloc: Global,
    hall: Hall<'s>,
) -> Result<TimedRun<'s, Actor<'s>, Hall<'s>>, Unfinished>
    ensures same { IfOk result (λ run. IsLater (opening_run hall.entry) run) }
    ensures sound { IfOk result (λ run. run.failed ≡ false) }
    ensures came { IfOk result (λ run. TurnsCame (setting_of actor_next cast run) run.calls) }
    ensures ended { IfOk result (λ run. has_ended (phase_now actor_next cast run) ≡ true) }
{
    let mut run = opened(alloc, hall)?;
    run_in_virtual_time(&mut run)?;
    match run.phase() {
        Phase::Ended(_) => Ok(run),
        _ => Err(Unfinished::Unserved),
    }
}

fn tell_of(
    out: &mut Vec<u8>,
    actor: &Actor,
    servers: u16,
    ticks: u64,
    draws: bool,
) -> Result<(), NoMemory>
    ensures { OnOk result (out.new.items ≡ out.old.items ++ told_of draws servers ticks actor.now) }
{
    match actor {
        Actor::Hosting(_) => Ok(()),
        Actor::Keeping(desk) => {
            if draws {
                put_picture(out, desk.tally())
            } else {
                put_text(out, desk.tally(), servers, ticks)
            }
        }
        Actor::Serving(_) => Ok(()),
    }
}

/// Puts down what its desk has counted, as a text or as a picture.
pub fn tell<'s>(
    out: &mut Vec<u8>,
    run: &TimedRun<'s, Actor<'s>, Hall<'s>>,
    servers: u16,
    draws: bool,
) -> Result<(), NoMemory>
    requires { run.now.failed ≡ false }
    ensures { OnOk result (out.new.items ≡ out.old.items ++ told draws servers run.now) }
{
    match run.body(DESK) {
        Some(actor) => tell_of(out, actor, servers, run.ticks(), draws),
        None => Ok(()),
    }
}
