// A session goes along a path.
ghost use Rattle.lwp_explore.specs.Along.{IsAlong};
ghost use Rattle.lwp_explore.specs.Cores.{after};
ghost use Rattle.lwp_explore.specs.Sessions.{world_of};
ghost use Rattle.lwp_explore.specs.Standing.{core_now, trace_now};
ghost use Rattle.pod_runner.specs.Run.{Writes};
ghost use Rattle.search.specs.Moves.{walk};
ghost use Rattle.std.specs.Prelude.{◌≡◌, IfOk, IsSome, OnOk, false};

use crate::machine::ScriptMachine;
use lwp_types::{NoMemory, Sink};
use streams::CountSink;

/// Goes the steps of these numbers, and writes their lines. Where a sink fails, as where memory runs out, the machine is of no more use.
pub fn go_along<K: Sink>(
    machine: &mut ScriptMachine,
    path: &[u32],
    sink: &mut K,
) -> Result<(), NoMemory>
    requires sound { machine.old.failed ≡ false }
    requires leads { IsSome (walk (after (world_of machine.old.script)) (core_now machine.old) path.now) }
    ensures along { OnOk result (IsAlong machine.old path.now machine.new) }
    ensures told { OnOk result (Writes (K.written sink.old) (K.written sink.new) (trace_now machine.old) (trace_now machine.new)) }
{
    for step in path {
        match machine.go(*step, sink) {
            Ok(()) => {}
            Err(_) => return Err(NoMemory),
        }
    }
    Ok(())
}

/// A session that goes on from this one along a path.
pub fn stand_after<'s, 'p>(
    machine: &ScriptMachine<'s, 'p>,
    path: &[u32],
) -> Result<ScriptMachine<'s, 'p>, NoMemory>
    requires sound { machine.now.failed ≡ false }
    requires leads { IsSome (walk (after (world_of machine.now.script)) (core_now machine.now) path.now) }
    ensures { IfOk result (λ here. IsAlong machine.now path.now here) }
{
    let mut here = machine.copy()?;
    go_along(&mut here, path, &mut CountSink::new())?;
    Ok(here)
}
