// What a session writes after its last step.
ghost use Rattle.lwp_explore.specs.Kinds.{lines_left};
ghost use Rattle.lwp_explore.specs.Sessions.{world_of};
ghost use Rattle.lwp_explore.specs.Standing.{core_now};
ghost use Rattle.std.specs.Prelude.{◌≡◌, IfOk, false};
ghost use Rattle.trace_text.specs.Lines.{end_text};

use crate::machine::ScriptMachine;
use lwp_types::NoMemory;
use std::alloc::Global;
use trace_text::{Halt, end_lines};

/// The lines after the last step of a session that is over so.
pub fn tail_of(alloc: Global, machine: &ScriptMachine, halt: &Halt) -> Result<Vec<u8>, NoMemory>
    requires { machine.now.failed ≡ false }
    ensures { IfOk result (λ tail. tail.items ≡ end_text 0 (lines_left (world_of machine.now.script) (core_now machine.now)) halt.now) }
{
    let left = machine.lines_left()?;
    end_lines(alloc, halt, 0, &left)
}
