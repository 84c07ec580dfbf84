// A recorded trace and a script.
ghost use Rattle.pod_runner.specs.Run.{names_like};
ghost use Rattle.replay.specs.Replayed.{Says};
ghost use Rattle.script_body.specs.Posted.{IsPosted};
ghost use Rattle.replay.specs.Compared.{asked_for};
ghost use Rattle.script_text.specs.Limits.{IsWithinLimits};
ghost use Rattle.std.specs.Prelude.{IfOk, length, ◌≡◌, ◌≤◌};

use crate::stock::ScriptLines;
use crate::{Replayed, follow_recorded};
use lwp_types::{Env, NoMemory, PodParams, Polled, Program};
use script_text::Script;
use std::alloc::Global;

/// Whether the bytes are a trace of a session of this program in which the clients of the script post their lines, and of at most so
/// many calls; or which of their lines is the first that differs, and what was to come in its place.
pub fn replay<'s, B: Polled<'s>, P: Program<B>>(
    alloc: Global,
    script: &'s Script,
    program: P,
    env: Env,
    turns: u64,
    bytes: &[u8],
) -> Result<Replayed, NoMemory>
    requires within { IsWithinLimits script.now }
    requires posted { IsPosted script.now }
    requires procs { 1 ≤ length (P.bodies program) }
    requires names { env ≡ names_like env }
    ensures { IfOk result
        (λ replayed.
        Says (asked_for B.next P.bodies P.proc_names script.now program env turns) bytes.now
        replayed.verdict replayed.taken replayed.turns) }
{
    let params = PodParams {
        maxpri: script.maxpri,
        births: script.births,
        procs: program.procs(),
    };
    let mut lines = ScriptLines::new(alloc, script)?;
    follow_recorded(alloc, params, program, env, turns, &mut lines, bytes)
}
