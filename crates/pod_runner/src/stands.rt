// How a run stands, part by part: its pod as a plain value, the rows of its live threads, and what the names mean.
ghost use Rattle.std.specs.Prelude.{◌≡◌, IfOk, false};
ghost use Rattle.pod_events.specs.Copies.{events_in};
ghost use Rattle.pod_runner.specs.Run.{session_of};

use crate::{Row, Run};
use lwp_types::{Env, NoMemory, Polled, Program};
use snapshots::PodCopy;

impl<'s, B: Polled<'s>, P: Program<B>> Run<'s, B, P> {
    /// The pod with its own events, as a plain value.
    pub fn pod(&self) -> Result<PodCopy<'s>, NoMemory>
        requires { self.now.failed ≡ false }
        ensures { IfOk result
            (λ pod. events_in pod ≡ (session_of B.next P.bodies self.now).live.pod) }
    {
        self.parts.pod.copy()
    }

    /// The live threads, with their bodies.
    pub fn rows(&self) -> &[Row<'s, B>]
        requires { self.now.failed ≡ false }
        ensures { result.now ≡ (session_of B.next P.bodies self.now).live.rows }
    {
        self.parts.rows.as_slice()
    }

    /// Who was polled last, and what the names mean.
    pub fn names(&self) -> &Env
        requires { self.now.failed ≡ false }
        ensures { result.now ≡ (session_of B.next P.bodies self.now).live.names }
    {
        &self.parts.env
    }
}
