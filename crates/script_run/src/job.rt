// What a thread does. A thread is started and joined for a job of any type.
// PROVER: a closure that takes along a value whose type names a lifetime tells its caller nothing of what it gives, so the job is a
// type parameter, and the trait says what may come of it.
ghost use Rattle.std.specs.Prelude.{◌≡◌, IfErr, IfOk};

use std::sync::Wait;
use std::thread::{Promise, PromisedHandle, Scope, Threads};

/// What a thread does.
pub trait Job: Send + Drop {
    type End: Send + Drop;

    /// It may be begun.
    ghost ready: { Self → Type 0 };

    /// What may come of it.
    ghost ends: { Self → Self.End → Type 0 };

    fn run<R: Wait>(self, rt: &R) -> Self::End
        requires { ready self }
        ensures { ends self result };
}

/// Starts a thread for the job. Where none can be started, the job is done here and now.
pub fn start<'s, E, J: Job + 's, P: Promise<J::End> + Drop, R: Threads + Wait + Sync>(
    scope: &Scope<'s, E>,
    rt: &'s R,
    promise: P,
    job: J,
) -> Result<PromisedHandle<J::End, P>, J::End>
where
    J::End: 's,
    requires ready { J.ready job }
    requires keeps { (e : J.End) → J.ends job e → P.kept_by promise e }
    ensures there { IfOk result (λ h. h.promise ≡ promise) }
    ensures here { IfErr result (λ e. J.ends job e) }
{
    let started = scope.spawn_with(
        promise,
        move || -> J::End
            requires { J.ready job }
            ensures { J.ends job result }
        { job.run(rt) },
    );
    match started {
        Ok(handle) => Ok(handle),
        Err(refused) => Err((refused.value)()),
    }
}

/// Waits until the thread has ended.
pub fn join<T: Drop, P: Promise<T>, R: Threads>(rt: &R, handle: PromisedHandle<T, P>) -> T
    ensures { P.kept_by handle.promise result }
{
    handle.join(rt)
}
