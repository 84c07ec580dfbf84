//! The scheduler refines the machine of `lwp_types`: where it knows the machine's threads, it chooses as the machine
//! does, and each change of the one is the other's. There is no code here: each function has no body, and its clause is
//! the law (`specs/Machine.antt`).
//!
//! What the laws ask of a view of a pod is `Shows`: a look-up of each thread, and the run queue. So the two need no one
//! list of threads, and one that is dying may have left the scheduler while the machine still counts it as live.
ghost use Rattle.std.specs.Prelude.{Option, ℕ};
ghost use Rattle.lwp_types.specs.State.{State};
ghost use Rattle.pod_sched.specs.Machine.{AnswersAlike, BirthsAreShown, DeathsAreShown, FlagsAreShown, IsNotDying, MarksAreHidden, Shows, TurnsAreShown, WaitsAreShown};
ghost use Rattle.pod_sched.specs.Schedule.{Schedule};

/// What is asked of a thread is answered as the machine does.
pub fn every_answer()
    ensures { (dying : Option ℕ) (v : Schedule) (s : State) → Shows dying v s → (t : ℕ) →
        IsNotDying dying t → AnswersAlike v s t }
{}

/// The machine's choice is the scheduler's, and so are yields and turns.
pub fn every_turn()
    ensures { TurnsAreShown }
{}

/// A thread that begins to wait, or goes on, does so in both, also while another dies.
pub fn every_wait()
    ensures { (dying : Option ℕ) (t : ℕ) → IsNotDying dying t → WaitsAreShown dying t }
{}

/// Suspensions and priorities are one in both, also while another dies.
pub fn every_flag()
    ensures { (dying : Option ℕ) (t : ℕ) → IsNotDying dying t → FlagsAreShown dying t }
{}

/// A newborn thread stands in both alike.
pub fn every_birth()
    ensures { BirthsAreShown }
{}

/// A thread leaves the scheduler as its death begins, and the machine as that ends.
pub fn every_death()
    ensures { DeathsAreShown }
{}

/// A thread's marks are no concern of a scheduler.
pub fn every_mark()
    ensures { MarksAreHidden }
{}
