//! The laws of sessions, proved of the definitions alone: what the laws of a pod's machine come to over all steps of a session.
//! There is no code here: each function below has no body, and its clause is the law. So there are no wrong edits either.
//!
//! | what is said | law, and where it stands |
//! |---|---|
//! | exit procedures run once: each that was set is set still or has run, and never both | `EachExitOnce`, `EachExitHasItsFate`, `EachSetExitOnce` (`specs/Exits.antt`) |
//! | the dead have run all that they had set, and run nothing more | `TheDeadHaveRunTheirExits` (`specs/Exits.antt`), `TheDeadRunNothing` (`specs/Deaths.antt`) |
//! | the dead are forgotten, and nobody dies twice | `TheDeadStayForgotten`, `EachDiesOnce` (`specs/Deaths.antt`) |
//! | each number is given to one of them, in order | `EachNumberIsGivenOnce` (`specs/Exits.antt`), `StepsNumberExits`, `DeliveriesNumberNone` (`specs/Numbers.antt`) |
//! | the clock ticks by lines of its event alone; only Create and Agent bear anybody, and no more than the limit allows; the number of procedures stays | `StepsKeepTheClock`, `DeliveriesTick`, `StepsKeepTheLimit`, `BirthsAreLimited`, `StepsBearNone`, `DeliveriesBearNone`, `StepsKeepProcs`, `DeliveriesKeepProcs` (`specs/Numbers.antt`) |
//! | each death of an unmarked thread is reported once, in order, or waits; each line taken as a trap is raised once, or is to be | `PodEventsAreExact` (`specs/Events.antt`) |
//! | each step of a session is one move of its pod, with its effects, or none; and from any step on reports and traps are exact | `SessionsAreStepwise` (`specs/StepByStep.antt`) |
//! | no event is both trapped and heard by an agent | `TrapsHaveNoHearers` (`specs/Events.antt`) |
//!
//! `InEverySession` (`specs/Sessions.antt`) is said of all sessions that there are: whatever bodies do and whenever lines are
//! taken, after each call and each take.
//!
//! It stands on `pod_runner`, whose sessions it speaks of, and on `pod_laws` and `pod_events`, whose laws of one step and of moves it
//! carries on. Where no agent of event 32 is left after a call, no report waits (`every_silence` of `pod_events`), and each report goes
//! to every agent that the event has then (`every_agent`); a trap is raised in the thread that is chosen at the next call
//! (`every_trap_raised`). These are said of every state, and so of those of sessions.
#![tactic(auto)]

ghost use Rattle.session_laws.specs.Deaths.{EachDiesOnce, TheDeadRunNothing, TheDeadStayForgotten};
ghost use Rattle.session_laws.specs.Events.{PodEventsAreExact, TrapsHaveNoHearers};
ghost use Rattle.session_laws.specs.Exits.{EachExitHasItsFate, EachExitOnce, EachNumberIsGivenOnce, EachSetExitOnce, TheDeadHaveRunTheirExits};
ghost use Rattle.session_laws.specs.Numbers.{BirthsAreLimited, DeliveriesBearNone, DeliveriesKeepProcs, DeliveriesNumberNone, DeliveriesTick, StepsBearNone, StepsKeepProcs, StepsKeepTheClock, StepsKeepTheLimit, StepsNumberExits};
ghost use Rattle.session_laws.specs.Sessions.{InEverySession};
ghost use Rattle.session_laws.specs.StepByStep.{SessionsAreStepwise};

use lwp_types::Body;

/// Of each number that was given, the marks of live threads and the `Exited` so far are one together; of any other, none.
pub fn every_exit<B: Body>()
    ensures { InEverySession B EachExitOnce }
{}

/// An exit procedure whose number was given is set still and hasn't run, or has run and isn't set any more.
pub fn every_fate<B: Body>()
    ensures { InEverySession B EachExitHasItsFate }
{}

/// It is so for each thread, number and exit call: whatever was set is set still or has run, as that call, in that thread.
pub fn every_exit_set<B: Body>()
    ensures { InEverySession B EachSetExitOnce }
{}

/// Of a thread that isn't live, all has run that it had set.
pub fn every_exit_of_the_dead<B: Body>()
    ensures { InEverySession B TheDeadHaveRunTheirExits }
{}

/// After the step in which a thread died, none of its exit procedures runs.
pub fn every_step_after_a_death<B: Body>()
    ensures { InEverySession B TheDeadRunNothing }
{}

/// One that died in any step so far isn't there, and no list names it.
pub fn every_dead<B: Body>()
    ensures { InEverySession B TheDeadStayForgotten }
{}

/// Of each number, at most one death is told.
pub fn every_death<B: Body>()
    ensures { InEverySession B EachDiesOnce }
{}

/// Each number below the next was given to one exit procedure, and no other number was given.
pub fn every_number_given<B: Body>()
    ensures { InEverySession B EachNumberIsGivenOnce }
{}

/// A call that sets an exit procedure gives it the next number, and no other call gives one.
pub fn every_number()
    ensures { StepsNumberExits }
{}

/// Nor does a delivery.
pub fn every_number_of_a_delivery()
    ensures { DeliveriesNumberNone }
{}

/// No call makes the clock tick.
pub fn every_call_of_the_clock()
    ensures { StepsKeepTheClock }
{}

/// A line of the clock's event makes it tick once, and no other line does.
pub fn every_tick()
    ensures { DeliveriesTick }
{}

/// By a call that is no Create and no Agent nobody is born.
pub fn every_birth()
    ensures { StepsBearNone }
{}

/// Nor by a delivery.
pub fn every_birth_by_a_delivery()
    ensures { DeliveriesBearNone }
{}

/// Where no more were born than the limit allows, it is so after each call; and the limit stays.
pub fn every_call_of_the_limit()
    ensures { StepsKeepTheLimit }
{}

/// So in every session: no more threads and agents are born than its pod's limit allows.
pub fn every_birth_of_a_session<B: Body>()
    ensures { BirthsAreLimited B }
{}

/// A call leaves the number of procedures as it is.
pub fn every_call_of_the_procedures()
    ensures { StepsKeepProcs }
{}

/// So does a delivery.
pub fn every_delivery_of_the_procedures()
    ensures { DeliveriesKeepProcs }
{}

/// Each death of an unmarked thread is reported once, in order, or waits, as long as event 32 has an agent; each line that is taken as
/// a trap is raised once, or is to be.
pub fn every_pod_event<B: Body>()
    ensures { PodEventsAreExact B }
{}

/// A session's own steps, one by one: each is one move of the pod that could be made there, with the move's effects, a take exactly
/// where the step is one; a step in which nobody calls is none. From any step on, what is reported and what is raised is exact.
pub fn every_step<B: Body>()
    ensures { SessionsAreStepwise B }
{}

/// No event is both trapped and heard by an agent.
pub fn every_trapped_event<B: Body>()
    ensures { InEverySession B TrapsHaveNoHearers }
{}
