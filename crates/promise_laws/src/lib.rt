//! What a session promises step by step, proved of the definitions alone: what one move of a pod keeps, said of each step of every
//! session, with all steps that come after it. There is no code here: the clause of each function below is the law, and a body only
//! calls the law of `session_laws` on which it stands. So there are no wrong bodies; `wrong` has wrong definitions.
//!
//! | what is said | law, and where it stands |
//! |---|---|
//! | what it is to hold of each step | `AtEachMove`, `InEachStep`, `InEachLawfulStep` (`specs/EachStep.antt`) |
//! | each thread that waits for one that dies is answered once, and rightly | `PodsAnswerWaiters`, and of each step `AnswersWaiters` (`specs/Waiters.antt`) |
//! | each line that is taken as a trap is raised once, in the thread that is chosen at the next call, or is to be | `RaisesTraps` (`specs/Traps.antt`) |
//! | each death that is to be reported is reported once, in order, to every agent that the event has then, or waits, or is dropped with the last agent | `ReportsDeaths`, `ReportsComeInTurn` (`specs/Reports.antt`) |
//!
//! The moves are the session's own: `GoesBy` of `session_laws` says that each step is one of them, with its effects, or none.
//!
//! It stands on `session_laws` and `pod_runner`, whose sessions it speaks of, and on `pod_events` and `pod_laws`, whose laws of one
//! move and of one death it carries on.
#![tactic(auto)]

ghost use Rattle.promise_laws.specs.EachStep.{InEachLawfulStep, InEachStep};
ghost use Rattle.promise_laws.specs.Reports.{ReportsComeInTurn, ReportsDeaths};
ghost use Rattle.promise_laws.specs.Traps.{RaisesTraps};
ghost use Rattle.promise_laws.specs.Waiters.{AnswersWaiters, PodsAnswerWaiters};

use lwp_types::Body;
use session_laws::every_step;

/// In a call of a pod with its own events: who waits for one that dies in it is told so once, and nothing else.
pub fn every_waiter()
    ensures { PodsAnswerWaiters }
{}

/// So it is in each step of every session.
pub fn every_waiter_of_a_session<B: Body>()
    ensures { InEachLawfulStep B AnswersWaiters }
{
    every_step::<B>();
}

/// A line of a trapped event is raised by the next call that is made, in the thread whose turn it then is, and once.
pub fn every_trap_of_a_session<B: Body>()
    ensures { InEachStep B RaisesTraps }
{
    every_step::<B>();
}

/// In each call: who waits to be reported and who dies, is reported or waits, in order, as long as the event has an agent.
pub fn every_report_of_a_session<B: Body>()
    ensures { InEachStep B ReportsDeaths }
{
    every_step::<B>();
}

/// One that dies is reported in its turn, once those before it were; or it waits, or the event's last agent goes.
pub fn every_turn_of_a_report<B: Body>()
    ensures { InEachStep B ReportsComeInTurn }
{
    every_step::<B>();
}
