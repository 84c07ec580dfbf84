//! The laws of a pod's machine, proved of the definitions in `lwp_types/specs` alone. There is no code here: each function
//! below has no body, and its clause is the law.
//!
//! | what is said | law, and where it stands |
//! |---|---|
//! | every state of a pod is lawful | `OpeningsAreLawful`, `StepsAreLawful`, `DeliveriesAreLawful`, `ExitsAreLawful`, `DeathsAreLawful` (`specs/Laws.antt`) |
//! | a delivery to all agents has no more than 512 effects | `DeliveriesAreFew` (`specs/Laws.antt`) |
//! | whose turn it is, and when a pod is over | `TurnsDoAgree` (`specs/Laws.antt`) |
//! | a refusal changes nothing | `RefusalsChangeNothing` (`specs/Laws.antt`) |
//! | exit procedures run once, in the thread that set them | `ExitsRunOnce` (`specs/Once.antt`) |
//! | the dead are named nowhere, their numbers are never given again, and a call that names them is refused | `TheDeadAreForgotten`, `TheGoneStayGone`, `TheAbsentAreRefused`, `ExitsRefuseTheAbsent`, `CondSendRefusesTheAbsent` (`specs/Forgotten.antt`), `NobodyNamesTheAbsent` (`specs/Laws.antt`) |
//! | each thread that waits for the dead is answered once, and rightly | `WaitersAreAnswered`, `StepsAnswerWaiters` (`specs/Waiters.antt`) |
//! | each thread that waits with a timer is woken once, by whatever comes first, and never by a timer of an earlier wait | `TicksAnswerTheDue`, `WaitsEndTimers`, `NoTimerComesUnasked` (`specs/Timers.antt`) |
//!
//! Another crate cites a law by the lemma of `proofs/` that the function's answer names, as `EveryStep.{Lawful-step}` or
//! `EveryStep.{case_keeps}`, or it calls the function and takes what it ensures. What single calls and single moves keep are
//! lemmas of `proofs/` too, over the first nine parts of the law: `send_keeps`, `NineParts-released`.
//!
//! It stands on `lwp_types`.
#![tactic(auto)]

ghost use Rattle.pod_laws.specs.Once.{ExitsRunOnce};
ghost use Rattle.pod_laws.specs.Timers.{NoTimerComesUnasked, TicksAnswerTheDue, WaitsEndTimers};
ghost use Rattle.pod_laws.specs.Waiters.{StepsAnswerWaiters, WaitersAreAnswered};
ghost use Rattle.pod_laws.specs.Forgotten.{CondSendRefusesTheAbsent, DeliveriesAreQuiet, ExitsRefuseTheAbsent, TheAbsentAreRefused, TheDeadAreForgotten, TheGoneStayGone};
ghost use Rattle.pod_laws.specs.Laws.{DeathsAreLawful, DeliveriesAreFew, DeliveriesAreLawful, ExitsAreLawful, NobodyNamesTheAbsent, OpeningsAreLawful, RefusalsChangeNothing, StepsAreLawful, TurnsDoAgree};

/// A pod begins with a lawful state.
pub fn every_opening()
    ensures { OpeningsAreLawful }
{}

/// Every step takes a lawful state to a lawful one.
pub fn every_step()
    ensures { StepsAreLawful }
{}

/// Every delivery takes a lawful state to a lawful one.
pub fn every_delivery()
    ensures { DeliveriesAreLawful }
{}

/// Two effects for each agent are the most that a delivery to agents has, so with 256 agents 512.
pub fn every_message()
    ensures { DeliveriesAreFew }
{}

/// Every exit procedure keeps the first nine parts, whether or not a thread is dying.
pub fn every_exit_call()
    ensures { ExitsAreLawful }
{}

/// The states of a death are lawful for the dying thread, and after it nothing names the dead.
pub fn every_death()
    ensures { DeathsAreLawful }
{}

/// The order is empty exactly where nobody may run.
pub fn every_turn()
    ensures { TurnsDoAgree }
{}

/// Who isn't there is named nowhere.
pub fn every_absence()
    ensures { NobodyNamesTheAbsent }
{}

/// A refused call changes nothing.
pub fn every_refusal()
    ensures { RefusalsChangeNothing }
{}

/// Each exit procedure that was set runs once, when its frame is over, and never else.
pub fn every_exit()
    ensures { ExitsRunOnce }
{}

/// One that died in a step isn't there after it, and no list names it.
pub fn every_dead()
    ensures { TheDeadAreForgotten }
{}

/// A call that asks for who isn't there is refused.
pub fn every_absent()
    ensures { TheAbsentAreRefused }
{}

/// So is an exit procedure that does.
pub fn every_absent_of_an_exit()
    ensures { ExitsRefuseTheAbsent }
{}

/// A `CvSend` to who isn't there is refused, once the condition and the caller's last lock are fine.
pub fn every_absent_of_a_condition()
    ensures { CondSendRefusesTheAbsent }
{}

/// A number is given once: one that is gone stays gone, whatever is called or delivered.
pub fn every_number()
    ensures { TheGoneStayGone }
{}

/// A delivery sets and runs no exit procedure, and nobody dies in it.
pub fn every_quiet_delivery()
    ensures { DeliveriesAreQuiet }
{}

/// Each thread that waits for one that dies is answered once, and rightly.
pub fn every_waiter()
    ensures { WaitersAreAnswered }
{}

/// So it is in every step, for each thread that dies in it.
pub fn every_waiter_of_a_step()
    ensures { StepsAnswerWaiters }
{}

/// A tick tells each thread whose timer is due that its wait is over, once, in the order in which the timers arrived.
pub fn every_tick()
    ensures { TicksAnswerTheDue }
{}

/// A thread that waits no more has no timer: where it goes on, where it dies, and where it begins another wait.
pub fn every_end_of_a_wait()
    ensures { WaitsEndTimers }
{}

/// No timer comes but the one that the call of the thread whose turn it is asks for.
pub fn every_timer()
    ensures { NoTimerComesUnasked }
{}
