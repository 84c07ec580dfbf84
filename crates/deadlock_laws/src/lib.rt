//! What can break a deadlock, of the definitions alone: threads that wait for each other in a cycle wait so until somebody outside the
//! cycle makes one of five calls, or a timer falls due. There is no code here: each function below has no body, and its clause is the
//! law.
//!
//! | what is said | law, and where it stands |
//! |---|---|
//! | which calls can end the wait of another thread, and which of them a deadlock | `can_free`, `can_break` (`specs/Freeing.antt`) |
//! | who is blocked waits for the same after each call that can't end the wait of another | `TheBlockedStay` (`specs/Deadlocks.antt`) |
//! | who waits for a blocked thread still waits for it after each call that can't break a deadlock | `TheirWaitersStay` (`specs/Deadlocks.antt`) |
//! | so each cycle is a cycle still | `CyclesLast` (`specs/Deadlocks.antt`) |
//! | it is so after each step in which nobody dies and no MonBreak is made | `OnlyBreachesBreak` (`specs/Deadlocks.antt`) |
//! | so it is with a delivery, but for a tick that makes a timer of one of them due | `TheirWaitersStayInDeliveries`, `CyclesLastInDeliveries` (`specs/Deadlocks.antt`) |
//! | each call that is named does end a wait | `Breaks`, `Frees` (`specs/Rows.antt`) |
//!
//! The laws are said of every lawful state, and each state of a pod is lawful. It stands on `lwp_types`, on `pod_laws` for what holds in
//! a lawful state, and on `state_text` for whom a thread waits for.
#![tactic(auto)]

ghost use Rattle.deadlock_laws.specs.Deadlocks.{CyclesLast, CyclesLastInDeliveries, OnlyBreachesBreak, TheBlockedStay, TheirWaitersStay, TheirWaitersStayInDeliveries};
ghost use Rattle.deadlock_laws.specs.Rows.{Breaks, Frees, entering, joined, locked, locked_with_exit, received, receiving, waiting};
ghost use Rattle.std.specs.Prelude.{[]};

use lwp_types::{Block, Call};

/// The call of the thread whose turn it is leaves the wait of every other thread as it is, unless it is one of twelve.
pub fn every_blocked()
    ensures { TheBlockedStay }
{}

/// Send, Reply, MonExit, Wait and those that wake from a condition end waits for the caller alone, and the caller isn't blocked.
pub fn every_waiter_of_the_blocked()
    ensures { TheirWaitersStay }
{}

/// A deadlock is broken by Destroy, Return, Raise, ExcNotify and MonBreak alone.
pub fn every_cycle()
    ensures { CyclesLast }
{}

/// In a step that breaks a deadlock somebody dies, or a monitor is broken, by a call or by an exit procedure.
pub fn every_breach()
    ensures { OnlyBreachesBreak }
{}

/// A delivery ends a wait for a blocked thread only where that wait has a timer that falls due: an agent is no thread.
pub fn every_waiter_of_a_delivery()
    ensures { TheirWaitersStayInDeliveries }
{}

/// Of all deliveries, those of the clock alone break a deadlock.
pub fn every_cycle_of_a_delivery()
    ensures { CyclesLastInDeliveries }
{}

/// Each of the five calls breaks a deadlock, each of the other seven ends a wait of another: none is named in vain.
pub fn worked_rows()
    ensures destroyed { Breaks joined (Call.Destroy 1) }
    ensures broken { Breaks locked (Call.MonBreak 0) }
    ensures returned { Breaks locked_with_exit Call.Return }
    ensures raised { Breaks locked_with_exit (Call.Raise 5) }
    ensures notified_of { Breaks locked_with_exit (Call.ExcNotify 5) }
    ensures sent { Frees receiving (Call.Send 1 240 []) Block.Not }
    ensures replied { Frees received (Call.Reply 1 []) Block.Not }
    ensures left { Frees entering (Call.MonExit 0) Block.Not }
    ensures waited { Frees entering (Call.Wait 0) Block.Not }
    ensures notified { Frees waiting (Call.Notify 0) (Block.Entering 0) }
    ensures told_all { Frees waiting (Call.Broadcast 0) (Block.Entering 0) }
    ensures told_one { Frees waiting (Call.CvSend 0 1) (Block.Entering 0) }
{}
