// The conditions refine the machine's.
ghost use Rattle.conditions.specs.Machine.{AllAreWoken, FirstIsWoken, ForgettingAgrees, HasWaitsAgrees, NextAgrees, NoneIsWoken, RanksLast, RequeuesAgree, WaitOfAgrees, WaitedAgrees, WaitersAgree, WaitingAgrees, WaitsAgree, WakingAgrees};

/// The conditions answer each question as the machine does.
pub fn every_question()
    ensures waited { WaitedAgrees }
    ensures has_waits { HasWaitsAgrees }
    ensures waits { WaitsAgree }
    ensures waiters { WaitersAgree }
    ensures next { NextAgrees }
    ensures wait_of { WaitOfAgrees }
{}

/// What is done to the conditions is what the machine does to them.
pub fn every_change()
    ensures waking { WakingAgrees }
    ensures forgetting { ForgettingAgrees }
    ensures waiting { WaitingAgrees }
    ensures requeues { RequeuesAgree }
{}

/// To broadcast until nobody is woken is to wake all that wait, in the order of their arrival.
pub fn every_broadcast()
    ensures first { FirstIsWoken }
    ensures none { NoneIsWoken }
    ensures all { AllAreWoken }
{}

/// Waits go on keeping the priorities of their threads.
pub fn every_rank()
    ensures { RanksLast }
{}
