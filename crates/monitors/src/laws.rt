// The monitors refine the machine's.
ghost use Rattle.monitors.specs.Machine.{BirthsAgree, EntriesAgree, ForgettingAgrees, LeavesAgree, NextAgrees, RanksLast, ReleasesAgree, RequestsAgree, RequeuesAgree, WaitersAgree, WaitsAgree};

/// The monitors answer each question as the machine does.
pub fn every_question()
    ensures requests { RequestsAgree }
    ensures next { NextAgrees }
    ensures waiters { WaitersAgree }
{}

/// What is done to the monitors is what the machine does to them.
pub fn every_change()
    ensures births { BirthsAgree }
    ensures entries { EntriesAgree }
    ensures waits { WaitsAgree }
    ensures releases { ReleasesAgree }
    ensures leaves { LeavesAgree }
    ensures forgetting { ForgettingAgrees }
    ensures requeues { RequeuesAgree }
{}

/// Requests go on keeping the priorities of their threads.
pub fn every_rank()
    ensures { RanksLast }
{}
