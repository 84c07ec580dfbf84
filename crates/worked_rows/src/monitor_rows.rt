// Monitors, which their owners may enter again.
ghost use Rattle.worked_rows.specs.Monitors.{breaking_a_lock, monitor_requests, no_such_monitor, entered_again_and_again, anothers_lock, the_greatest_priority_enters_next, a_broken_lock_passes_on, monitors_and_their_waiters, births_of_monitors_and_conditions, a_suspended_owner};
ghost use Rattle.worked_rows.specs.Words.{IsWorked};

/// Who enters, waits, leaves, breaks and destroys.
pub fn entering()
    ensures breaking_a_lock { IsWorked breaking_a_lock }
    ensures monitor_requests { IsWorked monitor_requests }
    ensures no_such_monitor { IsWorked no_such_monitor }
    ensures entered_again_and_again { IsWorked entered_again_and_again }
    ensures anothers_lock { IsWorked anothers_lock }
    ensures the_greatest_priority_enters_next { IsWorked the_greatest_priority_enters_next }
    ensures a_broken_lock_passes_on { IsWorked a_broken_lock_passes_on }
    ensures monitors_and_their_waiters { IsWorked monitors_and_their_waiters }
    ensures births_of_monitors_and_conditions { IsWorked births_of_monitors_and_conditions }
    ensures a_suspended_owner { IsWorked a_suspended_owner }
{}
