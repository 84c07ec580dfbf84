// The clock: threads that sleep, and receives that wait for so many ticks.
ghost use Rattle.worked_rows.specs.Time.{sleep, timed_receive, no_tick_left, due_at_once, a_letter_in_time, a_death_in_time, suspended_and_destroyed_asleep, the_clock_comes_first};
ghost use Rattle.worked_rows.specs.Words.{IsWorked};

/// Threads sleep, and wait for letters, until the clock has ticked so often.
pub fn waiting_for_ticks()
    ensures sleep { IsWorked sleep }
    ensures timed_receive { IsWorked timed_receive }
    ensures no_tick_left { IsWorked no_tick_left }
{}

/// Who goes on at a tick and in which order, and whose timer is gone before it is due.
pub fn falling_due()
    ensures due_at_once { IsWorked due_at_once }
    ensures a_letter_in_time { IsWorked a_letter_in_time }
    ensures a_death_in_time { IsWorked a_death_in_time }
    ensures suspended_and_destroyed_asleep { IsWorked suspended_and_destroyed_asleep }
    ensures the_clock_comes_first { IsWorked the_clock_comes_first }
{}
