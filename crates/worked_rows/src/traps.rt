// Traps: a line of a trapped event becomes an exception in the thread that makes the next call.
ghost use Rattle.worked_rows.specs.Traps.{a_name_is_set_though_nothing_is_called, a_trap_counts_as_a_turn, a_trap_leaves_servers_alone, a_trap_that_gives, below_two_frames, caught_by_the_handler_set_last, exits_of_an_unheard_trap, in_who_is_chosen_then, joined_until_a_trap, no_trap_where_nobody_may_run, the_trap, the_trap_sum, ticks_beside_a_trap, trapped_behind_an_agent, what_no_trap_takes};
ghost use Rattle.worked_rows.specs.Words.{IsWorked};

/// Where a trap is raised, and what its handler does.
pub fn raised()
    ensures the_trap { IsWorked the_trap }
    ensures the_trap_sum { IsWorked the_trap_sum }
    ensures a_trap_that_gives { IsWorked a_trap_that_gives }
    ensures in_who_is_chosen_then { IsWorked in_who_is_chosen_then }
    ensures below_two_frames { IsWorked below_two_frames }
    ensures a_name_is_set_though_nothing_is_called { IsWorked a_name_is_set_though_nothing_is_called }
    ensures caught_by_the_handler_set_last { IsWorked caught_by_the_handler_set_last }
{}

/// A trap that no handler hears kills its thread.
pub fn unheard()
    ensures exits_of_an_unheard_trap { IsWorked exits_of_an_unheard_trap }
    ensures joined_until_a_trap { IsWorked joined_until_a_trap }
    ensures a_trap_leaves_servers_alone { IsWorked a_trap_leaves_servers_alone }
    ensures a_trap_counts_as_a_turn { IsWorked a_trap_counts_as_a_turn }
{}

/// Which events are trapped, and when their lines are taken.
pub fn taken()
    ensures what_no_trap_takes { IsWorked what_no_trap_takes }
    ensures trapped_behind_an_agent { IsWorked trapped_behind_an_agent }
    ensures no_trap_where_nobody_may_run { IsWorked no_trap_where_nobody_may_run }
    ensures ticks_beside_a_trap { IsWorked ticks_beside_a_trap }
{}
