// Sleepers, and receives that wait for so many ticks, among all else that goes on.
ghost use Rattle.std.specs.Prelude.{[], codes, false, true, ◌≡◌, ◌∷◌};
ghost use Rattle.lwp_types.specs.Agents.{deliver, is_event_armed};
ghost use Rattle.lwp_types.specs.Step.{step};
ghost use Rattle.lwp_types.specs.Unblock.{zero_answer};
ghost use Rattle.lwp_types.specs.declared.call.Call.TheVariants as call;
ghost use Rattle.lwp_types.specs.declared.call.Effect.TheVariants as effect;
ghost use Rattle.worked_rows.specs.Limits.{alone};
ghost use Rattle.worked_rows.specs.Sleepers.{a_death_beside_a_sleeping_server, a_later_arrival_is_due_first, a_letter_behind_the_due, a_letter_of_another, a_limit_and_its_refusals, a_priority_that_changes_asleep, a_server_falls_asleep, a_sleep_of_none_moves_nobody, a_tick_wakes_a_greater_priority, an_agent_ends_first, an_answered_receive_has_no_timer, arrival_before_priority, asleep_in_a_called_procedure, asleep_until, asleep_with_a_monitor, at_time, destroyed_asleep, exits_of_a_sleeper, joined_asleep, resumed_before_its_tick, spent_beside_a_sleeper, stuck_with_lines_of_another_event, suspended_past_its_tick, the_clock_before_an_agent, the_greatest_ticks, ticks_behind_the_last_turn, ticks_while_nobody_sleeps, two_clients_on_the_clock, what_others_see_of_a_sleeper};
ghost use Rattle.worked_rows.specs.Words.{IsWorked};

/// Whom a tick lets run, and in which order.
pub fn whose_turn()
    ensures a_sleep_of_none_moves_nobody { IsWorked a_sleep_of_none_moves_nobody }
    ensures arrival_before_priority { IsWorked arrival_before_priority }
    ensures a_later_arrival_is_due_first { IsWorked a_later_arrival_is_due_first }
    ensures a_tick_wakes_a_greater_priority { IsWorked a_tick_wakes_a_greater_priority }
    ensures ticks_while_nobody_sleeps { IsWorked ticks_while_nobody_sleeps }
    ensures two_clients_on_the_clock { IsWorked two_clients_on_the_clock }
    ensures the_clock_before_an_agent { IsWorked the_clock_before_an_agent }
    ensures a_priority_that_changes_asleep { IsWorked a_priority_that_changes_asleep }
{}

/// What others do with a sleeper, and what it holds meanwhile.
pub fn others()
    ensures destroyed_asleep { IsWorked destroyed_asleep }
    ensures suspended_past_its_tick { IsWorked suspended_past_its_tick }
    ensures resumed_before_its_tick { IsWorked resumed_before_its_tick }
    ensures joined_asleep { IsWorked joined_asleep }
    ensures asleep_with_a_monitor { IsWorked asleep_with_a_monitor }
    ensures what_others_see_of_a_sleeper { IsWorked what_others_see_of_a_sleeper }
    ensures asleep_in_a_called_procedure { IsWorked asleep_in_a_called_procedure }
    ensures exits_of_a_sleeper { IsWorked exits_of_a_sleeper }
{}

/// Receives that wait for so many ticks at most.
pub fn limited_receives()
    ensures a_letter_behind_the_due { IsWorked a_letter_behind_the_due }
    ensures an_answered_receive_has_no_timer { IsWorked an_answered_receive_has_no_timer }
    ensures a_letter_of_another { IsWorked a_letter_of_another }
    ensures an_agent_ends_first { IsWorked an_agent_ends_first }
    ensures the_greatest_ticks { IsWorked the_greatest_ticks }
    ensures a_limit_and_its_refusals { IsWorked a_limit_and_its_refusals }
{}

/// How sessions end in which threads sleep.
pub fn ends()
    ensures a_death_beside_a_sleeping_server { IsWorked a_death_beside_a_sleeping_server }
    ensures a_server_falls_asleep { IsWorked a_server_falls_asleep }
    ensures spent_beside_a_sleeper { IsWorked spent_beside_a_sleeper }
    ensures ticks_behind_the_last_turn { IsWorked ticks_behind_the_last_turn }
    ensures stuck_with_lines_of_another_event { IsWorked stuck_with_lines_of_another_event }
{}

/// The last tick of a clock, and what comes of it.
pub fn last_tick()
    ensures goes_on { is_event_armed (at_time 4294967294) 0 ≡ true }
    ensures is_told { (deliver (at_time 4294967294) 0 (codes "x")).effects ≡ effect.Ticked 4294967295 ∷ [] }
    ensures changes_nothing_else { (deliver (at_time 4294967294) 0 (codes "x")).after ≡ at_time 4294967295 }
    ensures wakes { (deliver (asleep_until 4294967295 4294967294) 0 (codes "x")).effects
        ≡ effect.Ticked 4294967295 ∷ effect.Answered 0 zero_answer ∷ [] }
    ensures wakes_to_run { (deliver (asleep_until 4294967295 4294967294) 0 (codes "x")).after ≡ at_time 4294967295 }
    ensures wakes_nobody_early { (deliver (asleep_until 4294967296 4294967294) 0 (codes "x")).after
        ≡ asleep_until 4294967296 4294967295 }
    ensures no_more { is_event_armed (at_time 4294967295) 0 ≡ false }
    ensures sleeps_for_ever { (step (at_time 4294967295) (call.Sleep 1)).after ≡ asleep_until 4294967296 4294967295 }
    ensures sleeps_the_longest { (step (at_time 4294967295) (call.Sleep 4294967295)).after
        ≡ asleep_until 8589934590 4294967295 }
    ensures none_once_ended { is_event_armed (record alone { ended = true }) 0 ≡ false }
{}
