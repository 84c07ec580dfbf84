// How a session ends: the pod by itself or by its servers, a stuck pod, and the turns allowed.
ghost use Rattle.worked_rows.specs.Ends.{first_run_exact_turns, first_run_one_turn_fewer, budgets_spent, budgets_nine10, budgets_nine9, budgets_stuck, pod_exit, statuses_at_both_ends, podexit_whoever_lives, podexit_with_0, a_server_suspends_itself, servers_alone, a_suspended_server_is_not_waited_for, a_server_that_may_run, a_suspended_thread_keeps_the_pod, threads_that_join_each_other};
ghost use Rattle.worked_rows.specs.Words.{IsWorked};

/// The turns allowed, met exactly and missed by one.
pub fn budgets()
    ensures first_run_exact_turns { IsWorked first_run_exact_turns }
    ensures first_run_one_turn_fewer { IsWorked first_run_one_turn_fewer }
    ensures budgets_spent { IsWorked budgets_spent }
    ensures budgets_nine10 { IsWorked budgets_nine10 }
    ensures budgets_nine9 { IsWorked budgets_nine9 }
    ensures budgets_stuck { IsWorked budgets_stuck }
{}

/// What ends a pod, with which status, and what doesn't.
pub fn ways_to_end()
    ensures pod_exit { IsWorked pod_exit }
    ensures statuses_at_both_ends { IsWorked statuses_at_both_ends }
    ensures podexit_whoever_lives { IsWorked podexit_whoever_lives }
    ensures podexit_with_0 { IsWorked podexit_with_0 }
    ensures a_server_suspends_itself { IsWorked a_server_suspends_itself }
    ensures servers_alone { IsWorked servers_alone }
    ensures a_suspended_server_is_not_waited_for { IsWorked a_suspended_server_is_not_waited_for }
    ensures a_server_that_may_run { IsWorked a_server_that_may_run }
    ensures a_suspended_thread_keeps_the_pod { IsWorked a_suspended_thread_keeps_the_pod }
    ensures threads_that_join_each_other { IsWorked threads_that_join_each_other }
{}
