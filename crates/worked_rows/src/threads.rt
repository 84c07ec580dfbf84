// Threads: how they are created, told apart, ordered, suspended and joined.
ghost use Rattle.worked_rows.specs.Threads.{first_run, mission_script, empty_procedure, priorities_at_both_ends, preemption_keeps_place, yield_to_one, two_joiners, stale_id, greatest_priority_of_all, create_is_refused_in_order, last_birth, an_agent_is_a_birth, created_suspended, flags_in_all_forms, ping_finds_threads_and_agents, destroying_itself, the_first_thread_may_die_first, threads_in_birth_order, calls_that_name_the_dead, calls_that_take_no_agent, yield_is_refused_in_order, resched_moves_the_first, resched_lets_an_equal_run, resched_is_refused_in_order, setpri_is_refused_in_order, setpri_to_the_same, setpri_goes_last, setpri_of_a_suspended_thread, the_greatest_priority_only_grows, suspend_resume_and_join_of_nobody, suspending_itself, suspended_twice_resumed_once, resuming_who_runs, resumed_while_blocked};
ghost use Rattle.worked_rows.specs.Words.{IsWorked};

/// Threads are created, take turns and die; nobody is preempted by its equals, and a preempted thread keeps its place.
pub fn first_steps()
    ensures first_run { IsWorked first_run }
    ensures mission_script { IsWorked mission_script }
    ensures empty_procedure { IsWorked empty_procedure }
    ensures priorities_at_both_ends { IsWorked priorities_at_both_ends }
    ensures preemption_keeps_place { IsWorked preemption_keeps_place }
    ensures yield_to_one { IsWorked yield_to_one }
    ensures two_joiners { IsWorked two_joiners }
    ensures stale_id { IsWorked stale_id }
{}

/// What a create is refused for, in which order, and what flags do.
pub fn creating()
    ensures greatest_priority_of_all { IsWorked greatest_priority_of_all }
    ensures create_is_refused_in_order { IsWorked create_is_refused_in_order }
    ensures last_birth { IsWorked last_birth }
    ensures an_agent_is_a_birth { IsWorked an_agent_is_a_birth }
    ensures created_suspended { IsWorked created_suspended }
    ensures flags_in_all_forms { IsWorked flags_in_all_forms }
{}

/// Who is live: by its own number, by the numbers of others, in lists.
pub fn existing()
    ensures ping_finds_threads_and_agents { IsWorked ping_finds_threads_and_agents }
    ensures destroying_itself { IsWorked destroying_itself }
    ensures the_first_thread_may_die_first { IsWorked the_first_thread_may_die_first }
    ensures threads_in_birth_order { IsWorked threads_in_birth_order }
    ensures calls_that_name_the_dead { IsWorked calls_that_name_the_dead }
    ensures calls_that_take_no_agent { IsWorked calls_that_take_no_agent }
{}

/// Yields and reschedules among threads of one priority.
pub fn taking_turns()
    ensures yield_is_refused_in_order { IsWorked yield_is_refused_in_order }
    ensures resched_moves_the_first { IsWorked resched_moves_the_first }
    ensures resched_lets_an_equal_run { IsWorked resched_lets_an_equal_run }
    ensures resched_is_refused_in_order { IsWorked resched_is_refused_in_order }
{}

/// Priorities that change, and the greatest of them.
pub fn priorities()
    ensures setpri_is_refused_in_order { IsWorked setpri_is_refused_in_order }
    ensures setpri_to_the_same { IsWorked setpri_to_the_same }
    ensures setpri_goes_last { IsWorked setpri_goes_last }
    ensures setpri_of_a_suspended_thread { IsWorked setpri_of_a_suspended_thread }
    ensures the_greatest_priority_only_grows { IsWorked the_greatest_priority_only_grows }
{}

/// Suspended, resumed and joined threads.
pub fn suspending()
    ensures suspend_resume_and_join_of_nobody { IsWorked suspend_resume_and_join_of_nobody }
    ensures suspending_itself { IsWorked suspending_itself }
    ensures suspended_twice_resumed_once { IsWorked suspended_twice_resumed_once }
    ensures resuming_who_runs { IsWorked resuming_who_runs }
    ensures resumed_while_blocked { IsWorked resumed_while_blocked }
{}
