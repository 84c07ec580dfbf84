// Last rites: deaths are reported to the agents of event 32.
ghost use Rattle.worked_rows.specs.LastRites.{a_death_by_a_trap, an_ended_pod_reports_nothing, destroyed_and_reported, destroyed_beside_its_joiner, reported_to_two_agents, reports_go_with_the_last_agent, reports_in_order, the_first_thread_is_reported, the_last_rites};
ghost use Rattle.worked_rows.specs.Words.{IsWorked};

/// To whom a death is reported, and when.
pub fn reported()
    ensures the_last_rites { IsWorked the_last_rites }
    ensures reports_in_order { IsWorked reports_in_order }
    ensures reports_go_with_the_last_agent { IsWorked reports_go_with_the_last_agent }
    ensures reported_to_two_agents { IsWorked reported_to_two_agents }
    ensures the_first_thread_is_reported { IsWorked the_first_thread_is_reported }
{}

/// Whose death is reported, and whose isn't.
pub fn unreported()
    ensures destroyed_and_reported { IsWorked destroyed_and_reported }
    ensures an_ended_pod_reports_nothing { IsWorked an_ended_pod_reports_nothing }
    ensures destroyed_beside_its_joiner { IsWorked destroyed_beside_its_joiner }
    ensures a_death_by_a_trap { IsWorked a_death_by_a_trap }
{}
