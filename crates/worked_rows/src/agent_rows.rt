// Events of the outside, as messages of agents to their owners.
ghost use Rattle.worked_rows.specs.Agents.{agent_without_reply, agent_without_reply_exact_turns, reply_and_next_event, two_clients_one_event, loop_then_reply_on_plan, loop_then_reply_one_turn_fewer, an_event_waits_for_its_agent, taken_though_nobody_reads, left_of_each_client, events_in_rising_order, lists_of_ids, agent_dies_with_owner, events_at_both_ends, agent_is_refused_in_order, a_reply_before_the_letter, the_longest_reply_to_an_agent, a_destroyed_agent_takes_its_letter, a_destroyed_agent_refuses_who_waits, an_owner_dies_with_a_message, letters_of_threads_and_agents, several_agents, two_agents_of_one_owner, an_owner_waits_for_the_second};
ghost use Rattle.worked_rows.specs.Words.{IsWorked};

/// Lines are taken as soon as their event has an agent that holds nothing.
pub fn events()
    ensures agent_without_reply { IsWorked agent_without_reply }
    ensures agent_without_reply_exact_turns { IsWorked agent_without_reply_exact_turns }
    ensures reply_and_next_event { IsWorked reply_and_next_event }
    ensures two_clients_one_event { IsWorked two_clients_one_event }
    ensures loop_then_reply_on_plan { IsWorked loop_then_reply_on_plan }
    ensures loop_then_reply_one_turn_fewer { IsWorked loop_then_reply_one_turn_fewer }
    ensures an_event_waits_for_its_agent { IsWorked an_event_waits_for_its_agent }
    ensures taken_though_nobody_reads { IsWorked taken_though_nobody_reads }
    ensures left_of_each_client { IsWorked left_of_each_client }
    ensures events_in_rising_order { IsWorked events_in_rising_order }
{}

/// What an agent is to the calls of threads.
pub fn agents_and_calls()
    ensures lists_of_ids { IsWorked lists_of_ids }
    ensures agent_dies_with_owner { IsWorked agent_dies_with_owner }
    ensures events_at_both_ends { IsWorked events_at_both_ends }
    ensures agent_is_refused_in_order { IsWorked agent_is_refused_in_order }
    ensures a_reply_before_the_letter { IsWorked a_reply_before_the_letter }
    ensures the_longest_reply_to_an_agent { IsWorked the_longest_reply_to_an_agent }
    ensures a_destroyed_agent_takes_its_letter { IsWorked a_destroyed_agent_takes_its_letter }
    ensures a_destroyed_agent_refuses_who_waits { IsWorked a_destroyed_agent_refuses_who_waits }
    ensures an_owner_dies_with_a_message { IsWorked an_owner_dies_with_a_message }
    ensures letters_of_threads_and_agents { IsWorked letters_of_threads_and_agents }
{}

/// A line for several agents of one event.
pub fn sharing_an_event()
    ensures several_agents { IsWorked several_agents }
    ensures two_agents_of_one_owner { IsWorked two_agents_of_one_owner }
    ensures an_owner_waits_for_the_second { IsWorked an_owner_waits_for_the_second }
{}
