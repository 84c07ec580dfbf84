// What a death does, step by step.
ghost use Rattle.worked_rows.specs.Deaths.{destroyed_while_waiting, its_own_letter, its_received_letter, its_wait, its_entry_request, its_join, a_woken_waiter, death_with_received_letter, exits_of_all_frames, locks_last_acquired_first, agents_in_birth_order, senders_in_send_order, named_receivers_in_birth_order, joiners_in_birth_order, all_at_once, the_same_in_another_order};
ghost use Rattle.worked_rows.specs.Words.{IsWorked};

/// First the dying thread is out of all that it waited in.
pub fn withdrawn()
    ensures destroyed_while_waiting { IsWorked destroyed_while_waiting }
    ensures its_own_letter { IsWorked its_own_letter }
    ensures its_received_letter { IsWorked its_received_letter }
    ensures its_wait { IsWorked its_wait }
    ensures its_entry_request { IsWorked its_entry_request }
    ensures its_join { IsWorked its_join }
    ensures a_woken_waiter { IsWorked a_woken_waiter }
{}

/// Then it gives up what it had, and those that waited for that go on.
pub fn given_up()
    ensures death_with_received_letter { IsWorked death_with_received_letter }
    ensures exits_of_all_frames { IsWorked exits_of_all_frames }
    ensures locks_last_acquired_first { IsWorked locks_last_acquired_first }
    ensures agents_in_birth_order { IsWorked agents_in_birth_order }
    ensures senders_in_send_order { IsWorked senders_in_send_order }
    ensures named_receivers_in_birth_order { IsWorked named_receivers_in_birth_order }
    ensures joiners_in_birth_order { IsWorked joiners_in_birth_order }
    ensures all_at_once { IsWorked all_at_once }
    ensures the_same_in_another_order { IsWorked the_same_in_another_order }
{}
