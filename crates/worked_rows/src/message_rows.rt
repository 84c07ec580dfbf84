// Messages: a sender waits for its reply.
ghost use Rattle.worked_rows.specs.Messages.{receive_by_name_and_poll, reply_of_the_room, send_is_refused_in_order, recv_is_refused_in_order, reply_is_refused_in_order, room_for_nothing, room_for_the_longest, a_letter_of_another_waits, letters_in_send_order, receivers_name_the_caller, a_suspended_receiver, a_request_and_its_reply};
ghost use Rattle.worked_rows.specs.Words.{IsWorked};

/// Letters and replies, and the room that a sender gives.
pub fn sending()
    ensures receive_by_name_and_poll { IsWorked receive_by_name_and_poll }
    ensures reply_of_the_room { IsWorked reply_of_the_room }
    ensures send_is_refused_in_order { IsWorked send_is_refused_in_order }
    ensures recv_is_refused_in_order { IsWorked recv_is_refused_in_order }
    ensures reply_is_refused_in_order { IsWorked reply_is_refused_in_order }
    ensures room_for_nothing { IsWorked room_for_nothing }
    ensures room_for_the_longest { IsWorked room_for_the_longest }
{}

/// Which letter is received, and by whom.
pub fn receiving()
    ensures a_letter_of_another_waits { IsWorked a_letter_of_another_waits }
    ensures letters_in_send_order { IsWorked letters_in_send_order }
    ensures receivers_name_the_caller { IsWorked receivers_name_the_caller }
    ensures a_suspended_receiver { IsWorked a_suspended_receiver }
    ensures a_request_and_its_reply { IsWorked a_request_and_its_reply }
{}
