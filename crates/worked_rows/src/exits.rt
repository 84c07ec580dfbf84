// Exit procedures: when they run, in which order, and what each of the eight comes to.
ghost use Rattle.worked_rows.specs.Exits.{raise_through_two_frames, exit_that_replies, at_a_return, those_of_the_handlers_frame_stay, a_raise_within_one_frame, a_caught_notification, numbers_over_all_threads, names_as_they_were, an_exit_may_name_the_dead, what_is_not_there, what_is_not_held, carried_out, leaving_twice, breaking_anothers_lock, a_reply_that_is_too_long, resuming_itself, a_status_by_an_exit};
ghost use Rattle.worked_rows.specs.Words.{IsWorked};

/// Exit procedures run when their frame is over, the last set first.
pub fn unwinding()
    ensures raise_through_two_frames { IsWorked raise_through_two_frames }
    ensures exit_that_replies { IsWorked exit_that_replies }
    ensures at_a_return { IsWorked at_a_return }
    ensures those_of_the_handlers_frame_stay { IsWorked those_of_the_handlers_frame_stay }
    ensures a_raise_within_one_frame { IsWorked a_raise_within_one_frame }
    ensures a_caught_notification { IsWorked a_caught_notification }
    ensures numbers_over_all_threads { IsWorked numbers_over_all_threads }
    ensures names_as_they_were { IsWorked names_as_they_were }
    ensures an_exit_may_name_the_dead { IsWorked an_exit_may_name_the_dead }
{}

/// Each of the eight calls, carried out and refused; what it does to others comes before its own result.
pub fn the_eight()
    ensures what_is_not_there { IsWorked what_is_not_there }
    ensures what_is_not_held { IsWorked what_is_not_held }
    ensures carried_out { IsWorked carried_out }
    ensures leaving_twice { IsWorked leaving_twice }
    ensures breaking_anothers_lock { IsWorked breaking_anothers_lock }
    ensures a_reply_that_is_too_long { IsWorked a_reply_that_is_too_long }
    ensures resuming_itself { IsWorked resuming_itself }
    ensures a_status_by_an_exit { IsWorked a_status_by_an_exit }
{}
