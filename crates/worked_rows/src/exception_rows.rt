// Procedures, handlers and exceptions.
ghost use Rattle.worked_rows.specs.Exceptions.{functions_of_handlers, patterns_at_both_ends, no_handler_matches, notified_by_function, the_last_that_matches, unhandle_is_refused, patterns_given_once, handlers_of_another_thread, called_and_returned, no_such_procedure, caught_in_the_frame_below, caught_in_the_middle, earlier_handlers_stay, caught_by_the_third_of_a_frame, handlers_go_with_their_frame};
ghost use Rattle.worked_rows.specs.Words.{IsWorked};

/// Which handler is found, and what it answers.
pub fn handlers()
    ensures functions_of_handlers { IsWorked functions_of_handlers }
    ensures patterns_at_both_ends { IsWorked patterns_at_both_ends }
    ensures no_handler_matches { IsWorked no_handler_matches }
    ensures notified_by_function { IsWorked notified_by_function }
    ensures the_last_that_matches { IsWorked the_last_that_matches }
    ensures unhandle_is_refused { IsWorked unhandle_is_refused }
    ensures patterns_given_once { IsWorked patterns_given_once }
    ensures handlers_of_another_thread { IsWorked handlers_of_another_thread }
{}

/// Calls and returns, and where a thread goes on once an exception is caught.
pub fn frames()
    ensures called_and_returned { IsWorked called_and_returned }
    ensures no_such_procedure { IsWorked no_such_procedure }
    ensures caught_in_the_frame_below { IsWorked caught_in_the_frame_below }
    ensures caught_in_the_middle { IsWorked caught_in_the_middle }
    ensures earlier_handlers_stay { IsWorked earlier_handlers_stay }
    ensures caught_by_the_third_of_a_frame { IsWorked caught_by_the_third_of_a_frame }
    ensures handlers_go_with_their_frame { IsWorked handlers_go_with_their_frame }
{}
