// What the statements of a procedure mean that make no call, what names mean, and how texts are printed.
ghost use Rattle.worked_rows.specs.Scripts.{skip_by_the_last_answer, a_skip_over_a_skip, a_skip_at_the_start, a_skip_past_the_end, an_id_is_no_value, again_until_skipped, a_refused_handle_has_no_place, a_removed_handler_has_no_place, caught_without_a_skip, a_name_is_set_as_its_thread_goes_on, a_name_is_set_anew, names_of_three_kinds, each_thread_has_its_sender, the_caller_prints_as_self, texts};
ghost use Rattle.worked_rows.specs.Words.{IsWorked};

/// Skips, repetitions, and the places that a thread goes on from.
pub fn statements()
    ensures skip_by_the_last_answer { IsWorked skip_by_the_last_answer }
    ensures a_skip_over_a_skip { IsWorked a_skip_over_a_skip }
    ensures a_skip_at_the_start { IsWorked a_skip_at_the_start }
    ensures a_skip_past_the_end { IsWorked a_skip_past_the_end }
    ensures an_id_is_no_value { IsWorked an_id_is_no_value }
    ensures again_until_skipped { IsWorked again_until_skipped }
    ensures a_refused_handle_has_no_place { IsWorked a_refused_handle_has_no_place }
    ensures a_removed_handler_has_no_place { IsWorked a_removed_handler_has_no_place }
    ensures caught_without_a_skip { IsWorked caught_without_a_skip }
{}

/// Names, and the words that mean threads.
pub fn names()
    ensures a_name_is_set_as_its_thread_goes_on { IsWorked a_name_is_set_as_its_thread_goes_on }
    ensures a_name_is_set_anew { IsWorked a_name_is_set_anew }
    ensures names_of_three_kinds { IsWorked names_of_three_kinds }
    ensures each_thread_has_its_sender { IsWorked each_thread_has_its_sender }
    ensures the_caller_prints_as_self { IsWorked the_caller_prints_as_self }
    ensures texts { IsWorked texts }
{}
