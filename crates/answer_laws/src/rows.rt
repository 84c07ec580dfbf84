// Two talks, the steps of some sessions and the births of two threads, worked out by hand.
ghost use Rattle.std.specs.Prelude.{[], codes, false, true, ◌∷◌};
ghost use Rattle.answer_laws.specs.Clients.{IsAnsweredInTurn};
ghost use Rattle.answer_laws.specs.ClientRows.{Begin, Own, Tells, Wait, asked_and_quit, replied_by_owner, sent_between, trapped_and_gone, two_created};
ghost use Rattle.answer_laws.specs.Rows.{Comes, answers_of_a, answers_of_b, lines_of_a, lines_of_b, talk_of_a, talk_of_b};

/// A client that asks for what another has put, says what is no command, and quits: the other's key isn't there.
pub fn apart()
    ensures { Comes talk_of_a lines_of_a answers_of_a }
{}

/// A client whose session dies before its second line is replied to.
pub fn cut_short()
    ensures { Comes talk_of_b lines_of_b answers_of_b }
{}

/// A client that asks for a key and quits.
pub fn steps_of_a_client()
    ensures in_turn { IsAnsweredInTurn 2 4 asked_and_quit }
    ensures tells { Tells asked_and_quit (codes "get k" ∷ codes "quit" ∷ [])
        (codes "none" ∷ codes "bye" ∷ []) true }
{}

/// A report is a text delivered to the agent, and a trapped line is none; a reply counts after a trap, and not where it is refused.
pub fn steps_with_a_trap()
    ensures in_turn { IsAnsweredInTurn 2 4 trapped_and_gone }
    ensures tells { Tells trapped_and_gone (codes "t7" ∷ codes "what" ∷ []) (codes "bad" ∷ []) false }
{}

/// Threads that begin in procedures 5 and 6; a thread that asks who it is was named before, and a refused Create bears nobody.
pub fn threads_that_begin()
    ensures { Begin two_created 5 6 }
{}

/// Who has sent nothing when another is born, whatever else it calls.
pub fn threads_that_wait()
    ensures { Wait sent_between }
{}

/// Who owns an agent, and whose replies to it are accepted.
pub fn threads_that_own()
    ensures { Own replied_by_owner }
{}
