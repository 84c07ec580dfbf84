// Sessions in which lines are taken later than they could be.
ghost use Rattle.std.specs.Prelude.{[], codes, ◌∷◌};
ghost use Rattle.worked_rows.specs.Words.{line, took};
ghost use Rattle.worked_rows.specs.Played.{Armed, Is, Shows, another_awaited, no_reply, one, two};

/// A line is delivered whenever its event is armed: before its owner receives, while it waits for that, or while it waits for
/// somebody else.
pub fn late_takes()
    ensures nothing { Shows no_reply [] 0 [] }
    ensures none_taken { Shows no_reply [] 2 (codes "t0: agent 5\nt0 = t1\nt0: recv t1 wait\n") }
    ensures before_the_receive { Shows no_reply (one 1 ∷ []) 3
        (codes "t0: agent 5\nt0 = t1\nevent 5 client 0 seq 0 one\nt0: recv t1 wait\nt0 = letter t1 240 one\nt0: recv t1 wait\n") }
    ensures while_it_waits { Shows no_reply (one 2 ∷ []) 3
        (codes "t0: agent 5\nt0 = t1\nt0: recv t1 wait\nevent 5 client 0 seq 0 one\nt0 = letter t1 240 one\nt0: recv t1 wait\n") }
    ensures while_it_waits_for_another { Shows another_awaited (one 4 ∷ []) 6
        (codes "t0: create w 1 -\nt0 = t1\nt0: agent 5\nt0 = t2\nt0: recv t1 wait\nt1: say up\nt1 = 0\nevent 5 client 0 seq 0 one\nt1: send t0 9 hi\nt0 = letter t1 9 hi\nt0: recv any wait\nt0 = letter t2 240 one\n") }
    ensures after_the_last_call { Shows no_reply (one 2 ∷ []) 2
        (codes "t0: agent 5\nt0 = t1\nt0: recv t1 wait\nevent 5 client 0 seq 0 one\nt0 = letter t1 240 one\n") }
{}

/// Before which calls a line could be taken.
pub fn armed()
    ensures until_it_is_taken { Armed no_reply (one 2 ∷ []) 3 5 (1 ∷ []) }
    ensures at_once { Armed no_reply (one 1 ∷ []) 3 5 [] }
    ensures never_taken { Armed no_reply [] 2 5 (1 ∷ []) }
    ensures another_event { Armed no_reply [] 2 4 [] }
{}

/// Which sessions there are.
pub fn defined()
    ensures opening { Is no_reply [] 0 }
    ensures two_calls { Is no_reply [] 2 }
    ensures late_take { Is no_reply (one 2 ∷ []) 3 }
    ensures no_third_call { ¬ Is no_reply [] 3 }
    ensures not_armed { ¬ Is no_reply (one 0 ∷ []) 3 }
    ensures holding { ¬ Is no_reply (one 1 ∷ two 2 ∷ []) 3 }
    ensures above_the_calls { ¬ Is no_reply (one 3 ∷ []) 2 }
    ensures turns_that_fall { ¬ Is another_awaited
        (took 4 5 (line 0 0 (codes "one")) ∷ took 2 5 (line 0 1 (codes "two")) ∷ []) 5 }
{}
