// What a cycle means.
ghost use Rattle.std.specs.Prelude.{[], List, None, Some, codes, false, if◌then◌else◌, true, ℕ, ◌==◌, ◌∷◌, ◌≡◌};
ghost use Rattle.std.specs.List.{AllByRecursion};
ghost use Rattle.lwp_types.specs.State.{State, is_blocked_in};
ghost use Rattle.state_text.specs.Text.{agent_line, cycle_line, holds_line, letter_line, words_line, thread_words};
ghost use Rattle.state_text.specs.Waiting.{cycle_from, round};

/// Every thread of a cycle is blocked.
pub fn cycles_are_blocked()
    ensures { (s : State) (t : ℕ) (c : List ℕ) → cycle_from s t ≡ Some c → AllByRecursion (λ u. is_blocked_in s u ≡ true) c }
{}

/// Rows worked out by hand.
pub fn worked_rows()
    ensures letter { letter_line (record { from = 3; to = 0; text = codes "two"; room = 240; received = true })
        ≡ codes "  received t3 240 two\n" }
    ensures lock { holds_line (record { mon = 0; owner = 1; depth = 2 }) ≡ codes "  holds m0 depth 2\n" }
    ensures agent { agent_line (record { number = 4; event = 32; owner = 1; holding = true })
        ≡ codes "  agent t4 event 32 holds\n" }
    ensures order { words_line (codes "order") (thread_words (11 ∷ 10 ∷ [])) ≡ codes "order t11 t10\n" }
    ensures none { words_line (codes "order") (thread_words []) ≡ [] }
    ensures cycle { cycle_line (1 ∷ 2 ∷ []) ≡ codes "cycle t1 t2\n" }
    ensures round { round (λ t. if t == 1 then Some 5 else Some 1) 1 3 1 ≡ Some (1 ∷ 5 ∷ []) }
    ensures open { round (λ t. if t == 1 then Some 5 else None) 1 3 1 ≡ None }
    ensures lesser { round (λ t. if t == 1 then Some 5 else Some 1) 5 3 5 ≡ None }
{}
