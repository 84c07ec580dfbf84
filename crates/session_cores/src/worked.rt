// Bytes that were worked out by hand. None of these functions does anything: each clause is a row, and the prover computes it.
ghost use Rattle.std.specs.Prelude.{◌≡◌, ◌∷◌, [], false, true};
ghost use Rattle.keys.specs.Numbers.{alone};
ghost use Rattle.keys.specs.Spelling.{spelt};
ghost use Rattle.session_cores.specs.Core.{core_of};
ghost use Rattle.session_cores.specs.CoreCode.{core_key};
ghost use Rattle.session_cores.specs.Rows.{letter, small_live};
ghost use Rattle.session_cores.specs.States.{letter_numbers};

/// A session before its second call. Its pod: one thread with one frame, who is next, no timers and no letters; no monitors, locks,
/// requests, conditions, waits and agents; the clock and the counts, of which the next pattern is 300, 2 * 128 + 44; 32 events of which
/// none is trapped. Then thread 0, its body, and the value 0; one name, of thread 300; of two clients, two lines of one and none of the
/// other.
pub fn bytes_of_a_session()
    ensures { core_key alone (core_of small_live (2 ∷ 0 ∷ []))
        ≡ (1 ∷ 0 ∷ 2 ∷ 0 ∷ 0 ∷ 0 ∷ 0 ∷ 0 ∷ 1 ∷ 0
        ∷ 1 ∷ 0
        ∷ 0
        ∷ 0
        ∷ 0 ∷ 0 ∷ 0 ∷ 0 ∷ 0 ∷ 0
        ∷ 0 ∷ 2 ∷ 0 ∷ 0
        ∷ 1 ∷ 0 ∷ 0 ∷ 100 ∷ 3 ∷ 0 ∷ 172 ∷ 2
        ∷ 32 ∷ 0 ∷ 0 ∷ 0 ∷ 0 ∷ 0 ∷ 0 ∷ 0 ∷ 0 ∷ 0 ∷ 0 ∷ 0 ∷ 0 ∷ 0 ∷ 0 ∷ 0 ∷ 0 ∷ 0 ∷ 0 ∷ 0 ∷ 0 ∷ 0 ∷ 0 ∷ 0 ∷ 0 ∷ 0 ∷ 0 ∷ 0 ∷ 0 ∷ 0 ∷ 0 ∷ 0 ∷ 0
        ∷ 0
        ∷ 0
        ∷ 1 ∷ 0 ∷ 7 ∷ 0 ∷ 0 ∷ 0
        ∷ 1 ∷ 172 ∷ 2
        ∷ 0
        ∷ 0
        ∷ 2 ∷ 2 ∷ 0 ∷ []) }
{}

/// A letter from thread 1 to thread 0, of `hi`, 104 and 105, that takes 240 bytes, 1 * 128 + 112, as a reply: not received, and received.
pub fn bytes_of_a_letter()
    ensures sent { spelt (letter_numbers (letter false)) ≡ (1 ∷ 0 ∷ 240 ∷ 1 ∷ 0 ∷ 2 ∷ 104 ∷ 105 ∷ []) }
    ensures received { spelt (letter_numbers (letter true)) ≡ (1 ∷ 0 ∷ 240 ∷ 1 ∷ 1 ∷ 2 ∷ 104 ∷ 105 ∷ []) }
{}
