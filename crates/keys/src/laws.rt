// What holds of numbers and of lists of numbers. The laws of lists, options and pairs are of every type, and so no clause can state
// them: whatever implements `Keyed` cites them.
ghost use Rattle.std.specs.Prelude.{◌≡◌, ◌∷◌, [], List, ℕ};
ghost use Rattle.keys.specs.Numbers.{Always, IsCode, alone, bit, counted, list_numbers, option_numbers, turned};
ghost use Rattle.keys.specs.Spelling.{spelt};

/// The law of numbers, of lists of numbers and of lists of these, and of what there may be none of. It runs nothing, as the others.
pub fn numbers_have_the_law()
    ensures alone { IsCode Always alone }
    ensures counted { IsCode Always counted }
    ensures lists { IsCode Always (list_numbers counted) }
    ensures options { IsCode Always (option_numbers alone) }
{}

/// A turned number is told apart from any other.
pub fn turned_numbers_differ()
    ensures { (n m : ℕ) → turned n ≡ turned m → n ≡ m }
{}

/// Bytes that spell numbers spell no others, and no beginning of others: so bytes of numbers after their count have the law too.
pub fn bytes_have_the_law()
    ensures same { (ns ms : List ℕ) → spelt ns ≡ spelt ms → ns ≡ ms }
    ensures counted { IsCode Always (λ ns. spelt (counted ns)) }
{}

/// Numbers in bytes, worked out by hand: 300 is 2 * 128 + 44, and 16,384 is 128 * 128; nobody's number is turned to 0.
pub fn bytes_of_numbers()
    ensures small { spelt (0 ∷ 127 ∷ []) ≡ (0 ∷ 127 ∷ []) }
    ensures two { spelt (128 ∷ 300 ∷ []) ≡ (128 ∷ 1 ∷ 172 ∷ 2 ∷ []) }
    ensures three { spelt (16384 ∷ []) ≡ (128 ∷ 128 ∷ 1 ∷ []) }
    ensures turned { spelt (turned 18446744073709551615 ∷ turned 6 ∷ []) ≡ (0 ∷ 7 ∷ []) }
{}
