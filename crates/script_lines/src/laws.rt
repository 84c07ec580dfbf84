// A law on lines.
ghost use Rattle.std.specs.Prelude.{ℕ, List};
ghost use Rattle.script_lines.specs.Laws.{IsSaid};
ghost use Rattle.script_lines.specs.Phrase.{Phrase};

/// A line says a phrase exactly where it is the text of that phrase, and the phrase has what its row needs and nothing else. So a
/// text says one phrase at most, and each phrase can be read back.
pub fn said_is_spelt()
    ensures { (line : List ℕ) (p : Phrase) → IsSaid line p }
{}
