// Laws on texts and scripts.
ghost use Rattle.std.specs.Prelude.{ℕ, List};
ghost use Rattle.script_text.specs.Laws.{SpellsOne, IsVerdict, IsBlamed};

/// A text spells one script at most.
pub fn one_script()
    ensures { (text : List ℕ) → SpellsOne text }
{}

/// The verdict on a text is a script exactly where the text spells it.
pub fn spelt_is_verdict()
    ensures { (text : List ℕ) → IsVerdict text }
{}

/// Where the verdict on a text is the number of a line and a reason, all lines before it are good where they stand, and this
/// one isn't, for that reason; or the text is too large.
pub fn first_bad_is_blamed()
    ensures { (text : List ℕ) → IsBlamed text }
{}
