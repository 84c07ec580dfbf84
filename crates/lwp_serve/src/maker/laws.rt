// A law on the texts that are made.
ghost use Rattle.std.specs.Prelude.{ℕ};
ghost use Rattle.lwp_serve.specs.Maker.Laws.{MadeSpells};
ghost use Rattle.lwp_serve.specs.Maker.Order.{IsAllowed};

/// Whatever the seed, the text that is made spells a script.
pub fn made_spells()
    ensures { (seed threads lines : ℕ) → IsAllowed threads lines → MadeSpells seed threads lines }
{}
