// What holds of the bytes of all cores.
ghost use Rattle.std.specs.Prelude.{◌≡◌};
ghost use Rattle.keys.specs.Numbers.{IsCode};
ghost use Rattle.session_cores.specs.Core.{Core, IsCoreOf};
ghost use Rattle.session_cores.specs.CoreCode.{core_key};

use keys::Keyed;

/// Two cores with the same bytes are one, and the bytes of none begin those of another, where their bodies are of one home: threads of
/// one script, say. It runs nothing.
pub fn every_core<B: Keyed>()
    ensures code { (home : B.Home) → IsCode (IsCoreOf B.is_of home) (core_key B.numbers) }
    ensures same { (home : B.Home) (a b : Core B) → IsCoreOf B.is_of home a → IsCoreOf B.is_of home b →
        core_key B.numbers a ≡ core_key B.numbers b → a ≡ b }
{}
