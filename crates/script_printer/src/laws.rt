// A law on printed scripts.
ghost use Rattle.script_printer.specs.Laws.{PrintsBack};
ghost use Rattle.script_text.specs.declared.script.Script.{Script};

/// The printed text of a script that some text spells is a spelling of it, so what is printed is read as it was.
pub fn printed_is_spelt()
    ensures { (s : Script) → PrintsBack s }
{}
