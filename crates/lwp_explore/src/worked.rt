// What was worked out by hand. None of these functions does anything: each clause is a row, and the prover computes it.
ghost use Rattle.lwp_explore.specs.Cycles.{leap};
ghost use Rattle.lwp_explore.specs.KindCodes.{kind_code};
ghost use Rattle.lwp_explore.specs.KindText.{is_bad, kind_name};
ghost use Rattle.lwp_explore.specs.Lines.{has_line};
ghost use Rattle.lwp_explore.specs.Texts.{fault_text, status_of};
ghost use Rattle.lwp_explore.specs.Words.{command_of};
ghost use Rattle.lwp_explore.specs.declared.ending.Ending.TheVariants as ending;
ghost use Rattle.lwp_explore.specs.declared.kinds.End.TheVariants as end;
ghost use Rattle.lwp_explore.specs.declared.words.Command.TheVariants as command;
ghost use Rattle.script_session.specs.declared.session.SessionEnd.TheVariants as session;
ghost use Rattle.std.specs.Prelude.{[], ◌≡◌, ◌∷◌, None, Some, codes, false, true};

/// The names of kinds.
pub fn names_of_kinds()
    ensures ended { kind_name (record { end = end.Ended 3; left = true }) ≡ codes "ended 3 with lines left" }
    ensures well { kind_name (record { end = end.Ended 0; left = false }) ≡ codes "ended 0" }
    ensures stuck { kind_name (record { end = end.Stuck; left = false }) ≡ codes "stuck" }
    ensures endless { kind_name (record { end = end.Endless; left = true }) ≡ codes "endless with lines left" }
{}

/// Only the end of a pod with no line left is well.
pub fn kinds_that_are_well()
    ensures ended { is_bad (record { end = end.Ended 99; left = false }) ≡ false }
    ensures left { is_bad (record { end = end.Ended 0; left = true }) ≡ true }
    ensures stuck { is_bad (record { end = end.Stuck; left = false }) ≡ true }
    ensures endless { is_bad (record { end = end.Endless; left = false }) ≡ true }
{}

/// Kinds have different numbers.
pub fn numbers_of_kinds()
    ensures stuck { kind_code (record { end = end.Stuck; left = false }) ≡ 0 }
    ensures stuck_left { kind_code (record { end = end.Stuck; left = true }) ≡ 1 }
    ensures endless { kind_code (record { end = end.Endless; left = false }) ≡ 2 }
    ensures ended { kind_code (record { end = end.Ended 0; left = false }) ≡ 4 }
    ensures last { kind_code (record { end = end.Ended 99; left = true }) ≡ 203 }
{}

/// Words that are commands, and words that are none.
pub fn words_of_commands()
    ensures ends { command_of (codes "ends" ∷ []) ≡ Some (command.Ends 100000) }
    ensures some { command_of (codes "ends" ∷ codes "1000000" ∷ []) ≡ Some (command.Ends 1000000) }
    ensures no_core { command_of (codes "ends" ∷ codes "0" ∷ []) ≡ None }
    ensures too_many { command_of (codes "ends" ∷ codes "1000001" ∷ []) ≡ None }
    ensures trace { command_of (codes "trace" ∷ codes "2" ∷ []) ≡ Some (command.Trace 2 100000) }
    ensures trace_within { command_of (codes "trace" ∷ codes "2" ∷ codes "7" ∷ []) ≡ Some (command.Trace 2 7) }
    ensures no_kind { command_of (codes "trace" ∷ codes "0" ∷ []) ≡ None }
    ensures line { command_of (codes "line" ∷ codes "stuck" ∷ []) ≡ Some (command.Line 100000) }
    ensures line_within { command_of (codes "line" ∷ codes "stuck" ∷ codes "9" ∷ []) ≡ Some (command.Line 9) }
    ensures no_line { command_of (codes "line" ∷ []) ≡ None }
    ensures other { command_of (codes "plan" ∷ []) ≡ None }
    ensures nothing { command_of [] ≡ None }
{}

/// A line is found whole, and only where a newline ends it.
pub fn lines_of_texts()
    ensures first { has_line (codes "ab\nc\n") (codes "ab") ≡ true }
    ensures last { has_line (codes "ab\nc\n") (codes "c") ≡ true }
    ensures part { has_line (codes "ab\nc\n") (codes "b") ≡ false }
    ensures unended { has_line (codes "ab\nc") (codes "c") ≡ false }
    ensures empty { has_line (codes "a\n\n") [] ≡ true }
    ensures no_empty { has_line (codes "a\n") [] ≡ false }
{}

/// Place 0 leads to 1, 1 and 2 lead to each other, and 3 leads nowhere.
pub fn leaps_of_places()
    ensures back { leap (Some 1 ∷ Some 2 ∷ Some 1 ∷ None ∷ []) 2 1 ≡ Some 1 }
    ensures far { leap (Some 1 ∷ Some 2 ∷ Some 1 ∷ None ∷ []) 4 0 ≡ Some 2 }
    ensures nowhere { leap (Some 1 ∷ Some 2 ∷ Some 1 ∷ None ∷ []) 1 3 ≡ None }
{}

/// Statuses, and what is said on standard error.
pub fn statuses()
    ensures well { status_of ending.Well ≡ 0 }
    ensures told { status_of ending.Told ≡ 109 }
    ensures cut { status_of ending.Cut ≡ 110 }
    ensures missing { status_of ending.Missing ≡ 111 }
    ensures usage { status_of (ending.Other session.Usage) ≡ 100 }
    ensures nothing { fault_text ending.Cut ≡ [] }
    ensures memory { fault_text (ending.Other session.NoMemory) ≡ codes "lwpexplore: no memory\n" }
{}
