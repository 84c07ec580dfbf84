// What holds of the errors of all texts, and of the faults of all lines.
ghost use Rattle.std.specs.Prelude.{ℕ, List};
ghost use Rattle.script_advice.specs.Laws.{AreErrorsTold, FirstIsReaders, IsFaultedWhereUnsaid, IsFineWhereSpelt, IsKnownByFront};
ghost use Rattle.script_advice.specs.declared.texts.Format.{Format};

/// Where the reader refuses a text, the first error is of the reader's line, for the reader's reason.
pub fn first_error_is_the_readers()
    ensures { (text : List ℕ) → FirstIsReaders text }
{}

/// A text has no errors and isn't wrong exactly where it spells a script.
pub fn no_errors_where_spelt()
    ensures { (text : List ℕ) → IsFineWhereSpelt text }
{}

/// What is told of a text that is wrong are its errors, and no warnings.
pub fn errors_are_told()
    ensures { (text : List ℕ) → AreErrorsTold text }
{}

/// Of a text that is too long, no more has to be read than one byte more than a script may have.
pub fn front_is_enough()
    ensures { (f : Format) (text : List ℕ) → IsKnownByFront f text }
{}

/// A line has a fault exactly where the reader takes it for none: where a byte isn't printable, or it is the text of no phrase.
pub fn faults_are_unsaid()
    ensures { (line : List ℕ) → IsFaultedWhereUnsaid line }
{}
