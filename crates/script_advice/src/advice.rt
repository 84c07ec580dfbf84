// What is told of a text.
ghost use Rattle.std.specs.Prelude.{◌≡◌, ◌++◌, IfOk};
ghost use Rattle.script_advice.specs.Advice.{doubted_grade, grade_of, report};

use crate::doubts::add_doubts;
use crate::errors::add_errors;
use crate::texts::Format;
use lwp_types::NoMemory;
use script_text::{ReadErr, read_script};
use std::alloc::Global;

/// How good a text is.
#[derive(Clone, Copy, PartialEq, Eq)]
pub enum Grade {
    /// It spells a script in which nothing is doubtful.
    Fine,
    /// It spells a script.
    Warned,
    /// It spells none.
    Wrong,
}

fn doubted_grade(doubtful: bool) -> Grade
    ensures { result ≡ doubted_grade doubtful }
{
    if doubtful { Grade::Warned } else { Grade::Fine }
}

/// Appends all that is told of a text to the bytes so far, and gives the text's grade.
#[tactic(auto, unfolding(crate::specs::Advice::report, crate::specs::Advice::grade_of))]
pub fn add_report(
    alloc: Global,
    out: &mut Vec<u8>,
    format: Format,
    text: &[u8],
) -> Result<Grade, NoMemory>
    ensures told { IfOk result (λ g. out.new.items ≡ out.old.items ++ report format text.now) }
    ensures grade { IfOk result (λ g. g ≡ grade_of text.now) }
{
    match read_script(alloc, text) {
        Ok(_) => {
            let any = add_doubts(alloc, out, format, text)?;
            Ok(doubted_grade(any))
        }
        Err(ReadErr::NoMemory) => Err(NoMemory),
        Err(ReadErr::Bad { line, reason }) => {
            add_errors(alloc, out, format, text, line, reason)?;
            Ok(Grade::Wrong)
        }
    }
}
