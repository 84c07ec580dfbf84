// What was told of the lines above, so that nothing is told twice.
ghost use Rattle.std.specs.Prelude.{◌≡◌};
ghost use Rattle.script_advice.specs.Above.{is_returned, without_return};

use crate::faults::from_unprintable;
use crate::known::Known;
use crate::remarks::starts_nothing;
use lwp_types::NoMemory;
use script_lines::phrase_at;
use script_text::{NameList, Reason};
use std::alloc::Global;

/// Whether a carriage return was told that ends a line, and the undeclared procedures that were told.
pub struct Told {
    pub returned: bool,
    pub undeclared: NameList,
}

// PROVER: written by hand, so that a function that drops this calls it instead of repeating its proof.
impl Drop for Told {
    fn drop(self) {
        let Told {
            returned: _,
            undeclared: _,
        } = self;
    }
}

// Whether the one byte of the line that isn't printable is a carriage return at its end.
fn is_returned(line: &[u8]) -> bool
    ensures { result ≡ is_returned line.now }
{
    from_unprintable(line) == b"\r".as_slice()
}

/// The line without a carriage return that ends it, if nothing else in it isn't printable.
pub fn without_return(line: &[u8]) -> &[u8]
    ensures { result.now ≡ without_return line.now }
{
    if is_returned(line) {
        &line[..line.len().saturating_sub(1)]
    } else {
        line
    }
}

impl Told {
    ghost use Rattle.std.specs.Prelude.{◌≡◌, OnOk};
    ghost use Rattle.script_advice.specs.Above.{as_told, told_with, untold};

    /// Nothing was told yet.
    #[tactic(auto, unfolding(crate::specs::Above::untold))]
    pub fn new(alloc: Global) -> Told
        ensures { result ≡ untold }
    {
        Told {
            returned: false,
            undeclared: NameList::new(alloc),
        }
    }

    /// Notes that a line was told for this reason.
    #[tactic(auto, unfolding(crate::specs::Above::told_with))]
    pub fn note(&mut self, known: &Known, reason: Reason, line: &[u8]) -> Result<(), NoMemory>
        ensures { OnOk result (self.new ≡ told_with known.now self.old reason line.now) }
    {
        self.returned = self.returned || is_returned(line);
        let Some(phrase) = phrase_at(line) else {
            return Ok(());
        };
        if starts_nothing(known, reason, &phrase) {
            self.undeclared.enter(phrase.procedure)?;
        }
        Ok(())
    }

    /// The line as it is told: without a carriage return that ends it, if one was told.
    pub fn seen<'l>(&self, line: &'l [u8]) -> &'l [u8]
        ensures { result.now ≡ as_told self.now line.now }
    {
        if self.returned {
            without_return(line)
        } else {
            line
        }
    }
}
