// Whether a machine reaches a core that has a kind.
ghost use Rattle.std.specs.Prelude.{◌≡◌, IfOk, MatchOption, length};
ghost use Rattle.search.specs.Verdicts.{HasNoKind, IsFirstOfKind, IsVerdict};

use crate::breadth::{Limits, explore};
use crate::found::path_to;
use crate::machine::Machine;
use crate::{NoMemory, Row};
use std::alloc::Global;

/// What is known of all that a machine reaches, where a core fails if it has a kind.
#[derive(Debug, Drop)]
pub enum Verdict {
    /// No core fails.
    Passes,
    /// These steps lead to a core that fails, and to a nearest one.
    Fails(Vec<u32>),
    /// No core that was found fails, and there are more than were allowed.
    Unknown,
}

// The number of the first row that has a kind.
fn first_of_kind(rows: &[Row]) -> Option<usize>
    ensures { MatchOption result (HasNoKind rows.now (length rows.now)) (IsFirstOfKind rows.now) }
{
    for number in 0..rows.len() {
        if rows[number].kind.is_some() {
            return Some(number);
        }
    }
    None
}

/// Searches from where the machine stands, its first core, and tells the nearest core that fails. The steps of no core are taken
/// again for that. Steps that are looked for don't end the search.
pub fn judge<M: Machine>(alloc: Global, machine: &M, limits: Limits) -> Result<Verdict, NoMemory>
    requires begins { M.core machine.now ≡ (M.moves machine.now).first }
    ensures verdict { IfOk result (λ verdict. IsVerdict (M.moves machine.now) limits.cores verdict) }
{
    let limits = Limits {
        cores: limits.cores,
        copies: limits.copies,
        until: false,
    };
    let found = explore(alloc, machine, limits)?;
    match first_of_kind(&found.rows) {
        Some(number) => Ok(Verdict::Fails(path_to(alloc, &found.rows, number)?)),
        None => {
            if found.whole {
                Ok(Verdict::Passes)
            } else {
                Ok(Verdict::Unknown)
            }
        }
    }
}
