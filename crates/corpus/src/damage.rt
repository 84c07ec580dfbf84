// Files with one thing wrong.
ghost use Rattle.std.specs.Prelude.{◌≡◌, IfOk};
ghost use Rattle.corpus.specs.Damages.{after_damage};

use lwp_types::NoMemory;
use std::alloc::Global;
use std::fmt;

/// What is done to a file: it ends after so many bytes, or the byte after so many becomes zero.
#[derive(Clone, Copy, Debug, PartialEq, Eq)]
pub enum Damage {
    Cut(usize),
    Zero(usize),
}

impl fmt::Display for Damage {
    fn fmt<W: fmt::Write>(&self, f: &mut fmt::Formatter<W>) -> fmt::Result {
        match self {
            Damage::Cut(count) => write!(f, "cut {count}"),
            Damage::Zero(count) => write!(f, "zero {count}"),
        }
    }
}

/// A copy of the file, so damaged. Past its end nothing is done.
pub fn damaged(alloc: Global, file: &[u8], damage: Damage) -> Result<Vec<u8>, NoMemory>
    ensures { IfOk result (λ bytes. bytes.items ≡ after_damage damage file.now) }
{
    let mut bytes = file.to_vec(alloc)?;
    match damage {
        Damage::Cut(count) => bytes.truncate(count),
        Damage::Zero(count) => {
            if count < bytes.len() {
                bytes[count] = 0;
            }
        }
    }
    Ok(bytes)
}
