// Where the parts of a text lie.
ghost use Rattle.std.specs.Prelude.{◌≡◌, ◌<◌, ◌≤◌, All, Err, IfOk, IfSome, IsErrOf, Ok, length, ℕ};
ghost use Rattle.batch.specs.Parts.{LiesIn, part_at, parts_of};

use crate::lines::{length_told, line_length};
use std::alloc::Global;

/// The most bytes of a text that is cut into parts.
pub const INPUT_MAX: usize = 33_554_432;

/// The most bytes of a part.
pub const PART_MAX: u32 = 16_777_216;

/// The most parts of a text.
pub const PARTS_MAX: usize = 1000;

/// Where a part lies: from this byte of the text, counted from 0, up to that one, which is no longer of the part.
#[derive(Clone, Copy, Debug, PartialEq, Eq)]
pub struct Part {
    pub from: usize,
    pub to: usize,
}

/// Why a text has no parts.
#[derive(Clone, Copy, Debug, PartialEq, Eq)]
pub enum BatchErr {
    /// Memory was refused.
    NoMemory,
    /// This is the first bad part, counted from 0. Of a text that is too long it is part 0.
    Bad { part: u32 },
}

// The part whose line begins at a place, if that is a part's line and all bytes of the part are there.
fn part_at(bytes: &[u8], at: usize) -> Option<Part>
    requires { at ≤ length bytes.now }
    ensures value { result ≡ part_at bytes.now at }
    ensures lies { IfSome result (LiesIn bytes.now) }
    ensures behind { IfSome result (λ part. at < part.from) }
{
    let rest = &bytes[at..];
    let line = line_length(rest);
    let Some(size) = length_told(&rest[..line]) else {
        return None;
    };
    let size = size as usize;
    if rest.len() - line <= size {
        return None;
    }
    let from = at + line + 1;
    Some(Part {
        from,
        to: from + size,
    })
}

/// Where the parts of a text lie, of which there may be none, or the number of the first bad one: one whose line isn't
/// `script N`, ended by a newline, with N in decimal without leading zeros; or whose N is above 16,777,216; or that has
/// fewer than N bytes; or that comes after 1,000 others. A text of more than 33,554,432 bytes is bad from its first
/// part on.
pub fn split(alloc: Global, bytes: &[u8]) -> Result<Vec<Part>, BatchErr>
    ensures parts { IfOk result (λ parts. parts_of bytes.now ≡ Ok parts.items) }
    ensures bad { (part : ℕ) → IsErrOf result (BatchErr.Bad part) → parts_of bytes.now ≡ Err part }
    ensures within { IfOk result (λ parts. All (LiesIn bytes.now) parts.items) }
{
    if bytes.len() > INPUT_MAX {
        return Err(BatchErr::Bad { part: 0 });
    }
    let mut parts = Vec::new(alloc);
    let mut at = 0;
    while at < bytes.len() {
        if parts.len() == PARTS_MAX {
            return Err(BatchErr::Bad { part: 1000 });
        }
        let Some(part) = part_at(bytes, at) else {
            return Err(BatchErr::Bad {
                part: parts.len() as u32,
            });
        };
        let Ok(()) = parts.push(part) else {
            return Err(BatchErr::NoMemory);
        };
        at = part.to;
    }
    Ok(parts)
}
