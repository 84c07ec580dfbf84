// The kinds of ends, as a text.
ghost use Rattle.lwp_explore.specs.KindText.{end_name, is_bad, kind_name, left_name};
ghost use Rattle.std.specs.Prelude.{◌≡◌, ◌++◌, OnOk, decimal, not};

use crate::kinds::{End, Kind};
use lwp_types::NoMemory;

/// Adds bytes. Where memory is refused, none is added.
pub fn add(out: &mut Vec<u8>, text: &[u8]) -> Result<(), NoMemory>
    ensures { OnOk result (out.new.items ≡ out.old.items ++ text.now) }
{
    out.extend_from_slice(text)?;
    Ok(())
}

/// Adds a number.
pub fn add_number(out: &mut Vec<u8>, number: u64) -> Result<(), NoMemory>
    ensures { OnOk result (out.new.items ≡ out.old.items ++ decimal number) }
{
    let alloc = *out.allocator();
    add(out, number.to_string(alloc)?.as_bytes())
}

// Adds the name of an end. Where memory is refused, a part may stand there.
fn add_end(out: &mut Vec<u8>, end: End) -> Result<(), NoMemory>
    ensures { OnOk result (out.new.items ≡ out.old.items ++ end_name end) }
{
    match end {
        End::Ended(status) => {
            add(out, b"ended ")?;
            add_number(out, u64::from(status))
        }
        End::Stuck => add(out, b"stuck"),
        End::Endless => add(out, b"endless"),
    }
}

// Adds that lines are left, if they are.
fn add_left(out: &mut Vec<u8>, left: bool) -> Result<(), NoMemory>
    ensures { OnOk result (out.new.items ≡ out.old.items ++ left_name left) }
{
    if left {
        add(out, b" with lines left")?;
    }
    Ok(())
}

/// Adds the name of a kind. Where memory is refused, a part may stand there.
pub fn add_kind(out: &mut Vec<u8>, kind: Kind) -> Result<(), NoMemory>
    ensures { OnOk result (out.new.items ≡ out.old.items ++ kind_name kind) }
{
    add_end(out, kind.end)?;
    add_left(out, kind.left)
}

/// Whether the pod ends, and every line was taken.
pub fn is_well(kind: Kind) -> bool
    ensures { result ≡ not (is_bad kind) }
{
    match kind.end {
        End::Ended(_) => !kind.left,
        _ => false,
    }
}
