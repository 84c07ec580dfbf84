// Room for a line.
ghost use Rattle.std.specs.Prelude.{◌≡◌, ◌≤◌, ◌+◌, OnOk, length, take};

use lwp_types::NoMemory;

// How many bytes a line takes at most, unless it lists numbers: two texts of 240 bytes each, words and numbers.
const ROOM: usize = 640;

#[inline(never)]
fn grow(row: &mut Vec<u8>, len: usize) -> Result<(), NoMemory>
    requires { length row.old.items ≤ len }
    ensures room { OnOk result (len ≡ length row.new.items) }
    ensures same { OnOk result (take (length row.old.items) row.new.items ≡ row.old.items) }
{
    row.resize(len, 0)?;
    Ok(())
}

// Makes room for a line from `at` on. What is there already stays open for the next line, so this mostly is one look.
#[inline(always)]
pub(crate) fn make_room(row: &mut Vec<u8>, at: usize) -> Result<(), NoMemory>
    requires { at ≤ length row.old.items }
    ensures room { OnOk result (at + 640 ≤ length row.new.items) }
    ensures same { OnOk result (take at row.new.items ≡ take at row.old.items) }
{
    let end = at + ROOM;
    if row.len() < end {
        grow(row, end)?;
    }
    Ok(())
}
