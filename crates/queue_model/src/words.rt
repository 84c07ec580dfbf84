// Names and numbers as bytes.
ghost use Rattle.std.specs.Prelude.{OnOk, decimal, ◌++◌, ◌≡◌};
ghost use Rattle.queue_model.specs.Tallies.{summary};

use crate::tally::Tally;
use itoa::Buffer;
use lwp_types::NoMemory;

/// Puts bytes after those that are there.
pub fn put(out: &mut Vec<u8>, bytes: &[u8]) -> Result<(), NoMemory>
    ensures { OnOk result (out.new.items ≡ out.old.items ++ bytes.now) }
{
    out.extend_from_slice(bytes)?;
    Ok(())
}

/// Puts the digits of a number there.
pub fn put_number(out: &mut Vec<u8>, n: u64) -> Result<(), NoMemory>
    ensures { OnOk result (out.new.items ≡ out.old.items ++ decimal n) }
{
    let mut buffer = Buffer::new();
    put(out, buffer.format(n).as_bytes())
}

/// Puts a name and a number there.
pub fn put_count(out: &mut Vec<u8>, name: &[u8], n: u64) -> Result<(), NoMemory>
    ensures { OnOk result (out.new.items ≡ out.old.items ++ (name.now ++ decimal n)) }
{
    put(out, name)?;
    put_number(out, n)
}

// What the desk tells of its customers, in place of what was there.
pub(crate) fn put_summary(out: &mut Vec<u8>, tally: &Tally) -> Result<(), NoMemory>
    ensures { OnOk result (out.new.items ≡ summary tally.now) }
{
    out.clear();
    put_count(out, b"came ", tally.came)?;
    put_count(out, b" lost ", tally.lost)?;
    put_count(out, b" waited ", tally.waited)
}
