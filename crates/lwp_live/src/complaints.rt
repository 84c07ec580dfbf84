// What is said of lines that are no posts.
ghost use Rattle.lwp_live.specs.Input.{complaint, fault_words};
ghost use Rattle.std.specs.Prelude.{◌≡◌, IfOk};

use crate::arrival::Fault;
use lwp_types::NoMemory;
use std::alloc::Global;
use trace_text::{add_number, add_text};

fn fault_words(why: Fault) -> &'static [u8]
    ensures { result.now ≡ fault_words why }
{
    match why {
        Fault::Client => b"no such client",
        Fault::Length => b"over 240 bytes",
        Fault::Byte => b"a byte outside 0x20 to 0x7e",
        Fault::Limit => b"beyond a limit of scripts",
    }
}

/// Why the line of this number is no post, as a line.
pub fn complaint(alloc: Global, line: u64, why: Fault) -> Result<Vec<u8>, NoMemory>
    ensures { IfOk result (λ text. text.items ≡ complaint line why) }
{
    let mut text = Vec::new(alloc);
    add_text(&mut text, b"lwplive: line ")?;
    add_number(&mut text, line)?;
    add_text(&mut text, b": ")?;
    add_text(&mut text, fault_words(why))?;
    add_text(&mut text, b"\n")?;
    Ok(text)
}
