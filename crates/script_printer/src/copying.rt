// A script that is read and printed.
ghost use Rattle.std.specs.Prelude.{◌≡◌, IfErr, IfOk, OnOk, map, string_bytes};
ghost use Rattle.script_printer.specs.Copying.{Copies, Holds, IsOfReading, Leaves, Refuses, asks_for_print};

use crate::failure::CopyFailure;
use crate::printing::print_script;
use lwp_types::{Sink, Source};
use script_text::{Script, read_script};
use std::alloc::Global;
use streams::{read_all, write_all};

/// Whether the words of `lwpcheck`, which follow its name, ask for the script to be printed: `--print` alone does.
pub fn asks_for_print(words: &Vec<String>) -> bool
    ensures { result ≡ asks_for_print (map string_bytes words.now.items) }
{
    match words.as_slice() {
        [word] => word.as_bytes() == b"--print".as_slice(),
        _ => false,
    }
}

// The script that a source holds, which is read to its end.
fn read<S: Source>(alloc: Global, source: &mut S) -> Result<Script, CopyFailure>
    ensures held { IfOk result (λ script. Holds (S.left source.old) script) }
    ensures refused { IfErr result (λ why. Refuses (S.left source.old) why) }
    ensures unwritten { IfErr result IsOfReading }
{
    let bytes = read_all(alloc, source)?;
    let script = read_script(alloc, &bytes)?;
    Ok(script)
}

/// Writes the script that a source holds as it is printed. Nothing is written before it was read.
pub fn copy<S: Source, K: Sink>(
    alloc: Global,
    source: &mut S,
    sink: &mut K,
) -> Result<(), CopyFailure>
    ensures copied { OnOk result
        (Copies (S.left source.old) (K.written sink.old) (K.written sink.new)) }
    ensures refused { IfErr result (λ why. Refuses (S.left source.old) why) }
    ensures left { IfErr result (Leaves (S.left source.old) (K.written sink.old) (K.written sink.new)) }
{
    let script = read(alloc, source)?;
    let text = print_script(alloc, &script)?;
    write_all(sink, &text)?;
    Ok(())
}
