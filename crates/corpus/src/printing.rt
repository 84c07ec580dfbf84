// What is said of a row, as a line.
use crate::verdict::Verdict;
use lwp_types::NoMemory;
use std::io;
use std::io::{ErrorKind, Write};

/// Out of memory, as an error of the streams.
pub fn io_error(_: NoMemory) -> io::Error {
    ErrorKind::OutOfMemory.into()
}

// A line without the newline that ends it.
fn without_end(line: &[u8]) -> &[u8] {
    match line {
        [text @ .., b'\n'] => text,
        _ => line,
    }
}

/// Prints the name of a row and what is said of it: `same`, the status, or the first line that differs.
pub fn print_verdict(rt: &HostRuntime, name: &str, said: &Verdict<'_>) -> io::Result<()> {
    match said {
        Verdict::Same => println!(rt; "{name}: same"),
        Verdict::Status(status) => println!(rt; "{name}: status {status}"),
        Verdict::Line(difference) => {
            print!(rt; "{name}: line {}: ", difference.number)?;
            let mut out = rt.stdout();
            out.write_all(without_end(difference.found))?;
            out.write_all(b", and not: ")?;
            out.write_all(without_end(difference.wanted))?;
            out.write_all(b"\n")
        }
    }
}
