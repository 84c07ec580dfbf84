// A writer up to its first failure.
ghost use Rattle.std.specs.Prelude.{◌≡◌, ◌<◌, ◌≤◌, false, true, IfOk, IsErr, IsTrue, OnErr, length};
ghost use Rattle.std.specs.Io.KnownBytes.{Keeps, WriteAppends};
ghost use Rattle.streams.specs.StdStreams.{after_close};

use std::io;
use std::io::{ErrorKind, Write};

/// Hands bytes on to a writer until a write fails, and none after that. So a buffer that gathers bytes for it, and tries them again
/// or writes the rest as it is dropped, writes nothing more. A signal that comes in between is no failure.
#[derive(Drop)]
pub struct UntilFault<W: Write + Drop> {
    out: W,
    is_closed: bool,
}

impl<W: Write + Drop> UntilFault<W> {
    /// No write has failed yet.
    pub fn new(out: W) -> UntilFault<W>
        ensures { result ≡ record { out = out; is_closed = false } }
    {
        UntilFault {
            out,
            is_closed: false,
        }
    }

    /// Whether no byte is handed on any more.
    pub fn is_closed(&self) -> bool
        ensures { result ≡ self.now.is_closed }
    {
        self.is_closed
    }

    /// From now on no byte is handed on.
    pub fn close(&mut self)
        ensures { self.new ≡ after_close self.old }
    {
        self.is_closed = true;
    }
}

// Writes once, and again as long as a signal comes in between. A write that takes none of some bytes has failed.
fn write_past_signals<W: Write>(writer: &mut W, bytes: &[u8]) -> io::Result<usize>
    ensures bound { IfOk result (λ n. n ≤ length bytes.now) }
    ensures some { IfOk result (λ n. 0 < length bytes.now → 0 < n) }
    ensures bytes { WriteAppends (W.contents writer.old) (W.contents writer.new) result bytes.now }
{
    for _ in 0..u64::MAX {
        match writer.write(bytes) {
            Err(error) if error.kind() == ErrorKind::Interrupted => {}
            Ok(0) if !bytes.is_empty() => return Err(ErrorKind::WriteZero.into()),
            answer => return answer,
        }
    }
    Err(ErrorKind::Interrupted.into())
}

impl<W: Write + Drop> Write for UntilFault<W> {
    ghost contents = { λ w. W.contents w.out };

    fn write(&mut self, buf: &[u8]) -> io::Result<usize>
        ensures bound { IfOk result (λ n. n ≤ length buf.now) }
        ensures bytes { WriteAppends (W.contents self.old.out) (W.contents self.new.out) result
            buf.now }
        ensures fails { OnErr result (IsTrue self.new.is_closed) }
        ensures refuses { IsTrue self.old.is_closed → IsErr result }
        ensures stays { IsTrue self.old.is_closed → self.new ≡ self.old }
    {
        if self.is_closed {
            return Err(ErrorKind::BrokenPipe.into());
        }
        let answer = write_past_signals(&mut self.out, buf);
        self.is_closed = answer.is_err();
        answer
    }

    fn flush(&mut self) -> io::Result<()>
        ensures bytes { Keeps (W.contents self.old.out) (W.contents self.new.out) }
        ensures stays { IsTrue self.old.is_closed → self.new ≡ self.old }
    {
        if self.is_closed {
            return Err(ErrorKind::BrokenPipe.into());
        }
        self.out.flush()
    }
}
