// Standard input and standard output.
ghost use Rattle.std.specs.Prelude.{◌≡◌, ◌<◌, ◌≤◌, [], false, true, IfOk, IsErr, IsTrue, OnErr, OnOk, length};
ghost use Rattle.std.specs.Io.KnownBytes.{Keeps, ReadConsumes, WriteAppends};

use crate::until_fault::UntilFault;
use lwp_types::{Failed, Sink, Source};
use std::alloc::Global;
use std::io;
use std::io::{BufWriter, ErrorKind, Read, Stdin, Stdout, Write};

/// So many bytes are gathered before they are written, where nobody waits for them.
pub const GATHERED: usize = 65_536;

/// A source that reads from a reader as it is asked to. It tells nothing of its bytes, and counts the reads that failed.
#[derive(Drop)]
pub struct ReaderSource<R: Read + Drop> {
    reader: R,
    faults: u64,
}

/// Standard input, as a source.
pub type StdSource = ReaderSource<Stdin>;

/// A writer to which bytes are written as many at a time as are gathered; `finish` writes the rest. It tells nothing of its bytes, and
/// counts the writes that failed. After the first of these it writes no more: not the rest, and also not when it is dropped.
#[derive(Drop)]
pub struct GatheringSink<W: Write + Drop> {
    out: BufWriter<UntilFault<W>>,
    faults: u64,
}

/// Standard output, as a sink.
pub type StdSink = GatheringSink<Stdout>;

impl<R: Read + Drop> ReaderSource<R> {
    ghost use Rattle.streams.specs.StdStreams.{read_faults, source_remaining};

    /// No read has failed yet.
    pub fn new(reader: R) -> ReaderSource<R>
        ensures faults { read_faults result ≡ 0 }
        ensures bytes { source_remaining R.remaining result ≡ R.remaining reader }
    {
        ReaderSource { reader, faults: 0 }
    }
}

impl<W: Write + Drop> GatheringSink<W> {
    ghost use Rattle.lwp_types.specs.Streams.{HasCause};
    ghost use Rattle.streams.specs.StdStreams.{IsLeft, gathered_bytes, is_closed, sink_contents, write_faults};

    /// Takes the memory for all that it will ever gather, which is `most`. Where that is 0, each write goes out at once.
    pub fn new(alloc: Global, out: W, most: usize) -> io::Result<GatheringSink<W>>
        ensures faults { IfOk result (λ sink. write_faults sink ≡ 0) }
        ensures empty { IfOk result (λ sink. gathered_bytes sink ≡ []) }
        ensures open { IfOk result (λ sink. is_closed sink ≡ false) }
    {
        let out = BufWriter::with_capacity(alloc, most, UntilFault::new(out))?;
        Ok(GatheringSink { out, faults: 0 })
    }

    /// Writes what is gathered.
    pub fn finish(&mut self) -> Result<(), Failed>
        ensures cause { HasCause (write_faults self.old) (write_faults self.new) result }
        ensures rest { OnOk result (gathered_bytes self.new ≡ []) }
        ensures bytes { Keeps (sink_contents W.contents self.old)
            (sink_contents W.contents self.new) }
        ensures closed { IsTrue (is_closed self.old) → IsErr result × IsLeft self.old self.new }
    {
        if self.out.get_ref().is_closed() {
            return self.fail();
        }
        match self.out.flush() {
            Ok(()) => Ok(()),
            Err(_) => self.fail(),
        }
    }

    // A write has failed: no other comes.
    fn fail<T>(&mut self) -> Result<T, Failed>
        ensures failed { IsErr result }
        ensures cause { HasCause (write_faults self.old) (write_faults self.new) result }
        ensures closed { IsTrue (is_closed self.new) }
        ensures bytes { Keeps (sink_contents W.contents self.old)
            (sink_contents W.contents self.new) }
        ensures left { IsTrue (is_closed self.old) → IsLeft self.old self.new }
    {
        self.faults = self.faults.saturating_add(1);
        self.out.get_mut().close();
        Err(Failed)
    }
}

// Reads once, and again as long as a signal comes in between.
fn read_past_signals<R: Read>(reader: &mut R, buf: &mut [u8]) -> io::Result<usize>
    ensures bound { IfOk result (λ n. n ≤ length buf.new) }
    ensures bytes { ReadConsumes (R.remaining reader.old) (R.remaining reader.new) result buf.new }
{
    for _ in 0..u64::MAX {
        match reader.read(buf) {
            Err(error) if error.kind() == ErrorKind::Interrupted => {}
            answer => return answer,
        }
    }
    Err(ErrorKind::Interrupted.into())
}

impl<R: Read + Drop> Source for ReaderSource<R> {
    ghost use Rattle.std.specs.Prelude.{None};
    ghost use Rattle.lwp_types.specs.Streams.{HasCause};
    ghost use Rattle.streams.specs.StdStreams.{read_faults, source_remaining};

    ghost left = { λ s. None };

    ghost faults = { λ s. s.faults };

    fn read(&mut self, buf: &mut [u8]) -> Result<usize, Failed>
        ensures bound { IfOk result (λ n. n ≤ length buf.new) }
        ensures cause { HasCause (read_faults self.old) (read_faults self.new) result }
        ensures bytes { ReadConsumes (source_remaining R.remaining self.old)
            (source_remaining R.remaining self.new) result buf.new }
    {
        let Ok(n) = read_past_signals(&mut self.reader, buf) else {
            self.faults = self.faults.saturating_add(1);
            return Err(Failed);
        };
        Ok(n)
    }
}

impl<W: Write + Drop> Sink for GatheringSink<W> {
    ghost use Rattle.std.specs.Prelude.{None};
    ghost use Rattle.lwp_types.specs.Streams.{HasCause};
    ghost use Rattle.streams.specs.StdStreams.{IsLeft, gathered_bytes, is_closed, sink_contents, write_faults};

    ghost written = { λ s. None };

    ghost faults = { λ s. s.faults };

    fn write(&mut self, bytes: &[u8]) -> Result<usize, Failed>
        ensures bound { IfOk result (λ n. n ≤ length bytes.now) }
        ensures some { IfOk result (λ n. 0 < length bytes.now → 0 < n) }
        ensures cause { HasCause (write_faults self.old) (write_faults self.new) result }
        ensures fails { OnErr result (IsTrue (is_closed self.new)) }
        ensures bytes { WriteAppends (sink_contents W.contents self.old)
            (sink_contents W.contents self.new) result bytes.now }
        ensures closed { IsTrue (is_closed self.old) → IsErr result × IsLeft self.old self.new }
    {
        if self.out.get_ref().is_closed() {
            return self.fail();
        }
        match self.out.write(bytes) {
            Ok(n) if n > 0 || bytes.is_empty() => Ok(n),
            _ => self.fail(),
        }
    }

    // What can't be written is lost, and every later write fails.
    fn hand_on(&mut self)
        ensures cause { write_faults self.new ≡ write_faults self.old }
        ensures handed { is_closed self.new ≡ false → gathered_bytes self.new ≡ [] }
        ensures bytes { Keeps (sink_contents W.contents self.old)
            (sink_contents W.contents self.new) }
        ensures closed { IsTrue (is_closed self.old) → IsLeft self.old self.new }
    {
        if self.out.get_ref().is_closed() {
            return;
        }
        if self.out.flush().is_err() {
            let writer = self.out.get_mut();
            writer.close();
        }
    }
}

#[cfg(test)]
mod tests {
    use super::*;
    use std::test::Fail;

    // Each call is interrupted, as long as there are signals; then it fails, or takes or gives so many bytes.
    #[derive(Drop)]
    struct Signalled {
        signals: u32,
        count: Option<usize>,
    }

    impl Signalled {
        fn answer(&mut self, most: usize) -> io::Result<usize>
            ensures { IfOk result (λ n. n ≤ most) }
        {
            if self.signals > 0 {
                self.signals -= 1;
                return Err(ErrorKind::Interrupted.into());
            }
            match self.count {
                Some(count) => Ok(count.min(most)),
                None => Err(ErrorKind::BrokenPipe.into()),
            }
        }
    }

    impl Read for Signalled {
        fn read(&mut self, buf: &mut [u8]) -> io::Result<usize> {
            self.answer(buf.len())
        }
    }

    impl Write for Signalled {
        fn write(&mut self, buf: &[u8]) -> io::Result<usize> {
            self.answer(buf.len())
        }

        fn flush(&mut self) -> io::Result<()> {
            Ok(())
        }
    }

    #[test]
    fn signals_are_passed_over(rt: HostRuntime) -> Result<(), Fail> {
        let mut buf = [0u8; 4];
        let cases = [
            (Some(3), Some(3), Some(3)),
            (Some(1), Some(1), Some(1)),
            (Some(0), Some(0), None),
            (None, None, None),
        ];
        for (count, read, written) in cases {
            let mut stream = Signalled { signals: 2, count };
            assert_eq!(rt; read_past_signals(&mut stream, &mut buf).ok(), read);
            let mut stream = Signalled { signals: 2, count };
            assert_eq!(rt; UntilFault::new(stream).write(b"four").ok(), written);
        }
        Ok(())
    }

    #[test]
    fn standard_streams_succeed(rt: HostRuntime) -> Result<(), Fail> {
        let mut buf = [0u8; 4];
        // A test is given nothing to read.
        assert_eq!(rt; StdSource::new(rt.stdin()).read(&mut buf), Ok(0));
        let mut sink = StdSink::new(rt.alloc(), rt.stdout(), GATHERED)?;
        assert_eq!(rt; sink.write(b""), Ok(0));
        assert_eq!(rt; sink.finish(), Ok(()));
        Ok(())
    }

    // Takes all that it is given, but fails at one write.
    #[derive(Drop)]
    struct FailsOnce {
        before: u32,
        taken: usize,
    }

    impl Write for FailsOnce {
        fn write(&mut self, buf: &[u8]) -> io::Result<usize> {
            if self.before == 0 {
                self.before = u32::MAX;
                return Err(ErrorKind::StorageFull.into());
            }
            self.before -= 1;
            self.taken = self.taken.saturating_add(buf.len());
            Ok(buf.len())
        }

        fn flush(&mut self) -> io::Result<()> {
            Ok(())
        }
    }

    // Writes four times six bytes, eight gathered at most, and drops the sink; answers which writes failed, and the last call.
    fn writes_that_fail(alloc: Global, out: &mut FailsOnce) -> io::Result<[bool; 5]> {
        let mut sink = GatheringSink::new(alloc, out, 8)?;
        let mut failed = [false; 5];
        for it in failed.iter_mut().take(4) {
            *it = sink.write(b"sixth\n").is_err();
        }
        failed[4] = sink.finish().is_err();
        Ok(failed)
    }

    #[test]
    fn nothing_is_written_after_a_fault(rt: HostRuntime) -> Result<(), Fail> {
        let cases = [
            (0, [false, true, true, true, true], 0),
            (1, [false, false, true, true, true], 6),
            (3, [false, false, false, false, true], 18),
            (4, [false; 5], 24),
        ];
        for (before, failed, taken) in cases {
            let mut out = FailsOnce { before, taken: 0 };
            assert_eq!(rt; writes_that_fail(rt.alloc(), &mut out)?, failed);
            assert_eq!(rt; out.taken, taken);
        }
        Ok(())
    }

    // Gathers six bytes and hands them on; answers whether the sink still takes bytes then.
    fn is_open_after_hand_on(alloc: Global, out: &mut FailsOnce) -> io::Result<bool> {
        let mut sink = GatheringSink::new(alloc, out, 8)?;
        let is_gathered = sink.write(b"sixth\n").is_ok();
        sink.hand_on();
        Ok(is_gathered && sink.write(b"").is_ok())
    }

    // Takes all that it is given, and counts how often it was flushed.
    #[derive(Drop)]
    struct CountsFlushes {
        flushes: u32,
    }

    impl Write for CountsFlushes {
        fn write(&mut self, buf: &[u8]) -> io::Result<usize> {
            Ok(buf.len())
        }

        fn flush(&mut self) -> io::Result<()> {
            self.flushes = self.flushes.saturating_add(1);
            Ok(())
        }
    }

    #[test]
    fn the_writer_below_is_flushed(rt: HostRuntime) -> Result<(), Fail> {
        let mut out = CountsFlushes { flushes: 0 };
        let mut sink = GatheringSink::new(rt.alloc(), &mut out, 8)?;
        sink.hand_on();
        assert_eq!(rt; sink.finish(), Ok(()));
        drop(sink);
        assert_eq!(rt; out.flushes, 2);
        Ok(())
    }

    #[test]
    fn a_reader_is_read_to_its_end(rt: HostRuntime) -> Result<(), Fail> {
        let mut source = ReaderSource::new(b"sixth\n".as_slice());
        let mut buf = [0u8; 4];
        assert_eq!(rt; source.read(&mut buf), Ok(4));
        assert_eq!(rt; buf, *b"sixt");
        assert_eq!(rt; source.read(&mut buf), Ok(2));
        assert_eq!(rt; source.read(&mut buf), Ok(0));
        Ok(())
    }

    #[test]
    fn what_is_gathered_is_handed_on(rt: HostRuntime) -> Result<(), Fail> {
        let cases = [(0, false, 0), (1, true, 6)];
        for (before, is_open, taken) in cases {
            let mut out = FailsOnce { before, taken: 0 };
            assert_eq!(rt; is_open_after_hand_on(rt.alloc(), &mut out)?, is_open);
            assert_eq!(rt; out.taken, taken);
        }
        Ok(())
    }
}
