// Writing all of some bytes.
ghost use Rattle.std.specs.Prelude.{◌≡◌, OnOk, OnErr};
ghost use Rattle.lwp_types.specs.Streams.{HasCause, after_append};
ghost use Rattle.streams.specs.Writing.{AppendsPart};

use lwp_types::{Failed, Sink};

// Writes the bytes, or fails after some of them, before the last. It stands apart, since mostly the first write has taken all.
#[inline(never)]
fn write_rest<K: Sink>(sink: &mut K, bytes: &[u8]) -> Result<(), Failed>
    ensures ok { OnOk result (K.written sink.new ≡ after_append (K.written sink.old) bytes.now) }
    ensures err { OnErr result (AppendsPart (K.written sink.old) (K.written sink.new) bytes.now) }
    ensures cause { HasCause (K.faults sink.old) (K.faults sink.new) result }
{
    let mut done = 0;
    while done < bytes.len() {
        done += sink.write(&bytes[done..])?;
    }
    Ok(())
}

/// Writes the bytes, or fails after some of them, before the last.
#[inline(always)]
pub fn write_all<K: Sink>(sink: &mut K, bytes: &[u8]) -> Result<(), Failed>
    ensures ok { OnOk result (K.written sink.new ≡ after_append (K.written sink.old) bytes.now) }
    ensures err { OnErr result (AppendsPart (K.written sink.old) (K.written sink.new) bytes.now) }
    ensures cause { HasCause (K.faults sink.old) (K.faults sink.new) result }
{
    if bytes.is_empty() {
        return Ok(());
    }
    let done = sink.write(bytes)?;
    if done == bytes.len() {
        return Ok(());
    }
    write_rest(sink, &bytes[done..])?;
    Ok(())
}
