// Times as texts.
ghost use Rattle.std.specs.Prelude.{◌≡◌};
ghost use Rattle.std.specs.List.{fold};
ghost use Rattle.queue_model.specs.Stamps.{after_byte, digit_of, stamp, time_of};

use itoa::Buffer;
use lwp_types::Text;

/// The text of a time: `t` and its digits.
pub fn stamp<'s>(time: u64) -> Text<'s>
    ensures { result ≡ stamp time }
{
    let mut buffer = Buffer::new();
    Text::thread(buffer.format(time).as_bytes())
}

fn digit_of(byte: u8) -> u64
    ensures { result ≡ digit_of byte }
{
    if byte >= b'0' && byte <= b'9' {
        u64::from(byte - b'0')
    } else {
        0
    }
}

fn after_byte(time: u64, byte: u8) -> u64
    ensures { result ≡ after_byte time byte }
{
    time.wrapping_mul(10).wrapping_add(digit_of(byte))
}

fn time_after(start: u64, bytes: &[u8]) -> u64
    ensures { result ≡ fold after_byte start bytes.now }
{
    let mut time = start;
    for byte in bytes {
        time = after_byte(time, *byte);
    }
    time
}

/// The time of which a text tells.
pub fn time_of(text: &Text) -> u64
    ensures { result ≡ time_of text.now }
{
    let (lead, rest) = text.parts();
    time_after(time_after(0, lead), rest)
}
