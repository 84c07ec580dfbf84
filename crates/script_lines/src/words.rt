// The words of a line.
ghost use Rattle.std.specs.Prelude.{◌≡◌, ◌≤◌, length};
ghost use Rattle.std.specs.List.{list_all};
ghost use Rattle.lwp_types.specs.TextFields.{is_printable, is_text};
ghost use Rattle.script_lines.specs.Words.{reach, is_name, number_at, is_name_byte, is_reserved, is_misshapen, value_of};

/// How many bytes come before the first that is `byte`.
pub fn reach(byte: u8, bytes: &[u8]) -> usize
    ensures value { result ≡ reach byte bytes.now }
    ensures within { result ≤ length bytes.now }
{
    for (i, b) in bytes.iter().enumerate() {
        if *b == byte {
            return i;
        }
    }
    bytes.len()
}

/// Whether each byte is one from a space to a tilde.
pub fn is_printable(bytes: &[u8]) -> bool
    ensures { result ≡ is_printable bytes.now }
{
    bytes.iter().all(|b| 32 <= *b && *b <= 126)
}

/// Whether the bytes may be a text.
pub fn is_text(bytes: &[u8]) -> bool
    ensures { result ≡ is_text bytes.now }
{
    bytes.len() <= 240 && is_printable(bytes)
}

fn is_name_byte(b: u8) -> bool
    ensures { result ≡ is_name_byte b }
{
    b.is_ascii_lowercase() || b.is_ascii_digit() || b == b'_'
}

fn are_name_bytes(bytes: &[u8]) -> bool
    ensures { result ≡ list_all is_name_byte bytes.now }
{
    bytes.iter().all(|b| is_name_byte(*b))
}

fn is_reserved(word: &[u8]) -> bool
    ensures { result ≡ is_reserved word.now }
{
    match word {
        [b's', ..] => word == b"self".as_slice() || word == b"sender".as_slice(),
        [b'f', ..] => word == b"first".as_slice(),
        [b'n', ..] => word == b"none".as_slice(),
        [b'a', ..] => word == b"any".as_slice(),
        _ => false,
    }
}

/// Whether the word may be a name.
pub fn is_name(word: &[u8]) -> bool
    ensures { result ≡ is_name word.now }
{
    match word {
        [] => false,
        [first, rest @ ..] => {
            first.is_ascii_lowercase()
                && are_name_bytes(rest)
                && rest.len() < 16
                && !is_reserved(word)
        }
    }
}

// Whether the word has no digit, or a zero in front that could be left out.
fn is_misshapen(word: &[u8]) -> bool
    ensures { result ≡ is_misshapen word.now }
{
    matches!(word, [] | [b'0', _, ..])
}

#[tactic(auto, using(crate::proofs::WordLemmas::value_ge))]
fn value_of(digits: &[u8]) -> Option<u32>
    ensures { result ≡ value_of digits.now }
{
    let mut n: u32 = 0;
    for b in digits {
        if !b.is_ascii_digit() {
            return None;
        }
        let next = 10 * u64::from(n) + u64::from(*b - b'0');
        if next > 0xffff_ffff {
            return None;
        }
        n = next as u32;
    }
    Some(n)
}

/// The number that the word writes.
pub fn number_at(word: &[u8]) -> Option<u32>
    ensures { result ≡ number_at word.now }
{
    if is_misshapen(word) {
        None
    } else {
        value_of(word)
    }
}
