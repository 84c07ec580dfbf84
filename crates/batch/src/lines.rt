// The line in front of a part.
ghost use Rattle.std.specs.Prelude.{◌≡◌, ◌≤◌, IfSome, length};
ghost use Rattle.batch.specs.Parts.{is_misshapen, line_length, length_told, size_of, value_at_most};

// How many bytes come before the first newline; all, where there is none.
pub(crate) fn line_length(bytes: &[u8]) -> usize
    ensures value { result ≡ line_length bytes.now }
    ensures within { result ≤ length bytes.now }
{
    for (i, byte) in bytes.iter().enumerate() {
        if *byte == b'\n' {
            return i;
        }
    }
    bytes.len()
}

// Whether the word has no digit, or a zero in front that could be left out.
fn is_misshapen(word: &[u8]) -> bool
    ensures { result ≡ is_misshapen word.now }
{
    matches!(word, [] | [b'0', _, ..])
}

// The value of digits, up to what a part may have.
#[tactic(auto, using(crate::proofs::LineLaws::value_ge))]
fn value_at_most(digits: &[u8]) -> Option<u32>
    ensures { result ≡ value_at_most digits.now }
{
    let mut n: u32 = 0;
    for b in digits {
        if !b.is_ascii_digit() {
            return None;
        }
        n = 10 * n + u32::from(*b - b'0');
        if n > crate::PART_MAX {
            return None;
        }
    }
    Some(n)
}

// How many bytes a word says that a part has.
fn size_of(word: &[u8]) -> Option<u32>
    ensures { result ≡ size_of word.now }
{
    if is_misshapen(word) {
        None
    } else {
        value_at_most(word)
    }
}

// How many bytes a line says that the part after it has.
pub(crate) fn length_told(line: &[u8]) -> Option<u32>
    ensures value { result ≡ length_told line.now }
    ensures most { IfSome result (λ size. size ≤ 16777216) }
{
    match line {
        [b's', b'c', b'r', b'i', b'p', b't', b' ', word @ ..] => size_of(word),
        _ => None,
    }
}
