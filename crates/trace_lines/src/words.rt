// Words and numbers in a line.
ghost use Rattle.std.specs.Prelude.{◌≡◌, ◌≤◌, drop, length};
ghost use Rattle.trace_lines.specs.Words.{behind, digits, ends, number, reach, rest, starts, value_of, whole_number, word};

/// Whether the line begins with these bytes.
pub(crate) fn starts(front: &[u8], line: &[u8]) -> bool
    ensures { result ≡ starts front.now line.now }
{
    for (i, byte) in front.iter().enumerate() {
        if i >= line.len() {
            return false;
        }
        if *byte != line[i] {
            return false;
        }
    }
    true
}

/// Whether the line ends with these bytes.
pub(crate) fn ends(back: &[u8], line: &[u8]) -> bool
    ensures { result ≡ ends back.now line.now }
{
    skip(line.len().saturating_sub(back.len()), line) == back
}

/// How many bytes come before the first that is `byte`; all, where none is.
pub fn reach(byte: u8, bytes: &[u8]) -> usize
    ensures value { result ≡ reach byte bytes.now }
    ensures within { result ≤ length bytes.now }
{
    for (i, b) in bytes.iter().enumerate() {
        if *b == byte {
            return i;
        }
    }
    bytes.len()
}

// How many digits the bytes begin with.
fn digits(bytes: &[u8]) -> usize
    ensures value { result ≡ digits bytes.now }
    ensures within { result ≤ length bytes.now }
{
    for (i, b) in bytes.iter().enumerate() {
        if !b.is_ascii_digit() {
            return i;
        }
    }
    bytes.len()
}

/// What follows so many bytes.
pub fn skip(count: usize, line: &[u8]) -> &[u8]
    ensures { result.now ≡ drop count line.now }
{
    if count < line.len() {
        &line[count..]
    } else {
        &[]
    }
}

/// The first word.
pub fn word(line: &[u8]) -> &[u8]
    ensures { result.now ≡ word line.now }
{
    &line[..reach(b' ', line)]
}

/// What follows the first word and a space.
pub fn rest(line: &[u8]) -> &[u8]
    ensures { result.now ≡ rest line.now }
{
    skip(reach(b' ', line) + 1, line)
}

// The value of digits, where it fits 64 bits.
#[tactic(auto, using(crate::proofs::NumberLemmas::value_ge))]
fn value_of(digits: &[u8]) -> Option<u64>
    ensures { result ≡ value_of digits.now }
{
    if digits.is_empty() {
        return None;
    }
    let mut n: u64 = 0;
    for b in digits {
        let next = 10 * u128::from(n) + u128::from(b.saturating_sub(b'0'));
        if next > 0xffff_ffff_ffff_ffff {
            return None;
        }
        n = next as u64;
    }
    Some(n)
}

/// The number in front.
pub(crate) fn number(line: &[u8]) -> Option<u64>
    ensures { result ≡ number line.now }
{
    value_of(&line[..digits(line)])
}

/// What follows the number in front.
pub(crate) fn behind(line: &[u8]) -> &[u8]
    ensures { result.now ≡ behind line.now }
{
    &line[digits(line)..]
}

/// The number that a word writes, if it writes one and nothing else.
pub fn whole_number(word: &[u8]) -> Option<u64>
    ensures { result ≡ whole_number word.now }
{
    if digits(word) == word.len() {
        number(word)
    } else {
        None
    }
}
