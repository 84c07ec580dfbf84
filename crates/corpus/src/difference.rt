// The first line at which two texts differ.
ghost use Rattle.std.specs.Prelude.{◌≡◌, ◌≤◌, ◌<◌, ◌+◌, IfSome, IfNone, length, take, drop};
ghost use Rattle.corpus.specs.Lines.{IsFirstDifference, lines, line_end};

/// A line at which two texts differ: its number, counted from 1, and what it is in each; empty, where a text has ended before it.
#[derive(Clone, Copy, Debug, PartialEq, Eq)]
pub struct Difference<'t> {
    pub number: usize,
    pub found: &'t [u8],
    pub wanted: &'t [u8],
}

// How long the first line is, with the newline that ends it.
fn line_end(text: &[u8]) -> usize
    ensures value { result ≡ line_end text.now }
    ensures within { result ≤ length text.now }
{
    for (i, byte) in text.iter().enumerate() {
        if *byte == b'\n' {
            return i + 1;
        }
    }
    text.len()
}

// The first line, with the newline that ends it, and the text after it.
fn first_line(text: &[u8]) -> (&[u8], &[u8])
    ensures line { result.0.now ≡ take (line_end text.now) text.now }
    ensures rest { result.1.now ≡ drop (line_end text.now) text.now }
    ensures within { line_end text.now ≤ length text.now }
{
    text.split_at(line_end(text))
}

/// Compares two texts line by line, each line with the byte that ends it.
pub fn first_difference<'t>(found: &'t [u8], wanted: &'t [u8]) -> Option<Difference<'t>>
    // Texts without a difference are equal, to the last byte.
    ensures same { IfNone result (found.now ≡ wanted.now) }
    // The lines before it are the same in both, and it is not.
    ensures first { IfSome result
        (λ d.
        IsFirstDifference d.number d.found.now d.wanted.now (lines found.now) (lines wanted.now)) }
{
    let mut number = 1;
    let mut left = found;
    let mut other = wanted;
    while !left.is_empty() || !other.is_empty() {
        let (found, behind) = first_line(left);
        let (wanted, beyond) = first_line(other);
        if found != wanted {
            return Some(Difference {
                number,
                found,
                wanted,
            });
        }
        number += 1;
        left = behind;
        other = beyond;
    }
    None
}
