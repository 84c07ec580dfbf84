// What the words ask for.
ghost use Rattle.std.specs.Prelude.{◌≡◌, ◌≤◌, IfSome, map, string_bytes};
ghost use Rattle.trace_page.specs.Words.{call_of, from_to, last_by, pair_of, range_by, range_of};

use trace_lines::whole_number;

/// The calls after `base`, up to `last`.
#[derive(Clone, Copy)]
pub struct Window {
    pub base: u64,
    pub last: u64,
}

/// The calls of a trace that are asked for.
#[derive(Clone, Copy)]
pub enum Range {
    Calls { window: Window },
    /// So many at its end.
    Last { count: u64 },
}

// The number of a call that a word writes.
fn call_of(word: &[u8]) -> Option<u64>
    ensures value { result ≡ call_of word.now }
    ensures most { IfSome result (λ n. n ≤ 4294967295) }
    ensures least { IfSome result (λ n. 1 ≤ n) }
{
    let n = whole_number(word)?;
    if n == 0 || n > 0xffff_ffff {
        return None;
    }
    Some(n)
}

fn from_to(from: u64, to: u64) -> Option<Window>
    requires least { 1 ≤ from }
    requires most { from ≤ 4294967295 }
    ensures { result ≡ from_to from to }
{
    if to < from {
        return None;
    }
    let most = from + 4999;
    Some(Window {
        base: from - 1,
        last: if to < most { to } else { most },
    })
}

fn range_by(from: &[u8], to: &[u8]) -> Option<Range>
    ensures { result ≡ range_by (call_of from.now) (call_of to.now) }
{
    let from = call_of(from)?;
    let to = call_of(to)?;
    let window = from_to(from, to)?;
    Some(Range::Calls { window })
}

fn last_by(count: &[u8]) -> Option<Range>
    ensures { result ≡ last_by (call_of count.now) }
{
    let count = call_of(count)?;
    Some(Range::Last {
        count: count.min(5000),
    })
}

#[tactic(auto, unfolding(crate::specs::Words::pair_of))]
fn pair_of(first: &[u8], second: &[u8]) -> Option<Range>
    ensures { result ≡ pair_of first.now second.now }
{
    if first == b"--last".as_slice() {
        last_by(second)
    } else {
        range_by(first, second)
    }
}

/// The calls that the words ask for: without words the first 5,000, with two numbers those from the one to the other, and with `--last`
/// and a number so many at the end, of more than 5,000 the last 5,000.
pub fn range_of(words: &Vec<String>) -> Option<Range>
    ensures { result ≡ range_of (map string_bytes words.now.items) }
{
    match words.as_slice() {
        [] => {
            let window = Window {
                base: 0,
                last: 5000,
            };
            Some(Range::Calls { window })
        }
        [first, second] => pair_of(first.as_bytes(), second.as_bytes()),
        _ => None,
    }
}
