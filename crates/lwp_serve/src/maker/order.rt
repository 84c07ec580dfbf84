// What is to be made, by three words.
ghost use Rattle.std.specs.Prelude.{◌≡◌, IfSome};
ghost use Rattle.lwp_serve.specs.Maker.Order.{IsAllowed, long_value_of, seed_at, count_at, order_at};
ghost use Rattle.script_lines.specs.Words.{is_misshapen};

use script_text::number_at;

/// A script that is to be made: the seed from which its commands are drawn, how many clients it has, and how many commands each
/// of them posts.
#[derive(Clone, Copy)]
pub struct Order {
    pub seed: u64,
    pub threads: u32,
    pub lines: u32,
}

// Whether the word has no digit, or a zero in front that could be left out.
fn is_misshapen(word: &[u8]) -> bool
    ensures { result ≡ is_misshapen word.now }
{
    matches!(word, [] | [b'0', _, ..])
}

fn long_value_of(digits: &[u8]) -> Option<u64>
    ensures { result ≡ long_value_of digits.now }
{
    let mut n: u64 = 0;
    for b in digits {
        if !b.is_ascii_digit() {
            return None;
        }
        let next = 10 * u128::from(n) + u128::from(*b - b'0');
        if next > 0xffff_ffff_ffff_ffff {
            return None;
        }
        n = next as u64;
    }
    Some(n)
}

fn seed_at(word: &[u8]) -> Option<u64>
    ensures { result ≡ seed_at word.now }
{
    if is_misshapen(word) {
        None
    } else {
        long_value_of(word)
    }
}

// A number from 1 to `most`.
fn count_at(most: u32, word: &[u8]) -> Option<u32>
    ensures { result ≡ count_at most word.now }
{
    match number_at(word) {
        Some(count) if 1 <= count && count <= most => Some(count),
        _ => None,
    }
}

/// What three words ask for: a seed of 64 bits, 1 to 16 clients, and 1 to 10,000 commands of each. The words are decimal numbers
/// without needless zeros.
pub fn order_at(seed: &[u8], threads: &[u8], lines: &[u8]) -> Option<Order>
    ensures value { result ≡ order_at seed.now threads.now lines.now }
    ensures allowed { IfSome result (λ o. IsAllowed o.threads o.lines) }
{
    let seed = seed_at(seed)?;
    let threads = count_at(16, threads)?;
    let lines = count_at(10_000, lines)?;
    Some(Order {
        seed,
        threads,
        lines,
    })
}
