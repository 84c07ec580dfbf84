// A mark for each number below 256.
ghost use Rattle.std.specs.Prelude.{◌≡◌, ◌≢◌, ◌<◌, if◌then◌else◌, ℕ};
ghost use Rattle.std.specs.Int.{bit_at};
ghost use Rattle.pod_sched.specs.Buckets.Marks.{Marks};

// The word with this bit set, or not.
fn with_bit(word: u64, bit: usize, on: bool) -> u64
    requires { bit < 64 }
    ensures here { bit_at result bit ≡ (if on then 1 else 0) }
    ensures others { (i : ℕ) → i < 64 → i ≢ bit → bit_at result i ≡ bit_at word i }
{
    if on {
        word | (1u64 << bit)
    } else {
        word & !(1u64 << bit)
    }
}

// The number is marked from now on, or not.
pub fn mark(words: &mut [u64; 4], number: usize, on: bool)
    requires { number < 256 }
    ensures { Marks words.old words.new number (if on then 1 else 0) }
{
    words[number / 64] = with_bit(words[number / 64], number % 64, on);
}

// The place of the highest one.
pub fn top_bit(word: u64) -> usize
    requires { 0 < word }
    ensures bit { result < 64 }
    ensures set { bit_at word result ≡ 1 }
    ensures above { (i : ℕ) → result < i → bit_at word i ≡ 0 }
{
    63 - word.leading_zeros() as usize
}
