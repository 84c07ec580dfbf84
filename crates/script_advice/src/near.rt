// Words that are nearly the same.
ghost use Rattle.std.specs.Prelude.{◌≡◌, ℕ, Bool, List};
ghost use Rattle.script_advice.specs.Near.{behind_first, is_edited, is_edited_once, one_apart, two_apart};

/// The word without its first byte.
pub(crate) fn behind_first(word: &[u8]) -> &[u8]
    ensures { result.now ≡ behind_first word.now }
{
    match word {
        [] => &[],
        [_, rest @ ..] => rest,
    }
}

// What is left of two words after the bytes with which both begin.
fn parted<'v, 'w>(v: &'v [u8], w: &'w [u8]) -> (&'v [u8], &'w [u8])
    ensures { (alike : List ℕ → List ℕ → Bool) →
        is_edited_once alike v.now w.now ≡ is_edited alike result.0.now result.1.now }
{
    let mut left = v;
    let mut other = w;
    while let [b, more @ ..] = left {
        match other {
            [c, rest @ ..] if *b == *c => {
                left = more;
                other = rest;
            }
            _ => return (left, other),
        }
    }
    (left, other)
}

/// Whether the words are equal, but for one byte at most that is changed, put in or left out.
pub fn one_apart(v: &[u8], w: &[u8]) -> bool
    ensures { result ≡ one_apart v.now w.now }
{
    let (v, w) = parted(v, w);
    behind_first(v) == behind_first(w) || v == behind_first(w) || behind_first(v) == w
}

/// Whether the words are equal, but for two such bytes at most.
pub fn two_apart(v: &[u8], w: &[u8]) -> bool
    ensures { result ≡ two_apart v.now w.now }
{
    let (v, w) = parted(v, w);
    one_apart(behind_first(v), behind_first(w))
        || one_apart(v, behind_first(w))
        || one_apart(behind_first(v), w)
}
