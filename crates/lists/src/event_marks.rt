// A word with a bit for each event.
ghost use Rattle.std.specs.Prelude.{◌≡◌, ◌≢◌, ◌<◌, false, ℕ, IfNone, IfSome};
ghost use Rattle.std.specs.Slice.Scan.{HoldsNowhere, IsFirstPlace};
ghost use Rattle.lists.specs.EventMarks.{is_marked};

/// No event is marked.
pub fn no_marks() -> u64
    ensures { (e : ℕ) → is_marked result e ≡ false }
{
    0
}

/// The marks, but that this event is marked, or isn't. No event from 64 on can be marked.
pub fn with_mark(word: u64, event: u8, on: bool) -> u64
    ensures here { event < 64 → is_marked result event ≡ on }
    ensures others { (e : ℕ) → e ≢ event → is_marked result e ≡ is_marked word e }
{
    if event >= 64 {
        word
    } else if on {
        word | (1u64 << event)
    } else {
        word & !(1u64 << event)
    }
}

/// Whether the event is marked; none from 64 on is.
pub fn is_marked(word: u64, event: u8) -> bool
    ensures { result ≡ is_marked word event }
{
    event < 64 && (word >> event) & 1 == 1
}

/// The first event from `from` on that is marked, if there is one below 32.
pub fn first_marked(word: u64, from: u8) -> Option<u8>
    ensures none { IfNone result (HoldsNowhere (is_marked word) from 32) }
    ensures below { IfSome result (λ event. event < 32) }
    ensures first { IfSome result (λ event. IsFirstPlace (is_marked word) from 32 event) }
{
    if from >= 32 {
        return None;
    }
    let rest = word & (u32::MAX << from) as u64;
    if rest == 0 {
        return None;
    }
    Some(rest.trailing_zeros() as u8)
}
