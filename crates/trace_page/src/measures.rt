// The measures of the page, in pixels.
ghost use Rattle.std.specs.Prelude.{◌≡◌};
ghost use Rattle.trace_page.specs.Measures.{end_row, outside_row};

/// Where the first call is, from the left.
pub(crate) const FIRST_CALL: u64 = 40;

/// From a call to the next.
pub(crate) const CALL_WIDTH: u64 = 16;

/// From a call to what is drawn after it and before the next.
pub(crate) const HALF_CALL: u64 = 8;

/// How many calls have columns of their own: 5,000 are drawn at most, and after them come what comes last and whom it waits for.
pub(crate) const MOST_CALLS: u64 = 5003;

/// How many tenth calls have their number.
pub(crate) const MOST_TENTHS: u64 = 501;

/// After the last call, room for the words that tell the end.
pub(crate) const END_WIDTH: u64 = 420;

/// After the last call, room for the arrows to whom somebody waits for, before the words that tell it.
pub(crate) const DUE_GAP: u64 = 42;

/// The column of the lanes' names.
pub(crate) const NAMES_WIDTH: u64 = 150;

/// Where the first lane is, from above: over it stands what comes from the outside.
pub(crate) const FIRST_LANE: u64 = 56;

/// From a lane to the next.
pub(crate) const LANE_HEIGHT: u64 = 68;

/// How many lanes stand apart.
pub(crate) const MOST_LANES: usize = 65_535;

/// Where arrows begin and end in a lane.
pub(crate) const MIDDLE: u64 = 10;

/// Where the foot of words is in a lane.
pub(crate) const FOOT: u64 = 14;

/// Below the words of what comes from the outside, where the arrows to the lanes begin.
pub(crate) const BELOW_ROWS: u64 = 48;

/// Where the spot of a tick is, in the midst below these words.
pub(crate) const TICK_SPOT: u64 = 52;

/// Where the words are of what comes from the outside, in three rows one below the other.
pub(crate) fn outside_row(nth: u64) -> u64
    ensures { result ≡ outside_row nth }
{
    24 + 11 * (nth % 3)
}

/// Where a last line is: one below the other, as far as there is room.
pub(crate) fn end_row(nth: u64) -> u64
    ensures { result ≡ end_row nth }
{
    14 + 14 * nth.min(16)
}
