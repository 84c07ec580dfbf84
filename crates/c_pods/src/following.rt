// The lines of a step compared with a recorded trace.
ghost use Rattle.std.specs.Prelude.{◌≡◌, ◌+◌, ◌<◌, ◌^◌, length};
ghost use Rattle.c_pods.specs.Follow.{counted, follow, follow_from, has_byte, place_after, width_after};

// The byte that a line ends with.
const LINE_END: u8 = b'\n';

/// A place of a recorded trace where a line begins: its byte, and the number of the line.
#[derive(Clone, Copy)]
pub struct Place {
    pub at: usize,
    pub line: usize,
}

/// Whether lines were those of a trace, and where the first that wasn't begins in it, or else the next.
#[derive(Clone, Copy)]
pub struct Followed {
    pub same: bool,
    pub place: Place,
}

// One more line, as far as they can be counted.
fn counted(line: usize) -> usize
    ensures { result ≡ counted line }
{
    if line == usize::MAX { line } else { line + 1 }
}

// Where a line begins after a byte.
fn place_after(byte: u8, width: usize, here: Place) -> Place
    requires { here.at + (width + 1) < 2 ^ 64 }
    ensures { result ≡ place_after byte width here }
{
    if byte == LINE_END {
        Place {
            at: here.at + (width + 1),
            line: counted(here.line),
        }
    } else {
        here
    }
}

// How many bytes a line has after a byte.
fn width_after(byte: u8, width: usize) -> usize
    requires { width + 1 < 2 ^ 64 }
    ensures { result ≡ width_after byte width }
{
    if byte == LINE_END { 0 } else { width + 1 }
}

// Whether there is this byte at a place.
fn has_byte(rest: &[u8], at: usize, byte: u8) -> bool
    ensures { result ≡ has_byte rest.now at byte }
{
    match rest.get(at) {
        Some(there) => byte == *there,
        None => false,
    }
}

// The lines compared with what is left of a trace.
#[tactic(auto, using(crate::proofs::Along::differs, crate::proofs::Along::goes_on, crate::proofs::Along::is_within, crate::proofs::Along::ends))]
fn follow_rest(lines: &[u8], rest: &[u8], from: Place) -> Followed
    requires { from.at + length rest.now < 2 ^ 64 }
    ensures { result ≡ follow lines.now rest.now 0 from }
{
    let mut here = from;
    let mut width = 0;
    for i in 0..lines.len() {
        if !has_byte(rest, i, lines[i]) {
            return Followed {
                same: false,
                place: here,
            };
        }
        here = place_after(lines[i], width, here);
        width = width_after(lines[i], width);
    }
    Followed {
        same: true,
        place: Place {
            at: here.at + width,
            line: here.line,
        },
    }
}

/// Goes along a trace from a place of it on, as far as it has these lines.
#[tactic(auto, using(crate::proofs::Along::clamped))]
pub fn follow(lines: &[u8], trace: &[u8], from: Place) -> Followed
    ensures { result ≡ follow_from lines.now trace.now from }
{
    let start = from.at.min(trace.len());
    follow_rest(lines, &trace[start..], from)
}
