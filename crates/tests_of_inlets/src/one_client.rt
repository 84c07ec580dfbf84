ghost use Rattle.std.specs.Prelude.{◌≤◌, length};

use event_gate::{Bell, Inlet, NoGate};
use lanes::{LaneTaker, lane_post_all, open_lane};
use lwp_types::{NoMemory, Text};
use std::alloc::Global;
use std::sync::Wait;
use std::test::*;

// A lane of this many lines, whose client has posted these and ended, so that its pass came in before its lines.
fn early<'s, R: Wait>(
    rt: &R,
    alloc: Global,
    lines: u32,
    texts: &[Text<'s>],
) -> Result<LaneTaker<'s>, NoMemory>
    requires { (length texts.now ≤ lines) × (lines ≤ 20000) }
{
    let (mut taker, poster) = open_lane(alloc, 7, 3, lines)?;
    let pass = lane_post_all(rt, poster, &mut NoGate, texts, &Bell::new());
    taker.take_in(pass);
    Ok(taker)
}

// What an inlet says: its event, whether all passes are in, how many lines are left of clients 3 and 4, and of the next line
// its number.
type Said = (u8, bool, u32, u32, u32);

fn asked<'s, I: Inlet<'s>, R: Wait>(rt: &R, inlet: &mut I) -> Said {
    let (event, told) = (inlet.event(), inlet.told());
    let (left, other) = (inlet.left(3), inlet.left(4));
    let seq = inlet.take(rt).map_or(9, |line| line.seq);
    (event, told, left, other, seq)
}

fn says<'s, I: Inlet<'s>, R: Wait>(rt: &R, inlet: &mut I, all: &[Said]) -> bool {
    for wanted in all {
        if asked(rt, inlet) != *wanted {
            return false;
        }
    }
    true
}

#[test]
fn a_pass_comes_in_before_its_lines(rt: HostRuntime) -> Result<(), Fail> {
    let texts = [Text::empty(), Text::empty()];
    let mut taker = early(&rt, rt.alloc(), 20_000, &texts)?;
    let said = [(7, true, 2, 0, 0), (7, true, 1, 0, 1), (7, true, 0, 0, 9)];
    assert!(rt; says(&rt, &mut taker, &said));
    Ok(())
}
