// What one outside thread does on a lane.
ghost use Rattle.std.specs.Prelude.{◌≡◌, ◌+◌, ◌≤◌, ℕ, length};
ghost use Rattle.event_gate.specs.Texts.{after_asks, lines_from};
ghost use Rattle.lanes.specs.Texts.{lane_posting_with_texts};

use crate::lane::{LanePass, LanePoster};
use event_gate::{Bell, PostGate};
use lwp_types::{Line, Text};
use std::sync::Wait;

// PROVER: a gate as the loop below has it, which can ask it of no line but the one that the poster would post next. So it was asked
// before that line was posted: afterwards it would be asked of another.
pub(crate) trait AsksOnLane: Drop {
    ghost asked: { Self → ℕ → ℕ → Self };

    fn ask(&mut self, poster: &LanePoster)
        ensures { self.new ≡ asked self.old poster.now.client (length poster.now.posted) };
}

impl<G: PostGate> AsksOnLane for G {
    ghost asked = { λ gate client seq. G.asked gate client seq };

    fn ask(&mut self, poster: &LanePoster) {
        self.before(poster.client(), poster.count());
    }
}

// Posts the texts in order, with a ring of the bell after each.
fn post_texts<'s, G: AsksOnLane, R: Wait>(
    rt: &R,
    poster: &mut LanePoster<'s>,
    gate: &mut G,
    texts: &[Text<'s>],
    bell: &Bell,
)
    requires { length poster.old.posted + length texts.now ≤ poster.old.lines }
    ensures posts { poster.new ≡ lane_posting_with_texts poster.old texts.now }
    ensures gate { gate.new
        ≡ after_asks G.asked gate.old
        (lines_from poster.old.client (length poster.old.posted) texts.now) }
{
    let client = poster.client();
    for text in texts {
        let seq = poster.count();
        let line = Line {
            client,
            seq,
            text: text.again(),
        };
        gate.ask(poster);
        poster.post(line);
        bell.ring(rt);
    }
}

/// Posts the texts in order, with a ring of the bell after each. Then the poster leaves. The gate was asked of exactly these lines,
/// in order.
pub fn lane_post_all<'s, G: PostGate, R: Wait>(
    rt: &R,
    mut poster: LanePoster<'s>,
    gate: &mut G,
    texts: &[Text<'s>],
    bell: &Bell,
) -> LanePass<'s>
    requires { length poster.posted + length texts.now ≤ poster.lines }
    ensures posts { result ≡ lane_posting_with_texts poster.entry texts.now }
    ensures gate { gate.new
        ≡ after_asks G.asked gate.old
        (lines_from poster.entry.client (length poster.entry.posted) texts.now) }
{
    post_texts(rt, &mut poster, gate, texts, bell);
    bell.leave(rt);
    poster.finish()
}
