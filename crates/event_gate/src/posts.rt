// What one outside thread does.
ghost use Rattle.std.specs.Prelude.{◌≡◌, ◌+◌, ◌≤◌, ℕ, length};
ghost use Rattle.event_gate.specs.Texts.{PostsSome, after_asks, lines_asked};

use crate::bell::Bell;
use crate::poster::{PostPass, Poster};
use lwp_types::{Line, Text};
use std::sync::Wait;

/// What is done before each post.
pub trait PostGate: Drop {
    /// What the gate is once it was asked of this client's line of this number.
    ghost asked: { Self → ℕ → ℕ → Self };

    /// Called before the client's line of that number is posted.
    fn before(&mut self, client: u8, seq: u32)
        ensures { self.new ≡ asked self.old client seq };
}

/// Does nothing.
#[derive(Drop)]
pub struct NoGate;

impl PostGate for NoGate {
    ghost asked = { λ gate client seq. gate };

    fn before(&mut self, _client: u8, _seq: u32) {}
}

// PROVER: a gate as the loop below has it, which can ask it of no line but the one that the poster would post next. So it was asked
// before that line was posted: afterwards it would be asked of another.
pub(crate) trait Asks: Drop {
    ghost asked: { Self → ℕ → ℕ → Self };

    fn ask(&mut self, poster: &Poster)
        ensures { self.new ≡ asked self.old poster.now.client (length poster.now.posted) };
}

impl<G: PostGate> Asks for G {
    ghost asked = { λ gate client seq. G.asked gate client seq };

    fn ask(&mut self, poster: &Poster) {
        self.before(poster.client(), poster.count());
    }
}

/// What a client has posted, and whether that is all of its lines.
#[derive(Drop)]
pub struct PostEnd<'s> {
    pub pass: PostPass<'s>,
    pub all: bool,
}

// Posts the texts in order, and says whether it posted all.
fn post_texts<'s, G: Asks, R: Wait>(
    rt: &R,
    poster: &mut Poster<'s>,
    gate: &mut G,
    texts: &[Text<'s>],
    bell: &Bell,
) -> bool
    requires { length poster.old.posted + length texts.now ≤ 4294967295 }
    ensures posts { PostsSome poster.old texts.now result poster.new }
    ensures gate { gate.new
        ≡ after_asks G.asked gate.old (lines_asked poster.old texts.now result poster.new) }
{
    let client = poster.client();
    for text in texts {
        let seq = poster.count();
        let line = Line {
            client,
            seq,
            text: text.again(),
        };
        gate.ask(poster);
        let Ok(()) = poster.post(rt, line) else {
            return false;
        };
        bell.ring(rt);
    }
    true
}

/// Posts the texts in order, with a ring of the bell after each, until a post is refused. Then the poster leaves. Without a refusal
/// all are posted. The gate was asked of exactly the lines posted, in order, and then of the one refused, if one was.
pub fn post_all<'s, G: PostGate, R: Wait>(
    rt: &R,
    mut poster: Poster<'s>,
    gate: &mut G,
    texts: &[Text<'s>],
    bell: &Bell,
) -> PostEnd<'s>
    requires { length poster.posted + length texts.now ≤ 4294967295 }
    ensures posts { PostsSome poster.entry texts.now result.all result.pass }
    ensures gate { gate.new
        ≡ after_asks G.asked gate.old (lines_asked poster.entry texts.now result.all result.pass) }
{
    let all = post_texts(rt, &mut poster, gate, texts, bell);
    bell.leave(rt);
    PostEnd {
        pass: poster.finish(),
        all,
    }
}
