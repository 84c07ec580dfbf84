// A client's end of a lane or of a port, and what its thread does.
ghost use Rattle.event_gate.specs.Texts.{after_asks};
ghost use Rattle.script_run.specs.Ends.{IsEnd, IsReady, lines_tried, posting_of};
ghost use Rattle.std.specs.Prelude.{◌≡◌};

use event_gate::{Bell, PostEnd, PostGate, PostPass, Poster, post_all};
use lanes::{LanePass, LanePoster, lane_post_all};
use lwp_types::{Line, NoMemory, Text};
use std::sync::Wait;

/// A client's end of a lane or of a port.
#[derive(Drop)]
pub enum AnyPoster<'s> {
    Lane(LanePoster<'s>),
    Port(Poster<'s>),
}

/// What a client has posted, for good.
#[derive(Drop)]
pub enum AnyPass<'s> {
    Lane(LanePass<'s>),
    Port(PostPass<'s>),
}

/// What a client has posted, and whether that is all of its lines.
#[derive(Drop)]
pub struct AnyEnd<'s> {
    pub pass: AnyPass<'s>,
    pub all: bool,
}

impl<'s> AnyPoster<'s> {
    ghost use Rattle.script_run.specs.Ends.{pass_posting, posting_of, with_post, with_refusal};
    ghost use Rattle.std.specs.Prelude.{◌≡◌, ◌<◌, IfErr, OnOk, length};

    /// Whose end it is.
    pub fn client(&self) -> u8
        ensures { result ≡ (posting_of self.now).client }
    {
        match self {
            AnyPoster::Lane(poster) => poster.client(),
            AnyPoster::Port(poster) => poster.client(),
        }
    }

    /// How many lines the client has posted.
    pub fn count(&self) -> u32
        ensures { result ≡ length (posting_of self.now).posted }
    {
        match self {
            AnyPoster::Lane(poster) => poster.count(),
            AnyPoster::Port(poster) => poster.count(),
        }
    }

    /// Posts the client's next line. A line that was refused is not posted; a lane refuses none.
    pub fn post<R: Wait>(&mut self, rt: &R, line: Line<'s>) -> Result<(), NoMemory>
        requires client { line.client ≡ (posting_of self.old).client }
        requires next { line.seq ≡ length (posting_of self.old).posted }
        requires room { length (posting_of self.old).posted < (posting_of self.old).room }
        ensures posted { OnOk result (posting_of self.new ≡ with_post (posting_of self.old) line.entry) }
        ensures refused { IfErr result (λ e. posting_of self.new ≡ with_refusal (posting_of self.old)) }
    {
        match self {
            AnyPoster::Lane(poster) => poster.post(line),
            AnyPoster::Port(poster) => {
                if poster.post(rt, line).is_err() {
                    return Err(NoMemory);
                }
            }
        }
        Ok(())
    }

    /// What the client has posted, for good.
    pub fn finish(self) -> AnyPass<'s>
        ensures { pass_posting result ≡ posting_of self.entry }
    {
        match self {
            AnyPoster::Lane(poster) => AnyPass::Lane(poster.finish()),
            AnyPoster::Port(poster) => AnyPass::Port(poster.finish()),
        }
    }
}

/// Posts the texts in order, until a post is refused, which can't be on a lane. Then the poster leaves. The gate was asked of exactly
/// the lines posted, in order, and then of the one refused, if one was.
pub(crate) fn post_any<'s, G: PostGate, R: Wait>(
    rt: &R,
    poster: AnyPoster<'s>,
    gate: &mut G,
    texts: &[Text<'s>],
    bell: &Bell,
) -> AnyEnd<'s>
    requires { IsReady (posting_of poster).place (posting_of poster).client texts.now
        (posting_of poster) }
    ensures end { IsEnd (posting_of poster.entry).place (posting_of poster.entry).client texts.now
        result }
    ensures gate { gate.new
        ≡ after_asks G.asked gate.old
        (lines_tried (posting_of poster.entry).client texts.now result) }
{
    match poster {
        AnyPoster::Lane(poster) => AnyEnd {
            pass: AnyPass::Lane(lane_post_all(rt, poster, gate, texts, bell)),
            all: true,
        },
        AnyPoster::Port(poster) => {
            let PostEnd { pass, all } = post_all(rt, poster, gate, texts, bell);
            AnyEnd {
                pass: AnyPass::Port(pass),
                all,
            }
        }
    }
}
