// How a reply is answered.
ghost use Rattle.line_server.specs.Turns.{is_replied};
ghost use Rattle.std.specs.Prelude.{◌≡◌};

use lwp_types::Answer;

/// Whether a reply was taken or refused: any other answer is none to a reply.
pub fn was_replied(got: &Answer) -> bool
    ensures { result ≡ is_replied got.now }
{
    match got {
        Answer::Value(_) | Answer::Refused(_) => true,
        _ => false,
    }
}
