// What holds of every session. There is no code here: the clauses are laws.
ghost use Rattle.pod_runner.specs.Laws.{SessionsAreLawful};
ghost use Rattle.pod_runner.specs.SessionMoves.{SessionsAreMoves};

use lwp_types::Body;

/// Between any two steps of any session, its pod's state is lawful.
pub fn every_session<B: Body>()
    ensures { SessionsAreLawful B }
{}

/// A session moves its pod by calls and takes alone, each of which could be made, and the effects of its steps are theirs.
pub fn every_session_moves<B: Body>()
    ensures { SessionsAreMoves B }
{}
