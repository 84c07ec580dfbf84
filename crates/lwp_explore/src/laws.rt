// What holds of every core. There is no code here: the clauses are laws.
ghost use Rattle.lwp_explore.specs.CoreLaws.{CallsAlike, CoresHaveSessions, SessionsHaveCores, SessionsHavePaths, TakesAlike};
ghost use Rattle.lwp_explore.specs.Endings.{SessionsEnd};
ghost use Rattle.lwp_explore.specs.Rounds.{CyclesAreEndless, EndlessAreCycles};

use lwp_types::Body;

/// Two sessions with the same core make the same call, which does the same and leads to the same core.
pub fn every_call<B: Body>()
    ensures { CallsAlike B }
{}

/// So they do with each line that is taken.
pub fn every_take<B: Body>()
    ensures { TakesAlike B }
{}

/// Steps lead to the core of each session that a program has, whenever its clients' lines are taken.
pub fn every_session_core<B: Body>()
    ensures { SessionsHaveCores B }
{}

/// And what the steps along such a path write is the trace of the session.
pub fn every_session_path<B: Body>()
    ensures { SessionsHavePaths B }
{}

/// Each core that steps lead to is the core of such a session, with a call or a take for each step.
pub fn every_core_session<B: Body>()
    ensures { CoresHaveSessions B }
{}

/// Where all cores were found, and none of them is stuck or goes on for ever, each session ends, with a status that is listed, as long as
/// its lines keep coming: wherever a line can be taken, some line is taken there or later.
pub fn every_session_ends<B: Body>()
    ensures { SessionsEnd B }
{}

/// The cores that calls alone lead back to, over cores where a call is the only step, are those that are endless.
pub fn every_round<B: Body>()
    ensures sound { CyclesAreEndless B }
    ensures all { EndlessAreCycles B }
{}
