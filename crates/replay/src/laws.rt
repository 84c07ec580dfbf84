// Laws without code: each function's clause is one.
ghost use Rattle.replay.specs.Laws.{TheLinesForceCalls, TheLinesForceTakes};

use lwp_types::Body;

/// Where the next recorded line is that of a take of some client's next line, no session that has told it did anything else.
pub fn every_recorded_take<B: Body>()
    ensures { TheLinesForceTakes B }
{}

/// Where it is the first line of the next call, no session that has told it did anything else.
pub fn every_recorded_call<B: Body>()
    ensures { TheLinesForceCalls B }
{}
