// What holds of every gate, of every client's lines and of every find at a port. There is no code here: each clause is a law.
ghost use Rattle.event_gate.specs.Gauge.{FindsAreTrue, FindsAreWhole};
ghost use Rattle.event_gate.specs.History.{ClientsKeepHistory, GatesKeepHistory};

/// Of each event, the lines taken and then those left are the lines that were in place for it.
pub fn every_gate_history()
    ensures { GatesKeepHistory }
{}

/// So of each client, the lines taken and then those left are what it posts.
pub fn every_client_history()
    ensures { ClientsKeepHistory }
{}

/// Whatever a step does: where it counts one find more for a taker and keeps the rule of the gauge, nobody else has a ticket at
/// that step. So no body of `Taker::take` can count a find while a post is under way or a line is queued.
pub fn every_true_find()
    ensures { FindsAreTrue }
{}

/// At a step at which a taker notes that nothing is left, nobody else has a ticket: no post is under way, and no line is
/// queued, since each brings one. So all posts that were announced and not refused are among the lines taken.
pub fn every_find()
    ensures { FindsAreWhole }
{}
