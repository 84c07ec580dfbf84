// What ties the inlets to the threads. There is no code here: each clause is a law.
ghost use Rattle.script_run.specs.Ties.{ClosedAreServed, DrawsKeepTies};

/// Taking lines from the inlets, or looking for some in vain, keeps them tied to their threads.
pub fn draws_keep_ties()
    ensures { DrawsKeepTies }
{}

/// Once all threads have been joined it is known of each client which of its lines were taken and which are left.
pub fn closed_are_served()
    ensures { ClosedAreServed }
{}
