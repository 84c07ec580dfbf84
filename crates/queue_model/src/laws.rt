// What holds of every desk. There is no code here: the clause is a law.
ghost use Rattle.queue_model.specs.Notes.{DesksTell};

/// Whatever a desk is answered, it has counted exactly what it has noted (`tally_of`), and serves customers FIFO. At most as many wait as
/// there is room for, and nobody while a server is free.
pub fn every_desk()
    ensures { DesksTell }
{}
