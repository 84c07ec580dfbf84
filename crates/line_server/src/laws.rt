// What holds of the definitions alone: these functions have no code, and their clauses are the laws.
ghost use Rattle.line_server.specs.Stores.{SendersAreApart};

/// What a store tells a sender is a function of that sender's texts alone.
pub fn senders_are_apart()
    ensures { SendersAreApart }
{}
