// The line server at work.
ghost use Rattle.worked_rows.specs.LineServer.{line_server, line_server_exact_turns, line_server_one_turn_fewer};
ghost use Rattle.worked_rows.specs.Words.{IsWorked};

/// Three clients of forty lines each: 606 calls, and nothing left.
pub fn three_clients()
    ensures whole { IsWorked line_server }
    ensures exact_turns { IsWorked line_server_exact_turns }
    ensures one_turn_fewer { IsWorked line_server_one_turn_fewer }
{}
