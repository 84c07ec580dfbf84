// What one client is told.
ghost use Rattle.std.specs.Prelude.{[], codes};
ghost use Rattle.worked_rows.specs.AnswerRows.{AreAnswered, IsToldIn, answers_of_a, answers_of_b, answers_of_one, as_lines, texts_of_a, texts_of_b, texts_of_one};
ghost use Rattle.worked_rows.specs.LineServer.{line_server};
ghost use Rattle.worked_rows.specs.Servers.{answers_apart};

/// Two clients of one store: neither is told of the other's key, and a client that isn't there is told nothing.
pub fn two_clients()
    ensures the_first { IsToldIn 0 answers_apart (codes "none\nbad\nbye\n") }
    ensures the_second { IsToldIn 1 answers_apart (codes "ok\nbye\n") }
    ensures nobody { IsToldIn 5 answers_apart [] }
{}

/// Three clients that ask alike: forty lines for each.
pub fn each_of_three()
    ensures the_first { IsToldIn 0 line_server (as_lines answers_of_one) }
    ensures the_second { IsToldIn 1 line_server (as_lines answers_of_one) }
    ensures the_third { IsToldIn 2 line_server (as_lines answers_of_one) }
{}

/// How a client's lines are answered, whatever other clients there are.
pub fn lines_alone()
    ensures one { AreAnswered texts_of_one answers_of_one }
    ensures a { AreAnswered texts_of_a answers_of_a }
    ensures b { AreAnswered texts_of_b answers_of_b }
{}
