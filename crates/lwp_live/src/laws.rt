// Laws of what clients are told, and of scripts with the lines that were posted. There is no code here: the clauses are laws.
ghost use Rattle.lwp_live.specs.Laws.{AnswersAreReplies, AnswersGrow, RecordedPosts, RecordedSessions, RecordedSpelt};

/// What the clients of an event are told is what is replied to the agents of that event.
pub fn answers_are_replies()
    ensures { AnswersAreReplies }
{}

/// What was told stays: the answers of a session begin with those of each of its first parts.
pub fn answers_grow()
    ensures { AnswersGrow }
{}

/// A script with lines after its own posts its own lines, and then these.
pub fn recorded_posts()
    ensures { RecordedPosts }
{}

/// A script with lines after its own has the same sessions.
pub fn recorded_sessions()
    ensures { RecordedSessions }
{}

/// The text of a script, with the first of the posts of an input after it, spells the script with those posts.
pub fn recorded_spelt()
    ensures { RecordedSpelt }
{}
