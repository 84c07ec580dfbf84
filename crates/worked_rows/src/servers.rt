// The line server: sessions, which serve a client each, and the store.
ghost use Rattle.worked_rows.specs.Servers.{answers_apart, bad_commands, down_without_a_store, down_at_the_stores_death, a_session_without_an_agent, commands_of_the_store, a_table_for_each_sender, a_reply_without_room};
ghost use Rattle.worked_rows.specs.Words.{IsWorked};

/// What a session makes of its client's lines.
pub fn sessions()
    ensures answers_apart { IsWorked answers_apart }
    ensures bad_commands { IsWorked bad_commands }
    ensures down_without_a_store { IsWorked down_without_a_store }
    ensures down_at_the_stores_death { IsWorked down_at_the_stores_death }
    ensures a_session_without_an_agent { IsWorked a_session_without_an_agent }
{}

/// What the store replies, to sessions and to others.
pub fn stores()
    ensures commands_of_the_store { IsWorked commands_of_the_store }
    ensures a_table_for_each_sender { IsWorked a_table_for_each_sender }
    ensures a_reply_without_room { IsWorked a_reply_without_room }
{}
