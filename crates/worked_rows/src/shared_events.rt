// Several agents of one event: whom a line reaches, and when the next one is taken.
ghost use Rattle.std.specs.Prelude.{[], codes, false, true, ◌≡◌, ◌∷◌};
ghost use Rattle.lwp_types.specs.Agents.{deliver, is_event_armed};
ghost use Rattle.lwp_types.specs.Messages.{senders_to};
ghost use Rattle.lwp_types.specs.declared.call.Answer.TheVariants as answer;
ghost use Rattle.lwp_types.specs.declared.call.Call.TheVariants as call;
ghost use Rattle.lwp_types.specs.declared.call.Effect.TheVariants as effect;
ghost use Rattle.lwp_types.specs.declared.call.LwpErr.TheVariants as error;
ghost use Rattle.worked_rows.specs.Limits.{Answers, Refuses};
ghost use Rattle.worked_rows.specs.SharedEvents.{a_reply_to_one_of_two, agents_of_two_events, an_agent_of_event_32, an_owner_that_dies_next, blocked_on_its_second_agent, born_beside_one_that_holds, destroyed_beside_one_that_holds, destroyed_while_it_holds, events_that_no_agent_has, stuck_beside_one_that_holds, three_agents_of_one_owner, waiting_with_agents, with_agents};
ghost use Rattle.worked_rows.specs.Words.{IsWorked};

/// A line becomes a letter of each agent of its event, and the next one waits for all replies.
pub fn letters()
    ensures blocked_on_its_second_agent { IsWorked blocked_on_its_second_agent }
    ensures born_beside_one_that_holds { IsWorked born_beside_one_that_holds }
    ensures a_reply_to_one_of_two { IsWorked a_reply_to_one_of_two }
    ensures three_agents_of_one_owner { IsWorked three_agents_of_one_owner }
    ensures stuck_beside_one_that_holds { IsWorked stuck_beside_one_that_holds }
{}

/// An owner that waits for anybody goes on with the first letter; the others stay in its mailbox.
pub fn waiting_for_anybody()
    ensures effects { (deliver (waiting_with_agents 3) 7 (codes "x")).effects
        ≡ effect.Delivered 1 7 ∷ effect.Answered 0 (answer.Letter 1 (codes "x") 240) ∷ effect.Delivered 2 7
        ∷ effect.Delivered 3 7 ∷ [] }
    ensures mailbox { senders_to (deliver (waiting_with_agents 3) 7 (codes "x")).after.letters 0 ≡ 1 ∷ 2 ∷ 3 ∷ [] }
    ensures unarmed { is_event_armed (deliver (waiting_with_agents 3) 7 (codes "x")).after 7 ≡ false }
    ensures armed_before { is_event_armed (waiting_with_agents 3) 7 ≡ true }
{}

/// What the end of an agent, or of its owner, means for the others of its event.
pub fn ends()
    ensures an_owner_that_dies_next { IsWorked an_owner_that_dies_next }
    ensures destroyed_while_it_holds { IsWorked destroyed_while_it_holds }
    ensures destroyed_beside_one_that_holds { IsWorked destroyed_beside_one_that_holds }
{}

/// Events are each other's neighbours, and no more; an agent may have any from 1 to 32.
pub fn events()
    ensures an_agent_of_event_32 { IsWorked an_agent_of_event_32 }
    ensures events_that_no_agent_has { IsWorked events_that_no_agent_has }
    ensures agents_of_two_events { IsWorked agents_of_two_events }
{}

/// At most 256 agents live, also of one event.
pub fn live()
    ensures last_agent { Answers (with_agents 255) (call.Agent 7) (answer.Thread 256) }
    ensures no_agent { Refuses (with_agents 256) (call.Agent 7) error.NoRoom }
    ensures no_agent_of_another_event { Refuses (with_agents 256) (call.Agent 32) error.NoRoom }
    ensures no_event_before_no_room { Refuses (with_agents 256) (call.Agent 33) error.InvalidArg }
{}
