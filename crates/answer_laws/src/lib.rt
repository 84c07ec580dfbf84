//! What one client of the line server is told: laws of its session and of the store, and of the letters that carry its lines. There is
//! no code here: each function below has no body, and its clause is the law. So there are no wrong bodies; `wrong` has wrong definitions.
//!
//! | what is said | law, and where it stands |
//! |---|---|
//! | in every session of every script, with names that are null at the opening, whenever lines are taken and whatever the other clients do: of a client's session and a store, whichever of the two is born first, the accepted replies to the session's agent are a first part of the answers to the lines delivered to that | `FromNullNames`, of any names `InEveryScript`, and of any bodies `InEverySession` (`specs/Births.antt`) |
//! | so it is in every session of every script that bytes spell, and nothing is asked there of priorities, births or the lengths of lines | `SpeltClientsAreAnswered`, `SpeltClientsAreWritten`; `SpeltLinesAreShort`, `TakenLinesAreShort`, `SpeltBirthsAreFew` (`specs/Scripts.antt`) |
//! | what `answers` writes of a client are the accepted replies to the agent of its event, if that has had one alone and one thread alone has replied to it, as its owner alone does; so of a client's session and a store it is a first part of the answers to the client's lines | `OwnersAloneReply`, `RepliesAreWritten`, `ClientsAreWritten`, and of plans `PlansAreSessions` (`specs/Written.antt`) |
//! | so it is of what `answers_main` has written, from what it says of its session | `AnswersAreFirst` (`specs/Results.antt`) |
//! | a session that sends to a store that isn't there is refused at once; and one that is refused says `down` by its next call | `SendsToTheGoneAreRefused`, `RefusedSessionsSayDown` (`specs/Down.antt`) |
//! | so it is from any point of a session on at which the two begin, or the session after a store that has served others | `ClientsAreAnsweredInTurn`, `LaterClientsAreAnsweredInTurn`, and by moves from the opening on `InWholeSessions`, `SessionsAreReached` (`specs/Served.antt`) |
//! | in every session of every script each name of a thread is null, or the number of somebody who was born; so a client's session sends to nobody else | `NullNamesAreKnown`, `NamesAreOfTheBorn`, `SessionsSendToTheBorn` (`specs/Known.antt`) |
//! | a session and a store that talk, whatever others send to the store and whichever of them end: what the client is told is a first part of the answers to its lines | `TalksAreAnswers` (`specs/Talks.antt`) |
//! | where the store dies at some time, what the client is told in all: the table's answers to the lines that came before, or to all but the last of these, and from then on `down` to each command | `LostTalksAreAnswers` (`specs/LostTalks.antt`) |
//! | the answers to lines that have room in a letter have room in one | `ShortLinesHaveShortAnswers` (`specs/Lengths.antt`) |
//! | a sender has one letter at most; its receiver is handed it as it was sent; and what is replied to it is what its sender is answered | `EachHasOneLetter`, `ReceivesAreTheLetters`, `RepliesAreTheAnswers`, `ReadersLeaveTheRest` (`specs/Replies.antt`) |
//! | nobody but its owner touches an agent or its letter, unless by destroying one of the two; and of an agent that is destroyed nothing is left | `OthersLeaveAgents`, `DestroyedAgentsAreGone` (`specs/Agents.antt`) |
//! | a text for its event reaches an agent, and passes by those that are none; its owner is handed it as it was delivered, and a reply to it frees the agent | `DeliveriesReachAgents`, `DeliveriesPassOthersBy` (`specs/Agents.antt`), `OwnersReceive`, `OwnersReply`, `OwnersOfNoneAreRefused` (`specs/Owners.antt`) |
//! | who sends a letter waits for the reply, and who waits for the letter goes on with it | `SendsAreLetters` (`specs/Owners.antt`) |
//! | nobody else touches a thread that waits for a reply, or who waits for a letter but by sending it one | `OthersLeaveIt`, `DeliveriesLeaveIt` (`specs/Sights.antt`), and with traps and reports `PodsLeaveIt`, `TakesLeaveIt` (`specs/Events.antt`) |
//! | in a pod that stands as a talk, each step is some events of the talk, and the two bodies are those of the talk: a call of another, a delivery, the store's call and the session's; the texts delivered to the agent are its lines, and its accepted replies those of the talk | `OthersCallsAreEvents`, `DeliveriesAreEvents`, `StoresCallsAreEvents`, `SessionsCallsAreEvents`, and with traps and reports `PodsCallsAreEvents`, `TakesAreEvents` (`specs/Stands.antt`), `LivingCallsAreEvents`, `PodsStoresCallsAreEvents`, `PodsSessionsCallsAreEvents` (`specs/Owns.antt`) |
//! | nothing that others do is a reply of the session, and no line that is taken is | `OthersReplyNothing` (`specs/Owns.antt`) |
//!
//! What of this the steps of a session tell, `specs/Clients.antt` says: which lines were delivered to an agent, how it was replied to,
//! and where its session sent; `rows` has two sessions, two births and an owner worked out by hand.
//!
//! In a talk (`Talk`) the two bodies are polled as they are in a session, and the pod answers them: a reply to the session goes to the
//! letter that the store has received, and a line comes only to a session that waits for one. What a thread shows to others (`Sight`)
//! is what it waits for, its marks and its letters; what an agent shows (`AgentSight`) is its row and its letters. How the two bodies,
//! their letters and the agent stand in the machine while they talk, `Stands` says; and of a session whose store isn't born yet, that it stands
//! without one.
//!
//! Of a session it is asked that the store lives in the end, that whatever the client's session has sent went to it, that the lines that were
//! taken have room in a letter, and that fewer were born than there are numbers. Where the client's session is born before its store, it must
//! send nothing till that is born; so it is if each name is null at the opening, since it can't name its store before. That a trap may be
//! raised in either, that somebody may destroy the session or its agent, and what reports and other agents of the event there are, makes no
//! difference: a trap is the end of a thread that has no handler, and a store that lives in the end has met none.
//!
//! It stands on the bodies of `line_server`, on the laws of the machine in `pod_laws`, on the events of `pod_events`, and on the sessions of
//! `pod_runner` with their laws in `session_laws`; that scripts are such sessions it takes from `script_body`, and what is written of a client from
//! `lwp_serve`.
#![tactic(auto)]

pub mod rows;

ghost use Rattle.answer_laws.specs.Agents.{DeliveriesPassOthersBy, DeliveriesReachAgents, DestroyedAgentsAreGone, OthersLeaveAgents};
ghost use Rattle.answer_laws.specs.Births.{FromNullNames, InEveryScript, InEverySession};
ghost use Rattle.answer_laws.specs.Down.{RefusedSessionsSayDown, SendsToTheGoneAreRefused};
ghost use Rattle.answer_laws.specs.Events.{PodsLeaveIt, TakesLeaveIt};
ghost use Rattle.answer_laws.specs.Known.{NamesAreOfTheBorn, NullNamesAreKnown, SessionsSendToTheBorn};
ghost use Rattle.answer_laws.specs.Lengths.{ShortLinesHaveShortAnswers};
ghost use Rattle.answer_laws.specs.LostTalks.{LostTalksAreAnswers};
ghost use Rattle.answer_laws.specs.Owners.{OwnersOfNoneAreRefused, OwnersReceive, OwnersReply, SendsAreLetters};
ghost use Rattle.answer_laws.specs.Owns.{LivingCallsAreEvents, OthersReplyNothing, PodsSessionsCallsAreEvents, PodsStoresCallsAreEvents};
ghost use Rattle.answer_laws.specs.Replies.{EachHasOneLetter, ReadersLeaveTheRest, ReceivesAreTheLetters, RepliesAreTheAnswers};
ghost use Rattle.answer_laws.specs.Results.{AnswersAreFirst};
ghost use Rattle.answer_laws.specs.Scripts.{SpeltBirthsAreFew, SpeltClientsAreAnswered, SpeltClientsAreWritten, SpeltLinesAreShort, TakenLinesAreShort};
ghost use Rattle.answer_laws.specs.Served.{ClientsAreAnsweredInTurn, InWholeSessions, LaterClientsAreAnsweredInTurn, SessionsAreReached};
ghost use Rattle.answer_laws.specs.Sights.{DeliveriesLeaveIt, OthersLeaveIt};
ghost use Rattle.answer_laws.specs.Stands.{DeliveriesAreEvents, OthersCallsAreEvents, PodsCallsAreEvents, SessionsCallsAreEvents, StoresCallsAreEvents, TakesAreEvents};
ghost use Rattle.answer_laws.specs.Talks.{TalksAreAnswers};
ghost use Rattle.answer_laws.specs.Written.{ClientsAreWritten, OwnersAloneReply, PlansAreSessions, RepliesAreWritten};

use lwp_types::Body;

/// In every session, whatever its bodies do and whenever lines are taken: of a client's session and a store, before whose birth it sends
/// nothing, what the client is told is a first part of the answers to its lines.
pub fn every_client<B: Body>()
    ensures { InEverySession B }
{}

/// So it is in every session of every script; and where each name at the opening is null or means somebody born, whatever the session
/// does before the birth of its store.
pub fn every_client_of_a_script()
    ensures { InEveryScript }
{}

/// So it is with names that are null at the opening, as all are that a run begins with.
pub fn every_client_from_null_names()
    ensures { FromNullNames }
{}

/// Of a script that bytes spell, each line that a client posts has room in a letter.
pub fn every_spelt_line()
    ensures { SpeltLinesAreShort }
{}

/// So has each line that is taken in one of its sessions.
pub fn every_line_taken()
    ensures { TakenLinesAreShort }
{}

/// Fewer threads and agents are born in such a session than there are numbers of 32 bits.
pub fn every_birth_where_spelt()
    ensures { SpeltBirthsAreFew }
{}

/// In every session of a script that bytes spell, as `plan_main`, `run_main` and `answers_main` speak of (its takes and calls were
/// due, and its takes are a history of the clients): what a client is told is a first part of the answers to its lines, if its store
/// lives in the end and all that its session has sent went to that. Nothing is asked of priorities, births or lengths of lines.
pub fn every_client_of_a_spelt_script()
    ensures { SpeltClientsAreAnswered }
{}

/// So what `answers` writes of a client is a first part of the answers to the lines of its agent, each on a line of its own, if its
/// event has had that agent alone and all accepted replies to that are of the client's session.
pub fn every_client_written_where_spelt()
    ensures { SpeltClientsAreWritten }
{}

/// Of the replies to an agent those of its owner alone are accepted, in every session: nobody else is told so.
pub fn every_reply_to_an_agent<B: Body>()
    ensures { OwnersAloneReply B }
{}

/// Where an event has had one agent, and nobody but this thread was told that his reply to that was accepted: what the event's client is told
/// are this thread's accepted replies, each on a line of its own. Of the agent's owner it is so in every session (`every_reply_to_an_agent`).
pub fn every_reply_written<B: Body>()
    ensures { RepliesAreWritten B }
{}

/// So what `answers` writes of a client of a script is a first part of the answers to the lines of its agent, each on a line of its own.
pub fn every_client_written()
    ensures { ClientsAreWritten }
{}

/// What a client is told in a plan is what it is told in the session that the plan's takes and calls play.
pub fn every_plan_written()
    ensures { PlansAreSessions }
{}

/// Names that are null at the opening of a script's session mean nobody who isn't born.
pub fn every_opening()
    ensures { NullNamesAreKnown }
{}

/// From there on, in every session of every script, each name of a thread is null, or the number of somebody who was born.
pub fn every_name()
    ensures { NamesAreOfTheBorn }
{}

/// So a client's session sends to nobody before his birth.
pub fn every_send_of_a_session()
    ensures { SessionsSendToTheBorn }
{}

/// From where a store and a client's session begin, the one born before the other or after it, and neither polled yet: so it is in whatever
/// follows.
pub fn every_beginning<B: Body>()
    ensures { ClientsAreAnsweredInTurn B }
{}

/// So it is where the store has begun before and served others, and the session is born then.
pub fn every_later_beginning<B: Body>()
    ensures { LaterClientsAreAnsweredInTurn B }
{}

/// So it is of the moves of a session from its opening on.
pub fn every_session_of_moves<B: Body>()
    ensures { InWholeSessions B }
{}

/// Each session, with its takes and calls, is one of those that moves from the opening come to.
pub fn every_session_reached<B: Body>()
    ensures { SessionsAreReached B }
{}

/// A session and a store that talk, whatever else is sent to the store and whichever threads end: the accepted replies to the session's client
/// are a first part of the answers to its lines.
pub fn every_talk()
    ensures { TalksAreAnswers }
{}

/// So it is if the store dies at some time: what the client is told is a first part of the table's answers to the lines that its session
/// had received before, or to all of these but the last, and then of `down` to each command, and of the other answers as ever.
pub fn every_lost_talk()
    ensures { LostTalksAreAnswers }
{}

/// A thread that waits for a reply is left alone by every call of another to whom it hasn't written; and one that waits for a letter
/// goes on with the letter that the caller sends it, or because whom it waits for isn't there.
pub fn every_call_of_another()
    ensures { OthersLeaveIt }
{}

/// So it is by every delivery; one that waits for a letter goes on with the text that is delivered, as an agent's letter.
pub fn every_delivery_to_others()
    ensures { DeliveriesLeaveIt }
{}

/// A thread has one letter at most that isn't replied to.
pub fn every_sender()
    ensures { EachHasOneLetter }
{}

/// A receive that finds a letter is answered it, as it was sent.
pub fn every_receive()
    ensures { ReceivesAreTheLetters }
{}

/// A reply to a letter that was received is what its sender is answered, if it has room for that.
pub fn every_reply()
    ensures { RepliesAreTheAnswers }
{}

/// Whom a thread has written to leaves it alone while it replies to others, and receives the letters of others or waits.
pub fn every_call_of_a_reader()
    ensures { ReadersLeaveTheRest }
{}

/// So it is of every call of another in a pod with its own events, with the trap before it and the report after it.
pub fn every_call_in_a_pod()
    ensures { PodsLeaveIt }
{}

/// And of every line that is taken there.
pub fn every_take_in_a_pod()
    ensures { TakesLeaveIt }
{}

/// A call of another than an agent's owner leaves the agent and its letter as they are, unless it destroys one of the two.
pub fn every_call_beside_an_agent()
    ensures { OthersLeaveAgents }
{}

/// Of an agent that is destroyed, neither its row nor its letter is left.
pub fn every_end_of_an_agent()
    ensures { DestroyedAgentsAreGone }
{}

/// A text that is delivered for an event passes by anyone who is no agent of it.
pub fn every_delivery_beside_an_agent()
    ensures { DeliveriesPassOthersBy }
{}

/// A text that is delivered for its event reaches an agent: an owner who waits for its letter by name goes on with it, and one who is
/// busy has it to receive.
pub fn every_delivery_to_an_agent()
    ensures { DeliveriesReachAgents }
{}

/// The owner of an agent that receives by its name is answered a message that it hasn't received, as it was delivered, and waits else.
pub fn every_receive_of_an_owner()
    ensures { OwnersReceive }
{}

/// A reply of an owner to a message that it has received is accepted, if there is room for it; and the agent holds none any more.
pub fn every_reply_of_an_owner()
    ensures { OwnersReply }
{}

/// Who receives by the name of an agent that isn't there, or replies to it, is told so.
pub fn every_call_to_a_lost_agent()
    ensures { OwnersOfNoneAreRefused }
{}

/// Who sends a letter waits for the reply; and who waits for such a letter goes on with it, as it was sent.
pub fn every_send()
    ensures { SendsAreLetters }
{}

/// In a pod that stands as a talk, a call of another is a letter to the store, or the end of the agent, or nothing.
pub fn every_call_beside_a_talk()
    ensures { OthersCallsAreEvents }
{}

/// A text that is delivered there is a line of the session's agent, or a letter to the store, or nothing.
pub fn every_delivery_in_a_talk()
    ensures { DeliveriesAreEvents }
{}

/// A call of the store there is what the talk says, and a letter with it if there is one.
pub fn every_call_of_the_store()
    ensures { StoresCallsAreEvents }
{}

/// So is a call of the session, unless it asks for an agent in vain; and its replies in the talk are those that were accepted.
pub fn every_call_of_the_session()
    ensures { SessionsCallsAreEvents }
{}

/// A call of another in such a pod with its own events, the trap before it and the report after it among that.
pub fn every_pod_call_beside_a_talk()
    ensures { PodsCallsAreEvents }
{}

/// And a line that is taken there.
pub fn every_take_in_a_talk()
    ensures { TakesAreEvents }
{}

/// So it is of a call of another after which the two are there, whatever it is.
pub fn every_call_that_spares_a_talk()
    ensures { LivingCallsAreEvents }
{}

/// Nothing that others do in a pod is a reply of the session, and no line that is taken is.
pub fn every_reply_of_others()
    ensures { OthersReplyNothing }
{}

/// A call of the store in such a pod, the trap before it and the report after it among that.
pub fn every_call_of_the_store_in_a_pod()
    ensures { PodsStoresCallsAreEvents }
{}

/// So it is of a call of the session: it goes on as the talk says, or asked for an agent in vain, or is gone.
pub fn every_call_of_the_session_in_a_pod()
    ensures { PodsSessionsCallsAreEvents }
{}

/// The answers to lines that have room in a letter have room in one.
pub fn every_answer()
    ensures { ShortLinesHaveShortAnswers }
{}

/// A client's session that is refused by its store tells its client `down` by its next call, whatever the others do till then.
pub fn every_refused_session<B: Body>()
    ensures { RefusedSessionsSayDown B }
{}

/// Once its store isn't there, a client's session that sends to it is refused at once; so it says `down` by its next call.
pub fn every_send_to_a_lost_store<B: Body>()
    ensures { SendsToTheGoneAreRefused B }
{}

/// What `answers_main` has written, where it says that a session of a script came to its end, is a first part of the answers to the
/// client's lines, by what it says of that session: nothing is asked of priorities, births or lengths of lines.
pub fn every_result_of_answers()
    ensures { AnswersAreFirst }
{}
