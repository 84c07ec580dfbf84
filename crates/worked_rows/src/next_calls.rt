// Bodies with answers that no session gives.
ghost use Rattle.line_server.specs.Sessions.{session_next};
ghost use Rattle.line_server.specs.Stores.{store_next};
ghost use Rattle.line_server.specs.Tables.{served_text};
ghost use Rattle.line_server.specs.declared.session.SessionPlace.TheVariants as serving;
ghost use Rattle.line_server.specs.declared.store.StorePlace.TheVariants as storing;
ghost use Rattle.lwp_types.specs.declared.call.Answer.TheVariants as answer;
ghost use Rattle.lwp_types.specs.declared.call.Call.TheVariants as call;
ghost use Rattle.lwp_types.specs.declared.call.LwpErr.TheVariants as error;
ghost use Rattle.lwp_types.specs.declared.call.Mode.TheVariants as mode;
ghost use Rattle.script_body.specs.ScriptBody.{script_next};
ghost use Rattle.script_text.specs.declared.script.Stmt.TheVariants as stmt;
ghost use Rattle.std.specs.Prelude.{[], codes, length, ◌≡◌, ◌∷◌};
ghost use Rattle.worked_rows.specs.NextCalls.{Calls, Stops, frame, hundred, letter, scripted, session, store, value};

/// A catch, a removed handler and a return that the frames don't allow.
pub fn scripted_threads()
    ensures caught_below_all { Stops script_next (scripted (stmt.Raise 1) (frame (1 ∷ [])) []) (answer.Caught 0 0 1) }
    ensures caught_above_all { Stops script_next (scripted (stmt.Raise 1) (frame (1 ∷ [])) []) (answer.Caught 2 0 1) }
    ensures caught_without_a_place { Stops script_next
        (scripted (stmt.Raise 1) (frame (1 ∷ [])) (frame (1 ∷ 2 ∷ []) ∷ [])) (answer.Caught 2 1 1) }
    ensures caught_where_there_is_none { Stops script_next (scripted (stmt.Raise 1) (frame []) []) (answer.Caught 1 0 1) }
    ensures removed_without_a_place { Stops script_next (scripted stmt.Unhandle (frame []) (frame (1 ∷ []) ∷ []))
        (value 0) }
    ensures returned_from_the_last { Stops script_next (scripted stmt.Return (frame (1 ∷ [])) []) (value 0) }
    ensures return_refused { Stops script_next (scripted stmt.Return (frame (1 ∷ [])) [])
        (answer.Refused error.NonExist) }
{}

/// Answers of another kind than the session's last call gives, and any answer to its return.
pub fn sessions_stop()
    ensures agent_without_a_number { Stops session_next (session serving.Agent) (value 0) }
    ensures no_letter { Stops session_next (session serving.Recv) (answer.Reply (codes "x")) }
    ensures no_reply { Stops session_next (session serving.Send) (letter (codes "x")) }
    ensures a_letter_to_a_reply { Stops session_next (session serving.Reply) (letter (codes "x")) }
    ensures a_letter_to_the_last_reply { Stops session_next (session serving.Bye) (answer.Thread 1) }
    ensures a_catch { Stops session_next (session serving.Send) (answer.Caught 1 0 1) }
    ensures after_its_return { Stops session_next (session serving.End) (value 0) }
    ensures refused_after_its_return { Stops session_next (session serving.End) (answer.Refused error.NonExist) }
{}

/// What a session calls by its last call's answer.
pub fn sessions_go_on()
    ensures start { Calls session_next (session serving.Start) (value 0) (call.Agent 3) }
    ensures no_agent { Calls session_next (session serving.Agent) (answer.Refused error.NoRoom) call.Return }
    ensures no_letter_ever { Calls session_next (session serving.Recv) (answer.Refused error.NonExist) call.Return }
    ensures down { Calls session_next (session serving.Send) (answer.Refused error.InvalidArg)
        (call.Reply 2 (codes "down")) }
    ensures a_refused_reply { Calls session_next (session serving.Reply) (answer.Refused error.NonExist)
        (call.Recv (Some 2) mode.Block) }
    ensures a_refused_bye { Calls session_next (session serving.Bye) (answer.Refused error.NoWait) call.Return }
{}

/// What a store calls, and where it stops.
pub fn stores_go_on()
    ensures start { Calls store_next (store storing.Start) (value 0) (call.Recv None mode.Block) }
    ensures a_letter { Calls store_next (store storing.Recv) (letter (codes "get k")) (call.Reply 1 (codes "none")) }
    ensures a_refused_receive { Calls store_next (store storing.Recv) (answer.Refused error.NonExist)
        (call.Recv None mode.Block) }
    ensures a_reply_that_is_too_long { Calls store_next (store storing.Reply) (answer.Refused error.InvalidArg)
        (call.Reply 1 []) }
    ensures a_refused_reply { Calls store_next (store storing.Reply) (answer.Refused error.NonExist)
        (call.Recv None mode.Block) }
    ensures a_refused_empty_reply { Calls store_next (store storing.Empty) (answer.Refused error.NonExist)
        (call.Recv None mode.Block) }
    ensures no_letter { Stops store_next (store storing.Recv) (value 0) }
    ensures a_letter_to_a_reply { Stops store_next (store storing.Reply) (letter (codes "x")) }
    ensures a_letter_to_an_empty_reply { Stops store_next (store storing.Empty) (answer.Reply (codes "x")) }
{}

/// A table of a hundred keys takes no new one, and goes on serving those that it has.
pub fn full_tables()
    ensures full { (served_text (codes "put k100 w") hundred).reply ≡ codes "full" }
    ensures unchanged { (served_text (codes "put k100 w") hundred).table ≡ hundred }
    ensures put { (served_text (codes "put k99 w") hundred).reply ≡ codes "ok" }
    ensures as_many { length (served_text (codes "put k99 w") hundred).table ≡ 100 }
    ensures got { (served_text (codes "get k99") (served_text (codes "put k99 w") hundred).table).reply ≡ codes "is w" }
    ensures missing { (served_text (codes "get k100") hundred).reply ≡ codes "none" }
    ensures deleted { (served_text (codes "del k0") hundred).reply ≡ codes "ok" }
    ensures room { (served_text (codes "put k100 w") (served_text (codes "del k0") hundred).table).reply ≡ codes "ok" }
{}
