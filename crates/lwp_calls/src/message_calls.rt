// Calls on messages: a sender waits for the reply.
ghost use Rattle.std.specs.Prelude.{◌≡◌, ◌<◌, ◌≤◌, ◌==◌, ◌∷◌, false, Some, None, IsErr, IsTrue, OnErr, OnOk, length, option_map, []};
ghost use Rattle.death_cleanup.specs.Comes.{CameTo};
ghost use Rattle.death_cleanup.specs.Ties.{InStep, LawfulParts};
ghost use Rattle.death_cleanup.specs.View.{state_of};
ghost use Rattle.lwp_types.specs.Case.{answer_by, list_case};
ghost use Rattle.lwp_types.specs.Choice.{is_eligible_in};
ghost use Rattle.lwp_types.specs.Effects.{effect_places, most_of_a_call};
ghost use Rattle.lwp_types.specs.Families.{message_call};
ghost use Rattle.lwp_types.specs.Messages.{is_no_source, post, receive, receivers_of, send, senders_to, takes_from};
ghost use Rattle.lwp_types.specs.State.{passes, thread_of};
ghost use Rattle.lwp_types.specs.Step.{case_of};
ghost use Rattle.lwp_types.specs.declared.call.IdKind.TheVariants as kind;
ghost use Rattle.rendezvous.specs.MessageTable.{has_letter_of};
ghost use Rattle.lwp_calls.specs.Asks.{asks_memory, first_refusal};
ghost use Rattle.lwp_calls.specs.Comes.{ComesTo, IsAsBefore, Told};

use crate::asks::{block, block_for, receivers, tell_ids};
use death_cleanup::{Kind, Parts, is_id, reply, wake_lettered};
use lwp_types::{Block, Effects, IdKind, Letter, LwpErr, MessageCall, Mode, NoMemory, Text, Tid};
use std::alloc::Global;

/// A call of this family.
#[inline(always)]
pub fn carry_out<'s>(
    parts: &mut Parts<'s>,
    alloc: Global,
    tid: Tid,
    call: &MessageCall<'_, 's>,
    effects: &mut Effects<'s>,
) -> Result<(), NoMemory>
    requires lawful { LawfulParts parts.old }
    requires alone { parts.old.dying ≡ None }
    requires may_run { IsTrue (is_eligible_in (state_of parts.old) tid) }
    requires room { effects.old ≡ [] }
    ensures ok { OnOk result
        (Told parts.old parts.new effects.old effects.new tid
        (case_of (state_of parts.old) tid (message_call call.now))) }
    ensures most { length effects.new ≤ most_of_a_call }
    ensures err { OnErr result (IsAsBefore parts.old parts.new) }
    ensures memory { IsErr result → IsTrue (asks_memory (message_call call.now)) }
{
    let own = match call {
        MessageCall::Send(to, room, text) => send(parts, tid, *to, *room, text, effects),
        MessageCall::Recv(from, mode) => {
            receive(parts, tid, from, *mode, effects);
            return Ok(());
        }
        MessageCall::Reply(to, text) => Some(reply(parts, tid, *to, text, effects)),
        MessageCall::Senders => return list_senders(parts, tid, effects),
        MessageCall::Receivers => return list_receivers(parts, alloc, tid, effects),
    };
    effects.done_now(tid, own);
    Ok(())
}

// The caller waits for the reply to its letter.
fn send<'s>(
    parts: &mut Parts<'s>,
    caller: Tid,
    to: Tid,
    room: u8,
    text: &Text<'s>,
    effects: &mut Effects<'s>,
) -> Option<Result<i64, LwpErr>>
    requires lawful { LawfulParts parts.old }
    requires alone { parts.old.dying ≡ None }
    requires may_run { IsTrue (is_eligible_in (state_of parts.old) caller) }
    requires room { effects.old ≡ [] }
    ensures comes { ComesTo parts.old parts.new effects.old effects.new
        (send (state_of parts.old) caller to room text.now) (option_map answer_by result) }
    ensures most { length effects.new ≤ 1 }
{
    let Some(received) = receiver(parts, to, caller) else {
        return Some(Err(LwpErr::NonExist));
    };
    if caller == to {
        return Some(Err(LwpErr::InvalidArg));
    }
    block(parts, caller, Block::Sending);
    let letter = Letter {
        from: caller,
        to,
        text: text.again(),
        room,
        received,
    };
    put(parts, &letter, effects);
    None
}

// Of a live thread, whether it waits for a letter that this sender may write.
#[inline(always)]
fn receiver(parts: &Parts, tid: Tid, sender: Tid) -> Option<bool>
    ensures { result
        ≡ option_map (λ row. takes_from sender row.block) (thread_of (state_of parts.now) tid) }
{
    match parts.ids.get(tid.number) {
        Some(Kind::Thread(rec)) => Some(block_takes(rec.block, sender)),
        Some(Kind::Agent) => None,
        None => None,
    }
}

// Whether the thread waits for a letter that this sender may write.
fn takes_from(parts: &Parts, tid: Tid, sender: Tid) -> bool
    ensures { result
        ≡ passes (λ row. takes_from sender row.block) (thread_of (state_of parts.now) tid) }
{
    match receiver(parts, tid, sender) {
        Some(takes) => takes,
        None => false,
    }
}

// Whether who waits so waits for a letter that this sender may write.
fn block_takes(why: Block, sender: Tid) -> bool
    ensures { result ≡ takes_from sender why }
{
    let Block::Receiving(from) = why else {
        return false;
    };
    match from {
        Some(named) => named == sender,
        None => true,
    }
}

/// A letter more, which nobody has received. Who waits for such a letter has it at once, and goes on.
#[inline(always)]
pub fn post<'s>(parts: &mut Parts<'s>, letter: &Letter<'s>, effects: &mut Effects<'s>)
    requires step { InStep parts.old }
    requires alone { parts.old.dying ≡ None }
    requires unread { letter.now.received ≡ false }
    requires new { has_letter_of parts.old.mail.letters letter.now.from ≡ false }
    requires place { length parts.old.mail.letters < parts.old.mail.places }
    requires room { length effects.old < effect_places }
    ensures { CameTo parts.old parts.new effects.old effects.new
        (post letter.now (state_of parts.old)) }
{
    let received = takes_from(parts, letter.to, letter.from);
    let letter = Letter {
        from: letter.from,
        to: letter.to,
        text: letter.text.again(),
        room: letter.room,
        received,
    };
    put(parts, &letter, effects);
}

// One letter more, which counts as received if its receiver waits for it.
#[inline(always)]
fn put<'s>(parts: &mut Parts<'s>, letter: &Letter<'s>, effects: &mut Effects<'s>)
    requires step { InStep parts.old }
    requires alone { parts.old.dying ≡ None }
    requires known { letter.now.received
        ≡ passes (λ row. takes_from letter.now.from row.block)
        (thread_of (state_of parts.old) letter.now.to) }
    requires new { has_letter_of parts.old.mail.letters letter.now.from ≡ false }
    requires place { length parts.old.mail.letters < parts.old.mail.places }
    requires room { length effects.old < effect_places }
    ensures { CameTo parts.old parts.new effects.old effects.new
        (post (record letter.now { received = false }) (state_of parts.old)) }
{
    parts.mail.post_letter(Letter {
        from: letter.from,
        to: letter.to,
        text: letter.text.again(),
        room: letter.room,
        received: letter.received,
    });
    if letter.received {
        wake_lettered(parts, letter.to, letter, effects);
    }
}

// Why a receive is refused by whom it names, if so.
fn source_refusal(parts: &Parts, caller: Tid, from: &Option<Tid>) -> Option<LwpErr>
    ensures { result
        ≡ first_refusal
        (is_no_source (state_of parts.now) from.now
        ∷ (passes (λ x. x == caller) from.now, LwpErr.InvalidArg) ∷ []) }
{
    let Some(sender) = *from else {
        return None;
    };
    if !is_id(parts, sender) {
        return Some(LwpErr::NonExist);
    }
    if sender == caller {
        return Some(LwpErr::InvalidArg);
    }
    None
}

// The caller has the first letter of whom it names, or of anybody. With none it waits, or is refused.
fn receive<'s>(
    parts: &mut Parts<'s>,
    caller: Tid,
    from: &Option<Tid>,
    mode: Mode,
    effects: &mut Effects<'s>,
)
    requires lawful { LawfulParts parts.old }
    requires alone { parts.old.dying ≡ None }
    requires may_run { IsTrue (is_eligible_in (state_of parts.old) caller) }
    requires room { effects.old ≡ [] }
    ensures told { Told parts.old parts.new effects.old effects.new caller
        (receive (state_of parts.old) caller from.now mode) }
    ensures most { length effects.new ≤ 1 }
{
    if let Some(err) = source_refusal(parts, caller, from) {
        effects.done(caller, Err(err));
        return;
    }
    if let Some(letter) = parts.mail.take_letter(caller, *from) {
        effects.lettered(caller, &letter);
        return;
    }
    match mode {
        Mode::Poll => effects.done(caller, Err(LwpErr::Timeout)),
        Mode::Block => block(parts, caller, Block::Receiving(*from)),
        Mode::Until { ticks: 0 } => effects.done(caller, Err(LwpErr::Timeout)),
        Mode::Until { ticks } => block_for(parts, caller, Block::Receiving(*from), ticks),
    }
}

// Who sent the letters to the caller, received or not.
fn list_senders<'s>(
    parts: &Parts<'s>,
    caller: Tid,
    effects: &mut Effects<'s>,
) -> Result<(), NoMemory>
    requires step { InStep parts.now }
    requires room { effects.old ≡ [] }
    ensures ok { OnOk result
        (Told parts.now parts.now effects.old effects.new caller
        (list_case (state_of parts.now) kind.Thread
        (senders_to (state_of parts.now).letters caller))) }
    ensures most { length effects.new ≤ 1 }
{
    let list = parts.mail.senders(caller)?;
    tell_ids(caller, IdKind::Thread, list, effects);
    Ok(())
}

// Who waits for a letter of the caller by name.
fn list_receivers<'s>(
    parts: &Parts<'s>,
    alloc: Global,
    caller: Tid,
    effects: &mut Effects<'s>,
) -> Result<(), NoMemory>
    requires step { InStep parts.now }
    requires room { effects.old ≡ [] }
    ensures ok { OnOk result
        (Told parts.now parts.now effects.old effects.new caller
        (list_case (state_of parts.now) kind.Thread (receivers_of (state_of parts.now) caller))) }
    ensures most { length effects.new ≤ 1 }
{
    let list = receivers(parts, alloc, caller)?;
    tell_ids(caller, IdKind::Thread, list, effects);
    Ok(())
}
