// What is told of a line: where the fault is, the word found there, and what may be there.
ghost use Rattle.std.specs.Prelude.{◌≡◌};
ghost use Rattle.script_lines.specs.Reading.{phrase_at};
ghost use Rattle.script_advice.specs.Remarks.{cause_text, doubt_text, doubted_text, fault_place, form_of, is_of_text, key_or_none, likely_op, near_form, near_key, near_of, near_procedure, place_at, place_of, reason_text, remark_of, rule_text, place_of_phrase, severity_text, starts_nothing, why_text, broken_rule, place_by, words_at};

use crate::faults::{Fault, What, fault_of, key_at, op_of, slot_at};
use crate::forms::nearest_op;
use crate::known::Known;
use crate::near_names::nearest;
use crate::what_texts::what_text;
use script_lines::{Kind, Op, Phrase, phrase_at};
use script_text::Reason;
use std::marker::Model;

/// What is allowed in a script and hardly meant.
#[derive(Clone, Copy)]
pub enum Doubt {
    /// No line sets the thread's name.
    Thread,
    /// No line sets the monitor's name.
    Monitor,
    /// No line sets the condition's name.
    Condition,
    /// No line starts the procedure.
    Procedure,
    /// The statement can't be reached.
    Statement,
    /// No line asks for the client's event.
    Client,
    /// The priority is above the pod's.
    Priority,
    /// Its procedure doesn't leave the monitor.
    Kept,
    /// No client posts the ticks that the line waits for.
    Ticks,
    /// No statement makes the thread send that the line replies to.
    Reply,
    /// The pod may end before the lines come that the server takes.
    Server,
}

/// Why a line is told.
#[derive(Clone, Copy)]
pub enum Cause {
    /// An error: the line is bad.
    Bad(Reason),
    /// A warning.
    Doubted(Doubt),
}

/// What is wrong with a line.
#[derive(Clone, Copy)]
pub enum Why {
    /// A word may not stand where it does.
    Form(What),
    /// The procedure that the line starts is declared by none.
    Undeclared,
    /// A line above declares a procedure of the name that this one declares.
    Taken,
    /// No line above declares the client that the line posts for.
    NoClient,
    /// The statement comes after the `again` that ends its procedure.
    AfterAgain,
    /// The form is right, and the line, or the text, breaks the rule that has this name.
    Rule(Reason),
    /// The line is good, and hardly meant.
    Doubted(Doubt),
}

/// What is wrong with a line, and how many bytes are left of it from the wrong word on.
#[derive(Clone, Copy)]
pub struct Place {
    pub left: usize,
    pub why: Why,
}

/// What is told of a line: its number, why it is told, the line, where in it what is wrong, the kind of line whose form is told, and
/// the word that the wrong one is nearly; empty, where it is nearly none.
pub struct Remark<'t> {
    pub line: u32,
    pub cause: Cause,
    pub text: &'t [u8],
    pub place: Place,
    pub form: Option<Op>,
    pub near: &'t [u8],
}

impl<'t> Model for Remark<'t> {
    ghost use Rattle.script_advice.specs.Remarks.{Remark as AnyRemark};

    ghost Value = { AnyRemark };

    ghost view = { λ r. record {
      line = r.line;
      cause = r.cause;
      text = r.text.now;
      place = r.place;
      form = r.form;
      near = r.near.now;
    } };
}

// PROVER: written by hand, so that a function that drops a remark calls this instead of repeating its proof.
impl<'t> Drop for Remark<'t> {
    fn drop(self) {
        let Remark {
            line: _,
            cause: _,
            text: _,
            place: _,
            form: _,
            near: _,
        } = self;
    }
}

// The name of a reason.
fn reason_text(reason: Reason) -> &'static [u8]
    ensures { result.now ≡ reason_text reason }
{
    match reason {
        Reason::TooLarge => b"TooLarge",
        Reason::Unended => b"Unended",
        Reason::Bytes => b"Bytes",
        Reason::Header => b"Header",
        Reason::Pod => b"Pod",
        Reason::Limit => b"Limit",
        Reason::Client => b"Client",
        Reason::Native => b"Native",
        Reason::Proc => b"Proc",
        Reason::Post => b"Post",
        Reason::Again => b"Again",
        Reason::Statement => b"Statement",
        Reason::Missing => b"Missing",
    }
}

// The rule that a line breaks whose form is right, or that the text breaks.
fn rule_text(reason: Reason) -> &'static [u8]
    ensures { result.now ≡ rule_text reason }
{
    match reason {
        Reason::TooLarge => b"a script has at most 16777216 bytes",
        Reason::Unended => b"no newline ends the last line",
        Reason::Bytes => b"a line is of printable bytes",
        Reason::Header => b"the first line is lwp 1",
        Reason::Pod => b"the second line is pod and a number from 1 to 255",
        Reason::Limit => b"a limit is the third line, and at least 1",
        Reason::Client => b"clients stand before all procedures, and are counted from 0",
        Reason::Native =>
            b"a built-in procedure stands behind the clients and before all other procedures, and its name is new",
        Reason::Proc => b"a procedure stands before all posts, and its name is new",
        Reason::Post =>
            b"a post stands behind all procedures, is one of a client above, and of at most 20000 of that client",
        Reason::Again =>
            b"an again ends its procedure, which doesn't begin with a skip or an again",
        Reason::Statement => b"a statement stands in a procedure",
        Reason::Missing =>
            b"the script ends too early: lwp 1, a pod and a procedure have to be there",
    }
}

// The name of a doubt.
fn doubt_text(doubt: Doubt) -> &'static [u8]
    ensures { result.now ≡ doubt_text doubt }
{
    match doubt {
        Doubt::Thread | Doubt::Monitor | Doubt::Condition => b"Unset",
        Doubt::Procedure => b"Unstarted",
        Doubt::Statement => b"Unreached",
        Doubt::Client => b"Unasked",
        Doubt::Priority => b"Priority",
        Doubt::Kept => b"Unleft",
        Doubt::Ticks => b"Clockless",
        Doubt::Reply => b"Unsending",
        Doubt::Server => b"Served",
    }
}

// What is meant by it.
fn doubted_text(doubt: Doubt) -> &'static [u8]
    ensures { result.now ≡ doubted_text doubt }
{
    match doubt {
        Doubt::Thread => b"a thread that no create and no agent names",
        Doubt::Monitor => b"a monitor that no moncreate names",
        Doubt::Condition => b"a condition that no cvcreate names",
        Doubt::Procedure => b"a procedure that no create and no call starts",
        Doubt::Statement => b"a statement behind a return, which nothing reaches",
        Doubt::Client => b"an event that no agent, no trap and no session asks for",
        Doubt::Priority => b"a priority above the greatest that the pod ever has",
        Doubt::Kept => b"a monitor that its procedure doesn't leave",
        Doubt::Ticks => b"ticks that never come: no client is of event 0, the clock",
        Doubt::Reply => b"a thread that no statement makes send",
        Doubt::Server =>
            b"a server that takes lines: the pod may end before they come, for no other thread stays",
    }
}

/// Whether it is an error or a warning.
pub fn severity_text(cause: Cause) -> &'static [u8]
    ensures { result.now ≡ severity_text cause }
{
    match cause {
        Cause::Bad(_) => b"error",
        Cause::Doubted(_) => b"warning",
    }
}

/// Why it is told.
pub fn cause_text(cause: Cause) -> &'static [u8]
    ensures { result.now ≡ cause_text cause }
{
    match cause {
        Cause::Bad(reason) => reason_text(reason),
        Cause::Doubted(doubt) => doubt_text(doubt),
    }
}

/// What is wrong, in words.
pub fn why_text(why: Why) -> &'static [u8]
    ensures { result.now ≡ why_text why }
{
    match why {
        Why::Form(what) => what_text(what),
        Why::Undeclared => b"a procedure that nothing declares",
        Why::Taken => b"a procedure of this name is declared above",
        Why::NoClient => b"no client above has this number",
        Why::AfterAgain => b"a statement after the again that ends its procedure",
        Why::Rule(reason) => rule_text(reason),
        Why::Doubted(doubt) => doubted_text(doubt),
    }
}

// ---- Where it is, and what is wrong there.

fn place_at(left: usize, why: Why) -> Place
    ensures { result ≡ place_at left why }
{
    Place { left, why }
}

// Whether a reason is of the text, and no single line has it.
fn is_of_text(reason: Reason) -> bool
    ensures { result ≡ is_of_text reason }
{
    matches!(reason, Reason::TooLarge | Reason::Unended | Reason::Missing)
}

/// Whether a line is bad for the procedure that it starts.
pub fn starts_nothing(known: &Known, reason: Reason, phrase: &Phrase<'_>) -> bool
    ensures { result ≡ starts_nothing known.now reason phrase.now }
{
    reason == Reason::Statement && !known.allows(phrase)
}

// Which part of its rule a line of this kind breaks, where a line above declares what it names or none does.
fn broken_rule(reason: Reason, op: Op, above: bool) -> Why
    ensures { result ≡ broken_rule reason op above }
{
    match reason {
        Reason::Proc | Reason::Native if above => Why::Taken,
        Reason::Post if !above => Why::NoClient,
        Reason::Again if op != Op::Again => Why::AfterAgain,
        _ => Why::Rule(reason),
    }
}

// The line from the word on that is wrong for this.
fn words_at(why: Why, op: Op, line: &[u8]) -> &[u8]
    ensures { result.now ≡ words_at why op line.now }
{
    match why {
        Why::Undeclared | Why::Taken => slot_at(op, Kind::Procedure, line),
        Why::NoClient => slot_at(op, Kind::Client, line),
        _ => line,
    }
}

// A line of this kind that is bad for this.
fn place_by(why: Why, op: Op, line: &[u8]) -> Place
    ensures { result ≡ place_by why op line.now }
{
    place_at(words_at(why, op, line).len(), why)
}

// A line whose form is right.
fn place_of_phrase(known: &Known, above: bool, reason: Reason, line: &[u8]) -> Place
    ensures { result ≡ place_of_phrase known.now above reason line.now (phrase_at line.now) }
{
    let Some(phrase) = phrase_at(line) else {
        return place_at(line.len(), Why::Rule(reason));
    };
    if starts_nothing(known, reason, &phrase) {
        place_by(Why::Undeclared, phrase.op, line)
    } else {
        place_by(broken_rule(reason, phrase.op, above), phrase.op, line)
    }
}

// A line that has this fault, or none.
fn fault_place(
    known: &Known,
    above: bool,
    reason: Reason,
    line: &[u8],
    fault: Option<Fault>,
) -> Place
    ensures { result ≡ fault_place known.now above reason line.now fault }
{
    match fault {
        None => place_of_phrase(known, above, reason, line),
        Some(fault) => place_at(fault.left, Why::Form(fault.what)),
    }
}

// The end of the line where it or the text ends too early, and else the first wrong word.
#[tactic(auto, unfolding(crate::specs::Remarks::place_of))]
fn place_of(known: &Known, above: bool, reason: Reason, line: &[u8]) -> Place
    ensures { result ≡ place_of known.now above reason line.now }
{
    if is_of_text(reason) {
        return place_at(0, Why::Rule(reason));
    }
    fault_place(known, above, reason, line, fault_of(line))
}

// ---- The word that is nearly there.

fn key_or_none(op: Option<Op>) -> &'static [u8]
    ensures { result.now ≡ key_or_none op }
{
    match op {
        None => &[],
        Some(op) => op.key(),
    }
}

// The key that the line's is nearly, where it is none.
fn near_key(line: &[u8], op: Option<Op>) -> &'static [u8]
    ensures { result.now ≡ near_key line.now op }
{
    match op {
        None => key_or_none(nearest_op(key_at(line))),
        Some(_) => &[],
    }
}

// The key that the line's is nearly; none, where the wrong byte is no part of a word.
fn near_form(what: What, line: &[u8]) -> &'static [u8]
    ensures { result.now ≡ near_form what line.now }
{
    match what {
        What::Tab | What::Return | What::Byte => &[],
        _ => near_key(line, op_of(line)),
    }
}

// The declared procedure that is nearly the one that the line starts.
fn near_procedure<'k>(known: &'k Known, line: &[u8]) -> &'k [u8]
    ensures { result.now ≡ near_procedure known.now (phrase_at line.now) }
{
    let Some(phrase) = phrase_at(line) else {
        return &[];
    };
    if let Some(name) = nearest(&known.procs, phrase.procedure) {
        return name;
    }
    if !phrase.op.starts_any() {
        return &[];
    }
    match nearest(&known.natives, phrase.procedure) {
        Some(name) => name,
        None => &[],
    }
}

// The word that the wrong one is nearly, if that is wrong.
#[tactic(auto, unfolding(crate::specs::Remarks::near_of))]
fn near_of<'k>(known: &'k Known, why: Why, line: &[u8]) -> &'k [u8]
    ensures { result.now ≡ near_of known.now why line.now }
{
    match why {
        Why::Form(what) => near_form(what, line),
        Why::Undeclared => near_procedure(known, line),
        _ => &[],
    }
}

// ---- What may stand there.

// The kind of the line, by its key or by the one that this nearly is.
fn likely_op(line: &[u8]) -> Option<Op>
    ensures { result ≡ likely_op line.now }
{
    match op_of(line) {
        Some(op) => Some(op),
        None => nearest_op(key_at(line)),
    }
}

// The kind of line whose form is told.
#[tactic(auto, unfolding(crate::specs::Remarks::form_of))]
fn form_of(reason: Reason, line: &[u8]) -> Option<Op>
    ensures { result ≡ form_of reason line.now }
{
    if is_of_text(reason) {
        return None;
    }
    match reason {
        Reason::Header => Some(Op::Lwp),
        Reason::Pod => Some(Op::Pod),
        _ => likely_op(line),
    }
}

/// What is told of a bad line, in a text that declares these procedures, where a line above declares what it names or none does.
pub fn remark_of<'t>(
    known: &'t Known,
    above: bool,
    line: u32,
    reason: Reason,
    text: &'t [u8],
) -> Remark<'t>
    ensures { result ≡ remark_of known.now above line reason text.now }
{
    let place = place_of(known, above, reason, text);
    Remark {
        line,
        cause: Cause::Bad(reason),
        text,
        place,
        form: form_of(reason, text),
        near: near_of(known, place.why, text),
    }
}
