// The phrases of a script that is printed.
ghost use Rattle.std.specs.Prelude.{◌≡◌, IsTrue};
ghost use Rattle.lwp_types.specs.TextFields.{is_text};
ghost use Rattle.script_printer.specs.Building.{number_line, proc_line, mon_line, cond_line, text_line, with_whom, with_session, handle_line, skip_line, cv_create_line, create_line, agent_line, send_line, receive_line, post_line};

use lwp_types::{Flags, Func, Mode, Pattern};
use script_lines::{Op, Phrase, Test, Whom, blank};

// ---- Lines of one slot.

/// A line whose slot is this number.
pub(crate) fn number_line<'s>(op: Op, number: u32) -> Phrase<'s>
    ensures { result ≡ number_line op number }
{
    let mut line = blank(op);
    line.number = number;
    line
}

/// A line that names this procedure.
pub(crate) fn proc_line(op: Op, name: &[u8]) -> Phrase<'_>
    ensures { result ≡ proc_line op name.now }
{
    let mut line = blank(op);
    line.procedure = name;
    line
}

/// A line that names this monitor.
pub(crate) fn mon_line(op: Op, name: &[u8]) -> Phrase<'_>
    ensures { result ≡ mon_line op name.now }
{
    let mut line = blank(op);
    line.monitor = name;
    line
}

/// A line that names this condition.
pub(crate) fn cond_line(op: Op, name: &[u8]) -> Phrase<'_>
    ensures { result ≡ cond_line op name.now }
{
    let mut line = blank(op);
    line.condition = name;
    line
}

/// A line that ends with this text.
pub(crate) fn text_line(op: Op, text: &[u8]) -> Phrase<'_>
    requires { IsTrue (is_text text.now) }
    ensures { result ≡ text_line op text.now }
{
    let mut line = blank(op);
    line.text = text;
    line
}

/// A line with this word for a thread.
pub(crate) fn with_whom<'s>(whom: Whom, name: &'s [u8], line: Phrase<'s>) -> Phrase<'s>
    ensures { result ≡ with_whom whom name.now line.entry }
{
    let mut line = line;
    line.who = whom;
    line.thread = name;
    line
}

/// A line with the event and the store of a session.
pub(crate) fn with_session<'s>(event: u8, store: &'s [u8], line: Phrase<'s>) -> Phrase<'s>
    ensures { result ≡ with_session event store.now line.entry }
{
    let mut line = line;
    line.event = event;
    line.thread = store;
    line
}

// ---- Lines of several.

/// A handler of these exceptions.
pub(crate) fn handle_line<'s>(pattern: Pattern, func: Func, arg: u32) -> Phrase<'s>
    ensures { result ≡ handle_line pattern func arg }
{
    let mut line = blank(Op::Handle);
    line.pattern = pattern;
    line.func = func;
    line.number = arg;
    line
}

/// A line that passes over the next one.
pub(crate) fn skip_line<'s>(test: Test) -> Phrase<'s>
    ensures { result ≡ skip_line test }
{
    let mut line = blank(Op::Skip);
    line.test = test;
    line
}

/// A new condition of a monitor.
pub(crate) fn cv_create_line<'s>(cond: &'s [u8], mon: &'s [u8]) -> Phrase<'s>
    ensures { result ≡ cv_create_line cond.now mon.now }
{
    let mut line = blank(Op::CvCreate);
    line.condition = cond;
    line.monitor = mon;
    line
}

/// A new thread.
pub(crate) fn create_line<'s>(
    name: &'s [u8],
    procedure: &'s [u8],
    prio: u32,
    flags: Flags,
) -> Phrase<'s>
    ensures { result ≡ create_line name.now procedure.now prio flags }
{
    let mut line = blank(Op::Create);
    line.thread = name;
    line.procedure = procedure;
    line.number = prio;
    line.flags = flags;
    line
}

/// A new agent.
pub(crate) fn agent_line(name: &[u8], event: u32) -> Phrase<'_>
    ensures { result ≡ agent_line name.now event }
{
    let mut line = blank(Op::Agent);
    line.thread = name;
    line.number = event;
    line
}

/// A letter, but for whom.
pub(crate) fn send_line(room: u8, text: &[u8]) -> Phrase<'_>
    requires { IsTrue (is_text text.now) }
    ensures { result ≡ send_line room text.now }
{
    let mut line = blank(Op::Send);
    line.room = room;
    line.text = text;
    line
}

/// Waiting for a letter, or not; but for from whom.
pub(crate) fn receive_line<'s>(mode: Mode) -> Phrase<'s>
    ensures { result ≡ receive_line mode }
{
    let mut line = blank(Op::Recv);
    line.mode = mode;
    line
}

/// A line that a client posts.
pub(crate) fn post_line(client: u8, text: &[u8]) -> Phrase<'_>
    requires { IsTrue (is_text text.now) }
    ensures { result ≡ post_line client text.now }
{
    let mut line = blank(Op::Post);
    line.client = client;
    line.text = text;
    line
}
