// A script to bytes: each line by its row of the table.
ghost use Rattle.std.specs.Prelude.{◌≡◌, ◌++◌, [], IfOk, OnOk, codes, map};
ghost use Rattle.std.specs.Fmt.{decimal};
ghost use Rattle.std.specs.List.{flat_map};
ghost use Rattle.script_lines.specs.Line.{phrase_text, with_newline};
ghost use Rattle.script_text.specs.Grammar.{spelling};
ghost use Rattle.script_printer.specs.Printing.{with_who, with_source, exit_line, plain_line, lock_line, stmt_line, limit_lines, client_line, client_lines, native_line, proc_lines, post_line, text_of_script};
ghost use Rattle.script_text.specs.Track.{name_at};

use crate::line_text::add_line;
use crate::lines::{
    agent_line, cond_line, create_line, cv_create_line, handle_line, mon_line, number_line,
    proc_line, receive_line, send_line, skip_line, text_line, with_session, with_whom,
};
use lists::TextList;
use lwp_types::NoMemory;
use script_lines::{Op, Phrase, Whom, blank};
use script_text::{ExitStmt, NameList, Names, Native, NativeKind, Post, Proc, Script, Stmt, Who};
use std::alloc::Global;
use trace_text::{add_number, add_text};

// ---- Statements.

fn name_at(names: &NameList, number: u32) -> &[u8]
    ensures { result.now ≡ name_at names.now number }
{
    names.bytes(number as usize)
}

// A line with whom a statement speaks of.
fn with_who<'s>(names: &'s Names, who: Who, line: Phrase<'s>) -> Phrase<'s>
    ensures { result ≡ with_who names.now who line.entry }
{
    match who {
        Who::Named(number) => with_whom(Whom::Named, name_at(&names.threads, number), line),
        Who::Me => with_whom(Whom::Me, &[], line),
        Who::First => with_whom(Whom::First, &[], line),
        Who::Sender => with_whom(Whom::Sender, &[], line),
        Who::Nobody => with_whom(Whom::Nobody, &[], line),
    }
}

// A line with from whom to receive.
fn with_source<'s>(names: &'s Names, from: Option<Who>, line: Phrase<'s>) -> Phrase<'s>
    ensures { result ≡ with_source names.now from line.entry }
{
    match from {
        None => with_whom(Whom::Any, &[], line),
        Some(who) => with_who(names, who, line),
    }
}

fn exit_line<'s>(names: &'s Names, texts: &'s TextList, exit: ExitStmt) -> Phrase<'s>
    ensures { result ≡ exit_line names.now texts.now exit }
{
    match exit {
        ExitStmt::MonExit { mon } => mon_line(Op::ExitMonExit, name_at(&names.mons, mon)),
        ExitStmt::MonBreak { mon } => mon_line(Op::ExitMonBreak, name_at(&names.mons, mon)),
        ExitStmt::Notify { cond } => cond_line(Op::ExitNotify, name_at(&names.conds, cond)),
        ExitStmt::Broadcast { cond } => cond_line(Op::ExitBroadcast, name_at(&names.conds, cond)),
        ExitStmt::Reply { to, text } => {
            with_who(
                names,
                to,
                text_line(Op::ExitReply, texts.bytes(text as usize)),
            )
        }
        ExitStmt::Resume { who } => with_who(names, who, blank(Op::ExitResume)),
        ExitStmt::SetExit { code } => number_line(Op::ExitSetExit, code),
        ExitStmt::Note { text } => text_line(Op::ExitNote, texts.bytes(text as usize)),
    }
}

// A statement that names nothing, or one that sets an exit procedure.
fn plain_line<'s>(names: &'s Names, texts: &'s TextList, stmt: Stmt) -> Phrase<'s>
    ensures { result ≡ plain_line names.now texts.now stmt }
{
    match stmt {
        Stmt::Resched { prio } => number_line(Op::Resched, prio),
        Stmt::Sleep { ticks } => number_line(Op::Sleep, ticks),
        Stmt::SetMaxPri { prio } => number_line(Op::SetMaxPri, prio),
        Stmt::Me => blank(Op::Me),
        Stmt::SetExit { code } => number_line(Op::SetExit, code),
        Stmt::GetExit => blank(Op::GetExit),
        Stmt::PodExit { code } => number_line(Op::PodExit, code),
        Stmt::Threads => blank(Op::Threads),
        Stmt::Senders => blank(Op::Senders),
        Stmt::Receivers => blank(Op::Receivers),
        Stmt::Monitors => blank(Op::Monitors),
        Stmt::Conds => blank(Op::Conditions),
        Stmt::Return => blank(Op::Return),
        Stmt::Handle { pattern, func, arg } => handle_line(pattern, func, arg),
        Stmt::Unhandle => blank(Op::Unhandle),
        Stmt::Raise { pattern } => number_line(Op::Raise, pattern),
        Stmt::ExcNotify { pattern } => number_line(Op::ExcNotify, pattern),
        Stmt::Bound { pattern } => number_line(Op::Bound, pattern),
        Stmt::UniqPatt => blank(Op::UniqPatt),
        Stmt::OnExit { exit } => exit_line(names, texts, exit),
        Stmt::Agents => blank(Op::Agents),
        Stmt::Trap { event } => number_line(Op::Trap, event),
        Stmt::Say { text } => text_line(Op::Say, texts.bytes(text as usize)),
        Stmt::Skip { test } => skip_line(test),
        _ => blank(Op::Again),
    }
}

// A statement of `plain_line`, or one that names a monitor or a condition.
fn lock_line<'s>(names: &'s Names, texts: &'s TextList, stmt: Stmt) -> Phrase<'s>
    ensures { result ≡ lock_line names.now texts.now stmt }
{
    match stmt {
        Stmt::MonCreate { mon } => mon_line(Op::MonCreate, name_at(&names.mons, mon)),
        Stmt::CvCreate { cond, mon } => cv_create_line(
            name_at(&names.conds, cond),
            name_at(&names.mons, mon),
        ),
        Stmt::MonDestroy { mon } => mon_line(Op::MonDestroy, name_at(&names.mons, mon)),
        Stmt::Enter { mon } => mon_line(Op::Enter, name_at(&names.mons, mon)),
        Stmt::CondEnter { mon } => mon_line(Op::CondEnter, name_at(&names.mons, mon)),
        Stmt::MonExit { mon } => mon_line(Op::MonExit, name_at(&names.mons, mon)),
        Stmt::MonBreak { mon } => mon_line(Op::MonBreak, name_at(&names.mons, mon)),
        Stmt::MonWaiters { mon } => mon_line(Op::MonWaiters, name_at(&names.mons, mon)),
        Stmt::CvDestroy { cond } => cond_line(Op::CvDestroy, name_at(&names.conds, cond)),
        Stmt::Wait { cond } => cond_line(Op::Wait, name_at(&names.conds, cond)),
        Stmt::Notify { cond } => cond_line(Op::Notify, name_at(&names.conds, cond)),
        Stmt::Broadcast { cond } => cond_line(Op::Broadcast, name_at(&names.conds, cond)),
        Stmt::CvSend { cond, who } => {
            let line = cond_line(Op::CvSend, name_at(&names.conds, cond));
            with_who(names, who, line)
        }
        Stmt::CvWaiters { cond } => cond_line(Op::CvWaiters, name_at(&names.conds, cond)),
        _ => plain_line(names, texts, stmt),
    }
}

// The line of a statement.
fn stmt_line<'s>(names: &'s Names, texts: &'s TextList, stmt: Stmt) -> Phrase<'s>
    ensures { result ≡ stmt_line names.now texts.now stmt }
{
    match stmt {
        Stmt::Create {
            name,
            proc,
            prio,
            flags,
        } => create_line(
            name_at(&names.threads, name),
            name_at(&names.procs, proc),
            prio,
            flags,
        ),
        Stmt::Destroy { who } => with_who(names, who, blank(Op::Destroy)),
        Stmt::Ping { who } => with_who(names, who, blank(Op::Ping)),
        Stmt::Yield { to } => with_who(names, to, blank(Op::Yield)),
        Stmt::Suspend { who } => with_who(names, who, blank(Op::Suspend)),
        Stmt::Resume { who } => with_who(names, who, blank(Op::Resume)),
        Stmt::Join { who } => with_who(names, who, blank(Op::Join)),
        Stmt::SetPri { who, prio } => with_who(names, who, number_line(Op::SetPri, prio)),
        Stmt::Send { to, room, text } => with_who(
            names,
            to,
            send_line(room, texts.bytes(text as usize)),
        ),
        Stmt::Recv { from, mode } => with_source(names, from, receive_line(mode)),
        Stmt::Reply { to, text } => {
            with_who(names, to, text_line(Op::Reply, texts.bytes(text as usize)))
        }
        Stmt::CallProc { proc } => proc_line(Op::CallProc, name_at(&names.procs, proc)),
        Stmt::Agent { name, event } => agent_line(name_at(&names.threads, name), event),
        _ => lock_line(names, texts, stmt),
    }
}

// ---- The sections of a script.

fn add_limit_line(out: &mut Vec<u8>, births: u64) -> Result<(), NoMemory>
    ensures { OnOk result
        (out.new.items ≡ out.old.items ++ (codes "limit births " ++ (decimal births ++ codes "\n"))) }
{
    add_text(out, b"limit births ")?;
    add_number(out, births)?;
    add_text(out, b"\n")
}

#[tactic(auto, using(crate::proofs::SectionLaws::limit_none, crate::proofs::SectionLaws::limit_some))]
fn add_limit(out: &mut Vec<u8>, births: u64) -> Result<(), NoMemory>
    ensures { OnOk result (out.new.items ≡ out.old.items ++ spelling (limit_lines births)) }
{
    if births == 4_294_967_295 {
        Ok(())
    } else {
        add_limit_line(out, births)
    }
}

// A client and its event.
#[tactic(auto, unfolding(script_lines::specs::Table::row_of))]
fn add_client(out: &mut Vec<u8>, client: u64, event: u8) -> Result<(), NoMemory>
    ensures { OnOk result
        (out.new.items ≡ out.old.items ++ with_newline (phrase_text (client_line client event))) }
{
    add_text(out, b"client ")?;
    add_number(out, client)?;
    add_text(out, b" ")?;
    add_number(out, u64::from(event))?;
    add_text(out, b"\n")
}

fn add_clients(out: &mut Vec<u8>, events: &[u8]) -> Result<(), NoMemory>
    ensures { OnOk result (out.new.items ≡ out.old.items ++ spelling (client_lines 0 events.now)) }
{
    for (client, event) in events.iter().enumerate() {
        add_client(out, client as u64, *event)?;
    }
    Ok(())
}

fn native_line<'s>(names: &'s Names, native: Native) -> Phrase<'s>
    ensures { result ≡ native_line names.now native }
{
    let line = proc_line(Op::Native, name_at(&names.procs, native.name));
    match native.kind {
        NativeKind::Store => line,
        NativeKind::Session { event, store } => {
            with_session(event, name_at(&names.threads, store), line)
        }
    }
}

fn add_natives(out: &mut Vec<u8>, names: &Names, natives: &[Native]) -> Result<(), NoMemory>
    ensures { OnOk result
        (out.new.items ≡ out.old.items ++ spelling (map (native_line names.now) natives.now)) }
{
    for native in natives {
        add_line(out, &native_line(names, *native))?;
    }
    Ok(())
}

fn add_statements(
    out: &mut Vec<u8>,
    names: &Names,
    texts: &TextList,
    stmts: &[Stmt],
) -> Result<(), NoMemory>
    ensures { OnOk result
        (out.new.items ≡ out.old.items ++ spelling (map (stmt_line names.now texts.now) stmts.now)) }
{
    for stmt in stmts {
        add_line(out, &stmt_line(names, texts, *stmt))?;
    }
    Ok(())
}

#[tactic(auto, unfolding(script_lines::specs::Table::row_of))]
fn add_procs(
    out: &mut Vec<u8>,
    names: &Names,
    texts: &TextList,
    procs: &[Proc],
) -> Result<(), NoMemory>
    ensures { OnOk result
        (out.new.items
        ≡ out.old.items ++ spelling (flat_map (proc_lines names.now texts.now) procs.now)) }
{
    for proc in procs {
        let line = proc_line(Op::Proc, name_at(&names.procs, proc.name));
        add_line(out, &line)?;
        add_statements(out, names, texts, proc.stmts.as_slice())?;
    }
    Ok(())
}

fn post_line<'s>(texts: &'s TextList, post: Post) -> Phrase<'s>
    ensures { result ≡ post_line texts.now post }
{
    crate::lines::post_line(post.client, texts.bytes(post.text as usize))
}

fn add_posts(out: &mut Vec<u8>, texts: &TextList, posts: &[Post]) -> Result<(), NoMemory>
    ensures { OnOk result
        (out.new.items ≡ out.old.items ++ spelling (map (post_line texts.now) posts.now)) }
{
    for post in posts {
        add_line(out, &post_line(texts, *post))?;
    }
    Ok(())
}

/// The text of a script. Where some text spells the script, this one does too, so it is read as it was.
#[tactic(auto, unfolding(crate::specs::Printing::text_of_script))]
pub fn print_script(alloc: Global, s: &Script) -> Result<Vec<u8>, NoMemory>
    ensures { IfOk result (λ text. text.items ≡ text_of_script s.now) }
{
    let mut out = Vec::new(alloc);
    add_line(&mut out, &number_line(Op::Lwp, 1))?;
    add_line(&mut out, &number_line(Op::Pod, s.maxpri))?;
    add_limit(&mut out, s.births)?;
    add_clients(&mut out, s.clients.as_slice())?;
    add_natives(&mut out, &s.names, s.natives.as_slice())?;
    add_procs(&mut out, &s.names, &s.texts, s.procs.as_slice())?;
    add_posts(&mut out, &s.texts, s.posts.as_slice())?;
    Ok(out)
}
