// A script that grows line by line.
ghost use Rattle.std.specs.Prelude.{◌≡◌, ◌++◌, Some, IfOk, OnOk, option_map, option_to_list};
ghost use Rattle.script_text.specs.Meaning.{after_name, with_text_of, places_of, who_of, from_of, exit_statement, plain_statement, lock_statement, thread_statement, statement_of, with_statement, native_kind};
ghost use Rattle.script_text.specs.declared.script.Stmt.TheVariants as stmt;

use crate::counts::Counts;
use crate::names::NameList;
use crate::{ExitStmt, Names, Native, NativeKind, Post, Proc, Script, Stmt, Who};
use lists::TextList;
use lwp_types::{NoMemory, Sequence};
use script_lines::{Op, Phrase, Role, Whom};
use std::alloc::Global;

/// The script of the lines so far, the procedure to which the next statement goes, and how many lines each client has posted.
pub struct Draft {
    pub script: Script,
    pub current: Option<Proc>,
    pub posted: Counts,
}

// PROVER: written by hand, so that a function that drops a draft calls this instead of repeating its proof.
impl Drop for Draft {
    fn drop(self) {
        let Draft {
            script: _,
            current: _,
            posted: _,
        } = self;
    }
}

/// The places of a line's names in their lists, and of its text in the list of texts.
#[derive(Clone, Copy)]
pub struct Places {
    pub thread: u32,
    pub procedure: u32,
    pub monitor: u32,
    pub condition: u32,
    pub text: u32,
}

// Enters the names of a line, and gives their places and the one that its text will have.
fn name(names: &mut Names, texts: &TextList, phrase: &Phrase<'_>) -> Result<Places, NoMemory>
    ensures entered { OnOk result (names.new ≡ after_name names.old phrase.now) }
    ensures places { IfOk result
        (λ at. at ≡ places_of (after_name names.old phrase.now) texts.now phrase.now) }
{
    let text = texts.len();
    if text > 0xffff_ffff {
        return Err(NoMemory);
    }
    let procedure = names.procs.numbered(phrase.procedure)?;
    let thread = names.threads.numbered(phrase.thread)?;
    let monitor = names.mons.numbered(phrase.monitor)?;
    let condition = names.conds.numbered(phrase.condition)?;
    Ok(Places {
        thread,
        procedure,
        monitor,
        condition,
        text: text as u32,
    })
}

// Enters the text of a line that has one.
fn enter_text(texts: &mut TextList, phrase: &Phrase<'_>) -> Result<(), NoMemory>
    ensures { OnOk result (texts.new ≡ with_text_of texts.old phrase.now) }
{
    if phrase.op.says() {
        texts.push(phrase.text)?;
    }
    Ok(())
}

// Whom a word means, where a name has this number.
fn who_of(whom: Whom, name: u32) -> Who
    ensures { result ≡ who_of whom name }
{
    match whom {
        Whom::Named => Who::Named(name),
        Whom::Me => Who::Me,
        Whom::First => Who::First,
        Whom::Sender => Who::Sender,
        Whom::Nobody | Whom::Any => Who::Nobody,
    }
}

// From whom a word says to receive.
fn from_of(whom: Whom, name: u32) -> Option<Who>
    ensures { result ≡ from_of whom name }
{
    match whom {
        Whom::Any => None,
        _ => Some(who_of(whom, name)),
    }
}

// Whom a line speaks of, whose names have these places.
fn whom(at: Places, phrase: &Phrase<'_>) -> Who
    ensures { result ≡ who_of phrase.now.who at.thread }
{
    who_of(phrase.who, at.thread)
}

// What an exit procedure is to do.
fn exit_statement(at: Places, phrase: &Phrase<'_>) -> Option<ExitStmt>
    ensures { result ≡ exit_statement phrase.now.op at phrase.now }
{
    match phrase.op {
        Op::ExitMonExit => Some(ExitStmt::MonExit { mon: at.monitor }),
        Op::ExitMonBreak => Some(ExitStmt::MonBreak { mon: at.monitor }),
        Op::ExitNotify => Some(ExitStmt::Notify { cond: at.condition }),
        Op::ExitBroadcast => Some(ExitStmt::Broadcast { cond: at.condition }),
        Op::ExitReply => Some(ExitStmt::Reply {
            to: whom(at, phrase),
            text: at.text,
        }),
        Op::ExitResume => Some(ExitStmt::Resume {
            who: whom(at, phrase),
        }),
        Op::ExitSetExit => Some(ExitStmt::SetExit {
            code: phrase.number,
        }),
        Op::ExitNote => Some(ExitStmt::Note { text: at.text }),
        _ => None,
    }
}

// A statement that sets an exit procedure.
#[inline]
fn on_exit(at: Places, phrase: &Phrase<'_>) -> Option<Stmt>
    ensures { result ≡ option_map (λ x. stmt.OnExit x) (exit_statement phrase.now.op at phrase.now) }
{
    match exit_statement(at, phrase) {
        Some(exit) => Some(Stmt::OnExit { exit }),
        None => None,
    }
}

// A statement that names nothing.
fn plain_statement(phrase: &Phrase<'_>) -> Option<Stmt>
    ensures { result ≡ plain_statement phrase.now.op phrase.now }
{
    let number = phrase.number;
    match phrase.op {
        Op::Resched => Some(Stmt::Resched { prio: number }),
        Op::Sleep => Some(Stmt::Sleep { ticks: number }),
        Op::SetMaxPri => Some(Stmt::SetMaxPri { prio: number }),
        Op::Me => Some(Stmt::Me),
        Op::SetExit => Some(Stmt::SetExit { code: number }),
        Op::GetExit => Some(Stmt::GetExit),
        Op::PodExit => Some(Stmt::PodExit { code: number }),
        Op::Threads => Some(Stmt::Threads),
        Op::Senders => Some(Stmt::Senders),
        Op::Receivers => Some(Stmt::Receivers),
        Op::Monitors => Some(Stmt::Monitors),
        Op::Conditions => Some(Stmt::Conds),
        Op::Return => Some(Stmt::Return),
        Op::Handle => Some(Stmt::Handle {
            pattern: phrase.pattern,
            func: phrase.func,
            arg: number,
        }),
        Op::Unhandle => Some(Stmt::Unhandle),
        Op::Raise => Some(Stmt::Raise { pattern: number }),
        Op::ExcNotify => Some(Stmt::ExcNotify { pattern: number }),
        Op::Bound => Some(Stmt::Bound { pattern: number }),
        Op::UniqPatt => Some(Stmt::UniqPatt),
        Op::Agents => Some(Stmt::Agents),
        Op::Trap => Some(Stmt::Trap { event: number }),
        Op::Skip => Some(Stmt::Skip { test: phrase.test }),
        Op::Again => Some(Stmt::Again),
        _ => None,
    }
}

// A statement that names a monitor or a condition.
fn lock_statement(at: Places, phrase: &Phrase<'_>) -> Option<Stmt>
    ensures { result ≡ lock_statement phrase.now.op at phrase.now }
{
    let mon = at.monitor;
    let cond = at.condition;
    match phrase.op {
        Op::MonCreate => Some(Stmt::MonCreate { mon }),
        Op::CvCreate => Some(Stmt::CvCreate { cond, mon }),
        Op::MonDestroy => Some(Stmt::MonDestroy { mon }),
        Op::Enter => Some(Stmt::Enter { mon }),
        Op::CondEnter => Some(Stmt::CondEnter { mon }),
        Op::MonExit => Some(Stmt::MonExit { mon }),
        Op::MonBreak => Some(Stmt::MonBreak { mon }),
        Op::MonWaiters => Some(Stmt::MonWaiters { mon }),
        Op::CvDestroy => Some(Stmt::CvDestroy { cond }),
        Op::Wait => Some(Stmt::Wait { cond }),
        Op::Notify => Some(Stmt::Notify { cond }),
        Op::Broadcast => Some(Stmt::Broadcast { cond }),
        Op::CvSend => Some(Stmt::CvSend {
            cond,
            who: whom(at, phrase),
        }),
        Op::CvWaiters => Some(Stmt::CvWaiters { cond }),
        _ => None,
    }
}

// A statement that speaks of a thread, starts a procedure or has a text.
fn thread_statement(at: Places, phrase: &Phrase<'_>) -> Option<Stmt>
    ensures { result ≡ thread_statement phrase.now.op at phrase.now }
{
    match phrase.op {
        Op::Create => Some(Stmt::Create {
            name: at.thread,
            proc: at.procedure,
            prio: phrase.number,
            flags: phrase.flags,
        }),
        Op::Destroy => Some(Stmt::Destroy {
            who: whom(at, phrase),
        }),
        Op::Ping => Some(Stmt::Ping {
            who: whom(at, phrase),
        }),
        Op::Yield => Some(Stmt::Yield {
            to: whom(at, phrase),
        }),
        Op::Suspend => Some(Stmt::Suspend {
            who: whom(at, phrase),
        }),
        Op::Resume => Some(Stmt::Resume {
            who: whom(at, phrase),
        }),
        Op::Join => Some(Stmt::Join {
            who: whom(at, phrase),
        }),
        Op::SetPri => Some(Stmt::SetPri {
            who: whom(at, phrase),
            prio: phrase.number,
        }),
        Op::Send => Some(Stmt::Send {
            to: whom(at, phrase),
            room: phrase.room,
            text: at.text,
        }),
        Op::Recv => Some(Stmt::Recv {
            from: from_of(phrase.who, at.thread),
            mode: phrase.mode,
        }),
        Op::Reply => Some(Stmt::Reply {
            to: whom(at, phrase),
            text: at.text,
        }),
        Op::Say => Some(Stmt::Say { text: at.text }),
        Op::CallProc => Some(Stmt::CallProc { proc: at.procedure }),
        Op::Agent => Some(Stmt::Agent {
            name: at.thread,
            event: phrase.number,
        }),
        _ => None,
    }
}

// The statement of a line whose names and text have these places.
fn statement_of(at: Places, phrase: &Phrase<'_>) -> Option<Stmt>
    ensures { result ≡ statement_of phrase.now.op at phrase.now }
{
    if let Some(stmt) = thread_statement(at, phrase) {
        return Some(stmt);
    }
    if let Some(stmt) = lock_statement(at, phrase) {
        return Some(stmt);
    }
    if let Some(stmt) = plain_statement(phrase) {
        return Some(stmt);
    }
    on_exit(at, phrase)
}

// Puts a statement at the end of the procedure.
fn grow(current: &mut Option<Proc>, stmt: Option<Stmt>) -> Result<(), NoMemory>
    ensures { OnOk result (current.new ≡ with_statement stmt current.old) }
{
    match (current, stmt) {
        (Some(proc), Some(stmt)) => proc.stmts.push(stmt),
        _ => Ok(()),
    }
}

// Ends the procedure, if there is one.
fn end(procs: &mut Sequence<Proc>, current: Option<Proc>) -> Result<(), NoMemory>
    ensures { OnOk result (procs.new ≡ procs.old ++ option_to_list current) }
{
    match current {
        None => Ok(()),
        Some(done) => procs.push(done),
    }
}

fn native_kind(event: u8, store: u32) -> NativeKind
    ensures { result ≡ native_kind event store }
{
    if event == 0 {
        NativeKind::Store
    } else {
        NativeKind::Session { event, store }
    }
}

impl Draft {
    ghost use Rattle.script_lines.specs.Table.{role_of};
    ghost use Rattle.std.specs.Prelude.{IfOk, IsTrue, length};
    ghost use Rattle.lwp_types.specs.TextFields.{is_text};
    ghost use Rattle.script_lines.specs.Line.{posting, saying};
    ghost use Rattle.script_text.specs.Meaning.{empty_draft, after_add_at, after_add, with_last_procedure, after_name, places_of, with_post, with_text};

    /// No lines.
    pub fn new(alloc: Global) -> Draft
        ensures { result ≡ empty_draft }
    {
        Draft {
            script: Script {
                maxpri: 0,
                births: 4_294_967_295,
                clients: Sequence::new(alloc),
                natives: Sequence::new(alloc),
                procs: Sequence::new(alloc),
                posts: Sequence::new(alloc),
                names: Names {
                    procs: NameList::new(alloc),
                    threads: NameList::new(alloc),
                    mons: NameList::new(alloc),
                    conds: NameList::new(alloc),
                },
                texts: TextList::new(alloc),
            },
            current: None,
            posted: Counts::new(alloc),
        }
    }

    // The next client.
    fn open(&mut self, phrase: &Phrase<'_>, at: Places) -> Result<(), NoMemory>
        ensures { OnOk result (self.new ≡ after_add_at Role.Client at self.old phrase.now) }
    {
        self.script.clients.push(phrase.event)?;
        self.posted.open()
    }

    // The next built-in procedure.
    fn build(&mut self, phrase: &Phrase<'_>, at: Places) -> Result<(), NoMemory>
        ensures { OnOk result (self.new ≡ after_add_at Role.Native at self.old phrase.now) }
    {
        self.script.natives.push(Native {
            name: at.procedure,
            kind: native_kind(phrase.event, at.thread),
        })
    }

    // The next procedure.
    fn begin(&mut self, alloc: Global, phrase: &Phrase<'_>, at: Places) -> Result<(), NoMemory>
        ensures { OnOk result (self.new ≡ after_add_at Role.Proc at self.old phrase.now) }
    {
        let next = Proc {
            name: at.procedure,
            stmts: Sequence::new(alloc),
        };
        end(&mut self.script.procs, self.current.replace(next))
    }

    // One more line of a client, whose text has this place.
    fn post(&mut self, client: u8, text: u32) -> Result<(), NoMemory>
        ensures { OnOk result (self.new ≡ with_post client text self.old) }
    {
        self.script.posts.push(Post {
            client,
            seq: self.posted.get(client, 0),
            text,
        })?;
        self.posted.raise(client)
    }

    // A line whose names and text have been entered.
    fn add_at(&mut self, alloc: Global, phrase: &Phrase<'_>, at: Places) -> Result<(), NoMemory>
        ensures { OnOk result
            (self.new ≡ after_add_at (role_of phrase.now.op) at self.old phrase.now) }
    {
        match phrase.op.role() {
            Role::Header => Ok(()),
            Role::Pod => {
                self.script.maxpri = phrase.number;
                Ok(())
            }
            Role::Limit => {
                self.script.births = u64::from(phrase.number);
                Ok(())
            }
            Role::Client => self.open(phrase, at),
            Role::Native => self.build(phrase, at),
            Role::Proc => self.begin(alloc, phrase, at),
            Role::Post => self.post(phrase.client, at.text),
            Role::Statement | Role::Skip | Role::Again => {
                grow(&mut self.current, statement_of(at, phrase))
            }
        }
    }

    // Enters a text, and gives its place.
    fn enter(&mut self, text: &[u8]) -> Result<u32, NoMemory>
        requires { IsTrue (is_text text.now) }
        ensures entered { OnOk result (self.new ≡ with_text self.old text.now) }
        ensures place { IfOk result (λ n. n ≡ length self.old.script.texts) }
    {
        let place = self.script.texts.len();
        if place > 0xffff_ffff {
            return Err(NoMemory);
        }
        self.script.texts.push(text)?;
        Ok(place as u32)
    }

    /// One more line, which says this text.
    #[tactic(auto, using(crate::proofs::SpokenLaws::added_said))]
    pub fn say(&mut self, text: &[u8]) -> Result<(), NoMemory>
        requires { IsTrue (is_text text.now) }
        ensures { OnOk result (self.new ≡ after_add self.old (saying text.now)) }
    {
        let place = self.enter(text)?;
        grow(&mut self.current, Some(Stmt::Say { text: place }))
    }

    /// One more line, by which a client posts this text.
    #[tactic(auto, using(crate::proofs::SpokenLaws::added_posted))]
    pub fn post_text(&mut self, client: u8, text: &[u8]) -> Result<(), NoMemory>
        requires { IsTrue (is_text text.now) }
        ensures { OnOk result (self.new ≡ after_add self.old (posting client text.now)) }
    {
        let place = self.enter(text)?;
        self.post(client, place)
    }

    /// Adds one more line, and gives the places of its names and its text.
    pub fn add(&mut self, alloc: Global, phrase: &Phrase<'_>) -> Result<Places, NoMemory>
        ensures draft { OnOk result (self.new ≡ after_add self.old phrase.now) }
        ensures places { IfOk result
            (λ at.
            at
            ≡ places_of (after_name self.old.script.names phrase.now) self.old.script.texts
            phrase.now) }
    {
        let at = name(&mut self.script.names, &self.script.texts, phrase)?;
        enter_text(&mut self.script.texts, phrase)?;
        self.add_at(alloc, phrase, at)?;
        Ok(at)
    }

    /// The script.
    pub fn close(self) -> Result<Script, NoMemory>
        ensures { IfOk result (λ s. s ≡ with_last_procedure self) }
    {
        let Draft {
            mut script,
            current,
            posted: _,
        } = self;
        end(&mut script.procs, current)?;
        Ok(script)
    }
}
