// A reader that takes one line after another.
ghost use Rattle.std.specs.Prelude.{◌≡◌, ◌++◌, OnOk, option_map, Some};
ghost use Rattle.lwp_types.specs.TextFields.{is_printable};
ghost use Rattle.script_lines.specs.Phrase.{Phrase as AnyPhrase};
ghost use Rattle.script_lines.specs.Table.{role_of};
ghost use Rattle.script_lines.specs.Reading.{phrase_at};
ghost use Rattle.script_text.specs.Declaring.{only_name, spaced_word, proc_on, native_on};
ghost use Rattle.script_text.specs.Grammar.{has, keeps_rule, may_stand_at};
ghost use Rattle.script_text.specs.Spelling.{Gives, word_reason, reason_behind, reason_of, after_note, whole};
ghost use Rattle.script_text.specs.Meaning.{enter, with_last_procedure};
ghost use Rattle.script_text.specs.Track.{first_missing, mention_of, name_at};

use crate::Script;
use crate::counts::Counts;
use crate::draft::Draft;
use crate::names::NameList;
use crate::reason::{ReadErr, Reason};
use crate::stage::Stage;
use lwp_types::{NoMemory, Sequence};
use script_lines::{Phrase, Role, is_name, is_printable, phrase_at, posted_at, reach, said_at};
use std::alloc::Global;

/// A line that starts a procedure, the number of the procedure's name, and whether a built-in one will do.
#[derive(Clone, Copy)]
pub struct Mention {
    pub line: u32,
    pub name: u32,
    pub any: bool,
}

/// The names of the procedures that the lines so far declare: those of statements, and the built-in ones.
pub struct Declared {
    pub procs: NameList,
    pub natives: NameList,
}

// PROVER: written by hand, so that a function that drops these calls this instead of repeating its proof.
impl Drop for Declared {
    fn drop(self) {
        let Declared {
            procs: _,
            natives: _,
        } = self;
    }
}

/// What is known of the lines so far. Those up to the first that is bad by itself stand in the draft; that one starts an
/// undeclared procedure shows at the end only.
pub struct Reader {
    pub count: u32,
    pub stage: Stage,
    pub bad: Option<Reason>,
    pub declared: Declared,
    pub mentions: Sequence<Mention>,
    pub draft: Draft,
}

// PROVER: written by hand, so that a function that drops a reader calls this instead of repeating its proof.
impl Drop for Reader {
    fn drop(self) {
        let Reader {
            count: _,
            stage: _,
            bad: _,
            declared: _,
            mentions: _,
            draft: _,
        } = self;
    }
}

// The reason that the first word alone decides.
fn word_reason(word: &[u8]) -> Option<Reason>
    ensures { result ≡ word_reason word.now }
{
    if word == b"limit".as_slice() {
        Some(Reason::Limit)
    } else if word == b"client".as_slice() {
        Some(Reason::Client)
    } else if word == b"native".as_slice() {
        Some(Reason::Native)
    } else if word == b"proc".as_slice() {
        Some(Reason::Proc)
    } else if word == b"post".as_slice() {
        Some(Reason::Post)
    } else {
        None
    }
}

fn reason_behind(stage: Stage, word: Option<Reason>, said: Option<Role>) -> Reason
    ensures { result ≡ reason_behind stage word said }
{
    match (stage, word, said) {
        (Stage::Start, _, _) => Reason::Header,
        (Stage::Header, _, _) => Reason::Pod,
        (_, Some(why), _) => why,
        (_, None, Some(role)) if stage.breaks_again(role) => Reason::Again,
        _ => Reason::Statement,
    }
}

// The word if it is a name, and else the empty one.
fn only_name(word: &[u8]) -> &[u8]
    ensures { result.now ≡ only_name word.now }
{
    if is_name(word) { word } else { &[] }
}

// The procedure of statements that a line declares, or the empty word.
fn proc_on(line: &[u8]) -> &[u8]
    ensures { result.now ≡ proc_on line.now }
{
    match line {
        [b'p', b'r', b'o', b'c', b' ', name @ ..] => only_name(name),
        _ => &[],
    }
}

// The first word, if a space follows it.
fn spaced_word(words: &[u8]) -> &[u8]
    ensures { result.now ≡ spaced_word words.now }
{
    let (word, rest) = words.split_at(reach(b' ', words));
    if rest.is_empty() { &[] } else { word }
}

// The built-in procedure that a line declares, or the empty word.
fn native_on(line: &[u8]) -> &[u8]
    ensures { result.now ≡ native_on line.now }
{
    match line {
        [b'n', b'a', b't', b'i', b'v', b'e', b' ', words @ ..] => only_name(spaced_word(words)),
        _ => &[],
    }
}

impl Declared {
    /// Whether the procedure is declared, as one of statements or, if that will do, as any.
    pub fn has(&self, any: bool, name: &[u8]) -> bool
        ensures { result ≡ has self.now any name.now }
    {
        self.procs.contains(name) || (any && self.natives.contains(name))
    }

    // Notes the procedure of statements that a line declares.
    #[inline(never)]
    fn note_proc(&mut self, line: &[u8]) -> Result<(), NoMemory>
        ensures { OnOk result
            (self.new ≡ record self.old { procs = enter self.old.procs (proc_on line.now) }) }
    {
        self.procs.enter(proc_on(line))
    }

    // Notes the built-in procedure that a line declares.
    #[inline(never)]
    fn note_native(&mut self, line: &[u8]) -> Result<(), NoMemory>
        ensures { OnOk result
            (self.new ≡ record self.old { natives = enter self.old.natives (native_on line.now) }) }
    {
        self.natives.enter(native_on(line))
    }

    /// Notes what a line declares.
    #[inline(always)]
    pub fn note(&mut self, line: &[u8]) -> Result<(), NoMemory>
        ensures { OnOk result (self.new ≡ after_note self.old line.now) }
    {
        match line {
            [b'p', ..] => self.note_proc(line),
            [b'n', ..] => self.note_native(line),
            _ => Ok(()),
        }
    }
}

fn keeps_rule(declared: &Declared, posted: &Counts, role: Role, phrase: &Phrase<'_>) -> bool
    ensures { result ≡ keeps_rule declared.now posted.now role phrase.now }
{
    match role {
        Role::Header => phrase.number == 1,
        Role::Pod => 1 <= phrase.number && phrase.number <= 255,
        Role::Limit => 1 <= phrase.number,
        Role::Client => usize::from(phrase.client) == posted.len(),
        Role::Native | Role::Proc => !declared.has(true, phrase.procedure),
        Role::Post => posted.get(phrase.client, 20_000) < 20_000,
        Role::Statement | Role::Skip | Role::Again => true,
    }
}

fn may_stand_at(stage: Stage, declared: &Declared, posted: &Counts, phrase: &Phrase<'_>) -> bool
    ensures { result ≡ may_stand_at stage declared.now posted.now phrase.now }
{
    let role = phrase.op.role();
    stage.allows(role) && keeps_rule(declared, posted, role, phrase)
}

// Whether the procedure that a line mentions is declared.
fn is_known(declared: &Declared, names: &NameList, mention: &Mention) -> bool
    ensures { result ≡ has declared.now mention.now.any (name_at names.now mention.now.name) }
{
    declared.has(mention.any, names.bytes(mention.name as usize))
}

// The line of the first mention of a procedure that isn't declared.
fn first_missing(declared: &Declared, names: &NameList, mentions: &[Mention]) -> Option<u32>
    ensures { result ≡ first_missing declared.now names.now mentions.now }
{
    for mention in mentions {
        if !is_known(declared, names, mention) {
            return Some(mention.line);
        }
    }
    None
}

// The script of a draft all of whose lines are good. `line` is the number of the next one.
fn close_at(line: u32, draft: Draft) -> Result<Script, ReadErr>
    ensures { Gives (whole line (with_last_procedure draft)) result }
{
    let script = draft.close()?;
    if script.procs.len() == 0 {
        return Err(ReadErr::Bad {
            line,
            reason: Reason::Missing,
        });
    }
    Ok(script)
}

impl Reader {
    ghost use Rattle.std.specs.Prelude.{◌+◌, ◌&&◌, Err, None, IfSome, IfNone, IfOk, IfErr, IsTrue, nat_lt, slice_index_or};
    ghost use Rattle.lwp_types.specs.TextFields.{is_text};
    ghost use Rattle.script_lines.specs.Line.{posting, saying};
    ghost use Rattle.script_text.specs.Grammar.{follows};
    ghost use Rattle.script_text.specs.Meaning.{place_of, with_last_procedure};
    ghost use Rattle.script_text.specs.Spelling.{Gives, whole};
    ghost use Rattle.script_text.specs.Track.{start, after_take, judge_alone, after_verdict, after_judge, step, answer, answer_at};

    /// Nothing read.
    pub fn new(alloc: Global) -> Reader
        ensures { result ≡ start }
    {
        Reader {
            count: 0,
            stage: Stage::Start,
            bad: None,
            declared: Declared {
                procs: NameList::new(alloc),
                natives: NameList::new(alloc),
            },
            mentions: Sequence::new(alloc),
            draft: Draft::new(alloc),
        }
    }

    // The procedure that a line starts, by the number of its name.
    fn mention(&mut self, phrase: &Phrase<'_>, name: u32) -> Result<(), NoMemory>
        requires { name ≡ place_of self.old.draft.script.names.procs phrase.now.procedure }
        ensures { OnOk result
            (self.new
            ≡ record self.old {
              mentions = self.old.mentions
                  ++ mention_of self.old.count self.old.draft.script.names.procs phrase.now;
            }) }
    {
        if phrase.op.starts() {
            self.mentions.push(Mention {
                line: self.count,
                name,
                any: phrase.op.starts_any(),
            })?;
        }
        Ok(())
    }

    // One more line that may stand. No text that isn't too large has more lines than a `u32` counts.
    fn take(&mut self, alloc: Global, phrase: &Phrase<'_>) -> Result<(), NoMemory>
        ensures { OnOk result (self.new ≡ after_take self.old phrase.now) }
    {
        let Some(count) = self.count.checked_add(1) else {
            return Err(NoMemory);
        };
        let at = self.draft.add(alloc, phrase)?;
        self.count = count;
        self.stage = self.stage.after(phrase.op.role());
        self.mention(phrase, at.procedure)
    }

    // The reason of a line that is bad here, and says this.
    fn blame(&mut self, line: &[u8], said: Option<Role>)
        requires { said ≡ option_map (λ (p : AnyPhrase). role_of p.op) (phrase_at line.now) }
        ensures { self.new ≡ record self.old { bad = Some (reason_of self.old.stage line.now) } }
    {
        let (word, _) = line.split_at(reach(b' ', line));
        self.bad = Some(reason_behind(self.stage, word_reason(word), said));
    }

    // The reason of a line that says nothing.
    fn blame_unsaid(&mut self, line: &[u8])
        requires { phrase_at line.now ≡ None }
        ensures { self.new
            ≡ after_verdict self.old
            (judge_alone self.old.stage self.old.declared self.old.draft.posted line.now) }
    {
        if is_printable(line) {
            self.blame(line, None);
        } else {
            self.bad = Some(Reason::Bytes);
        }
    }

    // One more line, which says this text and may stand.
    #[tactic(auto, using(crate::proofs::SpokenLaws::taken_said))]
    fn say(&mut self, text: &[u8]) -> Result<(), NoMemory>
        requires { IsTrue (is_text text.now) }
        ensures { OnOk result (self.new ≡ after_take self.old (saying text.now)) }
    {
        let Some(count) = self.count.checked_add(1) else {
            return Err(NoMemory);
        };
        self.draft.say(text)?;
        self.count = count;
        self.stage = self.stage.after(Role::Statement);
        Ok(())
    }

    // One more line, by which a client posts this text, and which may stand.
    #[tactic(auto, using(crate::proofs::SpokenLaws::taken_posted))]
    fn post(&mut self, client: u8, text: &[u8]) -> Result<(), NoMemory>
        requires { IsTrue (is_text text.now) }
        ensures { OnOk result (self.new ≡ after_take self.old (posting client text.now)) }
    {
        let Some(count) = self.count.checked_add(1) else {
            return Err(NoMemory);
        };
        self.draft.post_text(client, text)?;
        self.count = count;
        self.stage = self.stage.after(Role::Post);
        Ok(())
    }

    // Whether one more line of this client may stand.
    fn may_post(&self, client: u8) -> bool
        ensures { result
            ≡ (follows self.now.stage Role.Post && nat_lt
            (slice_index_or self.now.draft.posted client 20000) 20000) }
    {
        self.stage.allows(Role::Post) && self.draft.posted.get(client, 20_000) < 20_000
    }

    // One more line, where none before is bad. Those that say or post a text are taken at once.
    #[inline(never)]
    fn judge_next(&mut self, alloc: Global, line: &[u8]) -> Result<(), NoMemory>
        requires { self.old.bad ≡ None }
        ensures { OnOk result (self.new ≡ after_judge None self.old line.now) }
    {
        if let Some(text) = said_at(line) {
            if self.stage.allows(Role::Statement) {
                return self.say(text);
            }
        }
        if let Some((client, text)) = posted_at(line) {
            if self.may_post(client) {
                return self.post(client, text);
            }
        }
        self.judge_by_table(alloc, line)
    }

    // One more line, where none before is bad, whatever it says.
    #[inline(never)]
    fn judge_by_table(&mut self, alloc: Global, line: &[u8]) -> Result<(), NoMemory>
        requires { self.old.bad ≡ None }
        ensures { OnOk result (self.new ≡ after_judge None self.old line.now) }
    {
        match phrase_at(line) {
            Some(phrase) => {
                if may_stand_at(self.stage, &self.declared, &self.draft.posted, &phrase) {
                    return self.take(alloc, &phrase);
                }
                self.blame(line, Some(phrase.op.role()));
            }
            None => self.blame_unsaid(line),
        }
        Ok(())
    }

    // One more line, which is judged unless an earlier one is bad.
    #[inline(always)]
    fn judge(&mut self, alloc: Global, line: &[u8]) -> Result<(), NoMemory>
        ensures { OnOk result (self.new ≡ after_judge self.old.bad self.old line.now) }
    {
        match self.bad {
            Some(_) => Ok(()),
            None => self.judge_next(alloc, line),
        }
    }

    /// One more line, which has ended.
    #[inline(always)]
    pub fn line(&mut self, alloc: Global, line: &[u8]) -> Result<(), NoMemory>
        ensures { OnOk result (self.new ≡ step self.old line.now) }
    {
        self.judge(alloc, line)?;
        self.declared.note(line)
    }

    // The first bad line of those that have ended, or `line`, the next one, if it isn't empty.
    fn fault(&self, line: u32, tail: &[u8]) -> Option<(u32, Reason)>
        requires { line ≡ self.now.count + 1 }
        ensures some { IfSome result (λ x. answer self.now tail.now ≡ Err x) }
        ensures none { IfNone result
            (answer self.now tail.now
            ≡ whole (self.now.count + 1) (with_last_procedure self.now.draft)) }
    {
        let names = &self.draft.script.names.procs;
        if let Some(missing) = first_missing(&self.declared, names, self.mentions.as_slice()) {
            return Some((missing, Reason::Statement));
        }
        if let Some(reason) = self.bad {
            return Some((line, reason));
        }
        if tail.is_empty() {
            None
        } else {
            Some((line, Reason::Unended))
        }
    }

    // Notes what the tail declares. Gives the number of its line, if no line is bad.
    fn end(&mut self, tail: &[u8]) -> Result<u32, ReadErr>
        ensures draft { self.new.draft ≡ self.old.draft }
        ensures ok { IfOk result
            (λ line. answer_at self.old tail.now ≡ whole line (with_last_procedure self.old.draft)) }
        ensures err { IfErr result (λ err. Gives (answer_at self.old tail.now) (Err err)) }
    {
        self.declared.note(tail)?;
        let Some(line) = self.count.checked_add(1) else {
            return Err(ReadErr::NoMemory);
        };
        match self.fault(line, tail) {
            Some((line, reason)) => Err(ReadErr::Bad { line, reason }),
            None => Ok(line),
        }
    }

    // What has been read, alone.
    #[inline]
    fn into_draft(self) -> Draft
        ensures { result ≡ self.draft }
    {
        let Reader {
            count: _,
            stage: _,
            bad: _,
            declared: _,
            mentions: _,
            draft,
        } = self;
        draft
    }

    /// The script of the lines and what is left after the last end, which declares a procedure too.
    pub fn finish(mut self, tail: &[u8]) -> Result<Script, ReadErr>
        ensures { Gives (answer_at self tail.now) result }
    {
        let line = self.end(tail)?;
        close_at(line, self.into_draft())
    }
}
