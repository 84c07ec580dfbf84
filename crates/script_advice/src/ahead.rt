// The way ahead of a line in its procedure, and the monitors that are left on it.
ghost use Rattle.std.specs.Prelude.{◌≡◌, ◌++◌, ◌∷◌, [], IfOk, OnOk, Some};
ghost use Rattle.script_lines.specs.Reading.{phrase_at};
ghost use Rattle.script_text.specs.Spelling.{line_cut};
ghost use Rattle.script_advice.specs.Doubts.{ahead_after_line, keeping, keeps, monitor_entered, monitor_left, no_ahead};
ghost use Rattle.script_advice.specs.Habits.{habits_after_line, habits_of, no_habits};

use crate::habits::Habits;
use crate::lines::last_line;
use lwp_types::NoMemory;
use script_lines::{Op, Phrase, Role, phrase_at};
use script_text::NameList;
use std::alloc::Global;

/// The monitors that are left on the straight way ahead, and whether that way may go on elsewhere, where others may be left.
pub struct Ahead {
    pub strays: bool,
    pub left: NameList,
}

// PROVER: written by hand, so that a function that drops this calls it instead of repeating its proof.
impl Drop for Ahead {
    fn drop(self) {
        let Ahead { strays: _, left: _ } = self;
    }
}

// The monitor that a line enters.
fn monitor_entered<'l>(phrase: &Phrase<'l>) -> &'l [u8]
    ensures { result.now ≡ monitor_entered phrase.now.op phrase.now }
{
    match phrase.op {
        Op::Enter => phrase.monitor,
        _ => &[],
    }
}

// The monitor that a line leaves.
fn monitor_left<'l>(phrase: &Phrase<'l>) -> &'l [u8]
    ensures { result.now ≡ monitor_left phrase.now.op phrase.now }
{
    match phrase.op {
        Op::MonExit | Op::MonBreak | Op::MonDestroy => phrase.monitor,
        _ => &[],
    }
}

impl Ahead {
    ghost use Rattle.std.specs.Prelude.{◌≡◌, [], OnOk, Some};
    ghost use Rattle.script_advice.specs.Doubts.{ahead_by, ahead_after_statement, keeps, no_ahead};

    fn none(alloc: Global) -> Ahead
        ensures { result ≡ no_ahead }
    {
        Ahead {
            strays: false,
            left: NameList::new(alloc),
        }
    }

    // The way ends here, or may go on elsewhere.
    fn end(&mut self, alloc: Global, strays: bool)
        ensures { self.new ≡ record { strays = strays; left = [] } }
    {
        self.strays = strays;
        self.left = NameList::new(alloc);
    }

    // Puts a statement in front.
    fn state(&mut self, alloc: Global, phrase: &Phrase<'_>) -> Result<(), NoMemory>
        ensures { OnOk result (self.new ≡ ahead_after_statement phrase.now.op phrase.now self.old) }
    {
        match phrase.op {
            Op::Return => self.end(alloc, false),
            Op::CallProc | Op::Raise => self.end(alloc, true),
            _ => self.left.enter(monitor_left(phrase))?,
        }
        Ok(())
    }

    // Puts a line of this role in front.
    fn put(&mut self, alloc: Global, role: Role, phrase: &Phrase<'_>) -> Result<(), NoMemory>
        ensures { OnOk result (self.new ≡ ahead_by role phrase.now.op phrase.now self.old) }
    {
        match role {
            Role::Statement => self.state(alloc, phrase)?,
            Role::Skip | Role::Again => self.end(alloc, true),
            _ => self.end(alloc, false),
        }
        Ok(())
    }

    // Whether a line enters a monitor that isn't left ahead of it.
    fn keeps(&self, phrase: &Phrase<'_>) -> bool
        ensures { result ≡ keeps self.now (Some phrase.now) }
    {
        let entered = monitor_entered(phrase);
        !self.strays && !entered.is_empty() && !self.left.contains(entered)
    }
}

// Notes whether a line keeps a monitor, and puts it in front.
fn note_line(
    alloc: Global,
    ahead: &mut Ahead,
    habits: &mut Habits,
    kept: &mut Vec<bool>,
    line: &[u8],
) -> Result<(), NoMemory>
    ensures ahead { OnOk result (ahead.new ≡ ahead_after_line (phrase_at line.now) ahead.old) }
    ensures habits { OnOk result
        (habits.new ≡ habits_after_line (phrase_at line.now) habits.old) }
    ensures kept { OnOk result
        (kept.new.items ≡ kept.old.items ++ keeps ahead.old (phrase_at line.now) ∷ []) }
{
    let Some(phrase) = phrase_at(line) else {
        kept.push(false)?;
        return Ok(());
    };
    kept.push(ahead.keeps(&phrase))?;
    habits.note(phrase.op.role(), &phrase)?;
    ahead.put(alloc, phrase.op.role(), &phrase)
}

/// Which lines of a text keep a monitor, the last line first, and what the procedures do.
pub fn looked_back(alloc: Global, text: &[u8]) -> Result<(Vec<bool>, Habits), NoMemory>
    ensures kept { IfOk result (λ x. x.0.items ≡ keeping no_ahead (line_cut text.now).0) }
    ensures habits { IfOk result (λ x. x.1 ≡ habits_of no_habits (line_cut text.now).0) }
{
    let mut ahead = Ahead::none(alloc);
    let mut habits = Habits::none(alloc);
    let mut kept = Vec::new(alloc);
    let mut rest = text;
    while let Some((front, line)) = last_line(rest) {
        note_line(alloc, &mut ahead, &mut habits, &mut kept, line)?;
        rest = front;
    }
    Ok((kept, habits))
}
