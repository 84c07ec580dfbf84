// The lines of a step.
ghost use Rattle.std.specs.Prelude.{◌≡◌, ◌∷◌, [], OnOk, None, option_copied};
ghost use Rattle.lwp_types.specs.declared.call.Effect.TheVariants as Effect;
ghost use Rattle.trace_text.specs.Lines.{step_lines};

use crate::lines::{add_call_line, add_lines};
use lists::TextList;
use lwp_types::{Call, Effects, Line, NoMemory, Tid};
use std::alloc::Global;
use std::marker::Model;

/// The lines of a step, seen as their bytes, in memory that the lines of the next step are put into.
#[derive(Drop)]
pub struct StepLines {
    // The lines, and after them what earlier steps left there, as room for the next line. The row is never cut off: a row that each line
    // lengthens and cuts off again costs more, and so do words pushed one by one, since each push asks for room.
    row: Vec<u8>,
    // How many bytes the lines have.
    end: usize,
}

impl Model for StepLines {
    ghost use Rattle.std.specs.Prelude.{ℕ, List, length, take, ◌≤◌};

    ghost Value = { List ℕ };

    ghost view = { λ l. take l.end l.row.items };

    ghost invariant = { λ l. l.end ≤ length l.row.items };
}

impl StepLines {
    /// No lines.
    pub fn new(alloc: Global) -> StepLines
        ensures { result ≡ [] }
    {
        StepLines {
            row: Vec::new(alloc),
            end: 0,
        }
    }

    /// The bytes of the lines.
    #[inline(always)]
    pub fn bytes(&self) -> &[u8]
        ensures { result.now ≡ self.now }
    {
        &self.row[..self.end]
    }

    /// Takes all lines away.
    pub fn clear(&mut self)
        ensures { self.new ≡ [] }
    {
        self.end = 0;
    }

    /// Puts the lines of a step in the place of what was there: a line for each effect. `took` is the line that was taken in that
    /// step, if any: the first effect prints it, and each later delivery its agent. `names` are the procedures' names by number.
    pub fn set_step(
        &mut self,
        effects: &Effects,
        took: Option<&Line>,
        names: &TextList,
    ) -> Result<(), NoMemory>
        ensures { OnOk result (self.new ≡ step_lines names.now (option_copied took.entry) effects.now) }
    {
        self.end = 0;
        self.end = add_lines(&mut self.row, 0, effects, took, names)?;
        Ok(())
    }

    /// Puts the lines of a call that a thread makes in the place of what was there: the line of the call, and a line for each effect.
    #[inline(always)]
    pub fn set_call(
        &mut self,
        tid: Tid,
        call: &Call,
        effects: &Effects,
        names: &TextList,
    ) -> Result<(), NoMemory>
        ensures { OnOk result
            (self.new ≡ step_lines names.now None (Effect.Called tid call.now ∷ effects.now)) }
    {
        self.end = 0;
        let end = add_call_line(&mut self.row, 0, tid, call, names)?;
        self.end = add_lines(&mut self.row, end, effects, None, names)?;
        Ok(())
    }
}
