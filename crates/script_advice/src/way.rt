// The way through a procedure.
ghost use Rattle.std.specs.Prelude.{◌≡◌};
ghost use Rattle.script_advice.specs.Doubts.{no_way, way_behind, way_by};

use script_lines::{Op, Phrase, Role};

/// Whether a procedure has begun, whether the last line is a `skip`, and whether it is a `return` that none passes over.
#[derive(Clone, Copy)]
pub struct Way {
    pub begun: bool,
    pub skipped: bool,
    pub closed: bool,
}

impl Way {
    /// Before all lines.
    pub fn new() -> Way
        ensures { result ≡ no_way }
    {
        Way {
            begun: false,
            skipped: false,
            closed: false,
        }
    }

    // After a line of this role.
    fn by(self, role: Role, op: Op) -> Way
        ensures { result ≡ way_by role op self }
    {
        match role {
            Role::Proc => Way {
                begun: true,
                skipped: false,
                closed: false,
            },
            Role::Skip => Way {
                begun: self.begun,
                skipped: true,
                closed: false,
            },
            Role::Statement => Way {
                begun: self.begun,
                skipped: false,
                closed: op == Op::Return && !self.skipped,
            },
            _ => self,
        }
    }

    /// After one more line.
    pub fn behind(self, phrase: &Phrase<'_>) -> Way
        ensures { result ≡ way_behind self phrase.now }
    {
        self.by(phrase.op.role(), phrase.op)
    }
}
