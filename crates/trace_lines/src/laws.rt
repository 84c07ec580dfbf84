// What `trace_text` prints is read back.
ghost use Rattle.std.specs.Prelude.{ℕ, List, None, Option, codes, ◌≡◌};
ghost use Rattle.lwp_types.specs.declared.call.Answer.{Answer};
ghost use Rattle.lwp_types.specs.declared.call.Call.{Call};
ghost use Rattle.lwp_types.specs.declared.call.ExitCall.{ExitCall};
ghost use Rattle.lwp_types.specs.declared.call.Line.{Line};
ghost use Rattle.trace_lines.specs.Entries.{entry_of};
ghost use Rattle.trace_lines.specs.Told.{AlsoIsRead, AnswersAreRead, CallsAreRead, DeathsAreRead, EndsAreRead, EventsAreRead, ExitsAreRead, RitesAreRead, TicksAreRead, TrapsAreRead};

/// A call's line is read back as the call.
pub fn called_again()
    ensures { (procs : List (List ℕ)) (took : Option Line) (t : ℕ) (c : Call) →
        CallsAreRead procs took t c }
{}

/// An answer's line is read back as the answer.
pub fn answered_again()
    ensures { (procs : List (List ℕ)) (took : Option Line) (t : ℕ) (a : Answer) →
        AnswersAreRead procs took t a }
{}

/// The line of an exit procedure is read back.
pub fn exited_again()
    ensures { (procs : List (List ℕ)) (took : Option Line) (t reg : ℕ) (x : ExitCall) (a : Answer) →
        ExitsAreRead procs took t reg x a }
{}

/// A death's line is read back.
pub fn died_again()
    ensures { (procs : List (List ℕ)) (took : Option Line) (t : ℕ) → DeathsAreRead procs took t }
{}

/// The line of a delivery is read back.
pub fn delivered_again()
    ensures { (procs : List (List ℕ)) (line : Line) (agent e : ℕ) → EventsAreRead procs line agent e }
{}

/// The line of a later delivery of a step is read back as its agent.
pub fn also_again()
    ensures { (procs : List (List ℕ)) (agent e : ℕ) → AlsoIsRead procs agent e }
{}

/// Less than that, more than that or another letter is no line of a trace.
pub fn only_also()
    ensures bare { entry_of (codes "also") ≡ None }
    ensures unnumbered { entry_of (codes "also t") ≡ None }
    ensures followed { entry_of (codes "also t1 x") ≡ None }
    ensures other { entry_of (codes "also m1") ≡ None }
{}

/// The line of a tick is read back.
pub fn ticked_again()
    ensures { (procs : List (List ℕ)) (line : Line) (now : ℕ) → TicksAreRead procs line now }
{}

/// The line of a trap that is raised is read back.
pub fn trapped_again()
    ensures { (procs : List (List ℕ)) (took : Option Line) (t e : ℕ) → TrapsAreRead procs took t e }
{}

/// The line of a report is read back.
pub fn reported_again()
    ensures { (procs : List (List ℕ)) (took : Option Line) (agent dead : ℕ) →
        RitesAreRead procs took agent dead }
{}

/// Less than that, or more, is no line of a trace.
pub fn only_reports()
    ensures bare { entry_of (codes "rites t1") ≡ None }
    ensures unnumbered { entry_of (codes "rites t1 to t") ≡ None }
    ensures followed { entry_of (codes "rites t1 to t2 x") ≡ None }
    ensures trapless { entry_of (codes "t1 trap ") ≡ None }
    ensures trap_followed { entry_of (codes "t1 trap 5 x") ≡ None }
{}

/// The lines after the last step are read back.
pub fn closed_again()
    ensures { EndsAreRead }
{}
