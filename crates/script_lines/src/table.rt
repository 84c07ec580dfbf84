// The table of lines. A new kind of line is a variant of `Op`, a row of `ROWS` and an entry of `OPS` at the same place, among those of
// its first letter, and the same row in `rows` of specs/Table.antt. If the first of its two words is a new one, `is_half` needs it.
ghost use Rattle.std.specs.Prelude.{◌≡◌, ◌<◌, ℕ, List, map, IsTrue};
ghost use Rattle.script_lines.specs.Table.{table_row, rows, all_ops, row_of, key_of, role_of, slots_of, has, says, ranks, starts, starts_any, first_letter, rises, op_in, op_at};

/// What a slot of a line holds.
#[derive(Clone, Copy, PartialEq, Eq)]
pub enum Kind {
    /// The name of a thread.
    Thread,
    /// A word that means a thread.
    Who,
    /// A word that says from whom to receive.
    Source,
    /// The name of a procedure.
    Procedure,
    /// The name of a monitor.
    Monitor,
    /// The name of a condition.
    Condition,
    /// A number in decimal.
    Number,
    /// The priority of a thread: a number in decimal.
    Priority,
    /// How many bytes a reply may have.
    Room,
    /// The number of a client, at most 15.
    Client,
    /// The number of an event, at most 31; 0 is the clock.
    Event,
    /// The flags of a new thread.
    Flags,
    /// Whether to wait for a letter, and for how many ticks.
    Mode,
    /// The pattern of a handler.
    Pattern,
    /// The function of a handler.
    Func,
    /// When a `skip` passes over a statement: all that is left of the line.
    Test,
    /// What a built-in procedure is: all that is left of the line.
    Built,
    /// A text: all that is left of the line.
    Text,
}

/// A row of the table: a kind of line. They stand in the order of the table.
#[derive(Clone, Copy, PartialEq, Eq)]
pub enum Op {
    Agent,
    Agents,
    Again,
    Broadcast,
    Bound,
    Create,
    Client,
    CvCreate,
    CondEnter,
    CvDestroy,
    CvSend,
    CvWaiters,
    Conditions,
    CallProc,
    Destroy,
    Enter,
    ExcNotify,
    GetExit,
    Handle,
    Join,
    Lwp,
    Limit,
    MonCreate,
    MonDestroy,
    MonExit,
    MonBreak,
    MonWaiters,
    Monitors,
    Native,
    Notify,
    ExitMonExit,
    ExitMonBreak,
    ExitNotify,
    ExitBroadcast,
    ExitReply,
    ExitResume,
    ExitSetExit,
    ExitNote,
    Post,
    Pod,
    Proc,
    Ping,
    PodExit,
    Resume,
    Resched,
    Recv,
    Reply,
    Receivers,
    Return,
    Raise,
    Say,
    Send,
    Skip,
    Suspend,
    SetPri,
    SetMaxPri,
    Me,
    SetExit,
    Senders,
    Sleep,
    Threads,
    Trap,
    Unhandle,
    UniqPatt,
    Wait,
    Yield,
}

/// The part that a line plays in a script. A statement is one that makes a call.
#[derive(Clone, Copy, PartialEq, Eq)]
pub enum Role {
    Header,
    Pod,
    Limit,
    Client,
    Native,
    Proc,
    Post,
    Statement,
    Skip,
    Again,
}

// A row of the table: an operation, how its line begins, the part that the line plays, and its slots.
type Row = (Op, &'static [u8], Role, &'static [Kind]);

// The table. Its rows stand in the order of the operations, which is that of the first letters of their keys; among those of one
// letter the most frequent stand first.
static ROWS: [Row; 66] = [
    (
        Op::Agent,
        b"agent",
        Role::Statement,
        &[Kind::Thread, Kind::Number],
    ),
    (Op::Agents, b"agents", Role::Statement, &[]),
    (Op::Again, b"again", Role::Again, &[]),
    (
        Op::Broadcast,
        b"broadcast",
        Role::Statement,
        &[Kind::Condition],
    ),
    (Op::Bound, b"bound", Role::Statement, &[Kind::Number]),
    (
        Op::Create,
        b"create",
        Role::Statement,
        &[Kind::Thread, Kind::Procedure, Kind::Priority, Kind::Flags],
    ),
    (
        Op::Client,
        b"client",
        Role::Client,
        &[Kind::Client, Kind::Event],
    ),
    (
        Op::CvCreate,
        b"cvcreate",
        Role::Statement,
        &[Kind::Condition, Kind::Monitor],
    ),
    (
        Op::CondEnter,
        b"condenter",
        Role::Statement,
        &[Kind::Monitor],
    ),
    (
        Op::CvDestroy,
        b"cvdestroy",
        Role::Statement,
        &[Kind::Condition],
    ),
    (
        Op::CvSend,
        b"cvsend",
        Role::Statement,
        &[Kind::Condition, Kind::Who],
    ),
    (
        Op::CvWaiters,
        b"cvwaiters",
        Role::Statement,
        &[Kind::Condition],
    ),
    (Op::Conditions, b"conditions", Role::Statement, &[]),
    (Op::CallProc, b"call", Role::Statement, &[Kind::Procedure]),
    (Op::Destroy, b"destroy", Role::Statement, &[Kind::Who]),
    (Op::Enter, b"enter", Role::Statement, &[Kind::Monitor]),
    (
        Op::ExcNotify,
        b"excnotify",
        Role::Statement,
        &[Kind::Number],
    ),
    (Op::GetExit, b"getexit", Role::Statement, &[]),
    (
        Op::Handle,
        b"handle",
        Role::Statement,
        &[Kind::Pattern, Kind::Func, Kind::Number],
    ),
    (Op::Join, b"join", Role::Statement, &[Kind::Who]),
    (Op::Lwp, b"lwp", Role::Header, &[Kind::Number]),
    (Op::Limit, b"limit births", Role::Limit, &[Kind::Number]),
    (
        Op::MonCreate,
        b"moncreate",
        Role::Statement,
        &[Kind::Monitor],
    ),
    (
        Op::MonDestroy,
        b"mondestroy",
        Role::Statement,
        &[Kind::Monitor],
    ),
    (Op::MonExit, b"monexit", Role::Statement, &[Kind::Monitor]),
    (Op::MonBreak, b"monbreak", Role::Statement, &[Kind::Monitor]),
    (
        Op::MonWaiters,
        b"monwaiters",
        Role::Statement,
        &[Kind::Monitor],
    ),
    (Op::Monitors, b"monitors", Role::Statement, &[]),
    (
        Op::Native,
        b"native",
        Role::Native,
        &[Kind::Procedure, Kind::Built],
    ),
    (Op::Notify, b"notify", Role::Statement, &[Kind::Condition]),
    (
        Op::ExitMonExit,
        b"onexit monexit",
        Role::Statement,
        &[Kind::Monitor],
    ),
    (
        Op::ExitMonBreak,
        b"onexit monbreak",
        Role::Statement,
        &[Kind::Monitor],
    ),
    (
        Op::ExitNotify,
        b"onexit notify",
        Role::Statement,
        &[Kind::Condition],
    ),
    (
        Op::ExitBroadcast,
        b"onexit broadcast",
        Role::Statement,
        &[Kind::Condition],
    ),
    (
        Op::ExitReply,
        b"onexit reply",
        Role::Statement,
        &[Kind::Who, Kind::Text],
    ),
    (
        Op::ExitResume,
        b"onexit resume",
        Role::Statement,
        &[Kind::Who],
    ),
    (
        Op::ExitSetExit,
        b"onexit setexit",
        Role::Statement,
        &[Kind::Number],
    ),
    (Op::ExitNote, b"onexit note", Role::Statement, &[Kind::Text]),
    (Op::Post, b"post", Role::Post, &[Kind::Client, Kind::Text]),
    (Op::Pod, b"pod", Role::Pod, &[Kind::Number]),
    (Op::Proc, b"proc", Role::Proc, &[Kind::Procedure]),
    (Op::Ping, b"ping", Role::Statement, &[Kind::Who]),
    (Op::PodExit, b"podexit", Role::Statement, &[Kind::Number]),
    (Op::Resume, b"resume", Role::Statement, &[Kind::Who]),
    (Op::Resched, b"resched", Role::Statement, &[Kind::Priority]),
    (
        Op::Recv,
        b"recv",
        Role::Statement,
        &[Kind::Source, Kind::Mode],
    ),
    (
        Op::Reply,
        b"reply",
        Role::Statement,
        &[Kind::Who, Kind::Text],
    ),
    (Op::Receivers, b"receivers", Role::Statement, &[]),
    (Op::Return, b"return", Role::Statement, &[]),
    (Op::Raise, b"raise", Role::Statement, &[Kind::Number]),
    (Op::Say, b"say", Role::Statement, &[Kind::Text]),
    (
        Op::Send,
        b"send",
        Role::Statement,
        &[Kind::Who, Kind::Room, Kind::Text],
    ),
    (Op::Skip, b"skip", Role::Skip, &[Kind::Test]),
    (Op::Suspend, b"suspend", Role::Statement, &[Kind::Who]),
    (
        Op::SetPri,
        b"setpri",
        Role::Statement,
        &[Kind::Who, Kind::Priority],
    ),
    (
        Op::SetMaxPri,
        b"setmaxpri",
        Role::Statement,
        &[Kind::Number],
    ),
    (Op::Me, b"self", Role::Statement, &[]),
    (Op::SetExit, b"setexit", Role::Statement, &[Kind::Number]),
    (Op::Senders, b"senders", Role::Statement, &[]),
    (Op::Sleep, b"sleep", Role::Statement, &[Kind::Number]),
    (Op::Threads, b"threads", Role::Statement, &[]),
    (Op::Trap, b"trap", Role::Statement, &[Kind::Number]),
    (Op::Unhandle, b"unhandle", Role::Statement, &[]),
    (Op::UniqPatt, b"uniqpatt", Role::Statement, &[]),
    (Op::Wait, b"wait", Role::Statement, &[Kind::Condition]),
    (Op::Yield, b"yield", Role::Statement, &[Kind::Who]),
];

// The operations, in the order of the table.
static OPS: [Op; 66] = [
    Op::Agent,
    Op::Agents,
    Op::Again,
    Op::Broadcast,
    Op::Bound,
    Op::Create,
    Op::Client,
    Op::CvCreate,
    Op::CondEnter,
    Op::CvDestroy,
    Op::CvSend,
    Op::CvWaiters,
    Op::Conditions,
    Op::CallProc,
    Op::Destroy,
    Op::Enter,
    Op::ExcNotify,
    Op::GetExit,
    Op::Handle,
    Op::Join,
    Op::Lwp,
    Op::Limit,
    Op::MonCreate,
    Op::MonDestroy,
    Op::MonExit,
    Op::MonBreak,
    Op::MonWaiters,
    Op::Monitors,
    Op::Native,
    Op::Notify,
    Op::ExitMonExit,
    Op::ExitMonBreak,
    Op::ExitNotify,
    Op::ExitBroadcast,
    Op::ExitReply,
    Op::ExitResume,
    Op::ExitSetExit,
    Op::ExitNote,
    Op::Post,
    Op::Pod,
    Op::Proc,
    Op::Ping,
    Op::PodExit,
    Op::Resume,
    Op::Resched,
    Op::Recv,
    Op::Reply,
    Op::Receivers,
    Op::Return,
    Op::Raise,
    Op::Say,
    Op::Send,
    Op::Skip,
    Op::Suspend,
    Op::SetPri,
    Op::SetMaxPri,
    Op::Me,
    Op::SetExit,
    Op::Senders,
    Op::Sleep,
    Op::Threads,
    Op::Trap,
    Op::Unhandle,
    Op::UniqPatt,
    Op::Wait,
    Op::Yield,
];

// PROVER: the whole table, handed out by one function, so that no other proof goes over the rows of the static.
fn table() -> &'static [Row]
    ensures { map table_row result.now ≡ rows }
{
    &ROWS
}

impl Op {
    /// All kinds of lines, in the order of the table.
    pub fn all() -> &'static [Op]
        ensures { result.now ≡ all_ops }
    {
        &OPS
    }

    // The row of the table.
    fn row(self) -> &'static Row
        ensures { table_row result.now ≡ row_of self }
    {
        &table()[self as usize]
    }

    /// How the line begins: a word, or two.
    pub fn key(self) -> &'static [u8]
        ensures { result.now ≡ key_of self }
    {
        self.row().1
    }

    /// The part that the line plays.
    pub fn role(self) -> Role
        ensures { result ≡ role_of self }
    {
        self.row().2
    }

    /// The slots after the key.
    pub fn slots(self) -> &'static [Kind]
        ensures { result.now ≡ slots_of self }
    {
        self.row().3
    }

    /// Whether the line ends with a text.
    pub fn says(self) -> bool
        ensures { result ≡ says self }
    {
        has(self.slots(), Kind::Text)
    }

    /// Whether the line gives a thread a priority, or speaks of one.
    pub fn ranks(self) -> bool
        ensures { result ≡ ranks self }
    {
        has(self.slots(), Kind::Priority)
    }

    /// Whether the line starts a procedure that some line must declare.
    pub fn starts(self) -> bool
        ensures { result ≡ starts self }
    {
        self.role() == Role::Statement && has(self.slots(), Kind::Procedure)
    }

    /// Whether the procedure that it starts may be a built-in one.
    pub fn starts_any(self) -> bool
        ensures { result ≡ starts_any self }
    {
        self.starts() && has(self.slots(), Kind::Thread)
    }

    /// The row with this key.
    #[tactic(auto, unfolding(crate::specs::Table::op_at))]
    pub fn at(key: &[u8]) -> Option<Op>
        ensures { result ≡ op_at key.now }
    {
        match key {
            [] => None,
            [letter, ..] => among(rows_from(table(), *letter), key),
        }
    }
}

fn has(slots: &[Kind], kind: Kind) -> bool
    ensures { result ≡ has kind slots.now }
{
    for slot in slots {
        if *slot == kind {
            return true;
        }
    }
    false
}

// The letter with which the row's key begins.
fn letter_of(row: &Row) -> u8
    requires { 0 < first_letter (table_row row.now).key }
    ensures { result ≡ first_letter (table_row row.now).key }
{
    row.1[0]
}

// The rows without most of those that have an earlier letter: by steps that halve, rows are passed over where the last of them has
// one. A table of where each letter's rows begin, tried together with a phrase filled in a function of its own, cost more.
fn rows_from(rows: &[Row], letter: u8) -> &[Row]
    requires { IsTrue (rises 1 (map table_row rows.now)) }
    ensures { (key : List ℕ) → first_letter key ≡ letter →
        op_in (map table_row result.now) key ≡ op_in (map table_row rows.now) key }
{
    let mut first = 0;
    let mut step = rows.len() / 2;
    while step > 0 {
        if letter_of(&rows[first + step - 1]) < letter {
            first += step;
        }
        step /= 2;
    }
    &rows[first..]
}

fn among(rows: &[Row], key: &[u8]) -> Option<Op>
    ensures { result ≡ op_in (map table_row rows.now) key.now }
{
    for row in rows {
        if row.1 == key {
            return Some(row.0);
        }
    }
    None
}

/// What a word that means a thread, or anybody, is: a name, or one of the words that aren't.
#[derive(Clone, Copy, PartialEq, Eq)]
pub enum Whom {
    Named,
    Me,
    First,
    Sender,
    Nobody,
    Any,
}

/// When a `skip` passes over the next statement: the last answer was neither a refusal nor a catch, was a refusal, was a
/// catch, was this value.
#[derive(Clone, Copy)]
pub enum Test {
    Fine,
    Refused,
    Caught,
    Value(u32),
}
