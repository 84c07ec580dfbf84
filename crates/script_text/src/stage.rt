// The parser's state: what the lines so far have come to, and which may follow.
ghost use Rattle.std.specs.Prelude.{◌≡◌};
ghost use Rattle.script_text.specs.Grammar.{stage_behind_first, stage_after, follows};
ghost use Rattle.script_text.specs.Spelling.{breaks_again};

use script_lines::Role;

/// What the lines so far have come to.
#[derive(Clone, Copy, PartialEq, Eq)]
pub enum Stage {
    /// There are none.
    Start,
    /// The last is the header.
    Header,
    /// The last is the one of the pod.
    Pod,
    /// The last is a limit or a client.
    Clients,
    /// The last is a built-in procedure.
    Natives,
    /// The last begins a procedure.
    Proc,
    /// The procedure's first statement makes a call.
    Calling,
    /// The procedure's first statement is a `skip`.
    Skipping,
    /// The last is an `again`.
    Ended,
    /// The last is a line that a client posts.
    Posts,
}

// The stage in a procedure, by what its first statement leads to.
fn opened(first: Stage, stage: Stage) -> Stage
    ensures { result ≡ stage_behind_first first stage }
{
    match stage {
        Stage::Proc => first,
        _ => stage,
    }
}

impl Stage {
    /// The stage after one more line.
    pub fn after(self, role: Role) -> Stage
        ensures { result ≡ stage_after self role }
    {
        match role {
            Role::Header => Stage::Header,
            Role::Pod => Stage::Pod,
            Role::Limit | Role::Client => Stage::Clients,
            Role::Native => Stage::Natives,
            Role::Proc => Stage::Proc,
            Role::Statement => opened(Stage::Calling, self),
            Role::Skip => opened(Stage::Skipping, self),
            Role::Again => Stage::Ended,
            Role::Post => Stage::Posts,
        }
    }

    /// Whether a line may come next.
    pub fn allows(self, role: Role) -> bool
        ensures { result ≡ follows self role }
    {
        match self {
            Stage::Start => role == Role::Header,
            Stage::Header => role == Role::Pod,
            Stage::Pod => matches!(role, Role::Limit | Role::Client | Role::Native | Role::Proc),
            Stage::Clients => matches!(role, Role::Client | Role::Native | Role::Proc),
            Stage::Natives => matches!(role, Role::Native | Role::Proc),
            Stage::Proc | Stage::Skipping => matches!(
                role,
                Role::Proc | Role::Statement | Role::Skip | Role::Post
            ),
            Stage::Calling => matches!(
                role,
                Role::Proc | Role::Statement | Role::Skip | Role::Again | Role::Post
            ),
            Stage::Ended => matches!(role, Role::Proc | Role::Post),
            Stage::Posts => role == Role::Post,
        }
    }

    /// Whether a statement breaks the rule of `again` here.
    pub fn breaks_again(self, role: Role) -> bool
        ensures { result ≡ breaks_again self role }
    {
        match self {
            Stage::Proc | Stage::Skipping => role == Role::Again,
            Stage::Ended => matches!(role, Role::Statement | Role::Skip | Role::Again),
            _ => false,
        }
    }
}
