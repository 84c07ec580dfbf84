// Which statement of a procedure comes next.
ghost use Rattle.std.specs.Prelude.{◌≡◌, drop, false, IfSome};
ghost use Rattle.lwp_types.specs.declared.call.Answer.{Answer};
ghost use Rattle.lwp_types.specs.Poll.{is_refused};
ghost use Rattle.script_body.specs.Walk.{is_value, is_caught, meets, first_stmt, next_stmt};

use lwp_types::Answer;
use script_text::{Stmt, Test};

pub fn is_refused(got: &Answer) -> bool
    ensures { result ≡ is_refused got.now }
{
    matches!(got, Answer::Refused(_))
}

fn is_caught(got: &Answer) -> bool
    ensures { result ≡ is_caught got.now }
{
    matches!(got, Answer::Caught { .. })
}

fn is_value(n: u32, got: &Answer) -> bool
    ensures { result ≡ is_value n got.now }
{
    match got {
        Answer::Value(value) => *value == i64::from(n),
        _ => false,
    }
}

// Whether a skip with this condition passes over the next statement.
fn meets(got: &Answer, test: Test) -> bool
    ensures { result ≡ meets got.now test }
{
    match test {
        Test::Fine => !(is_refused(got) || is_caught(got)),
        Test::Refused => is_refused(got),
        Test::Caught => is_caught(got),
        Test::Value(n) => is_value(n, got),
    }
}

fn first_stmt(stmts: &[Stmt]) -> (&Stmt, usize)
    ensures { first_stmt stmts.now ≡ record { stmt = result.0.now; place = result.1 } }
{
    match stmts.first() {
        Some(stmt) => (stmt, 1),
        None => (&Stmt::Return, 0),
    }
}

/// The first statement from `from` on that makes a call and isn't passed over, and the place after it; past the last one, a
/// return.
pub fn next_stmt<'s>(stmts: &'s [Stmt], from: usize, got: &Answer) -> (&'s Stmt, usize)
    ensures { next_stmt got.now stmts.now false from (drop from stmts.now)
        ≡ record { stmt = result.0.now; place = result.1 } }
{
    let mut place = from;
    let mut over = false;
    while place < stmts.len() {
        let stmt = &stmts[place];
        place += 1;
        if over {
            over = false;
            continue;
        }
        match stmt {
            Stmt::Skip { test } => over = meets(got, *test),
            Stmt::Again => return first_stmt(stmts),
            _ => return (stmt, place),
        }
    }
    (&Stmt::Return, place)
}

/// The statement at `from` and the place after it, if no skip is there: `next_stmt` without a loop.
#[inline(always)]
pub fn near_stmt(stmts: &[Stmt], from: usize) -> Option<(&Stmt, usize)>
    ensures { IfSome result
        (λ x.
        (got : Answer) →
        next_stmt got stmts.now false from (drop from stmts.now)
        ≡ record { stmt = x.0.now; place = x.1 }) }
{
    match stmts.get(from) {
        None => Some((&Stmt::Return, from)),
        Some(Stmt::Skip { .. }) => None,
        Some(Stmt::Again) => Some(first_stmt(stmts)),
        Some(stmt) => Some((stmt, from + 1)),
    }
}
