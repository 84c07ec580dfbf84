// One part is planned, and what comes of it is said.
ghost use Rattle.std.specs.Prelude.{◌≡◌, ◌≤◌, IfOk, length};
ghost use Rattle.lwp_serve.specs.Batches.Report.{counts_of, part_text, counts_at_end};
ghost use Rattle.script_body.specs.Posted.{IsPosted};
ghost use Rattle.script_text.specs.Limits.{IsWithinLimits};

use crate::batches::report::{Counts, bad_text, counts_text};
use crate::plan::{is_over, play_script};
use batch::Job;
use lwp_types::NoMemory;
use script_session::Session;
use script_text::{ReadErr, Script, read_script};
use std::alloc::Global;
use streams::CountSink;

// The numbers that a session to its end tells of itself; its trace has so many bytes.
fn counts_at_end(script: &Script, session: &Session, trace: u64) -> Counts
    requires { length session.now.taken ≤ length script.now.posts }
    ensures { result ≡ counts_at_end script.now session.now trace }
{
    let taken = session.taken.len() as u64;
    Counts {
        status: session.status,
        calls: session.turns,
        taken,
        left: script.posts.len() as u64 - taken,
        trace,
    }
}

// Plans a script. Its trace is counted and not kept.
fn counts_of(alloc: Global, turns: u64, script: &Script) -> Result<Counts, NoMemory>
    requires within { IsWithinLimits script.now }
    requires posted { IsPosted script.now }
    ensures { IfOk result (λ counts. counts ≡ counts_of turns script.now) }
{
    let mut counted = CountSink::new();
    let session = play_script(alloc, turns, script, &mut counted);
    if !is_over(session.end) {
        return Err(NoMemory);
    }
    Ok(counts_at_end(script, &session, counted.count()))
}

// What is said of a part, by its bytes.
fn text_of(alloc: Global, turns: u64, input: &[u8]) -> Result<Vec<u8>, NoMemory>
    ensures { IfOk result (λ said. said.items ≡ part_text turns input.now) }
{
    match read_script(alloc, input) {
        Ok(script) => {
            let counts = counts_of(alloc, turns, &script)?;
            counts_text(alloc, &counts)
        }
        Err(ReadErr::NoMemory) => Err(NoMemory),
        Err(ReadErr::Bad { line, reason }) => bad_text(alloc, line, reason),
    }
}

/// Plans each part that is a script, with so many turns allowed.
#[derive(Drop)]
pub(crate) struct Planning {
    pub(crate) turns: u64,
}

impl Job for Planning {
    ghost means = { λ job input. part_text job.turns input };

    fn answer(&self, alloc: Global, input: &[u8]) -> Result<Vec<u8>, NoMemory> {
        text_of(alloc, self.turns, input)
    }
}
