// What the clients of a script post, client by client, and how much of it is left.
ghost use Rattle.script_run.specs.Clients.{count_taken, counts_of, texts_for, texts_from};
ghost use Rattle.script_text.specs.Script.{lines_posted};
ghost use Rattle.std.specs.Prelude.{All, IfOk, length, map, ◌≡◌, ◌≤◌};

use lwp_types::{NoMemory, Text};
use pod_runner::Run;
use script_body::{ScriptProgram, ThreadBody};
use script_text::Script;
use std::alloc::Global;

// The texts of a client's lines, in order.
fn texts_for<'s>(alloc: Global, script: &'s Script, client: u8) -> Result<Vec<Text<'s>>, NoMemory>
    ensures { IfOk result (λ texts. texts.items ≡ texts_for client (lines_posted script.now)) }
{
    let mut texts = Vec::new(alloc);
    for post in script.posts.as_slice() {
        if post.client == client {
            texts.push(script.texts.get(post.text as usize))?;
        }
    }
    Ok(texts)
}

/// The texts of each client's lines, in order.
pub fn client_texts<'s>(alloc: Global, script: &'s Script) -> Result<Vec<Vec<Text<'s>>>, NoMemory>
    requires { length script.now.clients ≤ 256 }
    ensures { IfOk result
        (λ all.
        map (λ v. v.items) all.items ≡ texts_from 0 script.now.clients (lines_posted script.now)) }
{
    let mut all = Vec::new(alloc);
    for client in 0..script.clients.len() {
        all.push(texts_for(alloc, script, client as u8)?)?;
    }
    Ok(all)
}

// How many lines of a client were taken.
fn count_taken<'s>(played: &Run<'s, ThreadBody<'s>, ScriptProgram<'s>>, client: u8) -> usize
    ensures { result ≡ count_taken client played.now.takes }
{
    let mut count = 0;
    for i in 0..played.takes() {
        if played.take_at(i).line.client == client {
            count += 1;
        }
    }
    count
}

/// How many lines of each client a run has left, where the clients post these texts.
pub fn counts_after<'s>(
    alloc: Global,
    texts: &[Vec<Text<'s>>],
    played: &Run<'s, ThreadBody<'s>, ScriptProgram<'s>>,
) -> Result<Vec<u32>, NoMemory>
    requires most { length texts.now ≤ 256 }
    requires few { All (λ ts. length ts.items ≤ 20000) texts.now }
    ensures { IfOk result
        (λ counts. counts.items ≡ counts_of 0 (map (λ v. v.items) texts.now) played.now.takes) }
{
    let mut counts = Vec::new(alloc);
    for client in 0..texts.len() {
        let taken = count_taken(played, client as u8);
        counts.push(texts[client].len().saturating_sub(taken) as u32)?;
    }
    Ok(counts)
}
