// The page of a trace.
ghost use Rattle.std.specs.Prelude.{◌≡◌, ◌≤◌, ◌++◌, true, ℕ, is_some, None, Some, OnOk, IfErr};
ghost use Rattle.trace_lines.specs.Entries.{entry_of};
ghost use Rattle.trace_page.specs.Page.{after_line, after_lines, bad_line, calls_of, first_bad, group_if_shown, groups, line_calls, page, whole_lines};

use crate::frame::add_head;
use crate::scene::Scene;
use crate::steps::is_call;
use lwp_types::NoMemory;
use std::alloc::Global;
use trace_lines::{entry_of, reach, skip};

/// Why there is no page.
#[derive(Clone, Copy)]
pub enum PageErr {
    /// This line, counted from 1, is no line of a trace.
    Line(u64),
    NoMemory,
}

impl From<NoMemory> for PageErr {
    ghost use Rattle.std.specs.Prelude.{◌≡◌};
    ghost use Rattle.trace_page.specs.declared.page.PageErr.TheVariants.{NoMemory as Memory};

    ghost from_gives = { λ _ e. e ≡ Memory };

    fn from(_: NoMemory) -> Self {
        PageErr::NoMemory
    }
}

impl<'t> Scene<'t> {
    #[tactic(auto, unfolding(crate::specs::Page::group_if_shown))]
    fn add_shown(&self, out: &mut Vec<u8>, line: &[u8]) -> Result<(), NoMemory>
        ensures { OnOk result (out.new.items ≡ out.old.items ++ group_if_shown self.now line.now) }
    {
        if self.is_shown() {
            self.add_group(out, line)
        } else {
            Ok(())
        }
    }
}

// A line is told and drawn, if it is one.
#[tactic(auto, unfolding(crate::specs::Page::after_line))]
fn add_line<'t>(
    scene: &mut Scene<'t>,
    out: &mut Vec<u8>,
    line: &'t [u8],
    number: u64,
) -> Result<(), PageErr>
    ensures told { OnOk result (scene.new ≡ after_line line.now scene.old) }
    ensures drawn { OnOk result
        (out.new.items ≡ out.old.items ++ group_if_shown (after_line line.now scene.old) line.now) }
    ensures good { OnOk result (is_some (entry_of line.now) ≡ true) }
    ensures bad { IfErr result
        (λ e. (n : ℕ) → e ≡ PageErr.Line n → (n ≡ number) × (entry_of line.now ≡ None)) }
{
    let Some(entry) = entry_of(line) else {
        return Err(PageErr::Line(number));
    };
    scene.note(entry, line);
    scene.tell(entry)?;
    scene.add_shown(out, line)?;
    Ok(())
}

// The lines of a text, which are told and drawn one by one.
fn add_lines<'t>(scene: &mut Scene<'t>, out: &mut Vec<u8>, text: &'t [u8]) -> Result<(), PageErr>
    ensures told { OnOk result (scene.new ≡ after_lines scene.old (whole_lines text.now)) }
    ensures drawn { OnOk result
        (out.new.items ≡ out.old.items ++ groups scene.old (whole_lines text.now)) }
    ensures good { OnOk result (first_bad text.now ≡ None) }
    ensures bad { IfErr result (λ e. (n : ℕ) → e ≡ PageErr.Line n → first_bad text.now ≡ Some n) }
{
    let mut number = 1;
    let mut rest = text;
    while !rest.is_empty() {
        let end = reach(b'\n', rest);
        if end == rest.len() {
            return Err(PageErr::Line(number));
        }
        match add_line(scene, out, &rest[..end], number) {
            Ok(()) => {}
            Err(error) => return Err(error),
        }
        number += 1;
        rest = skip(end + 1, rest);
    }
    Ok(())
}

// How many calls a line makes.
fn line_calls(line: &[u8]) -> u64
    ensures value { result ≡ line_calls line.now }
    ensures most { result ≤ 1 }
{
    match entry_of(line) {
        Some(entry) if is_call(entry) => 1,
        _ => 0,
    }
}

/// How many calls a trace has.
pub fn count_calls(text: &[u8]) -> u64
    ensures { result ≡ calls_of (whole_lines text.now) }
{
    let mut calls = 0;
    let mut rest = text;
    while !rest.is_empty() {
        let end = reach(b'\n', rest);
        if end == rest.len() {
            return calls;
        }
        calls += line_calls(&rest[..end]);
        rest = skip(end + 1, rest);
    }
    calls
}

/// Appends the page of a trace to the bytes so far: one HTML page with an inline SVG, of the calls after `base`, up to `last`.
pub fn add_page(
    alloc: Global,
    out: &mut Vec<u8>,
    base: u64,
    last: u64,
    text: &[u8],
) -> Result<(), PageErr>
    ensures page { OnOk result
        (out.new.items ≡ out.old.items ++ page base last (whole_lines text.now)) }
    ensures good { OnOk result (bad_line text.now ≡ None) }
    ensures bad { IfErr result (λ e. (n : ℕ) → e ≡ PageErr.Line n → bad_line text.now ≡ Some n) }
{
    if text.is_empty() {
        return Err(PageErr::Line(1));
    }
    add_head(out)?;
    let mut scene = Scene::new(alloc, base, last);
    add_lines(&mut scene, out, text)?;
    scene.finish()?;
    scene.add_tail(out)?;
    Ok(())
}
