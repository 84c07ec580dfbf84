ghost use Rattle.std.specs.Prelude.{◌≡◌, []};

use lists::TextList;
use lwp_types::{Effect, Effects, Line, MemSink, NoMemory, Text, Tid};
use std::alloc::Global;
use std::test::Fail;
use streams::write_all;
use trace_text::StepLines;

fn push_three(effects: &mut Effects)
    requires { effects.old ≡ [] }
{
    effects.push(Effect::Delivered {
        agent: Tid { number: 2 },
        event: 5,
    });
    effects.push(Effect::Delivered {
        agent: Tid { number: 3 },
        event: 5,
    });
    effects.push(Effect::Ended { status: 7 });
}

fn text_of(bytes: &[u8]) -> Text<'_> {
    Text::new(bytes).unwrap_or(Text::empty())
}

// The lines of a step in which a line was taken, which two agents got.
fn lines_of_three(alloc: Global) -> Result<StepLines, NoMemory> {
    let mut effects = Effects::new(alloc)?;
    push_three(&mut effects);
    let line = Line {
        client: 0,
        seq: 1,
        text: text_of(b"two"),
    };
    let mut lines = StepLines::new(alloc);
    lines.set_step(&effects, Some(&line), &TextList::new(alloc))?;
    Ok(lines)
}

// What such lines are in a sink that takes three bytes at most at a time.
fn is_written(alloc: Global) -> Result<bool, NoMemory> {
    let mut sink = MemSink::new(alloc, 60, 3, Vec::new(alloc))?;
    let is_whole = write_all(&mut sink, lines_of_three(alloc)?.bytes()).is_ok();
    let want = b"event 5 client 0 seq 1 two\nalso t3\npod ends 7\n";
    Ok(is_whole && sink.bytes() == want.as_slice())
}

#[test]
fn the_lines_of_a_step_are_written_piece_by_piece(rt: HostRuntime) -> Result<(), Fail> {
    assert!(rt; is_written(rt.alloc())?);
    Ok(())
}
