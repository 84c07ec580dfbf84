use lists::TextList;
use lwp_types::{
    Answer, Call, Effect, Effects, Flags, Func, Line, LwpErr, Mode, NoMemory, Pattern, Text, Tid,
};
use std::alloc::Global;
use trace_text::*;

const FLAGS: Flags = Flags {
    suspended: true,
    nolastrites: false,
    server: true,
};

fn add_words(out: &mut Vec<u8>) -> Result<(), NoMemory> {
    add_text(out, func_word(Func::Give))?;
    add_spaced(out, b"up ")?;
    add_mode(out, Mode::Block)?;
    add_number(out, 250)?;
    add_pattern(out, Pattern::All)?;
    add_flags(out, FLAGS)?;
    add_text(out, b"\n")
}

// What a refusal, a death, a later delivery and the end of a pod are written as.
fn add_step(
    out: &mut Vec<u8>,
    lines: &mut StepLines,
    effects: &mut Effects,
    names: &TextList,
) -> Result<(), NoMemory> {
    effects.clear();
    effects.push(Effect::Answered {
        tid: Tid { number: 0 },
        answer: Answer::Refused(LwpErr::NonExist),
    });
    effects.push(Effect::Died {
        tid: Tid { number: 4 },
    });
    effects.push(Effect::Delivered {
        agent: Tid { number: 3 },
        event: 5,
    });
    effects.push(Effect::Ended { status: 3 });
    lines.set_step(effects, None, names)?;
    add_text(out, lines.bytes())
}

fn add_lines(out: &mut Vec<u8>, alloc: Global) -> Result<(), NoMemory> {
    let names = TextList::new(alloc);
    add_words(out)?;
    add_step(
        out,
        &mut StepLines::new(alloc),
        &mut Effects::new(alloc)?,
        &names,
    )?;
    add_text(out, &end_lines(alloc, &Halt::Stuck, 9, &[0, 2])?)
}

const LINES: &[u8] =
    b"give up wait250allsv\nt0 ! LE_NONEXIST\nt4 dies\nalso t3\npod ends 3\nstuck\nleft client 1 2\n";

fn are_written(alloc: Global) -> Result<bool, NoMemory> {
    let mut out = Vec::new(alloc);
    add_lines(&mut out, alloc)?;
    Ok(out.as_slice() == LINES)
}

#[test]
fn writes_lines(rt: HostRuntime) {
    assert!(rt; are_written(rt.alloc()) == Ok(true));
}

const TAKEN: &[u8] = b"event 31 client 15 seq 20 put k v\n";

fn is_told_alone(alloc: Global) -> Result<bool, NoMemory> {
    // PROVER: the checker asks for the types that an effect holds.
    let _inside: Option<(Call, Answer)> = None;
    let (client, seq) = (15, 20);
    let text = Text::new(b"put k v").unwrap_or(Text::empty());
    let e = Effect::Delivered {
        agent: Tid { number: 3 },
        event: 31,
    };
    let took = Line { client, seq, text };
    let line = trace_line(alloc, &e, Some(&took), &TextList::new(alloc))?;
    Ok(line.as_slice() == TAKEN)
}

#[test]
fn writes_the_line_of_one_effect(rt: HostRuntime) {
    assert!(rt; is_told_alone(rt.alloc()) == Ok(true));
}
