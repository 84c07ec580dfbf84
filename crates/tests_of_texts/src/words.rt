ghost use Rattle.std.specs.Prelude.{◌≡◌, []};

use lwp_types::{
    Answer, Call, Cid, Effect, Effects, Env, Failed, MemSink, MemSource, Mid, NULL_CID, NULL_MID,
    NULL_TID, NoMemory, PLACES, Sink, Source, TEXT_MAX, Text, Tid,
};
use std::alloc::Global;
use std::test::Fail;

const A: Tid = Tid { number: 4 };

const B: Tid = Tid { number: 7 };

const NULL: u64 = u64::MAX;

fn is_kept(bytes: &[u8]) -> bool {
    match Text::new(bytes) {
        Some(text) => text.equals(bytes),
        None => false,
    }
}

#[test]
fn a_text_has_240_printable_bytes_at_most(rt: HostRuntime) {
    let rows: [(&[u8], bool); 10] = [
        (b"", true),
        (b" ", true),
        (b"~", true),
        (b"to the 3rd & last", true),
        (&[b'x'; TEXT_MAX], true),
        (&[b'x'; 241], false),
        (b"\x1f", false),
        (b"\x7f", false),
        (b"a\n", false),
        (b"\xe9", false),
    ];
    for (bytes, wanted) in rows {
        assert!(rt; is_kept(bytes) == wanted, "at {bytes:?}");
    }
}

// Whether these are the bytes of a text, also where the room for them isn't empty.
fn is_told(text: &Text, wanted: &[u8]) -> bool {
    let mut room = [b'?'; TEXT_MAX];
    text.bytes(&mut room) == wanted
}

#[test]
fn a_text_is_told_in_one_piece(rt: HostRuntime) {
    assert!(rt; is_told(&Text::lent(b"get k"), b"get k"));
    assert!(rt; is_told(&Text::is(b""), b"is "));
    assert!(rt; is_told(&Text::is(b"a value"), b"is a value"));
    assert!(rt; is_told(&Text::thread(b"17"), b"t17"));
}

// Who the thread is and what the names of two threads, a monitor and the last of three conditions mean, each with a name
// more than there is.
fn numbers(env: &Env) -> [u64; 7] {
    [
        env.me().number,
        env.thread(1).number,
        env.thread(2).number,
        env.mon(0).number,
        env.mon(1).number,
        env.cond(2).number,
        env.cond(3).number,
    ]
}

fn set_all(env: &mut Env) {
    env.set_me(A);
    env.set_thread(1, B);
    env.set_thread(2, A);
    env.set_mon(0, Mid { number: 5 });
    env.set_mon(1, Mid { number: 8 });
    env.set_cond(2, Cid { number: 6 });
    env.set_cond(3, Cid { number: 8 });
}

#[test]
fn names_are_null_until_they_are_set(rt: HostRuntime) -> Result<(), Fail> {
    let mut env = Env::new(rt.alloc(), 2, 1, 3)?;
    let before = numbers(&env);
    set_all(&mut env);
    assert!(rt; before == [NULL; 7] && numbers(&env) == [4, 7, NULL, 5, NULL, 6, NULL]);
    assert!(rt; (env.thread_count(), env.mon_count(), env.cond_count()) == (2, 1, 3));
    assert!(rt; (NULL_TID.number, NULL_MID.number, NULL_CID.number) == (NULL, NULL, NULL));
    Ok(())
}

fn come_out(effects: &mut Effects) -> bool
    requires { effects.old ≡ [] }
{
    let _inside: Option<(Call, Answer)> = None;
    effects.push(Effect::Died { tid: A });
    effects.push(Effect::Died { tid: B });
    effects.push(Effect::Ended { status: 2 });
    let last = matches!(effects.get(2), Effect::Ended { status: 2 });
    let first = matches!(
        effects.pop_front(),
        Some(Effect::Died {
            tid: Tid { number: 4 }
        })
    );
    let left = effects.len();
    effects.clear();
    first && last && left == 2 && effects.len() == 0 && effects.pop_front().is_none()
}

#[test]
fn effects_come_out_as_they_went_in(rt: HostRuntime) -> Result<(), Fail> {
    let mut effects = Effects::new(rt.alloc())?;
    assert!(rt; come_out(&mut effects) && PLACES == 2048);
    Ok(())
}

// Whether a source gives "hello" three bytes at most at a time, and fails at its second and fifth call.
fn gives(source: &mut MemSource) -> bool {
    let mut buf = *b"...";
    for (answer, wanted) in [
        (Ok(3), *b"hel"),
        (Err(Failed), *b"hel"),
        // What wasn't read is still there, and it is less than the buffer takes.
        (Ok(2), *b"lol"),
        (Ok(0), *b"lol"),
        (Err(Failed), *b"lol"),
        (Ok(0), *b"lol"),
    ] {
        if source.read(&mut buf) != answer || buf != wanted {
            return false;
        }
    }
    true
}

fn hello(alloc: Global) -> Result<MemSource, NoMemory> {
    Ok(MemSource::new(b"hello".to_vec(alloc)?, vec![in alloc; 1, 4]?))
}

#[test]
fn a_source_gives_its_bytes_in_parts_and_fails_where_it_is_told_to(
    rt: HostRuntime,
) -> Result<(), Fail> {
    assert!(rt; gives(&mut hello(rt.alloc())?));
    Ok(())
}

// Whether a sink with five places takes three bytes at most at a time, and fails at its second call and where it is full.
fn takes(sink: &mut MemSink) -> bool {
    let rows: [(&[u8], Result<usize, Failed>, &[u8]); 5] = [
        (b"hello!", Ok(3), b"hel"),
        (b"lo!", Err(Failed), b"hel"),
        (b"lo!", Ok(2), b"hello"),
        (b"!", Err(Failed), b"hello"),
        (b"", Ok(0), b"hello"),
    ];
    for (bytes, answer, wanted) in rows {
        if sink.write(bytes) != answer || sink.bytes() != wanted {
            return false;
        }
    }
    true
}

#[test]
fn a_sink_takes_bytes_in_parts_and_fails_where_it_is_told_to_or_is_full(
    rt: HostRuntime,
) -> Result<(), Fail> {
    let alloc = rt.alloc();
    let mut sink = MemSink::new(alloc, 5, 3, vec![in alloc; 1]?)?;
    assert!(rt; takes(&mut sink));
    Ok(())
}
