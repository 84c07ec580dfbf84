use line_server::StoreBody;
use lwp_types::{Answer, Call, Env, ExitCall, NoMemory, Polled, Text, Tid};
use std::alloc::Global;
use std::test::Fail;

// Whether a store that begins, or whose reply was taken, waits for a text.
fn waits<'s>(body: &mut StoreBody<'s>, env: &mut Env) -> Result<bool, NoMemory> {
    // PROVER: the checker asks for the types that a call holds.
    let _inside: Option<(Call, ExitCall, Answer)> = None;
    let mut call = Call::Return;
    body.poll(env, &Answer::Value(0), &mut call)?;
    Ok(matches!(call, Call::Recv { .. }))
}

fn is_reply(call: &Call, sender: Tid, told: &[u8]) -> bool {
    match call {
        Call::Reply { to, text } => *to == sender && text.equals(told),
        _ => false,
    }
}

// Whether a store replies so to this text of a sender.
fn tells<'s>(
    body: &mut StoreBody<'s>,
    env: &mut Env,
    from: u64,
    text: &'s [u8],
    told: &[u8],
) -> Result<bool, NoMemory> {
    // PROVER: the checker asks for the types that a call holds.
    let _inside: Option<(Call, ExitCall, Answer)> = None;
    let from = Tid { number: from };
    let text = Text::new(text).unwrap_or(Text::empty());
    let room = 240;
    let mut call = Call::Return;
    body.poll(env, &Answer::Letter { from, text, room }, &mut call)?;
    Ok(is_reply(&call, from, told) && waits(body, env)?)
}

// The texts that put a hundred keys. A store keeps what it is sent where it lies.
fn hundred_puts() -> [[u8; 6]; 100] {
    let mut puts = [*b"put 00"; 100];
    for i in 0..100u8 {
        puts[usize::from(i)] = [b'p', b'u', b't', b' ', b'0' + i / 10, b'0' + i % 10];
    }
    puts
}

// One sender puts a hundred keys.
fn fills<'s>(
    body: &mut StoreBody<'s>,
    env: &mut Env,
    puts: &'s [[u8; 6]; 100],
) -> Result<bool, NoMemory> {
    for put in puts {
        if !tells(body, env, 5, put, b"ok")? {
            return Ok(false);
        }
    }
    Ok(true)
}

// A sender, its text, and what it is told.
const ROWS: [(u64, &[u8], &[u8]); 10] = [
    (5, b"put k v", b"full"),
    (5, b"get k", b"none"),
    (5, b"put 57 v", b"ok"),
    (5, b"get 57", b"is v"),
    (6, b"put k v", b"ok"),
    (5, b"del 00", b"ok"),
    (5, b"put k v", b"ok"),
    (5, b"put 00", b"full"),
    (5, b"get 99", b"is"),
    (6, b"get k", b"is v"),
];

fn tells_rows<'s>(body: &mut StoreBody<'s>, env: &mut Env) -> Result<bool, NoMemory> {
    for (from, text, told) in &ROWS {
        if !tells(body, env, *from, text, told)? {
            return Ok(false);
        }
    }
    Ok(true)
}

fn tells_all<'s>(
    body: &mut StoreBody<'s>,
    env: &mut Env,
    puts: &'s [[u8; 6]; 100],
) -> Result<bool, NoMemory> {
    Ok(waits(body, env)? && fills(body, env, puts)? && tells_rows(body, env)?)
}

fn is_done(alloc: Global) -> Result<bool, NoMemory> {
    let mut env = Env::new(alloc, 0, 0, 0)?;
    let puts = hundred_puts();
    let mut body = StoreBody::new(alloc);
    tells_all(&mut body, &mut env, &puts)
}

#[test]
fn a_table_has_a_hundred_keys(rt: HostRuntime) -> Result<(), Fail> {
    assert!(rt; is_done(rt.alloc())?);
    Ok(())
}
