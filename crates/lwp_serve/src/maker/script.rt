// The script as bytes.
ghost use Rattle.std.specs.Prelude.{◌≡◌, ◌++◌, ◌<◌, ◌^◌, ◌+◌, IfOk, OnOk};
ghost use Rattle.lwp_serve.specs.Maker.Made.{each, client_line, declarations, procedure, command, past, post_line, round, rounds, made_script};
ghost use Rattle.lwp_serve.specs.Maker.Order.{IsAllowed};

use crate::maker::draws::Draws;
use crate::maker::write::{add_number, add_text};
use lwp_types::NoMemory;
use std::alloc::Global;

// A line that stands once for each client.
#[derive(Clone, Copy)]
pub enum ClientLine {
    Client,
    Native,
    Create,
    Join,
    Quit,
}

fn add_client_line(out: &mut Vec<u8>, line: ClientLine, client: u64) -> Result<(), NoMemory>
    requires { client < 2 ^ 32 }
    ensures { OnOk result (out.new.items ≡ out.old.items ++ client_line line client) }
{
    match line {
        ClientLine::Client => {
            add_number(out, b"client ", client)?;
            add_number(out, b" ", client + 1)?;
            add_text(out, b"\n")
        }
        ClientLine::Native => {
            add_number(out, b"native s", client)?;
            add_number(out, b" session ", client + 1)?;
            add_text(out, b" db\n")
        }
        ClientLine::Create => {
            add_number(out, b"create a", client)?;
            add_number(out, b" s", client)?;
            add_text(out, b" 1 -\n")
        }
        ClientLine::Join => {
            add_number(out, b"join a", client)?;
            add_text(out, b"\n")
        }
        ClientLine::Quit => {
            add_number(out, b"post ", client)?;
            add_text(out, b" quit\n")
        }
    }
}

fn add_client_lines(out: &mut Vec<u8>, line: ClientLine, threads: u32) -> Result<(), NoMemory>
    ensures { OnOk result (out.new.items ≡ out.old.items ++ each (client_line line) threads) }
{
    for client in 0..threads {
        add_client_line(out, line, u64::from(client))?;
    }
    Ok(())
}

fn add_declarations(out: &mut Vec<u8>, threads: u32) -> Result<(), NoMemory>
    ensures { OnOk result (out.new.items ≡ out.old.items ++ declarations threads) }
{
    add_text(out, b"lwp 1\npod 2\n")?;
    add_client_lines(out, ClientLine::Client, threads)?;
    add_text(out, b"native db store\n")?;
    add_client_lines(out, ClientLine::Native, threads)
}

fn add_procedure(out: &mut Vec<u8>, threads: u32) -> Result<(), NoMemory>
    ensures { OnOk result (out.new.items ≡ out.old.items ++ procedure threads) }
{
    add_text(out, b"proc main\ncreate db db 2 v\n")?;
    add_client_lines(out, ClientLine::Create, threads)?;
    add_client_lines(out, ClientLine::Join, threads)
}

fn add_command(out: &mut Vec<u8>, kind: u64, key: u64, value: u64) -> Result<(), NoMemory>
    ensures { OnOk result (out.new.items ≡ out.old.items ++ command kind key value) }
{
    match kind {
        0 => {
            add_number(out, b"put k", key)?;
            add_number(out, b" v", value)
        }
        1 => add_number(out, b"get k", key),
        2 => add_number(out, b"del k", key),
        _ => add_text(out, b"bogus"),
    }
}

fn add_post(out: &mut Vec<u8>, draws: &mut Draws, i: u64, client: u64) -> Result<(), NoMemory>
    ensures text { OnOk result (out.new.items ≡ out.old.items ++ post_line draws.old.state i client) }
    ensures draws { OnOk result (draws.new.state ≡ past draws.old.state 1) }
{
    add_number(out, b"post ", client)?;
    add_text(out, b" ")?;
    let key = draws.draw(50);
    let kind = draws.draw(4);
    add_command(out, kind, key, i)?;
    add_text(out, b"\n")
}

fn add_round(out: &mut Vec<u8>, draws: &mut Draws, i: u64, threads: u32) -> Result<(), NoMemory>
    ensures text { OnOk result (out.new.items ≡ out.old.items ++ round threads draws.old.state i) }
    ensures draws { OnOk result (draws.new.state ≡ past draws.old.state threads) }
{
    for client in 0..threads {
        add_post(out, draws, i, u64::from(client))?;
    }
    Ok(())
}

fn add_rounds(out: &mut Vec<u8>, seed: u64, threads: u32, lines: u32) -> Result<(), NoMemory>
    ensures { OnOk result (out.new.items ≡ out.old.items ++ rounds seed threads lines) }
{
    let mut draws = Draws { state: seed };
    for i in 0..lines {
        add_round(out, &mut draws, u64::from(i), threads)?;
    }
    Ok(())
}

/// A script with `threads` clients, each of which posts `lines` commands and then quits. The commands are drawn from `seed`.
#[tactic(auto, unfolding(crate::specs::Maker::Made::made_script))]
pub fn make_script(alloc: Global, seed: u64, threads: u32, lines: u32) -> Result<Vec<u8>, NoMemory>
    requires { IsAllowed threads lines }
    ensures { IfOk result (λ text. text.items ≡ made_script seed threads lines) }
{
    let mut out = Vec::new(alloc);
    add_declarations(&mut out, threads)?;
    add_procedure(&mut out, threads)?;
    add_rounds(&mut out, seed, threads, lines)?;
    add_client_lines(&mut out, ClientLine::Quit, threads)?;
    Ok(out)
}
