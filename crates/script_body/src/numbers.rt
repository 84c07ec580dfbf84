// Procedures by number.
ghost use Rattle.std.specs.Prelude.{◌≡◌, ◌<◌, ◌≤◌, ◌^◌, length, map, nat_lt};
ghost use Rattle.script_text.specs.Script.{place_in, proc_number, proc_places, stmts_at};

use script_text::{Native, Proc, Script, Stmt};

// The first of them with this name, or their count.
fn place_of_proc(procs: &[Proc], name: u32) -> usize
    ensures place { result ≡ place_in name (map (λ p. p.name) procs.now) }
    ensures bound { result ≤ length procs.now }
{
    let mut place = 0;
    while place < procs.len() && procs[place].name != name {
        place += 1;
    }
    place
}

// The first of them with this name, or their count.
fn place_of_native(natives: &[Native], name: u32) -> usize
    ensures place { result ≡ place_in name (map (λ n. n.name) natives.now) }
    ensures bound { result ≤ length natives.now }
{
    let mut place = 0;
    while place < natives.len() && natives[place].name != name {
        place += 1;
    }
    place
}

/// The number of the procedure with this name, or how many procedures there are.
pub fn proc_number(script: &Script, name: u32) -> u32
    requires { length (proc_places script.now) < 2 ^ 32 }
    ensures { result ≡ proc_number script.now name }
{
    let procs = script.procs.as_slice();
    let place = place_of_proc(procs, name);
    if place < procs.len() {
        return place as u32;
    }
    (procs.len() + place_of_native(script.natives.as_slice(), name)) as u32
}

/// The statements of a procedure; a built-in one has none.
pub fn stmts_at(script: &Script, number: u32) -> &[Stmt]
    ensures { result.now ≡ stmts_at script.now number }
{
    match script.procs.as_slice().get(number as usize) {
        Some(found) => found.stmts.as_slice(),
        None => &[],
    }
}

/// Whether every procedure has a number.
pub fn has_numbers(script: &Script) -> bool
    ensures { result ≡ nat_lt (length (proc_places script.now)) 4294967296 }
{
    let procs = script.procs.as_slice();
    let natives = script.natives.as_slice();
    procs.len() + natives.len() <= u32::MAX as usize
}
