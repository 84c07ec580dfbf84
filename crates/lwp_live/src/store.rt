// Where the bytes of lines stay until the pod has taken them, and after.
ghost use Rattle.std.specs.Prelude.{◌≡◌, IfOk};

use lwp_types::NoMemory;
use std::sync::Wait;

/// Bytes that stay where they were put. Threads share it, and it only grows.
pub type Store = boxcar::Vec<Vec<u8>>;

/// Puts bytes where they stay, and lends them from there.
pub fn keep<'s, R: Wait>(rt: &R, store: &'s Store, bytes: Vec<u8>) -> Result<&'s [u8], NoMemory>
    ensures { IfOk result (λ kept. kept.now ≡ bytes.items) }
{
    let Ok(pushed) = store.push_shown(rt, bytes) else {
        return Err(NoMemory);
    };
    Ok(store.value(&pushed).as_slice())
}
