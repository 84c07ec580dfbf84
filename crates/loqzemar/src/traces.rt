// The trace of the last step, written and compared.
ghost use Rattle.c_pods.specs.Effects.{put_front};
ghost use Rattle.c_pods.specs.Held.{lines_of};
ghost use Rattle.loqzemar.specs.Asked.{but_lines, follow_status, followed, room_status};
ghost use Rattle.std.specs.Prelude.{◌≡◌, ◌≢◌, IfSome, None, length, option_map};

use crate::status::{DIFFERS, DONE, NO_MEMORY, NO_POD, TOO_SMALL};
use c_pods::{Place, PodHandle, follow, put_bytes};
use std::alloc::Global;

/// The lines of the trace of the last call or delivery: how many bytes they are, and the first of them at the front of a buffer.
#[unsafe(no_mangle)]
pub extern "C" fn loq_lines(
    alloc: Global,
    handle: &mut PodHandle,
    out: &mut [u8],
    len: &mut usize,
) -> u32
    ensures none { handle.old.pod ≡ None → (result ≡ 2) × (len.new ≡ len.old) × (out.new ≡ out.old) }
    ensures status { IfSome handle.old.pod (λ held. result ≢ 1
        → result ≡ room_status (length (lines_of held)) (length out.old)) }
    ensures len { IfSome handle.old.pod (λ held. result ≢ 1 → len.new ≡ length (lines_of held)) }
    ensures lines { IfSome handle.old.pod (λ held. result ≢ 1 → out.new ≡ put_front (lines_of held) out.old) }
    ensures unwritten { result ≡ 1 → (len.new ≡ len.old) × (out.new ≡ out.old) }
    ensures same { option_map but_lines handle.new.pod ≡ option_map but_lines handle.old.pod }
{
    let Some(mut held) = handle.take(alloc) else {
        return NO_POD;
    };
    let Ok(()) = held.write_lines() else {
        handle.fill(held);
        return NO_MEMORY;
    };
    let room = out.len();
    let lines = held.lines.bytes();
    let count = lines.len();
    put_bytes(lines, out);
    handle.fill(held);
    *len = count;
    if room < count { TOO_SMALL } else { DONE }
}

/// Goes along a recorded trace from the byte `at` on, where its line `line` begins, as far as it has the lines of the last call or
/// delivery: past all of them, or to the first that differs.
#[unsafe(no_mangle)]
pub extern "C" fn loq_follow(
    alloc: Global,
    handle: &mut PodHandle,
    trace: &[u8],
    at: &mut usize,
    line: &mut usize,
) -> u32
    ensures none { handle.old.pod ≡ None → (result ≡ 2) × (at.new ≡ at.old) × (line.new ≡ line.old) }
    ensures status { IfSome handle.old.pod (λ held. result ≢ 1
        → result ≡ follow_status (followed held trace.now at.old line.old).same) }
    ensures at { IfSome handle.old.pod (λ held. result ≢ 1 → at.new ≡ (followed held trace.now at.old line.old).place.at) }
    ensures line { IfSome handle.old.pod (λ held. result ≢ 1
        → line.new ≡ (followed held trace.now at.old line.old).place.line) }
    ensures unread { result ≡ 1 → (at.new ≡ at.old) × (line.new ≡ line.old) }
    ensures same { option_map but_lines handle.new.pod ≡ option_map but_lines handle.old.pod }
{
    let Some(mut held) = handle.take(alloc) else {
        return NO_POD;
    };
    let Ok(()) = held.write_lines() else {
        handle.fill(held);
        return NO_MEMORY;
    };
    let from = Place {
        at: *at,
        line: *line,
    };
    let gone = follow(held.lines.bytes(), trace, from);
    handle.fill(held);
    *at = gone.place.at;
    *line = gone.place.line;
    if gone.same { DONE } else { DIFFERS }
}
