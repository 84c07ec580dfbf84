// How a pod stands.
ghost use Rattle.c_pods.specs.Effects.{put_front};
ghost use Rattle.c_pods.specs.Standing.{text_of_state};
ghost use Rattle.loqzemar.specs.Asked.{room_status};
ghost use Rattle.std.specs.Prelude.{◌≡◌, ◌≢◌, IfSome, None, length};

use crate::status::{DONE, NO_MEMORY, NO_POD, TOO_SMALL};
use c_pods::{HeldPod, PodHandle, put_bytes};
use std::alloc::Global;

// Writes the text of a pod's state.
fn write_state(alloc: Global, held: &HeldPod, out: &mut [u8], len: &mut usize) -> u32
    ensures status { result ≢ 1 → result ≡ room_status (length (text_of_state held.now)) (length out.old) }
    ensures len { result ≢ 1 → len.new ≡ length (text_of_state held.now) }
    ensures text { result ≢ 1 → out.new ≡ put_front (text_of_state held.now) out.old }
    ensures unwritten { result ≡ 1 → (len.new ≡ len.old) × (out.new ≡ out.old) }
{
    let room = out.len();
    let Ok(text) = held.state_text(alloc) else {
        return NO_MEMORY;
    };
    put_bytes(&text, out);
    *len = text.len();
    if room < text.len() { TOO_SMALL } else { DONE }
}

/// The text of the pod's state, as `lwpstate` prints it: how many bytes it has, and the first of them at the front of a buffer.
/// Procedures have the names that `loq_name` gave them, and there are no clients.
#[unsafe(no_mangle)]
pub extern "C" fn loq_state(
    alloc: Global,
    handle: &mut PodHandle,
    out: &mut [u8],
    len: &mut usize,
) -> u32
    ensures none { handle.old.pod ≡ None → (result ≡ 2) × (len.new ≡ len.old) × (out.new ≡ out.old) }
    ensures status { IfSome handle.old.pod (λ held. result ≢ 1
        → result ≡ room_status (length (text_of_state held)) (length out.old)) }
    ensures len { IfSome handle.old.pod (λ held. result ≢ 1 → len.new ≡ length (text_of_state held)) }
    ensures text { IfSome handle.old.pod (λ held. result ≢ 1 → out.new ≡ put_front (text_of_state held) out.old) }
    ensures unwritten { result ≡ 1 → (len.new ≡ len.old) × (out.new ≡ out.old) }
    ensures same { handle.new.pod ≡ handle.old.pod }
{
    let Some(held) = handle.take(alloc) else {
        return NO_POD;
    };
    let status = write_state(alloc, &held, out, len);
    handle.fill(held);
    status
}
