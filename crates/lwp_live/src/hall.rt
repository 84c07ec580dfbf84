// A place where one thread leaves bytes and another waits for them.
ghost use Rattle.std.specs.Prelude.{◌≡◌, ◌≤◌, ◌<◌, length};

use crate::arrivals::{Arrivals, HangUp};
use lwp_types::{NoMemory, Source};
use std::alloc::Global;
use std::collections::VecDeque;
use std::sync::{Arc, Condvar, Mutex, Wait};
use streams::{GhostBytes, More};

// So many pieces wait at most. A thread that brings more waits.
const WAITING: usize = 64;

// The pieces that wait, whether no more will be brought, and whether nobody wants more.
#[derive(Drop)]
struct Pieces {
    waiting: VecDeque<Vec<u8>>,
    is_over: bool,
    is_left: bool,
}

/// A place where one thread leaves bytes and another waits for them.
#[derive(Drop)]
pub struct Hall {
    pieces: Mutex<Pieces>,
    changed: Condvar,
}

impl Hall {
    /// Empty.
    pub fn new(alloc: Global) -> Hall {
        Hall {
            pieces: Mutex::new(Pieces {
                waiting: VecDeque::new(alloc),
                is_over: false,
                is_left: false,
            }),
            changed: Condvar::new(),
        }
    }

    /// Leaves bytes there, once there is room. False where nobody wants more, or memory is wanting; then nothing more can be left.
    pub fn bring<R: Wait>(&self, rt: &R, bytes: Vec<u8>) -> bool {
        let mut pieces = self.changed.wait_while(rt, self.pieces.lock(rt), |p| {
            !p.is_left && p.waiting.len() >= WAITING
        });
        if pieces.is_left || pieces.waiting.push_back(bytes).is_err() {
            pieces.is_over = true;
            self.changed.notify_all();
            return false;
        }
        self.changed.notify_all();
        true
    }

    /// No more will be brought.
    pub fn finish<R: Wait>(&self, rt: &R) {
        let mut pieces = self.pieces.lock(rt);
        pieces.is_over = true;
        self.changed.notify_all();
    }

    // Waits for the next bytes. None where no more will come, or nobody wants more.
    fn take<R: Wait>(&self, rt: &R) -> Option<Vec<u8>> {
        let mut pieces = self.changed.wait_while(rt, self.pieces.lock(rt), |p| {
            !p.is_left && !p.is_over && p.waiting.is_empty()
        });
        if pieces.is_left {
            return None;
        }
        let bytes = pieces.waiting.pop_front();
        self.changed.notify_all();
        bytes
    }
}

impl HangUp for Arc<Hall, Global> {
    fn hang_up<R: Wait>(&self, rt: &R) {
        let mut pieces = self.pieces.lock(rt);
        pieces.is_left = true;
        self.changed.notify_all();
    }
}

/// One that waits in a hall.
#[derive(Drop)]
pub struct Guest {
    hall: Arc<Hall, Global>,
    given: GhostBytes,
}

impl Guest {
    /// Waits in this hall.
    pub fn new(hall: &Arc<Hall, Global>) -> Result<Guest, NoMemory> {
        Ok(Guest {
            hall: Arc::try_clone(hall)?,
            given: GhostBytes::new(),
        })
    }
}

impl Arrivals for Guest {
    ghost given = { λ g. g.given.bytes };

    fn next<R: Wait>(&mut self, rt: &R) -> Option<Vec<u8>> {
        let bytes = self.hall.take(rt)?;
        let more = More {
            bytes: bytes.as_slice(),
        };
        self.given = self.given.then(&more);
        Some(bytes)
    }
}

// So many bytes are read at once.
const READ: usize = 65_536;

// Where the lines of some bytes end: after the last newline, or at their own end, where there is none.
fn cut_of(bytes: &[u8]) -> usize
    ensures { result ≤ length bytes.now }
{
    let mut end = bytes.len();
    while end > 0 && bytes[end - 1] != b'\n' {
        end -= 1;
    }
    if end == 0 { bytes.len() } else { end }
}

// How many bytes a source gives at once; none where it is at its end, or a read fails.
fn read_some<S: Source>(source: &mut S, buffer: &mut Vec<u8>) -> usize
    requires { 0 < length buffer.old.items }
    ensures within { result ≤ length buffer.new.items }
    ensures same { length buffer.new.items ≡ length buffer.old.items }
{
    let Ok(count) = source.read(buffer.as_mut_slice()) else {
        return 0;
    };
    count
}

// Some bytes up to the end of their last line go on a piece, and those after it are the next. Nothing where memory is wanting.
fn next_pieces(alloc: Global, piece: &mut Vec<u8>, bytes: &[u8]) -> Result<Vec<u8>, NoMemory> {
    let end = cut_of(bytes);
    piece.extend_from_slice(&bytes[..end])?;
    Ok(Vec::from_slice(alloc, &bytes[end..])?)
}

// Brings what a source gives, to its end, until nobody wants more. A piece ends where a line does, if one does.
fn bring_all<S: Source, R: Wait>(
    rt: &R,
    alloc: Global,
    hall: &Hall,
    source: &mut S,
) -> Result<(), NoMemory> {
    let mut buffer = Vec::from_elem(alloc, 0u8, READ)?;
    let mut piece = Vec::new(alloc);
    for _ in rt.forever() {
        let count = read_some(source, &mut buffer);
        if count == 0 {
            break;
        }
        let next = next_pieces(alloc, &mut piece, &buffer[..count])?;
        if !hall.bring(rt, piece) {
            return Ok(());
        }
        piece = next;
    }
    if !piece.is_empty() {
        hall.bring(rt, piece);
    }
    Ok(())
}

/// Brings what a source gives to a hall, to its end. A read that fails is its end.
pub fn fill<S: Source, R: Wait>(rt: &R, alloc: Global, hall: &Hall, source: &mut S) {
    let _ = bring_all(rt, alloc, hall, source);
    hall.finish(rt);
}
