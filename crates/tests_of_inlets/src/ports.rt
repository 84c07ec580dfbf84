ghost use Rattle.std.specs.Prelude.{◌≡◌, ◌+◌, ◌≤◌, [], All, IfOk, length};
ghost use denote.Param.Send.{IsSync};

use event_gate::{Bell, Gate, ListGate, NoGate, PostEnd, Poster, Taker, open_port, post_all};
use lwp_types::{Line, NoMemory, Text};
use script_run::{Job, join, start};
use std::alloc::Global;
use std::snapshot::Snapshot;
use std::sync::Wait;
use std::test::*;
use std::thread::{self, Promise, PromisedHandle, Scope, Threads};

fn text(bytes: &[u8]) -> Text<'_> {
    Text::new(bytes).unwrap_or(Text::empty())
}

// So many texts.
fn texts_of<'s>(alloc: Global, count: usize) -> Result<Vec<Text<'s>>, NoMemory>
    ensures { IfOk result (λ v. length v.items ≡ count) }
{
    let mut texts = Vec::new(alloc);
    for _ in 0..count {
        texts.push(text(b"a"))?;
    }
    Ok(texts)
}

fn line<'s>(client: u8, seq: u32) -> Line<'s>
    ensures { result.client ≡ client }
{
    Line {
        client,
        seq,
        text: text(b"a"),
    }
}

// What a thread of a client does: it posts all texts.
#[derive(Drop)]
struct PostsAll<'s> {
    poster: Poster<'s>,
    texts: &'s [Text<'s>],
    bell: &'s Bell,
}

impl<'s> Job for PostsAll<'s> {
    type End = PostEnd<'s>;

    ghost ready = { λ j. length j.poster.posted + length j.texts.now ≤ 4294967295 };

    ghost ends = { λ j e. e.pass.port ≡ j.poster.port };

    fn run<R: Wait>(self, rt: &R) -> PostEnd<'s> {
        let PostsAll {
            poster,
            texts,
            bell,
        } = self;
        post_all(rt, poster, &mut NoGate, texts, bell)
    }
}

// What a thread of this port's clients will bring back.
#[derive(Drop)]
struct OfPort<'s> {
    taker: Snapshot<Taker<'s>>,
}

impl<'s> Promise<PostEnd<'s>> for OfPort<'s> {
    ghost kept_by = { λ p e. e.pass.port ≡ p.taker.value.port };
}

// How many lines came, by client, and whether each came in its place.
#[derive(Drop)]
struct Tally {
    counts: [u32; 16],
    in_order: bool,
}

impl Tally {
    fn new() -> Tally {
        Tally {
            counts: [0; 16],
            in_order: true,
        }
    }

    fn note(&mut self, line: &Line) {
        let i = usize::from(line.client);
        if i >= 16 || line.seq != self.counts[i] {
            self.in_order = false;
        } else {
            self.counts[i] = self.counts[i].wrapping_add(1);
        }
    }
}

// Takes so many lines, and waits on the bell where none is there.
fn take_some<R: Wait>(rt: &R, taker: &mut Taker, bell: &Bell, lines: u32, tally: &mut Tally)
    ensures { taker.new.port ≡ taker.old.port }
{
    let mut taken = 0;
    for _ in rt.forever() {
        if taken >= lines {
            return;
        }
        if let Some(line) = taker.take(rt) {
            tally.note(&line);
            taken += 1;
        } else {
            bell.park(rt);
        }
    }
}

// Starts a thread for each poster, which posts all texts.
fn start_all<'s, E, R: Threads + Wait + Sync>(
    scope: &Scope<'s, E>,
    rt: &'s R,
    alloc: Global,
    taker: &Taker<'s>,
    posters: Vec<Poster<'s>>,
    texts: &'s [Text<'s>],
    bell: &'s Bell,
) -> Result<Vec<PromisedHandle<PostEnd<'s>, OfPort<'s>>>, NoMemory>
    requires new { All (λ p. (p.port ≡ taker.now.port) × (p.posted ≡ [])) posters.items }
    requires few { length texts.now ≤ 1000 }
    ensures { IfOk result (λ v. All (λ h. h.promise.taker.value.port ≡ taker.now.port) v.items) }
{
    let mut handles = Vec::new(alloc);
    for poster in posters {
        let promise = OfPort {
            taker: Snapshot::of(taker),
        };
        let posts = PostsAll {
            poster,
            texts,
            bell,
        };
        let Ok(handle) = start(scope, rt, promise, posts) else {
            return Err(NoMemory);
        };
        handles.push(handle)?;
    }
    Ok(handles)
}

// Takes in the passes of all threads, and answers how many have posted all.
fn take_in_all<'s, R: Threads + Wait>(
    rt: &R,
    taker: &mut Taker<'s>,
    handles: Vec<PromisedHandle<PostEnd<'s>, OfPort<'s>>>,
) -> u32
    requires { All (λ h. h.promise.taker.value.port ≡ taker.old.port) handles.items }
{
    let mut whole = 0u32;
    for handle in handles {
        let PostEnd { pass, all } = join(rt, handle);
        taker.take_in(pass);
        whole = whole.wrapping_add(u32::from(all));
    }
    whole
}

// What came of it: the lines that came, how many threads posted all, how many lines were left when all had, and whether
// none was left in the end.
#[derive(Drop)]
struct Harvest {
    tally: Tally,
    whole: u32,
    left: u32,
    done: bool,
}

// Threads post while this one takes ten thousand lines, and the rest when they have ended.
fn take_while_posting<'s, E, R: Threads + Wait + Sync>(
    scope: &Scope<'s, E>,
    rt: &'s R,
    alloc: Global,
    texts: &'s [Text<'s>],
    bell: &'s Bell,
) -> Result<Harvest, NoMemory>
    requires { length texts.now ≤ 1000 }
{
    let clients = [0u8, 1, 2, 3, 4, 5, 6, 7, 8, 9, 10, 11, 12, 13, 14, 15];
    let (mut taker, posters) = open_port(rt, alloc, 5, &clients)?;
    let handles = start_all(scope, rt, alloc, &taker, posters, texts, bell)?;
    let mut tally = Tally::new();
    take_some(rt, &mut taker, bell, 10_000, &mut tally);
    let whole = take_in_all(rt, &mut taker, handles);
    let mut left = 0u32;
    for client in 0..16 {
        left = left.wrapping_add(taker.left(client));
    }
    take_some(rt, &mut taker, bell, left, &mut tally);
    let done = taker.told() && taker.take(rt).is_none();
    Ok(Harvest {
        tally,
        whole,
        left,
        done,
    })
}

fn rush_of_sixteen<R: Threads + Wait + Sync>(
    rt: &R,
    alloc: Global,
    texts: &[Text],
) -> Result<Harvest, NoMemory>
    requires { length texts.now ≤ 1000 }
{
    let bell = Bell::new();
    let bell = &bell;
    thread::scope(
        thread::scope_env(),
        rt,
        move |scope| -> Result<Harvest, NoMemory>
            requires { IsSync R.row × (length texts.now ≤ 1000) }
        { take_while_posting(scope, rt, alloc, texts, bell) },
    )
}

// Whether each of sixteen threads has posted all, and each line has come once and in its place.
fn is_whole(harvest: &Harvest) -> bool {
    harvest.whole == 16
        && harvest.left == 6_000
        && harvest.tally.counts == [1000; 16]
        && harvest.tally.in_order
        && harvest.done
}

#[test]
fn sixteen_clients_post_while_one_thread_takes(rt: HostRuntime) -> Result<(), Fail> {
    let texts = texts_of(rt.alloc(), 1000)?;
    let harvest = rush_of_sixteen(&rt, rt.alloc(), &texts)?;
    assert!(rt; is_whole(&harvest));
    Ok(())
}

// Each client posts these texts and ends, and its pass comes in at once. Answers how often another pass was still out.
fn take_in_each<'s, R: Wait>(
    rt: &R,
    taker: &mut Taker<'s>,
    posters: Vec<Poster<'s>>,
    texts: &[Text<'s>],
    bell: &Bell,
) -> u32
    requires new { All (λ p. (p.port ≡ taker.old.port) × (p.posted ≡ [])) posters.items }
    requires few { length texts.now ≤ 1000 }
{
    let mut out = 0u32;
    for poster in posters {
        let PostEnd { pass, all: _ } = post_all(rt, poster, &mut NoGate, texts, bell);
        taker.take_in(pass);
        out = out.wrapping_add(u32::from(!taker.told()));
    }
    out
}

fn both_end_early<'s, R: Wait>(
    rt: &R,
    alloc: Global,
    texts: &[Text<'s>],
    bell: &Bell,
) -> Result<(Taker<'s>, u32), NoMemory>
    requires { length texts.now ≤ 1000 }
{
    let (mut taker, posters) = open_port(rt, alloc, 7, &[3, 9])?;
    let out = take_in_each(rt, &mut taker, posters, texts, bell);
    Ok((taker, out))
}

// Whether both clients' lines are taken, one after another, and how many are left of each is told.
fn is_emptied<R: Wait>(rt: &R, taker: &mut Taker) -> bool {
    for wanted in [(2, 2), (1, 2), (0, 2), (0, 1), (0, 0)] {
        if (taker.left(3), taker.left(9)) != wanted {
            return false;
        }
        let _ = taker.take(rt);
    }
    true
}

#[test]
fn a_pass_comes_in_before_its_lines(rt: HostRuntime) -> Result<(), Fail> {
    let texts = texts_of(rt.alloc(), 2)?;
    let bell = Bell::new();
    let (mut taker, out) = both_end_early(&rt, rt.alloc(), &texts, &bell)?;
    bell.park(&rt);
    assert!(rt; (out, bell.gone(&rt), taker.event()) == (1, 2, 7) && is_emptied(&rt, &mut taker));
    Ok(())
}

fn left_of_three(gate: &ListGate) -> [u32; 3] {
    [gate.left(0), gate.left(1), gate.left(2)]
}

// An event, and the client and the number of the line that is taken for it; 9 where there is none.
const TAKES: [(u8, (u8, u32)); 6] = [
    (5, (0, 0)),
    (5, (0, 1)),
    (6, (1, 0)),
    (5, (2, 0)),
    (5, (9, 9)),
    (7, (9, 9)),
];

fn gives_all(gate: &mut ListGate) -> bool {
    for (event, wanted) in TAKES {
        let came = match gate.take(event) {
            Some(line) => (line.client, line.seq),
            None => (9, 9),
        };
        if came != wanted {
            return false;
        }
    }
    true
}

fn list_gate<'s>(alloc: Global) -> Result<ListGate<'s>, NoMemory> {
    let posts = [line(0, 0), line(1, 0), line(0, 1), line(2, 0)];
    ListGate::new(alloc, &[5, 6, 5], &posts)
}

#[test]
fn a_gate_gives_each_event_its_lines_in_order(rt: HostRuntime) -> Result<(), Fail> {
    let mut gate = list_gate(rt.alloc())?;
    assert!(rt;
        left_of_three(&gate) == [2, 1, 1] && gives_all(&mut gate) && left_of_three(&gate) == [0; 3]
    );
    Ok(())
}
