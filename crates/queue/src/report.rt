// The results as a text and as a picture.
ghost use Rattle.std.specs.Prelude.{OnOk, [], ◌++◌, ◌<◌, ◌∷◌, ◌≡◌, ◌≤◌};
ghost use Rattle.queue.specs.Report.{bar_line, bar_lines, count_line, drawn, fraction_text, highest, last_digit, mean_line, picture, product, rect_line, rect_lines, results, thousandths, use_line};

use lwp_types::NoMemory;
use queue_model::{Tally, put, put_count, put_number};

// How high the highest bar is, and how far apart the bars begin.
const HIGH: u64 = 200;

const STEP: u64 = 20;

fn product(a: u64, b: u64) -> u64
    ensures { result ≡ product a b }
{
    a.saturating_mul(b)
}

fn last_digit(n: u128) -> u8
    ensures { result ≡ last_digit n }
{
    b'0' + (n % 10) as u8
}

// What follows the whole part of a fraction.
fn thousandths(n: u64, d: u64) -> [u8; 4]
    requires { 0 < d }
    ensures { result ≡ thousandths n d }
{
    let all = u128::from(n) * 1_000 / u128::from(d);
    [
        b'.',
        last_digit(all / 100),
        last_digit(all / 10),
        last_digit(all),
    ]
}

fn put_fraction(out: &mut Vec<u8>, n: u64, d: u64) -> Result<(), NoMemory>
    ensures { OnOk result (out.new.items ≡ out.old.items ++ fraction_text n d) }
{
    if d == 0 {
        return put(out, b"-");
    }
    put_number(out, n / d)?;
    put(out, &thousandths(n % d, d))
}

fn put_line(out: &mut Vec<u8>, name: &[u8], n: u64) -> Result<(), NoMemory>
    ensures { OnOk result (out.new.items ≡ out.old.items ++ count_line name.now n) }
{
    put_count(out, name, n)?;
    put(out, b"\n")
}

fn put_mean(out: &mut Vec<u8>, tally: &Tally) -> Result<(), NoMemory>
    ensures { OnOk result (out.new.items ≡ out.old.items ++ mean_line tally.now) }
{
    put(out, b"mean wait ")?;
    put_fraction(out, tally.waited, tally.begun)?;
    put(out, b"\n")
}

fn put_use(out: &mut Vec<u8>, tally: &Tally, servers: u16, ticks: u64) -> Result<(), NoMemory>
    ensures { OnOk result (out.new.items ≡ out.old.items ++ use_line tally.now servers ticks) }
{
    put(out, b"utilisation ")?;
    let busy = tally.ends.saturating_sub(tally.begins);
    put_fraction(out, busy, product(ticks, u64::from(servers)))?;
    put(out, b"\n")
}

fn put_bar(out: &mut Vec<u8>, width: u64, bar: usize, n: u64) -> Result<(), NoMemory>
    ensures { OnOk result (out.new.items ≡ out.old.items ++ bar_line width bar n) }
{
    put_count(out, b"waited from ", product(bar as u64, width))?;
    put_count(out, b": ", n)?;
    put(out, b"\n")
}

fn put_bars(out: &mut Vec<u8>, width: u64, bars: &[u64]) -> Result<(), NoMemory>
    ensures { OnOk result (out.new.items ≡ out.old.items ++ bar_lines width 0 bars.now) }
{
    for bar in 0..bars.len() {
        put_bar(out, width, bar, bars[bar])?;
    }
    Ok(())
}

/// The results as lines: who came and was lost, how long who was served had waited on average, in ticks, how much of their time the
/// servers served, and how many waited how long.
pub fn put_text(out: &mut Vec<u8>, tally: &Tally, servers: u16, ticks: u64) -> Result<(), NoMemory>
    ensures { OnOk result (out.new.items ≡ out.old.items ++ results tally.now servers ticks) }
{
    put_line(out, b"customers ", tally.came)?;
    put_line(out, b"lost ", tally.lost)?;
    put_mean(out, tally)?;
    put_use(out, tally, servers, ticks)?;
    put_bars(out, tally.width, &tally.bars)
}

fn highest(bars: &[u64]) -> u64
    ensures value { result ≡ highest bars.now }
    ensures least { 1 ≤ result }
{
    let mut most = 1;
    for bar in bars {
        most = most.max(*bar);
    }
    most
}

// How high a bar is drawn.
fn drawn(most: u64, n: u64) -> u64
    requires { 0 < most }
    ensures value { result ≡ drawn most n }
    ensures most { result ≤ 200 }
{
    (u128::from(n) * u128::from(HIGH) / u128::from(most)).min(u128::from(HIGH)) as u64
}

fn put_rect(out: &mut Vec<u8>, most: u64, bar: usize, n: u64) -> Result<(), NoMemory>
    requires { 0 < most }
    ensures { OnOk result (out.new.items ≡ out.old.items ++ rect_line most bar n) }
{
    let height = drawn(most, n);
    put_count(out, b"<rect x=\"", product(bar as u64, STEP))?;
    put_count(out, b"\" y=\"", HIGH - height)?;
    put_count(out, b"\" width=\"16\" height=\"", height)?;
    put(out, b"\"/>\n")
}

fn put_rects(out: &mut Vec<u8>, most: u64, bars: &[u64]) -> Result<(), NoMemory>
    requires { 0 < most }
    ensures { OnOk result (out.new.items ≡ out.old.items ++ rect_lines most 0 bars.now) }
{
    for bar in 0..bars.len() {
        put_rect(out, most, bar, bars[bar])?;
    }
    Ok(())
}

/// The histogram of waits as an SVG picture.
pub fn put_picture(out: &mut Vec<u8>, tally: &Tally) -> Result<(), NoMemory>
    ensures { OnOk result (out.new.items ≡ out.old.items ++ picture tally.now) }
{
    put(
        out,
        b"<svg xmlns=\"http://www.w3.org/2000/svg\" width=\"640\" height=\"200\">\n",
    )?;
    put_rects(out, highest(&tally.bars), &tally.bars)?;
    put(out, b"</svg>\n")
}
