// The text of what is drawn. Each function but those that answer a number or a word puts its part at the end of the bytes so far.
ghost use Rattle.std.specs.Prelude.{◌≡◌, ◌≤◌, ◌+◌, ◌++◌, OnOk, codes};
ghost use Rattle.std.specs.Fmt.{decimal};
ghost use Rattle.trace_page.specs.Measures.{below_rows, lane_height, middle, most_down, most_right};
ghost use Rattle.trace_page.specs.Shapes.{class_text, element_closed, group_closed, group_open, label_closed, posted_text, sign_open, tag_text, title_text, use_open, value_text, waits_text, arrow_text, band_text, bar_text, clock_label, clock_text, closing_text, deep, due_class, due_text, escaped_text, escaped_byte, event_text, group_text, half, held_text, held_words, label_text, lane_waits, letter_text, named_text, path_text, posted_label, rect_text, rule_text, said_text, shape_text, shapes_text, sign_of, tick_text, trap_text, use_text, wait_class, wait_text, wanted_text, way_class, x_of, y_of};

use crate::measures::{
    BELOW_ROWS, CALL_WIDTH, DUE_GAP, FIRST_CALL, FIRST_LANE, FOOT, HALF_CALL, LANE_HEIGHT, MIDDLE,
    MOST_CALLS, MOST_LANES, TICK_SPOT, end_row, outside_row,
};
use crate::scene::{Kind, Lane, Moment, Need, Scene, Shape, Span, Way};
use crate::steps::{need_of, place};
use crate::waits::{awaited, is_stuck};
use lwp_types::NoMemory;
use trace_lines::{Gain, NOBODY};
use trace_text::{add_number, add_text};

// ---- Text of the trace.

fn add_escaped_byte(out: &mut Vec<u8>, byte: u8) -> Result<(), NoMemory>
    ensures { OnOk result (out.new.items ≡ out.old.items ++ escaped_byte byte) }
{
    let name: &[u8] = match byte {
        b'&' => b"&amp;",
        b'<' => b"&lt;",
        b'>' => b"&gt;",
        b'"' => b"&quot;",
        b'\'' => b"&#39;",
        _ => {
            out.push(byte)?;
            return Ok(());
        }
    };
    add_text(out, name)
}

/// A text of the trace, with each byte that would begin or end something written by its name.
pub(crate) fn add_escaped(out: &mut Vec<u8>, text: &[u8]) -> Result<(), NoMemory>
    ensures { OnOk result (out.new.items ≡ out.old.items ++ escaped_text text.now) }
{
    for byte in text {
        add_escaped_byte(out, *byte)?;
    }
    Ok(())
}

/// A number after a text.
pub(crate) fn add_counted(out: &mut Vec<u8>, before: &[u8], n: u64) -> Result<(), NoMemory>
    ensures { OnOk result (out.new.items ≡ out.old.items ++ (before.now ++ decimal n)) }
{
    add_text(out, before)?;
    add_number(out, n)
}

// ---- Elements.

#[tactic(auto, unfolding(crate::specs::Shapes::use_open))]
fn use_open() -> &'static [u8]
    ensures { result.now ≡ use_open }
{
    b"<use href='"
}

#[tactic(auto, unfolding(crate::specs::Shapes::sign_open))]
fn add_sign(out: &mut Vec<u8>, word: &[u8]) -> Result<(), NoMemory>
    ensures { OnOk result (out.new.items ≡ out.old.items ++ sign_open word.now) }
{
    add_text(out, use_open())?;
    add_text(out, word)
}

#[tactic(auto, unfolding(crate::specs::Shapes::class_text))]
fn add_class(out: &mut Vec<u8>, name: &[u8], class: &[u8]) -> Result<(), NoMemory>
    ensures { OnOk result (out.new.items ≡ out.old.items ++ class_text name.now class.now) }
{
    add_text(out, b"<")?;
    add_text(out, name)?;
    add_text(out, b" class='")?;
    add_text(out, class)
}

#[tactic(auto, unfolding(crate::specs::Shapes::value_text))]
fn add_value(out: &mut Vec<u8>, name: &[u8], n: u64) -> Result<(), NoMemory>
    ensures { OnOk result (out.new.items ≡ out.old.items ++ value_text name.now n) }
{
    add_text(out, b"' ")?;
    add_text(out, name)?;
    add_counted(out, b"='", n)
}

// Where an element is.
fn add_place(out: &mut Vec<u8>, x: u64, y: u64) -> Result<(), NoMemory>
    ensures { OnOk result
        (out.new.items ≡ out.old.items ++ (value_text (codes "x") x ++ value_text (codes "y") y)) }
{
    add_value(out, b"x", x)?;
    add_value(out, b"y", y)
}

// A point of a path, after what the path does there.
fn add_point(out: &mut Vec<u8>, step: &[u8], x: u64, y: u64) -> Result<(), NoMemory>
    ensures { OnOk result
        (out.new.items ≡ out.old.items ++ (step.now ++ (decimal x ++ (codes " " ++ decimal y)))) }
{
    add_counted(out, step, x)?;
    add_counted(out, b" ", y)
}

#[tactic(auto, unfolding(crate::specs::Shapes::element_closed))]
fn add_closed(out: &mut Vec<u8>) -> Result<(), NoMemory>
    ensures { OnOk result (out.new.items ≡ out.old.items ++ element_closed) }
{
    add_text(out, b"'/>")
}

#[tactic(auto, unfolding(crate::specs::Shapes::label_closed))]
pub(crate) fn add_label_closed(out: &mut Vec<u8>) -> Result<(), NoMemory>
    ensures { OnOk result (out.new.items ≡ out.old.items ++ label_closed) }
{
    add_text(out, b"</text>")
}

#[tactic(auto, unfolding(crate::specs::Shapes::use_text))]
fn add_use(out: &mut Vec<u8>, sign: &[u8], x: u64, y: u64) -> Result<(), NoMemory>
    ensures { OnOk result (out.new.items ≡ out.old.items ++ use_text sign.now x y) }
{
    add_sign(out, sign)?;
    add_place(out, x, y)?;
    add_closed(out)
}

#[tactic(auto, unfolding(crate::specs::Shapes::rect_text))]
fn add_rect(
    out: &mut Vec<u8>,
    class: &[u8],
    x: u64,
    y: u64,
    width: u64,
    height: u64,
) -> Result<(), NoMemory>
    ensures { OnOk result (out.new.items ≡ out.old.items ++ rect_text class.now x y width height) }
{
    add_class(out, b"rect", class)?;
    add_place(out, x, y)?;
    add_value(out, b"width", width)?;
    add_value(out, b"height", height)?;
    add_closed(out)
}

#[tactic(auto, unfolding(crate::specs::Shapes::path_text, crate::specs::Shapes::move_text, crate::specs::Shapes::line_text))]
fn add_path(
    out: &mut Vec<u8>,
    class: &[u8],
    x: u64,
    y: u64,
    to_x: u64,
    to_y: u64,
) -> Result<(), NoMemory>
    ensures { OnOk result (out.new.items ≡ out.old.items ++ path_text class.now x y to_x to_y) }
{
    add_class(out, b"path", class)?;
    add_point(out, b"' d='M", x, y)?;
    add_point(out, b"L", to_x, to_y)?;
    add_closed(out)
}

/// A label, before its words.
#[tactic(auto, unfolding(crate::specs::Shapes::label_text))]
pub(crate) fn add_label(out: &mut Vec<u8>, class: &[u8], x: u64, y: u64) -> Result<(), NoMemory>
    ensures { OnOk result (out.new.items ≡ out.old.items ++ label_text class.now x y) }
{
    add_class(out, b"text", class)?;
    add_place(out, x, y)?;
    add_text(out, b"'>")
}

// ---- Words.

#[tactic(auto, unfolding(crate::specs::Shapes::half))]
fn half(late: bool) -> u64
    ensures value { result ≡ half late }
    ensures most { result ≤ 8 }
{
    if late { HALF_CALL } else { 0 }
}

// How far down the bar of a monitor is.
#[tactic(auto, unfolding(crate::specs::Shapes::deep))]
fn deep(level: u64) -> u64
    ensures value { result ≡ deep level }
    ensures most { result ≤ 46 }
{
    7 + 13 * level.min(3)
}

#[tactic(auto, unfolding(crate::specs::Shapes::wait_class))]
fn wait_class(need: Need) -> &'static [u8]
    ensures { result.now ≡ wait_class need }
{
    match need {
        Need::Reply => b"reply",
        Need::Letter => b"letter",
        Need::Monitor => b"monitor",
        Need::Condition => b"condition",
        Need::Death => b"death",
        Need::Clock => b"sleep",
        Need::Nothing => b"other",
    }
}

#[tactic(auto, unfolding(crate::specs::Shapes::sign_of))]
fn sign_of(gain: Gain) -> &'static [u8]
    ensures { result.now ≡ sign_of gain }
{
    match gain {
        Gain::Refused => b"#refused",
        Gain::Caught => b"#caught",
        Gain::Value(_) | Gain::Thread(_) | Gain::Letter(_) | Gain::Reply | Gain::Other => {
            b"#answer"
        }
    }
}

#[tactic(auto, unfolding(crate::specs::Shapes::way_class))]
fn way_class(way: Way) -> &'static [u8]
    ensures { result.now ≡ way_class way }
{
    match way {
        Way::Letter => b"sent",
        Way::Reply => b"replied",
        Way::Wake => b"woken",
        Way::Also => b"event",
        Way::Blocked => b"blocked",
        Way::Deadlock => b"deadlock",
    }
}

#[tactic(auto, unfolding(crate::specs::Shapes::wanted_text))]
fn wanted(need: Need) -> &'static [u8]
    ensures { result.now ≡ wanted_text need }
{
    match need {
        Need::Reply => b"a reply",
        Need::Letter => b"a letter",
        Need::Monitor => b"monitor",
        Need::Condition => b"condition",
        Need::Death => b"the death",
        Need::Clock => b"the clock",
        Need::Nothing => b"nothing",
    }
}

#[tactic(auto, unfolding(crate::specs::Shapes::letter_text))]
fn letter(need: Need) -> &'static [u8]
    ensures { result.now ≡ letter_text need }
{
    match need {
        Need::Monitor => b" m",
        Need::Condition => b" c",
        Need::Reply | Need::Letter | Need::Death => b" of t",
        Need::Clock | Need::Nothing => b" ",
    }
}

#[tactic(auto, unfolding(crate::specs::Shapes::named_text))]
fn add_named(out: &mut Vec<u8>, need: Need, target: u64) -> Result<(), NoMemory>
    ensures { OnOk result (out.new.items ≡ out.old.items ++ named_text need target) }
{
    if target == NOBODY {
        return Ok(());
    }
    add_counted(out, letter(need), target)
}

// Who holds a monitor.
#[tactic(auto, unfolding(crate::specs::Shapes::held_words))]
fn add_held_words(out: &mut Vec<u8>, need: Need, by: u64) -> Result<(), NoMemory>
    ensures { OnOk result (out.new.items ≡ out.old.items ++ held_words need by) }
{
    match need {
        Need::Monitor if by != NOBODY => add_counted(out, b", held by t", by),
        _ => Ok(()),
    }
}

#[tactic(auto, unfolding(crate::specs::Shapes::waits_text))]
fn add_waits(out: &mut Vec<u8>, need: Need, target: u64, by: u64) -> Result<(), NoMemory>
    ensures { OnOk result (out.new.items ≡ out.old.items ++ waits_text need target by) }
{
    add_text(out, b"waits for ")?;
    add_text(out, wanted(need))?;
    add_named(out, need, target)?;
    add_held_words(out, need, by)
}

// A thread of a cycle is drawn in red, and no other.
#[tactic(auto, unfolding(crate::specs::Shapes::due_class))]
fn due_class(stuck: bool) -> &'static [u8]
    ensures { result.now ≡ due_class stuck }
{
    if stuck { b"due" } else { b"idle" }
}

#[tactic(auto, unfolding(crate::specs::Shapes::posted_text))]
fn add_posted(out: &mut Vec<u8>, client: u64, seq: u64) -> Result<(), NoMemory>
    ensures { OnOk result (out.new.items ≡ out.old.items ++ posted_text client seq) }
{
    add_number(out, client)?;
    add_counted(out, b":", seq)
}

// The number of a monitor, on its bar.
#[tactic(auto, unfolding(crate::specs::Shapes::tag_text))]
fn add_tag(out: &mut Vec<u8>, x: u64, y: u64, mon: u64) -> Result<(), NoMemory>
    ensures { OnOk result (out.new.items ≡ out.old.items ++ tag_text x y mon) }
{
    add_label(out, b"tag", x, y)?;
    add_counted(out, b"m", mon)?;
    add_label_closed(out)
}

#[tactic(auto, unfolding(crate::specs::Shapes::title_text))]
fn add_title(out: &mut Vec<u8>, line: &[u8]) -> Result<(), NoMemory>
    ensures { OnOk result (out.new.items ≡ out.old.items ++ title_text line.now) }
{
    add_text(out, b"<title>")?;
    add_escaped(out, line)?;
    add_text(out, b"</title>")
}

#[tactic(auto, unfolding(crate::specs::Shapes::group_open))]
pub(crate) fn add_group_open(out: &mut Vec<u8>) -> Result<(), NoMemory>
    ensures { OnOk result (out.new.items ≡ out.old.items ++ group_open) }
{
    add_text(out, b"<g>")
}

#[tactic(auto, unfolding(crate::specs::Shapes::group_closed))]
pub(crate) fn add_group_closed(out: &mut Vec<u8>) -> Result<(), NoMemory>
    ensures { OnOk result (out.new.items ≡ out.old.items ++ group_closed) }
{
    add_text(out, b"</g>\n")
}

// ---- Shapes.

impl<'t> Scene<'t> {
    /// Where a moment is, from the left.
    #[tactic(auto, unfolding(crate::specs::Shapes::x_of))]
    pub(crate) fn x_of(&self, at: Moment) -> u64
        ensures value { result ≡ x_of self.now at }
        ensures most { result ≤ most_right }
    {
        let calls = at.call.saturating_sub(self.base).min(MOST_CALLS);
        FIRST_CALL + (CALL_WIDTH * calls + half(at.late))
    }

    /// Where a lane is, from above.
    #[tactic(auto, unfolding(crate::specs::Shapes::y_of))]
    pub(crate) fn y_of(&self, id: u64) -> u64
        ensures value { result ≡ y_of self.now id }
        ensures most { result ≤ most_down }
    {
        FIRST_LANE + LANE_HEIGHT * (place(id, &self.lanes).min(MOST_LANES) as u64)
    }

    #[tactic(auto, unfolding(crate::specs::Shapes::rule_text))]
    fn add_rule(&self, out: &mut Vec<u8>, at: Moment) -> Result<(), NoMemory>
        ensures { OnOk result (out.new.items ≡ out.old.items ++ rule_text self.now at) }
    {
        if at.call % 10 != 0 {
            return Ok(());
        }
        add_use(out, b"#rule", self.x_of(at), 0)
    }

    #[tactic(auto, unfolding(crate::specs::Shapes::tick_text))]
    fn add_tick(&self, out: &mut Vec<u8>, tid: u64, at: Moment) -> Result<(), NoMemory>
        ensures { OnOk result (out.new.items ≡ out.old.items ++ tick_text self.now tid at) }
    {
        add_use(out, b"#tick", self.x_of(at), self.y_of(tid))?;
        self.add_rule(out, at)
    }

    #[tactic(auto, unfolding(crate::specs::Shapes::said_text))]
    fn add_said(&self, out: &mut Vec<u8>, tid: u64, at: Moment) -> Result<(), NoMemory>
        ensures { OnOk result (out.new.items ≡ out.old.items ++ said_text self.now tid at) }
    {
        add_label(out, b"said", self.x_of(at), self.y_of(tid))?;
        add_escaped(out, self.words.bytes())?;
        add_label_closed(out)
    }

    #[tactic(auto, unfolding(crate::specs::Shapes::wait_text))]
    fn add_wait(&self, out: &mut Vec<u8>, lane: Lane, to: Moment) -> Result<(), NoMemory>
        ensures { OnOk result (out.new.items ≡ out.old.items ++ wait_text self.now lane to) }
    {
        let x = self.x_of(lane.since);
        let width = self.x_of(to).saturating_sub(x);
        add_rect(
            out,
            wait_class(need_of(lane.verb)),
            x,
            self.y_of(lane.id) + 4,
            width,
            12,
        )
    }

    #[tactic(auto, unfolding(crate::specs::Shapes::held_text))]
    fn add_held(&self, out: &mut Vec<u8>, span: Span, to: Moment) -> Result<(), NoMemory>
        ensures { OnOk result (out.new.items ≡ out.old.items ++ held_text self.now span to) }
    {
        let x = self.x_of(span.since);
        let y = self.y_of(span.tid) + deep(span.level);
        add_rect(out, b"held", x, y, self.x_of(to).saturating_sub(x), 12)?;
        add_tag(out, x + 3, y + 10, span.of)
    }

    #[tactic(auto, unfolding(crate::specs::Shapes::band_text))]
    fn add_band(
        &self,
        out: &mut Vec<u8>,
        class: &[u8],
        down: u64,
        height: u64,
        span: Span,
        to: Moment,
    ) -> Result<(), NoMemory>
        requires { down ≤ lane_height }
        ensures { OnOk result
            (out.new.items ≡ out.old.items ++ band_text self.now class.now down height span to) }
    {
        let x = self.x_of(span.since);
        let width = self.x_of(to).saturating_sub(x);
        add_rect(out, class, x, self.y_of(span.tid) + down, width, height)
    }

    #[tactic(auto, unfolding(crate::specs::Shapes::bar_text))]
    fn add_bar(&self, out: &mut Vec<u8>, span: Span, to: Moment) -> Result<(), NoMemory>
        ensures { OnOk result (out.new.items ≡ out.old.items ++ bar_text self.now span.kind span to) }
    {
        match span.kind {
            Kind::Life => self.add_band(out, b"life", 9, 2, span, to),
            Kind::Parked => self.add_band(out, b"suspended", 4, 6, span, to),
            Kind::Held => self.add_held(out, span, to),
            Kind::Given => Ok(()),
        }
    }

    #[tactic(auto, unfolding(crate::specs::Shapes::arrow_text))]
    fn add_arrow(
        &self,
        out: &mut Vec<u8>,
        way: Way,
        from: u64,
        left: Moment,
        to: u64,
        at: Moment,
    ) -> Result<(), NoMemory>
        ensures { OnOk result
            (out.new.items ≡ out.old.items ++ arrow_text self.now way from left to at) }
    {
        let x = self.x_of(left);
        let y = self.y_of(from) + MIDDLE;
        let to_x = self.x_of(at);
        let to_y = self.y_of(to) + MIDDLE;
        add_path(out, way_class(way), x, y, to_x, to_y)
    }

    #[tactic(auto, unfolding(crate::specs::Shapes::posted_label))]
    fn add_posted_label(
        &self,
        out: &mut Vec<u8>,
        client: u64,
        seq: u64,
        nth: u64,
        at: Moment,
    ) -> Result<(), NoMemory>
        ensures { OnOk result
            (out.new.items ≡ out.old.items ++ posted_label self.now client seq nth at) }
    {
        add_label(out, b"event", self.x_of(at), outside_row(nth))?;
        add_posted(out, client, seq)?;
        add_label_closed(out)
    }

    // The line of an event, down to an agent.
    fn add_event_line(&self, out: &mut Vec<u8>, agent: u64, at: Moment) -> Result<(), NoMemory>
        ensures { OnOk result
            (out.new.items
            ≡ out.old.items
            ++ path_text
            (codes "event")
            (x_of self.now at)
            below_rows
            (x_of self.now at)
            (y_of self.now agent + middle)) }
    {
        let x = self.x_of(at);
        let y = self.y_of(agent) + MIDDLE;
        add_path(out, b"event", x, BELOW_ROWS, x, y)
    }

    #[tactic(auto, unfolding(crate::specs::Shapes::event_text))]
    fn add_event(
        &self,
        out: &mut Vec<u8>,
        client: u64,
        seq: u64,
        nth: u64,
        told: bool,
        agent: u64,
        at: Moment,
    ) -> Result<(), NoMemory>
        ensures { OnOk result
            (out.new.items ≡ out.old.items ++ event_text self.now client seq nth told agent at) }
    {
        if told {
            self.add_posted_label(out, client, seq, nth, at)?;
        }
        self.add_event_line(out, agent, at)
    }

    #[tactic(auto, unfolding(crate::specs::Shapes::clock_label))]
    fn add_clock_label(
        &self,
        out: &mut Vec<u8>,
        now: u64,
        nth: u64,
        at: Moment,
    ) -> Result<(), NoMemory>
        ensures { OnOk result (out.new.items ≡ out.old.items ++ clock_label self.now now nth at) }
    {
        add_label(out, b"clock", self.x_of(at), outside_row(nth))?;
        add_number(out, now)?;
        add_label_closed(out)
    }

    #[tactic(auto, unfolding(crate::specs::Shapes::clock_text))]
    fn add_clock(
        &self,
        out: &mut Vec<u8>,
        now: u64,
        nth: u64,
        told: bool,
        at: Moment,
    ) -> Result<(), NoMemory>
        ensures { OnOk result (out.new.items ≡ out.old.items ++ clock_text self.now now nth told at) }
    {
        if told {
            self.add_clock_label(out, now, nth, at)?;
        }
        add_use(out, b"#clock", self.x_of(at), TICK_SPOT)
    }

    #[tactic(auto, unfolding(crate::specs::Shapes::trap_text))]
    fn add_trap(&self, out: &mut Vec<u8>, tid: u64, at: Moment) -> Result<(), NoMemory>
        ensures { OnOk result (out.new.items ≡ out.old.items ++ trap_text self.now tid at) }
    {
        let x = self.x_of(at);
        let y = self.y_of(tid) + MIDDLE;
        add_path(out, b"woken", x, BELOW_ROWS, x, y)
    }

    #[tactic(auto, unfolding(crate::specs::Shapes::closing_text))]
    fn add_closing(
        &self,
        out: &mut Vec<u8>,
        line: &[u8],
        nth: u64,
        at: Moment,
    ) -> Result<(), NoMemory>
        ensures { OnOk result
            (out.new.items ≡ out.old.items ++ closing_text self.now line.now nth at) }
    {
        let x = self.x_of(at) + DUE_GAP;
        add_label(out, b"end", x, end_row(nth))?;
        add_escaped(out, line)?;
        add_label_closed(out)
    }

    /// What a lane waits for, and who has it.
    pub(crate) fn add_lane_waits(&self, out: &mut Vec<u8>, lane: Lane) -> Result<(), NoMemory>
        ensures { OnOk result (out.new.items ≡ out.old.items ++ lane_waits self.now lane) }
    {
        let by = awaited(lane, &self.spans);
        add_waits(out, need_of(lane.verb), lane.target, by)
    }

    #[tactic(auto, unfolding(crate::specs::Shapes::due_text))]
    fn add_due(&self, out: &mut Vec<u8>, lane: Lane, at: Moment) -> Result<(), NoMemory>
        ensures { OnOk result (out.new.items ≡ out.old.items ++ due_text self.now lane at) }
    {
        let x = self.x_of(at) + DUE_GAP;
        let y = self.y_of(lane.id) + FOOT;
        add_label(out, due_class(is_stuck(lane.id, &self.hops)), x, y)?;
        self.add_lane_waits(out, lane)?;
        add_label_closed(out)
    }

    #[tactic(auto, unfolding(crate::specs::Shapes::shape_text))]
    fn add_shape(&self, out: &mut Vec<u8>, line: &[u8], shape: Shape) -> Result<(), NoMemory>
        ensures { OnOk result (out.new.items ≡ out.old.items ++ shape_text self.now line.now shape) }
    {
        match shape {
            Shape::Tick { tid, at } => self.add_tick(out, tid, at),
            Shape::Answer { tid, gain, at } => {
                add_use(out, sign_of(gain), self.x_of(at), self.y_of(tid))
            }
            Shape::Said { tid, at } => self.add_said(out, tid, at),
            Shape::Wait { lane, to } => self.add_wait(out, lane, to),
            Shape::Bar { span, to } => self.add_bar(out, span, to),
            Shape::Arrow {
                way,
                from,
                left,
                to,
                at,
            } => self.add_arrow(out, way, from, left, to, at),
            Shape::Exit { tid, at } => add_use(out, b"#exit", self.x_of(at), self.y_of(tid)),
            Shape::Death { tid, at } => add_use(out, b"#death", self.x_of(at), self.y_of(tid)),
            Shape::Event {
                client,
                seq,
                nth,
                told,
                agent,
                at,
            } => self.add_event(out, client, seq, nth, told, agent, at),
            Shape::Clock { now, nth, told, at } => self.add_clock(out, now, nth, told, at),
            Shape::Trap { tid, at } => self.add_trap(out, tid, at),
            Shape::Closing { nth, at } => self.add_closing(out, line, nth, at),
            Shape::Due { lane, at } => self.add_due(out, lane, at),
        }
    }

    /// What is drawn for a line.
    pub(crate) fn add_shapes(&self, out: &mut Vec<u8>, line: &[u8]) -> Result<(), NoMemory>
        ensures { OnOk result
            (out.new.items ≡ out.old.items ++ shapes_text self.now line.now self.now.shapes) }
    {
        for shape in self.shapes.as_slice() {
            self.add_shape(out, line, *shape)?;
        }
        Ok(())
    }

    /// What is drawn for a line, with the line as its title.
    #[tactic(auto, unfolding(crate::specs::Shapes::group_text))]
    pub(crate) fn add_group(&self, out: &mut Vec<u8>, line: &[u8]) -> Result<(), NoMemory>
        ensures { OnOk result (out.new.items ≡ out.old.items ++ group_text self.now line.now) }
    {
        add_group_open(out)?;
        add_title(out, line)?;
        self.add_shapes(out, line)?;
        add_group_closed(out)
    }
}
