// What a line makes of all that is known, and what is drawn for it.
ghost use Rattle.std.specs.Prelude.{◌≡◌, ◌++◌, ◌&&◌, OnOk};
ghost use Rattle.trace_page.specs.Scene.{after_begin, after_draw, after_put, blank, lane_of, need_of, one_more, opening, place, together, with_lane};
ghost use Rattle.trace_page.specs.Spans.{after_change, next_hold};
ghost use Rattle.trace_page.specs.Steps.{after_act, after_also, after_answer, after_call, after_carry_out, after_count, after_create, after_die, after_draw_said, after_entry, after_event, after_exit, after_finish, after_give_up, after_grant, after_leave, after_meet, after_name, after_note, after_park, after_report, after_row, after_say, after_send, after_set, after_settle, after_show_answer, after_tick, after_trap, all_due, arrival_shapes, aside, asking, drawable, due, has_room, has_waited, hop_shape, hop_shapes, is_call, is_due, is_past, is_shown, may_wait, owner_of, room, toward, wait_shapes, wake_shapes, wide, with_agent, with_closing, words_of};

use crate::scene::{
    Hop, Kind, Lane, Moment, Naming, Need, Rows, Scene, Setting, Shape, Span, Way, Words,
};
use crate::spans::{Change, add_bars, add_kept, agent_of, level_of, monitor_at, top_level};
use crate::waits::{awaited, deadlocks, place_awaited};
use lwp_types::{NoMemory, is_text};
use std::alloc::Global;
use trace_lines::{Entry, Gain, NOBODY, Verb, rest, word};

fn one_more(n: u64) -> u64
    ensures { result ≡ one_more n }
{
    n.saturating_add(1)
}

fn together(one: Moment, other: Moment) -> bool
    ensures { result ≡ together one other }
{
    one.call == other.call && one.late == other.late
}

/// The place of a thread or an agent among the lanes; after them all, where it isn't there.
pub fn place(id: u64, lanes: &[Lane]) -> usize
    ensures { result ≡ place id lanes.now }
{
    for (i, lane) in lanes.iter().enumerate() {
        if lane.id == id {
            return i;
        }
    }
    lanes.len()
}

fn blank(id: u64, event: u64, now: Moment) -> Lane
    ensures { result ≡ blank id event now }
{
    Lane {
        id,
        event,
        verb: Verb::Other,
        target: NOBODY,
        suspended: false,
        since: now,
        waits: false,
        clear: 0,
    }
}

fn owner_of(reg: u64, settings: &[Setting]) -> u64
    ensures { result ≡ owner_of reg settings.now }
{
    for setting in settings {
        if setting.reg == reg {
            return setting.tid;
        }
    }
    NOBODY
}

/// What a call of this kind may wait for.
#[tactic(auto, unfolding(crate::specs::Scene::need_of))]
pub fn need_of(verb: Verb) -> Need
    ensures { result ≡ need_of verb }
{
    match verb {
        Verb::Send => Need::Reply,
        Verb::Receive => Need::Letter,
        Verb::Enter => Need::Monitor,
        Verb::Wait => Need::Condition,
        Verb::Join => Need::Death,
        Verb::Sleep => Need::Clock,
        Verb::Create
        | Verb::Destroy
        | Verb::Suspend
        | Verb::Resume
        | Verb::CondEnter
        | Verb::MonExit
        | Verb::MonBreak
        | Verb::Agent
        | Verb::OnExit
        | Verb::Say
        | Verb::Other => Need::Nothing,
    }
}

// Whether a call may wait that needs this.
fn may_wait(need: Need) -> bool
    ensures { result ≡ may_wait need }
{
    match need {
        Need::Reply | Need::Letter | Need::Monitor | Need::Condition | Need::Death | Need::Clock =>
            true,
        Need::Nothing => false,
    }
}

fn has_waited(lane: Lane, now: Moment) -> bool
    ensures { result ≡ has_waited lane now }
{
    lane.waits && !together(lane.since, now)
}

fn add_waited(out: &mut Vec<Shape>, lane: Lane, now: Moment) -> Result<(), NoMemory>
    ensures { OnOk result (out.new.items ≡ out.old.items ++ wait_shapes lane now) }
{
    if has_waited(lane, now) && may_wait(need_of(lane.verb)) {
        out.push(Shape::Wait { lane, to: now })?;
    }
    Ok(())
}

fn add_woken(out: &mut Vec<Shape>, lane: Lane, caller: u64, now: Moment) -> Result<(), NoMemory>
    ensures { OnOk result (out.new.items ≡ out.old.items ++ wake_shapes lane caller now) }
{
    if has_waited(lane, now) && !(caller == lane.id || caller == NOBODY) {
        out.push(Shape::Arrow {
            way: Way::Wake,
            from: caller,
            left: now,
            to: lane.id,
            at: now,
        })?;
    }
    Ok(())
}

// So far right is whom somebody waits for.
fn aside(at: Moment) -> Moment
    ensures { result ≡ aside at }
{
    Moment {
        call: one_more(one_more(at.call)),
        ..at
    }
}

fn add_toward(
    out: &mut Vec<Shape>,
    lanes: &[Lane],
    at: Moment,
    from: u64,
    to: u64,
) -> Result<(), NoMemory>
    ensures { OnOk result (out.new.items ≡ out.old.items ++ toward lanes.now at from to) }
{
    if place_awaited(to, lanes) < lanes.len() {
        out.push(Shape::Arrow {
            way: Way::Blocked,
            from,
            left: at,
            to,
            at: aside(at),
        })?;
    }
    Ok(())
}

/// Whether a lane waits still.
pub fn is_due(lane: Lane) -> bool
    ensures { result ≡ is_due lane }
{
    lane.waits && may_wait(need_of(lane.verb))
}

fn add_due(
    out: &mut Vec<Shape>,
    lanes: &[Lane],
    spans: &[Span],
    at: Moment,
    lane: Lane,
) -> Result<(), NoMemory>
    ensures { OnOk result (out.new.items ≡ out.old.items ++ due lanes.now spans.now at lane) }
{
    if !is_due(lane) {
        return Ok(());
    }
    out.push(Shape::Wait { lane, to: at })?;
    out.push(Shape::Due { lane, at })?;
    add_toward(out, lanes, at, lane.id, awaited(lane, spans))
}

fn add_all_due(
    out: &mut Vec<Shape>,
    lanes: &[Lane],
    spans: &[Span],
    at: Moment,
) -> Result<(), NoMemory>
    ensures { OnOk result
        (out.new.items ≡ out.old.items ++ all_due lanes.now spans.now at lanes.now) }
{
    for lane in lanes {
        add_due(out, lanes, spans, at, *lane)?;
    }
    Ok(())
}

fn add_hop_shape(out: &mut Vec<Shape>, at: Moment, hop: Hop) -> Result<(), NoMemory>
    ensures { OnOk result (out.new.items ≡ out.old.items ++ hop_shape at hop) }
{
    out.push(Shape::Arrow {
        way: Way::Deadlock,
        from: hop.from,
        left: at,
        to: hop.to,
        at: aside(at),
    })?;
    Ok(())
}

fn add_hop_shapes(out: &mut Vec<Shape>, at: Moment, hops: &[Hop]) -> Result<(), NoMemory>
    ensures { OnOk result (out.new.items ≡ out.old.items ++ hop_shapes at hops.now) }
{
    for hop in hops {
        add_hop_shape(out, at, *hop)?;
    }
    Ok(())
}

/// Whether a line makes a call.
pub fn is_call(entry: Entry) -> bool
    ensures { result ≡ is_call entry }
{
    match entry {
        Entry::Called {
            tid: _,
            verb: _,
            target: _,
            suspended: _,
        } => true,
        _ => false,
    }
}

// How many calls the number of a line takes.
fn wide(client: u64, seq: u64) -> u64
    ensures { result ≡ wide client seq }
{
    if client < 10 && seq < 100 { 2 } else { 4 }
}

// What a call says, or the procedure that it names, in its line.
fn words_of(verb: Verb, line: &[u8]) -> &[u8]
    ensures { result.now ≡ words_of verb line.now }
{
    match verb {
        Verb::Create => word(rest(rest(line))),
        Verb::Say => rest(rest(line)),
        Verb::Destroy
        | Verb::Suspend
        | Verb::Resume
        | Verb::Join
        | Verb::Sleep
        | Verb::Send
        | Verb::Receive
        | Verb::Enter
        | Verb::CondEnter
        | Verb::MonExit
        | Verb::MonBreak
        | Verb::Wait
        | Verb::Agent
        | Verb::OnExit
        | Verb::Other => &[],
    }
}

// As much of a text as is drawn, if it can be.
fn drawable(text: &[u8]) -> Words<'_>
    ensures { result ≡ drawable text.now }
{
    let front = &text[..text.len().min(40)];
    if is_text(front) {
        Words::new(front)
    } else {
        Words::new(&[])
    }
}

impl<'t> Scene<'t> {
    /// Before the first line. The calls after `base`, up to `last`, are to be drawn.
    pub fn new(alloc: Global, base: u64, last: u64) -> Scene<'t>
        ensures { result ≡ opening base last }
    {
        Scene {
            base,
            last,
            more: false,
            time: Moment {
                call: 0,
                late: false,
            },
            caller: NOBODY,
            events: 0,
            rows: Rows {
                next: 0,
                second: 0,
                third: 0,
            },
            agent: NOBODY,
            closings: 0,
            words: Words::new(&[]),
            lanes: Vec::new(alloc),
            spans: Vec::new(alloc),
            settings: Vec::new(alloc),
            names: Vec::new(alloc),
            hops: Vec::new(alloc),
            shapes: Vec::new(alloc),
        }
    }

    fn lane_of(&self, id: u64) -> Lane
        ensures { result ≡ lane_of self.now id }
    {
        let i = place(id, &self.lanes);
        if i < self.lanes.len() {
            self.lanes[i]
        } else {
            blank(id, 0, self.time)
        }
    }

    fn put(&mut self, lane: Lane)
        ensures { self.new ≡ after_put lane self.old }
    {
        let i = place(lane.id, &self.lanes);
        if i < self.lanes.len() {
            self.lanes[i] = lane;
        }
    }

    fn draw(&mut self, shape: Shape) -> Result<(), NoMemory>
        ensures { OnOk result (self.new ≡ after_draw shape self.old) }
    {
        self.shapes.push(shape)?;
        Ok(())
    }

    fn begin(&mut self, span: Span) -> Result<(), NoMemory>
        ensures { OnOk result (self.new ≡ after_begin span self.old) }
    {
        self.spans.push(span)?;
        Ok(())
    }

    // A lane more, which lives from now on.
    fn open(&mut self, id: u64, event: u64, owner: u64) -> Result<(), NoMemory>
        ensures { OnOk result (self.new ≡ with_lane id event owner self.old) }
    {
        self.lanes.push(blank(id, event, self.time))?;
        self.begin(Span {
            tid: id,
            kind: Kind::Life,
            of: owner,
            since: self.time,
            level: 0,
            event,
        })
    }

    fn meet(&mut self, id: u64, event: u64, owner: u64) -> Result<(), NoMemory>
        ensures { OnOk result (self.new ≡ after_meet id event owner self.old) }
    {
        if place(id, &self.lanes) < self.lanes.len() {
            return Ok(());
        }
        self.open(id, event, owner)
    }

    fn change(&mut self, change: Change) -> Result<(), NoMemory>
        ensures { OnOk result (self.new ≡ after_change change self.old) }
    {
        add_bars(&mut self.shapes, change, self.time, &self.spans)?;
        let mut kept = Vec::new(*self.spans.allocator());
        add_kept(&mut kept, change, &self.spans)?;
        self.spans = kept;
        Ok(())
    }

    fn count(&mut self, tid: u64)
        ensures { self.new ≡ after_count tid self.old }
    {
        self.time = Moment {
            call: one_more(self.time.call),
            late: false,
        };
        self.caller = tid;
    }

    fn ask(&mut self, tid: u64, verb: Verb, target: u64, suspended: bool)
        ensures { self.new ≡ asking tid verb target suspended self.old }
    {
        let lane = Lane {
            verb,
            target,
            suspended,
            since: self.time,
            waits: true,
            ..self.lane_of(tid)
        };
        self.put(lane);
    }

    fn give_up(&mut self, tid: u64, verb: Verb) -> Result<(), NoMemory>
        ensures { OnOk result (self.new ≡ after_give_up tid verb self.old) }
    {
        match verb {
            Verb::Wait => {
                let level = top_level(tid, &self.spans);
                let mon = monitor_at(tid, level, &self.spans);
                self.change(Change::GivesUp { tid, mon })
            }
            Verb::Create
            | Verb::Destroy
            | Verb::Suspend
            | Verb::Resume
            | Verb::Join
            | Verb::Sleep
            | Verb::Send
            | Verb::Receive
            | Verb::Enter
            | Verb::CondEnter
            | Verb::MonExit
            | Verb::MonBreak
            | Verb::Agent
            | Verb::OnExit
            | Verb::Say
            | Verb::Other => Ok(()),
        }
    }

    // The first call after the words of the last one.
    fn room(&self) -> u64
        ensures { result ≡ room self.now }
    {
        let words = self.words.len() as u64;
        self.time.call.saturating_add(2 + words / 3)
    }

    // Words are drawn where those before leave room.
    fn say(&mut self, tid: u64) -> Result<(), NoMemory>
        ensures { OnOk result (self.new ≡ after_say tid self.old) }
    {
        let lane = self.lane_of(tid);
        if self.time.call < lane.clear {
            return Ok(());
        }
        let clear = self.room();
        let at = self.time;
        self.put(Lane { clear, ..lane });
        self.draw(Shape::Said { tid, at })
    }

    fn draw_said(&mut self, tid: u64, verb: Verb) -> Result<(), NoMemory>
        ensures { OnOk result (self.new ≡ after_draw_said tid verb self.old) }
    {
        match verb {
            Verb::Say => self.say(tid),
            Verb::Create
            | Verb::Destroy
            | Verb::Suspend
            | Verb::Resume
            | Verb::Join
            | Verb::Sleep
            | Verb::Send
            | Verb::Receive
            | Verb::Enter
            | Verb::CondEnter
            | Verb::MonExit
            | Verb::MonBreak
            | Verb::Wait
            | Verb::Agent
            | Verb::OnExit
            | Verb::Other => Ok(()),
        }
    }

    fn call(&mut self, tid: u64, verb: Verb, target: u64, suspended: bool) -> Result<(), NoMemory>
        ensures { OnOk result (self.new ≡ after_call tid verb target suspended self.old) }
    {
        self.count(tid);
        self.meet(tid, 0, NOBODY)?;
        let at = self.time;
        self.ask(tid, verb, target, suspended);
        self.draw(Shape::Tick { tid, at })?;
        self.draw_said(tid, verb)?;
        self.give_up(tid, verb)
    }

    // What comes to a lane with its answer.
    fn show_coming(&mut self, lane: Lane, gain: Gain) -> Result<(), NoMemory>
        ensures { OnOk result
            (self.new
            ≡ record self.old { shapes = self.old.shapes ++ arrival_shapes lane gain self.old }) }
    {
        let now = self.time;
        match gain {
            Gain::Letter(from) => {
                let left = self.lane_of(from).since;
                self.draw(Shape::Arrow {
                    way: Way::Letter,
                    from,
                    left,
                    to: lane.id,
                    at: now,
                })
            }
            Gain::Reply => self.draw(Shape::Arrow {
                way: Way::Reply,
                from: self.caller,
                left: now,
                to: lane.id,
                at: now,
            }),
            Gain::Value(_) | Gain::Thread(_) | Gain::Caught | Gain::Refused | Gain::Other => {
                add_woken(&mut self.shapes, lane, self.caller, now)
            }
        }
    }

    fn show_answer(&mut self, lane: Lane, gain: Gain) -> Result<(), NoMemory>
        ensures { OnOk result (self.new ≡ after_show_answer lane gain self.old) }
    {
        add_waited(&mut self.shapes, lane, self.time)?;
        self.show_coming(lane, gain)?;
        let at = self.time;
        self.draw(Shape::Answer {
            tid: lane.id,
            gain,
            at,
        })
    }

    fn park(&mut self, suspended: bool, id: u64) -> Result<(), NoMemory>
        ensures { OnOk result (self.new ≡ after_park suspended id self.old) }
    {
        if !suspended {
            return Ok(());
        }
        self.begin(Span {
            tid: id,
            kind: Kind::Parked,
            of: NOBODY,
            since: self.time,
            level: 0,
            event: 0,
        })
    }

    // A thread has its procedure's name.
    fn name(&mut self, tid: u64) -> Result<(), NoMemory>
        ensures { OnOk result (self.new ≡ after_name tid self.old) }
    {
        let name = self.words.again();
        self.names.push(Naming { tid, name })?;
        Ok(())
    }

    fn create(&mut self, lane: Lane, gain: Gain) -> Result<(), NoMemory>
        ensures { OnOk result (self.new ≡ after_create lane gain self.old) }
    {
        match gain {
            Gain::Thread(id) => {
                self.name(id)?;
                self.meet(id, 0, NOBODY)?;
                self.park(lane.suspended, id)
            }
            Gain::Value(_)
            | Gain::Letter(_)
            | Gain::Reply
            | Gain::Caught
            | Gain::Refused
            | Gain::Other => Ok(()),
        }
    }

    fn add_agent(&mut self, lane: Lane, gain: Gain) -> Result<(), NoMemory>
        ensures { OnOk result (self.new ≡ with_agent lane gain self.old) }
    {
        match gain {
            Gain::Thread(id) => self.meet(id, lane.target, lane.id),
            Gain::Value(_)
            | Gain::Letter(_)
            | Gain::Reply
            | Gain::Caught
            | Gain::Refused
            | Gain::Other => Ok(()),
        }
    }

    fn set(&mut self, lane: Lane, gain: Gain) -> Result<(), NoMemory>
        ensures { OnOk result (self.new ≡ after_set lane gain self.old) }
    {
        match gain {
            Gain::Value(reg) => {
                self.settings.push(Setting { reg, tid: lane.id })?;
                Ok(())
            }
            Gain::Thread(_)
            | Gain::Letter(_)
            | Gain::Reply
            | Gain::Caught
            | Gain::Refused
            | Gain::Other => Ok(()),
        }
    }

    fn leave(&mut self, tid: u64, mon: u64) -> Result<(), NoMemory>
        ensures { OnOk result (self.new ≡ after_leave tid mon self.old) }
    {
        let level = level_of(tid, mon, &self.spans);
        self.change(Change::Leaves { tid, level })
    }

    fn hold(&mut self, tid: u64, mon: u64) -> Result<(), NoMemory>
        ensures { OnOk result (self.new ≡ after_begin (next_hold tid mon self.old) self.old) }
    {
        let level = one_more(top_level(tid, &self.spans));
        self.begin(Span {
            tid,
            kind: Kind::Held,
            of: mon,
            since: self.time,
            level,
            event: 0,
        })
    }

    fn grant(&mut self, lane: Lane, verb: Verb, gain: Gain) -> Result<(), NoMemory>
        ensures { OnOk result (self.new ≡ after_grant lane verb gain self.old) }
    {
        match verb {
            Verb::Create => self.create(lane, gain),
            Verb::Agent => self.add_agent(lane, gain),
            Verb::OnExit => self.set(lane, gain),
            Verb::Destroy => self.change(Change::Dies { tid: lane.target }),
            Verb::Suspend => self.park(true, lane.target),
            Verb::Resume => self.change(Change::Resumes { tid: lane.target }),
            Verb::Enter | Verb::CondEnter => self.hold(lane.id, lane.target),
            Verb::MonExit => self.leave(lane.id, lane.target),
            Verb::MonBreak => self.change(Change::Breaks { mon: lane.target }),
            Verb::Wait => {
                let now = self.time;
                self.change(Change::Wakes { tid: lane.id, now })
            }
            Verb::Join | Verb::Sleep | Verb::Send | Verb::Receive | Verb::Say | Verb::Other => Ok(
                (),
            ),
        }
    }

    fn settle(&mut self, lane: Lane, gain: Gain) -> Result<(), NoMemory>
        ensures { OnOk result (self.new ≡ after_settle lane gain self.old) }
    {
        match gain {
            Gain::Refused => self.change(Change::Stays { tid: lane.id }),
            Gain::Value(_)
            | Gain::Thread(_)
            | Gain::Letter(_)
            | Gain::Reply
            | Gain::Caught
            | Gain::Other => { self.grant(lane, lane.verb, gain) }
        }
    }

    fn answer(&mut self, tid: u64, gain: Gain) -> Result<(), NoMemory>
        ensures { OnOk result (self.new ≡ after_answer tid gain self.old) }
    {
        self.meet(tid, 0, NOBODY)?;
        let lane = self.lane_of(tid);
        self.show_answer(lane, gain)?;
        self.put(Lane {
            waits: false,
            ..lane
        });
        self.settle(lane, gain)
    }

    fn carry_out(&mut self, tid: u64, verb: Verb, target: u64) -> Result<(), NoMemory>
        ensures { OnOk result (self.new ≡ after_carry_out tid verb target self.old) }
    {
        match verb {
            Verb::MonExit => self.leave(tid, target),
            Verb::MonBreak => self.change(Change::Breaks { mon: target }),
            Verb::Resume => self.change(Change::Resumes { tid: target }),
            Verb::Create
            | Verb::Destroy
            | Verb::Suspend
            | Verb::Join
            | Verb::Sleep
            | Verb::Send
            | Verb::Receive
            | Verb::Enter
            | Verb::CondEnter
            | Verb::Wait
            | Verb::Agent
            | Verb::OnExit
            | Verb::Say
            | Verb::Other => Ok(()),
        }
    }

    fn exit(&mut self, reg: u64, verb: Verb, target: u64, refused: bool) -> Result<(), NoMemory>
        ensures { OnOk result (self.new ≡ after_exit reg verb target refused self.old) }
    {
        let tid = owner_of(reg, &self.settings);
        let at = self.time;
        self.draw(Shape::Exit { tid, at })?;
        if refused {
            let gain = Gain::Refused;
            return self.draw(Shape::Answer { tid, gain, at });
        }
        self.carry_out(tid, verb, target)
    }

    fn die(&mut self, tid: u64) -> Result<(), NoMemory>
        ensures { OnOk result (self.new ≡ after_die tid self.old) }
    {
        self.meet(tid, 0, NOBODY)?;
        let lane = self.lane_of(tid);
        let at = self.time;
        add_waited(&mut self.shapes, lane, at)?;
        self.put(Lane {
            waits: false,
            ..lane
        });
        self.draw(Shape::Death { tid, at })?;
        self.change(Change::Dies { tid })
    }

    fn send(&mut self, id: u64)
        ensures { self.new ≡ after_send id self.old }
    {
        let lane = Lane {
            since: self.time,
            ..self.lane_of(id)
        };
        self.agent = id;
        self.put(lane);
    }

    fn has_room(&self) -> bool
        ensures { result ≡ has_room self.now }
    {
        self.rows.next <= self.time.call
    }

    // Another row's turn comes.
    fn turn_row(&mut self, width: u64)
        ensures { self.new ≡ after_row width self.old }
    {
        let third = if self.has_room() {
            self.time.call.saturating_add(width)
        } else {
            self.rows.next
        };
        self.events = one_more(self.events);
        self.rows = Rows {
            next: self.rows.second,
            second: self.rows.third,
            third,
        };
    }

    fn take(&mut self, event: u64, client: u64, seq: u64) -> Result<(), NoMemory>
        ensures { OnOk result (self.new ≡ after_event event client seq self.old) }
    {
        let agent = agent_of(event, &self.spans);
        let nth = self.events;
        let told = self.has_room();
        self.time = Moment {
            late: true,
            ..self.time
        };
        self.turn_row(wide(client, seq));
        let at = self.time;
        self.draw(Shape::Event {
            client,
            seq,
            nth,
            told,
            agent,
            at,
        })?;
        self.send(agent);
        Ok(())
    }

    // A later agent of the event has the letter too.
    fn also(&mut self, agent: u64) -> Result<(), NoMemory>
        ensures { OnOk result (self.new ≡ after_also agent self.old) }
    {
        self.time = Moment {
            late: true,
            ..self.time
        };
        let at = self.time;
        self.draw(Shape::Arrow {
            way: Way::Also,
            from: self.agent,
            left: at,
            to: agent,
            at,
        })?;
        self.send(agent);
        Ok(())
    }

    // The clock ticks.
    fn tick(&mut self, now: u64) -> Result<(), NoMemory>
        ensures { OnOk result (self.new ≡ after_tick now self.old) }
    {
        let nth = self.events;
        let told = self.has_room();
        self.time = Moment {
            late: true,
            ..self.time
        };
        self.caller = NOBODY;
        self.turn_row(wide(0, now / 10));
        let at = self.time;
        self.draw(Shape::Clock { now, nth, told, at })
    }

    // A trap is raised in a thread.
    fn trap(&mut self, tid: u64) -> Result<(), NoMemory>
        ensures { OnOk result (self.new ≡ after_trap tid self.old) }
    {
        self.time = Moment {
            late: true,
            ..self.time
        };
        self.caller = tid;
        self.meet(tid, 0, NOBODY)?;
        let at = self.time;
        self.ask(tid, Verb::Other, NOBODY, false);
        self.draw(Shape::Trap { tid, at })
    }

    // A death is told to an agent.
    fn report(&mut self, agent: u64, dead: u64) -> Result<(), NoMemory>
        ensures { OnOk result (self.new ≡ after_report agent dead self.old) }
    {
        let at = self.time;
        self.draw(Shape::Arrow {
            way: Way::Also,
            from: dead,
            left: at,
            to: agent,
            at,
        })?;
        self.send(agent);
        Ok(())
    }

    fn close(&mut self) -> Result<(), NoMemory>
        ensures { OnOk result (self.new ≡ with_closing self.old) }
    {
        let nth = self.closings;
        let at = self.time;
        self.closings = one_more(nth);
        self.draw(Shape::Closing { nth, at })
    }

    #[tactic(auto, unfolding(crate::specs::Steps::after_act))]
    fn act(&mut self, entry: Entry) -> Result<(), NoMemory>
        ensures { OnOk result (self.new ≡ after_act entry self.old) }
    {
        match entry {
            Entry::Called {
                tid,
                verb,
                target,
                suspended,
            } => self.call(tid, verb, target, suspended),
            Entry::Answered { tid, gain } => self.answer(tid, gain),
            Entry::Exited {
                reg,
                verb,
                target,
                refused,
            } => self.exit(reg, verb, target, refused),
            Entry::Died { tid } => self.die(tid),
            Entry::Event { event, client, seq } => self.take(event, client, seq),
            Entry::Also { agent } => self.also(agent),
            Entry::Tick {
                now,
                client: _,
                seq: _,
            } => self.tick(now),
            Entry::Trapped { tid, event: _ } => self.trap(tid),
            Entry::Rites { agent, dead } => self.report(agent, dead),
            Entry::Closing => self.close(),
        }
    }

    fn is_past(&self, entry: Entry) -> bool
        ensures { result ≡ is_past entry self.now }
    {
        self.more || (is_call(entry) && self.time.call == self.last)
    }

    /// The words of a line are known.
    pub fn note(&mut self, entry: Entry, line: &'t [u8])
        ensures { self.new ≡ after_note entry line.now self.old }
    {
        if let Entry::Called {
            tid: _,
            verb,
            target: _,
            suspended: _,
        } = entry
        {
            self.words = drawable(words_of(verb, line));
        }
    }

    /// What a line tells is known now.
    #[tactic(auto, unfolding(crate::specs::Steps::after_entry))]
    pub fn tell(&mut self, entry: Entry) -> Result<(), NoMemory>
        ensures { OnOk result (self.new ≡ after_entry entry self.old) }
    {
        self.shapes.clear();
        if self.is_past(entry) {
            self.more = true;
            return Ok(());
        }
        self.act(entry)
    }

    /// Whether the last line is drawn.
    #[tactic(auto, unfolding(crate::specs::Steps::is_shown))]
    pub fn is_shown(&self) -> bool
        ensures { result ≡ is_shown self.now }
    {
        !self.more && (self.base == 0 || self.base < self.time.call)
    }

    /// All is told: what goes on still is to be drawn.
    #[tactic(auto, unfolding(crate::specs::Steps::after_finish))]
    pub fn finish(&mut self) -> Result<(), NoMemory>
        ensures { OnOk result (self.new ≡ after_finish self.old) }
    {
        self.time = Moment {
            call: one_more(self.time.call),
            late: false,
        };
        self.shapes.clear();
        self.hops = deadlocks(*self.spans.allocator(), &self.lanes, &self.spans)?;
        add_bars(&mut self.shapes, Change::Ends, self.time, &self.spans)?;
        add_all_due(&mut self.shapes, &self.lanes, &self.spans, self.time)?;
        add_hop_shapes(&mut self.shapes, self.time, &self.hops)
    }
}
