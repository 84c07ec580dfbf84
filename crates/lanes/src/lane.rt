// The two ends of a lane, over one table.
ghost use Rattle.std.specs.Prelude.{◌≡◌, ◌↔◌, ◌<◌, ◌≤◌, true, false, [], length, IfSome, IfNone, IfOk, IsNone, IsTrue};
ghost use Rattle.std.specs.Arc.{arc_value};
ghost use Rattle.lanes.specs.Lane.{after_post};
ghost use Rattle.lanes.specs.Ends.{line_more, lane_posting, new_lane_taking, lane_left, LaneTakes, LaneFindsNothing, LaneTakesIn, IsLaneTold, IsLaneTaken, IsAtLane, IsLanePoster, Hits, Misses, TakesInSeat};

use crate::rule::{InLane, Learn, Look, Open, Publish, Reserve, TakeIn};
use crate::view::LaneView;
use atomic_table::{Seat, Table};
use lwp_types::{Line, NoMemory};
use std::alloc::{AllocError, Global};
use std::marker::Model;
use std::sync::Arc;

/// The table of a lane.
pub type Lane<'s> = Table<Option<Line<'s>>, LaneView<'s>, u8, InLane, Global>;

/// What one end may do with it. It has no bytes.
pub type LaneEnd<'s> = Seat<Option<Line<'s>>, LaneView<'s>>;

/// The end of a lane that its client posts to.
pub struct LanePoster<'s> {
    client: u8,
    count: u32,
    table: Arc<Lane<'s>, Global>,
    seat: LaneEnd<'s>,
}

// PROVER: written by hand, so that a function that drops one calls this instead of repeating its proof.
impl<'s> Drop for LanePoster<'s> {
    fn drop(self) {
        let LanePoster {
            client: _,
            count: _,
            table: _,
            seat: _,
        } = self;
    }
}

impl<'s> Model for LanePoster<'s> {
    ghost use Rattle.lanes.specs.Ends.{LanePosting, IsAtLane, IsLanePoster};
    ghost use Rattle.std.specs.Prelude.{◌≡◌, []};
    ghost use Rattle.std.specs.Arc.{arc_value};

    ghost Value = { LanePosting };

    ghost view = { λ s. record {
      lane = s.seat.table_id;
      client = s.client;
      posted = s.seat.me.0.posted;
      lines = s.seat.table_id.slots;
    } };

    ghost invariant = { λ s. IsAtLane (arc_value s.table).shared.table_id s.seat.table_id
        × (s.seat.me.1 ≡ [])
        × IsLanePoster s.seat.me.0 s.client s.count };
}

impl<'s> LanePoster<'s> {
    /// Whose end it is.
    pub fn client(&self) -> u8
        ensures { result ≡ self.now.client }
    {
        self.client
    }

    /// How many lines the client has posted.
    pub fn count(&self) -> u32
        ensures { result ≡ length self.now.posted }
    {
        self.count
    }

    /// Posts the client's next line.
    pub fn post(&mut self, line: Line<'s>)
        requires client { line.client ≡ self.old.client }
        requires next { line.seq ≡ length self.old.posted }
        requires room { length self.old.posted < self.old.lines }
        ensures { self.new ≡ line_more self.old line.entry }
    {
        let client = self.client;
        let slot = self.count as usize;
        post_in(&self.table, &mut self.seat, client, slot, line);
        self.count += 1;
    }

    /// What the client has posted, for good.
    pub fn finish(self) -> LanePass<'s>
        ensures { result ≡ self.entry }
    {
        let LanePoster {
            client,
            count,
            table: _,
            seat,
        } = self;
        LanePass {
            client,
            count,
            seat,
        }
    }
}

// The poster's two steps: it takes the empty slot of the next line, fills it, and counts the line.
fn post_in<'s>(lane: &Lane<'s>, seat: &mut LaneEnd<'s>, client: u8, slot: usize, line: Line<'s>)
    requires seat { IsAtLane lane.now.shared.table_id seat.old.table_id × (seat.old.me.1 ≡ []) }
    requires view { IsLanePoster seat.old.me.0 client slot }
    requires line { (line.client ≡ client) × (line.seq ≡ slot) }
    requires room { slot < seat.old.table_id.slots }
    ensures seat { (seat.new.table_id ≡ seat.old.table_id) × (seat.new.me.1 ≡ []) }
    ensures view { seat.new.me.0 ≡ after_post seat.old.me.0 line.entry seat.new.me.0.stamp }
{
    // PROVER: the load is a step of the rule, at which the poster takes the slot; what it loads is dropped.
    lane.shared.load::<Reserve>(seat, 0);
    *seat.slot_mut(&lane.shared, slot) = Some(line);
    lane.shared.fetch_add::<Publish>(seat, 0, 1);
}

/// What a client has posted, for good. Contracts see it as its poster.
#[derive(Drop)]
pub struct LanePass<'s> {
    client: u8,
    count: u32,
    seat: LaneEnd<'s>,
}

impl<'s> Model for LanePass<'s> {
    ghost use Rattle.lanes.specs.Ends.{LanePosting, IsLanePoster};
    ghost use Rattle.std.specs.Prelude.{◌≡◌, []};

    ghost Value = { LanePosting };

    ghost view = { λ s. record {
      lane = s.seat.table_id;
      client = s.client;
      posted = s.seat.me.0.posted;
      lines = s.seat.table_id.slots;
    } };

    ghost invariant = { λ s. (s.seat.me.1 ≡ []) × IsLanePoster s.seat.me.0 s.client s.count };
}

/// The end of a lane that the runner takes from.
pub struct LaneTaker<'s> {
    event: u8,
    client: u8,
    count: u32,
    // Whether the pass came back, and then how many lines were posted.
    told: bool,
    posted: u32,
    table: Arc<Lane<'s>, Global>,
    seat: LaneEnd<'s>,
}

// PROVER: written by hand, so that a function that drops one calls this instead of repeating its proof.
impl<'s> Drop for LaneTaker<'s> {
    fn drop(self) {
        let LaneTaker {
            event: _,
            client: _,
            count: _,
            told: _,
            posted: _,
            table: _,
            seat: _,
        } = self;
    }
}

impl<'s> Model for LaneTaker<'s> {
    ghost use Rattle.lanes.specs.Ends.{LaneTaking, IsAtLane, IsLaneTaker, lane_taking};
    ghost use Rattle.std.specs.Arc.{arc_value};

    ghost Value = { LaneTaking };

    ghost view = { λ s. lane_taking s.seat.table_id s.event s.seat.me.0 };

    ghost invariant = { λ s. IsAtLane (arc_value s.table).shared.table_id s.seat.table_id
        × IsLaneTaker s.seat.me.0 s.client s.count s.told s.posted };
}

impl<'s> LaneTaker<'s> {
    /// The event that the lane is for.
    pub fn event(&self) -> u8
        ensures { result ≡ self.now.event }
    {
        self.event
    }

    /// Takes the next line. `None` exactly where a load of this call found that each line posted so far was taken.
    pub fn take(&mut self) -> Option<Line<'s>>
        ensures line { IfSome result (LaneTakes self.old self.new) }
        ensures nothing { IfNone result (LaneFindsNothing self.old self.new) }
        ensures told { IsLaneTold self.old → IsNone result ↔ IsLaneTaken self.old }
    {
        let line = take_in_lane(&self.table, &mut self.seat, self.count)?;
        self.count += 1;
        Some(line)
    }

    /// Takes in what the client has posted in all.
    pub fn take_in(&mut self, pass: LanePass<'s>)
        requires lane { pass.lane ≡ self.old.lane }
        ensures { LaneTakesIn self.old pass.entry self.new }
    {
        let LanePass {
            client: _,
            count,
            seat: theirs,
        } = pass;
        take_in_seat(&self.table, &mut self.seat, theirs);
        self.told = true;
        self.posted = count;
    }

    /// Whether the pass came back.
    pub fn told(&self) -> bool
        ensures { IsTrue result ↔ IsLaneTold self.now }
    {
        self.told
    }

    /// How many lines are left, where the pass came back.
    pub fn left(&self) -> u32
        ensures { result ≡ lane_left self.now self.now.client }
    {
        self.left_of(self.client)
    }

    /// How many lines of the client are left: none where it is another's lane, or the pass is still out.
    pub(crate) fn left_of(&self, client: u8) -> u32
        ensures { result ≡ lane_left self.now client }
    {
        if self.told && client == self.client {
            self.posted.saturating_sub(self.count)
        } else {
            0
        }
    }
}

// The taker's step, and its reading of the slot that it took.
fn take_in_lane<'s>(lane: &Lane<'s>, seat: &mut LaneEnd<'s>, known: u32) -> Option<Line<'s>>
    requires seat { IsAtLane lane.now.shared.table_id seat.old.table_id }
    requires view { seat.old.me.0.takes ≡ true }
    requires known { length seat.old.me.0.known ≡ known }
    ensures seat { seat.new.table_id ≡ seat.old.table_id }
    ensures line { IfSome result (λ x. Hits seat.old.me.0 x seat.new.me.0 × (known < 20000)) }
    ensures nothing { IfNone result (Misses seat.old.me.0 seat.new.me.0) }
{
    let posted = lane.shared.load::<Look>(seat, 0);
    if u64::from(known) >= posted {
        return None;
    }
    seat.slot_mut(&lane.shared, known as usize).take()
}

// The taking in of the poster's seat.
fn take_in_seat<'s>(lane: &Lane<'s>, seat: &mut LaneEnd<'s>, theirs: LaneEnd<'s>)
    requires seat { IsAtLane lane.now.shared.table_id seat.old.table_id }
    requires view { seat.old.me.0.takes ≡ true }
    requires theirs { (theirs.table_id ≡ seat.old.table_id) × (theirs.me.1 ≡ [])
        × (theirs.me.0.posts ≡ true) × (theirs.me.0.holds ≡ false) }
    ensures seat { seat.new.table_id ≡ seat.old.table_id }
    ensures view { TakesInSeat seat.old.me.0 theirs.entry.me.0 seat.new.me.0 }
{
    lane.shared.join_seat::<TakeIn>(seat, theirs);
    // PROVER: the load is a step of the rule, at which the taker learns how the lines it knows began those posted; what it
    // loads is dropped.
    lane.shared.load::<Learn>(seat, 0);
}

// PROVER: another owner of the lane, made in a function of its own, since a lane that is lent to this function outlives
// what its slots are lent for.
fn same_lane<'s>(lane: &Arc<Lane<'s>, Global>) -> Result<Arc<Lane<'s>, Global>, AllocError>
    ensures { IfOk result (λ l. arc_value l ≡ arc_value lane.now) }
{
    Arc::try_clone(lane)
}

/// A lane for this event and client, with room for so many lines.
pub fn open_lane<'s>(
    alloc: Global,
    event: u8,
    client: u8,
    lines: u32,
) -> Result<(LaneTaker<'s>, LanePoster<'s>), NoMemory>
    requires { lines ≤ 20000 }
    ensures taker { IfOk result (λ r. r.0 ≡ new_lane_taking r.0.lane event client) }
    ensures poster { IfOk result (λ r. r.1 ≡ lane_posting r.0.lane client lines) }
{
    let (table, mut seat) = Table::vacant(alloc, &[0], lines as usize, &client)?;
    let theirs = table.shared.split_seat::<Open>(&mut seat);
    let table = Arc::new(alloc, table)?;
    let other = same_lane(&table)?;
    let taker = LaneTaker {
        event,
        client,
        count: 0,
        told: false,
        posted: 0,
        table,
        seat,
    };
    let poster = LanePoster {
        client,
        count: 0,
        table: other,
        seat: theirs,
    };
    Ok((taker, poster))
}
