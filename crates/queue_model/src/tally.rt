// What the desk counts.
ghost use Rattle.std.specs.Prelude.{◌≡◌, ◌≤◌};
ghost use Rattle.queue_model.specs.Tallies.{after_arrival, after_begin, after_end, after_loss, bar_of, no_tally};

/// How many bars the histogram of waits has.
pub const BARS: usize = 32;

/// What is counted of the customers, with times in ticks. A count stays at the greatest u64 once it is there.
#[derive(Drop)]
pub struct Tally {
    /// How many came, and how many of them found the waiting room full.
    pub came: u64,
    pub lost: u64,
    /// How many began to be served, how long they had waited in all, and the sum of the times at which they began.
    pub begun: u64,
    pub waited: u64,
    pub begins: u64,
    /// How many were served, and the sum of the times at which that ended.
    pub ended: u64,
    pub ends: u64,
    /// When the last customer came.
    pub last: u64,
    /// Of each stretch of `width` ticks, how many waited so long; the last has all that waited longer.
    pub bars: [u64; BARS],
    pub width: u64,
}

// The bar of the histogram that a wait belongs to.
fn bar_of(wait: u64, width: u64) -> usize
    ensures value { result ≡ bar_of wait width }
    ensures most { result ≤ 31 }
{
    if width == 0 {
        return 0;
    }
    (wait / width).min(31) as usize
}

impl Tally {
    /// Nothing was counted yet; each bar is `width` ticks wide.
    pub fn new(width: u64) -> Tally
        ensures { result ≡ no_tally width }
    {
        Tally {
            came: 0,
            lost: 0,
            begun: 0,
            waited: 0,
            begins: 0,
            ended: 0,
            ends: 0,
            last: 0,
            bars: [0; BARS],
            width,
        }
    }

    /// A customer comes.
    pub fn arrive(&mut self, now: u64)
        ensures { self.new ≡ after_arrival now self.old }
    {
        self.came = self.came.saturating_add(1);
        self.last = now;
    }

    /// One finds no room.
    pub fn lose(&mut self)
        ensures { self.new ≡ after_loss self.old }
    {
        self.lost = self.lost.saturating_add(1);
    }

    /// One who came then begins to be served.
    pub fn begin(&mut self, came: u64, now: u64)
        ensures { self.new ≡ after_begin came now self.old }
    {
        let wait = now.saturating_sub(came);
        self.begun = self.begun.saturating_add(1);
        self.waited = self.waited.saturating_add(wait);
        self.begins = self.begins.saturating_add(now);
        let bar = bar_of(wait, self.width);
        self.bars[bar] = self.bars[bar].saturating_add(1);
    }

    /// One was served.
    pub fn end(&mut self, now: u64)
        ensures { self.new ≡ after_end now self.old }
    {
        self.ended = self.ended.saturating_add(1);
        self.ends = self.ends.saturating_add(now);
    }
}
