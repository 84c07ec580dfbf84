// The outside of a pod, as the runner of the pod sees it.
ghost use Rattle.std.specs.Prelude.{◌≡◌, ◌<◌, IfNone, IfSome};
ghost use Rattle.std.specs.Slice.Scan.{HoldsNowhere, IsFirstPlace};
ghost use Rattle.event_gate.specs.Shelves.{Shelves, after_take_from, first_left, has_left, left_of_client};

use lwp_types::Line;

/// Lines by event, seen as those taken and those left of each, in order.
pub trait Gate<'s> {
    ghost stock: { Self → Shelves };

    /// The first line left of the event, which is then taken.
    fn take(&mut self, event: u8) -> Option<Line<'s>>
        ensures line { result ≡ first_left (stock self.old) event }
        ensures after { stock self.new ≡ after_take_from (stock self.old) event };

    /// The first event from `from` on of which a line is left, if there is one below 32.
    fn next_left(&self, from: u8) -> Option<u8>
        ensures none { IfNone result (HoldsNowhere (has_left (stock self.now)) from 32) }
        ensures below { IfSome result (λ event. event < 32) }
        ensures first { IfSome result (λ event. IsFirstPlace (has_left (stock self.now)) from 32 event) };

    /// How many lines of the client are left.
    fn left(&self, client: u8) -> u32
        ensures { result ≡ left_of_client client (stock self.now) };
}
