// The queue of a port.
use crate::gauge::Gauge;
use crate::rule::InPort;
use crate::sent::Sent;
use crate::view::View;
use crossbeam_queue::{RuledSegQueue, SegPass};

/// What a thread may do with a port's queue. It has no bytes.
pub(crate) type Pass<'s> = SegPass<Sent<'s>, View<'s>>;

/// The queue of a port, which its ends share.
pub(crate) struct Port<'s> {
    pub(crate) queue: RuledSegQueue<Sent<'s>, View<'s>, InPort>,
    // How many tickets there are: one for each post that was announced and not refused.
    pub(crate) gauge: Gauge<'s>,
}

impl<'s> Drop for Port<'s> {
    fn drop(self) {
        let Port { queue, gauge: _ } = self;
        queue.destroy();
    }
}
