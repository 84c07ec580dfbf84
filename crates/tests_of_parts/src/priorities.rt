ghost use Rattle.std.specs.Prelude.{◌≡◌, ◌<◌};
ghost use Rattle.pod_sched.specs.Buckets.Order.{empty_order};

use pod_sched::{Buckets, Steps, first_of_last};
use std::alloc::Global;
use std::marker::Brand;
use std::sync::ledger::{Blank, Ledger};

// The first of the greatest priority from 1 to 255. None is of priority 0.
fn best<L: Ledger>(order: &Buckets, steps: &mut Steps<L>) -> Option<usize> {
    if order.first_of(0).is_some() {
        return None;
    }
    first_of_last::<L, usize, Buckets>(order, 255, steps)
}

// The first of the greatest priority, in each word of marks and at both ends of them.
fn does_all<L: Ledger>(order: &mut Buckets, steps: &mut Steps<L>) -> bool
    requires { order.old ≡ empty_order 256 }
{
    let Ok(()) = order.reserve(3) else {
        return false;
    };
    let none = best(order, steps);
    order.put_last(256, 63);
    order.put_last(257, 63);
    order.put_last(258, 64);
    let second_word = best(order, steps);
    order.take(258);
    let first = best(order, steps);
    order.put_before(257, 256);
    let before = best(order, steps);
    order.put_last(256, 191);
    let third_word = best(order, steps);
    order.put_last(257, 192);
    let fourth_word = best(order, steps);
    order.put_last(256, 255);
    (none, second_word, first, before) == (None, Some(258), Some(256), Some(257))
        && (third_word, fourth_word, best(order, steps)) == (Some(256), Some(257), Some(256))
        && (order.first_of(192), order.first_in(255)) == (Some(257), Some(256))
}

fn is_done<L: Ledger>(alloc: Global, blank: Blank) -> bool
    requires name { blank.name ≡ L.name }
    requires parts { blank.parts ≡ L.parts }
    requires some { 0 < blank.parts }
{
    let Ok(mut order) = Buckets::new(alloc, 256) else {
        return false;
    };
    let mut steps = Steps::<L>::new(blank);
    does_all(&mut order, &mut steps)
}

#[test]
fn the_first_of_the_greatest_priority(rt: HostRuntime) {
    assert!(rt; is_done::<Brand>(rt.alloc(), Blank::new(1)));
}
