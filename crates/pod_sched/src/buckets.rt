//! A run queue of keys, with a list of each priority, and the first of the last list that has anybody, in constant
//! time.
//!
//! A key is a number that has a priority, and stands in the run queue at most once. The contract of each call is one
//! equation on the run queue (`specs/Buckets/Order.antt`). The choice is a function over all that can be looked at
//! (`Looks`), and each of its looks counts. Only `new` and `reserve` take memory. The run queue and the list of each
//! priority are `Chains`.

mod looks;
mod marks;
mod order;

pub use looks::{Looks, Steps, first_of_last};
pub use order::Buckets;
