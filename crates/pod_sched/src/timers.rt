//! The clock of a pod, and the timers of those that wait for it.
//!
//! The contract of each call is one equation on the timers in the order of their arrival, the time and the places
//! (`specs/Timers/Clock.antt`). Only `reserve` and `rows` take memory. No call goes over the timers but `rows`, which
//! copies them, and a setting that finds the places after the last timer used up, once in as many settings as there are places: a
//! tick is one step, a look for a timer that is due ends at once where there is none, and goes down a tree where there is, and a
//! thread's timer is found by its number.

mod clock;
mod minima;
mod shelf;

pub use clock::Timers;
