//! The deadlines of threads and of the alarm, and which of them comes first.
//!
//! # Model
//!
//! Contracts see `TimeLine` as a list of `Deadline`s that rises by their times; equal ones stand in the order in which they
//! were set. `deadline` of `specs/` is what a timer has, `least` is what comes first, and `set_to` and `cleared` are what the
//! calls leave.
//!
//! # What the layer above knows
//!
//! Of every line `IsSound` holds, which `deadline` tells: a timer has one deadline at most, and none is before one that stands
//! in front of it. `set` and `clear` say of every timer what its deadline is afterwards. `least` is none exactly where
//! no timer has a deadline; else a timer has it, and no timer has an earlier one (`IsLeast`). Where `set` wants memory
//! all is as before, and the timer had no deadline.
//!
//! # Cost
//!
//! `least` takes constant time. The other calls go through the deadlines that stand, at most one for each thread that lives
//! and one for the alarm. No call but `set` takes memory, and that only for a timer that has no deadline yet.
//!
//! # Sources
//!
//! clock_nanosleep(2), `TIMER_ABSTIME`: a deadline is a time of a clock. setitimer(2): the process has one alarm, and a new
//! time takes the place of the old one. The order of equal deadlines is the project's own.
#![tactic(auto)]

mod deadlines;
mod line;
mod timer;

pub use line::TimeLine;
pub use timer::{Deadline, Timer};

#[cfg(test)]
mod tests;
