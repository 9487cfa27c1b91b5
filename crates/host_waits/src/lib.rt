//! The system calls that may wait.
#![tactic(auto)]

mod beginning;
mod moving;
mod polling;
mod sleeping;
mod times;
mod wait;
mod waiting;
mod words;

pub use beginning::{Begun, MayWait, begin, may_wait};
pub use wait::{Polled, WaitKind, WaitState};
pub use waiting::{finish, ready, shift};

#[cfg(test)]
mod tests;
