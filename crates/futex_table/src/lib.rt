//! The threads that wait at addresses of the guest's memory, each with the bits by which it can be woken.
//!
//! # Model
//!
//! Contracts see `FutexTable` as a list of `Waiter`s in the order in which they came: each has its thread, its address and
//! its bits. Every operation is one equation on that list. `first` of `specs/` has the first so many waiters that pass a test,
//! and `others` has all but these, in their order. A wake tells how many `woken` has and leaves `unwoken`, a requeue leaves
//! `requeued`, and `joined` and `left` are what is after a thread came or went.
//!
//! # What the layer above knows
//!
//! Of every table `IsSound` holds, which `holds` tells: each thread waits once, for some bits. Each call says besides of
//! every thread whether it is held afterwards: a woken waiter isn't held any more, one that was moved is.
//! No call but `wait` takes memory, and where it is wanting all is as before.
//!
//! # Cost
//!
//! The waiters of all addresses stand in one vector, so that a requeue needs no memory: `wait` keeps room for as many again,
//! in which those that are moved stand while the list is put together. Each call but `new` and `wait` goes through all
//! waiters, whatever their addresses: once for `holds`, `wake` and `leave`, three times for a requeue. A thread waits once, so
//! these are at most as many as threads live, which are 64 at most here.
//!
//! # Sources
//!
//! futex(2). That those that came first are woken first, that a requeue tells both numbers, and that those that it moves come
//! behind those that wait there, are the project's own.
#![tactic(auto)]

mod table;
mod taking;
mod waiter;

pub use table::FutexTable;
pub use waiter::Waiter;

#[cfg(test)]
mod tests;
