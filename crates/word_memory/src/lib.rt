//! Atomic accesses to the guest's memory, and the reservations of threads.
//!
//! The source is the RISC-V unprivileged manual, its chapter "A" Standard Extension for Atomic Instructions.
//!
//! The model of `Reservations` is the list of threads in the order in which they joined, each with the address of the
//! aligned doubleword that it has reserved, if any. A store of another thread that touches the doubleword ends the
//! reservation, whatever it writes; `store_conditional` stores exactly where the reservation stands, and ends it in both
//! cases. An access that is misaligned is refused first, then one that isn't mapped or lacks a right (`word_fault`); a
//! refusal leaves memory and reservations as they were.
//!
//! No call takes memory but `Reservations::add_thread`. Calls cost by the number of threads.
#![tactic(auto)]

mod accesses;
mod combining;
mod fault;
mod reservations;

pub use accesses::{amo, load_reserved, store_conditional};
pub use fault::WordFault;
pub use reservations::{Held, Reservations};

#[cfg(test)]
mod tests;
