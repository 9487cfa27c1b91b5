//! One instruction of a guest: found at pc, made, and its effect on memory carried out.
//!
//! # Model
//!
//! `instruction` (`specs/Instruction.antt`) says what the thread's instruction at pc does, as a function of the registers,
//! the memory and the reservations: it runs, and gives what is left of them; or it asks for a call of the system; or it
//! faults, and gives the signal, its code and the address. A call and a fault change nothing.
//!
//! # What the layer above knows
//!
//! `make_instruction` makes exactly that. `run_plain` makes one after another (`PlainRun`), up to the first that asks for a
//! call or faults, and remembers what it found by its address in a `Decoder`: contracts see what is remembered as a list,
//! each of which is the instruction at its address (`IsKnown`) as long as the code stays (`KeepsCode`). An instruction keeps
//! the code where nothing can be both written and executed (`IsApart`).
//!
//! No function takes memory but `Decoder::new`. Each takes constant time, but for the reservations of threads, which a store
//! goes through while one stands.
//!
//! # Sources
//!
//! The RISC-V unprivileged manual, its chapters "RV64I", "M", "A", "C" and "Zifencei"; sigaction(2) for the signals of
//! faults.
#![tactic(auto)]

mod decoder;
mod effects;
mod executing;
mod fault;
mod faults;
mod finding;
mod near;
mod running;
mod signal;

pub use decoder::Decoder;
pub use executing::{Made, make_instruction};
pub use fault::Fault;
pub use finding::is_at_call;
pub use running::run_plain;
pub use signal::SigNo;

#[cfg(test)]
mod tests;
