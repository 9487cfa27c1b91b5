//! The system calls that there are: their numbers, and the flags that two of them take.
//!
//! # Model
//!
//! One table (`specs/Table.antt`) gives each call its number and its family. `call_of` is the first call of the table with
//! a number, `number_of` the number of a call, and each undoes the other. A `Call` is seen as its fields; flags are seen as
//! the number that their bits make.
//!
//! # What the layer above knows
//!
//! The definitions. No function takes memory, and each takes constant time.
//!
//! # Sources
//!
//! Linux's generic system call table, open(2) and clone(2).
#![tactic(auto)]

mod call;
mod flags;

pub use call::{Call, CallNo, call_of, number_of};
pub use flags::{CloneFlags, OpenFlags};

#[cfg(test)]
mod tests;
