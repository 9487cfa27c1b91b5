//! Instructions of 2 bytes, expanded to those of 4 bytes: all of the C extension of RV64 without floating point.
//!
//! The source is the RISC-V unprivileged manual, its chapter "C" Standard Extension for Compressed Instructions.
//!
//! The model is the manual's listing: each form has its fixed fields, what else must hold of its operands, and the
//! instruction that it makes. `expand` gives that instruction, and `None` exactly where the half word has no form. The
//! layer above knows `expansion`, and that the fields of the instruction are in range.
//!
//! No function takes memory, and each takes a bounded number of steps.
#![tactic(auto)]

mod expansion;
mod fields;

pub use expansion::expand;

#[cfg(test)]
mod tests;
