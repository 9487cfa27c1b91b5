//! Instructions as text.
//!
//! The names and the order of operands are those of the RISC-V unprivileged manual's listings and of the RISC-V assembly
//! programmer's manual. Registers go by number, and all numbers are decimal.
//!
//! The model of a text is the list of its bytes. The layer above knows `instruction_text`. Want of memory is the only error.
#![tactic(auto)]

mod names;
mod printing;

pub use printing::text_of;

#[cfg(test)]
mod tests;
