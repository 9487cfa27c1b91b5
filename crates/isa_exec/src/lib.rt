//! Instructions carried out, by effect: what concerns the registers alone is done, and what is asked of memory or of the
//! system is answered.
//!
//! The source is the RISC-V unprivileged manual: its chapters "RV32I", "RV64I", "M", "A" and "Zifencei".
//!
//! The model is a function of the instruction and the registers: `effect_of` says what is asked for, `regs_after` the
//! registers after it. Values are numbers below 2^64; a signed reading is taken only where the operation is signed
//! (`alu`). The layer above knows both, and carries out the effect.
//!
//! No function takes memory, and each takes constant time.
#![tactic(auto)]

mod arithmetic;
mod effect;
mod execution;
mod registers;

pub use arithmetic::sign_extended;
pub use effect::Effect;
pub use execution::{address, exec, exec_alone, exec_operation, exec_transfer};
pub use registers::Regs;

#[cfg(test)]
mod tests;
