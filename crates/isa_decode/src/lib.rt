//! Instruction words of RISC-V, decoded and encoded: all of RV64IMA with `fence.i`.
//!
//! The source is the RISC-V unprivileged manual: its chapter "RV32I Base Integer Instruction Set" for the formats
//! and their immediates, and its chapter "RV32/64G Instruction Set Listings" for the fixed fields of each mnemonic.
//!
//! The model is the manual's listing: each mnemonic has a row with its opcode and its other fixed fields (`row_of`),
//! and each form of instruction says which fields of a word are its operands (`with_operands`). A word stands for an
//! instruction (`IsWord`) where it has the fixed fields and the operands. `decode` gives the instruction that a word
//! stands for, and `None` exactly where there is none; `encode` gives the one word that stands for an instruction.
//!
//! The layer above knows `decoding`, and that the fields of a decoded instruction are in range. The ranges are not a
//! fact of the type, since an enum can be made anywhere, but the predicate `InRange`: `decode` ensures it, `encode`
//! requires it, and `is_in_range` tests it.
//!
//! No function takes memory, and each takes a bounded number of steps.
#![tactic(auto)]

mod encoding;
mod fields;
mod instruction;
mod listing;
mod ranges;

pub use encoding::encode;
pub use instruction::{AluOp, AmoOp, Cmp, ImmOp, Instr, LoadKind, Width};
pub use listing::decode;
pub use ranges::is_in_range;

#[cfg(test)]
mod tests;
