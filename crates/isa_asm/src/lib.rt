//! An assembler of RV64IMA with `fence.i`: from a source to a file that can be run.
//!
//! A source is lines of bytes. A statement is an instruction as `isa_print` prints it, a pseudo-instruction (`li`, `la`, `mv`,
//! `nop`, `ret`, `j`, `call`, `beqz`, `bnez`), a directive (`.text`, `.data`, `.byte`, `.half`, `.word`, `.dword`, `.space`,
//! `.ascii`) or a label (`name:`). `;` separates statements, and `#` begins a comment. Registers have their numbers or the
//! names of the ABI; numbers are decimal, or hexadecimal behind `0x`; a target is an offset or a label, which may stand
//! further on. Nothing is aligned by itself. The file is an ELF file with the text at 0x10000, and the data, if there is any,
//! at the next page boundary. `_start` is its entry, or else the text's first byte.
//!
//! # Model
//!
//! A source is the list of its bytes. It falls into statements (`pieces`, `specs/Source.antt`). By its form alone a statement
//! has a meaning or a cause why it has none (`piece_meaning`, `specs/Statement.antt`), and by its meaning a size. Sums of sizes
//! are the places of statements, and so of labels (`places_of`, `specs/Places.antt`). At its place a statement becomes
//! instructions in range and bytes, or has a cause (`outcome`). The first statement that has a cause gives the fault
//! (`fault_of`, `specs/File.antt`). Otherwise the file's text and data spell what the statements became, one behind the
//! other, where an instruction is the one word that stands for it (`Spells`).
//!
//! # What the layer above knows
//!
//! `assemble` gives the file of the source (`IsAssembled`), or its one fault (`IsFaultOf`); want of memory is the only free
//! answer. By `laws` the text of a decoded instruction is a source, whose file has the word as its text and no data; a source
//! has one file at most, and its text and data have as many bytes as their statements (`IsSized`).
//!
//! # Sources
//!
//! The RISC-V unprivileged manual for instructions, the RISC-V assembly programmer's manual for pseudo-instructions and the
//! ABI's names, the System V ABI and its supplement for RISC-V for the file. Which of these there are, and the order of
//! causes, is the project's own.
#![tactic(auto)]

mod assembling;
mod cause;
mod definitions;
mod directives;
mod emit;
mod file;
mod forms;
mod kind;
mod labels;
mod layout;
mod lexing;
mod literal;
mod meaning;
mod numbers;
mod operands;
mod register;
mod resolve;
mod source;
mod table;

pub use assembling::assemble;
pub use cause::{AsmCause, AsmFault};
pub use definitions::laws;

#[cfg(test)]
mod tests;
