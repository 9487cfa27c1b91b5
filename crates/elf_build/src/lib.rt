//! ELF files of given headers, for tests.
//!
//! # Model
//!
//! A file is the list of its bytes: the ELF header, the program headers and what stands behind them (`file`,
//! `specs/File.antt`). Each header is its fields in the order of the ABI's tables (`elf_header`, `program_header`).
//!
//! # What the layer above knows
//!
//! Every byte of what `file`, `program` and `whole_program` make. A header has any values: nothing is said of whether
//! the file can be run.
//!
//! # Cost
//!
//! A call takes time by the length of the file.
//!
//! # Sources
//!
//! System V ABI, ELF-64 object file format; for the machine and its flags the RISC-V ELF psABI. Where the programs stand
//! is the project's own choice.
#![tactic(auto)]

mod headers;
mod programs;
mod writing;

pub use headers::{EXECUTE, ElfHeader, ProgramHeader, READ, WRITE, zeros};
pub use programs::{program, whole_program};
pub use writing::file;

#[cfg(test)]
mod tests;
