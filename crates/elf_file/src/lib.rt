//! ELF files that can be loaded.
//!
//! # Model
//!
//! A list of checks in their order: what must hold of the file's bytes, and the refusal where it does not. `read` gives
//! the first refusal, or the `Image` of the file: where it begins, where its program headers stand in memory, and its
//! segments.
//!
//! # What the layer above knows
//!
//! `reading`, where want of memory comes only for a file that has an image; and the facts that the types keep: a segment
//! lies within the addresses of programs, has no more bytes from the file than in memory, and is not both writable and
//! executable; no page of two segments would be, and no two segments share a byte; the entry is even and can be executed;
//! `top` is the greatest end of a segment that has a byte.
//!
//! # Sources
//!
//! System V ABI, ELF-64 object file format; for the machine, its flags and the rights of a segment the RISC-V ELF psABI.
//! Which of such files are taken is the project's own choice: those of type 2 as they stand, those of type 3 at the base
//! 0x2000000000, without an interpreter.
#![tactic(auto)]

mod entry_check;
mod fault;
mod fields;
mod first_checks;
mod headers;
mod image;
mod loaded;
mod loading;
mod pair_checks;
mod reader;
mod rights;
mod segment_checks;
mod spans;
mod table;

pub use fault::ElfFault;
pub use image::Elf;
pub use le_fields::Bytes;
pub use loaded::Segment;
pub use reader::read;

#[cfg(test)]
mod tests;
