//! The first stack of a process: its arguments, its environment and what the system tells it, as they stand in memory
//! where the process begins.
//!
//! # Model
//!
//! Texts are lists of bytes. The stack is two lists: `block`, the bytes at its end (each text with a zero behind it, and
//! the random bytes), and `words`, the numbers at its head, of 8 bytes each (`bytes_of`): the number of arguments, the
//! addresses of the arguments and of the environment with a zero behind each, and the auxiliary pairs. `block_at` and
//! `stack_pointer` say where the two begin, and `with_stack` is the memory with the stack in it.
//!
//! # What the layer above knows
//!
//! `place` leaves `with_stack` and gives `stack_pointer`, a multiple of 16 within the stack. What a program reads from
//! there on is `Finds`: the numbers, the texts at the addresses that it read, each with its zero, and the random bytes.
//! `place` refuses exactly where block and words together pass 131,072 bytes (`stack_size`), after that where more than
//! 65,536 pages would be stored, and where memory is wanting; a refusal leaves the pages as they were. Want of memory may
//! come before the pages are counted. `size_of` gives the size before anything is mapped.
//!
//! # Sources
//!
//! System V ABI and RISC-V ELF psABI, "Process Initialization"; getauxval(3) for the auxiliary pairs. The stack's place and
//! size, the order of the texts, the values of the pairs, the random bytes and the bounds are the project's own.
#![tactic(auto)]

mod block;
mod fault;
mod placing;
mod sizes;
mod words;

pub use fault::StackFault;
pub use placing::place;
pub use sizes::size_of;

#[cfg(test)]
mod tests;
