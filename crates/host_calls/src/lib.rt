//! What a system has beside its threads, and the system calls that never wait.
//!
//! # Model
//!
//! `Host` is seen as `Shared` (`shared_of`): the memory, the reservations, the tree of files with descriptors and devices,
//! the threads that wait at addresses, the pending signals with the next id, the program's break, how many random bytes were
//! drawn, the clock. Each field is the record of its owner. Marks on pending signals, which only the emulator has, are seen beside it.
//!
//! A call is one definition and one function, in the file of its family (`specs/Identity.antt` and `src/identity.rt`, and so
//! on), with its manual page. One dispatch in `specs/Immediate.antt` and one in `src/calls.rt` choose it by its name; it
//! takes the call's arguments, and never registers. `Answered` is its answer with what the system has afterwards.
//!
//! # What the layer above knows
//!
//! `immediate` makes exactly the definition of that name. A call that may wait is made by the layer above, which moves bytes by
//! `read_into` and `write_from`: what goes in one go is one definition for calls that are done at once and those that waited. What every call owes is one record (`Owes`): the code stays, nothing
//! can be both written and executed, outputs only grow and at most one does, reservations only end, of pending signals it only
//! sends more, and no time passes. So neither the core nor the process machine names a call that is made here.
//!
//! # Cost
//!
//! A call costs by the bytes that it moves or fills: a cut that lengthens a file, and a write behind its end, by the zeros
//! too. Beside that, calls on descriptors go through at most 256 of them, those on paths cost by the path and by the
//! logarithm of the names in the directories on it, and those on maps by their pages.
//!
//! # Sources
//!
//! The manual pages of the calls, signal(7) and errno(3).
#![tactic(auto)]

mod breaks;
mod calls;
mod descriptors;
mod host;
mod identity;
mod maps;
mod moving;
mod paths;
mod pieces;
mod queue;
mod stat;
mod storing;
mod time;

pub use breaks::Break;
pub use calls::immediate;
pub use host::Host;
pub use pieces::{Piece, Vector, is_any_bad, one_piece, scatter, vector_of};
pub use queue::{Instance, Pending};

#[cfg(test)]
mod file_tests;
#[cfg(test)]
mod tests;
