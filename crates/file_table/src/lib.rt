//! The descriptors of a process, the descriptions of open files that they name, its devices and pipes, and its tree of files.
//!
//! # Model
//!
//! Contracts see `Files` as its tree, its 256 descriptors by number, its descriptions by number, its devices with what was
//! written to each and what came in and wasn't read, and its pipes by number, each as its bytes with whether each end is open.
//! `opened`, `piped`, `dup`, `close`, `read`, `write` and their like of `specs/` say what each call answers and leaves; after a
//! refusal, want of memory or an answer that it would wait all is as before.
//!
//! `peek` and `peek_at` lend the bytes of a file that `read` and `read_at` would copy, and `advance` moves the offset as the read
//! would. `standing` tells how many bytes of a pipe or a device stand ready, so that a read of them needs no larger buffer.
//!
//! # What the layer above knows
//!
//! Of every table `IsSound` holds: an open descriptor names a description, each description is named by a descriptor, an
//! entry of the tree is held as often as descriptions name it, a device is named by one description at most and lives while it
//! is, and so is an end of a pipe, which is open while it is. `tree` tells it at any time. An entry is let go with its last
//! description, and so is a device; a pipe goes with its last end.
//!
//! # Cost
//!
//! A call looks at descriptors, descriptions and pipes one after another where it needs a free one, or closes one: at most 256
//! of each. Beside that it costs what the call on the tree costs; a read or a write costs its bytes.
//!
//! # Sources
//!
//! open(2), dup(2), fcntl(2), close(2), pipe(2), pipe(7), read(2), write(2), pread(2), lseek(2), ftruncate(2), poll(2),
//! getdents64(2). The bounds, and
//! that devices take all bytes, are the project's own.
#![tactic(auto)]

mod descriptors;
mod fault;
mod files;
mod listing;
mod moving;
mod opening;
mod paths;
mod pipes;
mod piping;
mod state;
mod waiting;

pub use descriptors::Closed;
pub use fault::FileFault;
pub use files::Files;
pub use pipes::{Input, Pipe};
pub use state::{Description, Descriptor, Device, Opened, Target};

#[cfg(test)]
mod pipe_tests;
#[cfg(test)]
mod tests;
