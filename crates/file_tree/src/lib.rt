//! The tree of files that a process sees, with the type of its texts and the errors of system calls, which other crates
//! share.
//!
//! The model of a `Tree` is its entries by inode (each with its kind, its bytes or its names with their inodes, and how
//! often it is held) and the next inode. `made`, `unlinked`, `written` and `truncated` of `specs/` say what each call leaves,
//! or with which error it is refused, and `walked` where a path leads; after a refusal or want of memory the tree is as
//! before. `IsMade`, `IsTaken`, `IsFilled`, `IsHeld` and `IsReleased` say what else stays: kinds, holds, bytes, names, and
//! what paths lead to. Of every tree `IsSound` holds: inode 1 is the root, the linked entries are one tree, a directory's
//! names rise by their bytes, what was unlinked is held and empty, and the limits hold; `root` tells it at any time. A walk
//! costs its parts times the logarithm of a directory's names, a read or a write its bytes.
//!
//! The model of a `Text` is the list of its bytes, which is UTF-8. The layer above knows no more of it. Making one of a
//! `&str` is the only call that takes memory, and its cost is in the number of bytes; the others take constant time.
//! An `Errno` has the number that `specs/Errors.antt` gives it.
//!
//! Paths are those of path_resolution(7), UTF-8 is that of RFC 3629, and the numbers of errors are those of Linux. The
//! limits, and that names in the root that begin with `rv-` can't be made, are the project's own.
#![tactic(auto)]

mod content;
mod errno;
mod fault;
mod kind;
mod names;
mod node;
mod nodes;
mod path;
mod text;
mod tree;

pub use errno::Errno;
pub use fault::TreeFault;
pub use kind::Kind;
pub use text::Text;
pub use tree::{Inode, Tree};

#[cfg(test)]
mod tests;
