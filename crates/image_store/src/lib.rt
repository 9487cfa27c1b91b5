//! Folders of files and directories, which are handed in from outside, loading them into a tree of files, and writing such
//! a tree back.
//!
//! # Model
//!
//! A folder is a trait, `Folder`. It may tell its entries, a list of paths with kinds and bytes; the form in memory
//! (`MemFolder`, over `Entries`) tells them, the one over the file system (`RealFolder`) doesn't. It counts its failed reads
//! and its failed writes. The form in memory fails at the calls that it is given (`FailingCalls`), and refuses what POSIX
//! refuses: a file where a directory stands, an entry with no directory to stand in, a directory where something stands, and
//! the removal of a directory that isn't empty.
//!
//! # What the layer above knows
//!
//! A listing of any folder is an `IsListing` (`specs/Listing.antt`): its paths rise by their bytes, they keep the rules and
//! limits of names and paths, and each directory that a path leads through is listed. Where the folder tells its entries,
//! the listing is theirs, and what is read are a file's bytes. A read fails only where the count of failed reads rose.
//! `is_listing` says exactly whether entries are so.
//!
//! `write`, `make_dir` and `remove` leave a new entry at their path, or none, and all else as it was (`Leaves` in
//! `specs/Changes.antt`). They fail only where the count of failed writes rose; then nothing changed, but that a failed
//! write may leave a beginning of the new bytes.
//!
//! `load_tree` makes a tree that has the entries of the listing, in its order and no other, each file with the bytes that
//! were read of it (`IsLoaded` in `specs/Loading.antt`), or tells the first cause why there is none, in its order
//! (`NotLoaded`). Nothing holds an entry of that tree. What stands under a name of the folder itself that begins with
//! `rv-` isn't loaded.
//!
//! `write_back` makes the calls that lead from the loaded tree to another, and no other (`specs/Storing.antt`): first it
//! removes, from the listing's end on, what is gone or of another kind; then it makes new directories and writes files that
//! are new or have other bytes, in rising order of their paths' bytes. After a fault the calls before it are done, and what
//! the failing one leaves is said of it alone. What wasn't loaded isn't touched.
//!
//! # Cost
//!
//! To look whether entries are a listing costs the bytes of their paths, times the logarithm of their number. A file in
//! memory is found in the logarithm of the number of entries; a change of a folder in memory costs the number of entries. A
//! load, and writing back, cost the bytes of paths and files, and for each name of a path a look-up in a directory of the
//! tree; writing back also sorts the paths.
//!
//! # Sources
//!
//! POSIX.1-2017, "Filename" and "Pathname", path_resolution(7), readdir(3), open(2), mkdir(2), unlink(2), rmdir(2),
//! rename(2). The order of a listing, the limits of a load, the order of its causes and that of writing back are the
//! project's own.
#![tactic(auto)]

mod all_paths;
mod entries;
mod folder;
mod listing;
mod loading;
mod memory_folder;
mod real_folder;
mod storing;

pub use entries::{ChangeFault, Entries, EntriesFault};
pub use folder::{Entry, Folder, FolderError, Kind, Listed};
pub use listing::is_listing;
pub use loading::{LoadFault, Loaded, load_tree};
pub use memory_folder::{FailingCalls, MemFolder};
pub use real_folder::RealFolder;
pub use storing::{StoreFault, write_back};

#[cfg(test)]
mod tests;
