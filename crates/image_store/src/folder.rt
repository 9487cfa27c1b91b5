ghost use Rattle.std.specs.Prelude.{◌≡◌, ◌++◌, ℕ, List, Option, Some, None, IfOk, OnOk, OnErr};
ghost use Rattle.told.specs.Told.{HasCause, Rose};

use file_tree::Text;
use le_fields::Bytes;
use std::alloc::Global;

/// Why a call of a folder failed.
#[derive(Clone, Copy, Debug, PartialEq, Eq)]
pub enum FolderError {
    /// The folder could not do it.
    Failed,
    /// Want of memory.
    Memory,
}

/// What stands at a path.
#[derive(Clone, Copy, Debug, PartialEq, Eq)]
pub enum Kind {
    File,
    Dir,
    /// Neither a file nor a directory, as a link.
    Other,
}

/// An entry of a folder.
#[derive(Drop)]
pub struct Listed {
    /// From the folder, with `/` between its parts.
    pub path: Text,
    pub kind: Kind,
    /// In bytes.
    pub size: u64,
}

/// An entry as a folder in memory has it.
#[derive(Drop)]
pub struct Entry {
    pub path: Text,
    pub kind: Kind,
    /// The bytes of a file.
    pub bytes: Bytes,
}

/// A folder of files and directories.
pub trait Folder {
    ghost use Rattle.image_store.specs.declared.folder.Entry.{Entry};
    ghost use Rattle.image_store.specs.Files.{Lists, Reads, FailsBy};
    ghost use Rattle.image_store.specs.Listing.{IsListing};
    ghost use Rattle.image_store.specs.Changes.{Leaves, LeavesBeginning, dir_at, file_at};

    /// Its entries, where it tells them.
    ghost tree: { Self → Option (List Entry) };

    /// How many reads failed. It stands still at the end of 64 bits.
    ghost failed_reads: { Self → ℕ };

    /// How many writes failed. It stands still at the end of 64 bits.
    ghost failed_writes: { Self → ℕ };

    /// All its entries, and those of the directories in it, in rising order of their paths' bytes. Each path has names
    /// between its slashes, and the directories that it leads through are listed.
    fn list(&mut self, alloc: Global) -> Result<Vec<Listed>, FolderError>
        ensures listing { IfOk result (λ listing. Lists (tree self.old) listing.items) }
        ensures sound { IfOk result (λ listing. IsListing listing.items) }
        ensures tree { tree self.new ≡ tree self.old }
        ensures reads { FailsBy (failed_reads self.old) (failed_reads self.new) result }
        ensures writes { failed_writes self.new ≡ failed_writes self.old };

    /// Puts the bytes of the file at a path behind those that `into` holds.
    fn read(&mut self, path: &str, into: &mut Vec<u8>) -> Result<(), FolderError>
        ensures bytes { OnOk result ((bytes : List ℕ) × (into.new.items ≡ into.old.items ++ bytes) × Reads (tree self.old) path.now bytes) }
        ensures tree { tree self.new ≡ tree self.old }
        ensures reads { FailsBy (failed_reads self.old) (failed_reads self.new) result }
        ensures writes { failed_writes self.new ≡ failed_writes self.old };

    /// Makes a file at a path, or gives the one that stands there other bytes. After a failure the old file stands there, or
    /// a beginning of the new bytes.
    fn write(&mut self, alloc: Global, path: &str, bytes: &[u8]) -> Result<(), FolderError>
        ensures wrote { OnOk result (Leaves path.now (Some (file_at path.now bytes.now)) (tree self.old) (tree self.new)) }
        ensures left { OnErr result (LeavesBeginning path.now bytes.now (tree self.old) (tree self.new)) }
        ensures reads { failed_reads self.new ≡ failed_reads self.old }
        ensures writes { FailsBy (failed_writes self.old) (failed_writes self.new) result };

    /// Makes a directory.
    fn make_dir(&mut self, alloc: Global, path: &str) -> Result<(), FolderError>
        ensures made { OnOk result (Leaves path.now (Some (dir_at path.now)) (tree self.old) (tree self.new)) }
        ensures tree { OnErr result (tree self.new ≡ tree self.old) }
        ensures reads { failed_reads self.new ≡ failed_reads self.old }
        ensures writes { FailsBy (failed_writes self.old) (failed_writes self.new) result };

    /// Takes a file or an empty directory away.
    fn remove(&mut self, path: &str) -> Result<(), FolderError>
        ensures removed { OnOk result (Leaves path.now None (tree self.old) (tree self.new)) }
        ensures tree { OnErr result (tree self.new ≡ tree self.old) }
        ensures reads { failed_reads self.new ≡ failed_reads self.old }
        ensures writes { FailsBy (failed_writes self.old) (failed_writes self.new) result };
}
