ghost use Rattle.std.specs.Prelude.{◌≡◌, ◌≤◌, Some, IfOk};
ghost use Rattle.told.specs.Told.{Rose};

use crate::entries::{ChangeFault, Entries};
use crate::folder::{Entry, Folder, FolderError, Kind, Listed};
use file_tree::Text;
use le_fields::Bytes;
use std::alloc::{AllocError, Global};
use told::Failing;

/// A folder in memory, which tells its entries. It fails at the calls of the numbers that it is given; a write that fails so
/// leaves the first half of its bytes.
#[derive(Drop)]
pub struct MemFolder {
    entries: Entries,
    failing_lists: Failing,
    failing_reads: Failing,
    failing_writes: Failing,
    failing_makes: Failing,
    failing_removes: Failing,
    failed_reads: u64,
    failed_writes: u64,
}

/// The numbers of the calls of a folder in memory that are to fail, counted apart for each kind of call.
#[derive(Drop)]
pub struct FailingCalls {
    pub lists: Vec<u64>,
    pub reads: Vec<u64>,
    pub writes: Vec<u64>,
    pub makes: Vec<u64>,
    pub removes: Vec<u64>,
}

impl MemFolder {
    /// A folder of these entries.
    pub fn new(entries: Entries, failing: FailingCalls) -> MemFolder
        ensures entries { result.entries ≡ entries }
        ensures lists { result.failing_lists.numbers ≡ failing.lists }
        ensures reads { result.failing_reads.numbers ≡ failing.reads }
        ensures failed { result.failed_reads ≡ 0 }
        ensures unwritten { result.failed_writes ≡ 0 }
    {
        MemFolder {
            entries,
            failing_lists: Failing::new(failing.lists),
            failing_reads: Failing::new(failing.reads),
            failing_writes: Failing::new(failing.writes),
            failing_makes: Failing::new(failing.makes),
            failing_removes: Failing::new(failing.removes),
            failed_reads: 0,
            failed_writes: 0,
        }
    }

    /// A change was refused.
    fn refuse(&mut self, fault: ChangeFault) -> FolderError
        ensures entries { self.new.entries ≡ self.old.entries }
        ensures reads { self.new.failed_reads ≡ self.old.failed_reads }
        ensures later { self.old.failed_writes ≤ self.new.failed_writes }
        ensures rose { result ≡ FolderError.Failed → Rose self.old.failed_writes self.new.failed_writes }
    {
        match fault {
            ChangeFault::Refused => {
                self.failed_writes = self.failed_writes.saturating_add(1);
                FolderError::Failed
            }
            ChangeFault::Memory => FolderError::Memory,
        }
    }
}

/// An entry of its own.
fn entry(alloc: Global, path: &str, kind: Kind, bytes: &[u8]) -> Result<Entry, AllocError>
    ensures { IfOk result (λ made. made ≡ record { path = path.now; kind = kind; bytes = bytes.now }) }
{
    let path = Text::new(alloc, path)?;
    let mut held = Bytes::new(alloc);
    held.extend_from_slice(bytes)?;
    Ok(Entry {
        path,
        kind,
        bytes: held,
    })
}

impl Folder for MemFolder {
    ghost tree = { λ folder. Some folder.entries };

    ghost failed_reads = { λ folder. folder.failed_reads };

    ghost failed_writes = { λ folder. folder.failed_writes };

    fn list(&mut self, alloc: Global) -> Result<Vec<Listed>, FolderError> {
        if self.failing_lists.next() {
            self.failed_reads = self.failed_reads.saturating_add(1);
            return Err(FolderError::Failed);
        }
        match self.entries.list(alloc) {
            Ok(listing) => Ok(listing),
            Err(_) => Err(FolderError::Memory),
        }
    }

    fn read(&mut self, path: &str, into: &mut Vec<u8>) -> Result<(), FolderError> {
        let fails = self.failing_reads.next();
        match self.entries.file(path) {
            Some(bytes) if !fails => match into.extend_from_slice(bytes) {
                Ok(()) => Ok(()),
                Err(_) => Err(FolderError::Memory),
            },
            _ => {
                self.failed_reads = self.failed_reads.saturating_add(1);
                Err(FolderError::Failed)
            }
        }
    }

    fn write(&mut self, alloc: Global, path: &str, bytes: &[u8]) -> Result<(), FolderError> {
        let fails = self.failing_writes.next();
        let count = if fails { bytes.len() / 2 } else { bytes.len() };
        let entry = match entry(alloc, path, Kind::File, &bytes[..count]) {
            Ok(entry) => entry,
            Err(_) => return Err(FolderError::Memory),
        };
        match self.entries.put(entry) {
            Ok(()) if fails => Err(self.refuse(ChangeFault::Refused)),
            Ok(()) => Ok(()),
            Err(fault) => Err(self.refuse(fault)),
        }
    }

    fn make_dir(&mut self, alloc: Global, path: &str) -> Result<(), FolderError> {
        if self.failing_makes.next() {
            return Err(self.refuse(ChangeFault::Refused));
        }
        match entry(alloc, path, Kind::Dir, &[]) {
            Ok(entry) => match self.entries.put(entry) {
                Ok(()) => Ok(()),
                Err(fault) => Err(self.refuse(fault)),
            },
            Err(_) => Err(FolderError::Memory),
        }
    }

    fn remove(&mut self, path: &str) -> Result<(), FolderError> {
        if self.failing_removes.next() {
            return Err(self.refuse(ChangeFault::Refused));
        }
        match self.entries.remove(path) {
            Ok(()) => Ok(()),
            Err(fault) => Err(self.refuse(fault)),
        }
    }
}
