//! A folder of the file system. It tells nothing of what it holds.

ghost use Rattle.std.specs.Prelude.{None, ◌≡◌, ◌↔◌, ◌++◌, List, ℕ, OnOk};
ghost use Rattle.std.specs.IoError.{error_kind};
ghost use Rattle.std.specs.declared.io.ErrorKind.TheVariants.{OutOfMemory};

use crate::folder::{Folder, FolderError, Kind, Listed};
use crate::listing::{is_listing, order};
use file_tree::Text;
use std::alloc::{AllocError, Global};
use std::fs::{self, Metadata};
use std::io::{self, ErrorKind};
use std::rt::Files;

/// A folder of the file system, by its path.
#[derive(Drop)]
pub struct RealFolder<R: Files + AllocGlobal + Clone + Drop> {
    rt: R,
    path: String,
    failed_reads: u64,
    failed_writes: u64,
}

impl<R: Files + AllocGlobal + Clone + Drop> RealFolder<R> {
    pub fn new(rt: R, path: String) -> RealFolder<R> {
        RealFolder {
            rt,
            path,
            failed_reads: 0,
            failed_writes: 0,
        }
    }
}

impl<R: Files + AllocGlobal + Clone + Drop> Folder for RealFolder<R> {
    ghost tree = { λ folder. None };

    ghost failed_reads = { λ folder. folder.failed_reads };

    ghost failed_writes = { λ folder. folder.failed_writes };

    fn list(&mut self, alloc: Global) -> Result<Vec<Listed>, FolderError> {
        match list_sorted(&self.rt, alloc, self.path.as_str()) {
            Ok(listing) if is_listing(&listing) => Ok(listing),
            Ok(_) => {
                self.failed_reads = self.failed_reads.saturating_add(1);
                Err(FolderError::Failed)
            }
            Err(error) => {
                let error = error_of(&error);
                self.failed_reads = self.failed_reads.saturating_add(1);
                Err(error)
            }
        }
    }

    fn read(&mut self, path: &str, into: &mut Vec<u8>) -> Result<(), FolderError> {
        match read_file(&self.rt, self.path.as_str(), path, into) {
            Ok(()) => Ok(()),
            Err(error) => {
                let error = error_of(&error);
                self.failed_reads = self.failed_reads.saturating_add(1);
                Err(error)
            }
        }
    }

    fn write(&mut self, alloc: Global, path: &str, bytes: &[u8]) -> Result<(), FolderError> {
        match write_file(&self.rt, alloc, self.path.as_str(), path, bytes) {
            Ok(()) => Ok(()),
            Err(error) => {
                self.failed_writes = self.failed_writes.saturating_add(1);
                Err(error_of(&error))
            }
        }
    }

    fn make_dir(&mut self, alloc: Global, path: &str) -> Result<(), FolderError> {
        match make_dir(&self.rt, alloc, self.path.as_str(), path) {
            Ok(()) => Ok(()),
            Err(error) => {
                self.failed_writes = self.failed_writes.saturating_add(1);
                Err(error_of(&error))
            }
        }
    }

    fn remove(&mut self, path: &str) -> Result<(), FolderError> {
        match remove_entry(&self.rt, self.path.as_str(), path) {
            Ok(()) => Ok(()),
            Err(error) => {
                self.failed_writes = self.failed_writes.saturating_add(1);
                Err(error_of(&error))
            }
        }
    }
}

fn error_of(error: &io::Error) -> FolderError
    ensures { result ≡ FolderError.Memory ↔ error_kind error.now ≡ OutOfMemory }
{
    match error.kind() {
        ErrorKind::OutOfMemory => FolderError::Memory,
        _ => FolderError::Failed,
    }
}

/// The path of an entry of a folder.
fn join(alloc: Global, folder: &str, path: &str) -> Result<String, AllocError> {
    let mut joined = String::from_str(alloc, folder)?;
    joined.push('/')?;
    joined.push_str(path)?;
    Ok(joined)
}

fn read_file<R: Files + AllocGlobal>(
    rt: &R,
    folder: &str,
    path: &str,
    into: &mut Vec<u8>,
) -> io::Result<()>
    ensures { OnOk result ((bytes : List ℕ) × (into.new.items ≡ into.old.items ++ bytes)) }
{
    let joined = join(rt.alloc(), folder, path)?;
    let bytes = fs::read(rt, joined.as_str())?;
    into.extend_from_slice(&bytes)?;
    Ok(())
}

/// The name beside a file under which its new bytes are written first.
const BESIDE: &str = "rv-write";

/// Writes the bytes beside the file, in the folder itself, and puts them in its place in one step: a failure leaves the old
/// file. What is left beside it is taken away.
///
/// References: rename(2).
fn write_file<R: Files>(
    rt: &R,
    alloc: Global,
    folder: &str,
    path: &str,
    bytes: &[u8],
) -> io::Result<()> {
    let joined = join(alloc, folder, path)?;
    let beside = join(alloc, folder, BESIDE)?;
    match put_in_place(rt, beside.as_str(), joined.as_str(), bytes) {
        Ok(()) => Ok(()),
        Err(error) => {
            let _ = fs::remove_file(rt, beside.as_str());
            Err(error)
        }
    }
}

fn put_in_place<R: Files>(rt: &R, beside: &str, path: &str, bytes: &[u8]) -> io::Result<()> {
    fs::write(rt, beside, bytes)?;
    fs::rename(rt, beside, path)
}

fn make_dir<R: Files>(rt: &R, alloc: Global, folder: &str, path: &str) -> io::Result<()> {
    let joined = join(alloc, folder, path)?;
    fs::create_dir(rt, joined.as_str())
}

fn remove_entry<R: Files + AllocGlobal>(rt: &R, folder: &str, path: &str) -> io::Result<()> {
    let joined = join(rt.alloc(), folder, path)?;
    if fs::symlink_metadata(rt, joined.as_str())?.is_dir() {
        return fs::remove_dir(rt, joined.as_str());
    }
    fs::remove_file(rt, joined.as_str())
}

/// A directory whose entries are still to be listed: its path in the file system, and in the folder with a slash
/// behind it, which is empty for the folder itself.
#[derive(Drop)]
struct Pending {
    path: String,
    prefix: String,
}

/// All entries in rising order of their paths' bytes.
fn list_sorted<R: Files + AllocGlobal + Clone + Drop>(
    rt: &R,
    alloc: Global,
    folder: &str,
) -> io::Result<Vec<Listed>> {
    let mut listing = list_all(rt, alloc, folder)?;
    listing.sort_by(|one, other| order(&one.path, other.path.as_str().as_bytes()))?;
    Ok(listing)
}

/// All entries of the folder and of the directories in it. Links are not followed.
fn list_all<R: Files + AllocGlobal + Clone + Drop>(
    rt: &R,
    alloc: Global,
    folder: &str,
) -> io::Result<Vec<Listed>> {
    let mut listing = Vec::new(alloc);
    let mut pending = Vec::new(alloc);
    pending.push(Pending {
        path: String::from_str(alloc, folder)?,
        prefix: String::new(alloc),
    })?;
    for _ in 0..u64::MAX {
        let Some(dir) = pending.pop() else {
            break;
        };
        list_dir(rt, alloc, &dir, &mut listing, &mut pending)?;
    }
    Ok(listing)
}

fn list_dir<R: Files + AllocGlobal + Clone + Drop>(
    rt: &R,
    alloc: Global,
    dir: &Pending,
    listing: &mut Vec<Listed>,
    pending: &mut Vec<Pending>,
) -> io::Result<()> {
    for entry in fs::read_dir(rt, dir.path.as_str())? {
        let entry = entry?;
        let mut path = String::from_str(alloc, dir.prefix.as_str())?;
        path.push_str(entry.file_name())?;
        let metadata = entry.metadata()?;
        if metadata.is_dir() {
            let mut prefix = String::from_str(alloc, path.as_str())?;
            prefix.push('/')?;
            pending.push(Pending {
                path: String::from_str(alloc, entry.path().to_string_lossy())?,
                prefix,
            })?;
        }
        listing.push(Listed {
            path: Text::from_string(path),
            kind: kind_of(&metadata),
            size: metadata.len(),
        })?;
    }
    Ok(())
}

fn kind_of(metadata: &Metadata) -> Kind {
    if metadata.is_file() {
        Kind::File
    } else if metadata.is_dir() {
        Kind::Dir
    } else {
        Kind::Other
    }
}
