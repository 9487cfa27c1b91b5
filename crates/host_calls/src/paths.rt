//! Calls on paths. Each costs by its path, and by the logarithm of the names of the directories on it.

ghost use Rattle.std.specs.Prelude.{◌≡◌, ◌≤◌, ◌==◌, None, IfOk, OnErr, position};
ghost use Rattle.guest_pages.specs.Faults.{first_fault, readable};
ghost use Rattle.guest_pages.specs.Operations.{bytes_at};
ghost use Rattle.host_calls.specs.Host.{gives, shared_of};
ghost use Rattle.host_calls.specs.Paths.{is_closed, led_to, mkdir_by, mkdirat, no_link, open_by, openat, path_at, readable_from, readlink_by, readlinkat, unlink_by, unlinkat, before_zero};
ghost use Rattle.file_table.specs.Paths.{base};
ghost use Rattle.file_table.specs.Flags.{are_wrong as are_wrong_flags};
ghost use Rattle.file_tree.specs.Nodes.{Has};

use crate::host::Host;
use bitflags::Flags;
use call_table::OpenFlags;
use file_table::{FileFault, Files};
use file_tree::{Errno, Inode};
use guest_pages::{PageFault, Pages, READABLE};
use std::alloc::{AllocError, Global};
use std::marker::Model;

/// The most bytes of a path, with its zero.
const PATH_SIZE: u64 = 4096;

/// The flag of unlinkat that asks for a directory.
const REMOVE_DIRECTORY: u64 = 0x200;

/// A path that stands in memory, and whether a byte of it can't be read.
#[derive(Drop)]
pub(crate) struct Path {
    pub(crate) bytes: Vec<u8>,
    pub(crate) bad: bool,
}

impl Model for Path {
    ghost use Rattle.host_calls.specs.Paths.{PathText};

    ghost Value = { PathText };

    ghost view = { λ path. record { bytes = path.bytes.items; bad = path.bad } };
}

/// The path at an address, up to its zero. It takes memory for at most 4,096 bytes.
pub(crate) fn path_of(alloc: Global, pages: &Pages, at: u64) -> Result<Path, AllocError>
    ensures { IfOk result (λ path. path ≡ path_at pages.now at) }
{
    let room = readable_room(pages, at);
    let mut bytes = Vec::new(alloc);
    bytes.resize(room as usize, 0)?;
    match pages.copy_out(at, bytes.as_mut_slice()) {
        Ok(()) => {
            let size = zero_in(bytes.as_slice());
            bytes.truncate(size);
            Ok(Path {
                bytes,
                bad: room < PATH_SIZE && size as u64 == room,
            })
        }
        Err(_) => unreachable!(),
    }
}

/// How many bytes from an address on can be read, at most as many as a path has.
fn readable_room(pages: &Pages, at: u64) -> u64
    ensures is { readable_from 4096 pages.now at ≡ bytes_at pages.now at result }
    ensures good { first_fault readable pages.now at result ≡ None }
    ensures few { result ≤ 4096 }
{
    match pages.allows(at, PATH_SIZE, READABLE) {
        Ok(()) => PATH_SIZE,
        Err(PageFault::NotMapped(bad)) => bad - at,
        Err(PageFault::NoAccess(bad)) => bad - at,
    }
}

/// How many bytes stand in front of the first zero.
#[tactic(auto, using(crate::proofs::PathFacts::zero_some, crate::proofs::PathFacts::zero_none))]
fn zero_in(bytes: &[u8]) -> usize
    ensures { result ≡ before_zero bytes.now }
{
    match first_zero(bytes) {
        Some(zero) => zero,
        None => bytes.len(),
    }
}

/// Where the first zero stands.
fn first_zero(bytes: &[u8]) -> Option<usize>
    ensures { result ≡ position (λ byte. byte == 0) bytes.now }
{
    bytes.iter().position(|byte| *byte == 0)
}

impl Host {
    /// Whether a path begins at a descriptor that isn't open.
    pub(crate) fn is_closed(&self, dir: i64, path: &[u8]) -> bool
        ensures { result ≡ is_closed (base dir path.now self.now.files) }
    {
        match self.files.base(dir, path) {
            Ok(_) => false,
            Err(Errno::EBADF) => true,
            Err(_) => false,
        }
    }

    /// The entry of the tree that a path leads to.
    pub(crate) fn led_to(&self, dir: i64, path: &[u8]) -> Result<Inode, Errno>
        ensures is { result ≡ led_to dir path.now self.now.files }
        ensures there { IfOk result (λ inode. Has self.now.files.tree inode) }
    {
        match self.files.base(dir, path) {
            Ok(from) => self.files.tree().walk(from, path),
            Err(errno) => Err(errno),
        }
    }

    /// Makes a directory.
    ///
    /// References: mkdirat(2).
    #[tactic(auto, unfolding(crate::specs::Paths::mkdirat))]
    pub(crate) fn mkdirat(&mut self, dir: u64, at: u64) -> Result<i64, AllocError>
        ensures answer { IfOk result (λ answer. gives answer self.new ≡ mkdirat dir at (shared_of self.old)) }
        ensures pending { self.new.pending ≡ self.old.pending }
        ensures err { OnErr result (self.new ≡ self.old) }
    {
        let path = path_of(self.files.alloc(), &self.pages, at)?;
        self.make_dir(dir.cast_signed(), &path)
    }

    fn make_dir(&mut self, dir: i64, path: &Path) -> Result<i64, AllocError>
        ensures answer { IfOk result (λ answer. gives answer self.new ≡ mkdir_by dir path.now (shared_of self.old)) }
        ensures pending { self.new.pending ≡ self.old.pending }
        ensures err { OnErr result (self.new ≡ self.old) }
    {
        if self.is_closed(dir, path.bytes.as_slice()) {
            return Ok(-Errno::EBADF.code());
        }
        if path.bad {
            return Ok(-Errno::EFAULT.code());
        }
        let alloc = self.files.alloc();
        match self.files.make_dir(alloc, dir, path.bytes.as_slice()) {
            Ok(()) => Ok(0),
            Err(FileFault::Errno(errno)) => Ok(-errno.code()),
            Err(FileFault::Block) => unreachable!(),
            Err(FileFault::Memory) => Err(AllocError),
        }
    }

    /// Takes a name away.
    ///
    /// References: unlinkat(2).
    #[tactic(auto, unfolding(crate::specs::Paths::unlinkat))]
    pub(crate) fn unlinkat(&mut self, dir: u64, at: u64, flags: u64) -> Result<i64, AllocError>
        ensures answer { IfOk result (λ answer. gives answer self.new ≡ unlinkat dir at flags (shared_of self.old)) }
        ensures pending { self.new.pending ≡ self.old.pending }
        ensures err { OnErr result (self.new ≡ self.old) }
    {
        if flags != 0 && flags != REMOVE_DIRECTORY {
            return Ok(-Errno::EINVAL.code());
        }
        let path = path_of(self.files.alloc(), &self.pages, at)?;
        Ok(self.unlink(dir.cast_signed(), &path, flags))
    }

    fn unlink(&mut self, dir: i64, path: &Path, flags: u64) -> i64
        ensures answer { gives result self.new ≡ unlink_by dir path.now flags (shared_of self.old) }
        ensures pending { self.new.pending ≡ self.old.pending }
    {
        if self.is_closed(dir, path.bytes.as_slice()) {
            return -Errno::EBADF.code();
        }
        if path.bad {
            return -Errno::EFAULT.code();
        }
        match self
            .files
            .unlink(dir, path.bytes.as_slice(), flags == REMOVE_DIRECTORY)
        {
            Ok(()) => 0,
            Err(errno) => -errno.code(),
        }
    }

    /// Opens a file or a directory.
    ///
    /// References: openat(2).
    #[tactic(auto, unfolding(crate::specs::Paths::openat))]
    pub(crate) fn openat(&mut self, dir: u64, at: u64, flags: u64) -> Result<i64, AllocError>
        ensures answer { IfOk result (λ answer. gives answer self.new ≡ openat dir at flags (shared_of self.old)) }
        ensures pending { self.new.pending ≡ self.old.pending }
        ensures err { OnErr result (self.new ≡ self.old) }
    {
        if are_wrong(flags) {
            return Ok(-Errno::EINVAL.code());
        }
        let path = path_of(self.files.alloc(), &self.pages, at)?;
        self.open_path(dir.cast_signed(), &path, flags)
    }

    fn open_path(&mut self, dir: i64, path: &Path, flags: u64) -> Result<i64, AllocError>
        ensures answer { IfOk result (λ answer. gives answer self.new ≡ open_by dir path.now flags (shared_of self.old)) }
        ensures pending { self.new.pending ≡ self.old.pending }
        ensures err { OnErr result (self.new ≡ self.old) }
    {
        if self.is_closed(dir, path.bytes.as_slice()) {
            return Ok(-Errno::EBADF.code());
        }
        if path.bad {
            return Ok(-Errno::EFAULT.code());
        }
        let alloc = self.files.alloc();
        let flags = OpenFlags::from_bits_retain(flags);
        match self.files.open_at(alloc, dir, path.bytes.as_slice(), flags) {
            Ok(fd) => Ok(i64::from(fd)),
            Err(FileFault::Errno(errno)) => Ok(-errno.code()),
            Err(FileFault::Block) => unreachable!(),
            Err(FileFault::Memory) => Err(AllocError),
        }
    }

    /// What a path leads to is no link.
    ///
    /// References: readlinkat(2).
    #[tactic(auto, unfolding(crate::specs::Paths::readlinkat))]
    pub(crate) fn readlinkat(&self, dir: u64, at: u64) -> Result<i64, AllocError>
        ensures { IfOk result (λ answer. gives answer self.now ≡ readlinkat dir at (shared_of self.now)) }
    {
        let path = path_of(self.files.alloc(), &self.pages, at)?;
        Ok(self.read_link(dir.cast_signed(), &path))
    }

    fn read_link(&self, dir: i64, path: &Path) -> i64
        ensures { gives result self.now ≡ readlink_by dir path.now (shared_of self.now) }
    {
        if self.is_closed(dir, path.bytes.as_slice()) {
            return -Errno::EBADF.code();
        }
        if path.bad {
            return -Errno::EFAULT.code();
        }
        match self.led_to(dir, path.bytes.as_slice()) {
            Ok(_) => -Errno::EINVAL.code(),
            Err(errno) => -errno.code(),
        }
    }
}

/// Whether flags can't be had.
fn are_wrong(flags: u64) -> bool
    ensures { result ≡ are_wrong_flags flags }
{
    flags % 4 == 3 || flags & 0x200000 == 0x200000 || flags & 0x400000 == 0x400000
}
