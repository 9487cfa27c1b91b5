//! What is told of a file, in constant time beside the path.

ghost use Rattle.std.specs.Prelude.{◌≡◌, ◌+◌, ◌/◌, IfOk, OnErr, Some};
ghost use Rattle.file_table.specs.Descriptors.{what};
ghost use Rattle.file_table.specs.Paths.{natural};
ghost use Rattle.file_tree.specs.Nodes.{Has};
ghost use Rattle.host_calls.specs.Host.{gives, shared_of};
ghost use Rattle.host_calls.specs.Stat.{device_status, fstat, mode_of, newfstatat, numbered_status, opened_status, path_status, stat_by, status_by, status_bytes, status_in, told};

use crate::host::Host;
use crate::paths::{Path, path_of};
use file_table::Opened;
use file_tree::{Errno, Inode, Kind};
use guest_pages::WRITABLE;
use std::alloc::{AllocError, Global};

/// The bytes that are told of a file.
const STATUS_SIZE: u64 = 128;

/// The flags that newfstatat takes, and the one by which an empty path means the descriptor.
const KNOWN: u64 = 0x1900;

const EMPTY_PATH: u64 = 0x1000;

/// What is told of a file.
#[derive(Clone, Copy, Debug, PartialEq, Eq)]
pub(crate) struct Status {
    pub(crate) inode: u64,
    pub(crate) mode: u32,
    pub(crate) size: u64,
}

/// How many blocks of 512 bytes there are in a size.
fn blocks_of(size: u64) -> u64
    ensures { result ≡ (size + 511) / 512 }
{
    size / 512 + u64::from(size % 512 != 0)
}

/// The bytes that tell it.
#[tactic(auto, unfolding(crate::specs::Stat::status_bytes))]
fn bytes_of(alloc: Global, status: Status) -> Result<Vec<u8>, AllocError>
    ensures { IfOk result (λ bytes. bytes.items ≡ status_bytes status) }
{
    let mut bytes = Vec::new(alloc);
    bytes.extend_from_slice(&[0; 8])?;
    bytes.extend_from_slice(&status.inode.to_le_bytes())?;
    bytes.extend_from_slice(&status.mode.to_le_bytes())?;
    bytes.extend_from_slice(&1u32.to_le_bytes())?;
    bytes.extend_from_slice(&1000u32.to_le_bytes())?;
    bytes.extend_from_slice(&1000u32.to_le_bytes())?;
    bytes.extend_from_slice(&[0; 16])?;
    bytes.extend_from_slice(&status.size.to_le_bytes())?;
    bytes.extend_from_slice(&4096u64.to_le_bytes())?;
    bytes.extend_from_slice(&blocks_of(status.size).to_le_bytes())?;
    bytes.extend_from_slice(&[0; 56])?;
    Ok(bytes)
}

impl Host {
    /// That of an entry of the tree.
    fn node_status(&self, inode: Inode) -> Status
        requires { Has self.now.files.tree inode }
        ensures { result ≡ status_in inode self.now.files.tree }
    {
        let tree = self.files.tree();
        let mode = match tree.kind(inode) {
            Kind::File => 0x81A4,
            Kind::Dir => 0x41ED,
        };
        Status {
            inode,
            mode,
            size: tree.size(inode),
        }
    }

    /// That of what a descriptor is open for.
    fn opened_status(&self, fd: u64) -> Result<Status, Errno>
        ensures { result ≡ opened_status (what fd self.now.files) self.now.files }
    {
        match self.files.what(fd) {
            Some(opened) => match opened.node {
                Some(inode) => Ok(self.node_status(inode)),
                None => Ok(Status {
                    inode: 0,
                    mode: if opened.pipe.is_some() {
                        0x1180
                    } else {
                        0x2190
                    },
                    size: 0,
                }),
            },
            None => Err(Errno::EBADF),
        }
    }

    /// Tells it where it is asked for.
    fn tell_status(
        &mut self,
        thread: u32,
        at: u64,
        status: Result<Status, Errno>,
    ) -> Result<i64, AllocError>
        ensures answer { IfOk result (λ answer. gives answer self.new ≡ told thread at status (shared_of self.old)) }
        ensures pending { self.new.pending ≡ self.old.pending }
        ensures err { OnErr result (self.new ≡ self.old) }
    {
        match status {
            Ok(status) => {
                let bytes = bytes_of(self.files.alloc(), status)?;
                Ok(self.store(thread, at, bytes.as_slice(), 0))
            }
            Err(errno) => Ok(-errno.code()),
        }
    }

    /// Tells of what a descriptor is open for.
    ///
    /// References: fstat(2).
    #[tactic(auto, unfolding(crate::specs::Stat::fstat))]
    pub(crate) fn fstat(&mut self, thread: u32, fd: u64, at: u64) -> Result<i64, AllocError>
        ensures answer { IfOk result (λ answer. gives answer self.new ≡ fstat thread fd at (shared_of self.old)) }
        ensures pending { self.new.pending ≡ self.old.pending }
        ensures err { OnErr result (self.new ≡ self.old) }
    {
        let status = self.opened_status(fd);
        self.tell_status(thread, at, status)
    }

    /// Tells of what a path leads to.
    ///
    /// References: newfstatat(2).
    #[tactic(auto, unfolding(crate::specs::Stat::newfstatat))]
    pub(crate) fn newfstatat(
        &mut self,
        thread: u32,
        dir: u64,
        at: u64,
        into: u64,
        flags: u64,
    ) -> Result<i64, AllocError>
        ensures answer { IfOk result (λ answer. gives answer self.new ≡ newfstatat thread dir at into flags (shared_of self.old)) }
        ensures pending { self.new.pending ≡ self.old.pending }
        ensures err { OnErr result (self.new ≡ self.old) }
    {
        if flags & KNOWN != flags {
            return Ok(-Errno::EINVAL.code());
        }
        let path = path_of(self.files.alloc(), &self.pages, at)?;
        self.stat(thread, dir.cast_signed(), &path, into, flags)
    }

    fn stat(
        &mut self,
        thread: u32,
        dir: i64,
        path: &Path,
        into: u64,
        flags: u64,
    ) -> Result<i64, AllocError>
        ensures answer { IfOk result (λ answer. gives answer self.new ≡ stat_by thread dir path.now into flags (shared_of self.old)) }
        ensures pending { self.new.pending ≡ self.old.pending }
        ensures err { OnErr result (self.new ≡ self.old) }
    {
        if self.is_closed(dir, path.bytes.as_slice()) {
            return Ok(-Errno::EBADF.code());
        }
        if path.bad || self.pages.allows(into, STATUS_SIZE, WRITABLE).is_err() {
            return Ok(-Errno::EFAULT.code());
        }
        let status = self.path_status(dir, path.bytes.as_slice(), flags);
        self.tell_status(thread, into, status)
    }

    /// That of what a path leads to; an empty one means the descriptor itself, where the flags say so.
    fn path_status(&self, dir: i64, path: &[u8], flags: u64) -> Result<Status, Errno>
        ensures { result ≡ path_status dir path.now flags self.now.files }
    {
        if path.is_empty() && flags & EMPTY_PATH == EMPTY_PATH {
            return self.numbered_status(dir);
        }
        match self.led_to(dir, path) {
            Ok(inode) => Ok(self.node_status(inode)),
            Err(errno) => Err(errno),
        }
    }

    /// That of a descriptor, or of the root where it is none.
    fn numbered_status(&self, dir: i64) -> Result<Status, Errno>
        ensures { result ≡ numbered_status (natural dir) self.now.files }
    {
        if dir < 0 {
            return Ok(self.node_status(self.files.tree().root()));
        }
        self.opened_status(dir.cast_unsigned())
    }
}
