//! Calls that make, change and close descriptors. Each costs by the number of descriptors, at most 256.

ghost use Rattle.std.specs.Prelude.{◌≡◌, IfOk, OnErr};
ghost use Rattle.host_calls.specs.Descriptors.{close, dup, dup3, end_bytes, fcntl, ioctl, pipe2};
ghost use Rattle.host_calls.specs.Host.{gives, shared_of};

use crate::host::Host;
use crate::pieces::{Piece, put_piece};
use bitflags::Flags;
use call_table::OpenFlags;
use file_table::FileFault;
use file_tree::Errno;
use guest_pages::WRITABLE;
use std::alloc::AllocError;

/// The flag of dup3 by which a descriptor is closed by execve.
const CLOSE_ON_EXEC: u64 = 0x80000;

/// The flags that a description keeps.
const KEPT: u64 = 0x38C03;

/// The flags that pipe2 takes.
const PIPE_FLAGS: u64 = 0x80800;

/// The bytes that pipe2 tells the descriptors in.
const PIPE_SIZE: u64 = 8;

impl Host {
    /// The least free descriptor names what another one names.
    ///
    /// References: dup(2).
    #[tactic(auto, unfolding(crate::specs::Descriptors::dup))]
    pub(crate) fn dup(&mut self, fd: u64) -> i64
        ensures answer { gives result self.new ≡ dup fd (shared_of self.old) }
        ensures pending { self.new.pending ≡ self.old.pending }
    {
        match self.files.dup(fd, 0, false) {
            Ok(to) => i64::from(to),
            Err(errno) => -errno.code(),
        }
    }

    /// A descriptor that is given names what another one names.
    ///
    /// References: dup3(2).
    #[tactic(auto, unfolding(crate::specs::Descriptors::dup3))]
    pub(crate) fn dup3(&mut self, fd: u64, to: u64, flags: u64) -> i64
        ensures answer { gives result self.new ≡ dup3 fd to flags (shared_of self.old) }
        ensures pending { self.new.pending ≡ self.old.pending }
    {
        if flags != 0 && flags != CLOSE_ON_EXEC {
            return -Errno::EINVAL.code();
        }
        match self.files.dup_to(fd, to, flags == CLOSE_ON_EXEC) {
            Ok(to) => i64::from(to),
            Err(errno) => -errno.code(),
        }
    }

    /// Makes a descriptor, or tells or changes the flags of one.
    ///
    /// References: fcntl(2).
    #[tactic(auto, unfolding(crate::specs::Descriptors::fcntl), using(std::proofs::lemmas::Nat::and_le_r))]
    pub(crate) fn fcntl(&mut self, fd: u64, command: u64, argument: u64) -> i64
        ensures answer { gives result self.new ≡ fcntl fd command argument (shared_of self.old) }
        ensures pending { self.new.pending ≡ self.old.pending }
    {
        match command {
            0 => match self.files.dup(fd, argument, false) {
                Ok(to) => i64::from(to),
                Err(errno) => -errno.code(),
            },
            1030 => match self.files.dup(fd, argument, true) {
                Ok(to) => i64::from(to),
                Err(errno) => -errno.code(),
            },
            1 => match self.files.what(fd) {
                Some(opened) => i64::from(opened.close_on_exec),
                None => -Errno::EBADF.code(),
            },
            2 => match self.files.set_close_on_exec(fd, argument % 2 == 1) {
                Ok(()) => 0,
                Err(errno) => -errno.code(),
            },
            3 => match self.files.what(fd) {
                Some(opened) => (opened.flags & KEPT) as i64,
                None => -Errno::EBADF.code(),
            },
            4 => match self.files.set_flags(fd, argument) {
                Ok(()) => 0,
                Err(errno) => -errno.code(),
            },
            _ => -Errno::EINVAL.code(),
        }
    }

    /// No descriptor is a terminal.
    ///
    /// References: ioctl(2).
    #[tactic(auto, unfolding(crate::specs::Descriptors::ioctl))]
    pub(crate) fn ioctl(&self, fd: u64) -> i64
        ensures { gives result self.now ≡ ioctl fd (shared_of self.now) }
    {
        if self.files.what(fd).is_some() {
            return -Errno::ENOTTY.code();
        }
        -Errno::EBADF.code()
    }

    /// Closes a descriptor.
    ///
    /// References: close(2).
    #[tactic(auto, unfolding(crate::specs::Descriptors::close))]
    pub(crate) fn close(&mut self, fd: u64) -> i64
        ensures answer { gives result self.new ≡ close fd (shared_of self.old) }
        ensures pending { self.new.pending ≡ self.old.pending }
    {
        match self.files.close(fd) {
            Ok(_) => 0,
            Err(errno) => -errno.code(),
        }
    }

    /// Makes a pipe, and tells its two descriptors, that for reading first. It takes memory for what the pipe may hold.
    ///
    /// References: pipe2(2).
    #[tactic(auto, unfolding(crate::specs::Descriptors::pipe2))]
    pub(crate) fn pipe2(&mut self, thread: u32, at: u64, flags: u64) -> Result<i64, AllocError>
        ensures answer { IfOk result (λ answer. gives answer self.new ≡ pipe2 thread at flags (shared_of self.old)) }
        ensures pending { self.new.pending ≡ self.old.pending }
        ensures err { OnErr result (self.new ≡ self.old) }
    {
        if flags | PIPE_FLAGS != PIPE_FLAGS {
            return Ok(-Errno::EINVAL.code());
        }
        if self.pages.allows(at, PIPE_SIZE, WRITABLE).is_err() {
            return Ok(-Errno::EFAULT.code());
        }
        let alloc = self.files.alloc();
        match self.files.pipe(alloc, OpenFlags::from_bits_retain(flags)) {
            Ok((reader, writer)) => {
                let piece = Piece {
                    at,
                    size: PIPE_SIZE,
                };
                let bytes = end_bytes(reader, writer);
                put_piece(&mut self.pages, &mut self.held, thread, piece, &bytes);
                Ok(0)
            }
            Err(FileFault::Errno(errno)) => Ok(-errno.code()),
            Err(FileFault::Block) => unreachable!(),
            Err(FileFault::Memory) => Err(AllocError),
        }
    }
}

/// Two words, as they stand in memory.
#[tactic(auto, unfolding(crate::specs::Descriptors::end_bytes))]
fn end_bytes(reader: u32, writer: u32) -> [u8; 8]
    ensures { result ≡ end_bytes (reader, writer) }
{
    let mut bytes = [0; 8];
    bytes[..4].copy_from_slice(&reader.to_le_bytes());
    bytes[4..].copy_from_slice(&writer.to_le_bytes());
    bytes
}
