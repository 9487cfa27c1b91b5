//! Calls that move bytes of files, and offsets.

ghost use Rattle.std.specs.Prelude.{◌≡◌, ◌≤◌, ◌≤ℤ◌, false, min, max, pos, Some, None, length, IfOk, IfErr, OnErr};
ghost use Rattle.file_table.specs.Entries.{list};
ghost use Rattle.file_table.specs.Moving.{read as read_table, standing};
ghost use Rattle.host_calls.specs.Answers.{refuses};
ghost use Rattle.host_calls.specs.Files.{errno_of as errno_by};
ghost use Rattle.host_calls.specs.Host.{gives, shared_of};
ghost use Rattle.host_calls.specs.Moving.{ftruncate, getdents64, is_negative, is_readable, is_writable, lseek, pread64, pwrite64, read_into, taken, told_entries, write_from};
ghost use Rattle.guest_pages.specs.Faults.{first_fault, writable};
ghost use Rattle.host_calls.specs.Pieces.{any_bad, most_bytes, total};

use crate::host::Host;
use crate::pieces::{MOST_BYTES, Piece, gather, is_any_bad, one_piece, put_piece, scatter};
use file_table::FileFault;
use file_tree::Errno;
use guest_pages::{READABLE, WRITABLE};
use std::alloc::AllocError;

/// One more than the largest offset.
const OFFSET_END: u64 = 0x8000_0000_0000_0000;

/// The error of a call that can't be made. Where it would wait, nothing moves now.
fn errno_of(fault: FileFault) -> Errno
    ensures { result ≡ errno_by fault }
{
    match fault {
        FileFault::Errno(errno) => errno,
        FileFault::Block => Errno::EAGAIN,
        FileFault::Memory => Errno::ENOMEM,
    }
}

/// How many bytes a read needs room for, where so many stand ready: for one at least, if it asks for any.
fn needed(size: u64, count: u64) -> u64
    ensures is { result ≡ min size (max count 1) }
    ensures few { result ≤ size }
{
    size.min(count.max(1))
}

impl Host {
    /// Whether a descriptor is open for reading.
    pub fn is_readable(&self, fd: u64) -> bool
        ensures { result ≡ is_readable fd self.now.files }
    {
        match self.files.what(fd) {
            Some(opened) => opened.flags % 4 == 0 || opened.flags % 4 == 2,
            None => false,
        }
    }

    /// Whether a descriptor is open for writing.
    pub fn is_writable(&self, fd: u64) -> bool
        ensures { result ≡ is_writable fd self.now.files }
    {
        match self.files.what(fd) {
            Some(opened) => opened.flags % 4 == 1 || opened.flags % 4 == 2,
            None => false,
        }
    }

    /// Reads bytes into pieces of memory, which are at most 1,048,576 bytes, in time that their number bounds, and tells how
    /// many. Those of a file are copied once, and no memory is taken for them; for those of a pipe or a device it is.
    ///
    /// It answers `EBADF` where the descriptor isn't open for reading, `EFAULT` where a piece can't be written, what the table
    /// of files refuses, and `EAGAIN` where a read would wait.
    ///
    /// References: read(2), readv(2).
    #[tactic(auto, unfolding(crate::specs::Moving::read_into))]
    pub fn read_into(
        &mut self,
        thread: u32,
        fd: u64,
        pieces: &[Piece],
        size: u64,
    ) -> Result<i64, AllocError>
        requires total { size ≡ total pieces.now }
        requires few { size ≤ most_bytes }
        ensures answer { IfOk result (λ answer. gives answer self.new ≡ read_into thread fd pieces.now (shared_of self.old)) }
        ensures pending { self.new.pending ≡ self.old.pending }
        ensures err { OnErr result (self.new ≡ self.old) }
    {
        if !self.is_readable(fd) {
            return Ok(-Errno::EBADF.code());
        }
        if is_any_bad(&self.pages, pieces, WRITABLE) {
            return Ok(-Errno::EFAULT.code());
        }
        match self.files.standing(fd) {
            Some(count) => self.take_in(thread, fd, pieces, size, count),
            None => match self.move_in(thread, fd, pieces, size) {
                Ok(count) => Ok(count as i64),
                Err(errno) => Ok(-errno.code()),
            },
        }
    }

    /// Reads bytes of a device or a pipe, at which so many stand ready, into pieces that can be written. It takes memory for no
    /// more than these.
    fn take_in(
        &mut self,
        thread: u32,
        fd: u64,
        pieces: &[Piece],
        size: u64,
        count: u64,
    ) -> Result<i64, AllocError>
        requires few { size ≤ most_bytes }
        requires good { any_bad writable self.old.pages pieces.now ≡ false }
        requires there { standing fd self.old.files ≡ Some count }
        ensures answer { IfOk result (λ answer. gives answer self.new ≡ taken thread pieces.now (read_table fd size self.old.files) (shared_of self.old)) }
        ensures pending { self.new.pending ≡ self.old.pending }
        ensures err { OnErr result (self.new ≡ self.old) }
    {
        self.take_so_many(thread, fd, pieces, needed(size, count))
    }

    /// Reads so many bytes at most of a device or a pipe. It takes memory for as many.
    fn take_so_many(
        &mut self,
        thread: u32,
        fd: u64,
        pieces: &[Piece],
        size: u64,
    ) -> Result<i64, AllocError>
        requires few { size ≤ most_bytes }
        requires good { any_bad writable self.old.pages pieces.now ≡ false }
        ensures answer { IfOk result (λ answer. gives answer self.new ≡ taken thread pieces.now (read_table fd size self.old.files) (shared_of self.old)) }
        ensures pending { self.new.pending ≡ self.old.pending }
        ensures err { OnErr result (self.new ≡ self.old) }
    {
        let mut bytes = Vec::new(self.files.alloc());
        bytes.resize(size as usize, 0)?;
        match self.files.read(fd, bytes.as_mut_slice()) {
            Ok(count) => {
                scatter(
                    &mut self.pages,
                    &mut self.held,
                    thread,
                    pieces,
                    &bytes[..count],
                );
                Ok(count as i64)
            }
            Err(fault) => Ok(-errno_of(fault).code()),
        }
    }

    /// Reads bytes of a file into pieces that can be written, and tells how many.
    #[tactic(auto, using(file_table::proofs::PeekFacts::read_is))]
    fn move_in(&mut self, thread: u32, fd: u64, pieces: &[Piece], size: u64) -> Result<u64, Errno>
        requires few { size ≤ most_bytes }
        requires good { any_bad writable self.old.pages pieces.now ≡ false }
        requires none { standing fd self.old.files ≡ None }
        ensures ok { IfOk result (λ count. gives (pos count) self.new ≡ taken thread pieces.now (read_table fd size self.old.files) (shared_of self.old)) }
        ensures few { IfOk result (λ count. count ≤ most_bytes) }
        ensures err { IfErr result (λ errno. refuses errno (shared_of self.old) ≡ taken thread pieces.now (read_table fd size self.old.files) (shared_of self.old)) }
        ensures stays { OnErr result (self.new ≡ self.old) }
        ensures pending { self.new.pending ≡ self.old.pending }
    {
        let count = match self.files.peek(fd, size) {
            Ok(bytes) => {
                scatter(&mut self.pages, &mut self.held, thread, pieces, bytes);
                bytes.len() as u64
            }
            Err(errno) => return Err(errno),
        };
        self.files.advance(fd, count);
        Ok(count)
    }

    /// Reads bytes of a file from an offset on.
    ///
    /// References: pread(2).
    #[tactic(auto, unfolding(crate::specs::Moving::pread64))]
    pub(crate) fn pread64(&mut self, thread: u32, fd: u64, at: u64, wish: u64, offset: u64) -> i64
        ensures answer { gives result self.new ≡ pread64 thread fd at wish offset (shared_of self.old) }
        ensures pending { self.new.pending ≡ self.old.pending }
    {
        if offset >= OFFSET_END {
            return -Errno::EINVAL.code();
        }
        if !self.is_readable(fd) {
            return -Errno::EBADF.code();
        }
        let pieces = [one_piece(at, wish)];
        if is_any_bad(&self.pages, &pieces, WRITABLE) {
            return -Errno::EFAULT.code();
        }
        match self.files.peek_at(fd, offset, pieces[0].size) {
            Ok(bytes) => {
                scatter(&mut self.pages, &mut self.held, thread, &pieces, bytes);
                bytes.len() as i64
            }
            Err(errno) => -errno.code(),
        }
    }

    /// Writes what stands in pieces of memory, which are at most 1,048,576 bytes, in one go and in time that their number
    /// bounds, and tells how many bytes went. It takes memory for them.
    ///
    /// It answers `EBADF` where the descriptor isn't open for writing, `EFAULT` where a piece can't be read, what the table of
    /// files refuses, and `EAGAIN` where a write would wait.
    ///
    /// References: write(2), writev(2).
    #[tactic(auto, unfolding(crate::specs::Moving::write_from))]
    pub fn write_from(&mut self, fd: u64, pieces: &[Piece]) -> Result<i64, AllocError>
        requires { total pieces.now ≤ most_bytes }
        ensures answer { IfOk result (λ answer. gives answer self.new ≡ write_from fd pieces.now (shared_of self.old)) }
        ensures few { IfOk result (λ answer. answer ≤ℤ pos most_bytes) }
        ensures pending { self.new.pending ≡ self.old.pending }
        ensures err { OnErr result (self.new ≡ self.old) }
    {
        if !self.is_writable(fd) {
            return Ok(-Errno::EBADF.code());
        }
        if is_any_bad(&self.pages, pieces, READABLE) {
            return Ok(-Errno::EFAULT.code());
        }
        let bytes = gather(self.files.alloc(), &self.pages, pieces)?;
        match self.files.write(fd, bytes.as_slice()) {
            Ok(count) => Ok(count as i64),
            Err(FileFault::Errno(errno)) => Ok(-errno.code()),
            Err(FileFault::Block) => Ok(-errno_of(FileFault::Block).code()),
            Err(FileFault::Memory) => Err(AllocError),
        }
    }

    /// Writes bytes of memory to a file from an offset on.
    ///
    /// References: pwrite(2).
    #[tactic(auto, unfolding(crate::specs::Moving::pwrite64))]
    pub(crate) fn pwrite64(
        &mut self,
        fd: u64,
        at: u64,
        wish: u64,
        offset: u64,
    ) -> Result<i64, AllocError>
        ensures answer { IfOk result (λ answer. gives answer self.new ≡ pwrite64 fd at wish offset (shared_of self.old)) }
        ensures pending { self.new.pending ≡ self.old.pending }
        ensures err { OnErr result (self.new ≡ self.old) }
    {
        if offset >= OFFSET_END {
            return Ok(-Errno::EINVAL.code());
        }
        if !self.is_writable(fd) {
            return Ok(-Errno::EBADF.code());
        }
        let pieces = [one_piece(at, wish)];
        if is_any_bad(&self.pages, &pieces, READABLE) {
            return Ok(-Errno::EFAULT.code());
        }
        let bytes = gather(self.files.alloc(), &self.pages, &pieces)?;
        match self.files.write_at(fd, offset, bytes.as_slice()) {
            Ok(count) => Ok(count as i64),
            Err(FileFault::Errno(errno)) => Ok(-errno.code()),
            Err(FileFault::Block) => unreachable!(),
            Err(FileFault::Memory) => Err(AllocError),
        }
    }

    /// Moves a description's offset, and tells it.
    ///
    /// References: lseek(2).
    #[tactic(auto, unfolding(crate::specs::Moving::lseek))]
    pub(crate) fn lseek(&mut self, fd: u64, offset: u64, whence: u64) -> i64
        ensures answer { gives result self.new ≡ lseek fd offset whence (shared_of self.old) }
        ensures pending { self.new.pending ≡ self.old.pending }
    {
        match self.files.seek(fd, offset.cast_signed(), whence) {
            Ok(to) => to as i64,
            Err(errno) => -errno.code(),
        }
    }

    /// Cuts a file to a size, or fills it up with zeros.
    ///
    /// References: ftruncate(2).
    #[tactic(auto, unfolding(crate::specs::Moving::ftruncate))]
    pub(crate) fn ftruncate(&mut self, fd: u64, size: u64) -> Result<i64, AllocError>
        ensures answer { IfOk result (λ answer. gives answer self.new ≡ ftruncate fd size (shared_of self.old)) }
        ensures pending { self.new.pending ≡ self.old.pending }
        ensures err { OnErr result (self.new ≡ self.old) }
    {
        if size >= OFFSET_END {
            return Ok(-Errno::EINVAL.code());
        }
        match self.files.truncate(fd, size) {
            Ok(()) => Ok(0),
            Err(FileFault::Errno(errno)) => Ok(-errno.code()),
            Err(FileFault::Block) => unreachable!(),
            Err(FileFault::Memory) => Err(AllocError),
        }
    }

    /// Tells entries of a directory, as many as fit. It takes memory for as many bytes as are asked for.
    ///
    /// References: getdents64(2).
    #[tactic(auto, unfolding(crate::specs::Moving::getdents64))]
    pub(crate) fn getdents64(
        &mut self,
        thread: u32,
        fd: u64,
        at: u64,
        wish: u64,
    ) -> Result<i64, AllocError>
        ensures answer { IfOk result (λ answer. gives answer self.new ≡ getdents64 thread fd at wish (shared_of self.old)) }
        ensures pending { self.new.pending ≡ self.old.pending }
        ensures err { OnErr result (self.new ≡ self.old) }
    {
        let room = wish.min(MOST_BYTES);
        if self.files.what(fd).is_none() {
            return Ok(-Errno::EBADF.code());
        }
        match self.pages.allows(at, room, WRITABLE) {
            Ok(()) => self.list_into(thread, fd, at, room),
            Err(_) => Ok(-Errno::EFAULT.code()),
        }
    }

    /// Tells entries where there is room for so many bytes.
    fn list_into(&mut self, thread: u32, fd: u64, at: u64, room: u64) -> Result<i64, AllocError>
        requires good { first_fault writable self.old.pages at room ≡ None }
        requires few { room ≤ most_bytes }
        ensures answer { IfOk result (λ answer. gives answer self.new ≡ told_entries thread at (list fd room self.old.files) (shared_of self.old)) }
        ensures pending { self.new.pending ≡ self.old.pending }
        ensures err { OnErr result (self.new ≡ self.old) }
    {
        let alloc = self.files.alloc();
        let mut bytes = Vec::new(alloc);
        bytes.resize(room as usize, 0)?;
        match self.files.list(alloc, fd, bytes.as_mut_slice()) {
            Ok(count) => {
                let piece = Piece { at, size: room };
                put_piece(
                    &mut self.pages,
                    &mut self.held,
                    thread,
                    piece,
                    &bytes[..count],
                );
                Ok(count as i64)
            }
            Err(FileFault::Errno(errno)) => Ok(-errno.code()),
            Err(FileFault::Block) => unreachable!(),
            Err(FileFault::Memory) => Err(AllocError),
        }
    }
}
