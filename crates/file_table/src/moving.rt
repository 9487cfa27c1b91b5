//! Bytes that are read and written, and offsets.

ghost use Rattle.std.specs.Prelude.{◌≡◌, ◌≢◌, ℕ, Bool, List, option_map, ◌+◌, ◌^◌, ◌<◌, ◌≤◌, ◌==◌, ◌||◌, not, max, min, true, false, ◌+ℤ◌, pos, length, take, get_or, slice_get, Some, None, Ok, Err, IfOk, IfErr, IfSome, OnOk};
ghost use Rattle.file_tree.specs.declared.kind.Kind.TheVariants.{File};
ghost use Rattle.file_tree.specs.Files.{truncated};
ghost use Rattle.file_tree.specs.Nodes.{Has, kind_in};
ghost use Rattle.file_table.specs.declared.state.Target.TheVariants as targets;
ghost use Rattle.file_table.specs.declared.fault.FileFault.TheVariants as faults;
ghost use Rattle.file_table.specs.Descriptors.{no_device, pipe_of};
ghost use Rattle.file_table.specs.Due.{Answers, AnswersAlways, Leaves, LeavesTree, Moves, Reads, ReadsAlways, RestStays, done};
ghost use Rattle.file_table.specs.Flags.{can_read, can_write, never_waits};
ghost use Rattle.file_table.specs.Moving.{advanced, counted_from, cut, file_read, file_written, given, given_by, lawful, more_bytes, past, peek, place_of, read, read_at, read_device, read_pipe, read_target, read_target_at, room_in, seek, standing, taken_by, takes_by, truncate, waits, without_bytes, without_input, with_devices, with_output, write, write_at, write_node, write_pipe, write_target_at};
ghost use Rattle.file_table.specs.Sound.{IsThere};
ghost use Rattle.file_table.specs.State.{at, bytes_by, is_open_by, lives_by, open_as};

use crate::fault::FileFault;
use crate::files::Files;
use crate::pipes::Pipe;
use crate::state::{Description, Device, Target};
use file_tree::{Errno, Inode, Kind, TreeFault};

/// The flag of a description that appends.
const APPEND: u64 = 0x400;

/// The flag of a description that never waits.
const NO_WAIT: u64 = 0x800;

/// The most bytes that are written to a pipe whole or not at all.
const WHOLE_SIZE: usize = 4096;

/// One more than the largest offset.
const OFFSET_END: u64 = 0x8000_0000_0000_0000;

impl Files {
    /// Reads bytes at the description's offset, which goes on by their number, and tells how many; none at the end of the
    /// file, or behind it. It costs by their number, and takes no memory.
    ///
    /// From a device it takes bytes that came in, and from a pipe those that were written to it, as many as are there and fit.
    /// Where none are there and more may come, the call waits, or is refused with `EAGAIN` where the description never waits.
    /// A read of no bytes never waits.
    ///
    /// It is refused with `EBADF` where the descriptor isn't open for reading, then with `EISDIR` at a directory.
    ///
    /// References: read(2), pipe(7).
    #[tactic(auto, unfolding(crate::specs::Moving::read))]
    pub fn read(&mut self, fd: u64, into: &mut [u8]) -> Result<usize, FileFault>
        ensures { Reads result (read fd (length into.old) self.old) into.old into.new self.old self.new }
    {
        match self.open_as(fd) {
            Some((number, it)) => {
                if !can_read(it.flags) {
                    return Err(FileFault::Errno(Errno::EBADF));
                }
                self.read_target(number, it, into)
            }
            None => Err(FileFault::Errno(Errno::EBADF)),
        }
    }

    /// The bytes that `read` would give for a buffer of this size, as they stand in the file; nothing moves. It takes constant
    /// time. It is refused as `read` is, and with `ESPIPE` at a device or a pipe.
    ///
    /// References: read(2).
    #[tactic(auto, unfolding(crate::specs::Moving::peek))]
    pub fn peek(&self, fd: u64, size: u64) -> Result<&[u8], Errno>
        ensures bytes { IfOk result (λ bytes. peek fd size self.now ≡ Ok bytes.now) }
        ensures fault { IfErr result (λ errno. peek fd size self.now ≡ Err errno) }
        ensures low { IfOk result (λ bytes. IfSome (open_as fd self.now) (λ it. it.1.offset + length bytes.now < 2 ^ 64)) }
        ensures few { IfOk result (λ bytes. length bytes.now ≤ size) }
    {
        match self.open_as(fd) {
            Some((_, it)) => {
                if !can_read(it.flags) {
                    return Err(Errno::EBADF);
                }
                match it.target {
                    Target::Node(inode) => self.file_part(inode, it.offset, size),
                    Target::Device(_) | Target::Pipe { .. } => Err(Errno::ESPIPE),
                }
            }
            None => Err(Errno::EBADF),
        }
    }

    /// How many bytes stand ready at the device, or in the pipe, that a descriptor is open for; nothing where it isn't open, or
    /// for a file or a directory. It takes constant time.
    ///
    /// References: pipe(7).
    #[tactic(auto, unfolding(crate::specs::Moving::standing))]
    pub fn standing(&self, fd: u64) -> Option<u64>
        ensures { result ≡ standing fd self.now }
    {
        match self.open_as(fd) {
            Some((_, it)) => match it.target {
                Target::Node(_) => None,
                Target::Device(device) => Some(self.devices[device].input.len() as u64),
                Target::Pipe { pipe, .. } => Some(self.pipe_len(pipe)),
            },
            None => None,
        }
    }

    /// How many bytes a pipe has.
    fn pipe_len(&self, number: usize) -> u64
        ensures { result ≡ length (bytes_by (at self.now.pipes number)) }
    {
        match self.pipes.get(number) {
            Some(Some(pipe)) => pipe.len() as u64,
            Some(None) | None => 0,
        }
    }

    /// The bytes of an entry of the tree.
    fn file_part(&self, inode: Inode, offset: u64, size: u64) -> Result<&[u8], Errno>
        requires { Has self.now.tree inode }
        ensures bytes { IfOk result (λ bytes. file_read inode offset size self.now.tree ≡ Ok bytes.now) }
        ensures fault { IfErr result (λ errno. file_read inode offset size self.now.tree ≡ Err errno) }
        ensures low { IfOk result (λ bytes. offset + length bytes.now < 2 ^ 64) }
        ensures few { IfOk result (λ bytes. length bytes.now ≤ size) }
    {
        match self.tree.kind(inode) {
            Kind::File => Ok(self.tree.part(inode, offset, size)),
            Kind::Dir => Err(Errno::EISDIR),
        }
    }

    /// The description's offset goes on by so many bytes; nothing happens where the descriptor isn't open.
    ///
    /// References: read(2).
    #[tactic(auto, unfolding(crate::specs::Moving::advanced))]
    pub fn advance(&mut self, fd: u64, count: u64)
        requires { IfSome (open_as fd self.old) (λ it. it.1.offset + count < 2 ^ 64) }
        ensures { self.new ≡ advanced fd count self.old }
    {
        if let Some((number, it)) = self.open_as(fd) {
            self.change(number, it, it.flags, it.offset + count);
        }
    }

    /// Reads from what a description is open for.
    fn read_target(
        &mut self,
        number: usize,
        it: Description,
        into: &mut [u8],
    ) -> Result<usize, FileFault>
        requires at { at self.old.descriptions number ≡ Some it }
        requires there { IsThere self.old.tree self.old.devices self.old.pipes it.target }
        ensures { Reads result (read_target it.target number it (length into.old) self.old) into.old into.new self.old self.new }
    {
        match it.target {
            Target::Node(inode) => match self.file_read(inode, it.offset, into) {
                Ok(count) => {
                    self.change(number, it, it.flags, it.offset + count as u64);
                    Ok(count)
                }
                Err(errno) => Err(FileFault::Errno(errno)),
            },
            Target::Device(device) => self.read_device(device, it.flags, into),
            Target::Pipe { pipe, .. } => self.read_pipe(pipe, it.flags, into),
        }
    }

    /// Reads bytes that came in at a device.
    fn read_device(
        &mut self,
        number: usize,
        flags: u64,
        into: &mut [u8],
    ) -> Result<usize, FileFault>
        requires { number < length self.old.devices }
        ensures { Reads result (read_device number (get_or self.old.devices number no_device) flags (length into.old) self.old) into.old into.new self.old self.new }
    {
        give_input(&mut self.devices[number], flags, into)
    }

    /// Reads bytes of a pipe.
    fn read_pipe(&mut self, number: usize, flags: u64, into: &mut [u8]) -> Result<usize, FileFault>
        requires { number < length self.old.pipes }
        ensures { Reads result (read_pipe number (at self.old.pipes number) flags (length into.old) self.old) into.old into.new self.old self.new }
    {
        give_from(&mut self.pipes[number], flags, into)
    }

    /// Reads from an entry of the tree.
    #[tactic(auto, using(crate::proofs::MoveFacts::filled))]
    fn file_read(&self, inode: Inode, offset: u64, into: &mut [u8]) -> Result<usize, Errno>
        requires { Has self.now.tree inode }
        ensures read { ReadsAlways result (file_read inode offset (length into.old) self.now.tree) into.old into.new }
        ensures low { IfOk result (λ count. offset + count ≤ max offset 16777216) }
    {
        match self.tree.kind(inode) {
            Kind::File => Ok(self.tree.read_at(inode, offset, into)),
            Kind::Dir => Err(Errno::EISDIR),
        }
    }

    /// Reads bytes at an offset that is given, and tells how many. The description's own offset stays. It costs by their
    /// number, and takes no memory.
    ///
    /// It is refused with `EBADF` where the descriptor isn't open for reading, then with `EISDIR` at a directory, and with
    /// `ESPIPE` at a device.
    ///
    /// References: pread(2).
    #[tactic(auto, unfolding(crate::specs::Moving::read_at))]
    pub fn read_at(&self, fd: u64, offset: u64, into: &mut [u8]) -> Result<usize, Errno>
        ensures { ReadsAlways result (read_at fd offset (length into.old) self.now) into.old into.new }
    {
        match self.open_as(fd) {
            Some((_, it)) => {
                if !can_read(it.flags) {
                    return Err(Errno::EBADF);
                }
                match it.target {
                    Target::Node(inode) => self.file_read(inode, offset, into),
                    Target::Device(_) | Target::Pipe { .. } => Err(Errno::ESPIPE),
                }
            }
            None => Err(Errno::EBADF),
        }
    }

    /// The bytes that `read_at` would give for a buffer of this size, as they stand in the file. It takes constant time, and is
    /// refused as `read_at` is.
    ///
    /// References: pread(2).
    #[tactic(auto, unfolding(crate::specs::Moving::read_at))]
    pub fn peek_at(&self, fd: u64, offset: u64, size: u64) -> Result<&[u8], Errno>
        ensures bytes { IfOk result (λ bytes. read_at fd offset size self.now ≡ Ok bytes.now) }
        ensures fault { IfErr result (λ errno. read_at fd offset size self.now ≡ Err errno) }
        ensures few { IfOk result (λ bytes. length bytes.now ≤ size) }
    {
        match self.open_as(fd) {
            Some((_, it)) => {
                if !can_read(it.flags) {
                    return Err(Errno::EBADF);
                }
                match it.target {
                    Target::Node(inode) => self.file_part(inode, offset, size),
                    Target::Device(_) | Target::Pipe { .. } => Err(Errno::ESPIPE),
                }
            }
            None => Err(Errno::EBADF),
        }
    }

    /// Writes bytes at the description's offset, or at the end of a file where it appends, whole or not at all. The offset
    /// is behind them then, and stays where there are none. A device takes all bytes behind what it has. It costs by the
    /// number of bytes, and of the zeros in front of them where the offset is behind the file's end; its memory is theirs.
    ///
    /// To a pipe up to 4,096 bytes are written whole or not at all. Of more, those that fit are written where not all fit and
    /// the description never waits. Where the call would wait for room, it does so, or is refused with `EAGAIN` where the
    /// description never waits. Where nobody reads, it is refused with `EPIPE`. No bytes are written at once. A write to a pipe
    /// takes no memory.
    ///
    /// It is refused with `EBADF` where the descriptor isn't open for writing, then with `EFBIG` where the file would be too
    /// large, and with `ENOSPC` where all files together would be.
    ///
    /// References: write(2).
    #[tactic(auto, unfolding(crate::specs::Moving::write))]
    pub fn write(&mut self, fd: u64, bytes: &[u8]) -> Result<usize, FileFault>
        ensures answer { Moves result (write fd bytes.now self.old) self.old self.new }
        ensures few { IfOk result (λ count. count ≤ length bytes.now) }
        ensures memory { result ≡ Err faults.Memory → IfSome (open_as fd self.old) (λ it. pipe_of it.1.target ≡ None) }
    {
        match self.open_as(fd) {
            Some((number, it)) => {
                if !can_write(it.flags) {
                    return Err(FileFault::Errno(Errno::EBADF));
                }
                match it.target {
                    Target::Node(inode) => self.write_node(number, it, inode, bytes),
                    Target::Device(device) => self.write_device(device, bytes),
                    Target::Pipe { pipe, .. } => self.write_pipe(pipe, it.flags, bytes),
                }
            }
            None => Err(FileFault::Errno(Errno::EBADF)),
        }
    }

    /// Writes to an entry of the tree, and moves the offset.
    fn write_node(
        &mut self,
        number: usize,
        it: Description,
        inode: Inode,
        bytes: &[u8],
    ) -> Result<usize, FileFault>
        requires at { at self.old.descriptions number ≡ Some it }
        requires there { Has self.old.tree inode }
        ensures answer { Answers result (write_node inode number it bytes.now self.old) self.old self.new }
        ensures all { IfOk result (λ count. count ≡ length bytes.now) }
    {
        let place = self.place_of(it.flags, inode, it.offset);
        match self.file_write(inode, place, bytes) {
            Ok(()) => {
                let offset = past(it.offset, place, bytes.len());
                self.change(number, it, it.flags, offset);
                Ok(bytes.len())
            }
            Err(fault) => Err(fault),
        }
    }

    /// Where a write begins.
    fn place_of(&self, flags: u64, inode: Inode, offset: u64) -> u64
        requires { Has self.now.tree inode }
        ensures { result ≡ place_of flags inode offset self.now.tree }
    {
        if flags & APPEND == APPEND {
            return self.tree.size(inode);
        }
        offset
    }

    /// Writes to an entry of the tree.
    fn file_write(&mut self, inode: Inode, offset: u64, bytes: &[u8]) -> Result<(), FileFault>
        requires { Has self.old.tree inode }
        ensures tree { LeavesTree result (file_written inode offset bytes.now self.old.tree) self.old self.new }
        ensures low { OnOk result (0 < length bytes.now → offset + length bytes.now ≤ 16777216) }
    {
        match self.tree.kind(inode) {
            Kind::File => match self.tree.write_at(inode, offset, bytes) {
                Ok(()) => Ok(()),
                Err(TreeFault::Errno(errno)) => Err(FileFault::Errno(errno)),
                Err(TreeFault::Memory) => Err(FileFault::Memory),
            },
            Kind::Dir => Err(FileFault::Errno(Errno::EBADF)),
        }
    }

    /// Writes to a device.
    fn write_device(&mut self, device: usize, bytes: &[u8]) -> Result<usize, FileFault>
        requires { lives_by (slice_get self.old.devices device) ≡ true }
        ensures answer { Answers result (Ok (done (with_devices (with_output device bytes.now self.old.devices) self.old) (length bytes.now))) self.old self.new }
        ensures all { IfOk result (λ count. count ≡ length bytes.now) }
    {
        match self.devices[device].output.extend_from_slice(bytes) {
            Ok(()) => Ok(bytes.len()),
            Err(_) => Err(FileFault::Memory),
        }
    }

    /// Writes to a pipe.
    fn write_pipe(&mut self, number: usize, flags: u64, bytes: &[u8]) -> Result<usize, FileFault>
        requires { number < length self.old.pipes }
        ensures answer { Moves result (write_pipe number (at self.old.pipes number) bytes.now flags self.old) self.old self.new }
        ensures few { IfOk result (λ count. count ≤ length bytes.now) }
        ensures memory { result ≢ Err faults.Memory }
    {
        take_into(&mut self.pipes[number], flags, bytes)
    }

    /// Writes bytes at an offset that is given, or at the end of a file where the description appends. The description's
    /// own offset stays. It costs what a write does.
    ///
    /// It is refused as a write is, and with `ESPIPE` at a device.
    ///
    /// References: pwrite(2).
    #[tactic(auto, unfolding(crate::specs::Moving::write_at))]
    pub fn write_at(&mut self, fd: u64, offset: u64, bytes: &[u8]) -> Result<usize, FileFault>
        ensures answer { Answers result (write_at fd offset bytes.now self.old) self.old self.new }
        ensures all { IfOk result (λ count. count ≡ length bytes.now) }
    {
        match self.open_as(fd) {
            Some((_, it)) => {
                if !can_write(it.flags) {
                    return Err(FileFault::Errno(Errno::EBADF));
                }
                match it.target {
                    Target::Node(inode) => self.write_node_at(it.flags, inode, offset, bytes),
                    Target::Device(_) | Target::Pipe { .. } => {
                        Err(FileFault::Errno(Errno::ESPIPE))
                    }
                }
            }
            None => Err(FileFault::Errno(Errno::EBADF)),
        }
    }

    /// Writes to an entry of the tree at an offset that is given.
    fn write_node_at(
        &mut self,
        flags: u64,
        inode: Inode,
        offset: u64,
        bytes: &[u8],
    ) -> Result<usize, FileFault>
        requires { Has self.old.tree inode }
        ensures answer { Answers result (write_target_at (targets.Node inode) flags offset bytes.now self.old) self.old self.new }
        ensures all { IfOk result (λ count. count ≡ length bytes.now) }
    {
        let place = self.place_of(flags, inode, offset);
        match self.file_write(inode, place, bytes) {
            Ok(()) => Ok(bytes.len()),
            Err(fault) => Err(fault),
        }
    }

    /// Moves a description's offset, and tells it. It is counted from the start with 0, from where it stands with 1, and
    /// from the end with 2; a directory has size 0. It takes constant time and no memory.
    ///
    /// It is refused with `EINVAL` where `whence` is above 2, then with `EBADF` where the descriptor isn't open, then with
    /// `ESPIPE` at a device, and with `EINVAL` where the offset would be below 0 or above 2^63 - 1.
    ///
    /// References: lseek(2).
    #[tactic(auto, unfolding(crate::specs::Moving::seek))]
    pub fn seek(&mut self, fd: u64, offset: i64, whence: u64) -> Result<u64, Errno>
        ensures answer { AnswersAlways result (seek fd offset whence self.old) self.old self.new }
        ensures low { IfOk result (λ to. to < 2 ^ 63) }
    {
        if whence > 2 {
            return Err(Errno::EINVAL);
        }
        match self.open_as(fd) {
            Some((number, it)) => match it.target {
                Target::Node(inode) => match self.counted_from(whence, inode, it) {
                    Ok(from) => match lawful(from, offset) {
                        Ok(to) => {
                            self.change(number, it, it.flags, to);
                            Ok(to)
                        }
                        Err(errno) => Err(errno),
                    },
                    Err(errno) => Err(errno),
                },
                Target::Device(_) | Target::Pipe { .. } => Err(Errno::ESPIPE),
            },
            None => Err(Errno::EBADF),
        }
    }

    /// What an offset is counted from.
    fn counted_from(&self, whence: u64, inode: Inode, it: Description) -> Result<u64, Errno>
        requires { Has self.now.tree inode }
        ensures { result ≡ counted_from whence inode it self.now.tree }
    {
        match whence {
            0 => Ok(0),
            1 => Ok(it.offset),
            2 => Ok(self.tree.size(inode)),
            _ => Err(Errno::EINVAL),
        }
    }

    /// Cuts a file to a size in bytes, or fills it up with zeros. Offsets stay. It costs by the number of bytes that go or
    /// come; its memory is that of the zeros.
    ///
    /// It is refused with `EBADF` where the descriptor isn't open, then with `EINVAL` where it isn't open for writing a file,
    /// then with `EFBIG` where the file would be too large, and with `ENOSPC` where all files together would be.
    ///
    /// References: ftruncate(2).
    #[tactic(auto, unfolding(crate::specs::Moving::truncate))]
    pub fn truncate(&mut self, fd: u64, size: u64) -> Result<(), FileFault>
        ensures { Leaves result (truncate fd size self.old) self.old self.new }
    {
        match self.open_as(fd) {
            Some((_, it)) => match it.target {
                Target::Node(inode) => self.cut(inode, it.flags, size),
                Target::Device(_) | Target::Pipe { .. } => { Err(FileFault::Errno(Errno::EINVAL)) }
            },
            None => Err(FileFault::Errno(Errno::EBADF)),
        }
    }

    /// Cuts an entry of the tree.
    fn cut(&mut self, inode: Inode, flags: u64, size: u64) -> Result<(), FileFault>
        requires { Has self.old.tree inode }
        ensures { Leaves result (cut (targets.Node inode) flags size self.old) self.old self.new }
    {
        match self.tree.kind(inode) {
            Kind::File => {
                if !can_write(flags) {
                    return Err(FileFault::Errno(Errno::EINVAL));
                }
                match self.resize(inode, size) {
                    Ok(()) => Ok(()),
                    Err(fault) => Err(fault),
                }
            }
            Kind::Dir => Err(FileFault::Errno(Errno::EINVAL)),
        }
    }

    /// Gives a file a size.
    pub(crate) fn resize(&mut self, file: Inode, size: u64) -> Result<(), FileFault>
        requires { kind_in self.old.tree file ≡ Some File }
        ensures tree { LeavesTree result (truncated file size self.old.tree) self.old self.new }
        ensures there { Has self.new.tree file }
    {
        match self.tree.truncate(file, size) {
            Ok(()) => Ok(()),
            Err(TreeFault::Errno(errno)) => Err(FileFault::Errno(errno)),
            Err(TreeFault::Memory) => Err(FileFault::Memory),
        }
    }
}

/// Moves bytes that came in at a device out, as many as fit.
fn give_input(device: &mut Device, flags: u64, into: &mut [u8]) -> Result<usize, FileFault>
    ensures given { IfOk result (λ count. (given (not device.old.ended) device.old.input flags (length into.old) ≡ Ok (take count into.new)) × RestStays count into.old into.new) }
    ensures left { IfOk result (λ count. (count ≡ length (take count into.new)) × (device.new ≡ without_input count device.old)) }
    ensures fault { IfErr result (λ fault. (given (not device.old.ended) device.old.input flags (length into.old) ≡ Err fault) × (into.new ≡ into.old) × (device.new ≡ device.old)) }
    ensures memory { result ≢ Err faults.Memory }
    ensures live { device.new.live ≡ device.old.live }
{
    if !is_ready(into.len(), device.input.len(), !device.ended) {
        return Err(waits(flags));
    }
    Ok(device.input.give(into))
}

/// Moves the first bytes of a pipe out, as many as fit.
fn give_from(place: &mut Option<Pipe>, flags: u64, into: &mut [u8]) -> Result<usize, FileFault>
    ensures given { IfOk result (λ count. (given_by place.old flags (length into.old) ≡ Ok (take count into.new)) × RestStays count into.old into.new) }
    ensures left { IfOk result (λ count. (count ≡ length (take count into.new)) × (place.new ≡ option_map (without_bytes count) place.old)) }
    ensures fault { IfErr result (λ fault. (given_by place.old flags (length into.old) ≡ Err fault) × (into.new ≡ into.old) × (place.new ≡ place.old)) }
    ensures memory { result ≢ Err faults.Memory }
    ensures ends { (writes : Bool) → is_open_by writes place.new ≡ is_open_by writes place.old }
{
    match place {
        Some(pipe) => {
            if !is_ready(into.len(), pipe.len(), pipe.writer) {
                return Err(waits(flags));
            }
            Ok(pipe.give(into))
        }
        None => Err(FileFault::Errno(Errno::EBADF)),
    }
}

/// Puts bytes into a pipe, as it takes them.
fn take_into(place: &mut Option<Pipe>, flags: u64, bytes: &[u8]) -> Result<usize, FileFault>
    ensures moved { IfOk result (λ count. (takes_by place.old flags (length bytes.now) ≡ Ok count) × (place.new ≡ option_map (more_bytes (take count bytes.now)) place.old)) }
    ensures fault { IfErr result (λ fault. (takes_by place.old flags (length bytes.now) ≡ Err fault) × (place.new ≡ place.old)) }
    ensures few { IfOk result (λ count. count ≤ length bytes.now) }
    ensures memory { result ≢ Err faults.Memory }
    ensures ends { (writes : Bool) → is_open_by writes place.new ≡ is_open_by writes place.old }
{
    match place {
        Some(pipe) => write_to(pipe, flags, bytes),
        None => Err(FileFault::Errno(Errno::EBADF)),
    }
}

/// Writes to a pipe.
fn write_to(pipe: &mut Pipe, flags: u64, bytes: &[u8]) -> Result<usize, FileFault>
    ensures moved { IfOk result (λ count. (taken_by pipe.old flags (length bytes.now) ≡ Ok count) × (pipe.new ≡ more_bytes (take count bytes.now) pipe.old)) }
    ensures fault { IfErr result (λ fault. (taken_by pipe.old flags (length bytes.now) ≡ Err fault) × (pipe.new ≡ pipe.old)) }
    ensures few { IfOk result (λ count. count ≤ length bytes.now) }
    ensures memory { result ≢ Err faults.Memory }
{
    match takes(pipe, flags, bytes.len()) {
        Ok(_) => Ok(pipe.take(bytes)),
        Err(fault) => Err(fault),
    }
}

/// How many of so many bytes a pipe takes: those that fit.
pub(crate) fn takes(pipe: &Pipe, flags: u64, size: usize) -> Result<usize, FileFault>
    ensures ok { IfOk result (λ count. (taken_by pipe.now flags size ≡ Ok count) × (count ≡ min size (room_in pipe.now))) }
    ensures fault { IfErr result (λ fault. taken_by pipe.now flags size ≡ Err fault) }
    ensures memory { result ≢ Err faults.Memory }
{
    if size > 0 && !pipe.reader {
        return Err(FileFault::Errno(Errno::EPIPE));
    }
    let room = pipe.room();
    if size <= room {
        return Ok(size);
    }
    if size > WHOLE_SIZE && never_waits(flags) && room > 0 {
        return Ok(room);
    }
    Err(waits(flags))
}

/// Whether a read of so many bytes is done at once, where so many are there.
pub(crate) fn is_ready(size: usize, count: usize, more: bool) -> bool
    ensures { result ≡ ((size == 0) || (not (count == 0) || not more)) }
{
    size == 0 || count != 0 || !more
}

/// What a call comes to that would wait.
fn waits(flags: u64) -> FileFault
    ensures is { waits {A = ℕ} flags ≡ Err result }
    ensures reads { waits {A = List ℕ} flags ≡ Err result }
    ensures memory { result ≢ faults.Memory }
{
    if never_waits(flags) {
        return FileFault::Errno(Errno::EAGAIN);
    }
    FileFault::Block
}

/// Whether a description never waits.
pub(crate) fn never_waits(flags: u64) -> bool
    ensures { result ≡ never_waits flags }
{
    flags & NO_WAIT == NO_WAIT
}

/// Whether a description can be read.
pub(crate) fn can_read(flags: u64) -> bool
    ensures { result ≡ can_read flags }
{
    flags % 4 == 0 || flags % 4 == 2
}

/// Whether a description can be written.
pub(crate) fn can_write(flags: u64) -> bool
    ensures { result ≡ can_write flags }
{
    flags % 4 == 1 || flags % 4 == 2
}

/// The offset after a write.
fn past(old: u64, place: u64, count: usize) -> u64
    requires { 0 < count → place + count ≤ 16777216 }
    ensures { result ≡ past old place count }
{
    if count == 0 {
        return old;
    }
    place + count as u64
}

/// An offset that is counted from another one, if there may be such an offset.
fn lawful(from: u64, offset: i64) -> Result<u64, Errno>
    ensures to { result ≡ lawful (pos from +ℤ offset) }
    ensures low { IfOk result (λ to. to < 2 ^ 63) }
{
    let to = from as i128 + offset as i128;
    if to < 0 || to >= OFFSET_END as i128 {
        return Err(Errno::EINVAL);
    }
    Ok(to as u64)
}
