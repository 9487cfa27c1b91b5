//! Pipes that are made, what comes in at devices, and what is ready to be read or written.

ghost use Rattle.std.specs.Prelude.{◌≡◌, ◌+◌, ◌^◌, ◌<◌, ◌≤◌, Bool, ℕ, true, false, length, get_or, slice_get, Some, None, IfOk, OnOk, OnErr};
ghost use Rattle.file_table.specs.declared.state.Target.TheVariants as targets;
ghost use Rattle.file_table.specs.Descriptors.{lone_of, no_device};
ghost use Rattle.file_table.specs.Due.{Answers};
ghost use Rattle.file_table.specs.Opening.{vacant};
ghost use Rattle.file_table.specs.Pipes.{bit_if, ended_by, fed, fed_device, new_pipe, piped, piped_at, readiness, ready_device, ready_pipe, room, room_at, with_new_pipe};
ghost use Rattle.file_table.specs.State.{at, lives_by, put};

use crate::descriptors::free_place;
use crate::fault::FileFault;
use crate::files::Files;
use crate::pipes::Pipe;
use crate::state::{Device, Target};
use bitflags::Flags;
use call_table::OpenFlags;
use file_tree::Errno;
use std::alloc::{AllocError, Global};

/// The flags of a pipe: its descriptions never wait, and its descriptors are closed by execve.
const PIPE_FLAGS: u64 = 0x80800;

/// It can be read without waiting.
const CAN_READ: u16 = 1;

/// It can be written without waiting.
const CAN_WRITE: u16 = 4;

/// Nobody reads from the pipe.
const NO_READER: u16 = 8;

/// Nobody writes to the pipe.
const NO_WRITER: u16 = 16;

/// The descriptor isn't open.
const NOT_OPEN: u16 = 32;

impl Files {
    /// Makes a pipe, and opens its ends as the two least free descriptors, the first for reading and the second for writing.
    /// It costs by the number of descriptors, descriptions and pipes, and takes memory for all bytes that the pipe may hold.
    ///
    /// It is refused with `EINVAL` for flags other than those of a description that never waits and of a descriptor that
    /// execve closes, then with `EMFILE` where fewer than two descriptors are free.
    ///
    /// References: pipe(2), pipe(7).
    #[tactic(auto, using(crate::proofs::PipeFacts::named_low), unfolding(crate::specs::Pipes::piped))]
    pub fn pipe(&mut self, alloc: Global, flags: OpenFlags) -> Result<(u32, u32), FileFault>
        ensures { Answers result (piped flags.0 self.old) self.old self.new }
    {
        let flags = flags.bits();
        if flags | PIPE_FLAGS != PIPE_FLAGS {
            return Err(FileFault::Errno(Errno::EINVAL));
        }
        match self.free(0) {
            Some(reader) => match self.free(reader + 1) {
                Some(writer) => self.pipe_at(alloc, reader, writer, flags),
                None => Err(FileFault::Errno(Errno::EMFILE)),
            },
            None => Err(FileFault::Errno(Errno::EMFILE)),
        }
    }

    /// Makes a pipe, and opens its ends as descriptors that are free.
    fn pipe_at(
        &mut self,
        alloc: Global,
        reader: usize,
        writer: usize,
        flags: u64,
    ) -> Result<(u32, u32), FileFault>
        requires apart { (reader < writer) × (writer < 256) }
        requires free { (at self.old.descriptors reader ≡ None) × (at self.old.descriptors writer ≡ None) }
        requires low { flags < 2 ^ 63 }
        ensures { Answers result (piped_at (Some reader) (Some writer) flags self.old) self.old self.new }
    {
        match self.add_pipe(alloc) {
            Ok(pipe) => {
                self.open_end(reader, pipe, false, flags);
                self.open_end(writer, pipe, true, flags + 1);
                Ok((reader as u32, writer as u32))
            }
            Err(_) => Err(FileFault::Memory),
        }
    }

    /// A pipe of the least number that none has.
    fn add_pipe(&mut self, alloc: Global) -> Result<usize, AllocError>
        ensures ok { IfOk result (λ number. (number ≡ vacant self.old.pipes) × (self.new ≡ with_new_pipe self.old)) }
        ensures there { IfOk result (λ number. at self.new.pipes number ≡ Some new_pipe) }
        ensures fresh { IfOk result (λ number. (writes : Bool) (other : ℕ) → lone_of (at self.new.descriptions other) ≡ Some (targets.Pipe number writes) → ⊥) }
        ensures err { OnErr result (self.new ≡ self.old) }
    {
        let pipe = Pipe::new(alloc)?;
        let number = vacant_pipe(self.pipes.as_slice());
        put_pipe(&mut self.pipes, number, pipe)?;
        Ok(number)
    }

    /// Puts bytes behind those that came in at a device; no bytes are the end of what comes in. Nothing happens behind that end,
    /// and where the device isn't there. It costs by their number, over many calls, and so does its memory.
    ///
    /// References: none; where the bytes come from is the project's own.
    #[tactic(auto, unfolding(crate::specs::Pipes::fed))]
    pub fn feed(&mut self, device: usize, bytes: &[u8]) -> Result<(), AllocError>
        ensures ok { OnOk result (self.new ≡ fed device bytes.now self.old) }
        ensures err { OnErr result (self.new ≡ self.old) }
    {
        if device >= self.devices.len() {
            return Ok(());
        }
        feed_device(&mut self.devices[device], bytes)
    }

    /// Whether nothing more comes in at a device. One that isn't there hasn't ended.
    pub fn ended(&self, device: usize) -> bool
        ensures { result ≡ ended_by (slice_get self.now.devices device) }
    {
        match self.devices.get(device) {
            Some(device) => device.ended,
            None => false,
        }
    }

    /// What a descriptor is ready for, as bits: 1 it can be read without waiting, 4 it can be written without waiting, 8 nobody
    /// reads from the pipe that it writes to, 16 nobody writes to the pipe that it reads from, 32 it isn't open. It takes
    /// constant time.
    ///
    /// References: poll(2).
    #[tactic(auto, unfolding(crate::specs::Pipes::readiness))]
    pub fn readiness(&self, fd: u64) -> u16
        ensures { result ≡ readiness fd self.now }
    {
        match self.open_as(fd) {
            Some((_, it)) => match it.target {
                Target::Node(_) => CAN_READ + CAN_WRITE,
                Target::Device(device) => self.ready_device(device),
                Target::Pipe { pipe, writes } => match self.pipes.get(pipe) {
                    Some(Some(pipe)) => ready_pipe(pipe, writes),
                    Some(None) | None => 0,
                },
            },
            None => NOT_OPEN,
        }
    }

    /// What a device is ready for.
    fn ready_device(&self, device: usize) -> u16
        requires { lives_by (slice_get self.now.devices device) ≡ true }
        ensures { result ≡ ready_device (get_or self.now.devices device no_device) }
    {
        let device = &self.devices[device];
        CAN_WRITE + bit_if(CAN_READ, device.input.len() != 0 || device.ended)
    }

    /// How many bytes fit into the pipe that a descriptor writes to; 0 where it isn't open, or not for that. It takes constant
    /// time.
    ///
    /// References: pipe(7).
    #[tactic(auto, unfolding(crate::specs::Pipes::room))]
    pub fn room(&self, fd: u64) -> u64
        ensures { result ≡ room fd self.now }
    {
        match self.open_as(fd) {
            Some((_, it)) => match it.target {
                Target::Node(_) | Target::Device(_) => 0,
                Target::Pipe { pipe, writes } => match self.pipes.get(pipe) {
                    Some(Some(pipe)) if writes => pipe.room() as u64,
                    _ => 0,
                },
            },
            None => 0,
        }
    }
}

/// Puts bytes behind those that came in.
fn feed_device(device: &mut Device, bytes: &[u8]) -> Result<(), AllocError>
    ensures ok { OnOk result (device.new ≡ fed_device bytes.now device.old) }
    ensures err { OnErr result (device.new ≡ device.old) }
    ensures live { device.new.live ≡ device.old.live }
{
    if device.ended {
        return Ok(());
    }
    device.input.push(bytes)?;
    device.ended = bytes.is_empty();
    Ok(())
}

/// Puts a pipe at a place, or behind the last one.
fn put_pipe(pipes: &mut Vec<Option<Pipe>>, number: usize, pipe: Pipe) -> Result<(), AllocError>
    requires { number ≤ length pipes.old.items }
    ensures ok { OnOk result (pipes.new.items ≡ put number pipe pipes.old.items) }
    ensures err { OnErr result (pipes.new.items ≡ pipes.old.items) }
{
    if number < pipes.len() {
        pipes[number] = Some(pipe);
        return Ok(());
    }
    match pipes.push(Some(pipe)) {
        Ok(()) => Ok(()),
        Err(_) => Err(AllocError),
    }
}

/// A bit where something is so.
fn bit_if(bit: u16, is_so: bool) -> u16
    ensures { result ≡ bit_if bit is_so }
{
    if is_so { bit } else { 0 }
}

/// What an end of a pipe is ready for.
fn ready_pipe(pipe: &Pipe, writes: bool) -> u16
    ensures { result ≡ ready_pipe writes (Some pipe.now) }
{
    if writes {
        bit_if(CAN_WRITE, pipe.room() > 0) + bit_if(NO_READER, !pipe.reader)
    } else {
        bit_if(CAN_READ, pipe.len() != 0) + bit_if(NO_WRITER, !pipe.writer)
    }
}

/// The least number that no pipe has.
#[tactic(auto, using(crate::proofs::CountFacts::vacant_found, crate::proofs::CountFacts::vacant_end))]
fn vacant_pipe(pipes: &[Option<Pipe>]) -> usize
    ensures { result ≡ vacant pipes.now }
{
    match free_place(pipes, 0) {
        Some(number) => number,
        None => pipes.len(),
    }
}
