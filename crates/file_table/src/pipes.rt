//! Pipes, and bytes that came in at devices.

ghost use Rattle.std.specs.Prelude.{◌≡◌, ◌++◌, ◌-◌, [], min, length, take, drop, IfOk, OnOk, OnErr};
ghost use Rattle.file_table.specs.Descriptors.{without_end_by};
ghost use Rattle.file_table.specs.Due.{RestStays};
ghost use Rattle.file_table.specs.Moving.{more_bytes, room_in, without_bytes};
ghost use Rattle.file_table.specs.Pipes.{new_pipe};
ghost use Rattle.file_table.specs.State.{end_of_pipe};

use circular_buffer::HeapCircularBuffer;
use std::alloc::{AllocError, Global};
use std::marker::Model;

/// The most bytes that a pipe holds.
pub(crate) const PIPE_SIZE: usize = 65536;

/// A pipe: bytes that were written and not read yet, the first one first, and which of its ends are open. It has room for all
/// bytes that it may hold from its start.
///
/// References: pipe(7).
#[derive(Drop)]
pub struct Pipe {
    ring: HeapCircularBuffer<u8>,
    pub(crate) reader: bool,
    pub(crate) writer: bool,
}

impl Model for Pipe {
    ghost use Rattle.std.specs.Prelude.{◌≡◌};
    ghost use Rattle.file_table.specs.State.{Pipe};

    ghost Value = { Pipe };

    ghost view = { λ pipe. record { bytes = pipe.ring.items; reader = pipe.reader; writer = pipe.writer } };

    ghost invariant = { λ pipe. pipe.ring.capacity ≡ 65536 };
}

impl Pipe {
    /// An empty pipe, both of whose ends are open.
    pub(crate) fn new(alloc: Global) -> Result<Pipe, AllocError>
        ensures { IfOk result (λ pipe. pipe ≡ new_pipe) }
    {
        let ring = HeapCircularBuffer::with_capacity(alloc, PIPE_SIZE)?;
        Ok(Pipe {
            ring,
            reader: true,
            writer: true,
        })
    }

    /// How many bytes it has.
    pub(crate) fn len(&self) -> usize
        ensures { result ≡ length self.now.bytes }
    {
        self.ring.len()
    }

    /// How many bytes more it takes.
    pub(crate) fn room(&self) -> usize
        ensures { result ≡ room_in self.now }
    {
        PIPE_SIZE - self.ring.len()
    }

    /// Whether an end is open.
    pub(crate) fn is_open(&self, writes: bool) -> bool
        ensures { result ≡ end_of_pipe writes self.now }
    {
        if writes { self.writer } else { self.reader }
    }

    /// Moves its first bytes out, as many as fit.
    #[tactic(auto, using(crate::proofs::MoveFacts::given_is))]
    pub(crate) fn give(&mut self, into: &mut [u8]) -> usize
        ensures count { result ≡ length (take (length into.old) self.old.bytes) }
        ensures given { (take (length into.old) self.old.bytes ≡ take result into.new) × RestStays result into.old into.new }
        ensures left { self.new ≡ without_bytes result self.old }
    {
        self.ring.read_into(into)
    }

    /// Puts the first bytes behind those that it has, as many as fit.
    pub(crate) fn take(&mut self, bytes: &[u8]) -> usize
        ensures count { result ≡ min (length bytes.now) (room_in self.old) }
        ensures left { self.new ≡ more_bytes (take result bytes.now) self.old }
    {
        self.ring.fill_from_slice(bytes)
    }
}

/// Closes an end of a pipe, which goes with its last end.
pub(crate) fn close_end(place: &mut Option<Pipe>, writes: bool)
    ensures { place.new ≡ without_end_by writes place.old }
{
    let other = match place {
        Some(pipe) => pipe.is_open(!writes),
        None => return,
    };
    if !other {
        *place = None;
        return;
    }
    if let Some(pipe) = place {
        if writes {
            pipe.writer = false;
        } else {
            pipe.reader = false;
        }
    }
}

/// Bytes that came in and weren't read yet, the first one first.
#[derive(Drop)]
pub struct Input {
    ring: HeapCircularBuffer<u8>,
}

impl Model for Input {
    ghost use Rattle.std.specs.Prelude.{ℕ, List};

    ghost Value = { List ℕ };

    ghost view = { λ input. input.ring.items };
}

impl Input {
    /// No bytes.
    pub(crate) fn new(alloc: Global) -> Result<Input, AllocError>
        ensures { IfOk result (λ input. input ≡ []) }
    {
        let ring = HeapCircularBuffer::with_capacity(alloc, 0)?;
        Ok(Input { ring })
    }

    /// How many bytes there are.
    pub(crate) fn len(&self) -> usize
        ensures { result ≡ length self.now }
    {
        self.ring.len()
    }

    /// Moves the first bytes out, as many as fit.
    #[tactic(auto, using(crate::proofs::MoveFacts::given_is))]
    pub(crate) fn give(&mut self, into: &mut [u8]) -> usize
        ensures count { result ≡ length (take (length into.old) self.old) }
        ensures given { (take (length into.old) self.old ≡ take result into.new) × RestStays result into.old into.new }
        ensures left { self.new ≡ drop result self.old }
    {
        self.ring.read_into(into)
    }

    /// Puts bytes behind. It costs their number, over many calls, and so does its memory.
    pub(crate) fn push(&mut self, bytes: &[u8]) -> Result<(), AllocError>
        ensures ok { OnOk result (self.new ≡ self.old ++ bytes.now) }
        ensures err { OnErr result (self.new ≡ self.old) }
    {
        let wanted = self.ring.len() + bytes.len();
        if wanted > self.ring.capacity() {
            self.ring.resize(wanted.max(2 * self.ring.capacity()))?;
        }
        self.ring.fill_from_slice(bytes);
        Ok(())
    }
}
