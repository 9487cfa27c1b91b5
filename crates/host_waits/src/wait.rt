//! What is kept of a call that waits.

ghost use Rattle.std.specs.Prelude.{◌≡◌, ◌≤◌, IfOk, length};
ghost use Rattle.host_calls.specs.Pieces.{most_bytes, total};
ghost use Rattle.host_waits.specs.Waits.{for_bytes, for_time, is_past};

use call_table::Call;
use host_calls::Piece;
use std::alloc::{AllocError, Global};
use std::marker::Model;

/// What a call waits for.
#[derive(Clone, Copy, Debug, PartialEq, Eq)]
pub enum WaitKind {
    /// Bytes of a pipe or a device.
    Read,
    /// Room in a pipe.
    Write,
    /// To be woken at a word.
    Futex,
    /// Its deadline.
    Sleep,
    /// Descriptors that are ready.
    Poll,
}

/// A descriptor that is polled.
///
/// References: poll(2).
#[derive(Clone, Copy, Debug, PartialEq, Eq)]
pub struct Polled {
    /// Negative where it is 2^31 or more.
    pub fd: u32,
    /// The bits that are asked for.
    pub asked: u16,
}

/// A call that waits: the call, what it waits for, up to when, and what was copied as it was entered. A deadline is in
/// nanoseconds.
#[derive(Drop)]
pub struct WaitState {
    pub(crate) call: Call,
    pub(crate) kind: WaitKind,
    pub(crate) deadline: Option<u64>,
    /// How many bytes have moved.
    pub(crate) moved: u64,
    /// Between which the bytes move that are left, and how many these are.
    pub(crate) pieces: Vec<Piece>,
    pub(crate) left: u64,
    pub(crate) polled: Vec<Polled>,
}

impl Model for WaitState {
    ghost use Rattle.std.specs.Prelude.{◌≡◌, ◌+◌, ◌≤◌, ◌*◌, length};
    ghost use Rattle.host_calls.specs.Pieces.{most_bytes, total};
    ghost use Rattle.host_waits.specs.Waits.{Wait};

    ghost Value = { Wait };

    ghost view = { λ wait. record { call = wait.call; kind = wait.kind; deadline = wait.deadline; moved = wait.moved; pieces = wait.pieces.items; polled = wait.polled.items } };

    ghost invariant = { λ wait. (wait.left ≡ total wait.pieces.items) × (wait.moved + total wait.pieces.items ≤ most_bytes) × (length wait.polled.items ≤ 256) };
}

impl WaitState {
    /// A read or a write waits, for pieces that have so many bytes. It takes memory for the pieces.
    pub(crate) fn for_bytes(
        alloc: Global,
        kind: WaitKind,
        call: &Call,
        pieces: &[Piece],
        left: u64,
    ) -> Result<WaitState, AllocError>
        requires total { left ≡ total pieces.now }
        requires few { left ≤ most_bytes }
        ensures { IfOk result (λ wait. wait ≡ for_bytes kind call.now pieces.now) }
    {
        let mut kept = Vec::new(alloc);
        kept.extend_from_slice(pieces)?;
        Ok(WaitState {
            call: *call,
            kind,
            deadline: None,
            moved: 0,
            pieces: kept,
            left,
            polled: Vec::new(alloc),
        })
    }

    /// A call waits up to a deadline. It takes no memory.
    pub(crate) fn for_time(
        alloc: Global,
        kind: WaitKind,
        call: &Call,
        deadline: Option<u64>,
        polled: Vec<Polled>,
    ) -> WaitState
        requires { length polled.items ≤ 256 }
        ensures { result ≡ for_time kind call.now deadline polled.items }
    {
        WaitState {
            call: *call,
            kind,
            deadline,
            moved: 0,
            pieces: Vec::new(alloc),
            left: 0,
            polled,
        }
    }

    /// The call.
    pub fn call(&self) -> Call
        ensures { result ≡ self.now.call }
    {
        self.call
    }

    /// What it waits for.
    pub fn kind(&self) -> WaitKind
        ensures { result ≡ self.now.kind }
    {
        self.kind
    }

    /// The time at which it is ready whatever else, in nanoseconds.
    pub fn deadline(&self) -> Option<u64>
        ensures { result ≡ self.now.deadline }
    {
        self.deadline
    }

    /// How many bytes a write has moved.
    pub fn moved(&self) -> u64
        ensures { result ≡ self.now.moved }
    {
        self.moved
    }

    /// Whether its deadline is there.
    pub(crate) fn is_past(&self, clock: u64) -> bool
        ensures { result ≡ is_past clock self.now.deadline }
    {
        is_past(clock, self.deadline)
    }
}

/// Whether a deadline is there.
pub(crate) fn is_past(clock: u64, deadline: Option<u64>) -> bool
    ensures { result ≡ is_past clock deadline }
{
    match deadline {
        Some(at) => at <= clock,
        None => false,
    }
}
