ghost use Rattle.std.specs.Prelude.{◌≡◌, [], false, true, None, Some, OnOk, OnErr, map, not, if◌then◌else◌, ◌==◌};
ghost use Rattle.std.specs.List.{filter};
ghost use Rattle.word_memory.specs.Reservations.{after_store, any_reserved, holds, is_there, joined, left, reserving, stands, stored_to, touches, with_reservation};

use std::alloc::{AllocError, Global};
use std::marker::Model;

/// What a thread has reserved: the address of an aligned doubleword, if any.
#[derive(Clone, Copy)]
pub struct Held {
    pub thread: u32,
    pub reserved: Option<u64>,
}

/// The reservations of threads, which contracts see as a list. Whether there is any is kept beside it, so that a store
/// needn't go through the threads while there is none.
#[derive(Drop)]
pub struct Reservations {
    held: Vec<Held>,
    any: bool,
}

impl Model for Reservations {
    ghost use Rattle.std.specs.Prelude.{List, ◌≡◌};
    ghost use Rattle.word_memory.specs.declared.reservations.Held.{Held};

    ghost Value = { List Held };

    ghost use Rattle.word_memory.specs.Reservations.{any_reserved};

    ghost view = { λ all. all.held.items };

    ghost invariant = { λ all. all.any ≡ any_reserved all.held.items };
}

impl Reservations {
    /// No thread. It takes no memory.
    pub fn new(alloc: Global) -> Reservations
        ensures { result ≡ [] }
    {
        Reservations {
            held: Vec::new(alloc),
            any: false,
        }
    }

    /// A thread that isn't among them joins, without a reservation. Where memory is wanting, it doesn't.
    #[tactic(auto, using(crate::proofs::QuietFacts::joined_any), unfolding(crate::specs::Reservations::joined))]
    pub fn add_thread(&mut self, thread: u32) -> Result<(), AllocError>
        requires { is_there thread self.old ≡ false }
        ensures ok { OnOk result (self.new ≡ joined thread self.old) }
        ensures err { OnErr result (self.new ≡ self.old) }
    {
        self.held.push(Held {
            thread,
            reserved: None,
        })?;
        Ok(())
    }

    /// Ends the thread's reservation, if it has one. Its cost is in the number of threads.
    pub fn end(&mut self, thread: u32)
        ensures { self.new ≡ reserving thread None self.old }
    {
        reserve_in(self.held.as_mut_slice(), thread, None);
        self.any = is_any_reserved(self.held.as_slice());
    }

    /// The thread reserves the doubleword at an address. Its cost is in the number of threads.
    pub(crate) fn reserve(&mut self, thread: u32, at: u64)
        ensures { self.new ≡ reserving thread (Some at) self.old }
    {
        reserve_in(self.held.as_mut_slice(), thread, Some(at));
        self.any = is_any_reserved(self.held.as_slice());
    }

    /// Whether the thread's reservation of the doubleword stands. Its cost is in the number of threads.
    #[tactic(auto, unfolding(crate::specs::Reservations::stands))]
    pub(crate) fn stands(&self, thread: u32, at: u64) -> bool
        ensures { result ≡ stands thread at self.now }
    {
        self.held.iter().any(|held| is_of(held, thread, at))
    }

    /// A store of the thread to `length` bytes from `at` on ends the reservations of others that it touches. It takes
    /// constant time while there is no reservation; else its cost is in the number of threads.
    #[inline]
    #[tactic(auto, using(crate::proofs::QuietFacts::stored_quiet))]
    pub fn stored(&mut self, thread: u32, at: u64, length: u64)
        ensures { self.new ≡ stored_to thread at length self.old }
    {
        if self.any {
            self.end_touched(thread, at, length);
        }
    }

    /// The same where there is a reservation.
    #[inline(never)]
    fn end_touched(&mut self, thread: u32, at: u64, length: u64)
        ensures { self.new ≡ stored_to thread at length self.old }
    {
        store_in(self.held.as_mut_slice(), thread, at, length);
        self.any = is_any_reserved(self.held.as_slice());
    }

    /// The thread leaves. Its cost is in the number of threads.
    #[tactic(auto, unfolding(crate::specs::Reservations::left))]
    pub fn remove(&mut self, thread: u32)
        ensures { self.new ≡ left thread self.old }
    {
        remove_from(&mut self.held, thread);
        self.any = is_any_reserved(self.held.as_slice());
    }
}

/// Whether one of them has a reservation.
fn is_any_reserved(all: &[Held]) -> bool
    ensures { result ≡ any_reserved all.now }
{
    all.iter().any(|held| held.reserved.is_some())
}

fn remove_from(all: &mut Vec<Held>, thread: u32)
    ensures { all.new.items ≡ filter (λ h. not (h.thread == thread)) all.old.items }
{
    all.retain(|held| held.thread != thread);
}

fn is_of(held: &Held, thread: u32, at: u64) -> bool
    ensures { result ≡ holds thread at held.now }
{
    held.thread == thread && held.reserved == Some(at)
}

fn with_reserved(held: &Held, thread: u32, reserved: Option<u64>) -> Held
    ensures { result ≡ with_reservation thread reserved held.now }
{
    if held.thread == thread {
        Held {
            thread: held.thread,
            reserved,
        }
    } else {
        *held
    }
}

fn reserve_in(all: &mut [Held], thread: u32, reserved: Option<u64>)
    ensures { all.new ≡ reserving thread reserved all.old }
{
    for held in all.iter_mut() {
        *held = with_reserved(held, thread, reserved);
    }
}

/// What the store leaves of one reservation.
fn left_by_store(held: &Held, thread: u32, start: u64, length: u64) -> Held
    ensures { result ≡ after_store thread start length held.now }
{
    match held.reserved {
        Some(at) => {
            if held.thread != thread && does_touch(start, length, at) {
                Held {
                    thread: held.thread,
                    reserved: None,
                }
            } else {
                *held
            }
        }
        None => *held,
    }
}

fn does_touch(start: u64, length: u64, at: u64) -> bool
    ensures { result ≡ touches start length at }
{
    if start < at {
        at - start < length
    } else {
        length > 0 && start - at < 8
    }
}

fn store_in(all: &mut [Held], thread: u32, start: u64, length: u64)
    ensures { all.new ≡ stored_to thread start length all.old }
{
    for held in all.iter_mut() {
        *held = left_by_store(held, thread, start, length);
    }
}
