ghost use Rattle.std.specs.Prelude.{◌≡◌, ◌≢◌, ◌==◌, ◌&&◌, ◌||◌, ℕ, [], false, not, length, OnOk, OnErr};
ghost use Rattle.futex_table.specs.Sound.{IsSound};
ghost use Rattle.futex_table.specs.Waiters.{first, holds, is_at, joined, left, others, requeued, unwoken, woken};

use crate::taking::{move_first, take_out, take_thread};
use crate::waiter::{Test, Waiter, is_of};
use std::alloc::{AllocError, Global};
use std::marker::Model;

/// The threads that wait at addresses, which contracts see as a list in the order in which they came.
///
/// References: futex(2).
#[derive(Drop)]
pub struct FutexTable {
    /// It has room for as many again, so that a requeue takes no memory.
    waiters: Vec<Waiter>,
}

impl Model for FutexTable {
    ghost use Rattle.std.specs.Prelude.{List, ◌*◌, ◌≤◌, length, vec_capacity};
    ghost use Rattle.futex_table.specs.declared.waiter.Waiter.{Waiter};
    ghost use Rattle.futex_table.specs.Sound.{IsSound};

    ghost Value = { List Waiter };

    ghost view = { λ table. table.waiters.items };

    ghost invariant = { λ table. IsSound table.waiters.items × (2 * length table.waiters.items ≤ vec_capacity table.waiters) };
}

impl FutexTable {
    /// Nobody waits. It takes no memory.
    pub fn new(alloc: Global) -> FutexTable
        ensures { result ≡ [] }
    {
        FutexTable {
            waiters: Vec::new(alloc),
        }
    }

    /// Whether a thread waits. Its contract also tells what every table keeps. It costs by the number of all waiters.
    pub fn holds(&self, tid: u32) -> bool
        ensures holds { result ≡ holds tid self.now }
        ensures sound { IsSound self.now }
    {
        self.waiters.iter().any(|waiter| is_of(waiter, tid))
    }

    /// A thread that doesn't wait does so from now on, behind all that wait, at an address and for bits that aren't 0. Where
    /// memory is wanting, it doesn't. It takes constant time, but for moving the list where that must grow.
    ///
    /// References: futex(2), `FUTEX_WAIT_BITSET`.
    #[tactic(auto, using(crate::proofs::HeldFacts::sound_joined))]
    pub fn wait(&mut self, tid: u32, at: u64, bits: u32) -> Result<(), AllocError>
        requires apart { holds tid self.old ≡ false }
        requires bits { bits ≢ 0 }
        ensures ok { OnOk result (self.new ≡ joined (record { thread = tid; at = at; bits = bits }) self.old) }
        ensures err { OnErr result (self.new ≡ self.old) }
        ensures held { OnOk result ((thread : ℕ) → holds thread self.new ≡ (holds thread self.old || tid == thread)) }
    {
        self.waiters.reserve(self.waiters.len() + 2)?;
        self.waiters.push(Waiter {
            thread: tid,
            at,
            bits,
        })?;
        Ok(())
    }

    /// Wakes the first so many of those at an address whose bits meet these, and tells how many it woke. They are no longer
    /// held; the others stay in their order. It costs by the number of all waiters, and takes no memory.
    ///
    /// References: futex(2), `FUTEX_WAKE_BITSET`.
    #[tactic(auto, using(crate::proofs::HeldFacts::held_others, crate::proofs::HeldFacts::sound_others))]
    pub fn wake(&mut self, at: u64, count: u32, bits: u32) -> u32
        ensures waiters { self.new ≡ unwoken at count bits self.old }
        ensures count { result ≡ length (woken at count bits self.old) }
        ensures held { (thread : ℕ) → holds thread self.new ≡ (holds thread self.old && not (holds thread (woken at count bits self.old))) }
    {
        take_out(&mut self.waiters, Test::Meeting { at, bits }, count)
    }

    /// Wakes the first so many at an address, whatever their bits, and then moves the next of them, up to a limit, behind
    /// those that wait at another, in their order and with their bits. It tells how many it woke, and how many it moved. Where
    /// both addresses are the same, those moved come behind the others there. It costs by the number of all waiters, and takes
    /// no memory.
    ///
    /// References: futex(2), `FUTEX_CMP_REQUEUE`.
    #[tactic(auto, using(crate::proofs::HeldFacts::held_others, crate::proofs::HeldFacts::sound_others, crate::proofs::HeldFacts::held_moved_on, crate::proofs::HeldFacts::sound_moved_on))]
    pub fn requeue(&mut self, from: u64, to: u64, wake: u32, limit: u32) -> (u32, u32)
        ensures waiters { self.new ≡ requeued from to wake limit self.old }
        ensures woken { result.0 ≡ length (first (is_at from) wake self.old) }
        ensures moved { result.1 ≡ length (first (is_at from) limit (others (is_at from) wake self.old)) }
        ensures held { (thread : ℕ) → holds thread self.new ≡ (holds thread self.old && not (holds thread (first (is_at from) wake self.old))) }
    {
        let woken = take_out(&mut self.waiters, Test::At(from), wake);
        let moved = move_first(&mut self.waiters, from, to, limit);
        (woken, moved)
    }

    /// A thread waits no longer, wherever it did. Where it doesn't wait, nothing changes. It costs by the number of all waiters,
    /// and takes no memory.
    pub fn leave(&mut self, tid: u32)
        ensures waiters { self.new ≡ left tid self.old }
        ensures held { (thread : ℕ) → holds thread self.new ≡ (holds thread self.old && not (tid == thread)) }
    {
        take_thread(&mut self.waiters, tid);
    }
}
