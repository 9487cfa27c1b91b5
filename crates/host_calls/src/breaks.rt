//! Whole pages, and the program's break.

ghost use Rattle.std.specs.Prelude.{◌≡◌, ◌≤◌, ◌+◌, ◌*◌, not, nat_lt};
ghost use Rattle.guest_pages.specs.Limits.{maps_end, user_end};
ghost use Rattle.host_calls.specs.Breaks.{IsBreak, break_behind, most_break, pages_of as whole_pages};
ghost use Rattle.host_calls.specs.Maps.{is_outside as lies_outside};

use guest_pages::{PAGE_SIZE, USER_END};
use std::marker::Model;

/// The most bytes of a break: 64 MiB.
pub const MOST_BREAK: u64 = 0x400_0000;

/// The program's break, a byte address, and where it began, on a page's boundary. It is at most 64 MiB above that, and so far
/// are user addresses.
#[derive(Drop)]
pub struct Break {
    first: u64,
    present: u64,
}

impl Model for Break {
    ghost use Rattle.host_calls.specs.Breaks.{IsBreak};
    ghost use Rattle.host_calls.specs.Shared.{ProgramBreak};

    ghost Value = { ProgramBreak };

    ghost view = { λ b. record { first = b.first; present = b.present } };

    ghost invariant = { λ b. IsBreak b.first b.present };
}

impl Break {
    /// That of a program that ends at an address.
    pub fn behind(top: u64) -> Break
        requires { top ≤ maps_end }
        ensures { result ≡ break_behind top }
    {
        let first = PAGE_SIZE * pages_of(top);
        Break {
            first,
            present: first,
        }
    }

    pub fn first(&self) -> u64
        ensures first { result ≡ self.now.first }
        ensures room { result + most_break ≤ user_end }
    {
        self.first
    }

    pub fn present(&self) -> u64
        ensures present { result ≡ self.now.present }
        ensures low { self.now.first ≤ result }
        ensures high { result ≤ self.now.first + most_break }
    {
        self.present
    }

    pub fn set(&mut self, address: u64)
        requires low { self.old.first ≤ address }
        requires high { address ≤ self.old.first + most_break }
        ensures { self.new ≡ record self.old { present = address } }
    {
        self.present = address;
    }
}

/// The pages of so many bytes.
pub fn pages_of(length: u64) -> u64
    ensures { result ≡ whole_pages length }
{
    length / PAGE_SIZE + u64::from(length % PAGE_SIZE != 0)
}

/// Whether pages from an address on don't lie within user addresses.
pub fn is_outside(at: u64, count: u64) -> bool
    ensures { result ≡ lies_outside at (4096 * count) }
{
    at > USER_END || count > (USER_END - at) / PAGE_SIZE
}
