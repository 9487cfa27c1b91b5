ghost use Rattle.std.specs.Prelude.{◌≡◌};
ghost use Rattle.host_calls.specs.Shared.{clock_after, later_clock};

use crate::breaks::Break;
use crate::queue::Pending;
use file_table::Files;
use futex_table::FutexTable;
use guest_pages::Pages;
use word_memory::Reservations;

/// What the system has beside its threads.
#[derive(Drop)]
pub struct Host {
    pub pages: Pages,
    pub held: Reservations,
    /// The tree, the descriptors with what they lead to, and the devices.
    pub files: Files,
    /// The threads that wait at addresses.
    pub futexes: FutexTable,
    pub pending: Pending,
    pub program_break: Break,
    /// How many random bytes were drawn, modulo 2^64.
    pub drawn: u64,
    /// In nanoseconds.
    pub clock: u64,
}

impl Host {
    /// Time goes on by 100 ns, at most to its type's end.
    pub fn tick(&mut self)
        ensures { self.new ≡ record self.old { clock = later_clock self.old.clock } }
    {
        self.clock = self.clock.saturating_add(100);
    }

    /// Time goes on so many times, at once.
    #[tactic(auto, using(crate::proofs::ClockFacts::clock_is))]
    pub fn pass(&mut self, count: u32)
        ensures { self.new ≡ record self.old { clock = clock_after count self.old.clock } }
    {
        self.clock = self.clock.saturating_add(100 * u64::from(count));
    }
}
