ghost use Rattle.std.specs.Prelude.{◌≡◌, ◌≢◌, ◌≤◌, ◌<◌, ◌==◌, replicate, [], true, false, None, Some, length, map, slice_index_or, IfSome, OnOk, OnErr, IsOk};
ghost use Rattle.std.specs.List.{All};
ghost use Rattle.guest_core.specs.declared.thread.Thread.{Thread as CodeThread};
ghost use Rattle.guest_core.specs.Ahead.{AllGoOn, GoesOn};
ghost use Rattle.guest_pages.specs.Apart.{IsApart, KeepsCode};
ghost use Rattle.guest_core.specs.Event.{event_after, run};
ghost use Rattle.guest_core.specs.Kept.{IdsRise, Keeps};
ghost use Rattle.guest_core.specs.Runs.{EventIsSteady};
ghost use Rattle.guest_core.specs.State.{machine, member_of};
ghost use Rattle.guest_core.specs.System.{found};
ghost use Rattle.host_calls.specs.declared.host.Host.{Host};
ghost use Rattle.host_calls.specs.Marks.{Marked};
ghost use Rattle.isa_step.specs.Known.{IsKnown};

use crate::ends::End;
use crate::events::Event;
use crate::thread::Thread;
use host_calls::Host;
use isa_step::Decoder;
use std::alloc::AllocError;

/// The state of the machine.
#[derive(Drop)]
pub struct State {
    pub host: Host,
    /// `None` while the process lives.
    pub end: Option<End>,
    /// In the order of their ids, which rise.
    pub threads: Vec<Thread>,
}

/// Where the thread of an id stands among threads whose ids rise, `None` where none has it. It costs by the logarithm of
/// their number.
pub fn place_of(threads: &[Thread], id: u32) -> Option<usize>
    requires { (pending : Marked) → IdsRise 0 (map (member_of pending) threads.now) }
    ensures there { IfSome result (λ place. place < length threads.now) }
    ensures id { IfSome result (λ place. (d : CodeThread) → (slice_index_or threads.now place d).id ≡ id) }
    ensures none { result ≡ None → (pending : Marked) → found id (map (member_of pending) threads.now) ≡ None }
{
    let mut low = 0;
    let mut high = threads.len();
    while low < high {
        let middle = low + (high - low) / 2;
        let at = threads[middle].id;
        if at == id {
            return Some(middle);
        }
        if at < id {
            low = middle + 1;
        } else {
            high = middle;
        }
    }
    None
}

impl State {
    /// Makes a step of the thread at that place: time goes on, and the row that fits is done. After want of memory the state is
    /// as before.
    pub fn step(&mut self, place: usize) -> Result<(), AllocError>
        requires lives { self.old.end ≡ None }
        requires within { place < length self.old.threads.items }
        requires keeps { Keeps (machine self.old) }
        ensures happens { OnOk result ((d : CodeThread) → event_after (machine self.old) (Event.Step (slice_index_or self.old.threads.items place d).id) ≡ Some (machine self.new)) }
        ensures err { OnErr result (machine self.new ≡ machine self.old) }
        ensures steady { ((d : CodeThread) → EventIsSteady (machine self.old) (Event.Step (slice_index_or self.old.threads.items place d).id)) → IsOk result }
    {
        let clock = self.host.clock;
        self.host.tick();
        match self.threads[place].row(&mut self.host) {
            Ok(end) => {
                self.end = end;
                Ok(())
            }
            Err(_) => {
                self.host.clock = clock;
                Err(AllocError)
            }
        }
    }

    /// Makes instructions of the thread at that place, at most so many, up to the first that asks for a call or faults, and
    /// tells how many it made.
    pub fn run_on(&mut self, place: usize, decoder: &mut Decoder, limit: u32) -> u32
        requires within { place < length self.old.threads.items }
        requires lives { self.old.end ≡ None }
        requires keeps { Keeps (machine self.old) }
        requires apart { IsApart self.old.host.pages }
        requires known { All (IsKnown self.old.host.pages) decoder.old }
        ensures most { result ≤ limit }
        ensures ran { (d : CodeThread) → run (Some (machine self.old)) (replicate result (Event.Step (slice_index_or self.old.threads.items place d).id)) ≡ Some (machine self.new) }
        ensures plain { (d : CodeThread) → AllGoOn (slice_index_or self.old.threads.items place d).id (machine self.old) result }
        ensures stops { (d : CodeThread) → result < limit → GoesOn (slice_index_or self.old.threads.items place d).id (machine self.new) → ⊥ }
        ensures files { self.new.host.files ≡ self.old.host.files }
        ensures end { self.new.end ≡ self.old.end }
        ensures code { KeepsCode self.old.host.pages self.new.host.pages }
        ensures apart { IsApart self.new.host.pages }
        ensures known { All (IsKnown self.new.host.pages) decoder.new }
    {
        if !self.threads[place].is_ready(&self.host) {
            return 0;
        }
        self.threads[place].go_ahead(&mut self.host, decoder, limit)
    }
}
