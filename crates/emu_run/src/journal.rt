ghost use Rattle.std.specs.Prelude.{◌≡◌, ◌≢◌, ◌≤◌, ◌<◌, ◌+◌, ◌^◌, ◌++◌, ◌∷◌, [], None, length, replicate, slice_index_or, vec_len, vec_capacity, IfSome, OnOk};
ghost use Rattle.emu_run.specs.declared.journal.Entry.{Entry};
ghost use Rattle.emu_run.specs.Journal.{thread_of, steps_of, counted, all_counted, IsMerged, EndsApart};

use guest_core::Event;
use std::alloc::{AllocError, Global};
use std::marker::Model;

/// An entry of a journal.
#[derive(Clone, Copy, Debug, PartialEq, Eq)]
pub enum Entry {
    /// A thread's steps that follow each other.
    Steps { thread: u32, count: u32 },
}

/// The events of a run in their order. Contracts see them counted out.
#[derive(Drop)]
pub struct Journal {
    budget: u32,
    entries: Vec<Entry>,
    count: u32,
}

impl Model for Journal {
    ghost use Rattle.std.specs.Prelude.{◌≡◌, ◌-◌, length, vec_len, vec_capacity};
    ghost use Rattle.emu_run.specs.Journal.{History, IsMerged, all_counted};

    ghost Value = { History };

    ghost view = { λ journal. record { budget = journal.budget; events = all_counted journal.entries.items; room = vec_capacity journal.entries - vec_len journal.entries } };

    ghost invariant = { λ journal. (journal.count ≡ length (all_counted journal.entries.items)) × IsMerged journal.entries.items };
}

impl Journal {
    /// No event, under a budget of events.
    pub fn new(alloc: Global, budget: u32) -> Journal
        ensures events { result.events ≡ [] }
        ensures budget { result.budget ≡ budget }
    {
        Journal {
            budget,
            entries: Vec::new(alloc),
            count: 0,
        }
    }

    pub fn budget(&self) -> u32
        ensures { result ≡ self.now.budget }
    {
        self.budget
    }

    /// The number of events.
    pub fn count(&self) -> u32
        ensures { result ≡ length self.now.events }
    {
        self.count
    }

    /// The entries, which counted out are the events. None is empty, and those that follow each other are of different
    /// threads.
    pub fn entries(&self) -> &[Entry]
        ensures events { all_counted result.now ≡ self.now.events }
        ensures merged { IsMerged result.now }
    {
        self.entries.as_slice()
    }

    /// Makes room for steps of a thread that follow each other.
    pub fn reserve(&mut self) -> Result<(), AllocError>
        ensures ok { OnOk result (0 < self.new.room) }
        ensures events { self.new.events ≡ self.old.events }
        ensures budget { self.new.budget ≡ self.old.budget }
    {
        self.entries.reserve(1)
    }

    /// Adds so many steps of a thread at the end, in constant time. It takes no memory.
    pub fn note(&mut self, thread: u32, steps: u32)
        requires room { 0 < self.old.room }
        requires count { length self.old.events + steps < 2 ^ 32 }
        ensures events { self.new.events ≡ self.old.events ++ replicate steps (Event.Step thread) }
        ensures budget { self.new.budget ≡ self.old.budget }
    {
        if steps == 0 {
            return;
        }
        note_steps(&mut self.entries, thread, steps);
        self.count += steps;
    }
}

/// Adds steps of a thread to the last entry where that is of the same thread, else in an entry of its own.
#[tactic(auto, using(crate::proofs::JournalFacts::last_set, crate::proofs::JournalFacts::all_counted_more, crate::proofs::JournalFacts::merged_set, crate::proofs::JournalFacts::merged_push))]
fn note_steps(entries: &mut Vec<Entry>, thread: u32, steps: u32)
    requires room { vec_len entries.old < vec_capacity entries.old }
    requires count { length (all_counted entries.old.items) + steps < 2 ^ 32 }
    requires some { 0 < steps }
    requires merged { IsMerged entries.old.items }
    ensures events { all_counted entries.new.items ≡ all_counted entries.old.items ++ replicate steps (Event.Step thread) }
    ensures merged { IsMerged entries.new.items }
{
    match longer_last(entries, thread, steps) {
        Some((last, entry)) => entries[last] = entry,
        None => match entries.push(Entry::Steps {
            thread,
            count: steps,
        }) {
            Ok(()) => {}
            Err(_) => unreachable!(),
        },
    }
}

/// The place of the last entry, and this entry with more steps, where it is of the same thread.
#[tactic(auto, using(crate::proofs::JournalFacts::last_fits, crate::proofs::JournalFacts::ends_apart))]
fn longer_last(entries: &[Entry], thread: u32, steps: u32) -> Option<(usize, Entry)>
    requires count { length (all_counted entries.now) + steps < 2 ^ 32 }
    requires some { 0 < steps }
    ensures place { IfSome result (λ last. last.0 + 1 ≡ length entries.now) }
    ensures longer { IfSome result (λ last. (d : Entry) → counted last.1 ≡ counted (slice_index_or entries.now last.0 d) ++ replicate steps (Event.Step thread)) }
    ensures same { IfSome result (λ last. (d : Entry) → thread_of last.1 ≡ thread_of (slice_index_or entries.now last.0 d)) }
    ensures some { IfSome result (λ last. 0 < steps_of last.1) }
    ensures apart { result ≡ None → EndsApart entries.now thread }
{
    if entries.is_empty() {
        return None;
    }
    let last = entries.len() - 1;
    match with_steps(entries[last], thread, steps) {
        Some(entry) => Some((last, entry)),
        None => None,
    }
}

/// The entry with more steps, where it is of the same thread.
#[tactic(auto, using(crate::proofs::JournalFacts::more_steps))]
fn with_steps(entry: Entry, thread: u32, steps: u32) -> Option<Entry>
    requires count { length (counted entry) + steps < 2 ^ 32 }
    requires some { 0 < steps }
    ensures longer { IfSome result (λ longer. counted longer ≡ counted entry ++ replicate steps (Event.Step thread)) }
    ensures same { IfSome result (λ longer. thread_of longer ≡ thread_of entry) }
    ensures some { IfSome result (λ longer. 0 < steps_of longer) }
    ensures apart { result ≡ None → thread_of entry ≢ thread }
{
    match entry {
        Entry::Steps {
            thread: last,
            count,
        } => {
            if last == thread {
                Some(Entry::Steps {
                    thread,
                    count: count + steps,
                })
            } else {
                None
            }
        }
    }
}
