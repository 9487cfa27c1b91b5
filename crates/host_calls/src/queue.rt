ghost use Rattle.std.specs.Prelude.{◌≡◌, ◌<◌, ◌+◌, ◌^◌, ◌==◌, ◌&&◌, [], None, true, false, not, length, position, slice_index_or, slice_set, vec_capacity, IfOk, IfSome, OnOk, OnErr, IsOk};
ghost use Rattle.host_calls.specs.declared.queue.Sent.{Sent};
ghost use Rattle.host_calls.specs.Marks.{first_new, noted_of, IsSettled, NotesFirst, TakesFirst};
ghost use Rattle.host_calls.specs.Queue.{due, empty_queue, first_of, is_empty, sent_forced, taken_out};

use isa_step::Fault;
use std::alloc::{AllocError, Global};
use std::marker::Model;

/// A signal that was sent and not taken yet. Each is forced: it is due whatever its thread's mask.
#[derive(Clone, Copy)]
pub struct Instance {
    pub id: u64,
    /// The thread that it was sent to.
    pub thread: u32,
    pub fault: Fault,
}

/// A pending instance, and whether its thread has noted it.
#[derive(Clone, Copy)]
struct Sent {
    instance: Instance,
    noted: bool,
}

/// The pending instances in the order of their ids, with the id that the next one gets, and the marks on those that are
/// noted. Each call costs by the pending instances.
#[derive(Drop)]
pub struct Pending {
    sent: Vec<Sent>,
    next_id: u64,
}

impl Model for Pending {
    ghost use Rattle.std.specs.Prelude.{◌<◌, map, vec_capacity};
    ghost use Rattle.host_calls.specs.Marks.{Marked};
    ghost use Rattle.host_calls.specs.Queue.{Queue, AreRising};

    ghost Value = { Marked };

    ghost view = { λ pending. record { queue = record { pending = map (λ sent. sent.instance) pending.sent.items; next_id = pending.next_id }; marks = map (λ sent. sent.noted) pending.sent.items } };

    ghost invariant = { λ pending. AreRising 0 (map (λ sent. sent.instance) pending.sent.items) pending.next_id × (0 < vec_capacity pending.sent) };
}

impl Pending {
    ghost use Rattle.std.specs.Prelude.{ℕ};

    /// Nothing is pending. There is room for one instance.
    pub fn new(alloc: Global) -> Result<Pending, AllocError>
        ensures { IfOk result (λ pending. pending ≡ record { queue = empty_queue; marks = [] }) }
    {
        Ok(Pending {
            sent: Vec::with_capacity(alloc, 1)?,
            next_id: 0,
        })
    }

    /// Sends the signal of a fault to a thread. It fails only where the ids run out, or for want of memory where something
    /// is pending already.
    #[tactic(auto, using(crate::proofs::MarkFacts::more_noted, crate::proofs::MarkFacts::more_rising))]
    pub fn send_forced(&mut self, thread: u32, fault: Fault) -> Result<(), AllocError>
        ensures ok { OnOk result (self.new.queue ≡ sent_forced thread fault self.old.queue) }
        ensures settled { OnOk result ((of : ℕ) → IsSettled of self.old self.new) }
        ensures err { OnErr result (self.new ≡ self.old) }
        ensures succeeds { self.old.queue.next_id + 1 < 2 ^ 64 → self.old.queue.pending ≡ [] → IsOk result }
    {
        let id = self.next_id;
        if id == u64::MAX {
            return Err(AllocError);
        }
        let instance = Instance { id, thread, fault };
        match self.sent.push(Sent {
            instance,
            noted: false,
        }) {
            Ok(()) => {
                self.next_id = id + 1;
                Ok(())
            }
            Err(_) => Err(AllocError),
        }
    }

    /// The first due instance that the thread has not noted.
    pub fn first_new(&self, thread: u32) -> Option<Instance>
        ensures first { result ≡ first_new (due thread self.now.queue) (noted_of thread self.now) }
        ensures settled { (of : ℕ) → IsSettled of self.now self.now }
    {
        match place_of_new(&self.sent, thread) {
            Some(place) => Some(self.sent[place].instance),
            None => None,
        }
    }

    /// The thread notes the first due instance that it has not noted. False where there is none: then all stays.
    pub fn note_first(&mut self, thread: u32) -> bool
        ensures noted { result ≡ true → NotesFirst thread self.old self.new }
        ensures none { result ≡ false → first_new (due thread self.old.queue) (noted_of thread self.old) ≡ None }
        ensures stays { result ≡ false → self.new ≡ self.old }
        ensures settled { result ≡ false → (of : ℕ) → IsSettled of self.new self.new }
    {
        match place_of_new(&self.sent, thread) {
            Some(place) => {
                mark(&mut self.sent, place);
                true
            }
            None => false,
        }
    }

    /// Whether the thread has noted an instance.
    pub fn any_noted(&self, thread: u32) -> bool
        ensures { result ≡ not (is_empty (noted_of thread self.now)) }
    {
        match place_of_noted(&self.sent, thread) {
            Some(_) => true,
            None => false,
        }
    }

    /// The first instance that is due to the thread.
    pub fn first(&self, thread: u32) -> Option<Instance>
        ensures { result ≡ first_of (due thread self.now.queue) }
    {
        match place_of_due(&self.sent, thread) {
            Some(place) => Some(self.sent[place].instance),
            None => None,
        }
    }

    /// Takes the first instance that is due to the thread out.
    pub fn take_first(&mut self, thread: u32) -> Option<Instance>
        ensures taken { IfSome result (λ instance. TakesFirst thread instance self.old self.new) }
        ensures none { result ≡ None → first_of (due thread self.old.queue) ≡ None }
        ensures stays { result ≡ None → self.new ≡ self.old }
    {
        match place_of_due(&self.sent, thread) {
            Some(place) => {
                let Sent { instance, noted: _ } = self.sent.remove(place);
                Some(instance)
            }
            None => None,
        }
    }
}

/// Where the first instance stands that is due to the thread and not noted.
fn place_of_new(sent: &[Sent], thread: u32) -> Option<usize>
    ensures place { result ≡ position (λ one. (one.instance.thread == thread) && not one.noted) sent.now }
    ensures within { IfSome result (λ place. place < length sent.now) }
{
    sent.iter()
        .position(|one| one.instance.thread == thread && !one.noted)
}

/// Where the first instance stands that the thread has noted.
fn place_of_noted(sent: &[Sent], thread: u32) -> Option<usize>
    ensures place { result ≡ position (λ one. one.noted && (one.instance.thread == thread)) sent.now }
{
    sent.iter()
        .position(|one| one.noted && one.instance.thread == thread)
}

/// Where the first instance stands that is due to the thread.
fn place_of_due(sent: &[Sent], thread: u32) -> Option<usize>
    ensures place { result ≡ position (λ one. one.instance.thread == thread) sent.now }
    ensures within { IfSome result (λ place. place < length sent.now) }
{
    sent.iter().position(|one| one.instance.thread == thread)
}

/// Marks an instance as noted.
fn mark(sent: &mut Vec<Sent>, place: usize)
    requires { place < length sent.old.items }
    ensures items { (d : Sent) → sent.new.items ≡ slice_set sent.old.items place (record { instance = (slice_index_or sent.old.items place d).instance; noted = true }) }
    ensures room { vec_capacity sent.new ≡ vec_capacity sent.old }
{
    let Sent { instance, noted: _ } = sent[place];
    sent[place] = Sent {
        instance,
        noted: true,
    };
}
