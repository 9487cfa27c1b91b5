ghost use Rattle.file_table.specs.State.{OnlyDie, lives_by, outputs_of};
ghost use Rattle.std.specs.Prelude.{◌≡◌, ◌≤◌, ◌<◌, replicate, [], ◌∷◌, None, Some, length, map, take, slice_get, slice_index_or, is_none, ◌==◌, OnOk, OnErr, IfErr, IfSome, IsOk};
ghost use Rattle.std.specs.Option.{option_copied, option_map};
ghost use Rattle.guest_core.specs.Event.{is_enabled, event_after, run};
ghost use Rattle.guest_core.specs.Ahead.{AllGoOn, GoesOn};
ghost use Rattle.guest_pages.specs.Apart.{KeepsCode};
ghost use Rattle.guest_core.specs.System.{found, live_ids};
ghost use Rattle.guest_core.specs.Runs.{Lives, TakesNoMemory, Stopped};
ghost use Rattle.host_calls.specs.Host.{shared_of};
ghost use Rattle.host_calls.specs.Owes.{Grows};

use crate::ends::End;
use crate::events::Event;
use crate::places::Place;
use crate::state::{State, place_of};
use crate::thread::Thread;
use file_tree::Tree;
use host_calls::Host;
use isa_exec::Regs;
use isa_step::Decoder;
use std::marker::Model;

/// The first thread of a process.
pub const FIRST_THREAD: u32 = 1000;

/// Why an event was not made. The state is as before.
#[derive(Clone, Copy, Debug, PartialEq, Eq)]
pub enum CoreRefusal {
    /// The event is not enabled.
    NotNow,
    /// Want of memory.
    Memory,
}

/// What a core is made of.
#[derive(Drop)]
pub struct CoreParts {
    pub host: Host,
    pub threads: Vec<Thread>,
}

/// The emulator's machine. Contracts see its whole state; its type keeps what `Keeps` says of each state, that nothing can
/// be both written and executed, and that the instructions that it remembers are those that stand in memory.
#[derive(Drop)]
pub struct Core {
    state: State,
    decoder: Decoder,
}

impl Model for Core {
    ghost use Rattle.guest_core.specs.Machine.{Machine};

    ghost Value = { Machine };

    ghost use Rattle.guest_core.specs.State.{machine};
    ghost use Rattle.guest_core.specs.Sound.{IsSound};

    ghost view = { λ core. machine core.state };

    ghost invariant = { λ core. IsSound (machine core.state) core.decoder };
}

impl Core {
    ghost use Rattle.guest_core.specs.State.{machine};
    ghost use Rattle.guest_core.specs.Sound.{IsSound};

    pub(crate) fn from_state(state: State, decoder: Decoder) -> Core
        requires { IsSound (machine state) decoder }
        ensures { result ≡ machine state }
    {
        Core { state, decoder }
    }

    /// Makes an event. After a refusal the state is as before. Beside the look-up of its thread, which costs by the logarithm of
    /// their number, it takes constant time, but for a call by the bytes that it names, and by the signals that are pending;
    /// and memory only where a call is made, or a fault is sent while a signal is pending.
    pub fn event(&mut self, event: &Event) -> Result<(), CoreRefusal>
        ensures happens { OnOk result (event_after self.old event.now ≡ Some self.new) }
        ensures unchanged { OnErr result (self.new ≡ self.old) }
        ensures refused { result ≡ Err CoreRefusal.NotNow → event_after self.old event.now ≡ None }
        ensures not_enabled { event_after self.old event.now ≡ None → result ≡ Err CoreRefusal.NotNow }
        ensures live { self.old.end ≡ None → Lives self.old event.now → result ≡ Err CoreRefusal.NotNow → ⊥ }
        ensures steady { TakesNoMemory self.old event.now → IsOk result }
        ensures outputs { OnOk result (Grows (outputs_of self.old.shared.files) (outputs_of self.new.shared.files)) }
        ensures lives { OnOk result (OnlyDie self.old.shared.files.devices self.new.shared.files.devices) }
        ensures code { OnOk result (KeepsCode self.old.shared.memory self.new.shared.memory) }
    {
        match *event {
            Event::Step(thread) => self.step(thread),
        }
    }

    /// Makes a step of a thread.
    fn step(&mut self, thread: u32) -> Result<(), CoreRefusal>
        ensures happens { OnOk result (event_after self.old (Event.Step thread) ≡ Some self.new) }
        ensures unchanged { OnErr result (self.new ≡ self.old) }
        ensures refused { result ≡ Err CoreRefusal.NotNow → event_after self.old (Event.Step thread) ≡ None }
        ensures not_enabled { event_after self.old (Event.Step thread) ≡ None → result ≡ Err CoreRefusal.NotNow }
        ensures live { self.old.end ≡ None → Lives self.old (Event.Step thread) → result ≡ Err CoreRefusal.NotNow → ⊥ }
        ensures steady { TakesNoMemory self.old (Event.Step thread) → IsOk result }
        ensures outputs { OnOk result (Grows (outputs_of self.old.shared.files) (outputs_of self.new.shared.files)) }
        ensures lives { OnOk result (OnlyDie self.old.shared.files.devices self.new.shared.files.devices) }
        ensures code { OnOk result (KeepsCode self.old.shared.memory self.new.shared.memory) }
    {
        if self.state.end.is_some() {
            return Err(CoreRefusal::NotNow);
        }
        match place_of(&self.state.threads, thread) {
            None => Err(CoreRefusal::NotNow),
            Some(place) => match self.state.step(place) {
                Ok(()) => Ok(()),
                Err(_) => Err(CoreRefusal::Memory),
            },
        }
    }

    /// Makes steps of the thread that make an instruction, at most `limit`, up to the first that asks for a call, faults
    /// or does something else, and tells how many it made. It takes no memory, and constant time for each instruction,
    /// but for the reservations of threads, which a store goes through while one stands.
    pub fn run_on(&mut self, thread: u32, limit: u32) -> u32
        ensures most { result ≤ limit }
        ensures ran { run (Some self.old) (replicate result (Event.Step thread)) ≡ Some self.new }
        ensures plain { AllGoOn thread self.old result }
        ensures stops { result < limit → GoesOn thread self.new → ⊥ }
        ensures files { self.new.shared.files ≡ self.old.shared.files }
        ensures end { self.new.end ≡ self.old.end }
        ensures code { KeepsCode self.old.shared.memory self.new.shared.memory }
    {
        if self.state.end.is_some() {
            return 0;
        }
        match place_of(&self.state.threads, thread) {
            None => 0,
            Some(place) => self.state.run_on(place, &mut self.decoder, limit),
        }
    }

    /// Makes events up to the first that is refused, whose index is told with its refusal. The state is that before
    /// this event.
    pub fn run_events(&mut self, events: &[Event]) -> Result<(), (usize, CoreRefusal)>
        ensures ran { OnOk result (run (Some self.old) events.now ≡ Some self.new) }
        ensures stopped { IfErr result (λ stop. Stopped self.old events.now stop.0 stop.1 self.new) }
    {
        for (index, event) in events.iter().enumerate() {
            if let Err(refusal) = self.event(event) {
                return Err((index, refusal));
            }
        }
        Ok(())
    }

    /// Whether the event is enabled. It costs by the logarithm of the number of threads.
    pub fn enabled(&self, event: &Event) -> bool
        ensures { result ≡ is_enabled self.now event.now }
    {
        match *event {
            Event::Step(thread) => self.can_step(thread),
        }
    }

    /// Whether a thread's step is enabled.
    fn can_step(&self, thread: u32) -> bool
        ensures { result ≡ is_enabled self.now (Event.Step thread) }
    {
        if self.state.end.is_some() {
            return false;
        }
        match place_of(&self.state.threads, thread) {
            Some(_) => true,
            None => false,
        }
    }

    /// How the process ended, `None` while it lives.
    pub fn ended(&self) -> Option<End>
        ensures { result ≡ self.now.end }
    {
        self.state.end
    }

    /// The thread of an id.
    fn thread(&self, thread: u32) -> Option<&Thread>
        ensures regs { option_map (λ of. of.now.regs) result ≡ option_map (λ of. of.regs) (found thread self.now.members) }
        ensures place { option_map (λ of. of.now.place) result ≡ option_map (λ of. of.place) (found thread self.now.members) }
        ensures flag { option_map (λ of. of.now.flag) result ≡ option_map (λ of. of.flag) (found thread self.now.members) }
    {
        match place_of(&self.state.threads, thread) {
            None => None,
            Some(place) => Some(&self.state.threads[place]),
        }
    }

    /// The registers of a thread, `None` exactly where it does not live.
    pub fn regs(&self, thread: u32) -> Option<&Regs>
        ensures { option_copied result ≡ option_map (λ of. of.regs) (found thread self.now.members) }
    {
        match self.thread(thread) {
            None => None,
            Some(of) => Some(&of.regs),
        }
    }

    /// Where a thread stands, `None` exactly where it does not live.
    pub fn place(&self, thread: u32) -> Option<Place>
        ensures { result ≡ option_map (λ of. of.place) (found thread self.now.members) }
    {
        match self.thread(thread) {
            None => None,
            Some(of) => Some(of.place),
        }
    }

    /// Whether a thread's flag is set, `None` exactly where it does not live.
    pub fn flag(&self, thread: u32) -> Option<bool>
        ensures { result ≡ option_map (λ of. of.flag) (found thread self.now.members) }
    {
        match self.thread(thread) {
            None => None,
            Some(of) => Some(of.flag),
        }
    }

    /// What the system has, and the registers of each thread with its id.
    pub fn into_parts(self) -> CoreParts
        ensures host { shared_of result.host ≡ self.shared }
        ensures threads { map (λ thread. thread.id) result.threads.items ≡ live_ids self }
        ensures regs { map (λ thread. thread.regs) result.threads.items ≡ map (λ member. member.self.regs) self.members }
    {
        let Core { state, decoder: _ } = self;
        let State {
            host,
            end: _,
            threads,
        } = state;
        CoreParts { host, threads }
    }

    /// The number of devices.
    pub fn devices(&self) -> usize
        ensures { result ≡ length (outputs_of self.now.shared.files) }
    {
        self.state.host.files.devices()
    }

    /// What was written to a device, in order.
    pub fn output(&self, device: usize) -> &[u8]
        requires { device < length (outputs_of self.now.shared.files) }
        ensures { result.now ≡ slice_index_or (outputs_of self.now.shared.files) device [] }
    {
        self.state.host.files.output(device)
    }

    /// Whether a device lives: from the start until its last description goes. One that isn't there doesn't.
    pub fn live(&self, device: usize) -> bool
        ensures { result ≡ lives_by (slice_get self.now.shared.files.devices device) }
    {
        self.state.host.files.live(device)
    }

    /// The tree of files.
    pub fn tree(&self) -> &Tree
        ensures { result.now ≡ self.now.shared.files.tree }
    {
        self.state.host.files.tree()
    }
}
