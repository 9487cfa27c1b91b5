ghost use Rattle.std.specs.Prelude.{◌≡◌, ◌≤◌, ◌<◌, length, IfOk, OnOk};
ghost use Rattle.elf_file.specs.Reading.{image};
ghost use Rattle.guest_core.specs.Start.{first_memory, program_of, started, with_trampoline, FitsIn, HasRoom, Starts};
ghost use Rattle.guest_core.specs.Kept.{Keeps};
ghost use Rattle.guest_core.specs.State.{machine};
ghost use Rattle.start_stack.specs.Placing.{stack_pointer};

use crate::machine::{Core, FIRST_THREAD};
use crate::places::Place;
use crate::state::State;
use crate::thread::Thread;
use elf_file::Elf;
use file_table::Files;
use file_tree::Text;
use futex_table::FutexTable;
use guest_pages::{
    CHANGEABLE, MOST_PAGES, MOST_STACK_BYTES, MapFault, Pages, RUNNABLE, STACK_PAGES, TRAMPOLINE,
};
use host_calls::{Break, Host, Pending};
use isa_exec::Regs;
use isa_step::Decoder;
use segment_load::{load, wanted_pages};
use start_stack::{StackFault, place, size_of};
use std::alloc::{AllocError, Global};
use word_memory::Reservations;

/// The pages of the first stack and of the trampoline.
const OTHER_PAGES: u64 = STACK_PAGES + 1;

/// The random bytes that the first stack holds.
const FIRST_RANDOM: u64 = 16;

/// `addi a7, x0, 139` and `ecall`, the lowest byte first.
const TRAMPOLINE_BYTES: [u8; 8] = [0x93, 0x08, 0xB0, 0x08, 0x73, 0, 0, 0];

/// Why no start was made.
#[derive(Clone, Copy, Debug, PartialEq, Eq)]
pub enum StartFault {
    /// The texts and the words of the first stack take this many bytes, which are more than 131,072.
    StackTooLong { size: u64 },
    /// The program wants this many pages, which are more than 65,536.
    PagesFull { wanted: u64 },
    /// Want of memory.
    Memory,
}

/// The state in which a program starts: its file, its arguments, of which the first is its name, its environment, and the
/// files that it finds, with its devices. It costs by the pages and bytes of the file's segments, and by those of the first stack.
///
/// References: System V ABI, "Program Loading" and "Process Initialization".
#[tactic(auto, unfolding(crate::specs::Start::wanted_pages))]
pub fn start(
    alloc: Global,
    elf: &Elf,
    args: &[Text],
    env: &[Text],
    files: Files,
) -> Result<Core, StartFault>
    requires name { 0 < length args.now }
    ensures starts { Starts (program_of (image elf.now) args.now env.now) files result }
    ensures keeps { IfOk result Keeps }
{
    let size = size_of(args, env);
    if size > MOST_STACK_BYTES {
        return Err(StartFault::StackTooLong { size });
    }
    let wanted = wanted_pages(elf).saturating_add(OTHER_PAGES);
    if wanted > MOST_PAGES {
        return Err(StartFault::PagesFull { wanted });
    }
    let state = match state_of(alloc, elf, args, env, files) {
        Ok(state) => state,
        Err(_) => return Err(StartFault::Memory),
    };
    match Decoder::new(alloc) {
        Ok(decoder) => Ok(Core::from_state(state, decoder)),
        Err(_) => Err(StartFault::Memory),
    }
}

#[tactic(auto, unfolding(crate::specs::Start::started, word_memory::specs::Reservations::is_there))]
fn state_of(
    alloc: Global,
    elf: &Elf,
    args: &[Text],
    env: &[Text],
    files: Files,
) -> Result<State, AllocError>
    requires name { 0 < length args.now }
    requires fits { FitsIn (program_of (image elf.now) args.now env.now) }
    ensures { IfOk result (λ state. machine state ≡ started (program_of (image elf.now) args.now env.now) files) }
{
    let (pages, pointer) = memory_of(alloc, elf, args, env)?;
    let mut held = Reservations::new(alloc);
    held.add_thread(FIRST_THREAD)?;
    let mut regs = Regs::starting_at(elf.entry);
    regs.set_register(2, pointer);
    let mut threads = Vec::new(alloc);
    threads.push(Thread {
        id: FIRST_THREAD,
        regs,
        place: Place::Loop,
        flag: false,
    })?;
    Ok(State {
        host: Host {
            pages,
            held,
            files,
            futexes: FutexTable::new(alloc),
            pending: Pending::new(alloc)?,
            program_break: Break::behind(elf.top),
            drawn: FIRST_RANDOM,
            clock: 0,
        },
        end: None,
        threads,
    })
}

/// The first memory, and the stack pointer.
#[tactic(auto, unfolding(crate::specs::Start::first_memory))]
fn memory_of(
    alloc: Global,
    elf: &Elf,
    args: &[Text],
    env: &[Text],
) -> Result<(Pages, u64), AllocError>
    requires name { 0 < length args.now }
    requires fits { FitsIn (program_of (image elf.now) args.now env.now) }
    ensures memory { IfOk result (λ made. made.0 ≡ first_memory (program_of (image elf.now) args.now env.now)) }
    ensures pointer { IfOk result (λ made. made.1 ≡ stack_pointer args.now env.now) }
{
    let mut memory = load(alloc, elf)?;
    add_trampoline(alloc, &mut memory)?;
    match place(alloc, &mut memory, elf, args, env) {
        Ok(pointer) => Ok((memory, pointer)),
        Err(StackFault::Memory) => Err(AllocError),
        Err(StackFault::TooLong { .. }) => unreachable!(),
        Err(StackFault::PagesFull { .. }) => unreachable!(),
    }
}

/// Maps the trampoline's page, for which there is room, and fills it.
#[tactic(auto, unfolding(crate::specs::Start::with_trampoline))]
fn add_trampoline(alloc: Global, memory: &mut Pages) -> Result<(), AllocError>
    requires { HasRoom memory.old 1 }
    ensures { OnOk result (memory.new ≡ with_trampoline memory.old) }
{
    match memory.map(alloc, TRAMPOLINE, 1, CHANGEABLE) {
        Ok(()) => {}
        Err(fault) => return Err(want_of(fault)),
    }
    match memory.copy_in(TRAMPOLINE, &TRAMPOLINE_BYTES) {
        Ok(()) => {}
        Err(_) => unreachable!(),
    }
    match memory.protect(alloc, TRAMPOLINE, 1, RUNNABLE) {
        Ok(()) => Ok(()),
        Err(fault) => Err(want_of(fault)),
    }
}

/// Want of memory, as each allocation tells it.
fn want_of(fault: MapFault) -> AllocError
    requires { fault ≡ MapFault.Memory }
{
    match fault {
        MapFault::Memory => AllocError,
        MapFault::PagesFull { .. } => unreachable!(),
        MapFault::NotMapped(_) => unreachable!(),
    }
}
