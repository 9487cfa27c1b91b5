//! The top call of `solo` and `asm`.

ghost use Rattle.std.specs.Prelude.{◌≡◌, ◌≢◌, ◌≤◌, [], ℕ, List, false, map, length, Some, None, IfOk, IfErr, MatchResult, OnErr, OnOk};
ghost use Rattle.std.specs.String.{string_bytes};
ghost use Rattle.cli_words.specs.Answer.{asm_asked, plan_asked};
ghost use Rattle.cli_words.specs.Command.{IsAsked, IsAsmAsked};
ghost use Rattle.dev_board.specs.Seen.{devices_seen};
ghost use Rattle.image_store.specs.Storing.{IsPartlyStored};
ghost use Rattle.emu_top.specs.declared.cause.Cause.TheVariants.{Memory as memory, Usage as usage};
ghost use Rattle.emu_top.specs.declared.ends.End.TheVariants.{Done as done_end};
ghost use Rattle.emu_top.specs.Assembling.{NotWritten};
ghost use Rattle.emu_top.specs.Causes.{AtEvents, AtStoring, AtWords, Faults, IsTold, TellsFault, row_of};
ghost use Rattle.emu_top.specs.Complete.{CanEnd, NoneRose};
ghost use Rattle.emu_top.specs.Lawful.{IsLawful};
ghost use Rattle.emu_top.specs.Notes.{EndsUntold, TellsEnd, TriesLine, end_line};
ghost use Rattle.emu_top.specs.Outside.{folder_seen, notes_seen, outside};
ghost use Rattle.emu_top.specs.Parts.{EndsAs, StopsAs};
ghost use Rattle.emu_top.specs.Solo.{Finishes, FolderAfter, end_of, status_of};

use crate::assembly::{made, write};
use crate::cause::{Cause, Part};
use crate::ends::{End, of_process};
use crate::notes::{line_of_cause, line_of_end};
use crate::prepare::{Launch, load, prepare};
use crate::sink::Sink;
use cli_words::{AsmPlan, Order, Plan, WordsFault, read};
use dev_board::{Device, Devices};
use emu_run::{Executed, Halt, Journal, Stopped, execute};
use file_tree::Tree;
use image_store::{Folder, Loaded, StoreFault, write_back};
use std::alloc::Global;

/// The budget of a journal that no run was made for.
const NO_RUN: u32 = 0;

/// The work came to its end.
#[derive(Drop)]
pub struct Finished<D: Drop> {
    pub end: End,
    /// The status with which the program ends.
    pub status: u8,
    pub journal: Journal,
    /// One that no description was left of was let go.
    pub devices: Devices<D>,
}

/// A fault, with the journal of what was done until then.
#[derive(Drop)]
pub struct TopFault<D: Drop> {
    pub cause: Cause,
    pub journal: Journal,
    pub devices: Devices<D>,
}

impl<D: Device> TopFault<D> {
    /// The status with which the program ends. It takes no memory.
    pub fn status(&self) -> u8
        ensures { result ≡ (row_of self.now.cause).status }
    {
        self.cause.status()
    }
}

/// Does what the words ask for.
///
/// `solo FOLDER PROGRAM [--budget N] [--env K=V ..] [--input NAME] [--keep] [-- ARGS]` loads the folder, runs the program
/// over its files, and writes back what the run changed, unless `--keep` is given. The devices are those of the guest's
/// descriptors from 0 on; with `--input` descriptor 0 is that file. A device is let go with its last descriptor.
///
/// `asm FOLDER SOURCE OUT` assembles a file of the folder and writes the program as another one.
///
/// The folder is first written to when a run has ended, or a source is assembled: a fault before that leaves it as it was.
/// One line is written on the notes for each end but that of a process that ended by itself and that of `asm`, and for each
/// fault but want of memory and a failure of the notes.
///
/// It costs by the listing and the bytes of all files, by the size of the program's segments, by the 2,048 pages of its
/// stack, by the number of its steps, at most the budget, and by the entries that changed.
pub fn solo_top<F: Folder, K: Sink, D: Device>(
    alloc: Global,
    words: &[String],
    folder: &mut F,
    devices: Devices<D>,
    notes: &mut K,
) -> Result<Finished<D>, TopFault<D>>
    requires { length devices ≤ 8 }
    // The journal's events are a run from the start that the words and the folder give, and their labels a run of the
    // process machine. The end and the status are by its last state, each device holds what it held and what is seen of the
    // run behind that, and the folder has become what the run left. Or the file of a source stands in the folder. The end's
    // line stands on the notes, and nothing failed.
    ensures finished { IfOk result (λ f. Finishes
        (outside (folder_seen F.tree F.failed_reads F.failed_writes folder.old) (devices_seen D.left D.held D.failed_reads D.failed_writes devices) (notes_seen K.held K.failed_writes notes.old))
        (outside (folder_seen F.tree F.failed_reads F.failed_writes folder.new) (devices_seen D.left D.held D.failed_reads D.failed_writes f.devices) (notes_seen K.held K.failed_writes notes.new))
        (map string_bytes words.now) f.end f.status f.journal) }
    // Each fault comes only where its cause holds, and what was done before it stands. Its line was put on the notes.
    ensures caused { IfErr result (λ f. Faults
        (outside (folder_seen F.tree F.failed_reads F.failed_writes folder.old) (devices_seen D.left D.held D.failed_reads D.failed_writes devices) (notes_seen K.held K.failed_writes notes.old))
        (outside (folder_seen F.tree F.failed_reads F.failed_writes folder.new) (devices_seen D.left D.held D.failed_reads D.failed_writes f.devices) (notes_seen K.held K.failed_writes notes.new))
        (map string_bytes words.now) f.cause f.journal) }
    // Where what the words ask for can be done, and no count of a fault rose, only want of memory is left.
    ensures complete { IfErr result (λ f. CanEnd (F.tree folder.old) (map string_bytes words.now) → NoneRose
        (outside (folder_seen F.tree F.failed_reads F.failed_writes folder.old) (devices_seen D.left D.held D.failed_reads D.failed_writes devices) (notes_seen K.held K.failed_writes notes.old))
        (outside (folder_seen F.tree F.failed_reads F.failed_writes folder.new) (devices_seen D.left D.held D.failed_reads D.failed_writes f.devices) (notes_seen K.held K.failed_writes notes.new))
        → f.cause ≡ memory) }
    // The journal has a budget that words can give, and no more events than that.
    ensures lawful { MatchResult result (λ f. IsLawful f.journal) (λ f. IsLawful f.journal) }
{
    match attempt(alloc, words, folder, devices) {
        Ok(finished) => tell_end(alloc, finished, notes),
        Err(fault) => Err(tell_fault(alloc, fault, notes)),
    }
}

/// Tells the line of an end, where it has one.
fn tell_end<K: Sink, D: Device>(
    alloc: Global,
    finished: Finished<D>,
    notes: &mut K,
) -> Result<Finished<D>, TopFault<D>>
    ensures told { IfOk result (λ f. (f ≡ finished) × TellsEnd (end_line f.journal.budget f.end) (notes_seen K.held K.failed_writes notes.old) (notes_seen K.held K.failed_writes notes.new)) }
    ensures failed { IfErr result (λ f. EndsUntold finished.journal.budget finished.end (notes_seen K.held K.failed_writes notes.old) (notes_seen K.held K.failed_writes notes.new) f.cause) }
    ensures journal { IfErr result (λ f. f.journal ≡ finished.journal) }
    ensures devices { IfErr result (λ f. f.devices ≡ finished.devices) }
{
    match line_of_end(alloc, finished.journal.budget(), &finished.end) {
        Ok(None) => Ok(finished),
        Ok(Some(line)) => match notes.put(line.as_str().as_bytes()) {
            Ok(()) => Ok(finished),
            Err(_) => Err(untold(finished, Cause::WriteFault(Part::Notes))),
        },
        Err(_) => Err(untold(finished, Cause::Memory)),
    }
}

/// The fault of an end that couldn't be told.
fn untold<D: Device>(finished: Finished<D>, cause: Cause) -> TopFault<D>
    ensures cause { result.cause ≡ cause }
    ensures journal { result.journal ≡ finished.journal }
    ensures devices { result.devices ≡ finished.devices }
{
    let Finished {
        end: _,
        status: _,
        journal,
        devices,
    } = finished;
    TopFault {
        cause,
        journal,
        devices,
    }
}

/// Tells the line of a fault, where it has one. The fault stays what it was where the sink fails.
fn tell_fault<K: Sink, D: Device>(alloc: Global, fault: TopFault<D>, notes: &mut K) -> TopFault<D>
    ensures told { TellsFault fault.cause (notes_seen K.held K.failed_writes notes.old) (notes_seen K.held K.failed_writes notes.new) result.cause }
    ensures journal { result.journal ≡ fault.journal }
    ensures devices { result.devices ≡ fault.devices }
{
    match line_of_cause(alloc, &fault.cause) {
        Ok(Some(line)) => {
            let _ = notes.put(line.as_str().as_bytes());
            fault
        }
        Ok(None) => fault,
        Err(_) => forgotten(fault),
    }
}

/// Refuses a command line whose first wrong word has this index, and gives the status. `solo_top` does so itself for words
/// that are texts; this is for a word that isn't UTF-8.
pub fn refuse_words<K: Sink>(alloc: Global, word: usize, notes: &mut K) -> u8
    ensures told { result ≡ 64 → TriesLine (row_of (usage word)).line (notes_seen K.held K.failed_writes notes.old) (notes_seen K.held K.failed_writes notes.new) }
    ensures forgotten { result ≢ 64 → (result ≡ 70) × (notes.new ≡ notes.old) }
{
    match line_of_cause(alloc, &Cause::Usage { word }) {
        Ok(Some(line)) => {
            let _ = notes.put(line.as_str().as_bytes());
            64
        }
        Ok(None) => unreachable!(),
        Err(_) => 70,
    }
}

/// The fault of a fault whose line couldn't be made.
fn forgotten<D: Device>(fault: TopFault<D>) -> TopFault<D>
    ensures cause { result.cause ≡ memory }
    ensures journal { result.journal ≡ fault.journal }
    ensures devices { result.devices ≡ fault.devices }
{
    let TopFault {
        cause: _,
        journal,
        devices,
    } = fault;
    TopFault {
        cause: Cause::Memory,
        journal,
        devices,
    }
}

/// Does what the words ask for, without a line on the notes.
fn attempt<F: Folder, D: Device>(
    alloc: Global,
    words: &[String],
    folder: &mut F,
    devices: Devices<D>,
) -> Result<Finished<D>, TopFault<D>>
    requires { length devices ≤ 8 }
    ensures ends { IfOk result (λ f. EndsAs
        (folder_seen F.tree F.failed_reads F.failed_writes folder.old) (folder_seen F.tree F.failed_reads F.failed_writes folder.new)
        (devices_seen D.left D.held D.failed_reads D.failed_writes devices) (devices_seen D.left D.held D.failed_reads D.failed_writes f.devices)
        (map string_bytes words.now) f.end f.journal) }
    ensures status { IfOk result (λ f. f.status ≡ status_of f.end) }
    ensures reads { OnOk result (F.failed_reads folder.new ≡ F.failed_reads folder.old) }
    ensures writes { OnOk result (F.failed_writes folder.new ≡ F.failed_writes folder.old) }
    ensures stops { IfErr result (λ f. StopsAs
        (folder_seen F.tree F.failed_reads F.failed_writes folder.old) (folder_seen F.tree F.failed_reads F.failed_writes folder.new)
        (devices_seen D.left D.held D.failed_reads D.failed_writes devices) (devices_seen D.left D.held D.failed_reads D.failed_writes f.devices)
        (map string_bytes words.now) f.cause f.journal) }
{
    match read(alloc, words) {
        Ok(Order::Solo(plan)) => solo(alloc, plan, folder, devices),
        Ok(Order::Asm(plan)) => asm(alloc, &plan, folder, devices),
        Err(fault) => Err(without_run(alloc, cause_of_words(fault), devices)),
    }
}

/// The cause of words that were refused.
fn cause_of_words(fault: WordsFault) -> Cause
    ensures { IsTold (AtWords fault) result }
{
    match fault {
        WordsFault::At(word) => Cause::Usage { word },
        WordsFault::Memory => Cause::Memory,
    }
}

/// Runs a plan.
fn solo<F: Folder, D: Device>(
    alloc: Global,
    plan: Plan,
    folder: &mut F,
    devices: Devices<D>,
) -> Result<Finished<D>, TopFault<D>>
    requires { length devices ≤ 8 }
    ensures ends { IfOk result (λ f. (words : List (List ℕ)) → IsAsked words (plan_asked plan) → EndsAs
        (folder_seen F.tree F.failed_reads F.failed_writes folder.old) (folder_seen F.tree F.failed_reads F.failed_writes folder.new)
        (devices_seen D.left D.held D.failed_reads D.failed_writes devices) (devices_seen D.left D.held D.failed_reads D.failed_writes f.devices)
        words f.end f.journal) }
    ensures status { IfOk result (λ f. f.status ≡ status_of f.end) }
    ensures reads { OnOk result (F.failed_reads folder.new ≡ F.failed_reads folder.old) }
    ensures writes { OnOk result (F.failed_writes folder.new ≡ F.failed_writes folder.old) }
    ensures stops { IfErr result (λ f. (words : List (List ℕ)) → IsAsked words (plan_asked plan) → StopsAs
        (folder_seen F.tree F.failed_reads F.failed_writes folder.old) (folder_seen F.tree F.failed_reads F.failed_writes folder.new)
        (devices_seen D.left D.held D.failed_reads D.failed_writes devices) (devices_seen D.left D.held D.failed_reads D.failed_writes f.devices)
        words f.cause f.journal) }
{
    let loaded = match load(alloc, folder) {
        Ok(loaded) => loaded,
        Err(cause) => return Err(without_run(alloc, cause, devices)),
    };
    let launch = match prepare(alloc, plan, loaded, devices.count()) {
        Ok(launch) => launch,
        Err(cause) => return Err(without_run(alloc, cause, devices)),
    };
    let Launch {
        loaded,
        core,
        budget,
        keep,
    } = launch;
    match execute(alloc, core, budget, devices) {
        Ok(executed) => store(alloc, folder, &loaded, keep, executed),
        Err(stopped) => Err(fault_of(stopped)),
    }
}

/// Assembles a file.
fn asm<F: Folder, D: Device>(
    alloc: Global,
    plan: &AsmPlan,
    folder: &mut F,
    devices: Devices<D>,
) -> Result<Finished<D>, TopFault<D>>
    ensures ends { IfOk result (λ f. (words : List (List ℕ)) → IsAsmAsked words (asm_asked plan.now) → EndsAs
        (folder_seen F.tree F.failed_reads F.failed_writes folder.old) (folder_seen F.tree F.failed_reads F.failed_writes folder.new)
        (devices_seen D.left D.held D.failed_reads D.failed_writes devices) (devices_seen D.left D.held D.failed_reads D.failed_writes f.devices)
        words f.end f.journal) }
    ensures status { IfOk result (λ f. f.status ≡ status_of f.end) }
    ensures reads { OnOk result (F.failed_reads folder.new ≡ F.failed_reads folder.old) }
    ensures writes { OnOk result (F.failed_writes folder.new ≡ F.failed_writes folder.old) }
    ensures stops { IfErr result (λ f. (words : List (List ℕ)) → IsAsmAsked words (asm_asked plan.now) → StopsAs
        (folder_seen F.tree F.failed_reads F.failed_writes folder.old) (folder_seen F.tree F.failed_reads F.failed_writes folder.new)
        (devices_seen D.left D.held D.failed_reads D.failed_writes devices) (devices_seen D.left D.held D.failed_reads D.failed_writes f.devices)
        words f.cause f.journal) }
{
    let loaded = match load(alloc, folder) {
        Ok(loaded) => loaded,
        Err(cause) => return Err(without_run(alloc, cause, devices)),
    };
    let bytes = match made(alloc, plan, &loaded) {
        Ok(bytes) => bytes,
        Err(cause) => return Err(without_run(alloc, cause, devices)),
    };
    match write(alloc, folder, plan.out.as_str(), bytes.as_slice()) {
        Ok(()) => Ok(done(alloc, devices)),
        Err(cause) => Err(without_run(alloc, cause, devices)),
    }
}

/// An assembly is done.
fn done<D: Device>(alloc: Global, devices: Devices<D>) -> Finished<D>
    ensures end { result.end ≡ done_end }
    ensures status { result.status ≡ 0 }
    ensures journal { result.journal.events ≡ [] }
    ensures budget { result.journal.budget ≡ 0 }
    ensures devices { result.devices ≡ devices }
{
    Finished {
        end: End::Done,
        status: 0,
        journal: Journal::new(alloc, NO_RUN),
        devices,
    }
}

/// A fault where there was no run.
fn without_run<D: Device>(alloc: Global, cause: Cause, devices: Devices<D>) -> TopFault<D>
    ensures cause { result.cause ≡ cause }
    ensures journal { result.journal.events ≡ [] }
    ensures budget { result.journal.budget ≡ 0 }
    ensures devices { result.devices ≡ devices }
{
    TopFault {
        cause,
        journal: Journal::new(alloc, NO_RUN),
        devices,
    }
}

/// The fault of a run that was stopped.
fn fault_of<D: Device>(stopped: Stopped<D>) -> TopFault<D>
    ensures told { IsTold (AtEvents stopped.halt) result.cause }
    ensures journal { result.journal ≡ stopped.journal }
    ensures devices { result.devices ≡ stopped.devices }
{
    let Stopped {
        halt,
        journal,
        devices,
    } = stopped;
    TopFault {
        cause: cause_of_halt(halt),
        journal,
        devices,
    }
}

fn cause_of_halt(halt: Halt) -> Cause
    ensures { IsTold (AtEvents halt) result }
{
    match halt {
        Halt::Device(device) => Cause::WriteFault(Part::Device(device)),
        Halt::Memory => Cause::Memory,
    }
}

/// Writes back what a run left.
fn store<F: Folder, D: Device>(
    alloc: Global,
    folder: &mut F,
    loaded: &Loaded,
    keep: bool,
    executed: Executed<D>,
) -> Result<Finished<D>, TopFault<D>>
    ensures end { IfOk result (λ f. f.end ≡ end_of executed.end) }
    ensures status { IfOk result (λ f. f.status ≡ status_of f.end) }
    ensures journal { MatchResult result (λ f. f.journal ≡ executed.journal) (λ f. f.journal ≡ executed.journal) }
    ensures devices { MatchResult result (λ f. f.devices ≡ executed.devices) (λ f. f.devices ≡ executed.devices) }
    ensures stored { OnOk result (FolderAfter keep loaded.now.listed.items loaded.now.tree executed.core.shared.files.tree (F.tree folder.old) (F.tree folder.new)) }
    ensures keep { OnErr result (keep ≡ false) }
    ensures partly { OnErr result (IsPartlyStored loaded.now.listed.items loaded.now.tree executed.core.shared.files.tree (F.tree folder.old) (F.tree folder.new)) }
    ensures told { IfErr result (λ f. NotWritten (F.failed_writes folder.old) (F.failed_writes folder.new) f.cause) }
    ensures reads { F.failed_reads folder.new ≡ F.failed_reads folder.old }
    ensures writes { OnOk result (F.failed_writes folder.new ≡ F.failed_writes folder.old) }
{
    let Executed {
        end,
        core,
        journal,
        devices,
    } = executed;
    match leave(alloc, folder, loaded, keep, core.tree()) {
        Ok(()) => {
            let end = of_process(&end);
            Ok(Finished {
                end,
                status: end.status(),
                journal,
                devices,
            })
        }
        Err(cause) => Err(TopFault {
            cause,
            journal,
            devices,
        }),
    }
}

/// Writes a tree back, unless the folder is to stay as it is.
fn leave<F: Folder>(
    alloc: Global,
    folder: &mut F,
    loaded: &Loaded,
    keep: bool,
    last: &Tree,
) -> Result<(), Cause>
    ensures stored { OnOk result (FolderAfter keep loaded.now.listed.items loaded.now.tree last.now (F.tree folder.old) (F.tree folder.new)) }
    ensures keep { OnErr result (keep ≡ false) }
    ensures partly { OnErr result (IsPartlyStored loaded.now.listed.items loaded.now.tree last.now (F.tree folder.old) (F.tree folder.new)) }
    ensures told { IfErr result (NotWritten (F.failed_writes folder.old) (F.failed_writes folder.new)) }
    ensures reads { F.failed_reads folder.new ≡ F.failed_reads folder.old }
    ensures writes { OnOk result (F.failed_writes folder.new ≡ F.failed_writes folder.old) }
{
    if keep {
        return Ok(());
    }
    match write_back(alloc, folder, loaded, last) {
        Ok(()) => Ok(()),
        Err(StoreFault::WriteFault) => Err(Cause::WriteFault(Part::Folder)),
        Err(StoreFault::Memory) => Err(Cause::Memory),
    }
}
