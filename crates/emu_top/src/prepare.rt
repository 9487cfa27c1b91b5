//! From the words and the folder to the first state of a program.

ghost use Rattle.std.specs.Prelude.{◌≡◌, ◌≤◌, ◌<◌, List, ℕ, Ok, Err, Some, None, length, IfOk, IfErr, IfSome, OnOk, OnErr};
ghost use Rattle.elf_file.specs.declared.fault.ElfFault.{ElfFault};
ghost use Rattle.elf_file.specs.Reading.{Gives, image, reading};
ghost use Rattle.file_table.specs.Opening.{started as opened_first};
ghost use Rattle.file_tree.specs.Nodes.{Has, file_bytes, holds_in, kind_in};
ghost use Rattle.file_tree.specs.declared.kind.Kind.TheVariants as nodes;
ghost use Rattle.guest_core.specs.Kept.{Keeps};
ghost use Rattle.guest_core.specs.Start.{FitsIn, Program, Refuses, program_of, started};
ghost use Rattle.guest_core.specs.declared.starting.StartFault.{StartFault};
ghost use Rattle.image_store.specs.declared.loading.LoadFault.{LoadFault};
ghost use Rattle.image_store.specs.Loading.{IsLoaded, NotLoaded};
ghost use Rattle.cli_words.specs.Answer.{plan_asked};
ghost use Rattle.emu_top.specs.Causes.{AtChoosing, AtFile, AtLoading, AtStart, IsTold, ReadsBy};
ghost use Rattle.emu_top.specs.Loading.{IsLaunch, NotLaunched};
ghost use Rattle.emu_top.specs.Solo.{HasNoFile, IsFileAt, IsInput, launched};

use crate::cause::{Cause, Part};
use cli_words::Plan;
use elf_file::{Elf, ElfFault};
use file_table::Files;
use file_tree::{Inode, Kind, Text, Tree};
use guest_core::{Core, StartFault, start};
use image_store::{Folder, LoadFault, Loaded, load_tree};
use std::alloc::{AllocError, Global};

/// A run that is to be made: the folder as it was loaded, the first state, how many events it may have, and whether the
/// folder stays as it is.
#[derive(Drop)]
pub struct Launch {
    pub loaded: Loaded,
    pub core: Core,
    pub budget: u32,
    pub keep: bool,
}

/// Loads the folder, as `load_tree` does.
pub fn load<F: Folder>(alloc: Global, folder: &mut F) -> Result<Loaded, Cause>
    ensures loaded { IfOk result (λ loaded. IsLoaded (F.tree folder.old) loaded.listed.items loaded.tree) }
    ensures fault { IfErr result (λ cause. (fault : LoadFault) × IsTold (AtLoading fault) cause × NotLoaded (F.tree folder.old) (F.failed_reads folder.old) (F.failed_reads folder.new) fault × ReadsBy (AtLoading fault) (F.failed_reads folder.old) (F.failed_reads folder.new)) }
    ensures tree { F.tree folder.new ≡ F.tree folder.old }
    ensures still { OnOk result (F.failed_reads folder.new ≡ F.failed_reads folder.old) }
    ensures writes { F.failed_writes folder.new ≡ F.failed_writes folder.old }
{
    match load_tree(alloc, folder) {
        Ok(loaded) => Ok(loaded),
        Err(fault) => Err(cause_of_load(fault)),
    }
}

fn cause_of_load(fault: LoadFault) -> Cause
    ensures { IsTold (AtLoading fault) result }
{
    match fault {
        LoadFault::TooMany(count) => Cause::TooMany { count },
        LoadFault::Link(path) => Cause::Link(path),
        LoadFault::TooBig(path, size) => Cause::TooBig(path, size),
        LoadFault::ReadFault => Cause::ReadFault(Part::Folder),
        LoadFault::Memory => Cause::Memory,
    }
}

/// The file at a path.
pub fn file_in(alloc: Global, tree: &Tree, path: &str) -> Result<Inode, Cause>
    ensures file { IfOk result (λ file. IsFileAt tree.now path.now file) }
    ensures there { IfOk result (λ file. kind_in tree.now file ≡ Some nodes.File) }
    ensures none { OnErr result (HasNoFile tree.now path.now) }
    ensures told { IfErr result (IsTold (AtChoosing path.now)) }
{
    match file_at(tree, path) {
        Some(file) => Ok(file),
        None => match Text::new(alloc, path) {
            Ok(path) => Err(Cause::NoProgram(path)),
            Err(_) => Err(Cause::Memory),
        },
    }
}

/// The file at a path, if one stands there.
fn file_at(tree: &Tree, path: &str) -> Option<Inode>
    ensures file { IfSome result (λ file. IsFileAt tree.now path.now file) }
    ensures there { IfSome result (λ file. kind_in tree.now file ≡ Some nodes.File) }
    ensures none { result ≡ None → HasNoFile tree.now path.now }
{
    match tree.walk(tree.root(), path.as_bytes()) {
        Ok(inode) => match tree.kind(inode) {
            Kind::File => Some(inode),
            Kind::Dir => None,
        },
        Err(_) => None,
    }
}

/// The program's input, where it has one.
fn input_in(alloc: Global, tree: &Tree, input: &Option<Text>) -> Result<Option<Inode>, Cause>
    ensures input { IfOk result (IsInput tree.now input.now) }
    ensures there { IfOk result (λ file. IfSome file (λ file. kind_in tree.now file ≡ Some nodes.File)) }
    ensures none { IfErr result (λ cause. (path : List ℕ) × (input.now ≡ Some path) × HasNoFile tree.now path × IsTold (AtChoosing path) cause) }
{
    match input {
        None => Ok(None),
        Some(path) => match file_in(alloc, tree, path.as_str()) {
            Ok(file) => Ok(Some(file)),
            Err(cause) => Err(cause),
        },
    }
}

/// The bytes of a file.
pub fn bytes_of(tree: &Tree, file: Inode) -> &[u8]
    requires { kind_in tree.now file ≡ Some nodes.File }
    ensures { result.now ≡ file_bytes tree.now.nodes file }
{
    tree.part(file, 0, tree.size(file))
}

/// The program's bytes as a file.
fn elf_of(alloc: Global, bytes: &[u8]) -> Result<Elf, Cause>
    ensures elf { IfOk result (λ elf. reading bytes.now ≡ Ok (image elf)) }
    ensures fault { IfErr result (λ cause. (fault : ElfFault) × Gives (Err fault) (reading bytes.now) × IsTold (AtFile fault) cause) }
{
    match elf_file::read(alloc, bytes) {
        Ok(elf) => Ok(elf),
        Err(fault) => Err(cause_of_file(fault)),
    }
}

/// The cause of bytes that are no file to be run.
#[tactic(auto, using(crate::proofs::CauseFacts::file_told))]
fn cause_of_file(fault: ElfFault) -> Cause
    ensures { IsTold (AtFile fault) result }
{
    match fault {
        ElfFault::Memory => Cause::Memory,
        fault => Cause::Elf(fault),
    }
}

/// The files at first.
fn files_of(
    alloc: Global,
    tree: &Tree,
    devices: usize,
    input: Option<Inode>,
) -> Result<Files, AllocError>
    requires few { devices ≤ 8 }
    requires free { (inode : ℕ) → holds_in tree.now inode ≡ 0 }
    requires input { IfSome input (λ file. kind_in tree.now file ≡ Some nodes.File) }
    ensures { IfOk result (λ files. files ≡ opened_first tree.now devices input) }
{
    Files::new(alloc, tree.copy()?, devices, input)
}

/// The first state of a program over a tree.
fn core_of(
    alloc: Global,
    elf: &Elf,
    args: &[Text],
    env: &[Text],
    tree: &Tree,
    devices: usize,
    input: Option<Inode>,
) -> Result<Core, Cause>
    requires few { devices ≤ 8 }
    requires free { (inode : ℕ) → holds_in tree.now inode ≡ 0 }
    requires input { IfSome input (λ file. kind_in tree.now file ≡ Some nodes.File) }
    requires name { 0 < length args.now }
    ensures core { IfOk result (λ core. core ≡ started (program_of (image elf.now) args.now env.now) (opened_first tree.now devices input)) }
    ensures fits { OnOk result (FitsIn (program_of (image elf.now) args.now env.now)) }
    ensures keeps { IfOk result Keeps }
    ensures fault { IfErr result (λ cause. (fault : StartFault) × Refuses (program_of (image elf.now) args.now env.now) fault × IsTold (AtStart fault) cause) }
{
    let files = match files_of(alloc, tree, devices, input) {
        Ok(files) => files,
        Err(_) => return Err(no_memory()),
    };
    match start(alloc, elf, args, env, files) {
        Ok(core) => Ok(core),
        Err(fault) => Err(cause_of_start(fault)),
    }
}

/// The cause of a start without memory.
fn no_memory() -> Cause
    ensures { (program : Program) → (fault : StartFault) × Refuses program fault × IsTold (AtStart fault) result }
{
    Cause::Memory
}

/// The launch of a plan, whose program is this file.
fn launch_of(
    alloc: Global,
    plan: Plan,
    loaded: Loaded,
    elf: &Elf,
    devices: usize,
    input: Option<Inode>,
) -> Result<Launch, Cause>
    requires few { devices ≤ 8 }
    requires free { (inode : ℕ) → holds_in loaded.tree inode ≡ 0 }
    requires input { IfSome input (λ file. kind_in loaded.tree file ≡ Some nodes.File) }
    ensures core { IfOk result (λ launch. launch.core ≡ started (launched (plan_asked plan) (image elf.now)) (opened_first loaded.tree devices input)) }
    ensures fits { OnOk result (FitsIn (launched (plan_asked plan) (image elf.now))) }
    ensures keeps { IfOk result (λ launch. Keeps launch.core) }
    ensures loaded { IfOk result (λ launch. launch.loaded ≡ loaded) }
    ensures budget { IfOk result (λ launch. launch.budget ≡ plan.budget) }
    ensures keep { IfOk result (λ launch. launch.keep ≡ plan.keep) }
    ensures fault { IfErr result (λ cause. (fault : StartFault) × Refuses (launched (plan_asked plan) (image elf.now)) fault × IsTold (AtStart fault) cause) }
{
    let Plan {
        folder: _,
        program,
        mut args,
        env,
        budget,
        input: _,
        keep,
    } = plan;
    match args.insert(0, program) {
        Ok(()) => {}
        Err(_) => return Err(no_memory()),
    }
    match core_of(
        alloc,
        elf,
        args.as_slice(),
        env.as_slice(),
        &loaded.tree,
        devices,
        input,
    ) {
        Ok(core) => Ok(Launch {
            loaded,
            core,
            budget,
            keep,
        }),
        Err(cause) => Err(cause),
    }
}

/// What a plan asks for, over the loaded folder: its program and its input are looked for, the program is read, and its first
/// state is made. It costs by the sizes of the program's segments, by the pages of its stack, and by the loaded files,
/// which are copied.
pub fn prepare(alloc: Global, plan: Plan, loaded: Loaded, devices: usize) -> Result<Launch, Cause>
    requires few { devices ≤ 8 }
    requires free { (inode : ℕ) → holds_in loaded.tree inode ≡ 0 }
    ensures launch { IfOk result (IsLaunch loaded (plan_asked plan) devices) }
    ensures refused { IfErr result (NotLaunched loaded.tree (plan_asked plan)) }
{
    let program = match file_in(alloc, &loaded.tree, plan.program.as_str()) {
        Ok(program) => program,
        Err(cause) => return Err(cause),
    };
    let input = match input_in(alloc, &loaded.tree, &plan.input) {
        Ok(input) => input,
        Err(cause) => return Err(cause),
    };
    let elf = match elf_of(alloc, bytes_of(&loaded.tree, program)) {
        Ok(elf) => elf,
        Err(cause) => return Err(cause),
    };
    launch_of(alloc, plan, loaded, &elf, devices, input)
}

/// The cause of a start that was refused.
fn cause_of_start(fault: StartFault) -> Cause
    ensures { IsTold (AtStart fault) result }
{
    match fault {
        StartFault::StackTooLong { size } => Cause::StackTooLong { size },
        StartFault::PagesFull { wanted } => Cause::PagesFull { wanted },
        StartFault::Memory => Cause::Memory,
    }
}
