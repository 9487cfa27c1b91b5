//! From a source in the folder to a file in it.

ghost use Rattle.std.specs.Prelude.{◌≡◌, List, ℕ, Option, Some, None, IfOk, IfErr, IsTrue, OnOk, OnErr, ◌↔◌};
ghost use Rattle.cli_words.specs.Answer.{asm_asked};
ghost use Rattle.file_tree.specs.Nodes.{file_bytes, kind_in};
ghost use Rattle.file_tree.specs.declared.kind.Kind.TheVariants as nodes;
ghost use Rattle.image_store.specs.Changes.{Leaves, LeavesBeginning, file_at};
ghost use Rattle.isa_asm.specs.File.{IsAssembled, IsFaultOf};
ghost use Rattle.isa_asm.specs.declared.cause.AsmFault.{AsmFault};
ghost use Rattle.emu_top.specs.Assembling.{IsMade, NotMade, NotWritten};
ghost use Rattle.emu_top.specs.Causes.{AtNaming, AtSource, AtStoring, IsTold, WritesBy};
ghost use Rattle.emu_top.specs.Solo.{IsTaken};

use crate::cause::{Cause, Part};
use crate::prepare::{bytes_of, file_in};
use cli_words::AsmPlan;
use file_tree::{Inode, Text, Tree};
use image_store::{Folder, FolderError, Kind, Listed, Loaded};
use isa_asm::{AsmCause, AsmFault, assemble};
use le_fields::Bytes;
use std::alloc::Global;

/// The file that a plan asks for, by the loaded folder.
pub fn made(alloc: Global, plan: &AsmPlan, loaded: &Loaded) -> Result<Bytes, Cause>
    ensures made { IfOk result (IsMade loaded.now (asm_asked plan.now)) }
    ensures refused { IfErr result (NotMade loaded.now (asm_asked plan.now)) }
{
    match may_stand(alloc, &loaded.listed, plan.out.as_str()) {
        Ok(()) => {}
        Err(cause) => return Err(cause),
    }
    let source = match file_in(alloc, &loaded.tree, plan.source.as_str()) {
        Ok(source) => source,
        Err(cause) => return Err(cause),
    };
    match assembled(alloc, bytes_of(&loaded.tree, source)) {
        Ok(bytes) => Ok(bytes),
        Err(cause) => Err(cause),
    }
}

/// Whether a file may stand at a path: no directory does.
fn may_stand(alloc: Global, listing: &[Listed], path: &str) -> Result<(), Cause>
    ensures free { OnOk result (IsTaken listing.now path.now → ⊥) }
    ensures taken { OnErr result (IsTaken listing.now path.now) }
    ensures told { IfErr result (IsTold (AtNaming path.now)) }
{
    if !is_taken(listing, path) {
        return Ok(());
    }
    match Text::new(alloc, path) {
        Ok(path) => Err(Cause::NotAFile(path)),
        Err(_) => Err(Cause::Memory),
    }
}

/// Whether an entry that isn't a file stands at a path.
fn is_taken(listing: &[Listed], path: &str) -> bool
    ensures { IsTrue result ↔ IsTaken listing.now path.now }
{
    listing.iter().any(|entry| entry.path.as_str() == path && entry.kind != Kind::File)
}

/// The file of a source.
fn assembled(alloc: Global, source: &[u8]) -> Result<Bytes, Cause>
    ensures bytes { IfOk result (IsAssembled source.now) }
    ensures fault { IfErr result (λ cause. (fault : AsmFault) × IsFaultOf source.now fault × IsTold (AtSource fault) cause) }
{
    match assemble(alloc, source) {
        Ok(bytes) => Ok(bytes),
        Err(fault) => Err(cause_of_source(fault)),
    }
}

/// The cause of a source that isn't assembled.
#[tactic(auto, using(crate::proofs::CauseFacts::source_told))]
fn cause_of_source(fault: AsmFault) -> Cause
    ensures { IsTold (AtSource fault) result }
{
    match fault.cause {
        AsmCause::Memory => Cause::Memory,
        _ => Cause::Asm(fault),
    }
}

/// Writes a file to the folder.
pub fn write<F: Folder>(
    alloc: Global,
    folder: &mut F,
    path: &str,
    bytes: &[u8],
) -> Result<(), Cause>
    ensures written { OnOk result (Leaves path.now (Some (file_at path.now bytes.now)) (F.tree folder.old) (F.tree folder.new)) }
    ensures left { OnErr result (LeavesBeginning path.now bytes.now (F.tree folder.old) (F.tree folder.new)) }
    ensures reads { F.failed_reads folder.new ≡ F.failed_reads folder.old }
    ensures still { OnOk result (F.failed_writes folder.new ≡ F.failed_writes folder.old) }
    ensures told { IfErr result (NotWritten (F.failed_writes folder.old) (F.failed_writes folder.new)) }
{
    match folder.write(alloc, path, bytes) {
        Ok(()) => Ok(()),
        Err(FolderError::Failed) => Err(Cause::WriteFault(Part::Folder)),
        Err(FolderError::Memory) => Err(Cause::Memory),
    }
}
