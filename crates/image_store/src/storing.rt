//! From a tree of files back to the folder that it was loaded from.

ghost use Rattle.std.specs.Prelude.{◌≡◌, ◌≢◌, [], ◌∷◌, ℕ, List, Some, true, false, OnOk, OnErr, reverse, if◌then◌else◌};
ghost use Rattle.std.specs.List.{flat_map};
ghost use Rattle.file_tree.specs.Making.{is_own as own_is};
ghost use Rattle.file_tree.specs.Nodes.{kind_in, file_bytes};
ghost use Rattle.file_tree.specs.declared.kind.Kind.TheVariants as nodes;
ghost use Rattle.image_store.specs.declared.folder.FolderError.TheVariants.{Failed};
ghost use Rattle.image_store.specs.declared.storing.Standing.TheVariants as standings;
ghost use Rattle.image_store.specs.declared.storing.StoreFault.TheVariants.{WriteFault};
ghost use Rattle.image_store.specs.Storing.{AreBegun, AreDone, IsPartlyStored, IsStored, Remove, StoresBy, Write, holds_bytes, make_unless, making, removal, remove_by, standing};

use crate::all_paths::all_paths;
use crate::folder::{Folder, FolderError, Kind, Listed};
use crate::loading::{Loaded, is_own};
use file_tree::{Inode, Text, Tree};
use std::alloc::Global;

/// Why a tree wasn't written back.
#[derive(Clone, Copy, Debug, PartialEq, Eq)]
pub enum StoreFault {
    /// A write of the folder failed.
    WriteFault,
    /// Want of memory.
    Memory,
}

/// What stands at a path of a tree.
#[derive(Clone, Copy)]
enum Standing {
    Nothing,
    Dir,
    File(Inode),
}

/// Writes a tree back to the folder that it was loaded from. First each loaded path goes that is gone from the tree, or at
/// which something of another kind stands, in the listing's order backwards; then directories that are new are made, and
/// files that are new or have other bytes are written, in rising order of their paths' bytes. What wasn't loaded isn't
/// touched. A fault leaves what was done before it, and of a write that failed the old file or a beginning of the new bytes.
///
/// Its cost is in the bytes of the files and paths, for each name of a path a look-up in a directory, and one call of the
/// folder for each change; sorting costs the bytes of the paths, times the logarithm of their number.
pub fn write_back<F: Folder>(
    alloc: Global,
    folder: &mut F,
    before: &Loaded,
    after: &Tree,
) -> Result<(), StoreFault>
    ensures done { OnOk result (IsStored before.now.listed.items before.now.tree after.now (F.tree folder.old) (F.tree folder.new)) }
    ensures left { OnErr result (IsPartlyStored before.now.listed.items before.now.tree after.now (F.tree folder.old) (F.tree folder.new)) }
    ensures reads { F.failed_reads folder.new ≡ F.failed_reads folder.old }
    ensures writes { StoresBy (F.failed_writes folder.old) (F.failed_writes folder.new) result }
{
    let paths = match all_paths(alloc, after) {
        Ok(paths) => paths,
        Err(_) => return Err(StoreFault::Memory),
    };
    match remove_gone(folder, &before.listed, after) {
        Ok(()) => {}
        Err(fault) => return Err(fault),
    }
    make_new(alloc, folder, &before.tree, after, &paths)
}

/// Removes what is gone.
fn remove_gone<F: Folder>(folder: &mut F, listed: &[Listed], after: &Tree) -> Result<(), StoreFault>
    ensures done { OnOk result (AreDone (flat_map (removal after.now) (reverse listed.now)) (F.tree folder.old) (F.tree folder.new)) }
    ensures left { OnErr result (AreBegun (flat_map (removal after.now) (reverse listed.now)) (F.tree folder.old) (F.tree folder.new)) }
    ensures reads { F.failed_reads folder.new ≡ F.failed_reads folder.old }
    ensures writes { StoresBy (F.failed_writes folder.old) (F.failed_writes folder.new) result }
{
    let mut place = listed.len();
    while place > 0 {
        place -= 1;
        match remove_at(folder, &listed[place], after) {
            Ok(()) => {}
            Err(fault) => return Err(fault),
        }
    }
    Ok(())
}

/// Removes an entry, if it is gone.
fn remove_at<F: Folder>(folder: &mut F, entry: &Listed, after: &Tree) -> Result<(), StoreFault>
    ensures done { OnOk result (AreDone (removal after.now entry.now) (F.tree folder.old) (F.tree folder.new)) }
    ensures left { OnErr result (AreBegun (removal after.now entry.now) (F.tree folder.old) (F.tree folder.new)) }
    ensures reads { F.failed_reads folder.new ≡ F.failed_reads folder.old }
    ensures writes { StoresBy (F.failed_writes folder.old) (F.failed_writes folder.new) result }
{
    if is_own(entry) {
        return Ok(());
    }
    if is_kept(entry.kind, what_stands(after, entry.path.as_str())) {
        return Ok(());
    }
    match folder.remove(entry.path.as_str()) {
        Ok(()) => Ok(()),
        Err(error) => Err(fault_of(error)),
    }
}

/// Whether what was listed so still stands.
fn is_kept(kind: Kind, standing: Standing) -> bool
    ensures { (path : List ℕ) → remove_by path kind standing ≡ (if result then [] else Remove path ∷ []) }
{
    match kind {
        Kind::File => match standing {
            Standing::File(_) => true,
            Standing::Dir => false,
            Standing::Nothing => false,
        },
        Kind::Dir => is_dir(standing),
        Kind::Other => false,
    }
}

fn is_dir(standing: Standing) -> bool
    ensures is { result ≡ true → standing ≡ standings.Dir }
    ensures none { result ≡ false → standing ≢ standings.Dir }
{
    match standing {
        Standing::Dir => true,
        Standing::File(_) => false,
        Standing::Nothing => false,
    }
}

fn fault_of(error: FolderError) -> StoreFault
    ensures { result ≡ WriteFault → error ≡ Failed }
{
    match error {
        FolderError::Failed => StoreFault::WriteFault,
        FolderError::Memory => StoreFault::Memory,
    }
}

/// What stands at a path.
fn what_stands(tree: &Tree, path: &str) -> Standing
    ensures is { result ≡ standing tree.now path.now }
    ensures file { (inode : ℕ) → result ≡ standings.File inode → kind_in tree.now inode ≡ Some nodes.File }
{
    match tree.walk(tree.root(), path.as_bytes()) {
        Ok(inode) => match tree.kind(inode) {
            file_tree::Kind::File => Standing::File(inode),
            file_tree::Kind::Dir => Standing::Dir,
        },
        Err(_) => Standing::Nothing,
    }
}

/// Makes what is new.
fn make_new<F: Folder>(
    alloc: Global,
    folder: &mut F,
    before: &Tree,
    after: &Tree,
    paths: &[Text],
) -> Result<(), StoreFault>
    ensures done { OnOk result (AreDone (flat_map (making before.now after.now) paths.now) (F.tree folder.old) (F.tree folder.new)) }
    ensures left { OnErr result (AreBegun (flat_map (making before.now after.now) paths.now) (F.tree folder.old) (F.tree folder.new)) }
    ensures reads { F.failed_reads folder.new ≡ F.failed_reads folder.old }
    ensures writes { StoresBy (F.failed_writes folder.old) (F.failed_writes folder.new) result }
{
    for path in paths {
        match make_at(alloc, folder, before, after, path.as_str()) {
            Ok(()) => {}
            Err(fault) => return Err(fault),
        }
    }
    Ok(())
}

/// Makes what stands at a path, if it is new.
fn make_at<F: Folder>(
    alloc: Global,
    folder: &mut F,
    before: &Tree,
    after: &Tree,
    path: &str,
) -> Result<(), StoreFault>
    ensures done { OnOk result (AreDone (making before.now after.now path.now) (F.tree folder.old) (F.tree folder.new)) }
    ensures left { OnErr result (AreBegun (making before.now after.now path.now) (F.tree folder.old) (F.tree folder.new)) }
    ensures reads { F.failed_reads folder.new ≡ F.failed_reads folder.old }
    ensures writes { StoresBy (F.failed_writes folder.old) (F.failed_writes folder.new) result }
{
    let old = what_stands(before, path);
    match what_stands(after, path) {
        Standing::Nothing => Ok(()),
        Standing::Dir => make_dir(alloc, folder, path, old),
        Standing::File(new) => {
            let bytes = bytes_of(after, new);
            if is_unchanged(before, old, bytes) {
                return Ok(());
            }
            write(alloc, folder, path, bytes)
        }
    }
}

/// Makes a directory where none stood.
fn make_dir<F: Folder>(
    alloc: Global,
    folder: &mut F,
    path: &str,
    old: Standing,
) -> Result<(), StoreFault>
    ensures done { OnOk result (AreDone (make_unless old path.now) (F.tree folder.old) (F.tree folder.new)) }
    ensures left { OnErr result (AreBegun (make_unless old path.now) (F.tree folder.old) (F.tree folder.new)) }
    ensures reads { F.failed_reads folder.new ≡ F.failed_reads folder.old }
    ensures writes { StoresBy (F.failed_writes folder.old) (F.failed_writes folder.new) result }
{
    if is_dir(old) {
        return Ok(());
    }
    match folder.make_dir(alloc, path) {
        Ok(()) => Ok(()),
        Err(error) => Err(fault_of(error)),
    }
}

/// Writes a file.
fn write<F: Folder>(
    alloc: Global,
    folder: &mut F,
    path: &str,
    bytes: &[u8],
) -> Result<(), StoreFault>
    ensures done { OnOk result (AreDone (Write path.now bytes.now ∷ []) (F.tree folder.old) (F.tree folder.new)) }
    ensures left { OnErr result (AreBegun (Write path.now bytes.now ∷ []) (F.tree folder.old) (F.tree folder.new)) }
    ensures reads { F.failed_reads folder.new ≡ F.failed_reads folder.old }
    ensures writes { StoresBy (F.failed_writes folder.old) (F.failed_writes folder.new) result }
{
    match folder.write(alloc, path, bytes) {
        Ok(()) => Ok(()),
        Err(error) => Err(fault_of(error)),
    }
}

/// Whether a file with these bytes stood there.
fn is_unchanged(before: &Tree, old: Standing, bytes: &[u8]) -> bool
    requires { (inode : ℕ) → old ≡ standings.File inode → kind_in before.now inode ≡ Some nodes.File }
    ensures { result ≡ holds_bytes before.now old bytes.now }
{
    match old {
        Standing::File(inode) => bytes_of(before, inode) == bytes,
        Standing::Dir => false,
        Standing::Nothing => false,
    }
}

/// The bytes of a file.
fn bytes_of(tree: &Tree, file: Inode) -> &[u8]
    requires { kind_in tree.now file ≡ Some nodes.File }
    ensures { result.now ≡ file_bytes tree.now.nodes file }
{
    tree.part(file, 0, tree.size(file))
}
