//! From a folder to a tree of files.

ghost use Rattle.std.specs.Prelude.{◌≡◌, ◌≤◌, ◌+◌, ℕ, [], None, Some, IfOk, IfErr, OnOk, OnErr, false, List, length};
ghost use Rattle.file_tree.specs.Making.{is_own as own_is};
ghost use Rattle.file_tree.specs.Nodes.{Has};
ghost use Rattle.file_tree.specs.declared.kind.Kind.TheVariants as nodes;
ghost use Rattle.image_store.specs.declared.folder.Kind.TheVariants as kinds;
ghost use Rattle.image_store.specs.declared.folder.Listed.{Listed};
ghost use Rattle.image_store.specs.declared.loading.LoadFault.TheVariants as faults;
ghost use Rattle.image_store.specs.Files.{Reads};
ghost use Rattle.image_store.specs.Loading.{IsAdded, IsFilledWith, IsLoaded, IsPutFrom, IsQuiet, IsTakenBy, NotFilled, NotLoaded, NotPut, Refuses, counted, first_refused, loaded_of, over, read_fault, refused, with_loaded};

use crate::folder::{Folder, FolderError, Kind, Listed};
use file_tree::{Text, Tree};
use std::alloc::{AllocError, Global};

/// The most entries that a listing may have.
const ENTRY_LIMIT: usize = 4096;

/// The most bytes that a file may have.
const FILE_LIMIT: u64 = 16_777_216;

/// The most bytes that all files may have together.
const TREE_LIMIT: u64 = 268_435_456;

/// The inode of the root.
const ROOT: u64 = 1;

/// A tree of files that was made of a folder, and the folder's listing. Nothing holds an entry of the tree.
#[derive(Drop)]
pub struct Loaded {
    pub tree: Tree,
    pub listed: Vec<Listed>,
}

/// Why no tree was made of a folder.
#[derive(Drop)]
pub enum LoadFault {
    /// There are more than 4,096 entries, with those that aren't loaded: how many there are.
    TooMany(usize),
    /// An entry is neither a file nor a directory: the first in the order of paths.
    Link(Text),
    /// A file has more than 16,777,216 bytes, or with it there are more than 268,435,456: the first, and its bytes.
    TooBig(Text, u64),
    /// A read of the folder failed.
    ReadFault,
    /// Want of memory.
    Memory,
}

/// Makes a tree of the folder's entries, all but those that stand under a name of the folder itself that begins with `rv-`.
/// Links and sizes are looked at over the whole listing first, and sizes again as each file is read. Its cost is in the
/// bytes of the files and paths, and for each name of a path a look-up in a directory.
pub fn load_tree<F: Folder>(alloc: Global, folder: &mut F) -> Result<Loaded, LoadFault>
    ensures loaded { IfOk result (λ loaded. IsLoaded (F.tree folder.old) loaded.listed.items loaded.tree) }
    ensures fault { IfErr result (NotLoaded (F.tree folder.old) (F.failed_reads folder.old) (F.failed_reads folder.new)) }
    ensures tree { F.tree folder.new ≡ F.tree folder.old }
    ensures later { F.failed_reads folder.old ≤ F.failed_reads folder.new }
    ensures still { OnOk result (F.failed_reads folder.new ≡ F.failed_reads folder.old) }
    ensures quiet { IfErr result (IsQuiet (F.failed_reads folder.old) (F.failed_reads folder.new)) }
    ensures writes { F.failed_writes folder.new ≡ F.failed_writes folder.old }
{
    let listed = match folder.list(alloc) {
        Ok(listed) => listed,
        Err(error) => return Err(fault_of(error)),
    };
    if listed.len() > ENTRY_LIMIT {
        return Err(LoadFault::TooMany(listed.len()));
    }
    match look_over(alloc, &listed) {
        Ok(()) => {}
        Err(fault) => return Err(fault),
    }
    match fill(alloc, folder, &listed) {
        Ok(tree) => Ok(Loaded { tree, listed }),
        Err(fault) => Err(fault),
    }
}

/// Whether an entry isn't loaded.
pub(crate) fn is_own(entry: &Listed) -> bool
    ensures { result ≡ own_is entry.now.path }
{
    match entry.path.as_str().as_bytes() {
        [first, second, third, ..] => *first == b'r' && *second == b'v' && *third == b'-',
        _ => false,
    }
}

fn fault_of(error: FolderError) -> LoadFault
    ensures { result ≡ read_fault error }
{
    match error {
        FolderError::Failed => LoadFault::ReadFault,
        FolderError::Memory => LoadFault::Memory,
    }
}

/// Looks at all entries before any file is read.
fn look_over(alloc: Global, listed: &[Listed]) -> Result<(), LoadFault>
    ensures ok { OnOk result (first_refused 0 (loaded_of listed.now) [] ≡ None) }
    ensures fault { IfErr result (Refuses (first_refused 0 (loaded_of listed.now) [])) }
{
    let mut before = 0;
    for entry in listed {
        match look_at(alloc, before, entry) {
            Ok(count) => before += count,
            Err(fault) => return Err(fault),
        }
    }
    Ok(())
}

/// How many bytes an entry counts as it is listed, unless it is refused.
fn look_at(alloc: Global, before: u64, entry: &Listed) -> Result<u64, LoadFault>
    requires { before ≤ 268435456 }
    ensures rest { IfOk result (λ count. (entries : List Listed) → first_refused before (with_loaded entry.now entries) [] ≡ first_refused (before + count) entries []) }
    ensures within { IfOk result (λ count. before + count ≤ 268435456) }
    ensures fault { IfErr result (λ fault. (entries : List Listed) → Refuses (first_refused before (with_loaded entry.now entries) []) fault) }
{
    if is_own(entry) {
        return Ok(0);
    }
    refusal(alloc, before, entry, 0)
}

/// How many bytes an entry counts that gave so many, unless it is refused.
fn refusal(alloc: Global, before: u64, entry: &Listed, given: u64) -> Result<u64, LoadFault>
    requires { before ≤ 268435456 }
    ensures none { OnOk result (refused before entry.now given ≡ None) }
    ensures count { IfOk result (λ count. count ≡ counted entry.now given) }
    ensures within { IfOk result (λ count. before + count ≤ 268435456) }
    ensures fault { IfErr result (Refuses (refused before entry.now given)) }
{
    match entry.kind {
        Kind::File => size_refusal(alloc, before, entry, entry.size.max(given)),
        Kind::Dir => Ok(0),
        Kind::Other => Err(link(alloc, entry)),
    }
}

/// How many bytes a file counts, unless they are too many.
fn size_refusal(alloc: Global, before: u64, entry: &Listed, count: u64) -> Result<u64, LoadFault>
    requires { before ≤ 268435456 }
    ensures none { OnOk result (over before entry.now.path count ≡ None) }
    ensures count { IfOk result (λ counted. counted ≡ count) }
    ensures within { IfOk result (λ count. before + count ≤ 268435456) }
    ensures fault { IfErr result (Refuses (over before entry.now.path count)) }
{
    if count > FILE_LIMIT || before + count > TREE_LIMIT {
        return Err(too_big(alloc, entry, count));
    }
    Ok(count)
}

fn link(alloc: Global, entry: &Listed) -> LoadFault
    ensures { Refuses (Some (faults.Link entry.now.path)) result }
{
    match Text::new(alloc, entry.path.as_str()) {
        Ok(path) => LoadFault::Link(path),
        Err(_) => LoadFault::Memory,
    }
}

fn too_big(alloc: Global, entry: &Listed, count: u64) -> LoadFault
    ensures { Refuses (Some (faults.TooBig entry.now.path count)) result }
{
    match Text::new(alloc, entry.path.as_str()) {
        Ok(path) => LoadFault::TooBig(path, count),
        Err(_) => LoadFault::Memory,
    }
}

/// Makes a tree of the entries.
fn fill<F: Folder>(alloc: Global, folder: &mut F, listed: &[Listed]) -> Result<Tree, LoadFault>
    requires { first_refused 0 (loaded_of listed.now) [] ≡ None }
    ensures ok { IfOk result (λ tree. (before : ℕ) × IsFilledWith (F.tree folder.old) (loaded_of listed.now) before tree) }
    ensures fault { IfErr result (NotFilled (F.tree folder.old) (F.failed_reads folder.old) (F.failed_reads folder.new) (loaded_of listed.now)) }
    ensures tree { F.tree folder.new ≡ F.tree folder.old }
    ensures later { F.failed_reads folder.old ≤ F.failed_reads folder.new }
    ensures still { OnOk result (F.failed_reads folder.new ≡ F.failed_reads folder.old) }
    ensures quiet { IfErr result (IsQuiet (F.failed_reads folder.old) (F.failed_reads folder.new)) }
    ensures writes { F.failed_writes folder.new ≡ F.failed_writes folder.old }
{
    let mut tree = match Tree::new(alloc) {
        Ok(tree) => tree,
        Err(_) => return Err(LoadFault::Memory),
    };
    let mut before = 0;
    for entry in listed {
        match take(alloc, folder, &mut tree, entry, before) {
            Ok(count) => before += count,
            Err(fault) => return Err(fault),
        }
    }
    Ok(tree)
}

/// Puts an entry into the tree, unless it isn't loaded, and tells how many bytes it counts.
fn take<F: Folder>(
    alloc: Global,
    folder: &mut F,
    tree: &mut Tree,
    entry: &Listed,
    before: u64,
) -> Result<u64, LoadFault>
    requires root { Has tree.old 1 }
    requires plain { own_is entry.now.path ≡ false → entry.now.kind ≡ kinds.Other → ⊥ }
    requires within { before ≤ 268435456 }
    ensures ok { IfOk result (λ count. IsTakenBy (own_is entry.now.path) (F.tree folder.old) entry.now before count tree.old tree.new) }
    ensures within { IfOk result (λ count. before + count ≤ 268435456) }
    ensures fault { IfErr result (NotPut (F.tree folder.old) (F.failed_reads folder.old) (F.failed_reads folder.new) entry.now before) }
    ensures loaded { OnErr result (own_is entry.now.path ≡ false) }
    ensures tree { F.tree folder.new ≡ F.tree folder.old }
    ensures later { F.failed_reads folder.old ≤ F.failed_reads folder.new }
    ensures still { OnOk result (F.failed_reads folder.new ≡ F.failed_reads folder.old) }
    ensures quiet { IfErr result (IsQuiet (F.failed_reads folder.old) (F.failed_reads folder.new)) }
    ensures writes { F.failed_writes folder.new ≡ F.failed_writes folder.old }
{
    if is_own(entry) {
        return Ok(0);
    }
    put(alloc, folder, tree, entry, before)
}

/// Puts an entry into the tree, and tells how many bytes it counts.
fn put<F: Folder>(
    alloc: Global,
    folder: &mut F,
    tree: &mut Tree,
    entry: &Listed,
    before: u64,
) -> Result<u64, LoadFault>
    requires root { Has tree.old 1 }
    requires plain { entry.now.kind ≡ kinds.Other → ⊥ }
    requires within { before ≤ 268435456 }
    ensures ok { IfOk result (λ count. IsPutFrom (F.tree folder.old) entry.now before count tree.old tree.new) }
    ensures within { IfOk result (λ count. before + count ≤ 268435456) }
    ensures fault { IfErr result (NotPut (F.tree folder.old) (F.failed_reads folder.old) (F.failed_reads folder.new) entry.now before) }
    ensures tree { F.tree folder.new ≡ F.tree folder.old }
    ensures later { F.failed_reads folder.old ≤ F.failed_reads folder.new }
    ensures still { OnOk result (F.failed_reads folder.new ≡ F.failed_reads folder.old) }
    ensures quiet { IfErr result (IsQuiet (F.failed_reads folder.old) (F.failed_reads folder.new)) }
    ensures writes { F.failed_writes folder.new ≡ F.failed_writes folder.old }
{
    match entry.kind {
        Kind::File => put_file(alloc, folder, tree, entry, before),
        Kind::Dir => match add_dir(alloc, tree, entry.path.as_str().as_bytes()) {
            Ok(()) => Ok(0),
            Err(_) => Err(LoadFault::Memory),
        },
        Kind::Other => unreachable!(),
    }
}

/// Reads a file and puts it into the tree.
fn put_file<F: Folder>(
    alloc: Global,
    folder: &mut F,
    tree: &mut Tree,
    entry: &Listed,
    before: u64,
) -> Result<u64, LoadFault>
    requires root { Has tree.old 1 }
    requires file { entry.now.kind ≡ kinds.File }
    requires within { before ≤ 268435456 }
    ensures ok { IfOk result (λ count. IsPutFrom (F.tree folder.old) entry.now before count tree.old tree.new) }
    ensures within { IfOk result (λ count. before + count ≤ 268435456) }
    ensures fault { IfErr result (NotPut (F.tree folder.old) (F.failed_reads folder.old) (F.failed_reads folder.new) entry.now before) }
    ensures tree { F.tree folder.new ≡ F.tree folder.old }
    ensures later { F.failed_reads folder.old ≤ F.failed_reads folder.new }
    ensures still { OnOk result (F.failed_reads folder.new ≡ F.failed_reads folder.old) }
    ensures quiet { IfErr result (IsQuiet (F.failed_reads folder.old) (F.failed_reads folder.new)) }
    ensures writes { F.failed_writes folder.new ≡ F.failed_writes folder.old }
{
    let mut bytes = Vec::new(alloc);
    match folder.read(entry.path.as_str(), &mut bytes) {
        Ok(()) => {}
        Err(error) => return Err(fault_of(error)),
    }
    match refusal(alloc, before, entry, bytes.len() as u64) {
        Ok(count) => match add_file(alloc, tree, entry.path.as_str().as_bytes(), &bytes) {
            Ok(()) => Ok(count),
            Err(_) => Err(LoadFault::Memory),
        },
        Err(fault) => Err(fault),
    }
}

/// Makes a directory in the tree.
fn add_dir(alloc: Global, tree: &mut Tree, path: &[u8]) -> Result<(), AllocError>
    requires { Has tree.old 1 }
    ensures { OnOk result (IsAdded nodes.Dir path.now [] tree.old tree.new) }
{
    match tree.create_dir(alloc, ROOT, path) {
        Ok(_) => Ok(()),
        Err(_) => Err(AllocError),
    }
}

/// Makes a file in the tree that has these bytes.
fn add_file(alloc: Global, tree: &mut Tree, path: &[u8], bytes: &[u8]) -> Result<(), AllocError>
    requires { Has tree.old 1 }
    ensures { OnOk result (IsAdded nodes.File path.now bytes.now tree.old tree.new) }
{
    match tree.create_file(alloc, ROOT, path) {
        Ok(inode) => match tree.write_at(inode, 0, bytes) {
            Ok(()) => Ok(()),
            Err(_) => Err(AllocError),
        },
        Err(_) => Err(AllocError),
    }
}
