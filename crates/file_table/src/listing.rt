//! The entries of a directory.

ghost use Rattle.std.specs.Prelude.{◌≡◌, ℕ, ◌+◌, ◌-◌, ◌*◌, ◌/◌, ◌^◌, ◌<◌, ◌≤◌, nat_lt, ◌==◌, ◌&&◌, Bool, true, false, List, [], ◌∷◌, ◌++◌, length, drop, replicate, Some, Ok, Err, MatchResult, MatchOption, IfOk, OnOk};
ghost use Rattle.byteorder.specs.Endian.{little_bytes};
ghost use Rattle.file_tree.specs.declared.kind.Kind.TheVariants.{Dir};
ghost use Rattle.file_tree.specs.Nodes.{Has, kind_in, linked_in, node_in};
ghost use Rattle.file_table.specs.declared.state.Target.TheVariants as targets;
ghost use Rattle.file_table.specs.Due.{Lists};
ghost use Rattle.file_table.specs.Entries.{IsDirectory, IsListed, Pushed, entries, entry_at, entry_bytes, entry_size, entry_with, fitted, kind_byte, list, lists, listed_in, parent_by};

use crate::fault::FileFault;
use crate::files::Files;
use crate::state::Target;
use file_tree::{Errno, Inode, Kind, Text, Tree};
use std::alloc::{AllocError, Global};

/// The bytes of an entry in front of its name.
const HEAD: usize = 19;

impl Files {
    /// Writes the entries of a directory to a buffer, from the description's offset on, and tells how many bytes they have.
    /// The offset is that of the first entry that doesn't fit then. The directory itself and the one above it come first,
    /// then its names in rising order. Its cost is in the bytes of its names, and for each entry that fits that of a walk;
    /// its memory is that of its names and of what fits.
    ///
    /// It is refused with `EBADF` where the descriptor isn't open, then with `ENOTDIR` where it is open for no directory, then
    /// with `ENOENT` where the directory was unlinked, and with `EINVAL` where the first entry doesn't fit.
    ///
    /// References: getdents64(2).
    #[tactic(auto, unfolding(crate::specs::Entries::list))]
    pub fn list(&mut self, alloc: Global, fd: u64, into: &mut [u8]) -> Result<usize, FileFault>
        ensures { Lists result (list fd (length into.old) self.old) into.old into.new self.old self.new }
    {
        match self.open_as(fd) {
            Some((number, it)) => match it.target {
                Target::Node(inode) => {
                    match listed(&self.tree, alloc, inode, it.offset, into.len()) {
                        Ok((out, next)) => {
                            let count = out.len();
                            into[..count].copy_from_slice(out.as_slice());
                            self.change(number, it, it.flags, next);
                            Ok(count)
                        }
                        Err(fault) => Err(fault),
                    }
                }
                Target::Device(_) | Target::Pipe { .. } => { Err(FileFault::Errno(Errno::ENOTDIR)) }
            },
            None => Err(FileFault::Errno(Errno::EBADF)),
        }
    }
}

/// The entries of what is open that fit, and the index of the next one.
fn listed(
    tree: &Tree,
    alloc: Global,
    inode: Inode,
    from: u64,
    room: usize,
) -> Result<(Vec<u8>, u64), FileFault>
    requires { Has tree.now inode }
    ensures { MatchResult result (λ made. (listed_in (targets.Node inode) room from tree.now ≡ Ok (record { bytes = made.0.items; next = made.1 })) × (length made.0.items ≤ room)) (IsListed (listed_in (targets.Node inode) room from tree.now)) }
{
    match tree.kind(inode) {
        Kind::File => Err(FileFault::Errno(Errno::ENOTDIR)),
        Kind::Dir => match parent(tree, inode) {
            Some(up) => listed_directory(tree, alloc, inode, up, from, room),
            None => Err(FileFault::Errno(Errno::ENOENT)),
        },
    }
}

/// The directory above one, which has none where it was unlinked.
fn parent(tree: &Tree, inode: Inode) -> Option<Inode>
    requires { kind_in tree.now inode ≡ Some Dir }
    ensures { MatchOption result (linked_in tree.now inode ≡ false) (λ up. (linked_in tree.now inode ≡ true) × (up ≡ parent_by (node_in tree.now.nodes inode)) × Has tree.now up) }
{
    match tree.walk(inode, b"..") {
        Ok(up) => Some(up),
        Err(_) => None,
    }
}

/// The entries of a directory that fit.
fn listed_directory(
    tree: &Tree,
    alloc: Global,
    inode: Inode,
    up: Inode,
    from: u64,
    room: usize,
) -> Result<(Vec<u8>, u64), FileFault>
    requires kind { kind_in tree.now inode ≡ Some Dir }
    requires linked { linked_in tree.now inode ≡ true }
    requires parent { up ≡ parent_by (node_in tree.now.nodes inode) }
    requires above { Has tree.now up }
    ensures { MatchResult result (λ made. (lists room from (drop from (entries inode tree.now)) tree.now ≡ Ok (record { bytes = made.0.items; next = made.1 })) × (length made.0.items ≤ room)) (IsListed (lists room from (drop from (entries inode tree.now)) tree.now)) }
{
    let _ = tree.root();
    match tree.names(alloc, inode) {
        Ok(names) => {
            let mut out = Vec::new(alloc);
            match push_entries(tree, inode, up, names.as_slice(), from, room, &mut out) {
                Ok(next) => {
                    if none_fits(out.as_slice(), from, names.as_slice()) {
                        return Err(FileFault::Errno(Errno::EINVAL));
                    }
                    Ok((out, next))
                }
                Err(_) => Err(FileFault::Memory),
            }
        }
        Err(_) => Err(FileFault::Memory),
    }
}

/// Whether there is an entry of this index in a directory that has these names.
fn is_within(index: u64, names: &[Text]) -> bool
    ensures { result ≡ nat_lt index (length names.now + 2) }
{
    index < 2 || index - 2 < names.len() as u64
}

/// Whether there is an entry of this index, and none fitted.
fn none_fits(made: &[u8], index: u64, names: &[Text]) -> bool
    ensures { result ≡ ((length made.now == 0) && nat_lt index (length names.now + 2)) }
{
    made.is_empty() && is_within(index, names)
}

/// Adds the entries that fit, from an index on, and tells the index of the next one.
fn push_entries(
    tree: &Tree,
    inode: Inode,
    up: Inode,
    names: &[Text],
    from: u64,
    room: usize,
    out: &mut Vec<u8>,
) -> Result<u64, AllocError>
    requires directory { IsDirectory tree.now inode up names.now }
    requires none { out.old.items ≡ [] }
    ensures listed { IfOk result (λ next. fitted room from (drop from (entries inode tree.now)) tree.now ≡ record { bytes = out.new.items; next = next }) }
    ensures low { OnOk result (length out.new.items ≤ room) }
{
    let mut index = from;
    'listing: while is_within(index, names) {
        if !push_at(tree, inode, up, names, index, room - out.len(), out)? {
            return Ok(index);
        }
        index += 1;
    }
    Ok(index)
}

/// Adds the entry of an index, if there is room, and tells whether there is.
fn push_at(
    tree: &Tree,
    inode: Inode,
    up: Inode,
    names: &[Text],
    index: u64,
    room: usize,
    out: &mut Vec<u8>,
) -> Result<bool, AllocError>
    requires directory { IsDirectory tree.now inode up names.now }
    requires within { index < length names.now + 2 }
    requires low { index + 1 < 2 ^ 64 }
    ensures { IfOk result (λ fits. Pushed fits (entry_at index inode tree.now) index room tree.now out.old.items out.new.items) }
{
    match index {
        0 => push_fitting(tree, index, b".", inode, room, out),
        1 => push_fitting(tree, index, b"..", up, room, out),
        _ => {
            let name = names[index as usize - 2].as_str().as_bytes();
            match tree.walk(inode, name) {
                Ok(entry) => push_fitting(tree, index, name, entry, room, out),
                Err(_) => unreachable!(),
            }
        }
    }
}

/// Adds an entry, if there is room, and tells whether there is.
fn push_fitting(
    tree: &Tree,
    index: u64,
    name: &[u8],
    inode: Inode,
    room: usize,
    out: &mut Vec<u8>,
) -> Result<bool, AllocError>
    requires there { Has tree.now inode }
    requires short { length name.now ≤ 255 }
    requires low { index + 1 < 2 ^ 64 }
    ensures { IfOk result (λ fits. Pushed fits (name.now, inode) index room tree.now out.old.items out.new.items) }
{
    if room < entry_size(name) {
        return Ok(false);
    }
    push_entry(out, index + 1, name, inode, kind_byte(tree.kind(inode)))?;
    Ok(true)
}

/// The bytes of an entry.
fn entry_size(name: &[u8]) -> usize
    requires { length name.now ≤ 255 }
    ensures { result ≡ entry_size name.now }
{
    8 * ((name.len() + 27) / 8)
}

/// The number of a kind.
fn kind_byte(kind: Kind) -> u8
    ensures { result ≡ kind_byte (Some kind) }
{
    match kind {
        Kind::Dir => 4,
        Kind::File => 8,
    }
}

/// Adds an entry.
fn push_entry(
    out: &mut Vec<u8>,
    next: u64,
    name: &[u8],
    inode: Inode,
    kind: u8,
) -> Result<(), AllocError>
    requires { length name.now ≤ 255 }
    ensures { OnOk result (out.new.items ≡ out.old.items ++ entry_with next name.now inode kind) }
{
    let size = entry_size(name);
    push_head(out, next, size, inode, kind)?;
    out.extend_from_slice(name)?;
    match push_zeros(out, size - HEAD - name.len()) {
        Ok(()) => Ok(()),
        Err(error) => Err(error),
    }
}

/// Adds what stands in front of an entry's name.
fn push_head(
    out: &mut Vec<u8>,
    next: u64,
    size: usize,
    inode: Inode,
    kind: u8,
) -> Result<(), AllocError>
    requires { size < 65536 }
    ensures { OnOk result (out.new.items ≡ out.old.items ++ (little_bytes 8 inode ++ little_bytes 8 next ++ little_bytes 2 size ++ kind ∷ [])) }
{
    out.extend_from_slice(&inode.to_le_bytes())?;
    out.extend_from_slice(&next.to_le_bytes())?;
    out.extend_from_slice(&(size as u16).to_le_bytes())?;
    match out.extend_from_slice(&[kind]) {
        Ok(()) => Ok(()),
        Err(error) => Err(error),
    }
}

/// Adds zeros.
fn push_zeros(out: &mut Vec<u8>, count: usize) -> Result<(), AllocError>
    requires { count < 65536 }
    ensures { OnOk result (out.new.items ≡ out.old.items ++ replicate count 0) }
{
    let end = out.len() + count;
    match out.resize(end, 0) {
        Ok(()) => Ok(()),
        Err(error) => Err(error),
    }
}
