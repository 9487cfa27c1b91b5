ghost use Rattle.std.specs.Prelude.{true, false, ◌≡◌, ◌≢◌, ℕ, ◌+◌, ◌-◌, ◌^◌, ◌<◌, ◌≤◌, ◌++◌, min, length, drop, Ok, Err, Some, IfOk, IfErr, IfSome, List, OnOk, OnErr, MatchResult};
ghost use Rattle.std.specs.Map.{keys_of};
ghost use Rattle.file_tree.specs.Entries.{entry_named, AreRising};
ghost use Rattle.file_tree.specs.Making.{slash_refused};
ghost use Rattle.file_tree.specs.Files.{fitting, size_written};
ghost use Rattle.file_tree.specs.declared.errno.Errno.TheVariants.{ENOENT};
ghost use Rattle.file_tree.specs.declared.fault.TreeFault.TheVariants.{Memory};
ghost use Rattle.file_tree.specs.declared.kind.Kind.{Kind};
ghost use Rattle.file_tree.specs.declared.kind.Kind.TheVariants.{File, Dir};

use crate::errno::Errno;
use crate::fault::TreeFault;
use crate::kind::Kind;
use crate::node::{NAME_LIMIT, Node};
use crate::nodes::Nodes;
use crate::path::{ends_in_slash, is_dot, is_dots, path_refusal, start};
use crate::text::Text;
use std::alloc::{AllocError, Global};
use std::marker::Model;

/// The most bytes that a file may have.
const FILE_LIMIT: u64 = 16_777_216;

/// The most bytes that all linked files may have together.
const TREE_LIMIT: u64 = 268_435_456;

/// The number of an entry. The root's is 1, each new entry gets the next one, and none is used again.
pub type Inode = u64;

/// A tree of files and directories.
///
/// An entry is in the tree while a name leads to it, and after that as long as it is held. Paths are bytes. One that
/// begins with a slash starts at the root, another at the directory that is given.
///
/// An entry is looked up by its inode in time that is logarithmic in the number of entries. Each call but `copy` does so a
/// constant number of times, a walk once for each part, and beside that costs what stands with it. None of these touches the
/// bytes of another file, or goes through the entries: how many are linked, and how many bytes the linked files have, is
/// kept.
#[derive(Drop)]
pub struct Tree {
    nodes: Nodes,
    next: u64,
    /// How many entries are linked, with the root.
    count: u64,
    /// How many bytes all linked files have.
    bytes: u64,
}

impl Model for Tree {
    ghost use Rattle.file_tree.specs.Nodes.{Tree};
    ghost use Rattle.file_tree.specs.Whole.{IsWhole};

    ghost Value = { Tree };

    ghost view = { λ tree. record { nodes = tree.nodes; next = tree.next } };

    ghost invariant = { λ tree. IsWhole tree.nodes tree.next tree.count tree.bytes };
}

impl Tree {
    ghost use Rattle.file_tree.specs.Nodes.{new_tree, Has, node_in, kind_in, holds_in, linked_in, linked_by, file_bytes, tree_bytes, names_in, path_by};
    ghost use Rattle.file_tree.specs.Walk.{Spot, walked, spot_of};
    ghost use Rattle.file_tree.specs.Making.{make_refused, made, made_at, with_made, new_node as node_made, path_below};
    ghost use Rattle.file_tree.specs.Unlinking.{unlink_refused, unlinked, with_unlinked};
    ghost use Rattle.file_tree.specs.Ready.{has_slash, IsMakeable, IsEntry, IsTakeable};
    ghost use Rattle.file_tree.specs.Files.{read_from, written, truncated, total_after};
    ghost use Rattle.file_tree.specs.Holds.{held, released};
    ghost use Rattle.file_tree.specs.Whole.{IsSound};
    ghost use Rattle.file_tree.specs.Answers.{Answers, AnswersAlways, HoldsStay, HeldStay, IsMade, GainsName, IsNamed, IsTaken, LosesName, IsUnnamed, IsFilled, IsHeld, IsReleased, Leads, Loses};

    /// The root alone.
    pub fn new(alloc: Global) -> Result<Tree, AllocError>
        ensures alone { IfOk result (λ tree. tree ≡ new_tree) }
        ensures sound { IfOk result (λ tree. IsSound tree) }
    {
        Ok(Tree {
            nodes: Nodes::new(alloc)?,
            next: 2,
            count: 1,
            bytes: 0,
        })
    }

    /// The inode of the root. Its contract also tells what every tree keeps.
    pub fn root(&self) -> Inode
        ensures root { result ≡ 1 }
        ensures kind { kind_in self.now result ≡ Some Dir }
        ensures there { Has self.now result }
        ensures sound { IsSound self.now }
    {
        let _ = &self.nodes;
        1
    }

    /// An equal tree, with the same inodes and holds. Its cost is in the number of entries and in the bytes of all files and
    /// names, and so is its memory.
    pub fn copy(&self) -> Result<Tree, AllocError>
        ensures same { IfOk result (λ copy. copy ≡ self.now) }
        ensures sound { IfOk result (λ copy. IsSound copy) }
    {
        Ok(Tree {
            nodes: self.nodes.clone()?,
            next: self.next,
            count: self.count,
            bytes: self.bytes,
        })
    }

    /// The inode that a path leads to, from a directory on. Its cost is in the bytes of the path, and for each part a look-up of
    /// an entry and one of a name, which is logarithmic in the number of the directory's names. It takes no memory.
    pub fn walk(&self, from: Inode, path: &[u8]) -> Result<Inode, Errno>
        requires { Has self.now from }
        ensures found { result ≡ walked self.now from path.now }
        ensures there { IfOk result (λ inode. Has self.now inode) }
        ensures linked { IfOk result (λ inode. inode ≢ from → linked_in self.now inode ≡ true) }
    {
        match path_refusal(path) {
            Some(errno) => Err(errno),
            None => match self.nodes.follow(start(from, path), path) {
                Ok(at) => self.nodes.finish(at, path),
                Err(errno) => Err(errno),
            },
        }
    }

    /// The directory in which the last name of a path stands, and this name.
    fn spot<'a>(&self, from: Inode, path: &'a [u8]) -> Result<(Inode, &'a [u8]), Errno>
        ensures spot { MatchResult result (λ spot. spot_of self.now from path.now ≡ Ok (record { at = spot.0; name = spot.1.now })) (λ errno. spot_of self.now from path.now ≡ Err errno) }
        ensures plain { IfOk result (λ spot. has_slash spot.1.now ≡ false) }
    {
        match path_refusal(path) {
            Some(errno) => Err(errno),
            None => self.nodes.spot(start(from, path), path),
        }
    }

    /// Makes an empty file. Its cost is that of a walk; its memory is that of the entry and its name.
    pub fn create_file(
        &mut self,
        alloc: Global,
        from: Inode,
        path: &[u8],
    ) -> Result<Inode, TreeFault>
        requires { Has self.old from }
        ensures answers { Answers result (made File from path.now self.old) self.old self.new }
        ensures inode { IfOk result (λ inode. inode ≡ self.old.next) }
        ensures made { IfOk result (λ inode. IsMade File inode self.old self.new) }
        ensures named { IfOk result (λ inode. IsNamed from path.now inode self.old self.new) }
        ensures found { IfOk result (λ inode. walked self.new from path.now ≡ Ok inode) }
    {
        self.make(alloc, Kind::File, from, path)
    }

    /// Makes an empty directory. Its cost is that of a walk; its memory is that of the entry and its name.
    pub fn create_dir(
        &mut self,
        alloc: Global,
        from: Inode,
        path: &[u8],
    ) -> Result<Inode, TreeFault>
        requires { Has self.old from }
        ensures answers { Answers result (made Dir from path.now self.old) self.old self.new }
        ensures inode { IfOk result (λ inode. inode ≡ self.old.next) }
        ensures made { IfOk result (λ inode. IsMade Dir inode self.old self.new) }
        ensures named { IfOk result (λ inode. IsNamed from path.now inode self.old self.new) }
        ensures found { IfOk result (λ inode. walked self.new from path.now ≡ Ok inode) }
    {
        self.make(alloc, Kind::Dir, from, path)
    }

    /// Makes an entry.
    fn make(
        &mut self,
        alloc: Global,
        kind: Kind,
        from: Inode,
        path: &[u8],
    ) -> Result<Inode, TreeFault>
        requires { Has self.old from }
        ensures answers { Answers result (made kind from path.now self.old) self.old self.new }
        ensures inode { IfOk result (λ inode. inode ≡ self.old.next) }
        ensures made { IfOk result (λ inode. IsMade kind inode self.old self.new) }
        ensures named { IfOk result (λ inode. IsNamed from path.now inode self.old self.new) }
        ensures found { IfOk result (λ inode. walked self.new from path.now ≡ Ok inode) }
    {
        match self.spot(from, path) {
            Ok((at, name)) => self.make_at(alloc, kind, at, name, is_refused_slash(kind, path)),
            Err(errno) => Err(TreeFault::Errno(errno)),
        }
    }

    /// Makes an entry in a directory.
    fn make_at(
        &mut self,
        alloc: Global,
        kind: Kind,
        at: Inode,
        name: &[u8],
        ends: bool,
    ) -> Result<Inode, TreeFault>
        requires { has_slash name.now ≡ false }
        ensures answers { Answers result (made_at kind ends self.old (record { at = at; name = name.now })) self.old self.new }
        ensures inode { IfOk result (λ inode. inode ≡ self.old.next) }
        ensures made { IfOk result (λ inode. IsMade kind inode self.old self.new) }
        ensures named { IfOk result (λ inode. GainsName (record { at = at; name = name.now }) inode self.old self.new) }
        ensures leads { IfOk result (λ inode. Leads kind (record { at = at; name = name.now }) inode self.old self.new) }
    {
        match self.make_refusal(at, name, ends) {
            Some(errno) => Err(TreeFault::Errno(errno)),
            None => self.put(alloc, kind, at, name),
        }
    }

    /// Puts an entry into a directory where nothing refuses it.
    fn put(&mut self, alloc: Global, kind: Kind, at: Inode, name: &[u8]) -> Result<Inode, TreeFault>
        requires plain { has_slash name.now ≡ false }
        requires can { IsMakeable self.old.nodes at name.now }
        ensures ok { OnOk result (self.new ≡ record { nodes = with_made at name.now self.old.next (node_made kind (record { at = at; name = name.now }) self.old.nodes) self.old.nodes; next = self.old.next + 1 }) }
        ensures inode { IfOk result (λ inode. inode ≡ self.old.next) }
        ensures made { IfOk result (λ inode. IsMade kind inode self.old self.new) }
        ensures named { IfOk result (λ inode. GainsName (record { at = at; name = name.now }) inode self.old self.new) }
        ensures leads { IfOk result (λ inode. Leads kind (record { at = at; name = name.now }) inode self.old self.new) }
        ensures memory { IfErr result (λ fault. fault ≡ Memory) }
        ensures err { OnErr result (self.new ≡ self.old) }
    {
        if self.next == u64::MAX {
            return Err(TreeFault::Memory);
        }
        let inode = self.next;
        let node = self.new_node(alloc, kind, at, name);
        match self.nodes.add(alloc, at, name, inode, node) {
            Ok(()) => {
                self.next += 1;
                self.count += 1;
                Ok(inode)
            }
            Err(_) => Err(TreeFault::Memory),
        }
    }

    /// Why an entry can't be made.
    #[tactic(auto, unfolding(crate::specs::Making::make_refused))]
    fn make_refusal(&self, at: Inode, name: &[u8], ends: bool) -> Option<Errno>
        ensures { result ≡ make_refused self.now.nodes at name.now ends }
    {
        if name.len() > NAME_LIMIT {
            return Some(Errno::ENAMETOOLONG);
        }
        self.nodes.refusal(at, name, ends, self.count)
    }

    /// A new entry for a name in a directory.
    fn new_node(&self, alloc: Global, kind: Kind, at: Inode, name: &[u8]) -> Node
        requires { path_below (path_by (node_in self.now.nodes at)) name.now ≤ 4095 }
        ensures { result ≡ node_made kind (record { at = at; name = name.now }) self.now.nodes }
    {
        match kind {
            Kind::File => Node::new_file(alloc),
            Kind::Dir => Node::new_directory(alloc, at, self.nodes.path_below(at, name) as u16),
        }
    }

    /// Takes a file away, or with `dir` an empty directory. Its cost is that of two walks. What isn't held is freed, which may
    /// cost in its bytes once more. It takes no memory.
    pub fn unlink(&mut self, from: Inode, path: &[u8], dir: bool) -> Result<(), Errno>
        requires { Has self.old from }
        ensures answers { AnswersAlways result (unlinked from path.now dir self.old) self.old self.new }
        ensures taken { OnOk result ((inode : ℕ) → walked self.old from path.now ≡ Ok inode → IsTaken inode self.old self.new) }
        ensures unnamed { OnOk result ((inode : ℕ) → walked self.old from path.now ≡ Ok inode → IsUnnamed from path.now inode self.old self.new) }
        ensures kinds { OnOk result (HeldStay self.old self.new) }
        ensures holds { OnOk result (HoldsStay self.old self.new) }
        ensures gone { OnOk result (walked self.new from path.now ≡ Err ENOENT) }
    {
        match self.walk(from, path) {
            Ok(inode) => self.unlink_found(from, path, dir, inode),
            Err(errno) => Err(errno),
        }
    }

    /// Takes away what a path leads to.
    fn unlink_found(
        &mut self,
        from: Inode,
        path: &[u8],
        dir: bool,
        inode: Inode,
    ) -> Result<(), Errno>
        requires { walked self.old from path.now ≡ Ok inode }
        ensures answers { AnswersAlways result (unlinked from path.now dir self.old) self.old self.new }
        ensures taken { OnOk result (IsTaken inode self.old self.new) }
        ensures unnamed { OnOk result (IsUnnamed from path.now inode self.old self.new) }
        ensures gone { OnOk result (walked self.new from path.now ≡ Err ENOENT) }
    {
        match self.spot(from, path) {
            Ok((at, name)) => match self.unlink_refusal(inode, name, dir) {
                Some(errno) => Err(errno),
                None => {
                    self.take(at, name, inode);
                    Ok(())
                }
            },
            Err(errno) => Err(errno),
        }
    }

    /// Takes an entry away that nothing refuses.
    fn take(&mut self, at: Inode, name: &[u8], inode: Inode)
        requires entry { IsEntry self.old.nodes at name.now inode }
        requires can { IsTakeable self.old.nodes name.now inode }
        ensures nodes { self.new ≡ record { nodes = with_unlinked at name.now inode self.old.nodes; next = self.old.next } }
        ensures taken { IsTaken inode self.old self.new }
        ensures unnamed { LosesName (record { at = at; name = name.now }) inode self.old self.new }
        ensures loses { Loses (record { at = at; name = name.now }) self.old self.new }
    {
        let size = self.nodes.size(inode) as u64;
        self.nodes.unlink(at, name, inode);
        self.count -= 1;
        self.bytes -= size;
    }

    /// Why what a path leads to can't be taken away, by its last name.
    #[tactic(auto, unfolding(crate::specs::Unlinking::unlink_refused))]
    fn unlink_refusal(&self, inode: Inode, name: &[u8], dir: bool) -> Option<Errno>
        ensures { result ≡ unlink_refused dir name.now (node_in self.now.nodes inode) }
    {
        if name.is_empty() {
            return Some(if dir { Errno::EBUSY } else { Errno::EISDIR });
        }
        if is_dot(name) {
            return Some(if dir { Errno::EINVAL } else { Errno::EISDIR });
        }
        if is_dots(name) {
            return Some(if dir { Errno::ENOTEMPTY } else { Errno::EISDIR });
        }
        self.nodes.removal_refusal(inode, dir)
    }

    /// What an entry is.
    #[tactic(auto, unfolding(crate::specs::Nodes::kind_in))]
    pub fn kind(&self, node: Inode) -> Kind
        requires { Has self.now node }
        ensures { kind_in self.now node ≡ Some result }
    {
        match self.nodes.get(node) {
            Some(node) => node.kind(),
            None => unreachable!(),
        }
    }

    /// The number of a file's bytes, 0 for a directory.
    pub fn size(&self, node: Inode) -> u64
        requires { Has self.now node }
        ensures size { result ≡ length (file_bytes self.now.nodes node) }
        ensures small { result ≤ 16777216 }
    {
        self.nodes.size(node) as u64
    }

    /// The names of a directory, in rising order of their bytes, so that each stands there once. Each leads, as a path from
    /// the directory, to its inode. Its cost is in their bytes, and so is its memory.
    pub fn names(&self, alloc: Global, dir: Inode) -> Result<Vec<Text>, AllocError>
        requires { kind_in self.now dir ≡ Some Dir }
        ensures names { IfOk result (λ names. names.items ≡ keys_of (names_in self.now.nodes dir)) }
        ensures rising { AreRising (names_in self.now.nodes dir) }
        ensures leads { (name : List ℕ) (inode : ℕ) → entry_named name (names_in self.now.nodes dir) ≡ Some inode → walked self.now dir name ≡ Ok inode }
    {
        match self.nodes.get(dir) {
            Some(node) => node.names(alloc),
            None => Ok(Vec::new(alloc)),
        }
    }

    /// A file's bytes from an offset on, at most so many, as they stand in the tree. It takes constant time.
    pub fn part(&self, file: Inode, offset: u64, size: u64) -> &[u8]
        requires { kind_in self.now file ≡ Some File }
        ensures { result.now ≡ read_from offset size (file_bytes self.now.nodes file) }
    {
        match self.nodes.get(file) {
            Some(node) => node.part(offset, size),
            None => &[],
        }
    }

    /// Copies a file's bytes from an offset on, and tells how many. Its cost is in their number.
    pub fn read_at(&self, file: Inode, offset: u64, into: &mut [u8]) -> usize
        requires { kind_in self.now file ≡ Some File }
        ensures count { result ≡ length (read_from offset (length into.old) (file_bytes self.now.nodes file)) }
        ensures read { into.new ≡ read_from offset (length into.old) (file_bytes self.now.nodes file) ++ drop result into.old }
    {
        match self.nodes.get(file) {
            Some(node) => node.read_at(offset, into),
            None => 0,
        }
    }

    /// Writes bytes into a file from an offset on, whole or not at all. Its cost is in the number of bytes and of the zeros in
    /// front of them, amortised where the file grows: its room at least doubles where it is too small, and never shrinks.
    pub fn write_at(&mut self, file: Inode, offset: u64, bytes: &[u8]) -> Result<(), TreeFault>
        requires { kind_in self.old file ≡ Some File }
        ensures answers { Answers result (written file offset bytes.now self.old) self.old self.new }
        ensures filled { OnOk result (IsFilled file self.old self.new) }
    {
        let size = written_size(self.nodes.size(file) as u64, offset, bytes.len());
        match self.total_with(file, size) {
            Ok(total) => match self.nodes.overwrite(file, offset as usize, bytes) {
                Ok(()) => {
                    self.bytes = total;
                    Ok(())
                }
                Err(_) => Err(TreeFault::Memory),
            },
            Err(errno) => Err(TreeFault::Errno(errno)),
        }
    }

    /// Cuts a file, or fills it up with zeros. Its cost is in the number of bytes that go or come, amortised as that of a
    /// write. A cut takes no memory.
    pub fn truncate(&mut self, file: Inode, size: u64) -> Result<(), TreeFault>
        requires { kind_in self.old file ≡ Some File }
        ensures answers { Answers result (truncated file size self.old) self.old self.new }
        ensures filled { OnOk result (IsFilled file self.old self.new) }
    {
        match self.total_with(file, cut_size(size)) {
            Ok(total) => match self.nodes.resize(file, size as usize) {
                Ok(()) => {
                    self.bytes = total;
                    Ok(())
                }
                Err(_) => Err(TreeFault::Memory),
            },
            Err(errno) => Err(TreeFault::Errno(errno)),
        }
    }

    /// How many bytes all linked files have after a file gets a size.
    fn total_with(&self, file: Inode, size: Option<u64>) -> Result<u64, Errno>
        requires { IfSome size (λ size. size ≤ 16777216) }
        ensures { result ≡ total_after (linked_by (node_in self.now.nodes file)) (length (file_bytes self.now.nodes file)) (tree_bytes self.now.nodes) size }
    {
        match size {
            None => Err(Errno::EFBIG),
            Some(size) => {
                if !self.nodes.is_linked(file) {
                    return Ok(self.bytes);
                }
                let total = self.bytes - self.nodes.size(file) as u64 + size;
                if total > TREE_LIMIT {
                    return Err(Errno::ENOSPC);
                }
                Ok(total)
            }
        }
    }

    /// Holds an entry once more. It takes no memory.
    #[tactic(auto, unfolding(crate::specs::Holds::held))]
    pub fn hold(&mut self, node: Inode)
        requires { Has self.old node }
        ensures tree { self.new ≡ held node self.old }
        ensures held { IsHeld node self.old self.new }
    {
        self.nodes.hold(node);
    }

    /// Holds an entry once less. One that was unlinked goes with its last hold, and is freed. It takes no memory.
    #[tactic(auto, unfolding(crate::specs::Holds::released))]
    pub fn release(&mut self, node: Inode)
        requires { 0 < holds_in self.old node }
        ensures tree { self.new ≡ released node self.old }
        ensures released { IsReleased node self.old self.new }
    {
        self.nodes.release(node);
    }
}

/// Whether a path ends in a slash where it may not.
fn is_refused_slash(kind: Kind, path: &[u8]) -> bool
    ensures { result ≡ slash_refused kind path.now }
{
    match kind {
        Kind::File => ends_in_slash(path),
        Kind::Dir => false,
    }
}

/// The size of a file after a write, if it isn't too big.
fn written_size(size: u64, offset: u64, count: usize) -> Option<u64>
    requires { size ≤ 16777216 }
    ensures size { result ≡ fitting (size_written size offset count) }
    ensures small { IfSome result (λ size. size ≤ 16777216) }
{
    if count == 0 {
        return Some(size);
    }
    match offset.checked_add(count as u64) {
        Some(end) => cut_size(end.max(size)),
        None => None,
    }
}

/// A size, if it isn't too big.
fn cut_size(size: u64) -> Option<u64>
    ensures size { result ≡ fitting size }
    ensures small { IfSome result (λ size. size ≤ 16777216) }
{
    if size > FILE_LIMIT {
        return None;
    }
    Some(size)
}
