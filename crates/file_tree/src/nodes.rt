ghost use Rattle.std.specs.Prelude.{◌≡◌, ◌+◌, ◌^◌, ◌<◌, if◌then◌else◌, None, Ok, Err, [], ◌∷◌, length, IfOk, MatchResult, OnOk, OnErr};
ghost use Rattle.std.specs.Option.{option_copied};

use crate::errno::Errno;
use crate::node::{NAME_LIMIT, Node};
use crate::path::{ends_in_slash, first_name};
use std::alloc::{AllocError, Global};
use std::collections::BTreeMap;
use std::marker::Model;

/// The entries of a tree by their inodes.
#[derive(Drop)]
pub struct Nodes {
    map: BTreeMap<u64, Node>,
}

impl Model for Nodes {
    ghost use Rattle.std.specs.Prelude.{ℕ, List};
    ghost use Rattle.file_tree.specs.declared.node.Node.{Node};

    ghost Value = { List (ℕ × Node) };

    ghost view = { λ nodes. nodes.map.entries };
}

impl Clone for Nodes {
    ghost is_clone = { λ nodes copy. copy ≡ nodes };

    fn clone(&self) -> Result<Nodes, AllocError> {
        Ok(Nodes {
            map: self.map.clone()?,
        })
    }
}

impl Nodes {
    ghost use Rattle.file_tree.specs.Nodes.{node_in, with_node, new_directory, file_bytes, path_by, holds_by, linked_by};
    ghost use Rattle.file_tree.specs.Paths.{names, dot, ends_in_slash as ends};
    ghost use Rattle.file_tree.specs.Walk.{step, follow, spotted};
    ghost use Rattle.file_tree.specs.Making.{refused_at, named_by, with_made, path_below as below};
    ghost use Rattle.file_tree.specs.Unlinking.{unnamed, marked_by, gone, with_unlinked, entry_refused};
    ghost use Rattle.file_tree.specs.Files.{with_bytes, overwritten, resized};
    ghost use Rattle.file_tree.specs.Holds.{held_by, lowered_by, goes_by, released_by};

    /// The root alone.
    pub(crate) fn new(alloc: Global) -> Result<Nodes, AllocError>
        ensures { IfOk result (λ nodes. nodes ≡ (1, new_directory 1 0) ∷ []) }
    {
        let mut map = BTreeMap::new(alloc);
        match map.insert(1, Node::new_directory(alloc, 1, 0)) {
            Ok(_) => Ok(Nodes { map }),
            Err(_) => Err(AllocError),
        }
    }

    /// An entry.
    pub(crate) fn get(&self, inode: u64) -> Option<&Node>
        ensures { option_copied result ≡ node_in self.now inode }
    {
        self.map.get(&inode)
    }

    /// One part of a path.
    #[tactic(auto, unfolding(crate::specs::Walk::step))]
    pub(crate) fn step(&self, at: u64, part: &[u8]) -> Result<u64, Errno>
        ensures { result ≡ step self.now at part.now }
    {
        if part.len() > NAME_LIMIT {
            return Err(Errno::ENAMETOOLONG);
        }
        match self.get(at) {
            Some(node) => node.step(at, part),
            None => Err(Errno::ENOENT),
        }
    }

    /// The names of a path one after another.
    #[tactic(auto, unfolding(crate::specs::Walk::follow))]
    pub(crate) fn follow(&self, from: u64, path: &[u8]) -> Result<u64, Errno>
        ensures { result ≡ follow self.now from (names path.now) }
    {
        let mut at = from;
        let mut rest = path;
        while let Some((name, behind)) = first_name(rest) {
            at = self.step(at, name)?;
            rest = behind;
        }
        Ok(at)
    }

    /// `.` behind the names of a path that ends in a slash.
    pub(crate) fn finish(&self, at: u64, path: &[u8]) -> Result<u64, Errno>
        ensures { result ≡ follow self.now at (if ends path.now then dot ∷ [] else []) }
    {
        if ends_in_slash(path) {
            return self.step(at, b".");
        }
        Ok(at)
    }

    /// The directory in which the last name of a path stands, and this name, which is empty where the path has none.
    #[tactic(auto, unfolding(crate::specs::Walk::spotted))]
    pub(crate) fn spot<'a>(&self, from: u64, path: &'a [u8]) -> Result<(u64, &'a [u8]), Errno>
        ensures { MatchResult result (λ spot. spotted self.now from (names path.now) ≡ Ok (record { at = spot.0; name = spot.1.now })) (λ errno. spotted self.now from (names path.now) ≡ Err errno) }
    {
        let mut at = from;
        let Some((mut name, mut rest)) = first_name(path) else {
            return Ok((at, &[]));
        };
        while let Some((next, behind)) = first_name(rest) {
            at = self.step(at, name)?;
            name = next;
            rest = behind;
        }
        Ok((at, name))
    }

    /// Why a name can't be made in a directory.
    pub(crate) fn refusal(&self, at: u64, name: &[u8], ends: bool, count: u64) -> Option<Errno>
        ensures { result ≡ refused_at at (node_in self.now at) name.now ends count }
    {
        match self.get(at) {
            Some(node) => node.refusal(at, name, ends, count),
            None => Some(Errno::ENOENT),
        }
    }

    /// How many bytes the path from the root of a name in a directory has.
    pub(crate) fn path_below(&self, at: u64, name: &[u8]) -> usize
        ensures { result ≡ below (path_by (node_in self.now at)) name.now }
    {
        match self.get(at) {
            Some(node) => node.path_below(name),
            None => name.len(),
        }
    }

    /// Why an entry can't be taken away.
    pub(crate) fn removal_refusal(&self, inode: u64, wants: bool) -> Option<Errno>
        ensures { result ≡ entry_refused wants (node_in self.now inode) }
    {
        match self.get(inode) {
            Some(node) => node.removal_refusal(wants),
            None => Some(Errno::ENOENT),
        }
    }

    /// The number of a file's bytes, 0 for a directory.
    pub(crate) fn size(&self, inode: u64) -> usize
        ensures { result ≡ length (file_bytes self.now inode) }
    {
        match self.get(inode) {
            Some(node) => node.size(),
            None => 0,
        }
    }

    /// Whether an entry is linked.
    pub(crate) fn is_linked(&self, inode: u64) -> bool
        ensures { result ≡ linked_by (node_in self.now inode) }
    {
        match self.get(inode) {
            Some(node) => node.linked,
            None => false,
        }
    }

    /// Gives an entry a name in a directory.
    fn link(&mut self, at: u64, name: Vec<u8>, inode: u64) -> Result<(), AllocError>
        ensures ok { OnOk result (self.new ≡ named_by at name.items inode (node_in self.old at) self.old) }
        ensures err { OnErr result (self.new ≡ self.old) }
    {
        match self.map.get_mut(&at) {
            Some(node) => node.link(name, inode),
            None => Ok(()),
        }
    }

    /// Puts a new entry in, with its name in a directory.
    pub(crate) fn add(
        &mut self,
        alloc: Global,
        at: u64,
        name: &[u8],
        inode: u64,
        node: Node,
    ) -> Result<(), AllocError>
        requires { node_in self.old inode ≡ None }
        ensures ok { OnOk result (self.new ≡ with_made at name.now inode node self.old) }
        ensures err { OnErr result (self.new ≡ self.old) }
    {
        let name = Vec::from_slice(alloc, name)?;
        self.put(inode, node)?;
        match self.link(at, name, inode) {
            Ok(()) => Ok(()),
            Err(error) => {
                let _ = self.map.remove(&inode);
                Err(error)
            }
        }
    }

    /// Puts a new entry in.
    fn put(&mut self, inode: u64, node: Node) -> Result<(), AllocError>
        ensures ok { OnOk result (self.new ≡ with_node inode node self.old) }
        ensures err { OnErr result (self.new ≡ self.old) }
    {
        match self.map.insert(inode, node) {
            Ok(_) => Ok(()),
            Err(_) => Err(AllocError),
        }
    }

    /// Takes a name out of a directory.
    fn unname(&mut self, at: u64, name: &[u8])
        ensures { self.new ≡ unnamed at name.now self.old }
    {
        match self.map.get_mut(&at) {
            Some(node) => node.unname(name),
            None => {}
        }
    }

    /// Keeps an entry that has lost its name.
    fn mark(&mut self, inode: u64)
        ensures { self.new ≡ marked_by inode (node_in self.old inode) self.old }
    {
        match self.map.get_mut(&inode) {
            Some(node) => node.linked = false,
            None => {}
        }
    }

    /// Lets an entry go that has lost its name, unless it is held.
    fn let_go(&mut self, inode: u64)
        ensures { self.new ≡ gone inode self.old }
    {
        if self.holds(inode) == 0 {
            let _ = self.map.remove(&inode);
        } else {
            self.mark(inode);
        }
    }

    /// How often an entry is held.
    pub(crate) fn holds(&self, inode: u64) -> u64
        ensures { result ≡ holds_by (node_in self.now inode) }
    {
        match self.get(inode) {
            Some(node) => node.holds,
            None => 0,
        }
    }

    /// Takes a name away, and what it leads to.
    #[tactic(auto, unfolding(crate::specs::Unlinking::with_unlinked))]
    pub(crate) fn unlink(&mut self, at: u64, name: &[u8], inode: u64)
        ensures { self.new ≡ with_unlinked at name.now inode self.old }
    {
        self.unname(at, name);
        self.let_go(inode);
    }

    /// Cuts a file's bytes, or fills them up with zeros.
    pub(crate) fn resize(&mut self, inode: u64, size: usize) -> Result<(), AllocError>
        ensures ok { OnOk result (self.new ≡ with_bytes inode (resized size (file_bytes self.old inode)) self.old) }
        ensures err { OnErr result (self.new ≡ self.old) }
    {
        match self.map.get_mut(&inode) {
            Some(node) => node.resize(size),
            None => Ok(()),
        }
    }

    /// Writes bytes over those of a file from an offset on.
    pub(crate) fn overwrite(
        &mut self,
        inode: u64,
        offset: usize,
        bytes: &[u8],
    ) -> Result<(), AllocError>
        requires { offset + length bytes.now < 2 ^ 64 }
        ensures ok { OnOk result (self.new ≡ with_bytes inode (overwritten offset bytes.now (file_bytes self.old inode)) self.old) }
        ensures err { OnErr result (self.new ≡ self.old) }
    {
        match self.map.get_mut(&inode) {
            Some(node) => node.overwrite(offset, bytes),
            None => Ok(()),
        }
    }

    /// Holds an entry once more.
    pub(crate) fn hold(&mut self, inode: u64)
        ensures { self.new ≡ held_by inode (node_in self.old inode) self.old }
    {
        match self.map.get_mut(&inode) {
            Some(node) => node.holds = node.holds.saturating_add(1),
            None => {}
        }
    }

    /// Lowers the holds of an entry.
    fn lower(&mut self, inode: u64)
        ensures { self.new ≡ lowered_by inode (node_in self.old inode) self.old }
    {
        match self.map.get_mut(&inode) {
            Some(node) => node.holds = node.holds.saturating_sub(1),
            None => {}
        }
    }

    /// Holds an entry once less. One that was unlinked goes with its last hold.
    pub(crate) fn release(&mut self, inode: u64)
        ensures { self.new ≡ released_by inode (node_in self.old inode) self.old }
    {
        if self.goes(inode) {
            let _ = self.map.remove(&inode);
        } else {
            self.lower(inode);
        }
    }

    /// Whether an entry goes with its next release.
    fn goes(&self, inode: u64) -> bool
        ensures { result ≡ goes_by (node_in self.now inode) }
    {
        match self.get(inode) {
            Some(node) => node.holds == 1 && !node.linked,
            None => false,
        }
    }
}
