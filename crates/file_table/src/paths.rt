//! The directory from which a path is walked, and the calls on paths alone.

ghost use Rattle.std.specs.Prelude.{◌≡◌, Option, Some, None, Result, Ok, Err, IfOk};
ghost use Rattle.file_tree.specs.declared.kind.Kind.TheVariants.{Dir};
ghost use Rattle.file_tree.specs.Nodes.{Has, kind_in};
ghost use Rattle.file_tree.specs.Paths.{is_absolute as absolute};
ghost use Rattle.file_table.specs.Due.{Leaves, LeavesAlways};
ghost use Rattle.file_table.specs.Paths.{base, dir_of, directory_in, natural, with_dir, without};
ghost use Rattle.file_table.specs.Sound.{IsThere};

use crate::fault::FileFault;
use crate::files::Files;
use crate::state::Target;
use file_tree::{Errno, Inode, Kind, TreeFault};
use std::alloc::Global;

/// The root of the tree, in the place of a descriptor.
const AT_ROOT: i64 = -100;

impl Files {
    /// The directory that a descriptor names; -100 is the root. It costs a look-up of an entry.
    ///
    /// It is refused with `EBADF` where the descriptor isn't open, then with `ENOTDIR` where it names no directory.
    ///
    /// References: openat(2).
    #[tactic(auto, unfolding(crate::specs::Paths::dir_of))]
    pub fn dir_of(&self, dir: i64) -> Result<Inode, Errno>
        ensures inode { result ≡ dir_of dir self.now }
        ensures kind { IfOk result (λ inode. kind_in self.now.tree inode ≡ Some Dir) }
        ensures there { IfOk result (λ inode. Has self.now.tree inode) }
    {
        if dir == AT_ROOT {
            let _ = &self.tree;
            return Ok(1);
        }
        match natural(dir) {
            Some(fd) => match self.open_as(fd) {
                Some((_, it)) => self.directory(it.target),
                None => Err(Errno::EBADF),
            },
            None => Err(Errno::EBADF),
        }
    }

    /// The directory that a description is open for.
    fn directory(&self, target: Target) -> Result<Inode, Errno>
        requires { IsThere self.now.tree self.now.devices self.now.pipes target }
        ensures inode { result ≡ directory_in self.now.tree target }
        ensures kind { IfOk result (λ inode. kind_in self.now.tree inode ≡ Some Dir) }
        ensures there { IfOk result (λ inode. Has self.now.tree inode) }
    {
        match target {
            Target::Node(inode) => match self.tree.kind(inode) {
                Kind::Dir => Ok(inode),
                Kind::File => Err(Errno::ENOTDIR),
            },
            Target::Device(_) | Target::Pipe { .. } => Err(Errno::ENOTDIR),
        }
    }

    /// Where a path begins: at the root, or at the directory that a descriptor names. It costs a look-up of an entry.
    ///
    /// It is refused as `dir_of` is, where the path isn't absolute.
    ///
    /// References: openat(2).
    pub fn base(&self, dir: i64, path: &[u8]) -> Result<Inode, Errno>
        ensures inode { result ≡ base dir path.now self.now }
        ensures there { IfOk result (λ inode. Has self.now.tree inode) }
    {
        if is_absolute(path) {
            let _ = &self.tree;
            return Ok(1);
        }
        self.dir_of(dir)
    }

    /// Makes an empty directory, from the directory that a descriptor names on. Its cost is that of a walk; its memory is
    /// that of the entry and its name.
    ///
    /// It is refused as `dir_of` is, where the path isn't absolute, and then as the tree refuses it.
    ///
    /// References: mkdirat(2).
    #[tactic(auto, unfolding(crate::specs::Paths::with_dir))]
    pub fn make_dir(&mut self, alloc: Global, dir: i64, path: &[u8]) -> Result<(), FileFault>
        ensures { Leaves result (with_dir dir path.now self.old) self.old self.new }
    {
        match self.base(dir, path) {
            Ok(from) => match self.tree.create_dir(alloc, from, path) {
                Ok(_) => Ok(()),
                Err(TreeFault::Errno(errno)) => Err(FileFault::Errno(errno)),
                Err(TreeFault::Memory) => Err(FileFault::Memory),
            },
            Err(errno) => Err(FileFault::Errno(errno)),
        }
    }

    /// Takes a file away, or an empty directory where one is asked for, from the directory that a descriptor names on. What
    /// is open stays with its bytes until it is closed. Its cost is that of two walks, and it takes no memory.
    ///
    /// It is refused as `dir_of` is, where the path isn't absolute, and then as the tree refuses it.
    ///
    /// References: unlinkat(2).
    #[tactic(auto, unfolding(crate::specs::Paths::without))]
    pub fn unlink(&mut self, dir: i64, path: &[u8], directory: bool) -> Result<(), Errno>
        ensures { LeavesAlways result (without dir path.now directory self.old) self.old self.new }
    {
        match self.base(dir, path) {
            Ok(from) => match self.tree.unlink(from, path, directory) {
                Ok(()) => Ok(()),
                Err(errno) => Err(errno),
            },
            Err(errno) => Err(errno),
        }
    }
}

/// A number from 0 on.
fn natural(number: i64) -> Option<u64>
    ensures { result ≡ natural number }
{
    if number < 0 {
        return None;
    }
    Some(number as u64)
}

/// Whether a path begins at the root.
fn is_absolute(path: &[u8]) -> bool
    ensures { result ≡ absolute path.now }
{
    match path {
        [first, ..] => *first == b'/',
        [] => false,
    }
}
