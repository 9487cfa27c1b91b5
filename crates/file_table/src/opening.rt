//! The start, and the opening of files.

ghost use Rattle.std.specs.Prelude.{◌≡◌, ℕ, ◌+◌, ◌-◌, replicate, ◌<◌, ◌≤◌, length, vec_capacity, true, Some, None, Ok, IfOk, IfSome};
ghost use Rattle.file_table.specs.declared.state.Target.TheVariants as targets;
ghost use Rattle.file_table.specs.Descriptors.{lone_of};
ghost use Rattle.file_tree.specs.declared.kind.Kind.TheVariants.{File};
ghost use Rattle.file_tree.specs.Making.{made};
ghost use Rattle.file_tree.specs.Nodes.{Has, kind_in, holds_in};
ghost use Rattle.file_table.specs.Due.{Answers, LeavesTree};
ghost use Rattle.file_table.specs.Flags.{are_wrong, changes, has, kept};
ghost use Rattle.file_table.specs.Opening.{bare, device_description, new_device, open_from, open_kind, open_made, open_there, opened, standing, started, target_description, vacant, with_devices, with_opened, with_target};
ghost use Rattle.file_table.specs.Sound.{AreReady};
ghost use Rattle.file_table.specs.State.{at, is_open_by, put};

use crate::descriptors::free_place;
use crate::fault::FileFault;
use crate::files::{COUNT, Files};
use crate::moving::can_write;
use crate::pipes::Input;
use crate::state::{Description, Descriptor, Device, Target};
use bitflags::Flags;
use call_table::OpenFlags;
use file_tree::{Errno, Inode, Kind, Tree, TreeFault};
use le_fields::Bytes;
use std::alloc::{AllocError, Global};

/// A file that is missing is made.
const CREATE: u64 = 0x40;

/// It is refused where the file is there.
const EXCLUSIVE: u64 = 0x80;

/// The file becomes empty.
const TRUNCATE: u64 = 0x200;

/// It is refused where it isn't a directory.
const DIRECTORY: u64 = 0x10000;

/// The descriptor is closed by execve.
const CLOSE_ON_EXEC: u64 = 0x80000;

/// The place in the tree alone.
const PATH: u64 = 0x200000;

/// A file without a name.
const TEMPORARY: u64 = 0x400000;

/// What a description keeps of the flags.
const KEPT: u64 = 0x38C03;

impl Files {
    /// The table of a process that begins: descriptor d names device d, for reading and writing. Where a file is given,
    /// descriptor 0 names it, for reading alone. There are `devices` devices, at most 8. It costs by the number of
    /// descriptors, and so does its memory.
    ///
    /// References: stdin(3). That each device has a descriptor of its number is the project's own.
    pub fn new(
        alloc: Global,
        tree: Tree,
        devices: usize,
        input: Option<Inode>,
    ) -> Result<Files, AllocError>
        requires few { devices ≤ 8 }
        requires free { (inode : ℕ) → holds_in tree inode ≡ 0 }
        requires input { IfSome input (λ inode. kind_in tree inode ≡ Some File) }
        ensures { IfOk result (λ files. files ≡ started tree devices input) }
    {
        let mut files = Files::bare(alloc, tree, devices)?;
        match input {
            Some(inode) => {
                files.open_node(0, inode, 0);
                files.stand_all(1, devices);
                Ok(files)
            }
            None => {
                files.stand_all(0, devices);
                Ok(files)
            }
        }
    }

    /// No descriptor is open.
    #[tactic(auto, unfolding(crate::specs::Opening::bare))]
    fn bare(alloc: Global, tree: Tree, devices: usize) -> Result<Files, AllocError>
        requires { (inode : ℕ) → holds_in tree inode ≡ 0 }
        ensures { IfOk result (λ files. files ≡ bare tree devices) }
    {
        let _ = tree.root();
        let descriptors = free_places(alloc, COUNT)?;
        let descriptions = Vec::with_capacity(alloc, COUNT)?;
        let devices = new_devices(alloc, devices)?;
        Ok(Files {
            tree,
            descriptors,
            descriptions,
            devices,
            pipes: Vec::new(alloc),
        })
    }

    /// Devices, each with a descriptor of its number, from one on.
    fn stand_all(&mut self, first: usize, devices: usize)
        requires few { devices ≤ 8 }
        requires ready { AreReady first devices self.old }
        ensures { self.new ≡ with_devices first (devices - first) self.old }
    {
        let mut device = first;
        'standing: while device < devices {
            self.stand(device);
            device += 1;
        }
    }

    /// A device with a descriptor of its number.
    fn stand(&mut self, device: usize)
        requires low { device < 256 }
        requires ready { AreReady device (device + 1) self.old }
        ensures { self.new ≡ standing device (device_description device) self.old }
    {
        self.descriptors[device] = Some(Descriptor {
            description: device,
            close_on_exec: false,
        });
        put(
            &mut self.descriptions,
            device,
            Description {
                target: Target::Device(device),
                flags: 2,
                offset: 0,
            },
        );
    }

    /// Opens what a path leads to, from the directory that a descriptor names on, and tells the descriptor, which is the
    /// least that is free. A file that is missing is made, where the flags say so. Its cost is that of a walk, and that of
    /// looking at each descriptor and description; its memory is that of an entry that is made.
    ///
    /// It is refused with `EINVAL` where the flags have both access bits, or want a place or a file without a name, then with
    /// `EBADF` where the path isn't absolute and the descriptor isn't open, then with `EMFILE` where no descriptor is free,
    /// and then as the tree refuses the path; with `EEXIST` where the file is there and must not be, with `EISDIR` where a
    /// directory would be changed, and with `ENOTDIR` where a directory is wanted and there is none.
    ///
    /// References: open(2), openat(2).
    #[tactic(auto, unfolding(crate::specs::Opening::opened))]
    pub fn open_at(
        &mut self,
        alloc: Global,
        dir: i64,
        path: &[u8],
        flags: OpenFlags,
    ) -> Result<u32, FileFault>
        ensures { Answers result (opened dir path.now flags.0 self.old) self.old self.new }
    {
        let flags = flags.bits();
        if are_wrong(flags) {
            return Err(FileFault::Errno(Errno::EINVAL));
        }
        match self.base(dir, path) {
            Ok(from) => match self.free(0) {
                Some(fd) => self.open_from(alloc, fd, from, path, flags),
                None => Err(FileFault::Errno(Errno::EMFILE)),
            },
            Err(Errno::EBADF) => Err(FileFault::Errno(Errno::EBADF)),
            Err(errno) => match self.free(0) {
                Some(_) => Err(FileFault::Errno(errno)),
                None => Err(FileFault::Errno(Errno::EMFILE)),
            },
        }
    }

    /// Opens what a path leads to as a descriptor that is free.
    fn open_from(
        &mut self,
        alloc: Global,
        fd: usize,
        from: Inode,
        path: &[u8],
        flags: u64,
    ) -> Result<u32, FileFault>
        requires low { fd < 256 }
        requires free { at self.old.descriptors fd ≡ None }
        requires there { Has self.old.tree from }
        ensures { Answers result (open_from from path.now flags fd self.old) self.old self.new }
    {
        match self.tree.walk(from, path) {
            Ok(inode) => self.open_there(fd, inode, flags),
            Err(Errno::ENOENT) => {
                if !has(flags, CREATE) {
                    return Err(FileFault::Errno(Errno::ENOENT));
                }
                self.open_made(alloc, fd, from, path, flags)
            }
            Err(errno) => Err(FileFault::Errno(errno)),
        }
    }

    /// Opens an entry of the tree.
    fn open_there(&mut self, fd: usize, inode: Inode, flags: u64) -> Result<u32, FileFault>
        requires low { fd < 256 }
        requires free { at self.old.descriptors fd ≡ None }
        requires there { Has self.old.tree inode }
        ensures { Answers result (open_there fd inode flags self.old) self.old self.new }
    {
        if has(flags, CREATE) && has(flags, EXCLUSIVE) {
            return Err(FileFault::Errno(Errno::EEXIST));
        }
        match self.tree.kind(inode) {
            Kind::File => self.open_file(fd, inode, flags),
            Kind::Dir => {
                if changes(flags) {
                    return Err(FileFault::Errno(Errno::EISDIR));
                }
                self.open_node(fd, inode, flags);
                Ok(fd as u32)
            }
        }
    }

    /// Opens a file.
    fn open_file(&mut self, fd: usize, file: Inode, flags: u64) -> Result<u32, FileFault>
        requires low { fd < 256 }
        requires free { at self.old.descriptors fd ≡ None }
        requires kind { kind_in self.old.tree file ≡ Some File }
        ensures { Answers result (open_kind (Some File) fd file flags self.old) self.old self.new }
    {
        if has(flags, DIRECTORY) {
            return Err(FileFault::Errno(Errno::ENOTDIR));
        }
        if !has(flags, TRUNCATE) {
            self.open_node(fd, file, flags);
            return Ok(fd as u32);
        }
        match self.resize(file, 0) {
            Ok(()) => {
                self.open_node(fd, file, flags);
                Ok(fd as u32)
            }
            Err(fault) => Err(fault),
        }
    }

    /// Makes a file, and opens it.
    fn open_made(
        &mut self,
        alloc: Global,
        fd: usize,
        from: Inode,
        path: &[u8],
        flags: u64,
    ) -> Result<u32, FileFault>
        requires low { fd < 256 }
        requires free { at self.old.descriptors fd ≡ None }
        requires there { Has self.old.tree from }
        ensures { Answers result (open_made from path.now flags fd self.old) self.old self.new }
    {
        if has(flags, DIRECTORY) {
            return Err(FileFault::Errno(Errno::ENOTDIR));
        }
        match self.create(alloc, from, path) {
            Ok(inode) => {
                self.open_node(fd, inode, flags);
                Ok(fd as u32)
            }
            Err(fault) => Err(fault),
        }
    }

    /// Makes a file.
    fn create(&mut self, alloc: Global, from: Inode, path: &[u8]) -> Result<Inode, FileFault>
        requires { Has self.old.tree from }
        ensures tree { LeavesTree result (made File from path.now self.old.tree) self.old self.new }
        ensures inode { IfOk result (λ inode. inode ≡ self.old.tree.next) }
        ensures there { IfOk result (λ inode. Has self.new.tree inode) }
    {
        match self.tree.create_file(alloc, from, path) {
            Ok(inode) => Ok(inode),
            Err(TreeFault::Errno(errno)) => Err(FileFault::Errno(errno)),
            Err(TreeFault::Memory) => Err(FileFault::Memory),
        }
    }

    /// Opens an entry of the tree, with a description of its own.
    fn open_node(&mut self, fd: usize, inode: Inode, flags: u64)
        requires low { fd < 256 }
        requires free { at self.old.descriptors fd ≡ None }
        requires there { Has self.old.tree inode }
        ensures { self.new ≡ with_opened fd inode flags self.old }
    {
        let number = vacant(self.descriptions.as_slice());
        self.tree.hold(inode);
        self.descriptors[fd] = Some(Descriptor {
            description: number,
            close_on_exec: has(flags, CLOSE_ON_EXEC),
        });
        put(
            &mut self.descriptions,
            number,
            target_description(Target::Node(inode), flags),
        );
    }

    /// Opens an end of a pipe, with a description of its own.
    pub(crate) fn open_end(&mut self, fd: usize, pipe: usize, writes: bool, flags: u64)
        requires low { fd < 256 }
        requires free { at self.old.descriptors fd ≡ None }
        requires there { is_open_by writes (at self.old.pipes pipe) ≡ true }
        requires fresh { (number : ℕ) → lone_of (at self.old.descriptions number) ≡ Some (targets.Pipe pipe writes) → ⊥ }
        ensures { self.new ≡ with_target fd (targets.Pipe pipe writes) flags self.old }
    {
        let number = vacant(self.descriptions.as_slice());
        self.descriptors[fd] = Some(Descriptor {
            description: number,
            close_on_exec: has(flags, CLOSE_ON_EXEC),
        });
        put(
            &mut self.descriptions,
            number,
            target_description(Target::Pipe { pipe, writes }, flags),
        );
    }
}

/// The description of what is opened.
fn target_description(target: Target, flags: u64) -> Description
    ensures { result ≡ target_description target flags }
{
    Description {
        target,
        flags: flags & KEPT,
        offset: 0,
    }
}

/// Descriptors that aren't open.
fn free_places(alloc: Global, count: usize) -> Result<Vec<Option<Descriptor>>, AllocError>
    ensures { IfOk result (λ places. places.items ≡ replicate count None) }
{
    let mut places = Vec::new(alloc);
    match places.resize(count, None) {
        Ok(()) => Ok(places),
        Err(error) => Err(error),
    }
}

/// Devices to which nothing was written.
fn new_devices(alloc: Global, count: usize) -> Result<Vec<Device>, AllocError>
    ensures { IfOk result (λ devices. devices.items ≡ replicate count new_device) }
{
    let mut devices = Vec::new(alloc);
    for index in 0..count {
        devices.push(Device {
            output: Bytes::new(alloc),
            input: Input::new(alloc)?,
            ended: false,
            live: true,
        })?;
    }
    Ok(devices)
}

/// The least number that no description has.
#[tactic(auto, using(crate::proofs::CountFacts::vacant_found, crate::proofs::CountFacts::vacant_end))]
fn vacant(places: &[Option<Description>]) -> usize
    ensures { result ≡ vacant places.now }
{
    match free_place(places, 0) {
        Some(number) => number,
        None => places.len(),
    }
}

/// Puts a description at a place, or behind the last one.
fn put(places: &mut Vec<Option<Description>>, number: usize, it: Description)
    requires behind { number ≤ length places.old.items }
    requires low { number < 256 }
    requires room { 256 ≤ vec_capacity places.old }
    ensures items { places.new.items ≡ put number it places.old.items }
    ensures room { 256 ≤ vec_capacity places.new }
{
    if number < places.len() {
        places[number] = Some(it);
        return;
    }
    places.push_reserved(Some(it));
}

/// Whether flags have a bit.
fn has(flags: u64, bit: u64) -> bool
    ensures { result ≡ has flags bit }
{
    flags & bit == bit
}

/// Whether flags can't be had.
fn are_wrong(flags: u64) -> bool
    ensures { result ≡ are_wrong flags }
{
    flags % 4 == 3 || has(flags, PATH) || has(flags, TEMPORARY)
}

/// Whether a directory would be changed by these flags.
fn changes(flags: u64) -> bool
    ensures { result ≡ changes flags }
{
    can_write(flags) || has(flags, CREATE) || has(flags, TRUNCATE)
}
