//! Descriptors: looked at, made, changed and closed.

ghost use Rattle.std.specs.Prelude.{◌≡◌, ◌≢◌, ◌<◌, ◌≤◌, ◌&&◌, not, nat_le, is_some, ℕ, true, false, drop, length, get_or, set, slice_get, Option, Some, None, IsSome, Result, Ok, Err, IfOk, IfSome, MatchOption, MatchResult};
ghost use Rattle.file_tree.specs.declared.errno.Errno.TheVariants.{EBADF, EINVAL, EMFILE};
ghost use Rattle.file_tree.specs.Nodes.{Has};
ghost use Rattle.file_table.specs.Descriptors.{another, close as closes, closed, dup as dups, dup_to as dups_to, free_from, free_place, is_named, lost, marked, names, swept, what, what_in, with_description, with_descriptor, with_flags};
ghost use Rattle.file_table.specs.Due.{AnswersAlways, LeavesAlways};
ghost use Rattle.file_table.specs.Sound.{IsThere};
ghost use Rattle.file_table.specs.State.{at, open_as};

use crate::files::{Files, at};
use crate::pipes::close_end;
use crate::state::{Description, Descriptor, Opened, Target};
use file_tree::Errno;

/// Whether a description lost its last descriptor, and was a device's.
#[derive(Clone, Copy, Debug, PartialEq, Eq)]
pub struct Closed {
    /// The number of the device.
    pub device: Option<usize>,
}

/// Whether a place is free, and isn't below the least.
fn is_free<T>(places: &[Option<T>], number: usize, least: usize) -> bool
    requires { number < length places.now }
    ensures { result ≡ (nat_le least number && not (is_some (at places.now number))) }
{
    number >= least && places[number].is_none()
}

/// The least free place at or above one.
#[tactic(auto, using(crate::proofs::DescriptorFacts::free_more, crate::proofs::DescriptorFacts::free_past))]
pub(crate) fn free_place<T>(places: &[Option<T>], least: usize) -> Option<usize>
    ensures { result ≡ free_place least places.now }
{
    let mut number = 0;
    'looking: while number < places.len() {
        if is_free(places, number, least) {
            return Some(number);
        }
        number += 1;
    }
    None
}

/// Whether a descriptor names the description.
fn names(descriptor: &Option<Descriptor>, number: usize) -> bool
    ensures { result ≡ names number descriptor.now }
{
    match descriptor {
        Some(descriptor) => descriptor.description == number,
        None => false,
    }
}

/// Whether one of these descriptors names the description. It costs by their number.
fn is_named(descriptors: &[Option<Descriptor>], number: usize) -> bool
    ensures { result ≡ is_named number descriptors.now }
{
    descriptors
        .iter()
        .any(|descriptor| names(descriptor, number))
}

impl Files {
    /// The description that a descriptor names, with its number.
    #[tactic(auto, unfolding(crate::specs::State::open_as))]
    pub(crate) fn open_as(&self, fd: u64) -> Option<(usize, Description)>
        ensures is { result ≡ open_as fd self.now }
        ensures at { IfSome result (λ it. at self.now.descriptions it.0 ≡ Some it.1) }
        ensures there { IfSome result (λ it. IsThere self.now.tree self.now.devices self.now.pipes it.1.target) }
    {
        match at(self.descriptors.as_slice(), fd) {
            Some(descriptor) => {
                match at(self.descriptions.as_slice(), descriptor.description as u64) {
                    Some(description) => Some((descriptor.description, description)),
                    None => None,
                }
            }
            None => None,
        }
    }

    /// A descriptor, if it is open.
    fn descriptor(&self, fd: u64) -> Option<Descriptor>
        ensures is { result ≡ at self.now.descriptors fd }
        ensures there { IfSome result (λ it. IsSome (at self.now.descriptions it.description)) }
        ensures low { IfSome result (λ it. fd < 256) }
    {
        at(self.descriptors.as_slice(), fd)
    }

    /// The least free descriptor at or above one.
    pub(crate) fn free(&self, least: usize) -> Option<usize>
        ensures is { result ≡ free_place least self.now.descriptors }
        ensures free { IfSome result (λ place. at self.now.descriptors place ≡ None) }
        ensures low { IfSome result (λ place. place < 256) }
        ensures least { IfSome result (λ place. least ≤ place) }
    {
        free_place(self.descriptors.as_slice(), least)
    }

    /// Puts a descriptor at a place that is free, or names the same description.
    fn put_descriptor(&mut self, fd: usize, descriptor: Descriptor)
        requires low { fd < 256 }
        requires there { IsSome (at self.old.descriptions descriptor.description) }
        requires fits { IfSome (at self.old.descriptors fd) (λ old. old.description ≡ descriptor.description) }
        ensures { self.new ≡ with_descriptor fd (Some descriptor) self.old }
    {
        self.descriptors[fd] = Some(descriptor);
    }

    /// Closes a descriptor that names the description, which goes with its last. It tells the device that goes with it.
    fn clear(&mut self, fd: usize, number: usize) -> Option<usize>
        requires { names number (at self.old.descriptors fd) ≡ true }
        ensures files { self.new ≡ swept number (with_descriptor fd None self.old) }
        ensures device { result ≡ lost number (with_descriptor fd None self.old) }
    {
        self.descriptors[fd] = None;
        if is_named(self.descriptors.as_slice(), number) {
            return None;
        }
        match at(self.descriptions.as_slice(), number as u64) {
            None => unreachable!(),
            Some(gone) => {
                self.descriptions[number] = None;
                match gone.target {
                    Target::Node(inode) => {
                        self.tree.release(inode);
                        None
                    }
                    Target::Device(device) => {
                        self.devices[device].live = false;
                        Some(device)
                    }
                    Target::Pipe { pipe, writes } => {
                        close_end(&mut self.pipes[pipe], writes);
                        None
                    }
                }
            }
        }
    }

    /// Changes a description's flags and offset.
    pub(crate) fn change(&mut self, number: usize, old: Description, flags: u64, offset: u64)
        requires { at self.old.descriptions number ≡ Some old }
        ensures { self.new ≡ with_description number (record { target = old.target; flags = flags; offset = offset }) self.old }
    {
        self.descriptions[number] = Some(Description {
            target: old.target,
            flags,
            offset,
        });
    }

    /// What a descriptor is open for, and how; nothing where it isn't open. It costs constant time.
    ///
    /// References: fcntl(2).
    #[tactic(auto, unfolding(crate::specs::Descriptors::what))]
    pub fn what(&self, fd: u64) -> Option<Opened>
        ensures what { result ≡ what fd self.now }
        ensures is_open { is_some result ≡ is_some (at self.now.descriptors fd) }
        ensures there { IfSome result (λ it. IfSome it.node (Has self.now.tree)) }
    {
        match at(self.descriptors.as_slice(), fd) {
            Some(descriptor) => {
                match at(self.descriptions.as_slice(), descriptor.description as u64) {
                    Some(it) => Some(opened(descriptor, it)),
                    None => unreachable!(),
                }
            }
            None => None,
        }
    }

    /// Makes the least free descriptor at or above one name what another names, and tells its number. It shares the offset
    /// and the flags, but not whether it is closed by execve. It costs by the number of descriptors, and takes no memory.
    ///
    /// It is refused with `EINVAL` where the least is above 255, then with `EBADF` where the descriptor isn't open, then with
    /// `EMFILE` where none is free.
    ///
    /// References: dup(2), fcntl(2).
    #[tactic(auto, unfolding(crate::specs::Descriptors::dup))]
    pub fn dup(&mut self, fd: u64, least: u64, close_on_exec: bool) -> Result<u32, Errno>
        ensures { AnswersAlways result (dups fd least close_on_exec self.old) self.old self.new }
    {
        if least > 255 {
            return Err(Errno::EINVAL);
        }
        match self.descriptor(fd) {
            Some(descriptor) => match self.free(least as usize) {
                Some(to) => {
                    self.put_descriptor(to, another(descriptor, close_on_exec));
                    Ok(to as u32)
                }
                None => Err(Errno::EMFILE),
            },
            None => Err(Errno::EBADF),
        }
    }

    /// Makes a descriptor name what another names, and tells its number. It is closed before, if it is open. It costs by the
    /// number of descriptors, and takes no memory.
    ///
    /// It is refused with `EINVAL` where both are the same, then with `EBADF` where the first isn't open, or the second is
    /// above 255.
    ///
    /// References: dup(2), dup3(2).
    #[tactic(auto, unfolding(crate::specs::Descriptors::dup_to, crate::specs::Descriptors::closed))]
    pub fn dup_to(&mut self, fd: u64, to: u64, close_on_exec: bool) -> Result<u32, Errno>
        ensures { AnswersAlways result (dups_to fd to close_on_exec self.old) self.old self.new }
    {
        if fd == to {
            return Err(Errno::EINVAL);
        }
        match self.descriptor(fd) {
            Some(descriptor) => {
                if to > 255 {
                    return Err(Errno::EBADF);
                }
                self.replace(to as usize, another(descriptor, close_on_exec), fd);
                Ok(to as u32)
            }
            None => Err(Errno::EBADF),
        }
    }

    /// Closes a descriptor, and tells whether a device went with it. What was unlinked goes with its last descriptor. It
    /// costs by the number of descriptors, and takes no memory.
    ///
    /// It is refused with `EBADF` where the descriptor isn't open.
    ///
    /// References: close(2).
    #[tactic(auto, unfolding(crate::specs::Descriptors::close))]
    pub fn close(&mut self, fd: u64) -> Result<Closed, Errno>
        ensures { MatchResult result (λ it. AnswersAlways {A = Option ℕ} (Ok it.device) (closes fd self.old) self.old self.new) (λ errno. AnswersAlways {A = Option ℕ} (Err errno) (closes fd self.old) self.old self.new) }
    {
        match self.descriptor(fd) {
            Some(descriptor) => Ok(Closed {
                device: self.clear(fd as usize, descriptor.description),
            }),
            None => Err(Errno::EBADF),
        }
    }

    /// Sets whether a description appends, and whether it never waits; other bits are passed over. It holds for all
    /// descriptors that name the description.
    ///
    /// It is refused with `EBADF` where the descriptor isn't open.
    ///
    /// References: fcntl(2), `F_SETFL`.
    #[tactic(auto, unfolding(crate::specs::Descriptors::with_flags))]
    pub fn set_flags(&mut self, fd: u64, flags: u64) -> Result<(), Errno>
        ensures { LeavesAlways result (with_flags fd flags self.old) self.old self.new }
    {
        match self.open_as(fd) {
            Some((number, it)) => {
                self.change(
                    number,
                    it,
                    (it.flags & 0x38003) | (flags & 0xC00),
                    it.offset,
                );
                Ok(())
            }
            None => Err(Errno::EBADF),
        }
    }

    /// Sets whether a descriptor is closed by execve.
    ///
    /// It is refused with `EBADF` where the descriptor isn't open.
    ///
    /// References: fcntl(2), `F_SETFD`.
    #[tactic(auto, unfolding(crate::specs::Descriptors::marked))]
    pub fn set_close_on_exec(&mut self, fd: u64, on: bool) -> Result<(), Errno>
        ensures { LeavesAlways result (marked fd on self.old) self.old self.new }
    {
        match self.descriptor(fd) {
            Some(descriptor) => {
                self.put_descriptor(fd as usize, another(descriptor, on));
                Ok(())
            }
            None => Err(Errno::EBADF),
        }
    }

    /// Closes a descriptor, if it is open, and puts another one there, which names what a third names.
    #[tactic(auto, unfolding(crate::specs::Descriptors::closed))]
    fn replace(&mut self, to: usize, descriptor: Descriptor, from: u64)
        requires low { to < 256 }
        requires apart { from ≢ to }
        requires from { IfSome (at self.old.descriptors from) (λ it. it.description ≡ descriptor.description) }
        requires is { IsSome (at self.old.descriptors from) }
        ensures { self.new ≡ with_descriptor to (Some descriptor) (closed to self.old) }
    {
        self.empty(to);
        self.put_descriptor(to, descriptor);
    }

    /// Closes a descriptor, if it is open.
    #[tactic(auto, unfolding(crate::specs::Descriptors::closed))]
    fn empty(&mut self, fd: usize)
        requires { fd < 256 }
        ensures files { self.new ≡ closed fd self.old }
        ensures free { at self.new.descriptors fd ≡ None }
        ensures there { (other : ℕ) (it : Descriptor) → other ≢ fd → at self.old.descriptors other ≡ Some it → IsSome (at self.new.descriptions it.description) }
    {
        let Some(descriptor) = self.descriptor(fd as u64) else {
            let _ = &self.tree;
            return;
        };
        self.clear(fd, descriptor.description);
        let _ = &self.tree;
    }
}

/// Another descriptor of the same description.
fn another(descriptor: Descriptor, close_on_exec: bool) -> Descriptor
    ensures { result ≡ another descriptor close_on_exec }
{
    Descriptor {
        description: descriptor.description,
        close_on_exec,
    }
}

/// What a descriptor of a description is open for.
fn opened(descriptor: Descriptor, it: Description) -> Opened
    ensures { Some result ≡ what_in descriptor (Some it) }
{
    let (node, device, pipe) = match it.target {
        Target::Node(inode) => (Some(inode), None, None),
        Target::Device(device) => (None, Some(device), None),
        Target::Pipe { pipe, .. } => (None, None, Some(pipe)),
    };
    Opened {
        node,
        device,
        pipe,
        flags: it.flags,
        close_on_exec: descriptor.close_on_exec,
    }
}
