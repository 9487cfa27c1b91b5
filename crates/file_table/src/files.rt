ghost use Rattle.std.specs.Prelude.{◌≡◌, ◌<◌, ◌≤◌, ℕ, [], length, get_or, slice_get, Some, IfOk, IfSome, MatchOption};
ghost use Rattle.file_tree.specs.declared.kind.Kind.TheVariants.{File};
ghost use Rattle.file_tree.specs.Nodes.{kind_in, holds_in};
ghost use Rattle.file_table.specs.Descriptors.{no_device};
ghost use Rattle.file_table.specs.Opening.{started};
ghost use Rattle.file_table.specs.Sound.{IsSound};
ghost use Rattle.file_table.specs.State.{at, lives_by, outputs_of};

use crate::pipes::Pipe;
use crate::state::{Description, Descriptor, Device};
use file_tree::Tree;
use std::alloc::{AllocError, Global};
use std::marker::Model;

/// How many descriptors there are.
pub(crate) const COUNT: usize = 256;

/// The open files of a process, its devices, and its tree of files.
#[derive(Drop)]
pub struct Files {
    pub(crate) tree: Tree,
    pub(crate) descriptors: Vec<Option<Descriptor>>,
    /// It has room for as many as there are descriptors, so that no description is refused for want of memory.
    pub(crate) descriptions: Vec<Option<Description>>,
    pub(crate) devices: Vec<Device>,
    pub(crate) pipes: Vec<Option<Pipe>>,
}

impl Model for Files {
    ghost use Rattle.file_table.specs.State.{Files};
    ghost use Rattle.file_table.specs.Sound.{IsSound};
    ghost use Rattle.std.specs.Prelude.{◌≤◌, vec_capacity};

    ghost Value = { Files };

    ghost view = { λ files. record {
      tree = files.tree;
      descriptors = files.descriptors.items;
      descriptions = files.descriptions.items;
      devices = files.devices.items;
      pipes = files.pipes.items;
    } };

    ghost invariant = { λ files. IsSound (record {
      tree = files.tree;
      descriptors = files.descriptors.items;
      descriptions = files.descriptions.items;
      devices = files.devices.items;
      pipes = files.pipes.items;
    }) × (256 ≤ vec_capacity files.descriptions) };
}

impl Files {
    /// The tree. Its contract also tells what every table keeps.
    pub fn tree(&self) -> &Tree
        ensures tree { result.now ≡ self.now.tree }
        ensures sound { IsSound self.now }
    {
        &self.tree
    }

    /// The allocator of the table.
    pub fn alloc(&self) -> Global {
        *self.descriptors.allocator()
    }

    /// How many devices there are, those too that live no more.
    pub fn devices(&self) -> usize
        ensures { result ≡ length (outputs_of self.now) }
    {
        self.devices.len()
    }

    /// What was written to a device, in order.
    pub fn output(&self, device: usize) -> &[u8]
        requires { device < length (outputs_of self.now) }
        ensures { result.now ≡ get_or (outputs_of self.now) device [] }
    {
        self.devices[device].output.as_slice()
    }

    /// Whether a device lives: from the start until its last description goes. One that isn't there doesn't.
    pub fn live(&self, device: usize) -> bool
        ensures { result ≡ lives_by (slice_get self.now.devices device) }
    {
        match self.devices.get(device) {
            Some(device) => device.live,
            None => false,
        }
    }
}

/// What stands at a place.
pub(crate) fn at<T: Copy>(places: &[Option<T>], number: u64) -> Option<T>
    ensures { result ≡ at places.now number }
{
    match places.get(number as usize) {
        Some(place) => *place,
        None => None,
    }
}
