use crate::pipes::Input;
use file_tree::Inode;
use le_fields::Bytes;

/// What a description is open for.
#[derive(Clone, Copy, Debug, PartialEq, Eq)]
pub enum Target {
    /// A file or a directory.
    Node(Inode),
    /// A device, by its number.
    Device(usize),
    /// An end of a pipe, by the pipe's number: the one that writes, or the one that reads.
    Pipe { pipe: usize, writes: bool },
}

/// What is kept of an open file, shared by the descriptors that name it.
///
/// References: open(2).
#[derive(Clone, Copy, Debug, PartialEq, Eq)]
pub struct Description {
    pub target: Target,
    /// Access, and the flags that are kept of those with which it was opened.
    pub flags: u64,
    /// In bytes, or in entries of a directory.
    pub offset: u64,
}

/// A descriptor that is open.
#[derive(Clone, Copy, Debug, PartialEq, Eq)]
pub struct Descriptor {
    /// The number of the description that it names.
    pub description: usize,
    pub close_on_exec: bool,
}

/// A device: what was written to it, in order; what came in and wasn't read yet, in order, and whether that was the end of what
/// comes in; and whether it lives, which it does until its last description goes.
#[derive(Drop)]
pub struct Device {
    pub output: Bytes,
    pub input: Input,
    pub ended: bool,
    pub live: bool,
}

/// What a descriptor is open for, and how.
#[derive(Clone, Copy, Debug, PartialEq, Eq)]
pub struct Opened {
    /// The file or directory, where it isn't open for a device.
    pub node: Option<Inode>,
    /// The number of the device, where it is open for one.
    pub device: Option<usize>,
    /// The number of the pipe, where it is open for an end of one. Both ends have it, and no other pipe with an open end.
    pub pipe: Option<usize>,
    /// Access, and the flags that are kept of those with which it was opened.
    pub flags: u64,
    pub close_on_exec: bool,
}
