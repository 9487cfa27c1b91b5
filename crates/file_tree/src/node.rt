ghost use Rattle.std.specs.Prelude.{◌≡◌, ◌+◌, ◌^◌, ◌<◌, ◌++◌, length, drop, All, IfOk, OnOk, OnErr};
ghost use Rattle.std.specs.Map.{keys_of};
ghost use Rattle.std.specs.Str.{is_utf8, IsUtf8};

use crate::content::Content;
use crate::errno::Errno;
use crate::kind::Kind;
use crate::names::Names;
use crate::path::{is_dot, is_dots, is_own};
use crate::text::Text;
use std::alloc::{AllocError, Global};

/// The most bytes that a name may have.
pub(crate) const NAME_LIMIT: usize = 255;

/// The most bytes that a path from the root may have.
const PATH_LIMIT: usize = 4095;

/// The most entries of a tree, with the root.
const COUNT_LIMIT: u64 = 4097;

/// An entry of the tree.
#[derive(Drop)]
pub struct Node {
    /// How often it is held.
    pub(crate) holds: u64,
    /// Whether a name leads to it, or it is the root.
    pub(crate) linked: bool,
    pub(crate) body: Body,
}

/// A file has bytes, a directory names.
#[derive(Drop)]
pub enum Body {
    Bytes(Content),
    Names(Directory),
}

/// A directory.
#[derive(Drop)]
pub struct Directory {
    /// The inode of the directory that has it.
    pub(crate) parent: u64,
    /// How many bytes its path from the root has.
    pub(crate) path: u16,
    pub(crate) names: Names,
}

impl Clone for Directory {
    ghost is_clone = { λ directory copy. copy ≡ directory };

    fn clone(&self) -> Result<Directory, AllocError> {
        Ok(Directory {
            parent: self.parent,
            path: self.path,
            names: self.names.clone()?,
        })
    }
}

impl Clone for Body {
    ghost is_clone = { λ body copy. copy ≡ body };

    fn clone(&self) -> Result<Body, AllocError> {
        match self {
            Body::Bytes(content) => Ok(Body::Bytes(content.clone()?)),
            Body::Names(directory) => Ok(Body::Names(directory.clone()?)),
        }
    }
}

impl Clone for Node {
    ghost is_clone = { λ node copy. copy ≡ node };

    fn clone(&self) -> Result<Node, AllocError> {
        Ok(Node {
            holds: self.holds,
            linked: self.linked,
            body: self.body.clone()?,
        })
    }
}

impl Directory {
    ghost use Rattle.file_tree.specs.Walk.{looked_up};
    ghost use Rattle.file_tree.specs.Making.{name_refused, path_below as below};

    /// Where a part of a path leads from here.
    fn step(&self, at: u64, linked: bool, part: &[u8]) -> Result<u64, Errno>
        ensures { result ≡ looked_up at linked self.now part.now }
    {
        if is_dot(part) {
            return Ok(at);
        }
        if !linked {
            return Err(Errno::ENOENT);
        }
        if is_dots(part) {
            return Ok(self.parent);
        }
        match self.names.get(part) {
            Some(inode) => Ok(inode),
            None => Err(Errno::ENOENT),
        }
    }

    /// How many bytes the path from the root of a name here has.
    pub(crate) fn path_below(&self, name: &[u8]) -> usize
        ensures { result ≡ below self.now.path name.now }
    {
        let path = self.path as usize;
        if path == 0 {
            return name.len();
        }
        path + 1 + name.len()
    }

    /// Why a name can't be made here.
    fn refusal(&self, at: u64, linked: bool, name: &[u8], ends: bool, count: u64) -> Option<Errno>
        ensures { result ≡ name_refused at linked self.now name.now ends count }
    {
        if name.is_empty() || is_dot(name) {
            return Some(Errno::EEXIST);
        }
        if !linked {
            return Some(Errno::ENOENT);
        }
        if is_dots(name) {
            return Some(Errno::EEXIST);
        }
        if !is_text(name) {
            return Some(Errno::EINVAL);
        }
        if at == 1 && is_own(name) {
            return Some(Errno::EACCES);
        }
        if self.names.get(name).is_some() {
            return Some(Errno::EEXIST);
        }
        if ends {
            return Some(Errno::EISDIR);
        }
        if self.path_below(name) > PATH_LIMIT {
            return Some(Errno::ENAMETOOLONG);
        }
        if count >= COUNT_LIMIT {
            return Some(Errno::ENOSPC);
        }
        None
    }
}

/// Whether bytes are UTF-8.
fn is_text(bytes: &[u8]) -> bool
    ensures { result ≡ is_utf8 bytes.now }
{
    match str::from_utf8(bytes) {
        Ok(_) => true,
        Err(_) => false,
    }
}

impl Node {
    ghost use Rattle.file_tree.specs.Nodes.{new_file, new_directory, kind_of, bytes_of, names_of, path_of};
    ghost use Rattle.file_tree.specs.Walk.{step_in};
    ghost use Rattle.file_tree.specs.Making.{refused_in, node_with, path_below as below};
    ghost use Rattle.file_tree.specs.Unlinking.{node_without, body_refused};
    ghost use Rattle.file_tree.specs.Files.{refilled, overwritten, resized, read_from};

    /// A file without bytes. It takes no memory.
    pub(crate) fn new_file(alloc: Global) -> Node
        ensures { result ≡ new_file }
    {
        Node {
            holds: 0,
            linked: true,
            body: Body::Bytes(Content::new(alloc)),
        }
    }

    /// A directory without names. It takes no memory.
    pub(crate) fn new_directory(alloc: Global, parent: u64, path: u16) -> Node
        ensures { result ≡ new_directory parent path }
    {
        Node {
            holds: 0,
            linked: true,
            body: Body::Names(Directory {
                parent,
                path,
                names: Names::new(alloc),
            }),
        }
    }

    pub(crate) fn kind(&self) -> Kind
        ensures { result ≡ kind_of self.now.body }
    {
        match &self.body {
            Body::Bytes(_) => Kind::File,
            Body::Names(_) => Kind::Dir,
        }
    }

    /// The number of its bytes, 0 for a directory.
    pub(crate) fn size(&self) -> usize
        ensures { result ≡ length (bytes_of self.now.body) }
    {
        match &self.body {
            Body::Bytes(content) => content.len(),
            Body::Names(_) => 0,
        }
    }

    /// The bytes of a file from an offset on, at most so many.
    pub(crate) fn part(&self, offset: u64, size: u64) -> &[u8]
        ensures { result.now ≡ read_from offset size (bytes_of self.now.body) }
    {
        match &self.body {
            Body::Bytes(content) => content.part(offset, size),
            Body::Names(_) => &[],
        }
    }

    /// Copies bytes of a file from an offset on, and tells how many.
    pub(crate) fn read_at(&self, offset: u64, into: &mut [u8]) -> usize
        ensures count { result ≡ length (read_from offset (length into.old) (bytes_of self.now.body)) }
        ensures read { into.new ≡ read_from offset (length into.old) (bytes_of self.now.body) ++ drop result into.old }
    {
        match &self.body {
            Body::Bytes(content) => content.read_at(offset, into),
            Body::Names(_) => 0,
        }
    }

    /// How many bytes the path from the root of a name here has.
    pub(crate) fn path_below(&self, name: &[u8]) -> usize
        ensures { result ≡ below (path_of self.now.body) name.now }
    {
        match &self.body {
            Body::Bytes(_) => name.len(),
            Body::Names(directory) => directory.path_below(name),
        }
    }

    /// The names of a directory, in rising order.
    pub(crate) fn names(&self, alloc: Global) -> Result<Vec<Text>, AllocError>
        requires { All IsUtf8 (keys_of (names_of self.now.body)) }
        ensures { IfOk result (λ texts. texts.items ≡ keys_of (names_of self.now.body)) }
    {
        match &self.body {
            Body::Bytes(_) => Ok(Vec::new(alloc)),
            Body::Names(directory) => directory.names.texts(alloc),
        }
    }

    /// Where a part of a path leads from here.
    pub(crate) fn step(&self, at: u64, part: &[u8]) -> Result<u64, Errno>
        ensures { result ≡ step_in at self.now.linked self.now.body part.now }
    {
        match &self.body {
            Body::Bytes(_) => Err(Errno::ENOTDIR),
            Body::Names(directory) => directory.step(at, self.linked, part),
        }
    }

    /// Why a name can't be made here.
    pub(crate) fn refusal(&self, at: u64, name: &[u8], ends: bool, count: u64) -> Option<Errno>
        ensures { result ≡ refused_in at self.now.linked self.now.body name.now ends count }
    {
        match &self.body {
            Body::Bytes(_) => Some(Errno::ENOTDIR),
            Body::Names(directory) => directory.refusal(at, self.linked, name, ends, count),
        }
    }

    /// Why it can't be taken away.
    pub(crate) fn removal_refusal(&self, wants: bool) -> Option<Errno>
        ensures { result ≡ body_refused wants self.now.body }
    {
        match &self.body {
            Body::Bytes(_) => {
                if wants {
                    return Some(Errno::ENOTDIR);
                }
                None
            }
            Body::Names(directory) => {
                if !wants {
                    return Some(Errno::EISDIR);
                }
                if directory.names.is_empty() {
                    return None;
                }
                Some(Errno::ENOTEMPTY)
            }
        }
    }

    /// Puts a name in.
    pub(crate) fn link(&mut self, name: Vec<u8>, inode: u64) -> Result<(), AllocError>
        ensures ok { OnOk result (self.new ≡ node_with name.items inode self.old) }
        ensures err { OnErr result (self.new ≡ self.old) }
    {
        match &mut self.body {
            Body::Bytes(_) => Ok(()),
            Body::Names(directory) => directory.names.insert(name, inode),
        }
    }

    /// Takes a name out.
    pub(crate) fn unname(&mut self, name: &[u8])
        ensures { self.new ≡ node_without name.now self.old }
    {
        match &mut self.body {
            Body::Bytes(_) => {}
            Body::Names(directory) => directory.names.remove(name),
        }
    }

    /// Cuts a file's bytes, or fills them up with zeros.
    pub(crate) fn resize(&mut self, size: usize) -> Result<(), AllocError>
        ensures ok { OnOk result (self.new ≡ refilled (resized size (bytes_of self.old.body)) self.old) }
        ensures err { OnErr result (self.new ≡ self.old) }
    {
        match &mut self.body {
            Body::Bytes(content) => content.resize(size),
            Body::Names(_) => Ok(()),
        }
    }

    /// Writes bytes over those of a file from an offset on.
    pub(crate) fn overwrite(&mut self, offset: usize, bytes: &[u8]) -> Result<(), AllocError>
        requires { offset + length bytes.now < 2 ^ 64 }
        ensures ok { OnOk result (self.new ≡ refilled (overwritten offset bytes.now (bytes_of self.old.body)) self.old) }
        ensures err { OnErr result (self.new ≡ self.old) }
    {
        match &mut self.body {
            Body::Bytes(content) => content.overwrite(offset, bytes),
            Body::Names(_) => Ok(()),
        }
    }
}
