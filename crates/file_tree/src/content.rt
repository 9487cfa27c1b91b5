ghost use Rattle.std.specs.Prelude.{◌≡◌, ◌+◌, ◌-◌, ◌^◌, ◌<◌, ◌≤◌, [], ◌++◌, length, take, drop, replicate, OnOk, OnErr};
ghost use Rattle.file_tree.specs.Files.{read_from, resized, overwritten};

use std::alloc::{AllocError, Global};
use std::marker::Model;

/// The bytes of a file, which contracts see as a list.
#[derive(Drop)]
pub struct Content {
    bytes: Vec<u8>,
}

impl Model for Content {
    ghost use Rattle.std.specs.Prelude.{ℕ, List};

    ghost Value = { List ℕ };

    ghost view = { λ content. content.bytes.items };
}

impl Clone for Content {
    ghost is_clone = { λ content copy. copy ≡ content };

    fn clone(&self) -> Result<Content, AllocError> {
        Ok(Content {
            bytes: self.bytes.clone()?,
        })
    }
}

impl Content {
    /// No bytes. It takes no memory.
    pub(crate) fn new(alloc: Global) -> Content
        ensures { result ≡ [] }
    {
        Content {
            bytes: Vec::new(alloc),
        }
    }

    /// The number of bytes.
    pub(crate) fn len(&self) -> usize
        ensures { result ≡ length self.now }
    {
        self.bytes.len()
    }

    /// The bytes from an offset on, at most so many.
    pub(crate) fn part(&self, offset: u64, size: u64) -> &[u8]
        ensures { result.now ≡ read_from offset size self.now }
    {
        let length = self.bytes.len() as u64;
        if offset >= length {
            return &[];
        }
        let end = offset + size.min(length - offset);
        &self.bytes[offset as usize..end as usize]
    }

    /// Copies bytes from an offset on, and tells how many.
    pub(crate) fn read_at(&self, offset: u64, into: &mut [u8]) -> usize
        ensures count { result ≡ length (read_from offset (length into.old) self.now) }
        ensures read { into.new ≡ read_from offset (length into.old) self.now ++ drop result into.old }
    {
        if offset >= self.bytes.len() as u64 {
            return 0;
        }
        let rest = &self.bytes[offset as usize..];
        let count = rest.len().min(into.len());
        into[..count].copy_from_slice(&rest[..count]);
        count
    }

    /// Cuts the bytes, or fills them up with zeros.
    pub(crate) fn resize(&mut self, size: usize) -> Result<(), AllocError>
        ensures ok { OnOk result (self.new ≡ resized size self.old) }
        ensures err { OnErr result (self.new ≡ self.old) }
    {
        self.bytes.resize(size, 0)
    }

    /// Writes bytes over those from an offset on. A gap in front of them is filled with zeros.
    pub(crate) fn overwrite(&mut self, offset: usize, bytes: &[u8]) -> Result<(), AllocError>
        requires { offset + length bytes.now < 2 ^ 64 }
        ensures ok { OnOk result (self.new ≡ overwritten offset bytes.now self.old) }
        ensures err { OnErr result (self.new ≡ self.old) }
    {
        if bytes.is_empty() {
            return Ok(());
        }
        self.reach(offset + bytes.len())?;
        put(&mut self.bytes, offset, bytes);
        Ok(())
    }

    /// Fills the bytes up with zeros where there are fewer.
    fn reach(&mut self, end: usize) -> Result<(), AllocError>
        ensures ok { OnOk result (self.new ≡ self.old ++ replicate (end - length self.old) 0) }
        ensures err { OnErr result (self.new ≡ self.old) }
    {
        if self.bytes.len() >= end {
            return Ok(());
        }
        self.bytes.resize(end, 0)
    }
}

/// Copies bytes over those from an offset on.
fn put(into: &mut [u8], offset: usize, bytes: &[u8])
    requires { offset + length bytes.now ≤ length into.old }
    ensures { into.new ≡ take offset into.old ++ bytes.now ++ drop (offset + length bytes.now) into.old }
{
    into[offset..offset + bytes.len()].copy_from_slice(bytes);
}
