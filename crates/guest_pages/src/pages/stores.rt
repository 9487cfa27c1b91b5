//! Stores, and copies into the guest's memory.

ghost use Rattle.std.specs.Prelude.{◌≡◌, ◌+◌, ◌%◌, ◌≤◌, length, true, false, None, OnOk, OnErr};
ghost use Rattle.byteorder.specs.Endian.{little_bytes};
ghost use Rattle.guest_pages.specs.Cells.{has_none};
ghost use Rattle.guest_pages.specs.Faults.{first_fault, answer_or, KeepsRights, writable};
ghost use Rattle.guest_pages.specs.Operations.{written};
ghost use Rattle.guest_pages.specs.Sizes.{size_of};

use super::Pages;
use crate::fault::PageFault;
use crate::looking::{allows, rows};
use crate::rights::{Rights, WRITABLE};
use crate::width::Width;
use crate::writing::{copy_into, write_near};

impl Pages {
    /// Bytes go into memory from the byte address `at` on, if each can be written there; else nothing changes. It costs
    /// by the bytes, and takes no memory.
    ///
    /// References: mmap(2), sigaction(2).
    pub fn copy_in(&mut self, at: u64, bytes: &[u8]) -> Result<(), PageFault>
        ensures answer { result ≡ answer_or (first_fault writable self.old at (length bytes.now)) tt }
        ensures ok { OnOk result (self.new ≡ written at bytes.now self.old) }
        ensures err { OnErr result (self.new ≡ self.old) }
        ensures rights { KeepsRights self.old self.new }
    {
        match allows(rows(&self.tables), at, bytes.len() as u64, WRITABLE) {
            Err(fault) => Err(fault),
            Ok(()) => {
                copy_into(&mut self.tables, at, bytes, WRITABLE);
                Ok(())
            }
        }
    }

    /// Bytes go into memory from the byte address `at` on, where each address has these rights, of which there is one at least;
    /// whether it can be written isn't asked. So a file's bytes come into pages that are made for them. It costs by the bytes, and takes
    /// no memory.
    ///
    /// References: mmap(2).
    pub fn fill(&mut self, at: u64, bytes: &[u8], rights: Rights)
        requires some { has_none rights ≡ false }
        requires allowed { first_fault rights self.old at (length bytes.now) ≡ None }
        ensures { self.new ≡ written at bytes.now self.old }
    {
        copy_into(&mut self.tables, at, bytes, rights);
    }

    /// The lowest 1, 2, 4 or 8 bytes of a number, the lowest first, go into memory from the byte address `at` on, if each
    /// can be written there; else nothing changes. It takes constant time and no memory: one look-up of a page where the
    /// bytes lie in one.
    ///
    /// References: mmap(2), sigaction(2).
    #[inline]
    pub fn store(&mut self, at: u64, width: Width, value: u64) -> Result<(), PageFault>
        ensures answer { result ≡ answer_or (first_fault writable self.old at (size_of width)) tt }
        ensures ok { OnOk result (self.new ≡ written at (little_bytes (size_of width) value) self.old) }
        ensures err { OnErr result (self.new ≡ self.old) }
    {
        if self.store_near(at, width, value) {
            return Ok(());
        }
        self.store_apart(at, width, value)
    }

    /// The same by one look-up, where the bytes lie in one page and can be written, and whether they do; else nothing changes.
    #[inline(always)]
    pub fn store_near(&mut self, at: u64, width: Width, value: u64) -> bool
        ensures good { result ≡ true → first_fault writable self.old at (size_of width) ≡ None }
        ensures stored { result ≡ true → self.new ≡ written at (little_bytes (size_of width) value) self.old }
        ensures stays { result ≡ false → self.new ≡ self.old }
        ensures near { at % 4096 + size_of width ≤ 4096 → first_fault writable self.old at (size_of width) ≡ None → result ≡ true }
    {
        let bytes = value.to_le_bytes();
        write_near(&mut self.tables, at, &bytes[..width.size()], WRITABLE)
    }

    /// The same for bytes that lie in two pages, or that can't be written.
    #[cold]
    #[inline(never)]
    fn store_apart(&mut self, at: u64, width: Width, value: u64) -> Result<(), PageFault>
        ensures answer { result ≡ answer_or (first_fault writable self.old at (size_of width)) tt }
        ensures ok { OnOk result (self.new ≡ written at (little_bytes (size_of width) value) self.old) }
        ensures err { OnErr result (self.new ≡ self.old) }
    {
        let bytes = value.to_le_bytes();
        self.copy_in(at, &bytes[..width.size()])
    }
}
