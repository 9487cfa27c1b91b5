//! Loads, fetches, and copies out of the guest's memory.

ghost use Rattle.std.specs.Prelude.{◌≡◌, length, OnOk, OnErr, ◌≤◌, ◌+◌, ◌%◌, Ok, None, IfOk, IfSome, IsSome};
ghost use Rattle.byteorder.specs.Endian.{little_number};
ghost use Rattle.guest_pages.specs.Apart.{code_of};
ghost use Rattle.guest_pages.specs.Faults.{first_fault, answer_or, readable, executable};
ghost use Rattle.guest_pages.specs.Operations.{bytes_at};
ghost use Rattle.guest_pages.specs.Sizes.{size_of};

use super::Pages;
use crate::code::{Code, code_of};
use crate::copying::copy_from;
use crate::fault::PageFault;
use crate::fetching::fetch_from;
use crate::looking::{allows, bytes_of, half_at, number_at, rows};
use crate::rights::{EXECUTABLE, READABLE, Rights};
use crate::width::Width;
use std::alloc::{AllocError, Global};

impl Pages {
    /// Ok exactly where each of `length` bytes from the byte address `at` on is mapped with all these rights; else the
    /// least address that is not. Any range may be asked for. It costs by the pages of the range, and takes no memory.
    ///
    /// References: mmap(2), sigaction(2).
    pub fn allows(&self, at: u64, length: u64, rights: Rights) -> Result<(), PageFault>
        ensures { result ≡ answer_or (first_fault rights self.now at length) tt }
    {
        allows(rows(&self.tables), at, length, rights)
    }

    /// The bytes from the byte address `at` on, as many as the buffer has, go into it, if each can be read; else the
    /// buffer stays. It costs by the bytes, and takes no memory.
    ///
    /// References: mmap(2), sigaction(2).
    pub fn copy_out(&self, at: u64, into: &mut [u8]) -> Result<(), PageFault>
        ensures answer { result ≡ answer_or (first_fault readable self.now at (length into.old)) tt }
        ensures ok { OnOk result (into.new ≡ bytes_at self.now at (length into.old)) }
        ensures err { OnErr result (into.new ≡ into.old) }
    {
        let tables = rows(&self.tables);
        match allows(tables, at, into.len() as u64, READABLE) {
            Err(fault) => Err(fault),
            Ok(()) => {
                copy_from(tables, at, into, READABLE);
                Ok(())
            }
        }
    }

    /// The number in the 1, 2, 4 or 8 bytes from the byte address `at` on, the lowest byte first, if each can be read.
    /// It takes constant time and no memory: one look-up of a page where the bytes lie in one.
    ///
    /// References: mmap(2), sigaction(2).
    #[inline]
    pub fn load(&self, at: u64, width: Width) -> Result<u64, PageFault>
        ensures { result ≡ answer_or
            (first_fault readable self.now at (size_of width))
            (little_number (size_of width) (bytes_at self.now at (size_of width))) }
    {
        match self.load_near(at, width) {
            Some(value) => Ok(value),
            None => self.load_apart(at, width),
        }
    }

    /// The same by one look-up, where the bytes lie in one page and can be read. There is none where they don't.
    #[inline(always)]
    pub fn load_near(&self, at: u64, width: Width) -> Option<u64>
        ensures value { IfSome result (λ value. answer_or
            (first_fault readable self.now at (size_of width))
            (little_number (size_of width) (bytes_at self.now at (size_of width))) ≡ Ok value) }
        ensures place { IfSome result (λ value. at % 4096 + size_of width ≤ 4096) }
        ensures none { at % 4096 + size_of width ≤ 4096 → first_fault readable self.now at (size_of width) ≡ None → IsSome result }
    {
        let place = (at % 4096) as usize;
        if place + width.size() > 4096 {
            return None;
        }
        match bytes_of(rows(&self.tables), at / 4096, READABLE) {
            Some(bytes) => Some(number_at(bytes, place, width)),
            None => None,
        }
    }

    /// The same for bytes that lie in two pages, or that can't be read.
    #[cold]
    #[inline(never)]
    fn load_apart(&self, at: u64, width: Width) -> Result<u64, PageFault>
        ensures { result ≡ answer_or
            (first_fault readable self.now at (size_of width))
            (little_number (size_of width) (bytes_at self.now at (size_of width))) }
    {
        let mut buffer = [0u8; 8];
        let part = &mut buffer[..width.size()];
        match self.copy_out(at, part) {
            Err(fault) => Err(fault),
            Ok(()) => Ok(number_at(part, 0, width)),
        }
    }

    /// The half words at the byte addresses `at` and `at + 2`, to be executed, by one look-up. There are none where they lie
    /// in two pages, or where one of their bytes can't be executed.
    #[inline]
    pub fn fetch_pair(&self, at: u64) -> Option<(u16, u16)>
        ensures place { IfSome result (λ halves. at % 4096 ≤ 4092) }
        ensures first { IfSome result (λ halves. answer_or
            (first_fault executable self.now at 2)
            (little_number 2 (bytes_at self.now at 2)) ≡ Ok halves.0) }
        ensures second { IfSome result (λ halves. answer_or
            (first_fault executable self.now (at + 2) 2)
            (little_number 2 (bytes_at self.now (at + 2) 2)) ≡ Ok halves.1) }
        ensures none { at % 4096 ≤ 4092 → first_fault executable self.now at 4 ≡ None → IsSome result }
    {
        let place = (at % 4096) as usize;
        if place > 4092 {
            return None;
        }
        match bytes_of(rows(&self.tables), at / 4096, EXECUTABLE) {
            Some(bytes) => Some((half_at(bytes, place), half_at(bytes, place + 2))),
            None => None,
        }
    }

    /// The half word in the two bytes from the byte address `at` on, the lowest byte first, if each can be executed.
    /// It takes constant time and no memory: one look-up of a page where the bytes lie in one.
    ///
    /// References: mmap(2), sigaction(2).
    #[inline]
    pub fn fetch(&self, at: u64) -> Result<u16, PageFault>
        ensures { result ≡ answer_or
            (first_fault executable self.now at 2)
            (little_number 2 (bytes_at self.now at 2)) }
    {
        fetch_from(rows(&self.tables), at)
    }

    /// The ranges that can be executed, with their bytes, copied. Only memory may be wanting. It costs by the pages that can be
    /// executed, and by the pages of the tables that have some.
    ///
    /// References: mmap(2) (`PROT_EXEC`).
    pub fn code(&self, alloc: Global) -> Result<Code, AllocError>
        ensures { IfOk result (λ code. code ≡ code_of self.now) }
    {
        code_of(alloc, rows(&self.tables))
    }
}
