//! Mapping and protection.

ghost use Rattle.std.specs.Prelude.{◌≡◌, ◌+◌, ◌*◌, ◌%◌, ◌<◌, ◌≤◌, ◌^◌, ℕ, OnOk, OnErr, Err, Some, None, ◌-◌, false};
ghost use Rattle.guest_pages.specs.Faults.{changeable, first_unmapped};
ghost use Rattle.guest_pages.specs.declared.fault.MapFault.TheVariants.{PagesFull, NotMapped};
ghost use Rattle.guest_pages.specs.Finding.{any_mapped};
ghost use Rattle.guest_pages.specs.Operations.{placed, protected, stored_pages, unmapped};

use super::Pages;
use crate::fault::MapFault;
use crate::finding::unmapped;
use crate::fresh::stored_of;
use crate::limits::MOST_PAGES;
use crate::looking::rows;
use crate::placing::{clear_pages, map_pages, protect_pages, wanted_pages};
use crate::rights::{CHANGEABLE, Rights};
use std::alloc::Global;

impl Pages {
    /// Maps `count` pages of zeros with these rights from the byte address `at` on, in place of what was there. The range
    /// is of whole pages, below 2^38. It is refused where more than 65,536 pages with a right would be stored, and where
    /// memory is wanting; then nothing changes. It costs by the pages of the range that are stored before or after, and by a
    /// bit for each other.
    ///
    /// References: mmap(2).
    pub fn map(
        &mut self,
        alloc: Global,
        at: u64,
        count: u64,
        rights: Rights,
    ) -> Result<(), MapFault>
        requires aligned { at % 4096 ≡ 0 }
        requires inside { at + 4096 * count ≤ 2 ^ 38 }
        ensures ok { OnOk result (self.new ≡ placed at (4096 * count) rights self.old) }
        ensures err { OnErr result (self.new ≡ self.old) }
        ensures full { (n : ℕ) → result ≡ Err (PagesFull n)
            → (n ≡ stored_pages (placed at (4096 * count) rights self.old)) × (65536 < n) }
        ensures many { 65536 < stored_pages (placed at (4096 * count) rights self.old)
            → result ≡ Err (PagesFull (stored_pages (placed at (4096 * count) rights self.old))) }
        ensures mapped { (a : ℕ) → result ≡ Err (NotMapped a) → ⊥ }
    {
        let first = at / 4096;
        let wanted = wanted_pages(rows(&self.tables), self.stored, first, count, rights);
        if wanted > MOST_PAGES {
            return Err(MapFault::PagesFull { wanted });
        }
        match map_pages(alloc, &mut self.tables, first, count, rights) {
            Err(_) => Err(MapFault::Memory),
            Ok(()) => {
                self.stored = wanted;
                Ok(())
            }
        }
    }

    /// Nothing is mapped in the `count` pages from the byte address `at` on. The range is of whole pages, below 2^38. It takes
    /// no memory, and costs by the pages of the range that are stored, and by a bit for each other.
    ///
    /// References: munmap(2).
    pub fn unmap(&mut self, at: u64, count: u64)
        requires aligned { at % 4096 ≡ 0 }
        requires inside { at + 4096 * count ≤ 2 ^ 38 }
        ensures { self.new ≡ unmapped at (4096 * count) self.old }
    {
        let first = at / 4096;
        let stored = stored_of(rows(&self.tables), first, count);
        clear_pages(&mut self.tables, first, count);
        self.stored -= stored;
    }

    /// The pages from the byte address `from` up to `to` become pages of zeros that can be read and written. They are
    /// free, and the addresses are of whole pages, up to 2^38. It is refused where more than 65,536 pages with a right would
    /// be stored, and where memory is wanting; then nothing changes. It costs by the pages of the range.
    ///
    /// References: brk(2).
    pub fn grow_break(&mut self, alloc: Global, from: u64, to: u64) -> Result<(), MapFault>
        requires aligned { from % 4096 ≡ 0 }
        requires ends { to % 4096 ≡ 0 }
        requires order { from ≤ to }
        requires inside { to ≤ 2 ^ 38 }
        requires free { any_mapped self.old from (to - from) ≡ false }
        ensures ok { OnOk result (self.new ≡ placed from (to - from) changeable self.old) }
        ensures err { OnErr result (self.new ≡ self.old) }
        ensures full { (n : ℕ) → result ≡ Err (PagesFull n)
            → (n ≡ stored_pages (placed from (to - from) changeable self.old)) × (65536 < n) }
        ensures many { 65536 < stored_pages (placed from (to - from) changeable self.old)
            → result ≡ Err (PagesFull (stored_pages (placed from (to - from) changeable self.old))) }
        ensures mapped { (a : ℕ) → result ≡ Err (NotMapped a) → ⊥ }
    {
        self.map(alloc, from, (to - from) / 4096, CHANGEABLE)
    }

    /// The `count` pages from the byte address `at` on get these rights. A page that loses all rights loses its bytes, and
    /// one that gains a right from none is zero. The range is of whole pages, below 2^38. It is refused with the least
    /// address that is not mapped, if there is one, then where more than 65,536 pages with a right would be stored, and
    /// where memory is wanting; then nothing changes. It costs by the pages of the range that are stored before or after,
    /// and by a bit for each other.
    ///
    /// References: mprotect(2).
    pub fn protect(
        &mut self,
        alloc: Global,
        at: u64,
        count: u64,
        rights: Rights,
    ) -> Result<(), MapFault>
        requires aligned { at % 4096 ≡ 0 }
        requires inside { at + 4096 * count ≤ 2 ^ 38 }
        ensures ok { OnOk result (self.new ≡ protected at (4096 * count) rights self.old) }
        ensures err { OnErr result (self.new ≡ self.old) }
        ensures absent { (a : ℕ) → first_unmapped self.old at (4096 * count) ≡ Some a → result ≡ Err (NotMapped a) }
        ensures mapped { (a : ℕ) → result ≡ Err (NotMapped a) → first_unmapped self.old at (4096 * count) ≡ Some a }
        ensures full { (n : ℕ) → result ≡ Err (PagesFull n)
            → (n ≡ stored_pages (protected at (4096 * count) rights self.old)) × (65536 < n) }
        ensures many { first_unmapped self.old at (4096 * count) ≡ None
            → 65536 < stored_pages (protected at (4096 * count) rights self.old)
            → result ≡ Err (PagesFull (stored_pages (protected at (4096 * count) rights self.old))) }
    {
        match unmapped(rows(&self.tables), at, count) {
            Some(address) => Err(MapFault::NotMapped(address)),
            None => self.protect_mapped(alloc, at, count, rights),
        }
    }

    /// The same where all of the range is mapped.
    fn protect_mapped(
        &mut self,
        alloc: Global,
        at: u64,
        count: u64,
        rights: Rights,
    ) -> Result<(), MapFault>
        requires aligned { at % 4096 ≡ 0 }
        requires inside { at + 4096 * count ≤ 2 ^ 38 }
        requires mapped { first_unmapped self.old at (4096 * count) ≡ None }
        ensures ok { OnOk result (self.new ≡ protected at (4096 * count) rights self.old) }
        ensures err { OnErr result (self.new ≡ self.old) }
        ensures mapped { (a : ℕ) → result ≡ Err (NotMapped a) → ⊥ }
        ensures full { (n : ℕ) → result ≡ Err (PagesFull n)
            → (n ≡ stored_pages (protected at (4096 * count) rights self.old)) × (65536 < n) }
        ensures many { 65536 < stored_pages (protected at (4096 * count) rights self.old)
            → result ≡ Err (PagesFull (stored_pages (protected at (4096 * count) rights self.old))) }
    {
        let first = at / 4096;
        let wanted = wanted_pages(rows(&self.tables), self.stored, first, count, rights);
        if wanted > MOST_PAGES {
            return Err(MapFault::PagesFull { wanted });
        }
        match protect_pages(alloc, &mut self.tables, first, count, rights) {
            Err(_) => Err(MapFault::Memory),
            Ok(()) => {
                self.stored = wanted;
                Ok(())
            }
        }
    }
}
