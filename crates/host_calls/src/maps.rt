//! Memory and its maps.

ghost use Rattle.std.specs.Prelude.{None, length, ◌≡◌, ◌≤◌, ◌+◌, ◌-◌, ◌*◌, ◌%◌, ◌<◌, IfOk, OnErr, true, false};
ghost use Rattle.guest_pages.specs.Cells.{has_none};
ghost use Rattle.guest_pages.specs.Faults.{changeable, first_fault};
ghost use Rattle.guest_pages.specs.Finding.{any_mapped, touches_code};
ghost use Rattle.guest_pages.specs.Limits.{user_end};
ghost use Rattle.host_calls.specs.Host.{gives, shared_of};
ghost use Rattle.host_calls.specs.Breaks.{most_break};
ghost use Rattle.host_calls.specs.Maps.{are_wrong as are_wrong_flags, brk as moves_break, contents, filled, has_bit as has, is_fixed as has_place, lowered, mapped_with, placed_anywhere, placed_at, placed_fixed, placed_so, mmap as maps, mprotect as protects, munmap as unmaps, part_inside as inside_of, raised, rights_of as rights_by};

use crate::breaks::{MOST_BREAK, is_outside, pages_of};
use crate::host::Host;
use file_tree::Errno;
use guest_pages::{CHANGEABLE, MapFault, PAGE_SIZE, Pages, Rights, USER_END};
use std::alloc::{AllocError, Global};

/// The pages of the largest file.
const MOST_FILE_PAGES: u64 = 4096;

/// Whether a number has the bit of a power of two.
fn has_bit(number: u64, power: u64) -> bool
    requires { 0 < power }
    ensures { result ≡ has number power }
{
    number / power % 2 != 0
}

/// The rights that a protection asks for.
fn rights_of(protection: u64) -> Rights
    ensures { result ≡ rights_by protection }
{
    Rights {
        read: has_bit(protection, 1),
        write: has_bit(protection, 2),
        execute: false,
    }
}

/// How many pages of a range lie within user addresses.
fn pages_inside(at: u64, count: u64) -> u64
    requires { at % 4096 ≡ 0 }
    ensures size { 4096 * result ≡ inside_of at (4096 * count) }
    ensures inside { at ≤ user_end → at + 4096 * result ≤ user_end }
{
    if at >= USER_END {
        return 0;
    }
    count.min((USER_END - at) / PAGE_SIZE)
}

/// Whether a page of a range, as far as it lies within user addresses, can be executed.
#[tactic(auto, unfolding(guest_pages::specs::Finding::any_cell))]
fn has_code(pages: &Pages, at: u64, count: u64) -> bool
    requires { at % 4096 ≡ 0 }
    ensures { result ≡ touches_code pages.now at (inside_of at (4096 * count)) }
{
    let count = pages_inside(at, count);
    if count == 0 {
        return false;
    }
    pages.touches_code(at, count)
}

/// Whether a page of a range, as far as it lies within user addresses, is mapped.
#[tactic(auto, unfolding(guest_pages::specs::Finding::any_cell))]
fn has_maps(pages: &Pages, at: u64, count: u64) -> bool
    requires { at % 4096 ≡ 0 }
    ensures { result ≡ any_mapped pages.now at (inside_of at (4096 * count)) }
{
    let count = pages_inside(at, count);
    if count == 0 {
        return false;
    }
    pages.any_mapped(at, count)
}

/// Bytes come into pages that were placed with these rights.
fn fill_pages(pages: &mut Pages, at: u64, size: u64, bytes: &[u8], rights: Rights)
    requires good { has_none rights ≡ false → first_fault rights pages.old at (length bytes.now) ≡ None }
    requires fits { length bytes.now ≤ size }
    ensures { pages.new ≡ filled at size bytes.now rights pages.old }
{
    if rights.has_none() {
        return;
    }
    pages.fill(at, bytes, rights);
}

/// Pages at a place, with bytes in front and zeros behind them.
#[tactic(auto, unfolding(crate::specs::Maps::placed_at))]
fn place_at(
    alloc: Global,
    pages: &mut Pages,
    at: u64,
    count: u64,
    rights: Rights,
    bytes: &[u8],
) -> Result<i64, AllocError>
    requires aligned { at % 4096 ≡ 0 }
    requires inside { at + 4096 * count ≤ user_end }
    requires fits { length bytes.now ≤ 4096 * count }
    ensures answer { IfOk result (λ answer. record { memory = pages.new; answer = answer } ≡ placed_at at (4096 * count) rights bytes.now pages.old) }
    ensures err { OnErr result (pages.new ≡ pages.old) }
{
    match pages.map(alloc, at, count, rights) {
        Ok(()) => {
            fill_pages(pages, at, PAGE_SIZE * count, bytes, rights);
            Ok(at as i64)
        }
        Err(MapFault::Memory) => Err(AllocError),
        Err(MapFault::NotMapped(_)) => Err(AllocError),
        Err(MapFault::PagesFull { .. }) => Ok(-Errno::ENOMEM.code()),
    }
}

#[tactic(auto, unfolding(crate::specs::Maps::placed_fixed))]
fn place_fixed(
    alloc: Global,
    pages: &mut Pages,
    at: u64,
    count: u64,
    rights: Rights,
    bytes: &[u8],
) -> Result<i64, AllocError>
    requires aligned { at % 4096 ≡ 0 }
    requires fits { length bytes.now ≤ 4096 * count }
    ensures answer { IfOk result (λ answer. record { memory = pages.new; answer = answer } ≡ placed_fixed at (4096 * count) rights bytes.now pages.old) }
    ensures err { OnErr result (pages.new ≡ pages.old) }
{
    if has_code(pages, at, count) {
        return Ok(-Errno::EACCES.code());
    }
    if is_outside(at, count) {
        return Ok(-Errno::ENOMEM.code());
    }
    place_at(alloc, pages, at, count, rights, bytes)
}

#[tactic(auto, unfolding(crate::specs::Maps::placed_anywhere))]
fn place_anywhere(
    alloc: Global,
    pages: &mut Pages,
    count: u64,
    rights: Rights,
    bytes: &[u8],
) -> Result<i64, AllocError>
    requires { length bytes.now ≤ 4096 * count }
    ensures answer { IfOk result (λ answer. record { memory = pages.new; answer = answer } ≡ placed_anywhere count rights bytes.now pages.old) }
    ensures err { OnErr result (pages.new ≡ pages.old) }
{
    match pages.find_free(count) {
        None => Ok(-Errno::ENOMEM.code()),
        Some(at) => place_at(alloc, pages, at, count, rights, bytes),
    }
}

/// A map at its place, or anywhere.
fn place(
    alloc: Global,
    pages: &mut Pages,
    at: u64,
    count: u64,
    rights: Rights,
    flags: u64,
    bytes: &[u8],
) -> Result<i64, AllocError>
    requires aligned { has_place flags ≡ true → at % 4096 ≡ 0 }
    requires fits { length bytes.now ≤ 4096 * count }
    ensures answer { IfOk result (λ answer. record { memory = pages.new; answer = answer } ≡ placed_so at count rights flags bytes.now pages.old) }
    ensures err { OnErr result (pages.new ≡ pages.old) }
{
    if is_fixed(flags) {
        return place_fixed(alloc, pages, at, count, rights, bytes);
    }
    place_anywhere(alloc, pages, count, rights, bytes)
}

impl Host {
    /// Unmaps pages.
    ///
    /// References: munmap(2).
    #[tactic(auto, unfolding(crate::specs::Maps::munmap))]
    pub(crate) fn munmap(&mut self, at: u64, length: u64) -> i64
        ensures answer { gives result self.new ≡ unmaps at length (shared_of self.old) }
        ensures pending { self.new.pending ≡ self.old.pending }
    {
        let count = pages_of(length);
        if at % PAGE_SIZE != 0 || length == 0 || is_outside(at, count) {
            return -Errno::EINVAL.code();
        }
        if self.pages.touches_code(at, count) {
            return -Errno::EACCES.code();
        }
        self.pages.unmap(at, count);
        0
    }

    /// Gives pages other rights.
    ///
    /// References: mprotect(2).
    #[tactic(auto, unfolding(crate::specs::Maps::mprotect))]
    pub(crate) fn mprotect(
        &mut self,
        at: u64,
        length: u64,
        protection: u64,
    ) -> Result<i64, AllocError>
        ensures answer { IfOk result (λ answer. gives answer self.new ≡ protects at length protection (shared_of self.old)) }
        ensures pending { self.new.pending ≡ self.old.pending }
        ensures err { OnErr result (self.new ≡ self.old) }
    {
        let count = pages_of(length);
        if at % PAGE_SIZE != 0 {
            return Ok(-Errno::EINVAL.code());
        }
        if has_bit(protection, 4) || has_code(&self.pages, at, count) {
            return Ok(-Errno::EACCES.code());
        }
        if is_outside(at, count) {
            return Ok(-Errno::ENOMEM.code());
        }
        let alloc = self.files.alloc();
        match self.pages.protect(alloc, at, count, rights_of(protection)) {
            Ok(()) => Ok(0),
            Err(MapFault::Memory) => Err(AllocError),
            Err(MapFault::NotMapped(_)) => Ok(-Errno::ENOMEM.code()),
            Err(MapFault::PagesFull { .. }) => Ok(-Errno::ENOMEM.code()),
        }
    }

    /// Maps pages of zeros, or a copy of a file's bytes. It costs by its pages that are stored before or after, by a bit for each
    /// other, and by the bytes.
    ///
    /// References: mmap(2).
    #[tactic(auto, unfolding(crate::specs::Maps::mmap))]
    pub(crate) fn mmap(
        &mut self,
        at: u64,
        size: u64,
        protection: u64,
        flags: u64,
        descriptor: u64,
        offset: u64,
    ) -> Result<i64, AllocError>
        ensures answer { IfOk result (λ answer. gives answer self.new ≡ maps at size protection flags descriptor offset (shared_of self.old)) }
        ensures pending { self.new.pending ≡ self.old.pending }
        ensures err { OnErr result (self.new ≡ self.old) }
    {
        if are_wrong(flags)
            || size == 0
            || offset % PAGE_SIZE != 0
            || (is_fixed(flags) && at % PAGE_SIZE != 0)
        {
            return Ok(-Errno::EINVAL.code());
        }
        if !has_bit(flags, 0x20) && self.files.what(descriptor).is_none() {
            return Ok(-Errno::EBADF.code());
        }
        if has_bit(protection, 4) {
            return Ok(-Errno::EACCES.code());
        }
        let count = pages_of(size);
        if has_bit(flags, 0x10_0000) && has_maps(&self.pages, at, count) {
            return Ok(-Errno::EEXIST.code());
        }
        self.map(at, count, rights_of(protection), flags, descriptor, offset)
    }

    /// Maps pages, of a file where the flags say so.
    fn map(
        &mut self,
        at: u64,
        count: u64,
        rights: Rights,
        flags: u64,
        descriptor: u64,
        offset: u64,
    ) -> Result<i64, AllocError>
        requires aligned { has_place flags ≡ true → at % 4096 ≡ 0 }
        ensures answer { IfOk result (λ answer. gives answer self.new ≡ mapped_with at count rights flags (contents flags descriptor offset (4096 * count) self.old.files) (shared_of self.old)) }
        ensures pending { self.new.pending ≡ self.old.pending }
        ensures err { OnErr result (self.new ≡ self.old) }
    {
        let alloc = self.files.alloc();
        if has_bit(flags, 0x20) {
            return place(alloc, &mut self.pages, at, count, rights, flags, &[]);
        }
        if flags % 16 == 1 {
            return Ok(-Errno::ENODEV.code());
        }
        match self
            .files
            .peek_at(descriptor, offset, PAGE_SIZE * count.min(MOST_FILE_PAGES))
        {
            Ok(bytes) => place(alloc, &mut self.pages, at, count, rights, flags, bytes),
            Err(Errno::EBADF) => Ok(-Errno::EACCES.code()),
            Err(_) => Ok(-Errno::ENODEV.code()),
        }
    }

    /// Moves the break.
    ///
    /// References: brk(2).
    #[tactic(auto, unfolding(crate::specs::Maps::brk))]
    pub(crate) fn brk(&mut self, wish: u64) -> Result<i64, AllocError>
        ensures answer { IfOk result (λ answer. gives answer self.new ≡ moves_break wish (shared_of self.old)) }
        ensures pending { self.new.pending ≡ self.old.pending }
        ensures err { OnErr result (self.new ≡ self.old) }
    {
        let first = self.program_break.first();
        let present = self.program_break.present();
        if wish < first || first + MOST_BREAK < wish {
            return Ok(present as i64);
        }
        let old = pages_of(present);
        let new = pages_of(wish);
        if old < new {
            return self.raise(wish, PAGE_SIZE * old, new - old);
        }
        Ok(self.lower(wish, PAGE_SIZE * new, old - new))
    }

    #[tactic(auto, unfolding(crate::specs::Maps::raised))]
    fn raise(&mut self, address: u64, from: u64, count: u64) -> Result<i64, AllocError>
        requires aligned { from % 4096 ≡ 0 }
        requires inside { from + 4096 * count ≤ user_end }
        requires low { self.old.program_break.first ≤ address }
        requires high { address ≤ self.old.program_break.first + most_break }
        requires small { address ≤ user_end }
        ensures answer { IfOk result (λ answer. gives answer self.new ≡ raised address from (4096 * count) (shared_of self.old)) }
        ensures pending { self.new.pending ≡ self.old.pending }
        ensures err { OnErr result (self.new ≡ self.old) }
    {
        if self.pages.any_mapped(from, count) {
            return Ok(self.program_break.present() as i64);
        }
        let alloc = self.files.alloc();
        match self.pages.map(alloc, from, count, CHANGEABLE) {
            Ok(()) => {
                self.program_break.set(address);
                Ok(address as i64)
            }
            Err(MapFault::Memory) => Err(AllocError),
            Err(MapFault::NotMapped(_)) => Err(AllocError),
            Err(MapFault::PagesFull { .. }) => Ok(self.program_break.present() as i64),
        }
    }

    #[tactic(auto, unfolding(crate::specs::Maps::lowered))]
    fn lower(&mut self, address: u64, from: u64, count: u64) -> i64
        requires aligned { from % 4096 ≡ 0 }
        requires inside { from + 4096 * count ≤ user_end }
        requires low { self.old.program_break.first ≤ address }
        requires high { address ≤ self.old.program_break.first + most_break }
        requires small { address ≤ user_end }
        ensures answer { gives result self.new ≡ lowered address from (4096 * count) (shared_of self.old) }
        ensures pending { self.new.pending ≡ self.old.pending }
    {
        if self.pages.touches_code(from, count) {
            return self.program_break.present() as i64;
        }
        self.pages.unmap(from, count);
        self.program_break.set(address);
        address as i64
    }
}

/// Whether the flags ask for what isn't there, or not for one of the two kinds of map.
fn are_wrong(flags: u64) -> bool
    ensures { result ≡ are_wrong_flags flags }
{
    !(flags % 16 == 1 || flags % 16 == 2) || has_bit(flags, 0x100) || has_bit(flags, 0x4_0000)
}

/// Whether the map has its place.
fn is_fixed(flags: u64) -> bool
    ensures { result ≡ has_place flags }
{
    has_bit(flags, 0x10) || has_bit(flags, 0x10_0000)
}
