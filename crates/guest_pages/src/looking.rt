//! The look-up of pages, and the test of a range of addresses.

ghost use Rattle.std.specs.Prelude.{take, drop, ◌≡◌, ◌+◌, ◌/◌, ◌<◌, ◌≤◌, ◌^◌, ℕ, true, slice_get, length, Some, None, IfSome, OnOk, MatchOption};
ghost use Rattle.byteorder.specs.Endian.{little_number};
ghost use Rattle.guest_pages.specs.Sizes.{size_of};
ghost use Rattle.guest_pages.specs.Faults.{first_fault, answer_or};
ghost use Rattle.guest_pages.specs.Mapping.{room_of};
ghost use Rattle.guest_pages.specs.Tables.{bare_if, mark_at, page_at, fault_in, held_in, held, rows_of};

use crate::bits::is_set;
use crate::fault::PageFault;
use crate::page::{Page, Table};
use crate::rights::{NOTHING, Rights};
use crate::width::Width;
use byteorder::{ByteOrder, LittleEndian};

/// The tables.
#[inline]
pub(crate) fn rows(tables: &Option<Vec<Table>>) -> &[Table]
    ensures { result.now ≡ rows_of tables.now }
{
    match tables {
        Some(tables) => tables.as_slice(),
        None => &[],
    }
}

/// The page with a number, if its table has pages.
#[inline]
#[tactic(auto, unfolding(crate::specs::Tables::page_at, crate::specs::Tables::mark_at))]
pub(crate) fn page_of(tables: &[Table], number: u64) -> Option<&Page>
    ensures { MatchOption result
        (page_at tables.now number ≡ bare_if (mark_at tables.now number))
        (λ page. page_at tables.now number ≡ page.now) }
{
    let table = tables.get((number / 8192) as usize)?;
    table.pages.as_slice().get((number % 8192) as usize)
}

/// Whether the page with a number is marked as mapped.
#[tactic(auto, unfolding(crate::specs::Tables::mark_at))]
pub(crate) fn mark_at(tables: &[Table], number: u64) -> bool
    ensures { result ≡ mark_at tables.now number }
{
    match tables.get((number / 8192) as usize) {
        Some(table) => is_set(table.mapped.as_slice(), number % 8192),
        None => false,
    }
}

/// Whether no page of a table has had a right.
fn has_no_pages(tables: &[Table], place: u64) -> bool
    ensures { result ≡ true → room_of (slice_get tables.now place) ≡ 0 }
{
    match tables.get(place as usize) {
        Some(table) => table.pages.is_empty(),
        None => true,
    }
}

/// How many of `count` pages from one on are in the first one's table, if that is without pages; or 0.
pub(crate) fn without_pages(tables: &[Table], number: u64, count: u64) -> u64
    ensures few { result ≤ count }
    ensures none { (n : ℕ) → number ≤ n → n < number + result → room_of (slice_get tables.now (n / 8192)) ≡ 0 }
{
    if has_no_pages(tables, number / 8192) {
        count.min(8192 - number % 8192)
    } else {
        0
    }
}

/// What is wrong with an address of a page that stores nothing, where these rights are needed.
fn fault_unless(mapped: bool, at: u64, needed: Rights) -> Option<PageFault>
    ensures { result ≡ fault_in needed (bare_if mapped) at }
{
    if !mapped {
        Some(PageFault::NotMapped(at))
    } else if NOTHING.include(needed) {
        None
    } else {
        Some(PageFault::NoAccess(at))
    }
}

/// What is wrong with an address, where these rights are needed.
#[inline]
pub(crate) fn fault_at(tables: &[Table], at: u64, needed: Rights) -> Option<PageFault>
    ensures { result ≡ fault_in needed (page_at tables.now (at / 4096)) at }
{
    match page_of(tables, at / 4096) {
        None => fault_unless(mark_at(tables, at / 4096), at, needed),
        Some(Page::Absent) => fault_unless(false, at, needed),
        Some(Page::Bare) => fault_unless(true, at, needed),
        Some(Page::Held(rights, _)) => {
            if rights.include(needed) {
                None
            } else {
                Some(PageFault::NoAccess(at))
            }
        }
    }
}

/// The bytes of an array.
#[inline]
fn all_of(bytes: &[u8; 4096]) -> &[u8]
    ensures value { result.now ≡ bytes.now }
    ensures size { length result.now ≡ 4096 }
{
    bytes
}

/// The bytes of a page that has these rights.
#[inline]
pub(crate) fn bytes_of(tables: &[Table], number: u64, needed: Rights) -> Option<&[u8]>
    ensures bytes { MatchOption result
        (held_in needed (page_at tables.now number) ≡ None)
        (λ bytes. held_in needed (page_at tables.now number) ≡ Some bytes.now) }
    ensures size { IfSome result (λ bytes. length bytes.now ≡ 4096) }
{
    match page_of(tables, number) {
        Some(Page::Held(rights, bytes)) => {
            if rights.include(needed) {
                Some(all_of(&**bytes))
            } else {
                None
            }
        }
        Some(Page::Absent) => None,
        Some(Page::Bare) => None,
        None => None,
    }
}

/// Whether each of `count` bytes from `at` on has these rights. It goes page by page, and takes no memory.
pub(crate) fn allows(tables: &[Table], at: u64, count: u64, needed: Rights) -> Result<(), PageFault>
    requires { length tables.now ≤ 8192 }
    ensures { result ≡ answer_or (first_fault needed (held tables.now) at count) tt }
{
    let mut place = at;
    let mut left = count;
    while left > 0 {
        if let Some(fault) = fault_at(tables, place, needed) {
            return Err(fault);
        }
        let room = 4096 - place % 4096;
        if left <= room {
            return Ok(());
        }
        place += room;
        left -= room;
    }
    Ok(())
}

/// The half word in the bytes from a place on, the lowest byte first.
#[inline]
pub(crate) fn half_at(bytes: &[u8], place: usize) -> u16
    requires { place + 2 ≤ length bytes.now }
    ensures { result ≡ little_number 2 (take 2 (drop place bytes.now)) }
{
    LittleEndian::read_u16(&bytes[place..place + 2])
}

/// The number in the bytes from a place on, the lowest byte first.
#[inline]
pub(crate) fn number_at(bytes: &[u8], place: usize, width: Width) -> u64
    requires { place + size_of width ≤ length bytes.now }
    ensures { result ≡ little_number (size_of width) (take (size_of width) (drop place bytes.now)) }
{
    match width {
        Width::One => u64::from(bytes[place]),
        Width::Two => u64::from(half_at(bytes, place)),
        Width::Four => u64::from(LittleEndian::read_u32(&bytes[place..place + 4])),
        Width::Eight => LittleEndian::read_u64(&bytes[place..place + 8]),
    }
}
