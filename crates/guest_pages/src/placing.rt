//! The change of the pages of a range.

ghost use Rattle.std.specs.Prelude.{slice_get, ◌≡◌, ◌≢◌, ◌+◌, ◌*◌, ◌-◌, ◌<◌, ◌≤◌, ◌^◌, ℕ, length, true, false, not, if◌then◌else◌, OnOk, OnErr};
ghost use Rattle.std.specs.List.{All};
ghost use Rattle.guest_pages.specs.Cells.{cell, has_none};
ghost use Rattle.guest_pages.specs.Counting.{one_if, count_pages};
ghost use Rattle.guest_pages.specs.Mapping.{HasMark, HasRoom, IsFresh, room_of, with_new_rights, with_nothing, with_zeros};
ghost use Rattle.guest_pages.specs.Ranges.{within};
ghost use Rattle.guest_pages.specs.Operations.{with_rights, stored_pages};
ghost use Rattle.guest_pages.specs.Tables.{cell_in, cells, held, mark_at, page_at, right_in, rows_of};

use crate::fresh::{fresh_pages, stored_of};
use crate::looking::{rows, without_pages};
use crate::page::{Page, Table};
use crate::rights::Rights;
use crate::tables::{empty_rows, has_room, make_room, mark_pages, put_page, take_page};
use std::alloc::{AllocError, Global};

/// A page of zeros with these rights.
fn blank(rights: Rights, fresh: &mut Vec<Box<[u8; 4096]>>) -> Page
    requires zero { All IsFresh fresh.old.items }
    requires enough { has_none rights ≡ false → 0 < length fresh.old.items }
    ensures zeros { (k : ℕ) → cell_in result k ≡ Some (cell rights 0) }
    ensures zero { All IsFresh fresh.new.items }
    ensures left { length fresh.old.items ≤ length fresh.new.items + 1 }
{
    if rights.has_none() {
        return Page::Bare;
    }
    match fresh.pop() {
        Some(bytes) => Page::Held(rights, bytes),
        None => unreachable!(),
    }
}

/// The pages of a range become pages of zeros with these rights.
fn place_rows(
    tables: &mut Vec<Table>,
    first: u64,
    count: u64,
    rights: Rights,
    fresh: &mut Vec<Box<[u8; 4096]>>,
)
    requires range { first + count ≤ 2 ^ 26 }
    requires room { (n : ℕ) → first ≤ n → n < first + count → HasRoom tables.old.items n }
    requires zero { All IsFresh fresh.old.items }
    requires enough { has_none rights ≡ false → count ≤ length fresh.old.items }
    ensures cells { (a : ℕ) → cells tables.new.items a ≡ with_zeros (4096 * first) (4096 * count) rights (cells tables.old.items) a }
    ensures marks { (n : ℕ) → mark_at tables.new.items n ≡ mark_at tables.old.items n }
    ensures size { length tables.new.items ≡ length tables.old.items }
{
    for i in 0..count {
        let page = blank(rights, fresh);
        put_page(tables, first + i, page);
    }
}

/// The pages of a range are mapped, and become pages of zeros with these rights.
fn hold_rows(
    tables: &mut Vec<Table>,
    first: u64,
    count: u64,
    rights: Rights,
    fresh: &mut Vec<Box<[u8; 4096]>>,
)
    requires range { first + count ≤ 2 ^ 26 }
    requires words { (n : ℕ) → first ≤ n → n < first + count → HasMark tables.old.items n }
    requires room { (n : ℕ) → first ≤ n → n < first + count → HasRoom tables.old.items n }
    requires zero { All IsFresh fresh.old.items }
    requires enough { has_none rights ≡ false → count ≤ length fresh.old.items }
    ensures cells { (a : ℕ) → cells tables.new.items a ≡ with_zeros (4096 * first) (4096 * count) rights (cells tables.old.items) a }
    ensures marks { (n : ℕ) → mark_at tables.new.items n ≡ (if within first count n then true else mark_at tables.old.items n) }
    ensures size { length tables.new.items ≡ length tables.old.items }
{
    mark_pages(tables, first, count, true);
    place_rows(tables, first, count, rights, fresh);
}

/// How many pages of a range are stored with these rights.
pub(crate) fn needed_for(rights: Rights, count: u64) -> u64
    ensures { result ≡ (if not (has_none rights) then count else 0) }
{
    if rights.has_none() { 0 } else { count }
}

/// How many pages are stored after all pages of a range have these rights.
pub(crate) fn wanted_pages(
    tables: &[Table],
    stored: u64,
    first: u64,
    count: u64,
    rights: Rights,
) -> u64
    requires range { first + count ≤ 2 ^ 26 }
    requires counted { stored ≡ stored_pages (held tables.now) }
    ensures { result + count_pages (cells tables.now) first count ≡ stored + (if not (has_none rights) then count else 0) }
{
    stored - stored_of(tables, first, count) + needed_for(rights, count)
}

/// Nothing is mapped in the pages of a range, where there may be no tables.
pub(crate) fn clear_pages(tables: &mut Option<Vec<Table>>, first: u64, count: u64)
    requires { first + count ≤ 2 ^ 26 }
    ensures cells { (a : ℕ) → cells (rows_of tables.new) a ≡ with_nothing (4096 * first) (4096 * count) (cells (rows_of tables.old)) a }
    ensures marks { (n : ℕ) → mark_at (rows_of tables.new) n ≡ (if within first count n then false else mark_at (rows_of tables.old) n) }
    ensures size { length (rows_of tables.new) ≡ length (rows_of tables.old) }
{
    match tables {
        Some(rows) => empty_rows(rows, first, count, false),
        None => {}
    }
}

/// The pages of a range, for which there is room, become pages of zeros with these rights.
fn fill_rows(
    tables: &mut Vec<Table>,
    first: u64,
    count: u64,
    rights: Rights,
    fresh: &mut Vec<Box<[u8; 4096]>>,
)
    requires range { first + count ≤ 2 ^ 26 }
    requires words { (n : ℕ) → first ≤ n → n < first + count → HasMark tables.old.items n }
    requires room { has_none rights ≡ false → (n : ℕ) → first ≤ n → n < first + count → HasRoom tables.old.items n }
    requires zero { All IsFresh fresh.old.items }
    requires enough { has_none rights ≡ false → count ≤ length fresh.old.items }
    ensures cells { (a : ℕ) → cells tables.new.items a ≡ with_zeros (4096 * first) (4096 * count) rights (cells tables.old.items) a }
    ensures marks { (n : ℕ) → mark_at tables.new.items n ≡ (if within first count n then true else mark_at tables.old.items n) }
    ensures size { length tables.new.items ≡ length tables.old.items }
{
    if rights.has_none() {
        empty_rows(tables, first, count, true);
    } else {
        hold_rows(tables, first, count, rights, fresh);
    }
}

/// The same where there may be no tables.
fn fill_pages(
    tables: &mut Option<Vec<Table>>,
    first: u64,
    count: u64,
    rights: Rights,
    fresh: &mut Vec<Box<[u8; 4096]>>,
)
    requires range { first + count ≤ 2 ^ 26 }
    requires words { (n : ℕ) → first ≤ n → n < first + count → HasMark (rows_of tables.old) n }
    requires room { has_none rights ≡ false → (n : ℕ) → first ≤ n → n < first + count → HasRoom (rows_of tables.old) n }
    requires zero { All IsFresh fresh.old.items }
    requires enough { has_none rights ≡ false → count ≤ length fresh.old.items }
    ensures cells { (a : ℕ) → cells (rows_of tables.new) a ≡ with_zeros (4096 * first) (4096 * count) rights (cells (rows_of tables.old)) a }
    ensures marks { (n : ℕ) → mark_at (rows_of tables.new) n ≡ (if within first count n then true else mark_at (rows_of tables.old) n) }
    ensures size { length (rows_of tables.new) ≡ length (rows_of tables.old) }
{
    match tables {
        Some(rows) => fill_rows(rows, first, count, rights, fresh),
        None => {}
    }
}

/// The pages of a range become pages of zeros with these rights. Where memory is wanting, none does.
pub(crate) fn map_pages(
    alloc: Global,
    tables: &mut Option<Vec<Table>>,
    first: u64,
    count: u64,
    rights: Rights,
) -> Result<(), AllocError>
    requires { first + count ≤ 2 ^ 26 }
    ensures ok { OnOk result ((a : ℕ) → cells (rows_of tables.new) a ≡ with_zeros (4096 * first) (4096 * count) rights (cells (rows_of tables.old)) a) }
    ensures marks { OnOk result ((n : ℕ) → mark_at (rows_of tables.new) n ≡ (if within first count n then true else mark_at (rows_of tables.old) n)) }
    ensures err { OnErr result ((a : ℕ) → cells (rows_of tables.new) a ≡ cells (rows_of tables.old) a) }
    ensures still { OnErr result ((n : ℕ) → mark_at (rows_of tables.new) n ≡ mark_at (rows_of tables.old) n) }
    ensures small { length (rows_of tables.old) ≤ 8192 → length (rows_of tables.new) ≤ 8192 }
{
    match fresh_pages(alloc, needed_for(rights, count)) {
        Err(_) => Err(AllocError),
        Ok(mut fresh) => match make_room(alloc, tables, first, count, !rights.has_none()) {
            Err(_) => Err(AllocError),
            Ok(()) => {
                fill_pages(tables, first, count, rights, &mut fresh);
                Ok(())
            }
        },
    }
}

/// A page with other rights. What loses all rights loses its bytes, and what gains a right from none is zero.
fn changed(page: Page, rights: Rights, fresh: &mut Vec<Box<[u8; 4096]>>) -> Page
    requires zero { All IsFresh fresh.old.items }
    requires enough { has_none rights ≡ false → right_in page ≡ false → 0 < length fresh.old.items }
    ensures cells { (k : ℕ) → cell_in result k ≡ with_rights rights (cell_in page k) }
    ensures zero { All IsFresh fresh.new.items }
    ensures left { length fresh.old.items + one_if (right_in page) ≤ length fresh.new.items + 1 }
{
    match page {
        Page::Absent => Page::Absent,
        Page::Bare => blank(rights, fresh),
        Page::Held(old, bytes) => {
            if old.has_none() {
                blank(rights, fresh)
            } else if rights.has_none() {
                Page::Bare
            } else {
                Page::Held(rights, bytes)
            }
        }
    }
}

/// One page gets other rights. One without room has none, and gets none.
fn change_page(
    tables: &mut Vec<Table>,
    number: u64,
    rights: Rights,
    fresh: &mut Vec<Box<[u8; 4096]>>,
)
    requires room { has_none rights ≡ false → HasRoom tables.old.items number }
    requires zero { All IsFresh fresh.old.items }
    requires enough { has_none rights ≡ false → right_in (page_at tables.old.items number) ≡ false → 0 < length fresh.old.items }
    ensures same { (k : ℕ) → cell_in (page_at tables.new.items number) k ≡ with_rights rights (cell_in (page_at tables.old.items number) k) }
    ensures others { (n : ℕ) → n ≢ number → page_at tables.new.items n ≡ page_at tables.old.items n }
    ensures marks { (n : ℕ) → mark_at tables.new.items n ≡ mark_at tables.old.items n }
    ensures rooms { (k : ℕ) → room_of (slice_get tables.new.items k) ≡ room_of (slice_get tables.old.items k) }
    ensures size { length tables.new.items ≡ length tables.old.items }
    ensures zero { All IsFresh fresh.new.items }
    ensures left { length fresh.old.items + one_if (right_in (page_at tables.old.items number)) ≤ length fresh.new.items + 1 }
{
    if has_room(tables.as_slice(), number) {
        let old = take_page(tables, number);
        let page = changed(old, rights, fresh);
        put_page(tables, number, page);
    }
}

/// The pages of a range get other rights. Tables without pages are passed as a whole, where the rights are none.
fn change_rows(
    tables: &mut Vec<Table>,
    first: u64,
    count: u64,
    rights: Rights,
    fresh: &mut Vec<Box<[u8; 4096]>>,
)
    requires range { first + count ≤ 2 ^ 26 }
    requires room { has_none rights ≡ false → (n : ℕ) → first ≤ n → n < first + count → HasRoom tables.old.items n }
    requires zero { All IsFresh fresh.old.items }
    requires enough { has_none rights ≡ false → count ≤ length fresh.old.items + count_pages (cells tables.old.items) first count }
    ensures cells { (a : ℕ) → cells tables.new.items a ≡ with_new_rights (4096 * first) (4096 * count) rights (cells tables.old.items) a }
    ensures marks { (n : ℕ) → mark_at tables.new.items n ≡ mark_at tables.old.items n }
    ensures size { length tables.new.items ≡ length tables.old.items }
{
    let mut done = 0;
    'changing: while done < count {
        let passed = without_pages(tables.as_slice(), first + done, count - done);
        if passed > 0 {
            done += passed;
        } else {
            change_page(tables, first + done, rights, fresh);
            done += 1;
        }
    }
}

/// The same where there may be no tables.
fn change_pages(
    tables: &mut Option<Vec<Table>>,
    first: u64,
    count: u64,
    rights: Rights,
    fresh: &mut Vec<Box<[u8; 4096]>>,
)
    requires range { first + count ≤ 2 ^ 26 }
    requires room { has_none rights ≡ false → (n : ℕ) → first ≤ n → n < first + count → HasRoom (rows_of tables.old) n }
    requires zero { All IsFresh fresh.old.items }
    requires enough { has_none rights ≡ false → count ≤ length fresh.old.items + count_pages (cells (rows_of tables.old)) first count }
    ensures cells { (a : ℕ) → cells (rows_of tables.new) a ≡ with_new_rights (4096 * first) (4096 * count) rights (cells (rows_of tables.old)) a }
    ensures marks { (n : ℕ) → mark_at (rows_of tables.new) n ≡ mark_at (rows_of tables.old) n }
    ensures size { length (rows_of tables.new) ≡ length (rows_of tables.old) }
{
    match tables {
        Some(rows) => change_rows(rows, first, count, rights, fresh),
        None => {}
    }
}

/// The pages of a range, all of which are mapped, get other rights. Where memory is wanting, none does.
pub(crate) fn protect_pages(
    alloc: Global,
    tables: &mut Option<Vec<Table>>,
    first: u64,
    count: u64,
    rights: Rights,
) -> Result<(), AllocError>
    requires range { first + count ≤ 2 ^ 26 }
    ensures ok { OnOk result ((a : ℕ) → cells (rows_of tables.new) a ≡ with_new_rights (4096 * first) (4096 * count) rights (cells (rows_of tables.old)) a) }
    ensures err { OnErr result ((a : ℕ) → cells (rows_of tables.new) a ≡ cells (rows_of tables.old) a) }
    ensures marks { (n : ℕ) → mark_at (rows_of tables.new) n ≡ mark_at (rows_of tables.old) n }
    ensures small { length (rows_of tables.old) ≤ 8192 → length (rows_of tables.new) ≤ 8192 }
{
    let bare = count - stored_of(rows(tables), first, count);
    match fresh_pages(alloc, needed_for(rights, bare)) {
        Err(_) => Err(AllocError),
        Ok(mut fresh) => match room_for(alloc, tables, first, count, rights) {
            Err(_) => Err(AllocError),
            Ok(()) => {
                change_pages(tables, first, count, rights, &mut fresh);
                Ok(())
            }
        },
    }
}

/// Makes room for the pages of a range, if they will have a right.
fn room_for(
    alloc: Global,
    tables: &mut Option<Vec<Table>>,
    first: u64,
    count: u64,
    rights: Rights,
) -> Result<(), AllocError>
    requires { first + count ≤ 2 ^ 26 }
    ensures pages { (n : ℕ) → page_at (rows_of tables.new) n ≡ page_at (rows_of tables.old) n }
    ensures marks { (n : ℕ) → mark_at (rows_of tables.new) n ≡ mark_at (rows_of tables.old) n }
    ensures small { length (rows_of tables.old) ≤ 8192 → length (rows_of tables.new) ≤ 8192 }
    ensures room { OnOk result (has_none rights ≡ false → (n : ℕ) → first ≤ n → n < first + count → HasRoom (rows_of tables.new) n) }
{
    if rights.has_none() {
        Ok(())
    } else {
        make_room(alloc, tables, first, count, true)
    }
}
