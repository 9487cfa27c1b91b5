//! Room in the tables, and the change of pages.

ghost use Rattle.std.specs.Prelude.{◌/◌, ◌%◌, true, false, slice_get, ◌≡◌, ◌≢◌, ◌⊎◌, ◌+◌, ◌*◌, ◌<◌, ◌≤◌, ◌^◌, ℕ, Some, length, if◌then◌else◌, OnOk};
ghost use Rattle.guest_pages.specs.Bits.{bit_of};
ghost use Rattle.guest_pages.specs.Mapping.{HasMark, HasRoom, room_of, words_of};
ghost use Rattle.guest_pages.specs.Ranges.{within};
ghost use Rattle.guest_pages.specs.Tables.{bare_if, mark_at, page_at, page_in, rows_of};

use crate::bits::{is_set, mark_bits};
use crate::looking::without_pages;
use crate::page::{Page, Table};
use std::alloc::{AllocError, Global};
use std::mem;

/// Adds tables with no room until there are as many as wanted.
fn add_tables(alloc: Global, tables: &mut Vec<Table>, wanted: usize) -> Result<(), AllocError>
    requires { wanted ≤ 8192 }
    ensures pages { (n : ℕ) → page_at tables.new.items n ≡ page_at tables.old.items n }
    ensures marks { (n : ℕ) → mark_at tables.new.items n ≡ mark_at tables.old.items n }
    ensures small { length tables.old.items ≤ 8192 → length tables.new.items ≤ 8192 }
    ensures enough { OnOk result (wanted ≤ length tables.new.items) }
{
    'adding: while tables.len() < wanted {
        let pages = Vec::new(alloc);
        let mapped = Vec::new(alloc);
        tables.push(Table { pages, mapped })?;
    }
    Ok(())
}

/// A page that stores nothing.
pub(crate) fn bare_if(mapped: bool) -> Page
    ensures { result ≡ bare_if mapped }
{
    if mapped { Page::Bare } else { Page::Absent }
}

/// Makes room for all pages of a table.
fn fill_table(table: &mut Table) -> Result<(), AllocError>
    ensures pages { (n : ℕ) → page_in (Some table.new) n ≡ page_in (Some table.old) n }
    ensures marks { table.new.mapped ≡ table.old.mapped }
    ensures room { length table.old.pages.items ≤ length table.new.pages.items }
    ensures full { OnOk result (8192 ≤ length table.new.pages.items) }
{
    table.pages.reserve(8192 - table.pages.len().min(8192))?;
    'filling: while table.pages.len() < 8192 {
        let mapped = is_set(table.mapped.as_slice(), table.pages.len() as u64);
        table.pages.push(bare_if(mapped))?;
    }
    Ok(())
}

/// Makes words for the marks of all pages of a table.
fn fill_marks(table: &mut Table) -> Result<(), AllocError>
    ensures pages { table.new.pages ≡ table.old.pages }
    ensures marks { (n : ℕ) → bit_of table.new.mapped.items n ≡ bit_of table.old.mapped.items n }
    ensures room { length table.old.mapped.items ≤ length table.new.mapped.items }
    ensures full { OnOk result (128 ≤ length table.new.mapped.items) }
{
    table.mapped.reserve(128 - table.mapped.len().min(128))?;
    'filling: while table.mapped.len() < 128 {
        table.mapped.push(0)?;
    }
    Ok(())
}

/// Changes one page.
pub(crate) fn put_page(tables: &mut Vec<Table>, number: u64, page: Page)
    requires { HasRoom tables.old.items number }
    ensures same { page_at tables.new.items number ≡ page }
    ensures others { (n : ℕ) → n ≢ number → page_at tables.new.items n ≡ page_at tables.old.items n }
    ensures marks { (n : ℕ) → mark_at tables.new.items n ≡ mark_at tables.old.items n }
    ensures rooms { (k : ℕ) → room_of (slice_get tables.new.items k) ≡ room_of (slice_get tables.old.items k) }
    ensures size { length tables.new.items ≡ length tables.old.items }
{
    let table = &mut tables[(number / 8192) as usize];
    table.pages[(number % 8192) as usize] = page;
}

/// Takes one page out.
pub(crate) fn take_page(tables: &mut Vec<Table>, number: u64) -> Page
    requires { HasRoom tables.old.items number }
    ensures page { result ≡ page_at tables.old.items number }
    ensures others { (n : ℕ) → n ≢ number → page_at tables.new.items n ≡ page_at tables.old.items n }
    ensures marks { (n : ℕ) → mark_at tables.new.items n ≡ mark_at tables.old.items n }
    ensures rooms { (k : ℕ) → room_of (slice_get tables.new.items k) ≡ room_of (slice_get tables.old.items k) }
    ensures size { length tables.new.items ≡ length tables.old.items }
{
    let table = &mut tables[(number / 8192) as usize];
    mem::replace(&mut table.pages[(number % 8192) as usize], Page::Absent)
}

/// Whether a table has room for the page with a number.
#[tactic(auto, unfolding(crate::specs::Mapping::HasRoom))]
pub(crate) fn has_room(tables: &[Table], number: u64) -> bool
    ensures some { result ≡ true → HasRoom tables.now number }
    ensures none { result ≡ false → room_of (slice_get tables.now (number / 8192)) ≤ number % 8192 }
{
    match tables.get((number / 8192) as usize) {
        Some(table) => ((number % 8192) as usize) < table.pages.len(),
        None => false,
    }
}

/// Marks pages of one table from a number on as mapped, or as not; how many.
fn mark_some(tables: &mut Vec<Table>, number: u64, count: u64, on: bool) -> u64
    requires some { 0 < count }
    requires marks { on ≡ true → HasMark tables.old.items number }
    ensures some { 0 < result }
    ensures few { result ≤ count }
    ensures marks { (n : ℕ) → mark_at tables.new.items n ≡ (if within number result n then on else mark_at tables.old.items n) }
    ensures pages { (n : ℕ) → HasRoom tables.old.items n → page_at tables.new.items n ≡ page_at tables.old.items n }
    ensures rooms { (k : ℕ) → room_of (slice_get tables.new.items k) ≡ room_of (slice_get tables.old.items k) }
    ensures words { (k : ℕ) → words_of (slice_get tables.new.items k) ≡ words_of (slice_get tables.old.items k) }
    ensures size { length tables.new.items ≡ length tables.old.items }
{
    let place = number % 8192;
    let size = count.min(8192 - place);
    let outer = (number / 8192) as usize;
    if outer < tables.len() {
        let table = &mut tables[outer];
        mark_bits(table.mapped.as_mut_slice(), place, size, on);
    }
    size
}

/// Marks the pages of a range as mapped, or as not.
pub(crate) fn mark_pages(tables: &mut Vec<Table>, first: u64, count: u64, on: bool)
    requires range { first + count ≤ 2 ^ 26 }
    requires marks { on ≡ true → (n : ℕ) → first ≤ n → n < first + count → HasMark tables.old.items n }
    ensures marks { (n : ℕ) → mark_at tables.new.items n ≡ (if within first count n then on else mark_at tables.old.items n) }
    ensures pages { (n : ℕ) → HasRoom tables.old.items n → page_at tables.new.items n ≡ page_at tables.old.items n }
    ensures rooms { (k : ℕ) → room_of (slice_get tables.new.items k) ≡ room_of (slice_get tables.old.items k) }
    ensures size { length tables.new.items ≡ length tables.old.items }
{
    let mut done = 0;
    'marking: while done < count {
        done += mark_some(tables, first + done, count - done, on);
    }
}

/// A page stores nothing, if its table has pages.
fn empty_page(tables: &mut Vec<Table>, number: u64, mapped: bool)
    ensures same { HasRoom tables.old.items number → page_at tables.new.items number ≡ bare_if mapped }
    ensures others { (n : ℕ) → n ≢ number → page_at tables.new.items n ≡ page_at tables.old.items n }
    ensures marks { (n : ℕ) → mark_at tables.new.items n ≡ mark_at tables.old.items n }
    ensures rooms { (k : ℕ) → room_of (slice_get tables.new.items k) ≡ room_of (slice_get tables.old.items k) }
    ensures size { length tables.new.items ≡ length tables.old.items }
{
    if has_room(tables.as_slice(), number) {
        put_page(tables, number, bare_if(mapped));
    }
}

/// The pages of a range store nothing, in the tables that have pages. The others are passed as a whole.
fn empty_held(tables: &mut Vec<Table>, first: u64, count: u64, mapped: bool)
    requires { first + count ≤ 2 ^ 26 }
    ensures inside { (n : ℕ) → first ≤ n → n < first + count → HasRoom tables.old.items n → page_at tables.new.items n ≡ bare_if mapped }
    ensures others { (n : ℕ) → (n < first) ⊎ (first + count ≤ n) → page_at tables.new.items n ≡ page_at tables.old.items n }
    ensures marks { (n : ℕ) → mark_at tables.new.items n ≡ mark_at tables.old.items n }
    ensures rooms { (k : ℕ) → room_of (slice_get tables.new.items k) ≡ room_of (slice_get tables.old.items k) }
    ensures size { length tables.new.items ≡ length tables.old.items }
{
    let mut done = 0;
    'emptying: while done < count {
        let passed = without_pages(tables.as_slice(), first + done, count - done);
        if passed > 0 {
            done += passed;
        } else {
            empty_page(tables, first + done, mapped);
            done += 1;
        }
    }
}

/// The pages of a range store nothing, and are mapped or not. It costs by the pages of the range that are in tables with
/// pages, and by the words of marks of the others.
pub(crate) fn empty_rows(tables: &mut Vec<Table>, first: u64, count: u64, mapped: bool)
    requires range { first + count ≤ 2 ^ 26 }
    requires marks { mapped ≡ true → (n : ℕ) → first ≤ n → n < first + count → HasMark tables.old.items n }
    ensures inside { (n : ℕ) → first ≤ n → n < first + count → page_at tables.new.items n ≡ bare_if mapped }
    ensures others { (n : ℕ) → (n < first) ⊎ (first + count ≤ n) → page_at tables.new.items n ≡ page_at tables.old.items n }
    ensures marks { (n : ℕ) → mark_at tables.new.items n ≡ (if within first count n then mapped else mark_at tables.old.items n) }
    ensures size { length tables.new.items ≡ length tables.old.items }
{
    mark_pages(tables, first, count, mapped);
    empty_held(tables, first, count, mapped);
}

/// Makes room for the pages of a range, and words for their marks. Where they will store nothing, it makes the words alone.
fn fill_tables(
    alloc: Global,
    tables: &mut Vec<Table>,
    first: u64,
    count: u64,
    held: bool,
) -> Result<(), AllocError>
    requires { first + count ≤ 2 ^ 26 }
    ensures pages { (n : ℕ) → page_at tables.new.items n ≡ page_at tables.old.items n }
    ensures marks { (n : ℕ) → mark_at tables.new.items n ≡ mark_at tables.old.items n }
    ensures small { length tables.old.items ≤ 8192 → length tables.new.items ≤ 8192 }
    ensures words { OnOk result ((n : ℕ) → first ≤ n → n < first + count → HasMark tables.new.items n) }
    ensures room { OnOk result (held ≡ true → (n : ℕ) → first ≤ n → n < first + count → HasRoom tables.new.items n) }
{
    if count == 0 {
        return Ok(());
    }
    let from = (first / 8192) as usize;
    let to = ((first + count - 1) / 8192) as usize + 1;
    add_tables(alloc, tables, to)?;
    for i in from..to {
        fill_one(&mut tables[i], held)?;
    }
    Ok(())
}

/// Makes words for the marks of a table, and room for its pages where some will be held.
fn fill_one(table: &mut Table, held: bool) -> Result<(), AllocError>
    ensures pages { (n : ℕ) → page_in (Some table.new) n ≡ page_in (Some table.old) n }
    ensures marks { (n : ℕ) → bit_of table.new.mapped.items n ≡ bit_of table.old.mapped.items n }
    ensures words { OnOk result (128 ≤ length table.new.mapped.items) }
    ensures room { OnOk result (held ≡ true → 8192 ≤ length table.new.pages.items) }
{
    match fill_marks(table) {
        Err(error) => Err(error),
        Ok(()) => { if held { fill_table(table) } else { Ok(()) } }
    }
}

/// The same where there may be no tables.
pub(crate) fn make_room(
    alloc: Global,
    tables: &mut Option<Vec<Table>>,
    first: u64,
    count: u64,
    held: bool,
) -> Result<(), AllocError>
    requires { first + count ≤ 2 ^ 26 }
    ensures pages { (n : ℕ) → page_at (rows_of tables.new) n ≡ page_at (rows_of tables.old) n }
    ensures marks { (n : ℕ) → mark_at (rows_of tables.new) n ≡ mark_at (rows_of tables.old) n }
    ensures small { length (rows_of tables.old) ≤ 8192 → length (rows_of tables.new) ≤ 8192 }
    ensures words { OnOk result ((n : ℕ) → first ≤ n → n < first + count → HasMark (rows_of tables.new) n) }
    ensures room { OnOk result (held ≡ true → (n : ℕ) → first ≤ n → n < first + count → HasRoom (rows_of tables.new) n) }
{
    match tables {
        Some(rows) => fill_tables(alloc, rows, first, count, held),
        None => {
            let mut rows = Vec::new(alloc);
            let made = fill_tables(alloc, &mut rows, first, count, held);
            *tables = Some(rows);
            made
        }
    }
}
