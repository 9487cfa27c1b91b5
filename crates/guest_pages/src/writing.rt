//! The write of bytes into pages.

ghost use Rattle.std.specs.Prelude.{◌≡◌, ◌+◌, ◌/◌, ◌%◌, ◌≤◌, ℕ, length, true, false, is_some, None, ◌-◌, slice_index, if◌then◌else◌};
ghost use Rattle.guest_pages.specs.Ranges.{within};
ghost use Rattle.guest_pages.specs.Cells.{has_none};
ghost use Rattle.guest_pages.specs.Faults.{first_fault};
ghost use Rattle.guest_pages.specs.Tables.{cell_in, cells, held, held_in, mark_at, page_at, rows_of};
ghost use Rattle.guest_pages.specs.Writes.{with_bytes};

use crate::page::{Page, Table};
use crate::rights::Rights;

/// Bytes go into an array from a place on.
#[inline(always)]
fn put_in(stored: &mut [u8; 4096], place: usize, bytes: &[u8])
    requires { place + length bytes.now ≤ 4096 }
    ensures { (k : ℕ) → slice_index stored.new k
        ≡ (if within place (length bytes.now) k then slice_index bytes.now (k - place) else slice_index stored.old k) }
{
    stored[place..place + bytes.len()].copy_from_slice(bytes);
}

/// Bytes go into a page from a place on, if it has these rights; whether it has.
#[inline(always)]
fn write_in(page: &mut Page, place: usize, bytes: &[u8], needed: Rights) -> bool
    requires { place + length bytes.now ≤ 4096 }
    ensures answer { result ≡ is_some (held_in needed page.old) }
    ensures done { result ≡ true → (k : ℕ) → cell_in page.new k ≡ with_bytes place bytes.now (cell_in page.old) k }
    ensures undone { result ≡ false → page.new ≡ page.old }
{
    match page {
        Page::Held(rights, stored) => {
            if rights.include(needed) {
                put_in(&mut **stored, place, bytes);
                true
            } else {
                false
            }
        }
        Page::Absent => false,
        Page::Bare => false,
    }
}

/// Bytes go into the page of an address, if it has these rights; whether it has.
#[inline(always)]
fn write_row(tables: &mut Vec<Table>, at: u64, bytes: &[u8], needed: Rights) -> bool
    requires { at % 4096 + length bytes.now ≤ 4096 }
    ensures answer { result ≡ is_some (held_in needed (page_at tables.old.items (at / 4096))) }
    ensures done { result ≡ true → (a : ℕ) → cells tables.new.items a ≡ with_bytes at bytes.now (cells tables.old.items) a }
    ensures undone { result ≡ false → (a : ℕ) → cells tables.new.items a ≡ cells tables.old.items a }
    ensures marks { (n : ℕ) → mark_at tables.new.items n ≡ mark_at tables.old.items n }
    ensures size { length tables.new.items ≡ length tables.old.items }
{
    let number = at / 4096;
    let outer = (number / 8192) as usize;
    let inner = (number % 8192) as usize;
    if outer >= tables.len() {
        return false;
    }
    let table = &mut tables[outer];
    if inner >= table.pages.len() {
        return false;
    }
    write_in(&mut table.pages[inner], (at % 4096) as usize, bytes, needed)
}

/// The same where there may be no tables.
#[inline(always)]
fn write_at(tables: &mut Option<Vec<Table>>, at: u64, bytes: &[u8], needed: Rights) -> bool
    requires { at % 4096 + length bytes.now ≤ 4096 }
    ensures answer { result ≡ is_some (held_in needed (page_at (rows_of tables.old) (at / 4096))) }
    ensures done { result ≡ true → (a : ℕ) → cells (rows_of tables.new) a ≡ with_bytes at bytes.now (cells (rows_of tables.old)) a }
    ensures undone { result ≡ false → (a : ℕ) → cells (rows_of tables.new) a ≡ cells (rows_of tables.old) a }
    ensures marks { (n : ℕ) → mark_at (rows_of tables.new) n ≡ mark_at (rows_of tables.old) n }
    ensures size { length (rows_of tables.new) ≡ length (rows_of tables.old) }
{
    match tables {
        Some(tables) => write_row(tables, at, bytes, needed),
        None => false,
    }
}

/// Bytes go into memory from an address on, if they lie in one page and it has these rights; whether they do.
#[inline(always)]
pub(crate) fn write_near(
    tables: &mut Option<Vec<Table>>,
    at: u64,
    bytes: &[u8],
    needed: Rights,
) -> bool
    requires needed { has_none needed ≡ false }
    requires small { length (rows_of tables.old) ≤ 8192 }
    ensures good { result ≡ true → first_fault needed (held (rows_of tables.old)) at (length bytes.now) ≡ None }
    ensures done { result ≡ true → (a : ℕ) → cells (rows_of tables.new) a ≡ with_bytes at bytes.now (cells (rows_of tables.old)) a }
    ensures undone { result ≡ false → (a : ℕ) → cells (rows_of tables.new) a ≡ cells (rows_of tables.old) a }
    ensures marks { (n : ℕ) → mark_at (rows_of tables.new) n ≡ mark_at (rows_of tables.old) n }
    ensures size { length (rows_of tables.new) ≡ length (rows_of tables.old) }
    ensures near { at % 4096 + length bytes.now ≤ 4096 → result ≡ is_some (held_in needed (page_at (rows_of tables.old) (at / 4096))) }
{
    let room = 4096 - (at % 4096) as usize;
    if room < bytes.len() {
        return false;
    }
    write_at(tables, at, bytes, needed)
}

/// Bytes go into memory from an address on, all of which have these rights, a page at a time.
pub(crate) fn copy_into(tables: &mut Option<Vec<Table>>, at: u64, bytes: &[u8], needed: Rights)
    requires needed { has_none needed ≡ false }
    requires small { length (rows_of tables.old) ≤ 8192 }
    requires allowed { first_fault needed (held (rows_of tables.old)) at (length bytes.now) ≡ None }
    ensures cells { (a : ℕ) → cells (rows_of tables.new) a ≡ with_bytes at bytes.now (cells (rows_of tables.old)) a }
    ensures marks { (n : ℕ) → mark_at (rows_of tables.new) n ≡ mark_at (rows_of tables.old) n }
    ensures size { length (rows_of tables.new) ≡ length (rows_of tables.old) }
{
    let mut done = 0;
    while done < bytes.len() {
        let place = at + done as u64;
        let count = (4096 - (place % 4096) as usize).min(bytes.len() - done);
        let _ = write_at(tables, place, &bytes[done..done + count], needed);
        done += count;
    }
}
