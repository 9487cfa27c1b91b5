//! Whether something stands in a range of pages, and the highest free range.

ghost use Rattle.std.specs.Prelude.{◌≡◌, ◌+◌, ◌-◌, ◌*◌, ◌%◌, ◌<◌, ◌≤◌, ◌^◌, ℕ, Some, length, slice_get, if◌then◌else◌};
ghost use Rattle.guest_pages.specs.Faults.{first_unmapped};
ghost use Rattle.guest_pages.specs.Finding.{any_mapped, touches_code, free_place};
ghost use Rattle.guest_pages.specs.Tables.{held, marks_in, page_at, page_found, is_present, runs_in, AreMarked};

use crate::bits::run_below;
use crate::looking::{page_of, without_pages};
use crate::page::{Page, Table};

/// How many pages lie below the highest address that a map can end at, if none is asked for.
const TOP: u64 = 0x3F0_0000;

/// Whether a page can be executed.
fn page_runs(page: Option<&Page>) -> bool
    ensures { result ≡ runs_in (page_found page.entry) }
{
    match page {
        Some(Page::Held(rights, _)) => rights.execute,
        Some(Page::Bare) => false,
        Some(Page::Absent) => false,
        None => false,
    }
}

/// Whether the page with a number can be executed.
fn runs_in(tables: &[Table], number: u64) -> bool
    ensures { result ≡ runs_in (page_at tables.now number) }
{
    page_runs(page_of(tables, number))
}

/// Whether one of `count` pages from one on is mapped.
pub(crate) fn any_present(tables: &[Table], first: u64, count: u64) -> bool
    requires small { length tables.now ≤ 8192 }
    requires marked { AreMarked tables.now }
    requires range { first + count ≤ 2 ^ 26 }
    ensures { result ≡ any_mapped (held tables.now) (4096 * first) (4096 * count) }
{
    let mut page = first + count;
    'looking: while page > first {
        let (size, mapped) = piece_below(tables, page);
        if mapped {
            return true;
        }
        page -= size.min(page - first);
    }
    false
}

/// The least address of `count` pages from a byte address on that is not mapped.
pub(crate) fn unmapped(tables: &[Table], at: u64, count: u64) -> Option<u64>
    requires small { length tables.now ≤ 8192 }
    requires marked { AreMarked tables.now }
    requires aligned { at % 4096 ≡ 0 }
    requires range { at + 4096 * count ≤ 2 ^ 38 }
    ensures { result ≡ first_unmapped (held tables.now) at (4096 * count) }
{
    let first = at / 4096;
    let mut page = first + count;
    let mut found = None;
    'looking: while page > first {
        let (size, mapped) = piece_below(tables, page);
        page -= size.min(page - first);
        found = found_below(found, page, mapped);
    }
    found
}

/// The address that was found, or that of a page below it which is not mapped.
fn found_below(found: Option<u64>, page: u64, mapped: bool) -> Option<u64>
    requires { page < 2 ^ 26 }
    ensures { result ≡ (if mapped then found else Some (4096 * page)) }
{
    if mapped { found } else { Some(4096 * page) }
}

/// Whether one of `count` pages from one on can be executed. Tables without pages are passed as a whole.
pub(crate) fn any_runs(tables: &[Table], first: u64, count: u64) -> bool
    requires small { length tables.now ≤ 8192 }
    requires range { first + count ≤ 2 ^ 26 }
    ensures { result ≡ touches_code (held tables.now) (4096 * first) (4096 * count) }
{
    let mut done = 0;
    'looking: while done < count {
        let passed = without_pages(tables, first + done, count - done);
        if passed > 0 {
            done += passed;
        } else {
            if runs_in(tables, first + done) {
                return true;
            }
            done += 1;
        }
    }
    false
}

/// The marks of a table, none where there is no table.
fn marks_of(tables: &[Table], place: u64) -> &[u64]
    ensures { result.now ≡ marks_in (slice_get tables.now place) }
{
    match tables.get(place as usize) {
        Some(table) => table.mapped.as_slice(),
        None => &[],
    }
}

/// How many of the pages right below one are all mapped, or all free, and whether they are mapped. There is one at least; a
/// table without marks is passed as a whole, and so is a word of equal marks.
fn piece_below(tables: &[Table], page: u64) -> (u64, bool)
    requires some { 0 < page }
    requires marked { AreMarked tables.now }
    ensures some { 0 < result.0 }
    ensures size { result.0 ≤ page }
    ensures alike { (n : ℕ) → page - result.0 ≤ n → n < page → is_present (page_at tables.now n) ≡ result.1 }
{
    let below = page - 1;
    run_below(marks_of(tables, below / 8192), below % 8192)
}

/// The address of the highest range of `count` free pages.
pub(crate) fn free_place(tables: &[Table], count: u64) -> Option<u64>
    requires small { length tables.now ≤ 8192 }
    requires marked { AreMarked tables.now }
    ensures { result ≡ free_place (held tables.now) count }
{
    let mut page = TOP;
    let mut run = 0;
    'looking: while run < count && page > 0 {
        let (size, mapped) = piece_below(tables, page);
        page -= size;
        run = if mapped { 0 } else { run + size };
    }
    if run < count {
        None
    } else {
        Some(4096 * (page + run - count))
    }
}
