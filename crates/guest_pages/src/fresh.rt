//! Fresh pages, which are zero, and the count of the pages that are stored.

ghost use Rattle.std.specs.Prelude.{◌≡◌, ◌+◌, ◌*◌, ◌≤◌, ◌^◌, length, IfOk};
ghost use Rattle.std.specs.List.{All};
ghost use Rattle.guest_pages.specs.Counting.{count_pages, rights_of, some_right};
ghost use Rattle.guest_pages.specs.Mapping.{IsZero, IsFresh};
ghost use Rattle.guest_pages.specs.Tables.{cells, page_found, right_in};

use crate::looking::{page_of, without_pages};
use crate::page::{Page, Table};
use std::alloc::{AllocError, Global};

/// A page of zeros.
fn fresh_page(alloc: Global) -> Result<Box<[u8; 4096]>, AllocError>
    ensures { IfOk result (λ page. IsFresh page) }
{
    let page = Box::new(alloc, [0; 4096])?;
    Ok(page)
}

/// As many pages of zeros as are wanted.
pub(crate) fn fresh_pages(alloc: Global, count: u64) -> Result<Vec<Box<[u8; 4096]>>, AllocError>
    ensures { IfOk result (λ pages. (length pages.items ≡ count) × All IsFresh pages.items) }
{
    let mut pages = Vec::new(alloc);
    for _i in 0..count {
        let page = fresh_page(alloc)?;
        pages.push(page)?;
    }
    Ok(pages)
}

/// Whether a page has a right.
fn page_right(page: Option<&Page>) -> bool
    ensures { result ≡ right_in (page_found page.entry) }
{
    match page {
        Some(Page::Held(rights, _)) => !rights.has_none(),
        Some(Page::Absent) => false,
        Some(Page::Bare) => false,
        None => false,
    }
}

/// Whether the page with a number has a right.
fn has_right(tables: &[Table], number: u64) -> bool
    ensures { result ≡ some_right (rights_of (cells tables.now (4096 * number))) }
{
    page_right(page_of(tables, number))
}

/// How many of `count` pages from one on have a right. Tables without pages are passed as a whole.
pub(crate) fn stored_of(tables: &[Table], first: u64, count: u64) -> u64
    requires { first + count ≤ 2 ^ 26 }
    ensures { result ≡ count_pages (cells tables.now) first count }
{
    let mut stored = 0;
    let mut done = 0;
    'pages: while done < count {
        let passed = without_pages(tables, first + done, count - done);
        if passed > 0 {
            done += passed;
        } else {
            if has_right(tables, first + done) {
                stored += 1;
            }
            done += 1;
        }
    }
    stored
}
