//! What can be executed, copied out of the guest's memory.

ghost use Rattle.std.specs.Prelude.{◌≡◌, ◌<◌, ◌≤◌, ℕ, Some, length, get_or, IfOk};
ghost use Rattle.byteorder.specs.Endian.{little_number};
ghost use Rattle.guest_pages.specs.Apart.{code_in, code_of};
ghost use Rattle.guest_pages.specs.Faults.{first_fault, answer_or, executable};
ghost use Rattle.guest_pages.specs.Operations.{bytes_at};
ghost use Rattle.guest_pages.specs.Tables.{cell_in, cells, held, page_in};
ghost use Rattle.guest_pages.specs.declared.page.Page.TheVariants.{Absent};

use crate::fault::PageFault;
use crate::fetching::fetch_from;
use crate::page::{Page, Table};
use std::alloc::{AllocError, Global};
use std::marker::Model;

/// The ranges of the guest's memory that could be executed when it was copied, with their bytes. What is mapped, unmapped or
/// given other rights afterwards changes nothing of it.
#[derive(Drop)]
pub struct Code {
    tables: Vec<Table>,
}

impl Model for Code {
    ghost use Rattle.std.specs.Prelude.{List, ◌≤◌, length};
    ghost use Rattle.guest_pages.specs.Ranges.{Range};
    ghost use Rattle.guest_pages.specs.Tables.{held};

    ghost Value = { List Range };

    ghost view = { λ code. held code.tables.items };

    ghost invariant = { λ code. length code.tables.items ≤ 8192 };
}

impl Code {
    /// The half word in the two bytes from the byte address `at` on, the lowest byte first, if each can be executed. It
    /// takes constant time and no memory.
    ///
    /// References: mmap(2), sigaction(2).
    pub fn fetch(&self, at: u64) -> Result<u16, PageFault>
        ensures { result ≡ answer_or
            (first_fault executable self.now at 2)
            (little_number 2 (bytes_at self.now at 2)) }
    {
        fetch_from(self.tables.as_slice(), at)
    }
}

/// The executable pages of these tables.
pub(crate) fn code_of(alloc: Global, tables: &[Table]) -> Result<Code, AllocError>
    requires { length tables.now ≤ 8192 }
    ensures { IfOk result (λ code. code ≡ code_of (held tables.now)) }
{
    let tables = copied_tables(alloc, tables)?;
    Ok(Code { tables })
}

/// The page, if it can be executed; else none.
fn copied_page(alloc: Global, page: &Page) -> Result<Page, AllocError>
    ensures { IfOk result (λ copy. (k : ℕ) → cell_in copy k ≡ code_in (cell_in page.now k)) }
{
    match page {
        Page::Held(rights, bytes) if rights.execute => {
            let copy = Box::new(alloc, **bytes)?;
            Ok(Page::Held(*rights, copy))
        }
        Page::Held(_, _) => Ok(Page::Absent),
        Page::Bare => Ok(Page::Absent),
        Page::Absent => Ok(Page::Absent),
    }
}

/// The same for the pages of a table.
fn copied_pages(alloc: Global, pages: &[Page]) -> Result<Vec<Page>, AllocError>
    ensures { IfOk result (λ copies. (length copies.items ≡ length pages.now)
        × ((n k : ℕ) → n < length pages.now → cell_in (get_or copies.items n Absent) k ≡ code_in (cell_in (get_or pages.now n Absent) k))) }
{
    let mut copies = Vec::new(alloc);
    for i in 0..pages.len() {
        let copy = copied_page(alloc, &pages[i])?;
        copies.push(copy)?;
    }
    Ok(copies)
}

/// The same for a table. What isn't mapped needs no mark.
fn copied_table(alloc: Global, table: &Table) -> Result<Table, AllocError>
    ensures { IfOk result (λ copy. (n k : ℕ) → cell_in (page_in (Some copy) n) k ≡ code_in (cell_in (page_in (Some table.now) n) k)) }
{
    let pages = copied_pages(alloc, table.pages.as_slice())?;
    let mapped = Vec::new(alloc);
    Ok(Table { pages, mapped })
}

/// The same for the tables.
fn copied_tables(alloc: Global, tables: &[Table]) -> Result<Vec<Table>, AllocError>
    ensures { IfOk result (λ copies. (length copies.items ≡ length tables.now)
        × ((a : ℕ) → cells copies.items a ≡ code_in (cells tables.now a))) }
{
    let mut copies = Vec::new(alloc);
    for i in 0..tables.len() {
        let copy = copied_table(alloc, &tables[i])?;
        copies.push(copy)?;
    }
    Ok(copies)
}
