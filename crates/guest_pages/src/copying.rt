//! The copy of bytes out of pages.

ghost use Rattle.std.specs.Prelude.{◌≡◌, ◌+◌, ◌%◌, ◌<◌, ◌≤◌, length, None, false};
ghost use Rattle.guest_pages.specs.Cells.{has_none};
ghost use Rattle.guest_pages.specs.Faults.{first_fault};
ghost use Rattle.guest_pages.specs.Operations.{bytes_at};
ghost use Rattle.guest_pages.specs.Tables.{held};

use crate::looking::bytes_of;
use crate::page::Table;
use crate::rights::Rights;

/// Bytes of one page, which have these rights, go into a buffer.
fn copy_piece(tables: &[Table], at: u64, into: &mut [u8], needed: Rights)
    requires needed { has_none needed ≡ false }
    requires small { length tables.now ≤ 8192 }
    requires some { 0 < length into.old }
    requires room { at % 4096 + length into.old ≤ 4096 }
    requires allowed { first_fault needed (held tables.now) at (length into.old) ≡ None }
    ensures { into.new ≡ bytes_at (held tables.now) at (length into.old) }
{
    let place = (at % 4096) as usize;
    match bytes_of(tables, at / 4096, needed) {
        Some(bytes) => {
            let end = place + into.len();
            into.copy_from_slice(&bytes[place..end]);
        }
        None => unreachable!(),
    }
}

/// The bytes from an address on, all of which have these rights, go into a buffer, a page at a time.
pub(crate) fn copy_from(tables: &[Table], at: u64, into: &mut [u8], needed: Rights)
    requires needed { has_none needed ≡ false }
    requires small { length tables.now ≤ 8192 }
    requires allowed { first_fault needed (held tables.now) at (length into.old) ≡ None }
    ensures { into.new ≡ bytes_at (held tables.now) at (length into.old) }
{
    let size = into.len();
    let mut done = 0;
    while done < size {
        let place = at + done as u64;
        let count = (4096 - (place % 4096) as usize).min(size - done);
        copy_piece(tables, place, &mut into[done..done + count], needed);
        done += count;
    }
}
