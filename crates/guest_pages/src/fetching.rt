//! The fetch of half words to be executed.

ghost use Rattle.std.specs.Prelude.{◌≡◌, ◌≤◌, length};
ghost use Rattle.byteorder.specs.Endian.{little_number};
ghost use Rattle.guest_pages.specs.Faults.{first_fault, answer_or, executable};
ghost use Rattle.guest_pages.specs.Operations.{bytes_at};
ghost use Rattle.guest_pages.specs.Tables.{held};

use crate::copying::copy_from;
use crate::fault::PageFault;
use crate::looking::{allows, bytes_of, half_at};
use crate::page::Table;
use crate::rights::EXECUTABLE;

/// The half word in the two bytes from an address on, if each can be executed.
#[inline]
pub(crate) fn fetch_from(tables: &[Table], at: u64) -> Result<u16, PageFault>
    requires { length tables.now ≤ 8192 }
    ensures { result ≡ answer_or
        (first_fault executable (held tables.now) at 2)
        (little_number 2 (bytes_at (held tables.now) at 2)) }
{
    let place = (at % 4096) as usize;
    if place + 2 <= 4096 {
        if let Some(bytes) = bytes_of(tables, at / 4096, EXECUTABLE) {
            return Ok(half_at(bytes, place));
        }
    }
    fetch_apart(tables, at)
}

/// The same for bytes that lie in two pages, or that can't be executed.
#[cold]
#[inline(never)]
fn fetch_apart(tables: &[Table], at: u64) -> Result<u16, PageFault>
    requires { length tables.now ≤ 8192 }
    ensures { result ≡ answer_or
        (first_fault executable (held tables.now) at 2)
        (little_number 2 (bytes_at (held tables.now) at 2)) }
{
    let mut buffer = [0u8; 2];
    match allows(tables, at, 2, EXECUTABLE) {
        Err(fault) => Err(fault),
        Ok(()) => {
            copy_from(tables, at, &mut buffer, EXECUTABLE);
            Ok(half_at(&buffer, 0))
        }
    }
}
