//! The bytes of segments.

ghost use Rattle.std.specs.Prelude.{◌≡◌, ◌<◌, ◌≤◌, ◌+◌, ◌%◌, ◌^◌, ℕ, Bool, None, length, OnOk, IfErr};
ghost use Rattle.guest_pages.specs.declared.rights.Rights.{Rights};
ghost use Rattle.guest_pages.specs.Faults.{first_fault, writable};
ghost use Rattle.guest_pages.specs.Operations.{written};
ghost use Rattle.segment_load.specs.Steps.{HasPages, IsFull, over};

use crate::granting::{protect_pages, rights_at};
use elf_file::Segment;
use guest_pages::{CHANGEABLE, MapFault, PAGE_SIZE, Pages};
use std::alloc::Global;

/// Writes bytes, where all of them can be written.
fn write(memory: &mut Pages, at: u64, bytes: &[u8])
    ensures { first_fault writable memory.old at (length bytes.now) ≡ None → memory.new ≡ written at bytes.now memory.old }
{
    match memory.copy_in(at, bytes) {
        Ok(()) => {}
        Err(_) => {}
    }
}

/// Gives addresses of one page their bytes, whatever its rights are. One without rights keeps none.
fn fill_page(alloc: Global, memory: &mut Pages, at: u64, bytes: &[u8]) -> Result<(), MapFault>
    requires inside { at < 2 ^ 38 }
    requires near { at % 4096 + length bytes.now ≤ 4096 }
    ensures made { OnOk result ((mapped : ℕ → Bool) (rights : ℕ → Rights) (had : ℕ → ℕ) → HasPages mapped rights had memory.old
        → HasPages mapped rights (over at bytes.now had) memory.new) }
    ensures refused { IfErr result (λ fault. (mapped : ℕ → Bool) (rights : ℕ → Rights) (had : ℕ → ℕ) → HasPages mapped rights had memory.old
        → IsFull mapped rights fault) }
{
    let page = at / PAGE_SIZE;
    let rights = rights_at(memory, PAGE_SIZE * page);
    if rights.has_none() {
        return Ok(());
    }
    match protect_pages(alloc, memory, page, 1, CHANGEABLE) {
        Ok(()) => {}
        Err(fault) => return Err(fault),
    }
    write(memory, at, bytes);
    protect_pages(alloc, memory, page, 1, rights)
}

/// How many of the bytes from a place on lie in one page.
fn piece(at: u64, left: usize) -> usize
    requires { 0 < left }
    ensures some { 0 < result }
    ensures few { result ≤ left }
    ensures near { at % 4096 + result ≤ 4096 }
{
    left.min(4096 - (at % PAGE_SIZE) as usize)
}

/// Gives a segment its bytes.
pub(crate) fn fill_one(alloc: Global, memory: &mut Pages, segment: &Segment) -> Result<(), MapFault>
    ensures made { OnOk result ((mapped : ℕ → Bool) (rights : ℕ → Rights) (had : ℕ → ℕ) → HasPages mapped rights had memory.old
        → HasPages mapped rights (over segment.now.at segment.now.file_bytes had) memory.new) }
    ensures refused { IfErr result (λ fault. (mapped : ℕ → Bool) (rights : ℕ → Rights) (had : ℕ → ℕ) → HasPages mapped rights had memory.old
        → IsFull mapped rights fault) }
{
    let bytes = segment.file_bytes.as_slice();
    let mut done = 0;
    'pages: while done < bytes.len() {
        let at = segment.at + done as u64;
        let size = piece(at, bytes.len() - done);
        match fill_page(alloc, memory, at, &bytes[done..done + size]) {
            Ok(()) => {}
            Err(fault) => return Err(fault),
        }
        done += size;
    }
    Ok(())
}
