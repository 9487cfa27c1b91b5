//! Pages that are mapped without rights, which store nothing.

ghost use Rattle.std.specs.Prelude.{◌≡◌, ◌<◌, ◌+◌, ◌*◌, ◌^◌, ℕ, Bool, OnOk, IfErr};
ghost use Rattle.elf_file.specs.Views.{segment_image};
ghost use Rattle.guest_pages.specs.Finding.{is_mapped};
ghost use Rattle.guest_pages.specs.Ranges.{cell_at};
ghost use Rattle.segment_load.specs.Steps.{HasPages, no_rights, with_pages, zeros};

use crate::rights::last_page;
use elf_file::Segment;
use guest_pages::{MapFault, NOTHING, PAGE_SIZE, Pages};
use std::alloc::Global;

/// Maps the pages of a segment without rights, in memory that has none.
pub(crate) fn map_bare(alloc: Global, memory: &mut Pages, segment: &Segment) -> Result<(), MapFault>
    ensures made { OnOk result ((mapped : ℕ → Bool) → HasPages mapped no_rights zeros memory.old
        → HasPages (with_pages (segment_image segment.now) mapped) no_rights zeros memory.new) }
    ensures refused { IfErr result (λ fault. (mapped : ℕ → Bool) → HasPages mapped no_rights zeros memory.old
        → fault ≡ MapFault.Memory) }
{
    if segment.size == 0 {
        return Ok(());
    }
    let first = segment.at / PAGE_SIZE;
    let count = last_page(segment) - first + 1;
    memory.map(alloc, PAGE_SIZE * first, count, NOTHING)
}

/// Whether the page with a number is mapped.
pub(crate) fn is_there(memory: &Pages, page: u64) -> bool
    requires { page < 2 ^ 26 }
    ensures { result ≡ is_mapped (cell_at memory.now (4096 * page)) }
{
    memory.allows(PAGE_SIZE * page, 1, NOTHING).is_ok()
}
