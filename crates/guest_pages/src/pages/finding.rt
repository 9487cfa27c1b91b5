//! Whether something stands in a range, and the highest free range.

ghost use Rattle.std.specs.Prelude.{◌≡◌, ◌+◌, ◌*◌, ◌%◌, ◌≤◌, ◌^◌};
ghost use Rattle.guest_pages.specs.Finding.{any_mapped, touches_code, free_place};

use super::Pages;
use crate::finding::{any_present, any_runs, free_place};
use crate::looking::rows;

impl Pages {
    /// Whether one of the `count` pages from the byte address `at` on is mapped. The range is of whole pages, below 2^38. It
    /// takes no memory, and costs by a bit for each page.
    ///
    /// References: mmap(2) (`MAP_FIXED_NOREPLACE`).
    pub fn any_mapped(&self, at: u64, count: u64) -> bool
        requires aligned { at % 4096 ≡ 0 }
        requires inside { at + 4096 * count ≤ 2 ^ 38 }
        ensures { result ≡ any_mapped self.now at (4096 * count) }
    {
        any_present(rows(&self.tables), at / 4096, count)
    }

    /// Whether one of the `count` pages from the byte address `at` on can be executed. The range is of whole pages, below
    /// 2^38. It takes no memory, and costs by the pages of the range in tables of which a page has had a right.
    ///
    /// References: mprotect(2).
    pub fn touches_code(&self, at: u64, count: u64) -> bool
        requires aligned { at % 4096 ≡ 0 }
        requires inside { at + 4096 * count ≤ 2 ^ 38 }
        ensures { result ≡ touches_code self.now at (4096 * count) }
    {
        any_runs(rows(&self.tables), at / 4096, count)
    }

    /// The byte address of the highest range of `count` free pages that ends at or below 0x3F00000000; the lowest that can be
    /// given is 0. There is none exactly where no range fits. It takes no memory, and costs by words of 64 pages from
    /// 0x3F00000000 down to the range; parts of memory in which nothing was mapped are passed 8,192 pages at a time.
    ///
    /// References: mmap(2).
    pub fn find_free(&self, count: u64) -> Option<u64>
        ensures { result ≡ free_place self.now count }
    {
        free_place(rows(&self.tables), count)
    }
}
