//! How many pages segments store.

ghost use Rattle.std.specs.Prelude.{◌≡◌, ◌-◌, ◌^◌, List, true, not, min, map, IfOk};
ghost use Rattle.std.specs.List.{list_all};
ghost use Rattle.elf_file.specs.Reading.{image};
ghost use Rattle.elf_file.specs.Segments.{SegmentImage, all_pairs, shares_byte};
ghost use Rattle.elf_file.specs.Views.{segment_image};
ghost use Rattle.guest_pages.specs.Operations.{stored_pages};
ghost use Rattle.segment_load.specs.Loading.{loaded};
ghost use Rattle.segment_load.specs.Seen.{Counts, HasSeen};
ghost use Rattle.segment_load.specs.Wanted.{pages_of};

use crate::bare::{is_there, map_bare};
use crate::pairs::{count_by_pairs, count_own};
use crate::rights::last_page;
use elf_file::{Elf, Segment};
use guest_pages::{MapFault, PAGE_SIZE, Pages};
use std::alloc::Global;

/// How many pages the segments of a file store: each page of a segment that has a right, once. A number that passes 64 bits
/// is told as 2^64 - 1. It costs by the number of segments, and by a bit for each of their pages, for which it takes memory;
/// where that is wanting, by the square of the number of segments.
pub fn wanted_pages(elf: &Elf) -> u64
    ensures { result ≡ min (pages_of (image elf.now).segments) (2 ^ 64 - 1) }
{
    let segments = elf.segments.as_slice();
    match count_by_seen(*elf.segments.allocator(), segments) {
        Ok(wanted) => wanted,
        Err(_) => count_by_pairs(segments),
    }
}

/// The memory that `load` makes of a file stores as many pages as `wanted_pages` counts. It does nothing.
pub fn laws(elf: &Elf)
    ensures { stored_pages (loaded (image elf.now).segments) ≡ pages_of (image elf.now).segments }
{}

/// How many pages segments store, by memory in which those are mapped that were seen.
fn count_by_seen(alloc: Global, segments: &[Segment]) -> Result<u64, MapFault>
    requires apart { all_pairs (λ s t. not (shares_byte s t)) (map segment_image segments.now) ≡ true }
    ensures { IfOk result (λ wanted. wanted ≡ min (pages_of (map segment_image segments.now)) (2 ^ 64 - 1)) }
{
    let mut seen = Pages::new();
    let mut wanted: u64 = 0;
    let mut left = segments.len();
    'segments: while left > 0 {
        left -= 1;
        let own = unseen_pages(alloc, &mut seen, &segments[left])?;
        wanted = wanted.saturating_add(own);
    }
    Ok(wanted)
}

/// How many pages a segment stores that none of those that were seen does. Its own are seen then.
fn unseen_pages(alloc: Global, seen: &mut Pages, segment: &Segment) -> Result<u64, MapFault>
    ensures { IfOk result (λ own. (later : List SegmentImage)
        → list_all (λ t. not (shares_byte (segment_image segment.now) t)) later ≡ true
        → HasSeen later seen.old
        → Counts (segment_image segment.now) later own seen.new) }
{
    if segment.rights == 0 || segment.size == 0 {
        return Ok(0);
    }
    let first = segment.at / PAGE_SIZE;
    let last = last_page(segment);
    let own = count_own(first, last, is_there(seen, first), is_there(seen, last));
    map_bare(alloc, seen, segment)?;
    Ok(own)
}
