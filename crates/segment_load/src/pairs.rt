//! How many pages segments store, by the segments alone.

ghost use Rattle.std.specs.Prelude.{◌≡◌, ◌<◌, ◌≤◌, ◌+◌, ◌-◌, ◌^◌, true, min, map, drop, length, not, if◌then◌else◌};
ghost use Rattle.std.specs.List.{list_all};
ghost use Rattle.elf_file.specs.Segments.{all_pairs, shares_byte};
ghost use Rattle.elf_file.specs.Views.{segment_image};
ghost use Rattle.segment_load.specs.Loading.{touches as touches_page};
ghost use Rattle.segment_load.specs.Wanted.{is_stored_by as is_stored, own_pages as own_pages_of, pages_of};

use crate::rights::last_page;
use elf_file::Segment;
use guest_pages::PAGE_SIZE;

/// How many pages segments store. It takes no memory, and costs by the square of their number.
pub(crate) fn count_by_pairs(segments: &[Segment]) -> u64
    requires { all_pairs (λ s t. not (shares_byte s t)) (map segment_image segments.now) ≡ true }
    ensures { result ≡ min (pages_of (map segment_image segments.now)) (2 ^ 64 - 1) }
{
    let mut wanted: u64 = 0;
    let mut left = segments.len();
    'segments: while left > 0 {
        left -= 1;
        wanted = wanted.saturating_add(own_pages_at(segments, left));
    }
    wanted
}

/// How many pages the segment at a place stores that no later one does.
fn own_pages_at(segments: &[Segment], place: usize) -> u64
    requires within { place < length segments.now }
    requires apart { all_pairs (λ s t. not (shares_byte s t)) (map segment_image segments.now) ≡ true }
    ensures { pages_of (drop place (map segment_image segments.now)) ≡ result + pages_of (drop (place + 1) (map segment_image segments.now)) }
{
    let segment = &segments[place];
    let later = &segments[place + 1..];
    own_pages(segment, later)
}

/// How many pages a segment stores that no later one does. The later ones share no byte with it, so that only its first and
/// its last page can be theirs.
fn own_pages(segment: &Segment, later: &[Segment]) -> u64
    requires { list_all (λ t. not (shares_byte (segment_image segment.now) t)) (map segment_image later.now) ≡ true }
    ensures { result ≡ own_pages_of (segment_image segment.now) (map segment_image later.now) }
{
    if segment.rights == 0 || segment.size == 0 {
        return 0;
    }
    let first = segment.at / PAGE_SIZE;
    let last = last_page(segment);
    count_own(
        first,
        last,
        is_stored_by(later, first),
        is_stored_by(later, last),
    )
}

/// Whether the page with a number has a byte of the segment.
#[tactic(auto, unfolding(crate::specs::Loading::touches))]
fn touches(segment: &Segment, page: u64) -> bool
    ensures { result ≡ touches_page (segment_image segment.now) page }
{
    if segment.size == 0 {
        return false;
    }
    segment.at / PAGE_SIZE <= page && page <= last_page(segment)
}

/// Whether one of the segments that has a right has a byte in the page.
fn is_stored_by(segments: &[Segment], page: u64) -> bool
    ensures { result ≡ is_stored (map segment_image segments.now) page }
{
    let mut stored = false;
    let mut left = segments.len();
    'segments: while left > 0 {
        left -= 1;
        let segment = &segments[left];
        if segment.rights != 0 && touches(segment, page) {
            stored = true;
        }
    }
    stored
}

/// How many pages from one to another are counted, where only the two may have been counted before.
pub(crate) fn count_own(first: u64, last: u64, at_first: bool, at_last: bool) -> u64
    requires order { first ≤ last }
    requires inside { last < 2 ^ 26 }
    ensures one { first ≡ last → result ≡ (if at_first then 0 else 1) }
    ensures more { first < last → result ≡ (if at_first then 0 else 1) + (last - first - 1) + (if at_last then 0 else 1) }
{
    if first == last {
        return one_unless(at_first);
    }
    one_unless(at_first) + (last - first - 1) + one_unless(at_last)
}

fn one_unless(counted: bool) -> u64
    ensures { result ≡ (if counted then 0 else 1) }
{
    if counted { 0 } else { 1 }
}
