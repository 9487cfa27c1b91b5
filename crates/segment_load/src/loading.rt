//! The memory that segments make.

ghost use Rattle.std.specs.Prelude.{◌≡◌, ◌≤◌, [], true, not, map, IfOk, OnOk};
ghost use Rattle.elf_file.specs.Reading.{image};
ghost use Rattle.elf_file.specs.Segments.{all_pairs, shares_byte};
ghost use Rattle.elf_file.specs.Views.{segment_image};
ghost use Rattle.segment_load.specs.Loading.{byte_at, is_touched, loaded, page_rights};
ghost use Rattle.guest_pages.specs.Limits.{most_pages};
ghost use Rattle.segment_load.specs.Steps.{HasPages, no_rights, zeros};
ghost use Rattle.segment_load.specs.Wanted.{pages_of};

use crate::bare::map_bare;
use crate::filling::fill_one;
use crate::granting::grant_one;
use elf_file::{Elf, Segment};
use guest_pages::{MapFault, Pages};
use std::alloc::{AllocError, Global};

/// The memory of a file's segments, which store at most 65,536 pages, as `wanted_pages` counts them. The one refusal is want
/// of memory: while it is made no more pages are stored than in the end. It costs by the number of segments, by their pages
/// that have a right or bytes of the file, and by a bit for each other.
///
/// References: System V ABI, "Program Loading".
pub fn load(alloc: Global, elf: &Elf) -> Result<Pages, AllocError>
    requires few { pages_of (image elf.now).segments ≤ most_pages }
    ensures { IfOk result (λ memory. memory ≡ loaded (image elf.now).segments) }
{
    let mut memory = Pages::new();
    let segments = elf.segments.as_slice();
    map_all(alloc, &mut memory, segments)?;
    grant_all(alloc, &mut memory, segments)?;
    fill_all(alloc, &mut memory, segments)?;
    Ok(memory)
}

/// Maps the pages of all segments, without rights.
fn map_all(alloc: Global, memory: &mut Pages, segments: &[Segment]) -> Result<(), AllocError>
    requires { memory.old ≡ [] }
    ensures { OnOk result (HasPages (is_touched (map segment_image segments.now)) no_rights zeros memory.new) }
{
    let mut left = segments.len();
    'segments: while left > 0 {
        left -= 1;
        match map_bare(alloc, memory, &segments[left]) {
            Ok(()) => {}
            Err(fault) => return Err(want_of(fault)),
        }
    }
    Ok(())
}

/// Gives the pages of all segments their rights.
fn grant_all(alloc: Global, memory: &mut Pages, segments: &[Segment]) -> Result<(), AllocError>
    requires apart { all_pairs (λ s t. not (shares_byte s t)) (map segment_image segments.now) ≡ true }
    requires few { pages_of (map segment_image segments.now) ≤ most_pages }
    requires bare { HasPages (is_touched (map segment_image segments.now)) no_rights zeros memory.old }
    ensures { OnOk result (HasPages (is_touched (map segment_image segments.now)) (page_rights (map segment_image segments.now)) zeros memory.new) }
{
    let mut left = segments.len();
    'segments: while left > 0 {
        left -= 1;
        match grant_one(alloc, memory, &segments[left]) {
            Ok(()) => {}
            Err(fault) => return Err(want_of(fault)),
        }
    }
    Ok(())
}

/// Gives all segments their bytes.
fn fill_all(alloc: Global, memory: &mut Pages, segments: &[Segment]) -> Result<(), AllocError>
    requires few { pages_of (map segment_image segments.now) ≤ most_pages }
    requires granted { HasPages (is_touched (map segment_image segments.now)) (page_rights (map segment_image segments.now)) zeros memory.old }
    ensures { OnOk result (HasPages (is_touched (map segment_image segments.now)) (page_rights (map segment_image segments.now)) (byte_at (map segment_image segments.now)) memory.new) }
{
    let mut left = segments.len();
    'segments: while left > 0 {
        left -= 1;
        match fill_one(alloc, memory, &segments[left]) {
            Ok(()) => {}
            Err(fault) => return Err(want_of(fault)),
        }
    }
    Ok(())
}

/// Want of memory, as each allocation tells it.
fn want_of(fault: MapFault) -> AllocError
    requires { fault ≡ MapFault.Memory }
{
    match fault {
        MapFault::Memory => AllocError,
        MapFault::PagesFull { .. } => unreachable!(),
        MapFault::NotMapped(_) => unreachable!(),
    }
}
