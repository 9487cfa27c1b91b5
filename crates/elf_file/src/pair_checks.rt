//! What two segments share, and the check that it is no byte.

ghost use Rattle.std.specs.Prelude.{◌≡◌, ◌<◌, ◌≤◌, ◌+◌, true, false, MatchResult, None, Some, ◌^◌, ◌-◌, ◌/◌, ◌&&◌, nat_lt, nat_le, ℕ};
ghost use Rattle.elf_file.specs.Fields.{e_phnum};
ghost use Rattle.elf_file.specs.Below.{below, any_below};
ghost use Rattle.elf_file.specs.Checks.{first_fault, has_table, overlap_checks, pair_checks};
ghost use Rattle.elf_file.specs.Headers.{ArePlaced, overlap_at, clash_at};
ghost use Rattle.elf_file.specs.Spans.{meets};
ghost use Rattle.elf_file.specs.declared.spans.Sharing.TheVariants.{Byte};
ghost use Rattle.guest_pages.specs.Limits.{page_size};

use crate::fault::ElfFault;
use crate::fields::header_count;
use crate::headers::{Area, area_at};
use crate::rights::{is_executable, is_writable};
use crate::spans::{Sharing, apart_below};
use guest_pages::PAGE_SIZE;
use std::alloc::Global;

/// Whether both segments are loaded and share a byte.
#[tactic(auto, unfolding(crate::specs::Headers::overlap_at, crate::specs::Segments::shares_byte))]
fn overlap_at(bytes: &[u8], one: u16, other: u16) -> bool
    requires table { has_table bytes.now ≡ true }
    requires first { one < e_phnum bytes.now }
    requires second { other < e_phnum bytes.now }
    requires placed { ArePlaced bytes.now (e_phnum bytes.now) }
    ensures { result ≡ overlap_at bytes.now one other }
{
    let Some(one) = area_at(bytes, one) else {
        return false;
    };
    let Some(other) = area_at(bytes, other) else {
        return false;
    };
    one.start.max(other.start) < (one.start + one.size).min(other.start + other.size)
}

/// Whether both segments are loaded, and a page of both would be writable and executable.
#[tactic(auto, unfolding(crate::specs::Headers::clash_at, crate::specs::Segments::clashes))]
pub fn clash_at(bytes: &[u8], one: u16, other: u16) -> bool
    requires table { has_table bytes.now ≡ true }
    requires first { one ≤ other }
    requires second { other < e_phnum bytes.now }
    requires placed { ArePlaced bytes.now (other + 1) }
    ensures { result ≡ clash_at bytes.now one other }
{
    let Some(one) = area_at(bytes, one) else {
        return false;
    };
    let Some(other) = area_at(bytes, other) else {
        return false;
    };
    if !shares_page(one, other) {
        return false;
    }
    (is_writable(one.rights) && is_executable(other.rights))
        || (is_executable(one.rights) && is_writable(other.rights))
}

/// Whether a page has bytes of both.
fn shares_page(one: Area, other: Area) -> bool
    requires first { one.start + one.size < 2 ^ 64 }
    requires second { other.start + other.size < 2 ^ 64 }
    ensures { result ≡ ((nat_lt 0 one.size && nat_lt 0 other.size)
        && (nat_le (one.start / page_size) ((other.start + other.size - 1) / page_size)
        && nat_le (other.start / page_size) ((one.start + one.size - 1) / page_size))) }
{
    if one.size == 0 || other.size == 0 {
        return false;
    }
    let one_end = one.start + one.size;
    let other_end = other.start + other.size;
    one.start / PAGE_SIZE <= (other_end - 1) / PAGE_SIZE
        && other.start / PAGE_SIZE <= (one_end - 1) / PAGE_SIZE
}

/// Checks that no two segments share a byte, in rising order of the later one, and then of the earlier one. Costs by
/// a sort of the segments; where memory is wanting, by the square of the number of headers.
#[tactic(auto, using(crate::proofs::Faults::below_none, crate::proofs::Faults::below_passes, crate::proofs::Faults::below_fails))]
pub fn check_overlaps(alloc: Global, bytes: &[u8]) -> Result<(), ElfFault>
    requires table { has_table bytes.now ≡ true }
    requires placed { ArePlaced bytes.now (e_phnum bytes.now) }
    ensures { MatchResult result
        (λ _. first_fault (below (overlap_checks bytes.now) (e_phnum bytes.now)) ≡ None)
        (λ fault. first_fault (below (overlap_checks bytes.now) (e_phnum bytes.now)) ≡ Some fault) }
{
    let apart = apart_below(alloc, bytes, header_count(bytes), Sharing::Byte);
    for index in 0..header_count(bytes) {
        match check_next(bytes, index, apart) {
            Ok(()) => {}
            Err(fault) => return Err(fault),
        }
    }
    Ok(())
}

/// The same for one segment, where so many of the first are known to share no byte.
fn check_next(bytes: &[u8], index: u16, apart: u16) -> Result<(), ElfFault>
    requires table { has_table bytes.now ≡ true }
    requires within { index < e_phnum bytes.now }
    requires placed { ArePlaced bytes.now (e_phnum bytes.now) }
    requires apart { (i j : ℕ) → i < j → j < apart → meets Byte bytes.now i j ≡ false }
    ensures { MatchResult result
        (λ _. first_fault (overlap_checks bytes.now index) ≡ None)
        (λ fault. first_fault (overlap_checks bytes.now index) ≡ Some fault) }
{
    if index < apart {
        return Ok(());
    }
    check_earlier(bytes, index)
}

/// Checks that a segment shares no byte with an earlier one.
#[tactic(auto, unfolding(crate::specs::Checks::overlap_checks), using(crate::proofs::Faults::below_none, crate::proofs::Faults::below_passes, crate::proofs::Faults::below_fails))]
fn check_earlier(bytes: &[u8], index: u16) -> Result<(), ElfFault>
    requires table { has_table bytes.now ≡ true }
    requires within { index < e_phnum bytes.now }
    requires placed { ArePlaced bytes.now (e_phnum bytes.now) }
    ensures { MatchResult result
        (λ _. first_fault (overlap_checks bytes.now index) ≡ None)
        (λ fault. first_fault (overlap_checks bytes.now index) ≡ Some fault) }
{
    for earlier in 0..index {
        match check_pair(bytes, earlier, index) {
            Ok(()) => {}
            Err(fault) => return Err(fault),
        }
    }
    Ok(())
}

#[tactic(auto, unfolding(crate::specs::Checks::first_fault, crate::specs::Checks::pair_checks))]
fn check_pair(bytes: &[u8], earlier: u16, index: u16) -> Result<(), ElfFault>
    requires table { has_table bytes.now ≡ true }
    requires order { earlier < index }
    requires within { index < e_phnum bytes.now }
    requires placed { ArePlaced bytes.now (e_phnum bytes.now) }
    ensures { MatchResult result
        (λ _. first_fault (pair_checks bytes.now index earlier) ≡ None)
        (λ fault. first_fault (pair_checks bytes.now index earlier) ≡ Some fault) }
{
    if overlap_at(bytes, earlier, index) {
        return Err(ElfFault::Overlap(earlier, index));
    }
    Ok(())
}
