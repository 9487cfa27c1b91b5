//! The check of each program header.

ghost use Rattle.std.specs.Prelude.{◌≡◌, ◌<◌, ◌≤◌, ◌+◌, ℕ, true, false, MatchResult, OnOk, None, Some};
ghost use Rattle.elf_file.specs.Fields.{e_phnum};
ghost use Rattle.elf_file.specs.Below.{below, any_below};
ghost use Rattle.elf_file.specs.Checks.{first_fault, has_table, segment_checks};
ghost use Rattle.elf_file.specs.Headers.{ArePlaced, is_loaded, is_placed, is_writable_code, clash_at};
ghost use Rattle.elf_file.specs.Spans.{meets};
ghost use Rattle.elf_file.specs.declared.spans.Sharing.TheVariants.{Page};

use crate::fault::ElfFault;
use crate::fields::header_count;
use crate::headers::{is_loaded, is_placed, program_header};
use crate::pair_checks::clash_at;
use crate::rights::{is_executable, is_writable};
use crate::spans::{Sharing, apart_below};
use std::alloc::Global;

const INTERPRETER: u32 = 3;

/// Checks each program header, in order. Costs by a sort of the segments; where memory is wanting, by the square of the
/// number of headers.
#[tactic(auto, using(crate::proofs::Faults::below_none, crate::proofs::Faults::below_passes, crate::proofs::Faults::below_fails))]
pub fn check_segments(alloc: Global, bytes: &[u8]) -> Result<(), ElfFault>
    requires { has_table bytes.now ≡ true }
    ensures first { MatchResult result
        (λ _. first_fault (below (segment_checks bytes.now) (e_phnum bytes.now)) ≡ None)
        (λ fault. first_fault (below (segment_checks bytes.now) (e_phnum bytes.now)) ≡ Some fault) }
    ensures placed { OnOk result (ArePlaced bytes.now (e_phnum bytes.now)) }
{
    let apart = apart_below(alloc, bytes, placed_count(bytes), Sharing::Page);
    for index in 0..header_count(bytes) {
        match check_segment(bytes, index, apart) {
            Ok(()) => {}
            Err(fault) => return Err(fault),
        }
    }
    Ok(())
}

#[tactic(auto, unfolding(crate::specs::Checks::first_fault, crate::specs::Checks::segment_checks, crate::specs::Headers::is_loaded))]
fn check_segment(bytes: &[u8], index: u16, apart: u16) -> Result<(), ElfFault>
    requires table { has_table bytes.now ≡ true }
    requires within { index < e_phnum bytes.now }
    requires placed { ArePlaced bytes.now index }
    requires apart { (i j : ℕ) → i < j → j < apart → meets Page bytes.now i j ≡ false }
    ensures first { MatchResult result
        (λ _. first_fault (segment_checks bytes.now index) ≡ None)
        (λ fault. first_fault (segment_checks bytes.now index) ≡ Some fault) }
    ensures placed { OnOk result (is_loaded bytes.now index ≡ true → is_placed bytes.now index ≡ true) }
{
    if program_header(bytes, index).kind == INTERPRETER {
        return Err(ElfFault::Interpreter);
    }
    if !is_loaded(bytes, index) {
        return Ok(());
    }
    if !is_placed(bytes, index) {
        return Err(ElfFault::BadSegment(index));
    }
    if is_writable_code(bytes, index, apart) {
        return Err(ElfFault::WritableCode(index));
    }
    Ok(())
}

/// Whether a page would be writable and executable, by the rights of this segment alone or with an earlier one.
#[tactic(auto, unfolding(crate::specs::Headers::is_writable_code, crate::specs::Headers::segment))]
fn is_writable_code(bytes: &[u8], index: u16, apart: u16) -> bool
    requires table { has_table bytes.now ≡ true }
    requires within { index < e_phnum bytes.now }
    requires placed { ArePlaced bytes.now (index + 1) }
    requires apart { (i j : ℕ) → i < j → j < apart → meets Page bytes.now i j ≡ false }
    ensures { result ≡ is_writable_code bytes.now index }
{
    let rights = program_header(bytes, index).flags % 8;
    if is_writable(rights) && is_executable(rights) {
        return true;
    }
    clashes_earlier(bytes, index, apart)
}

/// Whether a segment is well placed, if it is loaded.
fn is_well_placed(bytes: &[u8], index: u16) -> bool
    requires table { has_table bytes.now ≡ true }
    requires within { index < e_phnum bytes.now }
    ensures { result ≡ true → is_loaded bytes.now index ≡ true → is_placed bytes.now index ≡ true }
{
    !is_loaded(bytes, index) || is_placed(bytes, index)
}

/// How many of the first segments are all well placed, if they are loaded.
fn placed_count(bytes: &[u8]) -> u16
    requires { has_table bytes.now ≡ true }
    ensures size { result ≤ e_phnum bytes.now }
    ensures placed { ArePlaced bytes.now result }
{
    for index in 0..header_count(bytes) {
        if !is_well_placed(bytes, index) {
            return index;
        }
    }
    header_count(bytes)
}

/// Whether a page of this segment and an earlier one would be writable and executable. So many of the first segments are
/// known to have none.
#[tactic(auto, using(crate::proofs::BelowFacts::any_below_none, crate::proofs::BelowFacts::any_below_step, crate::proofs::BelowFacts::any_below_found))]
fn clashes_earlier(bytes: &[u8], index: u16, apart: u16) -> bool
    requires table { has_table bytes.now ≡ true }
    requires within { index < e_phnum bytes.now }
    requires placed { ArePlaced bytes.now (index + 1) }
    requires apart { (i j : ℕ) → i < j → j < apart → meets Page bytes.now i j ≡ false }
    ensures { result ≡ any_below (λ j. clash_at bytes.now j index) index }
{
    if index < apart {
        return false;
    }
    for earlier in 0..index {
        if clash_at(bytes, earlier, index) {
            return true;
        }
    }
    false
}
