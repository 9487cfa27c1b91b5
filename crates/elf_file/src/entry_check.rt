//! The check of the entry.

ghost use Rattle.std.specs.Prelude.{◌≡◌, ◌<◌, ◌≤◌, ◌%◌, ◌^◌, true, false, None, Some, MatchResult, OnOk, IfOk};
ghost use Rattle.std.specs.Bool.{OnTrue};
ghost use Rattle.elf_file.specs.Fields.{e_phnum};
ghost use Rattle.elf_file.specs.Below.{any_below};
ghost use Rattle.elf_file.specs.Checks.{first_fault, has_table, entry_checks};
ghost use Rattle.elf_file.specs.Headers.{ArePlaced, runs_entry, entry};

use crate::fault::ElfFault;
use crate::fields::{entry, header_count};
use crate::headers::{area_at, base_of};
use crate::rights::is_executable;

/// Checks that the entry is even and can be executed, and gives it.
#[tactic(auto, unfolding(crate::specs::Checks::first_fault, crate::specs::Checks::entry_checks, crate::specs::Headers::base))]
pub fn check_entry(bytes: &[u8]) -> Result<u64, ElfFault>
    requires table { has_table bytes.now ≡ true }
    requires placed { ArePlaced bytes.now (e_phnum bytes.now) }
    ensures first { MatchResult result
        (λ _. first_fault (entry_checks bytes.now) ≡ None)
        (λ fault. first_fault (entry_checks bytes.now) ≡ Some fault) }
    ensures entry { IfOk result (λ address. address ≡ entry bytes.now) }
    ensures even { OnOk result (entry bytes.now % 2 ≡ 0) }
    ensures runs { OnOk result (any_below (runs_entry bytes.now) (e_phnum bytes.now) ≡ true) }
{
    if entry(bytes) % 2 != 0 {
        return Err(ElfFault::Entry);
    }
    if !any_runs_entry(bytes) {
        return Err(ElfFault::Entry);
    }
    Ok(base_of(bytes) + entry(bytes))
}

/// Whether the entry is in a loaded segment that can be executed.
#[tactic(auto, using(crate::proofs::BelowFacts::any_below_none, crate::proofs::BelowFacts::any_below_step, crate::proofs::BelowFacts::any_below_found))]
fn any_runs_entry(bytes: &[u8]) -> bool
    requires table { has_table bytes.now ≡ true }
    requires placed { ArePlaced bytes.now (e_phnum bytes.now) }
    ensures runs { result ≡ any_below (runs_entry bytes.now) (e_phnum bytes.now) }
    ensures small { OnTrue result (entry bytes.now < 2 ^ 64) }
{
    for index in 0..header_count(bytes) {
        if runs_entry(bytes, index) {
            return true;
        }
    }
    false
}

/// Whether the segment is loaded and can be executed, and the entry is in it.
#[tactic(auto, unfolding(crate::specs::Headers::runs_entry, crate::specs::Headers::segment, crate::specs::Segments::runs_at))]
fn runs_entry(bytes: &[u8], index: u16) -> bool
    requires table { has_table bytes.now ≡ true }
    requires within { index < e_phnum bytes.now }
    requires placed { ArePlaced bytes.now (e_phnum bytes.now) }
    ensures runs { result ≡ runs_entry bytes.now index }
    ensures small { OnTrue result (entry bytes.now < 2 ^ 64) }
{
    let Some(area) = area_at(bytes, index) else {
        return false;
    };
    if !is_executable(area.rights) {
        return false;
    }
    let Some(address) = base_of(bytes).checked_add(entry(bytes)) else {
        return false;
    };
    area.start <= address && address < area.start + area.size
}
