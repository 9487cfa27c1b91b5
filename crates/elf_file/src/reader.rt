ghost use Rattle.std.specs.Prelude.{◌≡◌, ◌%◌, ◌&&◌, None, Some, true, not, MatchResult, IfOk, OnOk};
ghost use Rattle.std.specs.List.{list_any};
ghost use Rattle.elf_file.specs.Fields.{e_phnum};
ghost use Rattle.elf_file.specs.Segments.{all_pairs, clashes, shares_byte, runs_at};
ghost use Rattle.elf_file.specs.Headers.{ArePlaced, AreOneWay, entry, segments_below};
ghost use Rattle.elf_file.specs.Checks.{first_fault, has_table, checks};
ghost use Rattle.elf_file.specs.Reading.{reading, Gives};

use crate::entry_check::check_entry;
use crate::fault::ElfFault;
use crate::fields::header_count;
use crate::first_checks::{check_header, check_table};
use crate::image::Elf;
use crate::loading::{load_segments, top_of};
use crate::pair_checks::check_overlaps;
use crate::segment_checks::check_segments;
use crate::table::header_at;
use std::alloc::Global;

/// Reads a file. Addresses are those in memory, with the base 0x2000000000 in a file of type 3.
///
/// The error is the first fault in the order of the checks: of the header, of the place of the program headers, of each
/// program header in its order, of each two segments (the least later one, then the least earlier one), of the entry.
/// `Memory` comes after all of these.
///
/// Costs by the bytes of the segments, which are copied, and by a sort of the program headers, or by the square of their
/// number where memory for it is wanting. Of a file that is refused no bytes are copied.
///
/// References: ELF-64, "ELF header" and "Program header"; RISC-V ELF psABI, "File Header".
#[tactic(auto, unfolding(crate::specs::Reading::reading))]
pub fn read(alloc: Global, bytes: &[u8]) -> Result<Elf, ElfFault>
    ensures { Gives result (reading bytes.now) }
{
    let entry = match check(alloc, bytes) {
        Ok(entry) => entry,
        Err(fault) => return Err(fault),
    };
    let Ok(segments) = load_segments(alloc, bytes) else {
        return Err(ElfFault::Memory);
    };
    let top = top_of(segments.as_slice());
    Ok(Elf {
        entry,
        header_at: header_at(bytes),
        header_count: header_count(bytes),
        segments,
        top,
    })
}

/// Makes all checks, and gives the entry.
#[tactic(auto, using(crate::proofs::Faults::first_fault_passes, crate::proofs::Faults::first_fault_fails))]
fn check(alloc: Global, bytes: &[u8]) -> Result<u64, ElfFault>
    ensures first { MatchResult result
        (λ _. first_fault (checks bytes.now) ≡ None)
        (λ fault. first_fault (checks bytes.now) ≡ Some fault) }
    ensures table { OnOk result (has_table bytes.now ≡ true) }
    ensures placed { OnOk result (ArePlaced bytes.now (e_phnum bytes.now)) }
    ensures one_way { OnOk result (AreOneWay bytes.now (e_phnum bytes.now)) }
    ensures clear { OnOk result (all_pairs (λ s t. not (clashes s t)) (segments_below bytes.now (e_phnum bytes.now)) ≡ true) }
    ensures apart { OnOk result (all_pairs (λ s t. not (shares_byte s t)) (segments_below bytes.now (e_phnum bytes.now)) ≡ true) }
    ensures entry { IfOk result (λ address. address ≡ entry bytes.now) }
    ensures even { OnOk result (entry bytes.now % 2 ≡ 0) }
    ensures runs { OnOk result (list_any (λ s. runs_at s (entry bytes.now)) (segments_below bytes.now (e_phnum bytes.now)) ≡ true) }
{
    match check_header(bytes) {
        Ok(()) => {}
        Err(fault) => return Err(fault),
    }
    match check_table(bytes) {
        Ok(()) => {}
        Err(fault) => return Err(fault),
    }
    match check_segments(alloc, bytes) {
        Ok(()) => {}
        Err(fault) => return Err(fault),
    }
    match check_overlaps(alloc, bytes) {
        Ok(()) => {}
        Err(fault) => return Err(fault),
    }
    check_entry(bytes)
}
