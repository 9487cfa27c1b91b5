//! Where the program headers stand in memory.

ghost use Rattle.std.specs.Prelude.{◌≡◌, ◌<◌, true, false, None, IfSome};
ghost use Rattle.elf_file.specs.Fields.{e_phnum};
ghost use Rattle.elf_file.specs.Below.{first_below};
ghost use Rattle.elf_file.specs.Checks.{has_table};
ghost use Rattle.elf_file.specs.Headers.{ArePlaced, header_at, holds_table};

use crate::fields::{header_count, table_offset};
use crate::headers::{base_of, is_loaded, program_header};

const PROGRAM_HEADER: u64 = 56;

/// The address of the program headers in the first loaded segment whose bytes from the file hold them whole, 0 where
/// there is none.
#[tactic(auto, unfolding(crate::specs::Headers::holds_table, crate::specs::Headers::is_placed))]
pub fn header_at(bytes: &[u8]) -> u64
    requires table { has_table bytes.now ≡ true }
    requires placed { ArePlaced bytes.now (e_phnum bytes.now) }
    ensures { result ≡ header_at bytes.now }
{
    let Some(index) = table_holder(bytes) else {
        return 0;
    };
    let header = program_header(bytes, index);
    base_of(bytes) + header.address + (table_offset(bytes) - header.offset)
}

/// The first loaded segment whose bytes from the file hold the program headers whole.
#[tactic(auto, using(crate::proofs::BelowFacts::first_below_none, crate::proofs::BelowFacts::first_below_step, crate::proofs::BelowFacts::first_below_found))]
fn table_holder(bytes: &[u8]) -> Option<u16>
    requires { has_table bytes.now ≡ true }
    ensures first { result ≡ first_below (holds_table bytes.now) (e_phnum bytes.now) }
    ensures within { IfSome result (λ index. index < e_phnum bytes.now) }
    ensures holds { IfSome result (λ index. holds_table bytes.now index ≡ true) }
{
    for index in 0..header_count(bytes) {
        if holds_table(bytes, index) {
            return Some(index);
        }
    }
    None
}

/// Whether a segment is loaded and its bytes from the file hold the program headers whole.
#[tactic(auto, unfolding(crate::specs::Checks::has_table, crate::specs::Headers::holds_table))]
fn holds_table(bytes: &[u8], index: u16) -> bool
    requires table { has_table bytes.now ≡ true }
    requires within { index < e_phnum bytes.now }
    ensures { result ≡ holds_table bytes.now index }
{
    if !is_loaded(bytes, index) {
        return false;
    }
    let header = program_header(bytes, index);
    let table = table_offset(bytes);
    let size = PROGRAM_HEADER * u64::from(header_count(bytes));
    header.offset <= table
        && size <= header.file_size
        && table - header.offset <= header.file_size - size
}
