//! The checks of the header, and of the place of the program headers.

ghost use Rattle.std.specs.Prelude.{◌≡◌, None, Some, true, MatchResult, OnOk};
ghost use Rattle.elf_file.specs.Checks.{first_fault, header_checks, table_checks, has_table};

use crate::fault::ElfFault;
use crate::fields::{flags, header_count, header_size, kind, machine, table_offset};

const IDENTITY: [u8; 7] = [0x7F, b'E', b'L', b'F', 2, 1, 1];

const HEADER: usize = 64;

const PROGRAM_HEADER: u64 = 56;

const RISC_V: u16 = 243;

const FLOAT_ABI: u32 = 0x6;

const EMBEDDED: u32 = 0x8;

#[tactic(auto, unfolding(crate::specs::Checks::first_fault, crate::specs::Checks::header_checks))]
pub fn check_header(bytes: &[u8]) -> Result<(), ElfFault>
    ensures first { MatchResult result
        (λ _. first_fault (header_checks bytes.now) ≡ None)
        (λ fault. first_fault (header_checks bytes.now) ≡ Some fault) }
{
    if bytes.len() < HEADER {
        return Err(ElfFault::Short);
    }
    if !bytes.starts_with(&IDENTITY) {
        return Err(ElfFault::NotElf);
    }
    if machine(bytes) != RISC_V {
        return Err(ElfFault::NotRiscv);
    }
    let kind = kind(bytes);
    if kind != 2 && kind != 3 {
        return Err(ElfFault::Kind);
    }
    let flags = flags(bytes);
    if flags & FLOAT_ABI != 0 {
        return Err(ElfFault::FloatAbi);
    }
    if flags & EMBEDDED != 0 {
        return Err(ElfFault::Embedded);
    }
    Ok(())
}

#[tactic(auto, unfolding(crate::specs::Checks::first_fault, crate::specs::Checks::table_checks))]
pub fn check_table(bytes: &[u8]) -> Result<(), ElfFault>
    ensures first { MatchResult result
        (λ _. first_fault (table_checks bytes.now) ≡ None)
        (λ fault. first_fault (table_checks bytes.now) ≡ Some fault) }
    ensures table { OnOk result (has_table bytes.now ≡ true) }
{
    let size = header_size(bytes);
    if header_count(bytes) != 0 && size != 56 {
        return Err(ElfFault::HeaderSize(size));
    }
    if !has_table(bytes) {
        return Err(ElfFault::Short);
    }
    Ok(())
}

/// Whether the file holds its program headers, if it has any.
#[tactic(auto, unfolding(crate::specs::Checks::has_table))]
fn has_table(bytes: &[u8]) -> bool
    ensures { result ≡ has_table bytes.now }
{
    let size = PROGRAM_HEADER * u64::from(header_count(bytes));
    let length = bytes.len() as u64;
    size == 0 || (size <= length && table_offset(bytes) <= length - size)
}
