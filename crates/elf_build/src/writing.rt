//! The bytes of a file.

ghost use Rattle.std.specs.Prelude.{◌≡◌, ◌++◌, ◌+◌, ◌*◌, length, IfOk, OnOk};
ghost use Rattle.std.specs.List.{flat_map};
ghost use Rattle.elf_build.specs.File.{elf_header, file, program_header};

use crate::headers::{ElfHeader, ProgramHeader};
use std::alloc::{AllocError, Global};

/// 64 bits, little-endian, version 1, and zeros.
const IDENTIFICATION: [u8; 16] = [0x7F, b'E', b'L', b'F', 2, 1, 1, 0, 0, 0, 0, 0, 0, 0, 0, 0];

/// A file: its header, its program headers, and bytes behind them.
///
/// References: System V ABI, "ELF Header" and "Program Header".
#[tactic(auto, unfolding(crate::specs::File::file))]
pub fn file(
    alloc: Global,
    header: ElfHeader,
    program_headers: &[ProgramHeader],
    rest: &[u8],
) -> Result<Vec<u8>, AllocError>
    ensures { IfOk result (λ bytes. bytes.items ≡ file header program_headers.now rest.now) }
{
    let mut out = elf_header(alloc, header)?;
    add_program_headers(alloc, &mut out, program_headers)?;
    out.extend_from_slice(rest)?;
    Ok(out)
}

/// With version 1, no sections, and the sizes of the headers: 64 bytes of this one, 56 of a program header.
#[tactic(auto, unfolding(crate::specs::File::elf_header))]
fn elf_header(alloc: Global, header: ElfHeader) -> Result<Vec<u8>, AllocError>
    ensures { IfOk result (λ bytes. bytes.items ≡ elf_header header) }
{
    let mut out = Vec::from_slice(alloc, &IDENTIFICATION)?;
    out.extend_from_slice(&header.kind.to_le_bytes())?;
    out.extend_from_slice(&243u16.to_le_bytes())?;
    out.extend_from_slice(&1u32.to_le_bytes())?;
    out.extend_from_slice(&header.entry.to_le_bytes())?;
    out.extend_from_slice(&header.table.to_le_bytes())?;
    out.extend_from_slice(&0u64.to_le_bytes())?;
    out.extend_from_slice(&header.flags.to_le_bytes())?;
    out.extend_from_slice(&64u16.to_le_bytes())?;
    out.extend_from_slice(&56u16.to_le_bytes())?;
    out.extend_from_slice(&header.count.to_le_bytes())?;
    out.extend_from_slice(&[0; 6])?;
    Ok(out)
}

/// Adds the program headers, one behind the other.
fn add_program_headers(
    alloc: Global,
    out: &mut Vec<u8>,
    program_headers: &[ProgramHeader],
) -> Result<(), AllocError>
    ensures { OnOk result (out.new.items ≡ out.old.items ++ flat_map program_header program_headers.now) }
{
    for header in program_headers {
        let bytes = program_header(alloc, *header)?;
        out.extend_from_slice(&bytes)?;
    }
    Ok(())
}

/// Its physical address is the other one, and it is aligned to a page.
#[tactic(auto, unfolding(crate::specs::File::program_header))]
fn program_header(alloc: Global, header: ProgramHeader) -> Result<Vec<u8>, AllocError>
    ensures { IfOk result (λ bytes. bytes.items ≡ program_header header) }
{
    let mut out = Vec::new(alloc);
    out.extend_from_slice(&header.kind.to_le_bytes())?;
    out.extend_from_slice(&header.flags.to_le_bytes())?;
    out.extend_from_slice(&header.offset.to_le_bytes())?;
    out.extend_from_slice(&header.address.to_le_bytes())?;
    out.extend_from_slice(&header.address.to_le_bytes())?;
    out.extend_from_slice(&header.file_size.to_le_bytes())?;
    out.extend_from_slice(&header.memory_size.to_le_bytes())?;
    out.extend_from_slice(&4096u64.to_le_bytes())?;
    Ok(out)
}
