//! The file of text and data.

ghost use Rattle.std.specs.Prelude.{◌≡◌, ◌<◌, ◌≤◌, ◌^◌, ◌+◌, ◌++◌, length, IfOk, OnOk};
ghost use Rattle.std.specs.Int.{w16, w32, w64, to_le_bytes};
ghost use Rattle.isa_asm.specs.Places.{data_base, rounded};
ghost use Rattle.isa_asm.specs.File.{file, file_header, padded, program_header, text_header};

use crate::labels::{data_base, rounded};
use std::alloc::{AllocError, Global};

/// 64 bits, little-endian, version 1, and zeros.
const IDENTIFICATION: [u8; 16] = [0x7F, b'E', b'L', b'F', 2, 1, 1, 0, 0, 0, 0, 0, 0, 0, 0, 0];

fn push_16(out: &mut Vec<u8>, value: u16) -> Result<(), AllocError>
    ensures { OnOk result (out.new.items ≡ out.old.items ++ to_le_bytes w16 value) }
{
    out.extend_from_slice(&value.to_le_bytes())
}

fn push_32(out: &mut Vec<u8>, value: u32) -> Result<(), AllocError>
    ensures { OnOk result (out.new.items ≡ out.old.items ++ to_le_bytes w32 value) }
{
    out.extend_from_slice(&value.to_le_bytes())
}

fn push_64(out: &mut Vec<u8>, value: u64) -> Result<(), AllocError>
    ensures { OnOk result (out.new.items ≡ out.old.items ++ to_le_bytes w64 value) }
{
    out.extend_from_slice(&value.to_le_bytes())
}

/// The file's header: type EXEC, RISC-V, version 1, and program headers behind it.
#[tactic(auto, unfolding(crate::specs::File::file_header))]
fn file_header(alloc: Global, entry: u64, headers: u16) -> Result<Vec<u8>, AllocError>
    ensures { IfOk result (λ header. header.items ≡ file_header entry headers) }
{
    let mut out = Vec::from_slice(alloc, &IDENTIFICATION)?;
    push_16(&mut out, 2)?;
    push_16(&mut out, 243)?;
    push_32(&mut out, 1)?;
    push_64(&mut out, entry)?;
    push_64(&mut out, 64)?;
    push_64(&mut out, 0)?;
    push_32(&mut out, 1)?;
    push_16(&mut out, 64)?;
    push_16(&mut out, 56)?;
    push_16(&mut out, headers)?;
    push_16(&mut out, 0)?;
    push_16(&mut out, 0)?;
    push_16(&mut out, 0)?;
    Ok(out)
}

/// The header of a segment to be loaded.
#[tactic(auto, unfolding(crate::specs::File::program_header))]
fn program_header(
    alloc: Global,
    rights: u32,
    place: u64,
    address: u64,
    size: u64,
) -> Result<Vec<u8>, AllocError>
    ensures { IfOk result (λ header. header.items ≡ program_header rights place address size) }
{
    let mut out = Vec::new(alloc);
    push_32(&mut out, 1)?;
    push_32(&mut out, rights)?;
    push_64(&mut out, place)?;
    push_64(&mut out, address)?;
    push_64(&mut out, address)?;
    push_64(&mut out, size)?;
    push_64(&mut out, size)?;
    push_64(&mut out, 4096)?;
    Ok(out)
}

fn text_header(alloc: Global, text: &[u8]) -> Result<Vec<u8>, AllocError>
    ensures { IfOk result (λ header. header.items ≡ text_header text.now) }
{
    program_header(alloc, 5, 4096, 0x1_0000, text.len() as u64)
}

/// Adds zeros up to a length.
fn pad(out: &mut Vec<u8>, size: usize) -> Result<(), AllocError>
    ensures { OnOk result (out.new.items ≡ padded size out.old.items) }
{
    out.resize(size.max(out.len()), 0)
}

/// The file of text and data.
#[tactic(auto, unfolding(crate::specs::File::file))]
pub fn write_file(
    alloc: Global,
    entry: u64,
    text: &[u8],
    data_bytes: &[u8],
) -> Result<Vec<u8>, AllocError>
    ensures { IfOk result (λ bytes. bytes.items ≡ file entry text.now data_bytes.now) }
{
    match data_bytes {
        [] => write_text(alloc, entry, text),
        [_, ..] => write_both(alloc, entry, text, data_bytes),
    }
}

fn write_text(alloc: Global, entry: u64, text: &[u8]) -> Result<Vec<u8>, AllocError>
    ensures { IfOk result (λ bytes. bytes.items ≡ padded 4096 (file_header entry 1 ++ text_header text.now) ++ text.now) }
{
    let mut out = file_header(alloc, entry, 1)?;
    let header = text_header(alloc, text)?;
    out.extend_from_slice(&header)?;
    pad(&mut out, 4096)?;
    out.extend_from_slice(text)?;
    Ok(out)
}

fn write_both(
    alloc: Global,
    entry: u64,
    text: &[u8],
    data_bytes: &[u8],
) -> Result<Vec<u8>, AllocError>
    ensures { IfOk result (λ bytes. bytes.items ≡ padded (4096 + rounded (length text.now)) (padded 4096 (file_header entry 2 ++ text_header text.now ++ program_header 6 (4096 + rounded (length text.now)) (data_base (length text.now)) (length data_bytes.now)) ++ text.now) ++ data_bytes.now) }
{
    let place = 4096 + rounded(text.len() as u64);
    let mut out = file_header(alloc, entry, 2)?;
    let header = text_header(alloc, text)?;
    out.extend_from_slice(&header)?;
    let header = program_header(
        alloc,
        6,
        place,
        data_base(text.len() as u64),
        data_bytes.len() as u64,
    )?;
    out.extend_from_slice(&header)?;
    pad(&mut out, 4096)?;
    out.extend_from_slice(text)?;
    pad(&mut out, place as usize)?;
    out.extend_from_slice(data_bytes)?;
    Ok(out)
}
