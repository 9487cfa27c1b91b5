//! Programs of one segment.

ghost use Rattle.std.specs.Prelude.{◌≡◌, IfOk};
ghost use Rattle.std.specs.List.{flat_map};
ghost use Rattle.elf_build.specs.Programs.{behind_zeros, content, one_segment, program, whole_program, word_bytes};

use crate::headers::{EXECUTE, ElfHeader, ProgramHeader, READ, zeros};
use crate::writing::file;
use std::alloc::{AllocError, Global};

/// Compressed instructions may stand in it.
const COMPRESSED: u32 = 1;

/// The length of a file's header and of one program header.
const HEADERS: usize = 120;

/// A program of these words with these bytes behind them, which stand at 0x10000 and from offset 4096 of the file on. It
/// begins with the first word.
#[tactic(auto, unfolding(crate::specs::Programs::program))]
pub fn program(alloc: Global, words: &[u32], data_bytes: &[u8]) -> Result<Vec<u8>, AllocError>
    ensures { IfOk result (λ bytes. bytes.items ≡ program words.now data_bytes.now) }
{
    let content = content(alloc, words, data_bytes)?;
    let size = content.len() as u64;
    let rest = behind_zeros(alloc, 4096 - HEADERS, &content)?;
    one_segment(alloc, 0x10000, 4096, size, &rest)
}

/// A program that is loaded whole, with its headers, at 0x10000. These words with these bytes behind them stand from
/// 0x10078 on, where it begins.
#[tactic(auto, unfolding(crate::specs::Programs::whole_program))]
pub fn whole_program(alloc: Global, words: &[u32], data_bytes: &[u8]) -> Result<Vec<u8>, AllocError>
    ensures { IfOk result (λ bytes. bytes.items ≡ whole_program words.now data_bytes.now) }
{
    let content = content(alloc, words, data_bytes)?;
    let size = HEADERS as u64 + content.len() as u64;
    one_segment(alloc, 0x10078, 0, size, &content)
}

/// A file of one segment at 0x10000, which can be read and executed.
#[tactic(auto, unfolding(crate::specs::Programs::one_segment))]
fn one_segment(
    alloc: Global,
    entry: u64,
    offset: u64,
    size: u64,
    rest: &[u8],
) -> Result<Vec<u8>, AllocError>
    ensures { IfOk result (λ bytes. bytes.items ≡ one_segment entry offset size rest.now) }
{
    let header = ElfHeader {
        flags: COMPRESSED,
        ..ElfHeader::new(2, entry, 1)
    };
    let segment = ProgramHeader {
        offset,
        file_size: size,
        ..zeros(READ | EXECUTE, 0x10000, size)
    };
    file(alloc, header, &[segment], rest)
}

/// These bytes, with so many zeros in front.
#[tactic(auto, unfolding(crate::specs::Programs::behind_zeros))]
fn behind_zeros(alloc: Global, zeros: usize, bytes: &[u8]) -> Result<Vec<u8>, AllocError>
    ensures { IfOk result (λ out. out.items ≡ behind_zeros zeros bytes.now) }
{
    let mut out = Vec::new(alloc);
    out.resize(zeros, 0)?;
    out.extend_from_slice(bytes)?;
    Ok(out)
}

/// The bytes of the words, and these bytes behind them.
#[tactic(auto, unfolding(crate::specs::Programs::content))]
fn content(alloc: Global, words: &[u32], data_bytes: &[u8]) -> Result<Vec<u8>, AllocError>
    ensures { IfOk result (λ bytes. bytes.items ≡ content words.now data_bytes.now) }
{
    let mut out = bytes_of(alloc, words)?;
    out.extend_from_slice(data_bytes)?;
    Ok(out)
}

/// The bytes of the words, the lowest byte of each first.
fn bytes_of(alloc: Global, words: &[u32]) -> Result<Vec<u8>, AllocError>
    ensures { IfOk result (λ bytes. bytes.items ≡ flat_map word_bytes words.now) }
{
    let mut out = Vec::new(alloc);
    for word in words {
        out.extend_from_slice(&word.to_le_bytes())?;
    }
    Ok(out)
}
