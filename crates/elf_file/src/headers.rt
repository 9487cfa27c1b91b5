//! The program headers, and the ranges of the segments that are loaded.

ghost use Rattle.std.specs.Prelude.{◌≡◌, ◌≤◌, ◌<◌, ◌+◌, ◌&&◌, true, false, nat_le, MatchOption, IfSome, OnSome, length};
ghost use Rattle.elf_file.specs.Fields.{header_place, e_phnum};
ghost use Rattle.elf_file.specs.Checks.{has_table};
ghost use Rattle.elf_file.specs.Headers.{base, is_loaded, is_placed, segment};
ghost use Rattle.elf_file.specs.Kept.{IsHeader, IsArea};
ghost use Rattle.guest_pages.specs.Limits.{maps_end, segments_start, shared_object_base};

use crate::fields::{kind, table_offset, u32_in, u64_in};
use guest_pages::{MAPS_END, SEGMENTS_START, SHARED_OBJECT_BASE};

const SHARED_OBJECT: u16 = 3;

const LOADED: u32 = 1;

/// A program header. The address is without the base.
#[derive(Clone, Copy)]
pub struct ProgramHeader {
    pub kind: u32,
    pub flags: u32,
    pub offset: u64,
    pub address: u64,
    pub file_size: u64,
    pub memory_size: u64,
}

/// The range of a segment that is loaded, and its rights. The address is with the base.
#[derive(Clone, Copy)]
pub struct Area {
    pub start: u64,
    pub size: u64,
    pub rights: u32,
}

pub fn program_header(bytes: &[u8], index: u16) -> ProgramHeader
    requires table { has_table bytes.now ≡ true }
    requires within { index < e_phnum bytes.now }
    ensures { IsHeader bytes.now index result }
{
    let at = header_place(bytes, index);
    ProgramHeader {
        kind: u32_in(bytes, at),
        flags: u32_in(bytes, at + 4),
        offset: u64_in(bytes, at + 8),
        address: u64_in(bytes, at + 16),
        file_size: u64_in(bytes, at + 32),
        memory_size: u64_in(bytes, at + 40),
    }
}

/// Where a program header begins.
#[tactic(auto, unfolding(crate::specs::Checks::has_table))]
fn header_place(bytes: &[u8], index: u16) -> usize
    requires table { has_table bytes.now ≡ true }
    requires within { index < e_phnum bytes.now }
    ensures place { result ≡ header_place bytes.now index }
    ensures within { result + 56 ≤ length bytes.now }
{
    table_offset(bytes) as usize + 56 * index as usize
}

/// What is added to each address of the file.
#[tactic(auto, unfolding(crate::specs::Headers::base))]
pub fn base_of(bytes: &[u8]) -> u64
    ensures value { result ≡ base bytes.now }
    ensures small { result ≤ shared_object_base }
{
    if kind(bytes) == SHARED_OBJECT {
        SHARED_OBJECT_BASE
    } else {
        0
    }
}

#[tactic(auto, unfolding(crate::specs::Headers::is_loaded))]
pub fn is_loaded(bytes: &[u8], index: u16) -> bool
    requires table { has_table bytes.now ≡ true }
    requires within { index < e_phnum bytes.now }
    ensures { result ≡ is_loaded bytes.now index }
{
    program_header(bytes, index).kind == LOADED
}

/// Whether the segment has no more bytes in the file than in memory, the file has them (wherever none would be), and it
/// lies within the addresses of programs.
#[tactic(auto, unfolding(crate::specs::Headers::is_placed))]
pub fn is_placed(bytes: &[u8], index: u16) -> bool
    requires table { has_table bytes.now ≡ true }
    requires within { index < e_phnum bytes.now }
    ensures { result ≡ is_placed bytes.now index }
{
    let header = program_header(bytes, index);
    if header.memory_size < header.file_size {
        return false;
    }
    let length = bytes.len() as u64;
    if header.file_size != 0
        && (length < header.file_size || length - header.file_size < header.offset)
    {
        return false;
    }
    is_within(base_of(bytes), header.address, header.memory_size)
}

/// Whether the range lies within the addresses of programs. The base is added to its address.
fn is_within(base: u64, address: u64, size: u64) -> bool
    ensures { result ≡ (nat_le segments_start (base + address) && nat_le (base + address + size) maps_end) }
{
    let Some(start) = base.checked_add(address) else {
        return false;
    };
    let Some(end) = start.checked_add(size) else {
        return false;
    };
    SEGMENTS_START <= start && end <= MAPS_END
}

/// The range and the rights of a segment, if it is loaded. It is known to be placed.
#[tactic(auto, unfolding(crate::specs::Headers::is_loaded, crate::specs::Headers::is_placed, crate::specs::Headers::segment))]
pub fn area_at(bytes: &[u8], index: u16) -> Option<Area>
    requires table { has_table bytes.now ≡ true }
    requires within { index < e_phnum bytes.now }
    requires placed { is_loaded bytes.now index ≡ true → is_placed bytes.now index ≡ true }
    ensures area { MatchOption result (is_loaded bytes.now index ≡ false) (λ area. IsArea (segment bytes.now index) area) }
    ensures loaded { OnSome result (is_loaded bytes.now index ≡ true) }
    ensures low { IfSome result (λ area. 0x1000 ≤ area.start) }
    ensures high { IfSome result (λ area. area.start + area.size ≤ maps_end) }
{
    let header = program_header(bytes, index);
    if header.kind != LOADED {
        return None;
    }
    Some(Area {
        start: base_of(bytes) + header.address,
        size: header.memory_size,
        rights: header.flags % 8,
    })
}
