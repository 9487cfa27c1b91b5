//! The segments that are loaded, with copies of their bytes.

ghost use Rattle.std.specs.Prelude.{◌≡◌, ◌<◌, ◌+◌, ◌&&◌, ◌++◌, ◌≤◌, true, false, map, IfOk, OnOk, max, length, take, drop};
ghost use Rattle.elf_file.specs.Fields.{e_phnum};
ghost use Rattle.elf_file.specs.Checks.{has_table};
ghost use Rattle.elf_file.specs.Segments.{top_of, byte_end};
ghost use Rattle.elf_file.specs.Headers.{ArePlaced, AreOneWay, is_loaded, segment, segment_if, segments_below};
ghost use Rattle.elf_file.specs.Views.{segment_image};

use crate::fields::header_count;
use crate::headers::{base_of, is_loaded, program_header};
use crate::loaded::Segment;
use le_fields::Bytes;
use std::alloc::{AllocError, Global};

/// The segments that are loaded, in order. Costs by their number and by the bytes that are copied.
#[tactic(auto, using(crate::proofs::LoadFacts::none_below, crate::proofs::LoadFacts::one_more_below))]
pub fn load_segments(alloc: Global, bytes: &[u8]) -> Result<Vec<Segment>, AllocError>
    requires table { has_table bytes.now ≡ true }
    requires placed { ArePlaced bytes.now (e_phnum bytes.now) }
    requires one_way { AreOneWay bytes.now (e_phnum bytes.now) }
    ensures { IfOk result (λ segments. map segment_image segments.items ≡ segments_below bytes.now (e_phnum bytes.now)) }
{
    let mut segments = Vec::new(alloc);
    for index in 0..header_count(bytes) {
        push_segment(&mut segments, alloc, bytes, index)?;
    }
    Ok(segments)
}

/// Adds the segment of a program header, if it is loaded.
fn push_segment(
    segments: &mut Vec<Segment>,
    alloc: Global,
    bytes: &[u8],
    index: u16,
) -> Result<(), AllocError>
    requires table { has_table bytes.now ≡ true }
    requires within { index < e_phnum bytes.now }
    requires placed { ArePlaced bytes.now (e_phnum bytes.now) }
    requires one_way { AreOneWay bytes.now (e_phnum bytes.now) }
    ensures { OnOk result (map segment_image segments.new.items
        ≡ map segment_image segments.old.items ++ segment_if (is_loaded bytes.now index) (segment bytes.now index)) }
{
    if !is_loaded(bytes, index) {
        return Ok(());
    }
    let segment = load_segment(alloc, bytes, index)?;
    match segments.push(segment) {
        Ok(()) => Ok(()),
        Err(_) => Err(AllocError),
    }
}

/// The segment of a program header that is loaded.
#[tactic(auto, unfolding(crate::specs::Headers::segment, crate::specs::Headers::is_placed))]
fn load_segment(alloc: Global, bytes: &[u8], index: u16) -> Result<Segment, AllocError>
    requires table { has_table bytes.now ≡ true }
    requires within { index < e_phnum bytes.now }
    requires loaded { is_loaded bytes.now index ≡ true }
    requires placed { ArePlaced bytes.now (e_phnum bytes.now) }
    requires one_way { AreOneWay bytes.now (e_phnum bytes.now) }
    ensures { IfOk result (λ loaded. segment_image loaded ≡ segment bytes.now index) }
{
    let header = program_header(bytes, index);
    let file_bytes = Vec::from_slice(alloc, part_of(bytes, header.offset, header.file_size))?;
    Ok(Segment {
        at: base_of(bytes) + header.address,
        file_bytes: Bytes::from_vec(file_bytes),
        size: header.memory_size,
        rights: header.flags % 8,
    })
}

/// So many bytes from an offset on. The offset may be any where they are none.
fn part_of(bytes: &[u8], offset: u64, size: u64) -> &[u8]
    requires { 0 < size → offset + size ≤ length bytes.now }
    ensures { result.now ≡ take size (drop offset bytes.now) }
{
    if size == 0 {
        return &[];
    }
    let start = offset as usize;
    &bytes[start..start + size as usize]
}

/// The greatest end of a segment that has a byte, 0 where there is none.
#[tactic(auto, using(crate::proofs::LoadFacts::top_of_none, crate::proofs::LoadFacts::top_of_more))]
pub fn top_of(segments: &[Segment]) -> u64
    ensures { result ≡ top_of (map segment_image segments.now) }
{
    let mut top: u64 = 0;
    for segment in segments {
        top = top.max(byte_end(segment));
    }
    top
}

/// The end of a segment that has a byte, and else 0.
fn byte_end(segment: &Segment) -> u64
    ensures { result ≡ byte_end (segment_image segment.now) }
{
    if segment.size == 0 {
        0
    } else {
        segment.at + segment.size
    }
}
