ghost use Rattle.std.specs.Prelude.{◌%◌, ◌≡◌, true, not, map};
ghost use Rattle.std.specs.List.{list_any};
ghost use Rattle.elf_file.specs.Segments.{clashes, shares_byte, runs_at, all_pairs, top_of};
ghost use Rattle.elf_file.specs.Views.{segment_image};

use crate::loaded::Segment;

/// A file that can be loaded.
#[derive(Drop)]
pub struct Elf {
    /// The address of the first instruction. It is even.
    pub entry: u64,
    /// The address of the table of program headers in the first segment whose bytes from the file hold it whole, 0
    /// where none does.
    pub header_at: u64,
    /// How many program headers the file has.
    pub header_count: u16,
    /// The segments that are loaded, in the file's order, also those without a byte.
    pub segments: Vec<Segment>,
    /// The greatest end of a segment that has a byte, 0 where there is none.
    pub top: u64,
    // no page of two segments is writable and executable
    pub ghost clear: { all_pairs (λ s t. not (clashes s t)) (map segment_image segments.items) ≡ true },
    // no two segments share a byte
    pub ghost apart: { all_pairs (λ s t. not (shares_byte s t)) (map segment_image segments.items) ≡ true },
    pub ghost even: { entry % 2 ≡ 0 },
    // the entry is in a segment that can be executed
    pub ghost runs: { list_any (λ s. runs_at s entry) (map segment_image segments.items) ≡ true },
    pub ghost ends: { top ≡ top_of (map segment_image segments.items) },
}
