ghost use Rattle.std.specs.Prelude.{◌≤◌, ◌<◌, ◌+◌, ◌≡◌, ◌&&◌, false, length};
ghost use Rattle.elf_file.specs.Segments.{is_writable, is_executable};
ghost use Rattle.guest_pages.specs.Limits.{maps_end, segments_start};

use le_fields::Bytes;

/// A segment that is loaded.
#[derive(Drop)]
pub struct Segment {
    /// The address of its first byte, from 0x1000 on.
    pub at: u64,
    /// The bytes that the file gives it. Zeros follow them, up to `size`.
    pub file_bytes: Bytes,
    /// How many bytes it has in memory. It ends at 0x3F00000000 at most.
    pub size: u64,
    /// The sum of 1 for execution, 2 for writing and 4 for reading. Never both of the first two.
    pub rights: u32,
    pub ghost holds_file: { length file_bytes ≤ size },
    pub ghost low: { segments_start ≤ at },
    pub ghost high: { at + size ≤ maps_end },
    pub ghost few_rights: { rights < 8 },
    pub ghost one_way: { (is_writable rights && is_executable rights) ≡ false },
}
