//! The pages of a segment, and their rights.

ghost use Rattle.std.specs.Prelude.{◌≡◌, ◌<◌};
ghost use Rattle.elf_file.specs.Segments.{last_page as page_of_last};
ghost use Rattle.elf_file.specs.Views.{segment_image};
ghost use Rattle.segment_load.specs.Loading.{either as either_of, rights_by};

use elf_file::Segment;
use guest_pages::{PAGE_SIZE, Rights};

/// The number of the page of the last byte of a segment that has one.
pub(crate) fn last_page(segment: &Segment) -> u64
    requires { 0 < segment.now.size }
    ensures { result ≡ page_of_last (segment_image segment.now) }
{
    (segment.at + segment.size - 1) / PAGE_SIZE
}

/// The rights by a segment's flags.
#[tactic(auto, unfolding(crate::specs::Loading::rights_by))]
pub(crate) fn rights_of(flags: u32) -> Rights
    ensures { result ≡ rights_by flags }
{
    Rights {
        read: flags & 4 != 0,
        write: flags & 2 != 0,
        execute: flags & 1 != 0,
    }
}

/// The rights that one of two has.
#[tactic(auto, unfolding(crate::specs::Loading::either))]
pub(crate) fn either(a: Rights, b: Rights) -> Rights
    ensures { result ≡ either_of a b }
{
    Rights {
        read: a.read || b.read,
        write: a.write || b.write,
        execute: a.execute || b.execute,
    }
}
