//! The rights of the pages of segments.

ghost use Rattle.std.specs.Prelude.{◌≡◌, ◌<◌, ◌≤◌, ◌+◌, ◌-◌, ◌*◌, ◌^◌, ℕ, Bool, true, not, List, ◌∷◌, OnOk, IfErr};
ghost use Rattle.std.specs.List.{list_all};
ghost use Rattle.elf_file.specs.Segments.{SegmentImage, shares_byte};
ghost use Rattle.elf_file.specs.Views.{segment_image};
ghost use Rattle.guest_pages.specs.declared.rights.Rights.{Rights};
ghost use Rattle.guest_pages.specs.Operations.{protected};
ghost use Rattle.guest_pages.specs.Ranges.{cell_at, within};
ghost use Rattle.segment_load.specs.Loading.{no_right, page_rights, touches};
ghost use Rattle.segment_load.specs.Steps.{HasPages, IsFull, rights_in, with_more, zeros};

use crate::rights::{either, last_page, rights_of};
use elf_file::Segment;
use guest_pages::{EXECUTABLE, MapFault, PAGE_SIZE, Pages, READABLE, Rights, WRITABLE};
use std::alloc::Global;

/// The rights at an address, none where it is not mapped.
pub(crate) fn rights_at(memory: &Pages, at: u64) -> Rights
    ensures { result ≡ rights_in (cell_at memory.now at) }
{
    Rights {
        read: memory.allows(at, 1, READABLE).is_ok(),
        write: memory.allows(at, 1, WRITABLE).is_ok(),
        execute: memory.allows(at, 1, EXECUTABLE).is_ok(),
    }
}

/// Gives pages from one on these rights in place of theirs.
pub(crate) fn protect_pages(
    alloc: Global,
    memory: &mut Pages,
    first: u64,
    count: u64,
    rights: Rights,
) -> Result<(), MapFault>
    requires { first + count ≤ 2 ^ 26 }
    ensures made { OnOk result (memory.new ≡ protected (4096 * first) (4096 * count) rights memory.old) }
    ensures refused { IfErr result (λ fault. (mapped : ℕ → Bool) (had after : ℕ → Rights) (bytes : ℕ → ℕ) → HasPages mapped had bytes memory.old
        → ((page : ℕ) → within first count page ≡ true → mapped page ≡ true)
        → HasPages mapped after bytes (protected (4096 * first) (4096 * count) rights memory.old)
        → IsFull mapped after fault) }
{
    memory.protect(alloc, PAGE_SIZE * first, count, rights)
}

/// Gives a page these rights beside those that it has.
fn grant_shared(
    alloc: Global,
    memory: &mut Pages,
    page: u64,
    rights: Rights,
) -> Result<(), MapFault>
    requires { page < 2 ^ 26 }
    ensures made { OnOk result ((mapped : ℕ → Bool) (had : ℕ → Rights) → HasPages mapped had zeros memory.old
        → HasPages mapped (with_more page 1 rights had) zeros memory.new) }
    ensures refused { IfErr result (λ fault. (mapped : ℕ → Bool) (had : ℕ → Rights) → HasPages mapped had zeros memory.old
        → mapped page ≡ true
        → IsFull mapped (with_more page 1 rights had) fault) }
{
    let all = either(rights, rights_at(memory, PAGE_SIZE * page));
    protect_pages(alloc, memory, page, 1, all)
}

/// Gives pages from one on, which have no right, these rights.
fn grant_alone(
    alloc: Global,
    memory: &mut Pages,
    first: u64,
    count: u64,
    rights: Rights,
) -> Result<(), MapFault>
    requires { first + count ≤ 2 ^ 26 }
    ensures made { OnOk result ((mapped : ℕ → Bool) (had : ℕ → Rights)
        → ((page : ℕ) → within first count page ≡ true → had page ≡ no_right)
        → HasPages mapped had zeros memory.old
        → HasPages mapped (with_more first count rights had) zeros memory.new) }
    ensures refused { IfErr result (λ fault. (mapped : ℕ → Bool) (had : ℕ → Rights)
        → ((page : ℕ) → within first count page ≡ true → had page ≡ no_right)
        → HasPages mapped had zeros memory.old
        → ((page : ℕ) → within first count page ≡ true → mapped page ≡ true)
        → IsFull mapped (with_more first count rights had) fault) }
{
    protect_pages(alloc, memory, first, count, rights)
}

/// Gives pages from one to another these rights, where those between the two have no right.
fn grant_pages(
    alloc: Global,
    memory: &mut Pages,
    first: u64,
    last: u64,
    rights: Rights,
) -> Result<(), MapFault>
    requires order { first ≤ last }
    requires inside { last < 2 ^ 26 }
    ensures made { OnOk result ((mapped : ℕ → Bool) (had : ℕ → Rights)
        → ((page : ℕ) → first < page → page < last → had page ≡ no_right)
        → HasPages mapped had zeros memory.old
        → HasPages mapped (with_more first (last - first + 1) rights had) zeros memory.new) }
    ensures refused { IfErr result (λ fault. (mapped : ℕ → Bool) (had : ℕ → Rights)
        → ((page : ℕ) → first < page → page < last → had page ≡ no_right)
        → HasPages mapped had zeros memory.old
        → ((page : ℕ) → first ≤ page → page ≤ last → mapped page ≡ true)
        → IsFull mapped (with_more first (last - first + 1) rights had) fault) }
{
    match grant_shared(alloc, memory, first, rights) {
        Ok(()) => {}
        Err(fault) => return Err(fault),
    }
    if first == last {
        return Ok(());
    }
    match grant_alone(alloc, memory, first + 1, last - first - 1, rights) {
        Ok(()) => {}
        Err(fault) => return Err(fault),
    }
    grant_shared(alloc, memory, last, rights)
}

/// Gives the pages of a segment its rights, beside those of other segments, which share no byte with it.
pub(crate) fn grant_one(
    alloc: Global,
    memory: &mut Pages,
    segment: &Segment,
) -> Result<(), MapFault>
    ensures made { OnOk result ((mapped : ℕ → Bool) (others : List SegmentImage)
        → list_all (λ t. not (shares_byte (segment_image segment.now) t)) others ≡ true
        → HasPages mapped (page_rights others) zeros memory.old
        → HasPages mapped (page_rights (segment_image segment.now ∷ others)) zeros memory.new) }
    ensures refused { IfErr result (λ fault. (mapped : ℕ → Bool) (others : List SegmentImage)
        → list_all (λ t. not (shares_byte (segment_image segment.now) t)) others ≡ true
        → HasPages mapped (page_rights others) zeros memory.old
        → ((page : ℕ) → touches (segment_image segment.now) page ≡ true → mapped page ≡ true)
        → IsFull mapped (page_rights (segment_image segment.now ∷ others)) fault) }
{
    if segment.rights == 0 || segment.size == 0 {
        return Ok(());
    }
    let first = segment.at / PAGE_SIZE;
    grant_pages(
        alloc,
        memory,
        first,
        last_page(segment),
        rights_of(segment.rights),
    )
}
