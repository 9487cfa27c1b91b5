//! Loads and stores whose bytes lie in one page, by one look-up.

ghost use Rattle.std.specs.Prelude.{◌≡◌, IfSome, true, false, None, Ok};
ghost use Rattle.isa_step.specs.Instruction.{load_size, loaded, store_size};
ghost use Rattle.byteorder.specs.Endian.{little_bytes, little_number};
ghost use Rattle.guest_pages.specs.Faults.{answer_or, first_fault, readable, writable};
ghost use Rattle.guest_pages.specs.Operations.{bytes_at, written};
ghost use Rattle.word_memory.specs.Reservations.{stored_to};

use crate::effects::{signed_byte, signed_half, signed_word, width_of_store};
use guest_pages::Pages;
use isa_decode::{LoadKind, Width};
use word_memory::Reservations;

/// Stores a number whose bytes lie in one page and can be written, and tells whether they do; else all stays.
#[inline(always)]
pub fn store_near(
    thread: u32,
    width: Width,
    at: u64,
    value: u64,
    memory: &mut Pages,
    held: &mut Reservations,
) -> bool
    ensures good { result ≡ true → first_fault writable memory.old at (store_size width) ≡ None }
    ensures memory { result ≡ true → memory.new ≡ written at (little_bytes (store_size width) value) memory.old }
    ensures held { result ≡ true → held.new ≡ stored_to thread at (store_size width) held.old }
    ensures stays { result ≡ false → (memory.new ≡ memory.old) × (held.new ≡ held.old) }
{
    if !put_near(width, at, value, memory) {
        return false;
    }
    held.stored(thread, at, width_of_store(width).size() as u64);
    true
}

/// The same without the reservations. The width that programs use most goes first, so that its bytes are moved at once.
#[inline(always)]
fn put_near(width: Width, at: u64, value: u64, memory: &mut Pages) -> bool
    ensures good { result ≡ true → first_fault writable memory.old at (store_size width) ≡ None }
    ensures memory { result ≡ true → memory.new ≡ written at (little_bytes (store_size width) value) memory.old }
    ensures stays { result ≡ false → memory.new ≡ memory.old }
{
    if let Width::Eight = width {
        return memory.store_near(at, guest_pages::Width::Eight, value);
    }
    if let Width::Four = width {
        return memory.store_near(at, guest_pages::Width::Four, value);
    }
    put_short_near(width, at, value, memory)
}

/// The same of any width.
#[inline(never)]
fn put_short_near(width: Width, at: u64, value: u64, memory: &mut Pages) -> bool
    ensures good { result ≡ true → first_fault writable memory.old at (store_size width) ≡ None }
    ensures memory { result ≡ true → memory.new ≡ written at (little_bytes (store_size width) value) memory.old }
    ensures stays { result ≡ false → memory.new ≡ memory.old }
{
    if let Width::One = width {
        return memory.store_near(at, guest_pages::Width::One, value);
    }
    memory.store_near(at, width_of_store(width), value)
}

/// What a register holds of a load whose bytes lie in one page and can be read. The kinds that programs use most go first,
/// since on many processors a jump by a table costs more than a few tests.
#[inline(always)]
pub fn load_near(kind: LoadKind, at: u64, memory: &Pages) -> Option<u64>
    ensures { IfSome result (λ value. answer_or
        (first_fault readable memory.now at (load_size kind))
        (loaded kind (little_number (load_size kind) (bytes_at memory.now at (load_size kind)))) ≡ Ok value) }
{
    if let LoadKind::Ld = kind {
        return memory.load_near(at, guest_pages::Width::Eight);
    }
    if let LoadKind::Lw = kind {
        return match memory.load_near(at, guest_pages::Width::Four) {
            Some(value) => Some(signed_word(value)),
            None => None,
        };
    }
    if let LoadKind::Lbu = kind {
        return memory.load_near(at, guest_pages::Width::One);
    }
    load_other_near(kind, at, memory)
}

/// The same of any kind.
#[inline(never)]
fn load_other_near(kind: LoadKind, at: u64, memory: &Pages) -> Option<u64>
    ensures { IfSome result (λ value. answer_or
        (first_fault readable memory.now at (load_size kind))
        (loaded kind (little_number (load_size kind) (bytes_at memory.now at (load_size kind)))) ≡ Ok value) }
{
    match kind {
        LoadKind::Lb => match memory.load_near(at, guest_pages::Width::One) {
            Some(value) => Some(signed_byte(value)),
            None => None,
        },
        LoadKind::Lh => match memory.load_near(at, guest_pages::Width::Two) {
            Some(value) => Some(signed_half(value)),
            None => None,
        },
        LoadKind::Lw => match memory.load_near(at, guest_pages::Width::Four) {
            Some(value) => Some(signed_word(value)),
            None => None,
        },
        LoadKind::Ld => memory.load_near(at, guest_pages::Width::Eight),
        LoadKind::Lbu => memory.load_near(at, guest_pages::Width::One),
        LoadKind::Lhu => memory.load_near(at, guest_pages::Width::Two),
        LoadKind::Lwu => memory.load_near(at, guest_pages::Width::Four),
    }
}
