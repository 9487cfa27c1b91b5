ghost use Rattle.std.specs.Prelude.{◌≡◌, ◌<◌, ◌^◌, false, None, Some, IfOk, OnOk, OnErr};
ghost use Rattle.guest_pages.specs.Faults.{changeable, first_fault, readable, writable};
ghost use Rattle.guest_pages.specs.Sizes.{size_of as pages_size};
ghost use Rattle.word_memory.specs.Accesses.{after_conditional, combined_at, conditional_at, with_word, word_at, word_fault, word_or};
ghost use Rattle.word_memory.specs.Atomics.{cut, filled, size_of};
ghost use Rattle.word_memory.specs.Reservations.{doubleword, reserving, stands, stored_to};

use crate::combining::{combine, cut_to, fill};
use crate::fault::WordFault;
use crate::reservations::Reservations;
use guest_pages::{CHANGEABLE, Pages, READABLE, Rights, WRITABLE, Width};
use isa_decode::AmoOp;

/// An atomic operation of the thread on the word of 4 bytes at the byte address `at`, or where it is `wide` on the
/// doubleword of 8: the old value is answered, a word sign-extended, and the operation's result stored. Of a word, only the
/// lowest 32 bits of `value` count. The reservations of other threads that the bytes touch end. It is refused as
/// `Misaligned` where `at` is no multiple of the number of bytes, and then with the least of their addresses that isn't
/// mapped, or can't be both read and written; then nothing changes. It costs by the number of threads, and takes no memory.
///
/// References: the RISC-V unprivileged manual, "Atomic Memory Operations".
#[tactic(auto, using(crate::proofs::FaultFacts::readable_too, crate::proofs::FaultFacts::writable_too))]
pub fn amo(
    pages: &mut Pages,
    held: &mut Reservations,
    thread: u32,
    at: u64,
    op: AmoOp,
    wide: bool,
    value: u64,
) -> Result<u64, WordFault>
    ensures answer { result ≡ word_or (word_fault changeable pages.old wide at) (filled wide (word_at pages.old wide at)) }
    ensures memory { OnOk result (pages.new ≡ combined_at op wide at value pages.old) }
    ensures held { OnOk result (held.new ≡ stored_to thread at (size_of wide) held.old) }
    ensures err_memory { OnErr result (pages.new ≡ pages.old) }
    ensures err_held { OnErr result (held.new ≡ held.old) }
{
    match check(pages, wide, at, CHANGEABLE) {
        Err(fault) => Err(fault),
        Ok(()) => {
            let old = load(pages, wide, at);
            store(pages, wide, at, combine(op, wide, old, cut_to(wide, value)));
            held.stored(thread, at, size(wide));
            Ok(fill(wide, old))
        }
    }
}

/// The word of 4 bytes at the byte address `at`, sign-extended, or where it is `wide` the doubleword of 8; the thread
/// reserves the aligned doubleword that it is in. It is refused as `Misaligned` where `at` is no multiple of the number of
/// bytes, and then with the least of their addresses that isn't mapped or can't be read; then nothing changes. It costs by
/// the number of threads, and takes no memory.
///
/// References: the RISC-V unprivileged manual, "Load-Reserved/Store-Conditional Instructions".
pub fn load_reserved(
    pages: &Pages,
    held: &mut Reservations,
    thread: u32,
    at: u64,
    wide: bool,
) -> Result<u64, WordFault>
    ensures answer { result ≡ word_or (word_fault readable pages.now wide at) (filled wide (word_at pages.now wide at)) }
    ensures held { OnOk result (held.new ≡ reserving thread (Some (doubleword at)) held.old) }
    ensures err { OnErr result (held.new ≡ held.old) }
{
    match check(pages, wide, at, READABLE) {
        Err(fault) => Err(fault),
        Ok(()) => {
            let old = load(pages, wide, at);
            held.reserve(thread, at - at % 8);
            Ok(fill(wide, old))
        }
    }
}

/// The lowest 4 bytes of the value, or where it is `wide` all 8, are stored at the byte address `at` exactly where the
/// thread's reservation of the aligned doubleword stands; whether they were. The reservation ends in both cases, and after
/// a store those of other threads that the bytes touch. It is refused as `Misaligned` where `at` is no multiple of the
/// number of bytes, and then with the least of their addresses that isn't mapped or can't be written, also where nothing
/// would be stored; then nothing changes. It costs by the number of threads, and takes no memory.
///
/// References: the RISC-V unprivileged manual, "Load-Reserved/Store-Conditional Instructions".
pub fn store_conditional(
    pages: &mut Pages,
    held: &mut Reservations,
    thread: u32,
    at: u64,
    wide: bool,
    value: u64,
) -> Result<bool, WordFault>
    ensures answer { result ≡ word_or (word_fault writable pages.old wide at) (stands thread (doubleword at) held.old) }
    ensures memory { OnOk result (pages.new ≡ conditional_at (stands thread (doubleword at) held.old) wide at value pages.old) }
    ensures held { OnOk result (held.new ≡ after_conditional (stands thread (doubleword at) held.old) thread wide at held.old) }
    ensures err_memory { OnErr result (pages.new ≡ pages.old) }
    ensures err_held { OnErr result (held.new ≡ held.old) }
{
    match check(pages, wide, at, WRITABLE) {
        Err(fault) => Err(fault),
        Ok(()) => {
            if held.stands(thread, at - at % 8) {
                store(pages, wide, at, value);
                held.end(thread);
                held.stored(thread, at, size(wide));
                Ok(true)
            } else {
                held.end(thread);
                Ok(false)
            }
        }
    }
}

/// The bytes of an access.
#[inline]
fn size(wide: bool) -> u64
    ensures { result ≡ size_of wide }
{
    if wide { 8 } else { 4 }
}

/// The width of an access.
#[inline]
fn width(wide: bool) -> Width
    ensures { pages_size result ≡ size_of wide }
{
    if wide { Width::Eight } else { Width::Four }
}

#[inline]
#[tactic(auto, unfolding(crate::specs::Accesses::word_fault))]
fn check(pages: &Pages, wide: bool, at: u64, needed: Rights) -> Result<(), WordFault>
    ensures answer { result ≡ word_or (word_fault needed pages.now wide at) tt }
    ensures allowed { OnOk result (first_fault needed pages.now at (size_of wide) ≡ None) }
{
    if at % size(wide) != 0 {
        return Err(WordFault::Misaligned(at));
    }
    match pages.allows(at, size(wide), needed) {
        Ok(()) => Ok(()),
        Err(fault) => Err(WordFault::Page(fault)),
    }
}

/// The word or doubleword at an address that can be read.
#[inline]
#[tactic(auto, unfolding(crate::specs::Accesses::word_at))]
fn load(pages: &Pages, wide: bool, at: u64) -> u64
    requires { first_fault readable pages.now at (size_of wide) ≡ None }
    ensures value { result ≡ word_at pages.now wide at }
    ensures small { wide ≡ false → result < 2 ^ 32 }
{
    match pages.load(at, width(wide)) {
        Ok(value) => cut_to(wide, value),
        Err(_) => unreachable!(),
    }
}

/// The lowest bytes of the value go to an address that can be written.
#[inline]
#[tactic(auto, unfolding(crate::specs::Accesses::with_word))]
fn store(pages: &mut Pages, wide: bool, at: u64, value: u64)
    requires { first_fault writable pages.old at (size_of wide) ≡ None }
    ensures { pages.new ≡ with_word at wide value pages.old }
{
    match pages.store(at, width(wide), value) {
        Ok(()) => {}
        Err(_) => unreachable!(),
    }
}
