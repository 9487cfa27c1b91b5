//! The call that waits for descriptors to be ready.

ghost use Rattle.std.specs.Prelude.{◌≡◌, ◌≤◌, ◌+◌, ◌*◌, ◌++◌, length, is_some, false, IfOk, OnOk, OnErr};
ghost use Rattle.std.specs.List.{list_any};
ghost use Rattle.byteorder.specs.Endian.{little_number};
ghost use Rattle.guest_pages.specs.Faults.{first_fault, readable};
ghost use Rattle.guest_pages.specs.Operations.{bytes_at};
ghost use Rattle.host_calls.specs.Answers.{argument};
ghost use Rattle.host_calls.specs.Host.{gives, shared_of};
ghost use Rattle.host_waits.specs.Begun.{came};
ghost use Rattle.host_waits.specs.Polling.{answer_bytes, answer_places, bits_of, count_ready, entries_in, has_bits, is_polled_now, polled_in, polls, polls_or_waits, ppoll as ppoll_of, tells};

use crate::beginning::Begun;
use crate::times::{is_bad_limit, is_wrong_limit, limit_after};
use crate::wait::{Polled, WaitKind, WaitState};
use call_table::Call;
use file_table::Files;
use file_tree::Errno;
use guest_pages::{Pages, READABLE, WRITABLE};
use host_calls::{Host, Piece, is_any_bad, scatter};
use le_fields::{u16_at, u32_at};
use std::alloc::{AllocError, Global};

/// The most entries.
const MOST_ENTRIES: u64 = 256;

/// The bits that are told though they aren't asked for: an error, no writer, and no descriptor.
const ALWAYS_TOLD: u16 = 56;

/// Waits until a descriptor is ready, or up to a time.
///
/// References: ppoll(2).
#[tactic(auto, unfolding(crate::specs::Polling::ppoll))]
pub(crate) fn ppoll(host: &mut Host, thread: u32, call: &Call) -> Result<Begun, AllocError>
    ensures entered { IfOk result (λ begun. came begun host.new ≡ ppoll_of thread call.now (shared_of host.old)) }
    ensures pending { host.new.pending ≡ host.old.pending }
    ensures err { OnErr result (host.new ≡ host.old) }
{
    if call.args[3] != 0 {
        return Ok(Begun::Answer(-Errno::ENOSYS.code()));
    }
    poll(host, thread, call)
}

fn poll(host: &mut Host, thread: u32, call: &Call) -> Result<Begun, AllocError>
    ensures entered { IfOk result (λ begun. came begun host.new ≡ polls thread (argument 0 call.now.args) (argument 1 call.now.args) (argument 2 call.now.args) call.now (shared_of host.old)) }
    ensures pending { host.new.pending ≡ host.old.pending }
    ensures err { OnErr result (host.new ≡ host.old) }
{
    let [at, count, limit, ..] = call.args;
    if count > MOST_ENTRIES {
        return Ok(Begun::Answer(-Errno::EINVAL.code()));
    }
    if host.pages.allows(at, 8 * count, READABLE).is_err()
        || host.pages.allows(at, 8 * count, WRITABLE).is_err()
        || is_bad_limit(&host.pages, limit)
    {
        return Ok(Begun::Answer(-Errno::EFAULT.code()));
    }
    if is_wrong_limit(&host.pages, limit) {
        return Ok(Begun::Answer(-Errno::EINVAL.code()));
    }
    let deadline = limit_after(&host.pages, host.clock, limit);
    let alloc = host.files.alloc();
    let entries = entries_at(alloc, &host.pages, at, count)?;
    let wait = WaitState::for_time(alloc, WaitKind::Poll, call, deadline, entries);
    poll_or_wait(host, thread, wait)
}

/// Tells the bits, or waits.
fn poll_or_wait(host: &mut Host, thread: u32, wait: WaitState) -> Result<Begun, AllocError>
    ensures entered { IfOk result (λ begun. came begun host.new ≡ polls_or_waits thread wait (shared_of host.old)) }
    ensures pending { host.new.pending ≡ host.old.pending }
    ensures err { OnErr result (host.new ≡ host.old) }
{
    if !is_polled_now(host, &wait) {
        return Ok(Begun::Waits(wait));
    }
    match tell(host, thread, &wait) {
        Ok(answer) => Ok(Begun::Answer(answer)),
        Err(error) => Err(error),
    }
}

/// Whether some entry has bits, or the deadline is there.
pub(crate) fn is_polled_now(host: &Host, wait: &WaitState) -> bool
    ensures { result ≡ is_polled_now wait.now (shared_of host.now) }
{
    is_any_ready(&host.files, wait.polled.as_slice()) || wait.is_past(host.clock)
}

fn is_any_ready(files: &Files, entries: &[Polled]) -> bool
    ensures { result ≡ list_any (has_bits files.now) entries.now }
{
    entries.iter().any(|entry| has_bits(files, entry))
}

fn has_bits(files: &Files, entry: &Polled) -> bool
    ensures { result ≡ has_bits files.now entry.now }
{
    bits_of(files, entry) != 0
}

/// The bits of an entry.
fn bits_of(files: &Files, entry: &Polled) -> u16
    ensures { result ≡ bits_of files.now entry.now }
{
    if entry.fd >= 0x8000_0000 {
        return 0;
    }
    files.readiness(u64::from(entry.fd)) & (entry.asked | ALWAYS_TOLD)
}

/// Tells the bits of the entries in memory, and how many have some.
pub(crate) fn tell(host: &mut Host, thread: u32, wait: &WaitState) -> Result<i64, AllocError>
    ensures answer { IfOk result (λ answer. gives answer host.new ≡ tells thread (argument 0 wait.now.call.args) wait.now.polled (shared_of host.old)) }
    ensures pending { host.new.pending ≡ host.old.pending }
    ensures err { OnErr result (host.new ≡ host.old) }
{
    let alloc = host.files.alloc();
    let entries = wait.polled.as_slice();
    let places = places_of(alloc, wait.call.args[0], entries)?;
    let bytes = bytes_of(alloc, &host.files, entries)?;
    if is_any_bad(&host.pages, places.as_slice(), WRITABLE) {
        return Ok(-Errno::EFAULT.code());
    }
    scatter(
        &mut host.pages,
        &mut host.held,
        thread,
        places.as_slice(),
        bytes.as_slice(),
    );
    Ok(count_ready(&host.files, entries) as i64)
}

/// The entries that stand in memory. It takes memory for them.
fn entries_at(alloc: Global, pages: &Pages, at: u64, count: u64) -> Result<Vec<Polled>, AllocError>
    requires few { count ≤ 256 }
    requires good { is_some (first_fault readable pages.now at (8 * count)) ≡ false }
    ensures entries { IfOk result (λ entries. entries.items ≡ entries_in count (bytes_at pages.now at (8 * count))) }
    ensures few { IfOk result (λ entries. length entries.items ≤ 256) }
{
    let mut bytes = Vec::new(alloc);
    bytes.resize(8 * count as usize, 0)?;
    match pages.copy_out(at, bytes.as_mut_slice()) {
        Ok(()) => {
            let mut entries = Vec::new(alloc);
            match push_entries(bytes.as_slice(), count as usize, &mut entries) {
                Ok(()) => Ok(entries),
                Err(error) => Err(error),
            }
        }
        Err(_) => unreachable!(),
    }
}

/// Adds the entries whose bytes these are.
fn push_entries(bytes: &[u8], count: usize, entries: &mut Vec<Polled>) -> Result<(), AllocError>
    requires { length bytes.now ≡ 8 * count }
    ensures entries { OnOk result (entries.new.items ≡ entries.old.items ++ entries_in count bytes.now) }
    ensures count { OnOk result (length entries.new.items ≡ length entries.old.items + count) }
{
    if count == 0 {
        return Ok(());
    }
    match entries.push(polled_in(bytes)) {
        Ok(()) => push_entries(&bytes[8..], count - 1, entries),
        Err(error) => Err(error.into()),
    }
}

/// The entry whose bytes come first.
fn polled_in(bytes: &[u8]) -> Polled
    requires { 8 ≤ length bytes.now }
    ensures { result ≡ polled_in bytes.now }
{
    Polled {
        fd: word_in(bytes),
        asked: half_in(&bytes[4..]),
    }
}

/// The number of the first four bytes.
#[tactic(auto, unfolding(le_fields::specs::Fields::field_at))]
fn word_in(bytes: &[u8]) -> u32
    requires { 4 ≤ length bytes.now }
    ensures { result ≡ little_number 4 bytes.now }
{
    match u32_at(bytes, 0) {
        Some(number) => number,
        None => unreachable!(),
    }
}

/// The number of the first two bytes.
#[tactic(auto, unfolding(le_fields::specs::Fields::field_at))]
fn half_in(bytes: &[u8]) -> u16
    requires { 2 ≤ length bytes.now }
    ensures { result ≡ little_number 2 bytes.now }
{
    match u16_at(bytes, 0) {
        Some(number) => number,
        None => unreachable!(),
    }
}

/// Where the bits of each entry go.
fn places_of(alloc: Global, at: u64, entries: &[Polled]) -> Result<Vec<Piece>, AllocError>
    ensures { IfOk result (λ places. places.items ≡ answer_places at entries.now) }
{
    let mut places = Vec::new(alloc);
    match push_places(at, entries, &mut places) {
        Ok(()) => Ok(places),
        Err(error) => Err(error),
    }
}

fn push_places(at: u64, entries: &[Polled], places: &mut Vec<Piece>) -> Result<(), AllocError>
    ensures { OnOk result (places.new.items ≡ places.old.items ++ answer_places at entries.now) }
{
    if entries.is_empty() {
        return Ok(());
    }
    let place = Piece {
        at: at.wrapping_add(6),
        size: 2,
    };
    match places.push(place) {
        Ok(()) => push_places(at.wrapping_add(8), &entries[1..], places),
        Err(error) => Err(error.into()),
    }
}

/// The bits of all entries.
fn bytes_of(alloc: Global, files: &Files, entries: &[Polled]) -> Result<Vec<u8>, AllocError>
    ensures { IfOk result (λ bytes. bytes.items ≡ answer_bytes files.now entries.now) }
{
    let mut bytes = Vec::new(alloc);
    match push_bits(files, entries, &mut bytes) {
        Ok(()) => Ok(bytes),
        Err(error) => Err(error),
    }
}

fn push_bits(files: &Files, entries: &[Polled], bytes: &mut Vec<u8>) -> Result<(), AllocError>
    ensures { OnOk result (bytes.new.items ≡ bytes.old.items ++ answer_bytes files.now entries.now) }
{
    if entries.is_empty() {
        return Ok(());
    }
    match bytes.extend_from_slice(&bits_of(files, &entries[0]).to_le_bytes()) {
        Ok(()) => push_bits(files, &entries[1..], bytes),
        Err(error) => Err(error.into()),
    }
}

/// How many entries have bits.
#[tactic(auto, using(crate::proofs::PollFacts::count_none))]
fn count_ready(files: &Files, entries: &[Polled]) -> usize
    ensures count { result ≡ count_ready files.now entries.now }
    ensures few { result ≤ length entries.now }
{
    if entries.is_empty() {
        return 0;
    }
    let rest = count_ready(files, &entries[1..]);
    if has_bits(files, &entries[0]) {
        return 1 + rest;
    }
    rest
}
