//! Threads that wait at words, and those that wake them.

ghost use Rattle.std.specs.Prelude.{◌≡◌, ◌≢◌, ◌+◌, ◌%◌, ◌^◌, ◌==◌, ◌||◌, false, not, is_some, pos, IfOk, OnErr};
ghost use Rattle.byteorder.specs.Endian.{little_number};
ghost use Rattle.guest_pages.specs.Faults.{first_fault, readable};
ghost use Rattle.guest_pages.specs.Operations.{bytes_at};
ghost use Rattle.host_calls.specs.Host.{gives, shared_of};
ghost use Rattle.host_waits.specs.Begun.{came};
ghost use Rattle.host_waits.specs.Futexes.{futex as futex_of, futex_as, futex_cmp_requeue, futex_requeue, futex_wait, futex_wake, is_negative, joins, low, operation, requeues, wakes_up};

use crate::beginning::Begun;
use crate::times::{is_bad_limit, is_wrong_limit, limit_after};
use crate::wait::{WaitKind, WaitState, is_past};
use call_table::Call;
use file_tree::Errno;
use guest_pages::{Pages, READABLE, Width};
use host_calls::Host;
use std::alloc::AllocError;

/// Whatever bits a waiter has, they meet these.
const ALL_BITS: u32 = 0xFFFF_FFFF;

/// The bit of an operation at a word that is the process's own.
const PRIVATE: u64 = 128;

/// The greatest number of 32 bits that isn't negative.
const MOST_COUNT: u32 = 0x7FFF_FFFF;

/// Waits at a word, or wakes and moves those that wait.
///
/// References: futex(2).
#[tactic(auto, unfolding(crate::specs::Futexes::futex))]
pub(crate) fn futex(host: &mut Host, thread: u32, call: &Call) -> Result<Begun, AllocError>
    ensures entered { IfOk result (λ begun. came begun host.new ≡ futex_of thread call.now (shared_of host.old)) }
    ensures pending { host.new.pending ≡ host.old.pending }
    ensures err { OnErr result (host.new ≡ host.old) }
{
    let number = operation(call.args[1]);
    futex_as(host, number, thread, call)
}

/// The operation, whether or not the word is the process's own.
fn operation(number: u64) -> u64
    ensures { result ≡ operation number }
{
    if number / PRIVATE % 2 == 1 {
        return number - PRIVATE;
    }
    number
}

/// The low 32 bits of an argument.
fn low(argument: u64) -> u32
    ensures { result ≡ low argument }
{
    (argument % 0x1_0000_0000) as u32
}

fn futex_as(host: &mut Host, number: u64, thread: u32, call: &Call) -> Result<Begun, AllocError>
    ensures entered { IfOk result (λ begun. came begun host.new ≡ futex_as number thread call.now (shared_of host.old)) }
    ensures pending { host.new.pending ≡ host.old.pending }
    ensures err { OnErr result (host.new ≡ host.old) }
{
    let [at, _, a2, a3, a4, a5] = call.args;
    if number == 0 {
        return wait_at(host, thread, host.clock, ALL_BITS, call);
    }
    if number == 9 || number == 265 {
        return wait_at(host, thread, 0, low(a5), call);
    }
    if number == 1 {
        return Ok(Begun::Answer(wake(host, at, low(a2), ALL_BITS)));
    }
    if number == 10 {
        return Ok(Begun::Answer(wake(host, at, low(a2), low(a5))));
    }
    if number == 3 {
        return Ok(Begun::Answer(requeue(host, at, a4, low(a2), low(a3))));
    }
    if number == 4 {
        let answer = cmp_requeue(host, at, a4, low(a2), low(a3), low(a5));
        return Ok(Begun::Answer(answer));
    }
    Ok(Begun::Answer(-Errno::ENOSYS.code()))
}

/// Waits at a word, unless it isn't the one that is given.
fn wait_at(
    host: &mut Host,
    thread: u32,
    start: u64,
    bits: u32,
    call: &Call,
) -> Result<Begun, AllocError>
    ensures entered { IfOk result (λ begun. came begun host.new ≡ futex_wait thread start bits call.now (shared_of host.old)) }
    ensures pending { host.new.pending ≡ host.old.pending }
    ensures err { OnErr result (host.new ≡ host.old) }
{
    let [at, _, value, limit, ..] = call.args;
    if at % 4 != 0 || bits == 0 {
        return Ok(Begun::Answer(-Errno::EINVAL.code()));
    }
    if is_bad_word(&host.pages, at) || is_bad_limit(&host.pages, limit) {
        return Ok(Begun::Answer(-Errno::EFAULT.code()));
    }
    if is_wrong_limit(&host.pages, limit) {
        return Ok(Begun::Answer(-Errno::EINVAL.code()));
    }
    if word_at(&host.pages, at) != u64::from(low(value)) {
        return Ok(Begun::Answer(-Errno::EAGAIN.code()));
    }
    let deadline = limit_after(&host.pages, start, limit);
    let alloc = host.files.alloc();
    let wait = WaitState::for_time(alloc, WaitKind::Futex, call, deadline, Vec::new(alloc));
    join(host, thread, at, bits, wait)
}

/// Joins those that wait, unless the deadline is there.
fn join(
    host: &mut Host,
    thread: u32,
    at: u64,
    bits: u32,
    wait: WaitState,
) -> Result<Begun, AllocError>
    requires { bits ≢ 0 }
    ensures entered { IfOk result (λ begun. came begun host.new ≡ joins thread at bits wait (shared_of host.old)) }
    ensures pending { host.new.pending ≡ host.old.pending }
    ensures err { OnErr result (host.new ≡ host.old) }
{
    if wait.is_past(host.clock) {
        return Ok(Begun::Answer(-Errno::ETIMEDOUT.code()));
    }
    if host.futexes.holds(thread) {
        return Ok(Begun::Answer(-Errno::EAGAIN.code()));
    }
    host.futexes.wait(thread, at, bits)?;
    Ok(Begun::Waits(wait))
}

/// Whether a word can't be read.
fn is_bad_word(pages: &Pages, at: u64) -> bool
    ensures { result ≡ is_some (first_fault readable pages.now at 4) }
{
    pages.allows(at, 4, READABLE).is_err()
}

/// The word at an address.
fn word_at(pages: &Pages, at: u64) -> u64
    requires { is_some (first_fault readable pages.now at 4) ≡ false }
    ensures { result ≡ little_number 4 (bytes_at pages.now at 4) }
{
    match pages.load(at, Width::Four) {
        Ok(word) => word,
        Err(_) => unreachable!(),
    }
}

/// Wakes so many that wait at a word.
fn wake(host: &mut Host, at: u64, count: u32, bits: u32) -> i64
    ensures answer { gives result host.new ≡ futex_wake at count bits (shared_of host.old) }
    ensures pending { host.new.pending ≡ host.old.pending }
{
    if at % 4 != 0 || bits == 0 || count > MOST_COUNT {
        return -Errno::EINVAL.code();
    }
    i64::from(host.futexes.wake(at, count, bits))
}

/// Wakes so many that wait at a word, and moves the next so many to another.
fn requeue(host: &mut Host, from: u64, to: u64, wake: u32, limit: u32) -> i64
    ensures answer { gives result host.new ≡ futex_requeue from to wake limit (shared_of host.old) }
    ensures pending { host.new.pending ≡ host.old.pending }
{
    if is_requeue_refused(from, to, wake, limit) {
        return -Errno::EINVAL.code();
    }
    move_on(host, from, to, wake, limit)
}

/// The same, unless the word isn't the one that is given.
fn cmp_requeue(host: &mut Host, from: u64, to: u64, wake: u32, limit: u32, value: u32) -> i64
    ensures answer { gives result host.new ≡ futex_cmp_requeue from to wake limit value (shared_of host.old) }
    ensures pending { host.new.pending ≡ host.old.pending }
{
    if is_requeue_refused(from, to, wake, limit) {
        return -Errno::EINVAL.code();
    }
    if is_bad_word(&host.pages, from) {
        return -Errno::EFAULT.code();
    }
    if word_at(&host.pages, from) != u64::from(value) {
        return -Errno::EAGAIN.code();
    }
    move_on(host, from, to, wake, limit)
}

/// Whether an address or a number is one that isn't taken.
fn is_requeue_refused(from: u64, to: u64, wake: u32, limit: u32) -> bool
    ensures { result ≡ (not (from % 4 == 0) || (not (to % 4 == 0) || (is_negative wake || is_negative limit))) }
{
    from % 4 != 0 || to % 4 != 0 || wake > MOST_COUNT || limit > MOST_COUNT
}

/// Wakes and moves, and tells how many these were together.
fn move_on(host: &mut Host, from: u64, to: u64, wake: u32, limit: u32) -> i64
    ensures answer { gives result host.new ≡ requeues from to wake limit (shared_of host.old) }
    ensures pending { host.new.pending ≡ host.old.pending }
{
    let (woken, moved) = host.futexes.requeue(from, to, wake, limit);
    i64::from(woken) + i64::from(moved)
}

/// What a wait at a word comes to that is over: whether the thread was woken is looked at first.
pub(crate) fn wake_up(host: &mut Host, thread: u32) -> i64
    ensures answer { gives result host.new ≡ wakes_up thread (shared_of host.old) }
    ensures pending { host.new.pending ≡ host.old.pending }
{
    if !host.futexes.holds(thread) {
        return 0;
    }
    host.futexes.leave(thread);
    -Errno::ETIMEDOUT.code()
}
