//! Times up to which a call waits.

ghost use Rattle.std.specs.Prelude.{◌≡◌, ◌≤◌, ◌+◌, ◌-◌, ◌*◌, ◌^◌, ◌||◌, false, nat_le, min, length, drop};
ghost use Rattle.byteorder.specs.Endian.{little_number};
ghost use Rattle.host_waits.specs.Times.{is_bad, is_bad_limit, is_wrong, is_wrong_limit, limit_after, nanoseconds_in, seconds_in, time_after, time_at};

use guest_pages::{Pages, READABLE};
use le_fields::u64_at;

const NANOSECONDS: u64 = 1_000_000_000;

/// The last time that a deadline can have, in nanoseconds.
const LAST_TIME: u64 = 0x7FFF_FFFF_FFFF_FFFF;

/// Seconds and nanoseconds, as they stand in memory.
#[derive(Clone, Copy)]
pub struct Time {
    pub(crate) seconds: u64,
    pub(crate) nanoseconds: u64,
}

/// Whether the 16 bytes of a time can't be read.
pub(crate) fn is_bad(pages: &Pages, at: u64) -> bool
    ensures { result ≡ is_bad at pages.now }
{
    pages.allows(at, 16, READABLE).is_err()
}

/// The time whose bytes stand at an address.
pub(crate) fn time_at(pages: &Pages, at: u64) -> Time
    requires { is_bad at pages.now ≡ false }
    ensures seconds { result.seconds ≡ seconds_in (time_at at pages.now) }
    ensures nanoseconds { result.nanoseconds ≡ nanoseconds_in (time_at at pages.now) }
{
    let mut bytes = [0; 16];
    match pages.copy_out(at, &mut bytes) {
        Ok(()) => Time {
            seconds: number_at(&bytes, 0),
            nanoseconds: number_at(&bytes, 8),
        },
        Err(_) => unreachable!(),
    }
}

/// The number of eight bytes.
#[tactic(auto, unfolding(le_fields::specs::Fields::field_at))]
fn number_at(bytes: &[u8], at: usize) -> u64
    requires { at + 8 ≤ length bytes.now }
    ensures { result ≡ little_number 8 (drop at bytes.now) }
{
    match u64_at(bytes, at) {
        Some(number) => number,
        None => unreachable!(),
    }
}

/// Whether its seconds are negative, or its nanoseconds none of 0 to 999,999,999.
pub(crate) fn is_wrong(time: Time) -> bool
    ensures { result ≡ (nat_le (2 ^ 63) time.seconds || nat_le 1000000000 time.nanoseconds) }
{
    time.seconds > LAST_TIME || time.nanoseconds >= NANOSECONDS
}

/// So much after a start, at most the last time.
pub(crate) fn after(start: u64, time: Time) -> u64
    ensures { result ≡ min (start + (time.seconds * 1000000000 + time.nanoseconds)) (2 ^ 63 - 1) }
{
    let length = time
        .seconds
        .saturating_mul(NANOSECONDS)
        .saturating_add(time.nanoseconds);
    start.saturating_add(length).min(LAST_TIME)
}

/// Whether the bytes of a time that needn't be given, at address 0, can't be read.
pub(crate) fn is_bad_limit(pages: &Pages, at: u64) -> bool
    ensures { result ≡ is_bad_limit at pages.now }
{
    at != 0 && is_bad(pages, at)
}

/// Whether such a time is wrong.
pub(crate) fn is_wrong_limit(pages: &Pages, at: u64) -> bool
    requires { is_bad_limit at pages.now ≡ false }
    ensures { result ≡ is_wrong_limit at pages.now }
{
    if at == 0 {
        return false;
    }
    is_wrong(time_at(pages, at))
}

/// The deadline that is so much after a start, none where no time is given.
pub(crate) fn limit_after(pages: &Pages, start: u64, at: u64) -> Option<u64>
    requires { is_bad_limit at pages.now ≡ false }
    ensures { result ≡ limit_after start at pages.now }
{
    if at == 0 {
        return None;
    }
    Some(after(start, time_at(pages, at)))
}
