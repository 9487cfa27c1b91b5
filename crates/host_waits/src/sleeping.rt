//! Calls that sleep.

ghost use Rattle.std.specs.Prelude.{◌≡◌, IfOk, OnErr};
ghost use Rattle.host_calls.specs.Host.{shared_of};
ghost use Rattle.host_waits.specs.Begun.{came};
ghost use Rattle.host_waits.specs.Sleeping.{clock_nanosleep as clock_sleep_of, nanosleep as sleep_of, sleeps, sleeps_up_to};

use crate::beginning::Begun;
use crate::times::{after, is_bad, is_wrong, time_at};
use crate::wait::{WaitKind, WaitState, is_past};
use call_table::Call;
use file_tree::Errno;
use host_calls::Host;
use std::alloc::AllocError;

/// Sleeps for a time.
///
/// References: nanosleep(2).
#[tactic(auto, unfolding(crate::specs::Sleeping::nanosleep))]
pub(crate) fn nanosleep(host: &mut Host, call: &Call) -> Result<Begun, AllocError>
    ensures entered { IfOk result (λ begun. came begun host.new ≡ sleep_of call.now (shared_of host.old)) }
    ensures pending { host.new.pending ≡ host.old.pending }
    ensures err { OnErr result (host.new ≡ host.old) }
{
    Ok(sleep(host, host.clock, call.args[0], call))
}

/// Sleeps for a time, or up to a time of a clock.
///
/// References: clock_nanosleep(2).
#[tactic(auto, unfolding(crate::specs::Sleeping::clock_nanosleep))]
pub(crate) fn clock_nanosleep(host: &mut Host, call: &Call) -> Result<Begun, AllocError>
    ensures entered { IfOk result (λ begun. came begun host.new ≡ clock_sleep_of call.now (shared_of host.old)) }
    ensures pending { host.new.pending ≡ host.old.pending }
    ensures err { OnErr result (host.new ≡ host.old) }
{
    let [clock, flags, at, ..] = call.args;
    if clock != 0 && clock != 1 {
        return Ok(Begun::Answer(-Errno::EINVAL.code()));
    }
    let start = if flags % 2 == 1 { 0 } else { host.clock };
    Ok(sleep(host, start, at, call))
}

/// Sleeps for the time at an address, counted from a start.
fn sleep(host: &Host, start: u64, at: u64, call: &Call) -> Begun
    ensures { came result host.now ≡ sleeps start at call.now (shared_of host.now) }
{
    if is_bad(&host.pages, at) {
        return Begun::Answer(-Errno::EFAULT.code());
    }
    let time = time_at(&host.pages, at);
    if is_wrong(time) {
        return Begun::Answer(-Errno::EINVAL.code());
    }
    sleep_up_to(host, after(start, time), call)
}

fn sleep_up_to(host: &Host, deadline: u64, call: &Call) -> Begun
    ensures { came result host.now ≡ sleeps_up_to deadline call.now (shared_of host.now) }
{
    if is_past(host.clock, Some(deadline)) {
        return Begun::Answer(0);
    }
    let alloc = host.files.alloc();
    Begun::Waits(WaitState::for_time(
        alloc,
        WaitKind::Sleep,
        call,
        Some(deadline),
        Vec::new(alloc),
    ))
}
