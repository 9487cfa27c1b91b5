//! When a wait is over, and what its call answers then.

ghost use Rattle.std.specs.Prelude.{◌≡◌, true, Some, None, MatchBool, IfOk, OnErr};
ghost use Rattle.host_calls.specs.Host.{gives, shared_of};
ghost use Rattle.host_calls.specs.Owes.{Owes};
ghost use Rattle.host_waits.specs.Waiting.{done_by, finished, is_ready, shifted};

use crate::moving::{can_write_now, goes_in_part, write_part, write_rest};
use crate::polling::{is_polled_now, tell};
use crate::wait::{WaitKind, WaitState};
use crate::words::wake_up;
use host_calls::Host;
use std::alloc::AllocError;

/// Whether the wait of a thread is over: a read or a write wouldn't wait now, the thread was woken, the deadline is there, or a
/// descriptor that is polled has bits. It costs by the pieces, by the threads that wait at words, or by the descriptors that are
/// polled.
///
/// References: read(2), write(2), futex(2), nanosleep(2), poll(2).
#[tactic(auto, unfolding(crate::specs::Waiting::is_ready))]
pub fn ready(host: &Host, thread: u32, wait: &WaitState) -> bool
    ensures { result ≡ is_ready thread wait.now (shared_of host.now) }
{
    match wait.kind {
        WaitKind::Read => !host.files.read_waits(wait.call.args[0], wait.left),
        WaitKind::Write => {
            can_write_now(host, wait.call.args[0], wait.pieces.as_slice(), wait.left)
        }
        WaitKind::Futex => !host.futexes.holds(thread) || wait.is_past(host.clock),
        WaitKind::Sleep => wait.is_past(host.clock),
        WaitKind::Poll => is_polled_now(host, wait),
    }
}

/// Makes the call of a thread whose wait is over, and gives its answer, or the negated number of its error: how many bytes a
/// read or a write moved, also where it was refused after some had moved; 0 for a thread that was woken or has slept, else
/// `ETIMEDOUT`; how many descriptors that are polled have bits. Memory that is bad by now is `EFAULT`. After want of memory all
/// is as before. It costs by the bytes that move.
///
/// References: read(2), write(2), futex(2), nanosleep(2), poll(2).
pub fn finish(host: &mut Host, thread: u32, wait: &WaitState) -> Result<i64, AllocError>
    ensures answer { IfOk result (λ answer. gives answer host.new ≡ finished thread wait.now (shared_of host.old)) }
    ensures owes { IfOk result (λ answer. Owes thread (shared_of host.old) (shared_of host.new)) }
    ensures pending { host.new.pending ≡ host.old.pending }
    ensures err { OnErr result (host.new ≡ host.old) }
{
    finish_call(host, thread, wait)
}

#[tactic(auto, unfolding(crate::specs::Waiting::finished))]
fn finish_call(host: &mut Host, thread: u32, wait: &WaitState) -> Result<i64, AllocError>
    ensures answer { IfOk result (λ answer. gives answer host.new ≡ finished thread wait.now (shared_of host.old)) }
    ensures pending { host.new.pending ≡ host.old.pending }
    ensures err { OnErr result (host.new ≡ host.old) }
{
    let answer = do_so(host, thread, wait)?;
    host.held.end(thread);
    Ok(answer)
}

fn do_so(host: &mut Host, thread: u32, wait: &WaitState) -> Result<i64, AllocError>
    ensures answer { IfOk result (λ answer. gives answer host.new ≡ done_by wait.now.kind thread wait.now (shared_of host.old)) }
    ensures pending { host.new.pending ≡ host.old.pending }
    ensures err { OnErr result (host.new ≡ host.old) }
{
    match wait.kind {
        WaitKind::Read => {
            host.read_into(thread, wait.call.args[0], wait.pieces.as_slice(), wait.left)
        }
        WaitKind::Write => write_rest(host, wait),
        WaitKind::Futex => Ok(wake_up(host, thread)),
        WaitKind::Sleep => Ok(0),
        WaitKind::Poll => tell(host, thread, wait),
    }
}

/// Moves a part of a write that waits: where more than 4,096 bytes are written, and of those that are left some fit into the pipe
/// and not all, those that fit go, and true is told. Else, and after want of memory, all is as before. It ends the thread's
/// reservation. It costs by the pieces and the bytes that go, and takes memory for both. It is for a wait that isn't over.
///
/// References: write(2), pipe(7).
pub fn shift(host: &mut Host, thread: u32, wait: &mut WaitState) -> Result<bool, AllocError>
    ensures went { IfOk result (λ went. MatchBool went (shifted thread wait.old (shared_of host.old) ≡ Some (record { shared = shared_of host.new; wait = wait.new })) ((shifted thread wait.old (shared_of host.old) ≡ None) × (wait.new ≡ wait.old) × (host.new ≡ host.old))) }
    ensures owes { IfOk result (λ went. went ≡ true → Owes thread (shared_of host.old) (shared_of host.new)) }
    ensures pending { host.new.pending ≡ host.old.pending }
    ensures err { OnErr result ((wait.new ≡ wait.old) × (host.new ≡ host.old)) }
{
    shift_call(host, thread, wait)
}

#[tactic(auto, unfolding(crate::specs::Waiting::shifted))]
fn shift_call(host: &mut Host, thread: u32, wait: &mut WaitState) -> Result<bool, AllocError>
    ensures went { IfOk result (λ went. MatchBool went (shifted thread wait.old (shared_of host.old) ≡ Some (record { shared = shared_of host.new; wait = wait.new })) ((shifted thread wait.old (shared_of host.old) ≡ None) × (wait.new ≡ wait.old) × (host.new ≡ host.old))) }
    ensures pending { host.new.pending ≡ host.old.pending }
    ensures err { OnErr result ((wait.new ≡ wait.old) × (host.new ≡ host.old)) }
{
    match wait.kind {
        WaitKind::Write => {
            if !goes_in_part(host, wait) {
                return Ok(false);
            }
            let room = host.files.room(wait.call.args[0]);
            write_part(host, thread, wait, room)?;
            Ok(true)
        }
        WaitKind::Read | WaitKind::Futex | WaitKind::Sleep | WaitKind::Poll => Ok(false),
    }
}
