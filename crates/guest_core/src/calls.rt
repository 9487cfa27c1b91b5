//! System calls of a thread.

ghost use Rattle.std.specs.Prelude.{◌≡◌, IfOk, OnErr};
ghost use Rattle.guest_core.specs.Call.{asked as asked_of, at_once, called, ends_process as does_end};
ghost use Rattle.host_calls.specs.Host.{gives, shared_of};

use crate::ends::End;
use call_table::{Call, CallNo, call_of, number_of};
use file_tree::Errno;
use host_calls::Host;
use host_waits::{Begun, begin};
use isa_exec::Regs;
use std::alloc::AllocError;

/// What a call came to.
#[derive(Clone, Copy)]
pub enum CallOutcome {
    /// The answer, or a negated error number.
    Answers(i64),
    /// The process ends.
    Ends(End),
}

/// The call that the registers ask for, `None` where there is none of that number.
///
/// References: syscall(2).
#[tactic(auto, unfolding(crate::specs::Call::asked))]
pub fn asked(regs: &Regs) -> Option<Call>
    ensures { result ≡ asked_of regs.now }
{
    match call_of(regs.register(17)) {
        Some(no) => Some(Call {
            no,
            args: [
                regs.register(10),
                regs.register(11),
                regs.register(12),
                regs.register(13),
                regs.register(14),
                regs.register(15),
            ],
        }),
        None => None,
    }
}

/// Whether a call is one of the core's own, which ends the process.
pub fn ends_process(no: CallNo) -> bool
    ensures { result ≡ does_end no }
{
    let number = number_of(no);
    number == number_of(CallNo::ExitGroup) || number == number_of(CallNo::Exit)
}

/// Makes a call that isn't the core's own, and gives its answer. Where it would wait it answers `ENOSYS`, and nothing waits,
/// until threads wait. It ends the thread's reservation.
///
/// References: syscall(2).
#[tactic(auto, unfolding(crate::specs::Call::at_once))]
pub fn call_at_once(host: &mut Host, thread: u32, call: &Call) -> Result<i64, AllocError>
    ensures made { IfOk result (λ answer. gives answer host.new ≡ at_once thread call.now (shared_of host.old)) }
    ensures pending { host.new.pending ≡ host.old.pending }
    ensures err { OnErr result (host.new ≡ host.old) }
{
    match begin(host, thread, call)? {
        Begun::Answer(answer) => Ok(answer),
        Begun::Waits(_) => {
            host.futexes.leave(thread);
            Ok(-Errno::ENOSYS.code())
        }
    }
}

/// Makes the call that the thread's registers ask for. It ends the thread's reservation.
///
/// References: syscall(2), exit_group(2).
#[tactic(auto, unfolding(crate::specs::Call::called))]
pub(crate) fn make_call(
    host: &mut Host,
    thread: u32,
    regs: &Regs,
) -> Result<CallOutcome, AllocError>
    ensures made { IfOk result (λ outcome. record { shared = shared_of host.new; outcome = outcome } ≡ called thread regs.now (shared_of host.old)) }
    ensures pending { host.new.pending ≡ host.old.pending }
    ensures err { OnErr result (host.new ≡ host.old) }
{
    match asked(regs) {
        None => {
            host.held.end(thread);
            Ok(CallOutcome::Answers(-Errno::ENOSYS.code()))
        }
        Some(call) => {
            if ends_process(call.no) {
                host.held.end(thread);
                return Ok(CallOutcome::Ends(End::Exit((call.args[0] % 256) as u8)));
            }
            Ok(CallOutcome::Answers(call_at_once(host, thread, &call)?))
        }
    }
}
