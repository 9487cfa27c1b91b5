//! What comes of a call at once.

ghost use Rattle.std.specs.Prelude.{◌≡◌, IfOk, OnErr};
ghost use Rattle.host_calls.specs.Host.{shared_of};
ghost use Rattle.host_calls.specs.Owes.{Owes};
ghost use Rattle.host_waits.specs.Begun.{came};
ghost use Rattle.host_waits.specs.Calls.{entered, entered_as, may_wait as may_wait_of};
ghost use Rattle.host_waits.specs.Waiting.{IsUnready};

use crate::moving::{read, readv, write, writev};
use crate::polling::ppoll;
use crate::sleeping::{clock_nanosleep, nanosleep};
use crate::wait::WaitState;
use crate::words::futex;
use call_table::{Call, CallNo};
use host_calls::{Host, immediate};
use std::alloc::AllocError;

/// What comes of a call at once.
#[derive(Drop)]
pub enum Begun {
    /// The answer, or the negated number of an error.
    Answer(i64),
    /// It waits.
    Waits(WaitState),
}

/// A call that may wait.
#[derive(Clone, Copy)]
pub enum MayWait {
    Read,
    Readv,
    Write,
    Writev,
    Futex,
    Nanosleep,
    ClockNanosleep,
    Ppoll,
}

/// Which of the calls that may wait, if it is one of them.
pub fn may_wait(no: CallNo) -> Option<MayWait>
    ensures { result ≡ may_wait_of no }
{
    match no {
        CallNo::Read => Some(MayWait::Read),
        CallNo::Readv => Some(MayWait::Readv),
        CallNo::Write => Some(MayWait::Write),
        CallNo::Writev => Some(MayWait::Writev),
        CallNo::Futex => Some(MayWait::Futex),
        CallNo::Nanosleep => Some(MayWait::Nanosleep),
        CallNo::ClockNanosleep => Some(MayWait::ClockNanosleep),
        CallNo::Ppoll => Some(MayWait::Ppoll),
        CallNo::Dup
        | CallNo::Dup3
        | CallNo::Fcntl
        | CallNo::Ioctl
        | CallNo::Mkdirat
        | CallNo::Unlinkat
        | CallNo::Ftruncate
        | CallNo::Openat
        | CallNo::Close
        | CallNo::Pipe2
        | CallNo::Getdents64
        | CallNo::Lseek
        | CallNo::Pread64
        | CallNo::Pwrite64
        | CallNo::Readlinkat
        | CallNo::Newfstatat
        | CallNo::Fstat
        | CallNo::Exit
        | CallNo::ExitGroup
        | CallNo::SetTidAddress
        | CallNo::SetRobustList
        | CallNo::Setitimer
        | CallNo::ClockGettime
        | CallNo::SchedYield
        | CallNo::Kill
        | CallNo::Tkill
        | CallNo::Tgkill
        | CallNo::Sigaltstack
        | CallNo::RtSigsuspend
        | CallNo::RtSigaction
        | CallNo::RtSigprocmask
        | CallNo::RtSigpending
        | CallNo::RtSigtimedwait
        | CallNo::RtSigqueueinfo
        | CallNo::RtSigreturn
        | CallNo::Uname
        | CallNo::Getpid
        | CallNo::Getuid
        | CallNo::Geteuid
        | CallNo::Getgid
        | CallNo::Getegid
        | CallNo::Gettid
        | CallNo::Brk
        | CallNo::Munmap
        | CallNo::Clone
        | CallNo::Mmap
        | CallNo::Mprotect
        | CallNo::RtTgsigqueueinfo
        | CallNo::Prlimit64
        | CallNo::Getrandom => None,
    }
}

/// Makes a call of a thread as far as that goes at once. It ends the thread's reservation.
///
/// Of a call that may wait comes its answer where it is ready at once, and else its wait: `ready` tells when that is over, and
/// `finish` gives the answer then. A call that waits has moved no bytes yet; a thread that waits at a word stands in the list of
/// those that do. Of a call that never waits comes its answer, as `immediate` gives it. After want of memory all is as before.
///
/// It costs by the bytes that the call names, those of pieces and entries included, and a call at a word by the threads that
/// wait.
///
/// References: syscall(2), and the manual page of each call.
pub fn begin(host: &mut Host, thread: u32, call: &Call) -> Result<Begun, AllocError>
    ensures entered { IfOk result (λ begun. came begun host.new ≡ entered thread call.now (shared_of host.old)) }
    ensures unready { IfOk result (λ begun. IsUnready thread (came begun host.new)) }
    ensures owes { IfOk result (λ begun. Owes thread (shared_of host.old) (shared_of host.new)) }
    ensures pending { host.new.pending ≡ host.old.pending }
    ensures err { OnErr result (host.new ≡ host.old) }
{
    begin_call(host, thread, call)
}

#[tactic(auto, unfolding(crate::specs::Calls::entered))]
fn begin_call(host: &mut Host, thread: u32, call: &Call) -> Result<Begun, AllocError>
    ensures entered { IfOk result (λ begun. came begun host.new ≡ entered thread call.now (shared_of host.old)) }
    ensures pending { host.new.pending ≡ host.old.pending }
    ensures err { OnErr result (host.new ≡ host.old) }
{
    match may_wait(call.no) {
        None => match immediate(host, thread, call) {
            Ok(answer) => Ok(Begun::Answer(answer)),
            Err(error) => Err(error),
        },
        Some(which) => {
            let begun = enter(host, thread, which, call)?;
            host.held.end(thread);
            Ok(begun)
        }
    }
}

/// Makes a call that may wait.
fn enter(host: &mut Host, thread: u32, which: MayWait, call: &Call) -> Result<Begun, AllocError>
    ensures entered { IfOk result (λ begun. came begun host.new ≡ entered_as which thread call.now (shared_of host.old)) }
    ensures pending { host.new.pending ≡ host.old.pending }
    ensures err { OnErr result (host.new ≡ host.old) }
{
    match which {
        MayWait::Read => read(host, thread, call),
        MayWait::Readv => readv(host, thread, call),
        MayWait::Write => write(host, call),
        MayWait::Writev => writev(host, call),
        MayWait::Futex => futex(host, thread, call),
        MayWait::Nanosleep => nanosleep(host, call),
        MayWait::ClockNanosleep => clock_nanosleep(host, call),
        MayWait::Ppoll => ppoll(host, thread, call),
    }
}
