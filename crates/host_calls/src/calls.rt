//! The one dispatch over all calls.

ghost use Rattle.std.specs.Prelude.{◌≡◌, IfOk, OnErr};
ghost use Rattle.host_calls.specs.Host.{gives, shared_of};
ghost use Rattle.host_calls.specs.Immediate.{immediate as answer_of, made};
ghost use Rattle.host_calls.specs.Owes.{Owes};

use crate::host::Host;
use call_table::{Call, CallNo};
use file_tree::Errno;
use std::alloc::AllocError;

/// Makes a call of a thread that never waits, and gives its answer, or the negated number of its error. It ends the
/// thread's reservation. After want of memory all is as before. A call that isn't there yet answers `ENOSYS`, and so do
/// those that may wait and those that make and end threads, which other layers make. It costs by the bytes that the call names.
///
/// References: syscall(2), and the manual page of each call.
pub fn immediate(host: &mut Host, thread: u32, call: &Call) -> Result<i64, AllocError>
    ensures answer { IfOk result (λ answer. gives answer host.new ≡ answer_of thread call.now (shared_of host.old)) }
    ensures owes { IfOk result (λ answer. Owes thread (shared_of host.old) (shared_of host.new)) }
    ensures pending { host.new.pending ≡ host.old.pending }
    ensures err { OnErr result (host.new ≡ host.old) }
{
    host.answer(thread, call)
}

impl Host {
    #[tactic(auto, unfolding(crate::specs::Immediate::immediate))]
    fn answer(&mut self, thread: u32, call: &Call) -> Result<i64, AllocError>
        ensures answer { IfOk result (λ answer. gives answer self.new ≡ answer_of thread call.now (shared_of self.old)) }
        ensures pending { self.new.pending ≡ self.old.pending }
        ensures err { OnErr result (self.new ≡ self.old) }
    {
        let answer = self.make(thread, call)?;
        self.held.end(thread);
        Ok(answer)
    }

    fn make(&mut self, thread: u32, call: &Call) -> Result<i64, AllocError>
        ensures answer { IfOk result (λ answer. gives answer self.new ≡ made call.now.no thread call.now.args (shared_of self.old)) }
        ensures pending { self.new.pending ≡ self.old.pending }
        ensures err { OnErr result (self.new ≡ self.old) }
    {
        let [a0, a1, a2, a3, a4, a5] = call.args;
        match call.no {
            CallNo::Dup => Ok(self.dup(a0)),
            CallNo::Dup3 => Ok(self.dup3(a0, a1, a2)),
            CallNo::Fcntl => Ok(self.fcntl(a0, a1, a2)),
            CallNo::Ioctl => Ok(self.ioctl(a0)),
            CallNo::Mkdirat => self.mkdirat(a0, a1),
            CallNo::Unlinkat => self.unlinkat(a0, a1, a2),
            CallNo::Ftruncate => self.ftruncate(a0, a1),
            CallNo::Openat => self.openat(a0, a1, a2),
            CallNo::Close => Ok(self.close(a0)),
            CallNo::Getdents64 => self.getdents64(thread, a0, a1, a2),
            CallNo::Lseek => Ok(self.lseek(a0, a1, a2)),
            CallNo::Pread64 => Ok(self.pread64(thread, a0, a1, a2, a3)),
            CallNo::Pwrite64 => self.pwrite64(a0, a1, a2, a3),
            CallNo::Readlinkat => self.readlinkat(a0, a1),
            CallNo::Newfstatat => self.newfstatat(thread, a0, a1, a2, a3),
            CallNo::Fstat => self.fstat(thread, a0, a1),
            CallNo::ClockGettime => self.clock_gettime(thread, a0, a1),
            CallNo::SchedYield => Ok(self.sched_yield()),
            CallNo::Uname => self.uname(thread, a0),
            CallNo::Getpid => Ok(self.getpid()),
            CallNo::Getuid => Ok(self.user()),
            CallNo::Geteuid => Ok(self.user()),
            CallNo::Getgid => Ok(self.user()),
            CallNo::Getegid => Ok(self.user()),
            CallNo::Gettid => Ok(self.gettid(thread)),
            CallNo::Brk => self.brk(a0),
            CallNo::Munmap => Ok(self.munmap(a0, a1)),
            CallNo::Mmap => self.mmap(a0, a1, a2, a3, a4, a5),
            CallNo::Mprotect => self.mprotect(a0, a1, a2),
            CallNo::Prlimit64 => self.prlimit64(thread, a0, a1, a2, a3),
            CallNo::Getrandom => self.getrandom(thread, a0, a1),
            CallNo::Pipe2 => self.pipe2(thread, a0, a1),
            CallNo::Read
            | CallNo::Write
            | CallNo::Readv
            | CallNo::Writev
            | CallNo::Ppoll
            | CallNo::Exit
            | CallNo::ExitGroup
            | CallNo::SetTidAddress
            | CallNo::Futex
            | CallNo::SetRobustList
            | CallNo::Nanosleep
            | CallNo::Setitimer
            | CallNo::ClockNanosleep
            | CallNo::Kill
            | CallNo::Tkill
            | CallNo::Tgkill
            | CallNo::Sigaltstack
            | CallNo::RtSigsuspend
            | CallNo::RtSigaction
            | CallNo::RtSigprocmask
            | CallNo::RtSigpending
            | CallNo::RtSigtimedwait
            | CallNo::RtSigqueueinfo
            | CallNo::RtSigreturn
            | CallNo::Clone
            | CallNo::RtTgsigqueueinfo => Ok(-Errno::ENOSYS.code()),
        }
    }
}
