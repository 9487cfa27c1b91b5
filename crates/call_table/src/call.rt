ghost use Rattle.std.specs.Prelude.{◌≡◌, Some, IfSome};
ghost use Rattle.call_table.specs.Table.{call_of as of_number, number_of as of_call};

/// A system call, by its name.
#[derive(Clone, Copy, Debug, PartialEq, Eq)]
pub enum CallNo {
    /// dup(2).
    Dup,
    /// dup3(2).
    Dup3,
    /// fcntl(2).
    Fcntl,
    /// ioctl(2).
    Ioctl,
    /// mkdirat(2).
    Mkdirat,
    /// unlinkat(2).
    Unlinkat,
    /// ftruncate(2).
    Ftruncate,
    /// openat(2).
    Openat,
    /// close(2).
    Close,
    /// pipe2(2).
    Pipe2,
    /// getdents64(2).
    Getdents64,
    /// lseek(2).
    Lseek,
    /// read(2).
    Read,
    /// write(2).
    Write,
    /// readv(2).
    Readv,
    /// writev(2).
    Writev,
    /// pread(2).
    Pread64,
    /// pwrite(2).
    Pwrite64,
    /// ppoll(2).
    Ppoll,
    /// readlinkat(2).
    Readlinkat,
    /// fstatat(2).
    Newfstatat,
    /// fstat(2).
    Fstat,
    /// _exit(2).
    Exit,
    /// exit_group(2).
    ExitGroup,
    /// set_tid_address(2).
    SetTidAddress,
    /// futex(2).
    Futex,
    /// set_robust_list(2).
    SetRobustList,
    /// nanosleep(2).
    Nanosleep,
    /// setitimer(2).
    Setitimer,
    /// clock_gettime(2).
    ClockGettime,
    /// clock_nanosleep(2).
    ClockNanosleep,
    /// sched_yield(2).
    SchedYield,
    /// kill(2).
    Kill,
    /// tkill(2).
    Tkill,
    /// tgkill(2).
    Tgkill,
    /// sigaltstack(2).
    Sigaltstack,
    /// rt_sigsuspend(2).
    RtSigsuspend,
    /// rt_sigaction(2).
    RtSigaction,
    /// rt_sigprocmask(2).
    RtSigprocmask,
    /// rt_sigpending(2).
    RtSigpending,
    /// rt_sigtimedwait(2).
    RtSigtimedwait,
    /// rt_sigqueueinfo(2).
    RtSigqueueinfo,
    /// rt_sigreturn(2).
    RtSigreturn,
    /// uname(2).
    Uname,
    /// getpid(2).
    Getpid,
    /// getuid(2).
    Getuid,
    /// geteuid(2).
    Geteuid,
    /// getgid(2).
    Getgid,
    /// getegid(2).
    Getegid,
    /// gettid(2).
    Gettid,
    /// brk(2).
    Brk,
    /// munmap(2).
    Munmap,
    /// clone(2).
    Clone,
    /// mmap(2).
    Mmap,
    /// mprotect(2).
    Mprotect,
    /// rt_tgsigqueueinfo(2).
    RtTgsigqueueinfo,
    /// prlimit(2).
    Prlimit64,
    /// getrandom(2).
    Getrandom,
}

/// A system call with its arguments, those of the registers a0 to a5.
#[derive(Clone, Copy)]
pub struct Call {
    pub no: CallNo,
    pub args: [u64; 6],
}

/// The call of a number, `None` exactly where the table doesn't have it.
///
/// References: Linux's generic system call table (include/uapi/asm-generic/unistd.h).
#[tactic(auto, using(crate::proofs::TableFacts::undone), unfolding(crate::specs::Table::call_of))]
pub fn call_of(number: u64) -> Option<CallNo>
    ensures call { result ≡ of_number number }
    ensures undone { IfSome result (λ call. of_call call ≡ number) }
{
    match number {
        23 => Some(CallNo::Dup),
        24 => Some(CallNo::Dup3),
        25 => Some(CallNo::Fcntl),
        29 => Some(CallNo::Ioctl),
        34 => Some(CallNo::Mkdirat),
        35 => Some(CallNo::Unlinkat),
        46 => Some(CallNo::Ftruncate),
        56 => Some(CallNo::Openat),
        57 => Some(CallNo::Close),
        59 => Some(CallNo::Pipe2),
        61 => Some(CallNo::Getdents64),
        62 => Some(CallNo::Lseek),
        63 => Some(CallNo::Read),
        64 => Some(CallNo::Write),
        65 => Some(CallNo::Readv),
        66 => Some(CallNo::Writev),
        67 => Some(CallNo::Pread64),
        68 => Some(CallNo::Pwrite64),
        73 => Some(CallNo::Ppoll),
        78 => Some(CallNo::Readlinkat),
        79 => Some(CallNo::Newfstatat),
        80 => Some(CallNo::Fstat),
        93 => Some(CallNo::Exit),
        94 => Some(CallNo::ExitGroup),
        96 => Some(CallNo::SetTidAddress),
        98 => Some(CallNo::Futex),
        99 => Some(CallNo::SetRobustList),
        101 => Some(CallNo::Nanosleep),
        103 => Some(CallNo::Setitimer),
        113 => Some(CallNo::ClockGettime),
        115 => Some(CallNo::ClockNanosleep),
        124 => Some(CallNo::SchedYield),
        129 => Some(CallNo::Kill),
        130 => Some(CallNo::Tkill),
        131 => Some(CallNo::Tgkill),
        132 => Some(CallNo::Sigaltstack),
        133 => Some(CallNo::RtSigsuspend),
        134 => Some(CallNo::RtSigaction),
        135 => Some(CallNo::RtSigprocmask),
        136 => Some(CallNo::RtSigpending),
        137 => Some(CallNo::RtSigtimedwait),
        138 => Some(CallNo::RtSigqueueinfo),
        139 => Some(CallNo::RtSigreturn),
        160 => Some(CallNo::Uname),
        172 => Some(CallNo::Getpid),
        174 => Some(CallNo::Getuid),
        175 => Some(CallNo::Geteuid),
        176 => Some(CallNo::Getgid),
        177 => Some(CallNo::Getegid),
        178 => Some(CallNo::Gettid),
        214 => Some(CallNo::Brk),
        215 => Some(CallNo::Munmap),
        220 => Some(CallNo::Clone),
        222 => Some(CallNo::Mmap),
        226 => Some(CallNo::Mprotect),
        240 => Some(CallNo::RtTgsigqueueinfo),
        261 => Some(CallNo::Prlimit64),
        278 => Some(CallNo::Getrandom),
        _ => None,
    }
}

/// The number of a call.
#[tactic(auto, using(crate::proofs::TableFacts::found))]
pub fn number_of(call: CallNo) -> u64
    ensures number { result ≡ of_call call }
    ensures undone { of_number result ≡ Some call }
{
    listed_number(call)
}

/// The same by the table alone.
fn listed_number(call: CallNo) -> u64
    ensures { result ≡ of_call call }
{
    match call {
        CallNo::Dup => 23,
        CallNo::Dup3 => 24,
        CallNo::Fcntl => 25,
        CallNo::Ioctl => 29,
        CallNo::Mkdirat => 34,
        CallNo::Unlinkat => 35,
        CallNo::Ftruncate => 46,
        CallNo::Openat => 56,
        CallNo::Close => 57,
        CallNo::Pipe2 => 59,
        CallNo::Getdents64 => 61,
        CallNo::Lseek => 62,
        CallNo::Read => 63,
        CallNo::Write => 64,
        CallNo::Readv => 65,
        CallNo::Writev => 66,
        CallNo::Pread64 => 67,
        CallNo::Pwrite64 => 68,
        CallNo::Ppoll => 73,
        CallNo::Readlinkat => 78,
        CallNo::Newfstatat => 79,
        CallNo::Fstat => 80,
        CallNo::Exit => 93,
        CallNo::ExitGroup => 94,
        CallNo::SetTidAddress => 96,
        CallNo::Futex => 98,
        CallNo::SetRobustList => 99,
        CallNo::Nanosleep => 101,
        CallNo::Setitimer => 103,
        CallNo::ClockGettime => 113,
        CallNo::ClockNanosleep => 115,
        CallNo::SchedYield => 124,
        CallNo::Kill => 129,
        CallNo::Tkill => 130,
        CallNo::Tgkill => 131,
        CallNo::Sigaltstack => 132,
        CallNo::RtSigsuspend => 133,
        CallNo::RtSigaction => 134,
        CallNo::RtSigprocmask => 135,
        CallNo::RtSigpending => 136,
        CallNo::RtSigtimedwait => 137,
        CallNo::RtSigqueueinfo => 138,
        CallNo::RtSigreturn => 139,
        CallNo::Uname => 160,
        CallNo::Getpid => 172,
        CallNo::Getuid => 174,
        CallNo::Geteuid => 175,
        CallNo::Getgid => 176,
        CallNo::Getegid => 177,
        CallNo::Gettid => 178,
        CallNo::Brk => 214,
        CallNo::Munmap => 215,
        CallNo::Clone => 220,
        CallNo::Mmap => 222,
        CallNo::Mprotect => 226,
        CallNo::RtTgsigqueueinfo => 240,
        CallNo::Prlimit64 => 261,
        CallNo::Getrandom => 278,
    }
}
