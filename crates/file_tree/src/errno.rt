ghost use Rattle.std.specs.Prelude.{◌≡◌, pos};
ghost use Rattle.file_tree.specs.Errors.{number};

/// Why a system call was refused. The names and numbers are those of Linux.
///
/// References: errno(3).
#[derive(Clone, Copy, Debug, PartialEq, Eq)]
pub enum Errno {
    /// Operation not permitted.
    EPERM,
    /// No such file or directory.
    ENOENT,
    /// No such process.
    ESRCH,
    /// Interrupted by a signal.
    EINTR,
    /// Not a descriptor that is open for this.
    EBADF,
    /// Try again.
    EAGAIN,
    /// Not enough memory.
    ENOMEM,
    /// Permission denied.
    EACCES,
    /// An address that can't be accessed.
    EFAULT,
    /// In use.
    EBUSY,
    /// It exists already.
    EEXIST,
    /// No such device.
    ENODEV,
    /// Not a directory.
    ENOTDIR,
    /// A directory.
    EISDIR,
    /// Invalid argument.
    EINVAL,
    /// Too many open descriptors.
    EMFILE,
    /// Not a terminal.
    ENOTTY,
    /// The file would be too large.
    EFBIG,
    /// No space left.
    ENOSPC,
    /// It can't be sought in.
    ESPIPE,
    /// A pipe without a reader.
    EPIPE,
    /// A name or a path that is too long.
    ENAMETOOLONG,
    /// No such system call.
    ENOSYS,
    /// A directory that isn't empty.
    ENOTEMPTY,
    /// The time is over.
    ETIMEDOUT,
}

impl Errno {
    /// Its number, which is above 0. A system call answers it negated.
    pub fn code(self) -> i64
        ensures { result ≡ pos (number self) }
    {
        match self {
            Errno::EPERM => 1,
            Errno::ENOENT => 2,
            Errno::ESRCH => 3,
            Errno::EINTR => 4,
            Errno::EBADF => 9,
            Errno::EAGAIN => 11,
            Errno::ENOMEM => 12,
            Errno::EACCES => 13,
            Errno::EFAULT => 14,
            Errno::EBUSY => 16,
            Errno::EEXIST => 17,
            Errno::ENODEV => 19,
            Errno::ENOTDIR => 20,
            Errno::EISDIR => 21,
            Errno::EINVAL => 22,
            Errno::EMFILE => 24,
            Errno::ENOTTY => 25,
            Errno::EFBIG => 27,
            Errno::ENOSPC => 28,
            Errno::ESPIPE => 29,
            Errno::EPIPE => 32,
            Errno::ENAMETOOLONG => 36,
            Errno::ENOSYS => 38,
            Errno::ENOTEMPTY => 39,
            Errno::ETIMEDOUT => 110,
        }
    }
}
