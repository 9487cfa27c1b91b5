ghost use Rattle.std.specs.Prelude.{⊤, ◌≡◌, [], ◌∷◌, codes};

use bitflags::{Flag, Flags, bitflag_items};

/// How a file is opened: two access bits, and flags. Bits without a name are kept, and passed over.
///
/// References: open(2).
#[derive(Clone, Copy, Debug, PartialEq, Eq)]
pub struct OpenFlags(u64);

bitflag_items! {
    impl OpenFlags: u64 {
        /// Writing alone; without an access bit, reading alone.
        const WRITE_ONLY = 0x1;
        /// Reading and writing.
        const READ_WRITE = 0x2;
        /// A file that is missing is made.
        const CREATE = 0x40;
        /// It is refused where the file is there.
        const EXCLUSIVE = 0x80;
        /// The file becomes empty.
        const TRUNCATE = 0x200;
        /// Each write goes to the end.
        const APPEND = 0x400;
        /// Reads and writes don't wait.
        const NO_WAIT = 0x800;
        /// Files may be large, as they always may.
        const LARGE_FILE = 0x8000;
        /// It is refused where it isn't a directory.
        const DIRECTORY = 0x10000;
        /// A link isn't followed; there are none.
        const NO_FOLLOW = 0x20000;
        /// The descriptor is closed by execve.
        const CLOSE_ON_EXEC = 0x80000;
        /// The place in the tree alone.
        const PATH = 0x200000;
        /// A file without a name.
        const TEMPORARY = 0x400000;
    }
}

impl Flags for OpenFlags {
    type Bits = u64;

    ghost exact = { ⊤ };

    ghost table = { (codes "WRITE_ONLY", 0x1) ∷ (codes "READ_WRITE", 0x2) ∷ (codes "CREATE", 0x40) ∷ (codes "EXCLUSIVE", 0x80) ∷ (codes "TRUNCATE", 0x200) ∷ (codes "APPEND", 0x400) ∷ (codes "NO_WAIT", 0x800) ∷ (codes "LARGE_FILE", 0x8000) ∷ (codes "DIRECTORY", 0x10000) ∷ (codes "NO_FOLLOW", 0x20000) ∷ (codes "CLOSE_ON_EXEC", 0x80000) ∷ (codes "PATH", 0x200000) ∷ (codes "TEMPORARY", 0x400000) ∷ [] };

    ghost set_of = { λ flags. flags.0 };

    fn flags<'a>() -> &'a [Flag<OpenFlags>] {
        OpenFlags::FLAGS
    }

    fn bits(&self) -> u64 {
        self.0
    }

    fn from_bits_retain(bits: u64) -> OpenFlags {
        OpenFlags(bits)
    }
}

/// What a new thread shares, and what is written at its start and its end. Bits without a name are kept.
///
/// References: clone(2).
#[derive(Clone, Copy, Debug, PartialEq, Eq)]
pub struct CloneFlags(u64);

bitflag_items! {
    impl CloneFlags: u64 {
        /// The memory is shared.
        const VM = 0x100;
        /// The root and the working directory are shared.
        const FS = 0x200;
        /// The descriptors are shared.
        const FILES = 0x400;
        /// The dispositions of signals are shared.
        const SIGHAND = 0x800;
        /// A thread of the same process.
        const THREAD = 0x10000;
        /// The undo list of semaphores is shared.
        const SYSVSEM = 0x40000;
        /// The thread pointer is set.
        const SETTLS = 0x80000;
        /// The id is written in the parent's memory.
        const PARENT_SETTID = 0x100000;
        /// At its end the child clears a word and wakes a waiter there.
        const CHILD_CLEARTID = 0x200000;
        /// Passed over.
        const DETACHED = 0x400000;
        /// The id is written in the child's memory.
        const CHILD_SETTID = 0x1000000;
    }
}

impl Flags for CloneFlags {
    type Bits = u64;

    ghost exact = { ⊤ };

    ghost table = { (codes "VM", 0x100) ∷ (codes "FS", 0x200) ∷ (codes "FILES", 0x400) ∷ (codes "SIGHAND", 0x800) ∷ (codes "THREAD", 0x10000) ∷ (codes "SYSVSEM", 0x40000) ∷ (codes "SETTLS", 0x80000) ∷ (codes "PARENT_SETTID", 0x100000) ∷ (codes "CHILD_CLEARTID", 0x200000) ∷ (codes "DETACHED", 0x400000) ∷ (codes "CHILD_SETTID", 0x1000000) ∷ [] };

    ghost set_of = { λ flags. flags.0 };

    fn flags<'a>() -> &'a [Flag<CloneFlags>] {
        CloneFlags::FLAGS
    }

    fn bits(&self) -> u64 {
        self.0
    }

    fn from_bits_retain(bits: u64) -> CloneFlags {
        CloneFlags(bits)
    }
}
