ghost use Rattle.std.specs.Prelude.{◌≡◌};

use crate::errno::Errno;
use std::alloc::AllocError;

/// Why a call that changes the tree did nothing.
#[derive(Clone, Copy, Debug, PartialEq, Eq)]
pub enum TreeFault {
    /// The call is refused.
    Errno(Errno),
    /// There is no memory for it.
    Memory,
}

impl From<Errno> for TreeFault {
    ghost use Rattle.file_tree.specs.declared.fault.TreeFault.TheVariants as faults;

    ghost from_gives = { λ errno fault. fault ≡ faults.Errno errno };

    fn from(errno: Errno) -> TreeFault {
        TreeFault::Errno(errno)
    }
}

impl From<AllocError> for TreeFault {
    ghost use Rattle.file_tree.specs.declared.fault.TreeFault.TheVariants as faults;

    ghost from_gives = { λ _ fault. fault ≡ faults.Memory };

    fn from(_: AllocError) -> TreeFault {
        TreeFault::Memory
    }
}
