use file_tree::{Errno, TreeFault};

/// Why a call on files did nothing.
#[derive(Clone, Copy, Debug, PartialEq, Eq)]
pub enum FileFault {
    /// The call is refused.
    Errno(Errno),
    /// It waits for another thread, or for a device.
    Block,
    /// There is no memory for it.
    Memory,
}
