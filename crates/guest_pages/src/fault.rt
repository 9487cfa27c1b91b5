/// Why a range can't be used, with the least address of it that is bad.
#[derive(Clone, Copy, Debug, PartialEq, Eq)]
pub enum PageFault {
    NotMapped(u64),
    NoAccess(u64),
}

/// Why a mapping isn't made.
#[derive(Clone, Copy, Debug, PartialEq, Eq)]
pub enum MapFault {
    /// `wanted` pages would be stored, more than 65,536.
    PagesFull { wanted: u64 },
    /// The least address of the range that isn't mapped.
    NotMapped(u64),
    Memory,
}
