use guest_pages::PageFault;

/// Why an atomic access isn't made.
#[derive(Clone, Copy, Debug, PartialEq, Eq)]
pub enum WordFault {
    /// The byte address is no multiple of the access's number of bytes, 4 or 8.
    Misaligned(u64),
    /// The least of its addresses that isn't mapped or lacks a right.
    Page(PageFault),
}
