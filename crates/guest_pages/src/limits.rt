//! The addresses and the limits of a process.

/// The bytes of a page.
pub const PAGE_SIZE: u64 = 4096;

/// User addresses are below this byte address.
pub const USER_END: u64 = 0x40_0000_0000;

/// The most pages with a right.
pub const MOST_PAGES: u64 = 65_536;

/// The byte address of the page through which handlers of signals return.
pub const TRAMPOLINE: u64 = 0x3F_FFFF_F000;

/// The byte address behind the first stack.
pub const STACK_END: u64 = 0x3F_FFFF_E000;

/// The bytes of the first stack: 8 MiB.
pub const STACK_LENGTH: u64 = 0x80_0000;

/// The pages of the first stack.
pub const STACK_PAGES: u64 = STACK_LENGTH / PAGE_SIZE;

/// The most bytes of the texts and the words of the first stack.
pub const MOST_STACK_BYTES: u64 = 131_072;

/// A file's segments begin at this byte address or above.
pub const SEGMENTS_START: u64 = 0x1000;

/// Segments, and maps whose place is free, end at this byte address or below.
pub const MAPS_END: u64 = 0x3F_0000_0000;

/// The byte address of a position-independent file.
pub const SHARED_OBJECT_BASE: u64 = 0x20_0000_0000;
