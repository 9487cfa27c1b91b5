//! The guest's memory: pages of 4,096 bytes with rights, at byte addresses below 2^38.
//!
//! # Model
//!
//! Contracts see `Pages` as a list of `Range`s in one canonical form: they rise, don't meet, and addresses that touch
//! and have equal rights are in one range. The list is made from cells (`ranges_of`): what stands at each address, none
//! where it is not mapped, else rights and a byte. A cell without rights holds 0. Each operation is told by the cells
//! that it leaves: `placed`, `unmapped`, `protected` and `written`.
//!
//! # What the layer above knows
//!
//! An access is good exactly where `first_fault` finds none: each address is mapped with the right that is needed. Else
//! the least bad address is told, and nothing changes. A load, a fetch or a copy out gives the bytes that stand there
//! (`bytes_at`), the lowest byte first; a store or a copy in leaves `written`.
//! `map` and `protect` leave `placed` and `protected`. They refuse exactly where more than 65,536 pages would be stored
//! (`stored_pages`: those with a right), `protect` before that exactly where an address of the range is not mapped, and
//! where memory is wanting; a refusal changes nothing. `grow_break` is a `map` of pages that are free. `unmap` leaves
//! `unmapped`, and refuses nothing. `any_mapped` and `touches_code` say what stands in a range; `find_free` gives the
//! highest free range that ends at or below 0x3F00000000, and none exactly where no range fits (`free_place`). No other call
//! takes memory, but for `code`: it copies the ranges that can be executed (`code_of`), and the copy can be fetched from.
//!
//! The addresses and the limits of a process stand here, in `limits.rt` and `specs/Limits.antt`, and so do the rights that
//! the layers above ask for (`READABLE` and its like).
//!
//! # Form
//!
//! Two levels of tables, of up to 8,192 entries each, lead to a page, so that an access that lies in one page is one
//! look-up in constant time. A page that is mapped without rights stores nothing. There are no tables until the first
//! `map`.
//!
//! A table has a bit for each of its pages, which says whether it is mapped, and entries for its pages only once one of them
//! gets a right. So a large range without rights costs a bit a page: the whole of memory 8 MiB, and a few milliseconds. The
//! bits are set aside by `map`: which of its pages are unmapped later can't be said in less, and `unmap` takes no memory.
//! `find_free` goes down by words of 64 bits, and by tables where none of a table was mapped: a million steps at most, and
//! mostly a few hundred.
//!
//! # Sources
//!
//! mmap(2), munmap(2), mprotect(2), brk(2) and sigaction(2) (`SEGV_MAPERR`, `SEGV_ACCERR`). That the least bad address is told, the canonical
//! form, the limit of 65,536 pages, and that a page without rights loses its bytes are the project's own.
#![tactic(auto)]

mod bits;
mod code;
mod copying;
mod fault;
mod fetching;
mod finding;
mod fresh;
mod limits;
mod looking;
mod page;
mod pages;
mod placing;
mod random;
mod rights;
mod tables;
mod width;
mod writing;

pub use code::Code;
pub use fault::{MapFault, PageFault};
pub use limits::{
    MAPS_END, MOST_PAGES, MOST_STACK_BYTES, PAGE_SIZE, SEGMENTS_START, SHARED_OBJECT_BASE,
    STACK_END, STACK_LENGTH, STACK_PAGES, TRAMPOLINE, USER_END,
};
pub use pages::Pages;
pub use random::random_byte;
pub use rights::{CHANGEABLE, EXECUTABLE, NOTHING, READABLE, RUNNABLE, Rights, WRITABLE};
pub use width::Width;

#[cfg(test)]
mod tests;
