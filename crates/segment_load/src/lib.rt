//! The segments of a file in the guest's memory.
//!
//! # Model
//!
//! A file's segments are a list of images (`elf_file`), memory is a list of ranges (`guest_pages`). `specs/Loading.antt`
//! says what stands at each address: nothing where no segment has a byte in its page, else the rights of all segments that
//! have a byte in its page, and the byte that the file gives, or 0.
//!
//! # What the layer above knows
//!
//! `load` makes that memory of a file whose pages fit, and answers want of memory alone. `wanted_pages` tells how many pages
//! the segments store: each page of a segment that has a right, once. `laws` says that the memory stores exactly these. While
//! it is made no more are stored: a page gets no right that it doesn't have in the end, but for those that have one already.
//! So no step of it is refused for its pages (`proofs/FullFacts.antt`).
//!
//! # Form
//!
//! Segments share no byte, so that only the first and the last page of one can be another's. The pages between them are
//! mapped and given rights as one range. What a page has by other segments isn't looked for among these: it is read from
//! the memory that is being made. So `load` costs by the number of segments, and not by its square. `wanted_pages` asks such
//! memory, too, in which the pages that it has counted are mapped without rights; where there is none, it goes over pairs.
//!
//! # Sources
//!
//! System V ABI, "Program Loading". That a page has the rights of all its segments is the project's own.
#![tactic(auto)]

mod bare;
mod counting;
mod filling;
mod granting;
mod loading;
mod pairs;
mod rights;

pub use counting::{laws, wanted_pages};
pub use loading::load;

#[cfg(test)]
mod tests;
