//! Little-endian fields of byte slices, and the list of bytes that the crates above share.
//!
//! # Model
//!
//! A field is the number of n bytes, the lowest first, at a place of a byte list: `field_at` is none exactly where it
//! passes the end, and `with_field` is the list with the field written and every other byte as it was.
//!
//! # What the layer above knows
//!
//! Each reader gives `field_at`, each writer leaves `with_field`. `Bytes` is seen as its list.
//!
//! # Sources
//!
//! System V ABI, "Data Encoding" (`ELFDATA2LSB`). `Bytes` is the project's own.
#![tactic(auto)]

mod byte_list;
mod reading;
mod writing;

pub use byte_list::Bytes;
pub use reading::{u16_at, u32_at, u64_at};
pub use writing::{put_u16, put_u32, put_u64};

#[cfg(test)]
mod tests;
