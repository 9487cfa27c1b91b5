//! Reading of fields.

ghost use Rattle.std.specs.Prelude.{◌≡◌, ◌+◌, ◌≤◌, IsTrue, ◌↔◌, nat_le, length};
ghost use Rattle.le_fields.specs.Fields.{field_at};

use byteorder::{ByteOrder, LittleEndian};

/// The number of the two bytes from place `at` on, the lowest first. None exactly where they pass the end.
///
/// References: System V ABI, "Data Encoding".
#[tactic(auto, unfolding(crate::specs::Fields::field_at))]
pub fn u16_at(bytes: &[u8], at: usize) -> Option<u16>
    ensures { result ≡ field_at 2 at bytes.now }
{
    if !has_field(bytes, at, 2) {
        return None;
    }
    Some(LittleEndian::read_u16(&bytes[at..]))
}

/// The number of the four bytes from place `at` on, the lowest first. None exactly where they pass the end.
///
/// References: System V ABI, "Data Encoding".
#[tactic(auto, unfolding(crate::specs::Fields::field_at))]
pub fn u32_at(bytes: &[u8], at: usize) -> Option<u32>
    ensures { result ≡ field_at 4 at bytes.now }
{
    if !has_field(bytes, at, 4) {
        return None;
    }
    Some(LittleEndian::read_u32(&bytes[at..]))
}

/// The number of the eight bytes from place `at` on, the lowest first. None exactly where they pass the end.
///
/// References: System V ABI, "Data Encoding".
#[tactic(auto, unfolding(crate::specs::Fields::field_at))]
pub fn u64_at(bytes: &[u8], at: usize) -> Option<u64>
    ensures { result ≡ field_at 8 at bytes.now }
{
    if !has_field(bytes, at, 8) {
        return None;
    }
    Some(LittleEndian::read_u64(&bytes[at..]))
}

/// Whether `size` bytes stand from place `at` on.
fn has_field(bytes: &[u8], at: usize, size: usize) -> bool
    ensures { result ≡ nat_le (at + size) (length bytes.now) }
{
    size <= bytes.len() && at <= bytes.len() - size
}
