//! Writing of fields.

ghost use Rattle.std.specs.Prelude.{◌≡◌, ◌+◌, ◌≤◌, length};
ghost use Rattle.le_fields.specs.Fields.{with_field};

use byteorder::{ByteOrder, LittleEndian};

/// Writes two bytes from place `at` on, the lowest first. The other bytes stay.
///
/// References: System V ABI, "Data Encoding".
#[tactic(auto, unfolding(crate::specs::Fields::with_field))]
pub fn put_u16(bytes: &mut [u8], at: usize, value: u16)
    requires { at + 2 ≤ length bytes.old }
    ensures { bytes.new ≡ with_field 2 at value bytes.old }
{
    LittleEndian::write_u16(&mut bytes[at..at + 2], value);
}

/// Writes four bytes from place `at` on, the lowest first. The other bytes stay.
///
/// References: System V ABI, "Data Encoding".
#[tactic(auto, unfolding(crate::specs::Fields::with_field))]
pub fn put_u32(bytes: &mut [u8], at: usize, value: u32)
    requires { at + 4 ≤ length bytes.old }
    ensures { bytes.new ≡ with_field 4 at value bytes.old }
{
    LittleEndian::write_u32(&mut bytes[at..at + 4], value);
}

/// Writes eight bytes from place `at` on, the lowest first. The other bytes stay.
///
/// References: System V ABI, "Data Encoding".
#[tactic(auto, unfolding(crate::specs::Fields::with_field))]
pub fn put_u64(bytes: &mut [u8], at: usize, value: u64)
    requires { at + 8 ≤ length bytes.old }
    ensures { bytes.new ≡ with_field 8 at value bytes.old }
{
    LittleEndian::write_u64(&mut bytes[at..at + 8], value);
}
