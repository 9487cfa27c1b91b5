//! The fields of an ELF file, in little-endian order.

ghost use Rattle.std.specs.Prelude.{◌≡◌};
ghost use Rattle.elf_file.specs.Fields.{field, e_type, e_machine, e_entry, e_phoff, e_flags, e_phentsize, e_phnum};

/// The number of the two bytes at a place, 0 where they pass the end.
#[tactic(auto, unfolding(crate::specs::Fields::field))]
pub fn u16_in(bytes: &[u8], at: usize) -> u16
    ensures { result ≡ field 2 at bytes.now }
{
    le_fields::u16_at(bytes, at).unwrap_or(0)
}

/// The number of the four bytes at a place, 0 where they pass the end.
#[tactic(auto, unfolding(crate::specs::Fields::field))]
pub fn u32_in(bytes: &[u8], at: usize) -> u32
    ensures { result ≡ field 4 at bytes.now }
{
    le_fields::u32_at(bytes, at).unwrap_or(0)
}

/// The number of the eight bytes at a place, 0 where they pass the end.
#[tactic(auto, unfolding(crate::specs::Fields::field))]
pub fn u64_in(bytes: &[u8], at: usize) -> u64
    ensures { result ≡ field 8 at bytes.now }
{
    le_fields::u64_at(bytes, at).unwrap_or(0)
}

pub fn kind(bytes: &[u8]) -> u16
    ensures { result ≡ e_type bytes.now }
{
    u16_in(bytes, 16)
}

pub fn machine(bytes: &[u8]) -> u16
    ensures { result ≡ e_machine bytes.now }
{
    u16_in(bytes, 18)
}

pub fn entry(bytes: &[u8]) -> u64
    ensures { result ≡ e_entry bytes.now }
{
    u64_in(bytes, 24)
}

pub fn table_offset(bytes: &[u8]) -> u64
    ensures { result ≡ e_phoff bytes.now }
{
    u64_in(bytes, 32)
}

pub fn flags(bytes: &[u8]) -> u32
    ensures { result ≡ e_flags bytes.now }
{
    u32_in(bytes, 48)
}

pub fn header_size(bytes: &[u8]) -> u16
    ensures { result ≡ e_phentsize bytes.now }
{
    u16_in(bytes, 54)
}

pub fn header_count(bytes: &[u8]) -> u16
    ensures { result ≡ e_phnum bytes.now }
{
    u16_in(bytes, 56)
}
