//! The rights of a segment.

ghost use Rattle.std.specs.Prelude.{◌≡◌};
ghost use Rattle.elf_file.specs.Segments.{is_executable, is_writable};

const EXECUTE: u32 = 1;

const WRITE: u32 = 2;

pub fn is_executable(rights: u32) -> bool
    ensures { result ≡ is_executable rights }
{
    rights & EXECUTE != 0
}

pub fn is_writable(rights: u32) -> bool
    ensures { result ≡ is_writable rights }
{
    rights & WRITE != 0
}
