//! Headers as their fields.

ghost use Rattle.std.specs.Prelude.{◌≡◌};
ghost use Rattle.elf_build.specs.File.{loaded, with_table_behind};

/// The flag of a segment that can be executed.
pub const EXECUTE: u32 = 1;

/// The flag of a segment that can be written.
pub const WRITE: u32 = 2;

/// The flag of a segment that can be read.
pub const READ: u32 = 4;

/// The type of a segment that is loaded.
const LOADED: u32 = 1;

/// What differs between the ELF headers of files for RISC-V.
///
/// References: System V ABI, "ELF Header".
#[derive(Clone, Copy, Debug, PartialEq, Eq)]
pub struct ElfHeader {
    /// 2 for a program that stands at its addresses, 3 for one that can stand anywhere.
    pub kind: u16,
    pub entry: u64,
    /// Where the program headers stand in the file.
    pub table: u64,
    /// The flags of the machine.
    pub flags: u32,
    /// The number of program headers.
    pub count: u16,
}

impl ElfHeader {
    /// With as many program headers right behind it, and no flags.
    pub fn new(kind: u16, entry: u64, count: u16) -> ElfHeader
        ensures { result ≡ with_table_behind kind entry count }
    {
        ElfHeader {
            kind,
            entry,
            table: 64,
            flags: 0,
            count,
        }
    }
}

/// What a program header says.
///
/// References: System V ABI, "Program Header".
#[derive(Clone, Copy, Debug, PartialEq, Eq)]
pub struct ProgramHeader {
    /// 1 for a segment that is loaded.
    pub kind: u32,
    pub flags: u32,
    pub offset: u64,
    pub address: u64,
    pub file_size: u64,
    pub memory_size: u64,
}

/// Of a segment that is loaded, of zeros: it has no bytes from the file.
pub fn zeros(flags: u32, address: u64, size: u64) -> ProgramHeader
    ensures { result ≡ loaded flags address size 0 0 }
{
    ProgramHeader {
        kind: LOADED,
        flags,
        offset: 0,
        address,
        file_size: 0,
        memory_size: size,
    }
}
