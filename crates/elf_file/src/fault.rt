/// Why a file is not read: the first of its checks that fails.
#[derive(Clone, Copy, Debug, PartialEq, Eq)]
pub enum ElfFault {
    /// The file ends before its header, or before its program headers do.
    Short,
    /// It is no ELF file of 64 bits, little-endian, of version 1.
    NotElf,
    /// It is for another machine.
    NotRiscv,
    /// It is neither an executable nor a shared object.
    Kind,
    /// It has a float ABI.
    FloatAbi,
    /// It is for RV32E or RV64E.
    Embedded,
    /// Its program headers have this size, and not 56 bytes.
    HeaderSize(u16),
    /// It asks for an interpreter.
    Interpreter,
    /// The segment of this program header has more bytes in the file than in memory, or bytes past the file's end (where it
    /// has any), or is not within the addresses of programs.
    BadSegment(u16),
    /// The segment of this program header makes a page that is writable and executable, alone or with an earlier one.
    WritableCode(u16),
    /// The segments of these two program headers share a byte. The first index is less than the second.
    Overlap(u16, u16),
    /// The entry is odd, or outside the bytes that can be executed.
    Entry,
    /// Want of memory.
    Memory,
}
