use elf_file::ElfFault;
use file_tree::Text;
use isa_asm::AsmFault;

/// An object outside the program.
#[derive(Clone, Copy, Debug, PartialEq, Eq)]
pub enum Part {
    Folder,
    /// The device of this number.
    Device(usize),
    Notes,
}

/// Why the program gives up.
#[derive(Drop)]
pub enum Cause {
    /// The word of this index is the first wrong one, or the first missing one.
    Usage { word: usize },
    /// The folder has so many entries, which are more than 4,096.
    TooMany { count: usize },
    /// The folder has an entry at this path that is neither a file nor a directory: the first in the order of paths.
    Link(Text),
    /// The file at this path has so many bytes, which are more than 16,777,216, or with which all files have more than
    /// 268,435,456: the first in the order of paths.
    TooBig(Text, u64),
    /// Where a file is to be made, something else stands at this path.
    NotAFile(Text),
    /// The folder has no file at this path, which the words name as a program, its input or a source.
    NoProgram(Text),
    /// The program is no file that can be loaded.
    Elf(ElfFault),
    /// The source can't be assembled.
    Asm(AsmFault),
    /// The texts and the words of the program's first stack take this many bytes, which are more than 131,072.
    StackTooLong { size: u64 },
    /// The program wants this many pages of 4096 bytes, which are more than 65,536.
    PagesFull { wanted: u64 },
    /// Reading failed.
    ReadFault(Part),
    /// Writing failed.
    WriteFault(Part),
    /// Want of memory.
    Memory,
}

impl Cause {
    ghost use Rattle.std.specs.Prelude.{◌≡◌};
    ghost use Rattle.emu_top.specs.Causes.{row_of};

    /// The status with which the program ends.
    pub fn status(&self) -> u8
        ensures { result ≡ (row_of self.now).status }
    {
        match self {
            Cause::Usage { .. } => 64,
            Cause::TooMany { .. } => 66,
            Cause::Link(_) => 66,
            Cause::TooBig(_, _) => 66,
            Cause::NotAFile(_) => 66,
            Cause::NoProgram(_) => 66,
            Cause::Elf(_) => 65,
            Cause::Asm(_) => 65,
            Cause::StackTooLong { .. } => 65,
            Cause::PagesFull { .. } => 65,
            Cause::ReadFault(_) => 74,
            Cause::WriteFault(Part::Folder) => 74,
            Cause::WriteFault(Part::Device(_)) => 74,
            Cause::WriteFault(Part::Notes) => 74,
            Cause::Memory => 70,
        }
    }
}
