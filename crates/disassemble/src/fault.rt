ghost use Rattle.std.specs.Prelude.{◌≡◌, ◌≢◌, ◌↔◌};
ghost use Rattle.std.specs.IoError.{error_kind};
ghost use Rattle.std.specs.declared.io.ErrorKind.TheVariants.{OutOfMemory};
ghost use Rattle.disassemble.specs.declared.fault.Fault.TheVariants.{PartOfAWord, Memory};

use std::alloc::AllocError;
use std::io::{self, ErrorKind};

/// Why the lines were not all written.
#[derive(Debug, Drop)]
pub enum Fault {
    /// The input's length is no multiple of 4.
    PartOfAWord,
    /// There was no memory left.
    Memory,
    /// The input was not read to its end, or the output did not take all.
    Stream,
}

impl Fault {
    ghost use Rattle.disassemble.specs.Faults.{message_of, status_of};

    /// What standard error is told.
    pub fn message(&self) -> &'static str
        ensures { result.now ≡ message_of self.now }
    {
        match self {
            Fault::PartOfAWord => "disassemble: the length of the input is no multiple of 4",
            Fault::Memory => "disassemble: out of memory",
            Fault::Stream => "disassemble: reading or writing failed",
        }
    }

    /// The status that the program ends with.
    pub fn status(&self) -> u8
        ensures { result ≡ status_of self.now }
    {
        match self {
            Fault::PartOfAWord => 65,
            Fault::Memory => 70,
            Fault::Stream => 74,
        }
    }
}

impl From<AllocError> for Fault {
    ghost from_gives = { λ _ fault. fault ≡ Memory };

    fn from(_error: AllocError) -> Fault {
        Fault::Memory
    }
}

/// Want of memory exactly where the stream tells it, else a failed stream.
impl From<io::Error> for Fault {
    ghost from_gives = { λ error fault. (fault ≢ PartOfAWord) × (fault ≡ Memory ↔ error_kind error ≡ OutOfMemory) };

    fn from(error: io::Error) -> Fault {
        match error.kind() {
            ErrorKind::OutOfMemory => Fault::Memory,
            _ => Fault::Stream,
        }
    }
}
