/// Why the first stack isn't placed.
#[derive(Clone, Copy, Debug, PartialEq, Eq)]
pub enum StackFault {
    /// The texts and the words take `size` bytes, more than 131,072. A size that passes 64 bits is told as 2^64 - 1.
    TooLong { size: u64 },
    /// `wanted` pages would be stored, more than 65,536.
    PagesFull { wanted: u64 },
    /// Want of memory.
    Memory,
}
