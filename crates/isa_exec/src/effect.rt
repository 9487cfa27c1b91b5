use isa_decode::{AmoOp, LoadKind, Width};

/// What an instruction asks for. After `Next` and `Jump` the registers are final; otherwise they are unchanged. `rd` is the
/// register that is to be written, 0 to 31, and `at` the address of the lowest byte. `value` is the whole register, of which
/// a store takes the lowest bytes. `wide` is true of accesses of 8 bytes, and false of 4.
#[derive(Clone, Copy, Debug, PartialEq, Eq)]
pub enum Effect {
    /// The program goes on behind the instruction.
    Next,
    /// The program goes on at another address.
    Jump,
    Load {
        rd: u8,
        kind: LoadKind,
        at: u64,
    },
    Store {
        width: Width,
        at: u64,
        value: u64,
    },
    Reserve {
        rd: u8,
        wide: bool,
        at: u64,
    },
    Conditional {
        rd: u8,
        wide: bool,
        at: u64,
        value: u64,
    },
    Amo {
        rd: u8,
        op: AmoOp,
        wide: bool,
        at: u64,
        value: u64,
    },
    /// A call of the system.
    Call,
    /// A stop for a debugger.
    Break,
}
