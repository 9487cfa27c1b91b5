/// A comparison of two registers, under which a branch is taken (opcode 0x63).
#[derive(Clone, Copy, Debug, PartialEq, Eq)]
pub enum Cmp {
    Beq,
    Bne,
    Blt,
    Bge,
    Bltu,
    Bgeu,
}

/// What a load reads, and how it fills the register (opcode 0x03).
#[derive(Clone, Copy, Debug, PartialEq, Eq)]
pub enum LoadKind {
    Lb,
    Lh,
    Lw,
    Ld,
    Lbu,
    Lhu,
    Lwu,
}

/// How many bytes a store writes (opcode 0x23).
#[derive(Clone, Copy, Debug, PartialEq, Eq)]
pub enum Width {
    One,
    Two,
    Four,
    Eight,
}

/// An operation on a register and an immediate (opcodes 0x13 and 0x1B).
#[derive(Clone, Copy, Debug, PartialEq, Eq)]
pub enum ImmOp {
    Addi,
    Slti,
    Sltiu,
    Xori,
    Ori,
    Andi,
    Slli,
    Srli,
    Srai,
    Addiw,
    Slliw,
    Srliw,
    Sraiw,
}

/// An operation on two registers (opcodes 0x33 and 0x3B).
#[derive(Clone, Copy, Debug, PartialEq, Eq)]
pub enum AluOp {
    Add,
    Sub,
    Sll,
    Slt,
    Sltu,
    Xor,
    Srl,
    Sra,
    Or,
    And,
    Mul,
    Mulh,
    Mulhsu,
    Mulhu,
    Div,
    Divu,
    Rem,
    Remu,
    Addw,
    Subw,
    Sllw,
    Srlw,
    Sraw,
    Mulw,
    Divw,
    Divuw,
    Remw,
    Remuw,
}

/// An atomic read and write of memory (opcode 0x2F).
#[derive(Clone, Copy, Debug, PartialEq, Eq)]
pub enum AmoOp {
    Amoswap,
    Amoadd,
    Amoxor,
    Amoand,
    Amoor,
    Amomin,
    Amomax,
    Amominu,
    Amomaxu,
}

/// An instruction. Registers are numbers from 0 to 31, and `imm` is the signed number that the format's immediate
/// gives. `is_in_range` tells whether the fields are in their ranges.
#[derive(Clone, Copy, Debug, PartialEq, Eq)]
pub enum Instr {
    /// `imm` is a multiple of 4096, from -2^31 to 2^31 - 4096.
    Lui {
        rd: u8,
        imm: i64,
    },
    /// `imm` is a multiple of 4096, from -2^31 to 2^31 - 4096.
    Auipc {
        rd: u8,
        imm: i64,
    },
    /// `imm` is even, from -1048576 to 1048574.
    Jal {
        rd: u8,
        imm: i64,
    },
    /// `imm` is from -2048 to 2047.
    Jalr {
        rd: u8,
        rs1: u8,
        imm: i64,
    },
    /// `imm` is even, from -4096 to 4094.
    Branch {
        cmp: Cmp,
        rs1: u8,
        rs2: u8,
        imm: i64,
    },
    /// `imm` is from -2048 to 2047.
    Load {
        kind: LoadKind,
        rd: u8,
        rs1: u8,
        imm: i64,
    },
    /// `imm` is from -2048 to 2047.
    Store {
        width: Width,
        rs1: u8,
        rs2: u8,
        imm: i64,
    },
    /// `imm` is from -2048 to 2047; of a shift it is the amount, from 0 to 63, and to 31 of its W form.
    OpImm {
        op: ImmOp,
        rd: u8,
        rs1: u8,
        imm: i64,
    },
    Op {
        op: AluOp,
        rd: u8,
        rs1: u8,
        rs2: u8,
    },
    /// `wide` is true of the D form. `order` is 2 for aq plus 1 for rl, here and in the next two.
    LoadReserved {
        wide: bool,
        order: u8,
        rd: u8,
        rs1: u8,
    },
    StoreConditional {
        wide: bool,
        order: u8,
        rd: u8,
        rs1: u8,
        rs2: u8,
    },
    Amo {
        op: AmoOp,
        wide: bool,
        order: u8,
        rd: u8,
        rs1: u8,
        rs2: u8,
    },
    /// `code` is true of fence.i. The other fields are kept as they stand; `imm` is from -2048 to 2047.
    Fence {
        code: bool,
        rd: u8,
        rs1: u8,
        imm: i64,
    },
    Ecall,
    Ebreak,
}
