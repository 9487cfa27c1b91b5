ghost use Rattle.std.specs.Prelude.{◌≡◌, ℕ, ◌<◌, ◌≤◌, ◌+◌, ◌^◌, Some, None, IfSome, IfNone, if◌then◌else◌};
ghost use Rattle.isa_decode.specs.Fields.{bits};
ghost use Rattle.isa_decode.specs.Listing.{IsWord, decoding, mnemonic};
ghost use Rattle.isa_decode.specs.Ranges.{InRange};
ghost use Rattle.isa_decode.specs.Groups.{in_group};

use crate::fields::{
    amount_5, amount_6, field, immediate_b, immediate_i, immediate_j, immediate_s, immediate_u,
    order, rd, rs1, rs2,
};
use crate::instruction::{AluOp, AmoOp, Cmp, ImmOp, Instr, LoadKind, Width};

const LUI: u32 = 0x37;

const AUIPC: u32 = 0x17;

const JAL: u32 = 0x6F;

const JALR: u32 = 0x67;

const BRANCH: u32 = 0x63;

const LOAD: u32 = 0x03;

const STORE: u32 = 0x23;

const OP_IMM: u32 = 0x13;

const OP_IMM_32: u32 = 0x1B;

const OP: u32 = 0x33;

const OP_32: u32 = 0x3B;

const AMO: u32 = 0x2F;

const MISC_MEM: u32 = 0x0F;

const SYSTEM: u32 = 0x73;

/// The instruction that the word stands for, `None` exactly where it stands for none.
///
/// References: the RISC-V unprivileged manual, "RV32/64G Instruction Set Listings".
#[inline(always)]
#[tactic(auto, using(crate::proofs::RowFacts::found_decodes, crate::proofs::RowFacts::word_decodes))]
pub fn decode(word: u32) -> Option<Instr>
    ensures listing { result ≡ decoding word }
    ensures stands { IfSome result (IsWord word) }
    ensures only { (instr : Instr) → IsWord word instr → result ≡ Some instr }
    ensures in_range { IfSome result InRange }
{
    found(word)
}

#[inline(always)]
#[tactic(auto, using(crate::proofs::OpcodeFacts::none_of_group, crate::proofs::OpcodeFacts::none_of_opcode))]
fn found(word: u32) -> Option<Instr>
    ensures stands { IfSome result (IsWord word) }
    ensures none { IfNone result (mnemonic word ≡ None) }
    ensures in_range { IfSome result InRange }
{
    match field(word, 6, 0) {
        LUI => Some(Instr::Lui {
            rd: rd(word),
            imm: immediate_u(word),
        }),
        AUIPC => Some(Instr::Auipc {
            rd: rd(word),
            imm: immediate_u(word),
        }),
        JAL => Some(Instr::Jal {
            rd: rd(word),
            imm: immediate_j(word),
        }),
        JALR => jump_to_register(word),
        BRANCH => branch(word),
        LOAD => load(word),
        STORE => store(word),
        OP_IMM => immediate_operation(word),
        OP_IMM_32 => immediate_operation_of_words(word),
        OP => operation(word),
        OP_32 => operation_of_words(word),
        AMO => atomic(word),
        MISC_MEM => fence(word),
        SYSTEM => system(word),
        _ => None,
    }
}

#[tactic(auto, unfolding(crate::specs::Groups::in_group))]
fn jump_to_register(word: u32) -> Option<Instr>
    requires opcode { bits word 6 0 ≡ 0x67 }
    ensures stands { IfSome result (IsWord word) }
    ensures none { IfNone result (in_group 0x67 word ≡ None) }
    ensures in_range { IfSome result InRange }
{
    match field(word, 14, 12) {
        0 => Some(Instr::Jalr {
            rd: rd(word),
            rs1: rs1(word),
            imm: immediate_i(word),
        }),
        _ => None,
    }
}

#[tactic(auto, unfolding(crate::specs::Groups::in_group))]
fn branch(word: u32) -> Option<Instr>
    requires opcode { bits word 6 0 ≡ 0x63 }
    ensures stands { IfSome result (IsWord word) }
    ensures none { IfNone result (in_group 0x63 word ≡ None) }
    ensures in_range { IfSome result InRange }
{
    match field(word, 14, 12) {
        0 => Some(Instr::Branch {
            cmp: Cmp::Beq,
            rs1: rs1(word),
            rs2: rs2(word),
            imm: immediate_b(word),
        }),
        1 => Some(Instr::Branch {
            cmp: Cmp::Bne,
            rs1: rs1(word),
            rs2: rs2(word),
            imm: immediate_b(word),
        }),
        4 => Some(Instr::Branch {
            cmp: Cmp::Blt,
            rs1: rs1(word),
            rs2: rs2(word),
            imm: immediate_b(word),
        }),
        5 => Some(Instr::Branch {
            cmp: Cmp::Bge,
            rs1: rs1(word),
            rs2: rs2(word),
            imm: immediate_b(word),
        }),
        6 => Some(Instr::Branch {
            cmp: Cmp::Bltu,
            rs1: rs1(word),
            rs2: rs2(word),
            imm: immediate_b(word),
        }),
        7 => Some(Instr::Branch {
            cmp: Cmp::Bgeu,
            rs1: rs1(word),
            rs2: rs2(word),
            imm: immediate_b(word),
        }),
        _ => None,
    }
}

#[tactic(auto, unfolding(crate::specs::Groups::in_group))]
fn load(word: u32) -> Option<Instr>
    requires opcode { bits word 6 0 ≡ 0x03 }
    ensures stands { IfSome result (IsWord word) }
    ensures none { IfNone result (in_group 0x03 word ≡ None) }
    ensures in_range { IfSome result InRange }
{
    match field(word, 14, 12) {
        0 => Some(Instr::Load {
            kind: LoadKind::Lb,
            rd: rd(word),
            rs1: rs1(word),
            imm: immediate_i(word),
        }),
        1 => Some(Instr::Load {
            kind: LoadKind::Lh,
            rd: rd(word),
            rs1: rs1(word),
            imm: immediate_i(word),
        }),
        2 => Some(Instr::Load {
            kind: LoadKind::Lw,
            rd: rd(word),
            rs1: rs1(word),
            imm: immediate_i(word),
        }),
        3 => Some(Instr::Load {
            kind: LoadKind::Ld,
            rd: rd(word),
            rs1: rs1(word),
            imm: immediate_i(word),
        }),
        4 => Some(Instr::Load {
            kind: LoadKind::Lbu,
            rd: rd(word),
            rs1: rs1(word),
            imm: immediate_i(word),
        }),
        5 => Some(Instr::Load {
            kind: LoadKind::Lhu,
            rd: rd(word),
            rs1: rs1(word),
            imm: immediate_i(word),
        }),
        6 => Some(Instr::Load {
            kind: LoadKind::Lwu,
            rd: rd(word),
            rs1: rs1(word),
            imm: immediate_i(word),
        }),
        _ => None,
    }
}

#[tactic(auto, unfolding(crate::specs::Groups::in_group))]
fn store(word: u32) -> Option<Instr>
    requires opcode { bits word 6 0 ≡ 0x23 }
    ensures stands { IfSome result (IsWord word) }
    ensures none { IfNone result (in_group 0x23 word ≡ None) }
    ensures in_range { IfSome result InRange }
{
    match field(word, 14, 12) {
        0 => Some(Instr::Store {
            width: Width::One,
            rs1: rs1(word),
            rs2: rs2(word),
            imm: immediate_s(word),
        }),
        1 => Some(Instr::Store {
            width: Width::Two,
            rs1: rs1(word),
            rs2: rs2(word),
            imm: immediate_s(word),
        }),
        2 => Some(Instr::Store {
            width: Width::Four,
            rs1: rs1(word),
            rs2: rs2(word),
            imm: immediate_s(word),
        }),
        3 => Some(Instr::Store {
            width: Width::Eight,
            rs1: rs1(word),
            rs2: rs2(word),
            imm: immediate_s(word),
        }),
        _ => None,
    }
}

#[tactic(auto, unfolding(crate::specs::Groups::in_group))]
fn immediate_operation(word: u32) -> Option<Instr>
    requires opcode { bits word 6 0 ≡ 0x13 }
    ensures stands { IfSome result (IsWord word) }
    ensures none { IfNone result (in_group 0x13 word ≡ None) }
    ensures in_range { IfSome result InRange }
{
    match field(word, 14, 12) {
        0 => Some(Instr::OpImm {
            op: ImmOp::Addi,
            rd: rd(word),
            rs1: rs1(word),
            imm: immediate_i(word),
        }),
        2 => Some(Instr::OpImm {
            op: ImmOp::Slti,
            rd: rd(word),
            rs1: rs1(word),
            imm: immediate_i(word),
        }),
        3 => Some(Instr::OpImm {
            op: ImmOp::Sltiu,
            rd: rd(word),
            rs1: rs1(word),
            imm: immediate_i(word),
        }),
        4 => Some(Instr::OpImm {
            op: ImmOp::Xori,
            rd: rd(word),
            rs1: rs1(word),
            imm: immediate_i(word),
        }),
        6 => Some(Instr::OpImm {
            op: ImmOp::Ori,
            rd: rd(word),
            rs1: rs1(word),
            imm: immediate_i(word),
        }),
        7 => Some(Instr::OpImm {
            op: ImmOp::Andi,
            rd: rd(word),
            rs1: rs1(word),
            imm: immediate_i(word),
        }),
        1 => match field(word, 31, 26) {
            0x00 => Some(Instr::OpImm {
                op: ImmOp::Slli,
                rd: rd(word),
                rs1: rs1(word),
                imm: amount_6(word),
            }),
            _ => None,
        },
        5 => match field(word, 31, 26) {
            0x00 => Some(Instr::OpImm {
                op: ImmOp::Srli,
                rd: rd(word),
                rs1: rs1(word),
                imm: amount_6(word),
            }),
            0x10 => Some(Instr::OpImm {
                op: ImmOp::Srai,
                rd: rd(word),
                rs1: rs1(word),
                imm: amount_6(word),
            }),
            _ => None,
        },
        _ => None,
    }
}

#[tactic(auto, unfolding(crate::specs::Groups::in_group))]
fn immediate_operation_of_words(word: u32) -> Option<Instr>
    requires opcode { bits word 6 0 ≡ 0x1B }
    ensures stands { IfSome result (IsWord word) }
    ensures none { IfNone result (in_group 0x1B word ≡ None) }
    ensures in_range { IfSome result InRange }
{
    match field(word, 14, 12) {
        0 => Some(Instr::OpImm {
            op: ImmOp::Addiw,
            rd: rd(word),
            rs1: rs1(word),
            imm: immediate_i(word),
        }),
        1 => match field(word, 31, 25) {
            0x00 => Some(Instr::OpImm {
                op: ImmOp::Slliw,
                rd: rd(word),
                rs1: rs1(word),
                imm: amount_5(word),
            }),
            _ => None,
        },
        5 => match field(word, 31, 25) {
            0x00 => Some(Instr::OpImm {
                op: ImmOp::Srliw,
                rd: rd(word),
                rs1: rs1(word),
                imm: amount_5(word),
            }),
            0x20 => Some(Instr::OpImm {
                op: ImmOp::Sraiw,
                rd: rd(word),
                rs1: rs1(word),
                imm: amount_5(word),
            }),
            _ => None,
        },
        _ => None,
    }
}

#[tactic(auto, unfolding(crate::specs::Groups::in_group))]
fn operation(word: u32) -> Option<Instr>
    requires opcode { bits word 6 0 ≡ 0x33 }
    ensures stands { IfSome result (IsWord word) }
    ensures none { IfNone result (in_group 0x33 word ≡ None) }
    ensures in_range { IfSome result InRange }
{
    match field(word, 31, 25) {
        0x00 => match field(word, 14, 12) {
            0 => Some(register_operation(AluOp::Add, word)),
            1 => Some(register_operation(AluOp::Sll, word)),
            2 => Some(register_operation(AluOp::Slt, word)),
            3 => Some(register_operation(AluOp::Sltu, word)),
            4 => Some(register_operation(AluOp::Xor, word)),
            5 => Some(register_operation(AluOp::Srl, word)),
            6 => Some(register_operation(AluOp::Or, word)),
            7 => Some(register_operation(AluOp::And, word)),
            _ => None,
        },
        0x20 => match field(word, 14, 12) {
            0 => Some(register_operation(AluOp::Sub, word)),
            5 => Some(register_operation(AluOp::Sra, word)),
            _ => None,
        },
        0x01 => match field(word, 14, 12) {
            0 => Some(register_operation(AluOp::Mul, word)),
            1 => Some(register_operation(AluOp::Mulh, word)),
            2 => Some(register_operation(AluOp::Mulhsu, word)),
            3 => Some(register_operation(AluOp::Mulhu, word)),
            4 => Some(register_operation(AluOp::Div, word)),
            5 => Some(register_operation(AluOp::Divu, word)),
            6 => Some(register_operation(AluOp::Rem, word)),
            7 => Some(register_operation(AluOp::Remu, word)),
            _ => None,
        },
        _ => None,
    }
}

#[tactic(auto, unfolding(crate::specs::Groups::in_group))]
fn operation_of_words(word: u32) -> Option<Instr>
    requires opcode { bits word 6 0 ≡ 0x3B }
    ensures stands { IfSome result (IsWord word) }
    ensures none { IfNone result (in_group 0x3B word ≡ None) }
    ensures in_range { IfSome result InRange }
{
    match field(word, 31, 25) {
        0x00 => match field(word, 14, 12) {
            0 => Some(register_operation(AluOp::Addw, word)),
            1 => Some(register_operation(AluOp::Sllw, word)),
            5 => Some(register_operation(AluOp::Srlw, word)),
            _ => None,
        },
        0x20 => match field(word, 14, 12) {
            0 => Some(register_operation(AluOp::Subw, word)),
            5 => Some(register_operation(AluOp::Sraw, word)),
            _ => None,
        },
        0x01 => match field(word, 14, 12) {
            0 => Some(register_operation(AluOp::Mulw, word)),
            4 => Some(register_operation(AluOp::Divw, word)),
            5 => Some(register_operation(AluOp::Divuw, word)),
            6 => Some(register_operation(AluOp::Remw, word)),
            7 => Some(register_operation(AluOp::Remuw, word)),
            _ => None,
        },
        _ => None,
    }
}

#[inline]
fn register_operation(op: AluOp, word: u32) -> Instr
    ensures made { result ≡ Instr.Op op (bits word 11 7) (bits word 19 15) (bits word 24 20) }
    ensures in_range { InRange result }
{
    Instr::Op {
        op,
        rd: rd(word),
        rs1: rs1(word),
        rs2: rs2(word),
    }
}

#[tactic(auto, unfolding(crate::specs::Groups::in_group))]
fn atomic(word: u32) -> Option<Instr>
    requires opcode { bits word 6 0 ≡ 0x2F }
    ensures stands { IfSome result (IsWord word) }
    ensures none { IfNone result (in_group 0x2F word ≡ None) }
    ensures in_range { IfSome result InRange }
{
    match field(word, 14, 12) {
        2 => atomic_of(word, false),
        3 => atomic_of(word, true),
        _ => None,
    }
}

#[tactic(auto, unfolding(crate::specs::Groups::in_group))]
fn atomic_of(word: u32, wide: bool) -> Option<Instr>
    requires opcode { bits word 6 0 ≡ 0x2F }
    requires width { bits word 14 12 ≡ (if wide then 3 else 2) }
    ensures stands { IfSome result (IsWord word) }
    ensures none { IfNone result (in_group 0x2F word ≡ None) }
    ensures in_range { IfSome result InRange }
{
    match field(word, 31, 27) {
        0x02 => match rs2(word) {
            0 => Some(Instr::LoadReserved {
                wide,
                order: order(word),
                rd: rd(word),
                rs1: rs1(word),
            }),
            _ => None,
        },
        0x03 => Some(Instr::StoreConditional {
            wide,
            order: order(word),
            rd: rd(word),
            rs1: rs1(word),
            rs2: rs2(word),
        }),
        0x01 => Some(memory_operation(AmoOp::Amoswap, wide, word)),
        0x00 => Some(memory_operation(AmoOp::Amoadd, wide, word)),
        0x04 => Some(memory_operation(AmoOp::Amoxor, wide, word)),
        0x0C => Some(memory_operation(AmoOp::Amoand, wide, word)),
        0x08 => Some(memory_operation(AmoOp::Amoor, wide, word)),
        0x10 => Some(memory_operation(AmoOp::Amomin, wide, word)),
        0x14 => Some(memory_operation(AmoOp::Amomax, wide, word)),
        0x18 => Some(memory_operation(AmoOp::Amominu, wide, word)),
        0x1C => Some(memory_operation(AmoOp::Amomaxu, wide, word)),
        _ => None,
    }
}

#[inline]
fn memory_operation(op: AmoOp, wide: bool, word: u32) -> Instr
    ensures made { result ≡ Instr.Amo op wide (bits word 26 25) (bits word 11 7) (bits word 19 15) (bits word 24 20) }
    ensures in_range { InRange result }
{
    Instr::Amo {
        op,
        wide,
        order: order(word),
        rd: rd(word),
        rs1: rs1(word),
        rs2: rs2(word),
    }
}

#[tactic(auto, unfolding(crate::specs::Groups::in_group))]
fn fence(word: u32) -> Option<Instr>
    requires opcode { bits word 6 0 ≡ 0x0F }
    ensures stands { IfSome result (IsWord word) }
    ensures none { IfNone result (in_group 0x0F word ≡ None) }
    ensures in_range { IfSome result InRange }
{
    match field(word, 14, 12) {
        0 => Some(Instr::Fence {
            code: false,
            rd: rd(word),
            rs1: rs1(word),
            imm: immediate_i(word),
        }),
        1 => Some(Instr::Fence {
            code: true,
            rd: rd(word),
            rs1: rs1(word),
            imm: immediate_i(word),
        }),
        _ => None,
    }
}

#[tactic(auto, unfolding(crate::specs::Groups::in_group))]
fn system(word: u32) -> Option<Instr>
    requires opcode { bits word 6 0 ≡ 0x73 }
    ensures stands { IfSome result (IsWord word) }
    ensures none { IfNone result (in_group 0x73 word ≡ None) }
    ensures in_range { IfSome result InRange }
{
    match field(word, 19, 7) {
        0 => match field(word, 31, 20) {
            0 => Some(Instr::Ecall),
            1 => Some(Instr::Ebreak),
            _ => None,
        },
        _ => None,
    }
}
