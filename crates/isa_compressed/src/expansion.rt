ghost use Rattle.std.specs.Prelude.{◌≡◌, ◌≢◌, IfSome};
ghost use Rattle.isa_decode.specs.Fields.{bits};
ghost use Rattle.isa_decode.specs.Ranges.{InRange};
ghost use Rattle.isa_compressed.specs.Expansion.{expansion, in_quadrant};

use crate::fields::{
    amount, branch_offset, doubleword_load_offset, doubleword_offset, doubleword_store_offset,
    field, high_register, jump_offset, low_register, rd, rs2, small_immediate, stack_address,
    stack_step, upper_immediate, word_load_offset, word_offset, word_store_offset,
};
use isa_decode::{AluOp, Cmp, ImmOp, Instr, LoadKind, Width};

/// The instruction of 4 bytes that does what the half word does, `None` exactly where the half word is no instruction of
/// 2 bytes. Hints expand as they are written.
///
/// References: the RISC-V unprivileged manual, "RVC Instruction Set Listings".
#[inline]
#[tactic(auto, using(crate::proofs::QuadrantFacts::expansion_in_quadrant, crate::proofs::QuadrantFacts::no_quadrant))]
pub fn expand(half: u16) -> Option<Instr>
    ensures listing { result ≡ expansion half }
    ensures in_range { IfSome result InRange }
{
    match field(half, 1, 0) {
        0 => quadrant_0(half),
        1 => quadrant_1(half),
        2 => quadrant_2(half),
        _ => None,
    }
}

#[tactic(auto, unfolding(crate::specs::Expansion::in_quadrant))]
fn quadrant_0(half: u16) -> Option<Instr>
    requires quadrant { bits half 1 0 ≡ 0 }
    ensures listing { result ≡ in_quadrant 0 half }
    ensures in_range { IfSome result InRange }
{
    match field(half, 15, 13) {
        0 => add_to_stack_pointer(half),
        2 => Some(Instr::Load {
            kind: LoadKind::Lw,
            rd: low_register(half),
            rs1: high_register(half),
            imm: word_offset(half),
        }),
        3 => Some(Instr::Load {
            kind: LoadKind::Ld,
            rd: low_register(half),
            rs1: high_register(half),
            imm: doubleword_offset(half),
        }),
        6 => Some(Instr::Store {
            width: Width::Four,
            rs1: high_register(half),
            rs2: low_register(half),
            imm: word_offset(half),
        }),
        7 => Some(Instr::Store {
            width: Width::Eight,
            rs1: high_register(half),
            rs2: low_register(half),
            imm: doubleword_offset(half),
        }),
        _ => None,
    }
}

#[tactic(auto, unfolding(crate::specs::Expansion::in_quadrant))]
fn add_to_stack_pointer(half: u16) -> Option<Instr>
    requires quadrant { bits half 1 0 ≡ 0 }
    requires row { bits half 15 13 ≡ 0 }
    ensures listing { result ≡ in_quadrant 0 half }
    ensures in_range { IfSome result InRange }
{
    match stack_address(half) {
        0 => None,
        imm => Some(Instr::OpImm {
            op: ImmOp::Addi,
            rd: low_register(half),
            rs1: 2,
            imm: imm,
        }),
    }
}

#[tactic(auto, unfolding(crate::specs::Expansion::in_quadrant))]
fn quadrant_1(half: u16) -> Option<Instr>
    requires quadrant { bits half 1 0 ≡ 1 }
    ensures listing { result ≡ in_quadrant 1 half }
    ensures in_range { IfSome result InRange }
{
    match field(half, 15, 13) {
        0 => Some(Instr::OpImm {
            op: ImmOp::Addi,
            rd: rd(half),
            rs1: rd(half),
            imm: small_immediate(half),
        }),
        1 => add_word(half),
        2 => Some(Instr::OpImm {
            op: ImmOp::Addi,
            rd: rd(half),
            rs1: 0,
            imm: small_immediate(half),
        }),
        3 => upper(half),
        4 => operation(half),
        5 => Some(Instr::Jal {
            rd: 0,
            imm: jump_offset(half),
        }),
        6 => Some(Instr::Branch {
            cmp: Cmp::Beq,
            rs1: high_register(half),
            rs2: 0,
            imm: branch_offset(half),
        }),
        7 => Some(Instr::Branch {
            cmp: Cmp::Bne,
            rs1: high_register(half),
            rs2: 0,
            imm: branch_offset(half),
        }),
        _ => None,
    }
}

#[tactic(auto, unfolding(crate::specs::Expansion::in_quadrant))]
fn add_word(half: u16) -> Option<Instr>
    requires quadrant { bits half 1 0 ≡ 1 }
    requires row { bits half 15 13 ≡ 1 }
    ensures listing { result ≡ in_quadrant 1 half }
    ensures in_range { IfSome result InRange }
{
    match rd(half) {
        0 => None,
        rd => Some(Instr::OpImm {
            op: ImmOp::Addiw,
            rd: rd,
            rs1: rd,
            imm: small_immediate(half),
        }),
    }
}

#[tactic(auto, unfolding(crate::specs::Expansion::in_quadrant))]
fn upper(half: u16) -> Option<Instr>
    requires quadrant { bits half 1 0 ≡ 1 }
    requires row { bits half 15 13 ≡ 3 }
    ensures listing { result ≡ in_quadrant 1 half }
    ensures in_range { IfSome result InRange }
{
    match rd(half) {
        2 => move_stack_pointer(half),
        _ => load_upper(half),
    }
}

#[tactic(auto, unfolding(crate::specs::Expansion::in_quadrant))]
fn move_stack_pointer(half: u16) -> Option<Instr>
    requires quadrant { bits half 1 0 ≡ 1 }
    requires row { bits half 15 13 ≡ 3 }
    requires rd { bits half 11 7 ≡ 2 }
    ensures listing { result ≡ in_quadrant 1 half }
    ensures in_range { IfSome result InRange }
{
    match stack_step(half) {
        0 => None,
        imm => Some(Instr::OpImm {
            op: ImmOp::Addi,
            rd: 2,
            rs1: 2,
            imm: imm,
        }),
    }
}

#[tactic(auto, unfolding(crate::specs::Expansion::in_quadrant))]
fn load_upper(half: u16) -> Option<Instr>
    requires quadrant { bits half 1 0 ≡ 1 }
    requires row { bits half 15 13 ≡ 3 }
    requires rd { bits half 11 7 ≢ 2 }
    ensures listing { result ≡ in_quadrant 1 half }
    ensures in_range { IfSome result InRange }
{
    match upper_immediate(half) {
        0 => None,
        imm => Some(Instr::Lui { rd: rd(half), imm }),
    }
}

#[tactic(auto, unfolding(crate::specs::Expansion::in_quadrant))]
fn operation(half: u16) -> Option<Instr>
    requires quadrant { bits half 1 0 ≡ 1 }
    requires row { bits half 15 13 ≡ 4 }
    ensures listing { result ≡ in_quadrant 1 half }
    ensures in_range { IfSome result InRange }
{
    match field(half, 11, 10) {
        0 => Some(Instr::OpImm {
            op: ImmOp::Srli,
            rd: high_register(half),
            rs1: high_register(half),
            imm: amount(half),
        }),
        1 => Some(Instr::OpImm {
            op: ImmOp::Srai,
            rd: high_register(half),
            rs1: high_register(half),
            imm: amount(half),
        }),
        2 => Some(Instr::OpImm {
            op: ImmOp::Andi,
            rd: high_register(half),
            rs1: high_register(half),
            imm: small_immediate(half),
        }),
        3 => register_operation(half),
        _ => None,
    }
}

#[tactic(auto, unfolding(crate::specs::Expansion::in_quadrant))]
fn register_operation(half: u16) -> Option<Instr>
    requires quadrant { bits half 1 0 ≡ 1 }
    requires row { bits half 15 13 ≡ 4 }
    requires kind { bits half 11 10 ≡ 3 }
    ensures listing { result ≡ in_quadrant 1 half }
    ensures in_range { IfSome result InRange }
{
    match field(half, 12, 12) {
        0 => match field(half, 6, 5) {
            0 => Some(Instr::Op {
                op: AluOp::Sub,
                rd: high_register(half),
                rs1: high_register(half),
                rs2: low_register(half),
            }),
            1 => Some(Instr::Op {
                op: AluOp::Xor,
                rd: high_register(half),
                rs1: high_register(half),
                rs2: low_register(half),
            }),
            2 => Some(Instr::Op {
                op: AluOp::Or,
                rd: high_register(half),
                rs1: high_register(half),
                rs2: low_register(half),
            }),
            3 => Some(Instr::Op {
                op: AluOp::And,
                rd: high_register(half),
                rs1: high_register(half),
                rs2: low_register(half),
            }),
            _ => None,
        },
        _ => match field(half, 6, 5) {
            0 => Some(Instr::Op {
                op: AluOp::Subw,
                rd: high_register(half),
                rs1: high_register(half),
                rs2: low_register(half),
            }),
            1 => Some(Instr::Op {
                op: AluOp::Addw,
                rd: high_register(half),
                rs1: high_register(half),
                rs2: low_register(half),
            }),
            _ => None,
        },
    }
}

#[tactic(auto, unfolding(crate::specs::Expansion::in_quadrant))]
fn quadrant_2(half: u16) -> Option<Instr>
    requires quadrant { bits half 1 0 ≡ 2 }
    ensures listing { result ≡ in_quadrant 2 half }
    ensures in_range { IfSome result InRange }
{
    match field(half, 15, 13) {
        0 => Some(Instr::OpImm {
            op: ImmOp::Slli,
            rd: rd(half),
            rs1: rd(half),
            imm: amount(half),
        }),
        2 => load_word(half),
        3 => load_doubleword(half),
        4 => jump_or_add(half),
        6 => Some(Instr::Store {
            width: Width::Four,
            rs1: 2,
            rs2: rs2(half),
            imm: word_store_offset(half),
        }),
        7 => Some(Instr::Store {
            width: Width::Eight,
            rs1: 2,
            rs2: rs2(half),
            imm: doubleword_store_offset(half),
        }),
        _ => None,
    }
}

#[tactic(auto, unfolding(crate::specs::Expansion::in_quadrant))]
fn load_word(half: u16) -> Option<Instr>
    requires quadrant { bits half 1 0 ≡ 2 }
    requires row { bits half 15 13 ≡ 2 }
    ensures listing { result ≡ in_quadrant 2 half }
    ensures in_range { IfSome result InRange }
{
    match rd(half) {
        0 => None,
        rd => Some(Instr::Load {
            kind: LoadKind::Lw,
            rd: rd,
            rs1: 2,
            imm: word_load_offset(half),
        }),
    }
}

#[tactic(auto, unfolding(crate::specs::Expansion::in_quadrant))]
fn load_doubleword(half: u16) -> Option<Instr>
    requires quadrant { bits half 1 0 ≡ 2 }
    requires row { bits half 15 13 ≡ 3 }
    ensures listing { result ≡ in_quadrant 2 half }
    ensures in_range { IfSome result InRange }
{
    match rd(half) {
        0 => None,
        rd => Some(Instr::Load {
            kind: LoadKind::Ld,
            rd: rd,
            rs1: 2,
            imm: doubleword_load_offset(half),
        }),
    }
}

#[tactic(auto, unfolding(crate::specs::Expansion::in_quadrant))]
fn jump_or_add(half: u16) -> Option<Instr>
    requires quadrant { bits half 1 0 ≡ 2 }
    requires row { bits half 15 13 ≡ 4 }
    ensures listing { result ≡ in_quadrant 2 half }
    ensures in_range { IfSome result InRange }
{
    match field(half, 12, 12) {
        0 => match rs2(half) {
            0 => match rd(half) {
                0 => None,
                rs1 => Some(Instr::Jalr { rd: 0, rs1, imm: 0 }),
            },
            rs2 => Some(Instr::Op {
                op: AluOp::Add,
                rd: rd(half),
                rs1: 0,
                rs2: rs2,
            }),
        },
        _ => match rs2(half) {
            0 => match rd(half) {
                0 => Some(Instr::Ebreak),
                rs1 => Some(Instr::Jalr { rd: 1, rs1, imm: 0 }),
            },
            rs2 => Some(Instr::Op {
                op: AluOp::Add,
                rd: rd(half),
                rs1: rd(half),
                rs2: rs2,
            }),
        },
    }
}
