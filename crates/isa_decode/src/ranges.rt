ghost use Rattle.std.specs.Prelude.{◌≡◌, ◌<◌, ◌^◌, true};
ghost use Rattle.isa_decode.specs.Ranges.{InRange, IsAmount, IsImmediate, IsOperand, IsShort};

use crate::instruction::{ImmOp, Instr};

/// Whether each field is in the range that its doc gives. `encode` requires that, and `decode` ensures it.
pub fn is_in_range(instr: &Instr) -> bool
    ensures yes { result ≡ true → InRange instr.now }
    ensures no { InRange instr.now → result ≡ true }
{
    match *instr {
        Instr::Lui { rd, imm } => rd < 32 && is_upper(imm),
        Instr::Auipc { rd, imm } => rd < 32 && is_upper(imm),
        Instr::Jal { rd, imm } => rd < 32 && is_immediate(imm, 0x10_0000, 2),
        Instr::Jalr { rd, rs1, imm } => rd < 32 && rs1 < 32 && is_short(imm),
        Instr::Branch {
            cmp: _,
            rs1,
            rs2,
            imm,
        } => rs1 < 32 && rs2 < 32 && is_immediate(imm, 0x1000, 2),
        Instr::Load {
            kind: _,
            rd,
            rs1,
            imm,
        } => rd < 32 && rs1 < 32 && is_short(imm),
        Instr::Store {
            width: _,
            rs1,
            rs2,
            imm,
        } => rs1 < 32 && rs2 < 32 && is_short(imm),
        Instr::OpImm { op, rd, rs1, imm } => rd < 32 && rs1 < 32 && is_operand(op, imm),
        Instr::Op {
            op: _,
            rd,
            rs1,
            rs2,
        } => rd < 32 && rs1 < 32 && rs2 < 32,
        Instr::LoadReserved {
            wide: _,
            order,
            rd,
            rs1,
        } => order < 4 && rd < 32 && rs1 < 32,
        Instr::StoreConditional {
            wide: _,
            order,
            rd,
            rs1,
            rs2,
        } => { order < 4 && rd < 32 && rs1 < 32 && rs2 < 32 }
        Instr::Amo {
            op: _,
            wide: _,
            order,
            rd,
            rs1,
            rs2,
        } => { order < 4 && rd < 32 && rs1 < 32 && rs2 < 32 }
        Instr::Fence {
            code: _,
            rd,
            rs1,
            imm,
        } => rd < 32 && rs1 < 32 && is_short(imm),
        Instr::Ecall | Instr::Ebreak => true,
    }
}

fn is_immediate(imm: i64, half: u32, step: u64) -> bool
    requires { 0 < step }
    ensures yes { result ≡ true → IsImmediate half step imm }
    ensures no { IsImmediate half step imm → result ≡ true }
{
    let half = i64::from(half);
    -half <= imm && imm < half && imm.unsigned_abs() % step == 0
}

fn is_upper(imm: i64) -> bool
    ensures yes { result ≡ true → IsImmediate (2 ^ 31) (2 ^ 12) imm }
    ensures no { IsImmediate (2 ^ 31) (2 ^ 12) imm → result ≡ true }
{
    is_immediate(imm, 0x8000_0000, 0x1000)
}

fn is_short(imm: i64) -> bool
    ensures yes { result ≡ true → IsShort imm }
    ensures no { IsShort imm → result ≡ true }
{
    is_immediate(imm, 0x800, 1)
}

fn is_amount(imm: i64, limit: u32) -> bool
    ensures yes { result ≡ true → IsAmount limit imm }
    ensures no { IsAmount limit imm → result ≡ true }
{
    0 <= imm && imm < i64::from(limit)
}

fn is_operand(op: ImmOp, imm: i64) -> bool
    ensures yes { result ≡ true → IsOperand op imm }
    ensures no { IsOperand op imm → result ≡ true }
{
    match op {
        ImmOp::Addi
        | ImmOp::Slti
        | ImmOp::Sltiu
        | ImmOp::Xori
        | ImmOp::Ori
        | ImmOp::Andi
        | ImmOp::Addiw => is_short(imm),
        ImmOp::Slli | ImmOp::Srli | ImmOp::Srai => is_amount(imm, 64),
        ImmOp::Slliw | ImmOp::Srliw | ImmOp::Sraiw => is_amount(imm, 32),
    }
}
