//! What instructions mean with their operands.

ghost use Rattle.std.specs.Prelude.{◌≡◌, ◌^◌, pos, neg_ℤ, ◌≤ℤ◌, ◌<ℤ◌, true};
ghost use Rattle.isa_asm.specs.Numbers.{high_part, low_part};
ghost use Rattle.isa_asm.specs.Seen.{Means, target_seen};
ghost use Rattle.isa_asm.specs.Statement.{atomic_of, atomic_storing, auipc, branch, branch_to, branch_zero, fence, immediate, immediate_into, is_signed, jal, jalr, jump, jump_to, load, load_address, load_immediate, load_reserved, lui, copy, operation, store, wrapped};

use crate::cause::AsmCause;
use crate::kind::Atomic;
use crate::meaning::Meaning;
use crate::numbers::{low_part, signed_64, upper};
use crate::operands::{
    Target, label, register_and_address, register_and_label, register_and_memory,
    register_and_number, register_and_target, three_registers, two_and_address, two_and_number,
    two_and_target, two_registers,
};
use isa_decode::{AluOp, Cmp, ImmOp, Instr, LoadKind, Width};

#[tactic(auto, unfolding(crate::specs::Statement::lui))]
pub fn lui<'a>(text: &'a [u8]) -> Result<Meaning<'a>, AsmCause>
    ensures { Means result (lui text.now) }
{
    let Some((rd, number)) = register_and_number(text) else {
        return Err(AsmCause::Operand);
    };
    let Some(imm) = upper(number) else {
        return Err(AsmCause::Range);
    };
    Ok(Meaning::One(Instr::Lui { rd, imm }))
}

#[tactic(auto, unfolding(crate::specs::Statement::auipc))]
pub fn auipc<'a>(text: &'a [u8]) -> Result<Meaning<'a>, AsmCause>
    ensures { Means result (auipc text.now) }
{
    let Some((rd, number)) = register_and_number(text) else {
        return Err(AsmCause::Operand);
    };
    let Some(imm) = upper(number) else {
        return Err(AsmCause::Range);
    };
    Ok(Meaning::One(Instr::Auipc { rd, imm }))
}

#[tactic(auto, unfolding(crate::specs::Statement::jal))]
pub fn jal<'a>(text: &'a [u8]) -> Result<Meaning<'a>, AsmCause>
    ensures { Means result (jal text.now) }
{
    let Some((rd, target)) = register_and_target(text) else {
        return Err(AsmCause::Operand);
    };
    jump_to(rd, target)
}

#[tactic(auto, unfolding(crate::specs::Statement::jump_to))]
fn jump_to(rd: u8, target: Target<'_>) -> Result<Meaning<'_>, AsmCause>
    ensures { Means result (jump_to rd (target_seen target.entry)) }
{
    match target {
        Target::Label(name) => Ok(Meaning::Jump(rd, name)),
        Target::Offset(offset) => match signed_64(offset) {
            Some(imm) => Ok(Meaning::One(Instr::Jal { rd, imm })),
            None => Err(AsmCause::Range),
        },
    }
}

#[tactic(auto, unfolding(crate::specs::Statement::branch_to))]
fn branch_to(cmp: Cmp, rs1: u8, rs2: u8, target: Target<'_>) -> Result<Meaning<'_>, AsmCause>
    ensures { Means result (branch_to cmp rs1 rs2 (target_seen target.entry)) }
{
    match target {
        Target::Label(name) => Ok(Meaning::Conditional(cmp, rs1, rs2, name)),
        Target::Offset(offset) => match signed_64(offset) {
            Some(imm) => Ok(Meaning::One(Instr::Branch { cmp, rs1, rs2, imm })),
            None => Err(AsmCause::Range),
        },
    }
}

#[tactic(auto, unfolding(crate::specs::Statement::branch))]
pub fn branch<'a>(cmp: Cmp, text: &'a [u8]) -> Result<Meaning<'a>, AsmCause>
    ensures { Means result (branch cmp text.now) }
{
    let Some((rs1, (rs2, target))) = two_and_target(text) else {
        return Err(AsmCause::Operand);
    };
    branch_to(cmp, rs1, rs2, target)
}

#[tactic(auto, unfolding(crate::specs::Statement::branch_zero))]
pub fn branch_zero<'a>(cmp: Cmp, text: &'a [u8]) -> Result<Meaning<'a>, AsmCause>
    ensures { Means result (branch_zero cmp text.now) }
{
    let Some((rs1, target)) = register_and_target(text) else {
        return Err(AsmCause::Operand);
    };
    branch_to(cmp, rs1, 0, target)
}

#[tactic(auto, unfolding(crate::specs::Statement::jalr))]
pub fn jalr<'a>(text: &'a [u8]) -> Result<Meaning<'a>, AsmCause>
    ensures { Means result (jalr text.now) }
{
    let Some((rd, (offset, rs1))) = register_and_memory(text) else {
        return Err(AsmCause::Operand);
    };
    let Some(imm) = signed_64(offset) else {
        return Err(AsmCause::Range);
    };
    Ok(Meaning::One(Instr::Jalr { rd, rs1, imm }))
}

#[tactic(auto, unfolding(crate::specs::Statement::load))]
pub fn load<'a>(kind: LoadKind, text: &'a [u8]) -> Result<Meaning<'a>, AsmCause>
    ensures { Means result (load kind text.now) }
{
    let Some((rd, (offset, rs1))) = register_and_memory(text) else {
        return Err(AsmCause::Operand);
    };
    let Some(imm) = signed_64(offset) else {
        return Err(AsmCause::Range);
    };
    Ok(Meaning::One(Instr::Load { kind, rd, rs1, imm }))
}

#[tactic(auto, unfolding(crate::specs::Statement::store))]
pub fn store<'a>(width: Width, text: &'a [u8]) -> Result<Meaning<'a>, AsmCause>
    ensures { Means result (store width text.now) }
{
    let Some((rs2, (offset, rs1))) = register_and_memory(text) else {
        return Err(AsmCause::Operand);
    };
    let Some(imm) = signed_64(offset) else {
        return Err(AsmCause::Range);
    };
    Ok(Meaning::One(Instr::Store {
        width,
        rs1,
        rs2,
        imm,
    }))
}

#[tactic(auto, unfolding(crate::specs::Statement::immediate))]
pub fn immediate<'a>(op: ImmOp, text: &'a [u8]) -> Result<Meaning<'a>, AsmCause>
    ensures { Means result (immediate op text.now) }
{
    let Some((rd, (rs1, number))) = two_and_number(text) else {
        return Err(AsmCause::Operand);
    };
    let Some(imm) = signed_64(number) else {
        return Err(AsmCause::Range);
    };
    Ok(Meaning::One(Instr::OpImm { op, rd, rs1, imm }))
}

#[tactic(auto, unfolding(crate::specs::Statement::operation))]
pub fn operation<'a>(op: AluOp, text: &'a [u8]) -> Result<Meaning<'a>, AsmCause>
    ensures { Means result (operation op text.now) }
{
    let Some((rd, (rs1, rs2))) = three_registers(text) else {
        return Err(AsmCause::Operand);
    };
    Ok(Meaning::One(Instr::Op { op, rd, rs1, rs2 }))
}

#[tactic(auto, unfolding(crate::specs::Statement::fence))]
pub fn fence<'a>(code: bool, text: &'a [u8]) -> Result<Meaning<'a>, AsmCause>
    ensures { Means result (fence code text.now) }
{
    let Some((rd, (rs1, number))) = two_and_number(text) else {
        return Err(AsmCause::Operand);
    };
    let Some(imm) = signed_64(number) else {
        return Err(AsmCause::Range);
    };
    Ok(Meaning::One(Instr::Fence { code, rd, rs1, imm }))
}

#[tactic(auto, unfolding(crate::specs::Statement::load_reserved))]
fn load_reserved<'a>(wide: bool, order: u8, text: &'a [u8]) -> Result<Meaning<'a>, AsmCause>
    ensures { Means result (load_reserved wide order text.now) }
{
    let Some((rd, rs1)) = register_and_address(text) else {
        return Err(AsmCause::Operand);
    };
    Ok(Meaning::One(Instr::LoadReserved {
        wide,
        order,
        rd,
        rs1,
    }))
}

/// An atomic operation with a second source.
#[tactic(auto, unfolding(crate::specs::Statement::atomic_storing))]
fn atomic_storing<'a>(
    atomic: Atomic,
    wide: bool,
    order: u8,
    text: &'a [u8],
) -> Result<Meaning<'a>, AsmCause>
    ensures { Means result (atomic_storing atomic wide order text.now) }
{
    let Some((rd, (rs2, rs1))) = two_and_address(text) else {
        return Err(AsmCause::Operand);
    };
    Ok(Meaning::One(match atomic {
        Atomic::LoadReserved => Instr::LoadReserved {
            wide,
            order,
            rd,
            rs1,
        },
        Atomic::StoreConditional => Instr::StoreConditional {
            wide,
            order,
            rd,
            rs1,
            rs2,
        },
        Atomic::Amo(op) => Instr::Amo {
            op,
            wide,
            order,
            rd,
            rs1,
            rs2,
        },
    }))
}

#[tactic(auto, unfolding(crate::specs::Statement::atomic_of))]
pub fn atomic_of<'a>(
    atomic: Atomic,
    wide: bool,
    order: u8,
    text: &'a [u8],
) -> Result<Meaning<'a>, AsmCause>
    ensures { Means result (atomic_of atomic wide order text.now) }
{
    match atomic {
        Atomic::LoadReserved => load_reserved(wide, order, text),
        Atomic::StoreConditional => atomic_storing(Atomic::StoreConditional, wide, order, text),
        Atomic::Amo(op) => atomic_storing(Atomic::Amo(op), wide, order, text),
    }
}

#[tactic(auto, unfolding(crate::specs::Statement::load_immediate))]
pub fn load_immediate<'a>(text: &'a [u8]) -> Result<Meaning<'a>, AsmCause>
    ensures { Means result (load_immediate text.now) }
{
    let Some((rd, number)) = register_and_number(text) else {
        return Err(AsmCause::Operand);
    };
    let Some(imm) = signed_64(number) else {
        return Err(AsmCause::Range);
    };
    immediate_into(rd, imm)
}

#[tactic(auto, unfolding(crate::specs::Statement::immediate_into))]
fn immediate_into<'a>(rd: u8, number: i64) -> Result<Meaning<'a>, AsmCause>
    ensures { Means result (immediate_into rd number) }
{
    if is_short(number) {
        return Ok(Meaning::One(Instr::OpImm {
            op: ImmOp::Addi,
            rd,
            rs1: 0,
            imm: number,
        }));
    }
    if !is_word(number) {
        return Err(AsmCause::Range);
    }
    let (high, low) = two_parts(number);
    Ok(Meaning::Two(
        Instr::Lui { rd, imm: high },
        Instr::OpImm {
            op: ImmOp::Addiw,
            rd,
            rs1: rd,
            imm: low,
        },
    ))
}

/// The immediates of `lui` and `addiw` for a number.
fn two_parts(number: i64) -> (i64, i64)
    requires low { neg_ℤ (pos (2 ^ 31)) ≤ℤ number }
    requires high { number <ℤ pos (2 ^ 31) }
    ensures high { result.0 ≡ wrapped (high_part number) }
    ensures low { result.1 ≡ low_part number }
{
    let low = low_part(number);
    (wrapped(number - low), low)
}

fn is_short(number: i64) -> bool
    ensures { result ≡ is_signed (2 ^ 11) number }
{
    -0x800 <= number && number < 0x800
}

fn is_word(number: i64) -> bool
    ensures value { result ≡ is_signed (2 ^ 31) number }
    ensures low { result ≡ true → neg_ℤ (pos (2 ^ 31)) ≤ℤ number }
    ensures high { result ≡ true → number <ℤ pos (2 ^ 31) }
{
    -0x8000_0000 <= number && number < 0x8000_0000
}

/// The immediate of `lui` for the upper part of a number.
fn wrapped(part: i64) -> i64
    requires { neg_ℤ (pos (2 ^ 40)) ≤ℤ part }
    ensures { result ≡ wrapped part }
{
    if part < 0x8000_0000 {
        part
    } else {
        part - 0x1_0000_0000
    }
}

#[tactic(auto, unfolding(crate::specs::Statement::load_address))]
pub fn load_address<'a>(text: &'a [u8]) -> Result<Meaning<'a>, AsmCause>
    ensures { Means result (load_address text.now) }
{
    let Some((rd, name)) = register_and_label(text) else {
        return Err(AsmCause::Operand);
    };
    Ok(Meaning::Address(rd, name))
}

#[tactic(auto, unfolding(crate::specs::Statement::copy))]
pub fn copy<'a>(text: &'a [u8]) -> Result<Meaning<'a>, AsmCause>
    ensures { Means result (copy text.now) }
{
    let Some((rd, rs1)) = two_registers(text) else {
        return Err(AsmCause::Operand);
    };
    Ok(Meaning::One(Instr::OpImm {
        op: ImmOp::Addi,
        rd,
        rs1,
        imm: 0,
    }))
}

#[tactic(auto, unfolding(crate::specs::Statement::jump))]
pub fn jump<'a>(rd: u8, text: &'a [u8]) -> Result<Meaning<'a>, AsmCause>
    ensures { Means result (jump rd text.now) }
{
    let Some(name) = label(text) else {
        return Err(AsmCause::Operand);
    };
    Ok(Meaning::Jump(rd, name))
}
