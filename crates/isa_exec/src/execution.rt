ghost use Rattle.std.specs.Prelude.{◌≡◌, ◌<◌, ◌≤◌, ◌⊎◌, true, false};
ghost use Rattle.isa_decode.specs.Ranges.{InRange};
ghost use Rattle.isa_exec.specs.Execution.{effect_of, even, is_alone, is_operation, is_transfer, linked, put, regs_after};
ghost use Rattle.isa_exec.specs.Execution.{address as address_of};

use crate::arithmetic::{calculate, calculate_immediate, holds};
use crate::effect::Effect;
use crate::registers::Regs;
use isa_decode::{AluOp, Cmp, ImmOp, Instr};

/// Makes the instruction, of `size` bytes (2 or 4), as far as registers go: after `Next` and `Jump` the registers are
/// final, otherwise they are unchanged and the effect says what is asked for. It takes no memory, and constant time.
///
/// References: the RISC-V unprivileged manual, "RV32I", "RV64I", "M", "A" and "Zifencei".
#[inline]
pub fn exec(instr: &Instr, size: u64, regs: &mut Regs) -> Effect
    requires range { InRange instr.now }
    requires size { (size ≡ 2) ⊎ (size ≡ 4) }
    ensures effect { result ≡ effect_of instr.now regs.old }
    ensures regs { regs.new ≡ regs_after instr.now size regs.old }
{
    let effect = effect_of(instr, regs);
    let _ = exec_alone(instr, size, regs);
    effect
}

/// What the instruction asks for.
#[inline]
fn effect_of(instr: &Instr, regs: &Regs) -> Effect
    requires { InRange instr.now }
    ensures { result ≡ effect_of instr.now regs.now }
{
    match *instr {
        Instr::Lui { .. } => Effect::Next,
        Instr::Auipc { .. } => Effect::Next,
        Instr::Jal { .. } => Effect::Jump,
        Instr::Jalr { .. } => Effect::Jump,
        Instr::Branch { cmp, rs1, rs2, .. } => {
            if holds(cmp, regs.register(rs1), regs.register(rs2)) {
                Effect::Jump
            } else {
                Effect::Next
            }
        }
        Instr::Load { kind, rd, rs1, imm } => Effect::Load {
            rd,
            kind,
            at: address(regs, rs1, imm),
        },
        Instr::Store {
            width,
            rs1,
            rs2,
            imm,
        } => {
            Effect::Store {
                width,
                at: address(regs, rs1, imm),
                value: regs.register(rs2),
            }
        }
        Instr::OpImm { .. } => Effect::Next,
        Instr::Op { .. } => Effect::Next,
        Instr::LoadReserved { wide, rd, rs1, .. } => Effect::Reserve {
            rd,
            wide,
            at: regs.register(rs1),
        },
        Instr::StoreConditional {
            wide,
            rd,
            rs1,
            rs2,
            ..
        } => {
            Effect::Conditional {
                rd,
                wide,
                at: regs.register(rs1),
                value: regs.register(rs2),
            }
        }
        Instr::Amo {
            op,
            wide,
            rd,
            rs1,
            rs2,
            ..
        } => {
            Effect::Amo {
                rd,
                op,
                wide,
                at: regs.register(rs1),
                value: regs.register(rs2),
            }
        }
        Instr::Fence { .. } => Effect::Next,
        Instr::Ecall => Effect::Call,
        Instr::Ebreak => Effect::Break,
    }
}

/// Makes the instruction, of `size` bytes (2 or 4), where it is an operation on registers or on a register and an immediate,
/// and tells whether it is. Else the registers stay. It takes no memory, and constant time.
///
/// References: the RISC-V unprivileged manual, "Integer Computational Instructions", and "M".
#[inline(always)]
pub fn exec_operation(instr: &Instr, size: u64, regs: &mut Regs) -> bool
    requires range { InRange instr.now }
    requires size { (size ≡ 2) ⊎ (size ≡ 4) }
    ensures operation { result ≡ is_operation instr.now }
    ensures made { result ≡ true → regs.new ≡ regs_after instr.now size regs.old }
    ensures stays { result ≡ false → regs.new ≡ regs.old }
{
    if let Instr::OpImm { op, rd, rs1, imm } = *instr {
        return operate_on_immediate(op, rd, rs1, imm, size, regs);
    }
    if let Instr::Op { op, rd, rs1, rs2 } = *instr {
        return operate(op, rd, rs1, rs2, size, regs);
    }
    false
}

/// Makes the instruction, of `size` bytes (2 or 4), where it is a branch or a jump, and tells whether it is. Else the
/// registers stay. It takes no memory, and constant time.
///
/// References: the RISC-V unprivileged manual, "Control Transfer Instructions".
#[inline(always)]
pub fn exec_transfer(instr: &Instr, size: u64, regs: &mut Regs) -> bool
    requires range { InRange instr.now }
    requires size { (size ≡ 2) ⊎ (size ≡ 4) }
    ensures transfer { result ≡ is_transfer instr.now }
    ensures made { result ≡ true → regs.new ≡ regs_after instr.now size regs.old }
    ensures stays { result ≡ false → regs.new ≡ regs.old }
{
    if let Instr::Branch { cmp, rs1, rs2, imm } = *instr {
        return branch(cmp, rs1, rs2, imm, size, regs);
    }
    if let Instr::Jal { rd, imm } = *instr {
        return jump(rd, imm, size, regs);
    }
    if let Instr::Jalr { rd, rs1, imm } = *instr {
        return jump_to_register(rd, rs1, imm, size, regs);
    }
    false
}

/// Makes the instruction, of `size` bytes (2 or 4), where it asks for nothing but registers, and tells whether it does.
/// Else the registers stay. It takes no memory, and constant time.
///
/// References: the RISC-V unprivileged manual, "RV32I", "RV64I" and "M".
#[inline(never)]
#[tactic(auto, unfolding(crate::specs::Execution::regs_after))]
pub fn exec_alone(instr: &Instr, size: u64, regs: &mut Regs) -> bool
    requires range { InRange instr.now }
    requires size { (size ≡ 2) ⊎ (size ≡ 4) }
    ensures alone { result ≡ is_alone instr.now }
    ensures regs { regs.new ≡ regs_after instr.now size regs.old }
{
    match *instr {
        Instr::Lui { rd, imm } => {
            put(regs, rd, imm.cast_unsigned(), size);
            true
        }
        Instr::Auipc { rd, imm } => {
            let value = regs.behind(imm.cast_unsigned());
            put(regs, rd, value, size);
            true
        }
        Instr::Jal { rd, imm } => jump(rd, imm, size, regs),
        Instr::Jalr { rd, rs1, imm } => jump_to_register(rd, rs1, imm, size, regs),
        Instr::Branch { cmp, rs1, rs2, imm } => branch(cmp, rs1, rs2, imm, size, regs),
        Instr::OpImm { op, rd, rs1, imm } => operate_on_immediate(op, rd, rs1, imm, size, regs),
        Instr::Op { op, rd, rs1, rs2 } => operate(op, rd, rs1, rs2, size, regs),
        Instr::Fence { .. } => {
            let next = regs.behind(size);
            regs.go_on_at(next);
            true
        }
        Instr::Load { .. } => false,
        Instr::Store { .. } => false,
        Instr::LoadReserved { .. } => false,
        Instr::StoreConditional { .. } => false,
        Instr::Amo { .. } => false,
        Instr::Ecall => false,
        Instr::Ebreak => false,
    }
}

#[inline(always)]
#[tactic(auto, unfolding(crate::specs::Execution::regs_after))]
fn operate(op: AluOp, rd: u8, rs1: u8, rs2: u8, size: u64, regs: &mut Regs) -> bool
    requires rd { rd < 32 }
    requires rs1 { rs1 < 32 }
    requires rs2 { rs2 < 32 }
    ensures made { result ≡ true }
    ensures regs { regs.new ≡ regs_after (Instr.Op op rd rs1 rs2) size regs.old }
{
    let value = calculate(op, regs.register(rs1), regs.register(rs2));
    put(regs, rd, value, size);
    true
}

#[inline(always)]
#[tactic(auto, unfolding(crate::specs::Execution::regs_after))]
fn operate_on_immediate(op: ImmOp, rd: u8, rs1: u8, imm: i64, size: u64, regs: &mut Regs) -> bool
    requires rd { rd < 32 }
    requires rs1 { rs1 < 32 }
    ensures made { result ≡ true }
    ensures regs { regs.new ≡ regs_after (Instr.OpImm op rd rs1 imm) size regs.old }
{
    let value = calculate_immediate(op, regs.register(rs1), imm.cast_unsigned());
    put(regs, rd, value, size);
    true
}

#[inline(always)]
#[tactic(auto, unfolding(crate::specs::Execution::regs_after))]
fn branch(cmp: Cmp, rs1: u8, rs2: u8, imm: i64, size: u64, regs: &mut Regs) -> bool
    requires rs1 { rs1 < 32 }
    requires rs2 { rs2 < 32 }
    ensures made { result ≡ true }
    ensures regs { regs.new ≡ regs_after (Instr.Branch cmp rs1 rs2 imm) size regs.old }
{
    let taken = holds(cmp, regs.register(rs1), regs.register(rs2));
    let target = regs.behind(if taken { imm.cast_unsigned() } else { size });
    regs.go_on_at(target);
    true
}

#[inline(always)]
#[tactic(auto, unfolding(crate::specs::Execution::regs_after))]
fn jump(rd: u8, imm: i64, size: u64, regs: &mut Regs) -> bool
    requires { rd < 32 }
    ensures made { result ≡ true }
    ensures regs { regs.new ≡ regs_after (Instr.Jal rd imm) size regs.old }
{
    let target = regs.behind(imm.cast_unsigned());
    link(regs, rd, target, size);
    true
}

#[inline(always)]
#[tactic(auto, unfolding(crate::specs::Execution::regs_after))]
fn jump_to_register(rd: u8, rs1: u8, imm: i64, size: u64, regs: &mut Regs) -> bool
    requires rd { rd < 32 }
    requires rs1 { rs1 < 32 }
    ensures made { result ≡ true }
    ensures regs { regs.new ≡ regs_after (Instr.Jalr rd rs1 imm) size regs.old }
{
    let target = address(regs, rs1, imm);
    link(regs, rd, target - target % 2, size);
    true
}

/// The address that a register and an offset give, modulo 2^64.
#[inline]
pub fn address(regs: &Regs, rs1: u8, imm: i64) -> u64
    requires { rs1 < 32 }
    ensures { result ≡ address_of regs.now rs1 imm }
{
    regs.register(rs1).wrapping_add(imm.cast_unsigned())
}

/// The value goes into `rd`, and the program goes on behind the instruction.
#[inline]
#[tactic(auto, unfolding(crate::specs::Registers::with_register))]
fn put(regs: &mut Regs, rd: u8, value: u64, size: u64)
    requires { rd < 32 }
    ensures { regs.new ≡ put rd value size regs.old }
{
    let next = regs.behind(size);
    regs.set_register(rd, value);
    regs.go_on_at(next);
}

/// The address behind the instruction goes into `rd`, and the program goes on at the target.
#[inline]
fn link(regs: &mut Regs, rd: u8, target: u64, size: u64)
    requires { rd < 32 }
    ensures { regs.new ≡ linked rd target size regs.old }
{
    let next = regs.behind(size);
    regs.set_register(rd, next);
    regs.go_on_at(target);
}
