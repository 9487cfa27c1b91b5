//! What a statement means, by its form.

ghost use Rattle.isa_asm.specs.Seen.{Means, meaning_seen};
ghost use Rattle.isa_asm.specs.Statement.{alone, body_meaning, kind_meaning};

use crate::cause::AsmCause;
use crate::directives::{ascii, doubleword, numbers, space};
use crate::forms::{
    atomic_of, auipc, branch, branch_zero, copy, fence, immediate, jal, jalr, jump, load,
    load_address, load_immediate, lui, operation, store,
};
use crate::kind::{Kind, kind_named};
use crate::lexing::{is_all_blank, split_word};
use isa_decode::{Cmp, ImmOp, Instr, Width};

/// What a statement means, before the places of labels are known. Numbers of instructions may be out of their ranges.
#[derive(Clone, Copy)]
pub enum Meaning<'a> {
    Nothing,
    /// A label.
    Named(&'a [u8]),
    /// What follows stands in the data, or in the text.
    Section(bool),
    One(Instr),
    Two(Instr, Instr),
    /// `jal` to a label, which keeps the place behind it in a register.
    Jump(u8, &'a [u8]),
    Conditional(Cmp, u8, u8, &'a [u8]),
    /// The address of a label into a register.
    Address(u8, &'a [u8]),
    Number(Width, u64),
    /// The address of a label, as 8 bytes.
    Pointer(&'a [u8]),
    Zeros(u32),
    /// A text, from behind its first quotation mark.
    Quoted(&'a [u8]),
}

/// What the text of a statement means that has no label: an instruction, a pseudo-instruction, a directive, or nothing.
#[tactic(auto, unfolding(crate::specs::Statement::body_meaning))]
pub fn body_meaning(text: &[u8]) -> Result<Meaning<'_>, AsmCause>
    ensures { Means result (body_meaning text.now) }
{
    if is_all_blank(text) {
        return Ok(Meaning::Nothing);
    }
    let (name, rest) = split_word(text);
    match kind_named(name) {
        Some(kind) => kind_meaning(kind, rest),
        None => Err(AsmCause::Word),
    }
}

#[tactic(auto, unfolding(crate::specs::Statement::kind_meaning))]
fn kind_meaning<'a>(kind: Kind, text: &'a [u8]) -> Result<Meaning<'a>, AsmCause>
    ensures { Means result (kind_meaning kind text.now) }
{
    match kind {
        Kind::Lui => lui(text),
        Kind::Auipc => auipc(text),
        Kind::Jal => jal(text),
        Kind::Jalr => jalr(text),
        Kind::Branch(cmp) => branch(cmp, text),
        Kind::Load(kind) => load(kind, text),
        Kind::Store(width) => store(width, text),
        Kind::Immediate(op) => immediate(op, text),
        Kind::Operation(op) => operation(op, text),
        Kind::Fence(code) => fence(code, text),
        Kind::Ecall => alone(Meaning::One(Instr::Ecall), text),
        Kind::Ebreak => alone(Meaning::One(Instr::Ebreak), text),
        Kind::Atomic(atomic, wide, order) => atomic_of(atomic, wide, order, text),
        Kind::LoadImmediate => load_immediate(text),
        Kind::LoadAddress => load_address(text),
        Kind::Move => copy(text),
        Kind::Nop => alone(Meaning::One(NOP), text),
        Kind::Return => alone(Meaning::One(RETURN), text),
        Kind::Jump => jump(0, text),
        Kind::Call => jump(1, text),
        Kind::BranchZero(cmp) => branch_zero(cmp, text),
        Kind::Text => alone(Meaning::Section(false), text),
        Kind::Data => alone(Meaning::Section(true), text),
        Kind::Number(width) => numbers(width, text),
        Kind::Doubleword => doubleword(text),
        Kind::Space => space(text),
        Kind::Ascii => ascii(text),
    }
}

const NOP: Instr = Instr::OpImm {
    op: ImmOp::Addi,
    rd: 0,
    rs1: 0,
    imm: 0,
};

const RETURN: Instr = Instr::Jalr {
    rd: 0,
    rs1: 1,
    imm: 0,
};

/// The meaning of a statement without operands.
#[tactic(auto, unfolding(crate::specs::Statement::alone))]
fn alone<'a>(meaning: Meaning<'a>, text: &[u8]) -> Result<Meaning<'a>, AsmCause>
    ensures { Means result (alone (meaning_seen meaning.entry) text.now) }
{
    if is_all_blank(text) {
        Ok(meaning)
    } else {
        Err(AsmCause::Operand)
    }
}
