use super::*;
use isa_decode::{AluOp, AmoOp, Cmp, ImmOp, Instr, LoadKind, Width, is_in_range};
use std::process::Abort;

// the least and the largest signed number, and some below 0
const LEAST: u64 = 0x8000_0000_0000_0000;

const LARGEST: u64 = 0x7FFF_FFFF_FFFF_FFFF;

const ONES: u64 = 0xFFFF_FFFF_FFFF_FFFF;

const MINUS_2: u64 = 0xFFFF_FFFF_FFFF_FFFE;

const MINUS_7: u64 = 0xFFFF_FFFF_FFFF_FFF9;

// all digits, and a word below 0 with other bits above it
const UP: u64 = 0x0123_4567_89AB_CDEF;

const DOWN: u64 = 0xFEDC_BA98_7654_3210;

const MIXED: u64 = 0xDEAD_BEEF_89AB_CDEF;

/// Registers whose x10 is `a` and x11 is `b`. Each other one holds 0.
fn holding(pc: u64, a: u64, b: u64) -> Regs {
    let mut regs = Regs::starting_at(pc);
    regs.set_register(10, a);
    regs.set_register(11, b);
    regs
}

/// Asserts what the instruction asks for, and each of the registers after it.
fn assert_exec(
    rt: &impl Abort,
    instr: Instr,
    size: u64,
    before: Regs,
    effect: Effect,
    after: Regs,
) {
    assert!(rt; is_in_range(&instr), "{instr:?}");
    assert!(rt; size == 2 || size == 4, "{instr:?}");
    let mut regs = before;
    assert_eq!(rt; exec(&instr, size, &mut regs), effect, "{instr:?}");
    assert_eq!(rt; regs.pc(), after.pc(), "pc of {instr:?}");
    for number in 0..32 {
        assert_eq!(rt; regs.register(number), after.register(number), "{instr:?}");
    }
}

/// Asserts that an instruction that writes x12 gives the value where x10 is `a` and x11 is `b`.
fn assert_gives(rt: &impl Abort, instr: Instr, a: u64, b: u64, wanted: u64) {
    let before = holding(0x1_0000, a, b);
    let mut after = holding(0x1_0004, a, b);
    after.set_register(12, wanted);
    assert_exec(rt, instr, 4, before, Effect::Next, after);
}

fn lui(rd: u8, imm: i64) -> Instr {
    Instr::Lui { rd, imm }
}

fn auipc(rd: u8, imm: i64) -> Instr {
    Instr::Auipc { rd, imm }
}

fn jal(rd: u8, imm: i64) -> Instr {
    Instr::Jal { rd, imm }
}

fn jalr(rd: u8, rs1: u8, imm: i64) -> Instr {
    Instr::Jalr { rd, rs1, imm }
}

fn branch(cmp: Cmp, rs1: u8, rs2: u8, imm: i64) -> Instr {
    Instr::Branch { cmp, rs1, rs2, imm }
}

fn by_immediate(op: ImmOp, rd: u8, rs1: u8, imm: i64) -> Instr {
    Instr::OpImm { op, rd, rs1, imm }
}

fn by_register(op: AluOp, rd: u8, rs1: u8, rs2: u8) -> Instr {
    Instr::Op { op, rd, rs1, rs2 }
}

fn fence(code: bool, rd: u8, rs1: u8, imm: i64) -> Instr {
    Instr::Fence { code, rd, rs1, imm }
}

#[test]
fn sums_comparisons_and_bits(rt: HostRuntime) {
    let table = [
        (AluOp::Add, LARGEST, 1, LEAST),
        (AluOp::Add, 1, ONES, 0),
        (AluOp::Add, LEAST, ONES, LARGEST),
        (AluOp::Add, LEAST, LARGEST, ONES),
        (AluOp::Add, LARGEST, LEAST, ONES),
        (AluOp::Add, UP, DOWN, ONES),
        (AluOp::Sub, LARGEST, 1, 0x7FFF_FFFF_FFFF_FFFE),
        (AluOp::Sub, 1, ONES, 2),
        (AluOp::Sub, LEAST, ONES, 0x8000_0000_0000_0001),
        (AluOp::Sub, LEAST, LARGEST, 1),
        (AluOp::Sub, LARGEST, LEAST, ONES),
        (AluOp::Sub, UP, DOWN, 0x0246_8ACF_1357_9BDF),
        (AluOp::Slt, LARGEST, 1, 0),
        (AluOp::Slt, 1, ONES, 0),
        (AluOp::Slt, LEAST, ONES, 1),
        (AluOp::Slt, LEAST, LARGEST, 1),
        (AluOp::Slt, LARGEST, LEAST, 0),
        (AluOp::Slt, UP, DOWN, 0),
        (AluOp::Sltu, LARGEST, 1, 0),
        (AluOp::Sltu, 1, ONES, 1),
        (AluOp::Sltu, LEAST, ONES, 1),
        (AluOp::Sltu, LEAST, LARGEST, 0),
        (AluOp::Sltu, LARGEST, LEAST, 1),
        (AluOp::Sltu, UP, DOWN, 1),
        (AluOp::Xor, LARGEST, 1, 0x7FFF_FFFF_FFFF_FFFE),
        (AluOp::Xor, 1, ONES, MINUS_2),
        (AluOp::Xor, LEAST, ONES, LARGEST),
        (AluOp::Xor, LEAST, LARGEST, ONES),
        (AluOp::Xor, LARGEST, LEAST, ONES),
        (AluOp::Xor, UP, DOWN, ONES),
        (AluOp::Or, LARGEST, 1, LARGEST),
        (AluOp::Or, 1, ONES, ONES),
        (AluOp::Or, LEAST, ONES, ONES),
        (AluOp::Or, LEAST, LARGEST, ONES),
        (AluOp::Or, LARGEST, LEAST, ONES),
        (AluOp::Or, UP, DOWN, ONES),
        (AluOp::And, LARGEST, 1, 1),
        (AluOp::And, 1, ONES, 1),
        (AluOp::And, LEAST, ONES, LEAST),
        (AluOp::And, LEAST, LARGEST, 0),
        (AluOp::And, LARGEST, LEAST, 0),
        (AluOp::And, UP, DOWN, 0),
    ];
    for (op, a, b, wanted) in table {
        assert_gives(&rt, by_register(op, 12, 10, 11), a, b, wanted);
    }
}

#[test]
fn shifts_take_six_bits_of_the_amount(rt: HostRuntime) {
    let table = [
        (AluOp::Sll, 0xFEDC_BA98_7654_3211, 0, 0xFEDC_BA98_7654_3211),
        (AluOp::Sll, 0xFEDC_BA98_7654_3211, 31, 0x3B2A_1908_8000_0000),
        (AluOp::Sll, 0xFEDC_BA98_7654_3211, 32, 0x7654_3211_0000_0000),
        (AluOp::Sll, 0xFEDC_BA98_7654_3211, 63, LEAST),
        (AluOp::Sll, 0xFEDC_BA98_7654_3211, 64, 0xFEDC_BA98_7654_3211),
        (AluOp::Sll, 0xFEDC_BA98_7654_3211, ONES, LEAST),
        (AluOp::Sll, UP, 4, 0x1234_5678_9ABC_DEF0),
        (AluOp::Srl, 0xFEDC_BA98_7654_3211, 0, 0xFEDC_BA98_7654_3211),
        (AluOp::Srl, 0xFEDC_BA98_7654_3211, 31, 0x0000_0001_FDB9_7530),
        (AluOp::Srl, 0xFEDC_BA98_7654_3211, 32, 0xFEDC_BA98),
        (AluOp::Srl, 0xFEDC_BA98_7654_3211, 63, 1),
        (AluOp::Srl, 0xFEDC_BA98_7654_3211, 64, 0xFEDC_BA98_7654_3211),
        (AluOp::Srl, 0xFEDC_BA98_7654_3211, ONES, 1),
        (AluOp::Srl, UP, 4, 0x0012_3456_789A_BCDE),
        (AluOp::Sra, 0xFEDC_BA98_7654_3211, 0, 0xFEDC_BA98_7654_3211),
        (AluOp::Sra, 0xFEDC_BA98_7654_3211, 31, 0xFFFF_FFFF_FDB9_7530),
        (AluOp::Sra, 0xFEDC_BA98_7654_3211, 32, 0xFFFF_FFFF_FEDC_BA98),
        (AluOp::Sra, 0xFEDC_BA98_7654_3211, 63, ONES),
        (AluOp::Sra, 0xFEDC_BA98_7654_3211, 64, 0xFEDC_BA98_7654_3211),
        (AluOp::Sra, 0xFEDC_BA98_7654_3211, ONES, ONES),
        (AluOp::Sra, UP, 4, 0x0012_3456_789A_BCDE),
    ];
    for (op, a, b, wanted) in table {
        assert_gives(&rt, by_register(op, 12, 10, 11), a, b, wanted);
    }
}

#[test]
fn shifts_of_words_take_five_bits_of_the_amount(rt: HostRuntime) {
    let table = [
        (AluOp::Sllw, MIXED, 0, 0xFFFF_FFFF_89AB_CDEF),
        (AluOp::Sllw, MIXED, 1, 0x1357_9BDE),
        (AluOp::Sllw, MIXED, 31, 0xFFFF_FFFF_8000_0000),
        (AluOp::Sllw, MIXED, 32, 0xFFFF_FFFF_89AB_CDEF),
        (AluOp::Sllw, MIXED, 63, 0xFFFF_FFFF_8000_0000),
        (AluOp::Sllw, MIXED, 64, 0xFFFF_FFFF_89AB_CDEF),
        (AluOp::Sllw, MIXED, ONES, 0xFFFF_FFFF_8000_0000),
        (AluOp::Sllw, 0xDEAD_BEEF_7654_3211, 3, 0xFFFF_FFFF_B2A1_9088),
        (AluOp::Srlw, MIXED, 0, 0xFFFF_FFFF_89AB_CDEF),
        (AluOp::Srlw, MIXED, 1, 0x44D5_E6F7),
        (AluOp::Srlw, MIXED, 31, 1),
        (AluOp::Srlw, MIXED, 32, 0xFFFF_FFFF_89AB_CDEF),
        (AluOp::Srlw, MIXED, 63, 1),
        (AluOp::Srlw, MIXED, 64, 0xFFFF_FFFF_89AB_CDEF),
        (AluOp::Srlw, MIXED, ONES, 1),
        (AluOp::Srlw, 0xDEAD_BEEF_7654_3211, 3, 0x0ECA_8642),
        (AluOp::Sraw, MIXED, 0, 0xFFFF_FFFF_89AB_CDEF),
        (AluOp::Sraw, MIXED, 1, 0xFFFF_FFFF_C4D5_E6F7),
        (AluOp::Sraw, MIXED, 31, ONES),
        (AluOp::Sraw, MIXED, 32, 0xFFFF_FFFF_89AB_CDEF),
        (AluOp::Sraw, MIXED, 63, ONES),
        (AluOp::Sraw, MIXED, 64, 0xFFFF_FFFF_89AB_CDEF),
        (AluOp::Sraw, MIXED, ONES, ONES),
        (AluOp::Sraw, 0xDEAD_BEEF_7654_3211, 3, 0x0ECA_8642),
    ];
    for (op, a, b, wanted) in table {
        assert_gives(&rt, by_register(op, 12, 10, 11), a, b, wanted);
    }
}

#[test]
fn products_and_their_upper_halves(rt: HostRuntime) {
    let table = [
        (AluOp::Mul, LEAST, LEAST, 0),
        (AluOp::Mul, ONES, ONES, 1),
        (AluOp::Mul, LARGEST, LARGEST, 1),
        (AluOp::Mul, LEAST, ONES, LEAST),
        (AluOp::Mul, ONES, LEAST, LEAST),
        (AluOp::Mul, 1, ONES, ONES),
        (AluOp::Mul, UP, DOWN, 0x2236_D88F_E561_8CF0),
        (AluOp::Mulh, LEAST, LEAST, 0x4000_0000_0000_0000),
        (AluOp::Mulh, ONES, ONES, 0),
        (AluOp::Mulh, LARGEST, LARGEST, 0x3FFF_FFFF_FFFF_FFFF),
        (AluOp::Mulh, LEAST, ONES, 0),
        (AluOp::Mulh, ONES, LEAST, 0),
        (AluOp::Mulh, 1, ONES, ONES),
        (AluOp::Mulh, UP, DOWN, 0xFFFE_B499_23CC_0953),
        (AluOp::Mulhsu, LEAST, LEAST, 0xC000_0000_0000_0000),
        (AluOp::Mulhsu, ONES, ONES, ONES),
        (AluOp::Mulhsu, LARGEST, LARGEST, 0x3FFF_FFFF_FFFF_FFFF),
        (AluOp::Mulhsu, LEAST, ONES, LEAST),
        (AluOp::Mulhsu, ONES, LEAST, ONES),
        (AluOp::Mulhsu, 1, ONES, 0),
        (AluOp::Mulhsu, UP, DOWN, 0x0121_FA00_AD77_D742),
        (AluOp::Mulhu, LEAST, LEAST, 0x4000_0000_0000_0000),
        (AluOp::Mulhu, ONES, ONES, MINUS_2),
        (AluOp::Mulhu, LARGEST, LARGEST, 0x3FFF_FFFF_FFFF_FFFF),
        (AluOp::Mulhu, LEAST, ONES, LARGEST),
        (AluOp::Mulhu, ONES, LEAST, LARGEST),
        (AluOp::Mulhu, 1, ONES, 0),
        (AluOp::Mulhu, UP, DOWN, 0x0121_FA00_AD77_D742),
    ];
    for (op, a, b, wanted) in table {
        assert_gives(&rt, by_register(op, 12, 10, 11), a, b, wanted);
    }
}

#[test]
fn quotients_and_remainders(rt: HostRuntime) {
    let table = [
        (AluOp::Div, 7, 0, ONES),
        (AluOp::Div, LEAST, 0, ONES),
        (AluOp::Div, LEAST, ONES, LEAST),
        (AluOp::Div, MINUS_7, 2, 0xFFFF_FFFF_FFFF_FFFD),
        (AluOp::Div, 7, MINUS_2, 0xFFFF_FFFF_FFFF_FFFD),
        (AluOp::Div, MINUS_7, MINUS_2, 3),
        (AluOp::Div, LEAST, LARGEST, ONES),
        (AluOp::Div, UP, 0x1234, 0x0000_1000_4C01_6906),
        (AluOp::Divu, 7, 0, ONES),
        (AluOp::Divu, LEAST, 0, ONES),
        (AluOp::Divu, LEAST, ONES, 0),
        (AluOp::Divu, MINUS_7, 2, 0x7FFF_FFFF_FFFF_FFFC),
        (AluOp::Divu, 7, MINUS_2, 0),
        (AluOp::Divu, MINUS_7, MINUS_2, 0),
        (AluOp::Divu, LEAST, LARGEST, 1),
        (AluOp::Divu, UP, 0x1234, 0x0000_1000_4C01_6906),
        (AluOp::Rem, 7, 0, 7),
        (AluOp::Rem, LEAST, 0, LEAST),
        (AluOp::Rem, LEAST, ONES, 0),
        (AluOp::Rem, MINUS_7, 2, ONES),
        (AluOp::Rem, 7, MINUS_2, 1),
        (AluOp::Rem, MINUS_7, MINUS_2, ONES),
        (AluOp::Rem, LEAST, LARGEST, ONES),
        (AluOp::Rem, UP, 0x1234, 3255),
        (AluOp::Remu, 7, 0, 7),
        (AluOp::Remu, LEAST, 0, LEAST),
        (AluOp::Remu, LEAST, ONES, LEAST),
        (AluOp::Remu, MINUS_7, 2, 1),
        (AluOp::Remu, 7, MINUS_2, 7),
        (AluOp::Remu, MINUS_7, MINUS_2, MINUS_7),
        (AluOp::Remu, LEAST, LARGEST, 1),
        (AluOp::Remu, UP, 0x1234, 3255),
    ];
    for (op, a, b, wanted) in table {
        assert_gives(&rt, by_register(op, 12, 10, 11), a, b, wanted);
    }
}

#[test]
fn sums_and_products_of_words_are_sign_extended(rt: HostRuntime) {
    let table = [
        (AluOp::Addw, 0x7FFF_FFFF, 1, 0xFFFF_FFFF_8000_0000),
        (
            AluOp::Addw,
            0xDEAD_BEEF_7FFF_FFFF,
            0xCAFE_BABE_0000_0001,
            0xFFFF_FFFF_8000_0000,
        ),
        (AluOp::Addw, 0x8000_0000, ONES, 0x7FFF_FFFF),
        (AluOp::Addw, ONES, ONES, MINUS_2),
        (AluOp::Addw, 0xDEAD_BEEF_0000_0000, 1, 1),
        (
            AluOp::Addw,
            0xDEAD_BEEF_1234_5678,
            0xCAFE_BABE_9ABC_DEF0,
            0xFFFF_FFFF_ACF1_3568,
        ),
        (AluOp::Subw, 0x7FFF_FFFF, 1, 0x7FFF_FFFE),
        (
            AluOp::Subw,
            0xDEAD_BEEF_7FFF_FFFF,
            0xCAFE_BABE_0000_0001,
            0x7FFF_FFFE,
        ),
        (AluOp::Subw, 0x8000_0000, ONES, 0xFFFF_FFFF_8000_0001),
        (AluOp::Subw, ONES, ONES, 0),
        (AluOp::Subw, 0xDEAD_BEEF_0000_0000, 1, ONES),
        (
            AluOp::Subw,
            0xDEAD_BEEF_1234_5678,
            0xCAFE_BABE_9ABC_DEF0,
            0x7777_7788,
        ),
        (AluOp::Mulw, 0x7FFF_FFFF, 1, 0x7FFF_FFFF),
        (
            AluOp::Mulw,
            0xDEAD_BEEF_7FFF_FFFF,
            0xCAFE_BABE_0000_0001,
            0x7FFF_FFFF,
        ),
        (AluOp::Mulw, 0x8000_0000, ONES, 0xFFFF_FFFF_8000_0000),
        (AluOp::Mulw, ONES, ONES, 1),
        (AluOp::Mulw, 0xDEAD_BEEF_0000_0000, 1, 0),
        (
            AluOp::Mulw,
            0xDEAD_BEEF_1234_5678,
            0xCAFE_BABE_9ABC_DEF0,
            0x242D_2080,
        ),
    ];
    for (op, a, b, wanted) in table {
        assert_gives(&rt, by_register(op, 12, 10, 11), a, b, wanted);
    }
}

#[test]
fn quotients_and_remainders_of_words(rt: HostRuntime) {
    let table = [
        (AluOp::Divw, 5, 0, ONES),
        (AluOp::Divw, 0x8000_0000, 0, ONES),
        (
            AluOp::Divw,
            0xDEAD_BEEF_8765_4321,
            0xCAFE_BABE_0000_0000,
            ONES,
        ),
        (AluOp::Divw, 0x8000_0000, 0xFFFF_FFFF, 0xFFFF_FFFF_8000_0000),
        (
            AluOp::Divw,
            0xDEAD_BEEF_8000_0000,
            ONES,
            0xFFFF_FFFF_8000_0000,
        ),
        (AluOp::Divw, MINUS_7, 2, 0xFFFF_FFFF_FFFF_FFFD),
        (
            AluOp::Divw,
            0xDEAD_BEEF_0000_0007,
            0xCAFE_BABE_FFFF_FFFE,
            0xFFFF_FFFF_FFFF_FFFD,
        ),
        (
            AluOp::Divw,
            0xDEAD_BEEF_FFFF_FFFF,
            0xCAFE_BABE_0000_0001,
            ONES,
        ),
        (AluOp::Divuw, 5, 0, ONES),
        (AluOp::Divuw, 0x8000_0000, 0, ONES),
        (
            AluOp::Divuw,
            0xDEAD_BEEF_8765_4321,
            0xCAFE_BABE_0000_0000,
            ONES,
        ),
        (AluOp::Divuw, 0x8000_0000, 0xFFFF_FFFF, 0),
        (AluOp::Divuw, 0xDEAD_BEEF_8000_0000, ONES, 0),
        (AluOp::Divuw, MINUS_7, 2, 0x7FFF_FFFC),
        (
            AluOp::Divuw,
            0xDEAD_BEEF_0000_0007,
            0xCAFE_BABE_FFFF_FFFE,
            0,
        ),
        (
            AluOp::Divuw,
            0xDEAD_BEEF_FFFF_FFFF,
            0xCAFE_BABE_0000_0001,
            ONES,
        ),
        (AluOp::Remw, 5, 0, 5),
        (AluOp::Remw, 0x8000_0000, 0, 0xFFFF_FFFF_8000_0000),
        (
            AluOp::Remw,
            0xDEAD_BEEF_8765_4321,
            0xCAFE_BABE_0000_0000,
            0xFFFF_FFFF_8765_4321,
        ),
        (AluOp::Remw, 0x8000_0000, 0xFFFF_FFFF, 0),
        (AluOp::Remw, 0xDEAD_BEEF_8000_0000, ONES, 0),
        (AluOp::Remw, MINUS_7, 2, ONES),
        (AluOp::Remw, 0xDEAD_BEEF_0000_0007, 0xCAFE_BABE_FFFF_FFFE, 1),
        (AluOp::Remw, 0xDEAD_BEEF_FFFF_FFFF, 0xCAFE_BABE_0000_0001, 0),
        (AluOp::Remuw, 5, 0, 5),
        (AluOp::Remuw, 0x8000_0000, 0, 0xFFFF_FFFF_8000_0000),
        (
            AluOp::Remuw,
            0xDEAD_BEEF_8765_4321,
            0xCAFE_BABE_0000_0000,
            0xFFFF_FFFF_8765_4321,
        ),
        (
            AluOp::Remuw,
            0x8000_0000,
            0xFFFF_FFFF,
            0xFFFF_FFFF_8000_0000,
        ),
        (
            AluOp::Remuw,
            0xDEAD_BEEF_8000_0000,
            ONES,
            0xFFFF_FFFF_8000_0000,
        ),
        (AluOp::Remuw, MINUS_7, 2, 1),
        (
            AluOp::Remuw,
            0xDEAD_BEEF_0000_0007,
            0xCAFE_BABE_FFFF_FFFE,
            7,
        ),
        (
            AluOp::Remuw,
            0xDEAD_BEEF_FFFF_FFFF,
            0xCAFE_BABE_0000_0001,
            0,
        ),
    ];
    for (op, a, b, wanted) in table {
        assert_gives(&rt, by_register(op, 12, 10, 11), a, b, wanted);
    }
}

#[test]
fn operations_on_an_immediate(rt: HostRuntime) {
    let table = [
        (ImmOp::Addi, 0, -1, ONES),
        (ImmOp::Addi, LARGEST, 1, LEAST),
        (ImmOp::Addi, ONES, 2047, 2046),
        (ImmOp::Addi, 5, -2048, 0xFFFF_FFFF_FFFF_F805),
        (ImmOp::Addi, UP, 0, UP),
        (ImmOp::Slti, ONES, 0, 1),
        (ImmOp::Slti, 0, -1, 0),
        (ImmOp::Slti, LEAST, -2048, 1),
        (ImmOp::Slti, 0xFFFF_FFFF_FFFF_F800, -2048, 0),
        (ImmOp::Slti, 2046, 2047, 1),
        (ImmOp::Slti, LARGEST, 2047, 0),
        (ImmOp::Sltiu, 0, 1, 1),
        (ImmOp::Sltiu, 1, 1, 0),
        (ImmOp::Sltiu, 0, -1, 1),
        (ImmOp::Sltiu, ONES, -1, 0),
        (ImmOp::Sltiu, MINUS_2, -1, 1),
        (ImmOp::Sltiu, LEAST, -2048, 1),
        (ImmOp::Sltiu, 0xFFFF_FFFF_FFFF_F800, -2048, 0),
        (ImmOp::Sltiu, 2046, 2047, 1),
        (ImmOp::Xori, UP, -1, DOWN),
        (ImmOp::Xori, UP, 2047, 0x0123_4567_89AB_CA10),
        (ImmOp::Xori, 0, -2048, 0xFFFF_FFFF_FFFF_F800),
        (ImmOp::Ori, UP, -1, ONES),
        (ImmOp::Ori, UP, 2047, 0x0123_4567_89AB_CFFF),
        (ImmOp::Ori, 0, -2048, 0xFFFF_FFFF_FFFF_F800),
        (ImmOp::Andi, UP, -1, UP),
        (ImmOp::Andi, UP, 2047, 1519),
        (ImmOp::Andi, ONES, -2048, 0xFFFF_FFFF_FFFF_F800),
        (ImmOp::Slli, 0xFEDC_BA98_7654_3211, 0, 0xFEDC_BA98_7654_3211),
        (
            ImmOp::Slli,
            0xFEDC_BA98_7654_3211,
            31,
            0x3B2A_1908_8000_0000,
        ),
        (
            ImmOp::Slli,
            0xFEDC_BA98_7654_3211,
            32,
            0x7654_3211_0000_0000,
        ),
        (ImmOp::Slli, 0xFEDC_BA98_7654_3211, 63, LEAST),
        (ImmOp::Srli, 0xFEDC_BA98_7654_3211, 0, 0xFEDC_BA98_7654_3211),
        (
            ImmOp::Srli,
            0xFEDC_BA98_7654_3211,
            31,
            0x0000_0001_FDB9_7530,
        ),
        (ImmOp::Srli, 0xFEDC_BA98_7654_3211, 32, 0xFEDC_BA98),
        (ImmOp::Srli, 0xFEDC_BA98_7654_3211, 63, 1),
        (ImmOp::Srai, 0xFEDC_BA98_7654_3211, 0, 0xFEDC_BA98_7654_3211),
        (
            ImmOp::Srai,
            0xFEDC_BA98_7654_3211,
            31,
            0xFFFF_FFFF_FDB9_7530,
        ),
        (
            ImmOp::Srai,
            0xFEDC_BA98_7654_3211,
            32,
            0xFFFF_FFFF_FEDC_BA98,
        ),
        (ImmOp::Srai, 0xFEDC_BA98_7654_3211, 63, ONES),
        (ImmOp::Srai, UP, 4, 0x0012_3456_789A_BCDE),
        (ImmOp::Addiw, 0x7FFF_FFFF, 1, 0xFFFF_FFFF_8000_0000),
        (ImmOp::Addiw, 0xDEAD_BEEF_7FFF_FFFF, 0, 0x7FFF_FFFF),
        (ImmOp::Addiw, 0xDEAD_BEEF_8000_0000, -1, 0x7FFF_FFFF),
        (
            ImmOp::Addiw,
            0xDEAD_BEEF_0000_0000,
            -2048,
            0xFFFF_FFFF_FFFF_F800,
        ),
        (ImmOp::Addiw, 0xDEAD_BEEF_FFFF_FFFF, 2047, 2046),
        (ImmOp::Slliw, MIXED, 0, 0xFFFF_FFFF_89AB_CDEF),
        (ImmOp::Slliw, MIXED, 1, 0x1357_9BDE),
        (ImmOp::Slliw, MIXED, 31, 0xFFFF_FFFF_8000_0000),
        (
            ImmOp::Slliw,
            0xDEAD_BEEF_7654_3211,
            3,
            0xFFFF_FFFF_B2A1_9088,
        ),
        (ImmOp::Srliw, MIXED, 0, 0xFFFF_FFFF_89AB_CDEF),
        (ImmOp::Srliw, MIXED, 1, 0x44D5_E6F7),
        (ImmOp::Srliw, MIXED, 31, 1),
        (ImmOp::Sraiw, MIXED, 0, 0xFFFF_FFFF_89AB_CDEF),
        (ImmOp::Sraiw, MIXED, 1, 0xFFFF_FFFF_C4D5_E6F7),
        (ImmOp::Sraiw, MIXED, 31, ONES),
        (ImmOp::Sraiw, 0xDEAD_BEEF_7654_3211, 3, 0x0ECA_8642),
    ];
    for (op, a, imm, wanted) in table {
        assert_gives(&rt, by_immediate(op, 12, 10, imm), a, 0, wanted);
    }
}

#[test]
fn branches_taken_and_not_taken(rt: HostRuntime) {
    let table = [
        (Cmp::Beq, 5, 5, true),
        (Cmp::Beq, LEAST, LARGEST, false),
        (Cmp::Beq, LARGEST, LEAST, false),
        (Cmp::Beq, ONES, 0, false),
        (Cmp::Beq, 0, ONES, false),
        (Cmp::Bne, 5, 5, false),
        (Cmp::Bne, LEAST, LARGEST, true),
        (Cmp::Bne, LARGEST, LEAST, true),
        (Cmp::Bne, ONES, 0, true),
        (Cmp::Bne, 0, ONES, true),
        (Cmp::Blt, 5, 5, false),
        (Cmp::Blt, LEAST, LARGEST, true),
        (Cmp::Blt, LARGEST, LEAST, false),
        (Cmp::Blt, ONES, 0, true),
        (Cmp::Blt, 0, ONES, false),
        (Cmp::Bge, 5, 5, true),
        (Cmp::Bge, LEAST, LARGEST, false),
        (Cmp::Bge, LARGEST, LEAST, true),
        (Cmp::Bge, ONES, 0, false),
        (Cmp::Bge, 0, ONES, true),
        (Cmp::Bltu, 5, 5, false),
        (Cmp::Bltu, LEAST, LARGEST, false),
        (Cmp::Bltu, LARGEST, LEAST, true),
        (Cmp::Bltu, ONES, 0, false),
        (Cmp::Bltu, 0, ONES, true),
        (Cmp::Bgeu, 5, 5, true),
        (Cmp::Bgeu, LEAST, LARGEST, true),
        (Cmp::Bgeu, LARGEST, LEAST, false),
        (Cmp::Bgeu, ONES, 0, true),
        (Cmp::Bgeu, 0, ONES, false),
    ];
    // pc, size, offset, address behind, target; the last two pass 2^64
    let places = [
        (0x1_0000, 2, 8, 0x1_0002, 0x1_0008),
        (0x1_0000, 4, -8, 0x1_0004, 0xFFF8),
        (ONES - 3, 4, 4094, 0, 4090),
        (2, 2, -4096, 4, ONES - 4093),
    ];
    for (cmp, a, b, taken) in table {
        for (pc, size, imm, next, target) in places {
            let (effect, at) = if taken {
                (Effect::Jump, target)
            } else {
                (Effect::Next, next)
            };
            let before = holding(pc, a, b);
            assert_exec(
                &rt,
                branch(cmp, 10, 11, imm),
                size,
                before,
                effect,
                holding(at, a, b),
            );
        }
    }
}

#[test]
fn jumps_link_the_address_behind(rt: HostRuntime) {
    // instruction, size, pc, x10 before, target, x10 after
    let table = [
        (jal(10, 2048), 4, 0x1_0000, 7, 0x1_0800, 0x1_0004),
        (jal(10, -2), 2, 0x1_0000, 7, 0xFFFE, 0x1_0002),
        (jal(10, 0xF_FFFE), 4, ONES - 3, 7, 0xF_FFFA, 0),
        (jal(10, -0x10_0000), 4, 0, 7, ONES - 0xF_FFFF, 4),
        (jalr(10, 0, -2048), 4, 0x1_0000, 7, ONES - 2047, 0x1_0004),
        // where rd is rs1, the target is of the register's old value
        (jalr(10, 10, 8), 4, 0x1_0000, 0x2_0000, 0x2_0008, 0x1_0004),
        (jalr(10, 10, 0), 2, 0x1_0000, 0x2_0000, 0x2_0000, 0x1_0002),
        (jalr(10, 10, 2047), 4, 0x1_0000, ONES, 2046, 0x1_0004),
        // bit 0 of the sum is cleared
        (jalr(10, 10, 1), 2, 0x1_0000, 0x2_0000, 0x2_0000, 0x1_0002),
        (jalr(10, 10, -2), 4, 0x1_0000, 0x2_0003, 0x2_0000, 0x1_0004),
        (jalr(10, 10, 1), 4, 0x1_0000, 0x2_0003, 0x2_0004, 0x1_0004),
        (jalr(10, 10, 0), 4, 0x1_0000, ONES, ONES - 1, 0x1_0004),
        // register 0 takes no link
        (jal(0, -4), 4, 0x1_0000, 7, 0xFFFC, 7),
        (jalr(0, 10, 0), 2, 0x1_0000, 0x2_0000, 0x2_0000, 0x2_0000),
    ];
    for (instr, size, pc, before, target, link) in table {
        let regs = holding(pc, before, 3);
        assert_exec(
            &rt,
            instr,
            size,
            regs,
            Effect::Jump,
            holding(target, link, 3),
        );
    }
}

#[test]
fn upper_immediates_register_0_and_fences(rt: HostRuntime) {
    // instruction, size, pc, address behind, x10 after
    let table = [
        (lui(10, 0x7FFF_F000), 4, 0x1_0000, 0x1_0004, 0x7FFF_F000),
        (
            lui(10, -0x8000_0000),
            4,
            0x1_0000,
            0x1_0004,
            0xFFFF_FFFF_8000_0000,
        ),
        (lui(10, -4096), 2, 0x1_0000, 0x1_0002, ONES - 4095),
        (auipc(10, 0x7FFF_F000), 4, 0x1_0002, 0x1_0006, 0x8000_F002),
        (auipc(10, -4096), 4, 0x0800, 0x0804, 0xFFFF_FFFF_FFFF_F800),
        (auipc(10, 4096), 4, ONES - 3, 0, 4092),
        // a write to register 0 is dropped
        (lui(0, 4096), 4, 0x1_0000, 0x1_0004, 7),
        (auipc(0, 4096), 4, 0x1_0000, 0x1_0004, 7),
        (by_register(AluOp::Add, 0, 10, 10), 4, 0x1_0000, 0x1_0004, 7),
        (
            by_immediate(ImmOp::Addi, 0, 10, 1),
            2,
            0x1_0000,
            0x1_0002,
            7,
        ),
        // and register 0 reads as 0
        (by_register(AluOp::Or, 10, 0, 11), 4, 0x1_0000, 0x1_0004, 3),
        // a fence moves pc alone
        (fence(false, 10, 11, 255), 4, 0x1_0000, 0x1_0004, 7),
        (fence(true, 10, 10, -1), 4, ONES - 3, 0, 7),
    ];
    for (instr, size, pc, next, value) in table {
        let regs = holding(pc, 7, 3);
        assert_exec(
            &rt,
            instr,
            size,
            regs,
            Effect::Next,
            holding(next, value, 3),
        );
    }
}

#[test]
fn requests_leave_the_registers(rt: HostRuntime) {
    // x10 is -1, and x11 is the least signed number
    let table = [
        (
            Instr::Load {
                kind: LoadKind::Lhu,
                rd: 10,
                rs1: 10,
                imm: 2047,
            },
            Effect::Load {
                rd: 10,
                kind: LoadKind::Lhu,
                at: 2046,
            },
        ),
        (
            Instr::Load {
                kind: LoadKind::Ld,
                rd: 0,
                rs1: 0,
                imm: -2048,
            },
            Effect::Load {
                rd: 0,
                kind: LoadKind::Ld,
                at: ONES - 2047,
            },
        ),
        (
            Instr::Store {
                width: Width::Eight,
                rs1: 10,
                rs2: 11,
                imm: 1,
            },
            Effect::Store {
                width: Width::Eight,
                at: 0,
                value: LEAST,
            },
        ),
        (
            Instr::Store {
                width: Width::One,
                rs1: 11,
                rs2: 10,
                imm: -1,
            },
            Effect::Store {
                width: Width::One,
                at: LARGEST,
                value: ONES,
            },
        ),
        (
            Instr::LoadReserved {
                wide: true,
                order: 2,
                rd: 10,
                rs1: 11,
            },
            Effect::Reserve {
                rd: 10,
                wide: true,
                at: LEAST,
            },
        ),
        (
            Instr::StoreConditional {
                wide: false,
                order: 1,
                rd: 11,
                rs1: 10,
                rs2: 11,
            },
            Effect::Conditional {
                rd: 11,
                wide: false,
                at: ONES,
                value: LEAST,
            },
        ),
        (
            Instr::Amo {
                op: AmoOp::Amomaxu,
                wide: true,
                order: 3,
                rd: 12,
                rs1: 11,
                rs2: 10,
            },
            Effect::Amo {
                rd: 12,
                op: AmoOp::Amomaxu,
                wide: true,
                at: LEAST,
                value: ONES,
            },
        ),
        (Instr::Ecall, Effect::Call),
        (Instr::Ebreak, Effect::Break),
    ];
    for (instr, effect) in table {
        for size in [2, 4] {
            let regs = holding(0x1_0000, ONES, LEAST);
            assert_exec(&rt, instr, size, regs, effect, regs);
        }
    }
}

#[test]
fn instructions_on_registers_alone(rt: HostRuntime) {
    let table = [
        (by_register(AluOp::Add, 10, 10, 11), true, 0x1_0004, 10),
        (by_register(AluOp::Remu, 10, 10, 11), true, 0x1_0004, 1),
        (by_immediate(ImmOp::Sraiw, 10, 10, 1), true, 0x1_0004, 3),
        (branch(Cmp::Bgeu, 10, 11, -8), true, 0xFFF8, 7),
        (jal(10, 8), true, 0x1_0008, 0x1_0004),
        (jalr(10, 11, 5), true, 8, 0x1_0004),
        (lui(10, 4096), true, 0x1_0004, 4096),
        (fence(false, 0, 0, 0), true, 0x1_0004, 7),
        (Instr::Ecall, false, 0x1_0000, 7),
        (
            Instr::Load {
                kind: LoadKind::Ld,
                rd: 10,
                rs1: 11,
                imm: 0,
            },
            false,
            0x1_0000,
            7,
        ),
    ];
    for (instr, alone, next, value) in table {
        assert!(rt; is_in_range(&instr), "{instr:?}");
        let mut regs = holding(0x1_0000, 7, 3);
        assert_eq!(rt; exec_alone(&instr, 4, &mut regs), alone, "{instr:?}");
        assert_eq!(rt; regs.pc(), next, "pc of {instr:?}");
        assert_eq!(rt; regs.register(10), value, "{instr:?}");
    }
}

#[test]
fn operations_are_told_from_other_instructions(rt: HostRuntime) {
    let table = [
        (by_register(AluOp::Add, 10, 10, 11), true, 0x1_0004, 10),
        (by_immediate(ImmOp::Slli, 10, 10, 4), true, 0x1_0004, 112),
        (lui(10, 4096), false, 0x1_0000, 7),
        (Instr::Ebreak, false, 0x1_0000, 7),
    ];
    for (instr, operation, next, value) in table {
        assert!(rt; is_in_range(&instr), "{instr:?}");
        let mut regs = holding(0x1_0000, 7, 3);
        assert_eq!(rt;
            exec_operation(&instr, 4, &mut regs),
            operation,
            "{instr:?}"
        );
        assert_eq!(rt; regs.pc(), next, "pc of {instr:?}");
        assert_eq!(rt; regs.register(10), value, "{instr:?}");
    }
}

#[test]
fn transfers_are_told_from_other_instructions(rt: HostRuntime) {
    let table = [
        (
            Instr::Branch {
                cmp: Cmp::Bltu,
                rs1: 11,
                rs2: 10,
                imm: -8,
            },
            true,
            0xFFF8,
            7,
        ),
        (Instr::Jal { rd: 10, imm: 16 }, true, 0x1_0010, 0x1_0004),
        (
            Instr::Jalr {
                rd: 0,
                rs1: 11,
                imm: 6,
            },
            true,
            8,
            7,
        ),
        (lui(10, 4096), false, 0x1_0000, 7),
        (Instr::Ecall, false, 0x1_0000, 7),
    ];
    for (instr, transfer, next, value) in table {
        assert!(rt; is_in_range(&instr), "{instr:?}");
        let mut regs = holding(0x1_0000, 7, 3);
        assert_eq!(rt; exec_transfer(&instr, 4, &mut regs), transfer, "{instr:?}");
        assert_eq!(rt; regs.pc(), next, "pc of {instr:?}");
        assert_eq!(rt; regs.register(10), value, "{instr:?}");
    }
}
