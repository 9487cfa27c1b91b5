ghost use Rattle.std.specs.Prelude.{◌≡◌, ℕ, ◌<◌, ◌+◌, ◌*◌, ◌%◌, ◌^◌, ℤ, pos, [], ◌∷◌, true, Some, if◌then◌else◌};
ghost use Rattle.isa_decode.specs.Fields.{bits, immediate_b, immediate_i, immediate_j, immediate_s, immediate_u, reading, signed};
ghost use Rattle.isa_decode.specs.Listing.{IsWord, alu_row, amo_code, branch_row, decoding, funct3, funct7, load_row, row, store_row};
ghost use Rattle.isa_decode.specs.Ranges.{IsAmount, IsImmediate, IsOperand, IsShort, InRange};

use crate::instruction::{AluOp, AmoOp, Cmp, ImmOp, Instr, LoadKind, Width};

/// The bits of a signed number of 12 bits.
#[inline]
fn bits_12(imm: i64) -> u32
    requires { IsShort imm }
    ensures value { reading 0x800 result ≡ imm }
    ensures small { result < 2 ^ 12 }
{
    let number = if imm < 0 { imm + 0x1000 } else { imm };
    number as u32
}

/// The bits of an even number of 13 bits.
#[inline]
fn bits_13(imm: i64) -> u32
    requires { IsImmediate (2 ^ 12) 2 imm }
    ensures value { reading 0x1000 result ≡ imm }
    ensures even { result % 2 ≡ 0 }
    ensures small { result < 2 ^ 13 }
{
    let number = if imm < 0 { imm + 0x2000 } else { imm };
    number as u32
}

/// The bits of an even number of 21 bits.
#[inline]
fn bits_21(imm: i64) -> u32
    requires { IsImmediate (2 ^ 20) 2 imm }
    ensures value { reading 0x100000 result ≡ imm }
    ensures even { result % 2 ≡ 0 }
    ensures small { result < 2 ^ 21 }
{
    let number = if imm < 0 { imm + 0x20_0000 } else { imm };
    number as u32
}

/// The bits of a multiple of 4096 of 32 bits.
#[inline]
fn bits_32(imm: i64) -> u32
    requires { IsImmediate (2 ^ 31) (2 ^ 12) imm }
    ensures value { reading 0x80000000 result ≡ imm }
    ensures upper { result % 2 ^ 12 ≡ 0 }
{
    let number = if imm < 0 { imm + 0x1_0000_0000 } else { imm };
    number as u32
}

/// The fixed fields of an operation on registers.
#[derive(Clone, Copy)]
struct Fields {
    opcode: u32,
    funct3: u32,
    funct7: u32,
}

/// The word of the R format.
#[inline]
fn word_r(opcode: u32, funct3: u32, funct7: u32, rd: u8, rs1: u8, rs2: u8) -> u32
    requires opcode { opcode < 128 }
    requires funct3 { funct3 < 8 }
    requires funct7 { funct7 < 128 }
    requires rd { rd < 32 }
    requires rs1 { rs1 < 32 }
    requires rs2 { rs2 < 32 }
    ensures opcode { bits result 6 0 ≡ opcode }
    ensures rd { bits result 11 7 ≡ rd }
    ensures funct3 { bits result 14 12 ≡ funct3 }
    ensures rs1 { bits result 19 15 ≡ rs1 }
    ensures rs2 { bits result 24 20 ≡ rs2 }
    ensures funct7 { bits result 31 25 ≡ funct7 }
{
    opcode
        + u32::from(rd) * 0x80
        + funct3 * 0x1000
        + u32::from(rs1) * 0x8000
        + u32::from(rs2) * 0x10_0000
        + funct7 * 0x200_0000
}

/// The word of the I format.
#[inline]
#[tactic(auto, unfolding(crate::specs::Fields::immediate_i))]
fn word_i(opcode: u32, funct3: u32, rd: u8, rs1: u8, imm: i64) -> u32
    requires opcode { opcode < 128 }
    requires funct3 { funct3 < 8 }
    requires rd { rd < 32 }
    requires rs1 { rs1 < 32 }
    requires imm { IsShort imm }
    ensures opcode { bits result 6 0 ≡ opcode }
    ensures rd { bits result 11 7 ≡ rd }
    ensures funct3 { bits result 14 12 ≡ funct3 }
    ensures rs1 { bits result 19 15 ≡ rs1 }
    ensures imm { immediate_i result ≡ imm }
{
    word_of_upper(opcode, funct3, rd, rs1, bits_12(imm))
}

/// The word of the I format whose bits from 20 on are `upper`.
#[inline]
fn word_of_upper(opcode: u32, funct3: u32, rd: u8, rs1: u8, upper: u32) -> u32
    requires opcode { opcode < 128 }
    requires funct3 { funct3 < 8 }
    requires rd { rd < 32 }
    requires rs1 { rs1 < 32 }
    requires upper { upper < 2 ^ 12 }
    ensures opcode { bits result 6 0 ≡ opcode }
    ensures rd { bits result 11 7 ≡ rd }
    ensures funct3 { bits result 14 12 ≡ funct3 }
    ensures rs1 { bits result 19 15 ≡ rs1 }
    ensures upper { bits result 31 20 ≡ upper }
{
    opcode + u32::from(rd) * 0x80 + funct3 * 0x1000 + u32::from(rs1) * 0x8000 + upper * 0x10_0000
}

/// The word of a shift of 64 bits, whose opcode is 0x13.
#[inline]
fn word_of_shift(funct3: u32, funct6: u32, rd: u8, rs1: u8, amount: i64) -> u32
    requires funct3 { funct3 < 8 }
    requires funct6 { funct6 < 64 }
    requires rd { rd < 32 }
    requires rs1 { rs1 < 32 }
    requires amount { IsAmount 64 amount }
    ensures opcode { bits result 6 0 ≡ 0x13 }
    ensures rd { bits result 11 7 ≡ rd }
    ensures funct3 { bits result 14 12 ≡ funct3 }
    ensures rs1 { bits result 19 15 ≡ rs1 }
    ensures amount { pos (bits result 25 20) ≡ amount }
    ensures funct6 { bits result 31 26 ≡ funct6 }
{
    word_of_upper(0x13, funct3, rd, rs1, funct6 * 64 + amount as u32)
}

/// The word of a shift of 32 bits, whose opcode is 0x1B.
#[inline]
fn word_of_word_shift(funct3: u32, funct7: u32, rd: u8, rs1: u8, amount: i64) -> u32
    requires funct3 { funct3 < 8 }
    requires funct7 { funct7 < 128 }
    requires rd { rd < 32 }
    requires rs1 { rs1 < 32 }
    requires amount { IsAmount 32 amount }
    ensures opcode { bits result 6 0 ≡ 0x1B }
    ensures rd { bits result 11 7 ≡ rd }
    ensures funct3 { bits result 14 12 ≡ funct3 }
    ensures rs1 { bits result 19 15 ≡ rs1 }
    ensures amount { pos (bits result 24 20) ≡ amount }
    ensures funct7 { bits result 31 25 ≡ funct7 }
{
    word_of_upper(0x1B, funct3, rd, rs1, funct7 * 32 + amount as u32)
}

/// The word of the S format.
#[inline]
#[tactic(auto, unfolding(crate::specs::Fields::immediate_s))]
fn word_s(opcode: u32, funct3: u32, rs1: u8, rs2: u8, imm: i64) -> u32
    requires opcode { opcode < 128 }
    requires funct3 { funct3 < 8 }
    requires rs1 { rs1 < 32 }
    requires rs2 { rs2 < 32 }
    requires imm { IsShort imm }
    ensures opcode { bits result 6 0 ≡ opcode }
    ensures funct3 { bits result 14 12 ≡ funct3 }
    ensures rs1 { bits result 19 15 ≡ rs1 }
    ensures rs2 { bits result 24 20 ≡ rs2 }
    ensures imm { immediate_s result ≡ imm }
{
    let number = bits_12(imm);
    word_r(opcode, funct3, number / 32, (number % 32) as u8, rs1, rs2)
}

/// The word of the B format, whose opcode is 0x63.
#[inline]
#[tactic(auto, unfolding(crate::specs::Fields::immediate_b))]
fn word_b(funct3: u32, rs1: u8, rs2: u8, imm: i64) -> u32
    requires funct3 { funct3 < 8 }
    requires rs1 { rs1 < 32 }
    requires rs2 { rs2 < 32 }
    requires imm { IsImmediate (2 ^ 12) 2 imm }
    ensures opcode { bits result 6 0 ≡ 0x63 }
    ensures funct3 { bits result 14 12 ≡ funct3 }
    ensures rs1 { bits result 19 15 ≡ rs1 }
    ensures rs2 { bits result 24 20 ≡ rs2 }
    ensures imm { immediate_b result ≡ imm }
{
    let number = bits_13(imm);
    let upper = number / 0x1000 * 64 + number / 32 % 64;
    let lower = number / 2 % 16 * 2 + number / 0x800 % 2;
    word_r(0x63, funct3, upper, lower as u8, rs1, rs2)
}

/// The word of the U format.
#[inline]
#[tactic(auto, unfolding(crate::specs::Fields::immediate_u))]
fn word_u(opcode: u32, rd: u8, imm: i64) -> u32
    requires opcode { opcode < 128 }
    requires rd { rd < 32 }
    requires imm { IsImmediate (2 ^ 31) (2 ^ 12) imm }
    ensures opcode { bits result 6 0 ≡ opcode }
    ensures rd { bits result 11 7 ≡ rd }
    ensures imm { immediate_u result ≡ imm }
{
    opcode + u32::from(rd) * 0x80 + bits_32(imm)
}

/// The word of the J format, whose opcode is 0x6F.
#[inline]
#[tactic(auto, unfolding(crate::specs::Fields::immediate_j))]
fn word_j(rd: u8, imm: i64) -> u32
    requires rd { rd < 32 }
    requires imm { IsImmediate (2 ^ 20) 2 imm }
    ensures opcode { bits result 6 0 ≡ 0x6F }
    ensures rd { bits result 11 7 ≡ rd }
    ensures imm { immediate_j result ≡ imm }
{
    let number = bits_21(imm);
    let sign = number / 0x10_0000;
    let low = number / 2 % 0x400;
    let middle = number / 0x800 % 2;
    let high = number / 0x1000 % 0x100;
    0x6F + u32::from(rd) * 0x80 + (high + middle * 0x100 + low * 0x200 + sign * 0x8_0000) * 0x1000
}

/// The word of an atomic, whose opcode is 0x2F.
#[inline]
fn word_of_atomic(funct5: u32, wide: bool, order: u8, rd: u8, rs1: u8, rs2: u8) -> u32
    requires funct5 { funct5 < 32 }
    requires order { order < 4 }
    requires rd { rd < 32 }
    requires rs1 { rs1 < 32 }
    requires rs2 { rs2 < 32 }
    ensures opcode { bits result 6 0 ≡ 0x2F }
    ensures rd { bits result 11 7 ≡ rd }
    ensures funct3 { bits result 14 12 ≡ (if wide then 3 else 2) }
    ensures rs1 { bits result 19 15 ≡ rs1 }
    ensures rs2 { bits result 24 20 ≡ rs2 }
    ensures order { bits result 26 25 ≡ order }
    ensures funct5 { bits result 31 27 ≡ funct5 }
{
    let funct3 = if wide { 3 } else { 2 };
    word_r(0x2F, funct3, funct5 * 4 + u32::from(order), rd, rs1, rs2)
}

fn funct3_of_branch(cmp: Cmp) -> u32
    ensures row { branch_row cmp ≡ row 0x63 (funct3 result ∷ []) }
    ensures small { result < 8 }
{
    match cmp {
        Cmp::Beq => 0,
        Cmp::Bne => 1,
        Cmp::Blt => 4,
        Cmp::Bge => 5,
        Cmp::Bltu => 6,
        Cmp::Bgeu => 7,
    }
}

fn funct3_of_load(kind: LoadKind) -> u32
    ensures row { load_row kind ≡ row 0x03 (funct3 result ∷ []) }
    ensures small { result < 8 }
{
    match kind {
        LoadKind::Lb => 0,
        LoadKind::Lh => 1,
        LoadKind::Lw => 2,
        LoadKind::Ld => 3,
        LoadKind::Lbu => 4,
        LoadKind::Lhu => 5,
        LoadKind::Lwu => 6,
    }
}

fn funct3_of_store(width: Width) -> u32
    ensures row { store_row width ≡ row 0x23 (funct3 result ∷ []) }
    ensures small { result < 8 }
{
    match width {
        Width::One => 0,
        Width::Two => 1,
        Width::Four => 2,
        Width::Eight => 3,
    }
}

fn funct5_of_amo(op: AmoOp) -> u32
    ensures code { result ≡ amo_code op }
    ensures small { result < 32 }
{
    match op {
        AmoOp::Amoswap => 0x01,
        AmoOp::Amoadd => 0x00,
        AmoOp::Amoxor => 0x04,
        AmoOp::Amoand => 0x0C,
        AmoOp::Amoor => 0x08,
        AmoOp::Amomin => 0x10,
        AmoOp::Amomax => 0x14,
        AmoOp::Amominu => 0x18,
        AmoOp::Amomaxu => 0x1C,
    }
}

fn fields_of_operation(op: AluOp) -> Fields
    ensures row { alu_row op ≡ row result.opcode (funct3 result.funct3 ∷ funct7 result.funct7 ∷ []) }
    ensures opcode { result.opcode < 128 }
    ensures funct3 { result.funct3 < 8 }
    ensures funct7 { result.funct7 < 128 }
{
    let (opcode, funct3, funct7) = match op {
        AluOp::Add => (0x33, 0, 0x00),
        AluOp::Sub => (0x33, 0, 0x20),
        AluOp::Sll => (0x33, 1, 0x00),
        AluOp::Slt => (0x33, 2, 0x00),
        AluOp::Sltu => (0x33, 3, 0x00),
        AluOp::Xor => (0x33, 4, 0x00),
        AluOp::Srl => (0x33, 5, 0x00),
        AluOp::Sra => (0x33, 5, 0x20),
        AluOp::Or => (0x33, 6, 0x00),
        AluOp::And => (0x33, 7, 0x00),
        AluOp::Mul => (0x33, 0, 0x01),
        AluOp::Mulh => (0x33, 1, 0x01),
        AluOp::Mulhsu => (0x33, 2, 0x01),
        AluOp::Mulhu => (0x33, 3, 0x01),
        AluOp::Div => (0x33, 4, 0x01),
        AluOp::Divu => (0x33, 5, 0x01),
        AluOp::Rem => (0x33, 6, 0x01),
        AluOp::Remu => (0x33, 7, 0x01),
        AluOp::Addw => (0x3B, 0, 0x00),
        AluOp::Subw => (0x3B, 0, 0x20),
        AluOp::Sllw => (0x3B, 1, 0x00),
        AluOp::Srlw => (0x3B, 5, 0x00),
        AluOp::Sraw => (0x3B, 5, 0x20),
        AluOp::Mulw => (0x3B, 0, 0x01),
        AluOp::Divw => (0x3B, 4, 0x01),
        AluOp::Divuw => (0x3B, 5, 0x01),
        AluOp::Remw => (0x3B, 6, 0x01),
        AluOp::Remuw => (0x3B, 7, 0x01),
    };
    Fields {
        opcode,
        funct3,
        funct7,
    }
}

fn word_of_immediate(op: ImmOp, rd: u8, rs1: u8, imm: i64) -> u32
    requires rd { rd < 32 }
    requires rs1 { rs1 < 32 }
    requires imm { IsOperand op imm }
    ensures { IsWord result (Instr.OpImm op rd rs1 imm) }
{
    match op {
        ImmOp::Addi => word_i(0x13, 0, rd, rs1, imm),
        ImmOp::Slti => word_i(0x13, 2, rd, rs1, imm),
        ImmOp::Sltiu => word_i(0x13, 3, rd, rs1, imm),
        ImmOp::Xori => word_i(0x13, 4, rd, rs1, imm),
        ImmOp::Ori => word_i(0x13, 6, rd, rs1, imm),
        ImmOp::Andi => word_i(0x13, 7, rd, rs1, imm),
        ImmOp::Addiw => word_i(0x1B, 0, rd, rs1, imm),
        ImmOp::Slli => word_of_shift(1, 0x00, rd, rs1, imm),
        ImmOp::Srli => word_of_shift(5, 0x00, rd, rs1, imm),
        ImmOp::Srai => word_of_shift(5, 0x10, rd, rs1, imm),
        ImmOp::Slliw => word_of_word_shift(1, 0x00, rd, rs1, imm),
        ImmOp::Srliw => word_of_word_shift(5, 0x00, rd, rs1, imm),
        ImmOp::Sraiw => word_of_word_shift(5, 0x20, rd, rs1, imm),
    }
}

/// The word that stands for the instruction, whose fields are in their ranges. It is the only one: a word that is decoded
/// to the instruction is this word.
///
/// References: the RISC-V unprivileged manual, "RV32/64G Instruction Set Listings".
#[tactic(auto, using(crate::proofs::RowFacts::word_decodes, crate::proofs::WordFacts::decoded_word))]
pub fn encode(instr: &Instr) -> u32
    requires { InRange instr.now }
    ensures stands { IsWord result instr.now }
    ensures decoded { decoding result ≡ Some instr.now }
    ensures only { (word : ℕ) → word < 2 ^ 32 → decoding word ≡ Some instr.now → word ≡ result }
{
    word_of(instr)
}

fn word_of(instr: &Instr) -> u32
    requires { InRange instr.now }
    ensures { IsWord result instr.now }
{
    match *instr {
        Instr::Lui { rd, imm } => word_u(0x37, rd, imm),
        Instr::Auipc { rd, imm } => word_u(0x17, rd, imm),
        Instr::Jal { rd, imm } => word_j(rd, imm),
        Instr::Jalr { rd, rs1, imm } => word_i(0x67, 0, rd, rs1, imm),
        Instr::Branch { cmp, rs1, rs2, imm } => word_b(funct3_of_branch(cmp), rs1, rs2, imm),
        Instr::Load { kind, rd, rs1, imm } => word_i(0x03, funct3_of_load(kind), rd, rs1, imm),
        Instr::Store {
            width,
            rs1,
            rs2,
            imm,
        } => word_s(0x23, funct3_of_store(width), rs1, rs2, imm),
        Instr::OpImm { op, rd, rs1, imm } => word_of_immediate(op, rd, rs1, imm),
        Instr::Op { op, rd, rs1, rs2 } => {
            let fields = fields_of_operation(op);
            word_r(fields.opcode, fields.funct3, fields.funct7, rd, rs1, rs2)
        }
        Instr::LoadReserved {
            wide,
            order,
            rd,
            rs1,
        } => word_of_atomic(0x02, wide, order, rd, rs1, 0),
        Instr::StoreConditional {
            wide,
            order,
            rd,
            rs1,
            rs2,
        } => word_of_atomic(0x03, wide, order, rd, rs1, rs2),
        Instr::Amo {
            op,
            wide,
            order,
            rd,
            rs1,
            rs2,
        } => word_of_atomic(funct5_of_amo(op), wide, order, rd, rs1, rs2),
        Instr::Fence {
            code: false,
            rd,
            rs1,
            imm,
        } => word_i(0x0F, 0, rd, rs1, imm),
        Instr::Fence {
            code: true,
            rd,
            rs1,
            imm,
        } => word_i(0x0F, 1, rd, rs1, imm),
        Instr::Ecall => 0x0000_0073,
        Instr::Ebreak => 0x0010_0073,
    }
}
