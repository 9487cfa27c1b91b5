ghost use Rattle.std.specs.Prelude.{◌≡◌, codes, decimal, IfOk};
ghost use Rattle.std.specs.Int.{w64, cast_unsigned};
ghost use Rattle.std.specs.String.{string_bytes};
ghost use Rattle.isa_decode.specs.Fields.{bits};
ghost use Rattle.isa_print.specs.Texts.{instruction_text};

use crate::names::{
    name_of_branch, name_of_fence, name_of_immediate_operation, name_of_load,
    name_of_memory_operation, name_of_operation, name_of_store, suffix_of_order, suffix_of_width,
};
use file_tree::Text;
use isa_decode::Instr;
use std::alloc::{AllocError, Global};

/// The text of the instruction: its name, and its operands in the order of the manual's assembly. Registers are x0 to x31
/// and numbers are decimal; a branch or jump prints its offset, and `lui` and `auipc` their 20 bits, unsigned. It takes
/// constant time, and memory for the text, which has at most 40 bytes. The error is want of memory.
///
/// References: the RISC-V unprivileged manual, "RISC-V Assembly Programmer's Handbook".
pub fn text_of(alloc: Global, instr: &Instr) -> Result<Text, AllocError>
    ensures { IfOk result (λ text. text ≡ instruction_text instr.now) }
{
    match string_of(alloc, instr) {
        Ok(string) => Ok(Text::from_string(string)),
        Err(error) => Err(error),
    }
}

fn string_of(alloc: Global, instr: &Instr) -> Result<String, AllocError>
    ensures { IfOk result (λ text. string_bytes text ≡ instruction_text instr.now) }
{
    match *instr {
        Instr::Lui { rd, imm } => {
            let upper = upper_bits(imm);
            format!(in alloc; "lui x{rd}, {upper}")
        }
        Instr::Auipc { rd, imm } => {
            let upper = upper_bits(imm);
            format!(in alloc; "auipc x{rd}, {upper}")
        }
        Instr::Jal { rd, imm } => format!(in alloc; "jal x{rd}, {imm}"),
        Instr::Jalr { rd, rs1, imm } => format!(in alloc; "jalr x{rd}, {imm}(x{rs1})"),
        Instr::Branch { cmp, rs1, rs2, imm } => {
            let name = name_of_branch(cmp);
            format!(in alloc; "{name} x{rs1}, x{rs2}, {imm}")
        }
        Instr::Load { kind, rd, rs1, imm } => {
            let name = name_of_load(kind);
            format!(in alloc; "{name} x{rd}, {imm}(x{rs1})")
        }
        Instr::Store {
            width,
            rs1,
            rs2,
            imm,
        } => {
            let name = name_of_store(width);
            format!(in alloc; "{name} x{rs2}, {imm}(x{rs1})")
        }
        Instr::OpImm { op, rd, rs1, imm } => {
            let name = name_of_immediate_operation(op);
            format!(in alloc; "{name} x{rd}, x{rs1}, {imm}")
        }
        Instr::Op { op, rd, rs1, rs2 } => {
            let name = name_of_operation(op);
            format!(in alloc; "{name} x{rd}, x{rs1}, x{rs2}")
        }
        Instr::LoadReserved {
            wide,
            order,
            rd,
            rs1,
        } => {
            let width = suffix_of_width(wide);
            let order = suffix_of_order(order);
            format!(in alloc; "lr{width}{order} x{rd}, (x{rs1})")
        }
        Instr::StoreConditional {
            wide,
            order,
            rd,
            rs1,
            rs2,
        } => {
            let width = suffix_of_width(wide);
            let order = suffix_of_order(order);
            format!(in alloc; "sc{width}{order} x{rd}, x{rs2}, (x{rs1})")
        }
        Instr::Amo {
            op,
            wide,
            order,
            rd,
            rs1,
            rs2,
        } => {
            let name = name_of_memory_operation(op);
            let width = suffix_of_width(wide);
            let order = suffix_of_order(order);
            format!(in alloc; "{name}{width}{order} x{rd}, x{rs2}, (x{rs1})")
        }
        Instr::Fence { code, rd, rs1, imm } => {
            let name = name_of_fence(code);
            format!(in alloc; "{name} x{rd}, x{rs1}, {imm}")
        }
        Instr::Ecall => String::from_str(alloc, "ecall"),
        Instr::Ebreak => String::from_str(alloc, "ebreak"),
    }
}

/// The 20 bits of an upper immediate.
fn upper_bits(imm: i64) -> u64
    ensures { result ≡ bits (cast_unsigned w64 imm) 31 12 }
{
    (imm.cast_unsigned() >> 12) % (1 << 20)
}
