use super::*;
use isa_decode::{AluOp, AmoOp, Cmp, ImmOp, Instr, LoadKind, Width};
use std::alloc::AllocError;

#[test]
fn the_text_of_each_form(rt: HostRuntime) -> Result<(), AllocError> {
    let table = [
        (
            Instr::Lui {
                rd: 5,
                imm: 0x12345 * 4096,
            },
            "lui x5, 74565",
        ),
        (
            Instr::Lui {
                rd: 5,
                imm: -0x8000_0000,
            },
            "lui x5, 524288",
        ),
        (Instr::Lui { rd: 5, imm: -4096 }, "lui x5, 1048575"),
        (Instr::Auipc { rd: 31, imm: 0 }, "auipc x31, 0"),
        (
            Instr::Auipc {
                rd: 1,
                imm: 0x7FFF_F000,
            },
            "auipc x1, 524287",
        ),
        (
            Instr::Jal {
                rd: 1,
                imm: -1_048_576,
            },
            "jal x1, -1048576",
        ),
        (
            Instr::Jalr {
                rd: 0,
                rs1: 1,
                imm: 0,
            },
            "jalr x0, 0(x1)",
        ),
        (
            Instr::Jalr {
                rd: 1,
                rs1: 10,
                imm: -2048,
            },
            "jalr x1, -2048(x10)",
        ),
        (
            Instr::Branch {
                cmp: Cmp::Beq,
                rs1: 1,
                rs2: 2,
                imm: 4094,
            },
            "beq x1, x2, 4094",
        ),
        (
            Instr::Branch {
                cmp: Cmp::Bgeu,
                rs1: 3,
                rs2: 4,
                imm: -4096,
            },
            "bgeu x3, x4, -4096",
        ),
        (
            Instr::Load {
                kind: LoadKind::Lbu,
                rd: 7,
                rs1: 8,
                imm: -1,
            },
            "lbu x7, -1(x8)",
        ),
        (
            Instr::Load {
                kind: LoadKind::Ld,
                rd: 7,
                rs1: 2,
                imm: 16,
            },
            "ld x7, 16(x2)",
        ),
        (
            Instr::Store {
                width: Width::One,
                rs1: 2,
                rs2: 9,
                imm: 2047,
            },
            "sb x9, 2047(x2)",
        ),
        (
            Instr::Store {
                width: Width::Eight,
                rs1: 8,
                rs2: 9,
                imm: -8,
            },
            "sd x9, -8(x8)",
        ),
        (
            Instr::OpImm {
                op: ImmOp::Addi,
                rd: 10,
                rs1: 0,
                imm: -7,
            },
            "addi x10, x0, -7",
        ),
        (
            Instr::OpImm {
                op: ImmOp::Srai,
                rd: 10,
                rs1: 11,
                imm: 63,
            },
            "srai x10, x11, 63",
        ),
        (
            Instr::Op {
                op: AluOp::Add,
                rd: 10,
                rs1: 10,
                rs2: 11,
            },
            "add x10, x10, x11",
        ),
        (
            Instr::Op {
                op: AluOp::Mulhsu,
                rd: 1,
                rs1: 2,
                rs2: 3,
            },
            "mulhsu x1, x2, x3",
        ),
        (
            Instr::LoadReserved {
                wide: false,
                order: 2,
                rd: 5,
                rs1: 6,
            },
            "lr.w.aq x5, (x6)",
        ),
        (
            Instr::LoadReserved {
                wide: true,
                order: 3,
                rd: 5,
                rs1: 6,
            },
            "lr.d.aqrl x5, (x6)",
        ),
        (
            Instr::StoreConditional {
                wide: true,
                order: 1,
                rd: 5,
                rs1: 6,
                rs2: 7,
            },
            "sc.d.rl x5, x7, (x6)",
        ),
        (
            Instr::Amo {
                op: AmoOp::Amoadd,
                wide: true,
                order: 0,
                rd: 0,
                rs1: 18,
                rs2: 6,
            },
            "amoadd.d x0, x6, (x18)",
        ),
        (
            Instr::Amo {
                op: AmoOp::Amomaxu,
                wide: false,
                order: 3,
                rd: 1,
                rs1: 2,
                rs2: 3,
            },
            "amomaxu.w.aqrl x1, x3, (x2)",
        ),
        (
            Instr::Fence {
                code: false,
                rd: 0,
                rs1: 0,
                imm: 255,
            },
            "fence x0, x0, 255",
        ),
        (
            Instr::Fence {
                code: true,
                rd: 1,
                rs1: 2,
                imm: -2048,
            },
            "fence.i x1, x2, -2048",
        ),
        (Instr::Ecall, "ecall"),
        (Instr::Ebreak, "ebreak"),
    ];
    for (instr, want) in &table {
        let text = text_of(rt.alloc(), instr)?;
        assert_eq!(rt; text.as_str(), *want);
    }
    Ok(())
}
