use super::*;
use isa_decode::{AluOp, Cmp, ImmOp, Instr, LoadKind, Width};

fn lui(rd: u8, imm: i64) -> Instr {
    Instr::Lui { rd, imm }
}

fn jal(rd: u8, imm: i64) -> Instr {
    Instr::Jal { rd, imm }
}

fn jalr(rd: u8, rs1: u8, imm: i64) -> Instr {
    Instr::Jalr { rd, rs1, imm }
}

fn branch(cmp: Cmp, rs1: u8, rs2: u8, imm: i64) -> Instr {
    Instr::Branch { cmp, rs1, rs2, imm }
}

fn load(kind: LoadKind, rd: u8, rs1: u8, imm: i64) -> Instr {
    Instr::Load { kind, rd, rs1, imm }
}

fn store(width: Width, rs1: u8, rs2: u8, imm: i64) -> Instr {
    Instr::Store {
        width,
        rs1,
        rs2,
        imm,
    }
}

fn by_immediate(op: ImmOp, rd: u8, rs1: u8, imm: i64) -> Instr {
    Instr::OpImm { op, rd, rs1, imm }
}

fn by_register(op: AluOp, rd: u8, rs1: u8, rs2: u8) -> Instr {
    Instr::Op { op, rd, rs1, rs2 }
}

#[test]
fn every_form(rt: HostRuntime) {
    let table = [
        // c.addi4spn
        (0x0040, by_immediate(ImmOp::Addi, 8, 2, 4)),
        (0x0020, by_immediate(ImmOp::Addi, 8, 2, 8)),
        (0x0800, by_immediate(ImmOp::Addi, 8, 2, 16)),
        (0x1000, by_immediate(ImmOp::Addi, 8, 2, 32)),
        (0x0080, by_immediate(ImmOp::Addi, 8, 2, 64)),
        (0x0400, by_immediate(ImmOp::Addi, 8, 2, 512)),
        (0x1FE0, by_immediate(ImmOp::Addi, 8, 2, 1020)),
        (0x079C, by_immediate(ImmOp::Addi, 15, 2, 960)),
        (0x1534, by_immediate(ImmOp::Addi, 13, 2, 680)),
        // c.lw
        (0x4380, load(LoadKind::Lw, 8, 15, 0)),
        (0x4344, load(LoadKind::Lw, 9, 14, 4)),
        (0x4688, load(LoadKind::Lw, 10, 13, 8)),
        (0x520C, load(LoadKind::Lw, 11, 12, 32)),
        (0x41B0, load(LoadKind::Lw, 12, 11, 64)),
        (0x5C7C, load(LoadKind::Lw, 15, 8, 124)),
        // c.ld
        (0x6380, load(LoadKind::Ld, 8, 15, 0)),
        (0x6704, load(LoadKind::Ld, 9, 14, 8)),
        (0x7288, load(LoadKind::Ld, 10, 13, 32)),
        (0x622C, load(LoadKind::Ld, 11, 12, 64)),
        (0x61D0, load(LoadKind::Ld, 12, 11, 128)),
        (0x7C7C, load(LoadKind::Ld, 15, 8, 248)),
        // c.sw
        (0xC01C, store(Width::Four, 8, 15, 0)),
        (0xC0D8, store(Width::Four, 9, 14, 4)),
        (0xC514, store(Width::Four, 10, 13, 8)),
        (0xD190, store(Width::Four, 11, 12, 32)),
        (0xC22C, store(Width::Four, 12, 11, 64)),
        (0xDFE0, store(Width::Four, 15, 8, 124)),
        // c.sd
        (0xE01C, store(Width::Eight, 8, 15, 0)),
        (0xE498, store(Width::Eight, 9, 14, 8)),
        (0xF114, store(Width::Eight, 10, 13, 32)),
        (0xE1B0, store(Width::Eight, 11, 12, 64)),
        (0xE24C, store(Width::Eight, 12, 11, 128)),
        (0xFFE0, store(Width::Eight, 15, 8, 248)),
        // c.nop
        (0x0001, by_immediate(ImmOp::Addi, 0, 0, 0)),
        // c.addi
        (0x1081, by_immediate(ImmOp::Addi, 1, 1, -32)),
        (0x0FFD, by_immediate(ImmOp::Addi, 31, 31, 31)),
        (0x0105, by_immediate(ImmOp::Addi, 2, 2, 1)),
        (0x157D, by_immediate(ImmOp::Addi, 10, 10, -1)),
        // c.addiw
        (0x3081, by_immediate(ImmOp::Addiw, 1, 1, -32)),
        (0x2FFD, by_immediate(ImmOp::Addiw, 31, 31, 31)),
        (0x2101, by_immediate(ImmOp::Addiw, 2, 2, 0)),
        (0x35FD, by_immediate(ImmOp::Addiw, 11, 11, -1)),
        // c.li
        (0x5081, by_immediate(ImmOp::Addi, 1, 0, -32)),
        (0x4FFD, by_immediate(ImmOp::Addi, 31, 0, 31)),
        (0x4101, by_immediate(ImmOp::Addi, 2, 0, 0)),
        (0x567D, by_immediate(ImmOp::Addi, 12, 0, -1)),
        // c.addi16sp
        (0x7101, by_immediate(ImmOp::Addi, 2, 2, -512)),
        (0x617D, by_immediate(ImmOp::Addi, 2, 2, 496)),
        (0x6141, by_immediate(ImmOp::Addi, 2, 2, 16)),
        (0x6105, by_immediate(ImmOp::Addi, 2, 2, 32)),
        (0x6121, by_immediate(ImmOp::Addi, 2, 2, 64)),
        (0x6109, by_immediate(ImmOp::Addi, 2, 2, 128)),
        (0x6111, by_immediate(ImmOp::Addi, 2, 2, 256)),
        (0x717D, by_immediate(ImmOp::Addi, 2, 2, -16)),
        // c.lui
        (0x7081, lui(1, -0x2_0000)),
        (0x6FFD, lui(31, 0x1_F000)),
        (0x6185, lui(3, 4096)),
        (0x76FD, lui(13, -4096)),
        (0x6741, lui(14, 0x1_0000)),
        // c.srli
        (0x8005, by_immediate(ImmOp::Srli, 8, 8, 1)),
        (0x93FD, by_immediate(ImmOp::Srli, 15, 15, 63)),
        (0x9081, by_immediate(ImmOp::Srli, 9, 9, 32)),
        // c.srai
        (0x8505, by_immediate(ImmOp::Srai, 10, 10, 1)),
        (0x977D, by_immediate(ImmOp::Srai, 14, 14, 63)),
        (0x9581, by_immediate(ImmOp::Srai, 11, 11, 32)),
        // c.andi
        (0x9801, by_immediate(ImmOp::Andi, 8, 8, -32)),
        (0x8BFD, by_immediate(ImmOp::Andi, 15, 15, 31)),
        (0x8A01, by_immediate(ImmOp::Andi, 12, 12, 0)),
        (0x9AFD, by_immediate(ImmOp::Andi, 13, 13, -1)),
        // c.sub
        (0x8C1D, by_register(AluOp::Sub, 8, 8, 15)),
        // c.xor
        (0x8CB9, by_register(AluOp::Xor, 9, 9, 14)),
        // c.or
        (0x8D55, by_register(AluOp::Or, 10, 10, 13)),
        // c.and
        (0x8DF1, by_register(AluOp::And, 11, 11, 12)),
        // c.subw
        (0x9E05, by_register(AluOp::Subw, 12, 12, 9)),
        // c.addw
        (0x9FA1, by_register(AluOp::Addw, 15, 15, 8)),
        // c.j
        (0xB001, jal(0, -2048)),
        (0xAFFD, jal(0, 2046)),
        (0xBFFD, jal(0, -2)),
        (0xA801, jal(0, 16)),
        (0xA201, jal(0, 256)),
        (0xA401, jal(0, 512)),
        (0xA601, jal(0, 768)),
        (0xA101, jal(0, 1024)),
        (0xA081, jal(0, 64)),
        (0xA041, jal(0, 128)),
        (0xA009, jal(0, 2)),
        (0xA021, jal(0, 8)),
        (0xA039, jal(0, 14)),
        (0xA005, jal(0, 32)),
        (0xA001, jal(0, 0)),
        // c.beqz
        (0xD001, branch(Cmp::Beq, 8, 0, -256)),
        (0xCFFD, branch(Cmp::Beq, 15, 0, 254)),
        (0xDCFD, branch(Cmp::Beq, 9, 0, -2)),
        (0xC501, branch(Cmp::Beq, 10, 0, 8)),
        (0xC981, branch(Cmp::Beq, 11, 0, 16)),
        (0xC221, branch(Cmp::Beq, 12, 0, 64)),
        (0xC2C1, branch(Cmp::Beq, 13, 0, 128)),
        (0xC361, branch(Cmp::Beq, 14, 0, 192)),
        (0xC009, branch(Cmp::Beq, 8, 0, 2)),
        (0xC091, branch(Cmp::Beq, 9, 0, 4)),
        (0xC119, branch(Cmp::Beq, 10, 0, 6)),
        (0xC185, branch(Cmp::Beq, 11, 0, 32)),
        (0xC201, branch(Cmp::Beq, 12, 0, 0)),
        // c.bnez
        (0xF381, branch(Cmp::Bne, 15, 0, -256)),
        (0xEC7D, branch(Cmp::Bne, 8, 0, 254)),
        (0xFF7D, branch(Cmp::Bne, 14, 0, -2)),
        (0xEE81, branch(Cmp::Bne, 13, 0, 24)),
        (0xE261, branch(Cmp::Bne, 12, 0, 192)),
        (0xE199, branch(Cmp::Bne, 11, 0, 6)),
        (0xE105, branch(Cmp::Bne, 10, 0, 32)),
        // c.slli
        (0x0086, by_immediate(ImmOp::Slli, 1, 1, 1)),
        (0x1FFE, by_immediate(ImmOp::Slli, 31, 31, 63)),
        (0x1882, by_immediate(ImmOp::Slli, 17, 17, 32)),
        // c.lwsp
        (0x4082, load(LoadKind::Lw, 1, 2, 0)),
        (0x5FFE, load(LoadKind::Lw, 31, 2, 252)),
        (0x4292, load(LoadKind::Lw, 5, 2, 4)),
        (0x4342, load(LoadKind::Lw, 6, 2, 16)),
        (0x5382, load(LoadKind::Lw, 7, 2, 32)),
        (0x4406, load(LoadKind::Lw, 8, 2, 64)),
        (0x448A, load(LoadKind::Lw, 9, 2, 128)),
        // c.ldsp
        (0x6082, load(LoadKind::Ld, 1, 2, 0)),
        (0x7FFE, load(LoadKind::Ld, 31, 2, 504)),
        (0x62A2, load(LoadKind::Ld, 5, 2, 8)),
        (0x6342, load(LoadKind::Ld, 6, 2, 16)),
        (0x7382, load(LoadKind::Ld, 7, 2, 32)),
        (0x6406, load(LoadKind::Ld, 8, 2, 64)),
        (0x6492, load(LoadKind::Ld, 9, 2, 256)),
        (0x650A, load(LoadKind::Ld, 10, 2, 128)),
        // c.jr
        (0x8282, jalr(0, 5, 0)),
        (0x8F82, jalr(0, 31, 0)),
        // c.mv
        (0x829A, by_register(AluOp::Add, 5, 0, 6)),
        (0x8F86, by_register(AluOp::Add, 31, 0, 1)),
        // c.ebreak
        (0x9002, Instr::Ebreak),
        // c.jalr
        (0x9282, jalr(1, 5, 0)),
        (0x9F82, jalr(1, 31, 0)),
        // c.add
        (0x9316, by_register(AluOp::Add, 6, 6, 5)),
        (0x90FE, by_register(AluOp::Add, 1, 1, 31)),
        // c.swsp
        (0xC002, store(Width::Four, 2, 0, 0)),
        (0xDFFE, store(Width::Four, 2, 31, 252)),
        (0xC216, store(Width::Four, 2, 5, 4)),
        (0xC41A, store(Width::Four, 2, 6, 8)),
        (0xD01E, store(Width::Four, 2, 7, 32)),
        (0xC0A2, store(Width::Four, 2, 8, 64)),
        (0xC126, store(Width::Four, 2, 9, 128)),
        // c.sdsp
        (0xE002, store(Width::Eight, 2, 0, 0)),
        (0xFFFE, store(Width::Eight, 2, 31, 504)),
        (0xE416, store(Width::Eight, 2, 5, 8)),
        (0xE81A, store(Width::Eight, 2, 6, 16)),
        (0xF01E, store(Width::Eight, 2, 7, 32)),
        (0xE0A2, store(Width::Eight, 2, 8, 64)),
        (0xE226, store(Width::Eight, 2, 9, 256)),
        (0xE12A, store(Width::Eight, 2, 10, 128)),
    ];
    for (half, instr) in table {
        assert_eq!(rt; expand(half), Some(instr), "at {half:#x}");
    }
}

#[test]
fn hints_expand_as_written(rt: HostRuntime) {
    let table = [
        // an addition to register 0
        (0x0005, by_immediate(ImmOp::Addi, 0, 0, 1)),
        (0x1001, by_immediate(ImmOp::Addi, 0, 0, -32)),
        (0x007D, by_immediate(ImmOp::Addi, 0, 0, 31)),
        // an addition of 0
        (0x0281, by_immediate(ImmOp::Addi, 5, 5, 0)),
        (0x0101, by_immediate(ImmOp::Addi, 2, 2, 0)),
        (0x0F81, by_immediate(ImmOp::Addi, 31, 31, 0)),
        // register 0 is set
        (0x4001, by_immediate(ImmOp::Addi, 0, 0, 0)),
        (0x507D, by_immediate(ImmOp::Addi, 0, 0, -1)),
        (0x407D, by_immediate(ImmOp::Addi, 0, 0, 31)),
        (0x6005, lui(0, 4096)),
        (0x7001, lui(0, -0x2_0000)),
        (0x8016, by_register(AluOp::Add, 0, 0, 5)),
        (0x807E, by_register(AluOp::Add, 0, 0, 31)),
        (0x901A, by_register(AluOp::Add, 0, 0, 6)),
        (0x907E, by_register(AluOp::Add, 0, 0, 31)),
        (0x0016, by_immediate(ImmOp::Slli, 0, 0, 5)),
        (0x107E, by_immediate(ImmOp::Slli, 0, 0, 63)),
        // a shift by 0
        (0x0282, by_immediate(ImmOp::Slli, 5, 5, 0)),
        (0x0002, by_immediate(ImmOp::Slli, 0, 0, 0)),
        (0x0F82, by_immediate(ImmOp::Slli, 31, 31, 0)),
        (0x8001, by_immediate(ImmOp::Srli, 8, 8, 0)),
        (0x8381, by_immediate(ImmOp::Srli, 15, 15, 0)),
        (0x8481, by_immediate(ImmOp::Srai, 9, 9, 0)),
        (0x8701, by_immediate(ImmOp::Srai, 14, 14, 0)),
    ];
    for (half, instr) in table {
        assert_eq!(rt; expand(half), Some(instr), "at {half:#x}");
    }
}

#[test]
fn half_words_that_are_no_instruction(rt: HostRuntime) {
    let families: [(&str, &[u16]); 8] = [
        (
            "all bits clear, and an addition of 0 to the stack pointer",
            &[
                0x0000, 0x0004, 0x0008, 0x000C, 0x0010, 0x0014, 0x0018, 0x001C,
            ],
        ),
        (
            "floating-point loads and stores, and the reserved row",
            &[
                0x2000, 0x3FFC, 0x2554, 0x8000, 0x9FFC, 0x8554, 0xA000, 0xBFFC, 0xA554, 0x2002,
                0x3FFE, 0x2556, 0xA002, 0xBFFE, 0xA556,
            ],
        ),
        ("c.addiw at register 0", &[0x2001, 0x2005, 0x3001, 0x307D]),
        (
            "c.addi16sp and c.lui of 0",
            &[0x6001, 0x6081, 0x6101, 0x6181, 0x6501, 0x6F81],
        ),
        (
            "the two reserved places beside c.subw and c.addw",
            &[0x9C41, 0x9FDD, 0x9D55, 0x9C61, 0x9FFD, 0x9D75],
        ),
        (
            "c.lwsp and c.ldsp at register 0",
            &[
                0x4002, 0x4006, 0x5002, 0x507E, 0x6002, 0x6006, 0x7002, 0x707E,
            ],
        ),
        ("c.jr at register 0", &[0x8002]),
        (
            "the first half of a word of 4 bytes",
            &[
                0x0003, 0x0513, 0x0073, 0x80B3, 0x2FAF, 0xFFFF, 0x4503, 0x8083,
            ],
        ),
    ];
    for (family, halves) in families {
        for half in halves {
            assert_eq!(rt; expand(*half), None, "{family}: {half:#x}");
        }
    }
}

#[test]
fn worked_half_words(rt: HostRuntime) {
    assert_eq!(rt;
        expand(0x4501),
        Some(by_immediate(ImmOp::Addi, 10, 0, 0)),
        "c.li x10, 0"
    );
    assert_eq!(rt; expand(0x8082), Some(jalr(0, 1, 0)), "c.jr x1");
    assert_eq!(rt; expand(0), None, "zeros");
}
