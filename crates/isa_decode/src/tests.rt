use super::*;

fn lui(rd: u8, imm: i64) -> Instr {
    Instr::Lui { rd, imm }
}

fn auipc(rd: u8, imm: i64) -> Instr {
    Instr::Auipc { rd, imm }
}

fn jal(rd: u8, imm: i64) -> Instr {
    Instr::Jal { rd, imm }
}

fn jalr(rd: u8, rs1: u8, imm: i64) -> Instr {
    Instr::Jalr { rd, rs1, imm }
}

fn branch(cmp: Cmp, rs1: u8, rs2: u8, imm: i64) -> Instr {
    Instr::Branch { cmp, rs1, rs2, imm }
}

fn load(kind: LoadKind, rd: u8, rs1: u8, imm: i64) -> Instr {
    Instr::Load { kind, rd, rs1, imm }
}

fn store(width: Width, rs1: u8, rs2: u8, imm: i64) -> Instr {
    Instr::Store {
        width,
        rs1,
        rs2,
        imm,
    }
}

fn by_immediate(op: ImmOp, rd: u8, rs1: u8, imm: i64) -> Instr {
    Instr::OpImm { op, rd, rs1, imm }
}

fn by_register(op: AluOp, rd: u8, rs1: u8, rs2: u8) -> Instr {
    Instr::Op { op, rd, rs1, rs2 }
}

fn load_reserved(wide: bool, order: u8, rd: u8, rs1: u8) -> Instr {
    Instr::LoadReserved {
        wide,
        order,
        rd,
        rs1,
    }
}

fn store_conditional(wide: bool, order: u8, rd: u8, rs1: u8, rs2: u8) -> Instr {
    Instr::StoreConditional {
        wide,
        order,
        rd,
        rs1,
        rs2,
    }
}

fn amo(op: AmoOp, wide: bool, order: u8, rd: u8, rs1: u8, rs2: u8) -> Instr {
    Instr::Amo {
        op,
        wide,
        order,
        rd,
        rs1,
        rs2,
    }
}

fn fence(code: bool, rd: u8, rs1: u8, imm: i64) -> Instr {
    Instr::Fence { code, rd, rs1, imm }
}

#[test]
fn every_mnemonic_of_the_listing(rt: HostRuntime) {
    let table = [
        // upper immediates and jumps
        (0x1234_52B7, lui(5, 0x1234_5000)),
        (0x8123_4317, auipc(6, -0x7EDC_C000)),
        (0x2340_10EF, jal(1, 4660)),
        (0xEDD4_03E7, jalr(7, 8, -291)),
        // branches
        (0x0020_8463, branch(Cmp::Beq, 1, 2, 8)),
        (0xFE41_9CE3, branch(Cmp::Bne, 3, 4, -8)),
        (0x7E62_CF63, branch(Cmp::Blt, 5, 6, 2046)),
        (0xFE83_DF63, branch(Cmp::Bge, 7, 8, -2050)),
        (0x54A4_EA63, branch(Cmp::Bltu, 9, 10, 1364)),
        (0xABFF_75E3, branch(Cmp::Bgeu, 30, 31, -1366)),
        // loads
        (0xFFF6_0583, load(LoadKind::Lb, 11, 12, -1)),
        (0x0027_1683, load(LoadKind::Lh, 13, 14, 2)),
        (0xFFC8_2783, load(LoadKind::Lw, 15, 16, -4)),
        (0x0089_3883, load(LoadKind::Ld, 17, 18, 8)),
        (0x7FFA_4983, load(LoadKind::Lbu, 19, 20, 2047)),
        (0x800B_5A83, load(LoadKind::Lhu, 21, 22, -2048)),
        (0x123C_6B83, load(LoadKind::Lwu, 23, 24, 291)),
        // stores
        (0xFFAC_8FA3, store(Width::One, 25, 26, -1)),
        (0x01CD_9123, store(Width::Two, 27, 28, 2)),
        (0xFFEE_AE23, store(Width::Four, 29, 30, -4)),
        (0x13F1_31A3, store(Width::Eight, 2, 31, 291)),
        // operations on an immediate
        (0xFF91_0093, by_immediate(ImmOp::Addi, 1, 2, -7)),
        (0x0082_2193, by_immediate(ImmOp::Slti, 3, 4, 8)),
        (0xFF73_3293, by_immediate(ImmOp::Sltiu, 5, 6, -9)),
        (0x5554_4393, by_immediate(ImmOp::Xori, 7, 8, 1365)),
        (0xAAA5_6493, by_immediate(ImmOp::Ori, 9, 10, -1366)),
        (0x0FF6_7593, by_immediate(ImmOp::Andi, 11, 12, 255)),
        (0x0217_1693, by_immediate(ImmOp::Slli, 13, 14, 33)),
        (0x0228_5793, by_immediate(ImmOp::Srli, 15, 16, 34)),
        (0x4239_5893, by_immediate(ImmOp::Srai, 17, 18, 35)),
        (0xFFAA_099B, by_immediate(ImmOp::Addiw, 19, 20, -6)),
        (0x011B_1A9B, by_immediate(ImmOp::Slliw, 21, 22, 17)),
        (0x012C_5B9B, by_immediate(ImmOp::Srliw, 23, 24, 18)),
        (0x413D_5C9B, by_immediate(ImmOp::Sraiw, 25, 26, 19)),
        // operations on two registers
        (0x0092_00B3, by_register(AluOp::Add, 1, 4, 9)),
        (0x40B2_8133, by_register(AluOp::Sub, 2, 5, 11)),
        (0x00D3_11B3, by_register(AluOp::Sll, 3, 6, 13)),
        (0x00F3_A233, by_register(AluOp::Slt, 4, 7, 15)),
        (0x0114_32B3, by_register(AluOp::Sltu, 5, 8, 17)),
        (0x0134_C333, by_register(AluOp::Xor, 6, 9, 19)),
        (0x0155_53B3, by_register(AluOp::Srl, 7, 10, 21)),
        (0x4175_D433, by_register(AluOp::Sra, 8, 11, 23)),
        (0x0196_64B3, by_register(AluOp::Or, 9, 12, 25)),
        (0x01B6_F533, by_register(AluOp::And, 10, 13, 27)),
        (0x03D7_05B3, by_register(AluOp::Mul, 11, 14, 29)),
        (0x03F7_9633, by_register(AluOp::Mulh, 12, 15, 31)),
        (0x0218_26B3, by_register(AluOp::Mulhsu, 13, 16, 1)),
        (0x0238_B733, by_register(AluOp::Mulhu, 14, 17, 3)),
        (0x0259_47B3, by_register(AluOp::Div, 15, 18, 5)),
        (0x0279_D833, by_register(AluOp::Divu, 16, 19, 7)),
        (0x029A_68B3, by_register(AluOp::Rem, 17, 20, 9)),
        (0x02BA_F933, by_register(AluOp::Remu, 18, 21, 11)),
        // and on their lower 32 bits
        (0x00DB_09BB, by_register(AluOp::Addw, 19, 22, 13)),
        (0x40FB_8A3B, by_register(AluOp::Subw, 20, 23, 15)),
        (0x011C_1ABB, by_register(AluOp::Sllw, 21, 24, 17)),
        (0x013C_DB3B, by_register(AluOp::Srlw, 22, 25, 19)),
        (0x415D_5BBB, by_register(AluOp::Sraw, 23, 26, 21)),
        (0x037D_8C3B, by_register(AluOp::Mulw, 24, 27, 23)),
        (0x039E_4CBB, by_register(AluOp::Divw, 25, 28, 25)),
        (0x03BE_DD3B, by_register(AluOp::Divuw, 26, 29, 27)),
        (0x03DF_6DBB, by_register(AluOp::Remw, 27, 30, 29)),
        (0x03FF_FE3B, by_register(AluOp::Remuw, 28, 31, 31)),
        // words of memory
        (0x1001_20AF, load_reserved(false, 0, 1, 2)),
        (0x1E52_21AF, store_conditional(false, 3, 3, 4, 5)),
        (0x0A83_A32F, amo(AmoOp::Amoswap, false, 1, 6, 7, 8)),
        (0x0494_23AF, amo(AmoOp::Amoadd, false, 2, 7, 8, 9)),
        (0x26A4_A42F, amo(AmoOp::Amoxor, false, 3, 8, 9, 10)),
        (0x60B5_24AF, amo(AmoOp::Amoand, false, 0, 9, 10, 11)),
        (0x42C5_A52F, amo(AmoOp::Amoor, false, 1, 10, 11, 12)),
        (0x84D6_25AF, amo(AmoOp::Amomin, false, 2, 11, 12, 13)),
        (0xA6E6_A62F, amo(AmoOp::Amomax, false, 3, 12, 13, 14)),
        (0xC0F7_26AF, amo(AmoOp::Amominu, false, 0, 13, 14, 15)),
        (0xE307_A72F, amo(AmoOp::Amomaxu, false, 1, 14, 15, 16)),
        // doublewords of memory
        (0x140A_BA2F, load_reserved(true, 2, 20, 21)),
        (0x1B8B_BB2F, store_conditional(true, 1, 22, 23, 24)),
        (0x0DBD_3CAF, amo(AmoOp::Amoswap, true, 2, 25, 26, 27)),
        (0x07CD_BD2F, amo(AmoOp::Amoadd, true, 3, 26, 27, 28)),
        (0x21DE_3DAF, amo(AmoOp::Amoxor, true, 0, 27, 28, 29)),
        (0x63EE_BE2F, amo(AmoOp::Amoand, true, 1, 28, 29, 30)),
        (0x45FF_3EAF, amo(AmoOp::Amoor, true, 2, 29, 30, 31)),
        (0x860F_BF2F, amo(AmoOp::Amomin, true, 3, 30, 31, 0)),
        (0xA010_3FAF, amo(AmoOp::Amomax, true, 0, 31, 0, 1)),
        (0xC220_B02F, amo(AmoOp::Amominu, true, 1, 0, 1, 2)),
        (0xE431_30AF, amo(AmoOp::Amomaxu, true, 2, 1, 2, 3)),
        // fences and calls of the system
        (0x0310_000F, fence(false, 0, 0, 49)),
        (0x0000_100F, fence(true, 0, 0, 0)),
        (0x0000_0073, Instr::Ecall),
        (0x0010_0073, Instr::Ebreak),
    ];
    for (word, instr) in table {
        assert_eq!(rt; decode(word), Some(instr), "at {word:#x}");
        assert!(rt; is_in_range(&instr), "at {word:#x}");
        assert_eq!(rt; encode(&instr), word, "at {word:#x}");
    }
}

#[test]
fn least_and_largest_immediates(rt: HostRuntime) {
    let table = [
        // 12 bits in one piece
        (0x8001_0093, by_immediate(ImmOp::Addi, 1, 2, -2048)),
        (0x7FF1_0093, by_immediate(ImmOp::Addi, 1, 2, 2047)),
        (0xFFF1_0093, by_immediate(ImmOp::Addi, 1, 2, -1)),
        (0x0011_0093, by_immediate(ImmOp::Addi, 1, 2, 1)),
        (0x4001_0093, by_immediate(ImmOp::Addi, 1, 2, 1024)),
        (0x800F_6F83, load(LoadKind::Lwu, 31, 30, -2048)),
        (0x7FFF_6F83, load(LoadKind::Lwu, 31, 30, 2047)),
        (0x800F_8067, jalr(0, 31, -2048)),
        (0x7FF0_0FE7, jalr(31, 0, 2047)),
        // stores: 7 bits above 5
        (0x8041_B023, store(Width::Eight, 3, 4, -2048)),
        (0x7E41_BFA3, store(Width::Eight, 3, 4, 2047)),
        (0xFE41_BFA3, store(Width::Eight, 3, 4, -1)),
        (0x0041_B0A3, store(Width::Eight, 3, 4, 1)),
        (0x0041_B823, store(Width::Eight, 3, 4, 16)),
        (0x0041_BFA3, store(Width::Eight, 3, 4, 31)),
        (0x0241_B023, store(Width::Eight, 3, 4, 32)),
        (0x4041_B023, store(Width::Eight, 3, 4, 1024)),
        // branches: bit 12, bit 11, 6 bits, 4 bits
        (0x8062_C063, branch(Cmp::Blt, 5, 6, -4096)),
        (0x7E62_CFE3, branch(Cmp::Blt, 5, 6, 4094)),
        (0xFE62_CFE3, branch(Cmp::Blt, 5, 6, -2)),
        (0x0062_C0E3, branch(Cmp::Blt, 5, 6, 2048)),
        (0x4062_C063, branch(Cmp::Blt, 5, 6, 1024)),
        (0x0262_C063, branch(Cmp::Blt, 5, 6, 32)),
        (0x7E62_C063, branch(Cmp::Blt, 5, 6, 2016)),
        (0x0062_C863, branch(Cmp::Blt, 5, 6, 16)),
        (0x0062_C163, branch(Cmp::Blt, 5, 6, 2)),
        (0x0062_CF63, branch(Cmp::Blt, 5, 6, 30)),
        // the upper 20 bits
        (0x8000_03B7, lui(7, -0x8000_0000)),
        (0x7FFF_F3B7, lui(7, 0x7FFF_F000)),
        (0xFFFF_F3B7, lui(7, -4096)),
        (0x0000_13B7, lui(7, 4096)),
        (0x4000_03B7, lui(7, 0x4000_0000)),
        (0x0000_03B7, lui(7, 0)),
        (0x8000_0417, auipc(8, -0x8000_0000)),
        (0x7FFF_F417, auipc(8, 0x7FFF_F000)),
        // jal: bit 20, 8 bits, bit 11, 10 bits
        (0x8000_04EF, jal(9, -0x10_0000)),
        (0x7FFF_F4EF, jal(9, 0xF_FFFE)),
        (0xFFFF_F4EF, jal(9, -2)),
        (0x0008_04EF, jal(9, 0x8_0000)),
        (0x0000_14EF, jal(9, 4096)),
        (0x000F_F4EF, jal(9, 0xF_F000)),
        (0x0010_04EF, jal(9, 2048)),
        (0x4000_04EF, jal(9, 1024)),
        (0x0020_04EF, jal(9, 2)),
        (0x7FE0_04EF, jal(9, 2046)),
        // amounts of 6 bits
        (0x0005_9513, by_immediate(ImmOp::Slli, 10, 11, 0)),
        (0x03F5_9513, by_immediate(ImmOp::Slli, 10, 11, 63)),
        (0x0205_9513, by_immediate(ImmOp::Slli, 10, 11, 32)),
        (0x0005_D513, by_immediate(ImmOp::Srli, 10, 11, 0)),
        (0x03F5_D513, by_immediate(ImmOp::Srli, 10, 11, 63)),
        (0x0205_D513, by_immediate(ImmOp::Srli, 10, 11, 32)),
        (0x4005_D513, by_immediate(ImmOp::Srai, 10, 11, 0)),
        (0x43F5_D513, by_immediate(ImmOp::Srai, 10, 11, 63)),
        (0x4205_D513, by_immediate(ImmOp::Srai, 10, 11, 32)),
        // amounts of 5 bits
        (0x0006_961B, by_immediate(ImmOp::Slliw, 12, 13, 0)),
        (0x01F6_961B, by_immediate(ImmOp::Slliw, 12, 13, 31)),
        (0x0106_961B, by_immediate(ImmOp::Slliw, 12, 13, 16)),
        (0x0006_D61B, by_immediate(ImmOp::Srliw, 12, 13, 0)),
        (0x01F6_D61B, by_immediate(ImmOp::Srliw, 12, 13, 31)),
        (0x0106_D61B, by_immediate(ImmOp::Srliw, 12, 13, 16)),
        (0x4006_D61B, by_immediate(ImmOp::Sraiw, 12, 13, 0)),
        (0x41F6_D61B, by_immediate(ImmOp::Sraiw, 12, 13, 31)),
        (0x4106_D61B, by_immediate(ImmOp::Sraiw, 12, 13, 16)),
        // a fence keeps all its fields
        (0x8007_870F, fence(false, 14, 15, -2048)),
        (0x7FF8_980F, fence(true, 16, 17, 2047)),
        (0xFFFF_8F8F, fence(false, 31, 31, -1)),
        (0x0FF0_000F, fence(false, 0, 0, 255)),
        (0x8330_000F, fence(false, 0, 0, -1997)),
    ];
    for (word, instr) in table {
        assert_eq!(rt; decode(word), Some(instr), "at {word:#x}");
        assert!(rt; is_in_range(&instr), "at {word:#x}");
        assert_eq!(rt; encode(&instr), word, "at {word:#x}");
    }
}

#[test]
fn words_that_are_no_instruction(rt: HostRuntime) {
    let families: [(&str, &[u32]); 17] = [
        (
            "all bits clear, all bits set, and opcodes of other extensions",
            &[
                0x00000000, 0xFFFFFFFF, 0x00310087, 0x0031008B, 0x003100A7, 0x003100AB, 0x003100C3,
                0x003100C7, 0x003100CB, 0x003100CF, 0x003100D3, 0x003100D7, 0x003100DB, 0x003100EB,
                0x003100F7, 0x003100FB, 0x003100FF, 0x0031009F,
            ],
        ),
        (
            "opcodes whose two lowest bits are not both set",
            &[
                0x003100B6, 0x003100B5, 0x00310092, 0x003100B1, 0x003100E2, 0x003100F0,
            ],
        ),
        (
            "jalr",
            &[
                0x003110E7, 0x003120E7, 0x003130E7, 0x003140E7, 0x003150E7, 0x003160E7, 0x003170E7,
            ],
        ),
        ("branches", &[0x003120E3, 0x003130E3]),
        (
            "loads and stores",
            &[0x00317083, 0x003140A3, 0x003150A3, 0x003160A3, 0x003170A3],
        ),
        (
            "shifts of 64 bits: wrong bits above the amount",
            &[
                0x04311093, 0x08311093, 0x10311093, 0x20311093, 0x40311093, 0x80311093, 0x04315093,
                0x08315093, 0x10315093, 0x20315093, 0x80315093, 0x44315093, 0x48315093, 0x50315093,
                0x60315093, 0xC0315093, 0xC0311093,
            ],
        ),
        (
            "shifts of 32 bits: an amount of 32, and wrong bits above it",
            &[
                0x0231109B, 0x0231509B, 0x4231509B, 0x0431109B, 0x0831109B, 0x1031109B, 0x2031109B,
                0x4031109B, 0x8031109B, 0x0431509B, 0x0831509B, 0x1031509B, 0x2031509B, 0x8031509B,
                0x4431509B, 0x4831509B, 0x5031509B, 0x6031509B, 0xC031509B,
            ],
        ),
        (
            "operations of 32 bits on an immediate: other kinds",
            &[0x0031209B, 0x0031309B, 0x0031409B, 0x0031609B, 0x0031709B],
        ),
        (
            "operations of 64 bits: wrong bits in the upper seven",
            &[
                0x043100B3, 0x083100B3, 0x103100B3, 0x203100B3, 0x803100B3, 0x423100B3, 0x443100B3,
                0x483100B3, 0x503100B3, 0x603100B3, 0xC03100B3, 0x423150B3, 0x443150B3, 0x483150B3,
                0x503150B3, 0x603150B3, 0xC03150B3, 0x063100B3, 0x0A3110B3, 0x123120B3, 0x223130B3,
                0x423140B3, 0x823150B3, 0x063160B3, 0x0A3170B3, 0x043110B3, 0x083120B3, 0x103130B3,
                0x203140B3, 0x803150B3, 0x043160B3, 0x083170B3,
            ],
        ),
        (
            "subtraction and the arithmetic shift alone have bit 30 set",
            &[
                0x403110B3, 0x403120B3, 0x403130B3, 0x403140B3, 0x403160B3, 0x403170B3,
            ],
        ),
        (
            "operations of 32 bits: other kinds, and wrong bits in the upper seven",
            &[
                0x003120BB, 0x003130BB, 0x003140BB, 0x003160BB, 0x003170BB, 0x403110BB, 0x403120BB,
                0x403130BB, 0x403140BB, 0x403160BB, 0x403170BB, 0x023110BB, 0x023120BB, 0x023130BB,
                0x043100BB, 0x083100BB, 0x103100BB, 0x203100BB, 0x803100BB, 0x423100BB, 0x443100BB,
                0xC03100BB, 0x423150BB, 0x483150BB, 0xC03150BB, 0x043110BB, 0x083150BB, 0x063100BB,
                0x0A3140BB, 0x123150BB, 0x223160BB, 0x823170BB,
            ],
        ),
        (
            "atomics: other widths",
            &[
                0x003100AF, 0x003110AF, 0x003140AF, 0x003150AF, 0x003160AF, 0x003170AF,
            ],
        ),
        (
            "lr with a second register",
            &[0x101120AF, 0x101130AF, 0x110120AF, 0x17F130AF],
        ),
        (
            "atomics: other operations",
            &[
                0x283120AF, 0x323130AF, 0x3C3120AF, 0x4E3130AF, 0x503120AF, 0x5A3130AF, 0x6C3120AF,
                0x763130AF, 0x783120AF, 0x8A3130AF, 0x943120AF, 0x9E3130AF, 0xA83120AF, 0xB23130AF,
                0xBC3120AF, 0xCE3130AF, 0xD03120AF, 0xDA3130AF, 0xEC3120AF, 0xF63130AF, 0xF83120AF,
            ],
        ),
        (
            "fences: other kinds",
            &[
                0x0000200F, 0x0000300F, 0x0000400F, 0x0000500F, 0x0000600F, 0x0000700F,
            ],
        ),
        (
            "ecall and ebreak with a register, another kind, or another immediate",
            &[
                0x000000F3, 0x00000873, 0x00001073, 0x00002073, 0x00004073, 0x00008073, 0x00080073,
                0x001000F3, 0x00100873, 0x00101073, 0x00102073, 0x00104073, 0x00108073, 0x00180073,
                0x00300073, 0x00400073, 0x00800073, 0x01000073, 0x40000073, 0x80000073,
            ],
        ),
        (
            "uret, sret, mret, wfi, sfence.vma, csrrw, csrrs, csrrc, csrrwi, csrrsi, csrrci",
            &[
                0x00200073, 0x10200073, 0x30200073, 0x10500073, 0x12000073, 0x30529073, 0xC0002573,
                0x3002B073, 0x30045073, 0x3004E073, 0x3000F073,
            ],
        ),
    ];
    for (family, words) in families {
        for word in words {
            assert_eq!(rt; decode(*word), None, "{family}: {word:#x}");
        }
    }
}

#[test]
fn worked_words(rt: HostRuntime) {
    let table = [
        (0x0069_302F, amo(AmoOp::Amoadd, true, 0, 0, 18, 6)),
        (0x00B5_0533, by_register(AluOp::Add, 10, 10, 11)),
        (0x0070_0513, by_immediate(ImmOp::Addi, 10, 0, 7)),
        (0x05E0_0893, by_immediate(ImmOp::Addi, 17, 0, 94)),
        (0x0001_05B7, lui(11, 0x1_0000)),
        (0x0245_8593, by_immediate(ImmOp::Addi, 11, 11, 36)),
    ];
    for (word, instr) in table {
        assert_eq!(rt; decode(word), Some(instr), "at {word:#x}");
        assert!(rt; is_in_range(&instr), "at {word:#x}");
        assert_eq!(rt; encode(&instr), word, "at {word:#x}");
    }
}

#[test]
fn fields_out_of_range(rt: HostRuntime) {
    let instrs = [
        // register 32 in each place
        lui(32, 0),
        auipc(32, 0),
        jal(32, 0),
        jalr(32, 0, 0),
        jalr(0, 32, 0),
        branch(Cmp::Beq, 32, 0, 0),
        branch(Cmp::Bgeu, 0, 32, 0),
        load(LoadKind::Lb, 32, 0, 0),
        load(LoadKind::Lwu, 0, 32, 0),
        store(Width::One, 32, 0, 0),
        store(Width::Eight, 0, 32, 0),
        by_immediate(ImmOp::Addi, 32, 0, 0),
        by_immediate(ImmOp::Sraiw, 0, 32, 0),
        by_register(AluOp::Add, 32, 0, 0),
        by_register(AluOp::Mul, 0, 32, 0),
        by_register(AluOp::Remuw, 0, 0, 32),
        load_reserved(false, 0, 32, 0),
        load_reserved(true, 0, 0, 32),
        store_conditional(false, 0, 32, 0, 0),
        store_conditional(true, 0, 0, 32, 0),
        store_conditional(false, 0, 0, 0, 32),
        amo(AmoOp::Amoswap, false, 0, 32, 0, 0),
        amo(AmoOp::Amoadd, true, 0, 0, 32, 0),
        amo(AmoOp::Amomaxu, false, 0, 0, 0, 32),
        fence(false, 32, 0, 0),
        fence(true, 0, 32, 0),
        by_register(AluOp::Sub, 255, 0, 0),
        // one past each end of an immediate
        jalr(0, 0, -2049),
        jalr(0, 0, 2048),
        load(LoadKind::Ld, 0, 0, -2049),
        load(LoadKind::Ld, 0, 0, 2048),
        store(Width::Eight, 0, 0, -2049),
        store(Width::Eight, 0, 0, 2048),
        by_immediate(ImmOp::Addi, 0, 0, -2049),
        by_immediate(ImmOp::Addi, 0, 0, 2048),
        by_immediate(ImmOp::Andi, 0, 0, -2049),
        by_immediate(ImmOp::Andi, 0, 0, 2048),
        by_immediate(ImmOp::Addiw, 0, 0, -2049),
        by_immediate(ImmOp::Addiw, 0, 0, 2048),
        fence(false, 0, 0, -2049),
        fence(false, 0, 0, 2048),
        fence(true, 0, 0, -2049),
        fence(true, 0, 0, 2048),
        branch(Cmp::Bne, 0, 0, -4098),
        branch(Cmp::Blt, 0, 0, 4096),
        branch(Cmp::Beq, 0, 0, -4097),
        branch(Cmp::Beq, 0, 0, 4095),
        jal(0, -0x10_0002),
        jal(0, 0x10_0000),
        lui(0, -0x8000_1000),
        lui(0, 0x8000_0000),
        auipc(0, -0x8000_1000),
        auipc(0, 0x8000_0000),
        by_immediate(ImmOp::Ori, 0, 0, i64::MAX),
        by_immediate(ImmOp::Xori, 0, 0, i64::MIN),
        // odd offsets
        branch(Cmp::Bge, 0, 0, 1),
        branch(Cmp::Bltu, 0, 0, -1),
        branch(Cmp::Bgeu, 0, 0, 2047),
        jal(0, 1),
        jal(0, -1),
        jal(0, 0xF_FFFD),
        // no multiple of 4096
        lui(0, 1),
        lui(0, -1),
        lui(0, 2048),
        auipc(0, 4095),
        auipc(0, -2048),
        auipc(0, 0x1_0800),
        // more than aq and rl
        load_reserved(false, 4, 0, 0),
        store_conditional(true, 4, 0, 0, 0),
        amo(AmoOp::Amoxor, true, 4, 0, 0, 0),
        amo(AmoOp::Amomin, false, 255, 0, 0, 0),
        // amounts of shifts
        by_immediate(ImmOp::Slli, 0, 0, 64),
        by_immediate(ImmOp::Slli, 0, 0, -1),
        by_immediate(ImmOp::Srli, 0, 0, 64),
        by_immediate(ImmOp::Srli, 0, 0, -1),
        by_immediate(ImmOp::Srai, 0, 0, 64),
        by_immediate(ImmOp::Srai, 0, 0, -1),
        by_immediate(ImmOp::Slliw, 0, 0, 32),
        by_immediate(ImmOp::Slliw, 0, 0, -1),
        by_immediate(ImmOp::Srliw, 0, 0, 32),
        by_immediate(ImmOp::Srliw, 0, 0, -1),
        by_immediate(ImmOp::Sraiw, 0, 0, 32),
        by_immediate(ImmOp::Sraiw, 0, 0, -1),
    ];
    for instr in instrs {
        assert!(rt; !is_in_range(&instr), "{instr:?}");
    }
}
