use super::*;
use answers::{answer, out_of_range, part_of, text_of};
use std::test::Fail;

mod answers;

/// Statements of one word: each field's ends, in decimal and in hexadecimal, and each name of a register. The words are
/// those of GNU as.
const WORDS: [(&[u8], u32); 53] = [
    (b"addi x1, x2, 2047", 0x7FF1_0093),
    (b"addi x1, x2, 0x7FF", 0x7FF1_0093),
    (b"addi x1, x2, -2048", 0x8001_0093),
    (b"addi x1, x2, -0x800", 0x8001_0093),
    (b"andi x1, x2, -1", 0xFFF1_7093),
    (b"lb x1, 2047(x2)", 0x7FF1_0083),
    (b"lb x1, -0x800(x2)", 0x8001_0083),
    (b"sd x1, 0x7ff(x2)", 0x7E11_3FA3),
    (b"sd x1, -2048(x2)", 0x8011_3023),
    (b"jalr x1, 2047(x2)", 0x7FF1_00E7),
    (b"jalr x1, -2048(x2)", 0x8001_00E7),
    (b"fence x1, x2, 2047", 0x7FF1_008F),
    (b"fence.i x1, x2, -0x800", 0x8001_108F),
    (b"slli x1, x2, 0", 0x0001_1093),
    (b"slli x1, x2, 63", 0x03F1_1093),
    (b"srli x1, x2, 0x3F", 0x03F1_5093),
    (b"srai x1, x2, 63", 0x43F1_5093),
    (b"slliw x1, x2, 0", 0x0001_109B),
    (b"slliw x1, x2, 31", 0x01F1_109B),
    (b"srliw x1, x2, 0x1F", 0x01F1_509B),
    (b"sraiw x1, x2, 31", 0x41F1_509B),
    (b"lui x1, 0", 0x0000_00B7),
    (b"lui x1, 1048575", 0xFFFF_F0B7),
    (b"lui x1, 0xFFFFF", 0xFFFF_F0B7),
    (b"auipc x1, 0x80000", 0x8000_0097),
    (b"auipc x1, 524287", 0x7FFF_F097),
    (b"beq x1, x2, -4096", 0x8020_8063),
    (b"bne x1, x2, 4094", 0x7E20_9FE3),
    (b"bltu x1, x2, -0x1000", 0x8020_E063),
    (b"bgeu x1, x2, 0xFFE", 0x7E20_FFE3),
    (b"beqz x1, -4096", 0x8000_8063),
    (b"bnez x1, 4094", 0x7E00_9FE3),
    (b"jal x1, -1048576", 0x8000_00EF),
    (b"jal x1, 1048574", 0x7FFF_F0EF),
    (b"jal x1, -0x100000", 0x8000_00EF),
    (b"jal x1, 0xFFFFE", 0x7FFF_F0EF),
    (b"li x1, 2047", 0x7FF0_0093),
    (b"li x1, -0x800", 0x8000_0093),
    (b"li x1, 0", 0x0000_0093),
    (b"mv x31, x30", 0x000F_0F93),
    (b"nop", 0x0000_0013),
    (b"ret", 0x0000_8067),
    (b"add zero, ra, sp", 0x0020_8033),
    (b"add gp, tp, t0", 0x0052_01B3),
    (b"add t1, t2, s0", 0x0083_8333),
    (b"add s1, a0, a1", 0x00B5_04B3),
    (b"add a2, a3, a4", 0x00E6_8633),
    (b"add a5, a6, a7", 0x0118_07B3),
    (b"add s2, s3, s4", 0x0149_8933),
    (b"add s5, s6, s7", 0x017B_0AB3),
    (b"add s8, s9, s10", 0x01AC_8C33),
    (b"add s11, t3, t4", 0x01DE_0DB3),
    (b"add t5, t6, fp", 0x008F_8F33),
];

/// Sources with what stands from 4096 on in their files. The words are those of GNU as and of the manual's tables.
const TEXTS: [(&[u8], &[u8]); 31] = [
    (b"auipc ra, 0", b"\x97\x00\x00\x00"),
    (b"lwu gp,0x0( zero )", b"\x83a\x00\x00"),
    (b"sd x9, -1(x8)", b"\xa3?\x94\xfe"),
    (b"remuw x7, s0, x9", b"\xbbs\x94\x02"),
    (b"lr.w.aq x1, (x2)", b"\xaf\x20\x01\x14"),
    (b"sc.d.rl x1, x2, (x3)", b"\xaf\xb0!\x1a"),
    (b"amominu.w.aqrl x31, x30, (x29)", b"\xaf\xaf\xee\xc7"),
    (b"fence.i x0, x0, 0", b"\x0f\x10\x00\x00"),
    (b"ecall\nebreak", b"s\x00\x00\x00s\x00\x10\x00"),
    (
        b"nop; ret; mv a0, a1",
        b"\x13\x00\x00\x00g\x80\x00\x00\x13\x85\x05\x00",
    ),
    (b"li x1, 2048", b"\xb7\x10\x00\x00\x9b\x80\x00\x80"),
    (b"li x1, 0x7FFFF7FF", b"\xb7\xf0\xff\x7f\x9b\x80\xf0\x7f"),
    (b"li x1, 0x7FFFF800", b"\xb7\x00\x00\x80\x9b\x80\x00\x80"),
    (b"li x1, 2147483647", b"\xb7\x00\x00\x80\x9b\x80\xf0\xff"),
    (b"li x1, -0x80000000", b"\xb7\x00\x00\x80\x9b\x80\x00\x00"),
    (b"li x1, -2049", b"\xb7\xf0\xff\xff\x9b\x80\xf0\x7f"),
    (b"x: la x1, x", b"\x97\x00\x00\x00\x93\x80\x00\x00"),
    (
        b"fwd: beqz x8, fwd\nbnez fp, fwd\nj fwd; call fwd",
        b"c\x00\x04\x00\xe3\x1e\x04\xfeo\xf0\x9f\xff\xef\xf0_\xff",
    ),
    (
        b".byte 255; .byte 0xFF; .byte -128; .byte -0x80; .byte -0",
        b"\xff\xff\x80\x80\x00",
    ),
    (
        b".half 65535; .half 0xffff; .half -32768; .half -0x8000; .half 258",
        b"\xff\xff\xff\xff\x00\x80\x00\x80\x02\x01",
    ),
    (
        b".word 4294967295; .word 0xFFFFFFFF; .word -2147483648; .word -0x80000000",
        b"\xff\xff\xff\xff\xff\xff\xff\xff\x00\x00\x00\x80\x00\x00\x00\x80",
    ),
    (
        b".dword 18446744073709551615; .dword -0x8000000000000000",
        b"\xff\xff\xff\xff\xff\xff\xff\xff\x00\x00\x00\x00\x00\x00\x00\x80",
    ),
    (
        b".dword 0xFFFFFFFFFFFFFFFF; .dword -9223372036854775808",
        b"\xff\xff\xff\xff\xff\xff\xff\xff\x00\x00\x00\x00\x00\x00\x00\x80",
    ),
    (b".dword here\nhere:", b"\x08\x00\x01\x00\x00\x00\x00\x00"),
    (b".space 3; .byte 65; .space 0", b"\x00\x00\x00A"),
    (
        b".ascii \"a;#:,(\\n\\0\\\\\\\"\xff\"",
        b"a;#:,(\x0a\x00\x5c\x22\xff",
    ),
    (b".ascii \"\"; nop", b"\x13\x00\x00\x00"),
    (
        b"\t nop \t# a; b: \"\n\n;;nop;\n a : b\t:c:nop # \xe9",
        b"\x13\x00\x00\x00\x13\x00\x00\x00\x13\x00\x00\x00",
    ),
    (b"addi\ta0 \t,  a0,1 ", b"\x13\x05\x15\x00"),
    (b"nop:addi:j nop", b"o\x00\x00\x00"),
    (b".text\n.data\n.text\nnop", b"\x13\x00\x00\x00"),
];

/// Statements with a number just past its field, or past 128 bits.
const PAST: [&[u8]; 60] = [
    b"addi a0, a0, 2048",
    b"addi a0, a0, 0x800",
    b"addi a0, a0, -2049",
    b"addi a0, a0, -0x801",
    b"lb a0, 2048(a1)",
    b"lb a0, -0x801(a1)",
    b"sd a0, 0x800(a1)",
    b"sd a0, -2049(a1)",
    b"jalr a0, 2048(a1)",
    b"jalr a0, -2049(a1)",
    b"fence x0, x0, 2048",
    b"fence.i x0, x0, -2049",
    b"slli a0, a0, 64",
    b"slli a0, a0, -1",
    b"srli a0, a0, 0x40",
    b"srai a0, a0, 64",
    b"slliw a0, a0, 32",
    b"slliw a0, a0, -1",
    b"srliw a0, a0, 0x20",
    b"sraiw a0, a0, 32",
    b"lui a0, 1048576",
    b"lui a0, 0x100000",
    b"lui a0, -1",
    b"auipc a0, 0x100000",
    b"auipc a0, -1",
    b"beq x1, x2, 4096",
    b"beq x1, x2, -4098",
    b"beq x1, x2, 0x1000",
    b"beq x1, x2, 3",
    b"beqz x1, 4096",
    b"bnez x1, -4098",
    b"jal x0, 1048576",
    b"jal x0, -1048578",
    b"jal x0, 0x100000",
    b"jal x0, 1",
    b"li a0, 2147483648",
    b"li a0, 0x80000000",
    b"li a0, -2147483649",
    b"li a0, -0x80000001",
    b".byte 256",
    b".byte 0x100",
    b".byte -129",
    b".byte -0x81",
    b".half 65536",
    b".half 0x10000",
    b".half -32769",
    b".half -0x8001",
    b".word 4294967296",
    b".word 0x100000000",
    b".word -2147483649",
    b".word -0x80000001",
    b".dword 18446744073709551616",
    b".dword 0x10000000000000000",
    b".dword -9223372036854775809",
    b".dword -0x8000000000000001",
    b".space -1",
    b".space -0x1",
    b".space 340282366920938463463374607431768211456",
    b".space 0x100000000000000000000000000000000",
    b"addi a0, a0, 99999999999999999999999999999999999999999",
];

/// Sources with the line and the cause of their first fault.
const FAULTS: [(&[u8], u32, AsmCause); 54] = [
    (b"nop\naddi a0, a0, -2049", 2, AsmCause::Range),
    (
        b".space 340282366920938463463374607431768211455",
        1,
        AsmCause::TooBig,
    ),
    (b"frob", 1, AsmCause::Word),
    (b"nop\n\nnop; frob", 3, AsmCause::Word),
    (b"nop\n\nnop x1; frob", 3, AsmCause::Operand),
    (b"\xe9", 1, AsmCause::Word),
    (b"nop \xe9", 1, AsmCause::Word),
    (b".ascii \"a\" \xe9", 1, AsmCause::Word),
    (b"addi a0, 99999, \xe9", 1, AsmCause::Word),
    (b"addi a0, a0, 2048 \xe9", 1, AsmCause::Word),
    (b"j gone \xe9", 1, AsmCause::Word),
    (b".space 1048576; frob", 1, AsmCause::Word),
    (b"1a: nop", 1, AsmCause::Word),
    (b"NOP", 1, AsmCause::Word),
    (b"nop\r", 1, AsmCause::Word),
    (b".ascii\"a\"", 1, AsmCause::Word),
    (b": nop", 1, AsmCause::Word),
    (b"lr.w.rlaq x1, (x2)", 1, AsmCause::Word),
    (b"lr x1, (x2)", 1, AsmCause::Word),
    (b"addi a0, a0", 1, AsmCause::Operand),
    (b"addi a0, a0, 1, 1", 1, AsmCause::Operand),
    (b"addi a0, x32, 99999", 1, AsmCause::Operand),
    (b"addi a0, a0, 007", 1, AsmCause::Operand),
    (b"addi a0, a0, +1", 1, AsmCause::Operand),
    (b"addi a0, a0, - 1", 1, AsmCause::Operand),
    (b"addi a0, a0, 0x", 1, AsmCause::Operand),
    (b"addi a0, a0, 0X1", 1, AsmCause::Operand),
    (b"lw a0, a1", 1, AsmCause::Operand),
    (b"lw a0, (a1)", 1, AsmCause::Operand),
    (b"j 8", 1, AsmCause::Operand),
    (b"la a0, 8", 1, AsmCause::Operand),
    (b"la x32, gone", 1, AsmCause::Operand),
    (b".byte", 1, AsmCause::Operand),
    (b".byte 256 1", 1, AsmCause::Operand),
    (b".space 1048576; .byte", 1, AsmCause::Operand),
    (b".ascii \"a", 1, AsmCause::Operand),
    (b".ascii \"\\x\"", 1, AsmCause::Operand),
    (b".ascii \"a\" b", 1, AsmCause::Operand),
    (b".text 1", 1, AsmCause::Operand),
    (b"nop x1", 1, AsmCause::Operand),
    (b"j gone", 1, AsmCause::Label),
    (b"nop\nla a0, gone\nfrob", 2, AsmCause::Label),
    (b".dword gone", 1, AsmCause::Label),
    (b".space 1048576; j gone", 1, AsmCause::Label),
    (b"a: nop\na: nop", 2, AsmCause::Twice),
    (b"a:a: frob", 1, AsmCause::Twice),
    (b"nop\na: .data\nb:\n a : j gone", 4, AsmCause::Twice),
    (b".space 1048577", 1, AsmCause::TooBig),
    (b".space 1048576\n.byte 0", 2, AsmCause::TooBig),
    (b".space 1048576; .byte 256", 1, AsmCause::Range),
    (b"nop\n.data\n.space 1048573", 3, AsmCause::TooBig),
    (b"nop\n.space 2000000\nfrob", 2, AsmCause::TooBig),
    (b"", 0, AsmCause::NoText),
    (b"# a\n a:\n.data\n.byte 1", 0, AsmCause::NoText),
];

/// Sources with a label at the greatest distance, or with the greatest size, and the length of their files.
const REACH: [(&[u8], usize); 12] = [
    (b"beq x0, x0, far; .space 4090; far:", 8190),
    (b"far: .space 4096; beq x0, x0, far", 8196),
    (b"bnez x1, far; .space 4090; far:", 8190),
    (b"far: .space 4096; beqz x1, far", 8196),
    (b"jal x0, far; .space 1048570; far:", 1052670),
    (b"j far; .space 1048570; far:", 1052670),
    (b"call far; .space 1048570; far:", 1052670),
    (b"far: .space 1044481\n.data\njal x0, far", 1052676),
    (b"far: .space 1044481\n.data\nj far", 1052676),
    (b"far: .space 1044481\n.data\ncall far", 1052676),
    (b".space 1048576; end:", 1052672),
    (b"nop\n.data\n.space 1048572", 1056764),
];

/// Sources with a label just past the greatest distance, or at an odd one, and the line of its use.
const BEYOND: [(&[u8], u32); 16] = [
    (b"beq x0, x0, far; .space 4092; far:", 1),
    (b"far: .space 4098\nbeq x0, x0, far", 2),
    (b"bnez x1, far; .space 4092; far:", 1),
    (b"far: .space 4098\nbeqz x1, far", 2),
    (b"beq x0, x0, far; .byte 0; far:", 1),
    (b"beq x0, x0, far\n.data\nfar: .byte 0", 1),
    (b"jal x0, far; .space 1048572; far:", 1),
    (b"j far; .space 1048572; far:", 1),
    (b"call far; .space 1048572; far:", 1),
    (b"far: .space 1044481\n.data\n.half 0\njal x0, far", 4),
    (b"far: .space 1044481\n.data\n.half 0\nj far", 4),
    (b"far: .space 1044481\n.data\n.half 0\ncall far", 4),
    (b"j far\n.space 5000000\nfar:", 1),
    (b"la a0, far\n.space 2147481592\nfar:", 1),
    (b"la a0, far\n.space 5000000000\nfar:", 1),
    (b"far: .space 1048576\nbeq x0, x0, far", 2),
];

/// The headers of a file with text and data, by the System V ABI's tables.
const HEADERS: [u8; 176] =
    *b"\x7fELF\x02\x01\x01\x00\x00\x00\x00\x00\x00\x00\x00\x00\x02\x00\xf3\x00\x01\x00\x00\x00\x04\x00\x01\x00\x00\x00\x00\x00@\x00\x00\x00\x00\x00\x00\x00\x00\x00\x00\x00\x00\x00\x00\x00\x01\x00\x00\x00@\x008\x00\x02\x00\x00\x00\x00\x00\x00\x00\x01\x00\x00\x00\x05\x00\x00\x00\x00\x10\x00\x00\x00\x00\x00\x00\x00\x00\x01\x00\x00\x00\x00\x00\x00\x00\x01\x00\x00\x00\x00\x00\x10\x00\x00\x00\x00\x00\x00\x00\x10\x00\x00\x00\x00\x00\x00\x00\x00\x10\x00\x00\x00\x00\x00\x00\x01\x00\x00\x00\x06\x00\x00\x00\x00\x20\x00\x00\x00\x00\x00\x00\x00\x10\x01\x00\x00\x00\x00\x00\x00\x10\x01\x00\x00\x00\x00\x00\x09\x00\x00\x00\x00\x00\x00\x00\x09\x00\x00\x00\x00\x00\x00\x00\x00\x10\x00\x00\x00\x00\x00\x00";

#[test]
fn words_are_made_of_fields_at_their_ends(rt: HostRuntime) -> Result<(), Fail> {
    for (source, word) in &WORDS {
        let text = text_of(rt.alloc(), source)?;
        assert_eq!(rt; text.as_slice(), word.to_le_bytes().as_slice());
    }
    Ok(())
}

#[test]
fn statements_become_words_and_bytes(rt: HostRuntime) -> Result<(), Fail> {
    for (source, expected) in &TEXTS {
        let text = text_of(rt.alloc(), source)?;
        assert_eq!(rt; text.as_slice(), *expected);
    }
    Ok(())
}

#[test]
fn numbers_past_their_fields_are_out_of_range(rt: HostRuntime) -> Result<(), Fail> {
    for source in &PAST {
        assert_eq!(rt; answer(rt.alloc(), source), out_of_range(1));
    }
    Ok(())
}

#[test]
fn the_first_fault_is_told(rt: HostRuntime) -> Result<(), Fail> {
    for (source, line, cause) in &FAULTS {
        assert_eq!(rt;
            answer(rt.alloc(), source),
            Err(AsmFault {
                line: *line,
                cause: *cause
            })
        );
    }
    Ok(())
}

#[test]
fn distances_and_sizes_reach_as_far(rt: HostRuntime) -> Result<(), Fail> {
    for (source, length) in &REACH {
        assert_eq!(rt; answer(rt.alloc(), source), Ok(*length));
    }
    Ok(())
}

#[test]
fn distances_reach_no_further(rt: HostRuntime) -> Result<(), Fail> {
    for (source, line) in &BEYOND {
        assert_eq!(rt; answer(rt.alloc(), source), out_of_range(*line));
    }
    Ok(())
}

/// The label is in reach, so that the second line has the first fault.
#[test]
fn an_address_is_loaded_from_2_gib_less_2049_before_it(rt: HostRuntime) -> Result<(), Fail> {
    let source = b"la a0, far\n.space 2147481591\nfar:";
    assert_eq!(rt;
        answer(rt.alloc(), source),
        Err(AsmFault {
            line: 2,
            cause: AsmCause::TooBig
        })
    );
    Ok(())
}

#[test]
fn three_instructions_make_a_file_of_4108_bytes(rt: HostRuntime) -> Result<(), Fail> {
    let source = b"_start: li a0,7; li a7,94; ecall";
    assert_eq!(rt; answer(rt.alloc(), source), Ok(4108));
    let text = text_of(rt.alloc(), source)?;
    assert_eq!(rt;
        text.as_slice(),
        [
            0x13, 0x05, 0x70, 0x00, 0x93, 0x08, 0xE0, 0x05, 0x73, 0, 0, 0
        ]
        .as_slice()
    );
    Ok(())
}

#[test]
fn data_stands_at_the_next_page(rt: HostRuntime) -> Result<(), Fail> {
    let source = b"nop\n.data\n.byte 7\n.text\n_start: la a0, x; ret\n.data\nx: .dword x";
    assert_eq!(rt; answer(rt.alloc(), source), Ok(8201));
    let headers = part_of(rt.alloc(), source, 0, 176)?;
    assert_eq!(rt; headers.as_slice(), HEADERS.as_slice());
    let text = part_of(rt.alloc(), source, 4096, 4112)?;
    assert_eq!(rt;
        text.as_slice(),
        b"\x13\x00\x00\x00\x17\x15\x00\x00\x13\x05\xd5\xffg\x80\x00\x00".as_slice()
    );
    let data_bytes = part_of(rt.alloc(), source, 8192, 8201)?;
    assert_eq!(rt;
        data_bytes.as_slice(),
        b"\x07\x01\x10\x01\x00\x00\x00\x00\x00".as_slice()
    );
    Ok(())
}

#[test]
fn the_laws_can_be_called_for_nothing() {
    laws();
}
