use super::*;
use std::test::Fail;

/// By the ABI's tables: `li a0,7; li a7,94; ecall`, loaded whole.
const EXITS: [u8; 132] = [
    0x7F, b'E', b'L', b'F', 2, 1, 1, 0, 0, 0, 0, 0, 0, 0, 0, 0, // identity
    2, 0, 243, 0, 1, 0, 0, 0, 0x78, 0, 1, 0, 0, 0, 0, 0, // type, machine, version, entry
    64, 0, 0, 0, 0, 0, 0, 0, 0, 0, 0, 0, 0, 0, 0, 0, // program headers, sections
    1, 0, 0, 0, 64, 0, 56, 0, 1, 0, 0, 0, 0, 0, 0, 0, // flags, sizes, numbers
    1, 0, 0, 0, 5, 0, 0, 0, 0, 0, 0, 0, 0, 0, 0, 0, // type, rights, offset
    0, 0, 1, 0, 0, 0, 0, 0, 0, 0, 1, 0, 0, 0, 0, 0, // address
    132, 0, 0, 0, 0, 0, 0, 0, 132, 0, 0, 0, 0, 0, 0, 0, // sizes
    0, 16, 0, 0, 0, 0, 0, 0, // alignment
    0x13, 0x05, 0x70, 0x00, 0x93, 0x08, 0xE0, 0x05, 0x73, 0x00, 0x00, 0x00, // code
];

/// By the same tables: a file with a value of its own in each field, a second program header, and two bytes behind it.
const FIELDS: [u8; 178] = [
    0x7F, b'E', b'L', b'F', 2, 1, 1, 0, 0, 0, 0, 0, 0, 0, 0, 0, // identity
    1, 2, 243, 0, 1, 0, 0, 0, 3, 4, 5, 6, 7, 8, 9, 10, // type, machine, version, entry
    11, 12, 13, 14, 15, 16, 17, 18, 0, 0, 0, 0, 0, 0, 0, 0, // program headers, sections
    19, 20, 21, 22, 64, 0, 56, 0, 23, 24, 0, 0, 0, 0, 0, 0, // flags, sizes, numbers
    1, 2, 3, 4, 5, 6, 7, 8, 9, 10, 11, 12, 13, 14, 15, 16, // type, rights, offset
    17, 18, 19, 20, 21, 22, 23, 24, 17, 18, 19, 20, 21, 22, 23, 24, // address
    25, 26, 27, 28, 29, 30, 31, 32, 33, 34, 35, 36, 37, 38, 39, 40, // sizes
    0, 16, 0, 0, 0, 0, 0, 0, // alignment
    1, 0, 0, 0, 6, 0, 0, 0, 0, 0, 0, 0, 0, 0, 0, 0, // type, rights, offset
    0, 0, 2, 0, 0, 0, 0, 0, 0, 0, 2, 0, 0, 0, 0, 0, // address
    0, 0, 0, 0, 0, 0, 0, 0, 8, 0, 0, 0, 0, 0, 0, 0, // sizes
    0, 16, 0, 0, 0, 0, 0, 0, // alignment
    41, 42,
];

#[test]
fn each_field_stands_at_its_place(rt: HostRuntime) -> Result<(), Fail> {
    let header = ElfHeader {
        table: 0x1211_100F_0E0D_0C0B,
        flags: 0x1615_1413,
        ..ElfHeader::new(0x0201, 0x0A09_0807_0605_0403, 0x1817)
    };
    let odd = ProgramHeader {
        kind: 0x0403_0201,
        flags: 0x0807_0605,
        offset: 0x100F_0E0D_0C0B_0A09,
        address: 0x1817_1615_1413_1211,
        file_size: 0x201F_1E1D_1C1B_1A19,
        memory_size: 0x2827_2625_2423_2221,
    };
    let bytes = file(
        rt.alloc(),
        header,
        &[odd, zeros(READ | WRITE, 0x20000, 8)],
        &[41, 42],
    )?;
    assert_eq!(rt; bytes.as_slice(), FIELDS.as_slice());
    Ok(())
}

#[test]
fn programs_of_words(rt: HostRuntime) -> Result<(), Fail> {
    let words = [0x0070_0513, 0x05E0_0893, 0x0000_0073];
    let bytes = whole_program(rt.alloc(), &words, &[])?;
    assert_eq!(rt; bytes.as_slice(), EXITS.as_slice());
    let bytes = program(rt.alloc(), &words, b"hi")?;
    let mut wanted = EXITS[..120].to_vec(rt.alloc())?;
    // the entry, the offset and the sizes differ
    for (place, value) in [(24, 0), (73, 16), (96, 14), (104, 14)] {
        if place < wanted.len() {
            wanted[place] = value;
        }
    }
    wanted.resize(4096, 0)?;
    wanted.extend_from_slice(&EXITS[120..])?;
    wanted.extend_from_slice(b"hi")?;
    assert_eq!(rt; bytes.as_slice(), wanted.as_slice());
    Ok(())
}
