use super::*;
use elf_build::{EXECUTE, ElfHeader, ProgramHeader, READ, WRITE, file, zeros};
use std::alloc::{AllocError, Global};
use std::test::Fail;

const BASE: u64 = 0x20_0000_0000;

/// Of instructions.
fn code(address: u64, size: u64) -> ProgramHeader {
    zeros(READ | EXECUTE, address, size)
}

/// Read alone.
fn constants(address: u64, size: u64) -> ProgramHeader {
    zeros(READ, address, size)
}

/// Read and written.
fn variables(address: u64, size: u64) -> ProgramHeader {
    zeros(READ | WRITE, address, size)
}

/// A program header of a type that is passed over. The rest of it would be refused.
fn note() -> ProgramHeader {
    ProgramHeader {
        kind: 4,
        flags: 7,
        offset: u64::MAX,
        address: u64::MAX,
        file_size: u64::MAX,
        memory_size: 1,
    }
}

/// A program header of an interpreter.
fn interpreter() -> ProgramHeader {
    ProgramHeader { kind: 3, ..note() }
}

/// A file of type 2 with one segment, of three bytes from the file and eight in memory, from 0x10000 on.
fn small_file(alloc: Global) -> Result<Vec<u8>, AllocError> {
    let head = ElfHeader::new(2, 0x10002, 1);
    let part = ProgramHeader {
        offset: 120,
        file_size: 3,
        ..code(0x10000, 8)
    };
    file(alloc, head, &[part], &[1, 2, 3])
}

/// The small file with one byte changed.
fn changed(alloc: Global, place: usize, value: u8) -> Result<Vec<u8>, AllocError> {
    let mut bytes = small_file(alloc)?;
    set(&mut bytes, place, value);
    Ok(bytes)
}

fn set(bytes: &mut Vec<u8>, place: usize, value: u8) {
    if place < bytes.len() {
        bytes[place] = value;
    }
}

/// Why a file of four program headers is refused.
fn refusal(
    alloc: Global,
    kind: u16,
    entry: u64,
    parts: [ProgramHeader; 4],
) -> Result<Option<ElfFault>, AllocError> {
    let head = ElfHeader::new(kind, entry, 4);
    let bytes = file(alloc, head, &parts, &[0; 8])?;
    match read(alloc, &bytes) {
        Ok(_) => Ok(None),
        Err(ElfFault::Memory) => Err(AllocError),
        Err(fault) => Ok(Some(fault)),
    }
}

#[test]
fn a_file_of_one_segment(rt: HostRuntime) -> Result<(), Fail> {
    let bytes = small_file(rt.alloc())?;
    let elf = read(rt.alloc(), &bytes)?;
    assert_eq!(rt; elf.entry, 0x10002);
    assert_eq!(rt; elf.header_at, 0);
    assert_eq!(rt; elf.header_count, 1);
    assert_eq!(rt; elf.top, 0x10008);
    assert_eq!(rt; elf.segments.len(), 1);
    for segment in &elf.segments {
        assert_eq!(rt; segment.at, 0x10000);
        assert_eq!(rt; segment.size, 8);
        assert_eq!(rt; segment.rights, 5);
        assert_eq!(rt; segment.file_bytes.as_slice(), [1, 2, 3].as_slice());
    }
    Ok(())
}

#[test]
fn each_check_of_the_header_has_its_name(rt: HostRuntime) -> Result<(), Fail> {
    let table: [(usize, u8, ElfFault); 21] = [
        // magic, class, order, version
        (0, 0, ElfFault::NotElf),
        (1, b'e', ElfFault::NotElf),
        (2, 0, ElfFault::NotElf),
        (3, 0, ElfFault::NotElf),
        (4, 1, ElfFault::NotElf),
        (5, 2, ElfFault::NotElf),
        (6, 0, ElfFault::NotElf),
        // another machine, an object file, a core file, float ABIs, RV64E
        (18, 62, ElfFault::NotRiscv),
        (19, 1, ElfFault::NotRiscv),
        (16, 1, ElfFault::Kind),
        (16, 4, ElfFault::Kind),
        (48, 2, ElfFault::FloatAbi),
        (48, 4, ElfFault::FloatAbi),
        (48, 8, ElfFault::Embedded),
        (48, 12, ElfFault::FloatAbi),
        // the size, the number and the place of program headers
        (54, 55, ElfFault::HeaderSize(55)),
        (55, 1, ElfFault::HeaderSize(312)),
        (56, 0, ElfFault::Entry),
        (56, 2, ElfFault::Short),
        (32, 68, ElfFault::Short),
        (39, 255, ElfFault::Short),
    ];
    for (place, value, fault) in table {
        let bytes = changed(rt.alloc(), place, value)?;
        match read(rt.alloc(), &bytes) {
            Ok(_) => assert!(rt; false, "byte {place} is {value}"),
            Err(found) => assert_eq!(rt; found, fault, "byte {place} is {value}"),
        }
    }
    Ok(())
}

#[test]
fn the_first_of_two_faults_of_the_header(rt: HostRuntime) -> Result<(), Fail> {
    let table: [(usize, u8, usize, u8, ElfFault); 8] = [
        (6, 0, 18, 62, ElfFault::NotElf),
        (18, 62, 16, 1, ElfFault::NotRiscv),
        (16, 1, 48, 2, ElfFault::Kind),
        (48, 4, 54, 0, ElfFault::FloatAbi),
        (48, 8, 54, 0, ElfFault::Embedded),
        (54, 0, 32, 68, ElfFault::HeaderSize(0)),
        (32, 68, 24, 1, ElfFault::Short),
        // where there are no headers, their size and place are not looked at
        (54, 0, 56, 0, ElfFault::Entry),
    ];
    for (place, value, second_place, second_value, fault) in table {
        let mut bytes = changed(rt.alloc(), place, value)?;
        set(&mut bytes, second_place, second_value);
        match read(rt.alloc(), &bytes) {
            Ok(_) => assert!(rt; false, "byte {place} is {value}"),
            Err(found) => assert_eq!(rt; found, fault, "byte {place} is {value}"),
        }
    }
    Ok(())
}

#[test]
fn a_file_that_ends_in_its_headers(rt: HostRuntime) -> Result<(), Fail> {
    for length in [0, 63, 64, 119] {
        let mut bytes = small_file(rt.alloc())?;
        bytes.truncate(length);
        assert!(rt;
            matches!(read(rt.alloc(), &bytes), Err(ElfFault::Short)),
            "{length}"
        );
    }
    let mut bytes = small_file(rt.alloc())?;
    bytes.truncate(122);
    assert!(rt; matches!(read(rt.alloc(), &bytes), Err(ElfFault::BadSegment(0))));
    Ok(())
}

#[test]
fn a_header_alone(rt: HostRuntime) -> Result<(), Fail> {
    let head = ElfHeader {
        table: u64::MAX,
        ..ElfHeader::new(2, 0, 0)
    };
    let mut bytes = file(rt.alloc(), head, &[], &[])?;
    assert_eq!(rt; bytes.len(), 64);
    assert!(rt; matches!(read(rt.alloc(), &bytes), Err(ElfFault::Entry)));
    set(&mut bytes, 48, 4);
    assert!(rt; matches!(read(rt.alloc(), &bytes), Err(ElfFault::FloatAbi)));
    bytes.truncate(63);
    assert!(rt; matches!(read(rt.alloc(), &bytes), Err(ElfFault::Short)));
    Ok(())
}

#[test]
fn where_segments_may_lie(rt: HostRuntime) -> Result<(), Fail> {
    let bad = Some(ElfFault::BadSegment(1));
    let table: [(u64, u64, Option<ElfFault>); 12] = [
        (0x0FFF, 1, bad),
        (0x0FFF, 0, bad),
        (0x1000, 1, None),
        (0x3E_FFFF_FFFF, 1, None),
        (0x3E_FFFF_FFFF, 2, bad),
        (0x3F_0000_0000, 0, None),
        (0x3F_0000_0000, 1, bad),
        (0x3F_0000_0001, 0, bad),
        // sums past 2^64
        (0x3000, u64::MAX, bad),
        (0x3000, 0xFFFF_FFFF_FFFF_E000, bad),
        (u64::MAX, 0x3000, bad),
        (u64::MAX, 0, bad),
    ];
    for (address, size, fault) in table {
        let found = refusal(
            rt.alloc(),
            2,
            0x10000,
            [code(0x10000, 2), constants(address, size), note(), note()],
        )?;
        assert_eq!(rt; found, fault, "{address} {size}");
    }
    Ok(())
}

#[test]
fn a_file_of_type_3_lies_above_its_base(rt: HostRuntime) -> Result<(), Fail> {
    let bad = Some(ElfFault::BadSegment(1));
    let table: [(u64, u64, Option<ElfFault>); 9] = [
        (0x0FFF, 1, None),
        (0, 0, None),
        (0x1E_FFFF_FFFF, 1, None),
        (0x1E_FFFF_FFFF, 2, bad),
        (0x1F_0000_0001, 0, bad),
        // sums with the base that pass 2^64, to 0x10000 and to 0
        (0xFFFF_FFE0_0001_0000, 1, bad),
        (0xFFFF_FFE0_0000_0000, 0x10001, bad),
        (0x3000, 0xFFFF_FFE0_0000_0000, bad),
        (u64::MAX, u64::MAX, bad),
    ];
    for (address, size, fault) in table {
        let found = refusal(
            rt.alloc(),
            3,
            0x10000,
            [code(0x10000, 2), constants(address, size), note(), note()],
        )?;
        assert_eq!(rt; found, fault, "{address} {size}");
    }
    Ok(())
}

#[test]
fn where_the_bytes_of_a_segment_stand_in_the_file(rt: HostRuntime) -> Result<(), Fail> {
    // the file has 64 + 4 * 56 + 8 bytes
    let bad = Some(ElfFault::BadSegment(1));
    let table: [(u64, u64, u64, Option<ElfFault>); 9] = [
        (288, 8, 8, None),
        (288, 8, 7, bad),
        (289, 8, 8, bad),
        (296, 0, 8, None),
        // without bytes in the file the offset may be any
        (297, 0, 8, None),
        (u64::MAX, 0, 8, None),
        (297, 1, 8, bad),
        (u64::MAX, 2, 8, bad),
        (8, u64::MAX, u64::MAX, bad),
    ];
    for (offset, file_size, memory_size, fault) in table {
        let part = ProgramHeader {
            offset,
            file_size,
            ..variables(0x20000, memory_size)
        };
        let found = refusal(
            rt.alloc(),
            2,
            0x10000,
            [code(0x10000, 2), part, note(), note()],
        )?;
        assert_eq!(rt; found, fault, "{offset} {file_size} {memory_size}");
    }
    Ok(())
}

#[test]
fn a_page_is_not_writable_and_executable(rt: HostRuntime) -> Result<(), Fail> {
    let clash = Some(ElfFault::WritableCode(1));
    let all = READ | WRITE | EXECUTE;
    let table: [([ProgramHeader; 4], Option<ElfFault>); 12] = [
        // one segment
        (
            [code(0x10000, 2), zeros(all, 0x20000, 1), note(), note()],
            clash,
        ),
        (
            [
                code(0x10000, 2),
                zeros(WRITE | EXECUTE, 0x20000, 1),
                note(),
                note(),
            ],
            clash,
        ),
        (
            [code(0x10000, 2), zeros(all, 0x20000, 0), note(), note()],
            clash,
        ),
        // two in a page, in either order
        (
            [
                code(0x10000, 0x800),
                variables(0x10800, 0x800),
                note(),
                note(),
            ],
            clash,
        ),
        (
            [
                variables(0x0F800, 0x800),
                code(0x10000, 0x800),
                note(),
                note(),
            ],
            None,
        ),
        (
            [
                variables(0x10800, 0x800),
                code(0x10000, 0x800),
                note(),
                note(),
            ],
            clash,
        ),
        (
            [
                zeros(WRITE, 0x10800, 1),
                zeros(EXECUTE, 0x10000, 2),
                note(),
                note(),
            ],
            clash,
        ),
        // the last page of one, and the first of the other
        (
            [
                code(0x10000, 0x3001),
                variables(0x13FFF, 0x1000),
                note(),
                note(),
            ],
            clash,
        ),
        (
            [
                code(0x10000, 0x3000),
                variables(0x13000, 0x1000),
                note(),
                note(),
            ],
            None,
        ),
        // a page in the midst
        (
            [variables(0x13004, 4), code(0x10000, 0x3002), note(), note()],
            clash,
        ),
        // an empty segment has no page
        (
            [code(0x10000, 0x800), variables(0x10800, 0), note(), note()],
            None,
        ),
        (
            [variables(0x10800, 0), code(0x10000, 0x800), note(), note()],
            None,
        ),
    ];
    for (index, (parts, fault)) in table.iter().enumerate() {
        let found = refusal(rt.alloc(), 2, 0x10000, *parts)?;
        assert_eq!(rt; found, *fault, "row {index}");
    }
    Ok(())
}

#[test]
fn a_page_of_different_rights(rt: HostRuntime) -> Result<(), Fail> {
    // read alone, and read and written
    let parts = [
        constants(0x10000, 0x800),
        variables(0x10800, 0x800),
        code(0x20000, 2),
        note(),
    ];
    assert_eq!(rt; refusal(rt.alloc(), 2, 0x20000, parts)?, None);
    // read alone, and executed
    let parts = [
        constants(0x10800, 0x800),
        code(0x10000, 0x800),
        note(),
        note(),
    ];
    assert_eq!(rt; refusal(rt.alloc(), 2, 0x10000, parts)?, None);
    Ok(())
}

#[test]
fn segments_that_share_a_byte(rt: HostRuntime) -> Result<(), Fail> {
    let table: [([ProgramHeader; 4], Option<ElfFault>); 9] = [
        (
            [
                code(0x10000, 0x1000),
                constants(0x11000, 0x1000),
                note(),
                note(),
            ],
            None,
        ),
        (
            [
                constants(0x11000, 0x1000),
                code(0x10000, 0x1000),
                note(),
                note(),
            ],
            None,
        ),
        (
            [
                constants(0x10000, 0x1000),
                constants(0x10FFF, 0x1000),
                code(0x20000, 2),
                note(),
            ],
            Some(ElfFault::Overlap(0, 1)),
        ),
        (
            [
                constants(0x10FFF, 0x1000),
                note(),
                constants(0x10000, 0x1000),
                note(),
            ],
            Some(ElfFault::Overlap(0, 2)),
        ),
        // one within the other, and an empty one
        (
            [constants(0x10000, 0x3000), code(0x11000, 2), note(), note()],
            Some(ElfFault::Overlap(0, 1)),
        ),
        (
            [code(0x10000, 0x3000), constants(0x11000, 0), note(), note()],
            None,
        ),
        // the least later one, and then the least earlier one
        (
            [
                constants(0x10000, 9),
                constants(0x20000, 9),
                constants(0x20008, 9),
                constants(0x10008, 9),
            ],
            Some(ElfFault::Overlap(1, 2)),
        ),
        (
            [
                constants(0x10000, 9),
                constants(0x20000, 9),
                constants(0x0F000, 0x20000),
                note(),
            ],
            Some(ElfFault::Overlap(0, 2)),
        ),
        (
            [
                constants(0x10000, 9),
                constants(0x10000, 9),
                constants(0x10000, 9),
                constants(0x10000, 9),
            ],
            Some(ElfFault::Overlap(0, 1)),
        ),
    ];
    for (index, (parts, fault)) in table.iter().enumerate() {
        let found = refusal(rt.alloc(), 2, 0x10000, *parts)?;
        assert_eq!(rt; found, *fault, "row {index}");
    }
    Ok(())
}

#[test]
fn the_first_of_two_faults(rt: HostRuntime) -> Result<(), Fail> {
    let bad = constants(0, 1);
    let both = zeros(7, 0x30000, 8);
    let table: [([ProgramHeader; 4], ElfFault); 9] = [
        // the headers in their order
        (
            [bad, interpreter(), note(), note()],
            ElfFault::BadSegment(0),
        ),
        ([interpreter(), bad, note(), note()], ElfFault::Interpreter),
        ([both, bad, note(), note()], ElfFault::WritableCode(0)),
        ([note(), bad, both, note()], ElfFault::BadSegment(1)),
        (
            [note(), both, interpreter(), note()],
            ElfFault::WritableCode(1),
        ),
        // the checks of one header
        (
            [zeros(7, 0, 1), note(), note(), note()],
            ElfFault::BadSegment(0),
        ),
        // all headers before two that share a byte, and those before the entry
        (
            [
                constants(0x10000, 8),
                constants(0x10000, 8),
                note(),
                interpreter(),
            ],
            ElfFault::Interpreter,
        ),
        (
            [code(0x10000, 8), variables(0x10004, 8), note(), note()],
            ElfFault::WritableCode(1),
        ),
        (
            [constants(0x10000, 8), constants(0x10000, 8), note(), note()],
            ElfFault::Overlap(0, 1),
        ),
    ];
    for (index, (parts, fault)) in table.iter().enumerate() {
        let found = refusal(rt.alloc(), 2, 1, *parts)?;
        assert_eq!(rt; found, Some(*fault), "row {index}");
    }
    Ok(())
}

#[test]
fn where_a_program_may_begin(rt: HostRuntime) -> Result<(), Fail> {
    let parts = [
        constants(0x10000, 8),
        code(0x20000, 8),
        code(0x30000, 8),
        code(0x40000, 0),
    ];
    let wrong = Some(ElfFault::Entry);
    let table: [(u16, u64, Option<ElfFault>); 14] = [
        (2, 0x20000, None),
        (2, 0x20006, None),
        (2, 0x30000, None),
        (2, 0x20007, wrong),
        (2, 0x20008, wrong),
        (2, 0x1FFFE, wrong),
        (2, 0x10000, wrong),
        (2, 0x40000, wrong),
        (2, BASE + 0x20000, wrong),
        (3, 0x20000, None),
        (3, 0x20001, wrong),
        (3, BASE + 0x20000, wrong),
        // a sum with the base that passes 2^64, to 0x20000
        (3, 0xFFFF_FFE0_0002_0000, wrong),
        (3, u64::MAX - 1, wrong),
    ];
    for (kind, entry, fault) in table {
        assert_eq!(rt;
            refusal(rt.alloc(), kind, entry, parts)?,
            fault,
            "{kind} {entry}"
        );
    }
    Ok(())
}

#[test]
fn the_base_is_added_to_each_address(rt: HostRuntime) -> Result<(), Fail> {
    let whole = ProgramHeader {
        file_size: 176,
        ..code(0x1000, 0x2000)
    };
    for (kind, base) in [(2, 0), (3, BASE)] {
        let head = ElfHeader::new(kind, 0x1004, 2);
        let bytes = file(rt.alloc(), head, &[whole, variables(0x5000, 0x123)], &[])?;
        let elf = read(rt.alloc(), &bytes)?;
        assert_eq!(rt; elf.entry, base + 0x1004);
        assert_eq!(rt; elf.header_at, base + 0x1040);
        assert_eq!(rt; elf.header_count, 2);
        assert_eq!(rt; elf.top, base + 0x5123);
        assert_eq!(rt; elf.segments.len(), 2);
        for (segment, at) in elf.segments.iter().zip(&[base + 0x1000, base + 0x5000]) {
            assert_eq!(rt; segment.at, *at);
        }
    }
    Ok(())
}

#[test]
fn where_the_program_headers_stand_in_memory(rt: HostRuntime) -> Result<(), Fail> {
    // the table stands from 64 to 232 in the file; each row has the file bytes of the second and the third segment
    let table: [(u64, u64, u64, u64, u64); 8] = [
        (0, 232, 0, 0, 0x20040),
        (64, 168, 0, 0, 0x20000),
        (60, 172, 0, 240, 0x20004),
        (0, 231, 0, 232, 0x30040),
        (65, 167, 64, 168, 0x30000),
        (0, 231, 0, 231, 0),
        (65, 175, 66, 174, 0),
        (240, 0, 0, 0, 0),
    ];
    for (offset, size, third_offset, third_size, at) in table {
        let head = ElfHeader::new(2, 0x10000, 3);
        let second = ProgramHeader {
            offset,
            file_size: size,
            ..constants(0x20000, 0x1000)
        };
        let third = ProgramHeader {
            offset: third_offset,
            file_size: third_size,
            ..constants(0x30000, 0x1000)
        };
        let bytes = file(
            rt.alloc(),
            head,
            &[code(0x10000, 2), second, third],
            &[0; 8],
        )?;
        let elf = read(rt.alloc(), &bytes)?;
        assert_eq!(rt; elf.header_at, at, "{offset} {size}");
    }
    Ok(())
}

#[test]
fn the_top_is_that_of_the_highest_byte(rt: HostRuntime) -> Result<(), Fail> {
    let head = ElfHeader::new(2, 0x30000, 4);
    // the last is not the highest, and the highest has no byte
    let parts = [
        constants(0x20000, 8),
        code(0x30000, 6),
        constants(0x40000, 0),
        constants(0x10000, 0x1000),
    ];
    let bytes = file(rt.alloc(), head, &parts, &[])?;
    let elf = read(rt.alloc(), &bytes)?;
    assert_eq!(rt; elf.top, 0x30006);
    assert_eq!(rt; elf.segments.len(), 4);
    Ok(())
}

#[test]
fn the_rights_are_three_bits(rt: HostRuntime) -> Result<(), Fail> {
    let head = ElfHeader::new(2, 0x10000, 2);
    let parts = [
        zeros(0xFFFF_FFF5, 0x10000, 2),
        zeros(0x8000_0006, 0x20000, 2),
    ];
    let bytes = file(rt.alloc(), head, &parts, &[])?;
    let elf = read(rt.alloc(), &bytes)?;
    for (segment, rights) in elf.segments.iter().zip(&[5u32, 6]) {
        assert_eq!(rt; segment.rights, *rights);
    }
    Ok(())
}

/// A file of as many program headers as there can be: one segment of code, and variables in a page each, the last in this.
fn greatest_file(alloc: Global, last: u64) -> Result<Vec<u8>, AllocError> {
    let mut parts = vec![in alloc; code(0x10000, 0x100); 1]?;
    for index in 1..65_534u64 {
        parts.push(variables(0x10000 + 0x1000 * index, 0x100))?;
    }
    parts.push(variables(last, 0x100))?;
    file(alloc, ElfHeader::new(2, 0x10000, 65_535), &parts, &[])
}

#[test]
fn as_many_program_headers_as_there_can_be(rt: HostRuntime) -> Result<(), Fail> {
    let table: [(u64, Option<ElfFault>); 5] = [
        (0x3000, None),
        (0x10200, Some(ElfFault::WritableCode(65_534))),
        (0x11000, Some(ElfFault::Overlap(1, 65_534))),
        (0x12100, None),
        (0x1000_D0FF, Some(ElfFault::Overlap(65_533, 65_534))),
    ];
    for (last, fault) in table {
        let bytes = greatest_file(rt.alloc(), last)?;
        match read(rt.alloc(), &bytes) {
            Ok(elf) => {
                assert_eq!(rt; fault, None, "{last}");
                assert_eq!(rt; elf.segments.len(), 65_535);
            }
            Err(found) => assert_eq!(rt; Some(found), fault, "{last}"),
        }
    }
    Ok(())
}
