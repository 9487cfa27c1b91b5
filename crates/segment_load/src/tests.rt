use super::*;
use elf_build::{EXECUTE, ElfHeader, ProgramHeader, READ, WRITE, zeros};
use elf_file::{Elf, ElfFault, read};
use guest_pages::{PageFault, Pages, Rights, Width};
use std::alloc::{AllocError, Global};
use std::test::Fail;

const BASE: u64 = 0x20_0000_0000;

/// The address of the code that each file ends its program headers with.
const CODE: u64 = 0x8_0000;

/// Where a file's bytes stand behind its header and its four program headers.
const REST: u64 = 64 + 4 * 56;

/// A loaded segment with bytes from the file, from a place behind the program headers on.
fn filled(flags: u32, address: u64, size: u64, place: u64, length: u64) -> ProgramHeader {
    ProgramHeader {
        offset: REST.wrapping_add(place),
        file_size: length,
        ..zeros(flags, address, size)
    }
}

/// A program header of a type that is passed over.
fn note() -> ProgramHeader {
    ProgramHeader {
        kind: 4,
        ..zeros(7, 0x10000, 0x1000)
    }
}

/// A file of three program headers and a fourth one of two bytes of code, with bytes behind them.
fn file(
    alloc: Global,
    kind: u16,
    parts: [ProgramHeader; 3],
    rest: &[u8],
) -> Result<Vec<u8>, AllocError> {
    let [first, second, third] = parts;
    let parts = [first, second, third, zeros(READ | EXECUTE, CODE, 2)];
    elf_build::file(alloc, ElfHeader::new(kind, CODE, 4), &parts, rest)
}

/// What the reader makes of the file.
fn elf_of(
    alloc: Global,
    kind: u16,
    parts: [ProgramHeader; 3],
    rest: &[u8],
) -> Result<Elf, ElfFault> {
    match file(alloc, kind, parts, rest) {
        Ok(bytes) => read(alloc, &bytes),
        Err(_) => Err(ElfFault::Memory),
    }
}

/// The memory of a file whose pages fit.
fn memory_of(alloc: Global, elf: &Elf) -> Result<Pages, AllocError> {
    if wanted_pages(elf) > 65_536 {
        return Err(AllocError);
    }
    load(alloc, elf)
}

fn rights(read: bool, write: bool, execute: bool) -> Rights {
    Rights {
        read,
        write,
        execute,
    }
}

/// The rights of the whole page from an address on, none where it is not mapped.
fn rights_of_page(pages: &Pages, at: u64) -> Option<Rights> {
    if pages.allows(at, 4096, rights(false, false, false)).is_err() {
        return None;
    }
    Some(rights(
        pages.allows(at, 4096, rights(true, false, false)).is_ok(),
        pages.allows(at, 4096, rights(false, true, false)).is_ok(),
        pages.allows(at, 4096, rights(false, false, true)).is_ok(),
    ))
}

#[test]
fn bytes_of_the_file_and_zeros_around_them(rt: HostRuntime) -> Result<(), Fail> {
    let parts = [
        filled(READ, 0x10FFC, 0x1000, 0, 9),
        note(),
        filled(READ | WRITE, 0x20010, 0x1000, 9, 3),
    ];
    let rest = [1, 2, 3, 4, 5, 6, 7, 8, 9, 10, 11, 12, 13, 14];
    let elf = elf_of(rt.alloc(), 2, parts, &rest)?;
    let pages = memory_of(rt.alloc(), &elf)?;
    let table: [(u64, [u8; 8]); 11] = [
        (0x10000, [0; 8]),
        (0x10FF8, [0, 0, 0, 0, 1, 2, 3, 4]),
        (0x11000, [5, 6, 7, 8, 9, 0, 0, 0]),
        (0x11FF8, [0; 8]),
        (0x20000, [0; 8]),
        (0x2000C, [0, 0, 0, 0, 10, 11, 12, 0]),
        (0x20014, [0; 8]),
        (0x20FFC, [0; 8]),
        (0x21FF8, [0; 8]),
        (0x80000, [0; 8]),
        (0x80FF8, [0; 8]),
    ];
    for (at, bytes) in table {
        let mut found = [255; 8];
        assert_eq!(rt; pages.copy_out(at, &mut found), Ok(()), "{at}");
        assert_eq!(rt; found, bytes, "{at}");
    }
    for (start, sum) in [(0x10000u64, 45u64), (0x20000, 33), (0x80000, 0)] {
        let length: u64 = if start == 0x80000 { 4096 } else { 8192 };
        let mut total: u64 = 0;
        for offset in 0..length {
            let byte = pages.load(start.wrapping_add(offset), Width::One)?;
            total = total.wrapping_add(byte);
        }
        assert_eq!(rt; total, sum, "{start}");
    }
    Ok(())
}

#[test]
fn nothing_stands_where_no_segment_has_a_page(rt: HostRuntime) -> Result<(), Fail> {
    let parts = [
        filled(READ, 0x10FFC, 0x1000, 0, 9),
        note(),
        zeros(READ | WRITE, 0x30000, 0),
    ];
    let elf = elf_of(rt.alloc(), 2, parts, &[1; 9])?;
    let pages = memory_of(rt.alloc(), &elf)?;
    let table = [
        0,
        0x1000,
        0x0FFFF,
        0x12000,
        0x2FFFF,
        0x30000,
        0x7FFFF,
        0x81000,
        0x3E_FFFF_FFFF,
        BASE + 0x10FFC,
        u64::MAX,
    ];
    for at in table {
        assert_eq!(rt;
            pages.allows(at, 1, rights(false, false, false)),
            Err(PageFault::NotMapped(at)),
            "{at}"
        );
    }
    assert_eq!(rt;
        pages.allows(0x10000, 0x2000, rights(true, false, false)),
        Ok(())
    );
    assert_eq!(rt;
        pages.allows(0x80000, 0x1000, rights(true, false, true)),
        Ok(())
    );
    Ok(())
}

#[test]
fn segments_of_one_page_keep_their_bytes(rt: HostRuntime) -> Result<(), Fail> {
    let low = filled(READ, 0x10000, 0x800, 0, 0x3);
    let high = filled(READ | WRITE, 0x10800, 0x800, 3, 2);
    let touching = filled(WRITE, 0x107FE, 2, 5, 2);
    let low_short = filled(READ, 0x10000, 0x7FE, 0, 3);
    let table: [([ProgramHeader; 3], [u8; 8], [u8; 8]); 4] = [
        (
            [low, high, note()],
            [1, 2, 3, 0, 0, 0, 0, 0],
            [0, 0, 0, 0, 4, 5, 0, 0],
        ),
        (
            [high, note(), low],
            [1, 2, 3, 0, 0, 0, 0, 0],
            [0, 0, 0, 0, 4, 5, 0, 0],
        ),
        (
            [touching, low_short, high],
            [1, 2, 3, 0, 0, 0, 0, 0],
            [0, 0, 6, 7, 4, 5, 0, 0],
        ),
        (
            [high, low_short, touching],
            [1, 2, 3, 0, 0, 0, 0, 0],
            [0, 0, 6, 7, 4, 5, 0, 0],
        ),
    ];
    for (row, (parts, at_start, at_middle)) in table.iter().enumerate() {
        let elf = elf_of(rt.alloc(), 2, *parts, &[1, 2, 3, 4, 5, 6, 7])?;
        let pages = memory_of(rt.alloc(), &elf)?;
        let mut found = [255; 8];
        assert_eq!(rt; pages.copy_out(0x10000, &mut found), Ok(()), "row {row}");
        assert_eq!(rt; found, *at_start, "row {row}");
        assert_eq!(rt; pages.copy_out(0x107FC, &mut found), Ok(()), "row {row}");
        assert_eq!(rt; found, *at_middle, "row {row}");
        assert_eq!(rt;
            rights_of_page(&pages, 0x10000),
            Some(rights(true, true, false)),
            "row {row}"
        );
    }
    Ok(())
}

#[test]
fn the_rights_of_a_page_are_those_of_its_flags(rt: HostRuntime) -> Result<(), Fail> {
    let table: [(u32, Rights); 6] = [
        (0, rights(false, false, false)),
        (EXECUTE, rights(false, false, true)),
        (WRITE, rights(false, true, false)),
        (READ, rights(true, false, false)),
        (READ | EXECUTE, rights(true, false, true)),
        (READ | WRITE, rights(true, true, false)),
    ];
    for (flags, given) in table {
        let parts = [zeros(flags, 0x10FFF, 2), note(), note()];
        let elf = elf_of(rt.alloc(), 2, parts, &[])?;
        let pages = memory_of(rt.alloc(), &elf)?;
        for at in [0x10000, 0x11000] {
            assert_eq!(rt; rights_of_page(&pages, at), Some(given), "{flags} {at}");
        }
        assert_eq!(rt; rights_of_page(&pages, 0x0F000), None, "{flags}");
        assert_eq!(rt; rights_of_page(&pages, 0x12000), None, "{flags}");
    }
    Ok(())
}

#[test]
fn a_page_has_the_rights_of_all_its_segments(rt: HostRuntime) -> Result<(), Fail> {
    // the flags of three segments in one page, in the order of the file
    let table: [(u32, u32, u32, Rights); 9] = [
        (READ, READ | WRITE, 0, rights(true, true, false)),
        (READ | WRITE, READ, 0, rights(true, true, false)),
        (READ, WRITE, 0, rights(true, true, false)),
        (WRITE, 0, READ, rights(true, true, false)),
        (EXECUTE, READ, 0, rights(true, false, true)),
        (0, READ | EXECUTE, READ, rights(true, false, true)),
        (READ, 0, EXECUTE, rights(true, false, true)),
        (0, WRITE, 0, rights(false, true, false)),
        (0, 0, 0, rights(false, false, false)),
    ];
    for (first, second, third, given) in table {
        let parts = [
            zeros(first, 0x10000, 0x500),
            zeros(second, 0x10800, 0x800),
            zeros(third, 0x10500, 1),
        ];
        let elf = elf_of(rt.alloc(), 2, parts, &[])?;
        let pages = memory_of(rt.alloc(), &elf)?;
        assert_eq!(rt;
            rights_of_page(&pages, 0x10000),
            Some(given),
            "{first} {second} {third}"
        );
    }
    Ok(())
}

#[test]
fn a_page_that_would_be_written_and_executed_is_not_read(rt: HostRuntime) -> Result<(), Fail> {
    let parts = [
        zeros(READ | WRITE, 0x10000, 0x800),
        zeros(READ | EXECUTE, 0x10800, 0x800),
        note(),
    ];
    let bytes = file(rt.alloc(), 2, parts, &[])?;
    assert!(rt; matches!(read(rt.alloc(), &bytes), Err(ElfFault::WritableCode(1))));
    Ok(())
}

#[test]
fn a_segment_shares_its_first_and_its_last_page(rt: HostRuntime) -> Result<(), Fail> {
    let before = filled(READ | WRITE, 0x10000, 0x800, 0, 2);
    let middle = filled(READ, 0x10800, 0x2000, 2, 0x2000);
    let behind = filled(READ | EXECUTE, 0x12800, 0x800, 0x2002, 2);
    let mut rest = Vec::new(rt.alloc());
    rest.extend_from_slice(&[1, 2])?;
    rest.extend_from_slice(&[7; 0x2000])?;
    rest.extend_from_slice(&[3, 4])?;
    let orders = [
        [before, middle, behind],
        [behind, middle, before],
        [middle, before, behind],
        [before, behind, middle],
    ];
    for (row, parts) in orders.iter().enumerate() {
        let elf = elf_of(rt.alloc(), 2, *parts, rest.as_slice())?;
        let pages = memory_of(rt.alloc(), &elf)?;
        let given = [
            (0x0F000, None),
            (0x10000, Some(rights(true, true, false))),
            (0x11000, Some(rights(true, false, false))),
            (0x12000, Some(rights(true, false, true))),
            (0x13000, None),
        ];
        for (at, page) in given {
            assert_eq!(rt; rights_of_page(&pages, at), page, "row {row} {at}");
        }
        let bytes: [(u64, [u8; 4]); 6] = [
            (0x10000, [1, 2, 0, 0]),
            (0x107FE, [0, 0, 7, 7]),
            (0x10FFE, [7, 7, 7, 7]),
            (0x11FFE, [7, 7, 7, 7]),
            (0x127FE, [7, 7, 3, 4]),
            (0x12802, [0, 0, 0, 0]),
        ];
        for (at, wanted) in bytes {
            let mut found = [255; 4];
            assert_eq!(rt; pages.copy_out(at, &mut found), Ok(()), "row {row} {at}");
            assert_eq!(rt; found, wanted, "row {row} {at}");
        }
        // its three pages, and that of the code
        assert_eq!(rt; wanted_pages(&elf), 4, "row {row}");
    }
    Ok(())
}

#[test]
fn each_page_that_is_stored_is_wanted_once(rt: HostRuntime) -> Result<(), Fail> {
    let table: [([ProgramHeader; 3], u64); 19] = [
        // no byte
        ([note(), note(), note()], 0),
        ([zeros(READ, 0x10000, 0), note(), note()], 0),
        (
            [zeros(READ, 0x10800, 0), zeros(READ, 0x10000, 1), note()],
            1,
        ),
        // the pages of one segment
        ([zeros(READ, 0x10FFF, 1), note(), note()], 1),
        ([zeros(WRITE, 0x10FFF, 2), note(), note()], 2),
        ([zeros(EXECUTE, 0x10000, 0x1000), note(), note()], 1),
        ([zeros(READ, 0x10000, 0x1001), note(), note()], 2),
        ([zeros(READ, 0x10FFF, 0x1002), note(), note()], 3),
        // two and three in one page
        (
            [
                zeros(READ, 0x10000, 0x800),
                zeros(READ | WRITE, 0x10800, 0x800),
                note(),
            ],
            1,
        ),
        (
            [
                zeros(READ, 0x10800, 8),
                zeros(READ, 0x10000, 8),
                zeros(READ, 0x10400, 8),
            ],
            1,
        ),
        // the last page of one is the first of the next
        (
            [
                zeros(READ, 0x10000, 0x1800),
                zeros(READ, 0x11800, 0x1000),
                note(),
            ],
            3,
        ),
        // each has its own
        (
            [
                zeros(READ, 0x10000, 0x1000),
                zeros(READ, 0x11000, 0x1000),
                note(),
            ],
            2,
        ),
        // without a right
        ([zeros(0, 0x10000, 0x5000), note(), note()], 0),
        (
            [
                zeros(0, 0x10000, 0x800),
                zeros(READ, 0x10800, 0x800),
                note(),
            ],
            1,
        ),
        (
            [
                zeros(READ, 0x10000, 0x1800),
                zeros(0, 0x11800, 0x2000),
                note(),
            ],
            2,
        ),
        (
            [
                zeros(0, 0x11800, 0x2000),
                zeros(READ, 0x10000, 0x1800),
                note(),
            ],
            2,
        ),
        // many pages
        (
            [
                zeros(READ | WRITE, 0x1000_0000, 0x1000_0000),
                note(),
                note(),
            ],
            65_536,
        ),
        (
            [zeros(READ, 0x10_0000, 0x3E_FFF0_0000), note(), note()],
            0x3EF_FF00,
        ),
        // one of the three pages is that of the code
        (
            [
                zeros(READ, 0x81FFF, 2),
                zeros(READ, 0x80FFF, 2),
                zeros(READ, 0x80FFC, 3),
            ],
            2,
        ),
    ];
    for (row, (parts, pages)) in table.iter().enumerate() {
        let elf = elf_of(rt.alloc(), 2, *parts, &[])?;
        // and the page of the code
        let wanted = wanted_pages(&elf);
        assert_eq!(rt; wanted, pages.wrapping_add(1), "row {row}");
    }
    Ok(())
}

#[test]
fn a_page_without_rights_is_mapped(rt: HostRuntime) -> Result<(), Fail> {
    let none = rights(false, false, false);
    let parts = [
        filled(0, 0x10000, 0x2800, 0, 4),
        filled(READ, 0x12800, 0x800, 4, 2),
        note(),
    ];
    let elf = elf_of(rt.alloc(), 2, parts, &[1, 2, 3, 4, 5, 6])?;
    let pages = memory_of(rt.alloc(), &elf)?;
    assert_eq!(rt; pages.allows(0x10000, 0x3000, none), Ok(()));
    assert_eq!(rt; rights_of_page(&pages, 0x10000), Some(none));
    assert_eq!(rt; rights_of_page(&pages, 0x11000), Some(none));
    assert_eq!(rt;
        rights_of_page(&pages, 0x12000),
        Some(rights(true, false, false))
    );
    assert_eq!(rt; rights_of_page(&pages, 0x13000), None);
    assert_eq!(rt;
        pages.load(0x10000, Width::One),
        Err(PageFault::NoAccess(0x10000))
    );
    assert_eq!(rt; pages.load(0x12800, Width::Two), Ok(0x0605));
    // the last page, and that of the code
    assert_eq!(rt; wanted_pages(&elf), 2);
    Ok(())
}

#[test]
fn pages_without_rights_take_no_room(rt: HostRuntime) -> Result<(), Fail> {
    // 65,536 pages have no right. The bytes of their segment are in the page before them, which another one can read
    let shared = filled(READ, 0x1000_0000, 0x800, 0, 2);
    let bare = filled(0, 0x1000_0800, 0x1000_0800, 2, 4);
    let none = rights(false, false, false);
    for parts in [[shared, bare, note()], [bare, note(), shared]] {
        let elf = elf_of(rt.alloc(), 2, parts, &[1, 2, 3, 4, 5, 6])?;
        let pages = memory_of(rt.alloc(), &elf)?;
        assert_eq!(rt; pages.load(0x1000_0800, Width::Four), Ok(0x0605_0403));
        let given = [
            (0x1000_0000, Some(rights(true, false, false))),
            (0x1000_1000, Some(none)),
            (0x2000_0000, Some(none)),
            (0x2000_1000, None),
        ];
        for (at, page) in given {
            assert_eq!(rt; rights_of_page(&pages, at), page, "{at}");
        }
        // the shared page, and that of the code
        assert_eq!(rt; wanted_pages(&elf), 2);
        laws(&elf);
    }
    Ok(())
}

#[test]
fn a_file_reserves_all_its_addresses_without_rights(rt: HostRuntime) -> Result<(), Fail> {
    // 248 GiB, less 1 MiB, from which the code is apart. The last bytes of the file are in no page with a right
    let parts = [
        filled(0, 0x10_0000, 0x3E_FFF0_0000, 0, 4),
        filled(READ, 0xF_F000, 0x1000, 4, 2),
        note(),
    ];
    let elf = elf_of(rt.alloc(), 2, parts, &[1, 2, 3, 4, 5, 6])?;
    let pages = memory_of(rt.alloc(), &elf)?;
    let none = rights(false, false, false);
    let given = [
        (0xF_F000, Some(rights(true, false, false))),
        (0x10_0000, Some(none)),
        (0x20_0000_0000, Some(none)),
        (0x3E_FFFF_F000, Some(none)),
        (0x3F_0000_0000, None),
    ];
    for (at, page) in given {
        assert_eq!(rt; rights_of_page(&pages, at), page, "{at}");
    }
    assert_eq!(rt; pages.load(0xF_F000, Width::Four), Ok(0x0605));
    // the page that can be read, and that of the code
    assert_eq!(rt; wanted_pages(&elf), 2);
    Ok(())
}

#[test]
fn a_file_of_type_3_is_loaded_above_its_base(rt: HostRuntime) -> Result<(), Fail> {
    let parts = [
        filled(READ, 0, 0x1000, 0, 2),
        filled(READ | WRITE, 0x1E_FFFF_F800, 0x800, 2, 2),
        note(),
    ];
    let elf = elf_of(rt.alloc(), 3, parts, &[1, 2, 3, 4])?;
    let pages = memory_of(rt.alloc(), &elf)?;
    let table = [
        (0, None),
        (0x80000, None),
        (0x1E_FFFF_F000, None),
        (0x1F_FFFF_F000, None),
        (BASE, Some(rights(true, false, false))),
        (BASE + 0x1000, None),
        (BASE + 0x80000, Some(rights(true, false, true))),
        (0x3E_FFFF_F000, Some(rights(true, true, false))),
        (0x3F_0000_0000, None),
    ];
    for (at, page) in table {
        assert_eq!(rt; rights_of_page(&pages, at), page, "{at}");
    }
    assert_eq!(rt; pages.load(BASE, Width::Four), Ok(0x0201));
    assert_eq!(rt; pages.load(0x3E_FFFF_F7FE, Width::Four), Ok(0x0403_0000));
    assert_eq!(rt; pages.load(0x3E_FFFF_FFFC, Width::Four), Ok(0));
    assert_eq!(rt; wanted_pages(&elf), 3);
    Ok(())
}
