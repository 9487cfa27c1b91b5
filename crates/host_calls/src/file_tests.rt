use super::tests::files;
use super::*;
use call_table::{Call, CallNo};
use futex_table::FutexTable;
use guest_pages::{CHANGEABLE, Pages, Width};
use std::alloc::Global;
use std::test::Fail;
use word_memory::Reservations;

/// The root, in the place of a descriptor: -100.
const ROOT: u64 = 0xFFFF_FFFF_FFFF_FF9C;

/// The least number of 64 bits that is negative.
const NEGATIVE: u64 = 0x8000_0000_0000_0000;

/// Where names stand, and where bytes and what is told of a file come.
const A: u64 = 0x1_0100;

const DIRECTORY: u64 = 0x1_0110;

const B: u64 = 0x1_0120;

const NONE: u64 = 0x1_0130;

const EMPTY: u64 = 0x1_0140;

const ABC: u64 = 0x1_0150;

const Z: u64 = 0x1_0160;

const SLASH: u64 = 0x1_0170;

const ROOM: u64 = 0x1_0800;

const STATUS: u64 = 0x1_0900;

/// Not mapped.
const BAD: u64 = 0x1_1000;

/// What stands in memory before the calls: `hi`, the names and some bytes.
const PLACED: [(u64, &[u8]); 9] = [
    (0x1_0000, b"hi"),
    (A, b"a\0"),
    (DIRECTORY, b"d\0"),
    (B, b"b\0"),
    (NONE, b"none\0"),
    (ABC, b"abc"),
    (Z, b"z"),
    (SLASH, b"/\0"),
    (0x1_0FFE, b"xy"),
];

/// A system with two devices and one page.
fn host(alloc: Global) -> Result<Host, Fail> {
    let mut pages = Pages::new();
    if pages.map(alloc, 0x1_0000, 1, CHANGEABLE).is_err() {
        return Err("a page is mapped")?;
    }
    for (at, bytes) in PLACED {
        let _ = pages.copy_in(at, bytes);
    }
    Ok(Host {
        pages,
        held: Reservations::new(alloc),
        files: files(alloc)?,
        futexes: FutexTable::new(alloc),
        pending: Pending::new(alloc)?,
        program_break: Break::behind(0x2_0000),
        drawn: 16,
        clock: 0,
    })
}

fn answer(host: &mut Host, no: CallNo, args: [u64; 4]) -> Result<i64, Fail> {
    let [a0, a1, a2, a3] = args;
    tests::answer(host, no, [a0, a1, a2, a3, 0, 0])
}

#[test]
fn descriptors_share_an_offset_and_are_used_again(rt: HostRuntime) -> Result<(), Fail> {
    let mut host = host(rt.alloc())?;
    let table = [
        // devices are 0 and 1, so that the least free is 2
        (CallNo::Openat, [ROOT, A, 0x42, 0], 2),
        (CallNo::Write, [2, 0x1_0000, 2, 0], 2),
        (CallNo::Lseek, [2, 0, 0, 0], 0),
        // a duplicate shares the offset, and another description has its own
        (CallNo::Dup, [2, 0, 0, 0], 3),
        (CallNo::Read, [3, ROOM, 1, 0], 1),
        (CallNo::Lseek, [2, 0, 1, 0], 1),
        (CallNo::Openat, [ROOT, A, 0, 0], 4),
        (CallNo::Read, [4, ROOM, 10, 0], 2),
        (CallNo::Read, [4, ROOM, 10, 0], 0),
        (CallNo::Write, [4, 0x1_0000, 2, 0], -9),
        // an offset that is given moves none
        (CallNo::Pread64, [2, ROOM, 10, 1], 1),
        (CallNo::Pwrite64, [2, 0x1_0000, 1, 3], 1),
        (CallNo::Lseek, [2, 0, 1, 0], 1),
        (CallNo::Lseek, [2, 0, 2, 0], 4),
        (CallNo::Lseek, [2, 0, 3, 0], -22),
        (CallNo::Lseek, [2, NEGATIVE, 0, 0], -22),
        (CallNo::Lseek, [0, 0, 0, 0], -29),
        (CallNo::Pread64, [2, ROOM, 1, NEGATIVE], -22),
        (CallNo::Pwrite64, [9, ROOM, 1, NEGATIVE], -22),
        (CallNo::Pread64, [0, ROOM, 1, 0], -29),
        (CallNo::Pwrite64, [0, ROOM, 1, 0], -29),
        // the number of a closed one is used again
        (CallNo::Close, [3, 0, 0, 0], 0),
        (CallNo::Close, [3, 0, 0, 0], -9),
        (CallNo::Dup, [2, 0, 0, 0], 3),
        (CallNo::Dup3, [2, 2, 0, 0], -22),
        (CallNo::Dup3, [2, 10, 1, 0], -22),
        (CallNo::Dup3, [2, 256, 0, 0], -9),
        (CallNo::Dup3, [2, 10, 0x80000, 0], 10),
        (CallNo::Fcntl, [10, 1, 0, 0], 1),
        (CallNo::Fcntl, [2, 1, 0, 0], 0),
        (CallNo::Fcntl, [2, 2, 1, 0], 0),
        (CallNo::Fcntl, [2, 1, 0, 0], 1),
        (CallNo::Fcntl, [2, 0, 256, 0], -22),
        (CallNo::Fcntl, [2, 0, 20, 0], 20),
        (CallNo::Fcntl, [2, 1030, 20, 0], 21),
        (CallNo::Fcntl, [2, 3, 0, 0], 2),
        (CallNo::Fcntl, [2, 4, 0x400, 0], 0),
        (CallNo::Fcntl, [3, 3, 0, 0], 0x402),
        (CallNo::Fcntl, [2, 5, 0, 0], -22),
        (CallNo::Fcntl, [9, 3, 0, 0], -9),
        // what appends goes to the end, at an offset that is given too
        (CallNo::Pwrite64, [2, 0x1_0000, 1, 0], 1),
        (CallNo::Lseek, [2, 0, 2, 0], 5),
        (CallNo::Ioctl, [0, 0, 0, 0], -25),
        (CallNo::Ioctl, [9, 0, 0, 0], -9),
        (CallNo::Ftruncate, [2, 3, 0, 0], 0),
        (CallNo::Ftruncate, [2, NEGATIVE, 0, 0], -22),
        (CallNo::Ftruncate, [4, 3, 0, 0], -22),
        (CallNo::Ftruncate, [0, 3, 0, 0], -22),
        (CallNo::Ftruncate, [2, 16_777_217, 0, 0], -27),
        // a file without a name is there until it is closed
        (CallNo::Unlinkat, [ROOT, A, 0, 0], 0),
        (CallNo::Openat, [ROOT, A, 0, 0], -2),
        (CallNo::Pread64, [4, ROOM, 10, 0], 3),
        // a device has no bytes
        (CallNo::Read, [0, ROOM, 1, 0], -11),
        (CallNo::Close, [1, 0, 0, 0], 0),
        (CallNo::Write, [1, 0x1_0000, 1, 0], -9),
    ];
    for (no, args, wanted) in table {
        assert_eq!(rt; answer(&mut host, no, args)?, wanted, "{no:?} {args:?}");
    }
    assert_eq!(rt; host.pages.load(ROOM, Width::Two), Ok(0x6968));
    Ok(())
}

#[test]
fn paths_lead_from_a_directory(rt: HostRuntime) -> Result<(), Fail> {
    let mut host = host(rt.alloc())?;
    let table = [
        (CallNo::Mkdirat, [ROOT, DIRECTORY, 0, 0], 0),
        (CallNo::Mkdirat, [ROOT, DIRECTORY, 0, 0], -17),
        (CallNo::Mkdirat, [9, DIRECTORY, 0, 0], -9),
        (CallNo::Openat, [ROOT, DIRECTORY, 0, 0], 2),
        (CallNo::Openat, [ROOT, DIRECTORY, 1, 0], -21),
        (CallNo::Read, [2, ROOM, 1, 0], -21),
        (CallNo::Openat, [2, B, 0x41, 0], 3),
        // plain arguments, then the descriptor, then the address, then the path
        (CallNo::Openat, [9, BAD, 3, 0], -22),
        (CallNo::Openat, [9, BAD, 0, 0], -9),
        (CallNo::Openat, [ROOT, BAD, 0, 0], -14),
        (CallNo::Openat, [ROOT, 0x1_0FFE, 0, 0], -14),
        (CallNo::Openat, [3, B, 0, 0], -20),
        (CallNo::Openat, [ROOT, NONE, 0, 0], -2),
        (CallNo::Openat, [ROOT, EMPTY, 0, 0], -2),
        (CallNo::Unlinkat, [ROOT, DIRECTORY, 1, 0], -22),
        (CallNo::Unlinkat, [ROOT, DIRECTORY, 0x200, 0], -39),
        (CallNo::Unlinkat, [ROOT, DIRECTORY, 0, 0], -21),
        (CallNo::Readlinkat, [ROOT, DIRECTORY, 0, 0], -22),
        (CallNo::Readlinkat, [ROOT, NONE, 0, 0], -2),
        // `.`, `..` and `b` of 24 bytes each
        (CallNo::Getdents64, [2, ROOM, 200, 0], 72),
        (CallNo::Getdents64, [2, ROOM, 200, 0], 0),
        (CallNo::Lseek, [2, 0, 0, 0], 0),
        (CallNo::Getdents64, [2, ROOM, 10, 0], -22),
        (CallNo::Getdents64, [3, ROOM, 200, 0], -20),
        (CallNo::Getdents64, [9, BAD, 200, 0], -9),
        (CallNo::Getdents64, [2, BAD, 200, 0], -14),
        (CallNo::Newfstatat, [ROOT, NONE, STATUS, 0], -2),
        (CallNo::Newfstatat, [ROOT, NONE, STATUS, 1], -22),
        (CallNo::Newfstatat, [ROOT, NONE, BAD, 0], -14),
        (CallNo::Newfstatat, [3, EMPTY, STATUS, 0x1000], 0),
        (CallNo::Newfstatat, [ROOT, EMPTY, STATUS, 0], -2),
        (CallNo::Fstat, [9, STATUS, 0, 0], -9),
        (CallNo::Fstat, [0, BAD, 0, 0], -14),
        (CallNo::Fstat, [0, STATUS, 0, 0], 0),
    ];
    for (no, args, wanted) in table {
        assert_eq!(rt; answer(&mut host, no, args)?, wanted, "{no:?} {args:?}");
    }
    // the name of the first entry, and the mode of a device
    assert_eq!(rt; host.pages.load(ROOM + 19, Width::Two), Ok(0x2E));
    assert_eq!(rt; host.pages.load(STATUS + 16, Width::Four), Ok(0x2190));
    let given = answer(&mut host, CallNo::Newfstatat, [ROOT, DIRECTORY, STATUS, 0])?;
    assert_eq!(rt; given, 0);
    assert_eq!(rt; host.pages.load(STATUS + 16, Width::Four), Ok(0x41ED));
    Ok(())
}

#[test]
fn a_pipe_is_read_and_written(rt: HostRuntime) -> Result<(), Fail> {
    let mut host = host(rt.alloc())?;
    let table = [
        (CallNo::Pipe2, [BAD, 1, 0, 0], -22),
        (CallNo::Pipe2, [BAD, 0, 0, 0], -14),
        (CallNo::Pipe2, [BAD - 4, 0, 0, 0], -14),
        // the reading end is 2, the writing one 3
        (CallNo::Pipe2, [ROOM, 0, 0, 0], 0),
        (CallNo::Read, [2, ROOM + 8, 4, 0], -11),
        (CallNo::Write, [3, 0x1_0000, 2, 0], 2),
        (CallNo::Read, [2, 0x1_0000, 4, 0], 2),
        (CallNo::Write, [3, 0x1_0000, 1, 0], 1),
        (CallNo::Read, [2, ROOM + 8, 4, 0], 1),
        (CallNo::Read, [3, ROOM + 8, 4, 0], -9),
        (CallNo::Write, [2, 0x1_0000, 1, 0], -9),
        (CallNo::Lseek, [2, 0, 0, 0], -29),
        (CallNo::Pread64, [2, ROOM, 1, 0], -29),
        (CallNo::Pwrite64, [3, 0x1_0000, 1, 0], -29),
        (CallNo::Ftruncate, [3, 0, 0, 0], -22),
        (CallNo::Fcntl, [3, 3, 0, 0], 1),
        (CallNo::Fstat, [2, STATUS, 0, 0], 0),
        // without a writer it ends
        (CallNo::Close, [3, 0, 0, 0], 0),
        (CallNo::Read, [2, ROOM + 8, 4, 0], 0),
        // one that never waits, and then has no reader
        (CallNo::Pipe2, [ROOM + 16, 0x800, 0, 0], 0),
        (CallNo::Read, [3, ROOM + 8, 4, 0], -11),
        (CallNo::Close, [3, 0, 0, 0], 0),
        (CallNo::Write, [4, 0x1_0000, 1, 0], -32),
    ];
    for (no, args, wanted) in table {
        assert_eq!(rt; answer(&mut host, no, args)?, wanted, "{no:?} {args:?}");
    }
    assert_eq!(rt; host.pages.load(ROOM, Width::Eight), Ok(0x3_0000_0002));
    assert_eq!(rt; host.pages.load(ROOM + 8, Width::Two), Ok(0x68));
    assert_eq!(rt; host.pages.load(STATUS + 16, Width::Four), Ok(0x1180));
    Ok(())
}

#[test]
fn a_private_map_has_a_copy_of_a_files_bytes(rt: HostRuntime) -> Result<(), Fail> {
    let mut host = host(rt.alloc())?;
    let opens = [
        (CallNo::Openat, [ROOT, A, 0x42, 0], 2),
        (CallNo::Write, [2, 0x1_0000, 2, 0], 2),
        (CallNo::Openat, [ROOT, A, 1, 0], 3),
        (CallNo::Openat, [ROOT, EMPTY, 0, 0], -2),
        (CallNo::Mkdirat, [ROOT, DIRECTORY, 0, 0], 0),
        (CallNo::Openat, [ROOT, DIRECTORY, 0, 0], 4),
    ];
    for (no, args, wanted) in opens {
        assert_eq!(rt; answer(&mut host, no, args)?, wanted, "{no:?} {args:?}");
    }
    // length, protection, flags, descriptor, offset
    let table = [
        ([4096, 1, 2, 2, 0], 0x3E_FFFF_F000),
        ([4096, 3, 2, 2, 4096], 0x3E_FFFF_E000),
        ([4096, 1, 1, 2, 0], -19),
        ([4096, 1, 2, 0, 0], -19),
        ([4096, 1, 2, 4, 0], -19),
        ([4096, 1, 2, 3, 0], -13),
        ([4096, 1, 2, 9, 0], -9),
        ([4096, 1, 2, 2, 1], -22),
    ];
    for (args, wanted) in table {
        let [length, protection, flags, descriptor, offset] = args;
        let call = Call {
            no: CallNo::Mmap,
            args: [0, length, protection, flags, descriptor, offset],
        };
        assert_eq!(rt; immediate(&mut host, 1000, &call)?, wanted, "{args:?}");
    }
    // the bytes, with zeros behind them, and zeros past the file's end; a later write to the file isn't seen
    let _ = answer(&mut host, CallNo::Pwrite64, [2, A, 1, 0])?;
    assert_eq!(rt; host.pages.load(0x3E_FFFF_F000, Width::Four), Ok(0x6968));
    assert_eq!(rt; host.pages.load(0x3E_FFFF_E000, Width::Four), Ok(0));
    Ok(())
}

#[test]
fn a_file_is_cut_and_its_directory_is_listed(rt: HostRuntime) -> Result<(), Fail> {
    let mut host = host(rt.alloc())?;
    let table = [
        // two files, `a` with `abc`
        (CallNo::Openat, [ROOT, B, 0x40, 0], 2),
        (CallNo::Close, [2, 0, 0, 0], 0),
        (CallNo::Openat, [ROOT, A, 0x41, 0], 2),
        (CallNo::Write, [2, ABC, 3, 0], 3),
        (CallNo::Close, [2, 0, 0, 0], 0),
        // it is cut to one byte, and `z` is written behind a gap
        (CallNo::Openat, [ROOT, A, 2, 0], 2),
        (CallNo::Dup3, [2, 9, 0, 0], 9),
        (CallNo::Ftruncate, [9, 1, 0, 0], 0),
        (CallNo::Pwrite64, [2, Z, 1, 2], 1),
        (CallNo::Pread64, [2, ROOM, 9, 1], 2),
        (CallNo::Pread64, [2, ROOM, 9, 0], 3),
        // four entries of 24 bytes: one doesn't fit in 23, and two do in 71
        (CallNo::Openat, [ROOT, SLASH, 0, 0], 3),
        (CallNo::Getdents64, [3, STATUS, 23, 0], -22),
        (CallNo::Getdents64, [3, STATUS, 71, 0], 48),
        (CallNo::Getdents64, [3, STATUS, 256, 0], 48),
        (CallNo::Getdents64, [3, STATUS, 256, 0], 0),
    ];
    for (no, args, wanted) in table {
        assert_eq!(rt; answer(&mut host, no, args)?, wanted, "{no:?} {args:?}");
    }
    assert_eq!(rt; host.pages.load(ROOM, Width::Four), Ok(0x7A_0061));
    Ok(())
}
