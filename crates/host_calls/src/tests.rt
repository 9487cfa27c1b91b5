use super::*;
use call_table::{Call, CallNo};
use file_table::Files;
use file_tree::Tree;
use futex_table::FutexTable;
use guest_pages::{CHANGEABLE, PageFault, Pages, RUNNABLE, Width};
use std::alloc::{AllocError, Global};
use std::test::Fail;
use word_memory::Reservations;

const THREAD: u32 = 1000;

/// An empty tree, and two devices as descriptors 0 and 1.
pub fn files(alloc: Global) -> Result<Files, AllocError> {
    let tree = Tree::new(alloc)?;
    Files::new(alloc, tree, 2, None)
}

/// A system with two devices, whose memory has `hi` at 0x10000, nothing from 0x11000 on, and code at 0x15000.
fn host(alloc: Global) -> Result<Host, Fail> {
    let mut pages = Pages::new();
    if pages.map(alloc, 0x1_0000, 1, CHANGEABLE).is_err() {
        return Err("a page is mapped")?;
    }
    if pages.copy_in(0x1_0000, b"hi").is_err() {
        return Err("its bytes are there")?;
    }
    if pages.map(alloc, 0x1_5000, 1, RUNNABLE).is_err() {
        return Err("code is mapped")?;
    }
    Ok(Host {
        pages,
        held: Reservations::new(alloc),
        files: files(alloc)?,
        futexes: FutexTable::new(alloc),
        pending: Pending::new(alloc)?,
        program_break: Break::behind(0x1_F001),
        drawn: 16,
        clock: 0,
    })
}

/// A call is made; what a read and a write of one piece move is moved in one go.
pub fn answer(host: &mut Host, no: CallNo, args: [u64; 6]) -> Result<i64, Fail> {
    let piece = one_piece(args[1], args[2]);
    let call = Call { no, args };
    match no {
        CallNo::Read => Ok(host.read_into(THREAD, args[0], &[piece], piece.size)?),
        CallNo::Write => Ok(host.write_from(args[0], &[piece])?),
        _ => Ok(immediate(host, THREAD, &call)?),
    }
}

const ALL_ONES: u64 = u64::MAX;

/// The lowest address that isn't a user address.
const END: u64 = 0x40_0000_0000;

/// The last page of all numbers of 64 bits.
const LAST_PAGE: u64 = 0xFFFF_FFFF_FFFF_F000;

/// Private and anonymous, and with a fixed place.
const PRIVATE: u64 = 0x22;

const FIXED: u64 = 0x32;

#[test]
fn calls_answer_as_their_pages_say(rt: HostRuntime) -> Result<(), Fail> {
    let mut host = host(rt.alloc())?;
    let table = [
        (CallNo::Getpid, [0; 6], 1000),
        (CallNo::Gettid, [0; 6], 1000),
        (CallNo::Getuid, [0; 6], 1000),
        (CallNo::Geteuid, [0; 6], 1000),
        (CallNo::Getgid, [0; 6], 1000),
        (CallNo::Getegid, [0; 6], 1000),
        (CallNo::SchedYield, [0; 6], 0),
        (CallNo::Write, [1, 0x1_0000, 2, 0, 0, 0], 2),
        // the descriptor goes before the address
        (CallNo::Write, [2, 0x1_1000, 1, 0, 0, 0], -9),
        (CallNo::Write, [ALL_ONES, 0x1_0000, 1, 0, 0, 0], -9),
        (CallNo::Write, [1, 0x1_1000, 1, 0, 0, 0], -14),
        (CallNo::Write, [1, 0x1_0FFF, 2, 0, 0, 0], -14),
        // no byte is read of an address
        (CallNo::Write, [0, 0x1_1000, 0, 0, 0, 0], 0),
        // a clock that isn't there goes before an address that can't be written
        (CallNo::ClockGettime, [1, 0x1_0010, 0, 0, 0, 0], 0),
        (CallNo::ClockGettime, [2, 0, 0, 0, 0, 0], -22),
        (CallNo::ClockGettime, [0, 0x1_0FF1, 0, 0, 0, 0], -14),
        (CallNo::Uname, [0x1_0100, 0, 0, 0, 0, 0], 0),
        (CallNo::Uname, [0x1_0F00, 0, 0, 0, 0, 0], -14),
        // a bad address, then another process, then a new limit
        (CallNo::Prlimit64, [0, 3, 0, 0x1_0400, 0, 0], 0),
        (CallNo::Prlimit64, [1000, 7, 0, 0, 0, 0], 0),
        (CallNo::Prlimit64, [1, 3, 8, 0x1_0FF1, 0, 0], -14),
        (CallNo::Prlimit64, [1, 3, 8, 0, 0, 0], -3),
        (CallNo::Prlimit64, [0, 3, 8, 0, 0, 0], -1),
        (CallNo::Getrandom, [0x1_0500, 2, 0, 0, 0, 0], 2),
        (CallNo::Getrandom, [0x1_0600, 1000, 0, 0, 0, 0], 256),
        (CallNo::Getrandom, [0x1_0FFF, 2, 0, 0, 0, 0], -14),
        // calls that aren't there yet
        (CallNo::Futex, [0; 6], -38),
        (CallNo::Clone, [0; 6], -38),
    ];
    for (no, args, wanted) in table {
        assert_eq!(rt; answer(&mut host, no, args)?, wanted, "{no:?}");
    }
    // the random bytes go on behind the 16 of the stack: 167 k + 13 modulo 256 for k = 16 and 17
    assert_eq!(rt; host.pages.load(0x1_0500, Width::Two), Ok(0x247D));
    assert_eq!(rt; host.pages.load(0x1_0400, Width::Eight), Ok(8_388_608));
    let Host { files, .. } = host;
    if files.devices() > 1 {
        assert_eq!(rt; files.output(1), b"hi".as_slice());
        assert_eq!(rt; files.output(0), [].as_slice());
    } else {
        assert!(rt; false);
    }
    Ok(())
}

#[test]
fn maps_and_the_break_by_their_edges(rt: HostRuntime) -> Result<(), Fail> {
    let mut host = host(rt.alloc())?;
    let table = [
        // the break: asked for, raised and lowered, and kept where the wish is out of its 64 MiB
        (CallNo::Brk, [0, 0, 0, 0, 0, 0], 0x2_0000),
        (CallNo::Brk, [0x2_2001, 0, 0, 0, 0, 0], 0x2_2001),
        (CallNo::Brk, [0x1_FFFF, 0, 0, 0, 0, 0], 0x2_2001),
        (CallNo::Brk, [0x402_0000, 0, 0, 0, 0, 0], 0x402_0000),
        (CallNo::Brk, [0x402_0001, 0, 0, 0, 0, 0], 0x402_0000),
        (CallNo::Brk, [0x2_0000, 0, 0, 0, 0, 0], 0x2_0000),
        // over a page that isn't free
        (CallNo::Mmap, [0x2_1000, 1, 3, FIXED, ALL_ONES, 0], 0x2_1000),
        (CallNo::Brk, [0x2_1001, 0, 0, 0, 0, 0], 0x2_0000),
        (CallNo::Brk, [0x2_1000, 0, 0, 0, 0, 0], 0x2_1000),
        // three maps of a thread's stack, each below the last one
        (
            CallNo::Mmap,
            [0, 8_392_704, 0, PRIVATE, ALL_ONES, 0],
            0x3E_FF7F_F000,
        ),
        (
            CallNo::Mmap,
            [0, 8_392_704, 0, PRIVATE, ALL_ONES, 0],
            0x3E_FEFF_E000,
        ),
        // a hint is passed over
        (
            CallNo::Mmap,
            [0x5_0000, 8_392_704, 0, PRIVATE, ALL_ONES, 0],
            0x3E_FE7F_D000,
        ),
        (CallNo::Mprotect, [0x3E_FF80_0000, 8_388_608, 3, 0, 0, 0], 0),
        // no length, flags of neither or of both kinds, offsets and places that aren't whole pages
        (CallNo::Mmap, [0, 0, 3, PRIVATE, ALL_ONES, 0], -22),
        (CallNo::Mmap, [0, 1, 3, 0x20, ALL_ONES, 0], -22),
        (CallNo::Mmap, [0, 1, 3, 0x23, ALL_ONES, 0], -22),
        (CallNo::Mmap, [0, 1, 3, 0x122, ALL_ONES, 0], -22),
        (CallNo::Mmap, [0, 1, 3, PRIVATE, ALL_ONES, 1], -22),
        (CallNo::Mmap, [0x5_0001, 1, 3, FIXED, ALL_ONES, 0], -22),
        // no descriptor, the right to execute, a device
        (CallNo::Mmap, [0, 1, 4, 2, 9, 0], -9),
        (CallNo::Mmap, [0, 1, 4, 2, 0, 0], -13),
        (CallNo::Mmap, [0, 1, 3, 2, 0, 0], -19),
        // mapped already, past user addresses, too many pages
        (CallNo::Mmap, [0x2_1000, 1, 3, 0x10_0022, ALL_ONES, 0], -17),
        (CallNo::Mmap, [END - 4096, 4097, 3, FIXED, ALL_ONES, 0], -12),
        (CallNo::Mmap, [0, END, 3, PRIVATE, ALL_ONES, 0], -12),
        (CallNo::Mmap, [0, 0x1000_0000, 3, PRIVATE, ALL_ONES, 0], -12),
        // a map over half of a mapped range
        (
            CallNo::Mmap,
            [0x3E_FF80_0000, 4_194_304, 1, FIXED, ALL_ONES, 0],
            0x3E_FF80_0000,
        ),
        (CallNo::Munmap, [0x3E_FF80_0000, 8_388_608, 0, 0, 0, 0], 0),
        (CallNo::Munmap, [0x3E_FF80_0000, 1, 0, 0, 0, 0], 0),
        (CallNo::Munmap, [1, 1, 0, 0, 0, 0], -22),
        (CallNo::Munmap, [0, 0, 0, 0, 0, 0], -22),
        (CallNo::Munmap, [0, ALL_ONES, 0, 0, 0, 0], -22),
        (CallNo::Munmap, [END - 4096, 4097, 0, 0, 0, 0], -22),
        (CallNo::Mprotect, [1, 1, 4, 0, 0, 0], -22),
        (CallNo::Mprotect, [0x1_0000, 1, 4, 0, 0, 0], -13),
        (CallNo::Mprotect, [0x1_0000, 4097, 1, 0, 0, 0], -12),
        (CallNo::Mprotect, [END, 1, 1, 0, 0, 0], -12),
        // past 2^64
        (CallNo::Munmap, [LAST_PAGE, 0x2000, 0, 0, 0, 0], -22),
        (CallNo::Mprotect, [LAST_PAGE, 0x2000, 1, 0, 0, 0], -12),
        (
            CallNo::Mmap,
            [LAST_PAGE, 0x2000, 3, FIXED, ALL_ONES, 0],
            -12,
        ),
        (CallNo::Mmap, [LAST_PAGE, 1, 3, 0x10_0022, ALL_ONES, 0], -12),
        // code stays as it is: in the last page of the range, and in the first
        (CallNo::Munmap, [0x1_0000, 0x6000, 0, 0, 0, 0], -13),
        (CallNo::Munmap, [0x1_5000, 0x2000, 0, 0, 0, 0], -13),
        (CallNo::Mprotect, [0x1_5000, 1, 1, 0, 0, 0], -13),
        // before pages that aren't mapped or aren't of user addresses
        (CallNo::Mprotect, [0x1_0000, 0x6000, 1, 0, 0, 0], -13),
        (CallNo::Mprotect, [0x1_5000, ALL_ONES, 1, 0, 0, 0], -13),
        (CallNo::Mmap, [0x1_4000, 0x2000, 3, FIXED, ALL_ONES, 0], -13),
        (
            CallNo::Mmap,
            [0x1_5000, ALL_ONES, 3, FIXED, ALL_ONES, 0],
            -13,
        ),
    ];
    for (no, args, wanted) in table {
        assert_eq!(rt; answer(&mut host, no, args)?, wanted, "{no:?} {wanted}");
    }
    Ok(())
}

#[test]
fn as_many_pages_are_stored_as_may_be(rt: HostRuntime) -> Result<(), Fail> {
    let mut host = host(rt.alloc())?;
    let table = [
        // two pages are stored, so that 65,534 are left
        (CallNo::Mmap, [0, 0xFFF_F000, 3, PRIVATE, ALL_ONES, 0], -12),
        (
            CallNo::Mmap,
            [0, 0xFFF_E000, 3, PRIVATE, ALL_ONES, 0],
            0x3E_F000_2000,
        ),
        (CallNo::Mmap, [0, 1, 1, PRIVATE, ALL_ONES, 0], -12),
        (CallNo::Brk, [0x2_0001, 0, 0, 0, 0, 0], 0x2_0000),
        // a page without rights isn't stored, until it gets one
        (
            CallNo::Mmap,
            [0, 1, 0, PRIVATE, ALL_ONES, 0],
            0x3E_F000_1000,
        ),
        (CallNo::Mprotect, [0x3E_F000_1000, 1, 1, 0, 0, 0], -12),
        (CallNo::Munmap, [0x3E_F000_2000, 1, 0, 0, 0, 0], 0),
        (CallNo::Mprotect, [0x3E_F000_1000, 1, 1, 0, 0, 0], 0),
    ];
    for (no, args, wanted) in table {
        assert_eq!(rt; answer(&mut host, no, args)?, wanted, "{no:?} {wanted}");
    }
    Ok(())
}

#[test]
fn a_break_that_is_lowered_and_raised_has_zeros(rt: HostRuntime) -> Result<(), Fail> {
    let mut host = host(rt.alloc())?;
    // a byte of the break's second page, to which 7 is written after each
    let table = [
        (0x2_2000, 0x2_2000, Ok(0)),
        (0x2_2001, 0x2_2001, Ok(7)),
        (0x2_1000, 0x2_1000, Err(PageFault::NotMapped(0x2_1000))),
        (0x2_1FFF, 0x2_1FFF, Ok(0)),
    ];
    for (wish, moved, wanted) in table {
        let given = answer(&mut host, CallNo::Brk, [wish, 0, 0, 0, 0, 0])?;
        assert_eq!(rt; given, moved, "{wish}");
        assert_eq!(rt; host.pages.load(0x2_1000, Width::One), wanted, "{wish}");
        let _ = host.pages.store(0x2_1000, Width::One, 7);
    }
    Ok(())
}

/// The arguments of a call of which all is fine but an address.
fn with_address(no: CallNo, at: u64) -> [u64; 6] {
    match no {
        CallNo::Write => [1, at, 2, 0, 0, 0],
        CallNo::ClockGettime => [0, at, 0, 0, 0, 0],
        CallNo::Prlimit64 => [0, 3, 0, at, 0, 0],
        CallNo::Getrandom => [at, 2, 0, 0, 0, 0],
        _ => [at, 0, 0, 0, 0, 0],
    }
}

#[test]
fn addresses_that_are_bad_are_refused(rt: HostRuntime) -> Result<(), Fail> {
    let mut host = host(rt.alloc())?;
    let calls = [
        CallNo::Write,
        CallNo::ClockGettime,
        CallNo::Prlimit64,
        CallNo::Getrandom,
        CallNo::Uname,
    ];
    // in the first page, across the end of a page, of user addresses, and the last byte
    for no in calls {
        for at in [1, 0x1_0FFF, END - 1, ALL_ONES] {
            let given = answer(&mut host, no, with_address(no, at))?;
            assert_eq!(rt; given, -14, "{no:?} {at}");
        }
    }
    Ok(())
}

#[test]
fn time_goes_on_to_its_types_end(rt: HostRuntime) -> Result<(), Fail> {
    let mut host = host(rt.alloc())?;
    host.tick();
    assert_eq!(rt; host.clock, 100);
    host.clock = u64::MAX - 1;
    host.tick();
    assert_eq!(rt; host.clock, u64::MAX);
    Ok(())
}
