use super::*;
use call_table::{Call, CallNo};
use file_table::Files;
use file_tree::Tree;
use futex_table::FutexTable;
use guest_pages::{CHANGEABLE, Pages, READABLE, Width};
use host_calls::{Break, Host, Pending};
use std::alloc::{AllocError, Global};
use std::test::Fail;
use word_memory::Reservations;

const THREAD: u32 = 1000;

const OTHER: u32 = 1001;

/// What stands for a call that waits, among answers.
const WAITS: i64 = -1000;

/// What stands for nothing.
const NOTHING: i64 = -2000;

/// The root, in the place of a descriptor: -100.
const ROOT: u64 = 0xFFFF_FFFF_FFFF_FF9C;

/// Where bytes are written from, 32 pages.
const BYTES: u64 = 0x1_0000;

/// Where times, words, entries, pieces and names stand, one page.
const DATA: u64 = 0x4_0000;

/// A page that can't be written, and one that isn't there.
const FIXED: u64 = 0x5_0000;

const BAD: u64 = 0x6_0000;

const ONE_SECOND: u64 = DATA;

const NO_TIME: u64 = DATA + 0x10;

const LONG_TIME: u64 = DATA + 0x20;

const WRONG_TIME: u64 = DATA + 0x30;

const NEGATIVE_TIME: u64 = DATA + 0x40;

/// The last page of whose bytes a time would be cut.
const CUT_TIME: u64 = DATA + 0xFF8;

const WORD: u64 = DATA + 0x100;

const OTHER_WORD: u64 = DATA + 0x104;

const PIECES: u64 = DATA + 0x200;

const NAME: u64 = DATA + 0x280;

const ENDS: u64 = DATA + 0x300;

const ROOM: u64 = DATA + 0x400;

const ENTRIES: u64 = DATA + 0x600;

/// What stands there before the calls: times, a word of 7, two pieces, of two bytes and of one, and a name.
const PLACED: [(u64, u64); 16] = [
    (BYTES, 0x6968),
    (ONE_SECOND, 1),
    (ONE_SECOND + 8, 0),
    (NO_TIME, 0),
    (NO_TIME + 8, 0),
    (LONG_TIME, 0x7FFF_FFFF_FFFF_FFFF),
    (LONG_TIME + 8, 999_999_999),
    (WRONG_TIME, 0),
    (WRONG_TIME + 8, 1_000_000_000),
    (NEGATIVE_TIME, 0xFFFF_FFFF_FFFF_FFFF),
    (WORD, 7),
    (PIECES, BYTES),
    (PIECES + 8, 2),
    (PIECES + 16, BYTES + 1),
    (PIECES + 24, 1),
    (NAME, 0x61),
];

/// An empty tree, and two devices as descriptors 0 and 1.
fn files(alloc: Global) -> Result<Files, AllocError> {
    let tree = Tree::new(alloc)?;
    Files::new(alloc, tree, 2, None)
}

/// A system with two devices, whose clock stands at 1,000 ns.
fn host(alloc: Global) -> Result<Host, Fail> {
    let mut pages = Pages::new();
    if pages.map(alloc, BYTES, 32, CHANGEABLE).is_err()
        || pages.map(alloc, DATA, 1, CHANGEABLE).is_err()
        || pages.map(alloc, FIXED, 1, READABLE).is_err()
    {
        return Err("pages are mapped")?;
    }
    for (at, number) in PLACED {
        let _ = pages.store(at, Width::Eight, number);
    }
    Ok(Host {
        pages,
        held: Reservations::new(alloc),
        files: files(alloc)?,
        futexes: FutexTable::new(alloc),
        pending: Pending::new(alloc)?,
        program_break: Break::behind(0x8_0000),
        drawn: 16,
        clock: 1000,
    })
}

/// What is done, and told as a number.
#[derive(Clone, Copy)]
enum Step {
    /// A call of the thread: its answer. One that would wait is left out of those that do.
    Call(CallNo, [u64; 6]),
    /// A call of another thread, which may wait.
    Other(CallNo, [u64; 6]),
    /// A call of the thread whose wait is kept: `WAITS`.
    Wait(CallNo, [u64; 6]),
    /// The answer of the call that is kept, if its wait is over.
    Finish,
    /// How many bytes have moved once a part of the write that is kept went, `NOTHING` where none does.
    Shift,
    /// The deadline of the wait that is kept.
    Deadline,
    /// Bytes that come in at the first device: `abc`, or none.
    Feed(bool),
    /// The time.
    Clock(u64),
    /// So many pages that go.
    Unmap(u64, u64),
    /// Four bytes that are stored, and two that are read.
    Store(u64, u64),
    Load(u64),
}

/// What comes of a call of a thread at once.
fn enter(host: &mut Host, thread: u32, no: CallNo, args: [u64; 6]) -> Result<Begun, Fail> {
    let call = Call { no, args };
    Ok(begin(host, thread, &call)?)
}

fn call(host: &mut Host, no: CallNo, args: [u64; 6]) -> Result<i64, Fail> {
    match enter(host, THREAD, no, args)? {
        Begun::Answer(answer) => Ok(answer),
        Begun::Waits(_) => {
            host.futexes.leave(THREAD);
            Ok(WAITS)
        }
    }
}

fn other(host: &mut Host, no: CallNo, args: [u64; 6]) -> Result<i64, Fail> {
    match enter(host, OTHER, no, args)? {
        Begun::Answer(answer) => Ok(answer),
        Begun::Waits(_) => Ok(WAITS),
    }
}

fn wait(
    host: &mut Host,
    kept: &mut Option<WaitState>,
    no: CallNo,
    args: [u64; 6],
) -> Result<i64, Fail> {
    match enter(host, THREAD, no, args)? {
        Begun::Answer(answer) => Ok(answer),
        Begun::Waits(wait) => {
            *kept = Some(wait);
            Ok(WAITS)
        }
    }
}

fn finish_kept(host: &mut Host, kept: &Option<WaitState>) -> Result<i64, Fail> {
    match kept {
        Some(wait) => {
            if !ready(host, THREAD, wait) {
                return Ok(WAITS);
            }
            Ok(finish(host, THREAD, wait)?)
        }
        None => Ok(NOTHING),
    }
}

fn shift_kept(host: &mut Host, kept: &mut Option<WaitState>) -> Result<i64, Fail> {
    match kept {
        Some(wait) => {
            if !shift(host, THREAD, wait)? {
                return Ok(NOTHING);
            }
            Ok(told(wait.moved()))
        }
        None => Ok(NOTHING),
    }
}

fn deadline(kept: &Option<WaitState>) -> i64 {
    match kept {
        Some(wait) => told(wait.deadline().unwrap_or(0)),
        None => NOTHING,
    }
}

/// A number that is told, below 2^63.
fn told(number: u64) -> i64 {
    i64::try_from(number).unwrap_or(NOTHING)
}

fn feed(host: &mut Host, more: bool) -> Result<i64, Fail> {
    if more {
        host.files.feed(0, b"abc")?;
    } else {
        host.files.feed(0, b"")?;
    }
    Ok(0)
}

fn unmap(host: &mut Host, at: u64, count: u64) -> i64 {
    if at % 4096 == 0 && at < 0x10_0000 && count < 64 {
        host.pages.unmap(at, count);
    }
    0
}

/// Makes a step, and gives its number.
fn take(host: &mut Host, kept: &mut Option<WaitState>, step: Step) -> Result<i64, Fail> {
    match step {
        Step::Call(no, args) => call(host, no, args),
        Step::Other(no, args) => other(host, no, args),
        Step::Wait(no, args) => wait(host, kept, no, args),
        Step::Finish => finish_kept(host, kept),
        Step::Shift => shift_kept(host, kept),
        Step::Deadline => Ok(deadline(kept)),
        Step::Feed(more) => feed(host, more),
        Step::Clock(at) => {
            host.clock = at;
            Ok(0)
        }
        Step::Unmap(at, count) => Ok(unmap(host, at, count)),
        Step::Store(at, number) => {
            let _ = host.pages.store(at, Width::Four, number);
            Ok(0)
        }
        Step::Load(at) => Ok(told(host.pages.load(at, Width::Two).unwrap_or(99_999))),
    }
}

#[test]
fn reads_and_writes_answer_at_once_where_they_can(rt: HostRuntime) -> Result<(), Fail> {
    let mut host = host(rt.alloc())?;
    let table = [
        (CallNo::Openat, [ROOT, NAME, 0x42, 0, 0, 0], 2),
        (CallNo::Writev, [2, PIECES, 2, 0, 0, 0], 3),
        (CallNo::Writev, [2, PIECES, 0, 0, 0, 0], 0),
        (CallNo::Writev, [9, BAD, 1025, 0, 0, 0], -22),
        (CallNo::Writev, [9, BAD, 1, 0, 0, 0], -9),
        (CallNo::Writev, [2, BAD, 1, 0, 0, 0], -14),
        (CallNo::Readv, [2, PIECES, 1025, 0, 0, 0], -22),
        (CallNo::Readv, [2, PIECES, 2, 0, 0, 0], 0),
        (CallNo::Lseek, [2, 1, 0, 0, 0, 0], 1),
        (CallNo::Readv, [2, PIECES, 2, 0, 0, 0], 2),
        (CallNo::Write, [2, FIXED, 4097, 0, 0, 0], -14),
        (CallNo::Read, [2, FIXED, 1, 0, 0, 0], -14),
        // a device without bytes, and then one that never waits; a bad address isn't waited for
        (CallNo::Read, [0, ROOM, 1, 0, 0, 0], WAITS),
        (CallNo::Read, [0, ROOM, 0, 0, 0, 0], 0),
        (CallNo::Read, [0, BAD, 1, 0, 0, 0], -14),
        (CallNo::Readv, [0, PIECES, 2, 0, 0, 0], WAITS),
        (CallNo::Fcntl, [0, 4, 0x800, 0, 0, 0], 0),
        (CallNo::Read, [0, ROOM, 1, 0, 0, 0], -11),
        // the reading end of a pipe is 3, the writing one 4
        (CallNo::Pipe2, [ENDS, 0, 0, 0, 0, 0], 0),
        (CallNo::Read, [3, ROOM, 4, 0, 0, 0], WAITS),
        (CallNo::Writev, [4, PIECES, 2, 0, 0, 0], 3),
        (CallNo::Readv, [3, PIECES, 2, 0, 0, 0], 3),
        (CallNo::Write, [4, BYTES, 65536, 0, 0, 0], 65536),
        (CallNo::Write, [4, BYTES, 1, 0, 0, 0], WAITS),
        (CallNo::Write, [4, BYTES, 0, 0, 0, 0], 0),
        (CallNo::Write, [4, BAD, 1, 0, 0, 0], -14),
        (CallNo::Write, [3, BYTES, 1, 0, 0, 0], -9),
        (CallNo::Close, [3, 0, 0, 0, 0, 0], 0),
        (CallNo::Write, [4, BYTES, 1, 0, 0, 0], -32),
        // calls that never wait are made as well
        (CallNo::Getpid, [0; 6], 1000),
    ];
    for (no, args, wanted) in table {
        assert_eq!(rt; call(&mut host, no, args)?, wanted, "{no:?} {args:?}");
    }
    Ok(())
}

#[test]
fn a_read_waits_for_bytes_or_the_end(rt: HostRuntime) -> Result<(), Fail> {
    let mut host = host(rt.alloc())?;
    let mut kept = None;
    let table = [
        (Step::Wait(CallNo::Read, [0, ROOM, 9, 0, 0, 0]), WAITS),
        (Step::Finish, WAITS),
        (Step::Feed(true), 0),
        (Step::Finish, 3),
        (Step::Load(ROOM), 0x6261),
        (Step::Finish, WAITS),
        (Step::Feed(false), 0),
        (Step::Finish, 0),
        // a pipe, by pieces, whose writing end goes
        (Step::Call(CallNo::Pipe2, [ENDS, 0, 0, 0, 0, 0]), 0),
        (Step::Wait(CallNo::Readv, [2, PIECES, 2, 0, 0, 0]), WAITS),
        (Step::Call(CallNo::Write, [3, BYTES, 2, 0, 0, 0]), 2),
        (Step::Finish, 2),
        (Step::Finish, WAITS),
        (Step::Call(CallNo::Close, [3, 0, 0, 0, 0, 0]), 0),
        (Step::Finish, 0),
        // its own descriptor goes
        (Step::Call(CallNo::Close, [2, 0, 0, 0, 0, 0]), 0),
        (Step::Finish, -9),
    ];
    for (step, wanted) in table {
        assert_eq!(rt; take(&mut host, &mut kept, step)?, wanted);
    }
    Ok(())
}

#[test]
fn a_long_write_goes_in_parts(rt: HostRuntime) -> Result<(), Fail> {
    let mut host = host(rt.alloc())?;
    let mut kept = None;
    let table = [
        (Step::Call(CallNo::Pipe2, [ENDS, 0, 0, 0, 0, 0]), 0),
        (Step::Wait(CallNo::Write, [3, BYTES, 70000, 0, 0, 0]), WAITS),
        (Step::Finish, WAITS),
        (Step::Shift, 65536),
        (Step::Shift, NOTHING),
        (Step::Finish, WAITS),
        // 4,464 bytes are left: 4,000 fit, and then all
        (Step::Call(CallNo::Read, [2, BYTES, 4000, 0, 0, 0]), 4000),
        (Step::Shift, 69536),
        (Step::Call(CallNo::Read, [2, BYTES, 464, 0, 0, 0]), 464),
        (Step::Shift, NOTHING),
        (Step::Finish, 70000),
        (Step::Call(CallNo::Write, [3, BYTES, 1, 0, 0, 0]), WAITS),
    ];
    for (step, wanted) in table {
        assert_eq!(rt; take(&mut host, &mut kept, step)?, wanted);
    }
    Ok(())
}

#[test]
fn a_write_that_is_refused_answers_what_went(rt: HostRuntime) -> Result<(), Fail> {
    let mut host = host(rt.alloc())?;
    let mut kept = None;
    let table = [
        (Step::Call(CallNo::Pipe2, [ENDS, 0, 0, 0, 0, 0]), 0),
        (Step::Call(CallNo::Write, [3, BYTES, 65536, 0, 0, 0]), 65536),
        // one of up to 4,096 bytes goes whole or waits; its memory goes, where some would fit
        (Step::Wait(CallNo::Write, [3, BYTES, 4096, 0, 0, 0]), WAITS),
        (Step::Call(CallNo::Read, [2, BYTES, 4095, 0, 0, 0]), 4095),
        (Step::Shift, NOTHING),
        (Step::Finish, WAITS),
        (Step::Unmap(BYTES, 1), 0),
        (Step::Finish, -14),
        // of a longer one some bytes go before
        (
            Step::Wait(CallNo::Write, [3, BYTES + 0x1000, 70000, 0, 0, 0]),
            WAITS,
        ),
        (Step::Shift, 4095),
        (Step::Call(CallNo::Read, [2, BYTES + 0x1000, 1, 0, 0, 0]), 1),
        (Step::Unmap(BYTES + 0x1000, 31), 0),
        (Step::Finish, 4095),
        // its reader goes, and then its descriptor
        (Step::Call(CallNo::Close, [2, 0, 0, 0, 0, 0]), 0),
        (Step::Finish, 4095),
        (Step::Call(CallNo::Close, [3, 0, 0, 0, 0, 0]), 0),
        (Step::Finish, 4095),
    ];
    for (step, wanted) in table {
        assert_eq!(rt; take(&mut host, &mut kept, step)?, wanted);
    }
    Ok(())
}

#[test]
fn sleeps_end_at_their_deadlines(rt: HostRuntime) -> Result<(), Fail> {
    let mut host = host(rt.alloc())?;
    let mut kept = None;
    let table = [
        (
            Step::Wait(CallNo::Nanosleep, [ONE_SECOND, 0, 0, 0, 0, 0]),
            WAITS,
        ),
        (Step::Clock(1_000_000_999), 0),
        (Step::Finish, WAITS),
        (Step::Clock(1_000_001_000), 0),
        (Step::Finish, 0),
        (Step::Clock(1000), 0),
        (
            Step::Wait(CallNo::Nanosleep, [LONG_TIME, 0, 0, 0, 0, 0]),
            WAITS,
        ),
        (Step::Deadline, 0x7FFF_FFFF_FFFF_FFFF),
        (
            Step::Wait(CallNo::ClockNanosleep, [1, 0, ONE_SECOND, 0, 0, 0]),
            WAITS,
        ),
        (Step::Deadline, 1_000_001_000),
        (
            Step::Wait(CallNo::ClockNanosleep, [0, 1, ONE_SECOND, 0, 0, 0]),
            WAITS,
        ),
        (Step::Deadline, 1_000_000_000),
        (
            Step::Wait(CallNo::ClockNanosleep, [0, 2, ONE_SECOND, 0, 0, 0]),
            WAITS,
        ),
        (Step::Deadline, 1_000_001_000),
        (Step::Call(CallNo::Nanosleep, [NO_TIME, 0, 0, 0, 0, 0]), 0),
        (
            Step::Call(CallNo::ClockNanosleep, [0, 1, NO_TIME, 0, 0, 0]),
            0,
        ),
        (
            Step::Call(CallNo::Nanosleep, [WRONG_TIME, 0, 0, 0, 0, 0]),
            -22,
        ),
        (
            Step::Call(CallNo::Nanosleep, [NEGATIVE_TIME, 0, 0, 0, 0, 0]),
            -22,
        ),
        (
            Step::Call(CallNo::Nanosleep, [CUT_TIME, 0, 0, 0, 0, 0]),
            -14,
        ),
        (
            Step::Call(CallNo::ClockNanosleep, [2, 0, BAD, 0, 0, 0]),
            -22,
        ),
        (
            Step::Call(CallNo::ClockNanosleep, [1, 0, BAD, 0, 0, 0]),
            -14,
        ),
    ];
    for (step, wanted) in table {
        assert_eq!(rt; take(&mut host, &mut kept, step)?, wanted);
    }
    Ok(())
}

#[test]
fn a_call_at_a_word_is_refused_as_the_manual_says(rt: HostRuntime) -> Result<(), Fail> {
    let mut host = host(rt.alloc())?;
    let table = [
        ([WORD, 0, 8, 0, 0, 0], -11),
        ([WORD, 128, 8, BAD, 0, 0], -14),
        ([WORD, 128, 8, WRONG_TIME, 0, 0], -22),
        ([WORD, 128, 7, NO_TIME, 0, 0], -110),
        ([WORD, 9, 7, NO_TIME, 0, 1], -110),
        ([WORD, 9, 7, 0, 0, 0], -22),
        ([WORD + 1, 0, 7, BAD, 0, 0], -22),
        ([BAD, 0, 7, 0, 0, 0], -14),
        ([WORD, 256, 7, 0, 0, 0], -38),
        ([WORD, 2, 7, 0, 0, 0], -38),
        // a count that is negative, an address that is no multiple of 4, and one that isn't looked at
        ([WORD, 1, 0xFFFF_FFFF, 0, 0, 0], -22),
        ([WORD + 2, 1, 1, 0, 0, 0], -22),
        ([WORD, 10, 1, 0, 0, 0], -22),
        ([BAD, 1, 1, 0, 0, 0], 0),
        ([WORD, 3, 1, 1, OTHER_WORD + 1, 0], -22),
        ([WORD, 3, 1, 0x8000_0000, OTHER_WORD, 0], -22),
        ([WORD, 4, 1, 1, OTHER_WORD, 8], -11),
        ([BAD, 4, 1, 1, OTHER_WORD, 8], -14),
        ([WORD, 4, 1, 1, OTHER_WORD, 7], 0),
        // whole 64 bits of which the low 32 are the value
        ([WORD, 0, 0xFFFF_FFFF_0000_0007, 0, 0, 0], WAITS),
    ];
    for (args, wanted) in table {
        assert_eq!(rt; call(&mut host, CallNo::Futex, args)?, wanted, "{args:?}");
    }
    Ok(())
}

#[test]
fn a_thread_waits_at_a_word(rt: HostRuntime) -> Result<(), Fail> {
    let mut host = host(rt.alloc())?;
    let mut kept = None;
    let table = [
        (
            Step::Wait(CallNo::Futex, [WORD, 0, 7, ONE_SECOND, 0, 0]),
            WAITS,
        ),
        (Step::Deadline, 1_000_001_000),
        (Step::Finish, WAITS),
        (Step::Clock(1_000_001_000), 0),
        (Step::Finish, -110),
        (Step::Clock(1000), 0),
        // by bits, up to a time of the clock: a wake whose bits don't meet, and one at the deadline itself
        (
            Step::Wait(CallNo::Futex, [WORD, 393, 7, ONE_SECOND, 0, 2]),
            WAITS,
        ),
        (Step::Deadline, 1_000_000_000),
        (Step::Other(CallNo::Futex, [WORD, 10, 1, 0, 0, 1]), 0),
        (Step::Finish, WAITS),
        (Step::Clock(1_000_000_000), 0),
        (Step::Other(CallNo::Futex, [WORD, 10, 1, 0, 0, 3]), 1),
        (Step::Finish, 0),
    ];
    for (step, wanted) in table {
        assert_eq!(rt; take(&mut host, &mut kept, step)?, wanted);
    }
    Ok(())
}

#[test]
fn a_requeue_tells_both_numbers_together(rt: HostRuntime) -> Result<(), Fail> {
    let mut host = host(rt.alloc())?;
    let mut kept = None;
    let table = [
        (Step::Wait(CallNo::Futex, [WORD, 0, 7, 0, 0, 0]), WAITS),
        (Step::Other(CallNo::Futex, [WORD, 0, 7, 0, 0, 0]), WAITS),
        (Step::Call(CallNo::Futex, [WORD, 3, 1, 1, OTHER_WORD, 0]), 2),
        (Step::Finish, 0),
        (Step::Call(CallNo::Futex, [WORD, 1, 5, 0, 0, 0]), 0),
        (Step::Call(CallNo::Futex, [OTHER_WORD, 1, 5, 0, 0, 0]), 1),
    ];
    for (step, wanted) in table {
        assert_eq!(rt; take(&mut host, &mut kept, step)?, wanted);
    }
    Ok(())
}

#[test]
fn each_bit_of_a_descriptor_is_told(rt: HostRuntime) -> Result<(), Fail> {
    let mut host = host(rt.alloc())?;
    let mut kept = None;
    // a device, an empty pipe's ends, a file, a negative descriptor, one that isn't open, a file that isn't asked about
    let entries = [
        (0, 5),
        (2, 5),
        (3, 5),
        (4, 5),
        (0xFFFF_FFFF, 5),
        (77, 0),
        (4, 0),
        (4, 4),
    ];
    let mut at = ENTRIES;
    for (fd, asked) in entries {
        let _ = host.pages.store(at, Width::Four, fd);
        let _ = host.pages.store(at.wrapping_add(4), Width::Two, asked);
        at = at.wrapping_add(8);
    }
    let table = [
        (Step::Call(CallNo::Pipe2, [ENDS, 0, 0, 0, 0, 0]), 0),
        (Step::Call(CallNo::Openat, [ROOT, NAME, 0x42, 0, 0, 0]), 4),
        (Step::Call(CallNo::Ppoll, [ENTRIES, 8, 0, 0, 0, 0]), 5),
        (Step::Load(ENTRIES + 6), 4),
        (Step::Load(ENTRIES + 14), 0),
        (Step::Load(ENTRIES + 22), 4),
        (Step::Load(ENTRIES + 30), 5),
        (Step::Load(ENTRIES + 38), 0),
        (Step::Load(ENTRIES + 46), 32),
        (Step::Load(ENTRIES + 54), 0),
        (Step::Load(ENTRIES + 62), 4),
        // a full pipe, then one without its reader
        (Step::Call(CallNo::Write, [3, BYTES, 65536, 0, 0, 0]), 65536),
        (Step::Call(CallNo::Ppoll, [ENTRIES, 3, 0, 0, 0, 0]), 2),
        (Step::Load(ENTRIES + 14), 1),
        (Step::Load(ENTRIES + 22), 0),
        (Step::Call(CallNo::Close, [2, 0, 0, 0, 0, 0]), 0),
        (Step::Call(CallNo::Ppoll, [ENTRIES, 3, 0, 0, 0, 0]), 3),
        (Step::Load(ENTRIES + 14), 32),
        (Step::Load(ENTRIES + 22), 8),
    ];
    for (step, wanted) in table {
        assert_eq!(rt; take(&mut host, &mut kept, step)?, wanted);
    }
    Ok(())
}

#[test]
fn polling_waits_for_a_bit_or_a_deadline(rt: HostRuntime) -> Result<(), Fail> {
    let mut host = host(rt.alloc())?;
    let mut kept = None;
    let table = [
        (Step::Call(CallNo::Ppoll, [0, 0, NO_TIME, 0, 0, 0]), 0),
        (Step::Call(CallNo::Ppoll, [0, 0, 0, 0, 0, 0]), WAITS),
        // a descriptor that isn't open, and 255 times the first device, which isn't asked about
        (Step::Call(CallNo::Ppoll, [BYTES, 256, NO_TIME, 0, 0, 0]), 1),
        (
            Step::Call(CallNo::Ppoll, [BYTES, 257, NO_TIME, 0, 0, 0]),
            -22,
        ),
        (Step::Call(CallNo::Ppoll, [FIXED, 1, NO_TIME, 0, 0, 0]), -14),
        (Step::Call(CallNo::Ppoll, [BAD, 1, NO_TIME, 0, 0, 0]), -14),
        (Step::Call(CallNo::Ppoll, [0, 0, BAD, 0, 0, 0]), -14),
        (Step::Call(CallNo::Ppoll, [0, 0, WRONG_TIME, 0, 0, 0]), -22),
        (Step::Call(CallNo::Ppoll, [0, 0, 0, WORD, 8, 0]), -38),
        (Step::Store(ENTRIES, 0), 0),
        (Step::Store(ENTRIES + 4, 1), 0),
        (
            Step::Wait(CallNo::Ppoll, [ENTRIES, 1, ONE_SECOND, 0, 0, 0]),
            WAITS,
        ),
        (Step::Finish, WAITS),
        (Step::Clock(1_000_001_000), 0),
        (Step::Finish, 0),
        (Step::Clock(1000), 0),
        // the entries are those that stood there as the call was entered
        (Step::Store(ENTRIES, 77), 0),
        (Step::Feed(true), 0),
        (Step::Finish, 1),
        (Step::Load(ENTRIES + 6), 1),
        (Step::Unmap(DATA, 1), 0),
        (Step::Finish, -14),
    ];
    for (step, wanted) in table {
        assert_eq!(rt; take(&mut host, &mut kept, step)?, wanted);
    }
    Ok(())
}
