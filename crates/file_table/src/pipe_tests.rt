use crate::tests::{close, dup, empty, number, open, reads, refused, set_flags, write};
use crate::{FileFault, Files};
use bitflags::Flags;
use call_table::OpenFlags;
use std::alloc::{AllocError, Global};

/// A pipe of which the reading end is 3 and the writing end is 4, beside three devices.
fn with_pipe(alloc: Global) -> Result<Files, AllocError> {
    let mut files = empty(alloc)?;
    let _ = pipe(alloc, &mut files, 0);
    Ok(files)
}

/// The two descriptors of a pipe as one number, the first one times 256; or the negated errno.
fn pipe(alloc: Global, files: &mut Files, flags: u64) -> i64 {
    match files.pipe(alloc, OpenFlags::from_bits_retain(flags)) {
        Ok((reader, writer)) => i64::from(reader) * 256 + i64::from(writer),
        Err(fault) => refused(fault),
    }
}

/// What a write of so many bytes answers.
fn writes(alloc: Global, files: &mut Files, fd: u64, size: usize) -> Result<i64, AllocError> {
    let bytes = vec![in alloc; 7; size]?;
    Ok(write(files, fd, bytes.as_slice()))
}

/// What a read of so many bytes answers, and the last byte that it gave; 0 where it gave none.
fn read_last(
    alloc: Global,
    files: &mut Files,
    fd: u64,
    size: usize,
) -> Result<(i64, u8), AllocError> {
    let mut bytes = vec![in alloc; 0; size]?;
    match files.read(fd, bytes.as_mut_slice()) {
        Ok(0) => Ok((0, 0)),
        Ok(count) => Ok((number(Ok(count)), bytes[count - 1])),
        Err(fault) => Ok((refused(fault), 0)),
    }
}

fn feed(files: &mut Files, device: usize, bytes: &[u8]) -> Result<(), AllocError> {
    files.feed(device, bytes)
}

#[test]
fn a_write_goes_whole_or_in_part_or_waits_by_its_size_and_the_room(
    rt: HostRuntime,
) -> Result<(), AllocError> {
    let alloc = rt.alloc();
    // the bytes that are there, the flags, the bytes that are written, the answer (waiting is -1000), and the room then
    let table = [
        (61_440, 0, 4_096, 4_096, 0),
        (61_441, 0, 4_096, -1_000, 4_095),
        (61_441, 0x800, 4_096, -11, 4_095),
        (61_440, 0, 4_097, -1_000, 4_096),
        (61_440, 0x800, 4_097, 4_096, 0),
        (61_441, 0x800, 4_097, 4_095, 0),
        (65_536, 0x800, 4_097, -11, 0),
        (65_536, 0, 1, -1_000, 0),
        (65_536, 0, 0, 0, 0),
        (0, 0, 70_000, -1_000, 65_536),
        (0, 0x800, 70_000, 65_536, 0),
        (0, 0, 65_536, 65_536, 0),
    ];
    for (there, flags, size, answer, room) in table {
        let mut files = with_pipe(alloc)?;
        let _ = writes(alloc, &mut files, 4, there)?;
        assert_eq!(rt; files.standing(3), Some(there as u64));
        assert_eq!(rt; set_flags(&mut files, 4, flags), 0);
        assert_eq!(rt; writes(alloc, &mut files, 4, size)?, answer);
        assert_eq!(rt; files.room(4), room);
        assert_eq!(rt; files.room(3), 0);
    }
    Ok(())
}

#[test]
fn bytes_come_in_their_order_also_round_the_end_of_the_ring(
    rt: HostRuntime,
) -> Result<(), AllocError> {
    let alloc = rt.alloc();
    let mut files = with_pipe(alloc)?;
    assert_eq!(rt; writes(alloc, &mut files, 4, 60_000)?, 60_000);
    assert_eq!(rt; read_last(alloc, &mut files, 3, 59_998)?, (59_998, 7));
    for part in 0..4 {
        let bytes = vec![in alloc; part; 4_000]?;
        assert_eq!(rt; write(&mut files, 4, bytes.as_slice()), 4_000);
    }
    assert_eq!(rt; files.standing(3), Some(16_002));
    assert_eq!(rt; read_last(alloc, &mut files, 3, 2)?, (2, 7));
    for part in 0..4 {
        assert_eq!(rt; read_last(alloc, &mut files, 3, 4_000)?, (4_000, part));
    }
    assert_eq!(rt; read_last(alloc, &mut files, 3, 1)?, (-1_000, 0));
    Ok(())
}

#[test]
fn a_pipe_without_writers_ends_and_one_without_readers_is_broken(
    rt: HostRuntime,
) -> Result<(), AllocError> {
    let alloc = rt.alloc();
    let mut files = with_pipe(alloc)?;
    assert_eq!(rt; dup(&mut files, 4, 0), 5);
    assert_eq!(rt; write(&mut files, 4, b"ab"), 2);
    assert_eq!(rt; close(&mut files, 4), 0);
    assert_eq!(rt; write(&mut files, 5, b"c"), 1);
    assert!(rt; reads(&mut files, 3, 8, 3, b"abc\0\0\0\0\0"));
    assert!(rt; reads(&mut files, 3, 8, -1_000, b"\0\0\0\0\0\0\0\0"));
    assert!(rt; reads(&mut files, 3, 0, 0, b"\0\0\0\0\0\0\0\0"));
    assert_eq!(rt; close(&mut files, 5), 0);
    assert!(rt; reads(&mut files, 3, 8, 0, b"\0\0\0\0\0\0\0\0"));
    assert_eq!(rt; pipe(alloc, &mut files, 0), 4 * 256 + 5);
    assert_eq!(rt; close(&mut files, 4), 0);
    assert_eq!(rt; write(&mut files, 5, b"x"), -32);
    assert_eq!(rt; write(&mut files, 5, b""), 0);
    assert_eq!(rt; write(&mut files, 3, b"x"), -9);
    assert!(rt; reads(&mut files, 5, 8, -9, b"\0\0\0\0\0\0\0\0"));
    Ok(())
}

#[test]
fn a_pipe_has_two_descriptors_or_none(rt: HostRuntime) -> Result<(), AllocError> {
    let alloc = rt.alloc();
    let mut files = empty(alloc)?;
    assert_eq!(rt; pipe(alloc, &mut files, 0x400), -22);
    assert_eq!(rt; pipe(alloc, &mut files, 0x80800), 3 * 256 + 4);
    assert!(rt; reads(&mut files, 3, 8, -11, b"\0\0\0\0\0\0\0\0"));
    for fd in 5..255 {
        assert_eq!(rt; dup(&mut files, 0, 0), fd);
    }
    assert_eq!(rt; pipe(alloc, &mut files, 0), -24);
    assert_eq!(rt; close(&mut files, 7), 0);
    assert_eq!(rt; pipe(alloc, &mut files, 0), 7 * 256 + 255);
    assert_eq!(rt; pipe(alloc, &mut files, 0), -24);
    Ok(())
}

#[test]
fn what_a_descriptor_is_ready_for(rt: HostRuntime) -> Result<(), AllocError> {
    let alloc = rt.alloc();
    let mut files = with_pipe(alloc)?;
    assert_eq!(rt; open(alloc, &mut files, b"f", 0x41), 5);
    assert_eq!(rt; open(alloc, &mut files, b"/", 0), 6);
    assert_eq!(rt; pipe(alloc, &mut files, 0), 7 * 256 + 8);
    assert_eq!(rt; pipe(alloc, &mut files, 0), 9 * 256 + 10);
    assert_eq!(rt; writes(alloc, &mut files, 8, 65_536)?, 65_536);
    assert_eq!(rt; write(&mut files, 10, b"x"), 1);
    assert_eq!(rt; close(&mut files, 9), 0);
    feed(&mut files, 1, b"x")?;
    feed(&mut files, 2, b"")?;
    assert!(rt; files.ended(2) && !files.ended(1) && !files.ended(9));
    // a device, one with bytes, one that has ended; the ends of an empty pipe, a file, a directory; the ends of a full
    // pipe; the writing end without a reader; and one that isn't open
    let table = [
        (0, 4),
        (1, 5),
        (2, 5),
        (3, 0),
        (4, 4),
        (5, 5),
        (6, 5),
        (7, 1),
        (8, 0),
        (10, 12),
        (11, 32),
    ];
    for (fd, bits) in table {
        assert_eq!(rt; files.readiness(fd), bits, "at {fd}");
    }
    assert_eq!(rt; close(&mut files, 8), 0);
    assert_eq!(rt; files.readiness(7), 17);
    assert_eq!(rt; close(&mut files, 4), 0);
    assert_eq!(rt; files.readiness(3), 16);
    Ok(())
}

#[test]
fn a_device_gives_what_came_in_up_to_its_end(rt: HostRuntime) -> Result<(), AllocError> {
    let mut files = empty(rt.alloc())?;
    assert!(rt; reads(&mut files, 0, 8, -1_000, b"\0\0\0\0\0\0\0\0"));
    feed(&mut files, 0, b"abc")?;
    feed(&mut files, 0, b"de")?;
    assert!(rt; reads(&mut files, 0, 3, 3, b"abc\0\0\0\0\0"));
    assert!(rt; reads(&mut files, 0, 8, 2, b"de\0\0\0\0\0\0"));
    assert!(rt; reads(&mut files, 0, 8, -1_000, b"\0\0\0\0\0\0\0\0"));
    feed(&mut files, 0, b"")?;
    feed(&mut files, 0, b"f")?;
    assert!(rt; reads(&mut files, 0, 8, 0, b"\0\0\0\0\0\0\0\0"));
    feed(&mut files, 3, b"f")?;
    assert_eq!(rt; files.standing(1), Some(0));
    assert_eq!(rt; files.standing(3), None);
    Ok(())
}

#[test]
fn the_ends_of_a_pipe_have_its_number(rt: HostRuntime) -> Result<(), AllocError> {
    let alloc = rt.alloc();
    let mut files = with_pipe(alloc)?;
    assert_eq!(rt; pipe(alloc, &mut files, 0), 5 * 256 + 6);
    assert_eq!(rt; pipe_of(&files, 3), Some(0));
    assert_eq!(rt; pipe_of(&files, 4), Some(0));
    assert_eq!(rt; pipe_of(&files, 6), Some(1));
    assert_eq!(rt; pipe_of(&files, 0), None);
    assert_eq!(rt; close(&mut files, 3), 0);
    assert_eq!(rt; pipe_of(&files, 4), Some(0));
    assert_eq!(rt; close(&mut files, 4), 0);
    assert_eq!(rt; pipe(alloc, &mut files, 0), 3 * 256 + 4);
    assert_eq!(rt; pipe_of(&files, 4), Some(0));
    Ok(())
}

/// The number of the pipe that a descriptor is open for.
fn pipe_of(files: &Files, fd: u64) -> Option<usize> {
    files.what(fd)?.pipe
}
