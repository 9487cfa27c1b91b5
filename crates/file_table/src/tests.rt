use super::*;
use bitflags::Flags;
use call_table::OpenFlags;
use file_tree::Tree;
use std::alloc::{AllocError, Global};

/// The negated errno; waiting and want of memory are numbers that no errno has.
pub(crate) fn refused(fault: FileFault) -> i64 {
    match fault {
        FileFault::Errno(errno) => -errno.code(),
        FileFault::Block => -1000,
        FileFault::Memory => -2000,
    }
}

/// An answer as a number.
pub(crate) fn number(answer: Result<usize, FileFault>) -> i64 {
    match answer {
        Ok(count) if count < 1 << 32 => count as i64,
        Ok(_) => i64::MAX,
        Err(fault) => refused(fault),
    }
}

/// The same of a call that answers a descriptor.
fn descriptor(answer: Result<u32, FileFault>) -> i64 {
    match answer {
        Ok(fd) => fd as i64,
        Err(fault) => refused(fault),
    }
}

/// The same of a call that answers nothing but that it was done, which is 0.
fn done(answer: Result<(), FileFault>) -> i64 {
    match answer {
        Ok(()) => 0,
        Err(fault) => refused(fault),
    }
}

/// A table over the root alone, with three devices.
pub(crate) fn empty(alloc: Global) -> Result<Files, AllocError> {
    let tree = Tree::new(alloc)?;
    Files::new(alloc, tree, 3, None)
}

pub(crate) fn open(alloc: Global, files: &mut Files, path: &[u8], flags: u64) -> i64 {
    descriptor(files.open_at(alloc, -100, path, OpenFlags::from_bits_retain(flags)))
}

fn dup_to(files: &mut Files, fd: u64, to: u64) -> i64 {
    match files.dup_to(fd, to, false) {
        Ok(fd) => descriptor(Ok(fd)),
        Err(errno) => refused(FileFault::Errno(errno)),
    }
}

pub(crate) fn dup(files: &mut Files, fd: u64, least: u64) -> i64 {
    match files.dup(fd, least, false) {
        Ok(fd) => descriptor(Ok(fd)),
        Err(errno) => refused(FileFault::Errno(errno)),
    }
}

/// Closes a descriptor, and tells the device that went with it, or 0.
pub(crate) fn close(files: &mut Files, fd: u64) -> i64 {
    match files.close(fd) {
        Ok(closed) => match closed.device {
            Some(device) => number(Ok(device)),
            None => 0,
        },
        Err(errno) => refused(FileFault::Errno(errno)),
    }
}

pub(crate) fn write(files: &mut Files, fd: u64, bytes: &[u8]) -> i64 {
    number(files.write(fd, bytes))
}

fn write_at(files: &mut Files, fd: u64, offset: u64, bytes: &[u8]) -> i64 {
    number(files.write_at(fd, offset, bytes))
}

fn truncate(files: &mut Files, fd: u64, size: u64) -> i64 {
    done(files.truncate(fd, size))
}

/// Whether a read of at most eight bytes answers a number, and the buffer begins with bytes and has zeros behind them.
pub(crate) fn reads(files: &mut Files, fd: u64, size: usize, answer: i64, bytes: &[u8; 8]) -> bool {
    let mut buffer = [0; 8];
    if size > 8 {
        return false;
    }
    let got = number(files.read(fd, &mut buffer[..size]));
    got == answer && buffer == *bytes
}

/// The same at an offset that is given, of nine bytes.
fn reads_at(files: &Files, fd: u64, offset: u64, answer: i64, bytes: &[u8; 9]) -> bool {
    let mut buffer = [0; 9];
    let got = match files.read_at(fd, offset, &mut buffer) {
        Ok(count) => number(Ok(count)),
        Err(errno) => refused(FileFault::Errno(errno)),
    };
    got == answer && buffer == *bytes
}

fn seek(files: &mut Files, fd: u64, offset: i64, whence: u64) -> i64 {
    match files.seek(fd, offset, whence) {
        Ok(to) => {
            if to < 1 << 32 {
                return to as i64;
            }
            i64::MAX
        }
        Err(errno) => refused(FileFault::Errno(errno)),
    }
}

/// Whether a listing answers a number, and the buffer, which had nines, has these bytes.
fn lists(alloc: Global, files: &mut Files, fd: u64, answer: i64, bytes: &[u8; 80]) -> bool {
    let mut buffer = [9; 80];
    number(files.list(alloc, fd, &mut buffer)) == answer && buffer == *bytes
}

/// What a listing answers with a buffer of so many bytes, at most 256.
fn listed(alloc: Global, files: &mut Files, fd: u64, size: usize) -> i64 {
    let mut buffer = [0; 256];
    if size > 256 {
        return i64::MAX;
    }
    number(files.list(alloc, fd, &mut buffer[..size]))
}

fn make_dir(alloc: Global, files: &mut Files, path: &[u8]) -> i64 {
    done(files.make_dir(alloc, -100, path))
}

fn unlink(files: &mut Files, path: &[u8], directory: bool) -> i64 {
    match files.unlink(-100, path, directory) {
        Ok(()) => 0,
        Err(errno) => refused(FileFault::Errno(errno)),
    }
}

/// A table whose tree has a file with this name and these bytes.
fn with_file(alloc: Global, name: &[u8], bytes: &[u8]) -> Result<Files, AllocError> {
    let mut files = empty(alloc)?;
    let _ = open(alloc, &mut files, name, 0x41);
    let _ = write(&mut files, 3, bytes);
    let _ = close(&mut files, 3);
    Ok(files)
}

#[test]
fn descriptors_of_one_description_share_a_file(rt: HostRuntime) -> Result<(), AllocError> {
    let mut files = with_file(rt.alloc(), b"f", b"abc")?;
    assert_eq!(rt; open(rt.alloc(), &mut files, b"f", 2), 3);
    assert_eq!(rt; dup_to(&mut files, 3, 9), 9);
    assert_eq!(rt; truncate(&mut files, 9, 1), 0);
    assert_eq!(rt; write_at(&mut files, 3, 2, b"z"), 1);
    assert!(rt; reads_at(&files, 3, 0, 3, b"a\0z\0\0\0\0\0\0"));
    assert!(rt; reads_at(&files, 9, 1, 2, b"\0z\0\0\0\0\0\0\0"));
    assert_eq!(rt; open(rt.alloc(), &mut files, b"/", 0), 4);
    Ok(())
}

#[test]
fn a_listing_goes_on_where_it_stopped(rt: HostRuntime) -> Result<(), AllocError> {
    let mut files = with_file(rt.alloc(), b"p", b"")?;
    assert_eq!(rt; open(rt.alloc(), &mut files, b"f", 0x41), 3);
    assert_eq!(rt; open(rt.alloc(), &mut files, b"/", 0), 4);
    for (size, answer) in [(23, -22), (71, 48), (256, 48), (256, 0)] {
        assert_eq!(rt;
            listed(rt.alloc(), &mut files, 4, size),
            answer,
            "at {size}"
        );
    }
    assert_eq!(rt; listed(rt.alloc(), &mut files, 3, 256), -20);
    assert_eq!(rt; listed(rt.alloc(), &mut files, 5, 256), -9);
    Ok(())
}

#[test]
fn an_entry_has_the_layout_of_linux(rt: HostRuntime) -> Result<(), AllocError> {
    let mut files = with_file(rt.alloc(), b"f", b"")?;
    assert_eq!(rt; open(rt.alloc(), &mut files, b"/", 0x10000), 3);
    assert!(rt;
        lists(
            rt.alloc(),
            &mut files,
            3,
            72,
            b"\x01\0\0\0\0\0\0\0\x01\0\0\0\0\0\0\0\x18\0\x04.\0\0\0\0\x01\0\0\0\0\0\0\0\x02\0\0\0\0\0\0\0\x18\0\x04..\0\0\0\x02\0\0\0\0\0\0\0\x03\0\0\0\0\0\0\0\x18\0\x08f\0\0\0\0\x09\x09\x09\x09\x09\x09\x09\x09",
        )
    );
    Ok(())
}

#[test]
fn the_least_number_that_was_closed_is_used_again(rt: HostRuntime) -> Result<(), AllocError> {
    let mut files = with_file(rt.alloc(), b"f", b"abc")?;
    for fd in [3, 4, 5, 6] {
        assert_eq!(rt; open(rt.alloc(), &mut files, b"f", 0), fd);
    }
    assert_eq!(rt; close(&mut files, 5), 0);
    assert_eq!(rt; close(&mut files, 3), 0);
    assert_eq!(rt; close(&mut files, 3), -9);
    assert_eq!(rt; dup(&mut files, 4, 4), 5);
    assert_eq!(rt; open(rt.alloc(), &mut files, b"f", 0), 3);
    assert_eq!(rt; open(rt.alloc(), &mut files, b"f", 0), 7);
    Ok(())
}

#[test]
fn a_description_has_an_offset_of_its_own(rt: HostRuntime) -> Result<(), AllocError> {
    let mut files = with_file(rt.alloc(), b"f", b"abc")?;
    assert_eq!(rt; open(rt.alloc(), &mut files, b"f", 0), 3);
    assert_eq!(rt; open(rt.alloc(), &mut files, b"f", 0), 4);
    assert_eq!(rt; dup(&mut files, 3, 0), 5);
    assert!(rt; reads(&mut files, 3, 2, 2, b"ab\0\0\0\0\0\0"));
    assert!(rt; reads(&mut files, 5, 8, 1, b"c\0\0\0\0\0\0\0"));
    assert!(rt; reads(&mut files, 3, 8, 0, b"\0\0\0\0\0\0\0\0"));
    assert!(rt; reads(&mut files, 4, 8, 3, b"abc\0\0\0\0\0"));
    Ok(())
}

#[test]
fn what_was_unlinked_is_read_through_its_descriptor(rt: HostRuntime) -> Result<(), AllocError> {
    let mut files = with_file(rt.alloc(), b"f", b"abc")?;
    assert_eq!(rt; open(rt.alloc(), &mut files, b"f", 2), 3);
    assert_eq!(rt; unlink(&mut files, b"f", false), 0);
    assert_eq!(rt; open(rt.alloc(), &mut files, b"f", 0), -2);
    assert_eq!(rt; write_at(&mut files, 3, 3, b"d"), 1);
    assert!(rt; reads(&mut files, 3, 8, 4, b"abcd\0\0\0\0"));
    assert_eq!(rt; close(&mut files, 3), 0);
    assert!(rt; reads(&mut files, 3, 8, -9, b"\0\0\0\0\0\0\0\0"));
    Ok(())
}

#[test]
fn a_directory_that_was_unlinked_has_no_entries(rt: HostRuntime) -> Result<(), AllocError> {
    let mut files = empty(rt.alloc())?;
    assert_eq!(rt; make_dir(rt.alloc(), &mut files, b"d"), 0);
    assert_eq!(rt; make_dir(rt.alloc(), &mut files, b"d"), -17);
    assert_eq!(rt; open(rt.alloc(), &mut files, b"d", 0), 3);
    assert_eq!(rt; done(files.make_dir(rt.alloc(), 3, b"e")), 0);
    assert_eq!(rt; unlink(&mut files, b"d", true), -39);
    assert_eq!(rt; unlink(&mut files, b"d/e", true), 0);
    assert_eq!(rt; unlink(&mut files, b"d", true), 0);
    assert_eq!(rt; listed(rt.alloc(), &mut files, 3, 256), -2);
    assert_eq!(rt; done(files.make_dir(rt.alloc(), 3, b"e")), -2);
    Ok(())
}

#[test]
fn there_are_256_descriptors(rt: HostRuntime) -> Result<(), AllocError> {
    let mut files = with_file(rt.alloc(), b"f", b"")?;
    for fd in 3..256 {
        assert_eq!(rt; open(rt.alloc(), &mut files, b"f", 0), fd);
    }
    assert_eq!(rt; open(rt.alloc(), &mut files, b"f", 0), -24);
    assert_eq!(rt; open(rt.alloc(), &mut files, b"none", 0), -24);
    assert_eq!(rt; dup(&mut files, 0, 0), -24);
    assert_eq!(rt; dup(&mut files, 0, 256), -22);
    assert_eq!(rt; dup_to(&mut files, 0, 256), -9);
    assert_eq!(rt; dup_to(&mut files, 0, 255), 255);
    Ok(())
}

#[test]
fn a_device_takes_bytes_and_has_none(rt: HostRuntime) -> Result<(), AllocError> {
    let mut files = empty(rt.alloc())?;
    assert_eq!(rt; write(&mut files, 1, b"ab"), 2);
    assert_eq!(rt; write(&mut files, 1, b"c"), 1);
    assert!(rt; has_output(&files, 1, b"abc"));
    assert!(rt; reads(&mut files, 1, 8, -1000, b"\0\0\0\0\0\0\0\0"));
    assert_eq!(rt; set_flags(&mut files, 1, 0x800), 0);
    assert!(rt; reads(&mut files, 1, 8, -11, b"\0\0\0\0\0\0\0\0"));
    assert_eq!(rt; seek(&mut files, 1, 0, 0), -29);
    assert_eq!(rt; truncate(&mut files, 1, 0), -22);
    assert_eq!(rt; dup(&mut files, 1, 0), 3);
    assert_eq!(rt; close(&mut files, 1), 0);
    assert!(rt; files.live(1));
    assert_eq!(rt; close(&mut files, 3), 1);
    assert!(rt; !files.live(1));
    Ok(())
}

/// Whether a device has this output.
fn has_output(files: &Files, device: usize, bytes: &[u8]) -> bool {
    files.live(device) && files.output(device) == bytes
}

pub(crate) fn set_flags(files: &mut Files, fd: u64, flags: u64) -> i64 {
    match files.set_flags(fd, flags) {
        Ok(()) => 0,
        Err(errno) => refused(FileFault::Errno(errno)),
    }
}

#[test]
fn an_open_is_refused_as_the_manual_says(rt: HostRuntime) -> Result<(), AllocError> {
    let mut files = with_file(rt.alloc(), b"f", b"abc")?;
    assert_eq!(rt; make_dir(rt.alloc(), &mut files, b"d"), 0);
    for (path, flags, answer) in [
        (b"f", 3, -22),
        (b"f", 0x400000, -22),
        (b"n", 0, -2),
        (b"f", 0x10000, -20),
        (b"f", 0xC1, -17),
        (b"d", 1, -21),
        (b"d", 0x40, -21),
        (b"d", 0x200, -21),
        (b"d", 0x10000, 3),
        (b"f", 0x200, 4),
    ] {
        assert_eq!(rt;
            open(rt.alloc(), &mut files, path, flags),
            answer,
            "at {flags}"
        );
    }
    assert!(rt; reads(&mut files, 4, 8, 0, b"\0\0\0\0\0\0\0\0"));
    assert_eq!(rt; write(&mut files, 4, b"x"), -9);
    assert!(rt; reads(&mut files, 3, 8, -21, b"\0\0\0\0\0\0\0\0"));
    Ok(())
}

#[test]
fn what_appends_goes_to_the_end(rt: HostRuntime) -> Result<(), AllocError> {
    let mut files = with_file(rt.alloc(), b"f", b"abc")?;
    assert_eq!(rt; open(rt.alloc(), &mut files, b"f", 0x402), 3);
    assert_eq!(rt; write(&mut files, 3, b"d"), 1);
    assert_eq!(rt; seek(&mut files, 3, 0, 1), 4);
    assert_eq!(rt; seek(&mut files, 3, -4, 2), 0);
    assert_eq!(rt; seek(&mut files, 3, -1, 1), -22);
    assert_eq!(rt; seek(&mut files, 3, 0, 3), -22);
    assert_eq!(rt; write_at(&mut files, 3, 0, b"e"), 1);
    assert!(rt; reads(&mut files, 3, 8, 5, b"abcde\0\0\0"));
    Ok(())
}
