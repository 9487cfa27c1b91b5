ghost use Rattle.std.specs.Prelude.{◌≡◌, length, IfOk};

use crate::tests::{contents, devices, words_of};
use dev_board::{Device, Devices, MemDevice};
use emu_top::memory_sink::MemSink;
use emu_top::top::{Finished, TopFault, solo_top};
use file_tree::Text;
use image_store::{Entries, Entry, FailingCalls, Folder, Kind, MemFolder};
use le_fields::Bytes;
use std::alloc::{AllocError, Global};
use std::test::Fail;

/// Makes `d`, writes `hi` to `d/f`, `x` to descriptor 1, takes `g` away, closes descriptor 2, and ends with 0.
const CHANGES: &str = "
        li a7, 34
        li a0, -100
        la a1, dir
        li a2, 0x1ED
        ecall
        li a7, 56
        li a0, -100
        la a1, file
        li a2, 0x41
        li a3, 0x1A4
        ecall
        li a7, 64
        la a1, text
        li a2, 2
        ecall
        li a7, 64
        li a0, 1
        la a1, mark
        li a2, 1
        ecall
        li a7, 35
        li a0, -100
        la a1, gone
        li a2, 0
        ecall
        li a7, 57
        li a0, 2
        ecall
        li a7, 94
        li a0, 0
        ecall
        .data
dir:    .ascii \"d\"
        .byte 0
file:   .ascii \"d/f\"
        .byte 0
gone:   .ascii \"g\"
        .byte 0
text:   .ascii \"hi\"
mark:   .ascii \"x\"
";

/// Writes the first 8 bytes of its input to descriptor 1, and ends with 0.
const COPIES: &str = "
        li a7, 63
        li a0, 0
        la a1, room
        li a2, 8
        ecall
        mv a2, a0
        li a7, 64
        li a0, 1
        la a1, room
        ecall
        li a7, 94
        li a0, 0
        ecall
        .data
room:   .space 8
";

/// dup of 1, which is 3; close of 1; write of `x` to 3; and the end with 0.
const DUPLICATES: &str = "
        li a7, 23
        li a0, 1
        ecall
        li a7, 57
        li a0, 1
        ecall
        li a7, 64
        li a0, 3
        la a1, mark
        li a2, 1
        ecall
        li a7, 94
        li a0, 0
        ecall
        .data
mark:   .ascii \"x\"
";

/// The same with a close of 3 before the end.
const CLOSES_ALL: &str = "
        li a7, 23
        li a0, 1
        ecall
        li a7, 57
        li a0, 1
        ecall
        li a7, 64
        li a0, 3
        la a1, mark
        li a2, 1
        ecall
        li a7, 57
        li a0, 3
        ecall
        li a7, 94
        li a0, 0
        ecall
        .data
mark:   .ascii \"x\"
";

/// A call of an object outside that is to fail.
#[derive(Clone, Copy, PartialEq, Eq)]
enum Call {
    List,
    Read,
    Write,
    MakeDir,
    Remove,
    Take,
    Put,
    /// None is to fail.
    None,
}

/// The first call of a kind, where that is the one to fail.
fn first(alloc: Global, call: Call, failing: Call) -> Result<Vec<u64>, AllocError> {
    let mut numbers = Vec::new(alloc);
    if call == failing {
        numbers.push(0)?;
    }
    Ok(numbers)
}

fn failing_calls(alloc: Global, failing: Call) -> Result<FailingCalls, AllocError> {
    Ok(FailingCalls {
        lists: first(alloc, Call::List, failing)?,
        reads: first(alloc, Call::Read, failing)?,
        writes: first(alloc, Call::Write, failing)?,
        makes: first(alloc, Call::MakeDir, failing)?,
        removes: first(alloc, Call::Remove, failing)?,
    })
}

/// An entry of a table: its path, its kind and its bytes.
type Row<'a> = (&'a str, Kind, &'a [u8]);

fn folder_of(alloc: Global, rows: &[Row<'_>], failing: Call) -> Result<MemFolder, AllocError> {
    let mut entries = Vec::new(alloc);
    for (path, kind, bytes) in rows {
        entries.push(Entry {
            path: Text::new(alloc, path)?,
            kind: *kind,
            bytes: Bytes::from_vec(bytes.to_vec(alloc)?),
        })?;
    }
    match Entries::new(alloc, entries) {
        Ok(entries) => Ok(MemFolder::new(entries, failing_calls(alloc, failing)?)),
        Err(_) => Err(AllocError),
    }
}

/// The status and the line of an answer, as a text.
fn told(alloc: Global, status: u8, notes: &MemSink) -> Result<String, AllocError> {
    let mut text = format!(in alloc; "{status} ")?;
    for byte in notes.contents() {
        text.push(char::from(*byte))?;
    }
    Ok(text)
}

/// What a folder holds, as a text: its paths in their order, a directory's with a slash, and a file's with its bytes where
/// they are few.
fn text_of(alloc: Global, folder: &mut MemFolder) -> Result<String, AllocError> {
    let mut text = String::new(alloc);
    let listing = match folder.list(alloc) {
        Ok(listing) => listing,
        Err(_) => return Ok(text),
    };
    for entry in &listing {
        text.push(' ')?;
        text.push_str(entry.path.as_str())?;
        text.push(if entry.kind == Kind::Dir { '/' } else { ':' })?;
        text.push_str(bytes_of(alloc, folder, entry.path.as_str(), entry.size)?.as_str())?;
    }
    Ok(text)
}

/// The bytes of a small file.
fn bytes_of(
    alloc: Global,
    folder: &mut MemFolder,
    path: &str,
    size: u64,
) -> Result<String, AllocError> {
    let mut text = String::new(alloc);
    let mut bytes = Vec::new(alloc);
    if size < 10 && folder.read(path, &mut bytes).is_ok() {
        for byte in &bytes {
            text.push(char::from(*byte))?;
        }
    }
    Ok(text)
}

/// The answer of the words over a folder and three devices, of which device 1 may fail.
fn answered(
    alloc: Global,
    words: &[&str],
    folder: &mut MemFolder,
    failing: Call,
) -> Result<(String, Devices<MemDevice>), AllocError> {
    let words = words_of(alloc, words)?;
    let devices = devices(alloc, first(alloc, Call::Take, failing)?)?;
    let mut notes = MemSink::new(alloc, first(alloc, Call::Put, failing)?);
    match solo_top(alloc, &words, folder, devices, &mut notes) {
        Ok(finished) => Ok((told(alloc, finished.status, &notes)?, finished.devices)),
        Err(fault) => Ok((told(alloc, fault.status(), &notes)?, fault.devices)),
    }
}

/// The file of a source.
fn program(alloc: Global, source: &str) -> Result<Vec<u8>, AllocError> {
    match isa_asm::assemble(alloc, source.as_bytes()) {
        Ok(bytes) => bytes.as_slice().to_vec(alloc),
        Err(_) => Err(AllocError),
    }
}

/// Runs a program, which stands as `p` beside a file `g`, with more words; the answer and what the folder holds, as a text.
fn ran(
    alloc: Global,
    source: &str,
    more: &[&str],
    failing: Call,
) -> Result<(String, Devices<MemDevice>), AllocError> {
    let bytes = program(alloc, source)?;
    let rows = [
        ("g", Kind::File, b"abc".as_slice()),
        ("p", Kind::File, bytes.as_slice()),
    ];
    let mut folder = folder_of(alloc, &rows, failing)?;
    let mut words = vec![in alloc; "solo"; 1]?;
    words.push(".")?;
    words.push("p")?;
    words.extend_from_slice(more)?;
    let (mut text, devices) = answered(alloc, &words, &mut folder, failing)?;
    text.push_str(text_of(alloc, &mut folder)?.as_str())?;
    Ok((text, devices))
}

#[test]
fn a_run_changes_its_folder_and_lets_a_closed_device_go(rt: HostRuntime) -> Result<(), Fail> {
    let (text, devices) = ran(rt.alloc(), CHANGES, &[], Call::None)?;
    assert_eq!(rt; text.as_str(), "0  d/ d/f:hi p:");
    assert_eq!(rt; devices.count(), 3);
    assert!(rt; devices.get(0).is_some());
    assert_eq!(rt; contents(&devices, 1), b"x".as_slice());
    assert!(rt; devices.get(2).is_none());
    Ok(())
}

#[test]
fn a_run_that_keeps_leaves_its_folder(rt: HostRuntime) -> Result<(), Fail> {
    let (text, devices) = ran(rt.alloc(), CHANGES, &["--keep"], Call::None)?;
    assert_eq!(rt; text.as_str(), "0  g:abc p:");
    assert_eq!(rt; contents(&devices, 1), b"x".as_slice());
    Ok(())
}

#[test]
fn a_file_of_the_folder_is_the_input(rt: HostRuntime) -> Result<(), Fail> {
    let (text, devices) = ran(rt.alloc(), COPIES, &["--input", "g"], Call::None)?;
    assert_eq!(rt; text.as_str(), "0  g:abc p:");
    assert_eq!(rt; contents(&devices, 1), b"abc".as_slice());
    let (text, devices) = ran(rt.alloc(), COPIES, &["--input", "none"], Call::None)?;
    assert_eq!(rt; text.as_str(), "66 rvuser: no file none\n g:abc p:");
    assert_eq!(rt; contents(&devices, 1), b"".as_slice());
    Ok(())
}

#[test]
fn a_device_lives_as_long_as_a_descriptor_names_it(rt: HostRuntime) -> Result<(), Fail> {
    let (text, devices) = ran(rt.alloc(), DUPLICATES, &[], Call::None)?;
    assert_eq!(rt; text.as_str(), "0  g:abc p:");
    assert!(rt; devices.get(1).is_some());
    assert_eq!(rt; contents(&devices, 1), b"x".as_slice());
    let (text, devices) = ran(rt.alloc(), CLOSES_ALL, &[], Call::None)?;
    assert_eq!(rt; text.as_str(), "0  g:abc p:");
    assert!(rt; devices.get(1).is_none());
    Ok(())
}

#[test]
fn objects_that_fail_and_what_stands(rt: HostRuntime) -> Result<(), Fail> {
    let alloc = rt.alloc();
    let table = [
        (Call::List, "74 rvuser: read failed: folder\n g:abc p:"),
        (Call::Read, "74 rvuser: read failed: folder\n g:abc p:"),
        (Call::Take, "74 rvuser: write failed: device 1\n g:abc p:"),
        // `g` goes, `d` is made, `d/f` is written, in this order
        (Call::Remove, "74 rvuser: write failed: folder\n g:abc p:"),
        (Call::MakeDir, "74 rvuser: write failed: folder\n p:"),
        (Call::Write, "74 rvuser: write failed: folder\n d/ d/f:h p:"),
        // an end with 0 has no line
        (Call::Put, "0  d/ d/f:hi p:"),
    ];
    for (failing, wanted) in table {
        let (text, devices) = ran(alloc, CHANGES, &[], failing)?;
        assert_eq!(rt; text.as_str(), wanted);
        assert_eq!(rt; devices.count(), 3);
    }
    Ok(())
}

/// Assembles a source that stands as `s` beside a directory `d`; the answer and what the folder holds, as a text.
fn made(alloc: Global, source: &str, out: &str, failing: Call) -> Result<String, AllocError> {
    let rows = [
        ("d", Kind::Dir, b"".as_slice()),
        ("s", Kind::File, source.as_bytes()),
    ];
    let mut folder = folder_of(alloc, &rows, failing)?;
    let (mut text, _) = answered(alloc, &["asm", ".", "s", out], &mut folder, failing)?;
    text.push_str(text_of(alloc, &mut folder)?.as_str())?;
    Ok(text)
}

#[test]
fn sources_and_what_becomes_of_them(rt: HostRuntime) -> Result<(), Fail> {
    let alloc = rt.alloc();
    let table = [
        ("ecall", "a", Call::None, "0  a: d/ s:ecall"),
        ("nop", "s", Call::None, "0  d/ s:"),
        (
            "ecall",
            "d",
            Call::None,
            "66 rvuser: not a file: d\n d/ s:ecall",
        ),
        ("no", "a", Call::None, "65 rvuser: line 1: Word\n d/ s:no"),
        ("", "a", Call::None, "65 rvuser: line 0: NoText\n d/ s:"),
        (
            "ecall",
            "a",
            Call::Write,
            "74 rvuser: write failed: folder\n a: d/ s:ecall",
        ),
        (
            "ecall",
            "a",
            Call::Read,
            "74 rvuser: read failed: folder\n d/ s:ecall",
        ),
        (
            "addi a0, a0, 2048",
            "a",
            Call::None,
            "65 rvuser: line 1: Range\n d/ s:",
        ),
    ];
    for (source, out, failing, wanted) in table {
        let text = made(alloc, source, out, failing)?;
        assert_eq!(rt; text.as_str(), wanted);
    }
    Ok(())
}

/// The end of the file that a source becomes, from 4096 on.
fn text_at_4096(alloc: Global, folder: &mut MemFolder, path: &str) -> Result<Vec<u8>, AllocError> {
    let mut bytes = Vec::new(alloc);
    match folder.read(path, &mut bytes) {
        Ok(()) if bytes.len() >= 4096 => bytes[4096..].to_vec(alloc),
        _ => Err(AllocError),
    }
}

#[test]
fn a_source_that_is_assembled_and_run(rt: HostRuntime) -> Result<(), Fail> {
    let alloc = rt.alloc();
    let source = b"addi a0, x0, 7\naddi a7, x0, 94\necall\n".as_slice();
    let mut folder = folder_of(alloc, &[("a.s", Kind::File, source)], Call::None)?;
    let (text, _) = answered(alloc, &["asm", ".", "a.s", "a"], &mut folder, Call::None)?;
    assert_eq!(rt; text.as_str(), "0 ");
    let bytes = text_at_4096(alloc, &mut folder, "a")?;
    let wanted = [
        0x13, 0x05, 0x70, 0x00, 0x93, 0x08, 0xE0, 0x05, 0x73, 0x00, 0x00, 0x00,
    ];
    assert_eq!(rt; bytes.as_slice(), wanted.as_slice());
    let (text, _) = answered(alloc, &["solo", ".", "a"], &mut folder, Call::None)?;
    assert_eq!(rt; text.as_str(), "7 ");
    Ok(())
}

#[test]
fn entries_that_are_not_loaded(rt: HostRuntime) -> Result<(), Fail> {
    let alloc = rt.alloc();
    let big = vec![in alloc; 0; 16_777_217]?;
    let table: [(Row<'_>, &str); 2] = [
        (("x", Kind::Other, b""), "66 rvuser: not a plain file: x\n"),
        (("x", Kind::File, &big), "66 rvuser: too big: x 16777217\n"),
    ];
    for (row, wanted) in table {
        let mut folder = folder_of(alloc, &[row], Call::None)?;
        let (text, _) = answered(alloc, &["solo", ".", "p"], &mut folder, Call::None)?;
        assert_eq!(rt; text.as_str(), wanted);
    }
    Ok(())
}

/// A device in memory, in a box.
fn boxed(alloc: Global) -> Result<Box<dyn Device + Send>, AllocError> {
    let none = Vec::new(alloc);
    Ok(Box::new(
        alloc,
        MemDevice::new(alloc, none, Vec::new(alloc), Vec::new(alloc)),
    )?)
}

/// Three of them.
fn boxes(alloc: Global) -> Result<Devices<Box<dyn Device + Send>>, AllocError>
    ensures { IfOk result (λ devices. length devices ≡ 3) }
{
    let mut devices = Vec::new(alloc);
    devices.push(boxed(alloc)?)?;
    devices.push(boxed(alloc)?)?;
    devices.push(boxed(alloc)?)?;
    Devices::new(alloc, devices)
}

/// Whether a device of an answer is there.
fn is_there(
    answer: &Result<Finished<Box<dyn Device + Send>>, TopFault<Box<dyn Device + Send>>>,
    device: usize,
) -> bool {
    match answer {
        Ok(finished) => finished.devices.get(device).is_some(),
        Err(fault) => fault.devices.get(device).is_some(),
    }
}

#[test]
fn a_run_over_boxed_devices(rt: HostRuntime) -> Result<(), Fail> {
    let alloc = rt.alloc();
    let bytes = program(alloc, CHANGES)?;
    let mut folder = folder_of(alloc, &[("p", Kind::File, bytes.as_slice())], Call::None)?;
    let words = words_of(alloc, &["solo", ".", "p"])?;
    let mut notes = MemSink::new(alloc, Vec::new(alloc));
    let answer = solo_top(alloc, &words, &mut folder, boxes(alloc)?, &mut notes);
    assert!(rt; answer.is_ok());
    assert!(rt; is_there(&answer, 0));
    assert!(rt; is_there(&answer, 1));
    assert!(rt; !is_there(&answer, 2));
    Ok(())
}
