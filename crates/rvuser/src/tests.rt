ghost use Rattle.std.specs.Prelude.{◌≡◌, length, IfOk};

use dev_board::{Devices, MemDevice};
use elf_build::program;
use elf_file::ElfFault;
use emu_run::{Entry, Journal};
use emu_top::cause::{Cause, Part};
use emu_top::ends::End;
use emu_top::memory_sink::MemSink;
use emu_top::sink::{Sink, SinkFailed};
use emu_top::top::{Finished, TopFault, solo_top};
use file_tree::Text;
use image_store::{Entries, Entry as FolderEntry, FailingCalls, Kind, MemFolder};
use le_fields::Bytes;
use std::alloc::{AllocError, Global};
use std::test::Fail;

/// Ends with 7.
const EXITS: [u32; 3] = [0x0070_0513, 0x05E0_0893, 0x0000_0073];

/// Writes `hi` and a newline to descriptor 1, and ends with 0.
pub const WRITES_HI: [u32; 9] = [
    0x0001_05B7,
    0x0245_8593,
    0x0010_0513,
    0x0030_0613,
    0x0400_0893,
    0x0000_0073,
    0x0000_0533,
    0x05E0_0893,
    0x0000_0073,
];

/// Writes the first two and then the next two of its data's bytes to descriptor 1, and ends with 0.
const WRITES_TWICE: [u32; 12] = [
    0x0001_05B7,
    0x0305_8593,
    0x0010_0513,
    0x0020_0613,
    0x0400_0893,
    0x0000_0073,
    0x0010_0513,
    0x0025_8593,
    0x0000_0073,
    0x0000_0513,
    0x05E0_0893,
    0x0000_0073,
];

/// A file whose one segment has these words and bytes at 0x10000, from offset 4096 on.
pub fn file_of(alloc: Global, words: &[u32], data: &[u8]) -> Result<Vec<u8>, AllocError> {
    program(alloc, words, data)
}

/// Three devices, of which device 1 fails at the takes of these numbers.
pub fn devices(alloc: Global, failing_takes: Vec<u64>) -> Result<Devices<MemDevice>, AllocError>
    ensures { IfOk result (λ devices. length devices ≡ 3) }
{
    let mut devices = Vec::new(alloc);
    devices.push(device(alloc, Vec::new(alloc)))?;
    devices.push(device(alloc, failing_takes))?;
    devices.push(device(alloc, Vec::new(alloc)))?;
    Devices::new(alloc, devices)
}

fn device(alloc: Global, failing_takes: Vec<u64>) -> MemDevice {
    MemDevice::new(alloc, Vec::new(alloc), Vec::new(alloc), failing_takes)
}

/// What a device holds; nothing where it was let go.
pub fn contents(devices: &Devices<MemDevice>, device: usize) -> &[u8] {
    match devices.get(device) {
        Some(device) => device.contents(),
        None => &[],
    }
}

/// A folder of the file `p`, and of an entry `d` that is no file.
fn folder(
    alloc: Global,
    bytes: Vec<u8>,
    failing_lists: Vec<u64>,
    failing_reads: Vec<u64>,
) -> Result<MemFolder, AllocError> {
    let mut entries = Vec::new(alloc);
    entries.push(FolderEntry {
        path: Text::new(alloc, "d")?,
        kind: Kind::Dir,
        bytes: Bytes::new(alloc),
    })?;
    entries.push(FolderEntry {
        path: Text::new(alloc, "p")?,
        kind: Kind::File,
        bytes: Bytes::from_vec(bytes),
    })?;
    match Entries::new(alloc, entries) {
        Ok(entries) => Ok(MemFolder::new(
            entries,
            FailingCalls {
                lists: failing_lists,
                reads: failing_reads,
                writes: Vec::new(alloc),
                makes: Vec::new(alloc),
                removes: Vec::new(alloc),
            },
        )),
        Err(_) => Err(AllocError),
    }
}

pub fn words_of(alloc: Global, words: &[&str]) -> Result<Vec<String>, AllocError> {
    let mut list = Vec::new(alloc);
    for word in words {
        list.push(String::from_str(alloc, word)?)?;
    }
    Ok(list)
}

pub type Answer = Result<Finished<MemDevice>, TopFault<MemDevice>>;

/// The answer for words, over three devices, and the line on the notes.
fn answer(
    alloc: Global,
    words: &[&str],
    folder: &mut MemFolder,
    failing_takes: Vec<u64>,
) -> Result<(Answer, Vec<u8>), AllocError> {
    let words = words_of(alloc, words)?;
    let devices = devices(alloc, failing_takes)?;
    let mut notes = MemSink::new(alloc, Vec::new(alloc));
    let answer = solo_top(alloc, &words, folder, devices, &mut notes);
    Ok((answer, notes.contents().to_vec(alloc)?))
}

/// The answer for a file that is run.
pub fn answer_to(alloc: Global, bytes: Vec<u8>) -> Result<(Answer, Vec<u8>), AllocError> {
    let mut folder = folder(alloc, bytes, Vec::new(alloc), Vec::new(alloc))?;
    answer(alloc, &["solo", ".", "p"], &mut folder, Vec::new(alloc))
}

/// The number of steps of a journal that are steps of the first thread in one entry.
fn steps(journal: &Journal) -> Option<u32> {
    match journal.entries() {
        [
            Entry::Steps {
                thread: 1000,
                count,
            },
        ] => Some(*count),
        _ => None,
    }
}

#[test]
fn exits_with_its_code(rt: HostRuntime) -> Result<(), Fail> {
    let bytes = file_of(rt.alloc(), &EXITS, &[])?;
    let (answer, line) = answer_to(rt.alloc(), bytes)?;
    let Ok(finished) = answer else {
        return Err("it finishes")?;
    };
    assert!(rt; matches!(finished.end, End::Exit(7)));
    assert_eq!(rt; finished.status, 7);
    assert_eq!(rt; line.as_slice(), b"".as_slice());
    assert_eq!(rt; steps(&finished.journal), Some(5));
    assert_eq!(rt; finished.journal.count(), 5);
    assert_eq!(rt; finished.journal.budget(), 4194304);
    for device in 0..3 {
        assert_eq!(rt; contents(&finished.devices, device), [].as_slice());
    }
    Ok(())
}

/// The number of the signal that ended the process.
pub fn killed_by(end: &End) -> Option<u8> {
    match end {
        End::Killed(signal) => Some(signal.number()),
        _ => None,
    }
}

#[test]
fn is_killed_at_an_illegal_instruction(rt: HostRuntime) -> Result<(), Fail> {
    let bytes = file_of(rt.alloc(), &[0, 0x05E0_0893, 0x0000_0073], &[])?;
    let (answer, line) = answer_to(rt.alloc(), bytes)?;
    let Ok(finished) = answer else {
        return Err("it finishes")?;
    };
    assert_eq!(rt; killed_by(&finished.end), Some(4));
    assert_eq!(rt; finished.status, 132);
    assert_eq!(rt; line.as_slice(), b"rvuser: killed by signal 4\n".as_slice());
    assert_eq!(rt; steps(&finished.journal), Some(3));
    Ok(())
}

#[test]
fn writes_to_its_device(rt: HostRuntime) -> Result<(), Fail> {
    let bytes = file_of(rt.alloc(), &WRITES_HI, b"hi\n")?;
    let (answer, line) = answer_to(rt.alloc(), bytes)?;
    let Ok(finished) = answer else {
        return Err("it finishes")?;
    };
    assert!(rt; matches!(finished.end, End::Exit(0)));
    assert_eq!(rt; finished.status, 0);
    assert_eq!(rt; line.as_slice(), b"".as_slice());
    assert_eq!(rt; steps(&finished.journal), Some(14));
    assert_eq!(rt; contents(&finished.devices, 0), [].as_slice());
    assert_eq!(rt; contents(&finished.devices, 1), b"hi\n".as_slice());
    assert_eq!(rt; contents(&finished.devices, 2), [].as_slice());
    Ok(())
}

#[test]
fn two_segments_of_the_same_bytes_are_refused(rt: HostRuntime) -> Result<(), Fail> {
    let mut bytes = file_of(rt.alloc(), &WRITES_HI, b"hi\n")?;
    if bytes.len() < 4096 {
        return Err("the file has its text at 4096")?;
    }
    bytes[56] = 2;
    for place in 64..120 {
        bytes[place + 56] = bytes[place];
    }
    let (answer, line) = answer_to(rt.alloc(), bytes)?;
    let Err(fault) = answer else {
        return Err("it is refused")?;
    };
    assert!(rt; matches!(fault.cause, Cause::Elf(ElfFault::Overlap(0, 1))));
    assert_eq!(rt; fault.status(), 65);
    assert_eq!(rt;
        line.as_slice(),
        b"rvuser: not runnable: Overlap 0 1\n".as_slice()
    );
    assert_eq!(rt; fault.journal.count(), 0);
    Ok(())
}

#[test]
fn a_device_fails_at_its_second_take(rt: HostRuntime) -> Result<(), Fail> {
    let alloc = rt.alloc();
    let bytes = file_of(alloc, &WRITES_TWICE, b"abcd")?;
    let mut folder = folder(alloc, bytes, Vec::new(alloc), Vec::new(alloc))?;
    let takes = vec![in alloc; 1]?;
    let (answer, line) = answer(alloc, &["solo", ".", "p"], &mut folder, takes)?;
    let Err(fault) = answer else {
        return Err("the device fails")?;
    };
    assert!(rt; matches!(fault.cause, Cause::WriteFault(Part::Device(1))));
    assert_eq!(rt; fault.cause.status(), 74);
    assert_eq!(rt;
        line.as_slice(),
        b"rvuser: write failed: device 1\n".as_slice()
    );
    // the journal ends with the event of the second write
    assert_eq!(rt; steps(&fault.journal), Some(14));
    assert_eq!(rt; contents(&fault.devices, 1), b"abc".as_slice());
    assert_eq!(rt; contents(&fault.devices, 2), [].as_slice());
    Ok(())
}

#[test]
fn a_folder_that_fails(rt: HostRuntime) -> Result<(), Fail> {
    let alloc = rt.alloc();
    for (list, read) in [(0, 9), (9, 0)] {
        let bytes = file_of(alloc, &EXITS, &[])?;
        let mut folder = folder(alloc, bytes, vec![in alloc; list]?, vec![in alloc; read]?)?;
        let (answer, line) = answer(alloc, &["solo", ".", "p"], &mut folder, Vec::new(alloc))?;
        let Err(fault) = answer else {
            return Err("the folder fails")?;
        };
        assert!(rt; matches!(fault.cause, Cause::ReadFault(Part::Folder)));
        assert_eq!(rt; fault.cause.status(), 74);
        assert_eq!(rt;
            line.as_slice(),
            b"rvuser: read failed: folder\n".as_slice()
        );
        assert_eq!(rt; fault.journal.count(), 0);
        assert_eq!(rt; fault.devices.count(), 3);
    }
    Ok(())
}

#[test]
fn a_program_that_is_no_file_of_the_folder(rt: HostRuntime) -> Result<(), Fail> {
    let alloc = rt.alloc();
    for name in ["none", "d", "d/p", "rv-p"] {
        let bytes = file_of(alloc, &EXITS, &[])?;
        let mut folder = folder(alloc, bytes, Vec::new(alloc), Vec::new(alloc))?;
        let (answer, line) = answer(alloc, &["solo", ".", name], &mut folder, Vec::new(alloc))?;
        let Err(fault) = answer else {
            return Err("there is no program")?;
        };
        match &fault.cause {
            Cause::NoProgram(program) => assert_eq!(rt; program.as_str(), name),
            _ => assert!(rt; false),
        }
        assert_eq!(rt; fault.cause.status(), 66);
        let wanted = format!(in alloc; "rvuser: no file {name}\n")?;
        assert_eq!(rt; line.as_slice(), wanted.as_str().as_bytes());
    }
    Ok(())
}

#[test]
fn the_first_wrong_word(rt: HostRuntime) -> Result<(), Fail> {
    let table: [(&[&str], usize); 18] = [
        (&[], 0),
        (&["run", ".", "p"], 0),
        (&["solo"], 1),
        (&["solo", ""], 1),
        (&["solo", "-f", "p"], 1),
        (&["solo", "."], 2),
        (&["solo", ".", ""], 2),
        (&["solo", ".", "-p"], 2),
        (&["solo", ".", "/p"], 2),
        (&["solo", ".", "d/"], 2),
        (&["solo", ".", "d//p"], 2),
        (&["solo", ".", "d/../p"], 2),
        (&["solo", ".", "./p"], 2),
        (&["solo", ".", "p", "p"], 3),
        (&["solo", ".", "p", "--keep", "--keep"], 4),
        (&["solo", ".", "p", "--budget"], 4),
        (&["solo", ".", "p", "--budget", "05"], 4),
        (&["solo", ".", "p", "--env", "=v"], 4),
    ];
    for (words, index) in table {
        let bytes = file_of(rt.alloc(), &EXITS, &[])?;
        let mut folder = folder(
            rt.alloc(),
            bytes,
            Vec::new(rt.alloc()),
            Vec::new(rt.alloc()),
        )?;
        let (answer, line) = answer(rt.alloc(), words, &mut folder, Vec::new(rt.alloc()))?;
        let Err(fault) = answer else {
            return Err("the words are wrong")?;
        };
        match fault.cause {
            Cause::Usage { word } => assert_eq!(rt; word, index),
            _ => assert!(rt; false),
        }
        assert_eq!(rt; fault.cause.status(), 64);
        let wanted = format!(in rt.alloc(); "rvuser: usage: word {index}\n")?;
        assert_eq!(rt; line.as_slice(), wanted.as_str().as_bytes());
    }
    Ok(())
}

/// Makes the call whose number, descriptor, address and length are given, and ends with the answer's low byte.
fn calls(number: u32, descriptor: u32, address: u32, length: u32) -> [u32; 7] {
    [
        // addi a7, x0, number and so on
        (number % 2048) << 20 | 0x893,
        (descriptor % 2048) << 20 | 0x513,
        (address % 0x10_0000) << 12 | 0x5B7,
        (length % 2048) << 20 | 0x613,
        0x0000_0073,
        0x05E0_0893,
        0x0000_0073,
    ]
}

/// dup of 1, which is 3; close of 1; write of two bytes of the code to 3, and to 1; exit with the last answer.
const WRITES_BY_A_DUPLICATE: [u32; 16] = [
    0x0170_0893,
    0x0010_0513,
    0x0000_0073,
    0x0390_0893,
    0x0010_0513,
    0x0000_0073,
    0x0400_0893,
    0x0030_0513,
    0x0001_05B7,
    0x0020_0613,
    0x0000_0073,
    0x0400_0893,
    0x0010_0513,
    0x0000_0073,
    0x05E0_0893,
    0x0000_0073,
];

#[test]
fn a_duplicate_writes_where_the_first_was_closed(rt: HostRuntime) -> Result<(), Fail> {
    let bytes = file_of(rt.alloc(), &WRITES_BY_A_DUPLICATE, &[])?;
    let (answer, _) = answer_to(rt.alloc(), bytes)?;
    let Ok(finished) = answer else {
        return Err("it finishes")?;
    };
    // EBADF is 9
    assert_eq!(rt; finished.status, 247);
    assert_eq!(rt; contents(&finished.devices, 1), [0x93, 0x08].as_slice());
    assert_eq!(rt; contents(&finished.devices, 2), [].as_slice());
    Ok(())
}

#[test]
fn answers_of_calls(rt: HostRuntime) -> Result<(), Fail> {
    // write of no byte, of two bytes, to no device, from no memory, of the zeros behind the bytes of the file; and no call
    let table = [
        (64, 1, 0x10, 0, 0),
        (64, 2, 0x10, 2, 2),
        (64, 3, 0x10, 2, 256 - 9),
        (64, 3, 0x20, 2, 256 - 9),
        (64, 1, 0x20, 2, 256 - 14),
        (64, 1, 0x10, 29, 29),
        (1000, 1, 0x10, 2, 256 - 38),
        // the id of the process, 1000, of which the status is the low byte; and a call that is not there yet
        (172, 0, 0x10, 0, 1000 % 256),
        (98, 0, 0x10, 0, 256 - 38),
    ];
    for (number, descriptor, address, length, status) in table {
        let words = calls(number, descriptor, address, length);
        let bytes = file_of(rt.alloc(), &words, &[])?;
        let (answer, _) = answer_to(rt.alloc(), bytes)?;
        let Ok(finished) = answer else {
            return Err("it finishes")?;
        };
        assert_eq!(rt;
            u32::from(finished.status),
            status,
            "{number} {descriptor} {address} {length}"
        );
    }
    Ok(())
}

#[test]
fn is_killed_at_a_fetch_across_the_end_of_its_page(rt: HostRuntime) -> Result<(), Fail> {
    // a page of c.nop, whose last half word is the first half of an instruction of 4 bytes
    let mut words = vec![in rt.alloc(); 0x0001_0001; 1023]?;
    words.push(0x0513_0001)?;
    let bytes = file_of(rt.alloc(), &words, &[])?;
    let (answer, line) = answer_to(rt.alloc(), bytes)?;
    let Ok(finished) = answer else {
        return Err("it finishes")?;
    };
    assert_eq!(rt; killed_by(&finished.end), Some(11));
    assert_eq!(rt; finished.status, 139);
    assert_eq!(rt;
        line.as_slice(),
        b"rvuser: killed by signal 11\n".as_slice()
    );
    assert_eq!(rt; steps(&finished.journal), Some(2050));
    Ok(())
}

#[test]
fn the_budget_is_spent(rt: HostRuntime) -> Result<(), Fail> {
    // a jump to itself
    let bytes = file_of(rt.alloc(), &[0x0000_006F], &[])?;
    let (answer, line) = answer_to(rt.alloc(), bytes)?;
    let Ok(finished) = answer else {
        return Err("it finishes")?;
    };
    assert!(rt; matches!(finished.end, End::Budget));
    assert_eq!(rt; finished.status, 75);
    assert_eq!(rt;
        line.as_slice(),
        b"rvuser: budget of 4194304 events spent\n".as_slice()
    );
    assert_eq!(rt; steps(&finished.journal), Some(4194304));
    Ok(())
}

/// The answer for words over a sink that fails at its first line, and what the sink holds.
fn answer_untold(
    alloc: Global,
    program: &str,
    bytes: Vec<u8>,
) -> Result<(Answer, Vec<u8>), AllocError> {
    let words = words_of(alloc, &["solo", ".", program])?;
    let devices = devices(alloc, Vec::new(alloc))?;
    let mut folder = folder(alloc, bytes, Vec::new(alloc), Vec::new(alloc))?;
    let mut notes = MemSink::new(alloc, vec![in alloc; 0]?);
    let answer = solo_top(alloc, &words, &mut folder, devices, &mut notes);
    Ok((answer, notes.contents().to_vec(alloc)?))
}

#[test]
fn an_end_that_cannot_be_told_is_a_fault_of_the_notes(rt: HostRuntime) -> Result<(), Fail> {
    let bytes = file_of(rt.alloc(), &[0], &[])?;
    let (answer, line) = answer_untold(rt.alloc(), "p", bytes)?;
    let Err(fault) = answer else {
        return Err("the sink fails")?;
    };
    assert!(rt; matches!(fault.cause, Cause::WriteFault(Part::Notes)));
    assert_eq!(rt; fault.cause.status(), 74);
    assert_eq!(rt; steps(&fault.journal), Some(3));
    assert!(rt; b"rvuser: killed by signal 4\n".starts_with(line.as_slice()));
    // an end without a line doesn't meet the sink
    let bytes = file_of(rt.alloc(), &EXITS, &[])?;
    let (answer, _) = answer_untold(rt.alloc(), "p", bytes)?;
    assert!(rt; answer.is_ok());
    Ok(())
}

#[test]
fn the_first_fault_stays_where_it_cannot_be_told(rt: HostRuntime) -> Result<(), Fail> {
    let bytes = file_of(rt.alloc(), &EXITS, &[])?;
    let (answer, line) = answer_untold(rt.alloc(), "none", bytes)?;
    let Err(fault) = answer else {
        return Err("there is no program")?;
    };
    assert!(rt; matches!(fault.cause, Cause::NoProgram(_)));
    assert_eq!(rt; fault.cause.status(), 66);
    assert!(rt; b"rvuser: no file none\n".starts_with(line.as_slice()));
    Ok(())
}

#[test]
fn a_sink_in_memory(rt: HostRuntime) -> Result<(), Fail> {
    let alloc = rt.alloc();
    let mut sink = MemSink::new(alloc, vec![in alloc; 1]?);
    assert_eq!(rt; sink.put(b"ab"), Ok(()));
    assert_eq!(rt; sink.put(b"cd"), Err(SinkFailed));
    assert_eq!(rt; sink.contents(), b"abc".as_slice());
    Ok(())
}

/// The answer for a program that is run with these words behind its name.
fn answer_with(
    alloc: Global,
    code: &[u32],
    more: &[&str],
) -> Result<(Answer, Vec<u8>), AllocError> {
    let bytes = file_of(alloc, code, &[])?;
    let mut folder = folder(alloc, bytes, Vec::new(alloc), Vec::new(alloc))?;
    let mut words = vec![in alloc; "solo"; 1]?;
    words.push(".")?;
    words.push("p")?;
    words.extend_from_slice(more)?;
    answer(alloc, &words, &mut folder, Vec::new(alloc))
}

#[test]
fn the_budget_that_the_words_give(rt: HostRuntime) -> Result<(), Fail> {
    for (budget, steps_made) in [("0", None), ("4", Some(4))] {
        let (answer, line) = answer_with(rt.alloc(), &EXITS, &["--budget", budget])?;
        let Ok(finished) = answer else {
            return Err("it finishes")?;
        };
        assert!(rt; matches!(finished.end, End::Budget));
        assert_eq!(rt; finished.status, 75);
        assert_eq!(rt; steps(&finished.journal), steps_made);
        let wanted = format!(in rt.alloc(); "rvuser: budget of {budget} events spent\n")?;
        assert_eq!(rt; line.as_slice(), wanted.as_str().as_bytes());
        assert_eq!(rt; contents(&finished.devices, 1), [].as_slice());
    }
    let (answer, line) = answer_with(rt.alloc(), &EXITS, &["--budget", "5"])?;
    let Ok(finished) = answer else {
        return Err("it finishes")?;
    };
    assert!(rt; matches!(finished.end, End::Exit(7)));
    assert_eq!(rt; finished.journal.budget(), 5);
    assert_eq!(rt; line.as_slice(), b"".as_slice());
    Ok(())
}

#[test]
fn a_program_finds_the_number_of_its_arguments(rt: HostRuntime) -> Result<(), Fail> {
    // ld a0, 0(sp), and the end with a0
    let code = [0x0001_3503, 0x05E0_0893, 0x0000_0073];
    for (more, status) in [
        (["--", "x"].as_slice(), 2),
        (&["--", "", "--", "-y"], 4),
        (&[], 1),
    ] {
        let (answer, _) = answer_with(rt.alloc(), &code, more)?;
        let Ok(finished) = answer else {
            return Err("it finishes")?;
        };
        assert_eq!(rt; finished.status, status);
    }
    Ok(())
}

#[test]
fn a_program_writes_its_environment(rt: HostRuntime) -> Result<(), Fail> {
    // ld a1, 24(sp), which is the address of the first text of the environment; three of its bytes to descriptor 1
    let code = [
        0x0181_3583,
        0x0010_0513,
        0x0030_0613,
        0x0400_0893,
        0x0000_0073,
        0x0000_0513,
        0x05E0_0893,
        0x0000_0073,
    ];
    let (answer, _) = answer_with(rt.alloc(), &code, &["--env", "K=v", "--env", "L=w"])?;
    let Ok(finished) = answer else {
        return Err("it finishes")?;
    };
    assert_eq!(rt; finished.status, 0);
    assert_eq!(rt; contents(&finished.devices, 1), b"K=v".as_slice());
    Ok(())
}

#[test]
fn a_program_stores_on_its_stack(rt: HostRuntime) -> Result<(), Fail> {
    // li a0, 9; sd a0, -16(sp); li a0, 0; ld a0, -16(sp); and the end with a0
    let code = [
        0x0090_0513,
        0xFEA1_3823,
        0x0000_0513,
        0xFF01_3503,
        0x05E0_0893,
        0x0000_0073,
    ];
    let (answer, _) = answer_with(rt.alloc(), &code, &[])?;
    let Ok(finished) = answer else {
        return Err("it finishes")?;
    };
    assert_eq!(rt; finished.status, 9);
    Ok(())
}

#[test]
fn texts_that_are_too_long_for_the_stack(rt: HostRuntime) -> Result<(), Fail> {
    // the name twice and the argument, each with a zero, 16 random bytes, and 33 words
    for (length, size) in [
        (130_787, None),
        (130_788, Some(131_073)),
        (131_072, Some(131_357)),
    ] {
        let text = vec![in rt.alloc(); b'x'; length]?;
        let argument = String::from_utf8(text)?;
        let (answer, line) = answer_with(rt.alloc(), &EXITS, &["--", argument.as_str()])?;
        match (answer, size) {
            (Ok(finished), None) => assert_eq!(rt; finished.status, 7),
            (Err(fault), Some(size)) => {
                assert!(rt; matches!(fault.cause, Cause::StackTooLong { .. }));
                assert_eq!(rt; fault.cause.status(), 65);
                let wanted = format!(in rt.alloc(); "rvuser: stack texts of {size} bytes\n")?;
                assert_eq!(rt; line.as_slice(), wanted.as_str().as_bytes());
            }
            _ => assert!(rt; false),
        }
    }
    Ok(())
}
