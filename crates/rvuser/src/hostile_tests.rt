use crate::tests::{WRITES_HI, answer_to, file_of, killed_by};
use std::alloc::{AllocError, Global};
use std::test::Fail;

/// What becomes of a file.
#[derive(Clone, Copy, Debug, PartialEq, Eq)]
enum Outcome {
    /// It writes `hi` and a newline, and ends with 0.
    Writes,
    /// It ends at an illegal instruction.
    IsIllegal,
    /// It isn't started, and this stands on the notes.
    Refused(&'static str),
}

const SHORT: Outcome = Outcome::Refused("rvuser: not runnable: Short\n");

const NOT_ELF: Outcome = Outcome::Refused("rvuser: not runnable: NotElf\n");

const NOT_RISCV: Outcome = Outcome::Refused("rvuser: not runnable: NotRiscv\n");

const KIND: Outcome = Outcome::Refused("rvuser: not runnable: Kind\n");

const FLOAT_ABI: Outcome = Outcome::Refused("rvuser: not runnable: FloatAbi\n");

const BAD_SEGMENT: Outcome = Outcome::Refused("rvuser: not runnable: BadSegment 0\n");

const ENTRY: Outcome = Outcome::Refused("rvuser: not runnable: Entry\n");

/// The file that writes `hi`: its program header stands at 64, and its segment of 39 bytes, from offset 4096 of a file
/// of 4135 bytes, at 0x10000.
fn writes_hi(alloc: Global) -> Result<Vec<u8>, AllocError> {
    file_of(alloc, &WRITES_HI, b"hi\n")
}

/// The file with bytes changed from a place on.
fn changed(alloc: Global, place: usize, values: &[u8]) -> Result<Vec<u8>, AllocError> {
    let mut bytes = writes_hi(alloc)?;
    let mut place = place;
    for value in values {
        if place < bytes.len() {
            bytes[place] = *value;
            place += 1;
        }
    }
    Ok(bytes)
}

/// What becomes of the file where the byte at this place is 0.
fn with_zero(place: usize) -> Outcome {
    match place {
        // its identity
        0..=6 => NOT_ELF,
        // type 0, machine 0
        16 => KIND,
        18 => NOT_RISCV,
        // entry 0
        26 => ENTRY,
        // the program header stands at 0, whose type is that of the magic: nothing is loaded
        32 => ENTRY,
        54 => Outcome::Refused("rvuser: not runnable: HeaderSize 0\n"),
        // no program header, a type of 0, no permission: nothing can be executed
        56 | 64 | 68 => ENTRY,
        // the segment's bytes begin with the file's, which begin with no instruction
        73 => Outcome::IsIllegal,
        // the segment stands at 0
        82 => BAD_SEGMENT,
        // no byte is from the file, and 0 is no instruction
        96 => Outcome::IsIllegal,
        // no byte in memory
        104 => BAD_SEGMENT,
        _ => Outcome::Writes,
    }
}

/// What becomes of the file where the byte at this place is 255.
fn with_ones(place: usize) -> Outcome {
    match place {
        0..=6 => NOT_ELF,
        16 | 17 => KIND,
        18 | 19 => NOT_RISCV,
        // an odd entry, or one behind the segment
        24..=31 => ENTRY,
        // the program header stands at 255, where bytes are 0: nothing is loaded
        32 => ENTRY,
        // behind the file
        33..=39 => SHORT,
        48 => FLOAT_ABI,
        54 => Outcome::Refused("rvuser: not runnable: HeaderSize 255\n"),
        55 => Outcome::Refused("rvuser: not runnable: HeaderSize 65336\n"),
        // 255 program headers, or 65281
        56 | 57 => SHORT,
        // another type: nothing is loaded
        64..=67 => ENTRY,
        // a segment that can be written and executed
        68 => Outcome::Refused("rvuser: not runnable: WritableCode 0\n"),
        // its bytes end behind the file
        72..=79 => BAD_SEGMENT,
        // it stands behind the entry
        80..=83 => ENTRY,
        // it stands too high
        84..=87 => BAD_SEGMENT,
        // it has more bytes in the file than in memory
        96..=103 => BAD_SEGMENT,
        // 0xFF000027 bytes
        107 => Outcome::Refused("rvuser: 1046530 pages wanted\n"),
        // it ends too high
        108..=111 => BAD_SEGMENT,
        _ => Outcome::Writes,
    }
}

/// What became of a file.
fn agrees(alloc: Global, bytes: Vec<u8>, outcome: Outcome) -> Result<bool, AllocError> {
    let (answer, line) = answer_to(alloc, bytes)?;
    let line = line.as_slice();
    Ok(match (answer, outcome) {
        (Ok(finished), Outcome::Writes) => finished.status == 0 && line.is_empty(),
        (Ok(finished), Outcome::IsIllegal) => {
            killed_by(&finished.end) == Some(4)
                && line == b"rvuser: killed by signal 4\n".as_slice()
        }
        (Err(fault), Outcome::Refused(text)) => {
            fault.cause.status() == 65 && fault.journal.count() == 0 && line == text.as_bytes()
        }
        _ => false,
    })
}

#[test]
fn a_file_that_is_cut_in_its_headers(rt: HostRuntime) -> Result<(), Fail> {
    for length in 0..121 {
        let mut bytes = writes_hi(rt.alloc())?;
        bytes.truncate(length);
        let outcome = if length < 120 { SHORT } else { BAD_SEGMENT };
        assert!(rt; agrees(rt.alloc(), bytes, outcome)?, "{length} bytes");
    }
    Ok(())
}

#[test]
fn each_byte_of_the_headers_is_zero_or_all_ones(rt: HostRuntime) -> Result<(), Fail> {
    for place in 0..120 {
        let bytes = changed(rt.alloc(), place, &[0])?;
        assert!(rt;
            agrees(rt.alloc(), bytes, with_zero(place))?,
            "byte {place} is 0"
        );
        let bytes = changed(rt.alloc(), place, &[255])?;
        assert!(rt;
            agrees(rt.alloc(), bytes, with_ones(place))?,
            "byte {place} is 255"
        );
    }
    Ok(())
}

#[test]
fn fields_at_their_types_end(rt: HostRuntime) -> Result<(), Fail> {
    let table: [(usize, u64, Outcome); 13] = [
        // the entry
        (24, u64::MAX, ENTRY),
        (24, u64::MAX - 1, ENTRY),
        // the place of the program headers: their end is 2^64, or behind it
        (32, u64::MAX, SHORT),
        (32, u64::MAX - 55, SHORT),
        // the segment's place in the file: its end is 2^64, or behind it
        (72, u64::MAX, BAD_SEGMENT),
        (72, u64::MAX - 38, BAD_SEGMENT),
        // its address: its end is 2^64, or behind it
        (80, u64::MAX, BAD_SEGMENT),
        (80, u64::MAX - 38, BAD_SEGMENT),
        (80, u64::MAX - 37, BAD_SEGMENT),
        // its bytes in the file, and in memory
        (96, u64::MAX, BAD_SEGMENT),
        (104, u64::MAX, BAD_SEGMENT),
        (104, u64::MAX - 0xFFFF, BAD_SEGMENT),
        (104, u64::MAX - 0x10000, BAD_SEGMENT),
    ];
    for (place, value, outcome) in table {
        let bytes = changed(rt.alloc(), place, &value.to_le_bytes())?;
        assert!(rt;
            agrees(rt.alloc(), bytes, outcome)?,
            "{value} stands at {place}"
        );
    }
    Ok(())
}

#[test]
fn sixty_five_thousand_program_headers(rt: HostRuntime) -> Result<(), Fail> {
    let bytes = changed(rt.alloc(), 56, &[255, 255])?;
    assert!(rt; agrees(rt.alloc(), bytes, SHORT)?);
    Ok(())
}

#[test]
fn a_segment_of_no_byte(rt: HostRuntime) -> Result<(), Fail> {
    let bytes = changed(rt.alloc(), 96, &[0; 16])?;
    assert!(rt; agrees(rt.alloc(), bytes, ENTRY)?);
    Ok(())
}

#[test]
fn one_page_too_many(rt: HostRuntime) -> Result<(), Fail> {
    // with 2,049 pages of the stack and the trampoline: 63,487 pages and a byte; and a segment that covers 63,488 by where
    // it stands
    let bytes = changed(rt.alloc(), 104, &0x0F7F_F001u64.to_le_bytes())?;
    let refused = Outcome::Refused("rvuser: 65537 pages wanted\n");
    assert!(rt; agrees(rt.alloc(), bytes, refused)?);
    let mut bytes = changed(rt.alloc(), 104, &0x0F7F_F000u64.to_le_bytes())?;
    if bytes.len() < 4096 {
        return Err("the file has its text at 4096")?;
    }
    bytes[24] = 2;
    bytes[80] = 2;
    assert!(rt; agrees(rt.alloc(), bytes, refused)?);
    Ok(())
}
