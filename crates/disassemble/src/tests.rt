use crate::fault::Fault;
use crate::listing::write_listing;
use std::io::{Error, ErrorKind, Read, Result as IoResult, Write};
use std::test::Fail;

/// A reader that always fails.
#[derive(Drop)]
struct Broken {
    kind: ErrorKind,
}

impl Read for Broken {
    fn read(&mut self, _buffer: &mut [u8]) -> IoResult<usize> {
        Err(Error::from(self.kind))
    }
}

/// `addi x10, x0, 7`, and a half word that does nothing.
const WORDS: [u8; 8] = [0x13, 0x05, 0x70, 0x00, 0x01, 0x00, 0xFF, 0xFF];

#[test]
fn lines_are_written_behind_what_is_there(rt: HostRuntime) -> Result<(), Fail> {
    let mut output = Vec::new(rt.alloc());
    output.write_all(b">")?;
    let result = write_listing(rt.alloc(), &mut WORDS.as_slice(), &mut output);
    assert!(rt; result.is_ok());
    assert_eq!(rt;
        output.as_slice(),
        b">addi x10, x0, 7\naddi x0, x0, 0\n".as_slice()
    );
    Ok(())
}

#[test]
fn nothing_is_written_of_a_part_of_a_word(rt: HostRuntime) -> Result<(), Fail> {
    let mut output = Vec::new(rt.alloc());
    let result = write_listing(rt.alloc(), &mut &WORDS[..7], &mut output);
    assert!(rt; matches!(result, Err(Fault::PartOfAWord)));
    assert!(rt; output.is_empty());
    Ok(())
}

#[test]
fn a_failed_read_is_told_as_what_it_is(rt: HostRuntime) {
    let mut output = Vec::new(rt.alloc());
    let mut broken = Broken {
        kind: ErrorKind::Other,
    };
    let result = write_listing(rt.alloc(), &mut broken, &mut output);
    assert!(rt; matches!(result, Err(Fault::Stream)));
    let mut broken = Broken {
        kind: ErrorKind::OutOfMemory,
    };
    let result = write_listing(rt.alloc(), &mut broken, &mut output);
    assert!(rt; matches!(result, Err(Fault::Memory)));
    assert!(rt; output.is_empty());
}
