ghost use Rattle.std.specs.Prelude.{◌≡◌, ◌≤◌, length, vec_len, IfOk};

use super::*;
use elf_build::{ElfHeader, ProgramHeader, file, zeros};
use elf_file::{Elf, read};
use file_tree::Text;
use guest_pages::{PageFault, Pages, Rights, Width};
use std::alloc::{AllocError, Global};
use std::process::Abort;
use std::test::Fail;

const END: u64 = 0x3F_FFFF_E000;

const START: u64 = 0x3F_FF7F_E000;

const NONE: Rights = Rights {
    read: false,
    write: false,
    execute: false,
};

const READ: Rights = Rights {
    read: true,
    write: false,
    execute: false,
};

const BOTH: Rights = Rights {
    read: true,
    write: true,
    execute: false,
};

const ALL: Rights = Rights {
    read: true,
    write: true,
    execute: true,
};

/// A file of one segment at 0x10000, whose two program headers stand at 0x10040. It begins at 0x10078.
fn sample(alloc: Global) -> Result<Elf, Fail> {
    let parts = [
        // loaded from the file's first byte on, readable and executable
        ProgramHeader {
            file_size: 176,
            ..zeros(5, 0x10000, 4096)
        },
        // of another type
        ProgramHeader {
            kind: 0x6474_E551,
            ..zeros(0, 0, 0)
        },
    ];
    let bytes = file(alloc, ElfHeader::new(2, 0x10078, 2), &parts, &[])?;
    Ok(read(alloc, &bytes)?)
}

fn texts(alloc: Global, list: &[&str]) -> Result<Vec<Text>, AllocError>
    ensures { IfOk result (λ made. vec_len made ≡ length list.now) }
{
    let mut made = Vec::new(alloc);
    for text in list {
        made.push(Text::new(alloc, text)?)?;
    }
    Ok(made)
}

/// A text of that many bytes.
fn long(alloc: Global, size: usize) -> Result<Text, AllocError> {
    let mut string = String::new(alloc);
    for _ in 0..size {
        string.push('x')?;
    }
    Ok(Text::from_string(string))
}

/// The words that stand from an address on.
fn assert_words(rt: &impl Abort, pages: &Pages, sp: u64, words: &[u64])
    requires { length words.now ≤ 64 }
{
    let mut at = sp;
    for word in words {
        assert_eq!(rt; pages.load(at, Width::Eight), Ok(*word), "at {at}");
        at = at.wrapping_add(8);
    }
}

#[test]
fn a_program_with_no_arguments(rt: HostRuntime) -> Result<(), Fail> {
    let elf = sample(rt.alloc())?;
    let args = texts(rt.alloc(), &["a"])?;
    let mut pages = Pages::new();
    let sp = place(rt.alloc(), &mut pages, &elf, &args, &[])?;
    assert_eq!(rt; sp, 0x3F_FFFF_DEE0);
    assert_eq!(rt; size_of(&args, &[]), 20 + 256);
    let words = [
        1,
        0x3F_FFFF_DFE0,
        0,
        0,
        3,
        0x10040,
        4,
        56,
        5,
        2,
        6,
        4096,
        9,
        0x10078,
        11,
        1000,
        12,
        1000,
        13,
        1000,
        14,
        1000,
        16,
        0x1105,
        23,
        0,
        25,
        0x3F_FFFF_DFE4,
        31,
        0x3F_FFFF_DFE2,
        0,
        0,
    ];
    assert_words(&rt, &pages, sp, &words);
    let mut block = [0xFF; 32];
    assert_eq!(rt; pages.copy_out(0x3F_FFFF_DFE0, &mut block), Ok(()));
    let bytes = [
        b'a', 0, b'a', 0, 13, 180, 91, 2, 169, 80, 247, 158, 69, 236, 147, 58, 225, 136, 47, 214,
        0, 0, 0, 0, 0, 0, 0, 0, 0, 0, 0, 0,
    ];
    assert_eq!(rt; block, bytes);
    Ok(())
}

#[test]
fn texts_of_both_lists_and_an_empty_one(rt: HostRuntime) -> Result<(), Fail> {
    let elf = sample(rt.alloc())?;
    let args = texts(rt.alloc(), &["prog", ""])?;
    let env = texts(rt.alloc(), &["A=1", "B="])?;
    let mut pages = Pages::new();
    let sp = place(rt.alloc(), &mut pages, &elf, &args, &env)?;
    // 35 words, an odd number
    assert_eq!(rt; sp, 0x3F_FFFF_DEB0);
    assert_eq!(rt; size_of(&args, &env), 34 + 280);
    let words = [
        2,
        0x3F_FFFF_DFD0,
        0x3F_FFFF_DFD5,
        0,
        0x3F_FFFF_DFD6,
        0x3F_FFFF_DFDA,
        0,
        3,
        0x10040,
        4,
        56,
        5,
        2,
        6,
        4096,
        9,
        0x10078,
        11,
        1000,
        12,
        1000,
        13,
        1000,
        14,
        1000,
        16,
        0x1105,
        23,
        0,
        25,
        0x3F_FFFF_DFE2,
        31,
        0x3F_FFFF_DFDD,
        0,
        0,
        0,
    ];
    assert_words(&rt, &pages, sp, &words);
    let mut block = [0xFF; 20];
    assert_eq!(rt; pages.copy_out(0x3F_FFFF_DFD0, &mut block), Ok(()));
    assert_eq!(rt; block, *b"prog\0\0A=1\0B=\0prog\0\x0D\xB4");
    Ok(())
}

#[test]
fn the_stack_pointer_is_a_multiple_of_16(rt: HostRuntime) -> Result<(), Fail> {
    let elf = sample(rt.alloc())?;
    let args = texts(rt.alloc(), &["a"])?;
    let names = ["V=", "V=1", "V=12", "V=123", "V=1234"];
    for count in 0..names.len() {
        let env = texts(rt.alloc(), &names[..count])?;
        let mut pages = Pages::new();
        let sp = place(rt.alloc(), &mut pages, &elf, &args, &env)?;
        assert_eq!(rt; sp % 16, 0, "with {count} texts");
        assert_eq!(rt; pages.load(sp, Width::Eight), Ok(1), "with {count} texts");
    }
    Ok(())
}

#[test]
fn the_stack_is_8_mib_of_zeros_but_for_the_two(rt: HostRuntime) -> Result<(), Fail> {
    let elf = sample(rt.alloc())?;
    let args = texts(rt.alloc(), &["a"])?;
    let mut pages = Pages::new();
    pages.map(rt.alloc(), START - 4096, 2050, ALL)?;
    assert_eq!(rt; pages.store(START - 8, Width::Eight, 5), Ok(()));
    assert_eq!(rt; pages.store(START, Width::Eight, 6), Ok(()));
    assert_eq!(rt; pages.store(END, Width::Eight, 7), Ok(()));
    let sp = place(rt.alloc(), &mut pages, &elf, &args, &[])?;
    assert_eq!(rt; pages.load(START - 8, Width::Eight), Ok(5));
    assert_eq!(rt; pages.load(START, Width::Eight), Ok(0));
    assert_eq!(rt; pages.load(sp - 8, Width::Eight), Ok(0));
    assert_eq!(rt; pages.load(END - 8, Width::Eight), Ok(0));
    assert_eq!(rt; pages.load(END, Width::Eight), Ok(7));
    assert_eq!(rt; pages.allows(START, 0x80_0000, BOTH), Ok(()));
    assert_eq!(rt; pages.fetch(START), Err(PageFault::NoAccess(START)));
    assert_eq!(rt; pages.fetch(END - 2), Err(PageFault::NoAccess(END - 2)));
    Ok(())
}

#[test]
fn no_more_bytes_than_131072(rt: HostRuntime) -> Result<(), Fail> {
    let elf = sample(rt.alloc())?;
    let args = texts(rt.alloc(), &["a"])?;
    let mut pages = Pages::new();
    // 2 bytes of the argument, 2 of the program's name, 16 random ones, 33 words, and a zero behind the text
    let mut env = Vec::new(rt.alloc());
    env.push(long(rt.alloc(), 130_788)?)?;
    assert_eq!(rt; size_of(&args, &env), 131_073);
    assert_eq!(rt;
        place(rt.alloc(), &mut pages, &elf, &args, &env),
        Err(StackFault::TooLong { size: 131_073 })
    );
    assert_eq!(rt;
        pages.load(START, Width::Eight),
        Err(PageFault::NotMapped(START))
    );
    env.clear();
    env.push(long(rt.alloc(), 130_787)?)?;
    assert_eq!(rt; size_of(&args, &env), 131_072);
    assert_eq!(rt;
        place(rt.alloc(), &mut pages, &elf, &args, &env),
        Ok(0x3F_FFFD_DFF0)
    );
    Ok(())
}

#[test]
fn a_program_name_is_counted_twice(rt: HostRuntime) -> Result<(), Fail> {
    let mut args = Vec::new(rt.alloc());
    args.push(long(rt.alloc(), 65_399)?)?;
    assert_eq!(rt; size_of(&args, &[]), 131_072);
    Ok(())
}

#[test]
fn no_more_pages_than_65536(rt: HostRuntime) -> Result<(), Fail> {
    let elf = sample(rt.alloc())?;
    let args = texts(rt.alloc(), &["a"])?;
    let mut pages = Pages::new();
    pages.map(rt.alloc(), 0x1000, 63_489, READ)?;
    assert_eq!(rt;
        place(rt.alloc(), &mut pages, &elf, &args, &[]),
        Err(StackFault::PagesFull { wanted: 65_537 })
    );
    assert_eq!(rt;
        pages.load(START, Width::Eight),
        Err(PageFault::NotMapped(START))
    );
    assert_eq!(rt; pages.allows(0x1000, 4096 * 63_489, READ), Ok(()));
    pages.protect(rt.alloc(), 0x1000, 1, NONE)?;
    assert_eq!(rt;
        place(rt.alloc(), &mut pages, &elf, &args, &[]),
        Ok(0x3F_FFFF_DEE0)
    );
    Ok(())
}
