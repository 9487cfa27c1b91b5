use super::*;
use elf_build::whole_program;
use elf_file::read;
use file_table::Files;
use file_tree::{Text, Tree};
use guest_core::{End, FIRST_THREAD, start};
use std::alloc::{AllocError, Global};
use std::test::Fail;

/// Ends with 7: two instructions and a call.
const EXITS: [u32; 3] = [0x0070_0513, 0x05E0_0893, 0x0000_0073];

const TICK: Label = Label::Tick;

const INSTR: Label = Label::Instr(FIRST_THREAD);

const CALL: Label = Label::Call(FIRST_THREAD);

/// The labels of that program's five steps, of which two have no label but a tick.
const LABELS: [Label; 8] = [TICK, INSTR, TICK, INSTR, TICK, TICK, TICK, CALL];

/// An empty tree, and three devices as descriptors 0 to 2.
fn files(alloc: Global) -> Result<Files, AllocError> {
    let tree = Tree::new(alloc)?;
    Files::new(alloc, tree, 3, None)
}

/// The process of a file of these words, which stand at 0x10078, with data behind them.
fn process(alloc: Global, words: &[u32], data: &[u8]) -> Result<Process, Fail> {
    let bytes = whole_program(alloc, words, data)?;
    let elf = read(alloc, &bytes)?;
    let name = [Text::new(alloc, "a")?];
    Ok(Process::of(start(alloc, &elf, &name, &[], files(alloc)?)?))
}

#[test]
fn ends_with_its_code(rt: HostRuntime) -> Result<(), Fail> {
    let process = follow(process(rt.alloc(), &EXITS, &[])?, &LABELS)?;
    assert!(rt; matches!(process.ended(), Some(End::Exit(7))));
    match process.regs(FIRST_THREAD) {
        Some(regs) => assert_eq!(rt; regs.register(17), 94),
        None => assert!(rt; false),
    }
    assert!(rt; process.regs(1001).is_none());
    assert_eq!(rt; process.output(1), Some([].as_slice()));
    assert_eq!(rt; process.output(3), None);
    Ok(())
}

#[test]
fn lives_before_the_last_label(rt: HostRuntime) -> Result<(), Fail> {
    let process = follow(process(rt.alloc(), &EXITS, &[])?, &LABELS[..7])?;
    assert!(rt; process.ended().is_none());
    Ok(())
}

#[test]
fn the_first_label_that_is_not_allowed(rt: HostRuntime) -> Result<(), Fail> {
    let illegal = [0, 0, 0];
    let table: [(&[u32; 3], &[Label], usize); 6] = [
        // a call while a signal is due
        (&illegal, &[TICK, INSTR, CALL], 2),
        // an instruction while a signal is due
        (&illegal, &[INSTR, INSTR], 1),
        // a signal that isn't there
        (&illegal, &[INSTR, Label::Take(FIRST_THREAD, 1)], 1),
        // another thread
        (&EXITS, &[TICK, Label::Instr(1001)], 1),
        // an instruction at an ecall
        (&EXITS, &[INSTR, INSTR, INSTR], 2),
        // after the end
        (&illegal, &[INSTR, Label::Take(FIRST_THREAD, 0), TICK], 2),
    ];
    for (words, labels, index) in table {
        match follow(process(rt.alloc(), words, &[])?, labels) {
            Err(FollowFault::NotAllowed(found)) => assert_eq!(rt; found, index),
            _ => assert!(rt; false, "at {index}"),
        }
    }
    Ok(())
}

#[test]
fn writes_to_its_device(rt: HostRuntime) -> Result<(), Fail> {
    // write(1, 0x1009C, 3), and exit_group(0)
    let words = [
        0x0001_05B7,
        0x09C5_8593,
        0x0010_0513,
        0x0030_0613,
        0x0400_0893,
        0x0000_0073,
        0x0000_0533,
        0x05E0_0893,
        0x0000_0073,
    ];
    // fourteen steps: a call takes three before its answer reaches the registers, and one for that
    let labels = [
        TICK, INSTR, TICK, INSTR, TICK, INSTR, TICK, INSTR, TICK, INSTR, TICK, TICK, TICK, CALL,
        TICK, TICK, INSTR, TICK, INSTR, TICK, TICK, TICK, CALL,
    ];
    let process = follow(process(rt.alloc(), &words, b"hi\n")?, &labels)?;
    assert_eq!(rt; process.output(1), Some(b"hi\n".as_slice()));
    assert_eq!(rt; process.output(0), Some([].as_slice()));
    assert!(rt; matches!(process.ended(), Some(End::Exit(0))));
    Ok(())
}
