use super::*;
use elf_build::whole_program;
use elf_file::{Elf, read};
use file_table::Files;
use file_tree::{Text, Tree};
use std::alloc::{AllocError, Global};
use std::test::Fail;

/// `li a0,7; li a7,94; ecall`, which stand at 0x10078.
const EXITS: [u32; 3] = [0x0070_0513, 0x05E0_0893, 0x0000_0073];

const STEP: Event = Event::Step(FIRST_THREAD);

/// An empty tree, and three devices as descriptors 0 to 2.
fn files(alloc: Global) -> Result<Files, AllocError> {
    let tree = Tree::new(alloc)?;
    Files::new(alloc, tree, 3, None)
}

fn started(alloc: Global) -> Result<Core, Fail> {
    let bytes = whole_program(alloc, &EXITS, &[])?;
    let elf: Elf = read(alloc, &bytes)?;
    let name = [Text::new(alloc, "a")?];
    Ok(start(alloc, &elf, &name, &[], files(alloc)?)?)
}

#[test]
fn a_run_up_to_its_end(rt: HostRuntime) -> Result<(), Fail> {
    let mut core = started(rt.alloc())?;
    assert_eq!(rt; core.devices(), 3);
    assert!(rt; core.enabled(&STEP));
    assert!(rt; !core.enabled(&Event::Step(1001)));
    assert_eq!(rt; core.event(&Event::Step(1001)), Err(CoreRefusal::NotNow));
    assert_eq!(rt; core.event(&STEP), Ok(()));
    match core.regs(FIRST_THREAD) {
        Some(regs) => {
            assert_eq!(rt; regs.pc(), 0x1007C);
            assert_eq!(rt; regs.register(10), 7);
        }
        None => assert!(rt; false),
    }
    assert!(rt; core.regs(1001).is_none());
    assert_eq!(rt; core.place(FIRST_THREAD), Some(Place::Loop));
    assert_eq!(rt; core.place(1001), None);
    assert_eq!(rt; core.flag(FIRST_THREAD), Some(false));
    assert_eq!(rt; core.flag(1001), None);
    assert_eq!(rt; core.run_events(&[STEP, STEP, STEP]), Ok(()));
    assert!(rt; core.ended().is_none());
    // the fifth step ends the process, and the sixth isn't enabled
    assert_eq!(rt;
        core.run_events(&[STEP, STEP]),
        Err((1, CoreRefusal::NotNow))
    );
    assert!(rt; matches!(core.ended(), Some(End::Exit(7))));
    if core.devices() > 1 {
        assert_eq!(rt; core.output(1), [].as_slice());
    }
    Ok(())
}

#[test]
fn a_run_ahead_stops_before_the_call(rt: HostRuntime) -> Result<(), Fail> {
    let mut core = started(rt.alloc())?;
    assert_eq!(rt; core.run_on(1001, 10), 0);
    assert_eq!(rt; core.run_on(FIRST_THREAD, 1), 1);
    assert_eq!(rt; core.run_on(FIRST_THREAD, 10), 1);
    match core.regs(FIRST_THREAD) {
        Some(regs) => {
            assert_eq!(rt; regs.pc(), 0x10080);
            assert_eq!(rt; regs.register(10), 7);
            assert_eq!(rt; regs.register(17), 94);
        }
        None => assert!(rt; false),
    }
    assert_eq!(rt; core.run_on(FIRST_THREAD, 10), 0);
    // the call has a place of its own, and nothing is made ahead there
    assert_eq!(rt; core.run_events(&[STEP]), Ok(()));
    assert_eq!(rt; core.run_on(FIRST_THREAD, 10), 0);
    assert_eq!(rt; core.run_events(&[STEP, STEP]), Ok(()));
    assert!(rt; matches!(core.ended(), Some(End::Exit(7))));
    assert_eq!(rt; core.run_on(FIRST_THREAD, 10), 0);
    Ok(())
}
