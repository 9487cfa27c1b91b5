ghost use Rattle.std.specs.Prelude.{IfOk};
ghost use Rattle.guest_pages.specs.Apart.{IsApart};

use super::*;
use crate::executing::make_plain;
use guest_pages::{CHANGEABLE, NOTHING, Pages, READABLE, RUNNABLE, Width};
use isa_exec::Regs;
use std::alloc::Global;
use std::test::Fail;
use word_memory::Reservations;

const THREAD: u32 = 1000;

/// Code at 0x10000, whose last half words lie at 0x10FFE; bytes that can only be read at 0x20000; a page without rights at
/// 0x30000; bytes that can be read and written at 0x40000. Nothing stands behind each.
fn memory(alloc: Global, at: u64, word: u32) -> Result<Pages, Fail> {
    let mut pages = Pages::new();
    let table = [
        (0x1_0000, CHANGEABLE),
        (0x2_0000, READABLE),
        (0x3_0000, NOTHING),
        (0x4_0000, CHANGEABLE),
    ];
    for (address, rights) in table {
        if pages.map(alloc, address, 1, rights).is_err() {
            return Err("a page is mapped")?;
        }
    }
    let half = pages.store(at, Width::Two, u64::from(word) % 0x1_0000);
    if half.is_err() {
        return Err("a half word is code")?;
    }
    if at < 0x1_0FFE && pages.store(at, Width::Four, u64::from(word)).is_err() {
        return Err("a word is code")?;
    }
    if pages.protect(alloc, 0x1_0000, 1, RUNNABLE).is_err() {
        return Err("the code can be executed")?;
    }
    Ok(pages)
}

/// The fault of the word at `at` where pc stands at `pc` and x10 holds `address`, its signal, code and address.
fn fault_of(
    alloc: Global,
    at: u64,
    word: u32,
    pc: u64,
    address: u64,
) -> Result<Option<(u8, u32, u64)>, Fail> {
    let mut pages = memory(alloc, at, word)?;
    let mut held = Reservations::new(alloc);
    let mut regs = Regs::starting_at(pc);
    regs.set_register(10, address);
    match make_instruction(THREAD, &mut regs, &mut pages, &mut held) {
        Ok(_) => Ok(None),
        Err(fault) => {
            let Fault {
                signal,
                code,
                address,
            } = fault;
            Ok(Some((signal.number(), code, address)))
        }
    }
}

// ld x12, 0(x10) and sd x11, 0(x10)
const LD: u32 = 0x0005_3603;

const SD: u32 = 0x00B5_3023;

// lr.d x12, (x10), sc.d x12, x11, (x10) and amoadd.d x12, x11, (x10)
const LR: u32 = 0x1005_362F;

const SC: u32 = 0x18B5_362F;

const AMOADD: u32 = 0x00B5_362F;

#[test]
fn each_fault_has_its_signal_code_and_address(rt: HostRuntime) -> Result<(), Fail> {
    const PC: u64 = 0x1_0000;
    // the word, where it and pc stand, x10, and the fault's signal, code and address
    let table = [
        // no instruction: of two bytes and of four
        (0, PC, PC, 0, (4, 1, PC)),
        (0xFFFF_FFFF, PC, PC, 0, (4, 1, PC)),
        // stops for a debugger
        (0x0010_0073, PC, PC, 0, (5, 1, PC)),
        (0x9002, PC, PC, 0, (5, 1, PC)),
        // code that isn't mapped, that can't be executed, and whose second half word isn't mapped
        (0, PC, 0x1_1000, 0, (11, 1, 0x1_1000)),
        (0, PC, 0x2_0000, 0, (11, 2, 0x2_0000)),
        (0x0000_0013, 0x1_0FFE, 0x1_0FFE, 0, (11, 1, 0x1_1000)),
        // accesses to what isn't mapped, of which the least bad address is told
        (LD, PC, PC, 0x2_1000, (11, 1, 0x2_1000)),
        (LD, PC, PC, 0x2_0FFC, (11, 1, 0x2_1000)),
        (SD, PC, PC, 0x4_1000, (11, 1, 0x4_1000)),
        (SD, PC, PC, 0x4_0FFF, (11, 1, 0x4_1000)),
        (LR, PC, PC, 0x2_1000, (11, 1, 0x2_1000)),
        (SC, PC, PC, 0x4_1000, (11, 1, 0x4_1000)),
        (AMOADD, PC, PC, 0x4_1000, (11, 1, 0x4_1000)),
        // accesses without the right
        (LD, PC, PC, 0x3_0008, (11, 2, 0x3_0008)),
        (SD, PC, PC, 0x2_0008, (11, 2, 0x2_0008)),
        (LR, PC, PC, 0x3_0008, (11, 2, 0x3_0008)),
        (SC, PC, PC, 0x2_0008, (11, 2, 0x2_0008)),
        (AMOADD, PC, PC, 0x2_0008, (11, 2, 0x2_0008)),
        // misaligned atomic accesses, also where nothing is mapped
        (LR, PC, PC, 0x4_0004, (7, 1, 0x4_0004)),
        (SC, PC, PC, 0x4_0004, (7, 1, 0x4_0004)),
        (AMOADD, PC, PC, 0x4_1004, (7, 1, 0x4_1004)),
    ];
    for (word, at, pc, address, fault) in table {
        assert_eq!(rt;
            fault_of(rt.alloc(), at, word, pc, address)?,
            Some(fault),
            "{word} at {address}"
        );
    }
    // a misaligned access that isn't atomic is made
    assert_eq!(rt; fault_of(rt.alloc(), PC, LD, PC, 0x4_0004)?, None);
    Ok(())
}

/// Makes the instruction at 0x10000 with x10 = 0x40000 and x11 = 7, and gives x12.
fn made(regs: &mut Regs, pages: &mut Pages, held: &mut Reservations) -> Result<u64, Fail> {
    regs.go_on_at(0x1_0000);
    match make_instruction(THREAD, regs, pages, held) {
        Ok(Made::Done) => Ok(regs.register(12)),
        Ok(Made::Call) => Err("no call")?,
        Err(_) => Err("no fault")?,
    }
}

#[test]
#[tactic(auto, unfolding(word_memory::specs::Reservations::is_there))]
fn a_conditional_store_tells_whether_it_stored(rt: HostRuntime) -> Result<(), Fail> {
    let alloc = rt.alloc();
    let mut held = Reservations::new(alloc);
    held.add_thread(THREAD)?;
    let mut regs = Regs::starting_at(0x1_0000);
    regs.set_register(10, 0x4_0000);
    regs.set_register(11, 7);
    // the reservation stands in one memory, and each word is made in a memory of its own
    let mut pages = memory(alloc, 0x1_0000, LR)?;
    assert_eq!(rt; made(&mut regs, &mut pages, &mut held)?, 0);
    let mut pages = memory(alloc, 0x1_0000, SC)?;
    assert_eq!(rt; made(&mut regs, &mut pages, &mut held)?, 0);
    assert_eq!(rt; pages.load(0x4_0000, Width::Eight), Ok(7));
    // it ended with the store
    regs.set_register(11, 8);
    assert_eq!(rt; made(&mut regs, &mut pages, &mut held)?, 1);
    assert_eq!(rt; pages.load(0x4_0000, Width::Eight), Ok(7));
    Ok(())
}

#[test]
fn a_decoder_remembers_what_it_found(rt: HostRuntime) -> Result<(), Fail> {
    let alloc = rt.alloc();
    // addi x10, x10, 1
    let mut pages = memory(alloc, 0x1_0000, 0x0015_0513)?;
    let mut held = Reservations::new(alloc);
    let mut decoder = Decoder::new(alloc)?;
    let mut regs = Regs::starting_at(0x1_0000);
    assert!(rt; !is_at_call(&regs, &pages));
    assert!(rt; make_plain(THREAD, &mut regs, &mut pages, &mut held, &mut decoder));
    assert_eq!(rt; regs.register(10), 1);
    assert_eq!(rt; regs.pc(), 0x1_0004);
    Ok(())
}

/// A word of code at 0x10000, and nothing else.
fn code(alloc: Global, word: u32) -> Result<Pages, Fail>
    ensures { IfOk result IsApart }
{
    let mut pages = Pages::new();
    pages.map(alloc, 0x1_0000, 1, CHANGEABLE)?;
    pages.store(0x1_0000, Width::Four, u64::from(word))?;
    pages.protect(alloc, 0x1_0000, 1, RUNNABLE)?;
    Ok(pages)
}

#[test]
fn a_loop_goes_on_to_the_limit(rt: HostRuntime) -> Result<(), Fail> {
    let alloc = rt.alloc();
    // jal x0, 0
    let mut pages = code(alloc, 0x0000_006F)?;
    let mut held = Reservations::new(alloc);
    let mut decoder = Decoder::new(alloc)?;
    let mut regs = Regs::starting_at(0x1_0000);
    assert_eq!(rt;
        run_plain(THREAD, &mut regs, &mut pages, &mut held, &mut decoder, 1000),
        1000
    );
    assert_eq!(rt; regs.pc(), 0x1_0000);
    Ok(())
}

#[test]
fn a_run_stops_in_front_of_a_fault(rt: HostRuntime) -> Result<(), Fail> {
    let alloc = rt.alloc();
    // addi x10, x10, 1
    let mut pages = code(alloc, 0x0015_0513)?;
    let mut held = Reservations::new(alloc);
    let mut decoder = Decoder::new(alloc)?;
    let mut regs = Regs::starting_at(0x1_0000);
    // behind it stands a half word of zeros, which is no instruction
    assert_eq!(rt;
        run_plain(THREAD, &mut regs, &mut pages, &mut held, &mut decoder, 1000),
        1
    );
    assert_eq!(rt; regs.register(10), 1);
    assert_eq!(rt; regs.pc(), 0x1_0004);
    Ok(())
}
