use super::*;
use guest_pages::{PageFault, Pages, Rights, Width};
use isa_decode::AmoOp;
use std::alloc::Global;
use std::test::Fail;

const FIRST: u32 = 1000;

const SECOND: u32 = 1001;

const AT: u64 = 0x1_0008;

/// Two pages from 0x10000 on, of which the second can only be read.
fn memory(alloc: Global) -> Result<Pages, Fail> {
    let mut pages = Pages::new();
    let all = Rights {
        read: true,
        write: true,
        execute: false,
    };
    let only_read = Rights {
        read: true,
        write: false,
        execute: false,
    };
    if pages.map(alloc, 0x1_0000, 1, all).is_err() {
        return Err("the first page is mapped")?;
    }
    if pages.map(alloc, 0x1_1000, 1, only_read).is_err() {
        return Err("the second page is mapped")?;
    }
    Ok(pages)
}

#[tactic(auto, unfolding(crate::specs::Reservations::is_there, crate::specs::Reservations::joined))]
fn threads(alloc: Global) -> Result<Reservations, Fail> {
    let mut held = Reservations::new(alloc);
    held.add_thread(FIRST)?;
    held.add_thread(SECOND)?;
    Ok(held)
}

#[test]
fn a_store_of_another_thread_ends_the_reservation_whatever_it_writes(
    rt: HostRuntime,
) -> Result<(), Fail> {
    let mut pages = memory(rt.alloc())?;
    let mut held = threads(rt.alloc())?;
    assert_eq!(rt; pages.store(AT, Width::Eight, 5), Ok(()));
    assert_eq!(rt; load_reserved(&pages, &mut held, FIRST, AT, true), Ok(5));
    // another thread stores 9, and then the old value again
    for value in [9, 5] {
        assert_eq!(rt; pages.store(AT, Width::Eight, value), Ok(()));
        held.stored(SECOND, AT, 8);
    }
    assert_eq!(rt;
        store_conditional(&mut pages, &mut held, FIRST, AT, true, 7),
        Ok(false)
    );
    assert_eq!(rt; pages.load(AT, Width::Eight), Ok(5));
    // without these stores it stands, once
    assert_eq!(rt; load_reserved(&pages, &mut held, FIRST, AT, true), Ok(5));
    assert_eq!(rt;
        store_conditional(&mut pages, &mut held, FIRST, AT, true, 7),
        Ok(true)
    );
    assert_eq!(rt; pages.load(AT, Width::Eight), Ok(7));
    assert_eq!(rt;
        store_conditional(&mut pages, &mut held, FIRST, AT, true, 8),
        Ok(false)
    );
    Ok(())
}

#[test]
fn a_reservation_is_of_its_doubleword(rt: HostRuntime) -> Result<(), Fail> {
    let mut pages = memory(rt.alloc())?;
    // a store at an offset from the doubleword, of so many bytes, and whether the reservation stands after it
    let table = [
        (AT - 1, 1, true),
        (AT - 1, 2, false),
        (AT, 0, true),
        (AT, 1, false),
        (AT + 7, 1, false),
        (AT + 8, 8, true),
        (AT - 8, 8, true),
        (AT - 8, 9, false),
    ];
    for (at, length, stands) in table {
        let mut held = threads(rt.alloc())?;
        // the upper word of the doubleword is reserved, and a store to the lower one is conditional on it
        assert_eq!(rt;
            load_reserved(&pages, &mut held, FIRST, AT + 4, false),
            Ok(0)
        );
        held.stored(FIRST, AT, 8);
        held.stored(SECOND, at, length);
        assert_eq!(rt;
            store_conditional(&mut pages, &mut held, FIRST, AT, false, 0),
            Ok(stands),
            "{length} bytes at {at:#x}"
        );
    }
    Ok(())
}

#[test]
fn ending_and_removing(rt: HostRuntime) -> Result<(), Fail> {
    let mut pages = memory(rt.alloc())?;
    let mut held = threads(rt.alloc())?;
    assert_eq!(rt; load_reserved(&pages, &mut held, FIRST, AT, true), Ok(0));
    assert_eq!(rt; load_reserved(&pages, &mut held, SECOND, AT, true), Ok(0));
    held.end(FIRST);
    assert_eq!(rt;
        store_conditional(&mut pages, &mut held, FIRST, AT, true, 1),
        Ok(false)
    );
    held.remove(FIRST);
    assert_eq!(rt;
        store_conditional(&mut pages, &mut held, SECOND, AT, true, 1),
        Ok(true)
    );
    Ok(())
}

#[test]
fn refusals_of_atomic_accesses(rt: HostRuntime) -> Result<(), Fail> {
    let mut pages = memory(rt.alloc())?;
    let mut held = threads(rt.alloc())?;
    // misaligned goes first, also where nothing is mapped
    assert_eq!(rt;
        load_reserved(&pages, &mut held, FIRST, 0x2_0004, true),
        Err(WordFault::Misaligned(0x2_0004))
    );
    assert_eq!(rt;
        load_reserved(&pages, &mut held, FIRST, 0x2_0004, false),
        Err(WordFault::Page(PageFault::NotMapped(0x2_0004)))
    );
    assert_eq!(rt;
        load_reserved(&pages, &mut held, FIRST, 0x1_1000, true),
        Ok(0)
    );
    assert_eq!(rt;
        store_conditional(&mut pages, &mut held, FIRST, 0x1_1000, true, 1),
        Err(WordFault::Page(PageFault::NoAccess(0x1_1000)))
    );
    assert_eq!(rt;
        amo(
            &mut pages,
            &mut held,
            FIRST,
            0x1_1000,
            AmoOp::Amoor,
            false,
            1
        ),
        Err(WordFault::Page(PageFault::NoAccess(0x1_1000)))
    );
    assert_eq!(rt;
        amo(
            &mut pages,
            &mut held,
            FIRST,
            0x1_0002,
            AmoOp::Amoor,
            false,
            1
        ),
        Err(WordFault::Misaligned(0x1_0002))
    );
    Ok(())
}

const LEAST: u64 = 0x8000_0000_0000_0000;

const ONES: u64 = u64::MAX;

/// Each operation on doublewords: the old value, the operand, and what is stored.
const DOUBLEWORDS: [(AmoOp, u64, u64, u64); 13] = [
    (AmoOp::Amoswap, 1, ONES, ONES),
    (AmoOp::Amoadd, ONES, 2, 1),
    (AmoOp::Amoadd, LEAST, LEAST, 0),
    (AmoOp::Amoxor, 0xF0F0, 0xFF00, 0x0FF0),
    (AmoOp::Amoand, 0xF0F0, 0xFF00, 0xF000),
    (AmoOp::Amoor, 0xF0F0, 0xFF00, 0xFFF0),
    (AmoOp::Amomin, LEAST, 1, LEAST),
    (AmoOp::Amomin, 1, ONES, ONES),
    (AmoOp::Amomax, LEAST, 1, 1),
    (AmoOp::Amomax, ONES, 0, 0),
    (AmoOp::Amominu, LEAST, 1, 1),
    (AmoOp::Amomaxu, LEAST, 1, LEAST),
    (AmoOp::Amomaxu, 1, ONES, ONES),
];

#[test]
fn operations_on_doublewords(rt: HostRuntime) -> Result<(), Fail> {
    let mut pages = memory(rt.alloc())?;
    let mut held = threads(rt.alloc())?;
    for (op, old, operand, stored) in DOUBLEWORDS {
        assert_eq!(rt; pages.store(AT, Width::Eight, old), Ok(()));
        assert_eq!(rt;
            amo(&mut pages, &mut held, FIRST, AT, op, true, operand),
            Ok(old),
            "{op:?} of {old:#x} and {operand:#x}"
        );
        assert_eq!(rt;
            pages.load(AT, Width::Eight),
            Ok(stored),
            "{op:?} of {old:#x} and {operand:#x}"
        );
    }
    Ok(())
}

/// Each operation on words, with other bits above the operand: the old value, the operand, what is stored.
const WORDS: [(AmoOp, u64, u64, u64); 13] = [
    (AmoOp::Amoswap, 1, 0xFFFF_FFFF_8000_0000, 0x8000_0000),
    (AmoOp::Amoadd, 0xFFFF_FFFF, 0x1_0000_0002, 1),
    (AmoOp::Amoadd, 0x8000_0000, 0x8000_0000, 0),
    (AmoOp::Amoxor, 0xF0F0, 0x5_0000_FF00, 0x0FF0),
    (AmoOp::Amoand, 0xF0F0, 0x5_0000_FF00, 0xF000),
    (AmoOp::Amoor, 0xF0F0, 0x5_0000_FF00, 0xFFF0),
    (AmoOp::Amomin, 0x8000_0000, 1, 0x8000_0000),
    (AmoOp::Amomin, 1, 0xFFFF_FFFF, 0xFFFF_FFFF),
    (AmoOp::Amomax, 0x8000_0000, 1, 1),
    (AmoOp::Amomax, 0xFFFF_FFFF, 0, 0),
    (AmoOp::Amominu, 0x8000_0000, 0x7_0000_0001, 1),
    (AmoOp::Amomaxu, 0x8000_0000, 1, 0x8000_0000),
    (AmoOp::Amomaxu, 1, 0x7_FFFF_FFFF, 0xFFFF_FFFF),
];

#[test]
fn operations_on_words(rt: HostRuntime) -> Result<(), Fail> {
    let mut pages = memory(rt.alloc())?;
    let mut held = threads(rt.alloc())?;
    for (op, old, operand, stored) in WORDS {
        // the word above stays as it is
        assert_eq!(rt;
            pages.store(
                AT,
                Width::Eight,
                0x1234_5678_0000_0000 + old % 0x1_0000_0000
            ),
            Ok(())
        );
        let extended = if old < 0x8000_0000 {
            old
        } else {
            0xFFFF_FFFF_0000_0000 + old % 0x1_0000_0000
        };
        assert_eq!(rt;
            amo(&mut pages, &mut held, FIRST, AT, op, false, operand),
            Ok(extended),
            "{op:?} of {old:#x} and {operand:#x}"
        );
        assert_eq!(rt;
            pages.load(AT, Width::Eight),
            Ok(0x1234_5678_0000_0000 + stored % 0x1_0000_0000),
            "{op:?} of {old:#x} and {operand:#x}"
        );
    }
    Ok(())
}
