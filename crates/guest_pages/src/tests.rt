ghost use Rattle.std.specs.Prelude.{◌≡◌, ◌+◌, ◌%◌, ◌≤◌, ◌^◌};

use super::*;
use std::alloc::Global;
use std::test::Fail;

const NONE: Rights = Rights {
    read: false,
    write: false,
    execute: false,
};

const READ: Rights = Rights {
    read: true,
    write: false,
    execute: false,
};

const BOTH: Rights = Rights {
    read: true,
    write: true,
    execute: false,
};

const CODE: Rights = Rights {
    read: false,
    write: false,
    execute: true,
};

#[test]
fn numbers_go_across_pages(rt: HostRuntime) -> Result<(), Fail> {
    let mut pages = Pages::new();
    pages.map(rt.alloc(), 0x1000, 2, BOTH)?;
    assert_eq!(rt;
        pages.store(0x1FFC, Width::Eight, 0x1122_3344_5566_7788),
        Ok(())
    );
    assert_eq!(rt; pages.load(0x1FFC, Width::Eight), Ok(0x1122_3344_5566_7788));
    assert_eq!(rt; pages.load(0x1FFC, Width::Four), Ok(0x5566_7788));
    assert_eq!(rt; pages.load(0x2000, Width::Two), Ok(0x3344));
    assert_eq!(rt; pages.load(0x2003, Width::One), Ok(0x11));
    Ok(())
}

#[test]
fn the_least_bad_address_is_told(rt: HostRuntime) -> Result<(), Fail> {
    let mut pages = Pages::new();
    assert_eq!(rt;
        pages.load(0x1FFC, Width::Eight),
        Err(PageFault::NotMapped(0x1FFC))
    );
    pages.map(rt.alloc(), 0x1000, 1, BOTH)?;
    assert_eq!(rt;
        pages.load(0x1FFC, Width::Eight),
        Err(PageFault::NotMapped(0x2000))
    );
    assert_eq!(rt;
        pages.store(0x1FFC, Width::Eight, 7),
        Err(PageFault::NotMapped(0x2000))
    );
    assert_eq!(rt; pages.load(0x1FFC, Width::Four), Ok(0));
    pages.map(rt.alloc(), 0x2000, 1, READ)?;
    assert_eq!(rt;
        pages.store(0x1FFC, Width::Eight, 7),
        Err(PageFault::NoAccess(0x2000))
    );
    assert_eq!(rt; pages.load(0x1FFC, Width::Eight), Ok(0));
    assert_eq!(rt; pages.allows(0x1FFF, 0x1001, READ), Ok(()));
    assert_eq!(rt;
        pages.allows(0x1FFF, 0x1002, READ),
        Err(PageFault::NotMapped(0x3000))
    );
    assert_eq!(rt;
        pages.allows(u64::MAX, 1, READ),
        Err(PageFault::NotMapped(u64::MAX))
    );
    assert_eq!(rt; pages.allows(u64::MAX, 0, READ), Ok(()));
    Ok(())
}

#[test]
fn a_page_without_rights_loses_its_bytes(rt: HostRuntime) -> Result<(), Fail> {
    let mut pages = Pages::new();
    pages.map(rt.alloc(), 0x1000, 2, BOTH)?;
    assert_eq!(rt; pages.store(0x1000, Width::One, 5), Ok(()));
    assert_eq!(rt; pages.store(0x2000, Width::One, 6), Ok(()));
    pages.protect(rt.alloc(), 0x1000, 1, NONE)?;
    pages.protect(rt.alloc(), 0x2000, 1, READ)?;
    assert_eq!(rt;
        pages.load(0x1000, Width::One),
        Err(PageFault::NoAccess(0x1000))
    );
    assert_eq!(rt; pages.allows(0x1000, 4096, NONE), Ok(()));
    pages.protect(rt.alloc(), 0x1000, 2, BOTH)?;
    assert_eq!(rt; pages.load(0x1000, Width::One), Ok(0));
    assert_eq!(rt; pages.load(0x2000, Width::One), Ok(6));
    assert_eq!(rt;
        pages.protect(rt.alloc(), 0x1000, 4, READ),
        Err(MapFault::NotMapped(0x3000))
    );
    Ok(())
}

#[test]
fn no_more_pages_are_stored_than_can_be(rt: HostRuntime) -> Result<(), Fail> {
    let mut pages = Pages::new();
    assert_eq!(rt;
        pages.map(rt.alloc(), 0x1000, 65_537, READ),
        Err(MapFault::PagesFull { wanted: 65_537 })
    );
    assert_eq!(rt; pages.map(rt.alloc(), 0x1000, 65_536, NONE), Ok(()));
    assert_eq!(rt; pages.map(rt.alloc(), 0x1000, 65_537, NONE), Ok(()));
    assert_eq!(rt; pages.map(rt.alloc(), 0x1000, 2, READ), Ok(()));
    assert_eq!(rt;
        pages.protect(rt.alloc(), 0x1000, 65_537, READ),
        Err(MapFault::PagesFull { wanted: 65_537 })
    );
    assert_eq!(rt; pages.allows(0x1000, 8192, READ), Ok(()));
    assert_eq!(rt;
        pages.allows(0x1000, 8193, READ),
        Err(PageFault::NoAccess(0x3000))
    );
    Ok(())
}

#[test]
fn bytes_are_copied_and_fetched(rt: HostRuntime) -> Result<(), Fail> {
    let mut pages = Pages::new();
    pages.map(rt.alloc(), 0x1000, 2, BOTH)?;
    let mut buffer = [9, 9, 9, 9];
    assert_eq!(rt; pages.copy_in(0x1FFE, &[1, 2, 3, 4]), Ok(()));
    assert_eq!(rt; pages.copy_out(0x1FFE, &mut buffer), Ok(()));
    assert_eq!(rt; buffer, [1, 2, 3, 4]);
    assert_eq!(rt;
        pages.copy_out(0x2FFE, &mut buffer),
        Err(PageFault::NotMapped(0x3000))
    );
    assert_eq!(rt; buffer, [1, 2, 3, 4]);
    assert_eq!(rt; pages.fetch(0x1FFF), Err(PageFault::NoAccess(0x1FFF)));
    pages.protect(rt.alloc(), 0x1000, 2, CODE)?;
    assert_eq!(rt; pages.fetch(0x1FFF), Ok(0x0302));
    assert_eq!(rt; pages.fetch(0x1FFE), Ok(0x0201));
    assert_eq!(rt;
        pages.load(0x1FFE, Width::Two),
        Err(PageFault::NoAccess(0x1FFE))
    );
    Ok(())
}

#[test]
fn half_words_of_code_by_one_look_up(rt: HostRuntime) -> Result<(), Fail> {
    let mut pages = Pages::new();
    pages.map(rt.alloc(), 0x1000, 1, BOTH)?;
    assert_eq!(rt; pages.store(0x1FFC, Width::Four, 0x8082_4501), Ok(()));
    assert_eq!(rt; pages.fetch_pair(0x1FFC), None);
    pages.protect(rt.alloc(), 0x1000, 1, CODE)?;
    assert_eq!(rt; pages.fetch_pair(0x1FFC), Some((0x4501, 0x8082)));
    // in two pages, and not mapped
    assert_eq!(rt; pages.fetch_pair(0x1FFE), None);
    assert_eq!(rt; pages.fetch_pair(0x2000), None);
    assert_eq!(rt; pages.fetch(0x1FFE), Ok(0x8082));
    Ok(())
}

#[test]
fn a_copy_of_code_outlives_its_pages(rt: HostRuntime) -> Result<(), Fail> {
    let mut pages = Pages::new();
    pages.map(rt.alloc(), 0x1000, 3, BOTH)?;
    assert_eq!(rt; pages.copy_in(0x1FFE, &[0x82, 0x80, 0x01, 0x45]), Ok(()));
    pages.protect(rt.alloc(), 0x1000, 2, CODE)?;
    let code = pages.code(rt.alloc())?;
    pages.unmap(0x1000, 3);
    assert_eq!(rt; code.fetch(0x1FFE), Ok(0x8082));
    assert_eq!(rt; code.fetch(0x1FFF), Ok(0x0180));
    assert_eq!(rt; code.fetch(0x2000), Ok(0x4501));
    assert_eq!(rt; code.fetch(0x2FFF), Err(PageFault::NotMapped(0x3000)));
    assert_eq!(rt; pages.fetch(0x1FFE), Err(PageFault::NotMapped(0x1FFE)));
    Ok(())
}

#[test]
fn numbers_by_one_look_up(rt: HostRuntime) -> Result<(), Fail> {
    let mut pages = Pages::new();
    pages.map(rt.alloc(), 0x1000, 2, BOTH)?;
    assert_eq!(rt;
        pages.store(0x1FF8, Width::Eight, 0x1122_3344_5566_7788),
        Ok(())
    );
    assert_eq!(rt;
        pages.load_near(0x1FF8, Width::Eight),
        Some(0x1122_3344_5566_7788)
    );
    assert_eq!(rt; pages.load_near(0x1FFC, Width::Four), Some(0x1122_3344));
    assert!(rt; pages.store_near(0x1FFE, Width::Two, 0x99AA));
    assert_eq!(rt; pages.load_near(0x1FFC, Width::Four), Some(0x99AA_3344));
    // in two pages, not mapped, and without the right
    assert!(rt; !pages.store_near(0x1FFF, Width::Two, 0));
    assert!(rt; !pages.store_near(0x3000, Width::One, 0));
    assert_eq!(rt; pages.load_near(0x1FFC, Width::Eight), None);
    assert_eq!(rt; pages.load_near(0x3000, Width::One), None);
    pages.protect(rt.alloc(), 0x1000, 1, CODE)?;
    assert_eq!(rt; pages.load_near(0x1FF8, Width::Eight), None);
    assert!(rt; !pages.store_near(0x1FF8, Width::Eight, 0));
    Ok(())
}

/// The address of a page below 2^38.
fn page_address(number: u64) -> u64
    ensures aligned { result % 4096 ≡ 0 }
    ensures below { result + 4096 ≤ 2 ^ 38 }
{
    4096 * number.min(0x3FF_FFFF)
}

/// One page with these rights in the place of what was there.
fn place(alloc: Global, pages: &mut Pages, number: u64, rights: Rights) -> Result<(), MapFault> {
    pages.map(alloc, page_address(number), 1, rights)
}

/// Whether one of some pages is mapped, and whether one can be executed.
fn seen(pages: &Pages, number: u64, count: u64) -> (bool, bool) {
    let first = number.min(0x3FF_FFFF);
    let count = count.min(0x400_0000 - first);
    let at = 4096 * first;
    (pages.any_mapped(at, count), pages.touches_code(at, count))
}

/// Some pages are not mapped any more.
fn unmap(pages: &mut Pages, number: u64, count: u64) {
    let first = number.min(0x3FF_FFFF);
    pages.unmap(4096 * first, count.min(0x400_0000 - first));
}

/// Some pages get these rights, in the place of what was there.
fn map(
    alloc: Global,
    pages: &mut Pages,
    number: u64,
    count: u64,
    rights: Rights,
) -> Result<(), MapFault> {
    let first = number.min(0x3FF_FFFF);
    pages.map(alloc, 4096 * first, count.min(0x400_0000 - first), rights)
}

#[test]
fn pages_that_are_mapped_or_code(rt: HostRuntime) -> Result<(), Fail> {
    let mut pages = Pages::new();
    // the first page, two beside the border of two tables, the last one
    place(rt.alloc(), &mut pages, 0, NONE)?;
    place(rt.alloc(), &mut pages, 8191, BOTH)?;
    place(rt.alloc(), &mut pages, 8192, CODE)?;
    place(rt.alloc(), &mut pages, 0x3FF_FFFF, CODE)?;
    let table: [(u64, u64, (bool, bool)); 11] = [
        (0, 1, (true, false)),
        (1, 8190, (false, false)),
        (1, 8191, (true, false)),
        (1, 8192, (true, true)),
        (8191, 1, (true, false)),
        (8192, 1, (true, true)),
        (8193, 0x3FF_DFFE, (false, false)),
        (8193, 0x3FF_DFFF, (true, true)),
        (0x3FF_FFFF, 1, (true, true)),
        (0, 0, (false, false)),
        (0, 0x400_0000, (true, true)),
    ];
    for (first, count, answer) in table {
        assert_eq!(rt; seen(&pages, first, count), answer, "{first} {count}");
    }
    unmap(&mut pages, 8192, 0x3FF_E000);
    assert_eq!(rt; seen(&pages, 8192, 0x3FF_E000), (false, false));
    assert_eq!(rt; seen(&pages, 0, 8192), (true, false));
    unmap(&mut pages, 0, 8191);
    assert_eq!(rt; seen(&pages, 0, 8191), (false, false));
    assert_eq!(rt; pages.allows(4096 * 8191, 4096, BOTH), Ok(()));
    Ok(())
}

#[test]
fn the_highest_free_range(rt: HostRuntime) -> Result<(), Fail> {
    let mut pages = Pages::new();
    assert_eq!(rt; pages.find_free(1), Some(0x3E_FFFF_F000));
    assert_eq!(rt; pages.find_free(0), Some(0x3F_0000_0000));
    assert_eq!(rt; pages.find_free(0x3F0_0000), Some(0));
    assert_eq!(rt; pages.find_free(0x3F0_0001), None);
    assert_eq!(rt; pages.find_free(u64::MAX), None);
    // what lies above doesn't count
    place(rt.alloc(), &mut pages, 0x3F0_0000, BOTH)?;
    assert_eq!(rt; pages.find_free(1), Some(0x3E_FFFF_F000));
    // two free pages between two that are mapped
    place(rt.alloc(), &mut pages, 0x3EF_FFFF, NONE)?;
    place(rt.alloc(), &mut pages, 0x3EF_FFFC, BOTH)?;
    assert_eq!(rt; pages.find_free(1), Some(0x3E_FFFF_E000));
    assert_eq!(rt; pages.find_free(2), Some(0x3E_FFFF_D000));
    assert_eq!(rt; pages.find_free(3), Some(0x3E_FFFF_9000));
    // over the border of two tables
    assert_eq!(rt; pages.find_free(8192), Some(0x3E_FDFF_C000));
    unmap(&mut pages, 0x3EF_FFFC, 1);
    assert_eq!(rt; pages.find_free(3), Some(0x3E_FFFF_C000));
    // all but one page from the start
    map(rt.alloc(), &mut pages, 1, 0x3EF_FFFF, NONE)?;
    assert_eq!(rt; pages.find_free(1), Some(0));
    assert_eq!(rt; pages.find_free(2), None);
    place(rt.alloc(), &mut pages, 0, NONE)?;
    assert_eq!(rt; pages.find_free(1), None);
    Ok(())
}

#[test]
fn a_large_range_without_rights(rt: HostRuntime) -> Result<(), Fail> {
    let mut pages = Pages::new();
    map(rt.alloc(), &mut pages, 0, 0x400_0000, NONE)?;
    assert_eq!(rt; pages.find_free(1), None);
    assert_eq!(rt;
        pages.load(0x1234_5000, Width::One),
        Err(PageFault::NoAccess(0x1234_5000))
    );
    // one page of it gets a right, one is unmapped
    pages.protect(rt.alloc(), 0x1234_5000, 1, BOTH)?;
    assert_eq!(rt; pages.store(0x1234_5FF8, Width::Eight, 7), Ok(()));
    assert_eq!(rt; pages.load(0x1234_5FF8, Width::Eight), Ok(7));
    assert_eq!(rt;
        pages.load(0x1234_6000, Width::One),
        Err(PageFault::NoAccess(0x1234_6000))
    );
    unmap(&mut pages, 0x1_2346, 1);
    assert_eq!(rt;
        pages.load(0x1234_6000, Width::One),
        Err(PageFault::NotMapped(0x1234_6000))
    );
    unmap(&mut pages, 8192 * 77 + 5, 1);
    assert_eq!(rt; pages.find_free(1), Some(4096 * (8192 * 77 + 5)));
    assert_eq!(rt; pages.find_free(2), None);
    unmap(&mut pages, 0, 0x400_0000);
    assert_eq!(rt; pages.find_free(0x3F0_0000), Some(0));
    assert_eq!(rt;
        pages.load(0x1234_5FF8, Width::Eight),
        Err(PageFault::NotMapped(0x1234_5FF8))
    );
    Ok(())
}

#[test]
fn the_break_grows_by_pages_of_zeros(rt: HostRuntime) -> Result<(), Fail> {
    let mut pages = Pages::new();
    assert_eq!(rt; grow(rt.alloc(), &mut pages, 5, 7), Ok(()));
    assert_eq!(rt; pages.allows(0x5000, 0x2000, BOTH), Ok(()));
    assert_eq!(rt; pages.store(0x6FFF, Width::One, 9), Ok(()));
    // lowered, and raised again
    unmap(&mut pages, 6, 1);
    assert_eq!(rt; grow(rt.alloc(), &mut pages, 6, 8), Ok(()));
    assert_eq!(rt; pages.load(0x6FFF, Width::One), Ok(0));
    assert_eq!(rt; grow(rt.alloc(), &mut pages, 8, 8), Ok(()));
    assert_eq!(rt;
        pages.allows(0x8000, 1, BOTH),
        Err(PageFault::NotMapped(0x8000))
    );
    assert_eq!(rt;
        grow(rt.alloc(), &mut pages, 8, 8 + 65_534),
        Err(MapFault::PagesFull { wanted: 65_537 })
    );
    Ok(())
}

/// The break goes from one page to another, if the pages between are free.
fn grow(alloc: Global, pages: &mut Pages, from: u64, to: u64) -> Result<(), MapFault> {
    let first = from.min(0x3FF_FFFF);
    let end = to.min(0x3FF_FFFF).max(first);
    if pages.any_mapped(4096 * first, end - first) {
        return Err(MapFault::NotMapped(0));
    }
    pages.grow_break(alloc, 4096 * first, 4096 * end)
}
