use super::*;
use std::alloc::{AllocError, Global};

/// A thread comes to wait, if it doesn't wait and its bits aren't 0.
fn join(table: &mut FutexTable, thread: u32, at: u64, bits: u32) -> Result<(), AllocError> {
    if table.holds(thread) || bits == 0 {
        return Ok(());
    }
    table.wait(thread, at, bits)
}

/// The threads 1 to 3 wait at 8, the threads 4 and 5 at 16, in this order. The bits are 1, 2, 1, 1 and 3.
fn five(alloc: Global) -> Result<FutexTable, AllocError> {
    let mut table = FutexTable::new(alloc);
    for (thread, at, bits) in [(1, 8, 1), (2, 8, 2), (3, 8, 1), (4, 16, 1), (5, 16, 3)] {
        join(&mut table, thread, at, bits)?;
    }
    Ok(table)
}

/// Which of the threads 0 to 5 are held.
fn held(table: &FutexTable) -> [bool; 6] {
    let mut all = [false; 6];
    for thread in 0..6 {
        all[thread as usize] = table.holds(thread);
    }
    all
}

/// Wakes one thread at an address, and tells which of the threads 1 to 5 isn't held any more; 0 where none was woken.
fn next(table: &mut FutexTable, at: u64) -> u32 {
    let before = held(table);
    if table.wake(at, 1, u32::MAX) == 0 {
        return 0;
    }
    let after = held(table);
    for thread in 1..6 {
        if before[thread as usize] && !after[thread as usize] {
            return thread;
        }
    }
    9
}

/// The threads that wait at an address, in the order in which they are woken. It wakes them.
fn order(table: &mut FutexTable, at: u64) -> [u32; 5] {
    let mut threads = [0; 5];
    for place in 0..5 {
        threads[place] = next(table, at);
    }
    threads
}

#[test]
fn a_wake_wakes_the_first_whose_bits_meet(rt: HostRuntime) -> Result<(), AllocError> {
    for (count, bits, answer, left) in [
        (0, u32::MAX, 0, [1, 2, 3, 0, 0]),
        (1, u32::MAX, 1, [2, 3, 0, 0, 0]),
        (3, u32::MAX, 3, [0, 0, 0, 0, 0]),
        (u32::MAX, u32::MAX, 3, [0, 0, 0, 0, 0]),
        (9, 4, 0, [1, 2, 3, 0, 0]),
        (9, 0, 0, [1, 2, 3, 0, 0]),
        (1, 2, 1, [1, 3, 0, 0, 0]),
        (2, 1, 2, [2, 0, 0, 0, 0]),
        (9, 6, 1, [1, 3, 0, 0, 0]),
    ] {
        let mut table = five(rt.alloc())?;
        assert_eq!(rt; table.wake(8, count, bits), answer);
        assert_eq!(rt; order(&mut table, 8), left);
        assert_eq!(rt; order(&mut table, 16), [4, 5, 0, 0, 0]);
    }
    Ok(())
}

#[test]
fn a_requeue_wakes_and_then_moves_behind(rt: HostRuntime) -> Result<(), AllocError> {
    for (to, wake, limit, answer, at_8, at_16) in [
        (16, 0, 0, (0, 0), [1, 2, 3, 0, 0], [4, 5, 0, 0, 0]),
        (16, 1, 0, (1, 0), [2, 3, 0, 0, 0], [4, 5, 0, 0, 0]),
        (16, 1, 1, (1, 1), [3, 0, 0, 0, 0], [4, 5, 2, 0, 0]),
        (16, 0, 9, (0, 3), [0, 0, 0, 0, 0], [4, 5, 1, 2, 3]),
        (16, 9, 9, (3, 0), [0, 0, 0, 0, 0], [4, 5, 0, 0, 0]),
        (24, 1, 2, (1, 2), [0, 0, 0, 0, 0], [4, 5, 0, 0, 0]),
        (8, 0, 1, (0, 1), [2, 3, 1, 0, 0], [4, 5, 0, 0, 0]),
        (8, 1, 9, (1, 2), [2, 3, 0, 0, 0], [4, 5, 0, 0, 0]),
    ] {
        let mut table = five(rt.alloc())?;
        assert_eq!(rt; table.requeue(8, to, wake, limit), answer);
        assert_eq!(rt; order(&mut table, 8), at_8);
        assert_eq!(rt; order(&mut table, 16), at_16);
    }
    Ok(())
}

#[test]
fn who_is_moved_keeps_the_bits(rt: HostRuntime) -> Result<(), AllocError> {
    let mut table = five(rt.alloc())?;
    assert_eq!(rt; table.requeue(8, 24, 1, 2), (1, 2));
    assert_eq!(rt; held(&table), [false, false, true, true, true, true]);
    assert_eq!(rt; table.wake(24, 9, 2), 1);
    assert_eq!(rt; held(&table), [false, false, false, true, true, true]);
    assert_eq!(rt; order(&mut table, 24), [3, 0, 0, 0, 0]);
    Ok(())
}

#[test]
fn who_leaves_is_passed_over_and_comes_back_last(rt: HostRuntime) -> Result<(), AllocError> {
    let mut table = five(rt.alloc())?;
    table.leave(2);
    table.leave(0);
    assert_eq!(rt; held(&table), [false, true, false, true, true, true]);
    join(&mut table, 2, 16, 1)?;
    table.leave(4);
    assert_eq!(rt; order(&mut table, 8), [1, 3, 0, 0, 0]);
    assert_eq!(rt; order(&mut table, 16), [5, 2, 0, 0, 0]);
    Ok(())
}
