use super::*;
use std::alloc::{AllocError, Global};

/// A line where the threads 1 and 2 and the alarm have these deadlines.
fn three(alloc: Global, first: u64, second: u64, alarm: u64) -> Result<TimeLine, AllocError> {
    let mut line = TimeLine::new(alloc);
    line.set(Timer::Thread(1), first)?;
    line.set(Timer::Thread(2), second)?;
    line.set(Timer::Alarm, alarm)?;
    Ok(line)
}

#[test]
fn the_least_of_all_comes_first(rt: HostRuntime) -> Result<(), AllocError> {
    for (first, second, alarm, least) in [
        (5, 6, 7, 5),
        (6, 5, 7, 5),
        (7, 6, 5, 5),
        (5, 5, 5, 5),
        (u64::MAX, 0, 1, 0),
        (u64::MAX, u64::MAX, u64::MAX, u64::MAX),
    ] {
        let line = three(rt.alloc(), first, second, alarm)?;
        assert_eq!(rt; line.least(), Some(least));
        assert_eq!(rt; line.deadline(Timer::Thread(1)), Some(first));
        assert_eq!(rt; line.deadline(Timer::Thread(2)), Some(second));
        assert_eq!(rt; line.deadline(Timer::Alarm), Some(alarm));
    }
    Ok(())
}

#[test]
fn a_new_deadline_takes_the_place_of_the_old_one(rt: HostRuntime) -> Result<(), AllocError> {
    for (at, least) in [(0, 0), (5, 5), (6, 6), (8, 7), (u64::MAX, 7)] {
        let mut line = three(rt.alloc(), 5, 7, 9)?;
        line.set(Timer::Thread(1), at)?;
        assert_eq!(rt; line.deadline(Timer::Thread(1)), Some(at));
        assert_eq!(rt; line.deadline(Timer::Thread(2)), Some(7));
        assert_eq!(rt; line.least(), Some(least));
        line.clear(Timer::Thread(1));
        assert_eq!(rt; line.deadline(Timer::Thread(1)), None);
        assert_eq!(rt; line.least(), Some(7));
    }
    Ok(())
}

#[test]
fn what_is_cleared_no_longer_stands(rt: HostRuntime) -> Result<(), AllocError> {
    let mut line = three(rt.alloc(), 5, 5, 9)?;
    for (who, least) in [
        (Timer::Thread(3), Some(5)),
        (Timer::Thread(1), Some(5)),
        (Timer::Thread(2), Some(9)),
        (Timer::Thread(1), Some(9)),
        (Timer::Alarm, None),
        (Timer::Alarm, None),
    ] {
        line.clear(who);
        assert_eq!(rt; line.deadline(who), None);
        assert_eq!(rt; line.least(), least);
    }
    line.set(Timer::Thread(0), 3)?;
    assert_eq!(rt; line.deadline(Timer::Alarm), None);
    assert_eq!(rt; line.least(), Some(3));
    Ok(())
}
