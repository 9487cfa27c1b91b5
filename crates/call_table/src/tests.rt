use super::*;
use bitflags::Flags;

#[test]
fn calls_have_the_numbers_of_linux(rt: HostRuntime) {
    let table = [
        (CallNo::Dup, 23),
        (CallNo::Write, 64),
        (CallNo::Exit, 93),
        (CallNo::ExitGroup, 94),
        (CallNo::Futex, 98),
        (CallNo::Getpid, 172),
        (CallNo::Mmap, 222),
        (CallNo::RtTgsigqueueinfo, 240),
        (CallNo::Getrandom, 278),
    ];
    for (call, number) in table {
        assert_eq!(rt; number_of(call), number);
        assert_eq!(rt; call_of(number), Some(call));
    }
    for number in [0, 22, 26, 95, 173, 277, 279, u64::MAX] {
        assert_eq!(rt; call_of(number), None);
    }
}

#[test]
fn flags_have_the_bits_of_linux(rt: HostRuntime) {
    let flags = OpenFlags::from_bits_retain(0x241);
    assert!(rt; flags.contains(OpenFlags::WRITE_ONLY));
    assert!(rt; flags.contains(OpenFlags::CREATE));
    assert!(rt; flags.contains(OpenFlags::TRUNCATE));
    assert!(rt; !flags.contains(OpenFlags::APPEND));
    // the flags of a thread of pthread_create
    let flags = CloneFlags::from_bits_retain(0x7D_0F00);
    assert!(rt; flags.contains(CloneFlags::THREAD));
    assert!(rt; flags.contains(CloneFlags::CHILD_CLEARTID));
    assert!(rt; !flags.contains(CloneFlags::CHILD_SETTID));
}
