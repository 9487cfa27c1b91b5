use super::*;
use std::test::Fail;

const BYTES: [u8; 10] = [0x10, 0x21, 0x32, 0x43, 0x54, 0x65, 0x76, 0x87, 0x98, 0xA9];

#[test]
fn the_lowest_byte_comes_first(rt: HostRuntime) -> Result<(), Fail> {
    assert_eq!(rt; u16_at(&BYTES, 1), Some(0x3221));
    assert_eq!(rt; u32_at(&BYTES, 1), Some(0x5443_3221));
    assert_eq!(rt; u64_at(&BYTES, 1), Some(0x9887_7665_5443_3221));
    Ok(())
}

#[test]
fn the_last_field_ends_with_the_bytes(rt: HostRuntime) -> Result<(), Fail> {
    assert_eq!(rt; u16_at(&BYTES, 8), Some(0xA998));
    assert_eq!(rt; u32_at(&BYTES, 6), Some(0xA998_8776));
    assert_eq!(rt; u64_at(&BYTES, 2), Some(0xA998_8776_6554_4332));
    Ok(())
}

#[test]
fn no_field_passes_the_end(rt: HostRuntime) -> Result<(), Fail> {
    for at in [10, 11, usize::MAX - 1, usize::MAX] {
        assert_eq!(rt; u16_at(&BYTES, at), None);
        assert_eq!(rt; u32_at(&BYTES, at), None);
        assert_eq!(rt; u64_at(&BYTES, at), None);
    }
    assert_eq!(rt; u16_at(&BYTES, 9), None);
    assert_eq!(rt; u32_at(&BYTES, 7), None);
    assert_eq!(rt; u64_at(&BYTES, 3), None);
    assert_eq!(rt; u64_at(&[], 0), None);
    Ok(())
}

#[test]
fn a_write_leaves_the_other_bytes(rt: HostRuntime) -> Result<(), Fail> {
    let mut bytes = [0xFF; 10];
    put_u16(&mut bytes, 8, 0x1234);
    assert_eq!(rt;
        bytes.as_slice(),
        [0xFF, 0xFF, 0xFF, 0xFF, 0xFF, 0xFF, 0xFF, 0xFF, 0x34, 0x12].as_slice()
    );
    put_u32(&mut bytes, 3, 0x0102_0304);
    assert_eq!(rt;
        bytes.as_slice(),
        [0xFF, 0xFF, 0xFF, 4, 3, 2, 1, 0xFF, 0x34, 0x12].as_slice()
    );
    put_u64(&mut bytes, 0, 0x1112_1314_1516_1718);
    assert_eq!(rt;
        bytes.as_slice(),
        [0x18, 0x17, 0x16, 0x15, 0x14, 0x13, 0x12, 0x11, 0x34, 0x12].as_slice()
    );
    Ok(())
}

#[test]
fn bytes_are_a_list(rt: HostRuntime) -> Result<(), Fail> {
    let mut bytes = Bytes::new(rt.alloc());
    assert!(rt; bytes.is_empty());
    bytes.extend_from_slice(&[1, 2])?;
    bytes.extend_from_slice(&[3])?;
    assert_eq!(rt; bytes.as_slice(), [1, 2, 3].as_slice());
    assert_eq!(rt; bytes.len(), 3);
    let bytes = Bytes::from_vec(bytes.into_vec());
    assert_eq!(rt; bytes.as_slice(), [1, 2, 3].as_slice());
    Ok(())
}
