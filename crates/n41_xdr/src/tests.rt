use super::*;
use std::process::Abort;
use std::test::Fail;

fn see_opaque(rt: &impl Abort, bytes: &[u8], want: Result<&[u8], XdrFault>, left: usize) {
    let mut reader = Reader::new(bytes);
    assert_eq!(rt; reader.opaque(8), want);
    assert_eq!(rt; reader.len(), left);
}

/// Too long comes before short, and short before a bad fill; a fault takes nothing.
#[test]
fn opaque_data_is_read_or_refused(rt: HostRuntime) {
    see_opaque(&rt, b"\0\0\0\x05hello\0\0\x01", Err(XdrFault::BadPad), 12);
    see_opaque(&rt, b"\0\0\0\x05hello\0\0\0", Ok(b"hello"), 0);
    see_opaque(
        &rt,
        b"\0\0\0\x09hello\0\0\x01",
        Err(XdrFault::TooLong { len: 9, max: 8 }),
        12,
    );
    see_opaque(
        &rt,
        b"\0\0\0\x05hello\x01\x01",
        Err(XdrFault::Short { need: 8, have: 7 }),
        11,
    );
    see_opaque(&rt, b"\0\0\0", Err(XdrFault::Short { need: 4, have: 3 }), 3);
}

#[test]
fn other_items_are_read_or_refused(rt: HostRuntime) {
    let mut reader = Reader::new(
        b"\0\0\x01\x02\0\0\0\0\0\0\0\x03\0\0\0\x02abc\x01\0\0\0\x01ab\0\0",
    );
    assert_eq!(rt; reader.u32(), Ok(258));
    assert_eq!(rt; reader.u64(), Ok(3));
    assert_eq!(rt; reader.boolean(), Err(XdrFault::BadBool(2)));
    assert_eq!(rt; reader.u32(), Ok(2));
    assert_eq!(rt; reader.array::<3>(), Err(XdrFault::BadPad));
    assert_eq!(rt; reader.array::<4>(), Ok(*b"abc\x01"));
    assert_eq!(rt; reader.boolean(), Ok(true));
    assert_eq!(rt; reader.fixed(9), Err(XdrFault::Short { need: 12, have: 4 }));
    assert_eq!(rt; reader.rest(), b"ab\0\0".as_slice());
    assert_eq!(rt; reader.u64(), Err(XdrFault::Short { need: 8, have: 4 }));
    assert_eq!(rt; reader.finish(), Err(XdrFault::Left(4)));
}

/// The file of RFC 4506, section 7.
const FILE: &[u8] =
    b"\0\0\0\x09sillyprog\0\0\0\0\0\0\x02\0\0\0\x04lisp\0\0\0\x04john\0\0\0\x06(quit)\0\0";

#[test]
fn the_example_of_the_standard_is_written(rt: HostRuntime) -> Result<(), Fail> {
    let mut writer = Writer::new(rt.alloc());
    writer.put_opaque(b"sillyprog")?;
    writer.put_u32(2)?;
    writer.put_opaque(b"lisp")?;
    writer.put_opaque(b"john")?;
    writer.put_opaque(b"(quit)")?;
    assert_eq!(rt; writer.as_slice(), FILE);
    writer.clear();
    writer.put_u64(0x0102_0304_0506_0708)?;
    writer.put_bool(true)?;
    writer.put_bool(false)?;
    writer.put_fixed(b"abcde")?;
    writer.put_bytes(b"as is")?;
    let bytes = writer.into_bytes();
    assert_eq!(rt;
        bytes.as_slice(),
        b"\x01\x02\x03\x04\x05\x06\x07\x08\0\0\0\x01\0\0\0\0abcde\0\0\0as is".as_slice()
    );
    Ok(())
}
