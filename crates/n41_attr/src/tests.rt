use super::*;
use n41_types::{Attrs, Sequence};
use n41_xdr::{Reader, Writer, XdrFault};
use std::alloc::Global;
use std::process::Abort;
use std::test::Fail;

const NO_ATTRS: Attrs = Attrs {
    kind: None,
    change: None,
    size: None,
    lease: None,
    fileid: None,
    mode: None,
};

const ALL_ATTRS: Attrs = Attrs {
    kind: Some(2),
    change: Some(3),
    size: Some(4),
    lease: Some(90),
    fileid: Some(5),
    mode: Some(0o755),
};

/// The bitmap is 0x0010_041a and 2; the values are 36 bytes.
const ALL_BYTES: &[u8] =
    b"\0\0\0\x02\0\x10\x04\x1a\0\0\0\x02\0\0\0\x24\0\0\0\x02\0\0\0\0\0\0\0\x03\0\0\0\0\0\0\0\x04\0\0\0\x5a\0\0\0\0\0\0\0\x05\0\0\x01\xed";

fn see_read(rt: &impl Abort, alloc: Global, bytes: &[u8], want: Result<Attrs, AttrFault>) {
    let mut reader = Reader::new(bytes);
    let left = if want.is_ok() { 0 } else { bytes.len() };
    assert_eq!(rt; read_attrs(alloc, &mut reader), want);
    assert_eq!(rt; reader.len(), left);
}

#[test]
fn attributes_are_read_or_refused(rt: HostRuntime) {
    let alloc = rt.alloc();
    see_read(&rt, alloc, ALL_BYTES, Ok(ALL_ATTRS));
    for end in 0..ALL_BYTES.len() {
        let mut reader = Reader::new(&ALL_BYTES[..end]);
        assert!(rt; read_attrs(alloc, &mut reader).is_err());
        assert_eq!(rt; reader.len(), end);
    }
    let one = Attrs {
        kind: Some(1),
        ..NO_ATTRS
    };
    see_read(
        &rt,
        alloc,
        b"\0\0\0\x01\0\0\0\x02\0\0\0\x04\0\0\0\x01",
        Ok(one),
    );
    // Zero words at the end of the bitmap are lawful.
    see_read(
        &rt,
        alloc,
        b"\0\0\0\x03\0\0\0\x02\0\0\0\0\0\0\0\0\0\0\0\x04\0\0\0\x01",
        Ok(one),
    );
    see_read(&rt, alloc, b"\0\0\0\0\0\0\0\0", Ok(NO_ATTRS));
    // The least number that is not known.
    see_read(
        &rt,
        alloc,
        b"\0\0\0\x02\x80\0\0\x42\0\0\0\x01\0\0\0\0",
        Err(AttrFault::Unknown(6)),
    );
    see_read(
        &rt,
        alloc,
        b"\0\0\0\x03\0\0\0\x02\0\0\0\x02\x80\0\0\0",
        Err(AttrFault::Unknown(95)),
    );
    // Too few and too many values.
    see_read(
        &rt,
        alloc,
        b"\0\0\0\x01\0\0\0\x02\0\0\0\0",
        Err(AttrFault::Length),
    );
    see_read(
        &rt,
        alloc,
        b"\0\0\0\x01\0\0\0\x02\0\0\0\x08\0\0\0\x01\0\0\0\x01",
        Err(AttrFault::Length),
    );
    // A count takes no memory before its words are there.
    see_read(
        &rt,
        alloc,
        b"\xff\xff\xff\xff\0\0\0\0",
        Err(AttrFault::Xdr(XdrFault::Short { need: 4, have: 0 })),
    );
}

#[test]
fn attributes_are_written(rt: HostRuntime) -> Result<(), Fail> {
    let mut writer = Writer::new(rt.alloc());
    write_attrs(&mut writer, &ALL_ATTRS)?;
    assert_eq!(rt; writer.as_slice(), ALL_BYTES);
    writer.clear();
    write_attrs(
        &mut writer,
        &Attrs {
            size: Some(7),
            ..NO_ATTRS
        },
    )?;
    write_attrs(&mut writer, &NO_ATTRS)?;
    assert_eq!(rt;
        writer.as_slice(),
        b"\0\0\0\x01\0\0\0\x10\0\0\0\x08\0\0\0\0\0\0\0\x07\0\0\0\0\0\0\0\0".as_slice()
    );
    Ok(())
}

/// The bitmap of the attributes that a stat asks for.
#[test]
fn a_bitmap_is_read(rt: HostRuntime) -> Result<(), Fail> {
    let bytes = b"\0\0\0\x02\0\x10\0\x1a\0\0\0\x02".as_slice();
    let mut reader = Reader::new(bytes);
    let mask = match read_bitmap(rt.alloc(), &mut reader) {
        Ok(mask) => mask,
        Err(_) => Sequence::from_vec(rt.alloc(), Vec::new(rt.alloc()))?,
    };
    assert_eq!(rt; mask.as_slice(), [0x0010_001a, 2].as_slice());
    assert_eq!(rt; asked(&NO_ATTRS, &mask), Ok(()));
    assert_eq!(rt; asked(&ALL_ATTRS, &mask), Err(10));
    assert_eq!(rt; reader.len(), 0);
    Ok(())
}
