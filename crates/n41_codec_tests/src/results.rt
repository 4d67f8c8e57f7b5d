// Results that are refused.

use n41_attr::{AttrFault, OpFault};
use n41_ops::read_res;
use n41_xdr::{Reader, XdrFault};
use std::alloc::Global;

/// Whether the bytes are refused as a result with this fault, and none is taken.
fn has_fault(alloc: Global, bytes: &[u8], want: OpFault) -> bool {
    let mut reader = Reader::new(bytes);
    match read_res(alloc, &mut reader) {
        Ok(_) => false,
        Err(fault) => fault == want && reader.len() == bytes.len(),
    }
}

#[test]
fn what_is_no_result_is_refused(rt: HostRuntime) {
    let rows: [(&[u8], OpFault); 5] = [
        // No operation has this number.
        (b"\0\0\0\x0b\0\0\0\0", OpFault::Illegal(11)),
        // OP_ILLEGAL is never OK.
        (b"\0\0'<\0\0\0\0", OpFault::Xdr(XdrFault::BadArm(0))),
        // An attribute that is not known.
        (
            b"\0\0\0\x09\0\0\0\0\0\0\0\x01\0\0\0\x01\0\0\0\0",
            OpFault::Attr(AttrFault::Unknown(0)),
        ),
        // A lock of no kind.
        (
            b"\0\0\0\x0d\0\0'\x1a\0\0\0\0\0\0\0\0\0\0\0\0\0\0\0\x01\0\0\0\x05",
            OpFault::Xdr(XdrFault::BadArm(5)),
        ),
        // A count takes no memory before its statuses are there.
        (
            b"\0\0\07\0\0\0\0\xff\xff\xff\xff\0\0\0\0",
            OpFault::Xdr(XdrFault::Short { need: 4, have: 0 }),
        ),
    ];
    for (bytes, want) in rows {
        let refused = has_fault(rt.alloc(), bytes, want);
        assert!(rt; refused);
    }
}
