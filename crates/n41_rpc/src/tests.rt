use super::*;
use n41_types::Bytes;
use n41_xdr::{Reader, Writer, XdrFault};
use std::alloc::Global;
use std::process::Abort;
use std::test::Fail;

/// The head of a call of COMPOUND by uid and gid 1000, with xid 1.
const CALL: &[u8] =
    b"\0\0\0\x01\0\0\0\0\0\0\0\x02\0\x01\x86\xa3\0\0\0\x04\0\0\0\x01\0\0\0\x01\0\0\0\x18\0\0\0\0\0\0\0\x03n41\0\0\0\x03\xe8\0\0\x03\xe8\0\0\0\0\0\0\0\0\0\0\0\0";

/// The head of its reply.
const REPLY: &[u8] = b"\0\0\0\x01\0\0\0\x01\0\0\0\0\0\0\0\0\0\0\0\0\0\0\0\0";

#[test]
#[tactic(auto, unfolding(crate::specs::Heads::cred))]
fn the_head_of_a_call_is_written_and_read(rt: HostRuntime) -> Result<(), Fail> {
    let alloc = rt.alloc();
    let mut body = Writer::new(alloc);
    write_system_body(&mut body, 1000, 1000)?;
    let body = Bytes::copy_from_slice(alloc, body.as_slice())?;
    if body.len() != 24 {
        return Ok(());
    }
    let call = CallHead {
        xid: 1,
        prog: 100003,
        vers: 4,
        procedure: 1,
        cred: Cred { flavor: 1, body },
    };
    let mut writer = Writer::new(alloc);
    write_call(&mut writer, &call)?;
    assert_eq!(rt; writer.as_slice(), CALL);
    let mut reader = Reader::new(CALL);
    if let Ok(Head::Call(read)) = read_head(alloc, &mut reader) {
        assert_eq!(rt;
            (read.xid, read.prog, read.vers, read.procedure),
            (1, 100003, 4, 1)
        );
        assert_eq!(rt; read.cred.flavor, 1);
        assert_eq!(rt; read.cred.body.as_slice(), call.cred.body.as_slice());
    }
    assert_eq!(rt; reader.len(), 0);
    Ok(())
}

fn see_reply(rt: &impl Abort, alloc: Global, bytes: &[u8], body: HeadBody) {
    let mut reader = Reader::new(bytes);
    match read_head(alloc, &mut reader) {
        Ok(Head::Reply(reply)) => assert_eq!(rt; reply, ReplyHead { xid: 1, body }),
        _ => assert_eq!(rt; reader.len(), 1000),
    }
    assert_eq!(rt; reader.len(), 0);
}

fn see_fault(rt: &impl Abort, alloc: Global, bytes: &[u8], want: RpcFault) {
    let mut reader = Reader::new(bytes);
    match read_head(alloc, &mut reader) {
        Ok(_) => assert_eq!(rt; reader.len(), 1000),
        Err(fault) => assert_eq!(rt; fault, want),
    }
    assert_eq!(rt; reader.len(), bytes.len());
}

#[test]
fn the_heads_of_replies_are_read(rt: HostRuntime) {
    let alloc = rt.alloc();
    see_reply(&rt, alloc, REPLY, HeadBody::Success);
    // A verifier of another flavor, and PROG_MISMATCH.
    see_reply(
        &rt,
        alloc,
        b"\0\0\0\x01\0\0\0\x01\0\0\0\0\0\0\0\x07\0\0\0\x01x\0\0\0\0\0\0\x02\0\0\0\x02\0\0\0\x03",
        HeadBody::Rejected(2),
    );
    see_reply(
        &rt,
        alloc,
        b"\0\0\0\x01\0\0\0\x01\0\0\0\0\0\0\0\0\0\0\0\0\0\0\0\x05",
        HeadBody::Rejected(5),
    );
    see_reply(
        &rt,
        alloc,
        b"\0\0\0\x01\0\0\0\x01\0\0\0\x01\0\0\0\0\0\0\0\x02\0\0\0\x02",
        HeadBody::Denied(0),
    );
    see_reply(
        &rt,
        alloc,
        b"\0\0\0\x01\0\0\0\x01\0\0\0\x01\0\0\0\x01\0\0\0\x0d",
        HeadBody::Denied(1),
    );
}

#[test]
fn heads_are_refused(rt: HostRuntime) {
    let alloc = rt.alloc();
    see_fault(&rt, alloc, b"\0\0\0\x01\0\0\0\x02", RpcFault::BadKind(2));
    see_fault(
        &rt,
        alloc,
        b"\0\0\0\x01\0\0\0\0\0\0\0\x03",
        RpcFault::Xdr(XdrFault::BadArm(3)),
    );
    see_fault(
        &rt,
        alloc,
        b"\0\0\0\x01\0\0\0\x01\0\0\0\x02",
        RpcFault::Xdr(XdrFault::BadArm(2)),
    );
    see_fault(
        &rt,
        alloc,
        b"\0\0\0\x01\0\0\0\x01\0\0\0\0\0\0\0\0\0\0\x01\x91",
        RpcFault::Xdr(XdrFault::TooLong { len: 401, max: 400 }),
    );
    for end in 0..CALL.len() {
        let mut reader = Reader::new(&CALL[..end]);
        assert!(rt; read_head(alloc, &mut reader).is_err());
        assert_eq!(rt; reader.len(), end);
    }
    for end in 0..REPLY.len() {
        let mut reader = Reader::new(&REPLY[..end]);
        assert!(rt; read_head(alloc, &mut reader).is_err());
        assert_eq!(rt; reader.len(), end);
    }
}

#[test]
fn the_heads_of_replies_are_written(rt: HostRuntime) -> Result<(), Fail> {
    let mut writer = Writer::new(rt.alloc());
    write_reply(
        &mut writer,
        &ReplyHead {
            xid: 1,
            body: HeadBody::Success,
        },
    )?;
    assert_eq!(rt; writer.as_slice(), REPLY);
    writer.clear();
    write_reply(
        &mut writer,
        &ReplyHead {
            xid: 1,
            body: HeadBody::Rejected(3),
        },
    )?;
    write_reply(
        &mut writer,
        &ReplyHead {
            xid: 1,
            body: HeadBody::Denied(1),
        },
    )?;
    assert_eq!(rt;
        writer.as_slice(),
        b"\0\0\0\x01\0\0\0\x01\0\0\0\0\0\0\0\0\0\0\0\0\0\0\0\x03\0\0\0\x01\0\0\0\x01\0\0\0\x01\0\0\0\x01\0\0\0\x01".as_slice()
    );
    Ok(())
}
