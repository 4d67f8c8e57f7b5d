use crate::{
    Answer, Bytes, Command, Fh, Label, LockKind, Locker, Name, NameFault, Operation, Owner, Place,
    Plan, PlanEvent, PlanLine, Request, Span, Stateid, Status, Texts, Value,
};
use std::alloc::AllocError;

#[test]
fn names_are_told_from_other_bytes(rt: HostRuntime) {
    let long = [b'x'; 256];
    for (bytes, want) in [
        (&long[..0], Some(NameFault::Empty)),
        (&long[..], Some(NameFault::TooLong(256))),
        (&long[..255], None),
        (&b"a/b\0"[..], Some(NameFault::BadByte(1))),
        (&b"ab\0/"[..], Some(NameFault::BadByte(2))),
        (&b".."[..], None),
    ] {
        assert_eq!(rt; Name::of(rt.alloc(), bytes).err(), want);
    }
}

#[test]
fn copies_are_equal(rt: HostRuntime) -> Result<(), AllocError> {
    let alloc = rt.alloc();
    let bytes = Bytes::copy_from_slice(alloc, b"abc")?;
    let stateid = Stateid {
        seqid: 1,
        other: [7; 12],
    };
    let span = Span::of_wire(5, u64::MAX);
    assert_eq!(rt; span.len, None);
    assert_eq!(rt; span.wire_length(), u64::MAX);
    let request = Request {
        xid: 1,
        uid: 2,
        gid: 3,
        minor: 1,
        slot: None,
        plan: Plan::LockBytes {
            fh: Fh::new(bytes.clone()?),
            kind: LockKind::Write,
            span,
            reclaim: false,
            locker: Locker::New {
                opener: stateid,
                owner: Owner::new(bytes.clone()?),
            },
        },
    };
    assert!(rt; request.clone()? == request);
    assert!(rt; request.plan.is_cached());
    assert!(rt; request.plan != Plan::LeaseTime);
    let command = Command::Lock {
        label: Label::new(bytes.clone()?),
        kind: LockKind::Read,
        span,
    };
    assert!(rt; command.clone()? == command);
    let answer = Answer::Done(Value::Names {
        names: Texts::from_vec(Vec::new(alloc)),
        more: true,
    });
    assert!(rt; answer.clone()? == answer);
    assert!(rt; answer != Answer::Refused(Status::NOENT));
    let line = PlanLine {
        nth: 1,
        op: Operation::Write.number(),
        event: PlanEvent::Break,
    };
    assert!(rt; line.clone()? == line);
    assert_eq!(rt; line.op, 38);
    assert!(rt; Place::Root.clone()? == Place::Root);
    Ok(())
}
