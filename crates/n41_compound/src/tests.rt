use super::*;
use n41_types::{Place, Plan, Request, SessionId, SlotUse};
use std::alloc::Global;

/// A look at the root, behind the first SEQUENCE of slot 0.
const LOOK: &[u8] =
    b"\0\0\0\x05\0\0\0\0\0\0\0\x02\0\x01\x86\xa3\0\0\0\x04\0\0\0\x01\0\0\0\x01\0\0\0\x18\0\0\0\0\0\0\0\x03n41\0\0\0\x03\xe8\0\0\x03\xe8\0\0\0\0\0\0\0\0\0\0\0\0\0\0\0\0\0\0\0\x01\0\0\0\x03\0\0\x005\0\x01\x02\x03\x04\x05\x06\x07\x08\t\n\x0b\x0c\r\x0e\x0f\0\0\0\x01\0\0\0\0\0\0\0\0\0\0\0\0\0\0\0\x18\0\0\0\t\0\0\0\x02\0\x10\0\x1a\0\0\0\x02";

/// The same with `n42` for the machine name.
const ANOTHER_MACHINE: &[u8] =
    b"\0\0\0\x05\0\0\0\0\0\0\0\x02\0\x01\x86\xa3\0\0\0\x04\0\0\0\x01\0\0\0\x01\0\0\0\x18\0\0\0\0\0\0\0\x03n42\0\0\0\x03\xe8\0\0\x03\xe8\0\0\0\0\0\0\0\0\0\0\0\0\0\0\0\0\0\0\0\x01\0\0\0\x03\0\0\x005\0\x01\x02\x03\x04\x05\x06\x07\x08\t\n\x0b\x0c\r\x0e\x0f\0\0\0\x01\0\0\0\0\0\0\0\0\0\0\0\0\0\0\0\x18\0\0\0\t\0\0\0\x02\0\x10\0\x1a\0\0\0\x02";

fn look() -> Request {
    Request {
        xid: 5,
        uid: 1000,
        gid: 1000,
        minor: 1,
        slot: Some(SlotUse {
            sid: SessionId([0, 1, 2, 3, 4, 5, 6, 7, 8, 9, 10, 11, 12, 13, 14, 15]),
            slot: 0,
            turn: 1,
            highest: 0,
            cache: false,
        }),
        plan: Plan::Stat { at: Place::Root },
    }
}

/// Whether this is the request of a call.
fn is_found(alloc: Global, call: &CallSeen, want: &Request) -> bool {
    match request_of(alloc, call) {
        Ok(Some(q)) => q == *want,
        Ok(None) | Err(_) => false,
    }
}

/// Whether the request of a call is the look.
fn is_look(alloc: Global, bytes: &[u8]) -> bool {
    match read_request(alloc, bytes) {
        Ok(call) => is_found(alloc, &call, &look()),
        Err(_) => false,
    }
}

/// Whether a call has no request.
fn has_none(alloc: Global, call: &CallSeen) -> bool {
    match request_of(alloc, call) {
        Ok(None) => true,
        Ok(Some(_)) | Err(_) => false,
    }
}

/// Whether bytes are those of a call that has no request.
fn is_of_none(alloc: Global, bytes: &[u8]) -> bool {
    match read_request(alloc, bytes) {
        Ok(call) => has_none(alloc, &call),
        Err(_) => false,
    }
}

#[test]
fn the_request_of_a_look_is_found(rt: HostRuntime) {
    let found = is_look(rt.alloc(), LOOK);
    assert!(rt; found);
}

#[test]
fn the_call_of_another_client_has_no_request(rt: HostRuntime) {
    let none = is_of_none(rt.alloc(), ANOTHER_MACHINE);
    assert!(rt; none);
}
