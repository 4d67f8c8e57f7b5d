ghost use Rattle.std.specs.Prelude.{IfOk};
ghost use Rattle.n41_requests.specs.Requests.{IsSpellable};

use super::*;
use n41_types::{Bytes, NoMemory, Place, Plan, Request, SessionId, SlotUse};
use std::alloc::Global;

/// An EXCHANGE_ID of the owner `n41` with verifier 5.
const EXCHANGE: &[u8] =
    b"\0\0\0\x01\0\0\0\0\0\0\0\x02\0\x01\x86\xa3\0\0\0\x04\0\0\0\x01\0\0\0\x01\0\0\0\x18\0\0\0\0\0\0\0\x03n41\0\0\0\x03\xe8\0\0\x03\xe8\0\0\0\0\0\0\0\0\0\0\0\0\0\0\0\0\0\0\0\x01\0\0\0\x01\0\0\0*\0\0\0\0\0\0\0\x05\0\0\0\x03n41\0\0\0\0\0\0\0\0\0\0\0\0\0";

/// A look at the root, behind the first SEQUENCE of slot 0.
const LOOK: &[u8] =
    b"\0\0\0\x05\0\0\0\0\0\0\0\x02\0\x01\x86\xa3\0\0\0\x04\0\0\0\x01\0\0\0\x01\0\0\0\x18\0\0\0\0\0\0\0\x03n41\0\0\0\x03\xe8\0\0\x03\xe8\0\0\0\0\0\0\0\0\0\0\0\0\0\0\0\0\0\0\0\x01\0\0\0\x03\0\0\x005\0\x01\x02\x03\x04\x05\x06\x07\x08\t\n\x0b\x0c\r\x0e\x0f\0\0\0\x01\0\0\0\0\0\0\0\0\0\0\0\0\0\0\0\x18\0\0\0\t\0\0\0\x02\0\x10\0\x1a\0\0\0\x02";

fn exchange(alloc: Global) -> Result<Request, NoMemory>
    ensures { IfOk result (λ q. IsSpellable q) }
{
    let owner = Bytes::copy_from_slice(alloc, b"n41")?;
    Ok(Request {
        xid: 1,
        uid: 1000,
        gid: 1000,
        minor: 1,
        slot: None,
        plan: Plan::ExchangeId {
            verifier: [0, 0, 0, 0, 0, 0, 0, 5],
            owner,
        },
    })
}

fn look() -> Request
    ensures { IsSpellable result }
{
    Request {
        xid: 5,
        uid: 1000,
        gid: 1000,
        minor: 1,
        slot: Some(SlotUse {
            sid: SessionId([0, 1, 2, 3, 4, 5, 6, 7, 8, 9, 10, 11, 12, 13, 14, 15]),
            slot: 0,
            turn: 1,
            highest: 0,
            cache: false,
        }),
        plan: Plan::Stat { at: Place::Root },
    }
}

/// Whether these are the bytes of a request.
fn is_spelled(alloc: Global, q: &Request, text: &[u8]) -> bool
    requires { IsSpellable q.now }
{
    match spell(alloc, q) {
        Ok(bytes) => bytes.as_slice() == text,
        Err(_) => false,
    }
}

fn exchange_is_spelled(alloc: Global) -> bool {
    match exchange(alloc) {
        Ok(q) => is_spelled(alloc, &q, EXCHANGE),
        Err(_) => false,
    }
}

#[test]
fn an_exchange_is_spelled(rt: HostRuntime) {
    let spelled = exchange_is_spelled(rt.alloc());
    assert!(rt; spelled);
}

#[test]
fn a_look_at_the_root_is_spelled(rt: HostRuntime) {
    let spelled = is_spelled(rt.alloc(), &look(), LOOK);
    assert!(rt; spelled);
}
