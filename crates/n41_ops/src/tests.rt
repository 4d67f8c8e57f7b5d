ghost use Rattle.std.specs.Prelude.{IfOk};
ghost use Rattle.n41_ops.specs.Results.{told_res, written_res};

use super::*;
use n41_results::{
    Ace, ChangeInfo, Delegation, Entries, Entry, Identity, Limit, Listing, LockDenied, LockRefusal,
    LockType, Opened, Res,
};
use n41_types::{Attrs, Bytes, Owner, Sequence, Stateid, Status};
use n41_xdr::{Reader, Writer};
use std::alloc::{AllocError, Global};

/// What a server answers to EXCHANGE_ID: client 7, sequence 1, and the major id and the scope `srv`.
const IDENTITY: &[u8] =
    b"\0\0\0*\0\0\0\0\0\0\0\0\0\0\0\x07\0\0\0\x01\0\x01\0\0\0\0\0\0\0\0\0\0\0\0\0\0\0\0\0\x03srv\0\0\0\0\x03srv\0\0\0\0\0";

/// A lock is denied: the bytes from 1 on are locked for writing by the owner `o` of client 2.
const DENIED: &[u8] =
    b"\0\0\0\x0c\0\0'\x1a\0\0\0\0\0\0\0\x01\xff\xff\xff\xff\xff\xff\xff\xff\0\0\0\x02\0\0\0\0\0\0\0\x02\0\0\0\x01o\0\0\0";

/// Two entries, `a` with its type and `b` with no attributes.
const LISTING: &[u8] =
    b"\0\0\0\x1a\0\0\0\0verifier\0\0\0\x01\0\0\0\0\0\0\0\x03\0\0\0\x01a\0\0\0\0\0\0\x01\0\0\0\x02\0\0\0\x04\0\0\0\x01\0\0\0\x01\0\0\0\0\0\0\0\x04\0\0\0\x01b\0\0\0\0\0\0\0\0\0\0\0\0\0\0\0\0\0\0\x01";

/// An open with a write delegation, under which the file may grow to 9 bytes.
const OPENED: &[u8] =
    b"\0\0\0\x12\0\0\0\0\0\0\0\x01open-stateid\0\0\0\x01\0\0\0\0\0\0\0\x05\0\0\0\0\0\0\0\x06\0\0\0\x02\0\0\0\0\0\0\0\x02\0\0\0\x01writestateid\0\0\0\0\0\0\0\x01\0\0\0\0\0\0\0\x09\0\0\0\0\0\0\0\0\0\0\0\0\0\0\0\0";

/// The attributes were not set but for the size.
const PARTLY_SET: &[u8] = b"\0\0\0\x22\0\0\0\x0d\0\0\0\x01\0\0\0\x10";

/// Of two stateids one is revoked.
const TESTED: &[u8] = b"\0\0\07\0\0\0\0\0\0\0\x02\0\0\0\0\0\0'g";

/// Whether nothing can be read of the bytes, and none is taken.
fn is_refused(alloc: Global, bytes: &[u8]) -> bool {
    let mut reader = Reader::new(bytes);
    let refused = read_res(alloc, &mut reader).is_err();
    refused && reader.len() == bytes.len()
}

/// Whether nothing can be read of any part that the bytes begin with.
fn is_refused_where_cut(alloc: Global, bytes: &[u8]) -> bool {
    for end in 0..bytes.len() {
        if !is_refused(alloc, &bytes[..end]) {
            return false;
        }
    }
    true
}

/// Whether this is what the bytes are read as, and it is all of them.
fn is_read(alloc: Global, bytes: &[u8], want: &Res) -> bool {
    let mut reader = Reader::new(bytes);
    match read_res(alloc, &mut reader) {
        Ok(res) => reader.is_empty() && res == *want,
        Err(_) => false,
    }
}

/// Whether the value that was made is what the bytes are read as.
fn is_read_as(alloc: Global, bytes: &[u8], want: Result<Res, AllocError>) -> bool {
    match want {
        Ok(want) => is_read(alloc, bytes, &want),
        Err(_) => false,
    }
}

/// Whether these bytes are what is written.
fn is_written(alloc: Global, res: &Res, want: &[u8]) -> bool
    requires { told_res.Fits (written_res res.now) }
{
    let mut writer = Writer::new(alloc);
    match write_res(&mut writer, res) {
        Ok(()) => writer.as_slice() == want,
        Err(_) => false,
    }
}

#[tactic(auto, unfolding(crate::specs::Results::told_res, crate::specs::Sessions::identity, n41_shared::specs::Sessions::impl_option, n41_attr::specs::Parts::owner_bytes, n41_attr::specs::Parts::always_zero))]
fn identity(alloc: Global) -> Result<Res, AllocError>
    ensures { IfOk result (λ x. told_res.Fits (written_res x)) }
{
    Ok(Res::ExchangeId(Ok(Identity {
        client: 7,
        sequence: 1,
        flags: 0x10000,
        minor: 0,
        major: Bytes::copy_from_slice(alloc, b"srv")?,
        scope: Bytes::copy_from_slice(alloc, b"srv")?,
        implementation: None,
    })))
}

#[tactic(auto, unfolding(crate::specs::Results::told_res, crate::specs::Locks::lock_denied, n41_shared::specs::Locks::lock_type, n41_attr::specs::Parts::owner_bytes))]
fn denied(alloc: Global) -> Result<Res, AllocError>
    ensures { IfOk result (λ x. told_res.Fits (written_res x)) }
{
    Ok(Res::Lock(Err(LockRefusal::Denied(LockDenied {
        offset: 1,
        length: u64::MAX,
        kind: LockType::Write,
        client: 2,
        owner: Owner::new(Bytes::copy_from_slice(alloc, b"o")?),
    }))))
}

fn entry(alloc: Global, cookie: u64, name: &[u8], kind: Option<u32>) -> Result<Entry, AllocError> {
    Ok(Entry {
        cookie,
        name: Bytes::copy_from_slice(alloc, name)?,
        attrs: Attrs {
            kind,
            change: None,
            size: None,
            lease: None,
            fileid: None,
            mode: None,
        },
    })
}

fn entries(alloc: Global) -> Result<Entries, AllocError> {
    let mut entries = Vec::new(alloc);
    entries.push(entry(alloc, 3, b"a", Some(1))?)?;
    entries.push(entry(alloc, 4, b"b", None)?)?;
    Sequence::from_vec(alloc, entries)
}

fn listing(alloc: Global) -> Result<Res, AllocError> {
    let entries = entries(alloc)?;
    Ok(Res::ReadDir(Ok(Listing {
        verifier: *b"verifier",
        entries,
        eof: true,
    })))
}

fn delegation(alloc: Global) -> Result<Delegation, AllocError> {
    Ok(Delegation::Write {
        stateid: Stateid {
            seqid: 1,
            other: *b"writestateid",
        },
        recall: false,
        limit: Limit::Size(9),
        ace: Ace {
            kind: 0,
            flags: 0,
            mask: 0,
            who: Bytes::copy_from_slice(alloc, b"")?,
        },
    })
}

fn opened(alloc: Global) -> Result<Res, AllocError> {
    let set = Sequence::from_vec(alloc, Vec::new(alloc))?;
    let delegation = delegation(alloc)?;
    Ok(Res::Open(Ok(Opened {
        stateid: Stateid {
            seqid: 1,
            other: *b"open-stateid",
        },
        change: ChangeInfo {
            atomic: true,
            before: 5,
            after: 6,
        },
        flags: 2,
        set,
        delegation,
    })))
}

fn partly_set(alloc: Global) -> Result<Res, AllocError> {
    let set = Sequence::from_vec(alloc, [16].to_vec(alloc)?)?;
    Ok(Res::SetAttr {
        status: Status::ACCESS,
        set,
    })
}

fn tested(alloc: Global) -> Result<Res, AllocError> {
    let statuses = [Status::OK, Status::DELEG_REVOKED].to_vec(alloc)?;
    let list = Sequence::from_vec(alloc, statuses)?;
    Ok(Res::TestStateid(Ok(list)))
}

fn identity_is_written(alloc: Global) -> bool {
    match identity(alloc) {
        Ok(res) => is_written(alloc, &res, IDENTITY),
        Err(_) => false,
    }
}

fn denial_is_written(alloc: Global) -> bool {
    match denied(alloc) {
        Ok(res) => is_written(alloc, &res, DENIED),
        Err(_) => false,
    }
}

#[test]
fn sessions_and_locks_are_read(rt: HostRuntime) {
    let identity = is_read_as(rt.alloc(), IDENTITY, identity(rt.alloc()));
    assert!(rt; identity);
    let denied = is_read_as(rt.alloc(), DENIED, denied(rt.alloc()));
    assert!(rt; denied);
}

#[test]
fn lists_are_read(rt: HostRuntime) {
    let listing = is_read_as(rt.alloc(), LISTING, listing(rt.alloc()));
    assert!(rt; listing);
    let tested = is_read_as(rt.alloc(), TESTED, tested(rt.alloc()));
    assert!(rt; tested);
}

#[test]
fn files_are_read(rt: HostRuntime) {
    let opened = is_read_as(rt.alloc(), OPENED, opened(rt.alloc()));
    assert!(rt; opened);
    let partly_set = is_read_as(rt.alloc(), PARTLY_SET, partly_set(rt.alloc()));
    assert!(rt; partly_set);
}

#[test]
fn results_are_refused_where_they_are_cut(rt: HostRuntime) {
    for bytes in [IDENTITY, DENIED, LISTING, OPENED, PARTLY_SET, TESTED] {
        let refused = is_refused_where_cut(rt.alloc(), bytes);
        assert!(rt; refused);
    }
}

#[test]
fn results_are_written(rt: HostRuntime) {
    let identity = identity_is_written(rt.alloc());
    assert!(rt; identity);
    let denial = denial_is_written(rt.alloc());
    assert!(rt; denial);
}
