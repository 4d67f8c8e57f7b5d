//! What the operations of client ids and sessions answer (RFC 8881, sections 18.34 to 18.36, 18.46 and 18.48).

ghost use Rattle.std.specs.Prelude.{◌≡◌, ◌++◌, OnOk, length};
ghost use Rattle.n41_xdr.specs.Format.{many_at};
ghost use Rattle.n41_attr.specs.Operations.{Gives};
ghost use Rattle.n41_attr.specs.Parts.{status, outcome};
ghost use Rattle.n41_ops.specs.Sessions.{identity, session_made, bound, sequenced, statuses};

use n41_attr::OpFault;
use n41_attr::parts::{
    read_owner_bytes, read_session, read_status, read_zero, write_owner_bytes, write_session,
    write_status, write_zero,
};
use n41_results::{Bound, Identity, Sequenced, SessionMade, Statuses};
use n41_shared::sessions::{read_channel, read_impl_option, write_channel, write_impl_option};
use n41_types::{NoMemory, Sequence, Status};
use n41_xdr::{Reader, Writer};
use std::alloc::Global;

#[tactic(auto, unfolding(crate::specs::Sessions::identity))]
fn read_identity(alloc: Global, r: &mut Reader) -> Result<Identity, OpFault>
    ensures { Gives (λ x. x) result r.new (identity.read r.old) }
{
    let client = r.u64()?;
    let sequence = r.u32()?;
    let flags = r.u32()?;
    read_zero(r)?;
    let minor = r.u64()?;
    let major = read_owner_bytes(alloc, r)?;
    let scope = read_owner_bytes(alloc, r)?;
    let implementation = read_impl_option(alloc, r)?;
    Ok(Identity {
        client,
        sequence,
        flags,
        minor,
        major,
        scope,
        implementation,
    })
}

#[tactic(auto, unfolding(crate::specs::Sessions::identity))]
fn write_identity(w: &mut Writer, x: &Identity) -> Result<(), NoMemory>
    requires { identity.Fits x.now }
    ensures { OnOk result (w.new ≡ w.old ++ identity.spell x.now) }
{
    w.put_u64(x.client)?;
    w.put_u32(x.sequence)?;
    w.put_u32(x.flags)?;
    write_zero(w)?;
    w.put_u64(x.minor)?;
    write_owner_bytes(w, &x.major)?;
    write_owner_bytes(w, &x.scope)?;
    write_impl_option(w, &x.implementation)
}

#[tactic(auto, unfolding(crate::specs::Sessions::session_made))]
fn read_session_made(r: &mut Reader) -> Result<SessionMade, OpFault>
    ensures { Gives (λ x. x) result r.new (session_made.read r.old) }
{
    let sid = read_session(r)?;
    let sequence = r.u32()?;
    let flags = r.u32()?;
    let fore = read_channel(r)?;
    let back = read_channel(r)?;
    Ok(SessionMade {
        sid,
        sequence,
        flags,
        fore,
        back,
    })
}

#[tactic(auto, unfolding(crate::specs::Sessions::session_made))]
fn write_session_made(w: &mut Writer, x: &SessionMade) -> Result<(), NoMemory>
    ensures { OnOk result (w.new ≡ w.old ++ session_made.spell x.now) }
{
    write_session(w, &x.sid)?;
    w.put_u32(x.sequence)?;
    w.put_u32(x.flags)?;
    write_channel(w, &x.fore)?;
    write_channel(w, &x.back)
}

#[tactic(auto, unfolding(crate::specs::Sessions::sequenced))]
fn read_sequenced(r: &mut Reader) -> Result<Sequenced, OpFault>
    ensures { Gives (λ x. x) result r.new (sequenced.read r.old) }
{
    let sid = read_session(r)?;
    let turn = r.u32()?;
    let slot = r.u32()?;
    let highest = r.u32()?;
    let target = r.u32()?;
    let flags = r.u32()?;
    Ok(Sequenced {
        sid,
        turn,
        slot,
        highest,
        target,
        flags,
    })
}

#[tactic(auto, unfolding(crate::specs::Sessions::sequenced))]
fn write_sequenced(w: &mut Writer, x: &Sequenced) -> Result<(), NoMemory>
    ensures { OnOk result (w.new ≡ w.old ++ sequenced.spell x.now) }
{
    write_session(w, &x.sid)?;
    w.put_u32(x.turn)?;
    w.put_u32(x.slot)?;
    w.put_u32(x.highest)?;
    w.put_u32(x.target)?;
    w.put_u32(x.flags)
}

/// So many statuses. Room is taken for a status only once it is there.
fn read_status_count(alloc: Global, r: &mut Reader, count: u32) -> Result<Statuses, OpFault>
    ensures { Gives (λ x. x) result r.new (many_at status count r.old) }
{
    let mut list = Vec::new(alloc);
    for _ in 0..count {
        let next = read_status(r)?;
        list.push(next)?;
    }
    Ok(Sequence::from_vec(alloc, list)?)
}

#[tactic(auto, unfolding(crate::specs::Sessions::statuses))]
fn read_statuses(alloc: Global, r: &mut Reader) -> Result<Statuses, OpFault>
    ensures { Gives (λ x. x) result r.new (statuses.read r.old) }
{
    let count = r.u32()?;
    read_status_count(alloc, r, count)
}

#[tactic(auto, unfolding(crate::specs::Sessions::statuses))]
fn write_statuses(w: &mut Writer, x: &Statuses) -> Result<(), NoMemory>
    requires { statuses.Fits x.now }
    ensures { OnOk result (w.new ≡ w.old ++ statuses.spell x.now) }
{
    let list = x.as_slice();
    w.put_u32(list.len() as u32)?;
    for next in list {
        write_status(w, next)?;
    }
    Ok(())
}

#[tactic(auto, unfolding(crate::specs::Sessions::bound))]
pub(crate) fn read_bind(r: &mut Reader) -> Result<Result<Bound, Status>, OpFault>
    ensures { Gives (λ x. x) result r.new ((outcome bound).read r.old) }
{
    match r.u32()? {
        0 => {
            let sid = read_session(r)?;
            let direction = r.u32()?;
            let rdma = r.boolean()?;
            Ok(Ok(Bound {
                sid,
                direction,
                rdma,
            }))
        }
        number => Ok(Err(Status(number))),
    }
}

#[tactic(auto, unfolding(crate::specs::Sessions::bound))]
pub(crate) fn write_bind(w: &mut Writer, x: &Result<Bound, Status>) -> Result<(), NoMemory>
    requires { (outcome bound).Fits x.now }
    ensures { OnOk result (w.new ≡ w.old ++ (outcome bound).spell x.now) }
{
    match x {
        Ok(bound) => {
            w.put_u32(0)?;
            write_session(w, &bound.sid)?;
            w.put_u32(bound.direction)?;
            w.put_bool(bound.rdma)
        }
        Err(status) => w.put_u32(status.0),
    }
}

pub(crate) fn read_exchange_id(
    alloc: Global,
    r: &mut Reader,
) -> Result<Result<Identity, Status>, OpFault>
    ensures { Gives (λ x. x) result r.new ((outcome identity).read r.old) }
{
    match r.u32()? {
        0 => Ok(Ok(read_identity(alloc, r)?)),
        number => Ok(Err(Status(number))),
    }
}

pub(crate) fn write_exchange_id(
    w: &mut Writer,
    x: &Result<Identity, Status>,
) -> Result<(), NoMemory>
    requires { (outcome identity).Fits x.now }
    ensures { OnOk result (w.new ≡ w.old ++ (outcome identity).spell x.now) }
{
    match x {
        Ok(identity) => {
            w.put_u32(0)?;
            write_identity(w, identity)
        }
        Err(status) => w.put_u32(status.0),
    }
}

pub(crate) fn read_create_session(r: &mut Reader) -> Result<Result<SessionMade, Status>, OpFault>
    ensures { Gives (λ x. x) result r.new ((outcome session_made).read r.old) }
{
    match r.u32()? {
        0 => Ok(Ok(read_session_made(r)?)),
        number => Ok(Err(Status(number))),
    }
}

pub(crate) fn write_create_session(
    w: &mut Writer,
    x: &Result<SessionMade, Status>,
) -> Result<(), NoMemory>
    requires { (outcome session_made).Fits x.now }
    ensures { OnOk result (w.new ≡ w.old ++ (outcome session_made).spell x.now) }
{
    match x {
        Ok(made) => {
            w.put_u32(0)?;
            write_session_made(w, made)
        }
        Err(status) => w.put_u32(status.0),
    }
}

pub(crate) fn read_sequence(r: &mut Reader) -> Result<Result<Sequenced, Status>, OpFault>
    ensures { Gives (λ x. x) result r.new ((outcome sequenced).read r.old) }
{
    match r.u32()? {
        0 => Ok(Ok(read_sequenced(r)?)),
        number => Ok(Err(Status(number))),
    }
}

pub(crate) fn write_sequence(w: &mut Writer, x: &Result<Sequenced, Status>) -> Result<(), NoMemory>
    requires { (outcome sequenced).Fits x.now }
    ensures { OnOk result (w.new ≡ w.old ++ (outcome sequenced).spell x.now) }
{
    match x {
        Ok(sequenced) => {
            w.put_u32(0)?;
            write_sequenced(w, sequenced)
        }
        Err(status) => w.put_u32(status.0),
    }
}

pub(crate) fn read_test_stateid(
    alloc: Global,
    r: &mut Reader,
) -> Result<Result<Statuses, Status>, OpFault>
    ensures { Gives (λ x. x) result r.new ((outcome statuses).read r.old) }
{
    match r.u32()? {
        0 => Ok(Ok(read_statuses(alloc, r)?)),
        number => Ok(Err(Status(number))),
    }
}

pub(crate) fn write_test_stateid(
    w: &mut Writer,
    x: &Result<Statuses, Status>,
) -> Result<(), NoMemory>
    requires { (outcome statuses).Fits x.now }
    ensures { OnOk result (w.new ≡ w.old ++ (outcome statuses).spell x.now) }
{
    match x {
        Ok(list) => {
            w.put_u32(0)?;
            write_statuses(w, list)
        }
        Err(status) => w.put_u32(status.0),
    }
}
