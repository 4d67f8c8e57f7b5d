//! What OPEN answers (RFC 8881, section 18.16).

ghost use Rattle.std.specs.Prelude.{◌≡◌, ◌++◌, OnOk};
ghost use Rattle.n41_attr.specs.Operations.{Gives};
ghost use Rattle.n41_attr.specs.Parts.{outcome};
ghost use Rattle.n41_ops.specs.Openings.{change_info, ace, limit, why, delegation, opened};

use n41_attr::OpFault;
use n41_attr::parts::{
    read_set, read_stateid, read_string, write_set, write_stateid, write_string,
};
use n41_results::{Ace, ChangeInfo, Delegation, Limit, Opened, Why};
use n41_types::{NoMemory, Status};
use n41_xdr::{Reader, Writer, XdrFault};
use std::alloc::Global;

#[tactic(auto, unfolding(crate::specs::Openings::change_info))]
pub(crate) fn read_change_info(r: &mut Reader) -> Result<ChangeInfo, OpFault>
    ensures { Gives (λ x. x) result r.new (change_info.read r.old) }
{
    let atomic = r.boolean()?;
    let before = r.u64()?;
    let after = r.u64()?;
    Ok(ChangeInfo {
        atomic,
        before,
        after,
    })
}

#[tactic(auto, unfolding(crate::specs::Openings::change_info))]
pub(crate) fn write_change_info(w: &mut Writer, x: &ChangeInfo) -> Result<(), NoMemory>
    ensures { OnOk result (w.new ≡ w.old ++ change_info.spell x.now) }
{
    w.put_bool(x.atomic)?;
    w.put_u64(x.before)?;
    w.put_u64(x.after)
}

#[tactic(auto, unfolding(crate::specs::Openings::ace))]
fn read_ace(alloc: Global, r: &mut Reader) -> Result<Ace, OpFault>
    ensures { Gives (λ x. x) result r.new (ace.read r.old) }
{
    let kind = r.u32()?;
    let flags = r.u32()?;
    let mask = r.u32()?;
    let who = read_string(alloc, r)?;
    Ok(Ace {
        kind,
        flags,
        mask,
        who,
    })
}

#[tactic(auto, unfolding(crate::specs::Openings::ace))]
fn write_ace(w: &mut Writer, x: &Ace) -> Result<(), NoMemory>
    requires { ace.Fits x.now }
    ensures { OnOk result (w.new ≡ w.old ++ ace.spell x.now) }
{
    w.put_u32(x.kind)?;
    w.put_u32(x.flags)?;
    w.put_u32(x.mask)?;
    write_string(w, &x.who)
}

#[tactic(auto, unfolding(crate::specs::Openings::limit))]
fn read_limit(r: &mut Reader) -> Result<Limit, OpFault>
    ensures { Gives (λ x. x) result r.new (limit.read r.old) }
{
    match r.u32()? {
        1 => Ok(Limit::Size(r.u64()?)),
        2 => {
            let count = r.u32()?;
            let size = r.u32()?;
            Ok(Limit::Blocks { count, size })
        }
        number => Err(OpFault::Xdr(XdrFault::BadArm(number))),
    }
}

#[tactic(auto, unfolding(crate::specs::Openings::limit))]
fn write_limit(w: &mut Writer, x: &Limit) -> Result<(), NoMemory>
    ensures { OnOk result (w.new ≡ w.old ++ limit.spell x.now) }
{
    match x {
        Limit::Size(size) => {
            w.put_u32(1)?;
            w.put_u64(*size)
        }
        Limit::Blocks { count, size } => {
            w.put_u32(2)?;
            w.put_u32(*count)?;
            w.put_u32(*size)
        }
    }
}

#[tactic(auto, unfolding(crate::specs::Openings::why))]
fn read_why(r: &mut Reader) -> Result<Why, OpFault>
    ensures { Gives (λ x. x) result r.new (why.read r.old) }
{
    match r.u32()? {
        1 => Ok(Why::Contention(r.boolean()?)),
        2 => Ok(Why::Resource(r.boolean()?)),
        number => Ok(Why::Other(number)),
    }
}

#[tactic(auto, unfolding(crate::specs::Openings::why))]
fn write_why(w: &mut Writer, x: &Why) -> Result<(), NoMemory>
    requires { why.Fits x.now }
    ensures { OnOk result (w.new ≡ w.old ++ why.spell x.now) }
{
    match x {
        Why::Contention(will) => {
            w.put_u32(1)?;
            w.put_bool(*will)
        }
        Why::Resource(will) => {
            w.put_u32(2)?;
            w.put_bool(*will)
        }
        Why::Other(number) => w.put_u32(*number),
    }
}

#[tactic(auto, unfolding(crate::specs::Openings::delegation))]
fn read_delegation(alloc: Global, r: &mut Reader) -> Result<Delegation, OpFault>
    ensures { Gives (λ x. x) result r.new (delegation.read r.old) }
{
    match r.u32()? {
        0 => Ok(Delegation::Nothing),
        1 => {
            let stateid = read_stateid(r)?;
            let recall = r.boolean()?;
            let ace = read_ace(alloc, r)?;
            Ok(Delegation::Read {
                stateid,
                recall,
                ace,
            })
        }
        2 => {
            let stateid = read_stateid(r)?;
            let recall = r.boolean()?;
            let limit = read_limit(r)?;
            let ace = read_ace(alloc, r)?;
            Ok(Delegation::Write {
                stateid,
                recall,
                limit,
                ace,
            })
        }
        3 => Ok(Delegation::Refused(read_why(r)?)),
        number => Err(OpFault::Xdr(XdrFault::BadArm(number))),
    }
}

#[tactic(auto, unfolding(crate::specs::Openings::delegation))]
fn write_delegation(w: &mut Writer, x: &Delegation) -> Result<(), NoMemory>
    requires { delegation.Fits x.now }
    ensures { OnOk result (w.new ≡ w.old ++ delegation.spell x.now) }
{
    match x {
        Delegation::Nothing => w.put_u32(0),
        Delegation::Read {
            stateid,
            recall,
            ace,
        } => {
            w.put_u32(1)?;
            write_stateid(w, stateid)?;
            w.put_bool(*recall)?;
            write_ace(w, ace)
        }
        Delegation::Write {
            stateid,
            recall,
            limit,
            ace,
        } => {
            w.put_u32(2)?;
            write_stateid(w, stateid)?;
            w.put_bool(*recall)?;
            write_limit(w, limit)?;
            write_ace(w, ace)
        }
        Delegation::Refused(why) => {
            w.put_u32(3)?;
            write_why(w, why)
        }
    }
}

#[tactic(auto, unfolding(crate::specs::Openings::opened))]
fn read_opened(alloc: Global, r: &mut Reader) -> Result<Opened, OpFault>
    ensures { Gives (λ x. x) result r.new (opened.read r.old) }
{
    let stateid = read_stateid(r)?;
    let change = read_change_info(r)?;
    let flags = r.u32()?;
    let set = read_set(alloc, r)?;
    let delegation = read_delegation(alloc, r)?;
    Ok(Opened {
        stateid,
        change,
        flags,
        set,
        delegation,
    })
}

#[tactic(auto, unfolding(crate::specs::Openings::opened))]
fn write_opened(w: &mut Writer, x: &Opened) -> Result<(), NoMemory>
    requires { opened.Fits x.now }
    ensures { OnOk result (w.new ≡ w.old ++ opened.spell x.now) }
{
    write_stateid(w, &x.stateid)?;
    write_change_info(w, &x.change)?;
    w.put_u32(x.flags)?;
    write_set(w, &x.set)?;
    write_delegation(w, &x.delegation)
}

pub(crate) fn read_open(alloc: Global, r: &mut Reader) -> Result<Result<Opened, Status>, OpFault>
    ensures { Gives (λ x. x) result r.new ((outcome opened).read r.old) }
{
    match r.u32()? {
        0 => Ok(Ok(read_opened(alloc, r)?)),
        number => Ok(Err(Status(number))),
    }
}

pub(crate) fn write_open(w: &mut Writer, x: &Result<Opened, Status>) -> Result<(), NoMemory>
    requires { (outcome opened).Fits x.now }
    ensures { OnOk result (w.new ≡ w.old ++ (outcome opened).spell x.now) }
{
    match x {
        Ok(opened) => {
            w.put_u32(0)?;
            write_opened(w, opened)
        }
        Err(status) => w.put_u32(status.0),
    }
}
