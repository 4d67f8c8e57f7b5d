//! The calls that a CB_SEQUENCE refers to.

ghost use Rattle.std.specs.Prelude.{◌≡◌, ◌++◌, OnOk};
ghost use Rattle.n41_xdr.specs.Format.{list, many_at};
ghost use Rattle.n41_attr.specs.declared.fault.OpFault.TheVariants.{Xdr};
ghost use Rattle.n41_attr.specs.Operations.{Gives};
ghost use Rattle.n41_cbmsg.specs.Arguments.{referring_call, referring_list};

use n41_attr::OpFault;
use n41_attr::parts::{read_session, write_session};
use n41_results::{ReferringCall, ReferringCalls, ReferringList, ReferringLists};
use n41_types::{NoMemory, Sequence};
use n41_xdr::{Reader, Writer};
use std::alloc::Global;

#[tactic(auto, unfolding(crate::specs::Arguments::referring_call))]
fn read_referring_call(r: &mut Reader) -> Result<ReferringCall, OpFault>
    ensures { Gives (λ x. x) result r.new (referring_call.read r.old) }
{
    let turn = r.u32()?;
    let slot = r.u32()?;
    Ok(ReferringCall { turn, slot })
}

/// So many calls. Room is taken for a call only once it is there.
fn read_some_calls(alloc: Global, r: &mut Reader, count: u32) -> Result<Vec<ReferringCall>, OpFault>
    ensures { Gives (λ calls. calls.items) result r.new (many_at referring_call count r.old) }
{
    let mut calls = Vec::new(alloc);
    for _ in 0..count {
        let next = read_referring_call(r)?;
        calls.push(next)?;
    }
    Ok(calls)
}

fn read_referring_calls(alloc: Global, r: &mut Reader) -> Result<ReferringCalls, OpFault>
    ensures { Gives (λ calls. calls) result r.new ((list Xdr referring_call).read r.old) }
{
    let count = r.u32()?;
    let calls = read_some_calls(alloc, r, count)?;
    Ok(Sequence::from_vec(alloc, calls)?)
}

#[tactic(auto, unfolding(crate::specs::Arguments::referring_list))]
fn read_referring_list(alloc: Global, r: &mut Reader) -> Result<ReferringList, OpFault>
    ensures { Gives (λ x. x) result r.new (referring_list.read r.old) }
{
    let sid = read_session(r)?;
    let calls = read_referring_calls(alloc, r)?;
    Ok(ReferringList { sid, calls })
}

/// So many lists. Room is taken for a list only once it is there.
fn read_some_lists(alloc: Global, r: &mut Reader, count: u32) -> Result<Vec<ReferringList>, OpFault>
    ensures { Gives (λ lists. lists.items) result r.new (many_at referring_list count r.old) }
{
    let mut lists = Vec::new(alloc);
    for _ in 0..count {
        let next = read_referring_list(alloc, r)?;
        lists.push(next)?;
    }
    Ok(lists)
}

pub(crate) fn read_referring_lists(alloc: Global, r: &mut Reader) -> Result<ReferringLists, OpFault>
    ensures { Gives (λ lists. lists) result r.new ((list Xdr referring_list).read r.old) }
{
    let count = r.u32()?;
    let lists = read_some_lists(alloc, r, count)?;
    Ok(Sequence::from_vec(alloc, lists)?)
}

#[tactic(auto, unfolding(crate::specs::Arguments::referring_call))]
fn write_referring_call(w: &mut Writer, x: &ReferringCall) -> Result<(), NoMemory>
    ensures { OnOk result (w.new ≡ w.old ++ referring_call.spell x.now) }
{
    w.put_u32(x.turn)?;
    w.put_u32(x.slot)
}

fn write_referring_calls(w: &mut Writer, x: &ReferringCalls) -> Result<(), NoMemory>
    requires { (list Xdr referring_call).Fits x.now }
    ensures { OnOk result (w.new ≡ w.old ++ (list Xdr referring_call).spell x.now) }
{
    let calls = x.as_slice();
    w.put_u32(calls.len() as u32)?;
    for call in calls {
        write_referring_call(w, call)?;
    }
    Ok(())
}

#[tactic(auto, unfolding(crate::specs::Arguments::referring_list))]
fn write_referring_list(w: &mut Writer, x: &ReferringList) -> Result<(), NoMemory>
    requires { referring_list.Fits x.now }
    ensures { OnOk result (w.new ≡ w.old ++ referring_list.spell x.now) }
{
    write_session(w, &x.sid)?;
    write_referring_calls(w, &x.calls)
}

pub(crate) fn write_referring_lists(w: &mut Writer, x: &ReferringLists) -> Result<(), NoMemory>
    requires { (list Xdr referring_list).Fits x.now }
    ensures { OnOk result (w.new ≡ w.old ++ (list Xdr referring_list).spell x.now) }
{
    let lists = x.as_slice();
    w.put_u32(lists.len() as u32)?;
    for list in lists {
        write_referring_list(w, list)?;
    }
    Ok(())
}
