//! Channels and implementations (RFC 8881, sections 18.36 and 3.3.21).

ghost use Rattle.std.specs.Prelude.{◌≡◌, ◌++◌, OnOk};
ghost use Rattle.n41_xdr.specs.Format.{option};
ghost use Rattle.n41_attr.specs.declared.fault.OpFault.TheVariants.{Xdr};
ghost use Rattle.n41_attr.specs.Operations.{Gives};
ghost use Rattle.n41_attr.specs.Parts.{word};
ghost use Rattle.n41_shared.specs.Sessions.{channel, impl_id, impl_option};

use n41_attr::OpFault;
use n41_attr::parts::{read_string, write_string};
use n41_results::{Channel, ImplId};
use n41_types::NoMemory;
use n41_xdr::{Reader, Writer, XdrFault};
use std::alloc::Global;

/// A number that may be absent.
fn read_ird(r: &mut Reader) -> Result<Option<u32>, OpFault>
    ensures { Gives (λ x. x) result r.new ((option Xdr word).read r.old) }
{
    match r.u32()? {
        0 => Ok(None),
        1 => Ok(Some(r.u32()?)),
        len => Err(OpFault::Xdr(XdrFault::TooLong { len, max: 1 })),
    }
}

fn write_ird(w: &mut Writer, x: Option<u32>) -> Result<(), NoMemory>
    ensures { OnOk result (w.new ≡ w.old ++ (option Xdr word).spell x) }
{
    match x {
        None => w.put_u32(0),
        Some(number) => {
            w.put_u32(1)?;
            w.put_u32(number)
        }
    }
}

/// The sizes of a channel (RFC 8881, channel_attrs4).
#[tactic(auto, unfolding(crate::specs::Sessions::channel))]
pub fn read_channel(r: &mut Reader) -> Result<Channel, OpFault>
    ensures { Gives (λ x. x) result r.new (channel.read r.old) }
{
    let header_pad = r.u32()?;
    let request_max = r.u32()?;
    let reply_max = r.u32()?;
    let cached_max = r.u32()?;
    let ops_max = r.u32()?;
    let requests_max = r.u32()?;
    let ird = read_ird(r)?;
    Ok(Channel {
        header_pad,
        request_max,
        reply_max,
        cached_max,
        ops_max,
        requests_max,
        ird,
    })
}

/// The sizes of a channel, written at the end.
#[tactic(auto, unfolding(crate::specs::Sessions::channel))]
pub fn write_channel(w: &mut Writer, x: &Channel) -> Result<(), NoMemory>
    ensures { OnOk result (w.new ≡ w.old ++ channel.spell x.now) }
{
    w.put_u32(x.header_pad)?;
    w.put_u32(x.request_max)?;
    w.put_u32(x.reply_max)?;
    w.put_u32(x.cached_max)?;
    w.put_u32(x.ops_max)?;
    w.put_u32(x.requests_max)?;
    write_ird(w, x.ird)
}

#[tactic(auto, unfolding(crate::specs::Sessions::impl_id))]
fn read_impl_id(alloc: Global, r: &mut Reader) -> Result<ImplId, OpFault>
    ensures { Gives (λ x. x) result r.new (impl_id.read r.old) }
{
    let domain = read_string(alloc, r)?;
    let name = read_string(alloc, r)?;
    let seconds = r.array()?;
    let nanoseconds = r.u32()?;
    Ok(ImplId {
        domain,
        name,
        seconds,
        nanoseconds,
    })
}

#[tactic(auto, unfolding(crate::specs::Sessions::impl_id))]
fn write_impl_id(w: &mut Writer, x: &ImplId) -> Result<(), NoMemory>
    requires { impl_id.Fits x.now }
    ensures { OnOk result (w.new ≡ w.old ++ impl_id.spell x.now) }
{
    write_string(w, &x.domain)?;
    write_string(w, &x.name)?;
    w.put_fixed(&x.seconds)?;
    w.put_u32(x.nanoseconds)
}

/// At most one implementation (RFC 8881, nfs_impl_id4).
#[tactic(auto, unfolding(crate::specs::Sessions::impl_option))]
pub fn read_impl_option(alloc: Global, r: &mut Reader) -> Result<Option<ImplId>, OpFault>
    ensures { Gives (λ x. x) result r.new (impl_option.read r.old) }
{
    match r.u32()? {
        0 => Ok(None),
        1 => Ok(Some(read_impl_id(alloc, r)?)),
        len => Err(OpFault::Xdr(XdrFault::TooLong { len, max: 1 })),
    }
}

/// At most one implementation, written at the end.
#[tactic(auto, unfolding(crate::specs::Sessions::impl_option))]
pub fn write_impl_option(w: &mut Writer, x: &Option<ImplId>) -> Result<(), NoMemory>
    requires { impl_option.Fits x.now }
    ensures { OnOk result (w.new ≡ w.old ++ impl_option.spell x.now) }
{
    match x {
        None => w.put_u32(0),
        Some(id) => {
            w.put_u32(1)?;
            write_impl_id(w, id)
        }
    }
}
