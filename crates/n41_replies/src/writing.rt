ghost use Rattle.std.specs.Prelude.{◌≡◌, ◌++◌, [], map, IfOk, OnOk};
ghost use Rattle.std.specs.List.{flat_map, AllByRecursion};
ghost use Rattle.n41_ops.specs.Results.{told_res, written_res};
ghost use Rattle.n41_rpc.specs.Heads.{head, reply, written_verdict, IsBody};
ghost use Rattle.n41_replies.specs.Replies.{head_body, body_text, told_of, WrittenFits, IsSpellable, Spells, written};

use n41_ops::write_res;
use n41_results::{Reply, ReplyBody, Res};
use n41_rpc::{HeadBody, ReplyHead, write_reply};
use n41_types::{Bytes, NoMemory};
use n41_xdr::Writer;
use std::alloc::Global;

/// What the head of a reply says.
fn head_body(body: &ReplyBody) -> HeadBody
    ensures { result ≡ head_body body.now }
{
    match body {
        ReplyBody::Denied(number) => HeadBody::Denied(*number),
        ReplyBody::Rejected(number) => HeadBody::Rejected(*number),
        ReplyBody::Results { .. } => HeadBody::Success,
    }
}

fn write_head(w: &mut Writer, xid: u32, body: HeadBody) -> Result<(), NoMemory>
    requires { IsBody body }
    ensures { OnOk result (w.new ≡ w.old ++ head.spell (xid, reply (written_verdict body))) }
{
    write_reply(w, &ReplyHead { xid, body })
}

fn write_list(w: &mut Writer, list: &[Res]) -> Result<(), NoMemory>
    requires { AllByRecursion told_res.Fits (map written_res list.now) }
    ensures { OnOk result (w.new ≡ w.old ++ flat_map told_res.spell (map written_res list.now)) }
{
    for answer in list {
        write_res(w, answer)?;
    }
    Ok(())
}

/// The status, an empty tag and the results.
fn write_body(w: &mut Writer, body: &ReplyBody) -> Result<(), NoMemory>
    requires { WrittenFits body.now }
    ensures { OnOk result (w.new ≡ w.old ++ body_text body.now [] (told_of body.now)) }
{
    match body {
        ReplyBody::Results { status, list } => {
            w.put_u32(status.0)?;
            w.put_opaque(&[])?;
            w.put_u32(list.len() as u32)?;
            write_list(w, list.as_slice())
        }
        ReplyBody::Denied(_) | ReplyBody::Rejected(_) => Ok(()),
    }
}

/// Writes the reply to a COMPOUND, with the verifier AUTH_NONE and an empty tag.
pub fn spell_reply(alloc: Global, reply: &Reply) -> Result<Bytes, NoMemory>
    requires { IsSpellable reply.now }
    ensures text { IfOk result (λ bytes. bytes ≡ written reply.now) }
    ensures spells { IfOk result (λ bytes. Spells reply.now bytes) }
{
    let mut w = Writer::new(alloc);
    write_head(&mut w, reply.xid, head_body(&reply.body))?;
    write_body(&mut w, &reply.body)?;
    Ok(Bytes::from_vec(w.into_bytes())?)
}
