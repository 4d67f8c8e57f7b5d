//! What the operations of client ids and sessions take (RFC 8881, sections 18.34 to 18.36 and 18.46).

ghost use Rattle.std.specs.Prelude.{◌≡◌, ◌++◌, OnOk};
ghost use Rattle.n41_attr.specs.Operations.{Gives};
ghost use Rattle.n41_session_args.specs.Sessions.{exchange_id, create_session, bind, sequence};

use crate::security::{Securities, read_securities, write_securities};
use n41_attr::OpFault;
use n41_attr::parts::{
    read_owner_bytes, read_session, read_verifier, read_zero, write_owner_bytes, write_session,
    write_verifier, write_zero,
};
use n41_results::{Channel, ImplId};
use n41_shared::sessions::{read_channel, read_impl_option, write_channel, write_impl_option};
use n41_types::{Bytes, NoMemory, SessionId, SlotUse, Verifier};
use n41_xdr::{Reader, Writer};
use std::alloc::{AllocError, Global};

/// What EXCHANGE_ID takes without protection of state (RFC 8881, EXCHANGE_ID4args).
#[derive(Drop, PartialEq, Eq)]
pub struct ExchangeIdArgs {
    pub verifier: Verifier,
    pub owner: Bytes,
    pub flags: u32,
    pub implementation: Option<ImplId>,
}

impl Clone for ExchangeIdArgs {
    ghost is_clone = { λ x y. y ≡ x };

    fn clone(&self) -> Result<ExchangeIdArgs, AllocError> {
        let implementation = match &self.implementation {
            None => None,
            Some(id) => Some(id.clone()?),
        };
        Ok(ExchangeIdArgs {
            verifier: self.verifier,
            owner: self.owner.clone()?,
            flags: self.flags,
            implementation,
        })
    }
}

/// What CREATE_SESSION takes (RFC 8881, CREATE_SESSION4args). The flags are PERSIST 1 and CONN_BACK_CHAN 2, and `program` is that of
/// the callbacks.
#[derive(Drop, PartialEq, Eq)]
pub struct CreateSessionArgs {
    pub client: u64,
    pub sequence: u32,
    pub flags: u32,
    pub fore: Channel,
    pub back: Channel,
    pub program: u32,
    pub securities: Securities,
}

impl Clone for CreateSessionArgs {
    ghost is_clone = { λ x y. y ≡ x };

    fn clone(&self) -> Result<CreateSessionArgs, AllocError> {
        Ok(CreateSessionArgs {
            client: self.client,
            sequence: self.sequence,
            flags: self.flags,
            fore: self.fore,
            back: self.back,
            program: self.program,
            securities: self.securities.clone()?,
        })
    }
}

/// What BIND_CONN_TO_SESSION takes (RFC 8881, BIND_CONN_TO_SESSION4args). The directions are FORE 1, BACK 2, FORE_OR_BOTH 3 and
/// BACK_OR_BOTH 7.
#[derive(Clone, Copy, PartialEq, Eq)]
pub struct BindArgs {
    pub sid: SessionId,
    pub direction: u32,
    pub rdma: bool,
}

#[tactic(auto, unfolding(crate::specs::Sessions::exchange_id))]
pub fn read_exchange_id(alloc: Global, r: &mut Reader) -> Result<ExchangeIdArgs, OpFault>
    ensures { Gives (λ x. x) result r.new (exchange_id.read r.old) }
{
    let verifier = read_verifier(r)?;
    let owner = read_owner_bytes(alloc, r)?;
    let flags = r.u32()?;
    read_zero(r)?;
    let implementation = read_impl_option(alloc, r)?;
    Ok(ExchangeIdArgs {
        verifier,
        owner,
        flags,
        implementation,
    })
}

#[tactic(auto, unfolding(crate::specs::Sessions::exchange_id))]
pub fn write_exchange_id(w: &mut Writer, x: &ExchangeIdArgs) -> Result<(), NoMemory>
    requires { exchange_id.Fits x.now }
    ensures { OnOk result (w.new ≡ w.old ++ exchange_id.spell x.now) }
{
    write_verifier(w, &x.verifier)?;
    write_owner_bytes(w, &x.owner)?;
    w.put_u32(x.flags)?;
    write_zero(w)?;
    write_impl_option(w, &x.implementation)
}

#[tactic(auto, unfolding(crate::specs::Sessions::create_session))]
pub fn read_create_session(alloc: Global, r: &mut Reader) -> Result<CreateSessionArgs, OpFault>
    ensures { Gives (λ x. x) result r.new (create_session.read r.old) }
{
    let client = r.u64()?;
    let sequence = r.u32()?;
    let flags = r.u32()?;
    let fore = read_channel(r)?;
    let back = read_channel(r)?;
    let program = r.u32()?;
    let securities = read_securities(alloc, r)?;
    Ok(CreateSessionArgs {
        client,
        sequence,
        flags,
        fore,
        back,
        program,
        securities,
    })
}

#[tactic(auto, unfolding(crate::specs::Sessions::create_session))]
pub fn write_create_session(w: &mut Writer, x: &CreateSessionArgs) -> Result<(), NoMemory>
    requires { create_session.Fits x.now }
    ensures { OnOk result (w.new ≡ w.old ++ create_session.spell x.now) }
{
    w.put_u64(x.client)?;
    w.put_u32(x.sequence)?;
    w.put_u32(x.flags)?;
    write_channel(w, &x.fore)?;
    write_channel(w, &x.back)?;
    w.put_u32(x.program)?;
    write_securities(w, &x.securities)
}

#[tactic(auto, unfolding(crate::specs::Sessions::bind))]
pub fn read_bind(r: &mut Reader) -> Result<BindArgs, OpFault>
    ensures { Gives (λ x. x) result r.new (bind.read r.old) }
{
    let sid = read_session(r)?;
    let direction = r.u32()?;
    let rdma = r.boolean()?;
    Ok(BindArgs {
        sid,
        direction,
        rdma,
    })
}

#[tactic(auto, unfolding(crate::specs::Sessions::bind))]
pub fn write_bind(w: &mut Writer, x: &BindArgs) -> Result<(), NoMemory>
    ensures { OnOk result (w.new ≡ w.old ++ bind.spell x.now) }
{
    write_session(w, &x.sid)?;
    w.put_u32(x.direction)?;
    w.put_bool(x.rdma)
}

#[tactic(auto, unfolding(crate::specs::Sessions::sequence))]
pub fn read_sequence(r: &mut Reader) -> Result<SlotUse, OpFault>
    ensures { Gives (λ x. x) result r.new (sequence.read r.old) }
{
    let sid = read_session(r)?;
    let turn = r.u32()?;
    let slot = r.u32()?;
    let highest = r.u32()?;
    let cache = r.boolean()?;
    Ok(SlotUse {
        sid,
        slot,
        turn,
        highest,
        cache,
    })
}

#[tactic(auto, unfolding(crate::specs::Sessions::sequence))]
pub fn write_sequence(w: &mut Writer, x: &SlotUse) -> Result<(), NoMemory>
    ensures { OnOk result (w.new ≡ w.old ++ sequence.spell x.now) }
{
    write_session(w, &x.sid)?;
    w.put_u32(x.turn)?;
    w.put_u32(x.slot)?;
    w.put_u32(x.highest)?;
    w.put_bool(x.cache)
}
