//! Client ids and sessions.

ghost use Rattle.std.specs.Prelude.{◌≡◌, ◌++◌, IfOk, OnOk};
ghost use Rattle.n41_requests.specs.Plans.{args_of, back_channel, create_session_args, fore_channel};
ghost use Rattle.n41_requests.specs.Requests.{args_text, AllFit};

use n41_args::{Arg, BindArgs, CreateSessionArgs, ExchangeIdArgs, Securities, Security, write_arg};
use n41_results::Channel;
use n41_types::{Bytes, NoMemory, Plan, SessionId, Verifier};
use n41_xdr::Writer;
use std::alloc::Global;

/// The program of the callbacks.
const CALLBACK_PROGRAM: u32 = 0x40000000;

/// Neither PERSIST nor CONN_BACK_CHAN (RFC 8881, section 18.36).
const SESSION_FLAGS: u32 = 0;

/// CDFC4_FORE (RFC 8881, channel_dir_from_client4).
const FORE: u32 = 1;

pub(crate) fn write_exchange_id(
    w: &mut Writer,
    verifier: &Verifier,
    owner: &Bytes,
) -> Result<(), NoMemory>
    requires { AllFit (args_of (Plan.ExchangeId verifier.now owner.now)) }
    ensures { OnOk result (w.new ≡ w.old ++ args_text (args_of (Plan.ExchangeId verifier.now owner.now))) }
{
    let args = ExchangeIdArgs {
        verifier: *verifier,
        owner: owner.clone()?,
        flags: 0,
        implementation: None,
    };
    write_arg(w, &Arg::ExchangeId(args))
}

/// What is asked of the channel of requests. Sizes are in bytes.
const FORE_CHANNEL: Channel = Channel {
    header_pad: 0,
    request_max: 69632,
    reply_max: 69632,
    cached_max: 4096,
    ops_max: 32,
    requests_max: 64,
    ird: None,
};

/// What is asked of the channel of callbacks. Sizes are in bytes.
const BACK_CHANNEL: Channel = Channel {
    header_pad: 0,
    request_max: 4096,
    reply_max: 4096,
    cached_max: 4096,
    ops_max: 8,
    requests_max: 4,
    ird: None,
};

fn create_session_args(alloc: Global, client: u64, seq: u32) -> Result<CreateSessionArgs, NoMemory>
    ensures { IfOk result (λ args. args ≡ create_session_args client seq) }
{
    let mut securities = Vec::new(alloc);
    securities.push(Security::None)?;
    Ok(CreateSessionArgs {
        client,
        sequence: seq,
        flags: SESSION_FLAGS,
        fore: FORE_CHANNEL,
        back: BACK_CHANNEL,
        program: CALLBACK_PROGRAM,
        securities: Securities::from_vec(alloc, securities)?,
    })
}

pub(crate) fn write_create_session(
    alloc: Global,
    w: &mut Writer,
    client: u64,
    seq: u32,
) -> Result<(), NoMemory>
    requires { AllFit (args_of (Plan.CreateSession client seq)) }
    ensures { OnOk result (w.new ≡ w.old ++ args_text (args_of (Plan.CreateSession client seq))) }
{
    write_arg(
        w,
        &Arg::CreateSession(create_session_args(alloc, client, seq)?),
    )
}

pub(crate) fn write_bind(w: &mut Writer, sid: SessionId) -> Result<(), NoMemory>
    requires { AllFit (args_of (Plan.Bind sid)) }
    ensures { OnOk result (w.new ≡ w.old ++ args_text (args_of (Plan.Bind sid))) }
{
    let args = BindArgs {
        sid,
        direction: FORE,
        rdma: false,
    };
    write_arg(w, &Arg::Bind(args))
}

pub(crate) fn write_destroy_session(w: &mut Writer, sid: SessionId) -> Result<(), NoMemory>
    requires { AllFit (args_of (Plan.DestroySession sid)) }
    ensures { OnOk result (w.new ≡ w.old ++ args_text (args_of (Plan.DestroySession sid))) }
{
    write_arg(w, &Arg::DestroySession(sid))
}

pub(crate) fn write_destroy_client(w: &mut Writer, client: u64) -> Result<(), NoMemory>
    requires { AllFit (args_of (Plan.DestroyClient client)) }
    ensures { OnOk result (w.new ≡ w.old ++ args_text (args_of (Plan.DestroyClient client))) }
{
    write_arg(w, &Arg::DestroyClient(client))
}

pub(crate) fn write_complete(w: &mut Writer) -> Result<(), NoMemory>
    requires { AllFit (args_of Plan.Complete) }
    ensures { OnOk result (w.new ≡ w.old ++ args_text (args_of Plan.Complete)) }
{
    write_arg(w, &Arg::ReclaimComplete(false))
}
