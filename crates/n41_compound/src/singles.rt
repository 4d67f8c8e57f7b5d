//! The plans of one operation: those without a slot, and those that ask of stateids or tell of a reclaim.

ghost use Rattle.std.specs.Prelude.{◌≡◌, IfOk};
ghost use Rattle.n41_compound.specs.Singles.{bind_of, exchange_of, is_asked, is_channel, is_unsecured, session_of, single};

use n41_args::{Arg, BindArgs, CreateSessionArgs, ExchangeIdArgs, Security};
use n41_results::Channel;
use n41_types::{NoMemory, Plan};

fn exchange_of(args: &ExchangeIdArgs) -> Result<Option<Plan>, NoMemory>
    ensures { IfOk result (λ plan. plan ≡ exchange_of args.now) }
{
    if args.flags == 0 && args.implementation.is_none() {
        Ok(Some(Plan::ExchangeId {
            verifier: args.verifier,
            owner: args.owner.clone()?,
        }))
    } else {
        Ok(None)
    }
}

/// Whether a channel has these sizes, in bytes and of requests and replies alike, and no more.
#[tactic(auto, unfolding(crate::specs::Singles::is_channel))]
fn is_channel(channel: &Channel, size: u32, cached: u32, ops: u32, requests: u32) -> bool
    ensures { result ≡ is_channel channel.now size cached ops requests }
{
    channel.header_pad == 0
        && channel.request_max == size
        && channel.reply_max == size
        && channel.cached_max == cached
        && channel.ops_max == ops
        && channel.requests_max == requests
        && channel.ird.is_none()
}

/// Whether AUTH_NONE is all of them.
#[tactic(auto, unfolding(crate::specs::Singles::is_unsecured))]
fn is_unsecured(securities: &[Security]) -> bool
    ensures { result ≡ is_unsecured securities.now }
{
    matches!(securities, [Security::None])
}

/// Whether this is what this client asks of a session.
fn is_asked(args: &CreateSessionArgs) -> bool
    ensures { result ≡ is_asked args.now }
{
    args.flags == 0
        && args.program == 0x4000_0000
        && is_channel(&args.fore, 69_632, 4_096, 32, 64)
        && is_channel(&args.back, 4_096, 4_096, 8, 4)
        && is_unsecured(args.securities.as_slice())
}

fn session_of(args: &CreateSessionArgs) -> Option<Plan>
    ensures { result ≡ session_of args.now }
{
    if is_asked(args) {
        Some(Plan::CreateSession {
            client: args.client,
            seq: args.sequence,
        })
    } else {
        None
    }
}

fn bind_of(args: &BindArgs) -> Option<Plan>
    ensures { result ≡ bind_of args.now }
{
    if args.direction == 1 && !args.rdma {
        Some(Plan::Bind { sid: args.sid })
    } else {
        None
    }
}

/// The plan of which an operation is all.
pub(crate) fn single(arg: &Arg) -> Result<Option<Plan>, NoMemory>
    ensures { IfOk result (λ plan. plan ≡ single arg.now) }
{
    match arg {
        Arg::ExchangeId(args) => exchange_of(args),
        Arg::CreateSession(args) => Ok(session_of(args)),
        Arg::Bind(args) => Ok(bind_of(args)),
        Arg::DestroySession(sid) => Ok(Some(Plan::DestroySession { sid: *sid })),
        Arg::DestroyClient(client) => Ok(Some(Plan::DestroyClient { client: *client })),
        Arg::TestStateid(list) => Ok(Some(Plan::Test {
            stateids: list.clone()?,
        })),
        Arg::FreeStateid(stateid) => Ok(Some(Plan::Free { stateid: *stateid })),
        Arg::ReclaimComplete(false) => Ok(Some(Plan::Complete)),
        _ => Ok(None),
    }
}
