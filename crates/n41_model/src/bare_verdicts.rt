ghost use Rattle.std.specs.Prelude.{◌≡◌};
ghost use Rattle.n41_model.specs.Replies.{results_of, is_wide_enough, delayed_or_breach, exchange_verdict, create_verdict, bind_verdict, destroy_session_verdict, destroy_client_verdict, bare_verdict_of, is_bare_breach};

use crate::words::BareVerdict;
use n41_results::{Reply, ReplyBody, Res, SessionMade};
use n41_types::{Plan, Status};

/// Whether the client can work with the sizes of the fore channel.
fn is_wide_enough(made: &SessionMade) -> bool
    ensures { result ≡ is_wide_enough made.now }
{
    made.fore.request_max >= 4096
        && made.fore.reply_max >= 4096
        && made.fore.ops_max >= 8
        && made.fore.requests_max >= 1
}

/// The verdict of a refusal that may only be a DELAY.
fn delayed_or_breach(status: Status) -> BareVerdict
    ensures { result ≡ delayed_or_breach status }
{
    if status == Status::DELAY {
        BareVerdict::Delayed
    } else {
        BareVerdict::Breach
    }
}

/// The results of a reply, of which there are none where it was denied or rejected.
fn results(body: &ReplyBody) -> &[Res]
    ensures { result.now ≡ results_of body.now }
{
    match body {
        ReplyBody::Results { list, .. } => list.as_slice(),
        _ => &[],
    }
}

/// RFC 8881, section 18.35.
fn exchange_verdict(body: &ReplyBody) -> BareVerdict
    ensures { result ≡ exchange_verdict body.now }
{
    match results(body) {
        [Res::ExchangeId(Ok(identity))] => BareVerdict::Named {
            client: identity.client,
            sequence: identity.sequence,
        },
        [Res::ExchangeId(Err(status))] => delayed_or_breach(*status),
        _ => BareVerdict::Breach,
    }
}

/// RFC 8881, section 18.36.
fn create_verdict(body: &ReplyBody) -> BareVerdict
    ensures { result ≡ create_verdict body.now }
{
    match results(body) {
        [Res::CreateSession(Ok(made))] => {
            if is_wide_enough(made) {
                BareVerdict::Made(*made)
            } else {
                BareVerdict::Breach
            }
        }
        [Res::CreateSession(Err(status))] => {
            if *status == Status::STALE_CLIENTID {
                BareVerdict::Stale
            } else {
                delayed_or_breach(*status)
            }
        }
        _ => BareVerdict::Breach,
    }
}

/// RFC 8881, section 18.34.
fn bind_verdict(body: &ReplyBody) -> BareVerdict
    ensures { result ≡ bind_verdict body.now }
{
    match results(body) {
        [Res::Bind(Ok(_))] => BareVerdict::Bound,
        [Res::Bind(Err(status))] => delayed_or_breach(*status),
        _ => BareVerdict::Breach,
    }
}

/// The session is given up whatever the status.
fn destroy_session_verdict(body: &ReplyBody) -> BareVerdict
    ensures { result ≡ destroy_session_verdict body.now }
{
    match results(body) {
        [Res::DestroySession(_)] => BareVerdict::SessionGone,
        _ => BareVerdict::Breach,
    }
}

/// The client id is given up whatever the status.
fn destroy_client_verdict(body: &ReplyBody) -> BareVerdict
    ensures { result ≡ destroy_client_verdict body.now }
{
    match results(body) {
        [Res::DestroyClient(_)] => BareVerdict::ClientGone,
        _ => BareVerdict::Breach,
    }
}

impl BareVerdict {
    /// What a reply does to the request without a slot that it answers.
    pub fn of(plan: &Plan, reply: &Reply) -> BareVerdict
        ensures { result ≡ bare_verdict_of plan.now reply.now }
    {
        match plan {
            Plan::ExchangeId { .. } => exchange_verdict(&reply.body),
            Plan::CreateSession { .. } => create_verdict(&reply.body),
            Plan::Bind { .. } => bind_verdict(&reply.body),
            Plan::DestroySession { .. } => destroy_session_verdict(&reply.body),
            Plan::DestroyClient { .. } => destroy_client_verdict(&reply.body),
            _ => BareVerdict::Breach,
        }
    }

    /// Whether it is a breach of the rules.
    pub fn is_breach(&self) -> bool
        ensures { result ≡ is_bare_breach self.now }
    {
        matches!(self, BareVerdict::Breach)
    }
}
