ghost use Rattle.std.specs.Prelude.{◌≡◌, option_copied};
ghost use Rattle.n41_model.specs.Sessions.{raised, client_after, session_after, slots_after, bound_after, unbound_after, is_complete, completes, plan_in, completed_after, completed_by, target_in, target_after};
ghost use Rattle.n41_calls.specs.Answers.{breaks, place_or};

use crate::phases::completes;
use n41_model::{BareVerdict, KnownClient, Verdict};
use n41_results::{ReplyBody, Res, SessionMade};
use n41_types::{Plan, Request};

/// The same client id with the next sequence.
fn raised(client: Option<KnownClient>) -> Option<KnownClient>
    ensures { result ≡ raised client }
{
    match client {
        None => None,
        Some(known) => Some(KnownClient {
            id: known.id,
            sequence: known.sequence.wrapping_add(1),
        }),
    }
}

/// The client id that is kept after a verdict.
pub fn client_after(
    verdict: Option<BareVerdict>,
    client: Option<KnownClient>,
) -> Option<KnownClient>
    ensures { result ≡ client_after verdict client }
{
    match verdict {
        Some(BareVerdict::Named { client, sequence }) => Some(KnownClient {
            id: client,
            sequence,
        }),
        Some(BareVerdict::Made(_)) => raised(client),
        Some(BareVerdict::Stale | BareVerdict::ClientGone) => None,
        _ => client,
    }
}

/// The session that is kept after a verdict.
pub fn session_after(verdict: Option<BareVerdict>, kept: Option<SessionMade>) -> Option<SessionMade>
    ensures { result ≡ session_after verdict kept }
{
    match verdict {
        Some(BareVerdict::Made(session)) => Some(session),
        Some(BareVerdict::SessionGone) => None,
        _ => kept,
    }
}

/// How many slots the last session has, once this one was made.
pub fn slots_after(made: Option<SessionMade>, slots: u32) -> u32
    ensures { result ≡ slots_after made slots }
{
    match made {
        None => slots,
        Some(session) => session.fore.requests_max.min(64),
    }
}

/// Whether the connection is bound after the verdict on a request without a slot.
pub fn bound_after(verdict: Option<BareVerdict>, bound: bool) -> bool
    ensures { result ≡ bound_after verdict bound }
{
    match verdict {
        Some(BareVerdict::Made(_) | BareVerdict::Bound) => true,
        Some(BareVerdict::SessionGone) => false,
        _ => bound,
    }
}

/// Whether the connection is bound after the verdict on a request with a slot.
pub fn unbound_after(verdict: Option<Verdict>, bound: bool) -> bool
    ensures { result ≡ unbound_after verdict bound }
{
    match verdict {
        Some(Verdict::Unbound) => false,
        _ => bound,
    }
}

/// Whether RECLAIM_COMPLETE is done after the verdict on a request without a slot.
pub fn completed_after(verdict: Option<BareVerdict>, completed: bool) -> bool
    ensures { result ≡ completed_after verdict completed }
{
    match verdict {
        Some(BareVerdict::Named { .. }) => false,
        _ => completed,
    }
}

/// Whether the request is a RECLAIM_COMPLETE.
fn is_complete(request: Option<&Request>) -> bool
    ensures { result ≡ is_complete (plan_in (option_copied request.entry)) }
{
    match request {
        None => false,
        Some(request) => matches!(request.plan, Plan::Complete),
    }
}

/// Whether RECLAIM_COMPLETE is done after the verdict on a request with a slot.
pub fn completed_by(request: Option<&Request>, verdict: Option<Verdict>, completed: bool) -> bool
    ensures { result ≡ completed_by (plan_in (option_copied request.entry)) verdict completed }
{
    match verdict {
        Some(Verdict::Ran(status)) => is_complete(request) && completes(status) || completed,
        _ => completed,
    }
}

/// The highest slot that the server wants used after a reply which makes no session.
fn target_in(body: &ReplyBody, target: u32) -> u32
    ensures { result ≡ target_in body.now target }
{
    let ReplyBody::Results { list, .. } = body else {
        return target;
    };
    match list.as_slice() {
        [Res::Sequence(Ok(sequenced)), ..] => sequenced.target,
        _ => target,
    }
}

/// The highest slot that the server wants used after a reply.
pub fn target_after(made: Option<SessionMade>, body: &ReplyBody, target: u32) -> u32
    ensures { result ≡ target_after made body.now target }
{
    match made {
        None => target_in(body, target),
        Some(session) => session.fore.requests_max.min(64).saturating_sub(1),
    }
}

/// Whether no server gives such a reply which keeps the rules.
pub fn breaks(slot: Option<Verdict>, bare: Option<BareVerdict>) -> bool
    ensures { result ≡ breaks slot bare }
{
    match (slot, bare) {
        (Some(verdict), _) => verdict.is_breach(),
        (None, Some(verdict)) => verdict.is_breach(),
        (None, None) => false,
    }
}

/// The first place, or else the second.
pub fn place_or(place: Option<u64>, other: Option<u64>) -> Option<u64>
    ensures { result ≡ place_or place other }
{
    match place {
        Some(place) => Some(place),
        None => other,
    }
}
