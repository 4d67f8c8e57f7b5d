ghost use Rattle.std.specs.Prelude.{◌≡◌, IfOk};
ghost use Rattle.n41_model.specs.Requests.{turn_of};
ghost use Rattle.n41_runs.specs.Server.{is_at, last, kept, was_made, is_end_of, alive, slots_given, client_in, made_for, is_bind_of, is_bound, is_id, unless_ended, was_named, confirmed, unconfirmed, is_there, next_sequence, last_made};

use crate::net::carrier;
use crate::replies::ran_reply;
use n41_results::{ReplyBody, SessionMade};
use n41_runs::Step;
use n41_types::{NoMemory, Plan, Request, SessionId, SlotUse};
use std::alloc::Global;

/// Whether a use is of this slot of this session.
fn is_at(used: Option<SlotUse>, session: SessionId, slot: u32) -> bool
    ensures { result ≡ is_at used session slot }
{
    match used {
        None => false,
        Some(place) => place.sid == session && place.slot == slot,
    }
}

/// The turn of a use of a slot; zero where there is none.
fn turn_of(used: Option<SlotUse>) -> u32
    ensures { result ≡ turn_of used }
{
    match used {
        None => 0,
        Some(place) => place.turn,
    }
}

/// The last turn that ran on a slot of a session; zero where none did.
pub(crate) fn last(run: &[Step], session: SessionId, slot: u32) -> u32
    ensures { result ≡ last run.now session slot }
{
    match run {
        [] => 0,
        [Step::Runs { request, .. }, before @ ..] => {
            if is_at(request.slot, session, slot) {
                turn_of(request.slot)
            } else {
                last(before, session, slot)
            }
        }
        [_, before @ ..] => last(before, session, slot),
    }
}

/// The reply that is kept for that turn.
pub(crate) fn kept(
    alloc: Global,
    run: &[Step],
    session: SessionId,
    slot: u32,
) -> Result<Option<ReplyBody>, NoMemory>
    ensures { IfOk result (λ o. o ≡ kept run.now session slot) }
{
    match run {
        [] => Ok(None),
        [
            Step::Runs {
                request,
                sequenced,
                results,
                ..
            },
            before @ ..,
        ] => {
            if is_at(request.slot, session, slot) {
                let reply = ran_reply(alloc, request, *sequenced, results.as_slice())?;
                Ok(Some(reply.body))
            } else {
                kept(alloc, before, session, slot)
            }
        }
        [_, before @ ..] => kept(alloc, before, session, slot),
    }
}

/// Whether the session was ever made.
pub(crate) fn was_made(run: &[Step], session: SessionId) -> bool
    ensures { result ≡ was_made run.now session }
{
    match run {
        [] => false,
        [Step::Makes { made, .. }, before @ ..] => made.sid == session || was_made(before, session),
        [_, before @ ..] => was_made(before, session),
    }
}

/// Whether a plan ends this session.
fn is_end_of(plan: &Plan, session: SessionId) -> bool
    ensures { result ≡ is_end_of plan.now session }
{
    match plan {
        Plan::DestroySession { sid } => *sid == session,
        _ => false,
    }
}

/// Whether the session is there.
pub(crate) fn alive(run: &[Step], session: SessionId) -> bool
    ensures { result ≡ alive run.now session }
{
    match run {
        [] => false,
        [Step::Makes { made, .. }, before @ ..] => made.sid == session || alive(before, session),
        [Step::Ends { request, .. }, before @ ..] => {
            !is_end_of(&request.plan, session) && alive(before, session)
        }
        [_, before @ ..] => alive(before, session),
    }
}

/// How many slots the session was given.
pub(crate) fn slots_given(run: &[Step], session: SessionId) -> u32
    ensures { result ≡ slots_given run.now session }
{
    match run {
        [] => 0,
        [Step::Makes { made, .. }, before @ ..] => {
            if made.sid == session {
                made.fore.requests_max
            } else {
                slots_given(before, session)
            }
        }
        [_, before @ ..] => slots_given(before, session),
    }
}

/// The client id that a plan names.
fn client_in(plan: &Plan) -> Option<u64>
    ensures { result ≡ client_in plan.now }
{
    match plan {
        Plan::CreateSession { client, .. } => Some(*client),
        Plan::DestroyClient { client } => Some(*client),
        _ => None,
    }
}

/// The client id for which the session was made.
pub(crate) fn made_for(run: &[Step], session: SessionId) -> Option<u64>
    ensures { result ≡ made_for run.now session }
{
    match run {
        [] => None,
        [Step::Makes { request, made, .. }, before @ ..] => {
            if made.sid == session {
                client_in(&request.plan)
            } else {
                made_for(before, session)
            }
        }
        [_, before @ ..] => made_for(before, session),
    }
}

/// Whether a plan binds a connection to this session.
fn is_bind_of(plan: &Plan, session: SessionId) -> bool
    ensures { result ≡ is_bind_of plan.now session }
{
    match plan {
        Plan::Bind { sid } => *sid == session,
        _ => false,
    }
}

/// Whether the connection is bound to the session.
pub(crate) fn is_bound(run: &[Step], session: SessionId, conn: u64) -> bool
    ensures { result ≡ is_bound run.now session conn }
{
    match run {
        [] => false,
        [Step::Makes { message, made, .. }, before @ ..] => {
            (made.sid == session && carrier(before, *message) == conn)
                || is_bound(before, session, conn)
        }
        [
            Step::Binds {
                message,
                request,
                ..
            },
            before @ ..,
        ] => {
            (is_bind_of(&request.plan, session) && carrier(before, *message) == conn)
                || is_bound(before, session, conn)
        }
        [_, before @ ..] => is_bound(before, session, conn),
    }
}

/// Whether it is this client id.
pub(crate) fn is_id(id: Option<u64>, client: u64) -> bool
    ensures { result ≡ is_id id client }
{
    match id {
        None => false,
        Some(id) => id == client,
    }
}

/// A client id, unless the plan removes it.
fn unless_ended(id: Option<u64>, plan: &Plan) -> Option<u64>
    ensures { result ≡ unless_ended id plan.now }
{
    match id {
        None => None,
        Some(client) => {
            if is_id(client_in(plan), client) {
                None
            } else {
                Some(client)
            }
        }
    }
}

/// Whether the client id was ever given.
pub(crate) fn was_named(run: &[Step], client: u64) -> bool
    ensures { result ≡ was_named run.now client }
{
    match run {
        [] => false,
        [Step::Names { identity, .. }, before @ ..] => {
            identity.client == client || was_named(before, client)
        }
        [_, before @ ..] => was_named(before, client),
    }
}

/// The client id that is confirmed: by its first session.
pub(crate) fn confirmed(run: &[Step]) -> Option<u64>
    ensures { result ≡ confirmed run.now }
{
    match run {
        [] => None,
        [Step::Makes { request, .. }, ..] => client_in(&request.plan),
        [Step::Ends { request, .. }, before @ ..] => unless_ended(confirmed(before), &request.plan),
        [_, before @ ..] => confirmed(before),
    }
}

/// The client id that is not confirmed yet: the last one given, where none is confirmed.
pub(crate) fn unconfirmed(run: &[Step]) -> Option<u64>
    ensures { result ≡ unconfirmed run.now }
{
    match run {
        [] => None,
        [Step::Names { identity, .. }, before @ ..] => {
            if confirmed(before).is_some() {
                unconfirmed(before)
            } else {
                Some(identity.client)
            }
        }
        [Step::Makes { .. }, ..] => None,
        [Step::Ends { request, .. }, before @ ..] => {
            unless_ended(unconfirmed(before), &request.plan)
        }
        [_, before @ ..] => unconfirmed(before),
    }
}

/// Whether the client id is there.
pub(crate) fn is_there(run: &[Step], client: u64) -> bool
    ensures { result ≡ is_there run.now client }
{
    is_id(confirmed(run), client) || is_id(unconfirmed(run), client)
}

/// The sequence of the next CREATE_SESSION of a client id.
pub(crate) fn next_sequence(run: &[Step], client: u64) -> u32
    ensures { result ≡ next_sequence run.now client }
{
    match run {
        [] => 0,
        [Step::Names { identity, .. }, before @ ..] => {
            if identity.client == client && confirmed(before).is_none() {
                identity.sequence
            } else {
                next_sequence(before, client)
            }
        }
        [Step::Makes { request, .. }, before @ ..] => {
            let next = next_sequence(before, client);
            if is_id(client_in(&request.plan), client) {
                next.wrapping_add(1)
            } else {
                next
            }
        }
        [_, before @ ..] => next_sequence(before, client),
    }
}

/// The session that the last CREATE_SESSION of a client id made.
pub(crate) fn last_made(run: &[Step], client: u64) -> Option<SessionMade>
    ensures { result ≡ last_made run.now client }
{
    match run {
        [] => None,
        [Step::Makes { request, made, .. }, before @ ..] => {
            if is_id(client_in(&request.plan), client) {
                Some(*made)
            } else {
                last_made(before, client)
            }
        }
        [_, before @ ..] => last_made(before, client),
    }
}
