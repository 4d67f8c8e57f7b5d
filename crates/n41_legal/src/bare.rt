ghost use Rattle.std.specs.Prelude.{◌≡◌, ◌≢◌, ◌&&◌, ◌||◌, not, is_some, IfOk, Some, None};
ghost use Rattle.std.specs.Bool.{Decides};
ghost use Rattle.n41_types.specs.declared.identities.SessionId.{SessionId};
ghost use Rattle.n41_types.specs.declared.plans.Plan.TheVariants as plan;
ghost use Rattle.n41_results.specs.declared.sessions.SessionMade.{SessionMade};
ghost use Rattle.n41_model.specs.Replies.{is_wide_enough};
ghost use Rattle.n41_runs.specs.Steps.{made_reply};
ghost use Rattle.n41_runs.specs.Server.{alive, confirmed, is_there, last_made, made_for, next_sequence, was_made, was_named};
ghost use Rattle.n41_runs.specs.Rules.{EndsClient, MakesAgain, MakesNext, MayBind, MayEnd, MayMake, MayMakeAgain, MayName, NamesAgain, is_last, misorders, plan_refuses};
ghost use Rattle.n41_legal.specs.Answers.{is_bare};

use crate::replies::made_reply;
use crate::server::{
    alive, confirmed, is_id, is_there, last_made, made_for, next_sequence, was_made, was_named,
};
use crate::slots::is_gone;
use n41_results::{Identity, Reply, SessionMade};
use n41_runs::Step;
use n41_types::{NoMemory, Plan, Request, Status};
use std::alloc::Global;

/// Whether EXCHANGE_ID may name this client: the confirmed one again, or a new one where none is confirmed.
fn names_again(run: &[Step], identity: &Identity) -> bool
    ensures { Decides result (NamesAgain run.now identity.now) }
{
    let client = confirmed(run);
    let named = was_named(run, identity.client);
    is_id(client, identity.client) || (client.is_none() && !named)
}

/// Whether a request with this plan may be answered with this identity.
pub(crate) fn may_name(run: &[Step], plan: &Plan, identity: &Identity) -> bool
    ensures { Decides result (MayName run.now plan.now identity.now) }
{
    match plan {
        Plan::ExchangeId { .. } => names_again(run, identity),
        _ => false,
    }
}

/// Whether the sequence was the last one.
fn is_last(sequence: u32, next: u32) -> bool
    ensures { result ≡ is_last sequence next }
{
    sequence.wrapping_add(1) == next
}

/// Whether the client can work with the sizes of a session.
fn is_wide_enough(made: SessionMade) -> bool
    ensures { result ≡ is_wide_enough made }
{
    made.fore.request_max >= 4096
        && made.fore.reply_max >= 4096
        && made.fore.ops_max >= 8
        && made.fore.requests_max >= 1
}

/// Whether CREATE_SESSION may make this session, at the next sequence of the client id.
fn makes_next(run: &[Step], client: u64, sequence: u32, made: SessionMade) -> bool
    ensures { Decides result (MakesNext run.now client sequence made) }
{
    let there = is_there(run, client);
    let next = next_sequence(run, client);
    let old = was_made(run, made.sid);
    let wide = is_wide_enough(made);
    there && sequence == next && !old && wide
}

/// Whether a request with this plan may make this session.
pub(crate) fn may_make(run: &[Step], plan: &Plan, made: SessionMade) -> bool
    ensures { Decides result (MayMake run.now plan.now made) }
{
    match plan {
        Plan::CreateSession { client, seq } => makes_next(run, *client, *seq, made),
        _ => false,
    }
}

/// Whether this is the reply that made a session.
fn is_made_reply(
    alloc: Global,
    request: &Request,
    made: SessionMade,
    reply: &Reply,
) -> Result<bool, NoMemory>
    ensures { IfOk result (λ b. Decides b (reply.now ≡ made_reply request.now made)) }
{
    let kept = made_reply(alloc, request, made)?;
    Ok(*reply == kept)
}

/// Whether a CREATE_SESSION of the last sequence may get this reply again.
fn makes_again(
    alloc: Global,
    run: &[Step],
    request: &Request,
    client: u64,
    sequence: u32,
    reply: &Reply,
) -> Result<bool, NoMemory>
    ensures { IfOk result (λ b. Decides b ((m : SessionMade) × MakesAgain run.now request.now client sequence m reply.now)) }
{
    let Some(made) = last_made(run, client) else {
        return Ok(false);
    };
    let same = is_made_reply(alloc, request, made, reply)?;
    let there = is_there(run, client);
    let last_one = is_last(sequence, next_sequence(run, client));
    Ok(there && last_one && same)
}

/// Whether a request with this plan may get the reply that made a session again.
pub(crate) fn may_make_again(
    alloc: Global,
    run: &[Step],
    request: &Request,
    plan: &Plan,
    reply: &Reply,
) -> Result<bool, NoMemory>
    ensures { IfOk result (λ b. Decides b (MayMakeAgain run.now request.now plan.now reply.now)) }
{
    match plan {
        Plan::CreateSession { client, seq } => {
            makes_again(alloc, run, request, *client, *seq, reply)
        }
        _ => Ok(false),
    }
}

/// Whether a request with this plan may bind a connection.
pub(crate) fn may_bind(run: &[Step], plan: &Plan) -> bool
    ensures { Decides result (MayBind run.now plan.now) }
{
    match plan {
        Plan::Bind { sid } => alive(run, *sid),
        _ => false,
    }
}

/// Whether none of the sessions that these steps made, and that are there after the run, is one of the client id.
fn is_bare(steps: &[Step], run: &[Step], client: u64) -> bool
    ensures { result ≡ is_bare steps.now run.now client }
{
    match steps {
        [] => true,
        [Step::Makes { made, .. }, before @ ..] => {
            !(alive(run, made.sid) && is_id(made_for(run, made.sid), client))
                && is_bare(before, run, client)
        }
        [_, before @ ..] => is_bare(before, run, client),
    }
}

/// Whether the client id is there, and no session of it.
fn ends_client(run: &[Step], client: u64) -> bool
    ensures { Decides result (EndsClient run.now client) }
{
    let there = is_there(run, client);
    let bare = is_bare(run, run, client);
    there && bare
}

/// Whether a request with this plan may remove a session or a client id.
pub(crate) fn may_end(run: &[Step], plan: &Plan) -> bool
    ensures { Decides result (MayEnd run.now plan.now) }
{
    match plan {
        Plan::DestroySession { sid } => alive(run, *sid),
        Plan::DestroyClient { client } => ends_client(run, *client),
        _ => false,
    }
}

/// Whether a CREATE_SESSION may be refused with this status. A sequence is out of order that is neither the next nor one whose reply is kept.
fn create_refuses(run: &[Step], client: u64, sequence: u32, status: Status) -> bool
    ensures { result ≡ plan_refuses run.now (plan.CreateSession client sequence) status }
{
    if status == Status::DELAY {
        return true;
    }
    if !is_there(run, client) {
        return status == Status::STALE_CLIENTID;
    }
    let next = next_sequence(run, client);
    status == Status::SEQ_MISORDERED
        && sequence != next
        && !(is_last(sequence, next) && last_made(run, client).is_some())
}

/// Whether a request with this plan may be refused with this status.
pub(crate) fn plan_refuses(run: &[Step], plan: &Plan, status: Status) -> bool
    ensures { result ≡ plan_refuses run.now plan.now status }
{
    match plan {
        Plan::ExchangeId { .. } => status == Status::DELAY,
        Plan::CreateSession { client, seq } => create_refuses(run, *client, *seq, status),
        Plan::Bind { sid } => status == Status::DELAY || (is_gone(status) && !alive(run, *sid)),
        Plan::DestroySession { .. } | Plan::DestroyClient { .. } => status != Status::OK,
        _ => false,
    }
}
