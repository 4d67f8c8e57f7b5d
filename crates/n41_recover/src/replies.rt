ghost use Rattle.std.specs.Prelude.{◌≡◌, None, true, option_copied};
ghost use Rattle.n41_model.specs.Replies.{is_size_refusal, bare_verdict_of};
ghost use Rattle.n41_model.specs.Sessions.{plan_in};
ghost use Rattle.n41_view.specs.Step.{reply_phase};
ghost use Rattle.n41_recover.specs.Step.{kind_verdict, told_run, told_refusal, told_verdict, has_lone, lone_said, slot_said, plan_said};

use crate::words::{Kind, Lone};
use n41_model::{BareVerdict, Phase, Verdict};
use n41_results::{Reply, ReplyBody, Res};
use n41_said::{Said, reply_phase};
use n41_types::{Bytes, Plan, Request, SessionId, Status};

/// The verdict on a plan of this kind; the plan is only lent.
fn verdict_on(plan: Plan, reply: &Reply) -> BareVerdict
    ensures { result ≡ bare_verdict_of plan reply.now }
{
    let verdict = BareVerdict::of(&plan, reply);
    drop(plan);
    verdict
}

/// What a reply says of a request without a slot.
fn kind_verdict(kind: Kind, reply: &Reply) -> BareVerdict
    ensures { result ≡ kind_verdict kind reply.now.body }
{
    let sid = SessionId([0; 16]);
    match kind {
        Kind::ExchangeId => verdict_on(
            Plan::ExchangeId {
                verifier: [0; 8],
                owner: Bytes::new(),
            },
            reply,
        ),
        Kind::CreateSession => verdict_on(Plan::CreateSession { client: 0, seq: 0 }, reply),
        Kind::Bind => verdict_on(Plan::Bind { sid }, reply),
        Kind::DestroySession => verdict_on(Plan::DestroySession { sid }, reply),
        Kind::DestroyClient => verdict_on(Plan::DestroyClient { client: 0 }, reply),
        Kind::Other => BareVerdict::Breach,
    }
}

/// The verdict behind an OK of SEQUENCE.
fn told_run(status: Status, rest: &[Res]) -> Verdict
    ensures { result ≡ told_run status rest.now }
{
    match rest {
        [_] if status == Status::RETRY_UNCACHED_REP => Verdict::Uncached,
        _ => Verdict::Ran(status),
    }
}

/// Whether a size is why a request was refused.
fn is_size_refusal(status: Status) -> bool
    ensures { result ≡ is_size_refusal status }
{
    status == Status::REQ_TOO_BIG
        || status == Status::REP_TOO_BIG
        || status == Status::REP_TOO_BIG_TO_CACHE
        || status == Status::TOO_MANY_OPS
}

/// The verdict where SEQUENCE was refused with this status.
fn told_refusal(status: Status) -> Verdict
    ensures { result ≡ told_refusal status }
{
    if status == Status::DELAY {
        Verdict::Delayed
    } else if status == Status::CONN_NOT_BOUND_TO_SESSION {
        Verdict::Unbound
    } else if status == Status::RETRY_UNCACHED_REP {
        Verdict::Uncached
    } else if is_size_refusal(status) {
        Verdict::TooBig(status)
    } else {
        Verdict::Breach
    }
}

/// What a reply says of a request with a slot, as far as it tells that alone.
fn told_verdict(body: &ReplyBody) -> Verdict
    ensures { result ≡ told_verdict body.now }
{
    let ReplyBody::Results { status, list } = body else {
        return Verdict::Breach;
    };
    match list.as_slice() {
        [Res::Sequence(Ok(_)), rest @ ..] => told_run(*status, rest),
        [Res::Sequence(Err(refusal)), ..] => told_refusal(*refusal),
        _ => Verdict::Breach,
    }
}

/// Whether this request without a slot is out and has this xid.
pub(crate) fn has_lone(lone: Option<Lone>, xid: u32) -> bool
    ensures { result ≡ has_lone lone xid }
{
    match lone {
        None => false,
        Some(lone) => lone.xid == xid,
    }
}

/// What a reply says of the request without a slot that is out.
pub(crate) fn lone_said(lone: Option<Lone>, reply: &Reply) -> Option<BareVerdict>
    ensures { result ≡ lone_said lone reply.now }
{
    match lone {
        Some(lone) if lone.xid == reply.xid => Some(kind_verdict(lone.kind, reply)),
        _ => None,
    }
}

/// What a reply says of a request with a slot, where it does not answer the one without.
pub(crate) fn slot_said(is_lone: bool, reply: &Reply) -> Option<Verdict>
    ensures { result ≡ slot_said is_lone reply.now }
{
    if is_lone {
        None
    } else {
        Some(told_verdict(&reply.body))
    }
}

/// A request for the lease time, to be looked at alone.
fn lease_request() -> Request
    ensures { result.plan ≡ plan_said true }
{
    Request {
        xid: 0,
        uid: 0,
        gid: 0,
        minor: 0,
        slot: None,
        plan: Plan::LeaseTime,
    }
}

/// The request, where it is to be looked at.
fn lease_of(is_lease: bool, request: &Request) -> Option<&Request>
    requires { request.now.plan ≡ plan_said true }
    ensures { plan_in (option_copied result) ≡ plan_said is_lease }
{
    if is_lease { Some(request) } else { None }
}

/// The phase after a reply that says this; `is_lease` tells that it answers the request for the lease time.
pub(crate) fn told_phase(
    bare: Option<BareVerdict>,
    slot: Option<Verdict>,
    is_lease: bool,
    phase: Phase,
    work: Phase,
) -> Phase
    ensures { result ≡ reply_phase (record { bare = bare; slot = slot; plan = plan_said is_lease; owner = None }) phase work }
{
    let request = lease_request();
    let said = Said {
        bare,
        slot,
        request: lease_of(is_lease, &request),
        owner: None,
    };
    reply_phase(&said, phase, work)
}
