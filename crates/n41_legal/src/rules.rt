ghost use Rattle.std.specs.Prelude.{◌≡◌, true, is_some, IfOk, Some, None};
ghost use Rattle.std.specs.Bool.{Decides};
ghost use Rattle.n41_model.specs.Requests.{standing};
ghost use Rattle.n41_runs.specs.Steps.{client, fate, message};
ghost use Rattle.n41_runs.specs.declared.steps.Step.TheVariants.{Runs, Repeats, Refuses};
ghost use Rattle.n41_runs.specs.Rules.{Allowed, IsNoReply, MayBeTaken, MayBind, MayEnd, MayMake, MayName, Pending, refuses_by, Sizes};
ghost use Rattle.n41_legal.specs.Answers.{is_bare_step};
ghost use Rattle.n41_legal.specs.Legality.{sizes_of, IsLegality};

use crate::bare::{may_bind, may_end, may_make, may_make_again, may_name, plan_refuses};
use crate::net::{carrier, fate, message_at, standing, taken};
use crate::server::is_id;
use crate::slots::{may_repeat, may_run, slot_refuses};
use n41_journal::Event;
use n41_results::{Identity, Reply, Res, Sequenced, SessionMade};
use n41_runs::Step;
use n41_types::{NoMemory, Request, Status};
use std::alloc::Global;

/// Whether this request is in a message.
fn is_put(run: &[Step], number: u64, request: &Request) -> bool
    ensures { Decides result (message (client run.now) number ≡ Some request.now) }
{
    match message_at(run, number) {
        None => false,
        Some(put) => *put == *request,
    }
}

/// Whether a message has an answer.
fn is_answered(alloc: Global, run: &[Step], number: u64) -> Result<bool, NoMemory>
    ensures { IfOk result (λ b. b ≡ is_some (fate run.now number)) }
{
    let answer = fate(alloc, run, number)?;
    Ok(answer.is_some())
}

/// Whether this request is in a message, which has no answer yet.
fn is_pending(alloc: Global, run: &[Step], number: u64, request: &Request) -> Result<bool, NoMemory>
    ensures { IfOk result (λ b. Decides b (Pending run.now number request.now)) }
{
    let answered = is_answered(alloc, run, number)?;
    let put = is_put(run, number, request);
    Ok(put && !answered)
}

/// Whether an answer is there and is this reply.
fn is_answer(answer: &Option<Reply>, reply: &Reply) -> bool
    ensures { Decides result (answer.now ≡ Some reply.now) }
{
    match answer {
        None => false,
        Some(made) => *made == *reply,
    }
}

/// Whether a message was answered with this reply.
fn is_fate(alloc: Global, run: &[Step], number: u64, reply: &Reply) -> Result<bool, NoMemory>
    ensures { IfOk result (λ b. Decides b (fate run.now number ≡ Some reply.now)) }
{
    let answer = fate(alloc, run, number)?;
    let same = is_answer(&answer, reply);
    Ok(same)
}

/// Whether the client may take this reply to a message from this connection.
fn may_be_taken(
    alloc: Global,
    run: &[Step],
    number: u64,
    conn: u64,
    reply: &Reply,
) -> Result<bool, NoMemory>
    ensures { IfOk result (λ b. Decides b (MayBeTaken run.now number conn reply.now)) }
{
    let made = is_fate(alloc, run, number, reply)?;
    let stands = is_id(standing(run), conn);
    let old = taken(run, number);
    let on = carrier(run, number);
    Ok(stands && made && !old && on == conn)
}

/// Whether an event is no reply and no callback, which come from the server.
fn is_no_reply(event: &Event) -> bool
    ensures { Decides result (IsNoReply event.now) }
{
    match event {
        Event::Took { .. } | Event::CbTook { .. } => false,
        _ => true,
    }
}

/// Whether a request may run as a new turn with these results.
fn runs(
    alloc: Global,
    sizes: &[(Request, Status)],
    run: &[Step],
    number: u64,
    request: &Request,
    sequenced: Sequenced,
    results: &[Res],
) -> Result<bool, NoMemory>
    ensures { IfOk result (λ b. Decides b (Allowed (sizes_of sizes.now) run.now (Runs number request.now sequenced results.now))) }
{
    let pending = is_pending(alloc, run, number, request)?;
    match request.slot {
        None => Ok(false),
        Some(place) => {
            let runs = may_run(alloc, sizes, run, request, place, sequenced, results)?;
            Ok(pending && runs)
        }
    }
}

/// Whether a request may get this reply as one that the server has had.
fn repeats(
    alloc: Global,
    sizes: &[(Request, Status)],
    run: &[Step],
    number: u64,
    request: &Request,
    reply: &Reply,
) -> Result<bool, NoMemory>
    ensures { IfOk result (λ b. Decides b (Allowed (sizes_of sizes.now) run.now (Repeats number request.now reply.now))) }
{
    let pending = is_pending(alloc, run, number, request)?;
    match request.slot {
        None => {
            let made = may_make_again(alloc, run, request, &request.plan, reply)?;
            Ok(pending && made)
        }
        Some(place) => {
            let repeated = may_repeat(alloc, sizes, run, request, place, reply)?;
            Ok(pending && repeated)
        }
    }
}

/// Whether a request may be refused with this status.
fn refuses_by(
    sizes: &[(Request, Status)],
    run: &[Step],
    number: u64,
    request: &Request,
    status: Status,
) -> bool
    ensures { result ≡ refuses_by (sizes_of sizes.now) run.now number request.now request.now.slot status }
{
    match request.slot {
        None => plan_refuses(run, &request.plan, status),
        Some(place) => slot_refuses(sizes, run, number, request, place, status),
    }
}

/// Whether a request in a message may be refused with this status.
fn refuses(
    alloc: Global,
    sizes: &[(Request, Status)],
    run: &[Step],
    number: u64,
    request: &Request,
    status: Status,
) -> Result<bool, NoMemory>
    ensures { IfOk result (λ b. Decides b (Allowed (sizes_of sizes.now) run.now (Refuses number request.now status))) }
{
    let pending = is_pending(alloc, run, number, request)?;
    let refused = refuses_by(sizes, run, number, request, status);
    Ok(pending && refused)
}

/// Whether EXCHANGE_ID may name this client.
fn names(
    alloc: Global,
    run: &[Step],
    number: u64,
    request: &Request,
    identity: &Identity,
) -> Result<bool, NoMemory>
    ensures { IfOk result (λ b. Decides b (Pending run.now number request.now × ((request.now.slot ≡ None) × MayName run.now request.now.plan identity.now))) }
{
    let pending = is_pending(alloc, run, number, request)?;
    let named = may_name(run, &request.plan, identity);
    Ok(pending && request.slot.is_none() && named)
}

/// Whether CREATE_SESSION may make this session.
fn makes(
    alloc: Global,
    run: &[Step],
    number: u64,
    request: &Request,
    made: SessionMade,
) -> Result<bool, NoMemory>
    ensures { IfOk result (λ b. Decides b (Pending run.now number request.now × ((request.now.slot ≡ None) × MayMake run.now request.now.plan made))) }
{
    let pending = is_pending(alloc, run, number, request)?;
    let makes = may_make(run, &request.plan, made);
    Ok(pending && request.slot.is_none() && makes)
}

/// Whether BIND_CONN_TO_SESSION may bind its connection.
fn binds(alloc: Global, run: &[Step], number: u64, request: &Request) -> Result<bool, NoMemory>
    ensures { IfOk result (λ b. Decides b (Pending run.now number request.now × ((request.now.slot ≡ None) × MayBind run.now request.now.plan))) }
{
    let pending = is_pending(alloc, run, number, request)?;
    let binds = may_bind(run, &request.plan);
    Ok(pending && request.slot.is_none() && binds)
}

/// Whether a request may remove a session or a client id.
fn ends(alloc: Global, run: &[Step], number: u64, request: &Request) -> Result<bool, NoMemory>
    ensures { IfOk result (λ b. Decides b (Pending run.now number request.now × ((request.now.slot ≡ None) × MayEnd run.now request.now.plan))) }
{
    let pending = is_pending(alloc, run, number, request)?;
    let ends = may_end(run, &request.plan);
    Ok(pending && request.slot.is_none() && ends)
}

/// Whether a step that serves a request without a slot may follow these.
fn serves_bare(alloc: Global, run: &[Step], step: &Step) -> Result<bool, NoMemory>
    ensures { IfOk result (λ b. (sizes : Sizes) → is_bare_step step.now ≡ true → Decides b (Allowed sizes run.now step.now)) }
{
    match step {
        Step::Names {
            message,
            request,
            identity,
        } => names(alloc, run, *message, request, identity),
        Step::Makes {
            message,
            request,
            made,
        } => makes(alloc, run, *message, request, *made),
        Step::Binds {
            message,
            request,
            ..
        } => binds(alloc, run, *message, request),
        Step::Ends { message, request } => ends(alloc, run, *message, request),
        _ => Ok(false),
    }
}

/// Whether a step may follow these, where the sizes are the first that are told of a request.
pub(crate) fn may_follow(
    alloc: Global,
    sizes: &[(Request, Status)],
    run: &[Step],
    step: &Step,
) -> Result<bool, NoMemory>
    ensures { IfOk result (λ b. Decides b (Allowed (sizes_of sizes.now) run.now step.now)) }
{
    match step {
        Step::Does { event } => Ok(is_no_reply(event)),
        Step::Takes {
            message,
            conn,
            reply,
            ..
        } => may_be_taken(alloc, run, *message, *conn, reply),
        Step::Runs {
            message,
            request,
            sequenced,
            results,
        } => {
            let list = results.as_slice();
            runs(alloc, sizes, run, *message, request, *sequenced, list)
        }
        Step::Repeats {
            message,
            request,
            reply,
        } => repeats(alloc, sizes, run, *message, request, reply),
        Step::Refuses {
            message,
            request,
            status,
        } => refuses(alloc, sizes, run, *message, request, *status),
        Step::Names { .. } | Step::Makes { .. } | Step::Binds { .. } | Step::Ends { .. } => {
            serves_bare(alloc, run, step)
        }
    }
}

/// The place, from 1, of the first step that may not follow those before it; None where the run is legal.
pub fn first_illegal(
    alloc: Global,
    sizes: &[(Request, Status)],
    run: &[Step],
) -> Result<Option<u64>, NoMemory>
    ensures { IfOk result (λ o. IsLegality (sizes_of sizes.now) run.now o) }
{
    let [step, before @ ..] = run else {
        return Ok(None);
    };
    let earlier = first_illegal(alloc, sizes, before)?;
    if let Some(place) = earlier {
        return Ok(Some(place));
    }
    let follows = may_follow(alloc, sizes, before, step)?;
    if follows {
        Ok(None)
    } else {
        Ok(Some(before.len() as u64 + 1))
    }
}
