ghost use Rattle.std.specs.Prelude.{◌≡◌, ◌≤◌, length, option_copied, IfOk};
ghost use Rattle.n41_model.specs.Requests.{standing};
ghost use Rattle.n41_runs.specs.Steps.{client, messages, message, carrier, fate, taken};
ghost use Rattle.n41_legal.specs.Answers.{answered_by, answer_of};

use crate::replies::{bound_reply, ended_reply, made_reply, named_reply, ran_reply, refusal};
use crate::server::is_id;
use n41_journal::Event;
use n41_results::Reply;
use n41_runs::Step;
use n41_types::{NoMemory, Request};
use std::alloc::Global;

/// How many messages the client put.
pub fn messages(run: &[Step]) -> u64
    ensures value { result ≡ messages (client run.now) }
    ensures few { result ≤ length run.now }
{
    match run {
        [] => 0,
        [
            Step::Does {
                event: Event::Put { .. },
            },
            before @ ..,
        ] => messages(before) + 1,
        [_, before @ ..] => messages(before),
    }
}

/// The request in a message.
pub(crate) fn message_at(run: &[Step], number: u64) -> Option<&Request>
    ensures { option_copied result ≡ message (client run.now) number }
{
    match run {
        [] => None,
        [
            Step::Does {
                event: Event::Put { request, .. },
            },
            before @ ..,
        ] => {
            if messages(before) == number {
                Some(request)
            } else {
                message_at(before, number)
            }
        }
        [_, before @ ..] => message_at(before, number),
    }
}

/// The connection on which a message was put.
pub(crate) fn carrier(run: &[Step], number: u64) -> u64
    ensures { result ≡ carrier (client run.now) number }
{
    match run {
        [] => 0,
        [
            Step::Does {
                event: Event::Put { conn, .. },
            },
            before @ ..,
        ] => {
            if messages(before) == number {
                *conn
            } else {
                carrier(before, number)
            }
        }
        [_, before @ ..] => carrier(before, number),
    }
}

/// The connection that stands.
pub(crate) fn standing(run: &[Step]) -> Option<u64>
    ensures { result ≡ standing (client run.now) }
{
    match run {
        [] => None,
        [
            Step::Does {
                event: Event::Dialed { conn },
            },
            ..
        ] => Some(*conn),
        [
            Step::Does {
                event: Event::Broke { .. },
            },
            ..
        ] => None,
        [_, before @ ..] => standing(before),
    }
}

/// The message that a step of the server answers.
fn answered_by(step: &Step) -> Option<u64>
    ensures { result ≡ answered_by step.now }
{
    match step {
        Step::Does { .. } | Step::Takes { .. } => None,
        Step::Runs { message, .. }
        | Step::Repeats { message, .. }
        | Step::Refuses { message, .. }
        | Step::Names { message, .. }
        | Step::Makes { message, .. }
        | Step::Binds { message, .. }
        | Step::Ends { message, .. } => Some(*message),
    }
}

/// What a step of the server answers.
fn answer_of(alloc: Global, step: &Step) -> Result<Option<Reply>, NoMemory>
    ensures { IfOk result (λ o. o ≡ answer_of step.now) }
{
    Ok(match step {
        Step::Does { .. } | Step::Takes { .. } => None,
        Step::Runs {
            request,
            sequenced,
            results,
            ..
        } => Some(ran_reply(alloc, request, *sequenced, results.as_slice())?),
        Step::Repeats { reply, .. } => Some(reply.clone()?),
        Step::Refuses {
            request,
            status,
            ..
        } => Some(refusal(alloc, request, *status)?),
        Step::Names {
            request,
            identity,
            ..
        } => Some(named_reply(alloc, request, identity)?),
        Step::Makes { request, made, .. } => Some(made_reply(alloc, request, *made)?),
        Step::Binds { request, bound, .. } => Some(bound_reply(alloc, request, *bound)?),
        Step::Ends { request, .. } => Some(ended_reply(alloc, request)?),
    })
}

/// What the server answered to a message.
pub(crate) fn fate(alloc: Global, run: &[Step], number: u64) -> Result<Option<Reply>, NoMemory>
    ensures { IfOk result (λ o. o ≡ fate run.now number) }
{
    match run {
        [] => Ok(None),
        [step, before @ ..] => {
            if is_id(answered_by(step), number) {
                answer_of(alloc, step)
            } else {
                fate(alloc, before, number)
            }
        }
    }
}

/// Whether the client took the answer to a message.
pub(crate) fn taken(run: &[Step], number: u64) -> bool
    ensures { result ≡ taken run.now number }
{
    match run {
        [] => false,
        [Step::Takes { message, .. }, before @ ..] => *message == number || taken(before, number),
        [_, before @ ..] => taken(before, number),
    }
}
