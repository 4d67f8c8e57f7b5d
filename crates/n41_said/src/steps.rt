ghost use Rattle.std.specs.Prelude.{◌≡◌, None, Some, option_copied, option_map, if◌then◌else◌, IfOk};
ghost use Rattle.n41_types.specs.declared.commands.Answer.TheVariants as answers;
ghost use Rattle.n41_model.specs.Sessions.{plan_in};
ghost use Rattle.n41_calls.specs.Calls.{listing_in, reached_in, value_of, step_of, is_again, answer_in, way_after};
ghost use Rattle.n41_said.specs.Listings.{names_told};

use crate::answers::{done_with, is_again, stat_value};
use crate::listings::{listing_in, names_told, took_listing};
use crate::ways::{reached, walked_by};
use n41_model::{Verdict, Way};
use n41_results::{Reply, ReplyBody};
use n41_types::{Answer, Bytes, Command, Fh, NoMemory, Plan, Request, Status, Value};
use std::alloc::Global;

/// What a reply brings that a caller's command keeps: the filehandle that a walk came to, and the names that a READDIR told.
#[derive(Drop)]
pub struct Brought {
    pub reached: Option<Fh>,
    pub names: Option<Vec<Bytes>>,
}

impl Brought {
    /// What a reply brings.
    pub fn of(alloc: Global, body: &ReplyBody) -> Result<Brought, NoMemory>
        ensures reached { IfOk result (λ b. b.reached ≡ reached_in body.now) }
        ensures names { IfOk result (λ b. option_map (λ v. v.items) b.names ≡ names_told (listing_in body.now)) }
    {
        Ok(Brought {
            reached: reached(body)?,
            names: names_told(alloc, listing_in(body))?,
        })
    }
}

/// A request of a command was answered OK: it leads on, and maybe gives a value.
#[tactic(auto, using(crate::proofs::Stays::stat_stays, crate::proofs::Stays::make_dir_stays, crate::proofs::Stays::remove_stays, crate::proofs::Stays::rename_stays))]
fn took_step(
    command: Option<&Command>,
    request: Option<&Request>,
    reply: &Reply,
    brought: Brought,
    way: &mut Way,
) -> Option<Value>
    requires reached { brought.reached ≡ reached_in reply.now.body }
    requires names { option_map (λ v. v.items) brought.names ≡ names_told (listing_in reply.now.body) }
    ensures value { result ≡ value_of way.entry.now.listed (plan_in (option_copied request.entry)) reply.now }
    ensures way { way.exit.now ≡ step_of (option_copied command.entry) (plan_in (option_copied request.entry)) reply.now way.entry.now }
{
    let request = request?;
    match (&request.plan, &reply.body) {
        (Plan::Walk { names, .. }, _) => {
            if let Some(command) = command {
                walked_by(command, names.as_slice(), brought.reached, way);
            }
            None
        }
        (Plan::List { .. }, _) => {
            took_listing(listing_in(&reply.body), brought.names, &mut way.listed)
        }
        (Plan::Stat { .. }, ReplyBody::Results { list, .. }) => stat_value(list.as_slice()),
        (Plan::MakeDir { .. }, ReplyBody::Results { .. }) => Some(Value::Made),
        (Plan::Remove { .. }, ReplyBody::Results { .. }) => Some(Value::Removed),
        (Plan::Rename { .. }, ReplyBody::Results { .. }) => Some(Value::Renamed),
        _ => None,
    }
}

/// The answer that a status other than OK gives; None where it leads to a new attempt.
fn refused(status: Status, attempts: u64) -> Option<Answer>
    ensures { result ≡ (if is_again status attempts then None else Some (answers.Refused status)) }
{
    if is_again(status, attempts) {
        None
    } else {
        Some(Answer::Refused(status))
    }
}

/// A reply to a request of a command was taken, with what it brings and this verdict on it: the way of the command leads on, and
/// the answer is what the reply gives after so many attempts; None where it gives none yet. The names of a listing that ends are
/// moved from the way into the answer.
pub fn took_way(
    command: Option<&Command>,
    request: Option<&Request>,
    verdict: Option<Verdict>,
    attempts: u64,
    reply: &Reply,
    brought: Brought,
    way: &mut Way,
) -> Option<Answer>
    requires reached { brought.reached ≡ reached_in reply.now.body }
    requires names { option_map (λ v. v.items) brought.names ≡ names_told (listing_in reply.now.body) }
    ensures answer { result ≡ answer_in way.entry.now.listed (plan_in (option_copied request.entry)) verdict attempts reply.now }
    ensures way { way.exit.now ≡ way_after (option_copied command.entry) (plan_in (option_copied request.entry)) verdict reply.now way.entry.now }
{
    match verdict {
        Some(Verdict::Ran(status)) => {
            if status == Status::OK {
                done_with(took_step(command, request, reply, brought, way))
            } else {
                refused(status, attempts)
            }
        }
        Some(Verdict::TooBig(status)) => Some(Answer::Refused(status)),
        _ => None,
    }
}
