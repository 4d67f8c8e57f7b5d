ghost use Rattle.std.specs.Prelude.{◌≡◌, ◌≤◌, ◌∷◌, ◌&&◌, not, ℕ, true, IfOk, List, length, option_copied, Some};
ghost use Rattle.std.specs.Bool.{Decides};
ghost use Rattle.n41_journal.specs.declared.events.Event.{Event};
ghost use Rattle.n41_model.specs.Requests.{is_on, knows, outs, slot_number};
ghost use Rattle.n41_check.specs.Shows.{Shows};
ghost use Rattle.n41_runs.specs.Steps.{client};
ghost use Rattle.n41_runs.specs.Effects.{acts, change_of, command_of, command_on, effects_of, has_done, is_done, is_named};
ghost use Rattle.n41_runs.specs.Effects.{command_at};
ghost use Rattle.n41_small_world.specs.Promised.{IsTwice, NamePut, NameTwice, NewName, OrderlyBy, Owned, OwnerName, put_by};

use crate::orderly::lead;
use n41_check::Machine;
use n41_journal::Event;
use n41_legal::messages;
use n41_results::Res;
use n41_runs::{CommandName, Step};
use n41_types::{NoMemory, Operation, Plan, Request, Status};
use std::alloc::Global;

/// Whether it is this command.
pub(crate) fn is_named(name: Option<CommandName>, wanted: CommandName) -> bool
    ensures { result ≡ is_named name wanted.caller wanted.number }
{
    match name {
        None => false,
        Some(name) => name.caller == wanted.caller && name.number == wanted.number,
    }
}

/// Whether a request is on this slot.
fn is_on(request: &Request, slot: u32) -> bool
    ensures { result ≡ is_on request.now slot }
{
    match request.slot {
        None => false,
        Some(place) => place.slot == slot,
    }
}

/// Whether no request with its xid is out on the slot.
fn is_new(machine: &Machine<'_>, request: &Request, slot: u32) -> bool
    ensures { (n : ℕ) (js : List Event) → Shows n js machine.now → result ≡ not (knows (outs js slot) request.now.xid) }
{
    let known = machine.slot(slot);
    match known.out {
        None => true,
        Some(out) => out.xid != request.xid,
    }
}

/// The command whose attempt a new request is.
fn owner_name(machine: &Machine<'_>, request: &Request, slot: u32) -> Option<CommandName>
    requires { is_on request.now slot ≡ true }
    ensures { (n : ℕ) (js : List Event) → Shows n js machine.now → OwnerName n js request.now slot result }
{
    match machine.owner(request) {
        None => None,
        Some(caller) => Some(CommandName {
            caller,
            number: machine.number(caller),
        }),
    }
}

/// Where a request on this slot is new, the command whose attempt it is.
fn new_name(machine: &Machine<'_>, request: &Request, slot: u32) -> Option<Option<CommandName>>
    requires { is_on request.now slot ≡ true }
    ensures { (n : ℕ) (js : List Event) → Shows n js machine.now → NewName n js request.now slot result }
{
    if is_new(machine, request, slot) {
        Some(owner_name(machine, request, slot))
    } else {
        None
    }
}

/// The same behind a run.
fn name_behind(
    alloc: Global,
    run: &[Step],
    request: &Request,
    slot: u32,
) -> Result<Option<Option<CommandName>>, NoMemory>
    requires { is_on request.now slot ≡ true }
    ensures { IfOk result (λ o. (n : ℕ) → OrderlyBy n run.now → NewName n (client run.now) request.now slot o) }
{
    let led = lead(alloc, run)?;
    match led {
        None => Ok(None),
        Some(machine) => Ok(new_name(&machine, request, slot)),
    }
}

/// The request that a step puts.
pub(crate) fn put_by(step: &Step) -> Option<&Request>
    ensures { option_copied result ≡ put_by step.now }
{
    match step {
        Step::Does {
            event: Event::Put { request, .. },
        } => Some(request),
        _ => None,
    }
}

/// Where a step puts a new request on a slot, the command whose attempt it is.
fn name_put(
    alloc: Global,
    run: &[Step],
    step: &Step,
    slot: u32,
) -> Result<Option<Option<CommandName>>, NoMemory>
    ensures { IfOk result (λ o. (n : ℕ) → OrderlyBy n run.now → NamePut n run.now step.now slot o) }
{
    match put_by(step) {
        None => Ok(None),
        Some(request) => {
            if is_on(request, slot) {
                name_behind(alloc, run, request, slot)
            } else {
                Ok(None)
            }
        }
    }
}

/// The command whose attempt the last new request on a slot is; None where it is the client's own.
pub(crate) fn command_on(
    alloc: Global,
    run: &[Step],
    slot: u32,
) -> Result<Option<CommandName>, NoMemory>
    ensures { IfOk result (λ o. (n : ℕ) → OrderlyBy n run.now → o ≡ command_on n (client run.now) slot) }
{
    let [step, before @ ..] = run else {
        return Ok(None);
    };
    let named = name_put(alloc, before, step, slot)?;
    match named {
        Some(name) => Ok(name),
        None => command_on(alloc, before, slot),
    }
}

/// The same on the slot of a request, where it has one.
fn command_at(
    alloc: Global,
    run: &[Step],
    request: &Request,
) -> Result<Option<CommandName>, NoMemory>
    ensures { IfOk result (λ o. (n : ℕ) → OrderlyBy n run.now → o ≡ command_at n (client run.now) (slot_number request.now.slot)) }
{
    match request.slot {
        None => Ok(None),
        Some(place) => command_on(alloc, run, place.slot),
    }
}

/// The command whose request was put in a message, for the first time or again.
fn command_of(alloc: Global, run: &[Step], number: u64) -> Result<Option<CommandName>, NoMemory>
    ensures { IfOk result (λ o. (n : ℕ) → OrderlyBy n run.now → o ≡ command_of n (client run.now) number) }
{
    match run {
        [] => Ok(None),
        [
            Step::Does {
                event: Event::Put { request, .. },
            },
            before @ ..,
        ] => {
            if messages(before) == number {
                command_at(alloc, run, request)
            } else {
                command_of(alloc, before, number)
            }
        }
        [_, before @ ..] => command_of(alloc, before, number),
    }
}

/// The operation by which a plan changes files or directories.
fn change_of(plan: &Plan) -> Option<Operation>
    ensures { result ≡ change_of plan.now }
{
    match plan {
        Plan::CreateFile { .. } => Some(Operation::Open),
        Plan::WriteBytes { .. } => Some(Operation::Write),
        Plan::Resize { .. } => Some(Operation::SetAttr),
        Plan::MakeDir { .. } => Some(Operation::Create),
        Plan::Remove { .. } => Some(Operation::Remove),
        Plan::Rename { .. } => Some(Operation::Rename),
        _ => None,
    }
}

/// Whether it is the result of this operation, and OK.
fn is_done(operation: Operation, answer: &Res) -> bool
    ensures { result ≡ is_done operation answer.now }
{
    answer.operation().number() == operation.number() && answer.status() == Status::OK
}

/// Whether one of the results is.
fn any_done(operation: Operation, results: &[Res]) -> bool
    ensures { result ≡ has_done (Some operation) results.now }
{
    match results {
        [] => false,
        [first, rest @ ..] => is_done(operation, first) || any_done(operation, rest),
    }
}

/// Whether the changing operation of a plan answered OK.
fn acts(plan: &Plan, results: &[Res]) -> bool
    ensures { result ≡ acts plan.now results.now }
{
    match change_of(plan) {
        None => false,
        Some(operation) => any_done(operation, results),
    }
}

/// How often a command took effect.
pub(crate) fn effects_of(alloc: Global, run: &[Step], name: CommandName) -> Result<u64, NoMemory>
    ensures value { IfOk result (λ k. (n : ℕ) → OrderlyBy n run.now → k ≡ effects_of n run.now name.caller name.number) }
    ensures few { IfOk result (λ k. k ≤ length run.now) }
{
    match run {
        [] => Ok(0),
        [
            Step::Runs {
                message,
                request,
                results,
                ..
            },
            before @ ..,
        ] => {
            let others = effects_of(alloc, before, name)?;
            if !acts(&request.plan, results.as_slice()) {
                return Ok(others);
            }
            let acted = command_of(alloc, before, *message)?;
            Ok(if is_named(acted, name) {
                others + 1
            } else {
                others
            })
        }
        [_, before @ ..] => effects_of(alloc, before, name),
    }
}

/// Whether both hold.
pub(crate) fn both(first: bool, second: bool) -> bool
    ensures { result ≡ (first && second) }
{
    first && second
}

/// Whether each effect is an attempt of a command, where it is known of those before the step.
fn owned_step(alloc: Global, run: &[Step], step: &Step, others: bool) -> Result<bool, NoMemory>
    ensures { IfOk result (λ b. (n : ℕ) → OrderlyBy n run.now → Decides others (Owned n run.now) → Decides b (Owned n (step.now ∷ run.now))) }
{
    match step {
        Step::Runs {
            message,
            request,
            results,
            ..
        } => {
            if !acts(&request.plan, results.as_slice()) {
                return Ok(others);
            }
            let acted = command_of(alloc, run, *message)?;
            Ok(both(acted.is_some(), others))
        }
        _ => Ok(others),
    }
}

/// Whether each effect is an attempt of a command.
pub(crate) fn is_owned(alloc: Global, run: &[Step]) -> Result<bool, NoMemory>
    ensures { IfOk result (λ b. (n : ℕ) → OrderlyBy n run.now → Decides b (Owned n run.now)) }
{
    let [step, before @ ..] = run else {
        return Ok(true);
    };
    let others = is_owned(alloc, before)?;
    owned_step(alloc, before, step, others)
}

/// A command that took effect more than once, if it is one.
fn name_twice(
    alloc: Global,
    run: &[Step],
    acted: Option<CommandName>,
) -> Result<Option<CommandName>, NoMemory>
    ensures { IfOk result (λ o. (n : ℕ) → OrderlyBy n run.now → NameTwice n run.now acted o) }
{
    let Some(name) = acted else {
        return Ok(None);
    };
    let count = effects_of(alloc, run, name)?;
    if count > 1 { Ok(Some(name)) } else { Ok(None) }
}

/// A command that took effect in these steps and more than once in the run, where it is known of those before the step.
fn twice_step(
    alloc: Global,
    steps: &[Step],
    step: &Step,
    run: &[Step],
    earlier: Option<CommandName>,
) -> Result<Option<CommandName>, NoMemory>
    ensures { IfOk result (λ o. (n : ℕ) → OrderlyBy n steps.now → OrderlyBy n run.now → IsTwice n steps.now run.now earlier → IsTwice n (step.now ∷ steps.now) run.now o) }
{
    match step {
        Step::Runs {
            message,
            request,
            results,
            ..
        } => {
            if !acts(&request.plan, results.as_slice()) {
                return Ok(earlier);
            }
            let acted = command_of(alloc, steps, *message)?;
            let twice = name_twice(alloc, run, acted)?;
            match twice {
                Some(name) => Ok(Some(name)),
                None => Ok(earlier),
            }
        }
        _ => Ok(earlier),
    }
}

/// A command that took effect in these steps, and more than once in the run.
pub(crate) fn first_twice(
    alloc: Global,
    steps: &[Step],
    run: &[Step],
) -> Result<Option<CommandName>, NoMemory>
    ensures { IfOk result (λ o. (n : ℕ) → OrderlyBy n steps.now → OrderlyBy n run.now → IsTwice n steps.now run.now o) }
{
    let [step, before @ ..] = steps else {
        return Ok(None);
    };
    let earlier = first_twice(alloc, before, run)?;
    twice_step(alloc, before, step, run, earlier)
}
