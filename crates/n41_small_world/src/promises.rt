ghost use Rattle.std.specs.Prelude.{◌≡◌, ◌∷◌, ◌&&◌, ◌||◌, ℕ, List, IfOk, option_copied};
ghost use Rattle.n41_runs.specs.declared.steps.Step.{Step};
ghost use Rattle.std.specs.Bool.{Decides};
ghost use Rattle.n41_calls.specs.Text.{answer_to};
ghost use Rattle.n41_check.specs.Rows.{is_changing_out, row_in};
ghost use Rattle.n41_check.specs.Shows.{Shows};
ghost use Rattle.n41_runs.specs.Steps.{client};
ghost use Rattle.n41_runs.specs.Effects.{asked, is_changing};
ghost use Rattle.n41_runs.specs.Good.{IsUnknown, is_undone};
ghost use Rattle.n41_small_world.specs.Judged.{Holds};
ghost use Rattle.n41_small_world.specs.Promised.{Doubts, IsInDoubt, IsKept, OrderlyBy, answered_by, promise_of, is_done_change, is_undone_answer, is_unknown_answer};
ghost use Rattle.n41_small_world.specs.declared.judgements.Promise.TheVariants as promise;

use crate::effects::{both, command_on, effects_of, is_named, put_by};
use crate::judgements::Promise;
use crate::orderly::lead;
use n41_check::{Machine, Slot};
use n41_journal::Event;
use n41_runs::{CommandName, Step};
use n41_types::{Answer, Class, Command, NoMemory};
use std::alloc::Global;

/// The command that a caller began with this number.
fn asked(run: &[Step], name: CommandName) -> Option<&Command>
    ensures { option_copied result ≡ asked (client run.now) name.caller name.number }
{
    match run {
        [] => None,
        [
            Step::Does {
                event: Event::Began {
                    caller,
                    number,
                    command,
                    ..
                },
            },
            before @ ..,
        ] => {
            if *caller == name.caller && *number == name.number {
                Some(command)
            } else {
                asked(before, name)
            }
        }
        [_, before @ ..] => asked(before, name),
    }
}

/// The answer to the command.
fn answer_to(run: &[Step], name: CommandName) -> Option<&Answer>
    ensures { option_copied result ≡ answer_to (client run.now) name.caller name.number }
{
    match run {
        [] => None,
        [
            Step::Does {
                event: Event::Answered {
                    caller,
                    number,
                    answer,
                },
            },
            before @ ..,
        ] => {
            if *caller == name.caller && *number == name.number {
                Some(answer)
            } else {
                answer_to(before, name)
            }
        }
        [_, before @ ..] => answer_to(before, name),
    }
}

/// Whether a command changes something.
fn is_changing(command: &Command) -> bool
    ensures { result ≡ is_changing command.now }
{
    match command {
        Command::Create { .. }
        | Command::Write { .. }
        | Command::Truncate { .. }
        | Command::MakeDir { .. }
        | Command::Remove { .. }
        | Command::Rename { .. } => true,
        _ => false,
    }
}

/// Whether an answer says that nothing was done.
fn is_undone(answer: &Answer) -> bool
    ensures { result ≡ is_undone answer.now }
{
    match answer {
        Answer::Refused(_) | Answer::StateLost(_) | Answer::Unreachable(_) | Answer::NotOpen =>
            true,
        _ => false,
    }
}

/// Whether a command that changes something is answered as done.
fn is_done_change(run: &[Step], name: CommandName) -> bool
    ensures { result ≡ is_done_change (asked (client run.now) name.caller name.number) (answer_to (client run.now) name.caller name.number) }
{
    match (asked(run, name), answer_to(run, name)) {
        (Some(command), Some(Answer::Done(_))) => is_changing(command),
        _ => false,
    }
}

/// Whether a command is answered as not done.
fn is_undone_answer(run: &[Step], name: CommandName) -> bool
    ensures { result ≡ is_undone_answer (answer_to (client run.now) name.caller name.number) }
{
    match answer_to(run, name) {
        None => false,
        Some(answer) => is_undone(answer),
    }
}

/// Whether a command is answered Unknown.
fn is_unknown_answer(run: &[Step], name: CommandName) -> bool
    ensures { result ≡ is_unknown_answer (answer_to (client run.now) name.caller name.number) }
{
    matches!(answer_to(run, name), Some(Answer::Unknown))
}

/// Whether a changing request is out on a slot, and a connection broke while it was unanswered.
fn is_doubted(slot: &Slot<'_>) -> bool
    ensures { result ≡ (is_changing_out (row_in slot.now).out && slot.now.doubt) }
{
    match slot.out {
        None => false,
        Some(request) => request.plan.class() == Class::Changing && slot.doubt,
    }
}

/// Whether one of both holds.
fn either(first: bool, second: bool) -> bool
    ensures { result ≡ (first || second) }
{
    first || second
}

/// Whether a changing request of the command is in doubt on a slot.
fn is_in_doubt(
    alloc: Global,
    machine: &Machine<'_>,
    run: &[Step],
    slot: u32,
    name: CommandName,
) -> Result<bool, NoMemory>
    ensures { IfOk result (λ b. (n : ℕ) → OrderlyBy n run.now → Shows n (client run.now) machine.now → Decides b (IsInDoubt n (client run.now) slot name.caller name.number)) }
{
    let own = command_on(alloc, run, slot)?;
    let known = machine.slot(slot);
    let doubted = is_doubted(&known);
    let named = is_named(own, name);
    Ok(both(doubted, named))
}

/// Whether one is on any of the slots on which these steps put a request, where it is known of those before the step.
fn doubt_step(
    alloc: Global,
    machine: &Machine<'_>,
    step: &Step,
    run: &[Step],
    name: CommandName,
    others: bool,
) -> Result<bool, NoMemory>
    ensures { IfOk result (λ b. (n : ℕ) (w : List Step) → OrderlyBy n run.now → Shows n (client run.now) machine.now → Doubts n w run.now name others → Doubts n (step.now ∷ w) run.now name b) }
{
    let Some(request) = put_by(step) else {
        return Ok(others);
    };
    match request.slot {
        None => Ok(others),
        Some(place) => {
            let here = is_in_doubt(alloc, machine, run, place.slot, name)?;
            Ok(either(here, others))
        }
    }
}

/// Whether one is on any of the slots on which these steps put a request.
fn any_in_doubt(
    alloc: Global,
    machine: &Machine<'_>,
    steps: &[Step],
    run: &[Step],
    name: CommandName,
) -> Result<bool, NoMemory>
    ensures { IfOk result (λ b. (n : ℕ) → OrderlyBy n run.now → Shows n (client run.now) machine.now → Doubts n steps.now run.now name b) }
{
    let [step, before @ ..] = steps else {
        return Ok(false);
    };
    let others = any_in_doubt(alloc, machine, before, run, name)?;
    doubt_step(alloc, machine, step, run, name, others)
}

/// Whether the command has its cause to be answered Unknown.
fn is_unknown(alloc: Global, run: &[Step], name: CommandName) -> Result<bool, NoMemory>
    ensures { IfOk result (λ b. (n : ℕ) → OrderlyBy n run.now → Decides b (IsUnknown n (client run.now) name.caller name.number)) }
{
    let led = lead(alloc, run)?;
    match led {
        None => Ok(false),
        Some(machine) => {
            let over = machine.is_over();
            let doubted = any_in_doubt(alloc, &machine, run, run, name)?;
            Ok(both(doubted, over))
        }
    }
}

/// Of which kind a promise on an answer is.
#[derive(Clone, Copy)]
pub(crate) enum Kind {
    Done,
    Undone,
    Unknown,
}

impl Kind {
    /// The promise of this kind on a command.
    fn of(self, name: CommandName) -> Promise
        ensures { result ≡ promise_of self name }
    {
        match self {
            Kind::Done => Promise::Done(name),
            Kind::Undone => Promise::Undone(name),
            Kind::Unknown => Promise::Unknown(name),
        }
    }
}

/// Whether a command that changes something and is answered as done took effect once.
fn keeps_done(alloc: Global, run: &[Step], name: CommandName) -> Result<bool, NoMemory>
    ensures { IfOk result (λ b. (n : ℕ) → OrderlyBy n run.now → Decides b (Holds n run.now (promise.Done name))) }
{
    let count = effects_of(alloc, run, name)?;
    let asks = is_done_change(run, name);
    Ok(!asks || count == 1)
}

/// Whether a command that is answered as not done took no effect.
fn keeps_undone(alloc: Global, run: &[Step], name: CommandName) -> Result<bool, NoMemory>
    ensures { IfOk result (λ b. (n : ℕ) → OrderlyBy n run.now → Decides b (Holds n run.now (promise.Undone name))) }
{
    let count = effects_of(alloc, run, name)?;
    let asks = is_undone_answer(run, name);
    Ok(!asks || count == 0)
}

/// Whether a command that is answered Unknown has its cause for that.
fn keeps_unknown(alloc: Global, run: &[Step], name: CommandName) -> Result<bool, NoMemory>
    ensures { IfOk result (λ b. (n : ℕ) → OrderlyBy n run.now → Decides b (Holds n run.now (promise.Unknown name))) }
{
    let caused = is_unknown(alloc, run, name)?;
    let asks = is_unknown_answer(run, name);
    Ok(!asks || caused)
}

/// Whether a promise on an answer holds.
fn keeps(alloc: Global, run: &[Step], kind: Kind, name: CommandName) -> Result<bool, NoMemory>
    ensures { IfOk result (λ b. (n : ℕ) → OrderlyBy n run.now → Decides b (Holds n run.now (promise_of kind name))) }
{
    match kind {
        Kind::Done => keeps_done(alloc, run, name),
        Kind::Undone => keeps_undone(alloc, run, name),
        Kind::Unknown => keeps_unknown(alloc, run, name),
    }
}

/// The command that a step answers.
fn answered_by(step: &Step) -> Option<CommandName>
    ensures { result ≡ answered_by step.now }
{
    match step {
        Step::Does {
            event: Event::Answered { caller, number, .. },
        } => Some(CommandName {
            caller: *caller,
            number: *number,
        }),
        _ => None,
    }
}

/// The promise of a kind that does not hold, of a command that was answered in these steps, where it is known of those before the step.
fn broken_step(
    alloc: Global,
    step: &Step,
    run: &[Step],
    kind: Kind,
    earlier: Option<Promise>,
) -> Result<Option<Promise>, NoMemory>
    ensures { IfOk result (λ o. (n : ℕ) (w : List Step) → OrderlyBy n run.now → IsKept n w run.now (promise_of kind) earlier → IsKept n (step.now ∷ w) run.now (promise_of kind) o) }
{
    let Some(name) = answered_by(step) else {
        return Ok(earlier);
    };
    let kept = keeps(alloc, run, kind, name)?;
    if kept {
        Ok(earlier)
    } else {
        Ok(Some(kind.of(name)))
    }
}

/// The promise of a kind that does not hold, of a command that was answered in these steps.
pub(crate) fn first_broken(
    alloc: Global,
    steps: &[Step],
    run: &[Step],
    kind: Kind,
) -> Result<Option<Promise>, NoMemory>
    ensures { IfOk result (λ o. (n : ℕ) → OrderlyBy n run.now → IsKept n steps.now run.now (promise_of kind) o) }
{
    let [step, before @ ..] = steps else {
        return Ok(None);
    };
    let earlier = first_broken(alloc, before, run, kind)?;
    broken_step(alloc, step, run, kind, earlier)
}
