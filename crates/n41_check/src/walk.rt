ghost use Rattle.std.specs.Prelude.{◌≡◌, ◌≤◌, ℕ, reverse, None, IfOk};
ghost use Rattle.n41_calls.specs.Kept.{Kept};
ghost use Rattle.n41_model.specs.declared.words.Setup.{Setup};
ghost use Rattle.n41_check.specs.Rules.{callers, IsVerdict};

use crate::machine::Machine;
use crate::rules::Rule;
use n41_journal::{Event, Journal};
use n41_types::NoMemory;
use std::alloc::Global;

/// The first of these events, the oldest first, that breaks a rule, with the first rule that it breaks.
fn first_breach(alloc: Global, events: &[Event]) -> Result<Option<(u64, Rule)>, NoMemory>
    ensures { IfOk result (λ found. (n : ℕ) → callers (reverse events.now) ≤ n → IsVerdict n (reverse events.now) found) }
{
    let mut machine = Machine::new(alloc);
    for (index, event) in events.iter().enumerate() {
        if let Some(rule) = machine.breach(event) {
            return Ok(Some((index as u64 + 1, rule)));
        }
        machine.step(alloc, event)?;
    }
    Ok(None)
}

/// The place of the first event, from 1, that breaks a rule, with the first rule that it breaks; None where each event keeps each
/// rule. It is exact for any journal, and a journal of a client that keeps its rules breaks none. The work is that of one walk over the
/// events, each with the slots and the callers that are at work.
pub fn check(alloc: Global, journal: &Journal) -> Result<Option<(u64, Rule)>, NoMemory>
    ensures verdict { IfOk result (λ found. IsVerdict (callers journal.now.events) journal.now.events found) }
    ensures kept { IfOk result (λ found. (u : Setup) → Kept u journal.now.events → found ≡ None) }
{
    first_breach(alloc, journal.as_slice())
}
