// The answers of a journal, found by caller and number without a scan.
ghost use Rattle.std.specs.Prelude.{◌≡◌, ◌∷◌, ℕ, ◌==◌, ◌&&◌, reverse, List, Some, None, if◌then◌else◌, IfOk, OnOk, option_copied};
ghost use Rattle.n41_report.specs.Found.{found, Finds};

use n41_journal::{Event, Journal};
use n41_types::{Answer, NoMemory};
use std::alloc::Global;
use std::collections::HashMap;

/// A command of a caller.
#[derive(Clone, Copy, PartialEq, Eq, Hash)]
pub(crate) struct Asked {
    pub(crate) caller: u32,
    pub(crate) number: u64,
}

/// The newest answer to each command.
#[derive(Drop)]
pub(crate) struct Found<'a> {
    answers: HashMap<Asked, &'a Answer>,
}

impl<'a> Found<'a> {
    fn new(alloc: Global) -> Found<'a>
        ensures { (c n : ℕ) → found result c n ≡ None }
    {
        Found {
            answers: HashMap::new(alloc),
        }
    }

    /// The newest answer to a command.
    pub(crate) fn get(&self, caller: u32, number: u64) -> Option<&'a Answer>
        ensures { option_copied result ≡ found self.now caller number }
    {
        self.answers.get(&Asked { caller, number }).copied()
    }

    /// Keeps an answer in the place of an older one.
    fn keep(&mut self, caller: u32, number: u64, answer: &'a Answer) -> Result<(), NoMemory>
        ensures { OnOk result ((c n : ℕ) → found self.new c n ≡ (if (caller == c) && (number == n) then Some answer.now else found self.old c n)) }
    {
        self.answers.insert(Asked { caller, number }, answer)?;
        Ok(())
    }

    /// Keeps what an event tells.
    fn add(&mut self, event: &'a Event) -> Result<(), NoMemory>
        ensures { OnOk result ((js : List Event) → Finds self.old js → Finds self.new (event.now ∷ js)) }
    {
        match event {
            Event::Answered {
                caller,
                number,
                answer,
            } => self.keep(*caller, *number, answer),
            _ => Ok(()),
        }
    }
}

/// The newest answers among events, of which the oldest comes first.
fn found_in(alloc: Global, events: &[Event]) -> Result<Found<'_>, NoMemory>
    ensures { IfOk result (λ f. Finds f (reverse events.now)) }
{
    let mut found = Found::new(alloc);
    for event in events {
        found.add(event)?;
    }
    Ok(found)
}

/// The newest answers of a journal.
pub(crate) fn answers_in(alloc: Global, journal: &Journal) -> Result<Found<'_>, NoMemory>
    ensures { IfOk result (λ f. Finds f journal.now.events) }
{
    found_in(alloc, journal.as_slice())
}
