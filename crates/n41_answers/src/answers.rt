ghost use Rattle.std.specs.Prelude.{◌≡◌, ◌<◌, ◌≤◌, ℕ, [], map, length, slice_index, slice_get, IfOk, OnOk, IfSome, IfNone, option_copied};
ghost use Rattle.n41_model.specs.declared.words.Setup.{Setup};
ghost use Rattle.n41_answers.specs.Indexed.{Indexes};
ghost use Rattle.n41_journal.specs.Journal.{event_at};
ghost use Rattle.n41_answers.specs.Answers.{HasAnswer, lists, noted, place_in, answer_in};
ghost use Rattle.n41_answers.specs.Index.{places_of, room_of, spent};

use crate::row::Row;
use n41_journal::{Event, Journal};
use n41_types::{Answer, NoMemory};
use std::alloc::Global;
use std::marker::Model;

/// For each caller the places of its answers in the journal. The n-th place is that of the answer to command n.
#[derive(Drop)]
pub struct Answers {
    rows: Vec<Row>,
}

impl Model for Answers {
    ghost use Rattle.std.specs.Prelude.{map};
    ghost use Rattle.n41_answers.specs.Index.{Index, places_of, room_of};

    ghost Value = { Index };

    ghost view = { λ a. record { lists = map places_of a.rows.items; room = map room_of a.rows.items } };
}

/// Makes room for one more place in each row. What was made before a failure stays.
fn reserve_each(rows: &mut [Row]) -> Result<(), NoMemory>
    ensures ok { OnOk result ((c : ℕ) → c < length rows.new → 0 < slice_index (map room_of rows.new) c) }
    ensures more { (c : ℕ) → slice_index (map room_of rows.old) c ≤ slice_index (map room_of rows.new) c }
    ensures places { map places_of rows.new ≡ map places_of rows.old }
{
    for row in rows.iter_mut() {
        row.reserve()?;
    }
    Ok(())
}

fn row(rows: &[Row], caller: usize) -> Option<&Row>
    ensures { option_copied result ≡ slice_get rows.now caller }
{
    rows.get(caller)
}

impl Answers {
    /// No answers yet, of so many callers. There is no room for any.
    pub fn new(alloc: Global, callers: u32) -> Result<Answers, NoMemory>
        ensures { IfOk result (λ a. a.lists ≡ lists callers []) }
    {
        let mut rows = Vec::new(alloc);
        for _ in 0..callers {
            rows.push(Row::new(alloc))?;
        }
        Ok(Answers { rows })
    }

    /// Makes room for one more answer of each caller. Room that was made before a failure stays.
    pub fn reserve(&mut self) -> Result<(), NoMemory>
        ensures ok { OnOk result ((c : ℕ) → c < length self.new.lists → 0 < slice_index self.new.room c) }
        ensures more { (c : ℕ) → slice_index self.old.room c ≤ slice_index self.new.room c }
        ensures lists { self.new.lists ≡ self.old.lists }
    {
        reserve_each(&mut self.rows)
    }

    /// Adds the place of the next answer to a caller, in the room that was made.
    pub fn note(&mut self, caller: u32, place: u64)
        requires { 0 < slice_index self.old.room caller }
        ensures { self.new ≡ record { lists = noted self.old.lists caller place; room = spent self.old.room caller } }
    {
        self.rows[caller as usize].note(place);
    }

    /// The place of the answer to a caller's command of this number, which counts from 1. None where it has none.
    pub fn place_of(&self, caller: u32, number: u64) -> Option<u64>
        ensures { result ≡ place_in self.now.lists caller number }
    {
        row(&self.rows, caller as usize)?.get(number)
    }
}

/// The answer at a place.
fn answer_at(journal: &Journal, place: u64) -> Option<&Answer>
    ensures { option_copied result ≡ answer_in (event_at journal.now.events place) }
{
    match journal.get(place) {
        Some(Event::Answered { answer, .. }) => Some(answer),
        _ => None,
    }
}

/// The place and the answer of a caller's command of this number, which counts from 1, found without a scan. None where it has no answer.
pub fn answer_of<'a>(
    answers: &Answers,
    journal: &'a Journal,
    caller: u32,
    number: u64,
) -> Option<(u64, &'a Answer)>
    requires { (u : Setup) × Indexes u journal.now.events answers.now.lists }
    ensures some { IfSome result (λ r. HasAnswer journal.now.events caller number r.0 r.1.now) }
    ensures none { IfNone result ((p : ℕ) (a : Answer) → HasAnswer journal.now.events caller number p a → ⊥) }
{
    let place = answers.place_of(caller, number)?;
    let answer = answer_at(journal, place)?;
    Some((place, answer))
}
