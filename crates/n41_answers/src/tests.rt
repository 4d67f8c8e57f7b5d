ghost use Rattle.std.specs.Prelude.{◌≡◌, ◌≤◌, ◌-◌, ◌∷◌, ◌++◌, [], replicate, IfOk};

use crate::{Answers, answer_of};
use n41_journal::{Event, Journal};
use n41_types::{Answer, Command, NoMemory, Sequence};
use std::alloc::Global;

fn noted(alloc: Global) -> Result<Answers, NoMemory> {
    let mut answers = Answers::new(alloc, 2)?;
    answers.reserve()?;
    answers.note(1, 5);
    answers.reserve()?;
    answers.note(1, 9);
    answers.note(0, 7);
    Ok(answers)
}

#[test]
fn each_caller_has_its_places(rt: HostRuntime) {
    match noted(rt.alloc()) {
        Ok(answers) => {
            for (caller, number, place) in [
                (0, 0, None),
                (0, 1, Some(7)),
                (0, 2, None),
                (1, 1, Some(5)),
                (1, 2, Some(9)),
                (1, 3, None),
                (2, 1, None),
            ] {
                assert_eq!(rt; answers.place_of(caller, number), place);
            }
        }
        Err(_) => assert!(rt; false),
    }
}

fn fail_to_dial(journal: &mut Journal, times: u64)
    requires { times ≤ journal.old.room }
    ensures { journal.new ≡ record { events = replicate times Event.DialFailed ++ journal.old.events; room = journal.old.room - times } }
{
    for _ in 0..times {
        journal.add(Event::DialFailed);
    }
}

/// A run of one command, in which no dial succeeds.
fn unheard(alloc: Global) -> Result<Journal, NoMemory>
    ensures { IfOk result (λ j. j.events ≡ Event.Answered 0 1 (Answer.Unreachable 16) ∷ (replicate 16 Event.DialFailed ++ Event.Began 0 1 (Command.Stat []) 0 ∷ [])) }
{
    let path = Sequence::from_vec(alloc, Vec::new(alloc))?;
    let mut journal = Journal::new(alloc);
    journal.reserve(18)?;
    journal.add(Event::Began {
        caller: 0,
        number: 1,
        command: Command::Stat { path },
        moment: 0,
    });
    fail_to_dial(&mut journal, 16);
    journal.add(Event::Answered {
        caller: 0,
        number: 1,
        answer: Answer::Unreachable(16),
    });
    Ok(journal)
}

fn one_place(alloc: Global) -> Result<Answers, NoMemory>
    ensures { IfOk result (λ a. a.lists ≡ (18 ∷ []) ∷ []) }
{
    let mut answers = Answers::new(alloc, 1)?;
    answers.reserve()?;
    answers.note(0, 18);
    Ok(answers)
}

/// The place of the answer to the command of this number, in that run.
fn place_found(alloc: Global, number: u64) -> Result<Option<u64>, NoMemory> {
    let journal = unheard(alloc)?;
    let answers = one_place(alloc)?;
    Ok(match answer_of(&answers, &journal, 0, number) {
        Some((place, Answer::Unreachable(16))) => Some(place),
        _ => None,
    })
}

#[test]
fn an_answer_is_found(rt: HostRuntime) {
    assert_eq!(rt; place_found(rt.alloc(), 1), Ok(Some(18)));
    assert_eq!(rt; place_found(rt.alloc(), 2), Ok(None));
}
