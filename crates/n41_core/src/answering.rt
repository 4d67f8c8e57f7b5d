ghost use Rattle.std.specs.Prelude.{◌≡◌, ◌<◌, ℕ, List, None, IfSome, IfNone, slice_index};
ghost use Rattle.n41_types.specs.declared.commands.Answer.{Answer as AnswerValue};
ghost use Rattle.n41_journal.specs.declared.events.Event.{Event};
ghost use Rattle.n41_calls.specs.Calls.{pause_given};
ghost use Rattle.n41_view.specs.Causes.{CauseIn};
ghost use Rattle.n41_view.specs.View.{view};
ghost use Rattle.n41_core.specs.Books.{HasSpare, Hands, Settles};
ghost use Rattle.n41_core.specs.Settled.{IsDone, IsDecided, IsUntold};
ghost use Rattle.n41_core.specs.State.{AddsAnswers};

use crate::books::Books;
use n41_types::{Answer, Command, Value};
use n41_view::{Seat, the_view_tells_causes};

/// What the moment gives to a command that began then: a pause is done once its seconds have passed.
fn pause_given(began_on: u64, moment: u64, command: &Option<Command>) -> Option<Answer>
    ensures { result ≡ pause_given began_on moment command.now }
{
    let Some(Command::Pause { seconds }) = command else {
        return None;
    };
    if u64::from(*seconds) <= moment.saturating_sub(began_on) {
        Some(Answer::Done(Value::Paused))
    } else {
        None
    }
}

/// The answer that an unanswered command has by now to which no reply has given one. None where it goes on.
fn late_answer(books: &Books, seat: &Seat) -> Option<Answer>
    requires { seat.now.earned ≡ None }
    ensures some { IfSome result (λ a. CauseIn (view books.now.setup.callers books.now.events) seat.now a) }
    ensures none { IfNone result (IsUntold (view books.now.setup.callers books.now.events) seat.now) }
{
    let facts = books.facts();
    match pause_given(seat.began_on, facts.moment, &seat.command) {
        Some(answer) => Some(answer),
        None => books.look(&facts).answer_at_end(seat),
    }
}

/// The number of the caller's unanswered command that has its answer by now, and this answer where it is not the one that the last reply to it
/// gave. None where all is answered or goes on.
fn answer_due(books: &Books, caller: u32) -> Option<(u64, Option<Answer>)>
    requires { caller < books.now.setup.callers }
    ensures some { IfSome result (λ r. (a : AnswerValue) × Hands books.now caller r.0 r.1 a) }
    ensures none { IfNone result (IsDone books.now.setup.callers books.now.events caller) }
{
    the_view_tells_causes();
    books.kept();
    let seat = books.seat(caller)?;
    if seat.command.is_none() {
        return None;
    }
    if seat.earned.is_some() {
        return Some((seat.number, None));
    }
    match late_answer(books, seat) {
        Some(answer) => Some((seat.number, Some(answer))),
        None => None,
    }
}

/// Answers the caller's command, where it has its answer.
fn settle_one(books: &mut Books, caller: u32)
    requires caller { caller < books.old.setup.callers }
    requires room { 0 < books.old.room }
    requires spare { HasSpare caller books.old }
    ensures { (xs : List Event) × Settles books.old books.new caller xs }
{
    match answer_due(books, caller) {
        None => {}
        Some((number, late)) => books.answer(caller, number, late),
    }
}

/// Answers each command that has its answer.
pub(crate) fn settle(books: &mut Books)
    requires room { books.old.setup.callers < books.old.room }
    requires spare { HasSpare 0 books.old }
    ensures room { 0 < books.new.room }
    ensures setup { books.new.setup ≡ books.old.setup }
    ensures added { (xs : List Event) × AddsAnswers books.old.events books.new.events xs }
    ensures decided { IsDecided books.old.setup.callers books.new.events }
{
    let callers = books.setup().callers;
    for caller in 0..callers {
        settle_one(books, caller);
    }
}
