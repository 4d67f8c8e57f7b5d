ghost use Rattle.std.specs.Prelude.{◌≡◌, ◌<◌, ◌≤◌, ◌+◌, List, if◌then◌else◌, OnOk, OnErr};
ghost use Rattle.n41_journal.specs.declared.events.Event.{Event as EventValue};
ghost use Rattle.n41_model.specs.Requests.{moment as last_moment, quit};
ghost use Rattle.n41_core.specs.State.{appends, ticked, ThenAnswers};
ghost use Rattle.n41_core.specs.Settled.{IsDecided};

use crate::answering::settle;
use crate::books::Books;
use crate::client::Core;
use n41_journal::Event;
use n41_tables::EventCopy;
use n41_types::NoMemory;

/// Notes a moment that is later than the last one.
fn note_moment(books: &mut Books, moment: u64)
    requires { 0 < books.old.room }
    ensures events { books.new.events ≡ ticked moment (last_moment books.old.events) books.old.events }
    ensures setup { books.new.setup ≡ books.old.setup }
    ensures spare { books.new.spare ≡ books.old.spare }
    ensures room { books.old.room ≤ books.new.room + 1 }
{
    if moment > books.facts().moment {
        books.add(
            Event::Ticked { moment },
            EventCopy::plain(Event::Ticked { moment }),
        );
    }
}

impl Core {
    /// The clock shows this moment, in seconds. It is noted where it is later than the last one. Then each command is answered for which no
    /// reply is waited for any more: where sixteen rounds in a row had none, it is unknown, or the server could not be reached.
    pub fn tick(&mut self, moment: u64) -> Result<(), NoMemory>
        ensures ok { OnOk result ((xs : List EventValue) × ThenAnswers self.old.setup (ticked moment (last_moment self.old.events) self.old.events) self.new xs) }
        ensures decided { OnOk result (IsDecided self.old.setup.callers self.new.events) }
        ensures err { OnErr result (self.new ≡ self.old) }
    {
        let _callers = self.books.setup().callers;
        self.books.reserve_answers(67)?;
        note_moment(&mut self.books, moment);
        settle(&mut self.books);
        Ok(())
    }

    /// No more commands come.
    pub fn finish(&mut self) -> Result<(), NoMemory>
        ensures ok { OnOk result (self.new ≡ (if quit self.old.events then self.old else appends self.old Event.Quit)) }
        ensures err { OnErr result (self.new ≡ self.old) }
    {
        if self.books.facts().quit {
            return Ok(());
        }
        self.books.reserve(2)?;
        self.books.add(Event::Quit, EventCopy::plain(Event::Quit));
        Ok(())
    }
}
