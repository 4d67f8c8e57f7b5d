ghost use Rattle.std.specs.Prelude.{◌≡◌, ◌≢◌, suc, true, false, None, Some, IfOk, OnOk, OnErr};
ghost use Rattle.n41_calls.specs.Kept.{MayBreakBy};
ghost use Rattle.n41_model.specs.Requests.{standing, dials};
ghost use Rattle.n41_core.specs.State.{appends};

use crate::client::Core;
use n41_journal::{Cause, Event};
use n41_tables::EventCopy;
use n41_types::NoMemory;
use std::alloc::AllocError;

impl Core {
    /// A connection was made. Its number is one more than there were before.
    pub fn dialed(&mut self) -> Result<u64, NoMemory>
        requires { standing self.old.events ≡ None }
        ensures number { IfOk result (λ n. n ≡ suc (dials self.old.events)) }
        ensures ok { IfOk result (λ n. self.new ≡ appends self.old (Event.Dialed n)) }
        ensures err { OnErr result (self.new ≡ self.old) }
    {
        let Some(conn) = self.books.facts().dials.checked_add(1) else {
            return Err(AllocError);
        };
        self.books.reserve(2)?;
        self.books.add(
            Event::Dialed { conn },
            EventCopy::plain(Event::Dialed { conn }),
        );
        Ok(conn)
    }

    /// No connection could be made.
    pub fn dial_failed(&mut self) -> Result<(), NoMemory>
        requires { standing self.old.events ≡ None }
        ensures ok { OnOk result (self.new ≡ appends self.old Event.DialFailed) }
        ensures err { OnErr result (self.new ≡ self.old) }
    {
        self.books.reserve(2)?;
        self.books
            .add(Event::DialFailed, EventCopy::plain(Event::DialFailed));
        Ok(())
    }

    /// The connection broke. False exactly where it does not stand. It takes no memory.
    pub fn broke(&mut self, conn: u64, cause: Cause) -> bool
        requires { MayBreakBy self.old.events cause }
        ensures no { result ≡ false → (standing self.old.events ≢ Some conn) × (self.new ≡ self.old) }
        ensures yes { result ≡ true → (standing self.old.events ≡ Some conn) × (self.new ≡ appends self.old (Event.Broke conn cause)) }
    {
        if self.books.facts().standing != Some(conn) {
            return false;
        }
        self.break_off(conn, cause);
        true
    }
}
