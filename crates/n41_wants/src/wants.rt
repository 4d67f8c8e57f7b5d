ghost use Rattle.std.specs.Prelude.{◌≡◌};
ghost use Rattle.n41_model.specs.declared.words.Setup.{Setup as SetupValue};
ghost use Rattle.n41_wants.specs.Wants.{RunsOn, NothingDueIn, awaits_in, WantIn};

use crate::waits::wait;
use n41_due::{Lookup, any_waiting};

/// What a client wants next. Connections are numbered from 1, and moments are in seconds.
#[derive(Clone, Copy, Debug, PartialEq, Eq)]
pub enum Want {
    /// A connection.
    Dial,
    /// That a request be sent on this connection.
    Send(u64),
    /// What comes on this connection.
    Read(u64),
    /// That this moment comes.
    Pause(u64),
    /// Nothing: the run has ended.
    Nothing,
}

/// Whether a request waits for its reply on the standing connection.
fn awaits(look: &Lookup) -> bool
    ensures { result ≡ awaits_in look.now }
{
    if look.bare().is_some() && look.facts().bare_waits {
        return true;
    }
    any_waiting(look.slots())
}

/// What is wanted on a connection that stands, where nothing is due.
fn wanted_idle(look: &Lookup, conn: u64) -> Want
    requires runs { RunsOn look.now conn }
    requires idle { (u : SetupValue) → NothingDueIn u look.now }
    ensures { (u : SetupValue) → WantIn u look.now result }
{
    if awaits(look) {
        return Want::Read(conn);
    }
    match wait(look) {
        None => Want::Read(conn),
        Some(moment) => Want::Pause(moment),
    }
}

/// What the client with these tables wants next: nothing where the run has ended, a connection where none stands, that a request be sent
/// where one is due, that a moment comes where no reply is awaited and something waits for that moment, and otherwise what comes.
pub fn wanted(look: &Lookup) -> Want
    ensures { (u : SetupValue) → WantIn u look.now result }
{
    if look.has_ended() {
        return Want::Nothing;
    }
    match look.facts().standing {
        None => Want::Dial,
        Some(conn) => match look.first_due() {
            Some(_) => Want::Send(conn),
            None => wanted_idle(look, conn),
        },
    }
}
