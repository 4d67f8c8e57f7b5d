// How a connection breaks.
ghost use Rattle.std.specs.Prelude.{◌≡◌, true, false, ℕ, Some};
ghost use Rattle.n41_journal.specs.declared.events.Event.{Event as EventValue};
ghost use Rattle.n41_calls.specs.Kept.{IsOld, MayBreakBy};
ghost use Rattle.n41_model.specs.Requests.{standing};
ghost use Rattle.n41_core.specs.State.{appends};
ghost use Rattle.n41_desk.specs.declared.breaking.Fate.{Fate as FateValue};
ghost use Rattle.n41_desk.specs.Steps.{ByOld};

use n41_core::Core;
use n41_journal::Cause;

/// What became of a connection.
#[derive(Clone, Copy, Debug, PartialEq, Eq)]
pub(crate) enum Fate {
    Stands,
    Broke,
}

/// Breaks the connection that stands.
pub(crate) fn break_off(core: &mut Core, conn: u64, cause: Cause) -> Fate
    requires stands { standing core.old.events ≡ Some conn }
    requires may { MayBreakBy core.old.events cause }
    ensures fate { result ≡ Fate.Broke }
    ensures broke { core.new ≡ appends core.old (EventValue.Broke conn cause) }
{
    let _broke = core.broke(conn, cause);
    Fate::Broke
}

/// Breaks the connection that stands where a request on it is old.
pub(crate) fn break_old(core: &mut Core, conn: u64) -> Fate
    requires { standing core.old.events ≡ Some conn }
    ensures { ByOld result core.old core.new conn }
{
    match core.old_request() {
        Some(xid) => {
            let _broke = break_off(core, conn, Cause::Old(xid));
            Fate::Broke
        }
        None => Fate::Stands,
    }
}
