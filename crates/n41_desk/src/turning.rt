// The turns of a desk.
ghost use Rattle.std.specs.Prelude.{◌≡◌, ◌≤◌, ℕ, List, length, IsTrue, IfOk, OnOk, OnErr};
ghost use Rattle.n41_journal.specs.declared.events.Event.{Event as EventValue};
ghost use Rattle.n41_model.specs.Requests.{moment as last_moment};
ghost use Rattle.n41_core.specs.Causes.{WantCause};
ghost use Rattle.n41_desk.specs.Journals.{moments};
ghost use Rattle.n41_desk.specs.Lines.{HasLines, StaysQuiet};
ghost use Rattle.n41_desk.specs.Moments.{AreGiven, CountsDials, KeepsGiven};
ghost use Rattle.n41_desk.specs.Steps.{Acts, Notes};

use crate::lines::{Lines, dial};
use crate::turns::Turn;
use n41_core::Core;
use n41_link::{Clock, Dialer};
use n41_types::NoMemory;
use n41_wants::Want;
use std::alloc::Global;

/// The milliseconds of a pause.
const PAUSE: u64 = 100;

/// Notes the clock's moment.
pub(crate) fn note<C: Clock>(core: &mut Core, clock: &mut C) -> Result<(), NoMemory>
    requires { AreGiven (C.given clock.old) (moments core.old.events) }
    ensures given { AreGiven (C.given clock.new) (moments core.new.events) }
    ensures last { OnOk result (IsTrue (C.given clock.new (last_moment core.new.events))) }
    ensures notes { OnOk result ((m : ℕ) × (answers : List EventValue) × Notes core.old core.new m answers) }
    ensures err { OnErr result (core.new ≡ core.old) }
    ensures keeps { KeepsGiven (C.given clock.old) (C.given clock.new) }
    ensures tells { C.tells clock.new ≡ C.tells clock.old }
{
    let moment = clock.now();
    core.tick(moment)
}

/// Does what is wanted.
pub(crate) fn act<D: Dialer, C: Clock>(
    alloc: Global,
    core: &mut Core,
    lines: &mut Lines<D::I, D::O>,
    dialer: &mut D,
    clock: &mut C,
    addr: &str,
    want: Want,
) -> Result<Turn, NoMemory>
where
    D::I: Drop,
    D::O: Drop,
    requires owner { length core.old.setup.owner ≤ 1024 }
    requires lines { HasLines core.old.events lines.old.ended.items lines.old.wire }
    requires wanted { WantCause core.old.setup core.old.events want }
    ensures lines { HasLines core.new.events lines.new.ended.items lines.new.wire }
    ensures acts { IfOk result (λ turn. Acts (StaysQuiet lines.old.wire lines.new.wire) core.old core.new want turn) }
    ensures err { OnErr result (core.new ≡ core.old) }
    ensures counts { CountsDials core.old.events core.new.events (D.faults dialer.old) (D.faults dialer.new) }
    ensures given { C.given clock.new ≡ C.given clock.old }
    ensures tells { C.tells clock.new ≡ C.tells clock.old }
{
    match want {
        Want::Dial => {
            dial(alloc, core, lines, dialer, addr)?;
            Ok(Turn::Went)
        }
        Want::Send(conn) => {
            lines.send(core, conn)?;
            Ok(Turn::Went)
        }
        Want::Read(conn) => {
            lines.read(alloc, core, conn);
            Ok(Turn::Went)
        }
        Want::Pause(_) => {
            clock.pause(PAUSE);
            Ok(Turn::Went)
        }
        Want::Nothing => Ok(Turn::Idle),
    }
}
