// What is heard on the connection that stands.
ghost use Rattle.std.specs.Prelude.{◌≡◌, All, Some, None};
ghost use Rattle.n41_link.specs.Counts.{Counts, Rose};
ghost use Rattle.n41_link.specs.Flow.{KnownAs};
ghost use Rattle.n41_link.specs.Heard.{capped};
ghost use Rattle.n41_model.specs.Requests.{standing, takes};
ghost use Rattle.n41_replies.specs.Replies.{IsSpellable};
ghost use Rattle.n41_wire.specs.Ends.{inlet_conn, inlet_log, inlet_replies, inlet_fault, inlet_inflow};
ghost use Rattle.n41_wire.specs.Got.{in_quiet};
ghost use Rattle.n41_wire.specs.Logs.{StandFirst};
ghost use Rattle.n41_desk.specs.Shown.{Shows};
ghost use Rattle.n41_desk.specs.Steps.{Reads, TakesOrBreaks};
ghost use Rattle.n41_desk.specs.Follows.{Follows, IsNextHere};
ghost use Rattle.n41_desk.specs.Wires.{Carries, Fares};

use crate::breaking::{Fate, break_off, break_old};
use n41_core::{Core, Packet, TookFault};
use n41_journal::Cause;
use n41_link::{Inflow, Outflow};
use n41_wire::{Arrival, InFault, InGot, Inlet, Wire, replies_stand_first};
use std::alloc::Global;

/// Hears the next message once, and keeps what the inlet shows of it.
fn listen<I: Inflow>(alloc: Global, inlet: &mut Inlet<I>) -> Result<InGot, InFault>
    requires { inlet_fault inlet.old ≡ None }
    ensures conn { inlet_conn inlet.new ≡ inlet_conn inlet.old }
    ensures told { KnownAs (I.got (inlet_inflow inlet.new)) (inlet_log inlet.new) }
    ensures first { StandFirst (inlet_log inlet.new) (inlet_replies inlet.new) }
    ensures spelled { All IsSpellable (inlet_replies inlet.new) }
    ensures quiets { Counts (I.quiets (inlet_inflow inlet.old)) (I.quiets (inlet_inflow inlet.new)) (in_quiet result) }
    ensures shows { Shows result (inlet_replies inlet.old) inlet.new }
{
    replies_stand_first();
    let _ = inlet.inflow();
    let got = inlet.next(alloc);
    let _ = inlet.inflow();
    got
}

/// Takes a reply that is at the next place of the connection that stands. Where it answers nothing that waits, or memory is wanting, the
/// connection is broken.
fn take(core: &mut Core, arrival: Arrival) -> Fate
    requires stands { standing core.old.events ≡ Some arrival.conn }
    requires place { arrival.place ≡ capped (takes core.old.events) }
    ensures { TakesOrBreaks result core.old core.new arrival.conn arrival.reply }
{
    match core.took(arrival) {
        Ok(()) => Fate::Stands,
        Err(TookFault::Gone(_)) => Fate::Broke,
        Err(TookFault::Misplaced { .. }) => Fate::Broke,
        Err(TookFault::Shape(_)) => Fate::Broke,
        Err(TookFault::NoMemory) => Fate::Broke,
    }
}

/// Does what follows from an inlet's answer: what came is taken, and each fault, the end and an old request break the connection.
fn follow(core: &mut Core, conn: u64, got: Result<InGot, InFault>) -> Fate
    requires stands { standing core.old.events ≡ Some conn }
    requires next { IsNextHere got conn (takes core.old.events) }
    ensures { Follows got result core.old core.new conn }
{
    match got {
        Ok(InGot::Came(arrival)) => take(core, arrival),
        Ok(InGot::Quiet) => break_old(core, conn),
        Ok(InGot::End) => break_off(core, conn, Cause::Ended),
        Err(InFault::Failed) => break_off(core, conn, Cause::Link),
        Err(InFault::Gather(_)) => break_off(core, conn, Cause::BadRecord),
        Err(InFault::Garbled(_)) => break_off(core, conn, Cause::Garbled),
        Err(InFault::NoMemory) => break_off(core, conn, Cause::NoMemory),
    }
}

/// Reads once from the connection that stands, and takes what came.
pub(crate) fn hear<I: Inflow, O: Outflow>(
    alloc: Global,
    core: &mut Core,
    conn: u64,
    wire: &mut Wire<I, O, Packet>,
) -> Fate
    requires { Carries core.old.events conn wire.old }
    ensures fares { Fares result core.new.events conn wire.new }
    ensures reads { Reads (Rose (I.quiets (inlet_inflow wire.old.inlet)) (I.quiets (inlet_inflow wire.new.inlet))) core.old core.new conn }
{
    let got = listen(alloc, &mut wire.inlet);
    follow(core, conn, got)
}
