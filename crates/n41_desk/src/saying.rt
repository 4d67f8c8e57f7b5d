// What is said on the connection that stands.
ghost use Rattle.std.specs.Prelude.{◌≡◌, ◌≤◌, length, None, Some, IsSome, IfOk, OnErr};
ghost use Rattle.n41_link.specs.Flow.{KnownAs};
ghost use Rattle.n41_model.specs.declared.words.Item.{Item as ItemValue};
ghost use Rattle.n41_calls.specs.Due.{due};
ghost use Rattle.n41_model.specs.Requests.{standing};
ghost use Rattle.n41_requests.specs.Requests.{spelled};
ghost use Rattle.n41_record.specs.Fragments.{most_bytes};
ghost use Rattle.n41_wire.specs.Ends.{outlet_log, outlet_fault, outlet_outflow};
ghost use Rattle.n41_desk.specs.Shown.{Tells};
ghost use Rattle.n41_desk.specs.Follows.{Answers};
ghost use Rattle.n41_desk.specs.Steps.{Sends};
ghost use Rattle.n41_desk.specs.Wires.{Carries, Fares};

use crate::breaking::{Fate, break_off};
use n41_core::{Core, Packet};
use n41_journal::Cause;
use n41_link::{Inflow, Outflow, SayFault};
use n41_types::NoMemory;
use n41_wire::{Outlet, Wire};

/// Sends a request, and keeps what the outlet shows of it.
fn tell<O: Outflow>(outlet: &mut Outlet<O, Packet>, packet: Packet) -> Result<(), SayFault>
    requires sound { outlet_fault outlet.old ≡ None }
    requires short { length (spelled packet.request) ≤ most_bytes }
    ensures told { KnownAs (O.put (outlet_outflow outlet.new)) (outlet_log outlet.new) }
    ensures tells { Tells result (outlet_log outlet.old) packet.request outlet.new }
{
    let sent = outlet.send(packet);
    let _ = outlet.outflow();
    sent
}

/// Does what follows from an outlet's answer: a fault breaks the connection that stands.
fn follow(core: &mut Core, conn: u64, sent: Result<(), SayFault>) -> Fate
    requires { standing core.old.events ≡ Some conn }
    ensures { Answers sent result core.old core.new conn }
{
    match sent {
        Ok(()) => Fate::Stands,
        Err(SayFault::Failed) => break_off(core, conn, Cause::Link),
        Err(SayFault::NoMemory) => break_off(core, conn, Cause::NoMemory),
    }
}

/// Puts the request that is due and sends it on the connection that stands. Where it cannot be sent the connection is broken; where it cannot
/// be put, for want of memory, nothing changes.
pub(crate) fn say<I: Inflow, O: Outflow>(
    core: &mut Core,
    conn: u64,
    wire: &mut Wire<I, O, Packet>,
) -> Result<Fate, NoMemory>
    requires owner { length core.old.setup.owner ≤ 1024 }
    requires carries { Carries core.old.events conn wire.old }
    requires wanted { (i : ItemValue) × IsSome (due core.old.setup core.old.events i) }
    ensures fares { IfOk result (λ fate. Fares fate core.new.events conn wire.new) }
    ensures sends { IfOk result (λ _. Sends core.old core.new conn) }
    ensures core_kept { OnErr result (core.new ≡ core.old) }
    ensures wire_kept { OnErr result (wire.new ≡ wire.old) }
{
    let Some(packet) = core.next_out(conn)? else {
        return Ok(Fate::Stands);
    };
    let sent = tell(&mut wire.outlet, packet);
    Ok(follow(core, conn, sent))
}
