// The connections of a desk.
ghost use Rattle.std.specs.Prelude.{◌≡◌, ◌≤◌, ◌<◌, [], suc, length, vec_len, vec_capacity, None, Some, IsSome, OnOk, OnErr};
ghost use Rattle.std.specs.Option.{ForSome};
ghost use Rattle.n41_journal.specs.declared.events.Event.{Event as EventValue};
ghost use Rattle.n41_link.specs.Flow.{KnownAs};
ghost use Rattle.n41_model.specs.declared.words.Item.{Item as ItemValue};
ghost use Rattle.n41_calls.specs.Due.{due};
ghost use Rattle.n41_model.specs.Requests.{standing, dials};
ghost use Rattle.n41_core.specs.State.{appends};
ghost use Rattle.n41_desk.specs.Lines.{HasLines, StaysQuiet, in_order};
ghost use Rattle.n41_desk.specs.Moments.{CountsDials};
ghost use Rattle.n41_desk.specs.Steps.{Dials, Reads, Sends};
ghost use Rattle.n41_desk.specs.Wires.{IsNew};

use crate::breaking::Fate;
use crate::hearing::hear;
use crate::saying::say;
use n41_core::{Core, Packet};
use n41_link::{Dialer, Ear, Inflow, Mouth, Outflow};
use n41_types::NoMemory;
use n41_wire::{Inlet, Outlet, Wire};
use std::alloc::Global;

/// The connections that broke, the oldest first, and the one that stands. There is room to keep that one too, once it breaks.
#[derive(Drop)]
pub(crate) struct Lines<I: Inflow, O: Outflow> {
    pub(crate) ended: Vec<Wire<I, O, Packet>>,
    pub(crate) wire: Option<Wire<I, O, Packet>>,
    ghost room: { ForSome wire (λ _. vec_len ended < vec_capacity ended) },
}

/// The wire of a new connection.
fn make_wire<I: Inflow, O: Outflow>(
    alloc: Global,
    conn: u64,
    inflow: I,
    outflow: O,
) -> Wire<I, O, Packet>
    requires unread { KnownAs (I.got inflow) [] }
    requires unwritten { KnownAs (O.put outflow) [] }
    ensures { IsNew conn result }
{
    let inlet = Inlet::new(conn, Ear::new(alloc, inflow));
    let outlet = Outlet::new(Mouth::new(alloc, outflow));
    let _ = inlet.inflow();
    let _ = outlet.outflow();
    Wire {
        conn,
        inlet,
        outlet,
    }
}

impl<I: Inflow + Drop, O: Outflow + Drop> Lines<I, O> {
    /// No connection was made yet.
    pub(crate) fn new(alloc: Global) -> Lines<I, O>
        ensures ended { result.ended.items ≡ [] }
        ensures wire { result.wire ≡ None }
    {
        Lines {
            ended: Vec::new(alloc),
            wire: None,
        }
    }

    /// The connections in order, the one that stands last.
    pub(crate) fn into_wires(self) -> Vec<Wire<I, O, Packet>>
        ensures { result.items ≡ in_order self.ended.items self.wire }
    {
        let Lines { mut ended, wire } = self;
        match wire {
            None => ended,
            Some(wire) => {
                ended.push_reserved(wire);
                ended
            }
        }
    }

    /// Reads once from the connection that stands, and takes what came.
    pub(crate) fn read(&mut self, alloc: Global, core: &mut Core, conn: u64)
        requires lines { HasLines core.old.events self.old.ended.items self.old.wire }
        requires stands { standing core.old.events ≡ Some conn }
        ensures lines { HasLines core.new.events self.new.ended.items self.new.wire }
        ensures reads { Reads (StaysQuiet self.old.wire self.new.wire) core.old core.new conn }
    {
        let Some(mut wire) = self.wire.take() else {
            return;
        };
        match hear(alloc, core, conn, &mut wire) {
            Fate::Stands => self.wire = Some(wire),
            Fate::Broke => self.ended.push_reserved(wire),
        }
    }

    /// Sends the request that is due on the connection that stands. Where it cannot be put, for want of memory, nothing changes.
    pub(crate) fn send(&mut self, core: &mut Core, conn: u64) -> Result<(), NoMemory>
        requires owner { length core.old.setup.owner ≤ 1024 }
        requires lines { HasLines core.old.events self.old.ended.items self.old.wire }
        requires stands { standing core.old.events ≡ Some conn }
        requires wanted { (i : ItemValue) × IsSome (due core.old.setup core.old.events i) }
        ensures lines { HasLines core.new.events self.new.ended.items self.new.wire }
        ensures sends { OnOk result (Sends core.old core.new conn) }
        ensures err { OnErr result (core.new ≡ core.old) }
    {
        let Some(mut wire) = self.wire.take() else {
            return Ok(());
        };
        match say(core, conn, &mut wire) {
            Ok(Fate::Stands) => {
                self.wire = Some(wire);
                Ok(())
            }
            Ok(Fate::Broke) => {
                self.ended.push_reserved(wire);
                Ok(())
            }
            Err(fault) => {
                self.wire = Some(wire);
                Err(fault)
            }
        }
    }

    /// Notes a connection that was made. Where memory is wanting, it is dropped and nothing changes.
    fn join(
        &mut self,
        alloc: Global,
        core: &mut Core,
        inflow: I,
        outflow: O,
    ) -> Result<(), NoMemory>
        requires lines { HasLines core.old.events self.old.ended.items self.old.wire }
        requires none { standing core.old.events ≡ None }
        requires room { vec_len self.old.ended < vec_capacity self.old.ended }
        requires unread { KnownAs (I.got inflow) [] }
        requires unwritten { KnownAs (O.put outflow) [] }
        ensures lines { HasLines core.new.events self.new.ended.items self.new.wire }
        ensures ok { OnOk result (core.new ≡ appends core.old (EventValue.Dialed (suc (dials core.old.events)))) }
        ensures err { OnErr result (core.new ≡ core.old) }
    {
        core.kept();
        let conn = core.dialed()?;
        self.wire = Some(make_wire(alloc, conn, inflow, outflow));
        Ok(())
    }
}

/// Makes a connection. Where memory is wanting, nothing is noted.
pub(crate) fn dial<D: Dialer>(
    alloc: Global,
    core: &mut Core,
    lines: &mut Lines<D::I, D::O>,
    dialer: &mut D,
    addr: &str,
) -> Result<(), NoMemory>
where
    D::I: Drop,
    D::O: Drop,
    requires lines { HasLines core.old.events lines.old.ended.items lines.old.wire }
    requires none { standing core.old.events ≡ None }
    ensures lines { HasLines core.new.events lines.new.ended.items lines.new.wire }
    ensures ok { OnOk result (Dials core.old core.new) }
    ensures err { OnErr result (core.new ≡ core.old) }
    ensures counts { CountsDials core.old.events core.new.events (D.faults dialer.old) (D.faults dialer.new) }
{
    lines.ended.reserve(1)?;
    match dialer.dial(addr) {
        Ok((inflow, outflow)) => lines.join(alloc, core, inflow, outflow),
        Err(_) => core.dial_failed(),
    }
}
