// What each command of the program leaves.
ghost use Rattle.std.specs.Prelude.{◌≡◌, [], Some, IsNone};
ghost use Rattle.n41_run.specs.Causes.{status};
ghost use Rattle.n41_run.specs.Finishes.{DumpEnds, HasNoClient, ProbeEnds, ReplayEnds, RunEnds, of_perform};

use crate::{Finish, RunFault, dump, probe, replay};
use n41_journal::Journal;
use n41_lines::Side;
use n41_link::{Clock, Dialer, Listener, Sink, Source};
use n41_perform::{PerformFault, Performed, Print, perform};
use std::alloc::Global;
use std::sync::Wait;

/// The status of a run with this fault.
fn status_of(fault: Option<RunFault>) -> u8
    ensures { result ≡ status fault }
{
    match fault {
        None => 0,
        Some(fault) => fault.status(),
    }
}

fn fault_of(fault: PerformFault) -> RunFault
    ensures { result ≡ of_perform fault }
{
    match fault {
        PerformFault::Script(line, kind) => RunFault::Script(line, kind),
        PerformFault::ReadFault => RunFault::ReadFault,
        PerformFault::WriteFault => RunFault::WriteFault,
        PerformFault::Unreachable(rounds) => RunFault::Unreachable(rounds),
        PerformFault::Breach(event) => RunFault::Breach(event),
        PerformFault::NoMemory => RunFault::NoMemory,
    }
}

/// A run that made no client and no connection.
fn without_client<D: Dialer, H: Listener, C>(
    alloc: Global,
    fault: Option<RunFault>,
    dialer: D,
    house: H,
    clock: C,
) -> Finish<D, H, C>
    ensures fault { result.fault ≡ fault }
    ensures status { result.status ≡ status fault }
    ensures no_link { IsNone result.probed }
    ensures no_client { HasNoClient result.journal.events result.wires.items }
    ensures same { (result.dialer ≡ dialer) × (result.house ≡ house) × (result.clock ≡ clock) }
{
    Finish {
        status: status_of(fault),
        fault,
        journal: Journal::new(alloc),
        dialer,
        house,
        clock,
        wires: Vec::new(alloc),
        probed: None,
    }
}

/// Words that are no form: nothing is done.
pub(crate) fn refuse<D: Dialer, H: Listener, C>(
    alloc: Global,
    place: usize,
    dialer: D,
    house: H,
    clock: C,
) -> Finish<D, H, C>
    ensures fault { result.fault ≡ Some (RunFault.Words place) }
    ensures status { result.status ≡ 2 }
    ensures no_link { IsNone result.probed }
    ensures no_client { HasNoClient result.journal.events result.wires.items }
    ensures same { (result.dialer ≡ dialer) × (result.house ≡ house) × (result.clock ≡ clock) }
{
    without_client(alloc, Some(RunFault::Words(place)), dialer, house, clock)
}

/// One exchange with the server.
pub(crate) fn finish_probe<K: Sink, D: Dialer, H: Listener, C: Clock>(
    alloc: Global,
    addr: &str,
    sink: &mut K,
    mut dialer: D,
    house: H,
    mut clock: C,
) -> Finish<D, H, C>
    ensures status { result.status ≡ status result.fault }
    ensures ends { ProbeEnds result.fault result.probed (C.given result.clock) (C.ahead clock) (C.last clock) (C.last result.clock) (D.faults dialer) (D.faults result.dialer) (K.taken sink.old) (K.taken sink.new) (K.faults sink.old) (K.faults sink.new) }
    ensures no_client { HasNoClient result.journal.events result.wires.items }
    ensures house { result.house ≡ house }
{
    let (status, fault, probed) = probe(alloc, addr, sink, &mut dialer, &mut clock);
    Finish {
        status,
        fault,
        journal: Journal::new(alloc),
        dialer,
        house,
        clock,
        wires: Vec::new(alloc),
        probed,
    }
}

/// A script, run against the server; its answers or its journal are printed.
pub(crate) fn finish_script<R: Wait, S: Source, K: Sink, D: Dialer, H: Listener, C: Clock>(
    rt: &R,
    alloc: Global,
    addr: &str,
    source: &mut S,
    shows: Print,
    sink: &mut K,
    dialer: D,
    house: H,
    clock: C,
) -> Finish<D, H, C>
where
    D::I: Drop,
    D::O: Drop,
    ensures status { result.status ≡ status result.fault }
    ensures ends { RunEnds shows result.fault result.journal.events result.wires.items (C.given result.clock) (D.faults dialer) (D.faults result.dialer) (S.left source.old) (S.left source.new) (S.faults source.old) (S.faults source.new) (K.taken sink.old) (K.taken sink.new) (K.faults sink.old) (K.faults sink.new) }
    ensures no_link { IsNone result.probed }
    ensures house { result.house ≡ house }
{
    let Performed {
        fault,
        journal,
        dialer,
        clock,
        wires,
    } = perform(rt, alloc, addr, source, shows, sink, dialer, clock);
    let fault = match fault {
        None => None,
        Some(fault) => Some(fault_of(fault)),
    };
    Finish {
        status: status_of(fault),
        fault,
        journal,
        dialer,
        house,
        clock,
        wires,
        probed: None,
    }
}

/// A line for each record of the source.
pub(crate) fn finish_dump<S: Source, K: Sink, D: Dialer, H: Listener, C>(
    alloc: Global,
    side: Side,
    source: &mut S,
    sink: &mut K,
    dialer: D,
    house: H,
    clock: C,
) -> Finish<D, H, C>
    ensures status { result.status ≡ status result.fault }
    ensures ends { DumpEnds side result.fault (S.left source.old) (S.left source.new) (S.faults source.old) (S.faults source.new) (K.taken sink.old) (K.taken sink.new) (K.faults sink.old) (K.faults sink.new) }
    ensures no_link { IsNone result.probed }
    ensures no_client { HasNoClient result.journal.events result.wires.items }
    ensures same { (result.dialer ≡ dialer) × (result.house ≡ house) × (result.clock ≡ clock) }
{
    let (_, fault) = dump(alloc, side, source, sink);
    without_client(alloc, fault, dialer, house, clock)
}

/// A journal from the source, checked by itself.
pub(crate) fn finish_replay<S: Source, K: Sink, D: Dialer, H: Listener, C>(
    alloc: Global,
    source: &mut S,
    sink: &mut K,
    dialer: D,
    house: H,
    clock: C,
) -> Finish<D, H, C>
    ensures ends { ReplayEnds result.status result.fault (S.left source.old) (S.left source.new) (S.faults source.old) (S.faults source.new) (K.taken sink.old) (K.taken sink.new) (K.faults sink.old) (K.faults sink.new) }
    ensures no_link { IsNone result.probed }
    ensures no_client { HasNoClient result.journal.events result.wires.items }
    ensures same { (result.dialer ≡ dialer) × (result.house ≡ house) × (result.clock ≡ clock) }
{
    let (status, fault) = replay(alloc, source, sink);
    let mut finish = without_client(alloc, fault, dialer, house, clock);
    finish.status = status;
    finish
}
