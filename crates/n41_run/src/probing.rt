// A probe, as a call of the program.
ghost use Rattle.std.specs.Prelude.{◌≡◌};
ghost use Rattle.n41_run.specs.Causes.{status};
ghost use Rattle.n41_run.specs.Finishes.{ProbeEnds, of_probe, probe_fault};

use crate::RunFault;
use n41_link::{Clock, Dialer, Sink};
use n41_probe::{ProbeFault, Talk};
use std::alloc::Global;

fn fault_of(fault: ProbeFault) -> RunFault
    ensures { result ≡ of_probe fault }
{
    match fault {
        ProbeFault::Unreachable => RunFault::Unreachable(1),
        ProbeFault::Breach => RunFault::Breach(0),
        ProbeFault::WriteFault => RunFault::WriteFault,
        ProbeFault::NoMemory => RunFault::NoMemory,
    }
}

/// The status and the fault of the program, by what a probe came to.
fn ended(outcome: Result<(), ProbeFault>) -> (u8, Option<RunFault>)
    ensures status { result.0 ≡ status result.1 }
    ensures fault { result.1 ≡ probe_fault outcome }
{
    match outcome {
        Ok(()) => (0, None),
        Err(fault) => {
            let fault = fault_of(fault);
            (fault.status(), Some(fault))
        }
    }
}

/// Asks the server at an address for a client id by one EXCHANGE_ID over one connection, and prints what it answers.
///
/// It answers the status and the fault, and the two ends of the connection where there was one. The status is 0 where the reply was printed, 5 where the sink failed, 6 where
/// no connection or no record came, 7 where the first record is no such reply, and 8 for want of memory.
pub fn probe<K: Sink, D: Dialer, C: Clock>(
    alloc: Global,
    addr: &str,
    sink: &mut K,
    dialer: &mut D,
    clock: &mut C,
) -> (u8, Option<RunFault>, Option<Talk<D::I, D::O>>)
    ensures status { result.0 ≡ status result.1 }
    ensures ends { ProbeEnds result.1 result.2 (C.given clock.new) (C.ahead clock.old) (C.last clock.old) (C.last clock.new) (D.faults dialer.old) (D.faults dialer.new) (K.taken sink.old) (K.taken sink.new) (K.faults sink.old) (K.faults sink.new) }
{
    let (outcome, probed) = n41_probe::probe(alloc, addr, sink, dialer, clock);
    let (status, fault) = ended(outcome);
    (status, fault, probed)
}
