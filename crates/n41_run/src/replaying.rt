// A replay, as a call of the program.
ghost use Rattle.std.specs.Prelude.{◌≡◌};
ghost use Rattle.n41_run.specs.Finishes.{ReplayEnds, of_replay};

use crate::RunFault;
use n41_link::{Sink, Source};
use n41_replay::ReplayFault;
use std::alloc::Global;

fn fault_of(fault: ReplayFault) -> RunFault
    ensures { result ≡ of_replay fault }
{
    match fault {
        ReplayFault::Script(line, kind) => RunFault::Script(line, kind),
        ReplayFault::ReadFault => RunFault::ReadFault,
        ReplayFault::WriteFault => RunFault::WriteFault,
        ReplayFault::NoMemory => RunFault::NoMemory,
    }
}

/// Reads the text of a journal from the source, checks it by itself, and prints `ok N`, N the number of its events, or `event I breaks RULE` for the first event that breaks
/// a rule (own).
///
/// The status is 0 where no event breaks a rule, 1 where one does, 3 where the text is no journal or has more than 16 MiB, 4 where the source failed, 5 where the sink failed,
/// and 8 for want of memory. A broken rule is no fault.
pub fn replay<S: Source, K: Sink>(
    alloc: Global,
    source: &mut S,
    sink: &mut K,
) -> (u8, Option<RunFault>)
    ensures ends { ReplayEnds result.0 result.1 (S.left source.old) (S.left source.new) (S.faults source.old) (S.faults source.new) (K.taken sink.old) (K.taken sink.new) (K.faults sink.old) (K.faults sink.new) }
{
    match n41_replay::replay(alloc, source, sink) {
        Ok(None) => (0, None),
        Ok(Some(_)) => (1, None),
        Err(fault) => {
            let fault = fault_of(fault);
            (fault.status(), Some(fault))
        }
    }
}
