// A dump, as a call of the program.
ghost use Rattle.std.specs.Prelude.{◌≡◌};
ghost use Rattle.n41_run.specs.Causes.{status};
ghost use Rattle.n41_run.specs.Finishes.{DumpEnds, of_dump};

use crate::RunFault;
use n41_dump::DumpFault;
use n41_lines::Side;
use n41_link::{Sink, Source};
use n41_script::LineKind;
use std::alloc::Global;

fn fault_of(fault: DumpFault) -> RunFault
    ensures { result ≡ of_dump fault }
{
    match fault {
        DumpFault::Limit => RunFault::Script(0, LineKind::Limit),
        DumpFault::ReadFault => RunFault::ReadFault,
        DumpFault::WriteFault => RunFault::WriteFault,
        DumpFault::NoMemory => RunFault::NoMemory,
    }
}

/// Prints a line for each record that one side of a connection wrote to the source, and a last line (own).
///
/// The status is 0 where the whole source was dumped, 3 where it has more than 16 MiB, 4 where it failed, 5 where the sink failed, and 8 for want of memory.
pub fn dump<S: Source, K: Sink>(
    alloc: Global,
    side: Side,
    source: &mut S,
    sink: &mut K,
) -> (u8, Option<RunFault>)
    ensures status { result.0 ≡ status result.1 }
    ensures ends { DumpEnds side result.1 (S.left source.old) (S.left source.new) (S.faults source.old) (S.faults source.new) (K.taken sink.old) (K.taken sink.new) (K.faults sink.old) (K.faults sink.new) }
{
    match n41_dump::dump(alloc, side, source, sink) {
        Ok(()) => (0, None),
        Err(fault) => {
            let fault = fault_of(fault);
            (fault.status(), Some(fault))
        }
    }
}
