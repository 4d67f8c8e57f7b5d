// A dump of a source.
ghost use Rattle.std.specs.Prelude.{◌≡◌, ◌<◌, length, IfOk};
ghost use Rattle.n41_link.specs.Counts.{Counts};
ghost use Rattle.n41_dump.specs.Causes.{is_read_fault, is_write_fault, Answers};
ghost use Rattle.n41_dump.specs.Steps.{IsStarted, PrintsAll};

use crate::piece::read_piece;
use crate::printer::Printer;
use crate::{DumpFault, Side};
use n41_link::{Sink, Source};
use n41_types::NoMemory;
use std::alloc::Global;

/// The most bytes that are read at once.
const STEP: usize = 65_536;

/// What is read into. It is made once.
fn make_room(alloc: Global) -> Result<Vec<u8>, NoMemory>
    ensures { IfOk result (λ room. length room.items ≡ 65536) }
{
    vec![in alloc; 0u8; STEP]
}

/// Reads the source to its end, and prints each record as soon as it is whole.
fn print_all<S: Source, K: Sink>(
    room: &mut [u8],
    printer: &mut Printer,
    source: &mut S,
    sink: &mut K,
) -> Result<(), DumpFault>
    requires some { 0 < length room.old }
    requires started { IsStarted printer.old }
    ensures prints { PrintsAll result printer.old.side printer.new (S.left source.old) (S.left source.new) (K.taken sink.old) (K.taken sink.new) }
    ensures read { Counts (S.faults source.old) (S.faults source.new) (is_read_fault result) }
    ensures write { Counts (K.faults sink.old) (K.faults sink.new) printer.new.broken }
{
    let mut came = 0;
    'pieces: loop {
        let n = read_piece(source, room, &mut came)?;
        if n == 0 {
            return Ok(());
        }
        match printer.take(&room[..n], sink) {
            Ok(()) => {}
            Err(_) => return Err(DumpFault::NoMemory),
        }
    }
}

/// Prints a line for each record of a stream that one side of a connection wrote, and a last line for what stands behind them (own).
///
/// The source is read to its end, also behind a record that passes a limit and where the sink has failed: a failure of the source, and a stream of more than 16 MiB, are told
/// first. Each line is written as soon as its record is whole.
pub fn dump<S: Source, K: Sink>(
    alloc: Global,
    side: Side,
    source: &mut S,
    sink: &mut K,
) -> Result<(), DumpFault>
    ensures answers { Answers result side (S.left source.old) (S.left source.new) (K.taken sink.old) (K.taken sink.new) }
    ensures read { Counts (S.faults source.old) (S.faults source.new) (is_read_fault result) }
    ensures write { Counts (K.faults sink.old) (K.faults sink.new) (is_write_fault result) }
{
    let Ok(mut room) = make_room(alloc) else {
        return Err(DumpFault::NoMemory);
    };
    let mut printer = Printer::new(alloc, side);
    print_all(&mut room, &mut printer, source, sink)?;
    printer.finish(sink)
}
