// A journal from a source, checked by itself.
ghost use Rattle.n41_link.specs.Counts.{Counts};
ghost use Rattle.n41_replay.specs.Replays.{Judged, Outcome, is_read_fault, is_write_fault};

use crate::printing::print;
use crate::reading::read;
use crate::{ReplayFault, Rule};
use n41_check::check;
use n41_journal::Journal;
use n41_link::{Sink, Source};
use std::alloc::Global;

/// Checks a journal, and prints what was found.
fn judge<K: Sink>(
    alloc: Global,
    journal: &Journal,
    sink: &mut K,
) -> Result<Option<(u64, Rule)>, ReplayFault>
    ensures judged { Judged result journal.now.events (K.taken sink.old) (K.taken sink.new) }
    ensures writes { Counts (K.faults sink.old) (K.faults sink.new) (is_write_fault result) }
{
    let Ok(found) = check(alloc, journal) else {
        return Err(ReplayFault::NoMemory);
    };
    print(alloc, sink, journal.len(), found)?;
    Ok(found)
}

/// Reads the text of a journal from the source, checks it by itself, and prints `ok N`, N the number of its events, or `event I breaks RULE` for the first event that breaks
/// a rule and the first rule that it breaks (own). These two are what is answered.
///
/// The source is read to its end before anything is printed. A text of more than 16 MiB is refused at line 0.
pub fn replay<S: Source, K: Sink>(
    alloc: Global,
    source: &mut S,
    sink: &mut K,
) -> Result<Option<(u64, Rule)>, ReplayFault>
    ensures outcome { Outcome result (S.left source.old) (S.left source.new) (K.taken sink.old) (K.taken sink.new) }
    ensures reads { Counts (S.faults source.old) (S.faults source.new) (is_read_fault result) }
    ensures writes { Counts (K.faults sink.old) (K.faults sink.new) (is_write_fault result) }
{
    let journal = read(alloc, source)?;
    judge(alloc, &journal, sink)
}
