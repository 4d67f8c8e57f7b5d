// Reading the journal.
ghost use Rattle.std.specs.Prelude.{◌≡◌, IfOk, IfErr};
ghost use Rattle.n41_link.specs.Counts.{Counts};
ghost use Rattle.n41_replay.specs.Replays.{ReadJournal, ReadFails, of_source, of_text, is_read_fault};

use crate::ReplayFault;
use n41_journal::Journal;
use n41_journal_reader::read_journal;
use n41_link::Source;
use n41_script::SCRIPT_LIMIT;
use n41_streams::{ReadFault, read_all};
use n41_words::{LineKind, ScriptFault};
use std::alloc::Global;

/// What it means for the whole that a source was not read to its end.
fn fault_of_source(fault: ReadFault) -> ReplayFault
    ensures { result ≡ of_source fault }
{
    match fault {
        ReadFault::TooLong => ReplayFault::Script(0, LineKind::Limit),
        ReadFault::Failed => ReplayFault::ReadFault,
        ReadFault::NoMemory => ReplayFault::NoMemory,
    }
}

/// What it means for the whole that a text is no journal.
fn fault_of_text(fault: ScriptFault) -> ReplayFault
    ensures { result ≡ of_text fault }
{
    match fault {
        ScriptFault::Line { line, kind } => ReplayFault::Script(line, kind),
        ScriptFault::NoMemory => ReplayFault::NoMemory,
    }
}

/// Reads the source to its end, as a journal.
pub(crate) fn read<S: Source>(alloc: Global, source: &mut S) -> Result<Journal, ReplayFault>
    ensures ok { IfOk result (λ j. ReadJournal (S.left source.old) (S.left source.new) j.events) }
    ensures err { IfErr result (λ f. ReadFails f (S.left source.old) (S.left source.new)) }
    ensures cause { Counts (S.faults source.old) (S.faults source.new) (is_read_fault result) }
{
    let bytes = match read_all(alloc, source, SCRIPT_LIMIT) {
        Ok(bytes) => bytes,
        Err(fault) => return Err(fault_of_source(fault)),
    };
    match read_journal(alloc, &bytes) {
        Ok(journal) => Ok(journal),
        Err(fault) => Err(fault_of_text(fault)),
    }
}
