// A journal by way of its text.
ghost use Rattle.std.specs.Prelude.{◌≡◌, All, reverse, IfOk, IfErr};
ghost use Rattle.n41_tellable.specs.Tellable.{AllTellable};
ghost use Rattle.n41_journal_text.specs.Text.{journal_lines};
ghost use Rattle.n41_journal_text.specs.Words.{IsSayable};
ghost use Rattle.n41_journal_back.specs.Kept.{IsTextFault};

use crate::kept::events_are_typed;
use n41_journal::Journal;
use n41_journal_reader::{ScriptFault, read_journal};
use n41_journal_text::journal_text;
use std::alloc::Global;

/// The journal that is read from the text of a journal: the same events, unless the text is too long.
pub fn written_and_read(alloc: Global, journal: &Journal) -> Result<Journal, ScriptFault>
    requires tellable { AllTellable journal.now.events }
    // Each command is one that words say, and each name in an answer has a byte.
    requires sayable { All IsSayable (reverse journal.now.events) }
    ensures ok { IfOk result (λ again. again.events ≡ journal.now.events) }
    ensures err { IfErr result (λ fault. IsTextFault (journal_lines (reverse journal.now.events)) fault) }
{
    events_are_typed(journal.as_slice());
    let Ok(text) = journal_text(alloc, journal) else {
        return Err(ScriptFault::NoMemory);
    };
    read_journal(alloc, text.as_slice())
}
