// The text of a journal.
ghost use Rattle.std.specs.Prelude.{◌≡◌, ◌++◌, All, reverse, IfOk, OnOk};
ghost use Rattle.n41_tellable.specs.Tellable.{IsTellable, AllTellable};
ghost use Rattle.n41_journal_text.specs.Text.{journal_lines};
ghost use Rattle.n41_journal_text.specs.Words.{IsLegible, IsSayable};

use crate::events::put_line;
use n41_journal::{Event, Journal};
use n41_types::{Bytes, NoMemory};
use std::alloc::Global;

/// Adds the lines of events, of which the oldest comes first.
fn put_lines(alloc: Global, out: &mut Vec<u8>, events: &[Event]) -> Result<(), NoMemory>
    requires { All IsTellable events.now }
    ensures told { OnOk result (out.new.items ≡ out.old.items ++ journal_lines events.now) }
    ensures legible { OnOk result (All IsSayable events.now → All IsLegible events.now) }
{
    for event in events {
        put_line(alloc, out, event)?;
    }
    Ok(())
}

/// The text of a journal (own): a line for each event, the oldest first. A message is told by its bytes in hexadecimal, without record mark and
/// with an empty tag and verifier.
#[tactic(auto, using(crate::proofs::Reversed::all_reversed))]
pub fn journal_text(alloc: Global, journal: &Journal) -> Result<Bytes, NoMemory>
    requires { AllTellable journal.now.events }
    ensures told { IfOk result (λ text. text ≡ journal_lines (reverse journal.now.events)) }
    // A reader may rely on each event, where its command is one that words say and the names in its answer have bytes.
    ensures legible { OnOk result (All IsSayable (reverse journal.now.events) → All IsLegible (reverse journal.now.events)) }
{
    let mut out = Vec::new(alloc);
    put_lines(alloc, &mut out, journal.as_slice())?;
    Ok(Bytes::from_vec(out)?)
}
