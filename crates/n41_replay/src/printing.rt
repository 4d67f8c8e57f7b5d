// Printing what was found in a journal.
ghost use Rattle.std.specs.Prelude.{◌≡◌, IfOk, OnOk, IfErr, string_bytes};
ghost use Rattle.std.specs.Io.KnownBytes.{append_known};
ghost use Rattle.n41_link.specs.Counts.{Counts};
ghost use Rattle.n41_replay.specs.Replays.{PrintFails, is_write_fault, rule_text, verdict_text};

use crate::{ReplayFault, Rule};
use n41_link::Sink;
use n41_streams::put_all;
use n41_types::NoMemory;
use std::alloc::Global;

/// The word for a rule.
fn rule_word(rule: Rule) -> &'static str
    ensures { result.now ≡ rule_text rule }
{
    match rule {
        Rule::Slots => "slots",
        Rule::Retries => "retries",
        Rule::Turns => "turns",
        Rule::Causes => "causes",
        Rule::Answers => "answers",
    }
}

/// The line for what was found among so many events, with its end.
#[tactic(auto, unfolding(crate::specs::Replays::verdict_text))]
fn verdict_line(alloc: Global, count: u64, found: Option<(u64, Rule)>) -> Result<String, NoMemory>
    ensures { IfOk result (λ text. string_bytes text ≡ verdict_text count found) }
{
    match found {
        None => format!(in alloc; "ok {count}\n"),
        Some((place, rule)) => {
            let word = rule_word(rule);
            format!(in alloc; "event {place} breaks {word}\n")
        }
    }
}

/// Prints the line for what was found among so many events, or where the sink fails a part of it.
pub(crate) fn print<K: Sink>(
    alloc: Global,
    sink: &mut K,
    count: u64,
    found: Option<(u64, Rule)>,
) -> Result<(), ReplayFault>
    ensures ok { OnOk result (K.taken sink.new ≡ append_known (K.taken sink.old) (verdict_text count found)) }
    ensures err { IfErr result (λ f. PrintFails f (K.taken sink.old) (K.taken sink.new) (verdict_text count found)) }
    ensures cause { Counts (K.faults sink.old) (K.faults sink.new) (is_write_fault result) }
{
    let Ok(line) = verdict_line(alloc, count, found) else {
        return Err(ReplayFault::NoMemory);
    };
    match put_all(sink, line.as_bytes()) {
        Ok(()) => Ok(()),
        Err(_) => Err(ReplayFault::WriteFault),
    }
}
