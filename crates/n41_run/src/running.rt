// All that the program does.
ghost use Rattle.std.specs.Prelude.{◌≡◌, ◌⊎◌, ◌↔◌, ℕ, List, map, string_bytes, IsNone};
ghost use Rattle.n41_lines.specs.declared.side.Side.{Side as SideValue};
ghost use Rattle.n41_perform.specs.declared.printing.Print.TheVariants as PrintValue;
ghost use Rattle.n41_run.specs.Finishes.{AsksDump, AsksProbe, AsksReplay, AsksRun, AsksTrace, DumpEnds, HasNoClient, HasStatus, ProbeEnds, RefusesWords, ReplayEnds, RunEnds};
ghost use Rattle.n41_run.specs.Words.{IsForm};

use crate::finishing::{finish_dump, finish_probe, finish_replay, finish_script, refuse};
use crate::words::{Command, command_of};
use crate::{RunFault, Talk};
use n41_core::Packet;
use n41_journal::Journal;
use n41_link::{Clock, Dialer, Listener, Sink, Source};
use n41_perform::Print;
use n41_wire::Wire;
use std::alloc::Global;
use std::sync::Wait;
use std::thread::Threads;

/// What a run leaves.
#[derive(Drop)]
pub struct Finish<D: Dialer, H: Listener, C> {
    /// The status that the program ends with.
    pub status: u8,
    /// Why it did not do all that it was asked for.
    pub fault: Option<RunFault>,
    /// All that the client of a script did and met.
    pub journal: Journal,
    pub dialer: D,
    pub house: H,
    pub clock: C,
    /// The connections of a script's client, in the order of their numbers.
    pub wires: Vec<Wire<D::I, D::O, Packet>>,
    /// The two ends of the connection of a probe.
    pub probed: Option<Talk<D::I, D::O>>,
}

/// Does all that the program does for its words: `probe HOST:PORT` asks the server at that address for a client id and prints what it answers; `run HOST:PORT` runs the script
/// on the source against that server and prints the answers; `trace HOST:PORT` does the same, but prints the journal; `dump client` and `dump server` print a line for each record of the source, which that side of a connection wrote;
/// `replay` checks the journal on the source by itself and prints whether it breaks a rule, and where.
///
/// The status is 0 where all was done, 1 where `replay` printed a broken rule, which is no fault, 2 where the words are no form, 3 where the source is no script, no journal or too long, 4 where it failed, 5 where the sink failed, 6 where no server
/// was reached, 7 where a reply breaks the rules, and 8 for want of memory.
pub fn run<
    R: Threads + Wait + Sync,
    S: Source,
    K: Sink,
    D: Dialer + Send,
    H: Listener,
    C: Clock + Send,
>(
    rt: &R,
    alloc: Global,
    words: &[String],
    source: &mut S,
    sink: &mut K,
    dialer: D,
    house: H,
    clock: C,
) -> Finish<D, H, C>
where
    D::I: Drop,
    D::O: Drop,
    ensures status { HasStatus (map string_bytes words.now) result.status result.fault }
    ensures words { (result.status ≡ 2) ↔ (IsForm (map string_bytes words.now) → ⊥) }
    ensures untouched { result.status ≡ 2 → (source.new ≡ source.old) × (sink.new ≡ sink.old) × (result.dialer ≡ dialer) × (result.clock ≡ clock) }
    ensures no_link { result.status ≡ 2 → IsNone result.probed }
    ensures no_client { result.status ≡ 2 → HasNoClient result.journal.events result.wires.items }
    ensures house { result.house ≡ house }
    // The words are no form, or they ask for one of these, which left what it leaves.
    ensures ends { RefusesWords (map string_bytes words.now) result.fault ⊎ (((a : List ℕ) × AsksProbe (map string_bytes words.now) a × (source.new ≡ source.old) × HasNoClient result.journal.events result.wires.items × ProbeEnds result.fault result.probed (C.given result.clock) (C.ahead clock) (C.last clock) (C.last result.clock) (D.faults dialer) (D.faults result.dialer) (K.taken sink.old) (K.taken sink.new) (K.faults sink.old) (K.faults sink.new)) ⊎ (((a : List ℕ) × AsksRun (map string_bytes words.now) a × IsNone result.probed × RunEnds PrintValue.Answers result.fault result.journal.events result.wires.items (C.given result.clock) (D.faults dialer) (D.faults result.dialer) (S.left source.old) (S.left source.new) (S.faults source.old) (S.faults source.new) (K.taken sink.old) (K.taken sink.new) (K.faults sink.old) (K.faults sink.new)) ⊎ (((a : List ℕ) × AsksTrace (map string_bytes words.now) a × IsNone result.probed × RunEnds PrintValue.Journal result.fault result.journal.events result.wires.items (C.given result.clock) (D.faults dialer) (D.faults result.dialer) (S.left source.old) (S.left source.new) (S.faults source.old) (S.faults source.new) (K.taken sink.old) (K.taken sink.new) (K.faults sink.old) (K.faults sink.new)) ⊎ (((side : SideValue) × AsksDump (map string_bytes words.now) side × IsNone result.probed × HasNoClient result.journal.events result.wires.items × (result.dialer ≡ dialer) × (result.clock ≡ clock) × DumpEnds side result.fault (S.left source.old) (S.left source.new) (S.faults source.old) (S.faults source.new) (K.taken sink.old) (K.taken sink.new) (K.faults sink.old) (K.faults sink.new)) ⊎ (AsksReplay (map string_bytes words.now) × IsNone result.probed × HasNoClient result.journal.events result.wires.items × (result.dialer ≡ dialer) × (result.clock ≡ clock) × ReplayEnds result.status result.fault (S.left source.old) (S.left source.new) (S.faults source.old) (S.faults source.new) (K.taken sink.old) (K.taken sink.new) (K.faults sink.old) (K.faults sink.new)))))) }
{
    match command_of(words) {
        Ok(Command::Probe(addr)) => finish_probe(alloc, addr, sink, dialer, house, clock),
        Ok(Command::Run(addr)) => finish_script(
            rt,
            alloc,
            addr,
            source,
            Print::Answers,
            sink,
            dialer,
            house,
            clock,
        ),
        Ok(Command::Trace(addr)) => finish_script(
            rt,
            alloc,
            addr,
            source,
            Print::Journal,
            sink,
            dialer,
            house,
            clock,
        ),
        Ok(Command::Dump(side)) => finish_dump(alloc, side, source, sink, dialer, house, clock),
        Ok(Command::Replay) => finish_replay(alloc, source, sink, dialer, house, clock),
        Err(place) => refuse(alloc, place, dialer, house, clock),
    }
}
