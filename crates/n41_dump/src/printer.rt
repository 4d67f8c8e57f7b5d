// Printing the lines of a stream as its pieces come.
ghost use Rattle.std.specs.Prelude.{◌≡◌, ◌≤◌, ◌+◌, ◌++◌, ℕ, false, List, [], length, None, IfOk, OnOk, OnErr, IsTrue, string_bytes};
ghost use Rattle.std.specs.declared.option.Option.{Option};
ghost use Rattle.n41_link.specs.Counts.{Counts};
ghost use Rattle.n41_lines.specs.Lines.{line};
ghost use Rattle.n41_dump.specs.Causes.{is_write_fault};
ghost use Rattle.n41_dump.specs.Dumps.{most_bytes, EndsAs, EndsIn};
ghost use Rattle.n41_dump.specs.Steps.{IsFed, Puts, Raises, Stands, Steps, Finishes};

use crate::DumpFault;
use n41_lines::{Last, Side, last_line, line};
use n41_link::Sink;
use n41_record::{Gather, GatherFault};
use n41_streams::put_all;
use n41_types::NoMemory;
use std::alloc::{AllocError, Global};

/// Prints the line of each record of a stream as soon as the record is whole.
#[derive(Drop)]
pub(crate) struct Printer {
    alloc: Global,
    pub(crate) side: Side,
    pub(crate) gather: Gather,
    /// How many records were printed.
    pub(crate) number: u64,
    /// Whether writing has failed. From then on nothing is written.
    pub(crate) broken: bool,
}

// Writes a text, unless writing has failed before.
fn put<K: Sink>(broken: &mut bool, sink: &mut K, text: &[u8])
    ensures puts { Puts broken.old broken.new (K.taken sink.old) (K.taken sink.new) text.now }
    ensures raises { Raises broken.old broken.new (K.faults sink.old) (K.faults sink.new) }
{
    if *broken {
        return;
    }
    *broken = put_all(sink, text).is_err();
}

// Writes the line of a record, unless writing has failed before.
fn put_line<K: Sink>(
    alloc: Global,
    side: Side,
    number: u64,
    bytes: &[u8],
    broken: &mut bool,
    sink: &mut K,
) -> Result<(), NoMemory>
    ensures ok { OnOk result (Puts broken.old broken.new (K.taken sink.old) (K.taken sink.new) (line side number bytes.now)) }
    ensures err { OnErr result ((broken.new ≡ broken.old) × (K.taken sink.new ≡ K.taken sink.old)) }
    ensures raises { Raises broken.old broken.new (K.faults sink.old) (K.faults sink.new) }
{
    if *broken {
        return Ok(());
    }
    let text = line(alloc, side, number, bytes)?;
    put(broken, sink, text.as_bytes());
    Ok(())
}

impl Printer {
    /// Nothing was fed.
    pub(crate) fn new(alloc: Global, side: Side) -> Printer
        ensures { result ≡ record { alloc = alloc; side = side; gather = record { fed = []; given = []; waiting = []; fault = None }; number = 0; broken = false } }
    {
        Printer {
            alloc,
            side,
            gather: Gather::new(alloc),
            number: 0,
            broken: false,
        }
    }

    // Prints the next record, and says whether there was one.
    fn print_next<K: Sink>(&mut self, sink: &mut K) -> Result<bool, NoMemory>
        requires { (stream : List ℕ) × (start : Option (List ℕ)) × Stands self.old stream start (K.taken sink.old) × (length stream ≤ most_bytes) }
        ensures steps { (stream : List ℕ) (start : Option (List ℕ)) → Stands self.old stream start (K.taken sink.old) → Steps result self.new stream start (K.taken sink.new) }
        ensures less { IfOk result (λ more. IsTrue more → length self.old.gather.waiting ≡ length self.new.gather.waiting + 1) }
        ensures none { IfOk result (λ more. more ≡ false → self.new.gather.waiting ≡ []) }
        ensures same { (self.new.side ≡ self.old.side) × (self.new.gather.fault ≡ self.old.gather.fault) × (self.new.gather.fed ≡ self.old.gather.fed) }
        ensures raises { Raises self.old.broken self.new.broken (K.faults sink.old) (K.faults sink.new) }
    {
        let Some(bytes) = self.gather.next() else {
            return Ok(false);
        };
        self.number += 1;
        put_line(
            self.alloc,
            self.side,
            self.number,
            bytes.as_slice(),
            &mut self.broken,
            sink,
        )?;
        Ok(true)
    }

    // Prints all records that wait.
    fn print_waiting<K: Sink>(&mut self, sink: &mut K) -> Result<(), NoMemory>
        requires { (stream : List ℕ) × (start : Option (List ℕ)) × Stands self.old stream start (K.taken sink.old) × (length stream ≤ most_bytes) }
        ensures steps { (stream : List ℕ) (start : Option (List ℕ)) → Stands self.old stream start (K.taken sink.old) → Steps result self.new stream start (K.taken sink.new) }
        ensures none { OnOk result (self.new.gather.waiting ≡ []) }
        ensures same { (self.new.side ≡ self.old.side) × (self.new.gather.fault ≡ self.old.gather.fault) × (self.new.gather.fed ≡ self.old.gather.fed) }
        ensures raises { Raises self.old.broken self.new.broken (K.faults sink.old) (K.faults sink.new) }
    {
        loop {
            if !self.print_next(sink)? {
                return Ok(());
            }
        }
    }

    // Feeds a piece, and prints the records that it makes whole.
    pub(crate) fn take<K: Sink>(&mut self, piece: &[u8], sink: &mut K) -> Result<(), NoMemory>
        requires { (stream : List ℕ) × (start : Option (List ℕ)) × Stands self.old stream start (K.taken sink.old) × (length (stream ++ piece.now) ≤ most_bytes) }
        ensures steps { (stream : List ℕ) (start : Option (List ℕ)) → Stands self.old stream start (K.taken sink.old) → Steps result self.new (stream ++ piece.now) start (K.taken sink.new) }
        ensures none { OnOk result (self.new.gather.waiting ≡ []) }
        ensures same { self.new.side ≡ self.old.side }
        ensures raises { Raises self.old.broken self.new.broken (K.faults sink.old) (K.faults sink.new) }
    {
        if let Err(GatherFault::NoMemory) = self.gather.feed(piece) {
            return Err(AllocError);
        }
        self.print_waiting(sink)
    }

    // What stands behind the last record.
    fn last(&self) -> Result<Last, NoMemory>
        requires { self.now.gather.waiting ≡ [] }
        ensures { (stream : List ℕ) → IsFed self.now.gather.fault self.now.gather.fed stream → IfOk result (λ last. EndsAs stream self.now.gather.given last) }
    {
        match self.gather.fault() {
            None => Ok(Last::Rest(self.gather.rest_len())),
            Some(GatherFault::TooLong(_)) => Ok(Last::Long),
            Some(GatherFault::TooMany) => Ok(Last::Many),
            Some(GatherFault::NoMemory) => Err(AllocError),
        }
    }

    // The last line.
    fn last_text(&self) -> Result<String, NoMemory>
        requires { self.now.gather.waiting ≡ [] }
        ensures { (stream : List ℕ) → IsFed self.now.gather.fault self.now.gather.fed stream → IfOk result (λ text. EndsIn stream self.now.gather.given (string_bytes text)) }
    {
        let last = self.last()?;
        last_line(self.alloc, last)
    }

    // Prints the last line, where the stream has ended.
    pub(crate) fn finish<K: Sink>(&mut self, sink: &mut K) -> Result<(), DumpFault>
        requires { self.old.gather.waiting ≡ [] }
        ensures finishes { (stream : List ℕ) (start : Option (List ℕ)) → Stands self.old stream start (K.taken sink.old) → Finishes result self.old.side stream start (K.taken sink.new) }
        ensures cause { (began : ℕ) → Counts began (K.faults sink.old) self.old.broken → Counts began (K.faults sink.new) (is_write_fault result) }
    {
        let Ok(text) = self.last_text() else {
            return Err(DumpFault::NoMemory);
        };
        put(&mut self.broken, sink, text.as_bytes());
        if self.broken {
            return Err(DumpFault::WriteFault);
        }
        Ok(())
    }
}
