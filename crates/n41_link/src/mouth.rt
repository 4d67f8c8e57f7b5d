// The end of a connection that says records.
ghost use Rattle.std.specs.Prelude.{true, false, ◌≡◌, ◌≤◌, ◌<◌, ◌++◌, [], ℕ, List, length, take, drop, Some, None, Err, OnOk, IfErr, IfSome, IsErrOf};
ghost use Rattle.n41_record.specs.Fragments.{most_bytes};
ghost use Rattle.n41_link.specs.Counts.{Counts};
ghost use Rattle.n41_link.specs.Flow.{KnownAs};
ghost use Rattle.n41_link.specs.Said.{Says, failed_to_say};
ghost use Rattle.n41_link.specs.declared.mouth.SayFault.TheVariants as why;

use crate::connection::Outflow;
use crate::sent::Sent;
use n41_record::append_marked;
use std::alloc::Global;

/// Why a mouth says no more.
#[derive(Clone, Copy, Debug, PartialEq, Eq)]
pub enum SayFault {
    /// What it writes to failed.
    Failed,
    NoMemory,
}

/// Says records to an outflow. What it has written stays for contracts alone.
#[derive(Drop)]
pub struct Mouth<O: Outflow> {
    outflow: O,
    record: Vec<u8>,
    sent: Sent,
    fault: Option<SayFault>,
    ghost told: { KnownAs (O.put outflow) sent.bytes },
    ghost failed: { fault ≡ Some why.Failed → 0 < O.faults outflow },
}

// How far a text was written.
#[derive(Clone, Copy)]
struct Written {
    len: usize,
    failed: bool,
}

// The text from a place on.
fn rest_of(text: &[u8], at: usize) -> &[u8]
    requires { at ≤ length text.now }
    ensures { result.now ≡ drop at text.now }
{
    &text[at..]
}

// Writes a text, whole in the first call, and what is left of it in further ones.
fn write_text<O: Outflow>(outflow: &mut O, text: &[u8]) -> Written
    ensures within { result.len ≤ length text.now }
    ensures whole { result.failed ≡ false → result.len ≡ length text.now }
    ensures part { result.failed ≡ true → result.len < length text.now }
    ensures told { (xs : List ℕ) → KnownAs (O.put outflow.old) xs → KnownAs (O.put outflow.new) (xs ++ take result.len text.now) }
    ensures cause { Counts (O.faults outflow.old) (O.faults outflow.new) result.failed }
{
    let mut len = 0;
    while len < text.len() {
        match outflow.write(rest_of(text, len)) {
            Ok(n) => len += n,
            Err(_) => return Written { len, failed: true },
        }
    }
    Written { len, failed: false }
}

// The text up to a place.
fn front_of(text: &[u8], len: usize) -> &[u8]
    requires { len ≤ length text.now }
    ensures { result.now ≡ take len text.now }
{
    &text[..len]
}

// Fills a kept buffer with a record and writes it, and keeps for contracts what was written.
fn say_record<O: Outflow>(
    outflow: &mut O,
    record: &mut Vec<u8>,
    sent: &mut Sent,
    bytes: &[u8],
) -> Result<(), SayFault>
    requires { length bytes.now ≤ most_bytes }
    ensures says { Says result sent.old.bytes sent.new.bytes bytes.now }
    ensures told { KnownAs (O.put outflow.old) sent.old.bytes → KnownAs (O.put outflow.new) sent.new.bytes }
    ensures cause { Counts (O.faults outflow.old) (O.faults outflow.new) (failed_to_say result) }
{
    record.clear();
    if append_marked(record, bytes).is_err() {
        return Err(SayFault::NoMemory);
    }
    let written = write_text(outflow, record);
    *sent = sent.with_piece(front_of(record, written.len));
    if written.failed {
        return Err(SayFault::Failed);
    }
    Ok(())
}

impl<O: Outflow> Mouth<O> {
    ghost use Rattle.n41_link.specs.Ends.{mouth_log, mouth_outflow, mouth_fault};

    /// A mouth that has said nothing, over an outflow to which nothing is told to be written.
    pub fn new(alloc: Global, outflow: O) -> Mouth<O>
        requires { KnownAs (O.put outflow) [] }
        ensures log { mouth_log result ≡ [] }
        ensures outflow { mouth_outflow result ≡ outflow }
        ensures fault { mouth_fault result ≡ None }
    {
        Mouth {
            outflow,
            record: Vec::new(alloc),
            sent: Sent::empty(),
            fault: None,
        }
    }

    /// What it writes to.
    pub fn outflow(&self) -> &O
        ensures { result.now ≡ mouth_outflow self.now }
    {
        &self.outflow
    }

    /// Writes the record of these bytes, all in one call where the outflow takes it whole. After a fault it answers that fault from then on.
    pub fn say(&mut self, bytes: &[u8]) -> Result<(), SayFault>
        requires { length bytes.now ≤ most_bytes }
        ensures says { mouth_fault self.old ≡ None → Says result (mouth_log self.old) (mouth_log self.new) bytes.now }
        ensures again { IfSome (mouth_fault self.old) (λ fault. (result ≡ Err fault) × (self.new ≡ self.old)) }
        ensures kept { OnOk result (mouth_fault self.new ≡ None) }
        ensures fault { IfErr result (λ fault. mouth_fault self.new ≡ Some fault) }
        ensures cause { mouth_fault self.old ≡ None → Counts (O.faults (mouth_outflow self.old)) (O.faults (mouth_outflow self.new)) (failed_to_say result) }
        ensures failed { IsErrOf result SayFault.Failed → 0 < O.faults (mouth_outflow self.new) }
        ensures faults { O.faults (mouth_outflow self.old) ≤ O.faults (mouth_outflow self.new) }
    {
        if let Some(fault) = self.fault {
            return Err(fault);
        }
        let said = say_record(&mut self.outflow, &mut self.record, &mut self.sent, bytes);
        if let Err(fault) = &said {
            self.fault = Some(*fault);
        }
        said
    }
}
