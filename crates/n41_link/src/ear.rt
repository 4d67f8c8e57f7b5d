// The end of a connection that hears records.
ghost use Rattle.std.specs.Prelude.{◌≡◌, ◌≤◌, ◌<◌, ◌++◌, [], ℕ, List, length, Some, None, Err, OnOk, IfErr, IfSome, IsErrOf};
ghost use Rattle.n41_link.specs.Counts.{Counts};
ghost use Rattle.n41_link.specs.Flow.{KnownAs};
ghost use Rattle.n41_link.specs.Heard.{capped};
ghost use Rattle.n41_link.specs.Reads.{GrowsAt, was_quiet, was_end, was_failed};
ghost use Rattle.n41_link.specs.declared.ear.EarFault.TheVariants as why;

use crate::connection::{Came, Inflow};
use n41_record::{Gather, GatherFault};
use n41_types::{Bytes, NoMemory};
use std::alloc::Global;

/// Why an ear hears no more.
#[derive(Clone, Copy, Debug, PartialEq, Eq)]
pub enum EarFault {
    /// What it reads from failed.
    Failed,
    /// A record passes a limit. It is not its want of memory.
    Gather(GatherFault),
    NoMemory,
}

/// What an ear heard.
#[derive(Debug, Drop)]
pub enum EarGot {
    /// A whole record, its fragments joined.
    Whole(Bytes),
    /// No whole record is there yet, and nothing came for a while.
    Quiet,
    /// The other side has ended, within a record or between two.
    End,
}

/// Hears the records that come from an inflow. What it has read stays for contracts alone, but for the record that is under way.
#[derive(Drop)]
pub struct Ear<I: Inflow> {
    inflow: I,
    room: Vec<u8>,
    gather: Gather,
    got: u64,
    still: u64,
    fault: Option<EarFault>,
    ghost told: { KnownAs (I.got inflow) gather.fed },
    ghost counted: { got ≡ capped (length gather.fed) },
    ghost stills: { still ≤ I.quiets inflow },
    ghost failed: { fault ≡ Some why.Failed → 0 < I.faults inflow },
}

// The most bytes that are read at once.
const STEP: usize = 65_536;

// Sees to it that there is room to read into. It is made once.
fn make_room(room: &mut Vec<u8>) -> Result<(), NoMemory>
    ensures { OnOk result (0 < length room.new.items) }
{
    if room.is_empty() {
        room.resize(STEP, 0)?;
    }
    Ok(())
}

// What a read came to.
#[derive(Clone, Copy, Debug, PartialEq, Eq)]
enum Reading {
    // One byte or more.
    Enough,
    Quiet,
    End,
    Failed,
    NoMemory,
}

// Reads once and gathers what came. What is refused of it is answered behind the records before it.
fn read_once<I: Inflow>(
    inflow: &mut I,
    room: &mut Vec<u8>,
    gather: &mut Gather,
    got: &mut u64,
) -> Reading
    requires { gather.old.fault ≡ None }
    ensures grows { (more : List ℕ) × (gather.new.fed ≡ gather.old.fed ++ more) }
    ensures given { gather.new.given ≡ gather.old.given }
    ensures same { (result ≡ Reading.Enough → ⊥) → gather.new ≡ gather.old }
    ensures told { KnownAs (I.got inflow.old) gather.old.fed → KnownAs (I.got inflow.new) gather.new.fed }
    ensures bytes { GrowsAt result (length gather.old.fed) (length gather.new.fed) }
    ensures counted { got.old ≡ capped (length gather.old.fed) → got.new ≡ capped (length gather.new.fed) }
    ensures faults { Counts (I.faults inflow.old) (I.faults inflow.new) (was_failed result) }
    ensures quiets { Counts (I.quiets inflow.old) (I.quiets inflow.new) (was_quiet result) }
    ensures ends { Counts (I.ends inflow.old) (I.ends inflow.new) (was_end result) }
{
    if make_room(room).is_err() {
        return Reading::NoMemory;
    }
    match inflow.read(room) {
        Ok(Came::Bytes(n)) => {
            let _ = gather.feed(&room[..n]);
            *got = got.saturating_add(n as u64);
            Reading::Enough
        }
        Ok(Came::End) => Reading::End,
        Ok(Came::Quiet) => Reading::Quiet,
        Err(_) => Reading::Failed,
    }
}

impl<I: Inflow> Ear<I> {
    ghost use Rattle.n41_link.specs.Ends.{ear_gather, ear_log, ear_given, ear_inflow, ear_fault, ear_still};
    ghost use Rattle.n41_link.specs.Heard.{Hears, Stills, got_quiet, got_end, failed_to_hear};

    /// An ear that has heard nothing, over an inflow from which nothing is told to be read.
    pub fn new(alloc: Global, inflow: I) -> Ear<I>
        requires { KnownAs (I.got inflow) [] }
        ensures log { ear_log result ≡ [] }
        ensures given { ear_given result ≡ [] }
        ensures still { ear_still result ≡ 0 }
        ensures inflow { ear_inflow result ≡ inflow }
        ensures fault { ear_fault result ≡ None }
    {
        Ear {
            inflow,
            room: Vec::new(alloc),
            gather: Gather::new(alloc),
            got: 0,
            still: 0,
            fault: None,
        }
    }

    /// What it reads from.
    pub fn inflow(&self) -> &I
        ensures { result.now ≡ ear_inflow self.now }
    {
        &self.inflow
    }

    /// How often it was quiet since the last byte.
    pub fn still(&self) -> u64
        ensures still { result ≡ ear_still self.now }
        ensures cause { result ≤ I.quiets (ear_inflow self.now) }
    {
        self.still
    }

    /// How many bytes it has read.
    pub fn got(&self) -> u64
        ensures { result ≡ capped (length (ear_log self.now)) }
    {
        self.got
    }

    // Reads once, and counts the quiets since the last byte.
    fn read(&mut self) -> Reading
        requires { (ear_gather self.old).fault ≡ None }
        ensures grows { (more : List ℕ) × (ear_log self.new ≡ ear_log self.old ++ more) }
        ensures given { ear_given self.new ≡ ear_given self.old }
        ensures same { (result ≡ Reading.Enough → ⊥) → ear_gather self.new ≡ ear_gather self.old }
        ensures bytes { GrowsAt result (length (ear_log self.old)) (length (ear_log self.new)) }
        ensures fault { ear_fault self.new ≡ ear_fault self.old }
        ensures stills { Stills (ear_log self.old) (ear_log self.new) (ear_still self.old) (ear_still self.new) (was_quiet result) }
        ensures faults { Counts (I.faults (ear_inflow self.old)) (I.faults (ear_inflow self.new)) (was_failed result) }
        ensures quiets { Counts (I.quiets (ear_inflow self.old)) (I.quiets (ear_inflow self.new)) (was_quiet result) }
        ensures ends { Counts (I.ends (ear_inflow self.old)) (I.ends (ear_inflow self.new)) (was_end result) }
    {
        match read_once(
            &mut self.inflow,
            &mut self.room,
            &mut self.gather,
            &mut self.got,
        ) {
            Reading::Enough => {
                self.still = 0;
                Reading::Enough
            }
            Reading::Quiet => {
                self.still = self.still.saturating_add(1);
                Reading::Quiet
            }
            Reading::End => Reading::End,
            Reading::Failed => Reading::Failed,
            Reading::NoMemory => Reading::NoMemory,
        }
    }

    // The next record, or why there is none.
    fn hear(&mut self) -> Result<EarGot, EarFault>
        ensures grows { (more : List ℕ) × (ear_log self.new ≡ ear_log self.old ++ more) }
        ensures hears { Hears result (ear_gather self.old) (ear_gather self.new) }
        ensures waits { 0 < length (ear_gather self.old).waiting → (ear_inflow self.new ≡ ear_inflow self.old) × (ear_log self.new ≡ ear_log self.old) }
        ensures fault { ear_fault self.new ≡ ear_fault self.old }
        ensures stills { Stills (ear_log self.old) (ear_log self.new) (ear_still self.old) (ear_still self.new) (got_quiet result) }
        ensures faults { Counts (I.faults (ear_inflow self.old)) (I.faults (ear_inflow self.new)) (failed_to_hear result) }
        ensures quiets { Counts (I.quiets (ear_inflow self.old)) (I.quiets (ear_inflow self.new)) (got_quiet result) }
        ensures ends { Counts (I.ends (ear_inflow self.old)) (I.ends (ear_inflow self.new)) (got_end result) }
    {
        loop {
            if let Some(body) = self.gather.next() {
                return Ok(EarGot::Whole(body));
            }
            match self.gather.fault() {
                Some(GatherFault::NoMemory) => return Err(EarFault::NoMemory),
                Some(fault) => return Err(EarFault::Gather(fault)),
                None => {}
            }
            match self.read() {
                Reading::Enough => {}
                Reading::Quiet => return Ok(EarGot::Quiet),
                Reading::End => return Ok(EarGot::End),
                Reading::Failed => return Err(EarFault::Failed),
                Reading::NoMemory => return Err(EarFault::NoMemory),
            }
        }
    }

    /// The next record, for which it reads as often as it takes. After a fault it answers that fault from then on.
    ///
    /// A record that waits is given without a read, and so are those before one that passes a limit.
    pub fn whole(&mut self) -> Result<EarGot, EarFault>
        ensures grows { (more : List ℕ) × (ear_log self.new ≡ ear_log self.old ++ more) }
        ensures hears { ear_fault self.old ≡ None → Hears result (ear_gather self.old) (ear_gather self.new) }
        ensures waits { 0 < length (ear_gather self.old).waiting → (ear_inflow self.new ≡ ear_inflow self.old) × (ear_log self.new ≡ ear_log self.old) }
        ensures again { IfSome (ear_fault self.old) (λ fault. (result ≡ Err fault) × (self.new ≡ self.old)) }
        ensures kept { OnOk result (ear_fault self.new ≡ None) }
        ensures fault { IfErr result (λ fault. ear_fault self.new ≡ Some fault) }
        ensures stills { ear_fault self.old ≡ None → Stills (ear_log self.old) (ear_log self.new) (ear_still self.old) (ear_still self.new) (got_quiet result) }
        ensures cause { ear_fault self.old ≡ None → Counts (I.faults (ear_inflow self.old)) (I.faults (ear_inflow self.new)) (failed_to_hear result) }
        ensures quiets { Counts (I.quiets (ear_inflow self.old)) (I.quiets (ear_inflow self.new)) (got_quiet result) }
        ensures ends { Counts (I.ends (ear_inflow self.old)) (I.ends (ear_inflow self.new)) (got_end result) }
        ensures failed { IsErrOf result EarFault.Failed → 0 < I.faults (ear_inflow self.new) }
        ensures faults { I.faults (ear_inflow self.old) ≤ I.faults (ear_inflow self.new) }
    {
        if let Some(fault) = self.fault {
            return Err(fault);
        }
        let heard = self.hear();
        if let Err(fault) = &heard {
            self.fault = Some(*fault);
        }
        heard
    }
}
