// The end of a connection that hears messages.
ghost use Rattle.std.specs.Prelude.{◌≡◌, ◌≤◌, ◌<◌, ◌++◌, ◌∷◌, [], ℕ, All, List, length, Some, None, Ok, Err, OnOk, IfErr, IfSome, IsErrOf};
ghost use Rattle.n41_link.specs.Counts.{Counts};
ghost use Rattle.n41_link.specs.Ends.{ear_given, ear_fault};
ghost use Rattle.n41_link.specs.Flow.{KnownAs};
ghost use Rattle.n41_link.specs.Heard.{Stills, capped};
ghost use Rattle.n41_replies.specs.Replies.{IsSpellable};
ghost use Rattle.n41_wire.specs.Faults.{of_msg, fault_of};
ghost use Rattle.n41_wire.specs.Got.{Gets, TakesRecord, in_quiet, in_end, failed_to_get};
ghost use Rattle.n41_wire.specs.Logs.{IsRead, IsStanding};

use crate::arrival::{Arrival, InGot};
use crate::fault::InFault;
use crate::log::Log;
use n41_link::{Ear, EarGot, Inflow};
use n41_replies::{MsgFault, read_reply};
use n41_tellable::replies_that_are_read_are_tellable;
use std::alloc::Global;

/// Hears the messages that come from an inflow, with their places on its connection. So far these are replies: a call from the other side is garbled, until callbacks are taken.
///
/// What it has read and what it has handed out stays for contracts alone.
#[derive(Drop)]
pub struct Inlet<I: Inflow> {
    conn: u64,
    ear: Ear<I>,
    log: Log,
    ghost logged: { log.given ≡ ear_given ear },
}

// Reads the next record as a reply, and logs what came of it.
fn take_record(alloc: Global, conn: u64, log: &mut Log, bytes: &[u8]) -> Result<Arrival, InFault>
    requires { log.old.fault ≡ None }
    ensures takes { TakesRecord result conn bytes.now log.old.replies log.new.replies }
    ensures given { log.new.given ≡ log.old.given ++ bytes.now ∷ [] }
    ensures ok { OnOk result (log.new.fault ≡ None) }
    ensures err { IfErr result (λ e. (fault : MsgFault) × (log.new.fault ≡ Some fault) × (e ≡ of_msg fault)) }
    ensures stands { IsStanding log.new }
{
    match read_reply(alloc, bytes) {
        Ok(reply) => {
            replies_that_are_read_are_tellable();
            let place = log.take(bytes, &reply);
            Ok(Arrival { conn, place, reply })
        }
        Err(fault) => {
            log.refuse(bytes, fault);
            Err(InFault::from(fault))
        }
    }
}

impl<I: Inflow> Inlet<I> {
    ghost use Rattle.n41_wire.specs.Ends.{inlet_conn, inlet_ear, inlet_gather, inlet_log, inlet_given, inlet_replies, inlet_refused, inlet_fault, inlet_inflow, inlet_still, KeepsInlet};

    /// An inlet of the connection with this number, over an ear that has given nothing yet.
    pub fn new(conn: u64, ear: Ear<I>) -> Inlet<I>
        requires { ear_given ear ≡ [] }
        ensures conn { inlet_conn result ≡ conn }
        ensures ear { inlet_ear result ≡ ear }
        ensures replies { inlet_replies result ≡ [] }
        ensures refused { inlet_refused result ≡ None }
        ensures fault { inlet_fault result ≡ fault_of None (ear_fault ear) }
    {
        Inlet {
            conn,
            ear,
            log: Log::empty(),
        }
    }

    /// The number of its connection.
    pub fn conn(&self) -> u64
        ensures { result ≡ inlet_conn self.now }
    {
        self.conn
    }

    /// What it reads from.
    pub fn inflow(&self) -> &I
        ensures value { result.now ≡ inlet_inflow self.now }
        ensures told { KnownAs (I.got (inlet_inflow self.now)) (inlet_log self.now) }
        ensures stands { IsRead (inlet_refused self.now) (inlet_given self.now) (inlet_replies self.now) }
        ensures spelled { All IsSpellable (inlet_replies self.now) }
    {
        let _ = self.log.fault();
        self.ear.inflow()
    }

    /// How often it was quiet since the last byte.
    pub fn still(&self) -> u64
        ensures still { result ≡ inlet_still self.now }
        ensures cause { result ≤ I.quiets (inlet_inflow self.now) }
    {
        self.ear.still()
    }

    /// How many bytes it has read.
    pub fn got(&self) -> u64
        ensures { result ≡ capped (length (inlet_log self.now)) }
    {
        self.ear.got()
    }

    /// The next message, for which it reads as often as it takes. After a fault it answers that fault from then on.
    pub fn next(&mut self, alloc: Global) -> Result<InGot, InFault>
        ensures grows { (more : List ℕ) × (inlet_log self.new ≡ inlet_log self.old ++ more) }
        ensures conn { inlet_conn self.new ≡ inlet_conn self.old }
        ensures gets { inlet_fault self.old ≡ None → Gets result (inlet_conn self.old) (inlet_gather self.old) (inlet_gather self.new) (inlet_replies self.old) (inlet_replies self.new) }
        ensures stands { IsRead (inlet_refused self.new) (inlet_given self.new) (inlet_replies self.new) }
        ensures waits { 0 < length (inlet_gather self.old).waiting → (inlet_inflow self.new ≡ inlet_inflow self.old) × (inlet_log self.new ≡ inlet_log self.old) }
        ensures again { IfSome (inlet_fault self.old) (λ fault. (result ≡ Err fault) × KeepsInlet self.old self.new) }
        ensures kept { OnOk result (inlet_fault self.new ≡ None) }
        ensures fault { IfErr result (λ fault. inlet_fault self.new ≡ Some fault) }
        ensures stills { inlet_fault self.old ≡ None → Stills (inlet_log self.old) (inlet_log self.new) (inlet_still self.old) (inlet_still self.new) (in_quiet result) }
        ensures cause { inlet_fault self.old ≡ None → Counts (I.faults (inlet_inflow self.old)) (I.faults (inlet_inflow self.new)) (failed_to_get result) }
        ensures quiets { Counts (I.quiets (inlet_inflow self.old)) (I.quiets (inlet_inflow self.new)) (in_quiet result) }
        ensures ends { Counts (I.ends (inlet_inflow self.old)) (I.ends (inlet_inflow self.new)) (in_end result) }
        ensures failed { IsErrOf result InFault.Failed → 0 < I.faults (inlet_inflow self.new) }
        ensures faults { I.faults (inlet_inflow self.old) ≤ I.faults (inlet_inflow self.new) }
    {
        if let Some(fault) = self.log.fault() {
            return Err(InFault::from(fault));
        }
        match self.ear.whole() {
            Ok(EarGot::Whole(body)) => {
                let taken = take_record(alloc, self.conn, &mut self.log, body.as_slice());
                Ok(InGot::Came(taken?))
            }
            Ok(EarGot::Quiet) => Ok(InGot::Quiet),
            Ok(EarGot::End) => Ok(InGot::End),
            Err(fault) => Err(InFault::from(fault)),
        }
    }
}
