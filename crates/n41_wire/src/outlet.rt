// The end of a connection that sends messages.
ghost use Rattle.std.specs.Prelude.{◌≡◌, ◌≤◌, ◌<◌, [], length, take, flat_map, Some, None, Err, OnOk, IfErr, IfSome, IsErrOf};
ghost use Rattle.n41_record.specs.Fragments.{most_bytes};
ghost use Rattle.n41_link.specs.Counts.{Counts};
ghost use Rattle.n41_link.specs.Ends.{mouth_log, mouth_fault};
ghost use Rattle.n41_link.specs.Flow.{KnownAs};
ghost use Rattle.n41_link.specs.Said.{Says, failed_to_say};
ghost use Rattle.n41_wire.specs.Posts.{marked, Sends};

use crate::posted::Posted;
use n41_link::{Mouth, Outflow, SayFault};
use n41_results::Parcel;
use std::marker::PhantomData;

/// Sends messages to an outflow, each of which is spent and written as one record. What it has sent stays for contracts alone.
#[derive(Drop)]
pub struct Outlet<O: Outflow, P: Parcel> {
    mouth: Mouth<O>,
    posted: Posted,
    of: PhantomData<P>,
    ghost begins: { take (length (flat_map marked posted.parts)) (mouth_log mouth) ≡ flat_map marked posted.parts },
    ghost whole: { mouth_fault mouth ≡ None → mouth_log mouth ≡ flat_map marked posted.parts },
}

impl<O: Outflow, P: Parcel> Outlet<O, P> {
    ghost use Rattle.n41_wire.specs.Ends.{outlet_mouth, outlet_log, outlet_sent, outlet_fault, outlet_outflow, KeepsOutlet};

    /// An outlet over a mouth that has said nothing yet.
    pub fn new(mouth: Mouth<O>) -> Outlet<O, P>
        requires { mouth_log mouth ≡ [] }
        ensures mouth { outlet_mouth result ≡ mouth }
        ensures sent { outlet_sent result ≡ [] }
    {
        Outlet {
            mouth,
            posted: Posted::empty(),
            of: PhantomData,
        }
    }

    /// What it writes to.
    pub fn outflow(&self) -> &O
        ensures value { result.now ≡ outlet_outflow self.now }
        ensures told { KnownAs (O.put (outlet_outflow self.now)) (outlet_log self.now) }
    {
        self.mouth.outflow()
    }

    /// Spends a message and writes the record of its body, all in one call where the outflow takes it whole. After a fault it answers that fault from then on.
    pub fn send(&mut self, parcel: P) -> Result<(), SayFault>
        requires { length (P.parts parcel).body ≤ most_bytes }
        ensures says { outlet_fault self.old ≡ None → Says result (outlet_log self.old) (outlet_log self.new) (P.parts parcel).body }
        ensures sends { Sends result (outlet_sent self.old) (outlet_sent self.new) (P.parts parcel) }
        ensures again { IfSome (outlet_fault self.old) (λ fault. (result ≡ Err fault) × KeepsOutlet self.old self.new) }
        ensures kept { OnOk result (outlet_fault self.new ≡ None) }
        ensures fault { IfErr result (λ fault. outlet_fault self.new ≡ Some fault) }
        ensures cause { outlet_fault self.old ≡ None → Counts (O.faults (outlet_outflow self.old)) (O.faults (outlet_outflow self.new)) (failed_to_say result) }
        ensures failed { IsErrOf result SayFault.Failed → 0 < O.faults (outlet_outflow self.new) }
        ensures faults { O.faults (outlet_outflow self.old) ≤ O.faults (outlet_outflow self.new) }
    {
        let parts = parcel.spend();
        self.mouth.say(parts.body.as_slice())?;
        self.posted = self.posted.with_parts(&parts);
        Ok(())
    }
}
