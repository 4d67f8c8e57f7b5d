// The log of an inlet.
ghost use Rattle.std.specs.Prelude.{◌≡◌, ◌++◌, ◌∷◌, [], All, length, Ok, Some, None};
ghost use Rattle.n41_link.specs.Heard.{capped};
ghost use Rattle.n41_replies.specs.Faults.{Fails};
ghost use Rattle.n41_replies.specs.Replies.{reply_at, IsSpellable};
ghost use Rattle.n41_wire.specs.Logs.{IsStanding};

use crate::taken::Taken;
use n41_replies::MsgFault;
use n41_results::Reply;
use std::marker::Model;

/// How many replies were read, and the fault of the record that was read last, if any.
///
/// A contract sees all records, the replies that they were read as, and that fault. Each of the replies can be written again.
#[derive(Drop)]
pub(crate) struct Log {
    count: u64,
    fault: Option<MsgFault>,
    taken: Taken,
}

impl Model for Log {
    ghost use Rattle.std.specs.Prelude.{◌≡◌, All, length};
    ghost use Rattle.n41_link.specs.Heard.{capped};
    ghost use Rattle.n41_replies.specs.Replies.{IsSpellable};
    ghost use Rattle.n41_wire.specs.Logs.{Logged, IsRead};

    ghost Value = { Logged };

    ghost view = { λ l. record { given = l.taken.given; replies = l.taken.replies; fault = l.fault } };

    ghost invariant = { λ l. (l.count ≡ capped (length l.taken.replies)) × IsRead l.fault l.taken.given l.taken.replies × All IsSpellable l.taken.replies };
}

impl Log {
    /// Nothing came.
    pub(crate) fn empty() -> Log
        ensures { result ≡ record { given = []; replies = []; fault = None } }
    {
        Log {
            count: 0,
            fault: None,
            taken: Taken::empty(),
        }
    }

    /// The fault of the last record.
    pub(crate) fn fault(&self) -> Option<MsgFault>
        ensures value { result ≡ self.now.fault }
        ensures stands { IsStanding self.now }
        ensures spelled { All IsSpellable self.now.replies }
    {
        self.fault
    }

    /// Takes a record that was read as this reply, and says its place.
    pub(crate) fn take(&mut self, bytes: &[u8], reply: &Reply) -> u64
        requires none { self.old.fault ≡ None }
        requires read { reply_at bytes.now ≡ Ok reply.now }
        requires spelled { IsSpellable reply.now }
        ensures place { result ≡ capped (length self.old.replies) }
        ensures given { self.new.given ≡ self.old.given ++ bytes.now ∷ [] }
        ensures replies { self.new.replies ≡ self.old.replies ++ reply.now ∷ [] }
        ensures fault { self.new.fault ≡ None }
        ensures stands { IsStanding self.new }
    {
        let place = self.count;
        self.taken = self.taken.with_record(bytes).with_reply(reply);
        self.count = place.saturating_add(1);
        place
    }

    /// Takes a record that has this fault.
    pub(crate) fn refuse(&mut self, bytes: &[u8], fault: MsgFault)
        requires none { self.old.fault ≡ None }
        requires read { Fails fault (reply_at bytes.now) }
        ensures given { self.new.given ≡ self.old.given ++ bytes.now ∷ [] }
        ensures replies { self.new.replies ≡ self.old.replies }
        ensures fault { self.new.fault ≡ Some fault }
        ensures stands { IsStanding self.new }
    {
        self.taken = self.taken.with_record(bytes);
        self.fault = Some(fault);
    }
}
