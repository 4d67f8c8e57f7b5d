ghost use Rattle.std.specs.Prelude.{◌≡◌};

use crate::callbacks::CbCall;
use crate::replies::Reply;
use n41_types::Bytes;

/// What a message on its way out is made of: its connection, its place among the messages that go out there, and its body,
/// without a record mark.
#[derive(Drop)]
pub struct Parts {
    pub conn: u64,
    pub place: u64,
    pub body: Bytes,
}

/// A message that is to be sent. A type of these need not be `Drop`: one is spent, and then sent once.
pub trait Parcel: Sized {
    ghost use Rattle.n41_results.specs.declared.messages.Parts.{Parts};

    /// What it is made of.
    ghost parts: { Self → Parts };

    fn spend(self) -> Parts
        ensures { result ≡ Self.parts self };
}

/// A message that came in: its connection, its place among those that came there, and what it says.
#[derive(Drop)]
pub enum Heard {
    Reply { conn: u64, place: u64, reply: Reply },
    Call { conn: u64, place: u64, call: CbCall },
}

/// A message that came in and is to be taken. A type of these need not be `Drop`: one is spent, and then taken once.
pub trait Incoming: Sized {
    ghost use Rattle.n41_results.specs.declared.messages.Heard.{Heard};

    /// What was heard.
    ghost heard: { Self → Heard };

    fn spend(self) -> Heard
        ensures { result ≡ Self.heard self };
}
