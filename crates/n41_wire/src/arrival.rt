use n41_results::{Heard, Incoming, Reply};

/// A message that came in. An inlet alone makes one, and it is spent once, by what takes it.
pub struct Arrival {
    pub(crate) conn: u64,
    pub(crate) place: u64,
    pub(crate) reply: Reply,
}

impl Incoming for Arrival {
    ghost use Rattle.n41_results.specs.declared.messages.Heard.TheVariants as heard_as;

    ghost heard = { λ a. heard_as.Reply a.conn a.place a.reply };

    fn spend(self) -> Heard {
        let Arrival { conn, place, reply } = self;
        Heard::Reply { conn, place, reply }
    }
}

/// What an inlet got.
pub enum InGot {
    /// A message.
    Came(Arrival),
    /// No whole message is there yet, and nothing came for a while.
    Quiet,
    /// The other side has ended, within a message or between two.
    End,
}
