ghost use Rattle.std.specs.Prelude.{◌≡◌};

use n41_results::{Parcel, Parts};
use n41_types::{Bytes, Request};
use std::marker::Model;

/// A request that was put, and is to be sent. Contracts see where it was put.
#[derive(Drop)]
pub struct Packet {
    pub(crate) conn: u64,
    pub(crate) place: u64,
    pub(crate) request: Request,
    pub(crate) body: Bytes,
}

impl Model for Packet {
    ghost use Rattle.std.specs.Prelude.{◌≡◌};
    ghost use Rattle.n41_requests.specs.Requests.{spelled};
    ghost use Rattle.n41_core.specs.State.{Sent};

    ghost Value = { Sent };

    ghost view = { λ p. record { conn = p.conn; place = p.place; request = p.request } };

    ghost invariant = { λ p. p.body ≡ spelled p.request };
}

impl Packet {
    /// The request.
    pub fn request(&self) -> &Request
        ensures { result.now ≡ self.now.request }
    {
        &self.request
    }
}

impl Parcel for Packet {
    ghost use Rattle.n41_requests.specs.Requests.{spelled};

    ghost parts = { λ p. record { conn = p.conn; place = p.place; body = spelled p.request } };

    fn spend(self) -> Parts {
        let Packet {
            conn,
            place,
            body,
            ..
        } = self;
        Parts { conn, place, body }
    }
}
