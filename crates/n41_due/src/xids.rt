ghost use Rattle.std.specs.Prelude.{◌≡◌, ◌≤◌, suc, length, option_copied};
ghost use Rattle.n41_model.specs.Requests.{knows};
ghost use Rattle.n41_model.specs.Sessions.{xid_after, unused_xid};
ghost use Rattle.n41_view.specs.Step.{has, holds, held_requests, requests};
ghost use Rattle.n41_view.specs.Due.{any_held, xid_in};

use crate::lookup::Lookup;
use crate::slots::has_xid;
use n41_types::Request;
use n41_view::Slot;

/// The xid after another one: after the last number comes 1.
fn after(xid: u32) -> u32
    ensures { result ≡ xid_after xid }
{
    if xid == u32::MAX { 1 } else { xid + 1 }
}

/// Whether the request has this xid.
pub fn is_named(xid: u32, request: Option<&Request>) -> bool
    ensures { result ≡ has xid (option_copied request.entry) }
{
    match request {
        None => false,
        Some(request) => request.xid == xid,
    }
}

fn any_named(slots: &[Slot], xid: u32) -> bool
    ensures { result ≡ any_held (holds xid) slots.now }
{
    for slot in slots {
        if has_xid(xid, &slot.held) {
            return true;
        }
    }
    false
}

/// How many requests are out on slots.
fn held_count(slots: &[Slot]) -> usize
    ensures value { result ≡ length (held_requests slots.now) }
    ensures bound { result ≤ length slots.now }
{
    let mut count = 0;
    for slot in slots {
        if slot.held.is_some() {
            count += 1;
        }
    }
    count
}

/// The first of so many xids from this one on that no request has which is out.
fn unused(look: &Lookup, first: u32, count: usize) -> Option<u32>
    ensures { result ≡ unused_xid (requests look.now) first count }
{
    let mut xid = first;
    for _tried in 0..count {
        if !look.is_out(xid) {
            return Some(xid);
        }
        xid = after(xid);
    }
    None
}

impl Lookup<'_> {
    /// Whether a request that is out has this xid.
    #[tactic(auto, using(crate::proofs::Outs::knows_out))]
    fn is_out(&self, xid: u32) -> bool
        ensures { result ≡ knows (requests self.now) xid }
    {
        if is_named(xid, self.bare) {
            return true;
        }
        any_named(self.slots, xid)
    }

    /// How many requests are out.
    fn count(&self) -> usize
        ensures value { result ≡ length (requests self.now) }
        ensures bound { result ≤ 4294967296 }
    {
        let held = held_count(self.slots);
        match self.bare {
            None => held,
            Some(_) => held + 1,
        }
    }

    /// The xid of the next new request: the first one after the last that no request has which is out.
    pub fn next_xid(&self) -> Option<u32>
        ensures { result ≡ xid_in self.now }
    {
        unused(self, after(self.facts.last_xid), self.count() + 1)
    }
}
