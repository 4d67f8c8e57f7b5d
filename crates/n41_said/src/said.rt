ghost use Rattle.std.specs.Prelude.{◌≡◌, ◌++◌, option_copied};
ghost use Rattle.n41_model.specs.Requests.{is_bare, is_bare_use, has_xid, knows, session_in};
ghost use Rattle.n41_model.specs.Sessions.{plan_in};
ghost use Rattle.n41_view.specs.Step.{has, holds, request_in, held_with, alone, held_requests, bare_said, slot_said, plan_held, plan_said, owner_said, said_of};

use n41_model::{BareVerdict, Verdict};
use n41_results::{Reply, SessionMade};
use n41_types::Request;
use n41_view::{Held, Slot};
use std::marker::Model;

/// What a reply says: of the request without a slot, or of one on a slot; which request it answers, and whose that is.
#[derive(Drop)]
pub struct Said<'a> {
    pub bare: Option<BareVerdict>,
    pub slot: Option<Verdict>,
    pub request: Option<&'a Request>,
    pub owner: Option<u32>,
}

impl<'a> Model for Said<'a> {
    ghost use Rattle.std.specs.Prelude.{option_copied};
    ghost use Rattle.n41_model.specs.Sessions.{plan_in};
    ghost use Rattle.n41_view.specs.Step.{Said};

    ghost Value = { Said };

    ghost view = { λ s. record { bare = s.bare; slot = s.slot; plan = plan_in (option_copied s.request); owner = s.owner } };
}

/// Whether there is a request and it has this xid.
pub fn has(xid: u32, request: Option<&Request>) -> bool
    ensures { result ≡ has xid (option_copied request.entry) }
{
    match request {
        None => false,
        Some(request) => request.xid == xid,
    }
}

/// Whether the request that is out on a slot has this xid.
pub fn holds(xid: u32, held: Option<&Held>) -> bool
    ensures { result ≡ holds xid (option_copied held.entry) }
{
    match held {
        None => false,
        Some(held) => held.request.xid == xid,
    }
}

/// Whether a slot holds a request with this xid.
fn slot_holds(xid: u32, slot: &Slot) -> bool
    ensures { result ≡ holds xid slot.now.held }
{
    match &slot.held {
        None => false,
        Some(held) => held.request.xid == xid,
    }
}

/// The first request on a slot with this xid.
pub fn held_with(slots: &[Slot], xid: u32) -> Option<&Held>
    ensures { option_copied result ≡ held_with slots.now xid }
{
    for slot in slots {
        if slot_holds(xid, slot) {
            return slot.held.as_ref();
        }
    }
    None
}

/// Whether a request that is out on a slot has this xid.
fn is_held(slots: &[Slot], xid: u32) -> bool
    ensures { result ≡ knows (held_requests slots.now) xid }
{
    for slot in slots {
        if slot_holds(xid, slot) {
            return true;
        }
    }
    false
}

/// Whether a request that is out has this xid.
pub fn is_out(bare: Option<&Request>, slots: &[Slot], xid: u32) -> bool
    ensures { result ≡ knows (alone (option_copied bare.entry) ++ held_requests slots.now) xid }
{
    has(xid, bare) || is_held(slots, xid)
}

/// What a reply does to the request without a slot, where it answers that.
fn bare_said(bare: Option<&Request>, reply: &Reply) -> Option<BareVerdict>
    ensures { result ≡ bare_said (option_copied bare.entry) reply.now }
{
    match bare {
        Some(request) if request.xid == reply.xid => Some(BareVerdict::of(&request.plan, reply)),
        _ => None,
    }
}

/// What a reply does to a request on a slot.
fn slot_said(held: Option<&Held>, reply: &Reply) -> Option<Verdict>
    ensures { result ≡ slot_said (option_copied held.entry) reply.now }
{
    match held {
        None => None,
        Some(held) => Some(Verdict::of(&held.request, held.retried, reply)),
    }
}

/// The request on a slot.
fn request_held(held: Option<&Held>) -> Option<&Request>
    ensures { plan_in (option_copied result) ≡ plan_held (option_copied held.entry) }
{
    match held {
        None => None,
        Some(held) => Some(&held.request),
    }
}

/// The request that a reply answers.
fn request_said<'a>(
    bare: Option<&'a Request>,
    held: Option<&'a Held>,
    reply: &Reply,
) -> Option<&'a Request>
    ensures { plan_in (option_copied result) ≡ plan_said (option_copied bare.entry) (option_copied held.entry) reply.now }
{
    match bare {
        Some(request) if request.xid == reply.xid => Some(request),
        _ => request_held(held),
    }
}

/// Whose the request on a slot is.
fn owner_said(held: Option<&Held>) -> Option<u32>
    ensures { result ≡ owner_said (option_copied held.entry) }
{
    match held {
        None => None,
        Some(held) => held.owner,
    }
}

impl<'a> Said<'a> {
    /// What a reply says, where these requests are out.
    pub fn of(bare: Option<&'a Request>, slots: &'a [Slot], reply: &Reply) -> Said<'a>
        ensures { result ≡ said_of (option_copied bare.entry) (held_with slots.now reply.now.xid) reply.now }
    {
        let held = held_with(slots, reply.xid);
        Said {
            bare: bare_said(bare, reply),
            slot: slot_said(held, reply),
            request: request_said(bare, held, reply),
            owner: owner_said(held),
        }
    }

    /// The session that the reply brings.
    pub fn made(&self) -> Option<SessionMade>
        ensures { result ≡ session_in self.now.bare }
    {
        match self.bare {
            Some(BareVerdict::Made(session)) => Some(session),
            _ => None,
        }
    }
}
