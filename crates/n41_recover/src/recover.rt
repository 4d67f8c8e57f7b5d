ghost use Rattle.std.specs.Prelude.{◌≡◌, [], if◌then◌else◌};
ghost use Rattle.n41_model.specs.Requests.{is_bare};
ghost use Rattle.n41_recover.specs.Recovery.{recovery, kind_of, lone_of, is_lease, is_xid, put_lease, took_lease};
ghost use Rattle.n41_recover.specs.Step.{with_phase, put_lone, took_lone, took, step, dead};

use crate::replies::{has_lone, lone_said, slot_said, told_phase};
use crate::words::{Kind, Lone};
use n41_journal::Event;
use n41_model::{KnownClient, Phase, is_final};
use n41_results::{Reply, SessionMade};
use n41_said::{broke_phase, client_after, dialed_phase, session_after, worked};
use n41_types::{Plan, Request};
use std::marker::Model;

/// The phase of recovery, and what is kept to tell it. It takes no memory.
#[derive(Drop)]
pub struct Recover {
    phase: Phase,
    work: Phase,
    session: Option<SessionMade>,
    client: Option<KnownClient>,
    lone: Option<Lone>,
    lease: Option<u32>,
}

impl Model for Recover {
    ghost use Rattle.n41_recover.specs.Recovery.{Recovery};

    ghost Value = { Recovery };

    ghost view = { λ r. record { phase = r.phase; work = r.work; session = r.session; client = r.client; lone = r.lone; lease = r.lease } };
}

/// Which of the plans without a slot.
fn kind_of(plan: &Plan) -> Kind
    ensures { result ≡ kind_of plan.now }
{
    match plan {
        Plan::ExchangeId { .. } => Kind::ExchangeId,
        Plan::CreateSession { .. } => Kind::CreateSession,
        Plan::Bind { .. } => Kind::Bind,
        Plan::DestroySession { .. } => Kind::DestroySession,
        Plan::DestroyClient { .. } => Kind::DestroyClient,
        _ => Kind::Other,
    }
}

/// The request without a slot that is out once this one was put.
fn put_lone(request: &Request, lone: Option<Lone>) -> Option<Lone>
    ensures { result ≡ put_lone request.now lone }
{
    match request.slot {
        None => Some(Lone {
            xid: request.xid,
            kind: kind_of(&request.plan),
        }),
        Some(_) => lone,
    }
}

/// The request without a slot that is out once this reply was taken.
fn took_lone(reply: &Reply, lone: Option<Lone>) -> Option<Lone>
    ensures { result ≡ took_lone reply.now lone }
{
    if has_lone(lone, reply.xid) {
        None
    } else {
        lone
    }
}

/// Whether the request asks for the lease time, on a slot.
fn is_lease(request: &Request) -> bool
    ensures { result ≡ is_lease request.now }
{
    matches!(request.plan, Plan::LeaseTime) && request.slot.is_some()
}

/// Whether this is the xid.
fn is_xid(lease: Option<u32>, xid: u32) -> bool
    ensures { result ≡ is_xid lease xid }
{
    match lease {
        None => false,
        Some(lease) => lease == xid,
    }
}

/// The xid of the request for the lease time once a request was put.
fn put_lease(request: &Request, lease: Option<u32>) -> Option<u32>
    ensures { result ≡ put_lease request.now lease }
{
    if is_lease(request) {
        Some(request.xid)
    } else if is_xid(lease, request.xid) {
        None
    } else {
        lease
    }
}

/// The xid of the request for the lease time once a reply was taken.
fn took_lease(reply: &Reply, lease: Option<u32>) -> Option<u32>
    ensures { result ≡ took_lease reply.now lease }
{
    if is_xid(lease, reply.xid) && is_final(reply) {
        None
    } else {
        lease
    }
}

impl Recover {
    /// Nothing happened yet: no connection stands.
    pub fn new() -> Recover
        ensures { result ≡ recovery [] }
    {
        Recover {
            phase: Phase::Down,
            work: Phase::ClientId,
            session: None,
            client: None,
            lone: None,
            lease: None,
        }
    }

    /// The phase.
    pub fn phase(&self) -> Phase
        ensures { result ≡ self.now.phase }
    {
        self.phase
    }

    /// The phase became this one.
    fn enter(&mut self, phase: Phase)
        ensures { self.new ≡ with_phase phase self.old }
    {
        self.work = worked(phase, self.work);
        self.phase = phase;
    }

    /// A request was put.
    fn put(&mut self, request: &Request)
        ensures { self.new ≡ record self.old { lone = put_lone request.now self.old.lone; lease = put_lease request.now self.old.lease } }
    {
        self.lone = put_lone(request, self.lone);
        self.lease = put_lease(request, self.lease);
    }

    /// A reply was taken.
    fn took(&mut self, reply: &Reply)
        ensures { self.new ≡ took self.old reply.now }
    {
        let bare = lone_said(self.lone, reply);
        let slot = slot_said(has_lone(self.lone, reply.xid), reply);
        let is_lease = is_xid(self.lease, reply.xid);
        let phase = told_phase(bare, slot, is_lease, self.phase, self.work);
        self.enter(phase);
        self.session = session_after(bare, self.session);
        self.client = client_after(bare, self.client);
        self.lone = took_lone(reply, self.lone);
        self.lease = took_lease(reply, self.lease);
    }

    /// An event happened; the phase is then this one. Where the event is a reply that breaks the rules, `dead` is to follow.
    pub fn step(&mut self, event: &Event) -> Phase
        ensures kept { self.new ≡ step self.old event.now }
        ensures phase { result ≡ self.new.phase }
    {
        match event {
            Event::Put { request, .. } => self.put(request),
            Event::Took { reply, .. } => self.took(reply),
            Event::Dialed { .. } => {
                self.enter(dialed_phase(self.phase, self.session, self.client));
            }
            Event::Broke { .. } => self.enter(broke_phase(self.phase)),
            _ => {}
        }
        self.phase
    }

    /// The last event was a reply that breaks the rules: nothing goes out any more.
    pub fn dead(&mut self)
        ensures { self.new ≡ dead self.old }
    {
        self.enter(Phase::Dead);
    }
}
