use crate::Recover;
use n41_journal::{Cause, Event};
use n41_model::Phase;
use n41_results::{Bound, Channel, Identity, Reply, ReplyBody, Res, Sequenced, SessionMade};
use n41_types::{Bytes, NoMemory, Plan, Request, Sequence, SessionId, SlotUse, Status};
use std::alloc::Global;

const SID: SessionId = SessionId([7; 16]);

fn step(recover: &mut Recover, event: Event) -> Phase {
    let phase = recover.step(&event);
    drop(event);
    phase
}

fn dial(recover: &mut Recover) -> Phase {
    step(recover, Event::Dialed { conn: 1 })
}

fn lose(recover: &mut Recover) -> Phase {
    step(
        recover,
        Event::Broke {
            conn: 1,
            cause: Cause::Ended,
        },
    )
}

/// A request with this xid and plan, on the first slot or on none.
fn put(recover: &mut Recover, xid: u32, slot: Option<SlotUse>, plan: Plan) -> Phase {
    step(
        recover,
        Event::Put {
            conn: 1,
            place: 0,
            request: Request {
                xid,
                uid: 0,
                gid: 0,
                minor: 1,
                slot,
                plan,
            },
        },
    )
}

fn on_slot() -> Option<SlotUse> {
    Some(SlotUse {
        sid: SID,
        slot: 0,
        turn: 1,
        highest: 0,
        cache: false,
    })
}

/// A reply with this one result.
fn reply(alloc: Global, xid: u32, status: Status, res: Res) -> Result<Reply, NoMemory> {
    let mut list = Vec::new(alloc);
    list.push(res)?;
    Ok(Reply {
        xid,
        body: ReplyBody::Results {
            status,
            list: Sequence::from_vec(alloc, list)?,
        },
    })
}

/// The phase after a reply with this one result; None for want of memory.
fn take(alloc: Global, recover: &mut Recover, xid: u32, status: Status, res: Res) -> Option<Phase> {
    match reply(alloc, xid, status, res) {
        Err(_) => None,
        Ok(reply) => Some(step(
            recover,
            Event::Took {
                conn: 1,
                place: 0,
                reply,
            },
        )),
    }
}

fn name(alloc: Global, recover: &mut Recover) -> Option<Phase> {
    let plan = Plan::ExchangeId {
        verifier: [0; 8],
        owner: Bytes::new(),
    };
    put(recover, 1, None, plan);
    let res = Res::ExchangeId(Ok(Identity {
        client: 9,
        sequence: 1,
        flags: 0,
        minor: 0,
        major: Bytes::new(),
        scope: Bytes::new(),
        implementation: None,
    }));
    take(alloc, recover, 1, Status::OK, res)
}

fn channel() -> Channel {
    Channel {
        header_pad: 0,
        request_max: 4096,
        reply_max: 4096,
        cached_max: 4096,
        ops_max: 8,
        requests_max: 4,
        ird: None,
    }
}

fn make(alloc: Global, recover: &mut Recover) -> Option<Phase> {
    put(recover, 2, None, Plan::CreateSession { client: 9, seq: 1 });
    let res = Res::CreateSession(Ok(SessionMade {
        sid: SID,
        sequence: 1,
        flags: 0,
        fore: channel(),
        back: channel(),
    }));
    take(alloc, recover, 2, Status::OK, res)
}

/// The phase after the reply to a request on a slot, which ends with this status behind SEQUENCE.
fn ask(
    alloc: Global,
    recover: &mut Recover,
    xid: u32,
    plan: Plan,
    status: Status,
) -> Option<Phase> {
    put(recover, xid, on_slot(), plan);
    let res = Res::Sequence(Ok(Sequenced {
        sid: SID,
        turn: 1,
        slot: 0,
        highest: 3,
        target: 3,
        flags: 0,
    }));
    take(alloc, recover, xid, status, res)
}

fn bind(alloc: Global, recover: &mut Recover, xid: u32) -> Option<Phase> {
    put(recover, xid, None, Plan::Bind { sid: SID });
    let res = Res::Bind(Ok(Bound {
        sid: SID,
        direction: 1,
        rdma: false,
    }));
    take(alloc, recover, xid, Status::OK, res)
}

/// A client in phase Running.
fn running(alloc: Global) -> Option<Recover> {
    let mut recover = Recover::new();
    dial(&mut recover);
    name(alloc, &mut recover)?;
    make(alloc, &mut recover)?;
    ask(alloc, &mut recover, 3, Plan::LeaseTime, Status::OK)?;
    Some(recover)
}

fn first_phases(alloc: Global) -> Option<(Phase, Phase, Phase, Phase, Phase)> {
    let mut recover = Recover::new();
    let dialed = dial(&mut recover);
    let named = name(alloc, &mut recover)?;
    let made = make(alloc, &mut recover)?;
    let completed = ask(alloc, &mut recover, 3, Plan::Complete, Status::OK)?;
    let asked = ask(alloc, &mut recover, 4, Plan::LeaseTime, Status::DELAY)?;
    Some((dialed, named, made, completed, asked))
}

#[test]
fn a_client_comes_to_run(rt: HostRuntime) {
    assert_eq!(rt; Recover::new().phase(), Phase::Down);
    assert_eq!(rt;
        first_phases(rt.alloc()),
        Some((
            Phase::ClientId,
            Phase::Session,
            Phase::Completing,
            Phase::Completing,
            Phase::Running,
        ))
    );
}

/// The phases through two breaks, of which one comes while the connection is being bound.
fn broken_phases(alloc: Global) -> Option<(Phase, Phase, Phase, Phase, Phase)> {
    let mut recover = running(alloc)?;
    let lost = lose(&mut recover);
    let dialed = dial(&mut recover);
    let again = lose(&mut recover);
    let once_more = dial(&mut recover);
    let bound = bind(alloc, &mut recover, 4)?;
    Some((lost, dialed, again, once_more, bound))
}

#[test]
fn work_goes_on_once_a_new_connection_is_bound(rt: HostRuntime) {
    assert_eq!(rt;
        broken_phases(rt.alloc()),
        Some((
            Phase::Down,
            Phase::Binding,
            Phase::Down,
            Phase::Binding,
            Phase::Running,
        ))
    );
}

/// The phases where the server does not know the connection of a request.
fn unbound_phases(alloc: Global) -> Option<(Phase, Phase)> {
    let mut recover = running(alloc)?;
    put(&mut recover, 4, on_slot(), Plan::Renew);
    let status = Status::CONN_NOT_BOUND_TO_SESSION;
    let res = Res::Sequence(Err(status));
    let unbound = take(alloc, &mut recover, 4, status, res)?;
    let bound = bind(alloc, &mut recover, 5)?;
    Some((unbound, bound))
}

#[test]
fn a_connection_that_is_not_bound_is_bound(rt: HostRuntime) {
    assert_eq!(rt;
        unbound_phases(rt.alloc()),
        Some((Phase::Binding, Phase::Running))
    );
}

fn dead_phases(alloc: Global) -> Option<(Phase, Phase)> {
    let mut recover = running(alloc)?;
    recover.dead();
    let dead = recover.phase();
    Some((dead, dial(&mut recover)))
}

#[test]
fn nothing_leads_out_of_dead(rt: HostRuntime) {
    assert_eq!(rt; dead_phases(rt.alloc()), Some((Phase::Dead, Phase::Dead)));
}
