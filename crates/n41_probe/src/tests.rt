use super::*;
use n41_link::{Dialer, Failed, Sink};
use n41_mem::{MemClock, MemDialer, MemInflow, MemOutflow, MemSink, SureSink};
use n41_types::Bytes;
use std::alloc::Global;
use std::test::Fail;

// The call of a probe at moment 5, with its mark.
const CALL: &[u8] = &[
    0x80, 0, 0, 0x6c, 0, 0, 0, 1, 0, 0, 0, 0, 0, 0, 0, 2, 0, 1, 0x86, 0xa3, 0, 0, 0, 4, 0, 0, 0, 1,
    0, 0, 0, 1, 0, 0, 0, 0x18, 0, 0, 0, 0, 0, 0, 0, 3, 0x6e, 0x34, 0x31, 0, 0, 0, 3, 0xe8, 0, 0, 3,
    0xe8, 0, 0, 0, 0, 0, 0, 0, 0, 0, 0, 0, 0, 0, 0, 0, 0, 0, 0, 0, 1, 0, 0, 0, 1, 0, 0, 0, 0x2a, 0,
    0, 0, 0, 0, 0, 0, 5, 0, 0, 0, 3, 0x6e, 0x34, 0x31, 0, 0, 0, 0, 0, 0, 0, 0, 0, 0, 0, 0, 0,
];

// Its reply: client id 7, sequence 1, no confirmed id, and the names srv.
const REPLY: &[u8] = &[
    0x80, 0, 0, 0x5c, 0, 0, 0, 1, 0, 0, 0, 1, 0, 0, 0, 0, 0, 0, 0, 0, 0, 0, 0, 0, 0, 0, 0, 0, 0, 0,
    0, 0, 0, 0, 0, 0, 0, 0, 0, 1, 0, 0, 0, 0x2a, 0, 0, 0, 0, 0, 0, 0, 0, 0, 0, 0, 7, 0, 0, 0, 1, 0,
    1, 0, 0, 0, 0, 0, 0, 0, 0, 0, 0, 0, 0, 0, 0, 0, 0, 0, 3, 0x73, 0x72, 0x76, 0, 0, 0, 0, 3, 0x73,
    0x72, 0x76, 0, 0, 0, 0, 0,
];

const LINE: &[u8] = b"client 7, sequence 1, confirmed no, server 737276, scope 737276\n";

// The reply with status NFS4ERR_DELAY and no body of a result.
const DELAY: &[u8] = &[
    0x80, 0, 0, 0x2c, 0, 0, 0, 1, 0, 0, 0, 1, 0, 0, 0, 0, 0, 0, 0, 0, 0, 0, 0, 0, 0, 0, 0, 0, 0, 0,
    0x27, 0x18, 0, 0, 0, 0, 0, 0, 0, 1, 0, 0, 0, 0x2a, 0, 0, 0x27, 0x18,
];

// A fragment that is not the last.
const UNFINISHED: &[u8] = &[0, 0, 0, 4, 1, 2, 3, 4];

// A fragment of more bytes than a record may have.
const TOO_LONG: &[u8] = &[0xff, 0xff, 0xff, 0xff];

type Ended = (Result<(), ProbeFault>, Option<Talk<MemInflow, MemOutflow>>);

// What the one connection brings, and the numbers of the calls that fail.
#[derive(Drop)]
struct Outside<'a> {
    pieces: &'a [&'a [u8]],
    dials: &'a [u64],
    reads: &'a [u64],
    writes: &'a [u64],
}

// A connection on which nothing fails.
fn bringing<'a>(pieces: &'a [&'a [u8]]) -> Outside<'a> {
    Outside {
        pieces,
        dials: &[],
        reads: &[],
        writes: &[],
    }
}

fn dialer_of(alloc: Global, outside: &Outside<'_>) -> Result<MemDialer, Fail> {
    let mut brought = Vec::new(alloc);
    for piece in outside.pieces {
        brought.push(Bytes::copy_from_slice(alloc, piece)?)?;
    }
    let inflow = MemInflow::new(alloc, &brought, outside.reads)?;
    let outflow = MemOutflow::new(alloc, outside.writes)?;
    let mut links = Vec::new(alloc);
    links.push((inflow, outflow))?;
    Ok(MemDialer::new(alloc, links, outside.dials)?)
}

fn probe_on<K: Sink>(alloc: Global, outside: &Outside<'_>, sink: &mut K) -> Result<Ended, Fail> {
    let mut dialer = dialer_of(alloc, outside)?;
    let mut clock = MemClock::new(alloc, &[5])?;
    Ok(probe(alloc, "x:2049", sink, &mut dialer, &mut clock))
}

#[test]
fn a_probe_prints_what_the_reply_says(rt: HostRuntime) -> Result<(), Fail> {
    // In one fragment, and in two.
    let rows: [[&[u8]; 6]; 2] = [
        [&REPLY[..3], &[], &REPLY[3..7], &[], &[], &REPLY[7..]],
        [
            &[0, 0, 0],
            &[3],
            &REPLY[4..7],
            &[],
            &[0x80, 0, 0, 0x59],
            &REPLY[7..],
        ],
    ];
    for pieces in rows {
        let mut sink = SureSink::new(rt.alloc());
        let (outcome, probed) = probe_on(rt.alloc(), &bringing(&pieces), &mut sink)?;
        assert_eq!(rt; outcome, Ok(()));
        assert_eq!(rt; sink.bytes(), LINE);
        let talk = probed.ok_or("there was a connection")?;
        assert_eq!(rt; talk.mouth.outflow().inner().bytes(), CALL);
    }
    Ok(())
}

// The reply of a client id that was confirmed, with a server without a name.
#[test]
fn a_confirmed_id_is_told(rt: HostRuntime) -> Result<(), Fail> {
    let pieces: [&[u8]; 5] = [
        &[0x80, 0, 0, 0x58],
        &REPLY[4..60],
        &[0x80, 1, 0, 0],
        &REPLY[64..79],
        &[0, 0, 0, 0, 2, 0x0a, 0xff, 0, 0, 0, 0, 0, 0],
    ];
    let mut sink = SureSink::new(rt.alloc());
    let (outcome, _) = probe_on(rt.alloc(), &bringing(&pieces), &mut sink)?;
    assert_eq!(rt; outcome, Ok(()));
    assert_eq!(rt;
        sink.bytes(),
        b"client 7, sequence 1, confirmed yes, server -, scope 0aff\n".as_slice()
    );
    Ok(())
}

// A dialer that knows one address, and counts its dials.
#[derive(Drop)]
struct At<'a> {
    address: &'a str,
    inner: MemDialer,
    dials: u64,
    faults: u64,
}

impl Dialer for At<'_> {
    type I = MemInflow;

    type O = MemOutflow;

    ghost faults = { λ d. d.faults };

    fn dial(&mut self, addr: &str) -> Result<(MemInflow, MemOutflow), Failed> {
        self.dials = self.dials.saturating_add(1);
        if addr == self.address {
            if let Ok(link) = self.inner.dial(addr) {
                return Ok(link);
            }
        }
        self.faults = self.faults.saturating_add(1);
        Err(Failed)
    }
}

// The address and the number of dials are in no clause: a dialer has no words for them.
#[test]
fn a_probe_dials_its_address_once(rt: HostRuntime) -> Result<(), Fail> {
    let pieces: [&[u8]; 1] = [REPLY];
    let mut dialer = At {
        address: "x:2049",
        inner: dialer_of(rt.alloc(), &bringing(&pieces))?,
        dials: 0,
        faults: 0,
    };
    let mut sink = SureSink::new(rt.alloc());
    let mut clock = MemClock::new(rt.alloc(), &[5])?;
    let (outcome, _) = probe(rt.alloc(), "x:2049", &mut sink, &mut dialer, &mut clock);
    assert_eq!(rt; outcome, Ok(()));
    assert_eq!(rt; dialer.dials, 1);
    Ok(())
}

#[test]
fn a_failed_connection_is_told(rt: HostRuntime) -> Result<(), Fail> {
    let none: &[u64] = &[];
    let first: &[u64] = &[1];
    for (piece, dials, reads, writes) in [
        (REPLY, first, none, none),
        (REPLY, none, first, none),
        (REPLY, none, none, first),
        (UNFINISHED, none, none, none),
        (TOO_LONG, none, none, none),
    ] {
        let pieces = [piece];
        let outside = Outside {
            pieces: &pieces,
            dials,
            reads,
            writes,
        };
        let mut sink = SureSink::new(rt.alloc());
        let (outcome, probed) = probe_on(rt.alloc(), &outside, &mut sink)?;
        assert_eq!(rt; outcome, Err(ProbeFault::Unreachable));
        assert_eq!(rt; probed.is_some(), dials.is_empty());
        assert!(rt; sink.bytes().is_empty());
    }
    Ok(())
}

#[test]
fn another_reply_is_a_breach(rt: HostRuntime) -> Result<(), Fail> {
    let rows: [(&str, [&[u8]; 5]); 6] = [
        ("status DELAY", [DELAY, &[], &[], &[], &[]]),
        ("xid 2", [&REPLY[..7], &[2], &REPLY[8..], &[], &[]]),
        (
            "a byte left over",
            [&[0x80, 0, 0, 0x5d], &REPLY[4..], &[0], &[], &[]],
        ),
        (
            "a second result, of PUTROOTFH",
            [
                &[0x80, 0, 0, 0x64],
                &REPLY[4..39],
                &[2],
                &REPLY[40..],
                &[0, 0, 0, 24, 0, 0, 0, 0],
            ],
        ),
        (
            "the result of PUTROOTFH",
            [
                &[0x80, 0, 0, 0x2c],
                &REPLY[4..43],
                &[24],
                &REPLY[44..48],
                &[],
            ],
        ),
        (
            "the call was not run: PROC_UNAVAIL",
            [&[0x80, 0, 0, 0x18], &REPLY[4..27], &[3], &[], &[]],
        ),
    ];
    for (what, pieces) in rows {
        let mut sink = SureSink::new(rt.alloc());
        let (outcome, _) = probe_on(rt.alloc(), &bringing(&pieces), &mut sink)?;
        assert_eq!(rt; outcome, Err(ProbeFault::Breach), "{what}");
        assert!(rt; sink.bytes().is_empty(), "{what}");
    }
    Ok(())
}

#[test]
fn sixty_quiets_or_a_failing_sink_end_a_probe(rt: HostRuntime) -> Result<(), Fail> {
    let quiet: &[u8] = &[];
    let mut pieces = [quiet; 61];
    for (patient, want) in [(59, Ok(())), (60, Err(ProbeFault::Unreachable))] {
        pieces[patient] = REPLY;
        let mut sink = SureSink::new(rt.alloc());
        let (outcome, _) = probe_on(rt.alloc(), &bringing(&pieces), &mut sink)?;
        assert_eq!(rt; outcome, want);
        pieces[patient] = quiet;
    }
    let pieces = [REPLY];
    let mut sink = MemSink::new(rt.alloc(), &[1])?;
    let (outcome, _) = probe_on(rt.alloc(), &bringing(&pieces), &mut sink)?;
    assert_eq!(rt; outcome, Err(ProbeFault::WriteFault));
    assert!(rt; sink.inner().bytes().is_empty());
    Ok(())
}

#[test]
fn a_reply_that_is_cut_is_never_printed(rt: HostRuntime) -> Result<(), Fail> {
    for len in 0..REPLY.len() {
        let pieces = [&REPLY[..len]];
        let mut sink = SureSink::new(rt.alloc());
        let (outcome, _) = probe_on(rt.alloc(), &bringing(&pieces), &mut sink)?;
        assert_eq!(rt; outcome, Err(ProbeFault::Unreachable));
        assert!(rt; sink.bytes().is_empty());
    }
    Ok(())
}
