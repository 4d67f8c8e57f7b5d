// Runs of scripts over connections in memory.
ghost use Rattle.std.specs.Prelude.{◌<◌, All, OnOk, length};
ghost use Rattle.n41_link.specs.Links.{IsUnread, IsUnwritten};

use crate::journals::{causes, dials, xids};
use crate::messages::Says;
use n41_journal::{Cause, Journal};
use n41_link::{Inflow, Outflow};
use n41_mem::{MemClock, MemDialer, MemInflow, MemOutflow, SureListener, SureSink, SureSource};
use n41_run::{Finish, RunFault, run};
use n41_types::{Bytes, NoMemory};
use std::alloc::Global;
use std::sync::Wait;
use std::test::Fail;
use std::thread::Threads;

/// What there is outside: a script, what each of at most two connections brings, the numbers of the dials that fail beside those for which there
/// is no connection, the numbers of the reads and writes that fail on each connection, and the moments of the clock.
#[derive(Clone, Copy)]
pub(crate) struct Outside<'a> {
    pub(crate) script: &'a [u8],
    pub(crate) links: &'a [&'a [Bytes]],
    pub(crate) dials: &'a [u64],
    pub(crate) reads: &'a [u64],
    pub(crate) writes: &'a [u64],
    pub(crate) moments: &'a [u64],
}

/// This script and these connections, of which nothing fails, and a clock that stands at 5.
pub(crate) fn over<'a>(script: &'a [u8], links: &'a [&'a [Bytes]]) -> Outside<'a>
    ensures { 0 < length result.moments.now }
{
    Outside {
        script,
        links,
        dials: &[],
        reads: &[],
        writes: &[],
        moments: &[5],
    }
}

/// The words of a run, of which this is the first.
fn words(alloc: Global, verb: &str) -> Result<Vec<String>, NoMemory> {
    let mut texts = Vec::new(alloc);
    texts.push(String::from_str(alloc, verb)?)?;
    texts.push(String::from_str(alloc, "x:2049")?)?;
    Ok(texts)
}

/// Adds a connection that brings these pieces.
fn push_link(
    alloc: Global,
    links: &mut Vec<(MemInflow, MemOutflow)>,
    pieces: &[Bytes],
    outside: &Outside<'_>,
) -> Result<(), NoMemory>
    requires unread { All (λ link. IsUnread (⟦<MemInflow as Inflow>⟧.got link.0) (⟦<MemInflow as Inflow>⟧.faults link.0) (⟦<MemInflow as Inflow>⟧.quiets link.0) (⟦<MemInflow as Inflow>⟧.ends link.0)) links.old.items }
    requires unwritten { All (λ link. IsUnwritten (⟦<MemOutflow as Outflow>⟧.put link.1) (⟦<MemOutflow as Outflow>⟧.faults link.1)) links.old.items }
    ensures unread { OnOk result (All (λ link. IsUnread (⟦<MemInflow as Inflow>⟧.got link.0) (⟦<MemInflow as Inflow>⟧.faults link.0) (⟦<MemInflow as Inflow>⟧.quiets link.0) (⟦<MemInflow as Inflow>⟧.ends link.0)) links.new.items) }
    ensures unwritten { OnOk result (All (λ link. IsUnwritten (⟦<MemOutflow as Outflow>⟧.put link.1) (⟦<MemOutflow as Outflow>⟧.faults link.1)) links.new.items) }
{
    let inflow = MemInflow::new(alloc, pieces, outside.reads)?;
    let outflow = MemOutflow::new(alloc, outside.writes)?;
    links.push((inflow, outflow))?;
    Ok(())
}

/// The dialer of these connections.
fn dialer(alloc: Global, outside: &Outside<'_>) -> Result<MemDialer, NoMemory> {
    let mut links = Vec::new(alloc);
    if let Some(pieces) = outside.links.first() {
        push_link(alloc, &mut links, pieces, outside)?;
    }
    if let Some(pieces) = outside.links.get(1) {
        push_link(alloc, &mut links, pieces, outside)?;
    }
    MemDialer::new(alloc, links, outside.dials)
}

/// What is seen of a run: its status and fault, what it printed, the xids of the requests that were put on the first two connections, why each
/// connection broke, how many were made, how many dials failed, and the journal.
#[derive(Drop)]
pub(crate) struct Seen {
    pub(crate) status: u8,
    pub(crate) fault: Option<RunFault>,
    pub(crate) sink: SureSink,
    pub(crate) first: Vec<u32>,
    pub(crate) second: Vec<u32>,
    pub(crate) causes: Vec<Cause>,
    pub(crate) dials: (u64, u64),
    pub(crate) journal: Journal,
}

type Ended = Finish<MemDialer, SureListener, MemClock>;

fn look_at(alloc: Global, ended: Ended, sink: SureSink) -> Result<Seen, NoMemory> {
    let Finish {
        status,
        fault,
        journal,
        ..
    } = ended;
    Ok(Seen {
        status,
        fault,
        sink,
        first: xids(alloc, &journal, 1)?,
        second: xids(alloc, &journal, 2)?,
        causes: causes(alloc, &journal)?,
        dials: dials(&journal),
        journal,
    })
}

/// Runs the script, and prints the answers.
pub(crate) fn see<R: Threads + Wait + Sync>(
    rt: &R,
    alloc: Global,
    outside: Outside<'_>,
) -> Result<Seen, Fail>
    requires { 0 < length outside.moments.now }
{
    see_by(rt, alloc, "run", outside)
}

/// Does what this first word asks for with the script.
pub(crate) fn see_by<R: Threads + Wait + Sync>(
    rt: &R,
    alloc: Global,
    verb: &str,
    outside: Outside<'_>,
) -> Result<Seen, Fail>
    requires { 0 < length outside.moments.now }
{
    let words = words(alloc, verb)?;
    let mut source = SureSource::new(alloc, outside.script)?;
    let mut sink = SureSink::new(alloc);
    let dialer = dialer(alloc, &outside)?;
    let house = SureListener::new(Vec::new(alloc));
    let clock = MemClock::new(alloc, outside.moments)?;
    let ended = run(
        rt,
        alloc,
        &words,
        &mut source,
        &mut sink,
        dialer,
        house,
        clock,
    );
    Ok(look_at(alloc, ended, sink)?)
}

/// Whether these are the xids of the replies.
pub(crate) fn are_of(xids: &[u32], replies: &[Says]) -> bool {
    if xids.len() != replies.len() {
        return false;
    }
    for (xid, says) in xids.iter().zip(replies) {
        if *xid != says.0 {
            return false;
        }
    }
    true
}
