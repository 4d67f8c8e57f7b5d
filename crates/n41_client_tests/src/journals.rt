// What a journal tells.

use n41_journal::{Cause, Event, Journal};
use n41_types::{NoMemory, Plan};
use std::alloc::Global;

/// The xids of the requests that were put on a connection, in their order.
pub(crate) fn xids(alloc: Global, journal: &Journal, on: u64) -> Result<Vec<u32>, NoMemory> {
    let mut list = Vec::new(alloc);
    for event in journal.as_slice() {
        match event {
            Event::Put { conn, request, .. } if *conn == on => list.push(request.xid)?,
            _ => {}
        }
    }
    Ok(list)
}

/// The turns of the requests that were put with this xid.
pub(crate) fn turns(alloc: Global, journal: &Journal, xid: u32) -> Result<Vec<u32>, NoMemory> {
    let mut list = Vec::new(alloc);
    for event in journal.as_slice() {
        if let Event::Put { request, .. } = event {
            match request.slot {
                Some(slot) if request.xid == xid => list.push(slot.turn)?,
                _ => {}
            }
        }
    }
    Ok(list)
}

/// The last moment before each request that was put.
pub(crate) fn moments(alloc: Global, journal: &Journal) -> Result<Vec<u64>, NoMemory> {
    let mut list = Vec::new(alloc);
    let mut now = 0;
    for event in journal.as_slice() {
        match event {
            Event::Ticked { moment } => now = *moment,
            Event::Put { .. } => list.push(now)?,
            _ => {}
        }
    }
    Ok(list)
}

/// The last moment before each answer.
pub(crate) fn answered(alloc: Global, journal: &Journal) -> Result<Vec<u64>, NoMemory> {
    let mut list = Vec::new(alloc);
    let mut now = 0;
    for event in journal.as_slice() {
        match event {
            Event::Ticked { moment } => now = *moment,
            Event::Answered { .. } => list.push(now)?,
            _ => {}
        }
    }
    Ok(list)
}

/// Where in their directories the READDIRs begin that were put: the cookie, and the verifier that goes with it.
pub(crate) fn cookies(alloc: Global, journal: &Journal) -> Result<Vec<(u64, [u8; 8])>, NoMemory> {
    let mut list = Vec::new(alloc);
    for event in journal.as_slice() {
        if let Event::Put { request, .. } = event {
            if let Plan::List { cookie, verf, .. } = &request.plan {
                list.push((*cookie, *verf))?;
            }
        }
    }
    Ok(list)
}

/// Why each connection broke.
pub(crate) fn causes(alloc: Global, journal: &Journal) -> Result<Vec<Cause>, NoMemory> {
    let mut list = Vec::new(alloc);
    for event in journal.as_slice() {
        if let Event::Broke { cause, .. } = event {
            list.push(*cause)?;
        }
    }
    Ok(list)
}

/// How many connections were made, and how many dials failed.
pub(crate) fn dials(journal: &Journal) -> (u64, u64) {
    let mut made: u64 = 0;
    let mut failed: u64 = 0;
    for event in journal.as_slice() {
        match event {
            Event::Dialed { .. } => made = made.saturating_add(1),
            Event::DialFailed => failed = failed.saturating_add(1),
            _ => {}
        }
    }
    (made, failed)
}
