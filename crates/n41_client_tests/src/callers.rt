// Several callers at once.

use crate::answers::LOOK;
use crate::breaks::{BOTH, BOTH_TOLD};
use crate::messages::{Told, joined, record, records};
use crate::runs::{over, see};
use n41_types::{Bytes, NoMemory};
use std::alloc::Global;
use std::test::Fail;

#[test]
fn two_replies_in_one_piece_are_two(rt: HostRuntime) -> Result<(), Fail> {
    let alloc = rt.alloc();
    let looks = [(5, Told::Root(0, 3, 1)), (6, Told::Root(1, 1, 2))];
    for order in [looks, [looks[1], looks[0]]] {
        let mut pieces = records(alloc, &LOOK[..4])?;
        pieces.push(joined(alloc, &order)?)?;
        pieces.push(record(alloc, (7, Told::SessionGone))?)?;
        pieces.push(record(alloc, (8, Told::ClientGone))?)?;
        let seen = see(&rt, alloc, over(BOTH, &[pieces.as_slice()]))?;
        assert_eq!(rt; seen.status, 0);
        assert_eq!(rt; seen.sink.bytes(), BOTH_TOLD);
    }
    Ok(())
}

const CALLERS: u32 = 64;

/// A look of each of 64 callers.
fn script(alloc: Global) -> Result<String, NoMemory> {
    let mut text = String::new(alloc);
    for caller in 0..CALLERS {
        text.push_str(&format!(in alloc; "c{caller} stat /\n")?)?;
    }
    Ok(text)
}

/// What they are told: each another fileid.
fn told(alloc: Global) -> Result<String, NoMemory> {
    let mut text = String::new(alloc);
    for caller in 0..CALLERS {
        let number = caller.saturating_add(1);
        let fileid = caller.saturating_add(1000);
        let line = format!(in alloc;
            "{number} c{caller} stat type 2 size 0 fileid {fileid} mode 0755\n"
        )?;
        text.push_str(&line)?;
    }
    Ok(text)
}

/// The reply to the look on a slot. Two turns of slot 0 were used before.
fn reply_on(alloc: Global, slot: u32) -> Result<Bytes, NoMemory> {
    let turn = if slot == 0 { 3 } else { 1 };
    let xid = slot.saturating_add(5);
    let fileid = slot.saturating_add(1000);
    record(alloc, (xid, Told::Root(slot, turn, fileid)))
}

/// The replies, of which that to the look on slot (i * factor + first) modulo 64 comes at place i of the looks.
fn shuffled(alloc: Global, factor: u32, first: u32) -> Result<Vec<Bytes>, NoMemory> {
    let mut pieces = records(alloc, &LOOK[..1])?;
    pieces.push(record(alloc, (2, Told::Made(CALLERS)))?)?;
    pieces.push(record(alloc, LOOK[2])?)?;
    pieces.push(record(alloc, LOOK[3])?)?;
    for place in 0..CALLERS {
        let slot = place.wrapping_mul(factor).wrapping_add(first) % CALLERS;
        pieces.push(reply_on(alloc, slot)?)?;
    }
    pieces.push(record(alloc, (69, Told::SessionGone))?)?;
    pieces.push(record(alloc, (70, Told::ClientGone))?)?;
    Ok(pieces)
}

#[test]
fn each_of_64_callers_has_its_own_reply(rt: HostRuntime) -> Result<(), Fail> {
    let alloc = rt.alloc();
    let script = script(alloc)?;
    let told = told(alloc)?;
    for (factor, first) in [(1, 0), (63, 63), (5, 11), (37, 2), (21, 40), (1, 32)] {
        let pieces = shuffled(alloc, factor, first)?;
        let links = [pieces.as_slice()];
        let seen = see(&rt, alloc, over(script.as_bytes(), &links))?;
        assert_eq!(rt; seen.status, 0, "{factor} {first}");
        assert_eq!(rt; seen.sink.bytes(), told.as_bytes(), "{factor} {first}");
        assert_eq!(rt; seen.first.len(), 70);
    }
    Ok(())
}
