// The two directions of a connection in memory.
ghost use Rattle.std.specs.Prelude.{◌≡◌, ◌≤◌, ◌<◌, ◌+◌, ◌++◌, ◌⊎◌, [], ℕ, List, length, take, drop, Some, IfOk, sum_by, vec_capacity};
ghost use Rattle.n41_link.specs.Flow.{with_rest};
ghost use Rattle.n41_link.specs.Links.{IsUnread, IsUnwritten};

use n41_link::{Came, Failed, Inflow, Outflow};
use n41_types::{Bytes, NoMemory};
use std::alloc::Global;
use std::collections::VecDeque;

/// Brings these pieces, and then the end. An empty piece is one quiet.
#[derive(Drop)]
pub struct SureInflow {
    // What is left of a piece of which a part was read.
    current: Bytes,
    more: VecDeque<Bytes>,
    past: Vec<u8>,
    quiets: u64,
    ends: u64,
    ghost room: { length past.items + (length current + sum_by length more.items) ≤ vec_capacity past },
}

impl SureInflow {
    pub fn new(alloc: Global, pieces: &[Bytes]) -> Result<SureInflow, NoMemory>
        ensures ahead { IfOk result (λ f. ⟦<SureInflow as Inflow>⟧.ahead f ≡ Some pieces.now) }
        ensures got { IfOk result (λ f. ⟦<SureInflow as Inflow>⟧.got f ≡ Some []) }
        ensures unread { IfOk result (λ f. IsUnread (⟦<SureInflow as Inflow>⟧.got f) (⟦<SureInflow as Inflow>⟧.faults f) (⟦<SureInflow as Inflow>⟧.quiets f) (⟦<SureInflow as Inflow>⟧.ends f)) }
    {
        let mut past = Vec::new(alloc);
        let mut more = VecDeque::new(alloc);
        for piece in pieces {
            past.extend_from_slice(piece.as_slice())?;
            more.push_back(piece.clone()?)?;
        }
        past.clear();
        Ok(SureInflow {
            current: Bytes::new(),
            more,
            past,
            quiets: 0,
            ends: 0,
        })
    }
}

// Gives as much of a piece as there is room for, and keeps it with what was given before.
fn give(piece: &mut Bytes, past: &mut Vec<u8>, buf: &mut [u8]) -> usize
    requires some { 0 < length piece.old }
    requires room { length past.old.items + length piece.old ≤ vec_capacity past.old }
    ensures bound { result ≤ length buf.new }
    ensures some { 0 < length buf.new → 0 < result }
    ensures piece { piece.old ≡ take result buf.new ++ piece.new }
    ensures full { (piece.new ≡ []) ⊎ (result ≡ length buf.new) }
    ensures past { past.new.items ≡ past.old.items ++ take result buf.new }
    ensures room { length past.new.items + length piece.new ≡ length past.old.items + length piece.old }
    ensures capacity { vec_capacity past.old ≤ vec_capacity past.new }
{
    let n = buf.len().min(piece.len());
    let (front, _) = buf.split_at_mut(n);
    front.copy_from_slice(&piece.as_slice()[..n]);
    past.extend_from_slice(front).unwrap();
    piece.advance(n);
    n
}

impl Inflow for SureInflow {
    ghost got = { λ f. Some f.past.items };

    ghost ahead = { λ f. Some (with_rest f.current f.more.items) };

    ghost faults = { λ _. 0 };

    ghost quiets = { λ f. f.quiets };

    ghost ends = { λ f. f.ends };

    fn read(&mut self, buf: &mut [u8]) -> Result<Came, Failed> {
        if self.current.is_empty() {
            let Some(piece) = self.more.pop_front() else {
                self.ends = self.ends.saturating_add(1);
                return Ok(Came::End);
            };
            if piece.is_empty() {
                self.quiets = self.quiets.saturating_add(1);
                return Ok(Came::Quiet);
            }
            self.current = piece;
        }
        Ok(Came::Bytes(give(&mut self.current, &mut self.past, buf)))
    }
}

/// Keeps the bytes that were written. Want of memory is a fault.
#[derive(Drop)]
pub struct SureOutflow {
    put: Vec<u8>,
    faults: u64,
}

impl SureOutflow {
    pub fn new(alloc: Global) -> SureOutflow
        ensures put { ⟦<SureOutflow as Outflow>⟧.put result ≡ Some [] }
        ensures unwritten { IsUnwritten (⟦<SureOutflow as Outflow>⟧.put result) (⟦<SureOutflow as Outflow>⟧.faults result) }
    {
        SureOutflow {
            put: Vec::new(alloc),
            faults: 0,
        }
    }

    /// The bytes that were written to it.
    pub fn bytes(&self) -> &[u8]
        ensures { ⟦<SureOutflow as Outflow>⟧.put self.now ≡ Some result.now }
    {
        &self.put
    }
}

impl Outflow for SureOutflow {
    ghost put = { λ s. Some s.put.items };

    ghost faults = { λ s. s.faults };

    fn write(&mut self, piece: &[u8]) -> Result<usize, Failed> {
        if self.put.extend_from_slice(piece).is_err() {
            self.faults = self.faults.saturating_add(1);
            return Err(Failed);
        }
        Ok(piece.len())
    }
}
