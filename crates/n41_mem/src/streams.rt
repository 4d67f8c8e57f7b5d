// A source and a sink in memory.
ghost use Rattle.std.specs.Prelude.{◌≡◌, ◌≤◌, ◌<◌, ◌++◌, ◌+◌, ◌-◌, [], ℕ, List, length, take, drop, Some, IfOk, min};

use n41_link::{Failed, Sink, Source};
use n41_types::NoMemory;
use std::alloc::Global;

// Copies as many bytes as there is room for from a place on, and says how many.
pub fn copy_from(bytes: &[u8], at: usize, buf: &mut [u8]) -> usize
    requires { at ≤ length bytes.now }
    ensures count { result ≡ min (length bytes.now - at) (length buf.new) }
    ensures left { drop at bytes.now ≡ take result buf.new ++ drop (at + result) bytes.now }
{
    let n = buf.len().min(bytes.len() - at);
    buf[..n].copy_from_slice(&bytes[at..at + n]);
    n
}

/// Gives these bytes.
#[derive(Drop)]
pub struct SureSource {
    bytes: Vec<u8>,
    at: usize,
    ghost within: { at ≤ length bytes.items },
}

impl SureSource {
    pub fn new(alloc: Global, bytes: &[u8]) -> Result<SureSource, NoMemory>
        ensures { IfOk result (λ s. ⟦<SureSource as Source>⟧.left s ≡ Some bytes.now) }
    {
        Ok(SureSource {
            bytes: Vec::from_slice(alloc, bytes)?,
            at: 0,
        })
    }
}

impl Source for SureSource {
    ghost left = { λ s. Some (drop s.at s.bytes.items) };

    ghost faults = { λ _. 0 };

    fn read(&mut self, buf: &mut [u8]) -> Result<usize, Failed> {
        let n = copy_from(&self.bytes, self.at, buf);
        self.at += n;
        Ok(n)
    }
}

/// Keeps the bytes that were written. Want of memory is a fault.
#[derive(Drop)]
pub struct SureSink {
    taken: Vec<u8>,
    faults: u64,
}

impl SureSink {
    pub fn new(alloc: Global) -> SureSink
        ensures taken { ⟦<SureSink as Sink>⟧.taken result ≡ Some [] }
        ensures faults { ⟦<SureSink as Sink>⟧.faults result ≡ 0 }
    {
        SureSink {
            taken: Vec::new(alloc),
            faults: 0,
        }
    }

    /// The bytes that it has taken.
    pub fn bytes(&self) -> &[u8]
        ensures { ⟦<SureSink as Sink>⟧.taken self.now ≡ Some result.now }
    {
        &self.taken
    }
}

impl Sink for SureSink {
    ghost taken = { λ s. Some s.taken.items };

    ghost faults = { λ s. s.faults };

    fn write(&mut self, piece: &[u8]) -> Result<usize, Failed> {
        if self.taken.extend_from_slice(piece).is_err() {
            self.faults = self.faults.saturating_add(1);
            return Err(Failed);
        }
        Ok(piece.len())
    }
}
