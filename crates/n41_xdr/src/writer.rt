ghost use Rattle.std.specs.Prelude.{◌≡◌, ◌++◌, ◌<◌, ◌^◌, ◌↔◌, [], List, ℕ, length, IsTrue, OnOk, OnErr};
ghost use Rattle.n41_xdr.specs.Spelling.{word, hyper, boolean, fixed, opaque, fill};

use crate::fill::fill_len;
use std::alloc::{AllocError, Global};
use std::marker::Model;

/// Writes the basic types of XDR (RFC 4506) from left to right. Its value is the list of bytes so far.
///
/// A `put` is refused for want of memory alone, and then leaves these bytes as they were.
#[derive(Debug, Drop)]
pub struct Writer {
    bytes: Vec<u8>,
}

impl Model for Writer {
    ghost use Rattle.std.specs.Prelude.{List, ℕ};

    ghost Value = { List ℕ };

    ghost view = { λ w. w.bytes.items };
}

impl Writer {
    /// Takes no memory.
    pub fn new(alloc: Global) -> Writer
        ensures { result ≡ [] }
    {
        Writer {
            bytes: Vec::new(alloc),
        }
    }

    /// How many bytes are written.
    pub fn len(&self) -> usize
        ensures len { result ≡ length self.now }
        ensures bound { result < 2 ^ 63 }
    {
        self.bytes.len()
    }

    pub fn is_empty(&self) -> bool
        ensures { IsTrue result ↔ (self.now ≡ []) }
    {
        self.bytes.is_empty()
    }

    pub fn as_slice(&self) -> &[u8]
        ensures { result.now ≡ self.now }
    {
        self.bytes.as_slice()
    }

    /// Takes no memory.
    pub fn into_bytes(self) -> Vec<u8>
        ensures { result.items ≡ self }
    {
        self.bytes
    }

    /// Forgets what was written, and keeps the memory for what comes next.
    pub fn clear(&mut self)
        ensures { self.new ≡ [] }
    {
        self.bytes.clear();
    }

    /// The bytes as they are, with no fill.
    pub fn put_bytes(&mut self, bytes: &[u8]) -> Result<(), AllocError>
        ensures ok { OnOk result (self.new ≡ self.old ++ bytes.now) }
        ensures err { OnErr result (self.new ≡ self.old) }
    {
        self.bytes.extend_from_slice(bytes)
    }

    /// An unsigned integer of 4 bytes (RFC 4506, section 4.2).
    #[tactic(auto, unfolding(crate::specs::Spelling::word))]
    pub fn put_u32(&mut self, n: u32) -> Result<(), AllocError>
        ensures ok { OnOk result (self.new ≡ self.old ++ word n) }
        ensures err { OnErr result (self.new ≡ self.old) }
    {
        self.bytes.extend_from_slice(&n.to_be_bytes())
    }

    /// An unsigned hyper integer, of 8 bytes (RFC 4506, section 4.5).
    #[tactic(auto, unfolding(crate::specs::Spelling::hyper))]
    pub fn put_u64(&mut self, n: u64) -> Result<(), AllocError>
        ensures ok { OnOk result (self.new ≡ self.old ++ hyper n) }
        ensures err { OnErr result (self.new ≡ self.old) }
    {
        self.bytes.extend_from_slice(&n.to_be_bytes())
    }

    /// A bool (RFC 4506, section 4.4).
    #[tactic(auto, unfolding(crate::specs::Spelling::boolean))]
    pub fn put_bool(&mut self, flag: bool) -> Result<(), AllocError>
        ensures ok { OnOk result (self.new ≡ self.old ++ boolean flag) }
        ensures err { OnErr result (self.new ≡ self.old) }
    {
        if flag {
            self.put_u32(1)
        } else {
            self.put_u32(0)
        }
    }

    /// Fixed-length opaque data: the bytes and their fill (RFC 4506, section 4.9).
    #[tactic(auto, unfolding(crate::specs::Spelling::fixed))]
    pub fn put_fixed(&mut self, bytes: &[u8]) -> Result<(), AllocError>
        ensures ok { OnOk result (self.new ≡ self.old ++ fixed bytes.now) }
        ensures err { OnErr result (self.new ≡ self.old) }
    {
        let start = self.bytes.len();
        self.bytes.extend_from_slice(bytes)?;
        let zeros = [0, 0, 0];
        let filled = self
            .bytes
            .extend_from_slice(&zeros[..fill_len(bytes.len())]);
        if filled.is_err() {
            self.bytes.truncate(start);
        }
        filled
    }

    /// Variable-length opaque data: the length, the bytes and their fill (RFC 4506, section 4.10).
    #[tactic(auto, unfolding(crate::specs::Spelling::opaque))]
    pub fn put_opaque(&mut self, bytes: &[u8]) -> Result<(), AllocError>
        requires { length bytes.now < 2 ^ 32 }
        ensures ok { OnOk result (self.new ≡ self.old ++ opaque bytes.now) }
        ensures err { OnErr result (self.new ≡ self.old) }
    {
        let start = self.bytes.len();
        self.put_u32(bytes.len() as u32)?;
        let put = self.put_fixed(bytes);
        if put.is_err() {
            self.bytes.truncate(start);
        }
        put
    }
}
