ghost use Rattle.std.specs.Prelude.{◌≡◌, ◌<◌, ◌≤◌, ◌^◌, ◌↔◌, [], List, ℕ, length, IsTrue, IsOk, IfOk, OnErr, Ok, Err};
ghost use Rattle.std.specs.Int.{w32, w64};
ghost use Rattle.n41_xdr.specs.Reading.{Reads, taken_at, number_at, boolean_at, fixed_at, opaque_at, all_zero};
ghost use Rattle.n41_xdr.specs.Lawful.{IsBytes};

use crate::fault::XdrFault;
use crate::fill::fill_len;
use std::marker::Model;

/// Reads the basic types of XDR (RFC 4506) from left to right, with no memory of its own. Its value is the list of bytes that are left.
///
/// A call that answers a fault leaves these bytes as they were.
#[derive(Debug, Drop)]
pub struct Reader<'a> {
    rest: &'a [u8],
}

impl<'a> Model for Reader<'a> {
    ghost use Rattle.std.specs.Prelude.{List, ℕ};

    ghost Value = { List ℕ };

    ghost view = { λ r. r.rest.now };
}

fn all_zero(bytes: &[u8]) -> bool
    ensures { result ≡ all_zero bytes.now }
{
    for byte in bytes {
        if *byte != 0 {
            return false;
        }
    }
    true
}

impl<'a> Reader<'a> {
    pub fn new(bytes: &'a [u8]) -> Reader<'a>
        ensures left { result ≡ bytes.now }
        ensures bytes { IsBytes bytes.now }
    {
        Reader { rest: bytes }
    }

    /// How many bytes are left.
    pub fn len(&self) -> usize
        ensures len { result ≡ length self.now }
        ensures bound { result < 2 ^ 63 }
    {
        self.rest.len()
    }

    pub fn is_empty(&self) -> bool
        ensures { IsTrue result ↔ (self.now ≡ []) }
    {
        self.rest.is_empty()
    }

    /// The bytes that are left, of which none is taken.
    pub fn rest(&self) -> &'a [u8]
        ensures { result.now ≡ self.now }
    {
        self.rest
    }

    /// The next `len` bytes, with no fill.
    fn take(&mut self, len: usize) -> Result<&'a [u8], XdrFault>
        ensures { Reads (λ bytes. bytes.now) result self.old self.new (taken_at len self.old) }
    {
        if self.rest.len() < len {
            return Err(XdrFault::Short {
                need: len as u64,
                have: self.rest.len() as u64,
            });
        }
        let (front, rest) = self.rest.split_at(len);
        self.rest = rest;
        Ok(front)
    }

    /// An unsigned integer of 4 bytes (RFC 4506, section 4.2).
    pub fn u32(&mut self) -> Result<u32, XdrFault>
        ensures { Reads (λ n. n) result self.old self.new (number_at w32 self.old) }
    {
        let bytes = self.take(4)?;
        Ok(u32::from_be_bytes([bytes[0], bytes[1], bytes[2], bytes[3]]))
    }

    /// An unsigned hyper integer, of 8 bytes (RFC 4506, section 4.5).
    pub fn u64(&mut self) -> Result<u64, XdrFault>
        ensures { Reads (λ n. n) result self.old self.new (number_at w64 self.old) }
    {
        let bytes = self.take(8)?;
        Ok(u64::from_be_bytes([
            bytes[0], bytes[1], bytes[2], bytes[3], bytes[4], bytes[5], bytes[6], bytes[7],
        ]))
    }

    /// A bool (RFC 4506, section 4.4).
    #[tactic(auto, unfolding(crate::specs::Reading::boolean_at))]
    pub fn boolean(&mut self) -> Result<bool, XdrFault>
        ensures { Reads (λ flag. flag) result self.old self.new (boolean_at self.old) }
    {
        let start = self.rest;
        match self.u32()? {
            0 => Ok(false),
            1 => Ok(true),
            number => {
                self.rest = start;
                Err(XdrFault::BadBool(number))
            }
        }
    }

    /// Fixed-length opaque data: `len` bytes, behind which their fill is taken too (RFC 4506, section 4.9).
    ///
    /// Short comes before BadPad, and its `need` counts the fill.
    #[tactic(auto, unfolding(crate::specs::Reading::fixed_at))]
    pub fn fixed(&mut self, len: usize) -> Result<&'a [u8], XdrFault>
        requires { len < 2 ^ 63 }
        ensures read { Reads (λ bytes. bytes.now) result self.old self.new (fixed_at len self.old) }
        ensures whole { IfOk result (λ bytes. length bytes.now ≡ len) }
    {
        let start = self.rest;
        let filled = self.take(len + fill_len(len))?;
        let (bytes, fill) = filled.split_at(len);
        if !all_zero(fill) {
            self.rest = start;
            return Err(XdrFault::BadPad);
        }
        Ok(bytes)
    }

    /// Fixed-length opaque data of `N` bytes, copied into an array.
    pub fn array<const N: usize>(&mut self) -> Result<[u8; N], XdrFault>
        requires { N < 2 ^ 63 }
        ensures { Reads (λ bytes. bytes) result self.old self.new (fixed_at N self.old) }
    {
        let bytes = self.fixed(N)?;
        let mut array = [0; N];
        array.copy_from_slice(bytes);
        Ok(array)
    }

    /// Variable-length opaque data of at most `max` bytes (RFC 4506, section 4.10).
    ///
    /// TooLong comes before Short, and Short before BadPad.
    #[tactic(auto, unfolding(crate::specs::Reading::opaque_at))]
    pub fn opaque(&mut self, max: u32) -> Result<&'a [u8], XdrFault>
        ensures read { Reads (λ bytes. bytes.now) result self.old self.new (opaque_at max self.old) }
        ensures bound { IfOk result (λ bytes. length bytes.now ≤ max) }
    {
        let start = self.rest;
        let len = self.u32()?;
        if len > max {
            self.rest = start;
            return Err(XdrFault::TooLong { len, max });
        }
        match self.fixed(len as usize) {
            Ok(bytes) => Ok(bytes),
            Err(fault) => {
                self.rest = start;
                Err(fault)
            }
        }
    }

    /// Ends the reading: nothing may be left.
    pub fn finish(self) -> Result<(), XdrFault>
        ensures ok { IsOk result ↔ (self.entry ≡ []) }
        ensures left { OnErr result (result ≡ Err (XdrFault.Left (length self.entry))) }
    {
        if self.rest.is_empty() {
            Ok(())
        } else {
            Err(XdrFault::Left(self.rest.len()))
        }
    }
}
