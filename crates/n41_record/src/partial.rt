//! The record that is under way.
ghost use Rattle.std.specs.Prelude.{◌≡◌, None, ◌+◌, ◌-◌, ◌≤◌, ◌<◌, ◌^◌, [], ℕ, List, ◌++◌, length, take, drop};
ghost use Rattle.n41_record.specs.Fragments.{header, most_bytes, most_fragments};
ghost use Rattle.n41_record.specs.Partials.{Holds, IsHeld, IsBetween, IsInside, Grows, Begins, Takes};

use crate::fault::GatherFault;
use std::alloc::Global;
use std::mem;

/// A record has at most so many bytes.
const MOST_BYTES: u64 = 1_114_112;

/// A record has at most so many fragments.
const MOST_FRAGMENTS: u32 = 4096;

/// A fragment whose header has come: whether it is the record's last, and how many of its bytes are to come.
#[derive(Clone, Copy)]
pub(crate) struct Open {
    pub(crate) last: bool,
    pub(crate) left: u32,
}

/// What has come of a record that is not whole.
#[derive(Drop)]
pub(crate) struct Partial {
    /// The bytes of its fragments, joined.
    pub(crate) bytes: Vec<u8>,
    /// How many of its fragments are whole.
    pub(crate) fragments: u32,
    /// The fragment that is under way.
    pub(crate) part: Option<Open>,
    /// What has come of the next header, where no fragment is under way.
    pub(crate) head: Vec<u8>,
    /// How many bytes have come, with headers.
    pub(crate) came: u64,
}

/// What is left of a piece, and the record that its front made whole.
pub(crate) struct Taken<'a> {
    pub(crate) after: &'a [u8],
    pub(crate) whole: Option<Vec<u8>>,
}

// A header's two parts.
#[tactic(auto, unfolding(crate::specs::Fragments::header))]
fn read_header(head: &[u8]) -> Open
    requires { length head.now ≡ 4 }
    ensures spelled { head.now ≡ header result.last result.left }
    ensures fits { result.left < 2 ^ 31 }
{
    let word = u32::from_be_bytes([head[0], head[1], head[2], head[3]]);
    if word < 1 << 31 {
        return Open {
            last: false,
            left: word,
        };
    }
    Open {
        last: true,
        left: word - (1 << 31),
    }
}

impl Partial {
    pub(crate) fn empty(alloc: Global) -> Partial
        ensures { Holds result [] }
    {
        Partial {
            bytes: Vec::new(alloc),
            fragments: 0,
            part: None,
            head: Vec::new(alloc),
            came: 0,
        }
    }

    // A fragment has come whole: so has its record, if it is the last.
    fn close(&mut self, alloc: Global, last: bool) -> Option<Vec<u8>>
        requires { self.old.fragments < most_fragments }
        ensures { (rest : List ℕ) → self.old.came ≡ length rest → IsInside self.old last 0 rest
            → Grows self.new rest result }
    {
        self.part = None;
        if !last {
            self.fragments += 1;
            return None;
        }
        self.fragments = 0;
        self.came = 0;
        Some(mem::replace(&mut self.bytes, Vec::new(alloc)))
    }

    // A header has come whole.
    fn begin(&mut self, alloc: Global) -> Result<Option<Vec<u8>>, GatherFault>
        requires { length self.old.head.items ≡ 4 }
        ensures { (rest : List ℕ) → self.old.came ≡ length rest → IsBetween self.old rest
            → Begins self.new rest result }
    {
        let Open { last, left } = read_header(&self.head);
        let sum = self.bytes.len() as u64 + left as u64;
        if sum > MOST_BYTES {
            return Err(GatherFault::TooLong(sum));
        }
        if self.fragments >= MOST_FRAGMENTS {
            return Err(GatherFault::TooMany);
        }
        self.head.clear();
        if left == 0 {
            return Ok(self.close(alloc, last));
        }
        self.part = Some(Open { last, left });
        Ok(None)
    }

    fn take_header<'a>(&mut self, alloc: Global, piece: &'a [u8]) -> Result<Taken<'a>, GatherFault>
        requires some { 0 < length piece.now }
        requires closed { self.old.part ≡ None }
        requires between { (rest : List ℕ) × (self.old.came ≡ length rest) × IsBetween self.old rest × (length self.old.head.items < 4) }
        ensures { (rest : List ℕ) → self.old.came ≡ length rest → IsBetween self.old rest
            → Takes self.new rest piece.now result }
    {
        let (front, after) = piece.split_at(piece.len().min(4 - self.head.len()));
        self.head.extend_from_slice(front)?;
        self.came += front.len() as u64;
        if self.head.len() < 4 {
            return Ok(Taken { after, whole: None });
        }
        let whole = self.begin(alloc)?;
        Ok(Taken { after, whole })
    }

    fn take_bytes<'a>(
        &mut self,
        alloc: Global,
        piece: &'a [u8],
        part: Open,
    ) -> Result<Taken<'a>, GatherFault>
        requires some { (0 < length piece.now) × (0 < part.left) }
        requires inside { (rest : List ℕ) × (self.old.came ≡ length rest) × IsInside self.old part.last part.left rest }
        ensures { (rest : List ℕ) → self.old.came ≡ length rest → IsInside self.old part.last part.left rest
            → Takes self.new rest piece.now result }
    {
        let (front, after) = piece.split_at(piece.len().min(part.left as usize));
        self.bytes.extend_from_slice(front)?;
        self.came += front.len() as u64;
        let left = part.left - front.len() as u32;
        if left == 0 {
            let whole = self.close(alloc, part.last);
            return Ok(Taken { after, whole });
        }
        self.part = Some(Open {
            last: part.last,
            left,
        });
        Ok(Taken { after, whole: None })
    }

    /// Uses what it can of a piece's front.
    pub(crate) fn take<'a>(
        &mut self,
        alloc: Global,
        piece: &'a [u8],
    ) -> Result<Taken<'a>, GatherFault>
        requires some { 0 < length piece.now }
        requires held { IsHeld self.old }
        ensures { (rest : List ℕ) → Holds self.old rest → Takes self.new rest piece.now result }
    {
        match self.part {
            None => self.take_header(alloc, piece),
            Some(part) => self.take_bytes(alloc, piece, part),
        }
    }
}
