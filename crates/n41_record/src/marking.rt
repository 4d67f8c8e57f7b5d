//! Writing a record.
ghost use Rattle.std.specs.Prelude.{◌≡◌, ◌≤◌, ◌++◌, length, IfOk, OnOk, OnErr, Bool, true};
ghost use Rattle.n41_record.specs.Fragments.{fragment, most_bytes};

use n41_types::{Bytes, NoMemory};
use std::alloc::Global;

/// Appends a record in one fragment, its mark and its bytes, to a kept buffer.
#[tactic(auto, unfolding(crate::specs::Fragments::header))]
pub fn append_marked(out: &mut Vec<u8>, bytes: &[u8]) -> Result<(), NoMemory>
    requires { length bytes.now ≤ most_bytes }
    ensures ok { OnOk result (out.new.items ≡ out.old.items ++ fragment true bytes.now) }
    ensures err { OnErr result (out.new.items ≡ out.old.items) }
{
    out.reserve(4 + bytes.len())?;
    let header = (1 << 31) + bytes.len() as u32;
    out.extend_from_slice(&header.to_be_bytes())?;
    out.extend_from_slice(bytes)
}

/// A record in one fragment (RFC 5531, section 11).
pub fn mark(alloc: Global, bytes: &[u8]) -> Result<Bytes, NoMemory>
    requires { length bytes.now ≤ most_bytes }
    ensures { IfOk result (λ text. text ≡ fragment true bytes.now) }
{
    let mut out = Vec::with_capacity(alloc, 4 + bytes.len())?;
    append_marked(&mut out, bytes)?;
    Ok(Bytes::from_vec(out)?)
}
