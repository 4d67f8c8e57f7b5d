//! The records of a piece.
ghost use Rattle.std.specs.Prelude.{◌≡◌, ◌<◌, ◌++◌, List, ℕ, length};
ghost use Rattle.n41_record.specs.Partials.{Holds, IsHeld};
ghost use Rattle.n41_record.specs.Sound.{Steps, Gathers};

use crate::fault::GatherFault;
use crate::partial::{Partial, Taken};
use n41_types::Bytes;
use std::alloc::Global;
use std::collections::VecDeque;

// Uses the front of a piece, and answers what is left of it.
fn gather_some<'a>(
    alloc: Global,
    partial: &mut Partial,
    waiting: &mut VecDeque<Bytes>,
    piece: &'a [u8],
) -> Result<&'a [u8], GatherFault>
    requires some { 0 < length piece.now }
    requires held { IsHeld partial.old }
    ensures { (rest : List ℕ) → Holds partial.old rest
        → Steps (λ after. after.now) partial.new waiting.old.items waiting.new.items rest piece.now result }
{
    let Taken { after, whole } = partial.take(alloc, piece)?;
    match whole {
        Some(bytes) => waiting.push_back(Bytes::from_vec(bytes)?)?,
        None => (),
    }
    Ok(after)
}

/// Gathers all of a piece, up to a fault.
pub(crate) fn gather_all(
    alloc: Global,
    partial: &mut Partial,
    waiting: &mut VecDeque<Bytes>,
    piece: &[u8],
) -> Result<(), GatherFault>
    requires { IsHeld partial.old }
    ensures { (rest : List ℕ) → Holds partial.old rest
        → Gathers partial.new waiting.old.items waiting.new.items (rest ++ piece.now) result }
{
    let mut left = piece;
    while !left.is_empty() {
        let came = partial.came + left.len() as u64;
        match gather_some(alloc, partial, waiting, left) {
            Ok(after) => left = after,
            Err(fault) => {
                partial.came = came;
                return Err(fault);
            }
        }
    }
    Ok(())
}
