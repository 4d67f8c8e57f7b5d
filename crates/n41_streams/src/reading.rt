// Reading a source to its end.
ghost use Rattle.std.specs.Prelude.{◌≡◌, ◌≤◌, ◌<◌, ◌++◌, ◌⊎◌, length, IfOk, IfErr, OnOk};
ghost use Rattle.n41_link.specs.Counts.{Counts, is_failed};
ghost use Rattle.n41_link.specs.Flow.{FitsIn, GivesOut};
ghost use Rattle.n41_streams.specs.Streams.{Gave, IsRead, ReadCause, is_failure};

use n41_link::{Failed, Source};
use n41_types::NoMemory;
use std::alloc::Global;

/// Why a source was not read to its end.
#[derive(Clone, Copy, Debug, PartialEq, Eq)]
pub enum ReadFault {
    /// It gives more bytes than there may be.
    TooLong,
    /// The source failed.
    Failed,
    NoMemory,
}

/// The most bytes that are read at once.
const STEP: usize = 65_536;

/// What is read into.
fn make_room(alloc: Global) -> Result<Vec<u8>, NoMemory>
    ensures { IfOk result (λ room. length room.items ≡ 65536) }
{
    vec![in alloc; 0u8; STEP]
}

/// Reads once.
fn read_once<S: Source>(source: &mut S, room: &mut Vec<u8>) -> Result<usize, Failed>
    ensures size { length room.new.items ≡ length room.old.items }
    ensures bound { FitsIn result room.new.items }
    ensures bytes { GivesOut (S.left source.old) (S.left source.new) result room.new.items }
    ensures cause { Counts (S.faults source.old) (S.faults source.new) (is_failed result) }
{
    source.read(room)
}

/// Puts a piece behind the bytes, if there may be so many.
fn put_piece(bytes: &mut Vec<u8>, piece: &[u8], most: usize) -> Result<(), ReadFault>
    requires { length bytes.old.items ≤ most }
    ensures ok { OnOk result ((bytes.new.items ≡ bytes.old.items ++ piece.now) × (length bytes.new.items ≤ most)) }
    ensures err { IfErr result (λ fault. (fault ≡ ReadFault.NoMemory) ⊎ ((fault ≡ ReadFault.TooLong) × (most < length (bytes.old.items ++ piece.now)))) }
{
    if piece.len() > most - bytes.len() {
        return Err(ReadFault::TooLong);
    }
    match bytes.extend_from_slice(piece) {
        Ok(()) => Ok(()),
        Err(_) => Err(ReadFault::NoMemory),
    }
}

#[tactic(auto, using(crate::proofs::Given::gave_more))]
/// Reads the source to its end, up to so many bytes; of a longer one at most 65,536 bytes more are read.
pub fn read_all<S: Source>(alloc: Global, source: &mut S, most: usize) -> Result<Vec<u8>, ReadFault>
    ensures ok { IfOk result (λ bytes. IsRead most (S.left source.old) (S.left source.new) bytes.items) }
    ensures err { IfErr result (λ fault. ReadCause fault most (S.left source.old) (S.left source.new)) }
    ensures cause { Counts (S.faults source.old) (S.faults source.new) (is_failure result) }
{
    let Ok(mut room) = make_room(alloc) else {
        return Err(ReadFault::NoMemory);
    };
    let mut bytes = Vec::new(alloc);
    loop {
        let Ok(n) = read_once(source, &mut room) else {
            return Err(ReadFault::Failed);
        };
        if n == 0 {
            return Ok(bytes);
        }
        if let Err(fault) = put_piece(&mut bytes, &room[..n], most) {
            return Err(fault);
        }
    }
}
