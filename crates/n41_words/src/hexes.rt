// Bytes in hexadecimal.
ghost use Rattle.n41_words.specs.Faults.{Gives};
ghost use Rattle.n41_words.specs.Numbers.{hex_bytes};

use crate::fault::{LineFault, LineKind};
use hex::FromHexError;
use n41_types::Bytes;
use std::alloc::Global;

/// The bytes that a word is in hexadecimal, in either case.
pub fn hex_bytes(alloc: Global, word: &[u8]) -> Result<Bytes, LineFault>
    ensures { Gives result (hex_bytes word.now) }
{
    if word.is_empty() {
        return Err(LineFault::Kind(LineKind::Hex));
    }
    match hex::decode(alloc, word) {
        Ok(bytes) => Ok(Bytes::from_vec(bytes)?),
        Err(FromHexError::OutOfMemory) => Err(LineFault::NoMemory),
        Err(_) => Err(LineFault::Kind(LineKind::Hex)),
    }
}
