// The lines at the head of a script, each read from the words behind its first.
ghost use Rattle.std.specs.Prelude.{◌≡◌, ◌≤◌, length, IfOk, IfErr};
ghost use Rattle.n41_words.specs.Lines.{words};
ghost use Rattle.n41_words.specs.Faults.{Gives};
ghost use Rattle.n41_commands.specs.Heads.{id, ids, owner, HasId, LacksId};

use crate::ends::end_fault;
use n41_types::Bytes;
use n41_words::{LineFault, LineKind, has_control, missing, next_word, number};
use std::alloc::Global;

/// The bytes that an owner may have.
const OWNER_LIMIT: usize = 255;

/// Whom a client's requests are of (RFC 5531, appendix A).
#[derive(Clone, Copy, Debug, PartialEq, Eq)]
pub struct Ids {
    pub uid: u32,
    pub gid: u32,
}

fn id(word: &[u8]) -> Result<u32, LineKind>
    ensures { result ≡ id word.now }
{
    let id = number(word, u64::from(u32::MAX))?;
    Ok(id as u32)
}

/// The number at the front of these words, and what stands behind it.
fn next_id(long: bool, text: &[u8]) -> Result<(u32, &[u8]), LineFault>
    ensures ok { IfOk result (λ x. HasId x.0 long (words text.now) (words x.1.now)) }
    ensures err { IfErr result (λ f. LacksId f long (words text.now)) }
{
    let Some((word, rest)) = next_word(text) else {
        return Err(LineFault::Kind(missing(long, LineKind::Words)));
    };
    if has_control(word) {
        return Err(LineFault::Kind(LineKind::Byte));
    }
    Ok((id(word)?, rest))
}

/// The user and the group that the words behind `user` name. Where the line has more bytes than one may have, behind this text, it is `long`.
pub fn read_ids(long: bool, text: &[u8]) -> Result<Ids, LineFault>
    ensures { Gives result (ids long (words text.now)) }
{
    let (uid, behind) = next_id(long, text)?;
    let (gid, rest) = next_id(long, behind)?;
    match end_fault(long, rest) {
        Some(kind) => Err(LineFault::Kind(kind)),
        None => Ok(Ids { uid, gid }),
    }
}

/// The owner that the word behind `owner` names. Where the line has more bytes than one may have, behind this text, it is `long`.
pub fn read_owner(alloc: Global, long: bool, text: &[u8]) -> Result<Bytes, LineFault>
    ensures gives { Gives result (owner long (words text.now)) }
    ensures bound { IfOk result (λ o. length o ≤ 255) }
{
    let Some((word, rest)) = next_word(text) else {
        return Err(LineFault::Kind(missing(long, LineKind::Words)));
    };
    if has_control(word) {
        return Err(LineFault::Kind(LineKind::Byte));
    }
    if word.len() > OWNER_LIMIT {
        return Err(LineFault::Kind(LineKind::Limit));
    }
    if let Some(kind) = end_fault(long, rest) {
        return Err(LineFault::Kind(kind));
    }
    Ok(Bytes::copy_from_slice(alloc, word)?)
}
