// Paths and their names.
ghost use Rattle.std.specs.Prelude.{◌≡◌, ◌==◌};
ghost use Rattle.std.specs.List.{slice_split};
ghost use Rattle.n41_words.specs.Faults.{Gives};
ghost use Rattle.n41_commands.specs.Paths.{is_dots, step, are_steps, path, target};

use n41_types::{Name, NameFault, Path, Sequence};
use n41_words::{LineFault, LineKind, is_word};
use std::alloc::Global;

/// The names that a path may have.
const PATH_LIMIT: usize = 16;

/// Whether the bytes are the name of a directory in itself or in the one below it.
fn is_dots(bytes: &[u8]) -> bool
    ensures { result ≡ is_dots bytes.now }
{
    is_word(bytes, b".") || is_word(bytes, b"..")
}

/// A name of a path.
fn step(alloc: Global, bytes: &[u8]) -> Result<Name, LineFault>
    ensures { Gives result (step bytes.now) }
{
    if is_dots(bytes) {
        return Err(LineFault::Kind(LineKind::Path));
    }
    match Name::of(alloc, bytes) {
        Ok(name) => Ok(name),
        Err(NameFault::NoMemory) => Err(LineFault::NoMemory),
        Err(_) => Err(LineFault::Kind(LineKind::Path)),
    }
}

/// The names of a path, which stand with a `/` between two of them.
fn steps(alloc: Global, text: &[u8]) -> Result<Path, LineFault>
    ensures { Gives result (are_steps (slice_split (λ c. c == 47) text.now)) }
{
    let mut names = Vec::new(alloc);
    for name in text.split(|byte| *byte == b'/') {
        if names.len() == PATH_LIMIT {
            return Err(LineFault::Kind(LineKind::Path));
        }
        names.push(step(alloc, name)?)?;
    }
    Ok(Sequence::from_vec(alloc, names)?)
}

/// The path that a word is.
pub(crate) fn path(alloc: Global, word: &[u8]) -> Result<Path, LineFault>
    ensures { Gives result (path word.now) }
{
    match word {
        [b'/'] => Ok(Sequence::from_vec(alloc, Vec::new(alloc))?),
        [b'/', behind @ ..] => steps(alloc, behind),
        _ => Err(LineFault::Kind(LineKind::Path)),
    }
}

/// The path that a word is, other than the root's.
pub(crate) fn target(alloc: Global, word: &[u8]) -> Result<Path, LineFault>
    ensures { Gives result (target word.now) }
{
    let path = path(alloc, word)?;
    if path.len() == 0 {
        return Err(LineFault::Kind(LineKind::Path));
    }
    Ok(path)
}
