// The callers of a script.
ghost use Rattle.std.specs.Prelude.{◌≡◌};
ghost use Rattle.n41_script.specs.Callers.{place};

use n41_types::Name;
use n41_words::is_word;

/// The place of a caller among at most 64 names.
pub(crate) fn place_of(names: &[Name], word: &[u8]) -> Option<usize>
    ensures { result ≡ place names.now word.now }
{
    names.iter().position(|name| is_word(name.as_slice(), word))
}
