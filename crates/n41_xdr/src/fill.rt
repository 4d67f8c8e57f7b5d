ghost use Rattle.std.specs.Prelude.{◌≡◌};
ghost use Rattle.n41_xdr.specs.Spelling.{fill_len};

/// How many zeros fill `len` bytes to a multiple of four (RFC 4506, section 3).
pub(crate) fn fill_len(len: usize) -> usize
    ensures { result ≡ fill_len len }
{
    (4 - len % 4) % 4
}
