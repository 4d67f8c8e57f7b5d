ghost use Rattle.std.specs.Prelude.{◌≡◌, ◌≢◌};
ghost use Rattle.std.specs.Bool.{Decides};
ghost use Rattle.n41_seqid.specs.Seqids.{next, distance, is_newer, IsNewer};

/// How many changes lead to a newer seqid at most.
const HALF: u32 = 0x7FFF_FFFF;

/// The seqid that follows. After the greatest comes 1 (RFC 8881, section 8.2.2).
pub fn next(a: u32) -> u32
    requires { a ≢ 0 }
    ensures { result ≡ next a }
{
    if a == u32::MAX { 1 } else { a + 1 }
}

/// How many changes lead from one seqid to another, over the greatest where need be.
fn distance(from: u32, to: u32) -> u32
    requires { from ≢ 0 }
    ensures { result ≡ distance from to }
{
    if from <= to {
        to - from
    } else {
        u32::MAX - from + to
    }
}

/// Whether the distance from b to a is one of a newer seqid.
fn is_ahead(a: u32, b: u32) -> bool
    requires { b ≢ 0 }
    ensures { result ≡ is_newer a b }
{
    let changes = distance(b, a);
    1 <= changes && changes <= HALF
}

/// Whether a is newer than b: at least one change, and at most 2^31 - 1, lead from b to a.
pub fn newer(a: u32, b: u32) -> bool
    requires of { a ≢ 0 }
    requires than { b ≢ 0 }
    ensures value { result ≡ is_newer a b }
    ensures meaning { Decides result (IsNewer a b) }
{
    is_ahead(a, b)
}
