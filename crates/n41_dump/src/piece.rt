// The pieces of a stream.
ghost use Rattle.std.specs.Prelude.{◌≡◌, ◌≤◌, ◌<◌, ◌+◌, ℕ, List, length, take, OnOk, IfOk, IfErr};
ghost use Rattle.std.specs.Io.KnownBytes.{IsAtEnd};
ghost use Rattle.n41_link.specs.Counts.{Counts};
ghost use Rattle.n41_dump.specs.Causes.{is_read_fault};
ghost use Rattle.n41_dump.specs.Dumps.{most_bytes};
ghost use Rattle.n41_streams.specs.Streams.{Gave};
ghost use Rattle.n41_dump.specs.Steps.{Reads};

use crate::DumpFault;
use n41_link::Source;

/// A stream has at most 16 MiB.
const MOST_BYTES: u64 = 16_777_216;

/// Reads once, and counts the bytes that came: none at the end.
pub(crate) fn read_piece<S: Source>(
    source: &mut S,
    room: &mut [u8],
    came: &mut u64,
) -> Result<usize, DumpFault>
    requires some { 0 < length room.old }
    requires within { came.old ≤ most_bytes }
    ensures size { length room.new ≡ length room.old }
    ensures reads { Reads result (S.left source.old) (S.left source.new) room.new came.old came.new }
    ensures cause { Counts (S.faults source.old) (S.faults source.new) (is_read_fault result) }
{
    let Ok(n) = source.read(room) else {
        return Err(DumpFault::ReadFault);
    };
    *came += n as u64;
    if *came > MOST_BYTES {
        return Err(DumpFault::Limit);
    }
    Ok(n)
}
