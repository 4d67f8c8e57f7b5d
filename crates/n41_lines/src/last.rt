// The last line.
ghost use Rattle.std.specs.Prelude.{◌≡◌, IfOk, string_bytes};
ghost use Rattle.n41_lines.specs.Lines.{last_line};

use n41_types::NoMemory;
use std::alloc::Global;

/// What stands behind the last whole record of a stream.
#[derive(Clone, Copy, Debug, PartialEq, Eq)]
pub enum Last {
    /// The stream's end, behind this many bytes that are no whole record, headers included.
    Rest(u64),
    /// A record with too many bytes.
    Long,
    /// A record with too many fragments.
    Many,
}

/// The last line of a dump, with its end (own).
#[tactic(auto, unfolding(crate::specs::Lines::last_line))]
pub fn last_line(alloc: Global, last: Last) -> Result<String, NoMemory>
    ensures { IfOk result (λ text. string_bytes text ≡ last_line last) }
{
    match last {
        Last::Rest(bytes) => format!(in alloc; "rest {bytes}\n"),
        Last::Long => String::from_str(alloc, "stop long\n"),
        Last::Many => String::from_str(alloc, "stop many\n"),
    }
}
