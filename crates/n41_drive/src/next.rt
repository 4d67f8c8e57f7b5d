// The next command of a caller.
ghost use Rattle.std.specs.Prelude.{◌≡◌, take, IfSome, IfNone};
ghost use Rattle.n41_script.specs.declared.script.ScriptLine.{ScriptLine as LineValue};
ghost use Rattle.n41_drive.specs.Drives.{commands_of, IsNext};

use n41_script::ScriptLine;

/// The place of a caller's next command, from a place on. None where it has none there.
pub(crate) fn next_of(lines: &[ScriptLine], from: usize, caller: u32) -> Option<usize>
    ensures some { IfSome result (λ place. (line : LineValue) × IsNext lines.now caller from place line) }
    ensures none { IfNone result (commands_of caller lines.now ≡ commands_of caller (take from lines.now)) }
{
    for place in from..lines.len() {
        if lines[place].caller == caller {
            return Some(place);
        }
    }
    None
}
