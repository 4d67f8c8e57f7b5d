// Reading the script.
ghost use Rattle.std.specs.Prelude.{◌≡◌, IfOk, IfErr};
ghost use Rattle.n41_link.specs.Counts.{Counts};
ghost use Rattle.n41_perform.specs.Performs.{ReadScript, ReadFails, of_script, of_source, fails_to_read};

use crate::PerformFault;
use n41_link::Source;
use n41_script::{LineKind, SCRIPT_LIMIT, Script, ScriptFault, read_script};
use n41_streams::{ReadFault, read_all};
use std::alloc::Global;

/// What it means for the whole that a source was not read to its end.
fn fault_of_source(fault: ReadFault) -> PerformFault
    ensures { result ≡ of_source fault }
{
    match fault {
        ReadFault::TooLong => PerformFault::Script(0, LineKind::Limit),
        ReadFault::Failed => PerformFault::ReadFault,
        ReadFault::NoMemory => PerformFault::NoMemory,
    }
}

/// What it means for the whole that a text is no script.
fn fault_of_script(fault: ScriptFault) -> PerformFault
    ensures { result ≡ of_script fault }
{
    match fault {
        ScriptFault::Line { line, kind } => PerformFault::Script(line, kind),
        ScriptFault::NoMemory => PerformFault::NoMemory,
    }
}

/// Reads the source to its end, as a script.
pub(crate) fn read<S: Source>(alloc: Global, source: &mut S) -> Result<Script, PerformFault>
    ensures ok { IfOk result (λ s. ReadScript (S.left source.old) (S.left source.new) s) }
    ensures err { IfErr result (λ f. ReadFails f (S.left source.old) (S.left source.new)) }
    ensures cause { Counts (S.faults source.old) (S.faults source.new) (fails_to_read result) }
{
    let bytes = match read_all(alloc, source, SCRIPT_LIMIT) {
        Ok(bytes) => bytes,
        Err(fault) => return Err(fault_of_source(fault)),
    };
    match read_script(alloc, &bytes) {
        Ok(script) => Ok(script),
        Err(fault) => Err(fault_of_script(fault)),
    }
}
